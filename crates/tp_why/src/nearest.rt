//! Of the credentials that a transaction presents the one that comes nearest to make an atom true.
ghost use Rattle.std.specs.Prelude.{◌≡◌, ◌<◌, length};
ghost use Rattle.tp_why.specs.Laws.{AbsentIsOfNone};
ghost use Rattle.tp_why.specs.Nearest as nearness;

use crate::atoms::Atom;
use crate::moment::{Moment, is_revoked};
use tp_model::meets;
use tp_types::{CredId, Credential, Transaction};

/// The first test that a credential of an atom's issuer and attribute fails.
#[derive(Clone, Copy)]
pub enum Fault {
    /// It is of another subject.
    Subject,
    /// Its value does not compare as is asked.
    Value,
    /// The clock is before its interval.
    Early,
    /// The clock is behind its interval.
    Late,
    /// It was revoked.
    Revoked,
}

/// A credential, and why it does not make an atom true.
#[derive(Clone, Copy)]
pub struct Failing {
    pub cred: CredId,
    pub fault: Fault,
}

fn is_of(atom: &Atom, credential: &Credential) -> bool
    ensures { result ≡ nearness.is_of atom.now credential.now }
{
    credential.issuer == atom.issuer && credential.attr == atom.attr
}

fn is_said(atom: &Atom, credential: &Credential) -> bool
    ensures { result ≡ nearness.is_said atom.now credential.now }
{
    meets(credential, &atom.issuer, &atom.attr, atom.op, &atom.wanted)
}

/// The first test that a credential of the scenario fails.
fn fault_of(
    moment: &Moment<'_>,
    declared: &Transaction,
    atom: &Atom,
    cred: CredId,
    credential: &Credential,
) -> Option<Fault>
    requires { cred.0 < length moment.now.scenario.now.creds }
    ensures { result ≡ nearness.fault_of moment.now.scenario.now moment.now.place
        moment.now.facts.now declared.now atom.now cred credential.now }
{
    if credential.subject != declared.subject {
        return Some(Fault::Subject);
    }
    if !is_said(atom, credential) {
        return Some(Fault::Value);
    }
    if moment.clock < u128::from(credential.from) {
        return Some(Fault::Early);
    }
    if u128::from(credential.until) < moment.clock {
        return Some(Fault::Late);
    }
    if is_revoked(moment, cred) {
        return Some(Fault::Revoked);
    }
    None
}

/// The credential of this id with its fault, if it is of the atom's issuer and attribute and has one.
fn failing_of(
    moment: &Moment<'_>,
    declared: &Transaction,
    atom: &Atom,
    cred: CredId,
) -> Option<Failing>
    ensures { result ≡ nearness.failing moment.now.scenario.now moment.now.place
        moment.now.facts.now declared.now atom.now cred }
{
    let credential = moment.scenario.creds.get(cred.0 as usize)?;
    if !is_of(atom, credential) {
        return None;
    }
    let fault = fault_of(moment, declared, atom, cred, credential)?;
    Some(Failing { cred, fault })
}

/// How many tests came before the one that was failed.
fn passed(fault: Fault) -> u32
    ensures { result ≡ nearness.passed fault }
{
    match fault {
        Fault::Subject => 0,
        Fault::Value => 1,
        Fault::Early => 2,
        Fault::Late => 3,
        Fault::Revoked => 4,
    }
}

/// The one that passed more tests, and the first where both passed as many.
fn nearer(one: Option<Failing>, other: Option<Failing>) -> Option<Failing>
    ensures { result ≡ nearness.nearer one other }
{
    match (one, other) {
        (None, _) => other,
        (Some(_), None) => one,
        (Some(first), Some(next)) => {
            if passed(first.fault) < passed(next.fault) {
                other
            } else {
                one
            }
        }
    }
}

/// Of the credentials that a transaction presents, and that are of the atom's issuer and attribute, the one that passed
/// the most tests, with the one that it failed; the first of several.
pub(crate) fn nearest(moment: &Moment<'_>, declared: &Transaction, atom: &Atom) -> Option<Failing>
    ensures { result ≡ nearness.nearest moment.now.scenario.now moment.now.place
        moment.now.facts.now declared.now atom.now }
{
    let mut best = None;
    for cred in declared.creds.as_slice() {
        best = nearer(best, failing_of(moment, declared, atom, *cred));
    }
    best
}

/// Of an atom that is false it is told that nothing comes near only where no presented credential is from its issuer,
/// with its attribute. Its body is empty: a law that only a definition states could stay unproved.
pub fn absent_is_of_none()
    ensures { AbsentIsOfNone }
{}
