//! The check of atoms that are to refute a policy. It knows nothing of how they were found.
ghost use Rattle.std.specs.Prelude.{◌≡◌, false, IsTrue};
ghost use Rattle.std.specs.List.{list_all, list_any};
ghost use Rattle.tp_model.specs.Policies.{allows};
ghost use Rattle.tp_why.specs.Refutation as refutation;
ghost use Rattle.tp_why.specs.mirrors.Said.{said_by};

use crate::atoms::{FalseAtom, is_met, is_same};
use tp_model::matches;
use tp_types::{Action, Cond, Credential, Name, Op, Policy, Rule, Value};

/// Atoms, each under the number of a rule, and the number of the rule that is looked at.
#[derive(Clone, Copy)]
struct Listed<'a> {
    atoms: &'a [FalseAtom],
    number: usize,
}

fn is_listed(listed: &Listed<'_>, issuer: &Name, attr: &Name, op: Op, wanted: &Value) -> bool
    ensures { result ≡ refutation.is_listed listed.now.atoms.now listed.now.number
        (record { issuer = issuer.now; attr = attr.now; op = op; wanted = wanted.now }) }
{
    listed.atoms.iter().any(|entry| {
        entry.rule == listed.number && is_same(&entry.atom, issuer, attr, op, wanted)
    })
}

/// Whether the condition is true where every atom counts as true that is not listed.
#[cycle(opening)]
#[tactic(auto, using(crate::proofs::OpenLemmas::open_atom, crate::proofs::OpenLemmas::open_and, crate::proofs::OpenLemmas::open_or))]
fn is_open(listed: &Listed<'_>, cond: &Cond) -> bool
    ensures { result ≡ refutation.is_open
        (refutation.is_listed listed.now.atoms.now listed.now.number) cond.now }
{
    match cond {
        Cond::True => true,
        Cond::Atom {
            issuer,
            attr,
            op,
            value,
        } => !is_listed(listed, issuer, attr, *op, value),
        Cond::And(members) => all_open(listed, members.as_slice()),
        Cond::Or(members) => any_open(listed, members.as_slice()),
    }
}

#[cycle(opening)]
fn all_open(listed: &Listed<'_>, members: &[Cond]) -> bool
    ensures { result ≡ list_all (refutation.is_open
        (refutation.is_listed listed.now.atoms.now listed.now.number)) members.now }
{
    for member in members {
        if !is_open(listed, member) {
            return false;
        }
    }
    true
}

#[cycle(opening)]
fn any_open(listed: &Listed<'_>, members: &[Cond]) -> bool
    ensures { result ≡ list_any (refutation.is_open
        (refutation.is_listed listed.now.atoms.now listed.now.number)) members.now }
{
    for member in members {
        if is_open(listed, member) {
            return true;
        }
    }
    false
}

fn is_false_entry(held: &[&Credential], entry: &FalseAtom) -> bool
    ensures { result ≡ refutation.is_false_entry (said_by held.now) entry.now }
{
    let atom = &entry.atom;
    !is_met(held, &atom.issuer, &atom.attr, atom.op, &atom.wanted)
}

/// Whether each atom that is listed for the rule is false.
fn are_false(listed: &Listed<'_>, held: &[&Credential]) -> bool
    ensures { result ≡ list_all
        (refutation.is_false_under (said_by held.now) listed.now.number) listed.now.atoms.now }
{
    listed.atoms.iter().all(|entry| entry.rule != listed.number || is_false_entry(held, entry))
}

fn is_rule_refuted(
    action: Action,
    item: &Name,
    held: &[&Credential],
    listed: &Listed<'_>,
    rule: &Rule,
) -> bool
    ensures { result ≡ refutation.is_rule_refuted action item.now (said_by held.now)
        listed.now.atoms.now listed.now.number rule.now }
{
    !matches(action, item, rule) || (are_false(listed, held) && !is_open(listed, &rule.cond))
}

/// Whether atoms refute a policy, on the credentials that count: of each rule that is about the action on the item
/// every atom that is listed for it is false, and its condition is false where every atom counts as true that is not
/// listed.
pub fn is_refuted(
    policy: &Policy,
    action: Action,
    item: &Name,
    held: &[&Credential],
    atoms: &[FalseAtom],
) -> bool
    ensures exact { result ≡ refutation.is_refuted policy.now action item.now (said_by held.now)
        atoms.now }
    ensures sound { IsTrue result → allows policy.now action item.now (said_by held.now) ≡ false }
{
    for (before, rule) in policy.rules.as_slice().iter().enumerate() {
        let listed = Listed {
            atoms,
            number: before + 1,
        };
        if !is_rule_refuted(action, item, held, &listed, rule) {
            return false;
        }
    }
    true
}
