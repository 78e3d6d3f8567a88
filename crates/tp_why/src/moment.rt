//! What decides at a place of a history which credentials count, and which of them do.
ghost use Rattle.std.specs.Prelude.{◌≡◌, ◌<◌, length, map, slice_get, IfOk};
ghost use Rattle.std.specs.Option.{option_copied};
ghost use Rattle.tp_model.specs.Credentials as credentials;
ghost use Rattle.tp_why.specs.Held as held;
ghost use Rattle.tp_why.specs.mirrors.Moments as mirror;
ghost use Rattle.tp_why.specs.mirrors.Said.{lent, said_by};

use std::alloc::Global;
use tp_types::{CredId, Credential, Fact, List, NoMemory, Place, Scenario, Transaction, What};

/// A place of a history, with the clock and the revocations there.
#[derive(Drop)]
pub struct Moment<'a> {
    pub scenario: &'a Scenario,
    pub facts: &'a [Fact],
    pub place: Place,
    /// The clock at the place. It may be past what a clock can count.
    pub clock: u128,
    /// Of each credential of the scenario whether it was revoked before the place.
    pub revoked: List<bool>,
    ghost dated: { clock ≡ credentials.clock_at scenario.now place facts.now },
    ghost marked: { mirror.IsMarked (length scenario.now.creds) (credentials.revoked_at place facts.now) revoked },
}

fn ticks(fact: &Fact) -> u64
    ensures { result ≡ credentials.tick_of fact.now }
{
    match &fact.what {
        What::Ticked(by) => *by,
        _ => 0,
    }
}

fn clock_at(scenario: &Scenario, place: Place, facts: &[Fact]) -> u128
    ensures { result ≡ credentials.clock_at scenario.now place facts.now }
{
    let mut clock = u128::from(scenario.clock);
    for fact in facts {
        if fact.place < place {
            clock += u128::from(ticks(fact));
        }
    }
    clock
}

/// Marks the credential that a fact revokes before the place, if it does.
fn mark(place: Place, fact: &Fact, revoked: &mut List<bool>)
    ensures { revoked.new ≡ mirror.marked_by place fact.now revoked.old }
{
    if fact.place < place {
        if let What::Revoked(cred) = &fact.what {
            revoked.put(cred.0 as usize, true);
        }
    }
}

fn revoked_at(
    alloc: Global,
    scenario: &Scenario,
    place: Place,
    facts: &[Fact],
) -> Result<List<bool>, NoMemory>
    ensures { IfOk result (λ revoked.
        mirror.IsMarked (length scenario.now.creds) (credentials.revoked_at place facts.now) revoked) }
{
    let mut revoked = List::from_vec(vec![in alloc; false; scenario.creds.len()]?);
    for fact in facts {
        mark(place, fact, &mut revoked);
    }
    Ok(revoked)
}

/// The clock and the revocations at a place: those of all ticks and revocations before it.
pub(crate) fn moment_at<'a>(
    alloc: Global,
    scenario: &'a Scenario,
    facts: &'a [Fact],
    place: Place,
) -> Result<Moment<'a>, NoMemory>
    ensures scenario { IfOk result (λ moment. moment.scenario.now ≡ scenario.now) }
    ensures facts { IfOk result (λ moment. moment.facts.now ≡ facts.now) }
    ensures place { IfOk result (λ moment. moment.place ≡ place) }
{
    let revoked = revoked_at(alloc, scenario, place, facts)?;
    let clock = clock_at(scenario, place, facts);
    Ok(Moment {
        scenario,
        facts,
        place,
        clock,
        revoked,
    })
}

/// Whether a credential of the scenario was revoked.
pub(crate) fn is_revoked(moment: &Moment<'_>, cred: CredId) -> bool
    requires { cred.0 < length moment.now.scenario.now.creds }
    ensures { result ≡ credentials.is_among
        (credentials.revoked_at moment.now.place moment.now.facts.now) cred }
{
    match moment.revoked.get(cred.0 as usize) {
        None => false,
        Some(revoked) => *revoked,
    }
}

fn is_current(moment: &Moment<'_>, credential: &Credential) -> bool
    ensures { result ≡ credentials.is_current moment.now.clock credential.now }
{
    u128::from(credential.from) <= moment.clock && moment.clock <= u128::from(credential.until)
}

/// The credential of this id, if it counts: it is the subject's, and valid.
fn counting<'a>(moment: &Moment<'a>, declared: &Transaction, cred: CredId) -> Option<&'a Credential>
    ensures { option_copied result ≡ held.counting moment.now.scenario.now moment.now.place
        moment.now.facts.now declared.now cred }
{
    let credential = moment.scenario.creds.get(cred.0 as usize)?;
    if credential.subject == declared.subject
        && is_current(moment, credential)
        && !is_revoked(moment, cred)
    {
        Some(credential)
    } else {
        None
    }
}

/// The credentials that a transaction presents and that count, in the order in which it presents them.
pub(crate) fn held_at<'a>(
    alloc: Global,
    moment: &Moment<'a>,
    declared: &Transaction,
) -> Result<List<&'a Credential>, NoMemory>
    ensures exact { IfOk result (λ made. map lent made
        ≡ held.held moment.now.scenario.now moment.now.place moment.now.facts.now declared.now) }
    ensures holdings { IfOk result (λ made. said_by made
        ≡ credentials.holdings moment.now.scenario.now moment.now.place moment.now.facts.now
        declared.now) }
{
    let mut made = List::new(alloc);
    for cred in declared.creds.as_slice() {
        if let Some(credential) = counting(moment, declared, *cred) {
            made.push(credential)?;
        }
    }
    Ok(made)
}
