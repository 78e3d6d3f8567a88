//! Denials of a history: what refutes the policy at the place, and the check of it.
ghost use Rattle.std.specs.Prelude.{◌≡◌, option_map, true, false, IfOk};
ghost use Rattle.std.specs.List.{list_all};
ghost use Rattle.tp_model.specs.Authorisation.{is_allowed};
ghost use Rattle.tp_model.specs.Causes.{denied_question};
ghost use Rattle.tp_model.specs.Credentials.{holdings};
ghost use Rattle.tp_why.specs.Denial as denial;
ghost use Rattle.tp_why.specs.mirrors.Asking.{lent_asked};
ghost use Rattle.tp_why.specs.mirrors.Said.{said_by};

use crate::atoms::FalseAtom;
use crate::check::is_refuted;
use crate::cut::refutation_of;
use crate::moment::{held_at, moment_at};
use std::alloc::Global;
use tp_model::{action_of, item_of, policy_at, query_at};
use tp_types::{
    Action, Credential, Denied, Fact, List, Name, NoMemory, Place, Policy, Scenario, Transaction,
};

/// What a denial is about: an action on an item, and the policy that does not allow it.
#[derive(Clone, Copy)]
pub struct Asked<'a> {
    pub action: Action,
    pub item: &'a Name,
    pub policy: &'a Policy,
}

/// What a denial is about, if its query, the item of it, and the version of the policy exist.
pub(crate) fn asked_of<'a>(
    scenario: &'a Scenario,
    declared: &'a Transaction,
    denied: &Denied,
) -> Option<Asked<'a>>
    ensures { option_map lent_asked result ≡ denial.asked_of scenario.now declared.now denied.now }
{
    let policy = policy_at(scenario, denied.admin, denied.version)?;
    let query = query_at(declared, denied.query)?;
    let item = scenario.items.get(item_of(query).0 as usize)?;
    Some(Asked {
        action: action_of(query),
        item: &item.name,
        policy,
    })
}

/// The credentials that a transaction presents and that count at a place.
fn held_in<'a>(
    alloc: Global,
    scenario: &'a Scenario,
    facts: &'a [Fact],
    place: Place,
    declared: &Transaction,
) -> Result<List<&'a Credential>, NoMemory>
    ensures { IfOk result (λ made.
        said_by made ≡ holdings scenario.now place facts.now declared.now) }
{
    let moment = moment_at(alloc, scenario, facts, place)?;
    held_at(alloc, &moment, declared)
}

fn refutation_at(
    alloc: Global,
    scenario: &Scenario,
    facts: &[Fact],
    place: Place,
    declared: &Transaction,
    asked: &Asked<'_>,
) -> Result<List<FalseAtom>, NoMemory>
    ensures { IfOk result (λ found. found
        ≡ denial.refutation_at scenario.now place facts.now declared.now (lent_asked asked.now)) }
{
    let held = held_in(alloc, scenario, facts, place, declared)?;
    refutation_of(
        alloc,
        asked.policy,
        asked.action,
        asked.item,
        held.as_slice(),
    )
}

fn is_refuted_at(
    alloc: Global,
    scenario: &Scenario,
    facts: &[Fact],
    place: Place,
    declared: &Transaction,
    asked: &Asked<'_>,
    atoms: &[FalseAtom],
) -> Result<bool, NoMemory>
    ensures { IfOk result (λ is_shown. is_shown
        ≡ denial.is_refuted_at scenario.now place facts.now declared.now atoms.now
        (lent_asked asked.now)) }
{
    let held = held_in(alloc, scenario, facts, place, declared)?;
    Ok(is_refuted(
        asked.policy,
        asked.action,
        asked.item,
        held.as_slice(),
        atoms,
    ))
}

/// The atoms by which a history shows a denial: what refutes the version of the policy on what the transaction holds at
/// the place. Where the query, its item or the version does not exist there are none, and none are needed.
pub fn denial_of(
    alloc: Global,
    scenario: &Scenario,
    facts: &[Fact],
    declared: &Transaction,
    denied: &Denied,
) -> Result<List<FalseAtom>, NoMemory>
    ensures exact { IfOk result (λ found.
        found ≡ denial.denial scenario.now facts.now declared.now denied.now) }
    ensures complete { is_allowed scenario.now facts.now declared.now (denied_question denied.now) ≡ false
        → IfOk result (λ found.
        denial.is_shown scenario.now facts.now declared.now denied.now found ≡ true) }
{
    match asked_of(scenario, declared, denied) {
        None => Ok(List::new(alloc)),
        Some(asked) => refutation_at(alloc, scenario, facts, denied.place, declared, &asked),
    }
}

/// Whether atoms show a denial of a history: they refute the version of the policy on what the transaction holds at the
/// place.
pub fn is_denial_shown(
    alloc: Global,
    scenario: &Scenario,
    facts: &[Fact],
    declared: &Transaction,
    denied: &Denied,
    atoms: &[FalseAtom],
) -> Result<bool, NoMemory>
    ensures exact { IfOk result (λ is_shown.
        is_shown ≡ denial.is_shown scenario.now facts.now declared.now denied.now atoms.now) }
    ensures sound { IfOk result (λ is_shown.
        is_shown ≡ true
        → is_allowed scenario.now facts.now declared.now (denied_question denied.now) ≡ false) }
{
    match asked_of(scenario, declared, denied) {
        None => Ok(true),
        Some(asked) => {
            is_refuted_at(
                alloc,
                scenario,
                facts,
                denied.place,
                declared,
                &asked,
                atoms,
            )
        }
    }
}
