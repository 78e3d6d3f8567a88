//! What a policy allows on what is held.
ghost use Rattle.std.specs.Prelude.{◌≡◌, slice_get, false};
ghost use Rattle.std.specs.Option.{option_map_or};
ghost use Rattle.std.specs.List.{list_all, list_any};
ghost use Rattle.tp_audit.specs.mirrors.Programs as program;
ghost use Rattle.tp_model.specs.Policies as policies;

use crate::credentials::{Held, is_valid};
use tp_model::{matches, meets};
use tp_types::{Action, Cond, CredId, Credential, Name, Op, Policy, Rule, Value};

/// What an atom of a condition asks of a credential.
#[derive(Clone, Copy)]
struct Atom<'a> {
    issuer: &'a Name,
    attr: &'a Name,
    op: Op,
    wanted: &'a Value,
}

fn says(held: &Held<'_>, credential: &Credential, atom: &Atom<'_>) -> bool
    ensures { result ≡ program.says (program.meets atom.now) held.now credential.now }
{
    credential.subject == *held.subject
        && meets(credential, atom.issuer, atom.attr, atom.op, atom.wanted)
}

fn is_said(held: &Held<'_>, cred: CredId, atom: &Atom<'_>) -> bool
    ensures { result ≡ option_map_or
        (program.says (program.meets atom.now) held.now)
        (slice_get held.now.scenario.now.creds cred.0) false }
{
    match held.scenario.creds.get(cred.0 as usize) {
        None => false,
        Some(credential) => says(held, credential, atom),
    }
}

fn shows(held: &Held<'_>, cred: CredId, atom: &Atom<'_>) -> bool
    ensures { result ≡ program.shows (program.meets atom.now) held.now cred }
{
    is_said(held, cred, atom) && is_valid(held.scenario, held.place, held.facts, cred)
}

fn is_met(held: &Held<'_>, atom: &Atom<'_>) -> bool
    ensures { result ≡ list_any (program.meets atom.now) (program.held_by held.now) }
{
    held.creds.iter().any(|cred| shows(held, *cred, atom))
}

/// The condition is true of what is held.
#[cycle(evaluation)]
#[tactic(auto, using(tp_model::proofs::ConditionLemmas::holds_atom, tp_model::proofs::ConditionLemmas::holds_and, tp_model::proofs::ConditionLemmas::holds_or))]
pub fn holds(held: &Held<'_>, cond: &Cond) -> bool
    ensures { result ≡ policies.holds (program.held_by held.now) cond.now }
{
    match cond {
        Cond::True => true,
        Cond::Atom {
            issuer,
            attr,
            op,
            value,
        } => {
            let atom = Atom {
                issuer,
                attr,
                op: *op,
                wanted: value,
            };
            is_met(held, &atom)
        }
        Cond::And(members) => all_hold(held, members.as_slice()),
        Cond::Or(members) => any_holds(held, members.as_slice()),
    }
}

#[cycle(evaluation)]
fn all_hold(held: &Held<'_>, members: &[Cond]) -> bool
    ensures { result ≡ list_all (policies.holds (program.held_by held.now)) members.now }
{
    for member in members {
        if !holds(held, member) {
            return false;
        }
    }
    true
}

#[cycle(evaluation)]
fn any_holds(held: &Held<'_>, members: &[Cond]) -> bool
    ensures { result ≡ list_any (policies.holds (program.held_by held.now)) members.now }
{
    for member in members {
        if holds(held, member) {
            return true;
        }
    }
    false
}

/// The rule is about the action on the item, and its condition is true of what is held.
pub fn rule_allows(asked: Action, item: &Name, held: &Held<'_>, rule: &Rule) -> bool
    ensures { result ≡ policies.rule_allows asked item.now (program.held_by held.now) rule.now }
{
    matches(asked, item, rule) && holds(held, &rule.cond)
}

/// The policy allows the action on the item, on what is held: some rule does.
pub fn allows(policy: &Policy, asked: Action, item: &Name, held: &Held<'_>) -> bool
    ensures { result ≡ policies.allows policy.now asked item.now (program.held_by held.now) }
{
    policy
        .rules
        .iter()
        .any(|rule| rule_allows(asked, item, held, rule))
}
