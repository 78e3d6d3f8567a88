//! Whether a certificate shows that a policy allows an action on an item.
ghost use Rattle.std.specs.Prelude.{◌≡◌, false};
ghost use Rattle.std.specs.List.{list_all, list_any};
ghost use Rattle.std.specs.Option.{option_map_or};
ghost use Rattle.tp_model.specs.Authorisation as authorisation;
ghost use Rattle.tp_model.specs.Policies as policies;
ghost use Rattle.tp_model.specs.Credentials.{is_valid_in};
ghost use Rattle.tp_cred.specs.Certificates.{is_checked};
ghost use Rattle.tp_cred.specs.mirrors.HeldBy.{held_by, holder_in};

use tp_cred::{Presented, shows};
use tp_model::{matches, rule_in};
use tp_types::{Action, Cond, Name, Op, Policy, Rule, Value};

fn is_met(held: &Presented<'_>, issuer: &Name, attr: &Name, op: Op, wanted: &Value) -> bool
    ensures { result ≡ list_any (policies.meets issuer.now attr.now op wanted.now)
        (held_by held.now) }
{
    held.creds
        .iter()
        .any(|cred| shows(held, *cred, issuer, attr, op, wanted))
}

#[cycle(evaluation)]
#[tactic(auto, using(tp_model::proofs::ConditionLemmas::holds_atom, tp_model::proofs::ConditionLemmas::holds_and, tp_model::proofs::ConditionLemmas::holds_or))]
fn holds(held: &Presented<'_>, cond: &Cond) -> bool
    ensures { result ≡ policies.holds (held_by held.now) cond.now }
{
    match cond {
        Cond::True => true,
        Cond::Atom {
            issuer,
            attr,
            op,
            value,
        } => is_met(held, issuer, attr, *op, value),
        Cond::And(members) => all_hold(held, members.as_slice()),
        Cond::Or(members) => any_holds(held, members.as_slice()),
    }
}

#[cycle(evaluation)]
fn all_hold(held: &Presented<'_>, members: &[Cond]) -> bool
    ensures { result ≡ list_all (policies.holds (held_by held.now)) members.now }
{
    for member in members {
        if !holds(held, member) {
            return false;
        }
    }
    true
}

#[cycle(evaluation)]
fn any_holds(held: &Presented<'_>, members: &[Cond]) -> bool
    ensures { result ≡ list_any (policies.holds (held_by held.now)) members.now }
{
    for member in members {
        if holds(held, member) {
            return true;
        }
    }
    false
}

fn allows(action: Action, item: &Name, held: &Presented<'_>, policy: &Policy, number: u32) -> bool
    ensures { result ≡ option_map_or (policies.rule_allows action item.now (held_by held.now))
        (authorisation.rule_in policy.now number) false }
{
    match rule_in(policy, number) {
        None => false,
        Some(rule) => matches(action, item, rule) && holds(held, &rule.cond),
    }
}

fn are_valid(held: &Presented<'_>) -> bool
    ensures { result ≡ list_all (is_valid_in held.now.store.now held.now.clock held.now.revoked.now)
        held.now.creds.now }
{
    held.creds
        .iter()
        .all(|cred| held.store.valid(*cred, held.clock, held.revoked))
}

/// Whether a certificate shows that the policy allows the action on the item: its rule, counted from 1, is one of the policy,
/// matches, and is true of what the used credentials alone say of the subject, and each of these is in the store and valid. Those
/// used are given as those presented; that the subject presented them is for the caller to test.
pub fn check(policy: &Policy, action: Action, item: &Name, held: &Presented<'_>, rule: u32) -> bool
    ensures { result ≡ is_checked policy.now action item.now (holder_in held.now)
        rule held.now.creds.now }
{
    allows(action, item, held, policy, rule) && are_valid(held)
}
