//! When a verdict is a proof of authorisation that evaluates true.
ghost use Rattle.std.specs.Prelude.{◌≡◌, ◌&&◌, filter, false, Bool, List, ℕ};
ghost use Rattle.std.specs.List.{list_all};
ghost use Rattle.std.specs.Option.{option_copied, option_map_or};
ghost use Rattle.tp_model.specs.Words.{Action, Policy};
ghost use Rattle.tp_audit.specs.mirrors.Programs as program;
ghost use Rattle.tp_model.specs.Authorisation as authorisation;
ghost use Rattle.tp_model.specs.Credentials as credentials;
ghost use Rattle.tp_model.specs.Policies as policies;
ghost use Rattle.tp_model.specs.Queries as queries;

use crate::credentials::{Held, is_presented, is_valid};
use crate::policies::{allows, rule_allows};
use tp_model::{action_of, item_of, policy_at, query_at, rule_in};
use tp_types::{
    AdminId, CredId, Fact, Item, List, Place, Policy, Query, Rule, Scenario, ServerId, Transaction,
    Verdict, Version,
};

fn is_query_at(scenario: &Scenario, at: ServerId, admin: AdminId, query: &Query) -> bool
    ensures { result ≡ authorisation.is_query_at scenario.now at admin query.now }
{
    match scenario.items.get(item_of(query).0 as usize) {
        None => false,
        Some(item) => item.server == at && item.admin == admin,
    }
}

/// The number is a query of the transaction, and the server and the administrator are those of its item.
pub fn is_own_query(
    scenario: &Scenario,
    txn: &Transaction,
    number: u32,
    at: ServerId,
    admin: AdminId,
) -> bool
    ensures { result ≡ authorisation.is_own_query scenario.now txn.now number at admin }
{
    match query_at(txn, number) {
        None => false,
        Some(query) => is_query_at(scenario, at, admin, query),
    }
}

/// A policy, with the query and its item that it is asked about.
#[derive(Clone, Copy)]
struct Case<'a> {
    policy: &'a Policy,
    query: &'a Query,
    item: &'a Item,
}

fn case_in<'a>(scenario: &'a Scenario, query: &'a Query, policy: &'a Policy) -> Option<Case<'a>>
    ensures { (test : Action → List ℕ → Policy → Bool)
        → authorisation.tests_query test scenario.now (Some query.now) policy.now
        ≡ program.tests_case test result }
{
    match scenario.items.get(item_of(query).0 as usize) {
        None => None,
        Some(item) => Some(Case {
            policy,
            query,
            item,
        }),
    }
}

fn case_under<'a>(
    scenario: &'a Scenario,
    txn: &'a Transaction,
    number: u32,
    policy: &'a Policy,
) -> Option<Case<'a>>
    ensures { (test : Action → List ℕ → Policy → Bool)
        → authorisation.tests_query test scenario.now (queries.query_at txn.now number) policy.now
        ≡ program.tests_case test result }
{
    match query_at(txn, number) {
        None => None,
        Some(query) => case_in(scenario, query, policy),
    }
}

fn case_of<'a>(
    scenario: &'a Scenario,
    txn: &'a Transaction,
    number: u32,
    admin: AdminId,
    version: Version,
) -> Option<Case<'a>>
    ensures { (test : Action → List ℕ → Policy → Bool)
        → authorisation.tests_version test scenario.now txn.now number
        (authorisation.policy_at scenario.now admin version)
        ≡ program.tests_case test result }
{
    match policy_at(scenario, admin, version) {
        None => None,
        Some(policy) => case_under(scenario, txn, number, policy),
    }
}

fn allows_case(held: &Held<'_>, case: &Case<'_>) -> bool
    ensures { result ≡ policies.allows case.now.policy.now
        (authorisation.action_of case.now.query.now) case.now.item.now.name
        (program.held_by held.now) }
{
    allows(case.policy, action_of(case.query), &case.item.name, held)
}

/// The version of the administrator's policy allows the query, on what the transaction holds at the place.
pub fn is_allowed(
    scenario: &Scenario,
    facts: &List<Fact>,
    txn: &Transaction,
    number: u32,
    admin: AdminId,
    version: Version,
    place: Place,
) -> bool
    ensures { result ≡ authorisation.is_allowed scenario.now facts.now txn.now
        (record { query = number; admin = admin; version = version; place = place }) }
{
    let held = Held {
        scenario,
        facts,
        place,
        subject: &txn.subject,
        creds: &txn.creds,
    };
    match case_of(scenario, txn, number, admin, version) {
        None => false,
        Some(case) => allows_case(&held, &case),
    }
}

fn rule_of(policy: &Policy, number: Option<u32>) -> Option<&Rule>
    ensures { option_copied result ≡ authorisation.rule_of policy.now number }
{
    match number {
        None => None,
        Some(counted) => rule_in(policy, counted),
    }
}

fn proves_case(held: &Held<'_>, rule: Option<u32>, case: &Case<'_>) -> bool
    ensures { result ≡ option_map_or
        (policies.rule_allows (authorisation.action_of case.now.query.now) case.now.item.now.name
        (program.held_by held.now))
        (authorisation.rule_of case.now.policy.now rule) false }
{
    match rule_of(case.policy, rule) {
        None => false,
        Some(rule) => rule_allows(action_of(case.query), &case.item.name, held, rule),
    }
}

fn is_proved(scenario: &Scenario, facts: &List<Fact>, txn: &Transaction, verdict: &Verdict) -> bool
    ensures { result ≡ program.is_proved scenario.now facts.now txn.now verdict.now }
{
    let held = Held {
        scenario,
        facts,
        place: verdict.place,
        subject: &txn.subject,
        creds: &verdict.uses,
    };
    match case_of(scenario, txn, verdict.query, verdict.admin, verdict.version) {
        None => false,
        Some(case) => proves_case(&held, verdict.rule, &case),
    }
}

fn is_usable(
    scenario: &Scenario,
    place: Place,
    facts: &List<Fact>,
    txn: &Transaction,
    cred: CredId,
) -> bool
    ensures { result ≡ authorisation.is_usable scenario.now place facts.now txn.now cred }
{
    is_presented(txn, cred) && is_valid(scenario, place, facts, cred)
}

fn are_usable(
    scenario: &Scenario,
    place: Place,
    facts: &List<Fact>,
    txn: &Transaction,
    creds: &List<CredId>,
) -> bool
    ensures { result ≡ list_all
        (authorisation.is_usable scenario.now place facts.now txn.now) creds.now }
{
    creds
        .iter()
        .all(|cred| is_usable(scenario, place, facts, txn, *cred))
}

#[tactic(auto, using(crate::proofs::HeldLemmas::certified_by_valid))]
fn is_certified(
    scenario: &Scenario,
    facts: &List<Fact>,
    txn: &Transaction,
    verdict: &Verdict,
) -> bool
    ensures { result ≡ authorisation.is_certified scenario.now facts.now txn.now verdict.now }
{
    are_usable(scenario, verdict.place, facts, txn, &verdict.uses)
        && is_proved(scenario, facts, txn, verdict)
}

/// The verdict is a proof of authorisation that evaluates true.
pub fn is_true_verdict(
    scenario: &Scenario,
    facts: &List<Fact>,
    txn: &Transaction,
    verdict: &Verdict,
) -> bool
    ensures { result ≡ authorisation.is_true_verdict scenario.now facts.now txn.now verdict.now }
{
    is_own_query(scenario, txn, verdict.query, verdict.server, verdict.admin)
        && is_allowed(
            scenario,
            facts,
            txn,
            verdict.query,
            verdict.admin,
            verdict.version,
            verdict.place,
        )
        && is_certified(scenario, facts, txn, verdict)
}
