//! Crashes between two places, and the servers of a transaction.
ghost use Rattle.std.specs.Prelude.{◌≡◌};
ghost use Rattle.tp_model.specs.Causes as causes;
ghost use Rattle.tp_model.specs.Trust as trust;

use crate::facts::has_query_on;
use crate::trust::is_within;
use tp_types::{Actor, Fact, List, Place, Scenario, ServerId, Transaction, TxnId, What};

fn is_server_crash(at: ServerId, fact: &Fact) -> bool
    ensures { result ≡ causes.is_crash_what (causes.is_server_actor at) fact.now.what }
{
    match &fact.what {
        What::Crashed(Actor::Server(other)) => *other == at,
        _ => false,
    }
}

fn is_own_crash(scenario: &Scenario, declared: &Transaction, fact: &Fact) -> bool
    ensures { result ≡ causes.is_crash_what (causes.is_own_server scenario.now declared.now)
        fact.now.what }
{
    match &fact.what {
        What::Crashed(Actor::Server(at)) => is_server_of(scenario, *at, declared),
        _ => false,
    }
}

fn is_coordinator_crash(txn: TxnId, fact: &Fact) -> bool
    ensures { result ≡ causes.is_crash_what (causes.is_coordinator_actor txn) fact.now.what }
{
    match &fact.what {
        What::Crashed(Actor::Coordinator(other)) => *other == txn,
        _ => false,
    }
}

/// The time between the submission of a transaction and a place.
#[derive(Clone, Copy)]
struct Period<'a> {
    txn: TxnId,
    end: Place,
    facts: &'a List<Fact>,
}

fn is_in_period(period: &Period<'_>, fact: &Fact) -> bool
    ensures { result
        ≡ trust.is_within period.now.txn period.now.end period.now.facts.now fact.now.place }
{
    is_within(period.txn, period.end, period.facts, fact.place)
}

fn is_server_crash_within(at: ServerId, period: &Period<'_>, fact: &Fact) -> bool
    ensures { result ≡ causes.is_crash_within
        (causes.is_server_actor at) period.now.txn period.now.end period.now.facts.now fact.now }
{
    is_server_crash(at, fact) && is_in_period(period, fact)
}

fn is_own_crash_within(
    scenario: &Scenario,
    declared: &Transaction,
    period: &Period<'_>,
    fact: &Fact,
) -> bool
    ensures { result ≡ causes.is_crash_within
        (causes.is_own_server scenario.now declared.now)
        period.now.txn period.now.end period.now.facts.now fact.now }
{
    is_own_crash(scenario, declared, fact) && is_in_period(period, fact)
}

fn is_coordinator_crash_within(period: &Period<'_>, fact: &Fact) -> bool
    ensures { result ≡ causes.is_crash_within
        (causes.is_coordinator_actor period.now.txn)
        period.now.txn period.now.end period.now.facts.now fact.now }
{
    is_coordinator_crash(period.txn, fact) && is_in_period(period, fact)
}

/// The server crashed between the submission and the decision.
pub fn server_crashed(at: ServerId, txn: TxnId, decided: Place, facts: &List<Fact>) -> bool
    ensures { result ≡ causes.crashed_within (causes.is_server_actor at) txn decided facts.now }
{
    let period = Period {
        txn,
        end: decided,
        facts,
    };
    facts
        .iter()
        .any(|fact| is_server_crash_within(at, &period, fact))
}

/// A server of the transaction crashed between its submission and the place, so that work of it may be lost.
pub fn lost_work(
    scenario: &Scenario,
    txn: TxnId,
    facts: &List<Fact>,
    declared: &Transaction,
    place: Place,
) -> bool
    ensures { result ≡ causes.lost_work scenario.now txn facts.now declared.now place }
{
    let period = Period {
        txn,
        end: place,
        facts,
    };
    facts.iter().any(|fact| is_own_crash_within(scenario, declared, &period, fact))
}

/// The coordinator crashed between the submission and the decision.
pub fn coordinator_crashed(txn: TxnId, decided: Place, facts: &List<Fact>) -> bool
    ensures { result ≡ causes.crashed_within
        (causes.is_coordinator_actor txn) txn decided facts.now }
{
    let period = Period {
        txn,
        end: decided,
        facts,
    };
    facts
        .iter()
        .any(|fact| is_coordinator_crash_within(&period, fact))
}

/// The server is one of the transaction's.
#[tactic(auto, using(crate::proofs::CauseLemmas::server_of))]
pub fn is_server_of(scenario: &Scenario, at: ServerId, declared: &Transaction) -> bool
    ensures { result ≡ causes.is_server_of scenario.now at declared.now }
{
    (at.0 as usize) < scenario.servers.len() && has_query_on(scenario, at, declared)
}
