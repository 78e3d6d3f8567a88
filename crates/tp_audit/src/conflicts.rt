//! Aborts since an older transaction in conflict stood in the way: wait-die.
ghost use Rattle.std.specs.Prelude.{◌≡◌};
ghost use Rattle.std.specs.List.{list_any};
ghost use Rattle.tp_model.specs.Causes as causes;
ghost use Rattle.tp_model.specs.Facts as history;

use crate::facts::{is_settlement, is_submission, was_submitted};
use crate::refusals::is_write_of;
use crate::trust::is_within;
use tp_model::{is_at_server, item_of, query_at};
use tp_types::{Died, Fact, List, Place, Query, Scenario, ServerId, Transaction, TxnId};

fn is_conflict(one: &Query, other: &Query) -> bool
    ensures { result ≡ causes.is_conflict one.now other.now }
{
    is_write_of(item_of(other), one) || is_write_of(item_of(one), other)
}

fn conflicts_with(query: &Query, declared: &Transaction) -> bool
    ensures { result ≡ causes.conflicts_with query.now declared.now }
{
    declared
        .queries
        .iter()
        .any(|other| is_conflict(query, other))
}

fn has_conflict(scenario: &Scenario, other: TxnId, query: &Query) -> bool
    ensures { result ≡ causes.has_conflict scenario.now other query.now }
{
    match scenario.txns.get(other.0 as usize) {
        None => false,
        Some(declared) => conflicts_with(query, declared),
    }
}

fn has_contested_query(scenario: &Scenario, declared: &Transaction, died: &Died) -> bool
    ensures { result ≡ causes.has_contested_query scenario.now declared.now died.now }
{
    match query_at(declared, died.query) {
        None => false,
        Some(query) => {
            is_at_server(scenario, died.server.0, query)
                && has_conflict(scenario, died.other, query)
        }
    }
}

fn submitted_at(txn: TxnId, facts: &List<Fact>) -> Option<Place>
    ensures { result ≡ causes.submitted_at txn facts.now }
{
    facts
        .iter()
        .find(|fact| is_submission(txn, fact))
        .map(|fact| fact.place)
}

fn was_submitted_before(other: TxnId, txn: TxnId, facts: &List<Fact>) -> bool
    ensures { result ≡ causes.was_submitted_before other txn facts.now }
{
    match submitted_at(txn, facts) {
        None => false,
        Some(place) => was_submitted(other, place, facts),
    }
}

fn was_settled(at: ServerId, txn: TxnId, place: Place, facts: &List<Fact>) -> bool
    ensures { result ≡ list_any (history.is_settlement at txn) (history.before place facts.now) }
{
    facts
        .iter()
        .filter(|fact| fact.place < place)
        .any(|fact| is_settlement(at, txn, fact))
}

fn was_settled_before(at: ServerId, other: TxnId, txn: TxnId, facts: &List<Fact>) -> bool
    ensures { result ≡ causes.was_settled_before at other txn facts.now }
{
    match submitted_at(txn, facts) {
        None => false,
        Some(place) => was_settled(at, other, place, facts),
    }
}

/// Whether an older transaction, not settled at the server when this one was submitted, was in conflict with its query.
pub fn is_older_conflict(
    scenario: &Scenario,
    txn: TxnId,
    decided: Place,
    facts: &List<Fact>,
    died: &Died,
    declared: &Transaction,
) -> bool
    ensures { result ≡ causes.is_older_conflict scenario.now txn decided facts.now died.now
        declared.now }
{
    has_contested_query(scenario, declared, died)
        && is_within(txn, decided, facts, died.place)
        && was_submitted_before(died.other, txn, facts)
        && !was_settled_before(died.server, died.other, txn, facts)
}
