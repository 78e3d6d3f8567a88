//! What a fact is, and what facts tell of a transaction.
ghost use Rattle.std.specs.Prelude.{◌≡◌};
ghost use Rattle.tp_model.specs.Agreement as agreement;
ghost use Rattle.tp_model.specs.Facts as history;

use tp_model::{has_query_at, outcome_of};
use tp_types::{Fact, List, Outcome, Place, Scenario, ServerId, Transaction, TxnId, What};

/// The fact is a submission of the transaction.
pub fn is_submission(txn: TxnId, fact: &Fact) -> bool
    ensures { result ≡ history.is_submission txn fact.now }
{
    match &fact.what {
        What::Submitted(other) => *other == txn,
        _ => false,
    }
}

/// The fact is a decision of the transaction.
pub fn is_decision(txn: TxnId, fact: &Fact) -> bool
    ensures { result ≡ history.is_decision txn fact.now }
{
    match &fact.what {
        What::Decided(other, _) => *other == txn,
        _ => false,
    }
}

/// The fact is a settlement of the transaction at the server.
pub fn is_settlement(at: ServerId, txn: TxnId, fact: &Fact) -> bool
    ensures { result ≡ history.is_settlement at txn fact.now }
{
    match &fact.what {
        What::Settled(server, other, _) => *server == at && *other == txn,
        _ => false,
    }
}

fn same_outcome(one: Outcome, other: Outcome) -> bool
    ensures { result ≡ history.same_outcome one other }
{
    match one {
        Outcome::Commit => matches!(other, Outcome::Commit),
        Outcome::Abort => matches!(other, Outcome::Abort),
    }
}

/// The fact decides the transaction with this outcome.
pub fn is_decided_as(txn: TxnId, ended: Outcome, fact: &Fact) -> bool
    ensures { result ≡ history.is_decided_as txn ended fact.now }
{
    match &fact.what {
        What::Decided(other, decision) => {
            *other == txn && same_outcome(outcome_of(decision), ended)
        }
        _ => false,
    }
}

/// The fact settles the transaction at the server with this outcome.
pub fn is_settled_as(at: ServerId, txn: TxnId, ended: Outcome, fact: &Fact) -> bool
    ensures { result ≡ history.is_settled_as at txn ended fact.now }
{
    match &fact.what {
        What::Settled(server, other, given) => {
            *server == at && *other == txn && same_outcome(*given, ended)
        }
        _ => false,
    }
}

/// The transaction was submitted before the place.
pub fn was_submitted(txn: TxnId, place: Place, facts: &List<Fact>) -> bool
    ensures { result ≡ history.was_submitted txn place facts.now }
{
    facts
        .iter()
        .filter(|fact| fact.place < place)
        .any(|fact| is_submission(txn, fact))
}

/// The transaction has a query on an item of the server.
pub fn has_query_on(scenario: &Scenario, at: ServerId, txn: &Transaction) -> bool
    ensures { result ≡ agreement.has_item scenario.now at txn.now }
{
    has_query_at(scenario, at.0, txn.queries.as_slice())
}
