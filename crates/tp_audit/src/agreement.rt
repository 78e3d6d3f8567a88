//! Agreement: no two actors decide a transaction differently.
ghost use Rattle.std.specs.Prelude.{◌≡◌, ◌&&◌, not};
ghost use Rattle.std.specs.List.{list_any};
ghost use Rattle.tp_model.specs.Agreement as agreement;
ghost use Rattle.tp_model.specs.Facts as history;

use crate::facts::{
    has_query_on, is_decided_as, is_decision, is_settlement, is_submission, was_submitted,
};
use tp_types::{Fact, List, Outcome, Place, Scenario, ServerId, TxnId, What};

fn is_submitted_in(txn: TxnId, facts: &[Fact]) -> bool
    ensures { result ≡ list_any (history.is_submission txn) facts.now }
{
    facts.iter().any(|fact| is_submission(txn, fact))
}

fn is_decided_in(txn: TxnId, facts: &[Fact]) -> bool
    ensures { result ≡ list_any (history.is_decision txn) facts.now }
{
    facts.iter().any(|fact| is_decision(txn, fact))
}

fn is_settled_in(at: ServerId, txn: TxnId, facts: &[Fact]) -> bool
    ensures { result ≡ list_any (history.is_settlement at txn) facts.now }
{
    facts.iter().any(|fact| is_settlement(at, txn, fact))
}

fn was_committed(txn: TxnId, place: Place, facts: &List<Fact>) -> bool
    ensures { result ≡ list_any (history.is_decided_as txn Outcome.Commit)
        (history.before place facts.now) }
{
    facts
        .iter()
        .filter(|fact| fact.place < place)
        .any(|fact| is_decided_as(txn, Outcome::Commit, fact))
}

fn is_ever_committed(txn: TxnId, facts: &List<Fact>) -> bool
    ensures { result ≡ list_any (history.is_decided_as txn Outcome.Commit) facts.now }
{
    facts
        .iter()
        .any(|fact| is_decided_as(txn, Outcome::Commit, fact))
}

fn has_item_at(scenario: &Scenario, at: ServerId, txn: TxnId) -> bool
    ensures { result ≡ agreement.has_item_at scenario.now at txn }
{
    match scenario.txns.get(txn.0 as usize) {
        None => false,
        Some(declared) => has_query_on(scenario, at, declared),
    }
}

fn follows_decision(txn: TxnId, place: Place, facts: &List<Fact>, ended: Outcome) -> bool
    ensures { result ≡ agreement.follows_decision txn place facts.now ended }
{
    match ended {
        Outcome::Commit => was_committed(txn, place, facts),
        Outcome::Abort => !is_ever_committed(txn, facts),
    }
}

fn is_good_decision(txn: TxnId, place: Place, facts: &List<Fact>, earlier: &[Fact]) -> bool
    ensures { result
        ≡ (not (list_any (history.is_decision txn) earlier.now)
        && history.was_submitted txn place facts.now) }
{
    !is_decided_in(txn, earlier) && was_submitted(txn, place, facts)
}

fn is_good_settlement(
    scenario: &Scenario,
    facts: &List<Fact>,
    earlier: &[Fact],
    place: Place,
    at: ServerId,
    txn: TxnId,
    ended: Outcome,
) -> bool
    ensures { result ≡ agreement.keeps_agreement_what scenario.now facts.now earlier.now place
        (What.Settled at txn ended) }
{
    !is_settled_in(at, txn, earlier)
        && (was_submitted(txn, place, facts) && has_item_at(scenario, at, txn))
        && follows_decision(txn, place, facts, ended)
}

/// Whether one fact keeps agreement beside all facts, of which `earlier` are those that stand before it in the list. Of two facts
/// that may not both be, the second in the list fails; an abort that is settled where a commit is decided fails, and not the commit.
pub fn keeps_agreement(
    scenario: &Scenario,
    facts: &List<Fact>,
    earlier: &[Fact],
    fact: &Fact,
) -> bool
    ensures { result ≡ agreement.keeps_agreement scenario.now facts.now earlier.now fact.now }
{
    let place = fact.place;
    match &fact.what {
        What::Submitted(txn) => !is_submitted_in(*txn, earlier),
        What::Decided(txn, _) => is_good_decision(*txn, place, facts, earlier),
        What::Settled(at, txn, ended) => {
            is_good_settlement(scenario, facts, earlier, place, *at, *txn, *ended)
        }
        _ => true,
    }
}

/// Whether every fact keeps agreement: a transaction is submitted and decided at most once each, and each server settles it
/// at most once, as it was decided.
pub fn is_agreed(scenario: &Scenario, facts: &List<Fact>) -> bool
    ensures { result ≡ agreement.is_agreed scenario.now facts.now }
{
    for (number, fact) in facts.as_slice().iter().enumerate() {
        let (earlier, _) = facts.as_slice().split_at(number);
        if !keeps_agreement(scenario, facts, earlier, fact) {
            return false;
        }
    }
    true
}
