//! What an actor that comes up again has of its log.
use crate::made::list;
use crate::small_scenario::small;
use std::process::Abort;
use tp_recover::{Held, Kept, add_apart, by_age, decision_of, held, kept_apart, kept_of};
use tp_store::{OpeningValues, Values};
use tp_types::{
    Action, Cause, CommitRecord, Decided, Decision, Deed, ItemId, List, Outcome, Prepared, Record,
    ServerId, Settled, TryClone, TxnId, Version,
};

const MOST: i128 = 1_000_000_000_000_000;

/// A vote YES of a transaction of this age, which has written an item. It tells a version below the known one.
fn vote(rt: &(impl Abort + AllocGlobal), txn: u32, age: u64, item: u32, value: i128) -> Record {
    let written = Deed {
        query: 1,
        item: ItemId(item),
        action: Action::Write,
        value,
    };
    Record::Prepared(Prepared {
        txn: TxnId(txn),
        age,
        epoch: 1,
        turn: 1,
        deeds: list(rt, [written]),
        verdicts: List::new(rt.alloc()),
        told: list(rt, [Version(1), Version(1)]),
    })
}

fn settled(txn: u32, outcome: Outcome) -> Record {
    Record::Settled(Settled {
        txn: TxnId(txn),
        outcome,
        why: None,
    })
}

/// What the server has of these records.
fn recovered(rt: &(impl Abort + AllocGlobal), records: List<Record>) -> Held {
    let scenario = small(rt);
    let found = held(rt.alloc(), &scenario, ServerId(0), &records);
    drop(scenario);
    drop(records);
    found.expect(rt, "memory for what is held")
}

/// Whether just the items of these places have values, and these.
fn are_values(found: &Values, values: &[i128]) -> bool {
    for (at, value) in values.iter().enumerate() {
        if found.get(at) != Some(*value) {
            return false;
        }
    }
    found.get(values.len()).is_none()
}

fn has_values(held: &Held, values: &[i128]) -> bool {
    are_values(&held.values, values)
}

fn knows(held: &Held, versions: &[Version]) -> bool {
    held.newest.as_slice() == versions
}

/// Whether just these transactions are prepared, in this order.
fn are_prepared(held: &Held, txns: &[u32]) -> bool {
    for (at, txn) in txns.iter().enumerate() {
        match held.prepared.get(at) {
            None => return false,
            Some(vote) => {
                if vote.txn.0 != *txn {
                    return false;
                }
            }
        }
    }
    held.prepared.len() == txns.len()
}

/// Whether this transaction alone is settled, as a commit or as an abort.
fn is_settled(held: &Held, txn: u32, commits: bool) -> bool {
    match held.settled.get(0) {
        None => false,
        Some(first) => {
            held.settled.len() == 1
                && first.txn.0 == txn
                && matches!(first.outcome, Outcome::Commit) == commits
        }
    }
}

#[test]
fn a_vote_outlasts_a_boot(rt: HostRuntime) {
    let records = list(&rt, [vote(&rt, 0, 4, 0, 8), Record::Boot]);
    let held = recovered(&rt, records);
    assert!(rt; held.epoch == 2 && are_prepared(&held, &[0]) && held.settled.is_empty());
    assert!(rt; has_values(&held, &[3, 0, MOST]));
    assert!(rt; knows(&held, &[Version(2), Version(1)]));
    drop(held);
}

#[test]
fn a_commit_leaves_its_values(rt: HostRuntime) {
    let commit = settled(0, Outcome::Commit);
    let records = list(&rt, [vote(&rt, 0, 4, 0, 8), Record::Boot, commit]);
    let held = recovered(&rt, records);
    assert!(rt; held.epoch == 2 && are_prepared(&held, &[]) && is_settled(&held, 0, true));
    assert!(rt; has_values(&held, &[8, 0, MOST]));
    drop(held);
}

#[test]
fn the_older_is_first(rt: HostRuntime) {
    let records = list(&rt, [vote(&rt, 0, 9, 0, 8), vote(&rt, 1, 4, 2, 5)]);
    let held = recovered(&rt, records);
    assert!(rt; held.epoch == 1 && are_prepared(&held, &[1, 0]) && held.settled.is_empty());
    assert!(rt; has_values(&held, &[3, 0, MOST]));
    drop(held);
}

#[test]
fn a_vote_after_the_settlement_is_none(rt: HostRuntime) {
    let abort = settled(1, Outcome::Abort);
    let commit = settled(1, Outcome::Commit);
    let records = list(&rt, [abort, vote(&rt, 1, 4, 0, 8), commit]);
    let held = recovered(&rt, records);
    assert!(rt; held.epoch == 1 && are_prepared(&held, &[]) && is_settled(&held, 1, false));
    assert!(rt; has_values(&held, &[3, 0, MOST]));
    drop(held);
}

/// What is kept of these records, copied.
fn all_kept(rt: &(impl Abort + AllocGlobal), records: List<Record>) -> Kept {
    let scenario = small(rt);
    let found = kept_of(rt.alloc(), &scenario, ServerId(0), &records);
    drop(scenario);
    drop(records);
    let kept = found.expect(rt, "memory for what is kept");
    let copy = kept.try_clone(rt.alloc());
    drop(kept);
    copy.expect(rt, "memory for a copy")
}

/// Whether this transaction is prepared, by its number.
fn has_prepared(kept: &Kept, txn: usize) -> bool {
    kept.prepared.get(txn).is_some()
}

/// Whether this transaction is settled, by its number.
fn has_settled(kept: &Kept, txn: usize) -> bool {
    kept.settled.get(txn).is_some()
}

#[test]
fn all_is_kept_by_transaction(rt: HostRuntime) {
    let commit = settled(0, Outcome::Commit);
    let records = list(&rt, [vote(&rt, 0, 4, 0, 8), vote(&rt, 1, 5, 2, 7), commit]);
    let kept = all_kept(&rt, records);
    assert!(rt; kept.epoch == 1 && kept.in_order.len() == 1);
    assert!(rt; has_settled(&kept, 0) && !has_prepared(&kept, 0));
    assert!(rt; has_prepared(&kept, 1) && !has_settled(&kept, 1));
    assert!(rt; are_values(&kept.values, &[8, 0, MOST]));
    drop(kept);
}

/// What is kept of a log of two boots and a vote, whose boots are counted.
fn kept_beside_its_boots(rt: &(impl Abort + AllocGlobal)) -> Kept {
    let scenario = small(rt);
    let mut others = List::new(rt.alloc());
    let records = list(rt, [Record::Boot, vote(rt, 0, 4, 0, 8), Record::Boot]);
    let boots = add_apart(&mut others, records).expect(rt, "memory for a record");
    assert!(*rt; boots == 2 && others.len() == 1);
    let opening = OpeningValues::of(rt.alloc(), scenario.items.as_slice());
    let opening = opening.expect(rt, "memory for the opening values");
    let values = Values::over(rt.alloc(), opening, 0).expect(rt, "memory for the values");
    let found = kept_apart(rt.alloc(), &scenario, ServerId(0), values, &others, 2);
    drop(scenario);
    drop(others);
    found.expect(rt, "memory for what is kept")
}

#[test]
fn boots_are_counted_beside_the_others(rt: HostRuntime) {
    let kept = kept_beside_its_boots(&rt);
    assert!(rt; kept.epoch == 3 && has_prepared(&kept, 0) && !has_prepared(&kept, 1));
    drop(kept);
}

#[test]
fn what_is_prepared_is_put_by_age(rt: HostRuntime) {
    let records = list(&rt, [vote(&rt, 0, 9, 0, 8), vote(&rt, 1, 4, 2, 5)]);
    let kept = all_kept(&rt, records);
    let placed = by_age(rt.alloc(), kept.prepared.into_made()).expect(&rt, "memory for the order");
    let first = match placed.get(0) {
        None => false,
        Some(vote) => vote.txn.0 == 1,
    };
    assert!(rt; first && placed.len() == 2);
    drop(placed);
}

fn decided(decision: Decision) -> Record {
    Record::Decided(Decided {
        txn: TxnId(0),
        decision,
    })
}

fn commit(rt: &(impl Abort + AllocGlobal)) -> Decision {
    Decision::Commit(CommitRecord {
        rounds: 3,
        instances: List::new(rt.alloc()),
        deeds: List::new(rt.alloc()),
    })
}

#[test]
fn the_first_decision_counts(rt: HostRuntime) {
    let none = list(&rt, [Record::Boot]);
    assert!(rt; decision_of(&none).is_none());
    let both = list(
        &rt,
        [
            decided(commit(&rt)),
            decided(Decision::Abort(Cause::Halted)),
        ],
    );
    let commits = match decision_of(&both) {
        Some(Decision::Commit(held)) => held.rounds == 3,
        _ => false,
    };
    assert!(rt; commits);
    drop(none);
    drop(both);
}
