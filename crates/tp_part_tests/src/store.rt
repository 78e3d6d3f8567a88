//! A store, call by call.
use crate::made::{assert_case, list};
use crate::small_scenario::small;
use std::process::Abort;
use tp_store::{OpeningValues, Ranges, Store, Values};
use tp_types::{AdminId, ItemId, Scenario, ServerId, TryClone, TxnId, Version};

/// A call of a store, or what a call is to answer.
enum Line {
    /// A write: transaction, query, item, value.
    Write(u32, u32, u32, i128),
    Apply(u32),
    Forget(u32),
    /// A version that is told of an administrator.
    Told(u32, u32),
    /// What a transaction reads of an item.
    Reads(u32, u32, i128),
    /// The least query of a transaction that is outside its range, with the value.
    Outside(u32, Option<(u32, i128)>),
    /// The newest version that is known of an administrator.
    Newest(u32, u32),
}

const GREATEST: i128 = 1_000_000_000_000_000;

const LINES: &[Line] = &[
    // the opening values, and 0 of no item
    Line::Reads(0, 0, 3),
    Line::Reads(1, 2, GREATEST),
    Line::Reads(0, 9, 0),
    Line::Outside(0, None),
    // an own write is read, by no other transaction
    Line::Write(0, 3, 0, 10),
    Line::Reads(0, 0, 10),
    Line::Reads(1, 0, 3),
    Line::Outside(0, Some((3, 10))),
    Line::Outside(1, None),
    // the least query is not that of the first write
    Line::Write(0, 1, 1, 1),
    Line::Outside(0, Some((1, 1))),
    // of two writes of one item the last by query stays, in whatever order they come
    Line::Write(0, 4, 1, 0),
    Line::Reads(0, 1, 0),
    Line::Outside(0, Some((3, 10))),
    Line::Write(0, 2, 1, 7),
    Line::Reads(0, 1, 0),
    Line::Outside(0, Some((3, 10))),
    // the edges of ranges
    Line::Write(0, 5, 0, 9),
    Line::Outside(0, None),
    Line::Write(0, 6, 0, -5),
    Line::Outside(0, None),
    Line::Write(0, 7, 0, -6),
    Line::Outside(0, Some((7, -6))),
    Line::Write(0, 8, 2, GREATEST),
    Line::Write(0, 9, 2, GREATEST + 1),
    Line::Outside(0, Some((7, -6))),
    Line::Write(0, 10, 0, -5),
    Line::Outside(0, Some((9, GREATEST + 1))),
    Line::Write(0, 11, 2, -GREATEST),
    Line::Outside(0, None),
    // what is forgotten was never there
    Line::Forget(0),
    Line::Reads(0, 0, 3),
    Line::Reads(0, 1, 0),
    Line::Reads(0, 2, GREATEST),
    // what is applied is read by all, and is applied once
    Line::Write(1, 1, 0, 8),
    Line::Write(1, 2, 2, 5),
    Line::Write(1, 3, 0, 9),
    Line::Apply(1),
    Line::Reads(0, 0, 9),
    Line::Reads(0, 2, 5),
    Line::Write(0, 1, 0, 4),
    Line::Apply(0),
    Line::Apply(1),
    Line::Reads(1, 0, 4),
    Line::Forget(0),
    Line::Reads(1, 0, 4),
    // a transaction that is not there keeps nothing
    Line::Write(7, 1, 0, 2),
    Line::Reads(7, 0, 4),
    Line::Outside(7, None),
    Line::Apply(7),
    Line::Reads(1, 0, 4),
    // far outside
    Line::Write(0, 16, 1, 200_000_000_000_000_000_000_000_000),
    Line::Reads(0, 1, 200_000_000_000_000_000_000_000_000),
    Line::Outside(0, Some((16, 200_000_000_000_000_000_000_000_000))),
    // the greater version is known, of each administrator
    Line::Newest(0, 2),
    Line::Newest(1, 1),
    Line::Newest(5, 1),
    Line::Told(0, 1),
    Line::Newest(0, 2),
    Line::Told(0, 4),
    Line::Told(0, 3),
    Line::Newest(0, 4),
    Line::Newest(1, 1),
    Line::Told(1, 64),
    Line::Newest(1, 64),
    Line::Told(5, 9),
    Line::Newest(5, 1),
];

/// Makes a call, and tells whether it answers so.
fn plays(rt: &impl AllocGlobal, store: &mut Store, line: &Line) -> bool {
    match line {
        Line::Write(txn, query, item, value) => store
            .write(rt.alloc(), TxnId(*txn), *query, ItemId(*item), *value)
            .is_ok(),
        Line::Apply(txn) => {
            store.apply(TxnId(*txn));
            true
        }
        Line::Forget(txn) => {
            store.forget(TxnId(*txn));
            true
        }
        Line::Told(admin, version) => {
            store.told(AdminId(*admin), Version(*version));
            true
        }
        Line::Reads(txn, item, value) => store.read(TxnId(*txn), ItemId(*item)) == *value,
        Line::Outside(txn, first) => store.first_outside(TxnId(*txn)) == *first,
        Line::Newest(admin, version) => store.newest(AdminId(*admin)) == Version(*version),
    }
}

#[test]
fn answers_by_the_table(rt: HostRuntime) {
    let scenario = small(&rt);
    let opened = Store::opened(rt.alloc(), &scenario, ServerId(0));
    drop(scenario);
    let mut store = opened.expect(&rt, "memory for a store");
    for (at, line) in LINES.iter().enumerate() {
        assert_case(&rt, at, plays(&rt, &mut store, line));
    }
    assert!(rt; store.value(ItemId(2)) == 5);
    drop(store);
}

/// Three items whose opening values are 3, 0 and the greatest, which are given 7, 1 and -2. The places of items are made from
/// the second one on.
fn left_by_a_log(rt: &(impl Abort + AllocGlobal), scenario: &Scenario) -> Values {
    let opening = OpeningValues::of(rt.alloc(), scenario.items.as_slice());
    let opening = opening.expect(rt, "memory for the opening values");
    let mut values = Values::over(rt.alloc(), opening, 1).expect(rt, "memory for the values");
    values.put(2, -2);
    values.put(0, 7);
    values.put(1, 1);
    values
}

#[test]
fn opening_values_are_shared(rt: HostRuntime) {
    let scenario = small(&rt);
    let opening = OpeningValues::of(rt.alloc(), scenario.items.as_slice());
    let opening = opening.expect(&rt, "memory for the opening values");
    drop(scenario);
    let shared = opening.share().expect(&rt, "room for one store more");
    let mut values = Values::over(rt.alloc(), shared, 1).expect(&rt, "memory for the values");
    let other = Values::over(rt.alloc(), opening, 9).expect(&rt, "memory for other values");
    values.put(2, 4);
    values.put(3, 5);
    assert!(rt; values.get(0) == Some(3) && values.get(1) == Some(0) && values.get(2) == Some(4));
    assert!(rt; values.get(3) == None);
    // the first place is made behind the others
    values.put(0, 6);
    let copy = values
        .try_clone(rt.alloc())
        .expect(&rt, "memory for a copy");
    assert!(rt; copy.get(0) == Some(6) && copy.get(1) == Some(0) && copy.get(2) == Some(4));
    assert!(rt; other.get(0) == Some(3) && other.get(2) == Some(GREATEST));
    drop(values);
    drop(other);
    drop(copy);
}

#[test]
fn begins_with_what_a_log_leaves(rt: HostRuntime) {
    let scenario = small(&rt);
    let values = left_by_a_log(&rt, &scenario);
    let known = list(&rt, [Version(3), Version(1)]);
    let made = Store::restored(rt.alloc(), &scenario, values, known);
    drop(scenario);
    let store = made.expect(&rt, "memory for a store");
    assert!(rt; store.value(ItemId(0)) == 7 && store.value(ItemId(2)) == -2);
    assert!(rt; store.newest(AdminId(0)) == Version(3));
    assert!(rt; store.first_outside(TxnId(0)) == None);
    drop(store);
}

#[test]
fn ranges_are_shared(rt: HostRuntime) {
    let scenario = small(&rt);
    let ranges = Ranges::of(rt.alloc(), scenario.items.as_slice()).expect(&rt, "memory for ranges");
    let shared = ranges.share().expect(&rt, "room for one store more");
    drop(ranges);
    let values = left_by_a_log(&rt, &scenario);
    let known = list(&rt, [Version(3), Version(1)]);
    let mut store = Store::over(rt.alloc(), shared, scenario.txns.len(), values, known);
    let beyond = match scenario.items.get(0) {
        None => 0,
        Some(item) => i128::from(item.max) + 1,
    };
    drop(scenario);
    store
        .write(rt.alloc(), TxnId(1), 4, ItemId(0), beyond)
        .expect(&rt, "memory for a write");
    assert!(rt; store.first_outside(TxnId(1)) == Some((4, beyond)));
    assert!(rt; store.first_outside(TxnId(0)) == None);
    assert!(rt; store.read(TxnId(0), ItemId(0)) == 7);
    drop(store);
}
