//! Tables of locks: two readers, of which the younger wants to write and dies, and the elder waits for it; and a table in chains
//! whose ends are made from an item in the middle on.
ghost use Rattle.std.specs.Prelude.{◌≡◌, ◌<◌};

use std::marker::Brand;
use std::process::Abort;
use std::sync::ledger::{Blank, Ledger};
use tp_lock::{Asked, Grant, LockTable, PlainLocks};
use tp_lock_chain::ChainLocks;
use tp_types::{Action, ItemId, Steps, TxnId};

const X: ItemId = ItemId(0);

/// Asks for an item.
fn asked_for<L: LockTable>(
    rt: &(impl Abort + AllocGlobal),
    table: &mut L,
    item: ItemId,
    owner: u32,
    age: u64,
    mode: Action,
) -> Asked {
    let asked = table.request(rt.alloc(), TxnId(owner), age, item, mode);
    asked.expect(rt, "memory for a lock")
}

/// Asks for x.
fn asked<L: LockTable>(
    rt: &(impl Abort + AllocGlobal),
    table: &mut L,
    owner: u32,
    age: u64,
    mode: Action,
) -> Asked {
    asked_for(rt, table, X, owner, age, mode)
}

/// Both read, the younger dies, and the elder waits.
fn are_answered<L: LockTable>(rt: &(impl Abort + AllocGlobal), table: &mut L) -> bool {
    asked(rt, table, 1, 0, Action::Read) == Asked::Granted
        && asked(rt, table, 2, 1, Action::Read) == Asked::Granted
        && asked(rt, table, 2, 1, Action::Write) == Asked::Dies { other: TxnId(1) }
        && asked(rt, table, 1, 0, Action::Write) == Asked::Waits
}

/// The elder has its lock, and that is the only grant.
fn elder_is_granted<L: LockTable>(table: &mut L) -> bool {
    let granted = table.take_granted();
    let owner = TxnId(1);
    granted == Some(Grant { owner, item: X }) && table.take_granted().is_none()
}

/// The second owner has locks below, at and above item 2 of five, and the third one below it. The third is the youngest, and
/// dies where it meets the second. The first is the eldest, and waits for the second above and below.
fn both_sides_are_answered<L: LockTable>(rt: &(impl Abort + AllocGlobal), table: &mut L) -> bool {
    let dies = Asked::Dies { other: TxnId(2) };
    asked_for(rt, table, ItemId(0), 2, 1, Action::Write) == Asked::Granted
        && asked_for(rt, table, ItemId(4), 2, 1, Action::Write) == Asked::Granted
        && asked_for(rt, table, ItemId(2), 2, 1, Action::Write) == Asked::Granted
        && asked_for(rt, table, ItemId(1), 3, 2, Action::Write) == Asked::Granted
        && asked_for(rt, table, ItemId(2), 3, 2, Action::Read) == dies
        && asked_for(rt, table, ItemId(4), 1, 0, Action::Read) == Asked::Waits
        && asked_for(rt, table, ItemId(0), 1, 0, Action::Read) == Asked::Waits
}

/// The eldest has its locks, the one below first.
fn both_sides_are_granted<L: LockTable>(table: &mut L) -> bool {
    let below = table.take_granted();
    let above = table.take_granted();
    let owner = TxnId(1);
    let item = ItemId(0);
    let last = ItemId(4);
    below == Some(Grant { owner, item })
        && above == Some(Grant { owner, item: last })
        && table.take_granted().is_none()
}

/// Item 1 is still the third owner's, items 2 and 3 are nobody's, and there is no item 5, where all is granted.
fn others_stay<L: LockTable>(rt: &(impl Abort + AllocGlobal), table: &mut L) -> bool {
    asked_for(rt, table, ItemId(1), 1, 0, Action::Write) == Asked::Waits
        && asked_for(rt, table, ItemId(2), 3, 2, Action::Write) == Asked::Granted
        && asked_for(rt, table, ItemId(3), 3, 2, Action::Write) == Asked::Granted
        && asked_for(rt, table, ItemId(5), 3, 2, Action::Write) == Asked::Granted
        && asked_for(rt, table, ItemId(5), 1, 0, Action::Write) == Asked::Granted
}

/// Releases, and counts its steps.
fn release_counted<L: Ledger>(table: &mut ChainLocks, owner: TxnId, blank: Blank)
    requires name { blank.name ≡ L.name }
    requires parts { blank.parts ≡ L.parts }
    requires some { 0 < blank.parts }
{
    let mut steps: Steps<L> = Steps::none(blank);
    table.release_counted(owner, &mut steps);
}

#[test]
fn an_upgrade_waits_for_the_other_reader(rt: HostRuntime) {
    let opened = PlainLocks::opened(rt.alloc(), 1);
    let mut table = opened.expect(&rt, "memory for a table");
    let answered = are_answered(&rt, &mut table);
    table.release(TxnId(2));
    let granted = elder_is_granted(&mut table);
    drop(table);
    assert!(rt; answered && granted);
}

#[test]
fn an_upgrade_waits_in_chains_too(rt: HostRuntime) {
    let opened = ChainLocks::opened(rt.alloc(), 1, 0);
    let mut table = opened.expect(&rt, "memory for a table");
    let answered = are_answered(&rt, &mut table);
    table.release(TxnId(2));
    let granted = elder_is_granted(&mut table);
    drop(table);
    assert!(rt; answered && granted);
}

#[test]
fn a_counted_release_grants_the_same(rt: HostRuntime) {
    let opened = ChainLocks::opened(rt.alloc(), 1, 0);
    let mut table = opened.expect(&rt, "memory for a table");
    let answered = are_answered(&rt, &mut table);
    release_counted::<Brand>(&mut table, TxnId(2), Blank::new(1));
    let granted = elder_is_granted(&mut table);
    drop(table);
    assert!(rt; answered && granted);
}

#[test]
fn ends_are_made_from_the_middle_on(rt: HostRuntime) {
    let opened = ChainLocks::opened(rt.alloc(), 5, 2);
    let mut table = opened.expect(&rt, "memory for a table");
    let answered = both_sides_are_answered(&rt, &mut table);
    table.release(TxnId(2));
    let granted = both_sides_are_granted(&mut table);
    let stay = others_stay(&rt, &mut table);
    drop(table);
    assert!(rt; answered && granted && stay);
}
