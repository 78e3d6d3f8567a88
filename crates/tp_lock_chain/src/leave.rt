//! How an owner's nodes are freed, and the lists of its items settled after it. None of it takes memory.
ghost use Rattle.std.specs.Prelude.{◌≡◌, ◌≤◌, ◌+◌};
ghost use Rattle.tp_lock.specs.Rule as rule;
ghost use Rattle.tp_lock_chain.specs.mirrors.Leave as mirror;

use crate::ask::is_write;
use crate::links::{Kind, Pool, Spot, links, move_to, node_at, set_entry, unlink};
use tp_lock::{Grant, LockEntry};
use tp_types::{Action, ItemId, Tally, TxnId};

/// The owners of the entries of a list up to here.
#[derive(Clone, Copy)]
pub enum Seen {
    Nobody,
    One(TxnId),
    Many,
}

/// Those of all entries, and those of the entries that write.
#[derive(Clone, Copy)]
pub struct Passed {
    pub all: Seen,
    pub writers: Seen,
}

fn with_owner(seen: Seen, owner: TxnId) -> Seen
    ensures { result ≡ mirror.with_owner owner seen }
{
    match seen {
        Seen::Nobody => Seen::One(owner),
        Seen::One(first) => {
            if first == owner {
                Seen::One(first)
            } else {
                Seen::Many
            }
        }
        Seen::Many => Seen::Many,
    }
}

fn has_other(seen: Seen, owner: TxnId) -> bool
    ensures { result ≡ mirror.has_other owner seen }
{
    match seen {
        Seen::Nobody => false,
        Seen::One(first) => first != owner,
        Seen::Many => true,
    }
}

fn with_entry(passed: Passed, entry: LockEntry) -> Passed
    ensures { result ≡ mirror.passed_with entry passed }
{
    let all = with_owner(passed.all, entry.owner);
    let writers = if is_write(entry.mode) {
        with_owner(passed.writers, entry.owner)
    } else {
        passed.writers
    };
    Passed { all, writers }
}

fn hinders(passed: Passed, owner: TxnId, mode: Action) -> bool
    ensures { result ≡ mirror.hinders owner mode passed }
{
    match mode {
        Action::Read => has_other(passed.writers, owner),
        Action::Write => has_other(passed.all, owner),
    }
}

fn is_granted(passed: Passed, entry: LockEntry) -> bool
    ensures { result ≡ mirror.is_granted passed entry }
{
    !entry.held && !hinders(passed, entry.owner, entry.mode)
}

/// Adds a grant, for which there is room.
fn give(pool: &mut Pool, grant: Grant)
    ensures { pool.new ≡ mirror.with_grant grant pool.old }
{
    if pool.given < pool.granted.len() {
        pool.granted.put(pool.given, grant);
        pool.given += 1;
    }
}

/// Grants the lock of a node that waits and is clear of those that were passed.
fn settle_one<T: Tally>(pool: &mut Pool, node: usize, passed: Passed, tally: &mut T)
    ensures pool { pool.new ≡ mirror.settled_one node passed pool.old }
    ensures steps { T.counted tally.new ≤ T.counted tally.old + 1 }
{
    let found = node_at(pool, node);
    let entry = found.entry;
    if is_granted(passed, entry) {
        tally.step();
        set_entry(
            pool,
            node,
            LockEntry {
                held: true,
                ..entry
            },
        );
        let item = ItemId(found.ring);
        give(
            pool,
            Grant {
                owner: entry.owner,
                item,
            },
        );
    }
}

/// Grants each lock of an item that waits and is clear of those before it.
fn settle<T: Tally>(pool: &mut Pool, ring: u32, tally: &mut T)
    ensures pool { pool.new ≡ mirror.settled ring pool.old }
    ensures steps { T.counted tally.new ≤ T.counted tally.old + mirror.settle_steps ring pool.old }
{
    let mut passed = Passed {
        all: Seen::Nobody,
        writers: Seen::Nobody,
    };
    let mut at = links(pool, Kind::Item, Spot::End(ring as usize)).after;
    for _turn in 0..pool.nodes.len() {
        match at {
            Spot::End(_ring) => return,
            Spot::On(node) => {
                tally.step();
                let entry = node_at(pool, node).entry;
                settle_one(pool, node, passed, tally);
                passed = with_entry(passed, entry);
                at = links(pool, Kind::Item, Spot::On(node)).after;
            }
        }
    }
}

/// Takes a node out of both of its rings, and makes it free.
#[tactic(auto, unfolding(crate::specs::mirrors::Leave::freed))]
#[inline(always)]
fn free<T: Tally>(pool: &mut Pool, node: usize, tally: &mut T)
    ensures pool { pool.new ≡ mirror.freed node pool.old }
    ensures steps { T.counted tally.new ≤ T.counted tally.old + 2 }
{
    let free = pool.free;
    tally.step();
    unlink(pool, Kind::Owner, node);
    tally.step();
    move_to(pool, node, free);
}

/// Frees a node, and answers its item. Where that is another one than before, the list of the former is settled.
#[tactic(auto, unfolding(crate::specs::mirrors::Leave::left_one))]
fn leave_one<T: Tally>(pool: &mut Pool, node: usize, ring: u32, tally: &mut T) -> u32
    ensures ring { result ≡ mirror.ring_at node pool.old }
    ensures pool { pool.new ≡ mirror.left_one node ring pool.old }
    ensures steps { T.counted tally.new ≤ T.counted tally.old + mirror.one_steps node ring pool.old }
{
    tally.step();
    let next = node_at(pool, node).ring;
    if next != ring {
        settle(pool, ring, tally);
    }
    free(pool, node, tally);
    next
}

/// Frees the nodes of an owner that has left this item, and settles its list and those of the nodes' items.
fn leave_rest<T: Tally>(pool: &mut Pool, owner: usize, first: u32, tally: &mut T)
    ensures pool { pool.new ≡ mirror.left_rest owner first pool.old }
    ensures steps { T.counted tally.new ≤ T.counted tally.old + mirror.rest_steps owner first pool.old }
{
    let mut ring = first;
    for _turn in 0..pool.nodes.len() {
        match links(pool, Kind::Owner, Spot::End(owner)).after {
            Spot::End(_end) => return settle(pool, ring, tally),
            Spot::On(node) => ring = leave_one(pool, node, ring, tally),
        }
    }
    settle(pool, ring, tally)
}

/// Takes an owner out of all lists. What the grants were is forgotten, and they are the new ones.
pub fn leave<T: Tally>(pool: &mut Pool, owner: usize, tally: &mut T)
    ensures pool { pool.new ≡ mirror.left owner pool.old }
    ensures steps { T.counted tally.new ≤ T.counted tally.old + mirror.steps owner pool.old }
{
    pool.given = 0;
    pool.next = 0;
    if let Spot::On(node) = links(pool, Kind::Owner, Spot::End(owner)).after {
        tally.step();
        let first = node_at(pool, node).ring;
        free(pool, node, tally);
        leave_rest(pool, owner, first, tally);
    }
}
