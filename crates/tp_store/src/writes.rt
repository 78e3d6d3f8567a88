//! The writes of one transaction: at most one for each item.
ghost use Rattle.std.specs.Prelude.{◌≡◌, OnOk, OnErr, filter, slice_get};
ghost use Rattle.std.specs.List.{find, position};
ghost use Rattle.tp_model.specs.Limits.{is_between};
ghost use Rattle.tp_store.specs.Writes as rule;
ghost use Rattle.tp_store.specs.mirrors.Places as mirror;

use crate::values::Values;
use tp_types::{ItemId, List, NoMemory};

/// The range of an item, both ends included.
#[derive(Clone, Copy, Debug, PartialEq)]
pub struct Bounds {
    pub min: i64,
    pub max: i64,
}

/// What an item is to be once the transaction is applied, with the number of the query that writes it.
#[derive(Clone, Copy, Debug, PartialEq)]
pub struct TentativeWrite {
    pub query: u32,
    pub item: ItemId,
    pub value: i128,
}

/// The write of an item, where there is one.
pub fn write_on(writes: &[TentativeWrite], item: ItemId) -> Option<TentativeWrite>
    ensures { result ≡ find (rule.is_on item) writes.now }
{
    writes.iter().copied().find(|write| write.item == item)
}

fn place_of(writes: &[TentativeWrite], item: ItemId) -> Option<usize>
    ensures { result ≡ position (rule.is_on item) writes.now }
{
    writes.iter().position(|write| write.item == item)
}

fn later(kept: TentativeWrite, new: TentativeWrite) -> TentativeWrite
    ensures { result ≡ rule.later kept new }
{
    if kept.query <= new.query { new } else { kept }
}

fn renew(writes: &mut List<TentativeWrite>, at: usize, new: TentativeWrite)
    ensures { writes.new ≡ mirror.renewed writes.old at (slice_get writes.old at) new }
{
    if let Some(kept) = writes.get(at) {
        let next = later(*kept, new);
        writes.put(at, next);
    }
}

/// Keeps a write. Of two writes of one item the last by query stays. Where memory is refused the list stays.
pub fn keep(writes: &mut List<TentativeWrite>, new: TentativeWrite) -> Result<(), NoMemory>
    ensures ok { OnOk result (writes.new ≡ rule.with_write writes.old new) }
    ensures err { OnErr result (writes.new ≡ writes.old) }
{
    match place_of(writes.as_slice(), new.item) {
        None => writes.push(new),
        Some(at) => {
            renew(writes, at, new);
            Ok(())
        }
    }
}

fn is_within(bounds: &Bounds, value: i128) -> bool
    ensures { result ≡ is_between bounds.now.min bounds.now.max value }
{
    i128::from(bounds.min) <= value && value <= i128::from(bounds.max)
}

fn is_outside(bounds: &[Bounds], write: &TentativeWrite) -> bool
    ensures { result ≡ rule.is_outside bounds.now write.now }
{
    match bounds.get(write.item.0 as usize) {
        None => false,
        Some(range) => !is_within(range, write.value),
    }
}

fn earlier(first: Option<TentativeWrite>, write: &TentativeWrite) -> TentativeWrite
    ensures { result ≡ rule.earlier first write.now }
{
    match first {
        None => *write,
        Some(other) => {
            if write.query < other.query {
                *write
            } else {
                other
            }
        }
    }
}

/// Of the writes whose values are outside the ranges of their items, that of the least query.
pub fn first_outside(bounds: &[Bounds], writes: &[TentativeWrite]) -> Option<TentativeWrite>
    ensures { result ≡ rule.first_of (filter (rule.is_outside bounds.now) writes.now) }
{
    let mut first = None;
    for write in writes {
        if is_outside(bounds, write) {
            first = Some(earlier(first, write));
        }
    }
    first
}

/// Gives each item that is written its value.
pub fn apply(values: &mut Values, writes: &[TentativeWrite])
    ensures { values.new ≡ rule.values_after values.old writes.now }
{
    for write in writes {
        values.put(write.item.0 as usize, write.value);
    }
}
