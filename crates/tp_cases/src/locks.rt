//! Calls of a table of locks, and what it answers: of one that keeps lists, and of one that keeps chains.
use crate::spelling::{add_number, numbers_of};
use std::alloc::Global;
use tp_lock::{Asked, LockTable, PlainLocks};
use tp_lock_chain::ChainLocks;
use tp_types::{Action, ItemId, NoMemory, TxnId};

/// The items of a table.
const ITEMS: usize = 3;

/// The item from which on a table of chains makes its ends: one in the middle.
const FIRST: usize = 1;

/// The most grants that are taken behind a call.
const GRANTS: usize = 100;

/// What an owner of an age is answered for an item.
fn asked<L: LockTable>(
    alloc: Global,
    table: &mut L,
    mode: Action,
    [owner, age, item]: [u32; 3],
) -> Result<String, NoMemory> {
    match table.request(alloc, TxnId(owner), u64::from(age), ItemId(item), mode)? {
        Asked::Granted => Ok(String::from_str(alloc, "granted")?),
        Asked::Waits => Ok(String::from_str(alloc, "waits")?),
        Asked::Dies { other } => Ok(format!(in alloc; "dies/{}", other.0)?),
    }
}

/// What is answered for a word and its numbers: `read/OWNER/AGE/ITEM`, `write/OWNER/AGE/ITEM` or `release/OWNER`.
fn called<L: LockTable>(
    alloc: Global,
    table: &mut L,
    word: &str,
    numbers: &[u32],
) -> Result<String, NoMemory> {
    match (word, numbers) {
        ("read", [owner, age, item]) => asked(alloc, table, Action::Read, [*owner, *age, *item]),
        ("write", [owner, age, item]) => asked(alloc, table, Action::Write, [*owner, *age, *item]),
        ("release", [owner]) => {
            table.release(TxnId(*owner));
            Ok(String::from_str(alloc, "gives")?)
        }
        _ => Ok(String::from_str(alloc, "no call")?),
    }
}

/// Takes all grants, and adds the owner and the item of each.
fn add_grants<L: LockTable>(
    alloc: Global,
    table: &mut L,
    text: &mut String,
) -> Result<(), NoMemory> {
    for _grant in 0..GRANTS {
        if let Some(grant) = table.take_granted() {
            add_number(alloc, text, '/', u64::from(grant.owner.0))?;
            add_number(alloc, text, '/', u64::from(grant.item.0))?;
        }
    }
    Ok(())
}

/// What is answered for a call, with the grants behind it.
fn answer<L: LockTable>(alloc: Global, table: &mut L, call: &str) -> Result<String, NoMemory> {
    let (word, numbers) = call.split_once('/').unwrap_or((call, ""));
    let numbers = numbers_of(alloc, numbers)?;
    let mut text = called(alloc, table, word, numbers.as_slice())?;
    add_grants(alloc, table, &mut text)?;
    Ok(text)
}

/// Whether a call is answered as it wants: `CALL:ANSWER`.
fn goes<L: LockTable>(alloc: Global, table: &mut L, step: &str) -> Result<bool, NoMemory> {
    let (call, wanted) = step.split_once(':').unwrap_or((step, ""));
    let answer = answer(alloc, table, call)?;
    Ok(answer.as_str() == wanted)
}

fn first_fault<'a, L: LockTable>(
    alloc: Global,
    table: &mut L,
    line: &'a str,
) -> Result<Option<&'a str>, NoMemory> {
    for step in line.split_whitespace() {
        if !goes(alloc, table, step)? {
            return Ok(Some(step));
        }
    }
    Ok(None)
}

fn fault_in<'a, L: LockTable + Drop>(
    alloc: Global,
    mut table: L,
    line: &'a str,
) -> Result<Option<&'a str>, NoMemory> {
    let fault = first_fault(alloc, &mut table, line);
    drop(table);
    fault
}

/// The first call of a line that a new table, of either kind, does not answer as the call wants.
pub fn fault<'a>(alloc: Global, line: &'a str) -> Result<Option<&'a str>, NoMemory> {
    match fault_in(alloc, PlainLocks::opened(alloc, ITEMS)?, line)? {
        None => fault_in(alloc, ChainLocks::opened(alloc, ITEMS, FIRST)?, line),
        Some(step) => Ok(Some(step)),
    }
}
