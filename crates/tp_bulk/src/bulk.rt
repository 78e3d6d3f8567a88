//! The scenario, with its transactions.
ghost use Rattle.std.specs.Prelude.{◌≡◌, ◌≤◌, ◌<◌, true, IfOk, map};
ghost use Rattle.std.specs.List.{range_with_len};
ghost use Rattle.tp_bulk.specs.Bulk as bulk;
ghost use Rattle.tp_model.specs.Valid.{is_valid};
ghost use Rattle.tp_model.specs.Words.step;

use crate::draws::{drawn_below, next_state};
use crate::servers::{NUMBERED_MAX, admin, items, name, numbered, servers};
use std::alloc::Global;
use tp_types::{
    ItemId, Level, List, NoMemory, Operand, Query, Scenario, Scheme, Step, Term, Transaction, TxnId,
};

fn sum(alloc: Global, constant: u32) -> Result<List<Term>, NoMemory>
    ensures { IfOk result (λ made. made ≡ bulk.sum_of constant) }
{
    let mut sum = List::from_vec(Vec::with_capacity(alloc, 2)?);
    sum.push(Term {
        minus: false,
        operand: Operand::Register(1),
    })?;
    sum.push(Term {
        minus: false,
        operand: Operand::Constant(i64::from(constant)),
    })?;
    Ok(sum)
}

/// A query that reads an item, and one that writes an item with the sum of what was read and of a constant.
fn queries_by(
    alloc: Global,
    read: u32,
    written: u32,
    constant: u32,
) -> Result<List<Query>, NoMemory>
    ensures { IfOk result (λ made. made ≡ bulk.queries_by read written constant) }
{
    let mut queries = List::from_vec(Vec::with_capacity(alloc, 2)?);
    queries.push(Query::Read {
        item: ItemId(read),
        into: 1,
    })?;
    queries.push(Query::Write {
        item: ItemId(written),
        expr: sum(alloc, constant)?,
    })?;
    Ok(queries)
}

/// The queries by the three draws behind this number.
fn queries(alloc: Global, x: u64) -> Result<List<Query>, NoMemory>
    requires here { x < 2147483648 }
    ensures { IfOk result (λ made. made ≡ bulk.queries_at x) }
{
    let first = next_state(x);
    let second = next_state(first);
    let third = next_state(second);
    queries_by(
        alloc,
        drawn_below(first, 16) as u32,
        drawn_below(second, 16) as u32,
        drawn_below(third, 10) as u32,
    )
}

fn transaction(
    alloc: Global,
    room: &mut Vec<u8>,
    number: u32,
    x: u64,
) -> Result<Transaction, NoMemory>
    requires here { x < 2147483648 }
    ensures { IfOk result (λ made. made ≡ bulk.txn_at number x) }
{
    Ok(Transaction {
        name: numbered(alloc, room, b"t", number)?,
        subject: name(b"ann")?,
        scheme: Scheme::Deferred,
        level: Level::View,
        rounds: 8,
        creds: List::new(alloc),
        queries: queries(alloc, x)?,
    })
}

fn transactions(alloc: Global, count: u32) -> Result<List<Transaction>, NoMemory>
    requires few { count ≤ 128 }
    ensures { IfOk result (λ made. made ≡ bulk.txns_from count 0 count) }
{
    let mut txns = List::from_vec(Vec::with_capacity(alloc, count as usize)?);
    let mut room = Vec::with_capacity(alloc, NUMBERED_MAX)?;
    let mut x = u64::from(count);
    for number in 0..count {
        txns.push(transaction(alloc, &mut room, number, x)?)?;
        x = next_state(next_state(next_state(x)));
    }
    Ok(txns)
}

fn submissions(alloc: Global, count: u32) -> Result<List<Step>, NoMemory>
    ensures { IfOk result (λ made.
        made ≡ map (λ number. step.Submit (record { 0 = number })) (range_with_len 0 count)) }
{
    let mut steps = List::from_vec(Vec::with_capacity(alloc, count as usize)?);
    for number in 0..count {
        steps.push(Step::Submit { txn: TxnId(number) })?;
    }
    Ok(steps)
}

#[tactic(auto, unfolding(crate::specs::Bulk::scenario_of))]
fn made(alloc: Global, count: u32) -> Result<Scenario, NoMemory>
    requires most { count ≤ 128 }
    ensures { IfOk result (λ made. made ≡ bulk.scenario_of count) }
{
    Ok(Scenario {
        admins: List::of_one(alloc, admin(alloc)?)?,
        clock: 0,
        creds: List::new(alloc),
        servers: servers(alloc)?,
        items: items(alloc)?,
        txns: transactions(alloc, count)?,
        steps: submissions(alloc, count)?,
        clients: List::new(alloc),
        publishers: List::new(alloc),
        officers: List::new(alloc),
    })
}

/// The scenario with so many transactions, from 1 to 128. One administrator has two versions of a policy that allows all, four servers
/// know the first and the second by turns and have four items each, and each transaction reads one item and writes one, by three draws of
/// a generator that begins at their number.
pub fn scenario_of(alloc: Global, count: u32) -> Result<Scenario, NoMemory>
    requires least { 1 ≤ count }
    requires most { count ≤ 128 }
    ensures value { IfOk result (λ made. made ≡ bulk.scenario_of count) }
    ensures valid { IfOk result (λ made. is_valid made ≡ true) }
{
    made(alloc, count)
}
