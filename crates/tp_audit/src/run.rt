//! The value of a query where its transaction runs by itself on a store, whatever its size.
ghost use Rattle.std.specs.Prelude.{◌≡◌, ℤ, false, IfOk, OnOk};
ghost use Rattle.std.specs.Option.{option_map_or};
ghost use Rattle.std.specs.Ordering.{int_eq};
ghost use Rattle.tp_audit.specs.mirrors.Programs as program;
ghost use Rattle.tp_model.specs.SerialRun as serial;

use crate::wide::Wide;
use std::alloc::Global;
use tp_model::REGISTER_PLACES;
use tp_types::{List, NoMemory, Operand, Query, Term, Transaction, TryClone};

fn number_at(alloc: Global, numbers: &List<Wide>, place: u32) -> Result<Wide, NoMemory>
    ensures { IfOk result (λ made. made ≡ serial.number_at numbers.now place) }
{
    match numbers.get(place as usize) {
        None => Ok(Wide::nothing(alloc)),
        Some(number) => number.try_clone(alloc),
    }
}

fn operand_in(alloc: Global, registers: &List<Wide>, operand: &Operand) -> Result<Wide, NoMemory>
    ensures { IfOk result (λ made. made ≡ serial.operand_in registers.now operand.now) }
{
    match operand {
        Operand::Constant(constant) => Wide::of(alloc, i128::from(*constant)),
        Operand::Register(register) => number_at(alloc, registers, *register),
    }
}

fn add_term(
    alloc: Global,
    registers: &List<Wide>,
    total: &Wide,
    term: &Term,
) -> Result<Wide, NoMemory>
    ensures { IfOk result (λ made. made ≡ serial.add_term registers.now total.now term.now) }
{
    let operand = operand_in(alloc, registers, &term.operand)?;
    total.plus(alloc, &operand, term.minus)
}

fn sum_in(alloc: Global, registers: &List<Wide>, expr: &List<Term>) -> Result<Wide, NoMemory>
    ensures { IfOk result (λ made. made ≡ serial.sum_in registers.now expr.now) }
{
    let mut total = Wide::nothing(alloc);
    for term in expr.as_slice() {
        total = add_term(alloc, registers, &total, term)?;
    }
    Ok(total)
}

/// The value of the query's deed.
fn value_of(
    alloc: Global,
    registers: &List<Wide>,
    store: &List<Wide>,
    query: &Query,
) -> Result<Wide, NoMemory>
    ensures { IfOk result (λ made. made
        ≡ serial.deed_value (program.deed_of 0 query.now registers.now store.now)) }
{
    match query {
        Query::Read { item, into: _ } => number_at(alloc, store, item.0),
        Query::Write { item: _, expr } => sum_in(alloc, registers, expr),
    }
}

/// Does the query.
fn run_query(
    alloc: Global,
    registers: &mut List<Wide>,
    store: &mut List<Wide>,
    query: &Query,
) -> Result<(), NoMemory>
    ensures registers { OnOk result
        (registers.new ≡ program.registers_after query.now registers.old store.old) }
    ensures store { OnOk result
        (store.new ≡ program.store_after query.now registers.old store.old) }
{
    let value = value_of(alloc, registers, store, query)?;
    match query {
        Query::Read { item: _, into } => registers.put(*into as usize, value),
        Query::Write { item, expr: _ } => store.put(item.0 as usize, value),
    }
    Ok(())
}

fn widened(alloc: Global, numbers: &[i128]) -> Result<List<Wide>, NoMemory>
    ensures { IfOk result (λ made. made ≡ numbers.now) }
{
    let mut made = List::new(alloc);
    for number in numbers {
        made.push(Wide::of(alloc, *number)?)?;
    }
    Ok(made)
}

/// Whether the value is that of the query of this number, where the queries are done one after another.
fn is_value_in(
    alloc: Global,
    registers: &mut List<Wide>,
    store: &mut List<Wide>,
    queries: &[Query],
    number: u32,
    value: i128,
) -> Result<bool, NoMemory>
    ensures { IfOk result (λ same. same
        ≡ program.has_value number value
        (serial.deeds_from 1 queries.now registers.old store.old)) }
{
    for (at, query) in queries.iter().enumerate() {
        if at + 1 == number as usize {
            return Ok(value_of(alloc, registers, store, query)?.is(value));
        }
        run_query(alloc, registers, store, query)?;
    }
    Ok(false)
}

/// Whether the value is that of the query of this number, where the transaction runs by itself on the store.
pub fn is_run_value(
    alloc: Global,
    store: &List<i128>,
    txn: &Transaction,
    number: u32,
    value: i128,
) -> Result<bool, NoMemory>
    ensures { IfOk result (λ same. same
        ≡ option_map_or (int_eq value) (serial.run_value txn.now store.now number) false) }
{
    let mut values = widened(alloc, store.as_slice())?;
    let mut registers = widened(alloc, &[0; REGISTER_PLACES])?;
    let queries = txn.queries.as_slice();
    is_value_in(alloc, &mut registers, &mut values, queries, number, value)
}
