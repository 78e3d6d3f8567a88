//! The value that a query asks for: a write's sum over what the reads before it have kept in registers.
ghost use Rattle.std.specs.Prelude.{◌≡◌, slice_set};
ghost use Rattle.tp_coord.specs.Sums as sums;
ghost use Rattle.tp_model.specs.SerialRun as run;

use tp_model::{REGISTER_PLACES, query_at};
use tp_types::{Deed, List, Operand, Query, Term, Transaction};

/// A transaction's registers, by number. They stand in the value itself, so that a sum takes no memory.
type Registers = [i128; REGISTER_PLACES];

fn cleared_registers() -> Registers
    ensures { result ≡ run.cleared_registers }
{
    [0; REGISTER_PLACES]
}

/// Keeps what was read. Where there is no such register nothing is kept.
fn keep(registers: &mut Registers, into: u32, value: i128)
    ensures { registers.new ≡ slice_set registers.old into value }
{
    let into = into as usize;
    if into < REGISTER_PLACES {
        registers[into] = value;
    }
}

/// The registers once a transaction's first queries have done these deeds.
fn registers_after(txn: &Transaction, deeds: &[Deed]) -> Registers
    ensures { result ≡ sums.registers_after txn.now deeds.now }
{
    let mut registers = cleared_registers();
    for (query, deed) in txn.queries.as_slice().iter().zip(deeds) {
        if let Query::Read { into, .. } = query {
            keep(&mut registers, *into, deed.value);
        }
    }
    registers
}

fn operand_in(registers: &Registers, operand: &Operand) -> i128
    ensures { result ≡ run.operand_in registers.now operand.now }
{
    match operand {
        Operand::Constant(constant) => i128::from(*constant),
        Operand::Register(register) => registers.get(*register as usize).copied().unwrap_or(0),
    }
}

/// One step of a sum. It stops at the ends of an i128.
fn add_clamped(registers: &Registers, total: i128, term: &Term) -> i128
    ensures { result ≡ sums.add_clamped registers.now total term.now }
{
    let operand = operand_in(registers, &term.operand);
    if term.minus {
        total.saturating_sub(operand)
    } else {
        total.saturating_add(operand)
    }
}

fn clamped_sum(registers: &Registers, expr: &List<Term>) -> i128
    ensures { result ≡ sums.clamped_sum registers.now expr.now }
{
    let mut total = 0;
    for term in expr.as_slice() {
        total = add_clamped(registers, total, term);
    }
    total
}

/// The value that the transaction's query of this number is asked with, once the queries before it have done these deeds: the sum of a
/// write. None for a read, and where there is no such query.
pub(crate) fn asked_value(txn: &Transaction, deeds: &[Deed], number: u32) -> Option<i128>
    ensures { result ≡ sums.asked_value txn.now deeds.now number }
{
    match query_at(txn, number) {
        Some(Query::Write { expr, .. }) => {
            let registers = registers_after(txn, deeds);
            Some(clamped_sum(&registers, expr))
        }
        _ => None,
    }
}
