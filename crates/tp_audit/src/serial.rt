//! Serial data: each commit did what its transaction does by itself on the data of the commits before it.
ghost use Rattle.std.specs.Prelude.{◌≡◌, ℕ, ◌+◌, ◌^◌, ◌==◌, ◌&&◌, slice_get, false, IfOk, IsTrue};
ghost use Rattle.std.specs.Option.{option_map_or};
ghost use Rattle.std.specs.Cmp.Lexicographic.{pointwise};
ghost use Rattle.tp_audit.specs.mirrors.Programs as program;
ghost use Rattle.tp_model.specs.Ids as ids;
ghost use Rattle.tp_model.specs.Limits.{is_between};
ghost use Rattle.tp_model.specs.SerialRun as serial;

use crate::total::{Total, is_total, minus, nothing, plus};
use std::alloc::Global;
use tp_model::REGISTER_PLACES;
use tp_types::{
    Action, CommitRecord, Decision, Deed, Fact, Item, ItemId, List, NoMemory, Operand, Place,
    Query, Scenario, Term, Transaction, TxnId, What,
};

fn number_at(numbers: &[i128], place: u32) -> i128
    ensures { result ≡ serial.number_at numbers.now place }
{
    match numbers.get(place as usize) {
        None => 0,
        Some(number) => *number,
    }
}

fn operand_in(registers: &[i128], operand: &Operand) -> i128
    ensures { result ≡ serial.operand_in registers.now operand.now }
{
    match operand {
        Operand::Constant(constant) => i128::from(*constant),
        Operand::Register(register) => number_at(registers, *register),
    }
}

fn add_term(registers: &[i128], total: Total, term: &Term) -> Total
    requires { program.HasWrapped (2 ^ 99) total }
    ensures value { program.value_of result ≡ serial.add_term registers.now
        (program.value_of total) term.now }
    ensures wraps { (most : ℕ) → program.HasWrapped most total
        → program.HasWrapped (most + 2) result }
{
    let value = operand_in(registers, &term.operand);
    if term.minus {
        minus(total, value)
    } else {
        plus(total, value)
    }
}

fn sum_in(registers: &[i128], expr: &List<Term>) -> Total
    ensures { program.value_of result ≡ serial.sum_in registers.now expr.now }
{
    let mut total = nothing();
    for term in expr.as_slice() {
        total = add_term(registers, total, term);
    }
    total
}

fn is_about(number: usize, item: ItemId, deed: &Deed) -> bool
    ensures { result ≡ ((deed.now.query == number) && ids.same_item deed.now.item item) }
{
    deed.query as usize == number && deed.item == item
}

fn is_read(number: usize, item: ItemId, value: i128, deed: &Deed) -> bool
    ensures { result ≡ serial.same_deed deed.now
        (record { query = number; item = item; action = Action.Read; value = value }) }
{
    is_about(number, item, deed) && (matches!(deed.action, Action::Read) && deed.value == value)
}

fn is_write(number: usize, item: ItemId, total: Total, deed: &Deed) -> bool
    ensures { result ≡ serial.same_deed deed.now
        (record {
          query = number;
          item = item;
          action = Action.Write;
          value = program.value_of total;
        }) }
{
    is_about(number, item, deed)
        && (matches!(deed.action, Action::Write) && is_total(deed.value, total))
}

fn follow_read(
    registers: &mut [i128],
    store: &List<i128>,
    number: usize,
    item: ItemId,
    into: u32,
    deed: &Deed,
) -> bool
    ensures same { result ≡ serial.same_deed deed.now
        (program.deed_of number (Query.Read item into) registers.old store.now) }
    ensures registers { registers.new ≡ program.registers_after
        (Query.Read item into) registers.old store.now }
{
    let value = number_at(store.as_slice(), item.0);
    if (into as usize) < registers.len() {
        registers[into as usize] = value;
    }
    is_read(number, item, value, deed)
}

#[tactic(auto, using(crate::proofs::SerialLemmas::written_value))]
fn follow_write(
    registers: &[i128],
    store: &mut List<i128>,
    number: usize,
    item: ItemId,
    expr: &List<Term>,
    deed: &Deed,
) -> bool
    ensures same { result ≡ serial.same_deed deed.now
        (program.deed_of number (Query.Write item expr.now) registers.now store.old) }
    ensures store { IsTrue result
        → store.new ≡ program.store_after (Query.Write item expr.now) registers.now store.old }
{
    if !is_write(number, item, sum_in(registers, expr), deed) {
        return false;
    }
    store.put(item.0 as usize, deed.value);
    true
}

/// Whether the deed is what the query does, which is then done.
fn follow(
    registers: &mut [i128],
    store: &mut List<i128>,
    number: usize,
    query: &Query,
    deed: &Deed,
) -> bool
    ensures same { result ≡ serial.same_deed deed.now
        (program.deed_of number query.now registers.old store.old) }
    ensures registers { IsTrue result
        → registers.new ≡ program.registers_after query.now registers.old store.old }
    ensures store { IsTrue result
        → store.new ≡ program.store_after query.now registers.old store.old }
{
    match query {
        Query::Read { item, into } => follow_read(registers, store, number, *item, *into, deed),
        Query::Write { item, expr } => follow_write(registers, store, number, *item, expr, deed),
    }
}

/// Whether the deeds are those of the transaction, run by itself on the store, which they then have changed.
#[tactic(auto, using(crate::proofs::SerialLemmas::no_serial_run, crate::proofs::SerialLemmas::runs_next, crate::proofs::SerialLemmas::stored_same))]
fn is_serial_run(store: &mut List<i128>, deeds: &List<Deed>, txn: &Transaction) -> bool
    ensures same { result ≡ pointwise serial.same_deed deeds.now
        (serial.serial_run txn.now store.old) }
    ensures store { IsTrue result → store.new ≡ serial.with_deeds store.old deeds.now }
{
    if deeds.len() != txn.queries.len() {
        return false;
    }
    let mut registers = [0i128; REGISTER_PLACES];
    for (at, query) in txn.queries.as_slice().iter().enumerate() {
        if !follow(&mut registers, store, at + 1, query, &deeds.as_slice()[at]) {
            return false;
        }
    }
    true
}

fn is_in_range(item: &Item, store: &List<i128>, at: usize) -> bool
    ensures { result ≡ option_map_or (is_between item.now.min item.now.max)
        (slice_get store.now at) false }
{
    match store.get(at) {
        None => false,
        Some(value) => i128::from(item.min) <= *value && *value <= i128::from(item.max),
    }
}

fn are_in_range(items: &List<Item>, store: &List<i128>) -> bool
    ensures { result ≡ serial.are_in_range items.now store.now }
{
    for (at, item) in items.as_slice().iter().enumerate() {
        if !is_in_range(item, store, at) {
            return false;
        }
    }
    true
}

fn is_serial_commit(
    scenario: &Scenario,
    mut store: List<i128>,
    committed: &CommitRecord,
    txn: &Transaction,
) -> bool
    ensures { result ≡ serial.is_serial_commit scenario.now store committed.now txn.now }
{
    is_serial_run(&mut store, &committed.deeds, txn) && are_in_range(&scenario.items, &store)
}

fn opening_store(alloc: Global, scenario: &Scenario) -> Result<List<i128>, NoMemory>
    ensures { IfOk result (λ made. made ≡ serial.opening_store scenario.now) }
{
    let mut made = List::new(alloc);
    for item in scenario.items.as_slice() {
        made.push(i128::from(item.value))?;
    }
    Ok(made)
}

fn store_deed(store: &mut List<i128>, deed: &Deed)
    ensures { store.new ≡ serial.with_deed store.old deed.now }
{
    match deed.action {
        Action::Read => {}
        Action::Write => store.put(deed.item.0 as usize, deed.value),
    }
}

fn store_deeds(store: &mut List<i128>, deeds: &List<Deed>)
    ensures { store.new ≡ serial.with_deeds store.old deeds.now }
{
    for deed in deeds.as_slice() {
        store_deed(store, deed);
    }
}

fn store_fact(store: &mut List<i128>, fact: &Fact)
    ensures { store.new ≡ serial.with_fact store.old fact.now }
{
    match &fact.what {
        What::Decided(_, Decision::Commit(committed)) => store_deeds(store, &committed.deeds),
        _ => {}
    }
}

/// The store before a place: the opening values, and then each commit's writes in order.
pub fn store_at(
    alloc: Global,
    scenario: &Scenario,
    place: Place,
    facts: &List<Fact>,
) -> Result<List<i128>, NoMemory>
    ensures { IfOk result (λ made. made ≡ serial.store_at scenario.now place facts.now) }
{
    let mut store = opening_store(alloc, scenario)?;
    for fact in facts.as_slice() {
        if fact.place < place {
            store_fact(&mut store, fact);
        }
    }
    Ok(store)
}

fn is_serial_decision(
    alloc: Global,
    scenario: &Scenario,
    facts: &List<Fact>,
    place: Place,
    txn: TxnId,
    decision: &Decision,
) -> Result<bool, NoMemory>
    ensures { IfOk result (λ kept.
        kept ≡ serial.keeps_serial_what scenario.now facts.now place
        (What.Decided txn decision.now)) }
{
    let Decision::Commit(committed) = decision else {
        return Ok(true);
    };
    let Some(declared) = scenario.txns.get(txn.0 as usize) else {
        return Ok(false);
    };
    let store = store_at(alloc, scenario, place, facts)?;
    Ok(is_serial_commit(scenario, store, committed, declared))
}

/// Whether one fact keeps serial data beside all facts: if it is a commit, it did what its transaction does by itself on the data
/// of the commits before it, and left each item in its range.
pub fn keeps_serial(
    alloc: Global,
    scenario: &Scenario,
    facts: &List<Fact>,
    fact: &Fact,
) -> Result<bool, NoMemory>
    ensures { IfOk result (λ kept. kept ≡ serial.keeps_serial scenario.now facts.now fact.now) }
{
    match &fact.what {
        What::Decided(txn, decision) => {
            is_serial_decision(alloc, scenario, facts, fact.place, *txn, decision)
        }
        _ => Ok(true),
    }
}

/// Whether every commit is serial.
pub fn is_serial(alloc: Global, scenario: &Scenario, facts: &List<Fact>) -> Result<bool, NoMemory>
    ensures { IfOk result (λ kept. kept ≡ serial.is_serial scenario.now facts.now) }
{
    for fact in facts.as_slice() {
        if !keeps_serial(alloc, scenario, facts, fact)? {
            return Ok(false);
        }
    }
    Ok(true)
}
