//! Aborts since a value is outside its item's range.
ghost use Rattle.std.specs.Prelude.{◌≡◌, drop, IfOk};
ghost use Rattle.std.specs.List.{list_any};
ghost use Rattle.tp_model.specs.Causes as causes;

use crate::crashes::lost_work;
use crate::facts::is_settled_as;
use crate::run::is_run_value;
use crate::serial::store_at;
use std::alloc::Global;
use tp_model::query_at;
use tp_types::{
    Fact, Item, ItemId, List, NoMemory, OutOfRange, Outcome, Place, Query, Scenario, ServerId,
    Transaction, TxnId, What,
};

/// The query writes the item.
pub fn is_write_of(item: ItemId, query: &Query) -> bool
    ensures { result ≡ causes.is_write_of item query.now }
{
    match query {
        Query::Read { item: _, into: _ } => false,
        Query::Write {
            item: other,
            expr: _,
        } => *other == item,
    }
}

fn is_written_later(txn: &Transaction, number: u32, item: ItemId) -> bool
    ensures { result ≡ list_any (causes.is_write_of item) (drop number txn.now.queries) }
{
    txn.queries
        .iter()
        .skip(number as usize)
        .any(|query| is_write_of(item, query))
}

fn is_outside_range(at: ServerId, value: i128, item: &Item) -> bool
    ensures { result ≡ causes.is_outside_range at value item.now }
{
    item.server == at && !(i128::from(item.min) <= value && value <= i128::from(item.max))
}

fn is_refused_write(
    scenario: &Scenario,
    txn: &Transaction,
    refused: &OutOfRange,
    query: &Query,
) -> bool
    ensures { result ≡ causes.is_refused_write scenario.now refused.now.server refused.now.value
        (drop refused.now.query txn.now.queries) query.now }
{
    let Query::Write { item, expr: _ } = query else {
        return false;
    };
    match scenario.items.get(item.0 as usize) {
        None => false,
        Some(declared) => {
            !is_written_later(txn, refused.query, *item)
                && is_outside_range(refused.server, refused.value, declared)
        }
    }
}

fn has_refused_write(scenario: &Scenario, txn: &Transaction, refused: &OutOfRange) -> bool
    ensures { result ≡ causes.has_refused_write scenario.now txn.now refused.now }
{
    match query_at(txn, refused.query) {
        None => false,
        Some(query) => is_refused_write(scenario, txn, refused, query),
    }
}

fn was_refused_at(at: ServerId, txn: TxnId, decided: Place, facts: &List<Fact>) -> bool
    ensures { result ≡ causes.was_refused_at at txn decided facts.now }
{
    facts
        .iter()
        .filter(|fact| fact.place < decided)
        .any(|fact| is_settled_as(at, txn, Outcome::Abort, fact))
}

fn is_abort(txn: TxnId, fact: &Fact) -> bool
    ensures { result ≡ causes.is_abort txn fact.now }
{
    match &fact.what {
        What::Settled(_, other, Outcome::Abort) => *other == txn,
        _ => false,
    }
}

fn first_abort_of(txn: TxnId, facts: &List<Fact>) -> Option<Place>
    ensures { result ≡ causes.first_abort_of txn facts.now }
{
    facts
        .iter()
        .find(|fact| is_abort(txn, fact))
        .map(|fact| fact.place)
}

fn is_explained_at(
    alloc: Global,
    scenario: &Scenario,
    txn: TxnId,
    facts: &List<Fact>,
    refused: &OutOfRange,
    declared: &Transaction,
    place: Place,
) -> Result<bool, NoMemory>
    ensures { IfOk result (λ explained. explained
        ≡ causes.is_explained_at scenario.now txn facts.now refused.now declared.now place) }
{
    if lost_work(scenario, txn, facts, declared, place) {
        return Ok(true);
    }
    let store = store_at(alloc, scenario, place, facts)?;
    is_run_value(alloc, &store, declared, refused.query, refused.value)
}

fn is_explained(
    alloc: Global,
    scenario: &Scenario,
    txn: TxnId,
    facts: &List<Fact>,
    refused: &OutOfRange,
    declared: &Transaction,
) -> Result<bool, NoMemory>
    ensures { IfOk result (λ explained. explained
        ≡ causes.is_explained scenario.now txn facts.now refused.now declared.now) }
{
    match first_abort_of(txn, facts) {
        None => Ok(false),
        Some(place) => is_explained_at(alloc, scenario, txn, facts, refused, declared, place),
    }
}

/// Whether a server refused the last write of an item, whose value is outside the item's range.
pub fn is_refused(
    alloc: Global,
    scenario: &Scenario,
    txn: TxnId,
    decided: Place,
    facts: &List<Fact>,
    refused: &OutOfRange,
    declared: &Transaction,
) -> Result<bool, NoMemory>
    ensures { IfOk result (λ shown. shown
        ≡ causes.is_refused scenario.now txn decided facts.now refused.now declared.now) }
{
    if !has_refused_write(scenario, declared, refused)
        || !was_refused_at(refused.server, txn, decided, facts)
    {
        return Ok(false);
    }
    is_explained(alloc, scenario, txn, facts, refused, declared)
}
