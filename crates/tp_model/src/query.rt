//! What a transaction's queries are about.
ghost use Rattle.std.specs.Prelude.{◌≡◌, ◌^◌, ◌<◌, length, IfOk};
ghost use Rattle.std.specs.Option.{option_copied};
ghost use Rattle.std.specs.List.{list_any};
ghost use Rattle.tp_model.specs.Authorisation as authorisation;
ghost use Rattle.tp_model.specs.Queries as queries;

use std::alloc::Global;
use tp_types::{Action, ItemId, List, NoMemory, Query, Scenario, ServerId, Transaction};

/// The item that a query reads or writes.
pub fn item_of(query: &Query) -> ItemId
    ensures { result ≡ queries.item_of query.now }
{
    match query {
        Query::Read { item, into: _ } => *item,
        Query::Write { item, expr: _ } => *item,
    }
}

/// What a query does to its item.
pub fn action_of(query: &Query) -> Action
    ensures { result ≡ authorisation.action_of query.now }
{
    match query {
        Query::Read { item: _, into: _ } => Action::Read,
        Query::Write { item: _, expr: _ } => Action::Write,
    }
}

/// A transaction's query by its number, which counts from 1; None exactly where there is none.
pub fn query_at(txn: &Transaction, number: u32) -> Option<&Query>
    ensures { option_copied result ≡ queries.query_at txn.now number }
{
    if number == 0 {
        return None;
    }
    txn.queries.get(number as usize - 1)
}

/// The query is on an item of the server.
pub fn is_at_server(scenario: &Scenario, server: u32, query: &Query) -> bool
    ensures { result ≡ queries.is_at_server scenario.now server query.now }
{
    match scenario.items.get(item_of(query).0 as usize) {
        None => false,
        Some(item) => item.server.0 == server,
    }
}

/// Some of the queries is on an item of the server.
pub fn has_query_at(scenario: &Scenario, server: u32, asked: &[Query]) -> bool
    ensures { result ≡ list_any (queries.is_at_server scenario.now server) asked.now }
{
    asked
        .iter()
        .any(|query| is_at_server(scenario, server, query))
}

/// The servers of a transaction's queries, in order of number, each once.
pub fn servers_of(
    alloc: Global,
    scenario: &Scenario,
    txn: &Transaction,
) -> Result<List<ServerId>, NoMemory>
    requires { length scenario.now.servers < 2 ^ 32 }
    ensures { IfOk result (λ made. made ≡ queries.servers_of scenario.now txn.now) }
{
    let most = txn.queries.len().min(scenario.servers.len());
    let mut made = List::from_vec(Vec::with_capacity(alloc, most)?);
    for server in 0..scenario.servers.len() as u32 {
        if has_query_at(scenario, server, txn.queries.as_slice()) {
            made.push(ServerId(server))?;
        }
    }
    Ok(made)
}
