//! What a scenario says of its first parts, as one line.
use std::alloc::Global;
use tp_types::{Admin, Item, NoMemory, Operand, Query, Scenario, ServerDecl, Term, Transaction};

/// Adds a word, with a blank before it.
fn add(line: &mut Vec<u8>, word: &[u8]) -> Result<(), NoMemory> {
    line.push(b' ')?;
    line.extend_from_slice(word)?;
    Ok(())
}

fn add_range(alloc: Global, line: &mut Vec<u8>, item: &Item) -> Result<(), NoMemory> {
    let (min, max, value) = (item.min, item.max, item.value);
    let range = format!(in alloc; "{min} {max} {value}")?;
    add(line, range.as_bytes())
}

fn add_term(alloc: Global, line: &mut Vec<u8>, term: &Term) -> Result<(), NoMemory> {
    let sign = if term.minus { "-" } else { "" };
    let term = match term.operand {
        Operand::Constant(constant) => format!(in alloc; "{sign}{constant}")?,
        Operand::Register(number) => format!(in alloc; "{sign}r{number}")?,
    };
    add(line, term.as_bytes())
}

/// Adds the first term that a transaction's first query writes.
fn add_written(alloc: Global, line: &mut Vec<u8>, txn: &Transaction) -> Result<(), NoMemory> {
    match txn.queries.get(0) {
        None => add(line, b"no query"),
        Some(Query::Read { item: _, into: _ }) => add(line, b"a read"),
        Some(Query::Write { item: _, expr }) => match expr.get(0) {
            None => add(line, b"nothing"),
            Some(first) => add_term(alloc, line, first),
        },
    }
}

fn add_parts(
    alloc: Global,
    line: &mut Vec<u8>,
    admin: &Admin,
    server: &ServerDecl,
    item: &Item,
    txn: &Transaction,
) -> Result<(), NoMemory> {
    add(line, admin.name.bytes())?;
    add(line, server.name.bytes())?;
    add(line, item.name.bytes())?;
    add(line, txn.name.bytes())?;
    add(line, txn.subject.bytes())?;
    add_range(alloc, line, item)?;
    add_written(alloc, line, txn)
}

fn add_said(alloc: Global, line: &mut Vec<u8>, scenario: &Scenario) -> Result<(), NoMemory> {
    match (
        scenario.admins.get(0),
        scenario.servers.get(0),
        scenario.items.get(0),
        scenario.txns.get(0),
    ) {
        (Some(admin), Some(server), Some(item), Some(txn)) => {
            add_parts(alloc, line, admin, server, item, txn)
        }
        _ => {
            line.extend_from_slice(b", and a part is missing")?;
            Ok(())
        }
    }
}

/// The first administrator, server, item, transaction and its subject, the item's least, greatest and opening value, and
/// what the first query writes.
pub fn said(alloc: Global, scenario: &Scenario) -> Result<Vec<u8>, NoMemory> {
    let mut line = Vec::from_slice(alloc, b"ok")?;
    add_said(alloc, &mut line, scenario)?;
    Ok(line)
}
