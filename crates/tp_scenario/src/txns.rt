//! Transactions.
ghost use Rattle.std.specs.Prelude.{◌≡◌, ◌==◌, ◌++◌, ◌∷◌, [], false, not, map, option_map, IfOk, OnOk};
ghost use Rattle.std.specs.List.{list_any};
ghost use Rattle.tp_json.specs.View.{view, items_view};
ghost use Rattle.tp_scenario.specs.Txns as txns;
ghost use Rattle.tp_scenario.specs.Values.{apart, each};
ghost use Rattle.tp_scenario.specs.declared.path.Key.TheVariants as Key;
ghost use Rattle.tp_scenario.specs.declared.path.Path.TheVariants as Path;
ghost use Rattle.tp_scenario.specs.mirrors.Gives.{Gives, GivesNew};
ghost use Rattle.tp_scenario.specs.mirrors.Places.{creds_at};
ghost use Rattle.tp_scenario.specs.mirrors.Parts as parts;

use crate::fault::{WalkError, range_at};
use crate::names::{Declared, Names};
use crate::object::{field, object_at};
use crate::path::{Key, Path};
use crate::query::query_at;
use crate::values::{
    array_of, count_or, name_at, new_name_at, test_items, test_items_or, text_at, used_at,
};
use indexmap::IndexSet;
use std::alloc::Global;
use tp_json::Json;
use tp_model::{CREDS_MAX, QUERIES_MAX, ROUNDS_MAX, TXNS_MAX};
use tp_types::{CredId, Level, List, Name, NoMemory, Query, Scheme, Transaction, both};

fn path_of(at: usize, key: Key) -> Path
    ensures { result ≡ Path.Field Key.Transactions at key }
{
    Path::Field(Key::Transactions, at, key)
}

fn scheme_named(path: Path, text: &[u8]) -> Result<Scheme, WalkError>
    ensures { Gives result (txns.scheme_or_range path text.now) }
{
    if text == b"deferred".as_slice() {
        Ok(Scheme::Deferred)
    } else if text == b"punctual".as_slice() {
        Ok(Scheme::Punctual)
    } else if text == b"incremental".as_slice() {
        Ok(Scheme::Incremental)
    } else if text == b"continuous".as_slice() {
        Ok(Scheme::Continuous)
    } else {
        Err(range_at(path))
    }
}

fn told_scheme(path: Path, value: Option<&Json>) -> Result<Scheme, WalkError>
    ensures { Gives result (txns.scheme_in_text path (option_map (λ v. view v.now) value.entry)) }
{
    let text = text_at(path, value)?;
    scheme_named(path, text)
}

/// The scheme, deferred where none is told.
#[tactic(auto, unfolding(crate::specs::Txns::scheme_at))]
fn scheme_at(path: Path, value: Option<&Json>) -> Result<Scheme, WalkError>
    ensures { Gives result (txns.scheme_at path (option_map (λ v. view v.now) value.entry)) }
{
    match value {
        None => Ok(Scheme::Deferred),
        Some(_) => told_scheme(path, value),
    }
}

fn level_named(path: Path, text: &[u8]) -> Result<Level, WalkError>
    ensures { Gives result (txns.level_or_range path text.now) }
{
    if text == b"view".as_slice() {
        Ok(Level::View)
    } else if text == b"global".as_slice() {
        Ok(Level::Global)
    } else {
        Err(range_at(path))
    }
}

fn told_level(path: Path, value: Option<&Json>) -> Result<Level, WalkError>
    ensures { Gives result (txns.level_in_text path (option_map (λ v. view v.now) value.entry)) }
{
    let text = text_at(path, value)?;
    level_named(path, text)
}

/// The level, view where none is told.
#[tactic(auto, unfolding(crate::specs::Txns::level_at))]
fn level_at(path: Path, value: Option<&Json>) -> Result<Level, WalkError>
    ensures { Gives result (txns.level_at path (option_map (λ v. view v.now) value.entry)) }
{
    match value {
        None => Ok(Level::View),
        Some(_) => told_level(path, value),
    }
}

/// Notes the place of a credential, and tells whether it is new.
fn noted(seen: &mut IndexSet<u32>, place: u32) -> Result<bool, NoMemory>
    ensures new { IfOk result (λ new.
        new ≡ not (list_any (λ other. place == other) seen.old.keys)) }
    ensures places { OnOk result
        (list_any (λ other. place == other) seen.old.keys ≡ false
        → seen.new.keys ≡ seen.old.keys ++ place ∷ []) }
{
    Ok(seen.insert(place)?)
}

/// A credential that is presented, after those of these places. Its own is added to them.
#[tactic(auto, unfolding(crate::specs::Txns::credential_at), using(crate::proofs::GrowingLists::any_made))]
fn presented_at(
    path: Path,
    creds: &Names,
    seen: &mut IndexSet<u32>,
    value: &Json,
) -> Result<CredId, WalkError>
    ensures value { Gives result
        (txns.credential_at path creds.now (creds_at seen.old.keys) (view value.now)) }
    ensures noted { IfOk result (λ cred. seen.new.keys ≡ seen.old.keys ++ cred.0 ∷ []) }
{
    let place = used_at(path, creds, Some(value))?;
    if noted(seen, place)? {
        Ok(CredId(place))
    } else {
        Err(range_at(path))
    }
}

/// Adds the credentials that are presented to those before them, whose places are noted.
fn each_presented(
    creds: &Names,
    at: usize,
    seen: &mut IndexSet<u32>,
    made: &mut List<CredId>,
    values: &[Json],
) -> Result<(), WalkError>
    requires { made.old ≡ creds_at seen.old.keys }
    ensures { GivesNew result made.new
        (each (txns.credential_in creds.now at) made.old (items_view values.now)) }
{
    for value in values {
        let path = Path::Entry(Key::Transactions, at, Key::Credentials, made.len());
        let cred = presented_at(path, creds, seen, value)?;
        made.push(cred)?;
    }
    Ok(())
}

fn all_presented(
    alloc: Global,
    creds: &Names,
    at: usize,
    values: &[Json],
) -> Result<List<CredId>, WalkError>
    ensures { Gives result (each (txns.credential_in creds.now at) [] (items_view values.now)) }
{
    let mut made = List::new(alloc);
    let mut seen = IndexSet::new(alloc);
    each_presented(creds, at, &mut seen, &mut made, values)?;
    Ok(made)
}

#[tactic(auto, unfolding(crate::specs::Txns::credentials_at))]
fn presented_by(
    alloc: Global,
    creds: &Names,
    at: usize,
    value: Option<&Json>,
) -> Result<List<CredId>, WalkError>
    ensures { Gives result
        (txns.credentials_at creds.now at (option_map (λ v. view v.now) value.entry)) }
{
    test_items_or(path_of(at, Key::Credentials), CREDS_MAX, value)?;
    match array_of(value) {
        None => Ok(List::new(alloc)),
        Some(values) => all_presented(alloc, creds, at, values),
    }
}

fn each_query(
    alloc: Global,
    items: &Names,
    at: usize,
    values: &[Json],
) -> Result<List<Query>, WalkError>
    ensures { Gives result (each (txns.query_in items.now at) [] (items_view values.now)) }
{
    let mut made = List::new(alloc);
    for value in values {
        let path = Path::Entry(Key::Transactions, at, Key::Queries, made.len());
        let query = query_at(alloc, path, items, value)?;
        made.push(query)?;
    }
    Ok(made)
}

#[tactic(auto, unfolding(crate::specs::Txns::queries_at))]
fn queries_at(
    alloc: Global,
    items: &Names,
    at: usize,
    value: Option<&Json>,
) -> Result<List<Query>, WalkError>
    ensures { Gives result
        (txns.queries_at items.now at (option_map (λ v. view v.now) value.entry)) }
{
    test_items(path_of(at, Key::Queries), 1, QUERIES_MAX, value)?;
    match array_of(value) {
        None => Ok(List::new(alloc)),
        Some(values) => each_query(alloc, items, at, values),
    }
}

/// The name of a transaction, which no other transaction has and no server.
#[tactic(auto, unfolding(crate::specs::Txns::txn_name_at))]
fn txn_name_at<'a>(
    servers: &Names<'a>,
    others: &mut Names<'a>,
    at: usize,
    value: Option<&Json<'a>>,
) -> Result<Name, WalkError>
    ensures value { Gives result
        (txns.txn_name_at servers.now others.old at (option_map (λ v. view v.now) value.entry)) }
    ensures named { IfOk result (λ name. others.new ≡ others.old ++ name ∷ []) }
{
    let path = path_of(at, Key::Name);
    let name = new_name_at(path, others, value)?;
    match servers.place_of(name.bytes()) {
        None => Ok(name),
        Some(_) => Err(range_at(path)),
    }
}

#[tactic(auto, unfolding(crate::specs::Txns::txn_at))]
fn txn_at<'a>(
    alloc: Global,
    names: &mut Declared<'a>,
    at: usize,
    value: &Json<'a>,
) -> Result<Transaction, WalkError>
    ensures value { Gives result (txns.txn_at names.old at (view value.now)) }
    ensures named { IfOk result (λ txn.
        names.new ≡ record names.old { txns = names.old.txns ++ txn.name ∷ [] }) }
{
    let fields = object_at(
        Path::Member(Key::Transactions, at),
        &[Key::Name, Key::Subject, Key::Queries],
        &[Key::Scheme, Key::Level, Key::Rounds, Key::Credentials],
        value,
    )?;
    let name = txn_name_at(
        &names.servers,
        &mut names.txns,
        at,
        field(fields, Key::Name),
    );
    let subject = name_at(path_of(at, Key::Subject), field(fields, Key::Subject));
    let manner = manner_at(at, fields);
    let creds = presented_by(alloc, &names.creds, at, field(fields, Key::Credentials));
    let queries = queries_at(alloc, &names.items, at, field(fields, Key::Queries));
    let told = both(both(name, subject), manner);
    let lists = both(creds, queries);
    let (((name, subject), (scheme, level, rounds)), (creds, queries)) = both(told, lists)?;
    Ok(Transaction {
        name,
        subject,
        scheme,
        level,
        rounds,
        creds,
        queries,
    })
}

/// How a transaction is run: its scheme, its level, and how many rounds may meet a newer version.
fn manner_at(at: usize, fields: &Json) -> Result<(Scheme, Level, u32), WalkError>
    ensures { Gives result (parts.manner_at at (view fields.now)) }
{
    let scheme = scheme_at(path_of(at, Key::Scheme), field(fields, Key::Scheme))?;
    let level = level_at(path_of(at, Key::Level), field(fields, Key::Level))?;
    let rounds = count_or(
        path_of(at, Key::Rounds),
        1,
        ROUNDS_MAX as u64,
        8,
        field(fields, Key::Rounds),
    )?;
    Ok((scheme, level, rounds as u32))
}

fn each_txn<'a>(
    alloc: Global,
    names: &mut Declared<'a>,
    values: &[Json<'a>],
) -> Result<List<Transaction>, WalkError>
    requires { names.old.txns ≡ [] }
    ensures value { Gives result (each (txns.txn_in names.old) [] (items_view values.now)) }
    ensures named { IfOk result (λ made.
        names.new ≡ record names.old { txns = map txns.txn_name made }) }
{
    let mut made = List::new(alloc);
    for value in values {
        made.push(txn_at(alloc, names, made.len(), value)?)?;
    }
    Ok(made)
}

/// The transactions, whose names are added to none so far.
#[tactic(auto, unfolding(crate::specs::Txns::txns_at))]
pub(crate) fn txns_at<'a>(
    alloc: Global,
    names: &mut Declared<'a>,
    value: Option<&Json<'a>>,
) -> Result<List<Transaction>, WalkError>
    requires { names.old.txns ≡ [] }
    ensures value { Gives result
        (txns.txns_at names.old (option_map (λ v. view v.now) value.entry)) }
    ensures named { IfOk result (λ made.
        names.new ≡ record names.old { txns = map txns.txn_name made }) }
{
    test_items(Path::Top(Key::Transactions), 0, TXNS_MAX, value)?;
    match array_of(value) {
        None => Ok(List::new(alloc)),
        Some(values) => each_txn(alloc, names, values),
    }
}
