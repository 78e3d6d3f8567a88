//! What is seen of a server, and the lines of what a step changed in it.
ghost use Rattle.std.specs.Prelude.{◌≡◌, ◌++◌, false, IfOk, OnOk, map, slice_get};
ghost use Rattle.std.specs.List.{flat_map, list_any};
ghost use Rattle.std.specs.Option.{option_copied, option_map_or};
ghost use Rattle.tp_model.specs.Ids.{same_version};
ghost use Rattle.tp_model.specs.Policies.{same_action};
ghost use Rattle.tp_store.specs.Rule.{read_in};
ghost use Rattle.tp_trace.specs.Lines.{line_text, lines_text};
ghost use Rattle.tp_trace.specs.Seen as seen;

use crate::lines::{Kind, put_front};
use crate::words::{put_action, put_admin_at};
use std::alloc::Global;
use tp_lock::LockEntry;
use tp_machine::Locks;
use tp_report::piece::{put, put_after, put_item, put_server, put_txn};
use tp_server::Server;
use tp_store::{Store, Values};
use tp_types::{
    Action, ItemId, List, NoMemory, Place, Scenario, ServerId, TryClone, TxnId, Version,
};

/// What is seen of a server: the locks and the value of each of its items, and the versions that it knows. Nothing is seen of one
/// that is down.
#[derive(Drop)]
pub struct Seen {
    pub locks: List<List<LockEntry>>,
    pub known: List<Version>,
    pub values: List<i128>,
}

/// The items of a server.
pub(crate) fn items_of(scenario: &Scenario, at: ServerId) -> &[ItemId]
    ensures { result.now ≡ seen.items_of scenario.now at }
{
    match scenario.servers.get(at.0 as usize) {
        None => &[],
        Some(server) => server.items.as_slice(),
    }
}

/// What is seen of a server with these items.
pub(crate) fn see(
    alloc: Global,
    items: &[ItemId],
    up: Option<&Server<Locks>>,
) -> Result<Seen, NoMemory>
    ensures { IfOk result (λ made. made ≡ seen.seen_up items.now (option_copied up.entry)) }
{
    match up {
        None => Ok(nothing_seen(alloc)),
        Some(server) => see_up(alloc, items, server),
    }
}

/// Nothing is seen.
pub(crate) fn nothing_seen(alloc: Global) -> Seen
    ensures { result ≡ seen.nothing_seen }
{
    Seen {
        locks: List::new(alloc),
        known: List::new(alloc),
        values: List::new(alloc),
    }
}

fn see_up(alloc: Global, items: &[ItemId], server: &Server<Locks>) -> Result<Seen, NoMemory>
    ensures { IfOk result (λ made. made ≡ seen.seen_of items.now server.now) }
{
    let locks = locks_of(alloc, items, &server.locks)?;
    let known = server.store.known().try_clone(alloc)?;
    let values = values_of(alloc, items, server.store.values())?;
    Ok(Seen {
        locks,
        known,
        values,
    })
}

fn locks_of(
    alloc: Global,
    items: &[ItemId],
    table: &Locks,
) -> Result<List<List<LockEntry>>, NoMemory>
    ensures { IfOk result (λ made. made ≡ map (seen.entries_in table.now) items.now) }
{
    let mut made = List::from_vec(Vec::with_capacity(alloc, items.len())?);
    for item in items {
        made.push(table.entries(alloc, *item)?)?;
    }
    Ok(made)
}

/// The values of items, of those of all items of the scenario.
fn values_of(alloc: Global, items: &[ItemId], values: &Values) -> Result<List<i128>, NoMemory>
    ensures { IfOk result (λ made. made ≡ map (seen.value_in values.now) items.now) }
{
    let mut made = List::from_vec(Vec::with_capacity(alloc, items.len())?);
    for item in items {
        made.push(value_in(values, *item))?;
    }
    Ok(made)
}

/// The values of items to a transaction, which reads what it has written itself.
pub(crate) fn values_to(
    alloc: Global,
    items: &[ItemId],
    store: &Store,
    txn: TxnId,
) -> Result<List<i128>, NoMemory>
    ensures { IfOk result (λ made. made ≡ map (read_in store.now txn) items.now) }
{
    let mut made = List::from_vec(Vec::with_capacity(alloc, items.len())?);
    for item in items {
        made.push(store.read(txn, *item))?;
    }
    Ok(made)
}

fn value_in(values: &Values, item: ItemId) -> i128
    ensures { result ≡ seen.value_in values.now item }
{
    values.get(item.0 as usize).unwrap_or(0)
}

// ---- locks

fn is_of_entry(entry: &LockEntry, other: &LockEntry) -> bool
    ensures { result ≡ seen.is_of_entry entry.now other.now }
{
    other.owner == entry.owner && is_same_action(other.mode, entry.mode)
}

fn is_same_action(one: Action, other: Action) -> bool
    ensures { result ≡ same_action one other }
{
    one == other
}

fn is_entry(entry: &LockEntry, other: &LockEntry) -> bool
    ensures { result ≡ seen.is_entry entry.now other.now }
{
    is_of_entry(entry, other) && is_same_held(other.held, entry.held)
}

fn is_same_held(one: bool, other: bool) -> bool
    ensures { result ≡ seen.same_held one other }
{
    if one { other } else { !other }
}

/// Whether a lock of the same owner and mode is in a list.
fn stands_in(entries: &[LockEntry], entry: &LockEntry) -> bool
    ensures { result ≡ list_any (seen.is_of_entry entry.now) entries.now }
{
    entries.iter().any(|other| is_of_entry(entry, other))
}

/// Whether a lock is in a list, held or waiting as it is.
fn is_in(entries: &[LockEntry], entry: &LockEntry) -> bool
    ensures { result ≡ list_any (seen.is_entry entry.now) entries.now }
{
    entries.iter().any(|other| is_entry(entry, other))
}

/// The list of an item, by the number of the item at its server.
fn list_in(lists: &List<List<LockEntry>>, number: usize) -> &[LockEntry]
    ensures { result.now ≡ seen.list_in lists.now number }
{
    match lists.get(number) {
        None => &[],
        Some(entries) => entries.as_slice(),
    }
}

/// Puts a server, an item, and the owner and the mode of a lock on it.
#[tactic(auto, unfolding(crate::specs::Seen::lock_words))]
fn put_lock_words(
    out: &mut Vec<u8>,
    scenario: &Scenario,
    at: ServerId,
    item: ItemId,
    entry: &LockEntry,
) -> Result<(), NoMemory>
    ensures { OnOk result
        (out.new.items ≡ out.old.items ++ seen.lock_words scenario.now at item entry.now) }
{
    put_server(out, scenario, at)?;
    put(out, b" ")?;
    put_item(out, scenario, item)?;
    put(out, b" ")?;
    put_txn(out, scenario, entry.owner)?;
    put(out, b" ")?;
    put_action(out, entry.mode)
}

/// Puts that a lock is gone, if it is.
#[tactic(auto, unfolding(crate::specs::Seen::free_if))]
fn put_free_if(
    out: &mut Vec<u8>,
    scenario: &Scenario,
    place: Place,
    at: ServerId,
    item: ItemId,
    after: &[LockEntry],
    entry: &LockEntry,
) -> Result<(), NoMemory>
    ensures { OnOk result
        (out.new.items
        ≡ out.old.items
        ++ lines_text (seen.free_if scenario.now place at item after.now entry.now)) }
{
    if stands_in(after, entry) {
        Ok(())
    } else {
        put_free_line(out, scenario, place, at, item, entry)
    }
}

fn put_free_line(
    out: &mut Vec<u8>,
    scenario: &Scenario,
    place: Place,
    at: ServerId,
    item: ItemId,
    entry: &LockEntry,
) -> Result<(), NoMemory>
    ensures { OnOk result
        (out.new.items
        ≡ out.old.items ++ line_text (seen.free_line scenario.now place at item entry.now)) }
{
    put_front(out, place, Kind::Free)?;
    put_lock_words(out, scenario, at, item, entry)?;
    put(out, b"\n")
}

#[tactic(auto, using(crate::proofs::LineLemmas::lines_append))]
fn put_frees_of(
    out: &mut Vec<u8>,
    scenario: &Scenario,
    place: Place,
    at: ServerId,
    item: ItemId,
    after: &[LockEntry],
    before: &[LockEntry],
) -> Result<(), NoMemory>
    ensures { OnOk result
        (out.new.items
        ≡ out.old.items
        ++ lines_text (flat_map (seen.free_if scenario.now place at item after.now) before.now)) }
{
    for entry in before {
        put_free_if(out, scenario, place, at, item, after, entry)?;
    }
    Ok(())
}

/// Puts the locks that are gone.
#[tactic(auto, using(crate::proofs::LineLemmas::lines_append))]
fn put_frees(
    out: &mut Vec<u8>,
    scenario: &Scenario,
    place: Place,
    at: ServerId,
    before: &Seen,
    after: &Seen,
) -> Result<(), NoMemory>
    ensures { OnOk result
        (out.new.items
        ≡ out.old.items
        ++ lines_text (seen.frees_from scenario.now place at 0 before.now after.now
        (seen.items_of scenario.now at))) }
{
    let items = items_of(scenario, at);
    for (number, item) in items.iter().enumerate() {
        let old = list_in(&before.locks, number);
        let new = list_in(&after.locks, number);
        put_frees_of(out, scenario, place, at, *item, new, old)?;
    }
    Ok(())
}

fn put_held(out: &mut Vec<u8>, held: bool) -> Result<(), NoMemory>
    ensures { OnOk result (out.new.items ≡ out.old.items ++ seen.held_word held) }
{
    if held {
        put(out, b" holds")
    } else {
        put(out, b" waits")
    }
}

/// Puts a lock that is new, or that waited and is held now.
#[tactic(auto, unfolding(crate::specs::Seen::lock_if))]
fn put_lock_if(
    out: &mut Vec<u8>,
    scenario: &Scenario,
    place: Place,
    at: ServerId,
    item: ItemId,
    before: &[LockEntry],
    entry: &LockEntry,
) -> Result<(), NoMemory>
    ensures { OnOk result
        (out.new.items
        ≡ out.old.items
        ++ lines_text (seen.lock_if scenario.now place at item before.now entry.now)) }
{
    if is_in(before, entry) {
        Ok(())
    } else {
        put_lock_line(out, scenario, place, at, item, entry)
    }
}

fn put_lock_line(
    out: &mut Vec<u8>,
    scenario: &Scenario,
    place: Place,
    at: ServerId,
    item: ItemId,
    entry: &LockEntry,
) -> Result<(), NoMemory>
    ensures { OnOk result
        (out.new.items
        ≡ out.old.items ++ line_text (seen.lock_line scenario.now place at item entry.now)) }
{
    put_front(out, place, Kind::Lock)?;
    put_lock_words(out, scenario, at, item, entry)?;
    put_held(out, entry.held)?;
    put(out, b"\n")
}

#[tactic(auto, using(crate::proofs::LineLemmas::lines_append))]
fn put_locks_of(
    out: &mut Vec<u8>,
    scenario: &Scenario,
    place: Place,
    at: ServerId,
    item: ItemId,
    before: &[LockEntry],
    after: &[LockEntry],
) -> Result<(), NoMemory>
    ensures { OnOk result
        (out.new.items
        ≡ out.old.items
        ++ lines_text (flat_map (seen.lock_if scenario.now place at item before.now) after.now)) }
{
    for entry in after {
        put_lock_if(out, scenario, place, at, item, before, entry)?;
    }
    Ok(())
}

/// Puts the locks that are new.
#[tactic(auto, using(crate::proofs::LineLemmas::lines_append))]
fn put_locks(
    out: &mut Vec<u8>,
    scenario: &Scenario,
    place: Place,
    at: ServerId,
    before: &Seen,
    after: &Seen,
) -> Result<(), NoMemory>
    ensures { OnOk result
        (out.new.items
        ≡ out.old.items
        ++ lines_text (seen.locks_from scenario.now place at 0 before.now after.now
        (seen.items_of scenario.now at))) }
{
    let items = items_of(scenario, at);
    for (number, item) in items.iter().enumerate() {
        let old = list_in(&before.locks, number);
        let new = list_in(&after.locks, number);
        put_locks_of(out, scenario, place, at, *item, old, new)?;
    }
    Ok(())
}

// ---- versions

/// Puts a version of an administrator, by its place in the scenario, that was not known before.
#[tactic(auto, unfolding(crate::specs::Seen::knows_if))]
fn put_knows_if(
    out: &mut Vec<u8>,
    scenario: &Scenario,
    place: Place,
    at: ServerId,
    admin: usize,
    before: Option<Version>,
    version: Version,
) -> Result<(), NoMemory>
    ensures { OnOk result
        (out.new.items
        ≡ out.old.items
        ++ lines_text (seen.knows_if scenario.now place at admin before version)) }
{
    if is_version(before, version) {
        Ok(())
    } else {
        put_knows_line(out, scenario, place, at, admin, version)
    }
}

fn put_knows_line(
    out: &mut Vec<u8>,
    scenario: &Scenario,
    place: Place,
    at: ServerId,
    admin: usize,
    version: Version,
) -> Result<(), NoMemory>
    ensures { OnOk result
        (out.new.items
        ≡ out.old.items ++ line_text (seen.knows_line scenario.now place at admin version)) }
{
    put_front(out, place, Kind::Knows)?;
    put_server(out, scenario, at)?;
    put(out, b" ")?;
    put_admin_at(out, scenario, admin)?;
    put_after(out, b" ", version.0)?;
    put(out, b"\n")
}

fn is_version(before: Option<Version>, version: Version) -> bool
    ensures { result ≡ option_map_or (same_version version) before false }
{
    match before {
        None => false,
        Some(known) => version == known,
    }
}

fn version_at(versions: &[Version], admin: usize) -> Option<Version>
    ensures { result ≡ slice_get versions.now admin }
{
    versions.get(admin).copied()
}

/// Puts the versions that are known now, and were not before.
#[tactic(auto, using(crate::proofs::LineLemmas::lines_append))]
fn put_knows(
    out: &mut Vec<u8>,
    scenario: &Scenario,
    place: Place,
    at: ServerId,
    before: &[Version],
    after: &[Version],
) -> Result<(), NoMemory>
    ensures { OnOk result
        (out.new.items
        ≡ out.old.items
        ++ lines_text (seen.knows_from scenario.now place at 0 before.now after.now)) }
{
    for (admin, version) in after.iter().enumerate() {
        let old = version_at(before, admin);
        put_knows_if(out, scenario, place, at, admin, old, *version)?;
    }
    Ok(())
}

// ---- values

#[tactic(auto, unfolding(crate::specs::Seen::value_if))]
fn put_value_if(
    out: &mut Vec<u8>,
    scenario: &Scenario,
    place: Place,
    at: ServerId,
    item: ItemId,
    before: Option<i128>,
    after: Option<i128>,
) -> Result<(), NoMemory>
    ensures { OnOk result
        (out.new.items
        ≡ out.old.items
        ++ lines_text (seen.value_if scenario.now place at item before after)) }
{
    match (before, after) {
        (Some(old), Some(new)) if old != new => {
            put_item_line(out, scenario, place, at, item, new)
        }
        _ => Ok(()),
    }
}

/// Puts the value that an item has now.
fn put_item_line(
    out: &mut Vec<u8>,
    scenario: &Scenario,
    place: Place,
    at: ServerId,
    item: ItemId,
    value: i128,
) -> Result<(), NoMemory>
    ensures { OnOk result
        (out.new.items
        ≡ out.old.items ++ line_text (seen.item_line scenario.now place at item value)) }
{
    put_front(out, place, Kind::Item)?;
    put_server(out, scenario, at)?;
    put(out, b" ")?;
    put_item(out, scenario, item)?;
    put_after(out, b" ", value)?;
    put(out, b"\n")
}

fn number_at(values: &[i128], number: usize) -> Option<i128>
    ensures { result ≡ slice_get values.now number }
{
    values.get(number).copied()
}

/// Puts the values that are others now.
#[tactic(auto, using(crate::proofs::LineLemmas::lines_append))]
pub(crate) fn put_values(
    out: &mut Vec<u8>,
    scenario: &Scenario,
    place: Place,
    at: ServerId,
    before: &[i128],
    after: &[i128],
) -> Result<(), NoMemory>
    ensures { OnOk result
        (out.new.items
        ≡ out.old.items
        ++ lines_text (seen.values_from scenario.now place at 0 before.now after.now
        (seen.items_of scenario.now at))) }
{
    let items = items_of(scenario, at);
    for (number, item) in items.iter().enumerate() {
        let old = number_at(before, number);
        let new = number_at(after, number);
        put_value_if(out, scenario, place, at, *item, old, new)?;
    }
    Ok(())
}

// ---- a server

/// Puts what changed in a server that is up now.
#[tactic(auto, using(crate::proofs::LineLemmas::lines_append))]
pub(crate) fn put_seen(
    out: &mut Vec<u8>,
    scenario: &Scenario,
    place: Place,
    at: ServerId,
    before: &Seen,
    after: &Seen,
) -> Result<(), NoMemory>
    ensures { OnOk result
        (out.new.items
        ≡ out.old.items
        ++ lines_text (seen.seen_lines scenario.now place at before.now after.now)) }
{
    put_frees(out, scenario, place, at, before, after)?;
    put_locks(out, scenario, place, at, before, after)?;
    put_knows(
        out,
        scenario,
        place,
        at,
        before.known.as_slice(),
        after.known.as_slice(),
    )?;
    put_values(
        out,
        scenario,
        place,
        at,
        before.values.as_slice(),
        after.values.as_slice(),
    )
}
