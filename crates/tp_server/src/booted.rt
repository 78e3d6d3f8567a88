//! A server that boots: what it has by all that is kept of its log, and what it asks.
ghost use Rattle.std.specs.Prelude.{◌≡◌, ◌+◌, ◌<◌, ◌^◌, length, map, option_map, IfOk, OnOk};
ghost use Rattle.tp_types.specs.Effect.{Gives};
ghost use Rattle.tp_lock.specs.Rule as lock;
ghost use Rattle.tp_model.specs.ByAge.{by_age, by_txn};
ghost use Rattle.tp_store.specs.Rule as rule;
ghost use Rattle.tp_server.specs.Booted as booted;
ghost use Rattle.tp_server.specs.mirrors.Inquiries as mirror;

use crate::entries::Entries;
use crate::server::{Ballot, Entry, Server};
use std::alloc::Global;
use tp_lock::LockTable;
use tp_places::Places;
use tp_recover::{Kept, by_age};
use tp_store::{Ranges, Store, Values};
use tp_types::{
    Action, Actor, Body, Deed, InquireRequest, Letter, List, NoMemory, Prepared, Reaction, Record,
    Scenario, ServerId, TryClone, TxnId, Version, both,
};

impl<L: LockTable + Drop> Server<L> {
    /// A server that boots, with a share of the ranges of the scenario's items and a table of no locks on them, and what it
    /// wants done: its next epoch is forced, and then the coordinator of each transaction that it has prepared is asked
    /// for the outcome. Its state is what its log comes to, and the locks of what it has prepared.
    pub fn booted(
        alloc: Global,
        scenario: &Scenario,
        server: ServerId,
        ranges: Ranges,
        kept: Kept,
        locks: L,
    ) -> Result<(Server<L>, Reaction), NoMemory>
        requires epoch { kept.epoch + 1 < 2 ^ 64 }
        requires ranges { ranges ≡ map rule.bounds_of scenario.now.items }
        requires locks { L.table locks ≡ lock.opening (length scenario.now.items) }
        ensures { IfOk result (λ made.
            Gives (booted.boot_row scenario.now server kept) made.0 made.1) }
    {
        let letters = inquiries(alloc, server, &kept.prepared);
        let state = Server::restored(alloc, scenario, server, ranges, kept, locks);
        let (state, letters) = both(state, letters)?;
        let reaction = Reaction {
            append: Some(Record::Boot),
            letters,
        };
        Ok((state, reaction))
    }

    fn restored(
        alloc: Global,
        scenario: &Scenario,
        server: ServerId,
        ranges: Ranges,
        kept: Kept,
        locks: L,
    ) -> Result<Server<L>, NoMemory>
        requires epoch { kept.epoch + 1 < 2 ^ 64 }
        requires ranges { ranges ≡ map rule.bounds_of scenario.now.items }
        requires locks { L.table locks ≡ lock.opening (length scenario.now.items) }
        ensures { IfOk result (λ made. made ≡ booted.booted scenario.now server kept) }
    {
        let Kept {
            epoch,
            newest,
            values,
            prepared,
            settled,
            in_order: _,
        } = kept;
        let entries = entries_of(alloc, &prepared);
        let store = store_of(alloc, scenario, ranges, values, newest, &prepared);
        let locks = locks_of(alloc, locks, prepared);
        let (locks, (store, entries)) = both(locks, both(store, entries))?;
        Ok(Server {
            server,
            epoch: epoch + 1,
            store,
            settled,
            entries,
            locks,
        })
    }
}

/// A server that booted asks the coordinator of a transaction for the outcome.
fn inquiry(server: ServerId, txn: TxnId) -> Letter
    ensures { result ≡ mirror.inquiry_of server txn }
{
    Letter {
        from: Actor::Server(server),
        to: Actor::Coordinator(txn),
        body: Body::Inquire(InquireRequest { txn }),
    }
}

/// The same of each transaction that is prepared in these places.
fn inquiries_in(
    alloc: Global,
    server: ServerId,
    table: &[Option<Prepared>],
) -> Result<List<Letter>, NoMemory>
    ensures { IfOk result (λ letters. letters ≡ mirror.inquiries server (by_txn table.now)) }
{
    let mut letters = List::new(alloc);
    for place in table {
        if let Some(vote) = place {
            letters.push(inquiry(server, vote.txn))?;
        }
    }
    Ok(letters)
}

/// The same of each transaction that is prepared, by number.
fn inquiries(
    alloc: Global,
    server: ServerId,
    table: &Places<Prepared>,
) -> Result<List<Letter>, NoMemory>
    ensures { IfOk result (λ letters. letters ≡ mirror.inquiries server (by_txn table.now)) }
{
    inquiries_in(alloc, server, table.made())
}

/// The entry of what is prepared.
fn entry_of(alloc: Global, vote: &Prepared) -> Result<Entry, NoMemory>
    ensures { IfOk result (λ made. made ≡ booted.restored vote.now) }
{
    let (deeds, verdicts) = both(vote.deeds.try_clone(alloc), vote.verdicts.try_clone(alloc))?;
    Ok(Entry {
        age: vote.age,
        epoch: vote.epoch,
        answers: List::new(alloc),
        waiting: None,
        deeds,
        ballot: Some(Ballot {
            turn: vote.turn,
            verdicts,
        }),
    })
}

/// The entries of these places.
fn boxes_of(
    alloc: Global,
    table: &[Option<Prepared>],
) -> Result<List<Option<Box<Entry, Global>>>, NoMemory>
    ensures { IfOk result (λ made.
        map (option_map (λ b. b.value)) made ≡ map (option_map booted.restored) table.now) }
{
    let mut made = List::from_vec(Vec::with_capacity(alloc, table.len())?);
    for place in table {
        match place {
            None => made.push(None)?,
            Some(vote) => made.push(Some(Box::new(alloc, entry_of(alloc, vote)?)?))?,
        }
    }
    Ok(made)
}

/// The entry of each transaction that is prepared.
fn entries_of(alloc: Global, table: &Places<Prepared>) -> Result<Entries, NoMemory>
    ensures { IfOk result (λ made. made ≡ map (option_map booted.restored) table.now) }
{
    let made = boxes_of(alloc, table.made())?;
    Ok(Entries::from_made(alloc, table.count(), made))
}

fn keep_deed(store: &mut Store, alloc: Global, txn: TxnId, deed: &Deed) -> Result<(), NoMemory>
    ensures { OnOk result
        (store.new ≡ booted.with_deed_kept deed.now.action store.old txn deed.now) }
{
    match deed.action {
        Action::Read => Ok(()),
        Action::Write => store.write(alloc, txn, deed.query, deed.item, deed.value),
    }
}

fn keep_deeds(store: &mut Store, alloc: Global, vote: &Prepared) -> Result<(), NoMemory>
    ensures { OnOk result
        (store.new ≡ booted.with_deeds_kept store.old vote.now.txn vote.now.deeds) }
{
    for deed in vote.deeds.as_slice() {
        keep_deed(store, alloc, vote.txn, deed)?;
    }
    Ok(())
}

fn keep_prepared(
    store: &mut Store,
    alloc: Global,
    table: &[Option<Prepared>],
) -> Result<(), NoMemory>
    ensures { OnOk result (store.new ≡ booted.with_prepared_kept store.old table.now) }
{
    for place in table {
        if let Some(vote) = place {
            keep_deeds(store, alloc, vote)?;
        }
    }
    Ok(())
}

/// A store with these values and versions, and the writes of what is prepared.
fn store_of(
    alloc: Global,
    scenario: &Scenario,
    ranges: Ranges,
    values: Values,
    newest: List<Version>,
    table: &Places<Prepared>,
) -> Result<Store, NoMemory>
    requires { ranges ≡ map rule.bounds_of scenario.now.items }
    ensures { IfOk result (λ made.
        made ≡ booted.with_prepared_kept (rule.restored scenario.now values newest) table.now) }
{
    let mut store = Store::over(alloc, ranges, scenario.txns.len(), values, newest);
    match keep_prepared(&mut store, alloc, table.made()) {
        Err(error) => Err(error),
        Ok(()) => Ok(store),
    }
}

fn lock_deeds<L: LockTable>(locks: &mut L, alloc: Global, vote: &Prepared) -> Result<(), NoMemory>
    ensures { OnOk result
        (L.table locks.new
        ≡ booted.with_deeds_locked vote.now.txn vote.now.age vote.now.deeds
        (L.table locks.old)) }
{
    for deed in vote.deeds.as_slice() {
        locks.request(alloc, vote.txn, vote.age, deed.item, deed.action)?;
    }
    Ok(())
}

fn lock_prepared<L: LockTable>(
    locks: &mut L,
    alloc: Global,
    prepared: &[Prepared],
) -> Result<(), NoMemory>
    ensures { OnOk result
        (L.table locks.new ≡ booted.with_prepared_locked prepared.now (L.table locks.old)) }
{
    for vote in prepared {
        lock_deeds(locks, alloc, vote)?;
    }
    Ok(())
}

/// What is prepared, by age.
fn aged(alloc: Global, table: Places<Prepared>) -> Result<List<Prepared>, NoMemory>
    ensures { IfOk result (λ made. made ≡ by_age (by_txn table)) }
{
    by_age(alloc, table.into_made())
}

/// The table once a lock was asked for each deed of what is prepared, by age.
fn locks_of<L: LockTable + Drop>(
    alloc: Global,
    locks: L,
    table: Places<Prepared>,
) -> Result<L, NoMemory>
    ensures { IfOk result (λ made.
        L.table made ≡ booted.with_prepared_locked (by_age (by_txn table)) (L.table locks)) }
{
    let mut locks = locks;
    let prepared = aged(alloc, table)?;
    match lock_prepared(&mut locks, alloc, prepared.as_slice()) {
        Err(error) => Err(error),
        Ok(()) => Ok(locks),
    }
}
