//! The entries of transactions at a server, by number.
ghost use Rattle.std.specs.Prelude.{◌≡◌, Some, None, replicate, slice_get, slice_set, map, option_map, IfOk, OnOk, OnErr};
ghost use Rattle.tp_server.specs.Begun.{begun};
ghost use Rattle.std.specs.Option.{option_copied, option_flatten};
ghost use Rattle.tp_places.specs.Padded.{padded};

use crate::server::Entry;
use std::alloc::Global;
use std::marker::Model;
use tp_places::Places;
use tp_types::{List, NoMemory, Place};

/// The entry of each transaction of the scenario, if it has one. An entry stands in a box, since most transactions have
/// none here and entries are moved often.
#[derive(Drop)]
pub struct Entries {
    places: Places<Box<Entry, Global>>,
    /// Entries that have ended, for the memory of those that begin.
    ended: List<Box<Entry, Global>>,
}

impl Model for Entries {
    ghost use Rattle.std.specs.Prelude.{List, Option, map, option_map};
    ghost use Rattle.tp_server.specs.declared.server.Entry as entry;

    ghost Value = { List (Option entry.Entry) };

    ghost view = { λ e. map (option_map (λ b. b.value)) e.places };
}

impl Entries {
    /// So many places without an entry.
    #[tactic(auto, using(crate::proofs::Tables::seen_none))]
    pub fn none(alloc: Global, count: usize) -> Entries
        ensures { result ≡ replicate count None }
    {
        Entries {
            places: Places::none(alloc, count),
            ended: List::new(alloc),
        }
    }

    /// These places, and places without an entry behind them up to so many in all.
    pub fn from_made(alloc: Global, count: usize, made: List<Option<Box<Entry, Global>>>) -> Entries
        ensures { result ≡ padded (map (option_map (λ b. b.value)) made) count }
    {
        Entries {
            places: Places::from_made(count, made),
            ended: List::new(alloc),
        }
    }

    /// The entry at a place, or None where there is none.
    #[tactic(auto, using(crate::proofs::Tables::seen_at))]
    pub fn get(&self, at: usize) -> Option<&Entry>
        ensures { option_copied result ≡ option_flatten (slice_get self.now at) }
    {
        match self.places.get(at) {
            None => None,
            Some(entry) => Some(entry.as_ref()),
        }
    }

    /// Puts an entry at a place. Where there is no such place the table stays, and the entry is dropped.
    #[tactic(auto, using(crate::proofs::Tables::seen_put))]
    pub fn put(&mut self, at: usize, entry: Box<Entry, Global>) -> Result<(), NoMemory>
        ensures ok { OnOk result (self.new ≡ slice_set self.old at (Some entry.value)) }
        ensures err { OnErr result (self.new ≡ self.old) }
    {
        self.places.put(at, entry)
    }

    /// Takes the entry at a place, and leaves the place without one.
    #[tactic(auto, using(crate::proofs::Tables::seen_at, crate::proofs::Tables::seen_put))]
    pub fn take(&mut self, at: usize) -> Option<Box<Entry, Global>>
        ensures value { option_map (λ b. b.value) result ≡ option_flatten (slice_get self.old at) }
        ensures left { self.new ≡ slice_set self.old at None }
    {
        self.places.take(at)
    }

    /// Takes the entry at a place out, and keeps its memory. Where there is none for that the entry is dropped.
    #[inline(always)]
    pub fn clear(&mut self, at: usize)
        ensures { self.new ≡ slice_set self.old at None }
    {
        if let Some(entry) = self.take(at) {
            keep(&mut self.ended, entry);
        }
    }

    /// The entry of a transaction that begins, in the memory of one that has ended if there is one. The table stays.
    #[inline(always)]
    pub fn begun(
        &mut self,
        alloc: Global,
        age: Place,
        epoch: u64,
    ) -> Result<Box<Entry, Global>, NoMemory>
        ensures begun { IfOk result (λ entry. entry.value ≡ begun age epoch) }
        ensures same { self.new ≡ self.old }
    {
        match self.ended.pop() {
            Some(mut entry) => {
                renew(entry.as_mut(), age, epoch);
                Ok(entry)
            }
            None => Ok(Box::new(alloc, new_entry(alloc, age, epoch))?),
        }
    }
}

/// Keeps an entry for its memory, or drops it where there is none for that.
#[inline(always)]
fn keep(ended: &mut List<Box<Entry, Global>>, entry: Box<Entry, Global>) {
    match ended.push(entry) {
        Ok(()) | Err(NoMemory) => {}
    }
}

fn new_entry(alloc: Global, age: Place, epoch: u64) -> Entry
    ensures { result ≡ begun age epoch }
{
    Entry {
        age,
        epoch,
        answers: List::new(alloc),
        waiting: None,
        deeds: List::new(alloc),
        ballot: None,
    }
}

/// Makes an entry that of a transaction that begins. What stood in it is dropped.
#[inline(always)]
fn renew(entry: &mut Entry, age: Place, epoch: u64)
    ensures { entry.new ≡ begun age epoch }
{
    entry.age = age;
    entry.epoch = epoch;
    entry.answers.truncate(0);
    entry.waiting = None;
    entry.deeds.truncate(0);
    entry.ballot = None;
}
