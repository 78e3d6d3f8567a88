//! A table of locks that keeps its entries in chains.
ghost use Rattle.std.specs.Prelude.{◌≡◌, ◌≤◌, ◌+◌, IfOk};
ghost use Rattle.tp_lock.specs.Rule as rule;
ghost use Rattle.tp_lock_chain.specs.Cost as cost;

use crate::ask::{Ask, add, adds, answer, entries, look};
use crate::leave::leave;
use crate::links::Pool;
use crate::room::opened;
use std::alloc::Global;
use std::marker::Model;
use std::sync::ledger::Ledger;
use tp_lock::{Asked, Grant, LockEntry, LockTable};
use tp_types::{Action, ItemId, List, NoMemory, Place, Steps, TxnId, Uncounted};

/// Locks on items, as nodes in rings: each entry is a node of the ring of its item and of that of its owner.
#[derive(Drop)]
pub struct ChainLocks {
    pool: Pool,
}

impl Model for ChainLocks {
    ghost use Rattle.tp_lock.specs.Table.{Table};
    ghost use Rattle.tp_lock_chain.specs.mirrors.Pool.{IsKept, shown};

    ghost Value = { Table };

    ghost view = { λ l. shown l.pool };

    ghost invariant = { λ l. IsKept l.pool };
}

impl ChainLocks {
    /// A table of so many items, on which nobody has a lock. From the first one on it makes the ends of their rings as they
    /// are written: for a server, the first of its own items; any number will do.
    pub fn opened(alloc: Global, items: usize, first: usize) -> Result<ChainLocks, NoMemory>
        ensures { IfOk result (λ made. made ≡ rule.opening items) }
    {
        match u32::try_from(items) {
            Err(_) => Err(NoMemory),
            Ok(count) => {
                let pool = opened(alloc, count, first)?;
                Ok(ChainLocks { pool })
            }
        }
    }

    /// The list of an item, for who looks on; it is empty where there is no such item.
    pub fn entries(&self, alloc: Global, item: ItemId) -> Result<List<LockEntry>, NoMemory>
        ensures { IfOk result (λ entries. entries ≡ rule.entries_at item self.now) }
    {
        if item.0 >= self.pool.free {
            return Ok(List::new(alloc));
        }
        entries(alloc, &self.pool, item.0 as usize)
    }

    /// Releases as `release` does, and counts the nodes that are visited or relinked.
    pub fn release_counted<L: Ledger>(&mut self, owner: TxnId, steps: &mut Steps<L>)
        ensures released { self.new ≡ rule.after_release owner self.old }
        ensures counted { steps.new ≤ steps.old + cost.most_steps owner self.old }
    {
        leave(&mut self.pool, owner.0 as usize, steps);
    }
}

impl LockTable for ChainLocks {
    ghost table = { λ t. t };

    fn request(
        &mut self,
        _alloc: Global,
        owner: TxnId,
        age: Place,
        item: ItemId,
        mode: Action,
    ) -> Result<Asked, NoMemory> {
        if item.0 >= self.pool.free {
            return Ok(Asked::Granted);
        }
        let found = look(&self.pool, item.0 as usize, Ask { owner, age, mode });
        match adds(found) {
            None => Ok(answer(found)),
            Some(held) => {
                let entry = LockEntry {
                    owner,
                    age,
                    mode,
                    held,
                };
                add(&mut self.pool, item.0, entry)?;
                Ok(answer(found))
            }
        }
    }

    fn release(&mut self, owner: TxnId) {
        leave(&mut self.pool, owner.0 as usize, &mut Uncounted);
    }

    fn take_granted(&mut self) -> Option<Grant> {
        if self.pool.next >= self.pool.given {
            return None;
        }
        match self.pool.granted.get(self.pool.next) {
            None => None,
            Some(grant) => {
                let grant = *grant;
                self.pool.next += 1;
                Some(grant)
            }
        }
    }
}
