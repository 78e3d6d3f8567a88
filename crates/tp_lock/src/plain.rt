//! A table of locks that keeps a list for each item, and the items of each owner.
ghost use Rattle.std.specs.Prelude.{◌≡◌, IfOk};
ghost use Rattle.tp_lock.specs.Rule as rule;

use crate::LockTable;
use crate::entry::{Asked, Grant};
use crate::lists::{ask, forget_each, leave_each, tell_one};
use crate::owned::{note, take_items};
use crate::slots::Slot;
use std::alloc::Global;
use std::marker::Model;
use tp_types::{Action, ItemId, List, NoMemory, Place, TxnId};

/// Locks on items, as lists. Contracts see the lists and the grants that nobody has taken. A release visits the lists
/// of the items that its owner asked for, and of other lists those alone that have grants which nobody took.
/// A flag in each entry says that its grant is yet to be taken, so neither a release nor the taking of a grant
/// can be refused memory. An owner's items are noted at the request, before its entry stands there and whatever
/// the answer, in rising order; so a release touches those alone. Owners are counted from 0, and there is a list
/// for each up to the greatest that asked.
#[derive(Drop)]
pub struct PlainLocks {
    alloc: Global,
    lists: Vec<List<Slot>>,
    /// The items that each owner asked for since its last release, in rising order. It has entries on them alone.
    owned: Vec<List<u32>>,
    /// The items of the last release, in rising order. Its grants are in their lists alone.
    touched: List<u32>,
    /// The place in `touched` before which all grants are taken.
    next: usize,
}

impl Model for PlainLocks {
    ghost use Rattle.tp_lock.specs.Table.{Table};
    ghost use Rattle.tp_lock.specs.mirrors.Kept.{AreKept};
    ghost use Rattle.tp_lock.specs.mirrors.Slots.{shown};

    ghost Value = { Table };

    ghost view = { λ l. shown l.lists.items };

    ghost invariant = { λ l. AreKept l.lists.items l.owned.items l.touched l.next };
}

impl PlainLocks {
    /// A table of so many items, on which nobody has a lock.
    pub fn opened(alloc: Global, items: usize) -> Result<PlainLocks, NoMemory>
        ensures { IfOk result (λ made. made ≡ rule.opening items) }
    {
        let mut lists = Vec::with_capacity(alloc, items)?;
        for _item in 0..items {
            lists.push(List::new(alloc))?;
        }
        Ok(PlainLocks {
            alloc,
            lists,
            owned: Vec::new(alloc),
            touched: List::new(alloc),
            next: 0,
        })
    }
}

impl LockTable for PlainLocks {
    ghost table = { λ t. t };

    fn request(
        &mut self,
        _alloc: Global,
        owner: TxnId,
        age: Place,
        item: ItemId,
        mode: Action,
    ) -> Result<Asked, NoMemory> {
        let at = item.0 as usize;
        if at >= self.lists.len() {
            return Ok(Asked::Granted);
        }
        // first, so that no entry stands where its owner's release would not come
        note(self.alloc, &mut self.owned, owner, item.0)?;
        ask(&mut self.lists[at], owner, age, mode)
    }

    fn release(&mut self, owner: TxnId) {
        forget_each(
            self.alloc,
            &mut self.lists,
            self.touched.as_slice(),
            self.next,
        );
        let items = take_items(self.alloc, &mut self.owned, owner);
        leave_each(self.alloc, &mut self.lists, items.as_slice(), owner);
        self.touched = items;
        self.next = 0;
    }

    fn take_granted(&mut self) -> Option<Grant> {
        for at in self.next..self.touched.len() {
            let item = self.touched.as_slice()[at];
            if let Some(owner) = tell_one(&mut self.lists, item) {
                self.next = at;
                let item = ItemId(item);
                return Some(Grant { owner, item });
            }
        }
        self.next = self.touched.len();
        None
    }
}
