//! The writes of each transaction.
ghost use Rattle.std.specs.Prelude.{◌≡◌, ◌<◌, [], length, replicate, slice_set, OnOk, OnErr};
ghost use Rattle.tp_store.specs.Rule as rule;
ghost use Rattle.tp_store.specs.Writes.{with_write};
ghost use Rattle.tp_store.specs.mirrors.Places.{padded};

use crate::writes::{TentativeWrite, keep};
use std::alloc::Global;
use std::marker::Model;
use tp_types::{List, NoMemory, TxnId};

/// The writes of each of so many transactions. It has a list for the first of them alone, up to the last that ever wrote,
/// since most transactions write nothing at a server.
#[derive(Drop)]
pub struct Tentative {
    txns: usize,
    made: List<List<TentativeWrite>>,
}

impl Model for Tentative {
    ghost use Rattle.std.specs.Prelude.{List};
    ghost use Rattle.tp_store.specs.declared.writes.TentativeWrite as write;
    ghost use Rattle.tp_store.specs.mirrors.Places.{padded};

    ghost Value = { List (List write.TentativeWrite) };

    ghost view = { λ t. padded t.made t.txns };
}

/// Sees that a transaction has a list, if it is one of so many.
fn reach(
    made: &mut List<List<TentativeWrite>>,
    alloc: Global,
    txns: usize,
    at: usize,
) -> Result<(), NoMemory>
    ensures same { padded made.new txns ≡ padded made.old txns }
    ensures reached { OnOk result (at < txns → at < length made.new) }
{
    while at < txns && made.len() <= at {
        made.push(List::new(alloc))?;
    }
    Ok(())
}

impl Tentative {
    /// No write of so many transactions. It takes no memory.
    pub fn none(alloc: Global, txns: usize) -> Tentative
        ensures { result ≡ replicate txns [] }
    {
        Tentative {
            txns,
            made: List::new(alloc),
        }
    }

    /// The writes of a transaction; none where there is no such transaction.
    pub fn of(&self, txn: TxnId) -> &[TentativeWrite]
        ensures { result.now ≡ rule.writes_in self.now txn }
    {
        match self.made.get(txn.0 as usize) {
            None => &[],
            Some(writes) => writes.as_slice(),
        }
    }

    /// Keeps a write of a transaction. Where memory is refused the table stays, and so it does where there is no such
    /// transaction.
    pub fn keep(&mut self, alloc: Global, txn: TxnId, new: TentativeWrite) -> Result<(), NoMemory>
        ensures ok { OnOk result
            (self.new ≡ slice_set self.old txn.0 (with_write (rule.writes_in self.old txn) new)) }
        ensures err { OnErr result (self.new ≡ self.old) }
    {
        let at = txn.0 as usize;
        reach(&mut self.made, alloc, self.txns, at)?;
        match self.made.get_mut(at) {
            None => Ok(()),
            Some(writes) => keep(writes, new),
        }
    }

    /// Keeps the writes of a transaction no longer.
    pub fn clear(&mut self, txn: TxnId)
        ensures { self.new ≡ slice_set self.old txn.0 [] }
    {
        match self.made.get_mut(txn.0 as usize) {
            None => {}
            Some(writes) => writes.truncate(0),
        }
    }
}
