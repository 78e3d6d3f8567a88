//! What the records of a server's log come to, taken in one after another.
ghost use Rattle.std.specs.Prelude.{◌≡◌, ◌+◌, ◌<◌, ◌^◌, None, fold, IfOk, OnOk};
ghost use Rattle.tp_model.specs.SerialRun.{opening_store};
ghost use Rattle.tp_recover.specs.Kept as rule;

use crate::values::end;
use crate::versions::{tell, tell_all};
use std::alloc::Global;
use tp_places::Places;
use tp_store::{Values, known_at_first};
use tp_types::{
    List, NoMemory, Prepared, Record, Scenario, ServerId, Settled, TryClone, TxnId, Version, both,
};

/// All that is kept of the records of a server's log.
#[derive(Drop)]
pub struct Kept {
    /// One, and one more for each boot.
    pub epoch: u64,
    /// The newest version known of each administrator.
    pub newest: List<Version>,
    /// The value of each item of the scenario.
    pub values: Values,
    /// The last vote YES of each transaction that is not settled.
    pub prepared: Places<Prepared>,
    /// How each transaction was settled first.
    pub settled: Places<Settled>,
    /// These settlements in the order of the log.
    pub in_order: List<Settled>,
}

impl TryClone for Kept {
    fn try_clone(&self, alloc: Global) -> Result<Self, NoMemory> {
        let numbers = both(self.newest.try_clone(alloc), self.values.try_clone(alloc));
        let prepared = self.prepared.try_clone(alloc);
        let settled = self.settled.try_clone(alloc);
        let ends = both(settled, self.in_order.try_clone(alloc));
        let ((newest, values), (prepared, (settled, in_order))) = both(
            numbers,
            both(prepared, ends),
        )?;
        Ok(Kept {
            epoch: self.epoch,
            newest,
            values,
            prepared,
            settled,
            in_order,
        })
    }
}

fn settled_of(settled: &Places<Settled>, txn: TxnId) -> Option<Settled>
    ensures { result ≡ rule.of_txn settled.now txn }
{
    settled.get(txn.0 as usize).copied()
}

impl Kept {
    /// Before the first record. It is handed the values that the items have at first.
    pub fn opened(
        alloc: Global,
        scenario: &Scenario,
        server: ServerId,
        values: Values,
    ) -> Result<Kept, NoMemory>
        requires values { values ≡ opening_store scenario.now }
        ensures { IfOk result (λ made. made ≡ rule.kept_first scenario.now server) }
    {
        let txns = scenario.txns.len();
        let newest = known_at_first(alloc, scenario, server)?;
        Ok(Kept {
            epoch: 1,
            newest,
            values,
            prepared: Places::none(alloc, txns),
            settled: Places::none(alloc, txns),
            in_order: List::new(alloc),
        })
    }

    fn vote(&mut self, alloc: Global, vote: &Prepared) -> Result<(), NoMemory>
        ensures { OnOk result (self.new ≡ rule.with_vote self.old vote.now) }
    {
        match settled_of(&self.settled, vote.txn) {
            Some(_) => Ok(()),
            None => {
                let copy = vote.try_clone(alloc)?;
                self.prepared.put(vote.txn.0 as usize, copy)
            }
        }
    }

    fn settle_first(&mut self, settled: Settled) -> Result<(), NoMemory>
        ensures { OnOk result (self.new ≡ rule.kept_end self.old settled None) }
    {
        let at = settled.txn.0 as usize;
        let vote = self.prepared.take(at);
        end(&mut self.values, settled.outcome, &vote);
        self.settled.put(at, settled)?;
        self.in_order.push(settled)
    }

    fn settle(&mut self, settled: Settled) -> Result<(), NoMemory>
        ensures { OnOk result (self.new ≡ rule.with_end self.old settled) }
    {
        match settled_of(&self.settled, settled.txn) {
            Some(_) => Ok(()),
            None => self.settle_first(settled),
        }
    }

    /// Takes in one more record. It is only asked that one more boot can be counted.
    fn take_in(&mut self, alloc: Global, next: &Record) -> Result<(), NoMemory>
        requires { self.old.epoch + 1 < 2 ^ 64 }
        ensures { OnOk result (self.new ≡ rule.kept_step self.old next.now) }
    {
        match next {
            Record::Boot => {
                self.epoch += 1;
                Ok(())
            }
            Record::Told(told) => {
                tell(&mut self.newest, told.admin.0 as usize, told.version);
                Ok(())
            }
            Record::Prepared(vote) => {
                tell_all(&mut self.newest, vote.told.as_slice());
                self.vote(alloc, vote)
            }
            Record::Settled(settled) => self.settle(*settled),
            Record::Decided(_) => Ok(()),
        }
    }

    /// Takes in these records, in their order. Each boot can be counted, and one more, since the epoch begins at 1 and no
    /// list has so many members.
    pub fn take_all(&mut self, alloc: Global, records: &[Record]) -> Result<(), NoMemory>
        requires { self.old.epoch ≡ 1 }
        ensures all { OnOk result (self.new ≡ fold rule.kept_step self.old records.now) }
        ensures epoch { OnOk result (self.new.epoch + 1 < 2 ^ 64) }
    {
        for forced in records {
            self.take_in(alloc, forced)?;
        }
        Ok(())
    }
}
