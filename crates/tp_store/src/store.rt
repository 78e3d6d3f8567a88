//! A server's store.
ghost use Rattle.std.specs.Prelude.{◌≡◌, IfOk, OnOk, OnErr};
ghost use Rattle.tp_store.specs.Rule as rule;

use crate::opening::{first_item, known_at_first};
use crate::ranges::Ranges;
use crate::tentative::Tentative;
use crate::values::{OpeningValues, Values};
use crate::writes::{TentativeWrite, apply, first_outside, write_on};
use std::alloc::Global;
use std::marker::Model;
use tp_types::{AdminId, ItemId, List, NoMemory, Scenario, ServerId, TxnId, Version, both};

/// Values, tentative writes and known versions. Contracts see them as lists.
#[derive(Drop)]
pub struct Store {
    bounds: Ranges,
    values: Values,
    known: List<Version>,
    tentative: Tentative,
}

impl Model for Store {
    ghost use Rattle.tp_store.specs.Contents.{Contents};

    ghost Value = { Contents };

    ghost view = { λ s. record {
      bounds = s.bounds;
      values = s.values;
      known = s.known;
      tentative = s.tentative;
    } };
}

impl Store {
    /// The store as it stands before the first step. It has a place for each item of the scenario; a server uses its own.
    pub fn opened(alloc: Global, scenario: &Scenario, server: ServerId) -> Result<Store, NoMemory>
        ensures { IfOk result (λ made. made ≡ rule.opening scenario.now server) }
    {
        let opening = OpeningValues::of(alloc, scenario.items.as_slice())?;
        let values = Values::over(alloc, opening, first_item(scenario, server));
        let (values, known) = both(values, known_at_first(alloc, scenario, server))?;
        Store::restored(alloc, scenario, values, known)
    }

    /// A store with the values of items and the versions of administrators that its server has of its log, and with no write of
    /// any transaction.
    pub fn restored(
        alloc: Global,
        scenario: &Scenario,
        values: Values,
        known: List<Version>,
    ) -> Result<Store, NoMemory>
        ensures { IfOk result (λ made. made ≡ rule.restored scenario.now values known) }
    {
        let ranges = Ranges::of(alloc, scenario.items.as_slice())?;
        Ok(Store::over(alloc, ranges, scenario.txns.len(), values, known))
    }

    /// A store over a share of the ranges of its items, with these values and versions, and with no write of so many
    /// transactions.
    pub fn over(
        alloc: Global,
        ranges: Ranges,
        txns: usize,
        values: Values,
        known: List<Version>,
    ) -> Store
        ensures { result ≡ rule.over ranges txns values known }
    {
        Store {
            bounds: ranges,
            values,
            known,
            tentative: Tentative::none(alloc, txns),
        }
    }

    /// The value of each item of the scenario; only the server's own are read or written.
    /// Ids then need no translation.
    pub fn values(&self) -> &Values
        ensures { result.now ≡ self.now.values }
    {
        &self.values
    }

    /// The newest version known of each administrator.
    pub fn known(&self) -> &List<Version>
        ensures { result.now ≡ self.now.known }
    {
        &self.known
    }

    /// The value of an item that every transaction reads which has not written it; 0 where there is no such item.
    /// It stands beside `read` for who asks for a value at the end and has no transaction.
    pub fn value(&self, item: ItemId) -> i128
        ensures { result ≡ rule.value_in self.now item }
    {
        self.values.get(item.0 as usize).unwrap_or(0)
    }

    fn written(&self, txn: TxnId, item: ItemId) -> Option<TentativeWrite>
        ensures { result ≡ rule.kept_write self.now txn item }
    {
        write_on(self.tentative.of(txn), item)
    }

    /// What a transaction reads: its own tentative value of the item, or else the item's.
    pub fn read(&self, txn: TxnId, item: ItemId) -> i128
        ensures { result ≡ rule.read_in self.now txn item }
    {
        match self.written(txn, item) {
            None => self.value(item),
            Some(write) => write.value,
        }
    }

    /// Keeps a write of a transaction. Of two of its writes of one item the last by query is kept. Where memory is refused
    /// the store stays.
    pub fn write(
        &mut self,
        alloc: Global,
        txn: TxnId,
        query: u32,
        item: ItemId,
        value: i128,
    ) -> Result<(), NoMemory>
        ensures ok { OnOk result (self.new ≡ rule.after_write self.old txn (record {
          query = query;
          item = item;
          value = value;
        })) }
        ensures err { OnErr result (self.new ≡ self.old) }
    {
        let new = TentativeWrite { query, item, value };
        self.tentative.keep(alloc, txn, new)
    }

    /// Among the items whose tentative value is outside their range, the one whose last writing query has the least number:
    /// this number, with the value. None exactly where there is no such item.
    /// The store knows the ranges of its items, so this needs no scenario.
    pub fn first_outside(&self, txn: TxnId) -> Option<(u32, i128)>
        ensures { result ≡ rule.first_outside_in self.now txn }
    {
        let first = first_outside(self.bounds.as_slice(), self.tentative.of(txn))?;
        Some((first.query, first.value))
    }

    /// Gives the items the values that the transaction has written, and keeps its writes no longer.
    /// So applying twice changes nothing more, and a later write of another transaction stays.
    pub fn apply(&mut self, txn: TxnId)
        ensures { self.new ≡ rule.after_apply self.old txn }
    {
        apply(&mut self.values, self.tentative.of(txn));
        self.tentative.clear(txn);
    }

    /// Drops what the transaction has written. The items keep their values.
    pub fn forget(&mut self, txn: TxnId)
        ensures { self.new ≡ rule.after_forget self.old txn }
    {
        self.tentative.clear(txn);
    }

    /// The newest version known of an administrator; the first where there is no such administrator.
    pub fn newest(&self, admin: AdminId) -> Version
        ensures { result ≡ rule.newest_in self.now admin }
    {
        match self.known.get(admin.0 as usize) {
            None => Version(1),
            Some(version) => *version,
        }
    }

    /// Learns a version of an administrator. Of it and the one known the greater is known from now on.
    pub fn told(&mut self, admin: AdminId, version: Version)
        ensures { self.new ≡ rule.with_version self.old admin version }
    {
        let known = self.newest(admin);
        let greater = Version(known.0.max(version.0));
        self.known.put(admin.0 as usize, greater);
    }
}
