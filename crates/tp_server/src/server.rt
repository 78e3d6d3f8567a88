//! A server: what it does on receipt of a mail.
ghost use Rattle.std.specs.Prelude.{◌≡◌, Option, Some, None, [], ◌∷◌, length, map, slice_get, IfOk};
ghost use Rattle.std.specs.Option.{option_copied, option_flatten};
ghost use Rattle.tp_server.specs.declared.server.Entry.{Entry};
ghost use Rattle.tp_types.specs.Effect.{Gives};
ghost use Rattle.tp_server.specs.Row as row;
ghost use Rattle.tp_server.specs.Opened as opened;
ghost use Rattle.tp_server.specs.Verdicts.{HasFewRules};
ghost use Rattle.tp_lock.specs.Rule as lock;

use crate::entries::Entries;
use std::alloc::Global;
use std::marker::Model;
use tp_lock::LockTable;
use tp_places::Places;
use tp_store::Store;
use tp_types::{
    Actor, Body, Deed, DoneReply, Letter, List, Mail, NoMemory, Place, PushNotice, QueryRequest,
    Reaction, Record, Scenario, ServerId, Settled, Spare, Told, TxnId, Verdict, ignored,
};

/// What a server voted YES on: the turn of the request, and its verdicts.
#[derive(Drop)]
pub struct Ballot {
    pub turn: u32,
    pub verdicts: List<Verdict>,
}

/// A transaction that has begun at a server and is not settled there.
#[derive(Drop)]
pub struct Entry {
    /// The place of the transaction's submission.
    pub age: Place,
    /// The server's epoch in which the entry was made.
    pub epoch: u64,
    /// Each answer that was given, as it was sent.
    pub answers: List<DoneReply>,
    /// A query that waits for its lock.
    pub waiting: Option<QueryRequest>,
    pub deeds: List<Deed>,
    /// The vote, once the server has prepared.
    pub ballot: Option<Ballot>,
}

/// A server's state while it is up.
#[derive(Drop)]
pub struct Server<L: LockTable> {
    pub server: ServerId,
    /// One plus the number of its boots.
    pub epoch: u64,
    /// The values of items, the writes of each transaction that is not settled, and the newest versions known.
    pub store: Store,
    /// How each transaction of the scenario was settled here, if it was.
    pub settled: Places<Settled>,
    /// The entry of each transaction of the scenario, if it has one.
    pub entries: Entries,
    /// The locks on the scenario's items.
    pub locks: L,
}

impl<L: LockTable> Model for Server<L> {
    ghost use Rattle.tp_server.specs.State as state;

    ghost Value = { state.Server };

    ghost view = { λ s. record {
      server = s.server;
      epoch = s.epoch;
      store = s.store;
      settled = s.settled;
      entries = s.entries;
      locks = L.table s.locks;
    } };
}

impl<L: LockTable + Drop> Server<L> {
    /// A server as it stands before the first step, with a table of no locks on the scenario's items.
    pub fn opened(
        alloc: Global,
        scenario: &Scenario,
        server: ServerId,
        locks: L,
    ) -> Result<Server<L>, NoMemory>
        requires { L.table locks ≡ lock.opening (length scenario.now.items) }
        ensures { IfOk result (λ made. made ≡ opened.opening scenario.now server) }
    {
        let store = Store::opened(alloc, scenario, server)?;
        Ok(Server {
            server,
            epoch: 1,
            store,
            settled: Places::none(alloc, scenario.txns.len()),
            entries: Entries::none(alloc, scenario.txns.len()),
            locks,
        })
    }

    /// What the server does on receipt of a mail. After NoMemory nothing is said of its state.
    pub fn receive(
        &mut self,
        spare: &mut Spare<Letter>,
        scenario: &Scenario,
        mail: &Mail,
    ) -> Result<Reaction, NoMemory>
        requires { HasFewRules scenario.now }
        ensures { IfOk result (λ reaction.
            Gives (row.server_row scenario.now self.old mail.now) self.new reaction) }
    {
        let alloc = spare.alloc();
        match &mail.letter.body {
            Body::Query(request) => self.on_query(spare, scenario, mail.sent, request),
            Body::Prepare(request) => self.on_prepare(spare, scenario, request),
            Body::Decide(request) => self.on_decide(spare, scenario, *request),
            Body::Push(push) => Ok(self.on_push(alloc, *push)),
            Body::Validate(request) => self.on_validate(spare, scenario, request),
            _ => Ok(ignored(alloc)),
        }
    }

    /// The value of an item of the scenario; None where there is no such item.
    pub fn value(&self, item: usize) -> Option<i128>
        ensures { result ≡ slice_get self.now.store.values item }
    {
        self.store.values().get(item)
    }

    pub(crate) fn is_open(&self, txn: TxnId) -> bool
        ensures { result ≡ row.is_open self.now txn }
    {
        self.settled.is_unset(txn.0 as usize)
    }

    pub(crate) fn entry_at(&self, txn: TxnId) -> Option<&Entry>
        ensures { option_copied result ≡ row.entry_at self.now txn }
    {
        self.entries.get(txn.0 as usize)
    }

    pub(crate) fn reply(&self, txn: TxnId, body: Body) -> Letter
        ensures { result ≡ row.reply self.now txn body }
    {
        Letter {
            from: Actor::Server(self.server),
            to: Actor::Coordinator(txn),
            body,
        }
    }

    /// Learns a version that is newer than the one known.
    fn on_push(&mut self, alloc: Global, push: PushNotice) -> Reaction
        ensures { Gives (row.on_push self.old push) self.new result }
    {
        if self.store.newest(push.admin).0 >= push.version.0 {
            return ignored(alloc);
        }
        self.store.told(push.admin, push.version);
        let told = Told {
            admin: push.admin,
            version: push.version,
        };
        Reaction {
            append: Some(Record::Told(told)),
            letters: List::new(alloc),
        }
    }
}
