//! A scenario: who sets policies, what servers keep, which transactions run, and the steps.
ghost use Rattle.std.specs.Prelude.{◌≡◌, IfOk};

use crate::ids::{AdminId, CredId, ItemId, ServerId, TxnId, Version};
use crate::list::{List, NoMemory, TryClone};
use crate::name::Name;
use crate::policy::{Policy, Value};
use crate::results::both;
use std::alloc::Global;

/// What an issuer says of a subject, within an interval of the clock, both ends included.
#[derive(Drop)]
pub struct Credential {
    pub name: Name,
    pub issuer: Name,
    pub subject: Name,
    pub attr: Name,
    pub value: Value,
    pub from: u64,
    pub until: u64,
}

impl TryClone for Credential {
    fn try_clone(&self, alloc: Global) -> Result<Self, NoMemory> {
        let names = both(self.name.try_clone(alloc), self.issuer.try_clone(alloc));
        let what = both(self.attr.try_clone(alloc), self.value.try_clone(alloc));
        let ((name, issuer), (subject, (attr, value))) = both(
            names,
            both(self.subject.try_clone(alloc), what),
        )?;
        Ok(Credential {
            name,
            issuer,
            subject,
            attr,
            value,
            from: self.from,
            until: self.until,
        })
    }
}

/// What a term adds or takes away: a constant, or a register by its number from 1.
#[derive(Clone, Copy)]
pub enum Operand {
    Constant(i64),
    Register(u32),
}

impl TryClone for Operand {
    fn try_clone(&self, _alloc: Global) -> Result<Self, NoMemory> {
        Ok(*self)
    }
}

/// One term of a written sum.
#[derive(Clone, Copy)]
pub struct Term {
    pub minus: bool,
    pub operand: Operand,
}

impl TryClone for Term {
    fn try_clone(&self, _alloc: Global) -> Result<Self, NoMemory> {
        Ok(*self)
    }
}

/// One operation of a transaction: a read into a register, or a write of a sum.
#[derive(Drop)]
pub enum Query {
    Read { item: ItemId, into: u32 },
    Write { item: ItemId, expr: List<Term> },
}

impl TryClone for Query {
    fn try_clone(&self, alloc: Global) -> Result<Self, NoMemory> {
        match self {
            Query::Read { item, into } => Ok(Query::Read {
                item: *item,
                into: *into,
            }),
            Query::Write { item, expr } => Ok(Query::Write {
                item: *item,
                expr: expr.try_clone(alloc)?,
            }),
        }
    }
}

/// When proofs of authorisation are evaluated, after Iskander et al. 2011.
#[derive(Clone, Copy)]
pub enum Scheme {
    Deferred,
    Punctual,
    Incremental,
    Continuous,
}

impl TryClone for Scheme {
    fn try_clone(&self, _alloc: Global) -> Result<Self, NoMemory> {
        Ok(*self)
    }
}

/// Which versions agree: all proofs use one version of an administrator (View), which is also the newest (Global).
#[derive(Clone, Copy)]
pub enum Level {
    View,
    Global,
}

impl TryClone for Level {
    fn try_clone(&self, _alloc: Global) -> Result<Self, NoMemory> {
        Ok(*self)
    }
}

/// A transaction. Its queries are counted from 1, in their order.
#[derive(Drop)]
pub struct Transaction {
    pub name: Name,
    pub subject: Name,
    pub scheme: Scheme,
    pub level: Level,
    /// How many rounds may each meet a newer version before the transaction is given up.
    pub rounds: u32,
    /// The credentials that the subject presents.
    pub creds: List<CredId>,
    pub queries: List<Query>,
}

impl TryClone for Transaction {
    fn try_clone(&self, alloc: Global) -> Result<Self, NoMemory> {
        let names = both(self.name.try_clone(alloc), self.subject.try_clone(alloc));
        let lists = both(self.creds.try_clone(alloc), self.queries.try_clone(alloc));
        let ((name, subject), (creds, queries)) = both(names, lists)?;
        Ok(Transaction {
            name,
            subject,
            scheme: self.scheme,
            level: self.level,
            rounds: self.rounds,
            creds,
            queries,
        })
    }
}

/// An administrator, with every version of its policy. Version 1 is the first of the library.
#[derive(Drop)]
pub struct Admin {
    pub name: Name,
    pub library: List<Policy>,
    /// The newest version at the start.
    pub opening: Version,
}

impl TryClone for Admin {
    fn try_clone(&self, alloc: Global) -> Result<Self, NoMemory> {
        let (name, library) = both(self.name.try_clone(alloc), self.library.try_clone(alloc))?;
        Ok(Admin {
            name,
            library,
            opening: self.opening,
        })
    }
}

/// An item, with the range that its committed values keep, both ends included.
#[derive(Drop)]
pub struct Item {
    pub name: Name,
    pub server: ServerId,
    pub admin: AdminId,
    pub min: i64,
    pub max: i64,
    /// The value at the start.
    pub value: i64,
}

impl TryClone for Item {
    fn try_clone(&self, alloc: Global) -> Result<Self, NoMemory> {
        Ok(Item {
            name: self.name.try_clone(alloc)?,
            server: self.server,
            admin: self.admin,
            min: self.min,
            max: self.max,
            value: self.value,
        })
    }
}

/// A server as the scenario declares it.
#[derive(Drop)]
pub struct ServerDecl {
    pub name: Name,
    /// The version of each administrator that the server knows at the start.
    pub knows: List<Version>,
    pub items: List<ItemId>,
}

impl TryClone for ServerDecl {
    fn try_clone(&self, alloc: Global) -> Result<Self, NoMemory> {
        let lists = both(self.knows.try_clone(alloc), self.items.try_clone(alloc));
        let (name, (knows, items)) = both(self.name.try_clone(alloc), lists)?;
        Ok(ServerDecl { name, knows, items })
    }
}

/// One that acts on mails.
#[derive(Clone, Copy)]
pub enum Actor {
    Server(ServerId),
    Coordinator(TxnId),
    Master,
    Authority,
}

impl TryClone for Actor {
    fn try_clone(&self, _alloc: Global) -> Result<Self, NoMemory> {
        Ok(*self)
    }
}

/// A crash in the receipt of a mail, after so many device calls of the append (0 to 4).
#[derive(Clone, Copy)]
pub struct Cut {
    pub mail: u64,
    pub calls: u32,
    /// What each byte that was written and not synced reads after the crash.
    pub fill: u8,
}

impl TryClone for Cut {
    fn try_clone(&self, _alloc: Global) -> Result<Self, NoMemory> {
        Ok(*self)
    }
}

/// One step of the cluster.
#[derive(Clone, Copy)]
pub enum Step {
    Submit { txn: TxnId },
    Publish { admin: AdminId },
    Push { admin: AdminId, server: ServerId },
    Revoke { cred: CredId },
    Tick { by: u64 },
    Deliver { mail: u64 },
    Lose { mail: u64 },
    Crash { actor: Actor, cut: Option<Cut> },
    Boot { actor: Actor },
    Timer { txn: TxnId },
}

impl TryClone for Step {
    fn try_clone(&self, _alloc: Global) -> Result<Self, NoMemory> {
        Ok(*self)
    }
}

/// All that a run is given. Ids are the places in these lists.
#[derive(Drop)]
pub struct Scenario {
    pub admins: List<Admin>,
    /// The clock at the start.
    pub clock: u64,
    pub creds: List<Credential>,
    pub servers: List<ServerDecl>,
    pub items: List<Item>,
    pub txns: List<Transaction>,
    /// The listed steps.
    pub steps: List<Step>,
    /// What each client of a race submits.
    pub clients: List<List<TxnId>>,
    /// The script of each publisher of a race.
    pub publishers: List<List<Step>>,
    /// The script of each officer of a race.
    pub officers: List<List<Step>>,
}

impl TryClone for Scenario {
    fn try_clone(&self, alloc: Global) -> Result<Self, NoMemory> {
        let policies = both(self.admins.try_clone(alloc), self.creds.try_clone(alloc));
        let kept = both(self.servers.try_clone(alloc), self.items.try_clone(alloc));
        let run = both(self.txns.try_clone(alloc), self.steps.try_clone(alloc));
        let scripts = both(
            self.publishers.try_clone(alloc),
            self.officers.try_clone(alloc),
        );
        let race = both(self.clients.try_clone(alloc), scripts);
        let (
            ((admins, creds), (servers, items)),
            ((txns, steps), (clients, (publishers, officers))),
        ) = both(both(policies, kept), both(run, race))?;
        Ok(Scenario {
            admins,
            clock: self.clock,
            creds,
            servers,
            items,
            txns,
            steps,
            clients,
            publishers,
            officers,
        })
    }
}
