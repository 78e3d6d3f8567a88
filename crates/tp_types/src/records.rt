//! What is forced to a log, and what it is made of: proofs of authorisation, deeds and causes.
ghost use Rattle.std.specs.Prelude.{◌≡◌, IfOk};

use crate::ids::{AdminId, CredId, ItemId, Place, ServerId, TxnId, Version};
use crate::list::{List, NoMemory, TryClone};
use crate::policy::Action;
use std::alloc::Global;

/// The authority's answer, as it is stapled to a request to evaluate. Its place is that of the answer.
#[derive(Drop)]
pub struct Staple {
    pub place: Place,
    pub clock: u64,
    pub revoked: List<CredId>,
}

impl TryClone for Staple {
    fn try_clone(&self, alloc: Global) -> Result<Self, NoMemory> {
        Ok(Staple {
            place: self.place,
            clock: self.clock,
            revoked: self.revoked.try_clone(alloc)?,
        })
    }
}

/// The master's answer: the newest version of each administrator at a place.
#[derive(Drop)]
pub struct Reading {
    pub place: Place,
    pub newest: List<Version>,
}

impl TryClone for Reading {
    fn try_clone(&self, alloc: Global) -> Result<Self, NoMemory> {
        Ok(Reading {
            place: self.place,
            newest: self.newest.try_clone(alloc)?,
        })
    }
}

/// A proof of authorisation, true or false, of one query at its server.
#[derive(Drop)]
pub struct Verdict {
    pub query: u32,
    pub server: ServerId,
    pub admin: AdminId,
    pub version: Version,
    /// The place of the authority's answer that it was evaluated with.
    pub place: Place,
    /// The rule that allows, counted from 1; None is false.
    pub rule: Option<u32>,
    /// The credentials that make the rule true.
    pub uses: List<CredId>,
}

impl TryClone for Verdict {
    fn try_clone(&self, alloc: Global) -> Result<Self, NoMemory> {
        Ok(Verdict {
            query: self.query,
            server: self.server,
            admin: self.admin,
            version: self.version,
            place: self.place,
            rule: self.rule,
            uses: self.uses.try_clone(alloc)?,
        })
    }
}

/// Proofs that were looked at together, by query, with the master's reading after them if there was one.
#[derive(Drop)]
pub struct Instance {
    pub reading: Option<Place>,
    pub proofs: List<Verdict>,
}

impl TryClone for Instance {
    fn try_clone(&self, alloc: Global) -> Result<Self, NoMemory> {
        Ok(Instance {
            reading: self.reading,
            proofs: self.proofs.try_clone(alloc)?,
        })
    }
}

/// What a query did: the value that it read or wrote.
#[derive(Clone, Copy)]
pub struct Deed {
    pub query: u32,
    pub item: ItemId,
    pub action: Action,
    pub value: i128,
}

impl TryClone for Deed {
    fn try_clone(&self, _alloc: Global) -> Result<Self, NoMemory> {
        Ok(*self)
    }
}

/// What a commit rests on.
#[derive(Drop)]
pub struct CommitRecord {
    pub rounds: u32,
    pub instances: List<Instance>,
    pub deeds: List<Deed>,
}

impl TryClone for CommitRecord {
    fn try_clone(&self, alloc: Global) -> Result<Self, NoMemory> {
        Ok(CommitRecord {
            rounds: self.rounds,
            instances: self.instances.try_clone(alloc)?,
            deeds: self.deeds.try_clone(alloc)?,
        })
    }
}

/// A newer version that a round met at the master.
#[derive(Clone, Copy)]
pub struct Met {
    pub admin: AdminId,
    pub used: Version,
    pub newest: Version,
    pub place: Place,
}

impl TryClone for Met {
    fn try_clone(&self, _alloc: Global) -> Result<Self, NoMemory> {
        Ok(*self)
    }
}

/// A proof that evaluated false.
#[derive(Clone, Copy)]
pub struct Denied {
    pub query: u32,
    pub server: ServerId,
    pub admin: AdminId,
    pub version: Version,
    pub place: Place,
}

impl TryClone for Denied {
    fn try_clone(&self, _alloc: Global) -> Result<Self, NoMemory> {
        Ok(*self)
    }
}

/// A written value outside its item's range.
#[derive(Clone, Copy)]
pub struct OutOfRange {
    pub query: u32,
    pub server: ServerId,
    pub value: i128,
}

impl TryClone for OutOfRange {
    fn try_clone(&self, _alloc: Global) -> Result<Self, NoMemory> {
        Ok(*self)
    }
}

/// A lock that an older transaction holds or waits for (wait-die, Rosenkrantz et al. 1978).
#[derive(Clone, Copy)]
pub struct Died {
    pub query: u32,
    pub server: ServerId,
    pub other: TxnId,
    pub place: Place,
}

impl TryClone for Died {
    fn try_clone(&self, _alloc: Global) -> Result<Self, NoMemory> {
        Ok(*self)
    }
}

/// A version that was used, and a newer one that was found.
#[derive(Clone, Copy)]
pub struct Newer {
    pub admin: AdminId,
    pub used: Version,
    pub found: Version,
}

impl TryClone for Newer {
    fn try_clone(&self, _alloc: Global) -> Result<Self, NoMemory> {
        Ok(*self)
    }
}

/// Why a transaction aborted.
#[derive(Drop)]
pub enum Cause {
    Denied(Denied),
    No(OutOfRange),
    Died(Died),
    Newer(Newer),
    Rounds(List<Met>),
    /// The server crashed and lost what the transaction did there.
    Restarted { server: ServerId },
    /// The coordinator crashed before it decided.
    Halted,
}

impl TryClone for Cause {
    fn try_clone(&self, alloc: Global) -> Result<Self, NoMemory> {
        match self {
            Cause::Denied(held) => Ok(Cause::Denied(*held)),
            Cause::No(held) => Ok(Cause::No(*held)),
            Cause::Died(held) => Ok(Cause::Died(*held)),
            Cause::Newer(held) => Ok(Cause::Newer(*held)),
            Cause::Rounds(held) => Ok(Cause::Rounds(held.try_clone(alloc)?)),
            Cause::Restarted { server } => Ok(Cause::Restarted { server: *server }),
            Cause::Halted => Ok(Cause::Halted),
        }
    }
}

/// Why a server votes NO.
#[derive(Clone, Copy)]
pub enum No {
    Range { query: u32, value: i128 },
    Restarted,
}

impl TryClone for No {
    fn try_clone(&self, _alloc: Global) -> Result<Self, NoMemory> {
        Ok(*self)
    }
}

/// How a transaction ends.
#[derive(Clone, Copy)]
pub enum Outcome {
    Commit,
    Abort,
}

impl TryClone for Outcome {
    fn try_clone(&self, _alloc: Global) -> Result<Self, NoMemory> {
        Ok(*self)
    }
}

/// What a coordinator decides, with what it rests on.
#[derive(Drop)]
pub enum Decision {
    Commit(CommitRecord),
    Abort(Cause),
}

impl TryClone for Decision {
    fn try_clone(&self, alloc: Global) -> Result<Self, NoMemory> {
        match self {
            Decision::Commit(held) => Ok(Decision::Commit(held.try_clone(alloc)?)),
            Decision::Abort(held) => Ok(Decision::Abort(held.try_clone(alloc)?)),
        }
    }
}

/// A version that a server learnt from the master.
#[derive(Clone, Copy)]
pub struct Told {
    pub admin: AdminId,
    pub version: Version,
}

impl TryClone for Told {
    fn try_clone(&self, _alloc: Global) -> Result<Self, NoMemory> {
        Ok(*self)
    }
}

/// A vote YES, with all that the server needs to commit or to vote again.
#[derive(Drop)]
pub struct Prepared {
    pub txn: TxnId,
    /// The place of the transaction's submission.
    pub age: Place,
    /// The server's epoch in which the transaction began there.
    pub epoch: u64,
    /// The turn of the request that was voted on.
    pub turn: u32,
    pub deeds: List<Deed>,
    pub verdicts: List<Verdict>,
    /// The version of each administrator that the server knew.
    pub told: List<Version>,
}

impl TryClone for Prepared {
    fn try_clone(&self, alloc: Global) -> Result<Self, NoMemory> {
        Ok(Prepared {
            txn: self.txn,
            age: self.age,
            epoch: self.epoch,
            turn: self.turn,
            deeds: self.deeds.try_clone(alloc)?,
            verdicts: self.verdicts.try_clone(alloc)?,
            told: self.told.try_clone(alloc)?,
        })
    }
}

/// How a transaction ended at a server; why, where the server voted NO by itself.
#[derive(Clone, Copy)]
pub struct Settled {
    pub txn: TxnId,
    pub outcome: Outcome,
    pub why: Option<No>,
}

impl TryClone for Settled {
    fn try_clone(&self, _alloc: Global) -> Result<Self, NoMemory> {
        Ok(*self)
    }
}

/// A coordinator's decision.
#[derive(Drop)]
pub struct Decided {
    pub txn: TxnId,
    pub decision: Decision,
}

impl TryClone for Decided {
    fn try_clone(&self, alloc: Global) -> Result<Self, NoMemory> {
        Ok(Decided {
            txn: self.txn,
            decision: self.decision.try_clone(alloc)?,
        })
    }
}

/// One record of a write-ahead log.
#[derive(Drop)]
pub enum Record {
    Boot,
    Told(Told),
    Prepared(Prepared),
    Settled(Settled),
    Decided(Decided),
}

impl TryClone for Record {
    fn try_clone(&self, alloc: Global) -> Result<Self, NoMemory> {
        match self {
            Record::Boot => Ok(Record::Boot),
            Record::Told(held) => Ok(Record::Told(*held)),
            Record::Prepared(held) => Ok(Record::Prepared(held.try_clone(alloc)?)),
            Record::Settled(held) => Ok(Record::Settled(*held)),
            Record::Decided(held) => Ok(Record::Decided(held.try_clone(alloc)?)),
        }
    }
}
