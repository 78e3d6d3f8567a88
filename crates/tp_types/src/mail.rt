//! Mails between actors. A reply repeats the turn of its request.
ghost use Rattle.std.specs.Prelude.{◌≡◌, IfOk};

use crate::ids::{AdminId, CredId, Place, TxnId, Version};
use crate::list::{List, NoMemory, TryClone};
use crate::records::{Newer, No, Outcome, Record, Staple, Verdict};
use crate::results::both;
use crate::scenario::Actor;
use std::alloc::Global;

/// A coordinator asks a server to run a query.
#[derive(Drop)]
pub struct QueryRequest {
    pub txn: TxnId,
    pub turn: u32,
    pub query: u32,
    /// None is the place where the mail was sent.
    pub age: Option<Place>,
    /// The epoch of the server's earlier reply, if there was one.
    pub epoch: Option<u64>,
    /// The value of a write.
    pub value: Option<i128>,
    /// With one the query is evaluated as it runs.
    pub staple: Option<Staple>,
    /// The version that must not be passed.
    pub pin: Option<Version>,
}

impl TryClone for QueryRequest {
    fn try_clone(&self, alloc: Global) -> Result<Self, NoMemory> {
        Ok(QueryRequest {
            txn: self.txn,
            turn: self.turn,
            query: self.query,
            age: self.age,
            epoch: self.epoch,
            value: self.value,
            staple: self.staple.try_clone(alloc)?,
            pin: self.pin,
        })
    }
}

/// What became of a query.
#[derive(Drop)]
pub enum Answer {
    Ran {
        value: i128,
        verdict: Option<Verdict>,
    },
    Denied {
        verdict: Verdict,
    },
    Newer(Newer),
    Died {
        other: TxnId,
    },
    Restarted,
}

impl TryClone for Answer {
    #[inline(always)]
    fn try_clone(&self, alloc: Global) -> Result<Self, NoMemory> {
        match self {
            Answer::Ran { value, verdict } => Ok(Answer::Ran {
                value: *value,
                verdict: verdict.try_clone(alloc)?,
            }),
            Answer::Denied { verdict } => Ok(Answer::Denied {
                verdict: verdict.try_clone(alloc)?,
            }),
            Answer::Newer(held) => Ok(Answer::Newer(*held)),
            Answer::Died { other } => Ok(Answer::Died { other: *other }),
            Answer::Restarted => Ok(Answer::Restarted),
        }
    }
}

/// A server answers a query.
#[derive(Drop)]
pub struct DoneReply {
    pub txn: TxnId,
    pub turn: u32,
    pub query: u32,
    pub epoch: u64,
    pub answer: Answer,
}

impl TryClone for DoneReply {
    fn try_clone(&self, alloc: Global) -> Result<Self, NoMemory> {
        Ok(DoneReply {
            txn: self.txn,
            turn: self.turn,
            query: self.query,
            epoch: self.epoch,
            answer: self.answer.try_clone(alloc)?,
        })
    }
}

/// A coordinator asks the authority for the clock and the revocations.
#[derive(Clone, Copy)]
pub struct AskRequest {
    pub txn: TxnId,
    pub turn: u32,
}

impl TryClone for AskRequest {
    fn try_clone(&self, _alloc: Global) -> Result<Self, NoMemory> {
        Ok(*self)
    }
}

/// The authority's answer; the credentials revoked, in order of number.
#[derive(Drop)]
pub struct TellReply {
    pub txn: TxnId,
    pub turn: u32,
    pub clock: u64,
    pub revoked: List<CredId>,
}

impl TryClone for TellReply {
    fn try_clone(&self, alloc: Global) -> Result<Self, NoMemory> {
        Ok(TellReply {
            txn: self.txn,
            turn: self.turn,
            clock: self.clock,
            revoked: self.revoked.try_clone(alloc)?,
        })
    }
}

/// A coordinator asks a server to evaluate the queries so far.
#[derive(Drop)]
pub struct ValidateRequest {
    pub txn: TxnId,
    pub turn: u32,
    pub epoch: u64,
    pub staple: Staple,
    /// The versions to learn and to use.
    pub want: List<(AdminId, Version)>,
}

impl TryClone for ValidateRequest {
    fn try_clone(&self, alloc: Global) -> Result<Self, NoMemory> {
        Ok(ValidateRequest {
            txn: self.txn,
            turn: self.turn,
            epoch: self.epoch,
            staple: self.staple.try_clone(alloc)?,
            want: self.want.try_clone(alloc)?,
        })
    }
}

/// A server's verdicts; None where it restarted.
#[derive(Drop)]
pub struct VerdictsReply {
    pub txn: TxnId,
    pub turn: u32,
    pub verdicts: Option<List<Verdict>>,
}

impl TryClone for VerdictsReply {
    fn try_clone(&self, alloc: Global) -> Result<Self, NoMemory> {
        Ok(VerdictsReply {
            txn: self.txn,
            turn: self.turn,
            verdicts: self.verdicts.try_clone(alloc)?,
        })
    }
}

/// A coordinator asks a server to vote, and with a staple to evaluate.
#[derive(Drop)]
pub struct PrepareRequest {
    pub txn: TxnId,
    pub turn: u32,
    pub epoch: u64,
    pub staple: Option<Staple>,
    /// The versions to learn and to use.
    pub want: List<(AdminId, Version)>,
}

impl TryClone for PrepareRequest {
    fn try_clone(&self, alloc: Global) -> Result<Self, NoMemory> {
        Ok(PrepareRequest {
            txn: self.txn,
            turn: self.turn,
            epoch: self.epoch,
            staple: self.staple.try_clone(alloc)?,
            want: self.want.try_clone(alloc)?,
        })
    }
}

/// A vote, YES with the verdicts of the evaluation.
#[derive(Drop)]
pub enum Vote {
    Yes(List<Verdict>),
    No(No),
}

impl TryClone for Vote {
    fn try_clone(&self, alloc: Global) -> Result<Self, NoMemory> {
        match self {
            Vote::Yes(held) => Ok(Vote::Yes(held.try_clone(alloc)?)),
            Vote::No(held) => Ok(Vote::No(*held)),
        }
    }
}

/// A server's vote.
#[derive(Drop)]
pub struct VoteReply {
    pub txn: TxnId,
    pub turn: u32,
    pub vote: Vote,
}

impl TryClone for VoteReply {
    fn try_clone(&self, alloc: Global) -> Result<Self, NoMemory> {
        Ok(VoteReply {
            txn: self.txn,
            turn: self.turn,
            vote: self.vote.try_clone(alloc)?,
        })
    }
}

/// A coordinator asks the master for the newest versions.
#[derive(Clone, Copy)]
pub struct ProbeRequest {
    pub txn: TxnId,
    pub turn: u32,
}

impl TryClone for ProbeRequest {
    fn try_clone(&self, _alloc: Global) -> Result<Self, NoMemory> {
        Ok(*self)
    }
}

/// The newest version of each administrator.
#[derive(Drop)]
pub struct NewestReply {
    pub txn: TxnId,
    pub turn: u32,
    pub newest: List<Version>,
}

impl TryClone for NewestReply {
    fn try_clone(&self, alloc: Global) -> Result<Self, NoMemory> {
        Ok(NewestReply {
            txn: self.txn,
            turn: self.turn,
            newest: self.newest.try_clone(alloc)?,
        })
    }
}

/// A coordinator tells a server the outcome.
#[derive(Clone, Copy)]
pub struct DecideRequest {
    pub txn: TxnId,
    pub outcome: Outcome,
}

impl TryClone for DecideRequest {
    fn try_clone(&self, _alloc: Global) -> Result<Self, NoMemory> {
        Ok(*self)
    }
}

/// A server has settled the transaction.
#[derive(Clone, Copy)]
pub struct AckReply {
    pub txn: TxnId,
}

impl TryClone for AckReply {
    fn try_clone(&self, _alloc: Global) -> Result<Self, NoMemory> {
        Ok(*self)
    }
}

/// A server that booted asks for the outcome of a transaction that it prepared.
#[derive(Clone, Copy)]
pub struct InquireRequest {
    pub txn: TxnId,
}

impl TryClone for InquireRequest {
    fn try_clone(&self, _alloc: Global) -> Result<Self, NoMemory> {
        Ok(*self)
    }
}

/// The master tells a server a version.
#[derive(Clone, Copy)]
pub struct PushNotice {
    pub admin: AdminId,
    pub version: Version,
}

impl TryClone for PushNotice {
    fn try_clone(&self, _alloc: Global) -> Result<Self, NoMemory> {
        Ok(*self)
    }
}

/// What a mail says.
#[derive(Drop)]
pub enum Body {
    Query(QueryRequest),
    Done(DoneReply),
    Ask(AskRequest),
    Tell(TellReply),
    Validate(ValidateRequest),
    Verdicts(VerdictsReply),
    Prepare(PrepareRequest),
    Vote(VoteReply),
    Probe(ProbeRequest),
    Newest(NewestReply),
    Decide(DecideRequest),
    Ack(AckReply),
    Inquire(InquireRequest),
    Push(PushNotice),
}

impl TryClone for Body {
    fn try_clone(&self, alloc: Global) -> Result<Self, NoMemory> {
        match self {
            Body::Query(held) => Ok(Body::Query(held.try_clone(alloc)?)),
            Body::Done(held) => Ok(Body::Done(held.try_clone(alloc)?)),
            Body::Ask(held) => Ok(Body::Ask(*held)),
            Body::Tell(held) => Ok(Body::Tell(held.try_clone(alloc)?)),
            Body::Validate(held) => Ok(Body::Validate(held.try_clone(alloc)?)),
            Body::Verdicts(held) => Ok(Body::Verdicts(held.try_clone(alloc)?)),
            Body::Prepare(held) => Ok(Body::Prepare(held.try_clone(alloc)?)),
            Body::Vote(held) => Ok(Body::Vote(held.try_clone(alloc)?)),
            Body::Probe(held) => Ok(Body::Probe(*held)),
            Body::Newest(held) => Ok(Body::Newest(held.try_clone(alloc)?)),
            Body::Decide(held) => Ok(Body::Decide(*held)),
            Body::Ack(held) => Ok(Body::Ack(*held)),
            Body::Inquire(held) => Ok(Body::Inquire(*held)),
            Body::Push(held) => Ok(Body::Push(*held)),
        }
    }
}

/// What an actor sends.
#[derive(Drop)]
pub struct Letter {
    pub from: Actor,
    pub to: Actor,
    pub body: Body,
}

impl TryClone for Letter {
    fn try_clone(&self, alloc: Global) -> Result<Self, NoMemory> {
        Ok(Letter {
            from: self.from,
            to: self.to,
            body: self.body.try_clone(alloc)?,
        })
    }
}

/// A letter that was sent, with its number and the place of the step that sent it.
#[derive(Drop)]
pub struct Mail {
    pub number: u64,
    pub sent: Place,
    pub letter: Letter,
}

impl TryClone for Mail {
    fn try_clone(&self, alloc: Global) -> Result<Self, NoMemory> {
        Ok(Mail {
            number: self.number,
            sent: self.sent,
            letter: self.letter.try_clone(alloc)?,
        })
    }
}

/// What an actor wants done after it acted: a record forced to its log, and then letters sent.
#[derive(Drop)]
pub struct Reaction {
    pub append: Option<Record>,
    pub letters: List<Letter>,
}

impl TryClone for Reaction {
    fn try_clone(&self, alloc: Global) -> Result<Self, NoMemory> {
        let (append, letters) = both(self.append.try_clone(alloc), self.letters.try_clone(alloc))?;
        Ok(Reaction { append, letters })
    }
}
