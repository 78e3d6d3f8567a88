//! What a report tells: facts with their places, and the end.
ghost use Rattle.std.specs.Prelude.{◌≡◌, IfOk};

use crate::ids::{AdminId, CredId, Place, ServerId, TxnId, Version};
use crate::list::{List, NoMemory, TryClone};
use crate::records::{Decision, Outcome};
use crate::scenario::Actor;
use std::alloc::Global;

/// What happened.
#[derive(Drop)]
pub enum What {
    Submitted(TxnId),
    Published(AdminId, Version),
    Revoked(CredId),
    Ticked(u64),
    Crashed(Actor),
    Lost(u64),
    Decided(TxnId, Decision),
    Settled(ServerId, TxnId, Outcome),
}

impl TryClone for What {
    fn try_clone(&self, alloc: Global) -> Result<Self, NoMemory> {
        match self {
            What::Submitted(held) => Ok(What::Submitted(*held)),
            What::Published(admin, version) => Ok(What::Published(*admin, *version)),
            What::Revoked(held) => Ok(What::Revoked(*held)),
            What::Ticked(held) => Ok(What::Ticked(*held)),
            What::Crashed(held) => Ok(What::Crashed(*held)),
            What::Lost(held) => Ok(What::Lost(*held)),
            What::Decided(txn, decision) => Ok(What::Decided(*txn, decision.try_clone(alloc)?)),
            What::Settled(server, txn, outcome) => Ok(What::Settled(*server, *txn, *outcome)),
        }
    }
}

/// A fact, with the place of the step in which it happened.
#[derive(Drop)]
pub struct Fact {
    pub place: Place,
    pub what: What,
}

impl TryClone for Fact {
    fn try_clone(&self, alloc: Global) -> Result<Self, NoMemory> {
        Ok(Fact {
            place: self.place,
            what: self.what.try_clone(alloc)?,
        })
    }
}

/// How many steps and mails there were, and the value of each item.
#[derive(Drop)]
pub struct Ending {
    pub steps: u64,
    pub mails: u64,
    pub values: List<i128>,
}

impl TryClone for Ending {
    fn try_clone(&self, alloc: Global) -> Result<Self, NoMemory> {
        Ok(Ending {
            steps: self.steps,
            mails: self.mails,
            values: self.values.try_clone(alloc)?,
        })
    }
}
