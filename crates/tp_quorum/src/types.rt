//! What a replicated master speaks of: its steps, its facts, why a step is refused, its mails, and its operations.
use tp_types::{AdminId, Cut, List, Place, Version};

/// How many there are: replicas, administrators, who have a publisher each, and readers. Each kind is numbered from 0.
#[derive(Clone, Copy)]
pub struct Sizes {
    pub replicas: u32,
    pub admins: u32,
    pub readers: u32,
}

/// One step of a replicated master.
#[derive(Clone, Copy)]
pub enum QStep {
    /// The administrator's publisher begins to publish the next version.
    Publish { admin: AdminId },
    /// A reader begins to read the newest version of an administrator.
    Read { reader: u32, admin: AdminId },
    /// A mail, of all that were ever sent, comes to where it was sent.
    Deliver { mail: u64 },
    /// A mail is lost. One that is delivered later all the same was late.
    Lose { mail: u64 },
    /// A replica crashes; with a cut, in the receipt of a mail.
    Crash { replica: u32, cut: Option<Cut> },
    /// A replica that is down boots.
    Boot { replica: u32 },
    /// An operation waited long enough, and asks again.
    Timer { op: u32 },
}

/// What happened to an operation. Operations are numbered from 0 as they begin.
#[derive(Clone, Copy)]
pub enum QWhat {
    /// It began: a publication has no reader and the version that it publishes; a reading has its reader and no version.
    Began {
        op: u32,
        admin: AdminId,
        reader: Option<u32>,
        version: Option<Version>,
    },
    /// It ended with a version: the one that was published, or the one that was read.
    Ended {
        op: u32,
        version: Version,
    },
}

/// A fact, with the place of the step in which it happened.
#[derive(Clone, Copy)]
pub struct QFact {
    pub place: Place,
    pub what: QWhat,
}

/// Why a step was not done.
#[derive(Clone, Copy)]
pub enum QError {
    /// No mail of this number was sent; so many were.
    NoSuchMail { mail: u64, mails: u64 },
    /// The publisher or reader has this operation, which has not ended.
    Busy { op: u32 },
    /// The operation has not begun, or has ended.
    Idle { op: u32 },
    /// The replica is down.
    IsDown { replica: u32 },
    /// The replica is up.
    NotDown { replica: u32 },
    /// The mail was not sent to this replica.
    NotItsMail { mail: u64 },
    /// Memory was refused.
    NoMemory,
}

/// What goes between an operation and a replica.
#[derive(Clone, Copy)]
pub enum QBody {
    /// A request: which version of the administrator is known?
    Fetch { admin: AdminId },
    /// The reply to it.
    Has { version: Version },
    /// A request: this version of the administrator is to be known.
    Store { admin: AdminId, version: Version },
    /// The reply to it: this version or a greater one is on the replica's log.
    Stored,
}

/// A mail between an operation and a replica. A request goes to the replica, and a reply to the operation.
#[derive(Clone, Copy)]
pub struct QMail {
    pub op: u32,
    pub replica: u32,
    pub body: QBody,
}

/// How far an operation is, with a flag for each replica that says whether it has answered in this phase.
#[derive(Drop)]
pub enum Phase {
    /// A reading asks what is known; this is the greatest version that was answered.
    Fetching {
        greatest: Version,
        answered: List<bool>,
    },
    /// A publication stores its version, or a reading the one that it found.
    Storing {
        version: Version,
        answered: List<bool>,
    },
    /// It ended with this version.
    Ended {
        version: Version,
    },
}

/// A publication, which has no reader, or a reading.
#[derive(Drop)]
pub struct Operation {
    pub admin: AdminId,
    pub reader: Option<u32>,
    pub phase: Phase,
}

/// What an operation makes of a reply: its next phase, what happened, and what it sends.
#[derive(Drop)]
pub struct Heard {
    pub next: Phase,
    pub happened: Option<QWhat>,
    pub sent: List<QMail>,
}

/// What came of an operation.
#[derive(Clone, Copy)]
pub enum Answer {
    /// It has not ended.
    Pending,
    /// It ended with this version.
    Done { version: Version },
}
