//! Why a step is refused.
use tp_types::{Actor, AdminId, TxnId};

/// Why a step was not done.
#[derive(Clone, Copy)]
pub enum StepError {
    /// No mail of this number was sent; so many were.
    NoSuchMail { mail: u64, mails: u64 },
    /// The transaction was submitted before.
    AlreadySubmitted { txn: TxnId },
    /// The transaction was not submitted.
    NotSubmitted { txn: TxnId },
    /// The actor is down.
    IsDown { actor: Actor },
    /// The actor is up.
    NotDown { actor: Actor },
    /// The mail was sent to another actor.
    NotItsMail { mail: u64 },
    /// The newest version of the administrator's policy is the last in the library.
    NoMore { admin: AdminId },
    /// The clock is at this moment, and would pass the last one, 2^63 - 1.
    TooLate { clock: u64 },
    /// Memory was refused: the world is given up.
    NoMemory,
}
