//! A replicated master: the newest version of each administrator's policy is kept by replicas, and each administrator has
//! one publisher. It is the replicated register with one writer of Attiya, Bar-Noy and Dolev (Sharing memory robustly in
//! message-passing systems, Journal of the ACM 42, 1995), in which a reading stores what it found before it ends. The
//! mails and the log are this project's own. `specs/Machine.antt` has the table.
//!
//! What is promised, with the contract that carries it:
//!
//! - **One master**: after every list of steps that name what exists, in any order, with any mail lost or delivered again,
//!   crashes of any replicas at any call of a log write, boots and timers, the facts are those of one master
//!   (`laws::one_master`)
//! - What that means may be read by four short histories, of which it refuses three: a reading that is stale, one that
//!   goes back, and one of what was never published (`laws::what_one_master_refuses`)
//! - **The automatic phase ends**: after every such list of steps there are no more automatic steps than the bound, and
//!   after them nothing is left to do and every operation has ended (`laws::comes_to_rest`); and the bound is reached
//!   (`laws::bound_is_reached`)
//!
//! - The calls do exactly the table: a step is done where the machine does not refuse it, or refused for the machine's
//!   reason and nothing changes (`Quorum::step`: `ok`, `err`); what comes next by itself is the machine's next step, or None
//!   exactly where nothing is left to do, and that step may be taken and is not refused (`Quorum::next`: `value`,
//!   `allowed`); a replica receives, crashes at any device call of a log write, and boots by what its disk gives, as its
//!   rows say (`Replica`'s calls)
//! - A drain takes exactly the automatic steps, one after another and no more than the bound; then nothing is left to do
//!   and every operation has ended (`Quorum::drain`: `ok`). It may be called at any moment, and again
//! - The facts that are shown are those of one master, and what is shown is what some list of steps gives (`Quorum::facts`:
//!   `one_master`, `reached`); an operation is Done exactly where these have its end, with the version of that end
//!   (`Quorum::answer`: `ended`)
//! - Every image that a crash may leave of a replica's disk gives exactly its log (`Replica::disk`)
//! - Where memory is refused the replicated master is given up, and each later step and drain answers so (`Quorum::step`,
//!   `Quorum::drain`: `err`); what it shows is then promised nothing of
//!
//! The laws ask for at least one replica, and that steps name administrators and replicas that exist; the calls lean on
//! the same, by the conditions of `start` and `step`, and that operations have numbers of 32 bits.
#![tactic(auto)]

mod acts;
pub mod laws;
mod ledger;
mod operation;
mod quorum;
mod refusal;
mod replica;
mod running;
mod types;

pub use acts::{Act, Members};
pub use ledger::Ledger;
pub use quorum::Quorum;
pub use replica::Replica;
pub use types::{
    Answer, Heard, Operation, Phase, QBody, QError, QFact, QMail, QStep, QWhat, Sizes,
};
