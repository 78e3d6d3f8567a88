//! The log of an actor: a write-ahead log on a disk of its own in memory, and what was read of it.
//!
//! What is promised, with the contract that carries it:
//!
//! - A log is the list of its records, which the bytes of its disk give; a fresh one has none (`ActorLog::fresh`,
//!   `records`)
//! - A record that is forced is the log's last one from then on; where memory is refused the log is as before
//!   (`ActorLog::force`: `ok`, `err`)
//! - Where the disk crashes as a record is forced, the log has the record exactly by the calls that passed and what was
//!   left unsynced (`ActorLog::cut`: `ok`); a refusal of memory leaves it as before (`err`)
//! - A crash leaves the records (`ActorLog::crash`), and so does every image that a crash may leave of the disk
//!   (`ActorLog::disk`)
//! - All of the log is read, its boots counted and its other records apart, by looking at those alone that came since it
//!   was read last and that was given back; that one more boot can be counted is promised too (`ActorLog::read`:
//!   `whole`, `past`; `keep`)
//!
//! A record is forced only where it is not too long for a log (`FitsLog`), so that a log refuses none but for want of
//! memory, and no disk fails outside a cut. Nothing on the disk is unsynced between two calls.
#![tactic(auto)]

mod disks;
mod log;
mod past;

pub use log::ActorLog;
pub use past::Past;
