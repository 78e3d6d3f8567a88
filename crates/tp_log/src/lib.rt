//! A forced log: records on a disk, of which a crash loses none that was acknowledged.
//!
//! What is promised, with the contract that carries it:
//!
//! - A log that was opened gives the records of the image, keeps them, and nothing on its disk is unsynced
//!   (`Log::opened`: `records`, `kept`)
//! - Opening leaves a disk of more than one byte as a sync leaves it, and a shorter one with one closed gate,
//!   synced. A crash at any moment of it leaves what `LeftOpening` says, and its calls are those of `Opens`.
//!   The count of faults does not fall (`Log::opened`: `opens`)
//! - It is refused as no log only where the image fails, at that place. It is refused as Device only where, by
//!   calls as of `Opens` up to one that was refused, the given disk leads to the one that is given back, of which
//!   the count of faults rose. Whatever the cause, a read of a disk of more than one byte then gives what it gave:
//!   a log that is refused is never wiped (`Log::opened`: `not_a_log`, `device`, `same`)
//! - Whatever refused an opening, a crash at any moment of it leaves what it might have left before, or the bytes that a
//!   read gives (of a disk of at most one byte: an image of at most one byte), and no count of faults fell
//!   (`Log::opened`: `moments`, `later`)
//! - Every image of bytes gives a list of records or fails at a place. It gives one list, which a function of
//!   it finds, or fails at one place, and never both: so both answers are exact (`one_reading`: `some`;
//!   `records`, `found`, `place`, `apart`)
//! - After an append the log keeps its records and the new one. A longer body than 1,048,576 bytes is refused
//!   exactly, and so is an append after one that failed; both change nothing. A refusal of memory keeps the
//!   records, and came before the first call of the disk, where nothing changed, or from one of its calls.
//!   Device comes only where the count of faults rose, and then the log is closed and may keep the new record
//!   or not (`Log::append`: `answer`)
//! - A crash at any moment of an append leaves the records from before it, with the new one or without
//!   (`Log::append`: `any_moment`)
//! - An append makes four calls of its disk, or those up to one that was refused (`Log::append`: `answer`, by
//!   the field `calls` of `Adds`, `Fails` and `Stays`)
//! - Every image that a crash of a log's disk may leave gives the log's records; after an append that failed,
//!   with the new one or without (`Log::disk`, `into_disk`: `kept`, `failed`)
//! - A log over a disk in memory that is stopped after some calls of an append, and crashes in place, has the new
//!   record exactly by `kept_after`, which is told (`is_kept`). It is closed until it is read again, nothing on its
//!   disk is unsynced, and no call of it is stopped. Where such a crash is refused the log keeps its records
//!   (`Log::stop_after`, `crash`, `crash_in_append`, `run_on`)
//! - Where no call of the disk is stopped an append of a record that is not too long to an open log is refused for want
//!   of memory alone, and the log keeps its records then (`Log::append_running`, `is_open`). A fresh log is open, on
//!   such a disk, and empty (`Log::fresh`)
//! - What the bytes of the disk give is read without a call of it, and a log is opened anew without giving its disk up
//!   (`Log::records`, `reread`). From a gate on, of which the log told the place, just the records behind it are given
//!   (`Log::gate`, `reread_behind`)
#![tactic(auto)]

ghost use Rattle.std.specs.Prelude.{◌≡◌, ◌<◌, ◌^◌, ℕ, List, All};
ghost use Rattle.tp_types.specs.declared.records.Record.{Record};
ghost use Rattle.tp_log.specs.Images.{FailsAt, Gives, HasReading};
ghost use Rattle.tp_log.specs.Found.{records_in};

mod block;
mod calls;
mod error;
mod image;
mod kept;
mod log;
mod opening;
mod running;

pub use block::BODY_MAX;
pub use error::LogError;
pub use kept::is_kept;
pub use log::Log;

/// Every image of bytes gives a list of records, one alone, which is a function of it, or fails at one place, and never
/// both.
pub fn one_reading()
    ensures some { (image : List ℕ) → All (λ byte. byte < 2 ^ 8) image → HasReading image }
    ensures records { (image : List ℕ) (rs ss : List Record) → Gives image rs → Gives image ss
        → rs ≡ ss }
    ensures found { (image : List ℕ) (rs : List Record) → Gives image rs → records_in image ≡ rs }
    ensures place { (image : List ℕ) (p q : ℕ) → FailsAt image p → FailsAt image q → p ≡ q }
    ensures apart { (image : List ℕ) (rs : List Record) (p : ℕ) → Gives image rs → FailsAt image p
        → ⊥ }
{}
