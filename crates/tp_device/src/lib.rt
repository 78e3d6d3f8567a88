//! Disks that may lose what was not synced, and one in memory.
//!
//! What is promised, with the contract that carries it:
//!
//! - A disk does at each call what `CallEffect` says; a call fails only where the count of faults rose, and
//!   answers want of memory at a write or a cut alone (`Disk::read`: `bytes`, `size`, `same`, `memory`;
//!   `write_at`, `cut`, `sync`: `effect`; of all: `cause`, `time`)
//! - The disk in memory meets this, and what each of its calls does is told exactly: it is stopped after so
//!   many calls, and a call that is stopped changes nothing and counts a fault (`MemoryDisk`: `read`: `exact`;
//!   `write_at`, `cut`, `sync`: `call`; `fresh`, `stop_after`, `run_on`, `content`)
//! - A crash of it fills what was written since the last sync, and leaves one of the images that may be left
//!   (`MemoryDisk::crashed`, `crash`: `exact`, `image`)
#![tactic(auto)]

mod disk;
mod memory;
mod span;

pub use disk::{Disk, DiskError};
pub use memory::MemoryDisk;
pub use span::Span;
