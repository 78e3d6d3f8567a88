//! The offices: the authority, which knows the clock and the revocations, and the master, which knows the newest versions. Neither crashes.
//!
//! What is promised, with the contract that carries it:
//!
//! - The authority begins as the scenario says, and its clock and revocations are moved as defined. Neither can
//!   be refused memory (`Authority::opened`, `tick`, `revoke`)
//! - On receipt of a mail the authority and the master do their rows (`Authority::receive`, `Master::receive`)
//! - The master begins with the opening versions (`Master::opened`)
//! - It publishes the next version, and answers it, exactly where the library has one; else nothing changes. It
//!   cannot be refused memory (`Master::publish`)
//! - It pushes the newest version of an administrator (`Master::push`)
//!
//! `tick` asks that the sum stays below 2^63.
#![tactic(auto)]

mod authority;
mod master;

pub use authority::{Authority, CLOCK_END};
pub use master::{Master, NoMore};
