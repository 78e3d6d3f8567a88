//! A server: its state, and what it does on receipt of a mail.
//!
//! What is promised, with the contract that carries it:
//!
//! - A server does exactly its row on every mail, over any table of locks (`Server::receive`)
//! - A server begins as defined (`Server::opened`), and boots exactly as its row says, by what is kept of its log
//!   (`Server::booted`)
//! - The entries of transactions are a table by number. What is put at a place stands there, and is lent, taken out or
//!   dropped, and the others stay; where memory is refused nothing changes (`Entries`)
//! - Where a staple's clock and revocations are those of its place in a history, what is evaluated with it is
//!   right there (`evaluation::evaluations_are_right`)
#![tactic(auto)]

mod booted;
mod endings;
mod entries;
pub mod evaluation;
mod queries;
mod server;
mod validations;
mod verdicts;
mod votes;

pub use entries::Entries;
pub use server::{Ballot, Entry, Server};
