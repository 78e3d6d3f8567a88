//! The coordinator of one transaction: its state, and what it does on its submission, on each mail, and at its timer.
//!
//! What is promised, with the contract that carries it:
//!
//! - A coordinator does exactly its rows: at its submission, on receipt of a mail, and at its timer, where it sends the
//!   request again that is outstanding (`Coordinator::submit`, `receive`, `timer`; its age is set by `placed`). What a
//!   transaction does where it begins, after a query and after its votes is what the table of moves says (`next_move` of
//!   `tp_scheme`)
//! - Whether its transaction was submitted, and whether some request of it is outstanding, is told
//!   (`Coordinator::begun`, `armed`)
//! - A coordinator begins as defined (`Coordinator::idle`), and boots exactly as its row says, by its log
//!   (`Coordinator::booted`)
#![tactic(auto)]

mod booted;
mod coordinator;
mod decisions;
mod moves;
mod queries;
mod readings;
mod rounds;
mod sums;
mod timers;
mod votes;

pub use coordinator::{Coordinator, Phase, Span};
