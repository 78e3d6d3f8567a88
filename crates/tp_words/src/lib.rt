//! The words of a command line, as the kit's `clap` reads them: one command, with a required first word and an optional second one.
//!
//! What is promised, with the contract that carries it:
//!
//! - Words are read exactly as the definition of `clap` gives it, or memory was refused (`read`)
//! - A command is answered exactly where each word is UTF-8, the words are read, and the one or two that are left are a
//!   command; else none, or that memory was refused (`command_of`)
#![tactic(auto)]

mod commands;
mod reading;

pub use commands::{Command, command_of};
pub use reading::{Given, read};
