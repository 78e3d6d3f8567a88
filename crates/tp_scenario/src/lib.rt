//! Reads a scenario from JSON. The first fault is named, with its path.
//!
//! What is promised, with the contract that carries it:
//!
//! - The answer is the one that the bytes have, or memory was refused (`read`: `answer`, `only`)
//! - So each refusal comes exactly where its definition holds, with that path, unless memory is refused; and a
//!   scenario is read exactly where the walk gives it (the same)
//! - What is read is what the bytes say, keeps every rule, and has names that are spelled as names (`read`: `text`,
//!   `valid`, `spelled`)
//! - What the walk gives keeps every rule on a scenario's value, and its names are spelled as names; nothing tests
//!   that again (`reading_is_exact`: `valid`, `spelled`)
//! - TooLong is answered always above the limit (`read`: `too_long`)
//! - Bytes have at most one answer, and are a text of at most one scenario (`reading_is_exact`: `answer`,
//!   `text`)
//! - A query is read of a text exactly where the text says it, and so is a step; a text says one query, one
//!   step, and has one split into words (`texts_have_one_reading`: `queries`, `steps`, `one_query`, `one_step`,
//!   `words`)
//! - The walk gives a query, or a step, of a JSON value exactly where the value is a text that says it, with
//!   these names declared (`texts_have_one_reading`: `query_values`, `step_values`)
//! - Each step of the walk is exact: the code answers the walk's value, or its first fault, or want of memory
//!   (each function of the crate, by `Gives`)
#![tactic(auto)]

mod admins;
mod command;
mod creds;
mod fault;
mod from_bytes;
mod names;
mod object;
mod path;
mod query;
mod scripts;
mod servers;
mod steps;
mod txns;
mod values;
mod whole;
mod words;

pub use fault::{Fault, Kind};
pub use from_bytes::{LENGTH_MAX, ScenarioError, read, reading_is_exact, texts_have_one_reading};
pub use path::{Key, Path, Site};
