//! JSON texts as trees that borrow the text: no key and no string of it is copied, but where an escape stands in it.
//!
//! What is promised, with the contract that carries it:
//!
//! - Bytes give the value that `serde_json` reads of them, and are refused exactly where they are no UTF-8 or it has no
//!   reading of them, or memory was refused (`read`: `ok`, `err`)
//! - A value's text, number, array, object and member of a key are those that `serde_json` finds (`Json::as_str`,
//!   `as_i64`, `as_array`, `as_object`, `get`, each by its clause)
//! - The members of an object are given in order of their keys, each key once with its last value (`in_order`)
#![tactic(auto)]

mod number;
mod order;
mod reading;
mod tree;

pub use number::Number;
pub use order::in_order;
pub use reading::{JsonError, read};
pub use tree::Json;
