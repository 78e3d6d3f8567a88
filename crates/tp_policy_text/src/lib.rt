//! The text of policies: reading and printing.
//!
//! What is promised, with the contract that carries it:
//!
//! - Reading gives an answer that the text has, or memory was refused (`parse`: `answer`)
//! - Whatever answer the text has is given, or memory was refused. So a text has one answer alone: it says one
//!   policy within the limits, and each refusal comes exactly where its definition holds (`parse`: `only`)
//! - A text that is too long is refused as such, and never for want of memory (`parse`: `too_long`)
//! - Every text has an answer, and one alone; this holds of the definition, whatever memory there is
//!   (`texts_have_one_answer`: `some`, `alone`)
//! - What is read can be printed, and has no more rules than the text has bytes (`parse`: `of_grammar`, `few`)
//! - Printing gives exactly the printed form, which says the policy and no other (`print`: `printed`,
//!   `spelled`, `alone`)
//! - The printed form of every policy of the grammar says it, and where it is within the limits of a text the
//!   policy is its one answer; a text of any length and depth says at most one policy; and what a text says is
//!   of the grammar (`printed_is_exact`: `spelled`, `within`, `alone`, `of_grammar`)
//! - An atom by itself is put exactly as in the printed form (`put_atom`)
//! - Printing and then reading gives the answer that the printed form has, which is the policy where that form
//!   is within the limits, or memory was refused (`print_and_parse`: `answer`, `same`)
//!
//! `print` asks that the policy is of the grammar, which is what `parse` gives.
#![tactic(auto)]

mod halt;
mod parsing;
mod printer;
mod production;
mod reader;
mod rereading;
mod scan;

pub use parsing::{DEPTH_MAX, ParseError, TEXT_MAX, parse, texts_have_one_answer};
pub use printer::{print, printed_is_exact, put_atom};
pub use rereading::print_and_parse;
