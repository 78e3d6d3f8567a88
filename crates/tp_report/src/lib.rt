//! The report: what happened in a run, fact by fact, and how it ended. And how a step is spelled, for those who list steps.
//!
//! What is promised, with the contract that carries it:
//!
//! - The report's text is exactly the defined one, for any scenario, facts and ending (`print`)
//! - Facts and an ending that are printable can be read back from their report: for a valid scenario whose names are
//!   spelled as names, without a credential called `none`, no two have one text (`reports_tell_one_history`)
//! - The line of a fact, and each line that stands below one, are put for others as a report has them, but for the place
//!   and the two spaces before them (`put_what_line`, `put_instance_line`, `put_proof_line`, `put_deed_line`); and its
//!   last lines are put as they are (`put_ending`)
//! - A step is put as a scenario lists it, with one space between two words, and an actor as a step names it
//!   (`put_step_text`, `put_actor_word`)
#![tactic(auto)]

mod cause;
mod commit;
mod fact;
pub mod piece;
mod report;
mod steps;

pub use commit::{put_deed_line, put_instance_line, put_proof_line};
pub use fact::put_what_line;
pub use report::{print, put_ending, reports_tell_one_history};
pub use steps::{put_actor_word, put_step_text};
