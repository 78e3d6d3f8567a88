//! What stands below a decision in a trace and in no report: why an abort came, and which versions a commit was behind.
//!
//! A policy that does not allow an action is refuted by atoms of its rules' conditions that are false: of each rule
//! that is about the action on the item the cut of its condition. What is promised, with the contract that carries it:
//!
//! - The atoms that refute a policy are exactly the defined ones, and each is false (`refutation_of`: `exact`,
//!   `all_false`)
//! - Where the policy does not allow the action they pass the check (`refutation_of`: `complete`), and where it is also
//!   of the grammar, each rule that is about the action on the item has one (`told`)
//! - The check of atoms, however they were found, says what is defined, and passes only where the policy does not allow
//!   the action on the item (`is_refuted`: `exact`, `sound`)
//! - So it is with the denials of a history, by what the history allows at a place (`denial_of`: `exact`, `complete`;
//!   `is_denial_shown`: `exact`, `sound`)
//! - The lines below an abort and below a commit are exactly the defined ones, for any scenario and facts
//!   (`put_why_lines`, `put_behind_lines`)
//! - A false atom is called absent only where no presented credential is from its issuer, with its attribute
//!   (`absent_is_of_none`)
//!
//! Beside the numbers of rules, and what is false, the check knows nothing of how the atoms were found. An abort costs
//! a pass over the facts for the clock and one for the revocations, a commit one for the publications.
#![tactic(auto)]

mod atoms;
mod behind;
mod check;
mod cut;
mod denial;
mod lines;
mod moment;
mod nearest;
mod why;

pub use atoms::{Atom, FalseAtom};
pub use behind::put_behind_lines;
pub use check::is_refuted;
pub use cut::refutation_of;
pub use denial::{denial_of, is_denial_shown};
pub use nearest::absent_is_of_none;
pub use why::put_why_lines;
