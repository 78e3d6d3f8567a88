//! The check of a certificate.
//!
//! What is promised, with the contract that carries it:
//!
//! - A certificate passes exactly where its rule and its uses are as defined (`check`)
//! - A check at the clock and the revocations of a place is of that history: what is valid and what is held are
//!   what they are there, and just those verdicts are certified whose certificates pass and use only what the
//!   transaction presents (`checks_are_of_history`: `valid`, `held`, `certified`)
#![tactic(auto)]

mod certificate;
mod history;

pub use certificate::check;
pub use history::checks_are_of_history;
