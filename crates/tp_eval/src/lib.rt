//! Whether a policy allows an action on an item, with a certificate of it.
//!
//! What is promised, with the contract that carries it:
//!
//! - A policy is answered by None exactly where it does not allow the action on the item, on what the subject
//!   holds (`evaluate`: `truth`)
//! - Else by exactly the certificate that is defined: the first rule that is true, and what it uses (`evaluate`:
//!   `exact`; each id stands once and was presented: `each_once`, `presented`)
//! - What an evaluation gives passes the check (`evaluate`: `passes`)
//! - What the credentials that are presented and valid say of the subject is found once, by issuer and attribute: of
//!   those that say what an atom asks the first is found, as if all had been gone through (`said_by`)
//! - A policy is answered on such evidence by exactly the same certificate; that it is such stands in its type
//!   (`certify`; the ghost field `indexed` of `Evidence`)
//!
//! `evaluate` asks that the policy has fewer than 2^32 rules, so that they can be counted in 32 bits; a policy
//! that was read has at most as many as its text has bytes.
#![tactic(auto)]

mod evidence;
mod gather;
mod policies;
mod said;

pub use evidence::Evidence;
pub use policies::{Certificate, certify, evaluate};
pub use said::{Said, said_by};
