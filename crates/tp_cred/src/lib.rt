//! The credentials of a scenario, and what those say that a subject presents.
//!
//! What is promised, with the contract that carries it:
//!
//! - A store begins empty; a credential is added at the end and gets the next id; one whose name is there is
//!   refused as a duplicate, with the id of that one, and changes nothing (`CredStore::new`, `len`; `add`:
//!   `added`, `duplicate`, `refused`)
//! - A credential is found by its id, and None is answered exactly where there is none; a subject's are listed
//!   in order (`CredStore::get`, `of_subject`)
//! - Validity is tested exactly, and so is whether a credential is one of several, and whether a valid one of
//!   the subject satisfies an atom (`CredStore::valid`, `is_among`, `shows`)
//!
//! `add` asks that there are fewer than 2^32 credentials, so that ids can be counted in 32 bits; a scenario has
//! at most 256. Of an id that is not in the store `valid` answers false.
#![tactic(auto)]

mod presented;
mod store;

pub use presented::{Presented, says, shows};
pub use store::{CredError, CredStore, is_among, is_valid};
