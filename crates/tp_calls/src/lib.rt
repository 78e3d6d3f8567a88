//! Calls of the crates below, each under the clauses that its callers read.
//!
//! Every function here is one call of another crate, or nearly so, and does nothing of its own. It is proved from
//! the contract of that call alone, so what it promises follows from what the call promises. Two things rest on that:
//!
//! - Each file of `must-fail` turns such a line into a wrong body, as one that waits where it is to die, and the
//!   prover must refuse it. What these clauses refuse the contract of the call refuses too, wherever in the crate
//!   below the mistake stands.
//! - Where a contract below is weakened so that such a body would pass, the function here is no longer proved.
//!
//! Nothing stands on this crate. It is small, so an edit of it costs a fraction of one in the crate that it speaks
//! of. What it cannot say is a mistake in the midst of a call that no public call makes.
//!
//! | Module | Calls |
//! |---|---|
//! | `locks` | a request for a lock; the release of an owner's locks |
//! | `credentials` | whether a credential is valid; the evaluation of a policy; the check of a certificate |
//! | `denials` | the atoms by which a history shows a denial; the check of them |
//! | `rounds` | the judgement of a round |
//! | `schemes` | what a transaction does next; what a reading of the master finds newer |
//! | `recovery` | what a server has of its log; what a coordinator has decided |
//! | `states` | what a store learns and forgets; the authority's clock |
//! | `texts` | reading a log record and a policy |
//! | `devices` | writing a text; the sync of a disk |
//! | `values` | the copy of a list; two answers taken together |
#![tactic(auto)]

mod credentials;
mod denials;
mod devices;
mod locks;
mod recovery;
mod rounds;
mod schemes;
mod states;
mod texts;
mod values;

pub use credentials::{
    certify_policy, check_certificate, evaluate_policy, is_valid_among, is_valid_in_store,
};
pub use denials::{check_denial, find_denial};
pub use devices::{sync_disk, write_text};
pub use locks::{release_locks, request_lock};
pub use recovery::{recover_decision, recover_server};
pub use rounds::judge_round;
pub use schemes::{choose_move, find_newer};
pub use states::{forget_writes, learn_version, move_clock};
pub use texts::{decode_record, parse_policy};
pub use values::{both_values, copy_list};
