//! A plain program that judges histories: one call for each of agreement, trust, causes, serial data, and that commits
//! stand apart, which has the definition as its contract. It knows a scenario and a flat list of facts, and nothing of
//! how they came. So it does not judge what else a trusted history says: which facts the steps say, since it is given
//! no steps, that every transaction has ended, and the values of items.
//!
//! What is promised, with the contract that carries it:
//!
//! - A plain program judges agreement, trust, causes, serial data, and that commits stand apart, for any
//!   scenario and any list of facts: it gives true exactly where the definition does (`is_agreed`,
//!   `is_trusted`, `is_caused`, `is_serial`, `are_lone`, and for one fact `keeps_agreement`, `keeps_trust`,
//!   `keeps_causes`, `keeps_serial`)
#![tactic(auto)]

mod agreement;
mod authorisation;
mod causes;
mod commits;
mod conflicts;
mod crashes;
mod credentials;
mod demand;
mod facts;
mod following;
mod newer;
mod policies;
mod refusals;
mod run;
mod serial;
mod total;
mod trust;
mod versions;
mod wide;

pub use agreement::{is_agreed, keeps_agreement};
pub use causes::{is_caused, keeps_causes};
pub use commits::are_lone;
pub use serial::{is_serial, keeps_serial};
pub use trust::{is_trusted, keeps_trust};
