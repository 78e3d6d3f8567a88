//! What logs leave: what an actor that comes up again knows by the records that it has forced.
//!
//! What is promised, with the contract that carries it:
//!
//! - What a coordinator has decided is its first decision on record (`decision_of`)
//! - What a server has of its log is exactly as defined, record by record (`held`: `held`)
//! - Of every log whose records are of transactions of the scenario it is what the look-ups on the log say (`held`:
//!   `says`). The epoch is one, and one more for each boot. Of each administrator the newest version is the greatest
//!   that is told, or the one known at first where none is greater. The values are those that settled commits leave,
//!   each of what was prepared of it. A vote is listed exactly where it is the last of its transaction, which is not
//!   settled; the older first, and of one age by transaction. A settlement is listed exactly where it is the first of
//!   its transaction, in the order of the log
//! - All that is kept of a log is told too, of each transaction by its number (`kept_of`: `kept`), and what is prepared is put in
//!   that order (`by_age`)
//! - What is kept while records are taken in is what the log says so far, and stays so with each record
//!   (`logs_are_kept`: `whole`, `step`)
//! - Where the boots of a log are counted, and its other records stand apart, the same is kept of it, and the same decided
//!   (`add_apart`, `kept_apart`; `boots_stand_apart`)
//!
//! No call asks a condition of the records: of a transaction that is not there nothing is prepared, and each of its
//! settlements is listed; what is told of an administrator, or written of an item, that is not there is lost. Where values
//! of items are handed over, they are those that the scenario says (`kept_apart`, `Kept::opened`).
#![tactic(auto)]

mod ages;
mod answer;
mod apart;
mod decided;
mod kept;
mod laws;
mod recovery;
mod values;
mod versions;

pub use ages::by_age;
pub use answer::Held;
pub use apart::{add_apart, kept_apart};
pub use decided::decision_of;
pub use kept::Kept;
pub use laws::{boots_stand_apart, logs_are_kept};
pub use recovery::{held, kept_of};
