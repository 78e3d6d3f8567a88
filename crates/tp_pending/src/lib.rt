//! What is still pending among things that were numbered as they came: a node for each number, and a chain by index through
//! those that are pending, the least first.
//!
//! What is promised, with the contract that carries it:
//!
//! - The one that is posted is the next number, and is pending (`Pending::post`: `ok`); where memory is refused nothing
//!   changes (`err`)
//! - Taking a number leaves it pending no more, and changes nothing else (`Pending::take`)
//! - The least number that is pending is told, or None exactly where there is none (`Pending::first`: `value`,
//!   `posted`), by a visit of one node (`counted`)
//! - What was posted last can be taken back (`Pending::cut`)
//!
//! The nodes of the pending numbers are linked both ways into a ring, in rising order; node 0 is its end, and the node of a
//! number is the one behind it (`specs/mirrors/Ring`, which the invariant holds). A post pushes a node and links the
//! last one to it; a number that is taken leaves the ring by two links: so both change a constant number of nodes,
//! whatever was taken before, and a cut changes as many for each number that it takes back. A cursor at the least number
//! would do with less: one flag for each number, and no links.
//! But where it stands at a number that is taken while those behind it were taken before, it has to pass all of these
//! in that one call, and a caller who counts a single step would find as many as were ever posted. Over a whole run
//! the cursor passes each number once; a single step of a cluster is what is bounded here.
#![tactic(auto)]

mod nodes;
mod pending;

pub use pending::Pending;
