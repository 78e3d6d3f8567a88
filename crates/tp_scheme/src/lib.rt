//! What a transaction does next under its scheme, and the proofs and instances that it gathers.
//!
//! What is promised, with the contract that carries it:
//!
//! - What is done at a point is what the table of moves says of the scheme, the level and the number of queries
//!   (`next_move`)
//! - At a beginning something is asked for. There a query is sent at once only under a scheme that does not prove each
//!   query as it runs, and the authority is asked only there and only under one that does (`beginnings_act`: `act`,
//!   `sends`, `asks`)
//! - The master is asked only under incremental where it is read, and the queries so far are evaluated together only
//!   under continuous. Only where no query is left are votes without evaluation asked for, under incremental alone, and
//!   do the rounds at commit begin, never under incremental. A transaction commits only after the votes
//!   (`moves_have_their_schemes`: `probes`, `validates`, `votes`, `rounds`, `decides`)
//! - Each query leads to the next by the moves that are listed for its scheme, and the last to the decision by those of
//!   the end: deferred, punctual and continuous evaluate all queries in the rounds at commit, and incremental votes, and
//!   reads the master after the votes where it is read (`queries_lead_on`: `next`, `last`)
//! - Nothing is gathered at first (`Gathered::new`). A proof is added at the end; an instance that is closed has all
//!   proofs so far, in their order, with the given reading, and is added at the end, as is an instance that is given;
//!   where memory is refused nothing changes (`Gathered::add`: `added`, `memory`; `close` and `closes`: `closed`,
//!   `memory`)
//! - What was gathered is lent (`Gathered::proofs`, `instances`). The pin of an administrator is the version of its
//!   first proof, and None exactly where it has none (`Gathered::pin_of`); what is added later leaves it, and the first
//!   proof sets it (`first_proofs_pin`: `stay`, `first`)
//! - What a reading finds is Newer of the first proof whose version is below the reading's (`Gathered::older`). It is
//!   None exactly where no proof is below; else the administrator and the version used are those of a kept proof, the
//!   version found is the reading's and is greater, and no proof before it is below (`readings_find_the_first_below`:
//!   `none`, `found`)
//!
//! No call asks a condition of its caller: a reading that has no version of an administrator is above none of its
//! proofs. `older` takes every administrator that a scenario may have to be under global consistency; the laws speak of
//! a level for each. Not claimed: that a transaction comes to a point, or that what it gathers is true; who asks keeps
//! to the order of points, and evaluates.
#![tactic(auto)]

mod gathered;
mod laws;
mod moves;

pub use gathered::Gathered;
pub use laws::{
    beginnings_act, first_proofs_pin, moves_have_their_schemes, queries_lead_on,
    readings_find_the_first_below,
};
pub use moves::{Move, Point, next_move};
