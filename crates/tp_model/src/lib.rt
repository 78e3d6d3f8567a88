//! The definitions that every layer is judged by, and the plain helpers that compute them.
//!
//! What is promised, with the contract that carries it:
//!
//! - The helpers on queries and levels compute what `specs/Queries` and `specs/Levels` define (`item_of`,
//!   `query_at`, `servers_of`, `has_query_at`, `level_of`, `is_global`, `reads_master`)
//! - The newest version at a place is computed as `specs/Versions` defines it (`newest_at`, `publications`)
//! - How a decision ends its transaction is what `specs/Facts` says (`outcome_of`)
//! - What a rule is about, what satisfies an atom, and a policy's rule by its number are computed as
//!   `specs/Policies` and `specs/Authorisation` define them (`matches`, `meets`, `rule_in`)
#![tactic(auto)]

mod decision;
mod deeds;
mod level;
mod limits;
mod policy;
mod query;
mod versions;

pub use decision::outcome_of;
pub use deeds::deed_of;
pub use level::{is_global, is_global_at, level_of, reads_master};
pub use limits::{
    ADMINS_MAX, CALLS_MAX, CLIENTS_MAX, CLOCK_MAX, CREDS_MAX, ITEMS_MAX, NUMBER_MAX, OFFICERS_MAX,
    PUBLISHERS_MAX, QUERIES_MAX, REGISTER_PLACES, ROUNDS_MAX, SERVERS_MAX, STEPS_MAX, TERMS_MAX,
    TICK_MAX, TXNS_MAX, VALUE_MAX, VERSIONS_MAX, VIEW_ROUNDS,
};
pub use policy::{matches, meets, policy_at, rule_in};
pub use query::{action_of, has_query_at, is_at_server, item_of, query_at, servers_of};
pub use versions::{newest_at, publications};
