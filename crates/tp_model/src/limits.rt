//! The limits of values, bounds and counts.

/// The greatest number that is spelled: 15 digits.
pub const NUMBER_MAX: i64 = 999_999_999_999_999;

/// The greatest magnitude of an item's value or bound.
pub const VALUE_MAX: i64 = 1_000_000_000_000_000;

/// The last time of a clock at the start, and the last that a credential's interval may name. A time is a count of ticks.
pub const CLOCK_MAX: u64 = 1_000_000_000_000;

/// The most ticks by which one step moves the clock.
pub const TICK_MAX: u64 = 1_000_000;

/// The most listed steps, and the most steps of an officer.
pub const STEPS_MAX: usize = 100_000;

/// The most administrators.
pub const ADMINS_MAX: usize = 16;

/// The most versions in an administrator's library.
pub const VERSIONS_MAX: usize = 64;

/// The most credentials, of a scenario and of a transaction.
pub const CREDS_MAX: usize = 256;

/// The most servers.
pub const SERVERS_MAX: usize = 16;

/// The most items of a server.
pub const ITEMS_MAX: usize = 64;

/// The most transactions.
pub const TXNS_MAX: usize = 128;

/// The most queries of a transaction.
pub const QUERIES_MAX: usize = 16;

/// The most rounds that a transaction may ask for.
pub const ROUNDS_MAX: usize = 16;

/// A place for each register. They count from 1 to 9, and the first place is not used.
pub const REGISTER_PLACES: usize = 10;

/// Under view consistency two rounds bring all servers to one version (Iskander et al. 2011).
pub const VIEW_ROUNDS: u32 = 2;

/// The most terms of a sum.
pub const TERMS_MAX: usize = 5;

/// The most clients.
pub const CLIENTS_MAX: usize = 16;

/// The most publishers.
pub const PUBLISHERS_MAX: usize = 8;

/// The most officers.
pub const OFFICERS_MAX: usize = 8;

/// The calls of a device that an append makes.
pub const CALLS_MAX: u32 = 4;
