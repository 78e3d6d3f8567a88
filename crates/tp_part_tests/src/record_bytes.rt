//! The bytes of records, typed from the format.

const BOOT: &[u8] = &[0, 0, 0, 1, 1];

const TOLD: &[u8] = &[0, 0, 0, 9, 2, 0, 0, 0, 0, 0, 0, 0, 2];

const PREPARED: &[u8] = &[
    0, 0, 0, 107, 3, // kind
    0, 0, 0, 1, // transaction
    1, 2, 3, 4, 5, 6, 7, 8, // age
    0, 0, 0, 0, 0, 0, 0, 2, // epoch
    0, 0, 0, 3, // turn
    0, 0, 0, 1, // one deed: query, item, write, value
    0, 0, 0, 1, 0, 0, 0, 4, 1, 0, 0, 0, 0, 0, 0, 0, 0, 0, 0, 0, 0, 0, 0, 0, 5, //
    0, 0, 0, 1, // one verdict: query, server, administrator, version, place, rule, credentials
    0, 0, 0, 1, 0, 0, 0, 2, 0, 0, 0, 3, 0, 0, 0, 4, 0, 0, 0, 0, 0, 0, 0, 5, 1, 0, 0, 0, 6, 0, 0, 0,
    1, 0, 0, 0, 7, //
    0, 0, 0, 2, 0, 0, 0, 8, 0, 0, 0, 9, // versions told
];

const SETTLED_COMMIT: &[u8] = &[0, 0, 0, 7, 4, 0, 0, 0, 3, 0, 0];

/// A value of -1.
const SETTLED_RANGE: &[u8] = &[
    0, 0, 0, 28, 4, 0, 0, 0, 3, 1, 1, 0, 0, 0, 0, 2, 255, 255, 255, 255, 255, 255, 255, 255, 255,
    255, 255, 255, 255, 255, 255, 255,
];

const SETTLED_RESTARTED: &[u8] = &[0, 0, 0, 8, 4, 0, 0, 0, 3, 1, 1, 1];

/// A value of -2.
const DECIDED_COMMIT: &[u8] = &[
    0, 0, 0, 90, 5, 0, 0, 0, 1, 0, // kind, transaction, commit
    0, 0, 0, 1, // rounds
    0, 0, 0, 2, // two instances
    1, 0, 0, 0, 0, 0, 0, 0, 9, 0, 0, 0, 0, // a reading, no proofs
    0, 0, 0, 0, 1, // no reading, one proof
    0, 0, 0, 1, 0, 0, 0, 2, 0, 0, 0, 3, 0, 0, 0, 4, 0, 0, 0, 0, 0, 0, 0, 5, 0, 0, 0, 0, 0, //
    0, 0, 0, 1, // one deed: query, item, read, value
    0, 0, 0, 1, 0, 0, 0, 4, 0, 255, 255, 255, 255, 255, 255, 255, 255, 255, 255, 255, 255, 255,
    255, 255, 254,
];

const DENIED: &[u8] = &[
    0, 0, 0, 31, 5, 0, 0, 0, 1, 1, 1, 0, 0, 0, 1, 0, 0, 0, 2, 0, 0, 0, 3, 0, 0, 0, 4, 0, 0, 0, 0,
    0, 0, 0, 5,
];

/// A value of 258.
const OUT_OF_RANGE: &[u8] = &[
    0, 0, 0, 31, 5, 0, 0, 0, 1, 1, 2, 0, 0, 0, 1, 0, 0, 0, 2, 0, 0, 0, 0, 0, 0, 0, 0, 0, 0, 0, 0,
    0, 0, 1, 2,
];

const DIED: &[u8] = &[
    0, 0, 0, 27, 5, 0, 0, 0, 1, 1, 3, 0, 0, 0, 1, 0, 0, 0, 2, 0, 0, 0, 3, 0, 0, 0, 0, 0, 0, 0, 5,
];

const NEWER: &[u8] = &[
    0, 0, 0, 19, 5, 0, 0, 0, 1, 1, 4, 0, 0, 0, 1, 0, 0, 0, 2, 0, 0, 0, 3,
];

const ROUNDS: &[u8] = &[
    0, 0, 0, 31, 5, 0, 0, 0, 1, 1, 5, 0, 0, 0, 1, 0, 0, 0, 1, 0, 0, 0, 2, 0, 0, 0, 3, 0, 0, 0, 0,
    0, 0, 0, 4,
];

const RESTARTED: &[u8] = &[0, 0, 0, 11, 5, 0, 0, 0, 1, 1, 6, 0, 0, 0, 2];

const HALTED: &[u8] = &[0, 0, 0, 7, 5, 0, 0, 0, 1, 1, 7];

/// The bytes of the record of each kind, of each way to settle and of each cause, by the number that `record` gives it.
pub const KINDS: &[&[u8]] = &[
    BOOT,
    TOLD,
    PREPARED,
    SETTLED_COMMIT,
    SETTLED_RANGE,
    SETTLED_RESTARTED,
    DECIDED_COMMIT,
    DENIED,
    OUT_OF_RANGE,
    DIED,
    NEWER,
    ROUNDS,
    RESTARTED,
    HALTED,
];

/// A kind that is none, a length that is another one, and a record of which a byte is missing.
pub const OTHERS: &[&[u8]] = &[
    &[],
    &[0, 0, 0, 1, 6],
    &[0, 0, 0, 2, 1, 0],
    &[0, 0, 0, 1],
    &[0, 0, 0, 9, 2, 0, 0, 0, 0, 0, 0, 0],
];
