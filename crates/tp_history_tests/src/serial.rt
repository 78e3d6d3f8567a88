//! Serial commits, and each way in which a commit is not.
use crate::scenario::{BACK, LEAST, OVER, PAY, SURE, WIDE, scenario};
use crate::story::{Basis, NOTHING, Said, tell};
use crate::verdict::{Sense, assert_case, is_judged, keep, keeps};
use std::process::Abort;
use tp_audit::are_lone;
use tp_types::{Action, Deed, Fact, ItemId, List, Scenario};

/// Commits, each with its place and its transaction.
type Commits = &'static [(u64, u32, &'static [Deed])];

/// Commits, and which of them is the first that is not serial.
type Run = (Commits, Option<usize>);

const X_READ: Deed = Deed {
    query: 1,
    item: ItemId(0),
    action: Action::Read,
    value: 5,
};

const Y_READ: Deed = Deed {
    item: ItemId(1),
    value: 10,
    ..X_READ
};

const X_WRITE: Deed = Deed {
    query: 1,
    item: ItemId(0),
    action: Action::Write,
    value: 17,
};

const Y_WRITE: Deed = Deed {
    item: ItemId(1),
    value: 3,
    ..X_WRITE
};

/// PAY reads 10 of y, and so writes 17 to x.
pub const PAID: &[Deed] = &[
    Y_READ,
    Deed {
        query: 2,
        ..X_WRITE
    },
];

/// BACK writes 3 to y, reads it, and so writes 5.
const WENT_BACK: &[Deed] = &[
    Y_WRITE,
    Deed {
        query: 2,
        value: 3,
        ..Y_READ
    },
    Deed {
        query: 3,
        value: 5,
        ..Y_WRITE
    },
];

/// PAY after BACK.
const PAID_LATER: &[Deed] = &[
    Deed { value: 5, ..Y_READ },
    Deed {
        query: 2,
        value: 12,
        ..X_WRITE
    },
];

const DEEDS: &[Run] = &[
    (&[(5, PAY, PAID)], None),
    // another value is written
    (
        &[(
            5,
            PAY,
            &[
                Y_READ,
                Deed {
                    query: 2,
                    value: 18,
                    ..X_WRITE
                },
            ],
        )],
        Some(0),
    ),
    // the registers are those of what was read, and another value is said of it
    (
        &[(
            5,
            PAY,
            &[
                Deed {
                    value: 11,
                    ..Y_READ
                },
                Deed {
                    query: 2,
                    value: 18,
                    ..X_WRITE
                },
            ],
        )],
        Some(0),
    ),
    // another query, item or action
    (
        &[(
            5,
            PAY,
            &[
                Y_READ,
                Deed {
                    query: 1,
                    ..X_WRITE
                },
            ],
        )],
        Some(0),
    ),
    (
        &[(
            5,
            PAY,
            &[
                Y_READ,
                Deed {
                    query: 2,
                    item: ItemId(2),
                    ..X_WRITE
                },
            ],
        )],
        Some(0),
    ),
    (
        &[(
            5,
            PAY,
            &[
                Y_READ,
                Deed {
                    query: 2,
                    action: Action::Read,
                    ..X_WRITE
                },
            ],
        )],
        Some(0),
    ),
    // deeds are missing, or are too many
    (&[(5, PAY, &[])], Some(0)),
    (&[(5, PAY, &[Y_READ])], Some(0)),
    (
        &[(
            5,
            PAY,
            &[
                Y_READ,
                Deed {
                    query: 2,
                    ..X_WRITE
                },
                Deed {
                    query: 3,
                    ..X_WRITE
                },
            ],
        )],
        Some(0),
    ),
];

/// Adds a commit of these deeds.
fn tell_commit(
    rt: &(impl Abort + AllocGlobal),
    facts: &mut List<Fact>,
    place: u64,
    txn: u32,
    deeds: &[Deed],
) {
    let basis = Basis { deeds, ..NOTHING };
    tell(rt, facts, &[(place, Said::Commit(txn, basis))]);
}

fn commits(rt: &(impl Abort + AllocGlobal), done: Commits) -> List<Fact> {
    let mut made = List::new(rt.alloc());
    for (place, txn, deeds) in done {
        tell_commit(rt, &mut made, *place, *txn, *deeds);
    }
    made
}

/// Judges each run by itself.
fn decide(rt: &(impl Abort + AllocGlobal), runs: &[Run]) {
    let scenario = scenario(rt);
    for (at, (done, breach)) in runs.iter().enumerate() {
        let facts = commits(rt, done);
        let holds = is_judged(rt, Sense::Serial, &scenario, facts, *breach);
        assert_case(rt, at, holds);
    }
    drop(scenario);
}

#[test]
fn wants_the_deeds_of_a_run(rt: HostRuntime) {
    decide(&rt, DEEDS);
}

const RUNS: &[Run] = &[
    // a read of the transaction's own write
    (&[(5, BACK, WENT_BACK)], None),
    (
        &[(
            5,
            BACK,
            &[
                Y_WRITE,
                Deed { query: 2, ..Y_READ },
                Deed {
                    query: 3,
                    value: 19,
                    ..Y_WRITE
                },
            ],
        )],
        Some(0),
    ),
    // a read after an earlier commit, which is seen, or is not
    (&[(4, BACK, WENT_BACK), (5, PAY, PAID_LATER)], None),
    (&[(4, BACK, WENT_BACK), (5, PAY, PAID)], Some(1)),
    (&[(4, PAY, PAID), (5, BACK, WENT_BACK)], None),
    // two at one place, of which neither is before the other: each ran on the data before the place
    (&[(5, BACK, WENT_BACK), (5, PAY, PAID)], None),
    (
        &[(4, PAY, PAID), (5, BACK, WENT_BACK), (5, PAY, PAID_LATER)],
        Some(2),
    ),
    // what is at a later place is not before it, wherever it stands
    (&[(5, BACK, WENT_BACK), (4, PAY, PAID)], None),
    // out of the range at the end, and on the way alone
    (
        &[(
            5,
            OVER,
            &[
                Deed {
                    value: 200,
                    ..X_WRITE
                },
                Deed {
                    query: 2,
                    value: 101,
                    ..X_WRITE
                },
            ],
        )],
        Some(0),
    ),
    (
        &[(
            5,
            WIDE,
            &[
                X_READ,
                Deed {
                    query: 2,
                    value: 5,
                    ..X_WRITE
                },
                Deed {
                    query: 3,
                    value: 100,
                    ..X_WRITE
                },
            ],
        )],
        None,
    ),
    (
        &[(
            5,
            LEAST,
            &[
                X_READ,
                Deed {
                    query: 2,
                    value: -6,
                    ..X_WRITE
                },
                Deed {
                    query: 3,
                    value: 0,
                    ..X_WRITE
                },
            ],
        )],
        None,
    ),
    // an item that the commit leaves alone is out of its range
    (
        &[
            (
                4,
                OVER,
                &[
                    Deed {
                        value: 200,
                        ..X_WRITE
                    },
                    Deed {
                        query: 2,
                        value: 101,
                        ..X_WRITE
                    },
                ],
            ),
            (5, BACK, WENT_BACK),
        ],
        Some(0),
    ),
    // no transaction that is declared
    (&[(5, 99, &[])], Some(0)),
];

#[test]
fn wants_the_data_before_a_place(rt: HostRuntime) {
    decide(&rt, RUNS);
}

// ---- sums past what a value can be

/// What a commit leaves in x, what WIDE or LEAST then reads, writes to x, and writes to it again, and whether that is serial.
type Sum = (i128, u32, [i128; 3], bool);

const SUMS: &[Sum] = &[
    // most + most - most
    (i128::MAX, WIDE, [i128::MAX, i128::MAX, 100], true),
    (i128::MAX, WIDE, [i128::MAX, i128::MAX - 1, 100], false),
    (i128::MAX, WIDE, [i128::MAX, -2, 100], false),
    // least + least - least
    (i128::MIN, WIDE, [i128::MIN, i128::MIN, 100], true),
    (i128::MIN, WIDE, [i128::MIN, 0, 100], false),
    // -most - 1, and -least - 1
    (i128::MAX, LEAST, [i128::MAX, i128::MIN, 0], true),
    (i128::MIN, LEAST, [i128::MIN, i128::MAX, 0], true),
    // -(least + 1) - 1
    (
        i128::MIN + 1,
        LEAST,
        [i128::MIN + 1, i128::MAX - 1, 0],
        true,
    ),
    // what was read is not what is there, and the last value is another one
    (i128::MAX, WIDE, [i128::MIN, i128::MIN, 100], false),
    (i128::MAX, WIDE, [i128::MAX, i128::MAX, 99], false),
];

/// The commit of WIDE or LEAST, after one that leaves a value in x.
fn after(rt: &(impl Abort + AllocGlobal), sum: &Sum) -> List<Fact> {
    let (left, txn, [value, first, last], _) = *sum;
    let before = Deed {
        value: left,
        ..X_WRITE
    };
    let read = Deed { value, ..X_READ };
    let first = Deed {
        query: 2,
        value: first,
        ..X_WRITE
    };
    let last = Deed {
        query: 3,
        value: last,
        ..X_WRITE
    };
    let mut made = List::new(rt.alloc());
    tell_commit(rt, &mut made, 4, SURE, &[before]);
    tell_commit(rt, &mut made, 5, txn, &[read, first, last]);
    made
}

/// Whether the second commit of a sum is serial or not as it says, and both are not.
fn is_summed(rt: &(impl Abort + AllocGlobal), scenario: &Scenario, sum: &Sum) -> bool {
    let facts = after(rt, sum);
    let second = match facts.get(1) {
        Some(second) => keeps(rt, Sense::Serial, scenario, &facts, &[], second),
        None => !sum.3,
    };
    let both = keep(rt, Sense::Serial, scenario, &facts);
    drop(facts);
    second == sum.3 && !both
}

#[test]
fn sums_exactly(rt: HostRuntime) {
    let scenario = scenario(&rt);
    for (at, sum) in SUMS.iter().enumerate() {
        assert_case(&rt, at, is_summed(&rt, &scenario, sum));
    }
    drop(scenario);
}

// ---- places

/// Commits with their places, and whether no two have one place.
const APART: &[(Commits, bool)] = &[
    (&[], true),
    (&[(5, PAY, PAID)], true),
    (&[(5, BACK, WENT_BACK), (4, PAY, PAID)], true),
    (&[(5, BACK, WENT_BACK), (5, PAY, PAID)], false),
    (
        &[(5, PAY, PAID), (4, BACK, WENT_BACK), (5, PAY, PAID)],
        false,
    ),
];

/// Whether no two of these commits have one place.
fn are_apart(rt: &(impl Abort + AllocGlobal), done: Commits) -> bool {
    let facts = commits(rt, done);
    let are_apart = are_lone(&facts);
    drop(facts);
    are_apart
}

#[test]
fn stand_apart(rt: HostRuntime) {
    for (at, (done, apart)) in APART.iter().enumerate() {
        assert_case(&rt, at, are_apart(&rt, done) == *apart);
    }
}
