//! Aborts since a value is outside its item's range, and each way in which a history does not show that.
use crate::scenario::{BACK, HUGE, LEAST, OVER, PAY, WIDE};
use crate::story::{Basis, NOTHING, Said, Why};
use crate::verdict::{Case, Sense, decide};
use tp_types::{Action, Actor, Deed, ItemId, OutOfRange, Outcome, ServerId, TxnId};

/// OVER writes 200 to x, and then 101.
const OVER_X: OutOfRange = OutOfRange {
    query: 2,
    server: ServerId(0),
    value: 101,
};

/// PAY adds 7 to what is in y.
const PAY_X: OutOfRange = OutOfRange {
    value: 108,
    ..OVER_X
};

const Y_WRITE: Deed = Deed {
    query: 3,
    item: ItemId(1),
    action: Action::Write,
    value: 101,
};

/// A commit that leaves 101 in y.
const LEFT_101: Basis = Basis {
    deeds: &[Y_WRITE],
    ..NOTHING
};

/// A commit that leaves the greatest i128 in y.
const LEFT_MOST: Basis = Basis {
    deeds: &[Deed {
        value: i128::MAX,
        ..Y_WRITE
    }],
    ..NOTHING
};

const VALUES: &[Case] = &[
    // the last write of x is out of its range, and so is that of the run
    (
        &[
            (0, Said::Submit(OVER)),
            (3, Said::Settle(0, OVER, Outcome::Abort)),
            (5, Said::Abort(OVER, Why::No(OVER_X))),
        ],
        None,
    ),
    // not its last write, not a query of it, or a read
    (
        &[
            (0, Said::Submit(OVER)),
            (3, Said::Settle(0, OVER, Outcome::Abort)),
            (
                5,
                Said::Abort(
                    OVER,
                    Why::No(OutOfRange {
                        query: 1,
                        value: 200,
                        ..OVER_X
                    }),
                ),
            ),
        ],
        Some(2),
    ),
    (
        &[
            (0, Said::Submit(OVER)),
            (3, Said::Settle(0, OVER, Outcome::Abort)),
            (
                5,
                Said::Abort(OVER, Why::No(OutOfRange { query: 3, ..OVER_X })),
            ),
        ],
        Some(2),
    ),
    (
        &[
            (0, Said::Submit(OVER)),
            (3, Said::Settle(0, OVER, Outcome::Abort)),
            (
                5,
                Said::Abort(OVER, Why::No(OutOfRange { query: 0, ..OVER_X })),
            ),
        ],
        Some(2),
    ),
    (
        &[
            (1, Said::Commit(BACK, LEFT_101)),
            (2, Said::Submit(PAY)),
            (3, Said::Settle(1, PAY, Outcome::Abort)),
            (
                5,
                Said::Abort(
                    PAY,
                    Why::No(OutOfRange {
                        query: 1,
                        server: ServerId(1),
                        value: 101,
                    }),
                ),
            ),
        ],
        Some(3),
    ),
    // not the server of the item
    (
        &[
            (0, Said::Submit(OVER)),
            (3, Said::Settle(1, OVER, Outcome::Abort)),
            (
                5,
                Said::Abort(
                    OVER,
                    Why::No(OutOfRange {
                        server: ServerId(1),
                        ..OVER_X
                    }),
                ),
            ),
        ],
        Some(2),
    ),
    // in the range, at its ends
    (
        &[
            (0, Said::Submit(WIDE)),
            (3, Said::Settle(0, WIDE, Outcome::Abort)),
            (
                5,
                Said::Abort(
                    WIDE,
                    Why::No(OutOfRange {
                        query: 3,
                        value: 100,
                        ..OVER_X
                    }),
                ),
            ),
        ],
        Some(2),
    ),
    (
        &[
            (0, Said::Submit(LEAST)),
            (3, Said::Settle(0, LEAST, Outcome::Abort)),
            (
                5,
                Said::Abort(
                    LEAST,
                    Why::No(OutOfRange {
                        query: 3,
                        value: 0,
                        ..OVER_X
                    }),
                ),
            ),
        ],
        Some(2),
    ),
    // the server settled no abort of it before the decision
    (
        &[
            (0, Said::Submit(OVER)),
            (5, Said::Abort(OVER, Why::No(OVER_X))),
        ],
        Some(1),
    ),
    (
        &[
            (0, Said::Submit(OVER)),
            (5, Said::Settle(0, OVER, Outcome::Abort)),
            (5, Said::Abort(OVER, Why::No(OVER_X))),
            (6, Said::Settle(0, OVER, Outcome::Abort)),
        ],
        Some(2),
    ),
    (
        &[
            (0, Said::Submit(OVER)),
            (3, Said::Settle(1, OVER, Outcome::Abort)),
            (3, Said::Settle(0, WIDE, Outcome::Abort)),
            (3, Said::Settle(0, OVER, Outcome::Commit)),
            (5, Said::Abort(OVER, Why::No(OVER_X))),
        ],
        Some(4),
    ),
    // another value than that of the run
    (
        &[
            (0, Said::Submit(OVER)),
            (3, Said::Settle(0, OVER, Outcome::Abort)),
            (
                5,
                Said::Abort(
                    OVER,
                    Why::No(OutOfRange {
                        value: 102,
                        ..OVER_X
                    }),
                ),
            ),
        ],
        Some(2),
    ),
];

#[test]
fn shows_values(rt: HostRuntime) {
    decide(&rt, Sense::Causes, VALUES);
}

const CRASHES: &[Case] = &[
    // the value of the run is taken where a server of it crashed between the submission and the first abort
    (
        &[
            (0, Said::Submit(OVER)),
            (2, Said::Crash(Actor::Server(ServerId(0)))),
            (3, Said::Settle(0, OVER, Outcome::Abort)),
            (
                5,
                Said::Abort(
                    OVER,
                    Why::No(OutOfRange {
                        value: 102,
                        ..OVER_X
                    }),
                ),
            ),
        ],
        None,
    ),
    (
        &[
            (0, Said::Submit(PAY)),
            (2, Said::Crash(Actor::Server(ServerId(1)))),
            (3, Said::Settle(0, PAY, Outcome::Abort)),
            (
                5,
                Said::Abort(PAY, Why::No(OutOfRange { value: -1, ..PAY_X })),
            ),
        ],
        None,
    ),
    // and not where none of them did so: at the ends, later, or another actor
    (
        &[
            (0, Said::Crash(Actor::Server(ServerId(0)))),
            (0, Said::Submit(OVER)),
            (3, Said::Settle(0, OVER, Outcome::Abort)),
            (3, Said::Crash(Actor::Server(ServerId(0)))),
            (4, Said::Crash(Actor::Server(ServerId(0)))),
            (
                5,
                Said::Abort(
                    OVER,
                    Why::No(OutOfRange {
                        value: 102,
                        ..OVER_X
                    }),
                ),
            ),
        ],
        Some(5),
    ),
    (
        &[
            (0, Said::Submit(OVER)),
            (2, Said::Crash(Actor::Server(ServerId(1)))),
            (2, Said::Crash(Actor::Coordinator(TxnId(OVER)))),
            (3, Said::Settle(0, OVER, Outcome::Abort)),
            (
                5,
                Said::Abort(
                    OVER,
                    Why::No(OutOfRange {
                        value: 102,
                        ..OVER_X
                    }),
                ),
            ),
        ],
        Some(4),
    ),
    // the first abort, at whichever server, says which crashes count
    (
        &[
            (0, Said::Submit(PAY)),
            (2, Said::Settle(1, PAY, Outcome::Abort)),
            (3, Said::Crash(Actor::Server(ServerId(0)))),
            (4, Said::Settle(0, PAY, Outcome::Abort)),
            (
                5,
                Said::Abort(PAY, Why::No(OutOfRange { value: -1, ..PAY_X })),
            ),
        ],
        Some(4),
    ),
];

#[test]
fn shows_crashes(rt: HostRuntime) {
    decide(&rt, Sense::Causes, CRASHES);
}

const RUNS: &[Case] = &[
    // the run is on the data before the first abort
    (
        &[
            (1, Said::Commit(BACK, LEFT_101)),
            (2, Said::Submit(PAY)),
            (3, Said::Settle(0, PAY, Outcome::Abort)),
            (5, Said::Abort(PAY, Why::No(PAY_X))),
        ],
        None,
    ),
    (
        &[
            (2, Said::Submit(PAY)),
            (3, Said::Commit(BACK, LEFT_101)),
            (3, Said::Settle(0, PAY, Outcome::Abort)),
            (5, Said::Abort(PAY, Why::No(PAY_X))),
        ],
        Some(3),
    ),
    (
        &[
            (0, Said::Submit(PAY)),
            (2, Said::Settle(1, PAY, Outcome::Abort)),
            (3, Said::Commit(BACK, LEFT_101)),
            (4, Said::Settle(0, PAY, Outcome::Abort)),
            (5, Said::Abort(PAY, Why::No(PAY_X))),
        ],
        Some(4),
    ),
    // a value that no i128 holds is none of them
    (
        &[
            (1, Said::Commit(BACK, LEFT_MOST)),
            (2, Said::Submit(PAY)),
            (3, Said::Settle(0, PAY, Outcome::Abort)),
            (
                5,
                Said::Abort(
                    PAY,
                    Why::No(OutOfRange {
                        value: i128::MIN + 6,
                        ..PAY_X
                    }),
                ),
            ),
        ],
        Some(3),
    ),
    (
        &[
            (1, Said::Commit(BACK, LEFT_MOST)),
            (2, Said::Submit(PAY)),
            (3, Said::Settle(0, PAY, Outcome::Abort)),
            (
                5,
                Said::Abort(
                    PAY,
                    Why::No(OutOfRange {
                        value: i128::MAX,
                        ..PAY_X
                    }),
                ),
            ),
        ],
        Some(3),
    ),
    // one on the way is kept: 2 most, and then most
    (
        &[
            (1, Said::Commit(BACK, LEFT_MOST)),
            (2, Said::Submit(HUGE)),
            (3, Said::Settle(0, HUGE, Outcome::Abort)),
            (
                5,
                Said::Abort(
                    HUGE,
                    Why::No(OutOfRange {
                        query: 4,
                        value: i128::MAX,
                        ..PAY_X
                    }),
                ),
            ),
        ],
        None,
    ),
    (
        &[
            (1, Said::Commit(BACK, LEFT_MOST)),
            (2, Said::Submit(HUGE)),
            (3, Said::Settle(0, HUGE, Outcome::Abort)),
            (
                5,
                Said::Abort(
                    HUGE,
                    Why::No(OutOfRange {
                        query: 4,
                        value: -1,
                        ..PAY_X
                    }),
                ),
            ),
        ],
        Some(3),
    ),
];

#[test]
fn shows_runs_before_a_crash(rt: HostRuntime) {
    decide(&rt, Sense::Causes, RUNS);
}
