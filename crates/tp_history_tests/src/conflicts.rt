//! Aborts since an older transaction was in conflict, and each way in which a history does not show that.
use crate::scenario::{BACK, BOBS, HUGE, PAY, SLOW, SURE};
use crate::story::{Said, Why};
use crate::verdict::{Case, Sense, decide};
use tp_types::{Died, Outcome, ServerId, TxnId};

/// The write of x by PAY dies for SURE, which writes x too.
const DEATH: Died = Died {
    query: 2,
    server: ServerId(0),
    other: TxnId(SURE),
    place: 3,
};

const CONFLICTS: &[Case] = &[
    // both write x
    (
        &[
            (0, Said::Submit(SURE)),
            (1, Said::Submit(PAY)),
            (5, Said::Abort(PAY, Why::Died(DEATH))),
        ],
        None,
    ),
    // the query reads y, and the other writes it; the place is the only one between
    (
        &[
            (0, Said::Submit(SLOW)),
            (2, Said::Submit(PAY)),
            (
                4,
                Said::Abort(
                    PAY,
                    Why::Died(Died {
                        query: 1,
                        server: ServerId(1),
                        other: TxnId(SLOW),
                        ..DEATH
                    }),
                ),
            ),
        ],
        None,
    ),
    // the query writes y, and the other reads it
    (
        &[
            (0, Said::Submit(PAY)),
            (1, Said::Submit(BACK)),
            (
                5,
                Said::Abort(
                    BACK,
                    Why::Died(Died {
                        query: 1,
                        server: ServerId(1),
                        other: TxnId(PAY),
                        ..DEATH
                    }),
                ),
            ),
        ],
        None,
    ),
    // both read y
    (
        &[
            (0, Said::Submit(HUGE)),
            (1, Said::Submit(PAY)),
            (
                5,
                Said::Abort(
                    PAY,
                    Why::Died(Died {
                        query: 1,
                        server: ServerId(1),
                        other: TxnId(HUGE),
                        ..DEATH
                    }),
                ),
            ),
        ],
        Some(2),
    ),
    // not its query, or not at the server of the item
    (
        &[
            (0, Said::Submit(SURE)),
            (1, Said::Submit(PAY)),
            (5, Said::Abort(PAY, Why::Died(Died { query: 3, ..DEATH }))),
        ],
        Some(2),
    ),
    (
        &[
            (0, Said::Submit(SURE)),
            (1, Said::Submit(PAY)),
            (5, Said::Abort(PAY, Why::Died(Died { query: 0, ..DEATH }))),
        ],
        Some(2),
    ),
    (
        &[
            (0, Said::Submit(SURE)),
            (1, Said::Submit(PAY)),
            (
                5,
                Said::Abort(
                    PAY,
                    Why::Died(Died {
                        server: ServerId(1),
                        ..DEATH
                    }),
                ),
            ),
        ],
        Some(2),
    ),
    // no query of the other is on the item, or there is no such transaction
    (
        &[
            (0, Said::Submit(SLOW)),
            (1, Said::Submit(PAY)),
            (
                5,
                Said::Abort(
                    PAY,
                    Why::Died(Died {
                        other: TxnId(SLOW),
                        ..DEATH
                    }),
                ),
            ),
        ],
        Some(2),
    ),
    (
        &[
            (0, Said::Submit(99)),
            (1, Said::Submit(PAY)),
            (
                5,
                Said::Abort(
                    PAY,
                    Why::Died(Died {
                        other: TxnId(99),
                        ..DEATH
                    }),
                ),
            ),
        ],
        Some(2),
    ),
];

#[test]
fn shows_conflicts(rt: HostRuntime) {
    decide(&rt, Sense::Causes, CONFLICTS);
}

const PLACES: &[Case] = &[
    // the other was submitted at the same place or later, not at all, or is the transaction itself
    (
        &[
            (1, Said::Submit(PAY)),
            (1, Said::Submit(SURE)),
            (2, Said::Submit(SURE)),
            (5, Said::Abort(PAY, Why::Died(DEATH))),
        ],
        Some(3),
    ),
    (
        &[
            (0, Said::Submit(BOBS)),
            (1, Said::Submit(PAY)),
            (5, Said::Abort(PAY, Why::Died(DEATH))),
        ],
        Some(2),
    ),
    (
        &[
            (1, Said::Submit(PAY)),
            (
                5,
                Said::Abort(
                    PAY,
                    Why::Died(Died {
                        other: TxnId(PAY),
                        ..DEATH
                    }),
                ),
            ),
        ],
        Some(1),
    ),
    // the place is that of the submission, or before it
    (
        &[
            (0, Said::Submit(SURE)),
            (3, Said::Submit(PAY)),
            (5, Said::Abort(PAY, Why::Died(DEATH))),
        ],
        Some(2),
    ),
    (
        &[
            (0, Said::Submit(SURE)),
            (4, Said::Submit(PAY)),
            (5, Said::Abort(PAY, Why::Died(DEATH))),
        ],
        Some(2),
    ),
    // the place is that of the decision, or after it
    (
        &[
            (0, Said::Submit(SURE)),
            (1, Said::Submit(PAY)),
            (3, Said::Abort(PAY, Why::Died(DEATH))),
        ],
        Some(2),
    ),
    (
        &[
            (0, Said::Submit(SURE)),
            (1, Said::Submit(PAY)),
            (2, Said::Abort(PAY, Why::Died(DEATH))),
        ],
        Some(2),
    ),
    // the server had settled the other before, as an abort or as a commit
    (
        &[
            (0, Said::Submit(SURE)),
            (1, Said::Settle(0, SURE, Outcome::Abort)),
            (2, Said::Submit(PAY)),
            (5, Said::Abort(PAY, Why::Died(DEATH))),
        ],
        Some(3),
    ),
    (
        &[
            (0, Said::Submit(SURE)),
            (1, Said::Settle(0, SURE, Outcome::Commit)),
            (2, Said::Submit(PAY)),
            (5, Said::Abort(PAY, Why::Died(DEATH))),
        ],
        Some(3),
    ),
    // another server had, or this one another transaction
    (
        &[
            (0, Said::Submit(SURE)),
            (1, Said::Settle(1, SURE, Outcome::Commit)),
            (1, Said::Settle(0, BOBS, Outcome::Commit)),
            (2, Said::Submit(PAY)),
            (5, Said::Abort(PAY, Why::Died(DEATH))),
        ],
        None,
    ),
    // it settled the other at the submission, or since
    (
        &[
            (0, Said::Submit(SURE)),
            (1, Said::Submit(PAY)),
            (1, Said::Settle(0, SURE, Outcome::Commit)),
            (5, Said::Abort(PAY, Why::Died(DEATH))),
        ],
        None,
    ),
    (
        &[
            (0, Said::Submit(SURE)),
            (1, Said::Submit(PAY)),
            (2, Said::Settle(0, SURE, Outcome::Commit)),
            (5, Said::Abort(PAY, Why::Died(DEATH))),
        ],
        None,
    ),
];

#[test]
fn shows_places_of_conflicts(rt: HostRuntime) {
    decide(&rt, Sense::Causes, PLACES);
}
