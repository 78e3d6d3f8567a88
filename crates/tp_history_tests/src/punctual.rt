//! What punctual demands: the proof of each query alone, and then one instance over all queries, made anew.
use crate::instances::{Attempt, Group, SOON_NEWER, decide};
use crate::scenario::{IT, PUNCTUAL, PUNCTUAL_SURE};
use crate::story::Said;

/// The proof of the first query.
const FIRST: Group = (&[(1, 1, 1)], None);

/// The proof of the second.
const SECOND: Group = (&[(2, 1, 2)], None);

/// Both, made anew.
const ANEW: Group = (&[(1, 1, 3), (2, 1, 3)], None);

/// The same with a reading of the master.
const READ: Group = (&[(1, 1, 3), (2, 1, 3)], Some(4));

const KEPT: Attempt = Attempt {
    txn: PUNCTUAL,
    between: &[],
    rounds: 1,
    groups: &[FIRST, SECOND, ANEW],
    trusted: true,
};

const BROKEN: Attempt = Attempt {
    trusted: false,
    ..KEPT
};

const SURE: Attempt = Attempt {
    txn: PUNCTUAL_SURE,
    groups: &[FIRST, SECOND, READ],
    ..KEPT
};

const UNSURE: Attempt = Attempt {
    trusted: false,
    ..SURE
};

const INSTANCES: &[Attempt] = &[
    KEPT,
    // the last instance is missing, and there is one more
    Attempt {
        groups: &[FIRST, SECOND],
        ..BROKEN
    },
    Attempt {
        groups: &[FIRST, SECOND, ANEW, (&[(1, 1, 4), (2, 1, 4)], None)],
        ..BROKEN
    },
    // the proof of another query, at the first and at the second
    Attempt {
        groups: &[(&[(2, 1, 1)], None), SECOND, ANEW],
        ..BROKEN
    },
    Attempt {
        groups: &[FIRST, (&[(1, 1, 2)], None), ANEW],
        ..BROKEN
    },
    // more than the proof of the query, and none
    Attempt {
        groups: &[FIRST, (&[(1, 1, 2), (2, 1, 2)], None), ANEW],
        ..BROKEN
    },
    Attempt {
        groups: &[FIRST, (&[], None), ANEW],
        ..BROKEN
    },
    // at commit a proof is missing, and the proofs are out of order
    Attempt {
        groups: &[FIRST, SECOND, (&[(1, 1, 3)], None)],
        ..BROKEN
    },
    Attempt {
        groups: &[FIRST, SECOND, (&[(2, 1, 3)], None)],
        ..BROKEN
    },
    Attempt {
        groups: &[FIRST, SECOND, (&[(2, 1, 3), (1, 1, 3)], None)],
        ..BROKEN
    },
];

#[test]
fn demands_each_proof_alone_and_all_at_commit(rt: HostRuntime) {
    decide(&rt, INSTANCES);
}

const FOLLOWING: &[Attempt] = &[
    // within the instance at commit places are as they like
    Attempt {
        groups: &[FIRST, SECOND, (&[(1, 1, 8), (2, 1, 3)], None)],
        ..KEPT
    },
    // the second proof at the place of the first, and before it
    Attempt {
        groups: &[FIRST, (&[(2, 1, 1)], None), ANEW],
        ..BROKEN
    },
    Attempt {
        groups: &[(&[(1, 1, 2)], None), (&[(2, 1, 1)], None), ANEW],
        ..BROKEN
    },
    // at commit one proof is not made anew
    Attempt {
        groups: &[FIRST, SECOND, (&[(1, 1, 2), (2, 1, 3)], None)],
        ..BROKEN
    },
    Attempt {
        groups: &[FIRST, SECOND, (&[(1, 1, 3), (2, 1, 2)], None)],
        ..BROKEN
    },
    // versions may differ between instances, and at commit they do not
    Attempt {
        between: SOON_NEWER,
        groups: &[FIRST, (&[(2, 2, 2)], None), ANEW],
        ..KEPT
    },
    Attempt {
        between: SOON_NEWER,
        groups: &[FIRST, SECOND, (&[(1, 2, 3), (2, 2, 3)], None)],
        ..KEPT
    },
    Attempt {
        between: SOON_NEWER,
        groups: &[FIRST, SECOND, (&[(1, 1, 3), (2, 2, 3)], None)],
        ..BROKEN
    },
    // a reading that view consistency has not, of a proof alone and at commit
    Attempt {
        groups: &[
            (&[(1, 1, 1)], Some(2)),
            (&[(2, 1, 3)], None),
            (&[(1, 1, 4), (2, 1, 4)], None),
        ],
        ..BROKEN
    },
    Attempt {
        groups: &[FIRST, SECOND, READ],
        ..BROKEN
    },
    // rounds
    Attempt {
        rounds: 0,
        ..BROKEN
    },
    Attempt { rounds: 2, ..KEPT },
    Attempt {
        rounds: 3,
        ..BROKEN
    },
];

#[test]
fn demands_later_proofs(rt: HostRuntime) {
    decide(&rt, FOLLOWING);
}

const READINGS: &[Attempt] = &[
    SURE,
    // at commit no reading
    Attempt {
        groups: &[FIRST, SECOND, ANEW],
        ..UNSURE
    },
    // a proof alone has one
    Attempt {
        groups: &[
            (&[(1, 1, 1)], Some(2)),
            (&[(2, 1, 3)], None),
            (&[(1, 1, 4), (2, 1, 4)], Some(5)),
        ],
        ..UNSURE
    },
    Attempt {
        groups: &[
            FIRST,
            (&[(2, 1, 2)], Some(3)),
            (&[(1, 1, 4), (2, 1, 4)], Some(5)),
        ],
        ..UNSURE
    },
    // at the reading another version is the newest; the proofs alone need not have the newest
    Attempt {
        between: &[(3, Said::Publish(IT, 2))],
        ..UNSURE
    },
    Attempt {
        between: &[(4, Said::Publish(IT, 2))],
        ..SURE
    },
    Attempt {
        between: SOON_NEWER,
        groups: &[FIRST, SECOND, (&[(1, 2, 3), (2, 2, 3)], Some(4))],
        ..SURE
    },
    // rounds
    Attempt {
        rounds: 0,
        ..UNSURE
    },
    Attempt { rounds: 3, ..SURE },
    Attempt {
        rounds: 4,
        ..UNSURE
    },
];

#[test]
fn demands_a_reading_at_commit(rt: HostRuntime) {
    decide(&rt, READINGS);
}
