//! What continuous demands: at each query one instance over the queries so far, and one at commit, each made anew.
use crate::instances::{Attempt, Group, SOON_NEWER, decide};
use crate::scenario::{CONTINUOUS, CONTINUOUS_SURE, IT};
use crate::story::Said;

/// After the first query.
const FIRST: Group = (&[(1, 1, 1)], None);

/// After the second.
const SECOND: Group = (&[(1, 1, 2), (2, 1, 2)], None);

/// At commit.
const LAST: Group = (&[(1, 1, 3), (2, 1, 3)], None);

/// The same three with readings of the master.
const FIRST_READ: Group = (&[(1, 1, 1)], Some(2));

const SECOND_READ: Group = (&[(1, 1, 3), (2, 1, 3)], Some(4));

const LAST_READ: Group = (&[(1, 1, 5), (2, 1, 5)], Some(6));

const KEPT: Attempt = Attempt {
    txn: CONTINUOUS,
    between: &[],
    rounds: 1,
    groups: &[FIRST, SECOND, LAST],
    trusted: true,
};

const BROKEN: Attempt = Attempt {
    trusted: false,
    ..KEPT
};

const SURE: Attempt = Attempt {
    txn: CONTINUOUS_SURE,
    groups: &[FIRST_READ, SECOND_READ, LAST_READ],
    ..KEPT
};

const UNSURE: Attempt = Attempt {
    trusted: false,
    ..SURE
};

const INSTANCES: &[Attempt] = &[
    KEPT,
    // the last instance is missing, and there is one more
    Attempt {
        groups: &[FIRST, SECOND],
        ..BROKEN
    },
    Attempt {
        groups: &[FIRST, SECOND, LAST, (&[(1, 1, 4), (2, 1, 4)], None)],
        ..BROKEN
    },
    // after the first query the proof of the second, and both
    Attempt {
        groups: &[(&[(2, 1, 1)], None), SECOND, LAST],
        ..BROKEN
    },
    Attempt {
        groups: &[(&[(1, 1, 1), (2, 1, 1)], None), SECOND, LAST],
        ..BROKEN
    },
    // after the second query one proof alone, and both out of order
    Attempt {
        groups: &[FIRST, (&[(1, 1, 2)], None), LAST],
        ..BROKEN
    },
    Attempt {
        groups: &[FIRST, (&[(2, 1, 2)], None), LAST],
        ..BROKEN
    },
    Attempt {
        groups: &[FIRST, (&[(2, 1, 2), (1, 1, 2)], None), LAST],
        ..BROKEN
    },
    // at commit one proof alone, and both out of order
    Attempt {
        groups: &[FIRST, SECOND, (&[(2, 1, 3)], None)],
        ..BROKEN
    },
    Attempt {
        groups: &[FIRST, SECOND, (&[(2, 1, 3), (1, 1, 3)], None)],
        ..BROKEN
    },
];

#[test]
fn demands_all_so_far_at_each_query(rt: HostRuntime) {
    decide(&rt, INSTANCES);
}

const FOLLOWING: &[Attempt] = &[
    // within an instance places are as they like
    Attempt {
        groups: &[
            FIRST,
            (&[(1, 1, 3), (2, 1, 2)], None),
            (&[(1, 1, 4), (2, 1, 8)], None),
        ],
        ..KEPT
    },
    // a proof is kept, after the second query and at commit
    Attempt {
        groups: &[FIRST, (&[(1, 1, 1), (2, 1, 2)], None), LAST],
        ..BROKEN
    },
    Attempt {
        groups: &[FIRST, SECOND, (&[(1, 1, 2), (2, 1, 3)], None)],
        ..BROKEN
    },
    Attempt {
        groups: &[FIRST, SECOND, (&[(1, 1, 3), (2, 1, 2)], None)],
        ..BROKEN
    },
    // a proof is later than one proof of the instance before, and not than the other
    Attempt {
        groups: &[FIRST, (&[(1, 1, 2), (2, 1, 4)], None), LAST],
        ..BROKEN
    },
    // versions may differ between instances, and within one they do not
    Attempt {
        between: SOON_NEWER,
        groups: &[FIRST, (&[(1, 2, 2), (2, 2, 2)], None), LAST],
        ..KEPT
    },
    Attempt {
        between: SOON_NEWER,
        groups: &[FIRST, (&[(1, 1, 2), (2, 2, 2)], None), LAST],
        ..BROKEN
    },
    Attempt {
        between: SOON_NEWER,
        groups: &[FIRST, SECOND, (&[(1, 2, 3), (2, 1, 3)], None)],
        ..BROKEN
    },
    // a reading that view consistency has not
    Attempt {
        groups: &[
            (&[(1, 1, 1)], Some(2)),
            (&[(1, 1, 3), (2, 1, 3)], None),
            (&[(1, 1, 4), (2, 1, 4)], None),
        ],
        ..BROKEN
    },
    // rounds
    Attempt {
        rounds: 0,
        ..BROKEN
    },
    Attempt { rounds: 2, ..KEPT },
    Attempt {
        rounds: 3,
        ..BROKEN
    },
];

#[test]
fn demands_all_proofs_anew(rt: HostRuntime) {
    decide(&rt, FOLLOWING);
}

const READINGS: &[Attempt] = &[
    SURE,
    // an instance without a reading
    Attempt {
        groups: &[(&[(1, 1, 1)], None), SECOND_READ, LAST_READ],
        ..UNSURE
    },
    Attempt {
        groups: &[FIRST_READ, (&[(1, 1, 3), (2, 1, 3)], None), LAST_READ],
        ..UNSURE
    },
    Attempt {
        groups: &[FIRST_READ, SECOND_READ, (&[(1, 1, 5), (2, 1, 5)], None)],
        ..UNSURE
    },
    // a proof at the reading of the instance before, after the second query and at commit
    Attempt {
        groups: &[FIRST_READ, (&[(1, 1, 2), (2, 1, 3)], Some(4)), LAST_READ],
        ..UNSURE
    },
    Attempt {
        groups: &[FIRST_READ, SECOND_READ, (&[(1, 1, 5), (2, 1, 4)], Some(6))],
        ..UNSURE
    },
    // at the second reading another version is the newest, and at none
    Attempt {
        between: &[(3, Said::Publish(IT, 2))],
        groups: &[FIRST_READ, SECOND_READ, (&[(1, 2, 5), (2, 2, 5)], Some(6))],
        ..UNSURE
    },
    Attempt {
        between: &[(4, Said::Publish(IT, 2))],
        groups: &[FIRST_READ, SECOND_READ, (&[(1, 2, 5), (2, 2, 5)], Some(6))],
        ..SURE
    },
    // rounds
    Attempt {
        rounds: 0,
        ..UNSURE
    },
    Attempt { rounds: 3, ..SURE },
    Attempt {
        rounds: 4,
        ..UNSURE
    },
];

#[test]
fn demands_a_reading_of_each(rt: HostRuntime) {
    decide(&rt, READINGS);
}
