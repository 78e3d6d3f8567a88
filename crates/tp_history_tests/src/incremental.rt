//! What incremental demands: at each query one instance that keeps the proofs so far and adds one, and with readings of
//! the master a last one, with the same proofs.
use crate::instances::{Attempt, Group, SOON_NEWER, decide};
use crate::scenario::{INCREMENTAL, INCREMENTAL_SURE, IT};
use crate::story::{Claim, Evidence, Said};
use crate::trial::{PAID, READS, Trial, UNPAID};

/// After the first query.
const FIRST: Group = (&[(1, 1, 1)], None);

/// After the second.
const SECOND: Group = (&[(1, 1, 1), (2, 1, 2)], None);

/// The same with readings of the master, and at commit.
const FIRST_READ: Group = (&[(1, 1, 1)], Some(2));

const SECOND_READ: Group = (&[(1, 1, 1), (2, 1, 3)], Some(4));

const LAST_READ: Group = (&[(1, 1, 1), (2, 1, 3)], Some(5));

const KEPT: Attempt = Attempt {
    txn: INCREMENTAL,
    between: &[],
    rounds: 0,
    groups: &[FIRST, SECOND],
    trusted: true,
};

const BROKEN: Attempt = Attempt {
    trusted: false,
    ..KEPT
};

const SURE: Attempt = Attempt {
    txn: INCREMENTAL_SURE,
    groups: &[FIRST_READ, SECOND_READ, LAST_READ],
    ..KEPT
};

const UNSURE: Attempt = Attempt {
    trusted: false,
    ..SURE
};

const INSTANCES: &[Attempt] = &[
    KEPT,
    // an instance is missing, and there is one more
    Attempt {
        groups: &[FIRST],
        ..BROKEN
    },
    Attempt {
        groups: &[FIRST, SECOND, SECOND],
        ..BROKEN
    },
    // after the first query both proofs, and after the second one alone
    Attempt {
        groups: &[SECOND, SECOND],
        ..BROKEN
    },
    Attempt {
        groups: &[FIRST, FIRST],
        ..BROKEN
    },
    // the proof of the second query first
    Attempt {
        groups: &[(&[(2, 1, 1)], None), (&[(2, 1, 1), (1, 1, 2)], None)],
        ..BROKEN
    },
    // two versions, and a reading that view consistency has not
    Attempt {
        between: SOON_NEWER,
        groups: &[FIRST, (&[(1, 1, 1), (2, 2, 2)], None)],
        ..BROKEN
    },
    Attempt {
        groups: &[FIRST, (&[(1, 1, 1), (2, 1, 2)], Some(3))],
        ..BROKEN
    },
    // rounds
    Attempt {
        rounds: 1,
        ..BROKEN
    },
];

#[test]
fn demands_one_proof_more_at_each_query(rt: HostRuntime) {
    decide(&rt, INSTANCES);
}

const FOLLOWING: &[Attempt] = &[
    // another first proof than before: its place, and its version
    Attempt {
        groups: &[(&[(1, 1, 2)], None), (&[(1, 1, 1), (2, 1, 3)], None)],
        ..BROKEN
    },
    Attempt {
        between: SOON_NEWER,
        groups: &[(&[(1, 1, 2)], None), (&[(1, 2, 2), (2, 2, 3)], None)],
        ..BROKEN
    },
    Attempt {
        between: SOON_NEWER,
        groups: &[(&[(1, 2, 2)], None), (&[(1, 2, 2), (2, 2, 3)], None)],
        ..KEPT
    },
    // the new proof at the place of the one before, and before it
    Attempt {
        groups: &[(&[(1, 1, 2)], None), (&[(1, 1, 2), (2, 1, 2)], None)],
        ..BROKEN
    },
    Attempt {
        groups: &[(&[(1, 1, 2)], None), (&[(1, 1, 2), (2, 1, 1)], None)],
        ..BROKEN
    },
];

#[test]
fn demands_the_same_proofs(rt: HostRuntime) {
    decide(&rt, FOLLOWING);
}

const READINGS: &[Attempt] = &[
    SURE,
    // the last instance is missing, or has another proof
    Attempt {
        groups: &[FIRST_READ, SECOND_READ],
        ..UNSURE
    },
    Attempt {
        groups: &[FIRST_READ, SECOND_READ, (&[(1, 1, 1), (2, 1, 4)], Some(5))],
        ..UNSURE
    },
    // an instance without a reading
    Attempt {
        groups: &[(&[(1, 1, 1)], None), SECOND_READ, LAST_READ],
        ..UNSURE
    },
    Attempt {
        groups: &[FIRST_READ, SECOND_READ, (&[(1, 1, 1), (2, 1, 3)], None)],
        ..UNSURE
    },
    // the new proof at the reading before, and before it
    Attempt {
        groups: &[(&[(1, 1, 1)], Some(3)), SECOND_READ, LAST_READ],
        ..UNSURE
    },
    Attempt {
        groups: &[
            (&[(1, 1, 1)], Some(3)),
            (&[(1, 1, 1), (2, 1, 2)], Some(4)),
            (&[(1, 1, 1), (2, 1, 2)], Some(5)),
        ],
        ..UNSURE
    },
    // the last reading at the one before, and before it
    Attempt {
        groups: &[FIRST_READ, SECOND_READ, SECOND_READ],
        ..UNSURE
    },
    Attempt {
        groups: &[FIRST_READ, (&[(1, 1, 1), (2, 1, 3)], Some(6)), LAST_READ],
        ..UNSURE
    },
    // at the last reading another version is the newest
    Attempt {
        between: &[(4, Said::Publish(IT, 2))],
        ..UNSURE
    },
    Attempt {
        between: &[(5, Said::Publish(IT, 2))],
        ..SURE
    },
    // rounds
    Attempt {
        rounds: 1,
        ..UNSURE
    },
];

#[test]
fn demands_a_later_reading_of_each(rt: HostRuntime) {
    decide(&rt, READINGS);
}

/// The proof of the first query by another rule than is used otherwise.
const BY_RULE: Claim = Claim {
    rule: Some(2),
    ..READS
};

/// The proof of it that uses a credential.
const BY_ROLE: Claim = Claim {
    uses: &[0],
    ..READS
};

/// The proof of the second query.
const NEXT: Claim = Claim {
    query: 2,
    place: 3,
    ..READS
};

/// A proof is kept with its rule and what it uses.
const CERTIFICATES: &[Trial] = &[
    Trial {
        txn: INCREMENTAL,
        rounds: 0,
        evidence: &[
            Evidence {
                reading: None,
                claims: &[READS],
            },
            Evidence {
                reading: None,
                claims: &[READS, NEXT],
            },
        ],
        ..PAID
    },
    Trial {
        txn: INCREMENTAL,
        rounds: 0,
        evidence: &[
            Evidence {
                reading: None,
                claims: &[BY_RULE],
            },
            Evidence {
                reading: None,
                claims: &[BY_RULE, NEXT],
            },
        ],
        ..PAID
    },
    Trial {
        txn: INCREMENTAL,
        rounds: 0,
        evidence: &[
            Evidence {
                reading: None,
                claims: &[BY_RULE],
            },
            Evidence {
                reading: None,
                claims: &[READS, NEXT],
            },
        ],
        ..UNPAID
    },
    Trial {
        txn: INCREMENTAL,
        rounds: 0,
        evidence: &[
            Evidence {
                reading: None,
                claims: &[READS],
            },
            Evidence {
                reading: None,
                claims: &[BY_RULE, NEXT],
            },
        ],
        ..UNPAID
    },
    Trial {
        txn: INCREMENTAL,
        rounds: 0,
        evidence: &[
            Evidence {
                reading: None,
                claims: &[BY_ROLE],
            },
            Evidence {
                reading: None,
                claims: &[BY_ROLE, NEXT],
            },
        ],
        ..PAID
    },
    Trial {
        txn: INCREMENTAL,
        rounds: 0,
        evidence: &[
            Evidence {
                reading: None,
                claims: &[BY_ROLE],
            },
            Evidence {
                reading: None,
                claims: &[READS, NEXT],
            },
        ],
        ..UNPAID
    },
    Trial {
        txn: INCREMENTAL,
        rounds: 0,
        evidence: &[
            Evidence {
                reading: None,
                claims: &[READS],
            },
            Evidence {
                reading: None,
                claims: &[BY_ROLE, NEXT],
            },
        ],
        ..UNPAID
    },
];

#[test]
fn demands_the_same_certificates(rt: HostRuntime) {
    crate::trial::decide(&rt, CERTIFICATES);
}
