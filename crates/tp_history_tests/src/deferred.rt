//! What deferred demands: one instance over all queries, with readings of the master under global consistency.
use crate::scenario::{HR, SURE};
use crate::story::{Claim, Evidence, Said};
use crate::trial::{PAID, READS, Trial, UNPAID, WRITES, decide};

// ---- one instance, and how many rounds

const DEMANDS: &[Trial] = &[
    PAID,
    // rounds: one, and one more
    Trial {
        rounds: 0,
        ..UNPAID
    },
    Trial { rounds: 2, ..PAID },
    Trial {
        rounds: 3,
        ..UNPAID
    },
    // no instance, and two
    Trial {
        evidence: &[],
        ..UNPAID
    },
    Trial {
        evidence: &[
            Evidence {
                reading: None,
                claims: &[READS, WRITES],
            },
            Evidence {
                reading: None,
                claims: &[READS, WRITES],
            },
        ],
        ..UNPAID
    },
    // a proof is missing
    Trial {
        evidence: &[Evidence {
            reading: None,
            claims: &[READS],
        }],
        ..UNPAID
    },
    Trial {
        evidence: &[Evidence {
            reading: None,
            claims: &[WRITES],
        }],
        ..UNPAID
    },
    Trial {
        evidence: &[Evidence {
            reading: None,
            claims: &[],
        }],
        ..UNPAID
    },
    // two proofs of one query
    Trial {
        evidence: &[Evidence {
            reading: None,
            claims: &[READS, READS, WRITES],
        }],
        ..UNPAID
    },
    Trial {
        evidence: &[Evidence {
            reading: None,
            claims: &[READS, READS],
        }],
        ..UNPAID
    },
    // out of order, and another number
    Trial {
        evidence: &[Evidence {
            reading: None,
            claims: &[WRITES, READS],
        }],
        ..UNPAID
    },
    Trial {
        evidence: &[Evidence {
            reading: None,
            claims: &[READS, Claim { query: 3, ..WRITES }],
        }],
        ..UNPAID
    },
    // a reading that view consistency has not
    Trial {
        evidence: &[Evidence {
            reading: Some(4),
            claims: &[READS, WRITES],
        }],
        ..UNPAID
    },
    // no transaction that is declared
    Trial { txn: 99, ..UNPAID },
];

#[test]
fn demands_one_proof_of_each_query(rt: HostRuntime) {
    decide(&rt, DEMANDS);
}

// ---- readings of the master

/// SURE, proved at 2 and read at 3.
const READ: Trial = Trial {
    txn: SURE,
    evidence: &[Evidence {
        reading: Some(3),
        claims: &[Claim { query: 1, ..WRITES }],
    }],
    ..PAID
};

const UNREAD: Trial = Trial {
    trusted: false,
    ..READ
};

const READINGS: &[Trial] = &[
    READ,
    // as many rounds as the transaction has
    Trial { rounds: 3, ..READ },
    Trial {
        rounds: 4,
        ..UNREAD
    },
    Trial {
        rounds: 0,
        ..UNREAD
    },
    // no reading
    Trial {
        evidence: &[Evidence {
            reading: None,
            claims: &[Claim { query: 1, ..WRITES }],
        }],
        ..UNREAD
    },
    // the newest version there is another one
    Trial {
        before: &[(2, Said::Publish(HR, 2))],
        ..UNREAD
    },
    Trial {
        before: &[(3, Said::Publish(HR, 2))],
        ..READ
    },
    // a proof at the reading, and one after it
    Trial {
        evidence: &[Evidence {
            reading: Some(2),
            claims: &[Claim { query: 1, ..WRITES }],
        }],
        ..UNREAD
    },
    Trial {
        evidence: &[Evidence {
            reading: Some(1),
            claims: &[Claim { query: 1, ..WRITES }],
        }],
        ..UNREAD
    },
    // a reading just before the decision, and at it
    Trial {
        evidence: &[Evidence {
            reading: Some(4),
            claims: &[Claim { query: 1, ..WRITES }],
        }],
        ..READ
    },
    Trial {
        evidence: &[Evidence {
            reading: Some(5),
            claims: &[Claim { query: 1, ..WRITES }],
        }],
        ..UNREAD
    },
];

#[test]
fn wants_readings_of_the_newest(rt: HostRuntime) {
    decide(&rt, READINGS);
}
