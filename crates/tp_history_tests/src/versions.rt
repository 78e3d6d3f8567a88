//! Versions of the proofs of a commit: published by the decision, in the library, and one of each administrator.
use crate::scenario::{BACK, HR, IT, LEAST};
use crate::story::{Claim, Evidence, Said};
use crate::trial::{PAID, READS, Trial, UNPAID, WRITES, decide};

const SECOND: &[Evidence] = &[Evidence {
    reading: None,
    claims: &[
        READS,
        Claim {
            version: 2,
            uses: &[0, 1],
            ..WRITES
        },
    ],
}];

/// BACK, with these versions of IT.
const MIXED: &[Evidence] = &[Evidence {
    reading: None,
    claims: &[
        READS,
        Claim { query: 2, ..READS },
        Claim {
            query: 3,
            version: 2,
            ..READS
        },
    ],
}];

const PUBLISHED: &[Trial] = &[
    // published before the decision, at its place, and after it
    Trial {
        before: &[(4, Said::Publish(HR, 2))],
        evidence: SECOND,
        ..PAID
    },
    Trial {
        before: &[(5, Said::Publish(HR, 2))],
        evidence: SECOND,
        ..UNPAID
    },
    Trial {
        evidence: SECOND,
        after: &[(6, Said::Publish(HR, 2))],
        ..UNPAID
    },
    Trial {
        before: &[(4, Said::Publish(IT, 2))],
        evidence: SECOND,
        ..UNPAID
    },
    // an old version serves, and the second wants the grade too
    Trial {
        before: &[(1, Said::Publish(HR, 2))],
        ..PAID
    },
    Trial {
        before: &[(1, Said::Publish(HR, 2))],
        evidence: &[Evidence {
            reading: None,
            claims: &[
                READS,
                Claim {
                    version: 2,
                    ..WRITES
                },
            ],
        }],
        ..UNPAID
    },
    Trial {
        before: &[(1, Said::Publish(HR, 2)), (1, Said::Revoke(1))],
        evidence: &[Evidence {
            reading: None,
            claims: &[
                READS,
                Claim {
                    version: 2,
                    ..WRITES
                },
            ],
        }],
        ..UNPAID
    },
];

#[test]
fn wants_versions_that_were_published(rt: HostRuntime) {
    decide(&rt, PUBLISHED);
}

const VERSIONS: &[Trial] = &[
    // the third denies all, the library has no fourth, and no version is 0
    Trial {
        before: &[(1, Said::Publish(HR, 2)), (1, Said::Publish(HR, 3))],
        evidence: &[Evidence {
            reading: None,
            claims: &[
                READS,
                Claim {
                    version: 3,
                    ..WRITES
                },
            ],
        }],
        ..UNPAID
    },
    Trial {
        before: &[
            (1, Said::Publish(HR, 2)),
            (1, Said::Publish(HR, 3)),
            (1, Said::Publish(HR, 4)),
        ],
        evidence: &[Evidence {
            reading: None,
            claims: &[
                READS,
                Claim {
                    version: 4,
                    ..WRITES
                },
            ],
        }],
        ..UNPAID
    },
    Trial {
        evidence: &[Evidence {
            reading: None,
            claims: &[
                READS,
                Claim {
                    version: 0,
                    ..WRITES
                },
            ],
        }],
        ..UNPAID
    },
    // the second of IT wants a grade of at most 2, which ann has not, or the role, which PAY presents
    Trial {
        before: &[(1, Said::Publish(IT, 2))],
        evidence: &[Evidence {
            reading: None,
            claims: &[
                Claim {
                    version: 2,
                    uses: &[0],
                    ..READS
                },
                WRITES,
            ],
        }],
        ..PAID
    },
    Trial {
        before: &[(1, Said::Publish(IT, 2))],
        evidence: &[Evidence {
            reading: None,
            claims: &[
                Claim {
                    version: 2,
                    uses: &[1],
                    ..READS
                },
                WRITES,
            ],
        }],
        ..UNPAID
    },
    // two versions of one administrator
    Trial {
        txn: BACK,
        evidence: &[Evidence {
            reading: None,
            claims: &[
                READS,
                Claim { query: 2, ..READS },
                Claim { query: 3, ..READS },
            ],
        }],
        ..PAID
    },
    Trial {
        txn: BACK,
        before: &[(1, Said::Publish(IT, 2))],
        evidence: MIXED,
        ..UNPAID
    },
    // the first version of HR has no rule for a read of x
    Trial {
        txn: LEAST,
        evidence: &[Evidence {
            reading: None,
            claims: &[
                Claim { query: 1, ..WRITES },
                WRITES,
                Claim { query: 3, ..WRITES },
            ],
        }],
        ..UNPAID
    },
];

#[test]
fn wants_versions_that_agree(rt: HostRuntime) {
    decide(&rt, VERSIONS);
}
