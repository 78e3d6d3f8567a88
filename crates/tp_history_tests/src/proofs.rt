//! Proofs of a commit, and each way in which one is not true.
use crate::scenario::{IT, SOON};
use crate::story::{Claim, Evidence, Said};
use crate::trial::{PAID, READS, Trial, UNPAID, WRITES, decide};

// ---- proofs

/// PAY, with this proof of its write.
const PROVERS: &[Trial] = &[
    // another server or administrator than the item's
    Trial {
        evidence: &[Evidence {
            reading: None,
            claims: &[
                READS,
                Claim {
                    server: 1,
                    ..WRITES
                },
            ],
        }],
        ..UNPAID
    },
    Trial {
        evidence: &[Evidence {
            reading: None,
            claims: &[
                READS,
                Claim {
                    admin: IT,
                    ..WRITES
                },
            ],
        }],
        ..UNPAID
    },
    // no rule, one that does not match, the number 0, and one past the policy's end
    Trial {
        evidence: &[Evidence {
            reading: None,
            claims: &[
                READS,
                Claim {
                    rule: None,
                    ..WRITES
                },
            ],
        }],
        ..UNPAID
    },
    Trial {
        evidence: &[Evidence {
            reading: None,
            claims: &[
                READS,
                Claim {
                    rule: Some(2),
                    ..WRITES
                },
            ],
        }],
        ..UNPAID
    },
    Trial {
        evidence: &[Evidence {
            reading: None,
            claims: &[
                READS,
                Claim {
                    rule: Some(0),
                    ..WRITES
                },
            ],
        }],
        ..UNPAID
    },
    Trial {
        evidence: &[Evidence {
            reading: None,
            claims: &[
                READS,
                Claim {
                    rule: Some(3),
                    ..WRITES
                },
            ],
        }],
        ..UNPAID
    },
];

#[test]
fn wants_proofs_of_the_item_and_its_rule(rt: HostRuntime) {
    decide(&rt, PROVERS);
}

const USES: &[Trial] = &[
    // nothing is used, more than is needed, what another subject or issuer has, what is not presented, and what is not declared
    Trial {
        evidence: &[Evidence {
            reading: None,
            claims: &[
                READS,
                Claim {
                    uses: &[],
                    ..WRITES
                },
            ],
        }],
        ..UNPAID
    },
    Trial {
        evidence: &[Evidence {
            reading: None,
            claims: &[
                READS,
                Claim {
                    uses: &[1, 2, 0, 0],
                    ..WRITES
                },
            ],
        }],
        ..PAID
    },
    Trial {
        evidence: &[Evidence {
            reading: None,
            claims: &[
                READS,
                Claim {
                    uses: &[2],
                    ..WRITES
                },
            ],
        }],
        ..UNPAID
    },
    Trial {
        evidence: &[Evidence {
            reading: None,
            claims: &[
                READS,
                Claim {
                    uses: &[4],
                    ..WRITES
                },
            ],
        }],
        ..UNPAID
    },
    Trial {
        evidence: &[Evidence {
            reading: None,
            claims: &[
                READS,
                Claim {
                    uses: &[3],
                    ..WRITES
                },
            ],
        }],
        ..UNPAID
    },
    Trial {
        evidence: &[Evidence {
            reading: None,
            claims: &[
                READS,
                Claim {
                    uses: &[0, 3],
                    ..WRITES
                },
            ],
        }],
        ..UNPAID
    },
    Trial {
        evidence: &[Evidence {
            reading: None,
            claims: &[
                READS,
                Claim {
                    uses: &[0, 9],
                    ..WRITES
                },
            ],
        }],
        ..UNPAID
    },
];

#[test]
fn wants_uses_of_what_is_presented(rt: HostRuntime) {
    decide(&rt, USES);
}

const PLACES: &[Trial] = &[
    // at the submission, just after it, just before the decision, and at it
    Trial {
        evidence: &[Evidence {
            reading: None,
            claims: &[Claim { place: 0, ..READS }, WRITES],
        }],
        ..UNPAID
    },
    Trial {
        evidence: &[Evidence {
            reading: None,
            claims: &[Claim { place: 1, ..READS }, WRITES],
        }],
        ..PAID
    },
    Trial {
        evidence: &[Evidence {
            reading: None,
            claims: &[Claim { place: 4, ..READS }, WRITES],
        }],
        ..PAID
    },
    Trial {
        evidence: &[Evidence {
            reading: None,
            claims: &[Claim { place: 5, ..READS }, WRITES],
        }],
        ..UNPAID
    },
];

#[test]
fn wants_proofs_that_are_true(rt: HostRuntime) {
    decide(&rt, PLACES);
}

// ---- credentials

/// SOON, by the credential that begins at 5.
const BEGUN: &[Evidence] = &[Evidence {
    reading: None,
    claims: &[Claim {
        query: 1,
        uses: &[5],
        ..WRITES
    }],
}];

const CREDENTIALS: &[Trial] = &[
    // the role ends with 9, and the clock begins at 1
    Trial {
        before: &[(1, Said::Tick(8))],
        ..PAID
    },
    Trial {
        before: &[(1, Said::Tick(9))],
        ..UNPAID
    },
    Trial {
        before: &[(0, Said::Tick(4)), (1, Said::Tick(5))],
        ..UNPAID
    },
    Trial {
        before: &[(1, Said::Tick(8)), (2, Said::Tick(1))],
        ..PAID
    },
    Trial {
        before: &[
            (1, Said::Tick(u64::MAX)),
            (1, Said::Tick(u64::MAX)),
            (1, Said::Tick(3)),
        ],
        ..UNPAID
    },
    // it begins with 5
    Trial {
        txn: SOON,
        before: &[(1, Said::Tick(3))],
        evidence: BEGUN,
        ..UNPAID
    },
    Trial {
        txn: SOON,
        before: &[(1, Said::Tick(4))],
        evidence: BEGUN,
        ..PAID
    },
    // revoked before the proof, at its place, and another one
    Trial {
        before: &[(1, Said::Revoke(0))],
        ..UNPAID
    },
    Trial {
        before: &[(2, Said::Revoke(0))],
        ..PAID
    },
    Trial {
        before: &[(1, Said::Revoke(3))],
        ..PAID
    },
    // used beside the role, and revoked
    Trial {
        before: &[(1, Said::Revoke(1))],
        evidence: &[Evidence {
            reading: None,
            claims: &[
                READS,
                Claim {
                    uses: &[0, 1],
                    ..WRITES
                },
            ],
        }],
        ..UNPAID
    },
];

#[test]
fn wants_credentials_that_are_valid(rt: HostRuntime) {
    decide(&rt, CREDENTIALS);
}
