//! Aborts whose causes a history shows, and each way in which it does not.
use crate::scenario::{BACK, BOBS, EVES, HR, IT, PAY, SURE};
use crate::story::{NOTHING, Said, Why};
use crate::verdict::{Case, Sense, decide};
use tp_types::{Actor, AdminId, Denied, ServerId, TxnId, Version};

/// A denial of the first query at s0, under version 1 of HR.
const DENIAL: Denied = Denied {
    query: 1,
    server: ServerId(0),
    admin: AdminId(HR),
    version: Version(1),
    place: 2,
};

const SECOND: Denied = Denied {
    version: Version(2),
    ..DENIAL
};

const THIRD: Denied = Denied {
    version: Version(3),
    ..DENIAL
};

const DENIALS: &[Case] = &[
    // eve has no role, at each place between
    (
        &[
            (0, Said::Submit(EVES)),
            (5, Said::Abort(EVES, Why::Denied(DENIAL))),
        ],
        None,
    ),
    (
        &[
            (1, Said::Submit(EVES)),
            (3, Said::Abort(EVES, Why::Denied(DENIAL))),
        ],
        None,
    ),
    // ann's role has ended, or was revoked
    (
        &[
            (0, Said::Submit(SURE)),
            (1, Said::Tick(9)),
            (5, Said::Abort(SURE, Why::Denied(DENIAL))),
        ],
        None,
    ),
    (
        &[
            (0, Said::Submit(SURE)),
            (1, Said::Revoke(0)),
            (5, Said::Abort(SURE, Why::Denied(DENIAL))),
        ],
        None,
    ),
    // bob has the role
    (
        &[
            (0, Said::Submit(BOBS)),
            (5, Said::Abort(BOBS, Why::Denied(DENIAL))),
        ],
        Some(1),
    ),
    // at the submission, or at the decision
    (
        &[
            (2, Said::Submit(EVES)),
            (5, Said::Abort(EVES, Why::Denied(DENIAL))),
        ],
        Some(1),
    ),
    (
        &[
            (0, Said::Submit(EVES)),
            (2, Said::Abort(EVES, Why::Denied(DENIAL))),
        ],
        Some(1),
    ),
    // not its query, its server or its administrator
    (
        &[
            (0, Said::Submit(EVES)),
            (
                5,
                Said::Abort(EVES, Why::Denied(Denied { query: 2, ..DENIAL })),
            ),
        ],
        Some(1),
    ),
    (
        &[
            (0, Said::Submit(EVES)),
            (
                5,
                Said::Abort(EVES, Why::Denied(Denied { query: 0, ..DENIAL })),
            ),
        ],
        Some(1),
    ),
    (
        &[
            (0, Said::Submit(EVES)),
            (
                5,
                Said::Abort(
                    EVES,
                    Why::Denied(Denied {
                        server: ServerId(1),
                        ..DENIAL
                    }),
                ),
            ),
        ],
        Some(1),
    ),
    (
        &[
            (0, Said::Submit(EVES)),
            (
                5,
                Said::Abort(
                    EVES,
                    Why::Denied(Denied {
                        admin: AdminId(IT),
                        ..DENIAL
                    }),
                ),
            ),
        ],
        Some(1),
    ),
];

#[test]
fn shows_denials(rt: HostRuntime) {
    decide(&rt, Sense::Causes, DENIALS);
}

const VERSIONS: &[Case] = &[
    // a version that is published at the decision, before it, and after it
    (
        &[
            (0, Said::Submit(EVES)),
            (5, Said::Publish(HR, 2)),
            (5, Said::Abort(EVES, Why::Denied(SECOND))),
        ],
        Some(2),
    ),
    (
        &[
            (0, Said::Submit(EVES)),
            (4, Said::Publish(HR, 2)),
            (5, Said::Abort(EVES, Why::Denied(SECOND))),
        ],
        None,
    ),
    (
        &[
            (0, Said::Submit(EVES)),
            (5, Said::Abort(EVES, Why::Denied(SECOND))),
            (6, Said::Publish(HR, 2)),
        ],
        Some(1),
    ),
    // a version that no library has
    (
        &[
            (0, Said::Submit(EVES)),
            (1, Said::Publish(HR, 2)),
            (1, Said::Publish(HR, 3)),
            (1, Said::Publish(HR, 4)),
            (
                5,
                Said::Abort(
                    EVES,
                    Why::Denied(Denied {
                        version: Version(4),
                        ..DENIAL
                    }),
                ),
            ),
        ],
        Some(4),
    ),
    (
        &[
            (0, Said::Submit(EVES)),
            (
                5,
                Said::Abort(
                    EVES,
                    Why::Denied(Denied {
                        version: Version(0),
                        ..DENIAL
                    }),
                ),
            ),
        ],
        Some(1),
    ),
    // under view consistency an old version may deny, and under global consistency the newest at the place or a later one
    (
        &[
            (0, Said::Submit(EVES)),
            (1, Said::Publish(HR, 2)),
            (5, Said::Abort(EVES, Why::Denied(DENIAL))),
        ],
        None,
    ),
    (
        &[
            (0, Said::Submit(SURE)),
            (1, Said::Publish(HR, 2)),
            (5, Said::Abort(SURE, Why::Denied(SECOND))),
        ],
        None,
    ),
    (
        &[
            (0, Said::Submit(SURE)),
            (1, Said::Publish(HR, 2)),
            (1, Said::Publish(HR, 3)),
            (5, Said::Abort(SURE, Why::Denied(SECOND))),
        ],
        Some(3),
    ),
    (
        &[
            (0, Said::Submit(SURE)),
            (1, Said::Publish(HR, 2)),
            (2, Said::Publish(HR, 3)),
            (5, Said::Abort(SURE, Why::Denied(SECOND))),
        ],
        None,
    ),
    (
        &[
            (0, Said::Submit(SURE)),
            (1, Said::Publish(HR, 2)),
            (3, Said::Publish(HR, 3)),
            (5, Said::Abort(SURE, Why::Denied(THIRD))),
        ],
        None,
    ),
];

#[test]
fn shows_denials_by_versions(rt: HostRuntime) {
    decide(&rt, Sense::Causes, VERSIONS);
}

const CASES: &[Case] = &[
    // a server of it crashed between
    (
        &[
            (0, Said::Submit(PAY)),
            (3, Said::Crash(Actor::Server(ServerId(1)))),
            (5, Said::Abort(PAY, Why::Restarted(1))),
        ],
        None,
    ),
    (
        &[
            (0, Said::Submit(PAY)),
            (5, Said::Abort(PAY, Why::Restarted(1))),
        ],
        Some(1),
    ),
    (
        &[
            (0, Said::Submit(PAY)),
            (0, Said::Crash(Actor::Server(ServerId(1)))),
            (5, Said::Crash(Actor::Server(ServerId(1)))),
            (5, Said::Abort(PAY, Why::Restarted(1))),
            (6, Said::Crash(Actor::Server(ServerId(1)))),
        ],
        Some(3),
    ),
    (
        &[
            (0, Said::Submit(PAY)),
            (3, Said::Crash(Actor::Server(ServerId(0)))),
            (3, Said::Crash(Actor::Coordinator(TxnId(1)))),
            (5, Said::Abort(PAY, Why::Restarted(1))),
        ],
        Some(3),
    ),
    // a server that is not the transaction's, or not declared
    (
        &[
            (0, Said::Submit(PAY)),
            (3, Said::Crash(Actor::Server(ServerId(2)))),
            (5, Said::Abort(PAY, Why::Restarted(2))),
        ],
        Some(2),
    ),
    (
        &[
            (0, Said::Submit(PAY)),
            (3, Said::Crash(Actor::Server(ServerId(9)))),
            (5, Said::Abort(PAY, Why::Restarted(9))),
        ],
        Some(2),
    ),
    // its coordinator crashed between
    (
        &[
            (0, Said::Submit(PAY)),
            (3, Said::Crash(Actor::Coordinator(TxnId(PAY)))),
            (5, Said::Abort(PAY, Why::Halted)),
        ],
        None,
    ),
    (
        &[(0, Said::Submit(PAY)), (5, Said::Abort(PAY, Why::Halted))],
        Some(1),
    ),
    (
        &[
            (0, Said::Crash(Actor::Coordinator(TxnId(PAY)))),
            (1, Said::Submit(PAY)),
            (5, Said::Abort(PAY, Why::Halted)),
            (6, Said::Crash(Actor::Coordinator(TxnId(PAY)))),
        ],
        Some(2),
    ),
    (
        &[
            (0, Said::Submit(PAY)),
            (3, Said::Crash(Actor::Coordinator(TxnId(BACK)))),
            (3, Said::Crash(Actor::Server(ServerId(0)))),
            (3, Said::Crash(Actor::Master)),
            (5, Said::Abort(PAY, Why::Halted)),
        ],
        Some(4),
    ),
    // no transaction that is declared
    (
        &[
            (0, Said::Submit(99)),
            (3, Said::Crash(Actor::Coordinator(TxnId(99)))),
            (5, Said::Abort(99, Why::Halted)),
        ],
        Some(2),
    ),
    // a commit needs no cause
    (
        &[(0, Said::Submit(PAY)), (5, Said::Commit(PAY, NOTHING))],
        None,
    ),
];

#[test]
fn shows_causes(rt: HostRuntime) {
    decide(&rt, Sense::Causes, CASES);
}
