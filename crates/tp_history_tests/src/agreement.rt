//! Each way to break agreement, and histories that keep it.
use crate::scenario::{BACK, EVES, PAY};
use crate::story::{NOTHING, Said, Why};
use crate::verdict::{Case, Sense, decide};
use tp_types::{Actor, Outcome};

const DECISIONS: &[Case] = &[
    // submitted alone, and beside facts of other kinds
    (&[(0, Said::Submit(PAY))], None),
    (
        &[
            (0, Said::Submit(PAY)),
            (0, Said::Submit(BACK)),
            (1, Said::Tick(4)),
            (2, Said::Crash(Actor::Master)),
            (3, Said::Publish(0, 2)),
            (4, Said::Revoke(0)),
            (5, Said::Lose),
        ],
        None,
    ),
    // a commit, settled at both servers of PAY
    (
        &[
            (0, Said::Submit(PAY)),
            (5, Said::Commit(PAY, NOTHING)),
            (6, Said::Settle(0, PAY, Outcome::Commit)),
            (6, Said::Settle(1, PAY, Outcome::Commit)),
        ],
        None,
    ),
    // an abort, settled
    (
        &[
            (0, Said::Submit(PAY)),
            (5, Said::Abort(PAY, Why::Halted)),
            (6, Said::Settle(0, PAY, Outcome::Abort)),
        ],
        None,
    ),
    // an abort that is settled before it is decided, or never decided
    (
        &[
            (0, Said::Submit(PAY)),
            (4, Said::Settle(0, PAY, Outcome::Abort)),
            (5, Said::Abort(PAY, Why::Halted)),
        ],
        None,
    ),
    (
        &[
            (0, Said::Submit(PAY)),
            (4, Said::Settle(0, PAY, Outcome::Abort)),
        ],
        None,
    ),
    // submitted twice, at two places or at one: the second in the list is blamed
    (&[(0, Said::Submit(PAY)), (1, Said::Submit(PAY))], Some(1)),
    (&[(1, Said::Submit(PAY)), (0, Said::Submit(PAY))], Some(1)),
    (
        &[
            (0, Said::Submit(BACK)),
            (1, Said::Submit(PAY)),
            (1, Said::Submit(PAY)),
        ],
        Some(2),
    ),
    // decided twice, so or so
    (
        &[
            (0, Said::Submit(PAY)),
            (4, Said::Commit(PAY, NOTHING)),
            (5, Said::Commit(PAY, NOTHING)),
        ],
        Some(2),
    ),
    (
        &[
            (0, Said::Submit(PAY)),
            (4, Said::Commit(PAY, NOTHING)),
            (5, Said::Abort(PAY, Why::Halted)),
        ],
        Some(2),
    ),
    // decided before the submission, at its place, or without one
    (
        &[(1, Said::Commit(PAY, NOTHING)), (3, Said::Submit(PAY))],
        Some(0),
    ),
    (
        &[(3, Said::Submit(PAY)), (3, Said::Commit(PAY, NOTHING))],
        Some(1),
    ),
    (&[(3, Said::Abort(PAY, Why::Halted))], Some(0)),
    (
        &[(0, Said::Submit(BACK)), (3, Said::Abort(PAY, Why::Halted))],
        Some(1),
    ),
];

#[test]
fn agrees_on_decisions(rt: HostRuntime) {
    decide(&rt, Sense::Agreement, DECISIONS);
}

const SETTLEMENTS: &[Case] = &[
    // settled twice at one server
    (
        &[
            (0, Said::Submit(PAY)),
            (5, Said::Commit(PAY, NOTHING)),
            (6, Said::Settle(0, PAY, Outcome::Commit)),
            (7, Said::Settle(0, PAY, Outcome::Commit)),
        ],
        Some(3),
    ),
    (
        &[
            (0, Said::Submit(PAY)),
            (5, Said::Settle(0, PAY, Outcome::Abort)),
            (7, Said::Settle(0, PAY, Outcome::Abort)),
        ],
        Some(2),
    ),
    // settled at a server without an item of it, or at none that is declared
    (
        &[
            (0, Said::Submit(PAY)),
            (5, Said::Commit(PAY, NOTHING)),
            (6, Said::Settle(2, PAY, Outcome::Commit)),
        ],
        Some(2),
    ),
    (
        &[
            (0, Said::Submit(PAY)),
            (6, Said::Settle(9, PAY, Outcome::Abort)),
        ],
        Some(1),
    ),
    // settled before the submission, without one, or of no transaction that is declared
    (
        &[
            (1, Said::Settle(0, PAY, Outcome::Abort)),
            (2, Said::Submit(PAY)),
        ],
        Some(0),
    ),
    (
        &[
            (0, Said::Submit(BACK)),
            (1, Said::Settle(0, PAY, Outcome::Abort)),
        ],
        Some(1),
    ),
    (
        &[
            (0, Said::Submit(99)),
            (1, Said::Settle(0, 99, Outcome::Abort)),
        ],
        Some(1),
    ),
    // a commit is settled before it was decided, at that place, without it, or after that of another
    (
        &[
            (0, Said::Submit(PAY)),
            (4, Said::Settle(0, PAY, Outcome::Commit)),
            (5, Said::Commit(PAY, NOTHING)),
        ],
        Some(1),
    ),
    (
        &[
            (0, Said::Submit(PAY)),
            (5, Said::Commit(PAY, NOTHING)),
            (5, Said::Settle(0, PAY, Outcome::Commit)),
        ],
        Some(2),
    ),
    (
        &[
            (0, Said::Submit(PAY)),
            (5, Said::Settle(0, PAY, Outcome::Commit)),
        ],
        Some(1),
    ),
    (
        &[
            (0, Said::Submit(PAY)),
            (0, Said::Submit(EVES)),
            (4, Said::Commit(EVES, NOTHING)),
            (5, Said::Settle(0, PAY, Outcome::Commit)),
        ],
        Some(3),
    ),
    // a commit is settled of an abort; an abort beside a commit, which may come later: the abort is blamed, and not the commit
    (
        &[
            (0, Said::Submit(PAY)),
            (4, Said::Abort(PAY, Why::Halted)),
            (5, Said::Settle(0, PAY, Outcome::Commit)),
        ],
        Some(2),
    ),
    (
        &[
            (0, Said::Submit(PAY)),
            (4, Said::Commit(PAY, NOTHING)),
            (5, Said::Settle(0, PAY, Outcome::Abort)),
        ],
        Some(2),
    ),
    (
        &[
            (0, Said::Submit(PAY)),
            (4, Said::Settle(0, PAY, Outcome::Abort)),
            (5, Said::Commit(PAY, NOTHING)),
        ],
        Some(1),
    ),
];

#[test]
fn agrees_on_settlements(rt: HostRuntime) {
    decide(&rt, Sense::Agreement, SETTLEMENTS);
}
