//! Aborts since a newer version was found, or since each of the rounds met one, and each way in which a history does
//! not show it.
use crate::scenario::{
    BACK, BOTH, BOTH_ANEW, BOTH_SURE, CONTINUOUS, CONTINUOUS_SURE, DEFERRED_SURE, HR, INCREMENTAL,
    INCREMENTAL_SURE, IT, PUNCTUAL, PUNCTUAL_SURE, scenario,
};
use crate::story::{Said, Story, Why, tell};
use crate::verdict::{Sense, assert_case, is_judged};
use std::process::Abort;
use tp_types::{AdminId, Fact, List, Met, Newer, Place, Scenario, Version};

/// A transaction that was submitted at 1, the place of its abort, why it aborted, and whether the history shows that.
type Case = (u32, Place, Why<'static>, bool);

/// The newest version of IT is 1 up to 2, then 2 up to 4, 3 up to 6, 4 up to 7, and 5; that of HR is 1 up to 4, and 2.
const PUBLISHED: Story = &[
    (2, Said::Publish(IT, 2)),
    (4, Said::Publish(IT, 3)),
    (4, Said::Publish(HR, 2)),
    (6, Said::Publish(IT, 4)),
    (7, Said::Publish(IT, 5)),
];

fn facts(rt: &(impl Abort + AllocGlobal), case: &Case) -> List<Fact> {
    let (txn, place, why, _) = *case;
    let mut made = List::new(rt.alloc());
    tell(rt, &mut made, &[(1, Said::Submit(txn))]);
    tell(rt, &mut made, PUBLISHED);
    tell(rt, &mut made, &[(place, Said::Abort(txn, why))]);
    made
}

/// Whether the abort of a case has its cause or has not.
fn is_told(rt: &(impl Abort + AllocGlobal), scenario: &Scenario, case: &Case) -> bool {
    let facts = facts(rt, case);
    let (_, _, _, shown) = *case;
    let breach = if shown {
        None
    } else {
        Some(PUBLISHED.len() + 1)
    };
    is_judged(rt, Sense::Causes, scenario, facts, breach)
}

fn decide(rt: &(impl Abort + AllocGlobal), cases: &[Case]) {
    let scenario = scenario(rt);
    for (at, case) in cases.iter().enumerate() {
        assert_case(rt, at, is_told(rt, &scenario, case));
    }
    drop(scenario);
}

// ---- a newer version

/// Version 2 of IT was found where 1 was used.
const FOUND: Newer = Newer {
    admin: AdminId(IT),
    used: Version(1),
    found: Version(2),
};

/// The same of HR.
const OF_HR: Newer = Newer {
    admin: AdminId(HR),
    ..FOUND
};

/// Version 5 of IT was found.
const LAST: Newer = Newer {
    found: Version(5),
    ..FOUND
};

const NEWER: &[Case] = &[
    (INCREMENTAL, 9, Why::Newer(FOUND), true),
    (INCREMENTAL_SURE, 9, Why::Newer(FOUND), true),
    // another scheme
    (BACK, 9, Why::Newer(FOUND), false),
    (PUNCTUAL, 9, Why::Newer(FOUND), false),
    (CONTINUOUS, 9, Why::Newer(FOUND), false),
    (CONTINUOUS_SURE, 9, Why::Newer(FOUND), false),
    // what is found is used already, or older
    (
        INCREMENTAL,
        9,
        Why::Newer(Newer {
            used: Version(2),
            ..FOUND
        }),
        false,
    ),
    (
        INCREMENTAL,
        9,
        Why::Newer(Newer {
            used: Version(3),
            ..FOUND
        }),
        false,
    ),
    // it is the newest at the decision, published at its place, and never published
    (INCREMENTAL, 9, Why::Newer(LAST), true),
    (INCREMENTAL, 8, Why::Newer(LAST), true),
    (INCREMENTAL, 7, Why::Newer(LAST), false),
    (
        INCREMENTAL,
        9,
        Why::Newer(Newer {
            found: Version(6),
            ..FOUND
        }),
        false,
    ),
    // an administrator of no query
    (INCREMENTAL_SURE, 9, Why::Newer(OF_HR), false),
    // of one query, where the master is read and where it is not
    (BOTH_SURE, 9, Why::Newer(FOUND), true),
    (BOTH_SURE, 9, Why::Newer(OF_HR), true),
    (BOTH, 9, Why::Newer(FOUND), false),
    (BOTH, 9, Why::Newer(OF_HR), false),
];

#[test]
fn shows_newer_versions(rt: HostRuntime) {
    decide(&rt, NEWER);
}

// ---- rounds

/// Version 2 of IT was met at 3, where 1 was used.
const ONE: Met = Met {
    admin: AdminId(IT),
    used: Version(1),
    newest: Version(2),
    place: 3,
};

/// Then version 3 at 5.
const TWO: Met = Met {
    used: Version(2),
    newest: Version(3),
    place: 5,
    ..ONE
};

/// Then version 4 at 7.
const THREE: Met = Met {
    used: Version(3),
    newest: Version(4),
    place: 7,
    ..ONE
};

/// Then version 5 at 8.
const FOUR: Met = Met {
    used: Version(4),
    newest: Version(5),
    place: 8,
    ..ONE
};

/// Version 1 of IT at 2.
const ZERO: Met = Met {
    used: Version(0),
    newest: Version(1),
    place: 2,
    ..ONE
};

/// Version 2 of HR at 5.
const TWO_OF_HR: Met = Met {
    admin: AdminId(HR),
    used: Version(1),
    newest: Version(2),
    place: 5,
};

const ROUNDS: &[Case] = &[
    (DEFERRED_SURE, 9, Why::Rounds(&[ONE, TWO, THREE]), true),
    (PUNCTUAL_SURE, 9, Why::Rounds(&[ONE, TWO, THREE]), true),
    (CONTINUOUS_SURE, 9, Why::Rounds(&[ONE, TWO, THREE]), true),
    // incremental, and view consistency
    (INCREMENTAL_SURE, 9, Why::Rounds(&[ONE, TWO, THREE]), false),
    (BACK, 9, Why::Rounds(&[ONE, TWO, THREE]), false),
    (PUNCTUAL, 9, Why::Rounds(&[ONE, TWO, THREE]), false),
    (CONTINUOUS, 9, Why::Rounds(&[ONE, TWO, THREE]), false),
    // fewer than the limit of three, none, and one more
    (DEFERRED_SURE, 9, Why::Rounds(&[ONE, TWO]), false),
    (DEFERRED_SURE, 9, Why::Rounds(&[]), false),
    (
        DEFERRED_SURE,
        9,
        Why::Rounds(&[ONE, TWO, THREE, FOUR]),
        false,
    ),
    // just after the submission, and at it
    (DEFERRED_SURE, 9, Why::Rounds(&[ZERO, ONE, TWO]), true),
    (
        DEFERRED_SURE,
        9,
        Why::Rounds(&[Met { place: 1, ..ZERO }, ONE, TWO]),
        false,
    ),
    // just before the decision, and at it
    (DEFERRED_SURE, 8, Why::Rounds(&[ONE, TWO, THREE]), true),
    (DEFERRED_SURE, 7, Why::Rounds(&[ONE, TWO, THREE]), false),
    // of two administrators, and of one that no query is on
    (BOTH_ANEW, 9, Why::Rounds(&[ONE, TWO_OF_HR, THREE]), true),
    (
        DEFERRED_SURE,
        9,
        Why::Rounds(&[ONE, TWO_OF_HR, THREE]),
        false,
    ),
];

#[test]
fn shows_rounds(rt: HostRuntime) {
    decide(&rt, ROUNDS);
}

const VERSIONS: &[Case] = &[
    // any version that is older may be used in the first
    (
        DEFERRED_SURE,
        9,
        Why::Rounds(&[
            Met {
                used: Version(0),
                ..ONE
            },
            TWO,
            THREE,
        ]),
        true,
    ),
    // the one that is met, and a newer one
    (
        DEFERRED_SURE,
        9,
        Why::Rounds(&[
            Met {
                used: Version(2),
                ..ONE
            },
            TWO,
            THREE,
        ]),
        false,
    ),
    (
        DEFERRED_SURE,
        9,
        Why::Rounds(&[
            Met {
                used: Version(3),
                ..ONE
            },
            TWO,
            THREE,
        ]),
        false,
    ),
    // what is met is newer than the newest there, and older
    (
        DEFERRED_SURE,
        9,
        Why::Rounds(&[
            Met {
                newest: Version(3),
                ..ONE
            },
            TWO,
            THREE,
        ]),
        false,
    ),
    (
        DEFERRED_SURE,
        9,
        Why::Rounds(&[
            ONE,
            TWO,
            Met {
                newest: Version(5),
                ..THREE
            },
        ]),
        false,
    ),
    (
        DEFERRED_SURE,
        9,
        Why::Rounds(&[ZERO, Met { place: 5, ..ONE }, THREE]),
        false,
    ),
    // an older version is used than was the newest in the round before
    (
        DEFERRED_SURE,
        9,
        Why::Rounds(&[
            ONE,
            Met {
                used: Version(1),
                ..TWO
            },
            THREE,
        ]),
        false,
    ),
    (
        DEFERRED_SURE,
        9,
        Why::Rounds(&[
            ONE,
            TWO,
            Met {
                used: Version(2),
                ..THREE
            },
        ]),
        false,
    ),
    (
        BOTH_ANEW,
        9,
        Why::Rounds(&[
            ONE,
            Met {
                used: Version(0),
                ..TWO_OF_HR
            },
            THREE,
        ]),
        false,
    ),
    // a round at the place of the one before, which has then used what it met, and before it
    (
        DEFERRED_SURE,
        9,
        Why::Rounds(&[
            ONE,
            Met {
                used: Version(2),
                ..ONE
            },
            TWO,
        ]),
        false,
    ),
    (DEFERRED_SURE, 9, Why::Rounds(&[TWO, ONE, THREE]), false),
];

#[test]
fn shows_versions_that_rounds_met(rt: HostRuntime) {
    decide(&rt, VERSIONS);
}
