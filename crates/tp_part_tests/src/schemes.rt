//! What is done next under each scheme, and what a transaction gathers.
use crate::made::list;
use std::process::Abort;
use tp_scheme::{Gathered, Move, Point, next_move};
use tp_types::{
    AdminId, Cause, Instance, Level, List, Place, Reading, Scheme, ServerId, Verdict, Version,
};

// ---- moves

/// The moves of a transaction of two queries, from its beginning to the decision.
const WAYS: &[(Scheme, Level, &[Move])] = &[
    (Scheme::Deferred, Level::View, AT_COMMIT),
    (Scheme::Deferred, Level::Global, AT_COMMIT),
    (Scheme::Punctual, Level::View, AS_IT_RUNS_AND_AT_COMMIT),
    (Scheme::Punctual, Level::Global, AS_IT_RUNS_AND_AT_COMMIT),
    (Scheme::Incremental, Level::View, AS_IT_RUNS),
    (Scheme::Incremental, Level::Global, AS_IT_RUNS_WITH_READINGS),
    (Scheme::Continuous, Level::View, ALL_SO_FAR),
    (Scheme::Continuous, Level::Global, ALL_SO_FAR),
];

const AT_COMMIT: &[Move] = &[
    Move::SendQuery,
    Move::Following,
    Move::SendQuery,
    Move::Following,
    Move::CommitRounds,
    Move::Decide,
];

const AS_IT_RUNS_AND_AT_COMMIT: &[Move] = &[
    Move::Ask,
    Move::SendQuery,
    Move::Following,
    Move::Ask,
    Move::SendQuery,
    Move::Following,
    Move::CommitRounds,
    Move::Decide,
];

const AS_IT_RUNS: &[Move] = &[
    Move::Ask,
    Move::SendQuery,
    Move::Following,
    Move::Ask,
    Move::SendQuery,
    Move::Following,
    Move::Votes,
    Move::Decide,
];

const AS_IT_RUNS_WITH_READINGS: &[Move] = &[
    Move::Ask,
    Move::SendQuery,
    Move::Probe,
    Move::Following,
    Move::Ask,
    Move::SendQuery,
    Move::Probe,
    Move::Following,
    Move::Votes,
    Move::Probe,
    Move::Decide,
];

const ALL_SO_FAR: &[Move] = &[
    Move::SendQuery,
    Move::Validate,
    Move::Following,
    Move::SendQuery,
    Move::Validate,
    Move::Following,
    Move::CommitRounds,
    Move::Decide,
];

/// The point that is come to once a move is done.
fn point_after(point: Point, done: Move) -> Point {
    match (point, done) {
        (Point::Begun { query }, Move::Ask) => Point::Stapled { query },
        (Point::Begun { query }, Move::SendQuery) => Point::Ran { query },
        (Point::Begun { .. }, _) => Point::Voted,
        (Point::Stapled { query }, _) => Point::Ran { query },
        (Point::Ran { query }, Move::Probe) => Point::Read { query },
        (Point::Ran { query }, Move::Validate) => Point::Validated { query },
        (Point::Ran { query } | Point::Read { query } | Point::Validated { query }, _) => {
            Point::Begun {
                query: query.saturating_add(1),
            }
        }
        (Point::Voted | Point::VoteRead, _) => Point::VoteRead,
    }
}

fn takes(scheme: Scheme, level: Level, way: &[Move]) -> bool {
    let mut point = Point::Begun { query: 1 };
    for wanted in way {
        if next_move(scheme, level, 2, point) != *wanted {
            return false;
        }
        point = point_after(point, *wanted);
    }
    true
}

#[test]
fn each_scheme_takes_its_way(rt: HostRuntime) {
    for (scheme, level, way) in WAYS {
        assert!(rt; takes(*scheme, *level, way));
    }
}

// ---- what is gathered

const HR: AdminId = AdminId(0);

const BILLING: AdminId = AdminId(1);

fn proof(rt: &impl AllocGlobal, query: u32, admin: AdminId, version: u32) -> Verdict {
    Verdict {
        query,
        server: ServerId(0),
        admin,
        version: Version(version),
        place: 3,
        rule: Some(1),
        uses: List::new(rt.alloc()),
    }
}

/// What is gathered of proofs by query, administrator and version.
fn gathered(rt: &(impl Abort + AllocGlobal), proofs: &[(u32, AdminId, u32)]) -> Gathered {
    let mut made = Gathered::new(rt.alloc());
    for (query, admin, version) in proofs {
        made.add(proof(rt, *query, *admin, *version))
            .expect(rt, "memory for a proof");
    }
    made
}

/// The versions that are newer, where a reading of these versions finds one: the used and the found.
fn newer<const N: usize>(
    rt: &(impl Abort + AllocGlobal),
    gathered: &Gathered,
    newest: [Version; N],
) -> Option<(AdminId, u32, u32)> {
    let reading = Reading {
        place: 5,
        newest: list(rt, newest),
    };
    let why = gathered.older(&reading);
    drop(reading);
    match why {
        Some(Cause::Newer(newer)) => Some((newer.admin, newer.used.0, newer.found.0)),
        _ => None,
    }
}

#[test]
fn a_reading_finds_a_newer_version(rt: HostRuntime) {
    let gathered = gathered(&rt, &[(1, HR, 1)]);
    let found = newer(&rt, &gathered, [Version(2)]);
    drop(gathered);
    assert!(rt; found == Some((HR, 1, 2)));
}

#[test]
fn the_first_proof_pins_and_the_first_below_is_found(rt: HostRuntime) {
    let gathered = gathered(&rt, &[(1, HR, 2), (2, BILLING, 1), (3, HR, 3)]);
    let pinned = gathered.pin_of(HR) == Some(Version(2))
        && gathered.pin_of(BILLING) == Some(Version(1))
        && gathered.pin_of(AdminId(2)).is_none();
    let first = newer(&rt, &gathered, [Version(4), Version(2)]) == Some((HR, 2, 4));
    let later = newer(&rt, &gathered, [Version(2), Version(2)]) == Some((BILLING, 1, 2));
    let none = newer(&rt, &gathered, [Version(2), Version(1)]).is_none();
    drop(gathered);
    assert!(rt; pinned && first && later && none);
}

/// Whether just these proofs are kept, each by its query and its version.
fn has_proofs(kept: &List<Verdict>, wanted: &[(u32, u32)]) -> bool {
    for (at, (query, version)) in wanted.iter().enumerate() {
        match kept.get(at) {
            None => return false,
            Some(proof) => {
                if proof.query != *query || proof.version.0 != *version {
                    return false;
                }
            }
        }
    }
    kept.len() == wanted.len()
}

/// Whether this instance stands at the place.
fn is_closed(
    gathered: &Gathered,
    at: usize,
    reading: Option<Place>,
    proofs: &[(u32, u32)],
) -> bool {
    match gathered.instances().get(at) {
        None => false,
        Some(instance) => instance.reading == reading && has_proofs(&instance.proofs, proofs),
    }
}

#[test]
fn instances_stay_in_order(rt: HostRuntime) {
    let mut gathered = gathered(&rt, &[(1, HR, 2)]);
    let closed = gathered.close(rt.alloc(), Some(7)).is_ok()
        && gathered.add(proof(&rt, 2, BILLING, 1)).is_ok()
        && gathered.close(rt.alloc(), None).is_ok();
    let of_a_round = Instance {
        reading: Some(9),
        proofs: list(&rt, [proof(&rt, 2, BILLING, 4)]),
    };
    let added = gathered.closes(of_a_round).is_ok();
    let kept = is_closed(&gathered, 0, Some(7), &[(1, 2)])
        && is_closed(&gathered, 1, None, &[(1, 2), (2, 1)])
        && is_closed(&gathered, 2, Some(9), &[(2, 4)])
        && gathered.instances().len() == 3
        && has_proofs(gathered.proofs(), &[(1, 2), (2, 1)]);
    drop(gathered);
    assert!(rt; closed && added && kept);
}
