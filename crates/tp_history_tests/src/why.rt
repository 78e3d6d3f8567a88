//! The lines below decisions, and what shows a denial.
use crate::scenario::{BOBS, EVES, HR, IT, OVER, PAY, SOON, SURE, scenario};
use crate::story::{Basis, Claim, Evidence, NOTHING, Said, Story, Why, told};
use crate::trial::{PROVED, READS, WRITES};
use crate::verdict::assert_case;
use std::process::Abort;
use tp_types::{
    AdminId, Denied, Died, Fact, List, NoMemory, OutOfRange, Scenario, ServerId, TxnId, Version,
};
use tp_why::{FalseAtom, denial_of, is_denial_shown, put_behind_lines, put_why_lines};

/// A denial of the first query at s0, under version 1 of HR, at 2.
const DENIAL: Denied = Denied {
    query: 1,
    server: ServerId(0),
    admin: AdminId(HR),
    version: Version(1),
    place: 2,
};

/// Of the write of x by PAY, which wants a role and a grade.
const UNGRADED: Denied = Denied {
    query: 2,
    version: Version(2),
    ..DENIAL
};

/// Of the same, where no rule is left.
const RULELESS: Denied = Denied {
    version: Version(3),
    ..UNGRADED
};

/// Of the read of y by PAY, which wants a low grade or a role.
const NEITHER: Denied = Denied {
    query: 1,
    server: ServerId(1),
    admin: AdminId(IT),
    version: Version(2),
    place: 2,
};

/// PAY with its proofs under the first versions.
const PAID: Basis = Basis {
    rounds: 1,
    evidence: PROVED,
    ..NOTHING
};

/// Two instances, the last of which has the second version of HR.
const UPDATED: Basis = Basis {
    evidence: &[
        Evidence {
            reading: None,
            claims: &[READS, WRITES],
        },
        Evidence {
            reading: None,
            claims: &[
                READS,
                Claim {
                    version: 2,
                    ..WRITES
                },
            ],
        },
    ],
    ..PAID
};

/// A history, and the lines below its last fact.
type Case = (Story<'static>, &'static str);

const CASES: &[Case] = &[
    // nothing is presented, the role has ended, was revoked, or has not begun
    (
        &[
            (0, Said::Submit(EVES)),
            (5, Said::Abort(EVES, Why::Denied(DENIAL))),
        ],
        "5 why query write x clock 1\n5 why rule 1 ca.role = clerk absent\n",
    ),
    (
        &[
            (0, Said::Submit(SURE)),
            (1, Said::Tick(9)),
            (3, Said::Tick(7)),
            (5, Said::Abort(SURE, Why::Denied(DENIAL))),
        ],
        "5 why query write x clock 10\n5 why rule 1 ca.role = clerk late card\n",
    ),
    (
        &[
            (0, Said::Submit(SURE)),
            (1, Said::Revoke(0)),
            (5, Said::Abort(SURE, Why::Denied(DENIAL))),
        ],
        "5 why query write x clock 1\n5 why rule 1 ca.role = clerk revoked card\n",
    ),
    (
        &[
            (0, Said::Submit(SOON)),
            (5, Said::Abort(SOON, Why::Denied(DENIAL))),
        ],
        "5 why query write x clock 1\n5 why rule 1 ca.role = clerk early card\n",
    ),
    // of an And the first that is false, and of an Or all
    (
        &[
            (0, Said::Submit(PAY)),
            (1, Said::Revoke(1)),
            (5, Said::Abort(PAY, Why::Denied(UNGRADED))),
        ],
        "5 why query write x clock 1\n5 why held card ca.role = clerk\n5 why held card cb.role = clerk\n5 why rule 1 ca.grade >= 3 revoked card\n",
    ),
    (
        &[
            (0, Said::Submit(PAY)),
            (1, Said::Tick(9)),
            (5, Said::Abort(PAY, Why::Denied(NEITHER))),
        ],
        "5 why query read y clock 10\n5 why held card ca.grade = 3\n5 why held card cb.role = clerk\n5 why rule 1 ca.grade <= 2 value card\n5 why rule 1 ca.role = clerk late card\n",
    ),
    // no rule, no such query, and no such transaction
    (
        &[
            (0, Said::Submit(PAY)),
            (1, Said::Tick(9)),
            (5, Said::Abort(PAY, Why::Denied(RULELESS))),
        ],
        "5 why query write x clock 10\n5 why held card ca.grade = 3\n5 why held card cb.role = clerk\n5 why norule\n",
    ),
    (
        &[
            (0, Said::Submit(EVES)),
            (5, Said::Abort(EVES, Why::Denied(UNGRADED))),
        ],
        "",
    ),
    (
        &[
            (0, Said::Submit(99)),
            (5, Said::Abort(99, Why::Denied(DENIAL))),
        ],
        "",
    ),
    // a value out of range, a death, and a halt
    (
        &[
            (0, Said::Submit(OVER)),
            (
                5,
                Said::Abort(
                    OVER,
                    Why::No(OutOfRange {
                        query: 2,
                        server: ServerId(0),
                        value: 101,
                    }),
                ),
            ),
        ],
        "5 why range x 0 100\n",
    ),
    (
        &[
            (0, Said::Submit(BOBS)),
            (2, Said::Submit(SURE)),
            (
                5,
                Said::Abort(
                    SURE,
                    Why::Died(Died {
                        query: 1,
                        server: ServerId(0),
                        other: TxnId(BOBS),
                        place: 3,
                    }),
                ),
            ),
        ],
        "5 why older t 0 t 2\n",
    ),
    (
        &[(0, Said::Submit(PAY)), (5, Said::Abort(PAY, Why::Halted))],
        "",
    ),
    // a version was published before the commit, at its own place, or none that it does not have
    (
        &[
            (0, Said::Submit(PAY)),
            (3, Said::Publish(HR, 2)),
            (4, Said::Publish(IT, 2)),
            (5, Said::Commit(PAY, PAID)),
        ],
        "5 behind hr 1 2\n5 behind it 1 2\n",
    ),
    (
        &[
            (0, Said::Submit(PAY)),
            (5, Said::Publish(HR, 2)),
            (5, Said::Commit(PAY, PAID)),
        ],
        "",
    ),
    (
        &[
            (0, Said::Submit(PAY)),
            (3, Said::Publish(HR, 2)),
            (5, Said::Commit(PAY, UPDATED)),
        ],
        "",
    ),
    (
        &[(0, Said::Submit(PAY)), (5, Said::Commit(PAY, NOTHING))],
        "",
    ),
];

/// Puts the lines below a fact.
fn put_below(
    rt: &(impl Abort + AllocGlobal),
    out: &mut Vec<u8>,
    scenario: &Scenario,
    facts: &List<Fact>,
    fact: &Fact,
) -> Result<(), NoMemory> {
    put_why_lines(rt.alloc(), out, scenario, facts.as_slice(), fact)?;
    put_behind_lines(rt.alloc(), out, scenario, facts.as_slice(), fact)
}

/// Whether just these lines stand below the last fact of a history.
fn is_told(
    rt: &(impl Abort + AllocGlobal),
    scenario: &Scenario,
    facts: List<Fact>,
    lines: &str,
) -> bool {
    let mut out = Vec::new(rt.alloc());
    if let Some(last) = facts.as_slice().last() {
        put_below(rt, &mut out, scenario, &facts, last).expect(rt, "memory for lines");
    }
    drop(facts);
    out.as_slice() == lines.as_bytes()
}

#[test]
fn tells_why(rt: HostRuntime) {
    let scenario = scenario(&rt);
    for (at, (story, lines)) in CASES.iter().enumerate() {
        let facts = told(&rt, *story);
        let holds = is_told(&rt, &scenario, facts, lines);
        assert_case(&rt, at, holds);
    }
    drop(scenario);
}

/// Whether atoms show a denial.
fn is_shown(
    rt: &(impl Abort + AllocGlobal),
    scenario: &Scenario,
    facts: &List<Fact>,
    txn: u32,
    denied: &Denied,
    atoms: &List<FalseAtom>,
) -> bool {
    let declared = scenario.txns.get(txn as usize).expect(rt, "a transaction");
    let facts = facts.as_slice();
    is_denial_shown(
        rt.alloc(),
        scenario,
        facts,
        declared,
        denied,
        atoms.as_slice(),
    )
    .expect(rt, "memory for what is held")
}

/// The atoms that show a denial.
fn shown_by(
    rt: &(impl Abort + AllocGlobal),
    scenario: &Scenario,
    facts: &List<Fact>,
    txn: u32,
    denied: &Denied,
) -> List<FalseAtom> {
    let declared = scenario.txns.get(txn as usize).expect(rt, "a transaction");
    denial_of(rt.alloc(), scenario, facts.as_slice(), declared, denied).expect(
        rt,
        "memory for atoms",
    )
}

#[test]
fn shows_a_denial(rt: HostRuntime) {
    let scenario = scenario(&rt);
    let facts = told(&rt, &[(0, Said::Submit(PAY)), (1, Said::Tick(9))]);
    let mut atoms = shown_by(&rt, &scenario, &facts, PAY, &NEITHER);
    assert_eq!(rt; atoms.len(), 2);
    assert!(rt; is_shown(&rt, &scenario, &facts, PAY, &NEITHER, &atoms));
    atoms.truncate(1);
    assert!(rt; !is_shown(&rt, &scenario, &facts, PAY, &NEITHER, &atoms));
    drop(atoms);
    drop(facts);
    drop(scenario);
}

#[test]
fn shows_no_denial_of_what_is_allowed(rt: HostRuntime) {
    let scenario = scenario(&rt);
    let facts = told(&rt, &[(0, Said::Submit(BOBS))]);
    let atoms = shown_by(&rt, &scenario, &facts, BOBS, &DENIAL);
    assert!(rt; !is_shown(&rt, &scenario, &facts, BOBS, &DENIAL, &atoms));
    drop(atoms);
    drop(facts);
    drop(scenario);
}
