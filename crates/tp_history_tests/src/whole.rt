//! A history that is trusted in each sense, the one without facts, and the newest versions by its publications.
use crate::scenario::{EVES, HR, IT, PAY, scenario};
use crate::serial::PAID;
use crate::story::{Basis, Said, Story, Why, told};
use crate::trial::PROVED;
use crate::verdict::{Sense, assert_case, keep};
use std::process::Abort;
use tp_model::newest_at;
use tp_types::{AdminId, Denied, Fact, List, Outcome, Place, ServerId, Version};

/// PAY commits, and EVES aborts since she is denied.
const TRUSTED: Story = &[
    (0, Said::Submit(PAY)),
    (1, Said::Tick(8)),
    (3, Said::Publish(HR, 2)),
    (
        5,
        Said::Commit(
            PAY,
            Basis {
                rounds: 1,
                evidence: PROVED,
                deeds: PAID,
            },
        ),
    ),
    (6, Said::Settle(0, PAY, Outcome::Commit)),
    (7, Said::Settle(1, PAY, Outcome::Commit)),
    (7, Said::Submit(EVES)),
    (8, Said::Lose),
    (
        11,
        Said::Abort(
            EVES,
            Why::Denied(Denied {
                query: 1,
                server: ServerId(0),
                admin: AdminId(HR),
                version: Version(2),
                place: 9,
            }),
        ),
    ),
    (12, Said::Settle(0, EVES, Outcome::Abort)),
];

/// Whether a history is agreed, trusted, caused and serial.
fn is_kept(rt: &(impl Abort + AllocGlobal), story: Story) -> bool {
    let scenario = scenario(rt);
    let facts = told(rt, story);
    let agreed = keep(rt, Sense::Agreement, &scenario, &facts);
    let trusted = keep(rt, Sense::Trust, &scenario, &facts);
    let caused = keep(rt, Sense::Causes, &scenario, &facts);
    let serial = keep(rt, Sense::Serial, &scenario, &facts);
    drop(facts);
    drop(scenario);
    agreed && trusted && caused && serial
}

#[test]
fn is_trusted_in_each_sense(rt: HostRuntime) {
    assert!(rt; is_kept(&rt, TRUSTED));
    assert!(rt; is_kept(&rt, &[]));
}

/// Two publications of HR, and one of IT.
const PUBLISHED: Story = &[
    (2, Said::Publish(HR, 5)),
    (4, Said::Publish(IT, 2)),
    (4, Said::Publish(HR, 6)),
];

/// An administrator, its opening version, a place, and its newest version there.
type Newest = (u32, u32, Place, u32);

const NEWEST: &[Newest] = &[
    (HR, 4, 0, 4),
    (HR, 4, 2, 4),
    (HR, 4, 3, 5),
    (HR, 4, 4, 5),
    (HR, 4, 5, 6),
    (IT, 1, 9, 2),
    (7, 1, 9, 1),
];

fn is_newest(facts: &List<Fact>, case: &Newest) -> bool {
    let (admin, opening, place, newest) = *case;
    facts.len() < 1000
        && opening < 1000
        && newest_at(AdminId(admin), Version(opening), facts, place) == Version(newest)
}

#[test]
fn counts_publications_before_a_place(rt: HostRuntime) {
    let facts = told(&rt, PUBLISHED);
    for (at, case) in NEWEST.iter().enumerate() {
        assert_case(&rt, at, is_newest(&facts, case));
    }
    drop(facts);
}
