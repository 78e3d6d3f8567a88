//! What the judge says of a history.
use crate::scenario::scenario;
use crate::story::{Story, told};
use std::process::Abort;
use tp_audit::{
    is_agreed, is_caused, is_serial, is_trusted, keeps_agreement, keeps_causes, keeps_serial,
    keeps_trust,
};
use tp_types::{Fact, List, Scenario};

/// What a history, and each of its facts, is to keep.
#[derive(Clone, Copy)]
pub enum Sense {
    Agreement,
    Trust,
    Causes,
    Serial,
}

/// A history, and which of its facts is the first that does not keep a definition.
pub type Case = (Story<'static>, Option<usize>);

/// Whether a fact of a history keeps a definition, with the facts that stand before it.
pub fn keeps(
    rt: &(impl Abort + AllocGlobal),
    sense: Sense,
    scenario: &Scenario,
    facts: &List<Fact>,
    earlier: &[Fact],
    fact: &Fact,
) -> bool {
    match sense {
        Sense::Agreement => keeps_agreement(scenario, facts, earlier, fact),
        Sense::Trust => keeps_trust(scenario, facts, fact),
        Sense::Causes => {
            keeps_causes(rt.alloc(), scenario, facts, fact).expect(rt, "memory for a store")
        }
        Sense::Serial => {
            keeps_serial(rt.alloc(), scenario, facts, fact).expect(rt, "memory for a store")
        }
    }
}

/// Whether a history as a whole keeps a definition.
pub fn keep(
    rt: &(impl Abort + AllocGlobal),
    sense: Sense,
    scenario: &Scenario,
    facts: &List<Fact>,
) -> bool {
    match sense {
        Sense::Agreement => is_agreed(scenario, facts),
        Sense::Trust => is_trusted(scenario, facts),
        Sense::Causes => is_caused(rt.alloc(), scenario, facts).expect(rt, "memory for a store"),
        Sense::Serial => is_serial(rt.alloc(), scenario, facts).expect(rt, "memory for a store"),
    }
}

/// The first and the last fact of a history that do not keep a definition.
pub fn breaches(
    rt: &(impl Abort + AllocGlobal),
    sense: Sense,
    scenario: &Scenario,
    facts: &List<Fact>,
) -> (Option<usize>, Option<usize>) {
    let mut first = None;
    let mut last = None;
    for (at, fact) in facts.as_slice().iter().enumerate() {
        let (earlier, _) = facts.as_slice().split_at(at);
        if !keeps(rt, sense, scenario, facts, earlier, fact) {
            first = first.or(Some(at));
            last = Some(at);
        }
    }
    (first, last)
}

/// Asserts what is wanted of a case.
pub fn assert_case(rt: &impl Abort, at: usize, holds: bool) {
    assert!(*rt; holds, "case {at}");
}

/// Takes a history, and tells whether this fact is the first that does not keep a definition, and the whole keeps it where none
/// is.
pub fn is_judged(
    rt: &(impl Abort + AllocGlobal),
    sense: Sense,
    scenario: &Scenario,
    facts: List<Fact>,
    breach: Option<usize>,
) -> bool {
    let (first, _) = breaches(rt, sense, scenario, &facts);
    let kept = keep(rt, sense, scenario, &facts);
    drop(facts);
    first == breach && kept == breach.is_none()
}

/// Judges each history of a table.
pub fn decide(rt: &(impl Abort + AllocGlobal), sense: Sense, cases: &[Case]) {
    let scenario = scenario(rt);
    for (at, (story, breach)) in cases.iter().enumerate() {
        let facts = told(rt, *story);
        let holds = is_judged(rt, sense, &scenario, facts, *breach);
        assert_case(rt, at, holds);
    }
    drop(scenario);
}
