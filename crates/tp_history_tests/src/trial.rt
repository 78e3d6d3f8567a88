//! Commits of a transaction at 5, by what they rest on, and whether each is trusted.
use crate::scenario::{HR, IT, PAY, scenario};
use crate::story::{Basis, Claim, Evidence, NOTHING, Said, Story, tell};
use crate::verdict::{Sense, assert_case, breaches, keep};
use std::process::Abort;
use tp_types::{Fact, List, Scenario};

/// The proof of the read of y by PAY.
pub const READS: Claim = Claim {
    query: 1,
    server: 1,
    admin: IT,
    version: 1,
    place: 2,
    rule: Some(1),
    uses: &[],
};

/// The proof of the write of x by PAY.
pub const WRITES: Claim = Claim {
    query: 2,
    server: 0,
    admin: HR,
    version: 1,
    place: 2,
    rule: Some(1),
    uses: &[0],
};

/// The instance of these two.
pub const PROVED: &[Evidence] = &[Evidence {
    reading: None,
    claims: &[READS, WRITES],
}];

/// A commit at 5 of a transaction that was submitted at 0, between other facts, and whether it is trusted.
#[derive(Clone, Copy)]
pub struct Trial {
    pub txn: u32,
    pub before: Story<'static>,
    pub rounds: u32,
    pub evidence: &'static [Evidence<'static>],
    pub after: Story<'static>,
    pub trusted: bool,
}

/// PAY, proved at 2.
pub const PAID: Trial = Trial {
    txn: PAY,
    before: &[],
    rounds: 1,
    evidence: PROVED,
    after: &[],
    trusted: true,
};

/// PAY, with something that is not to be trusted.
pub const UNPAID: Trial = Trial {
    trusted: false,
    ..PAID
};

fn facts(rt: &(impl Abort + AllocGlobal), trial: &Trial) -> List<Fact> {
    let mut made = List::new(rt.alloc());
    let basis = Basis {
        rounds: trial.rounds,
        evidence: trial.evidence,
        ..NOTHING
    };
    tell(rt, &mut made, &[(0, Said::Submit(trial.txn))]);
    tell(rt, &mut made, trial.before);
    tell(rt, &mut made, &[(5, Said::Commit(trial.txn, basis))]);
    tell(rt, &mut made, trial.after);
    made
}

/// Whether the commit of a trial alone keeps trust or does not.
fn is_tried(rt: &(impl Abort + AllocGlobal), scenario: &Scenario, trial: &Trial) -> bool {
    let facts = facts(rt, trial);
    let (first, last) = breaches(rt, Sense::Trust, scenario, &facts);
    let kept = keep(rt, Sense::Trust, scenario, &facts);
    drop(facts);
    let commit = trial.before.len() + 1;
    let breach = if trial.trusted { None } else { Some(commit) };
    first == breach && last == breach && kept == trial.trusted
}

/// Judges each trial of a table.
pub fn decide(rt: &(impl Abort + AllocGlobal), trials: &[Trial]) {
    let scenario = scenario(rt);
    for (at, trial) in trials.iter().enumerate() {
        assert_case(rt, at, is_tried(rt, &scenario, trial));
    }
    drop(scenario);
}
