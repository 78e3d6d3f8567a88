//! Commits at 9 of a transaction with two queries on y, by the instances that they rest on, and whether each is
//! trusted.
use crate::scenario::{IT, ids, scenario};
use crate::story::{Said, Story, tell};
use crate::verdict::{Sense, assert_case, breaches, keep};
use std::process::Abort;
use tp_types::{
    AdminId, CommitRecord, Decision, Fact, Instance, List, Scenario, ServerId, TxnId, Verdict,
    Version, What,
};

/// A true proof of a query on y: the query, the version, and the place.
pub type Proof = (u32, u32, u64);

/// An instance: its proofs, and its reading.
pub type Group = (&'static [Proof], Option<u64>);

/// A commit at 9 of a transaction that was submitted at 0, with other facts between, and whether it is trusted.
#[derive(Clone, Copy)]
pub struct Attempt {
    pub txn: u32,
    pub between: Story<'static>,
    pub rounds: u32,
    pub groups: &'static [Group],
    pub trusted: bool,
}

/// Version 2 of the administrator of y is published at 1.
pub const SOON_NEWER: Story = &[(1, Said::Publish(IT, 2))];

fn proof(rt: &(impl Abort + AllocGlobal), one: Proof) -> Verdict {
    let (query, version, place) = one;
    Verdict {
        query,
        server: ServerId(1),
        admin: AdminId(IT),
        version: Version(version),
        place,
        rule: Some(1),
        uses: ids(rt, &[0]),
    }
}

fn instance(rt: &(impl Abort + AllocGlobal), group: Group) -> Instance {
    let (claims, reading) = group;
    let mut proofs = List::new(rt.alloc());
    for one in claims {
        let proof = proof(rt, *one);
        proofs.push(proof).expect(rt, "memory for a proof");
    }
    Instance { reading, proofs }
}

fn commit(rt: &(impl Abort + AllocGlobal), attempt: &Attempt) -> Fact {
    let mut instances = List::new(rt.alloc());
    for group in attempt.groups {
        let instance = instance(rt, *group);
        instances
            .push(instance)
            .expect(rt, "memory for an instance");
    }
    let committed = CommitRecord {
        rounds: attempt.rounds,
        instances,
        deeds: List::new(rt.alloc()),
    };
    Fact {
        place: 9,
        what: What::Decided(TxnId(attempt.txn), Decision::Commit(committed)),
    }
}

fn facts(rt: &(impl Abort + AllocGlobal), attempt: &Attempt) -> List<Fact> {
    let mut made = List::new(rt.alloc());
    tell(rt, &mut made, &[(0, Said::Submit(attempt.txn))]);
    tell(rt, &mut made, attempt.between);
    let commit = commit(rt, attempt);
    made.push(commit).expect(rt, "memory for a commit");
    made
}

/// Whether the commit of an attempt alone keeps trust or does not.
fn is_attempted(rt: &(impl Abort + AllocGlobal), scenario: &Scenario, attempt: &Attempt) -> bool {
    let facts = facts(rt, attempt);
    let (first, last) = breaches(rt, Sense::Trust, scenario, &facts);
    let kept = keep(rt, Sense::Trust, scenario, &facts);
    drop(facts);
    let commit = attempt.between.len() + 1;
    let breach = if attempt.trusted { None } else { Some(commit) };
    first == breach && last == breach && kept == attempt.trusted
}

/// Judges each attempt of a table.
pub fn decide(rt: &(impl Abort + AllocGlobal), attempts: &[Attempt]) {
    let scenario = scenario(rt);
    for (at, attempt) in attempts.iter().enumerate() {
        assert_case(rt, at, is_attempted(rt, &scenario, attempt));
    }
    drop(scenario);
}
