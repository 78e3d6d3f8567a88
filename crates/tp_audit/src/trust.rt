//! Trusted commits.
ghost use Rattle.std.specs.Prelude.{◌≡◌};
ghost use Rattle.std.specs.List.{list_all};
ghost use Rattle.tp_audit.specs.mirrors.Programs as program;
ghost use Rattle.tp_model.specs.Trust as trust;

use crate::authorisation::is_true_verdict;
use crate::demand::meets_demand;
use crate::facts::was_submitted;
use crate::versions::newest;
use tp_types::{
    CommitRecord, Decision, Fact, Instance, List, Place, Scenario, Transaction, TxnId, Verdict,
    What,
};

/// The place lies between the submission of the transaction and its decision, both left out.
pub fn is_within(txn: TxnId, decided: Place, facts: &List<Fact>, place: Place) -> bool
    ensures { result ≡ trust.is_within txn decided facts.now place }
{
    place < decided && was_submitted(txn, place, facts)
}

/// A transaction that is decided at a place, beside all facts.
#[derive(Clone, Copy)]
struct Commit<'a> {
    scenario: &'a Scenario,
    facts: &'a List<Fact>,
    txn: TxnId,
    declared: &'a Transaction,
    place: Place,
}

fn is_trusted_proof(commit: &Commit<'_>, proof: &Verdict) -> bool
    ensures { result ≡ program.is_trusted_proof commit.now proof.now }
{
    is_true_verdict(commit.scenario, commit.facts, commit.declared, proof)
        && is_within(commit.txn, commit.place, commit.facts, proof.place)
        && u128::from(proof.version.0)
            <= newest(commit.scenario, proof.admin, commit.place, commit.facts)
}

fn are_trusted_proofs(commit: &Commit<'_>, proofs: &List<Verdict>) -> bool
    ensures { result ≡ list_all (program.is_trusted_proof commit.now) proofs.now }
{
    proofs.iter().all(|proof| is_trusted_proof(commit, proof))
}

fn is_timely_reading(commit: &Commit<'_>, reading: Option<Place>) -> bool
    ensures { result ≡ trust.is_timely_reading commit.now.txn commit.now.place
        commit.now.facts.now reading }
{
    match reading {
        None => true,
        Some(place) => is_within(commit.txn, commit.place, commit.facts, place),
    }
}

fn is_trusted_instance(commit: &Commit<'_>, instance: &Instance) -> bool
    ensures { result ≡ program.is_trusted_instance commit.now instance.now }
{
    are_trusted_proofs(commit, &instance.proofs) && is_timely_reading(commit, instance.reading)
}

fn are_trusted_instances(commit: &Commit<'_>, instances: &List<Instance>) -> bool
    ensures { result ≡ list_all (program.is_trusted_instance commit.now) instances.now }
{
    instances
        .iter()
        .all(|instance| is_trusted_instance(commit, instance))
}

fn is_trusted_commit(commit: &Commit<'_>, committed: &CommitRecord) -> bool
    ensures { result ≡ trust.is_trusted_commit commit.now.scenario.now commit.now.txn
        commit.now.place commit.now.facts.now committed.now commit.now.declared.now }
{
    meets_demand(commit.scenario, commit.facts, commit.declared, committed)
        && are_trusted_instances(commit, &committed.instances)
}

fn is_trusted_decision(
    scenario: &Scenario,
    facts: &List<Fact>,
    place: Place,
    txn: TxnId,
    decision: &Decision,
) -> bool
    ensures { result ≡ trust.keeps_trust_what scenario.now facts.now place
        (What.Decided txn decision.now) }
{
    let Decision::Commit(committed) = decision else {
        return true;
    };
    match scenario.txns.get(txn.0 as usize) {
        None => false,
        Some(declared) => {
            let commit = Commit {
                scenario,
                facts,
                txn,
                declared,
                place,
            };
            is_trusted_commit(&commit, committed)
        }
    }
}

/// Whether one fact keeps trust beside all facts: if it is a commit, it is what its scheme demands, and its proofs are trusted.
pub fn keeps_trust(scenario: &Scenario, facts: &List<Fact>, fact: &Fact) -> bool
    ensures { result ≡ trust.keeps_trust scenario.now facts.now fact.now }
{
    match &fact.what {
        What::Decided(txn, decision) => {
            is_trusted_decision(scenario, facts, fact.place, *txn, decision)
        }
        _ => true,
    }
}

/// Whether every commit is trusted.
pub fn is_trusted(scenario: &Scenario, facts: &List<Fact>) -> bool
    ensures { result ≡ trust.is_trusted scenario.now facts.now }
{
    facts.iter().all(|fact| keeps_trust(scenario, facts, fact))
}
