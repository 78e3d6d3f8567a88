//! What a scheme demands of a commit.
ghost use Rattle.std.specs.Prelude.{◌≡◌, length};
ghost use Rattle.tp_model.specs.Demand as demand;
ghost use Rattle.tp_model.specs.Levels as levels;

use crate::following::each_follows;
use crate::versions::is_consistent;
use tp_model::{VIEW_ROUNDS, reads_master};
use tp_types::{CommitRecord, Fact, Instance, List, Scenario, Scheme, Transaction, Verdict};

/// The scheme is incremental.
pub fn is_incremental(scheme: Scheme) -> bool
    ensures { result ≡ demand.is_incremental scheme }
{
    matches!(scheme, Scheme::Incremental)
}

fn first_of(scheme: Scheme, queries: usize, number: usize) -> usize
    ensures { result ≡ demand.first_of scheme queries number }
{
    match scheme {
        Scheme::Punctual if number <= queries => number,
        _ => 1,
    }
}

fn many_of(scheme: Scheme, queries: usize, number: usize) -> usize
    ensures { result ≡ demand.many_of scheme queries number }
{
    match scheme {
        Scheme::Deferred => queries,
        Scheme::Punctual if number <= queries => 1,
        Scheme::Punctual => queries,
        Scheme::Incremental | Scheme::Continuous => number.min(queries),
    }
}

fn agrees_at(scheme: Scheme, queries: usize, number: usize) -> bool
    ensures { result ≡ demand.agrees_at scheme queries number }
{
    match scheme {
        Scheme::Punctual => queries < number,
        _ => true,
    }
}

fn count_of(scenario: &Scenario, txn: &Transaction) -> u128
    ensures { result ≡ demand.count_of txn.now.scheme
        (levels.reads_master scenario.now txn.now)
        (length txn.now.queries) }
{
    match txn.scheme {
        Scheme::Deferred => 1,
        Scheme::Incremental if !reads_master(scenario, txn) => txn.queries.len() as u128,
        _ => txn.queries.len() as u128 + 1,
    }
}

#[tactic(auto, using(crate::proofs::DemandLemmas::over_other))]
fn is_over(first: usize, many: usize, proofs: &List<Verdict>) -> bool
    ensures { result ≡ demand.is_over first many proofs.now }
{
    if proofs.len() != many {
        return false;
    }
    for (at, proof) in proofs.as_slice().iter().enumerate() {
        if u128::from(proof.query) != first as u128 + at as u128 {
            return false;
        }
    }
    true
}

fn is_instance(
    scenario: &Scenario,
    facts: &List<Fact>,
    txn: &Transaction,
    number: usize,
    instance: &Instance,
) -> bool
    ensures { result ≡ demand.is_instance scenario.now facts.now txn.now number instance.now }
{
    let queries = txn.queries.len();
    let first = first_of(txn.scheme, queries, number);
    let many = many_of(txn.scheme, queries, number);
    if !is_over(first, many, &instance.proofs) {
        return false;
    }
    if agrees_at(txn.scheme, queries, number) {
        is_consistent(scenario, txn, facts, instance)
    } else {
        instance.reading.is_none()
    }
}

fn are_instances(
    scenario: &Scenario,
    facts: &List<Fact>,
    txn: &Transaction,
    instances: &List<Instance>,
) -> bool
    ensures { result ≡ demand.are_instances scenario.now facts.now txn.now 1 instances.now }
{
    for (at, instance) in instances.as_slice().iter().enumerate() {
        if !is_instance(scenario, facts, txn, at + 1, instance) {
            return false;
        }
    }
    true
}

fn most_rounds(scenario: &Scenario, txn: &Transaction) -> u32
    ensures { result ≡ demand.most_rounds scenario.now txn.now }
{
    if reads_master(scenario, txn) {
        txn.rounds
    } else {
        VIEW_ROUNDS
    }
}

fn is_round_count(scenario: &Scenario, txn: &Transaction, rounds: u32) -> bool
    ensures { result ≡ demand.is_round_count scenario.now txn.now rounds }
{
    if is_incremental(txn.scheme) {
        return rounds == 0;
    }
    1 <= rounds && rounds <= most_rounds(scenario, txn)
}

/// The commit is what the transaction's scheme demands.
pub fn meets_demand(
    scenario: &Scenario,
    facts: &List<Fact>,
    txn: &Transaction,
    committed: &CommitRecord,
) -> bool
    ensures { result ≡ demand.meets_demand scenario.now facts.now txn.now committed.now }
{
    committed.instances.len() as u128 == count_of(scenario, txn)
        && are_instances(scenario, facts, txn, &committed.instances)
        && each_follows(txn.scheme, &committed.instances)
        && is_round_count(scenario, txn, committed.rounds)
}
