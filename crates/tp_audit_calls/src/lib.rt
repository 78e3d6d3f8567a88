//! The program that judges histories, each of its calls under the definition that it computes.
//!
//! Every function here is one call of `tp_audit`, and is proved from the contract of that call alone. Each file of
//! `must-fail` turns such a line into a wrong body, which the prover must refuse: what these clauses refuse the
//! contract of the call refuses too. Where a contract of `tp_audit` is weakened so that such a body would pass, the
//! function here is no longer proved. Nothing stands on this crate.
#![tactic(auto)]

ghost use Rattle.std.specs.Prelude.{◌≡◌, IfOk};
ghost use Rattle.tp_model.specs.Agreement as agreement;
ghost use Rattle.tp_model.specs.Causes as causes;
ghost use Rattle.tp_model.specs.Commits as commits;
ghost use Rattle.tp_model.specs.SerialRun as serial;
ghost use Rattle.tp_model.specs.Trust as trust;

use std::alloc::Global;
use tp_audit::{are_lone, is_agreed, is_caused, is_serial, is_trusted};
use tp_types::{Fact, List, NoMemory, Scenario};

/// Whether every transaction is decided at most once, and each server settles it at most once and as it was decided.
pub fn judge_agreement(scenario: &Scenario, facts: &List<Fact>) -> bool
    ensures { result ≡ agreement.is_agreed scenario.now facts.now }
{
    is_agreed(scenario, facts)
}

/// Whether every commit rests on proofs that were true and new enough, as its scheme demands.
pub fn judge_trust(scenario: &Scenario, facts: &List<Fact>) -> bool
    ensures { result ≡ trust.is_trusted scenario.now facts.now }
{
    is_trusted(scenario, facts)
}

/// Whether the history shows the cause of every abort.
pub fn judge_causes(
    alloc: Global,
    scenario: &Scenario,
    facts: &List<Fact>,
) -> Result<bool, NoMemory>
    ensures { IfOk result (λ kept. kept ≡ causes.is_caused scenario.now facts.now) }
{
    is_caused(alloc, scenario, facts)
}

/// Whether every commit did what its transaction does by itself on the data of the commits before it.
pub fn judge_data(alloc: Global, scenario: &Scenario, facts: &List<Fact>) -> Result<bool, NoMemory>
    ensures { IfOk result (λ kept. kept ≡ serial.is_serial scenario.now facts.now) }
{
    is_serial(alloc, scenario, facts)
}

/// Whether no two commits have one place.
pub fn judge_commits(facts: &List<Fact>) -> bool
    ensures { result ≡ commits.are_lone facts.now }
{
    are_lone(facts)
}
