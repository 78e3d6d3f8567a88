//! Causes of aborts: what a history shows where a transaction aborted.
ghost use Rattle.std.specs.Prelude.{◌≡◌, ◌||◌, not, nat_le, IfOk};
ghost use Rattle.tp_model.specs.Authorisation as authorisation;
ghost use Rattle.tp_model.specs.Causes as causes;
ghost use Rattle.tp_model.specs.Versions as versions;

use crate::authorisation::{is_allowed, is_own_query};
use crate::conflicts::is_older_conflict;
use crate::crashes::{coordinator_crashed, is_server_of, server_crashed};
use crate::newer::{are_rounds_shown, is_newer_shown};
use crate::refusals::is_refused;
use crate::trust::is_within;
use crate::versions::newest;
use std::alloc::Global;
use tp_model::{is_global, level_of, policy_at};
use tp_types::{
    Cause, Decision, Denied, Fact, List, NoMemory, Place, Scenario, Scheme, ServerId, Transaction,
    TxnId, What,
};

fn denies_at_newest(scheme: Scheme) -> bool
    ensures { result ≡ causes.denies_at_newest scheme }
{
    match scheme {
        Scheme::Deferred | Scheme::Continuous => true,
        Scheme::Punctual | Scheme::Incremental => false,
    }
}

fn is_bound_to_newest(txn: &Transaction, denied: &Denied) -> bool
    ensures { result ≡ causes.is_bound_to_newest txn.now denied.now }
{
    is_global(level_of(txn, denied.admin)) && denies_at_newest(txn.scheme)
}

fn is_new_enough(
    scenario: &Scenario,
    facts: &List<Fact>,
    txn: &Transaction,
    denied: &Denied,
) -> bool
    ensures { result
        ≡ (not (causes.is_bound_to_newest txn.now denied.now)
        || nat_le (versions.newest scenario.now denied.now.admin denied.now.place facts.now)
        denied.now.version.0) }
{
    !is_bound_to_newest(txn, denied)
        || newest(scenario, denied.admin, denied.place, facts) <= u128::from(denied.version.0)
}

fn is_denied_version(
    scenario: &Scenario,
    decided: Place,
    facts: &List<Fact>,
    txn: &Transaction,
    denied: &Denied,
) -> bool
    ensures { result ≡ causes.is_denied_version scenario.now decided facts.now txn.now denied.now }
{
    policy_at(scenario, denied.admin, denied.version).is_some()
        && u128::from(denied.version.0) <= newest(scenario, denied.admin, decided, facts)
        && is_new_enough(scenario, facts, txn, denied)
}

fn is_denial(
    scenario: &Scenario,
    facts: &List<Fact>,
    declared: &Transaction,
    denied: &Denied,
) -> bool
    ensures { result ≡ not
        (authorisation.is_allowed scenario.now facts.now declared.now
        (causes.denied_question denied.now)) }
{
    !is_allowed(
        scenario,
        facts,
        declared,
        denied.query,
        denied.admin,
        denied.version,
        denied.place,
    )
}

fn is_own_denial(scenario: &Scenario, declared: &Transaction, denied: &Denied) -> bool
    ensures { result ≡ authorisation.is_own_query scenario.now declared.now denied.now.query
        denied.now.server denied.now.admin }
{
    is_own_query(
        scenario,
        declared,
        denied.query,
        denied.server,
        denied.admin,
    )
}

fn is_denied(
    scenario: &Scenario,
    txn: TxnId,
    decided: Place,
    facts: &List<Fact>,
    denied: &Denied,
    declared: &Transaction,
) -> bool
    ensures { result ≡ causes.is_denied scenario.now txn decided facts.now denied.now declared.now }
{
    if !is_own_denial(scenario, declared, denied) {
        return false;
    }
    is_within(txn, decided, facts, denied.place)
        && is_denied_version(scenario, decided, facts, declared, denied)
        && is_denial(scenario, facts, declared, denied)
}

fn is_restart(
    scenario: &Scenario,
    txn: TxnId,
    decided: Place,
    facts: &List<Fact>,
    at: ServerId,
    declared: &Transaction,
) -> bool
    ensures { result ≡ causes.is_shown scenario.now txn decided facts.now
        (Cause.Restarted at) declared.now }
{
    is_server_of(scenario, at, declared) && server_crashed(at, txn, decided, facts)
}

fn is_shown(
    alloc: Global,
    scenario: &Scenario,
    txn: TxnId,
    decided: Place,
    facts: &List<Fact>,
    why: &Cause,
    declared: &Transaction,
) -> Result<bool, NoMemory>
    ensures { IfOk result (λ shown. shown
        ≡ causes.is_shown scenario.now txn decided facts.now why.now declared.now) }
{
    match why {
        Cause::Denied(denied) => Ok(is_denied(scenario, txn, decided, facts, denied, declared)),
        Cause::No(refused) => is_refused(alloc, scenario, txn, decided, facts, refused, declared),
        Cause::Died(died) => Ok(is_older_conflict(scenario, txn, decided, facts, died, declared)),
        Cause::Newer(newer) => Ok(is_newer_shown(scenario, decided, facts, newer, declared)),
        Cause::Rounds(mets) => Ok(are_rounds_shown(scenario, txn, decided, facts, mets, declared)),
        Cause::Restarted { server } => {
            Ok(is_restart(scenario, txn, decided, facts, *server, declared))
        }
        Cause::Halted => Ok(coordinator_crashed(txn, decided, facts)),
    }
}

fn is_caused_decision(
    alloc: Global,
    scenario: &Scenario,
    facts: &List<Fact>,
    place: Place,
    txn: TxnId,
    decision: &Decision,
) -> Result<bool, NoMemory>
    ensures { IfOk result (λ kept. kept
        ≡ causes.keeps_causes_what scenario.now facts.now place (What.Decided txn decision.now)) }
{
    let Decision::Abort(why) = decision else {
        return Ok(true);
    };
    match scenario.txns.get(txn.0 as usize) {
        None => Ok(false),
        Some(declared) => is_shown(alloc, scenario, txn, place, facts, why, declared),
    }
}

/// Whether one fact keeps causes beside all facts: if it is an abort, the history shows its cause.
pub fn keeps_causes(
    alloc: Global,
    scenario: &Scenario,
    facts: &List<Fact>,
    fact: &Fact,
) -> Result<bool, NoMemory>
    ensures { IfOk result (λ kept. kept ≡ causes.keeps_causes scenario.now facts.now fact.now) }
{
    match &fact.what {
        What::Decided(txn, decision) => {
            is_caused_decision(alloc, scenario, facts, fact.place, *txn, decision)
        }
        _ => Ok(true),
    }
}

/// Whether the history shows the cause of every abort.
pub fn is_caused(alloc: Global, scenario: &Scenario, facts: &List<Fact>) -> Result<bool, NoMemory>
    ensures { IfOk result (λ kept. kept ≡ causes.is_caused scenario.now facts.now) }
{
    for fact in facts.as_slice() {
        if !keeps_causes(alloc, scenario, facts, fact)? {
            return Ok(false);
        }
    }
    Ok(true)
}
