//! Aborts since a newer version was found, or since each of the rounds met one.
ghost use Rattle.std.specs.Prelude.{◌≡◌, slice_get, true};
ghost use Rattle.std.specs.List.{count_by, list_all};
ghost use Rattle.std.specs.Option.{option_copied, option_map_or};
ghost use Rattle.tp_model.specs.Causes as causes;

use crate::demand::is_incremental;
use crate::trust::is_within;
use crate::versions::newest;
use tp_model::{is_global, item_of, level_of};
use tp_types::{AdminId, Fact, List, Met, Newer, Place, Query, Scenario, Transaction, TxnId};

fn is_query_of(scenario: &Scenario, admin: AdminId, query: &Query) -> bool
    ensures { result ≡ causes.is_query_of scenario.now admin query.now }
{
    match scenario.items.get(item_of(query).0 as usize) {
        None => false,
        Some(item) => item.admin == admin,
    }
}

fn is_own_admin(scenario: &Scenario, admin: AdminId, declared: &Transaction) -> bool
    ensures { result ≡ causes.is_own_admin scenario.now admin declared.now }
{
    declared
        .queries
        .iter()
        .any(|query| is_query_of(scenario, admin, query))
}

fn queries_of(scenario: &Scenario, admin: AdminId, declared: &Transaction) -> usize
    ensures { result ≡ count_by (causes.is_query_of scenario.now admin) declared.now.queries }
{
    declared
        .queries
        .iter()
        .filter(|query| is_query_of(scenario, admin, query))
        .count()
}

fn may_meet_newer(scenario: &Scenario, admin: AdminId, declared: &Transaction) -> bool
    ensures { result ≡ causes.may_meet_newer scenario.now admin declared.now }
{
    is_global(level_of(declared, admin)) || 2 <= queries_of(scenario, admin, declared)
}

/// Whether a newer version was found under incremental, which was published by the decision.
pub fn is_newer_shown(
    scenario: &Scenario,
    decided: Place,
    facts: &List<Fact>,
    newer: &Newer,
    declared: &Transaction,
) -> bool
    ensures { result ≡ causes.is_newer_shown scenario.now decided facts.now newer.now
        declared.now }
{
    is_incremental(declared.scheme)
        && newer.used.0 < newer.found.0
        && u128::from(newer.found.0) <= newest(scenario, newer.admin, decided, facts)
        && is_own_admin(scenario, newer.admin, declared)
        && may_meet_newer(scenario, newer.admin, declared)
}

fn is_met_shown(
    scenario: &Scenario,
    txn: TxnId,
    decided: Place,
    facts: &List<Fact>,
    declared: &Transaction,
    met: &Met,
) -> bool
    ensures { result ≡ causes.is_met_shown scenario.now txn decided facts.now declared.now
        met.now }
{
    is_global(level_of(declared, met.admin))
        && is_own_admin(scenario, met.admin, declared)
        && is_within(txn, decided, facts, met.place)
        && met.used.0 < met.newest.0
        && u128::from(met.newest.0) == newest(scenario, met.admin, met.place, facts)
}

fn are_met_shown(
    scenario: &Scenario,
    txn: TxnId,
    decided: Place,
    facts: &List<Fact>,
    declared: &Transaction,
    mets: &List<Met>,
) -> bool
    ensures { result ≡ list_all
        (causes.is_met_shown scenario.now txn decided facts.now declared.now) mets.now }
{
    for met in mets.as_slice() {
        if !is_met_shown(scenario, txn, decided, facts, declared, met) {
            return false;
        }
    }
    true
}

fn is_met_after(scenario: &Scenario, facts: &List<Fact>, place: Place, next: &Met) -> bool
    ensures { result ≡ causes.is_met_after scenario.now facts.now place next.now }
{
    place < next.place && u128::from(next.used.0) == newest(scenario, next.admin, place, facts)
}

fn is_met_next(scenario: &Scenario, facts: &List<Fact>, one: &Met, next: Option<&Met>) -> bool
    ensures { result ≡ option_map_or
        (causes.is_met_after scenario.now facts.now one.now.place)
        (option_copied next.entry) true }
{
    match next {
        None => true,
        Some(met) => is_met_after(scenario, facts, one.place, met),
    }
}

fn are_met_on(scenario: &Scenario, facts: &List<Fact>, mets: &List<Met>) -> bool
    ensures { result ≡ causes.are_met_on scenario.now facts.now mets.now }
{
    for (at, one) in mets.as_slice().iter().enumerate() {
        if !is_met_next(scenario, facts, one, mets.get(at + 1)) {
            return false;
        }
    }
    true
}

/// Whether as many rounds as the transaction may ask for each met a newer version.
pub fn are_rounds_shown(
    scenario: &Scenario,
    txn: TxnId,
    decided: Place,
    facts: &List<Fact>,
    mets: &List<Met>,
    declared: &Transaction,
) -> bool
    ensures { result ≡ causes.are_rounds_shown scenario.now txn decided facts.now mets.now
        declared.now }
{
    !is_incremental(declared.scheme)
        && mets.len() == declared.rounds as usize
        && are_met_shown(scenario, txn, decided, facts, declared, mets)
        && are_met_on(scenario, facts, mets)
}
