//! What level of consistency a transaction asks of an administrator's versions, and whether it reads the master.
ghost use Rattle.std.specs.Prelude.{◌≡◌};
ghost use Rattle.tp_model.specs.Levels as levels;

use crate::query::item_of;
use tp_types::{AdminId, Level, Query, Scenario, Transaction};

/// The level is global consistency.
pub fn is_global(level: Level) -> bool
    ensures { result ≡ levels.is_global level }
{
    matches!(level, Level::Global)
}

/// Whether a list of levels has the level global for an administrator. One that the list lacks is under view consistency.
pub fn is_global_at(asked: &[Level], admin: AdminId) -> bool
    ensures { result ≡ levels.is_global_at asked.now admin }
{
    match asked.get(admin.0 as usize) {
        None => false,
        Some(level) => is_global(*level),
    }
}

/// The level that a transaction asks for an administrator.
pub fn level_of(txn: &Transaction, _admin: AdminId) -> Level
    ensures { result ≡ levels.level_of txn.now _admin }
{
    txn.level
}

fn is_global_query(scenario: &Scenario, txn: &Transaction, query: &Query) -> bool
    ensures { result ≡ levels.is_global_query scenario.now txn.now query.now }
{
    match scenario.items.get(item_of(query).0 as usize) {
        None => false,
        Some(item) => is_global(level_of(txn, item.admin)),
    }
}

fn has_global_query(scenario: &Scenario, txn: &Transaction) -> bool
    ensures { result ≡ levels.reads_master scenario.now txn.now }
{
    txn.queries
        .iter()
        .any(|query| is_global_query(scenario, txn, query))
}

/// Whether a transaction reads the newest versions from the master: one of its queries is on an item whose administrator has the
/// level global for it.
#[tactic(auto, using(crate::proofs::LevelLemmas::reads_none))]
pub fn reads_master(scenario: &Scenario, txn: &Transaction) -> bool
    ensures { result ≡ levels.reads_master scenario.now txn.now }
{
    // where it asks for no global level no query needs a look
    is_global(txn.level) && has_global_query(scenario, txn)
}
