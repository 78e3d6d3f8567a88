//! What a server has of its log.
ghost use Rattle.std.specs.Prelude.{◌≡◌, IfOk};
ghost use Rattle.tp_recover.specs.Held as rule;

use crate::ages::by_age;
use crate::kept::Kept;
use std::alloc::Global;
use tp_store::Values;
use tp_types::{List, NoMemory, Prepared, Settled, Version};

/// What a server that comes up again has of its log.
#[derive(Drop)]
pub struct Held {
    /// One, and one more for each boot.
    pub epoch: u64,
    /// The newest version known of each administrator.
    pub newest: List<Version>,
    /// The value of each item of the scenario, so that ids need no translation. Where the log names items of its
    /// server alone, the others have their opening values.
    pub values: Values,
    /// The last vote YES of each transaction that is not settled, by age and then by transaction.
    pub prepared: List<Prepared>,
    /// How each transaction was settled first, in the order of the log.
    pub settled: List<Settled>,
}

/// What is answered, where this is kept of the log.
pub fn answer(alloc: Global, kept: Kept) -> Result<Held, NoMemory>
    ensures { IfOk result (λ made. made ≡ rule.held_of kept) }
{
    let Kept {
        epoch,
        newest,
        values,
        prepared,
        settled: _,
        in_order,
    } = kept;
    let prepared = by_age(alloc, prepared.into_made())?;
    Ok(Held {
        epoch,
        newest,
        values,
        prepared,
        settled: in_order,
    })
}
