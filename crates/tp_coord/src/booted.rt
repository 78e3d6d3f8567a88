//! A coordinator that boots: what it has by its log, and what it sends.
ghost use Rattle.std.specs.Prelude.{◌≡◌, ◌<◌, ◌^◌, length, IfOk};
ghost use Rattle.tp_types.specs.Effect.{Gives};
ghost use Rattle.tp_coord.specs.Booted as rule;

use crate::coordinator::Coordinator;
use std::alloc::Global;
use tp_model::outcome_of;
use tp_recover::decision_of;
use tp_types::{Cause, List, NoMemory, Reaction, Record, Scenario, TxnId};

impl Coordinator {
    /// A coordinator that boots, with the records of its log, and what it wants done. What it had decided is sent to
    /// all of its transaction's servers again, each of which is to acknowledge it; where it had decided nothing its
    /// transaction aborts.
    pub fn booted(
        alloc: Global,
        scenario: &Scenario,
        txn: TxnId,
        records: &List<Record>,
    ) -> Result<(Coordinator, Reaction), NoMemory>
        requires { length scenario.now.servers < 2 ^ 32 }
        ensures { IfOk result (λ made.
            Gives (rule.boot_row scenario.now txn records.now) made.0 made.1) }
    {
        let mut coordinator = Coordinator::idle(alloc, scenario, txn)?;
        let reaction = match decision_of(records) {
            None => coordinator.aborts(alloc, Cause::Halted),
            Some(decision) => coordinator.ends_again(alloc, outcome_of(decision)),
        };
        match reaction {
            Err(error) => Err(error),
            Ok(reaction) => Ok((coordinator, reaction)),
        }
    }
}
