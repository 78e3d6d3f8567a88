//! What an actor that comes up again has of its log.
ghost use Rattle.std.specs.Prelude.{◌≡◌, IfOk};
ghost use Rattle.std.specs.Option.{option_copied};
ghost use Rattle.tp_types.specs.Each.{Each};
ghost use Rattle.tp_recover.specs.Held as rule;
ghost use Rattle.tp_recover.specs.Laws.{HeldSays, IsOfScenario};
ghost use Rattle.tp_recover.specs.Log.{decided_in};

use std::alloc::Global;
use tp_recover::{Held, decision_of, held};
use tp_types::{Decision, List, NoMemory, Record, Scenario, ServerId};

/// What a server has of its log.
pub fn recover_server(
    alloc: Global,
    scenario: &Scenario,
    server: ServerId,
    records: &List<Record>,
) -> Result<Held, NoMemory>
    ensures held { IfOk result (λ made. made ≡ rule.held_in scenario.now server records.now) }
    ensures says { IfOk result (λ made. Each (IsOfScenario scenario.now) records.now
        → HeldSays scenario.now server made records.now) }
{
    held(alloc, scenario, server, records)
}

/// What a coordinator has decided.
pub fn recover_decision(records: &List<Record>) -> Option<&Decision>
    ensures { option_copied result ≡ decided_in records.now }
{
    decision_of(records)
}
