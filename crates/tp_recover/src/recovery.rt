//! What a server's log says.
ghost use Rattle.std.specs.Prelude.{◌≡◌, ◌+◌, ◌<◌, ◌^◌, IfOk};
ghost use Rattle.tp_types.specs.Each.{Each};
ghost use Rattle.tp_model.specs.SerialRun.{opening_store};
ghost use Rattle.tp_recover.specs.Held as rule;
ghost use Rattle.tp_recover.specs.Kept.{kept};
ghost use Rattle.tp_recover.specs.Laws.{HeldSays, IsOfScenario};

use crate::answer::{Held, answer};
use crate::kept::Kept;
use std::alloc::Global;
use tp_store::{OpeningValues, Values, first_item};
use tp_types::{List, NoMemory, Record, Scenario, ServerId};

/// All that is kept of the records of a server's log, over what the scenario says of the server at first, where the values of
/// the items are handed over. One more boot can be counted, since no list has 2^64 - 2 members.
pub fn kept_over(
    alloc: Global,
    scenario: &Scenario,
    server: ServerId,
    values: Values,
    records: &List<Record>,
) -> Result<Kept, NoMemory>
    requires values { values ≡ opening_store scenario.now }
    ensures kept { IfOk result (λ made. made ≡ kept scenario.now server records.now) }
    ensures epoch { IfOk result (λ made. made.epoch + 1 < 2 ^ 64) }
{
    let mut kept = Kept::opened(alloc, scenario, server, values)?;
    match kept.take_all(alloc, records.as_slice()) {
        Err(error) => Err(error),
        Ok(()) => Ok(kept),
    }
}

/// All that is kept of the records of a server's log, over what the scenario says of the server at first. One more boot can be
/// counted.
pub fn kept_of(
    alloc: Global,
    scenario: &Scenario,
    server: ServerId,
    records: &List<Record>,
) -> Result<Kept, NoMemory>
    ensures kept { IfOk result (λ made. made ≡ kept scenario.now server records.now) }
    ensures epoch { IfOk result (λ made. made.epoch + 1 < 2 ^ 64) }
{
    let opening = OpeningValues::of(alloc, scenario.items.as_slice())?;
    let values = Values::over(alloc, opening, first_item(scenario, server))?;
    kept_over(alloc, scenario, server, values, records)
}

fn recovered(
    alloc: Global,
    scenario: &Scenario,
    server: ServerId,
    records: &List<Record>,
) -> Result<Held, NoMemory>
    ensures { IfOk result (λ made. made ≡ rule.held_in scenario.now server records.now) }
{
    let kept = kept_of(alloc, scenario, server, records)?;
    answer(alloc, kept)
}

/// What the records of a server's log come to, over what the scenario says of the server at first. A vote of a
/// transaction that is settled prepares nothing, though the versions that it tells are learnt; of the settlements of a
/// transaction the first counts.
/// It asks nothing of the records. Of a transaction that is not there nothing is prepared, so that it leaves no values,
/// and each of its settlements is listed. What is told of an administrator, or written of an item, that is not there is
/// lost.
pub fn held(
    alloc: Global,
    scenario: &Scenario,
    server: ServerId,
    records: &List<Record>,
) -> Result<Held, NoMemory>
    ensures held { IfOk result (λ made. made ≡ rule.held_in scenario.now server records.now) }
    ensures says { IfOk result (λ made. Each (IsOfScenario scenario.now) records.now
        → HeldSays scenario.now server made records.now) }
{
    recovered(alloc, scenario, server, records)
}
