//! A log whose boots are counted, beside its other records.
ghost use Rattle.std.specs.Prelude.{◌≡◌, ◌+◌, ◌<◌, ◌^◌, ◌++◌, List, IfOk, OnErr, OnOk};
ghost use Rattle.tp_types.specs.declared.records.Record.{Record};
ghost use Rattle.tp_model.specs.SerialRun.{opening_store};
ghost use Rattle.tp_recover.specs.Kept.{kept};
ghost use Rattle.tp_recover.specs.Log.{boots_in, without_boots};

use crate::kept::Kept;
use crate::recovery::kept_over;
use std::alloc::Global;
use tp_store::Values;
use tp_types::{List, NoMemory, Record, Scenario, ServerId};

/// Adds those of more records that are no boots to others, and counts the boots. Where memory is refused the others stay.
pub fn add_apart(others: &mut List<Record>, more: List<Record>) -> Result<u64, NoMemory>
    ensures others { OnOk result (others.new ≡ others.old ++ without_boots more) }
    ensures boots { IfOk result (λ boots. boots ≡ boots_in more) }
    ensures err { OnErr result (others.new ≡ others.old) }
{
    let before = others.len();
    let mut boots = 0;
    for next in more.into_vec() {
        match next {
            Record::Boot => boots += 1,
            other => {
                if others.push(other).is_err() {
                    others.truncate(before);
                    return Err(NoMemory);
                }
            }
        }
    }
    Ok(boots)
}

/// All that is kept of a server's log, of which so many records are boots, and these are the others. One more boot can be
/// counted. It is handed the values that the items have at first.
pub fn kept_apart(
    alloc: Global,
    scenario: &Scenario,
    server: ServerId,
    values: Values,
    others: &List<Record>,
    boots: u64,
) -> Result<Kept, NoMemory>
    requires values { values ≡ opening_store scenario.now }
    requires boots { boots + 2 < 2 ^ 64 }
    ensures exact { IfOk result (λ made.
        made ≡ record (kept scenario.now server others.now) { epoch = boots + 1 }) }
    ensures kept { IfOk result (λ made. (log : List Record)
        → others.now ≡ without_boots log → boots ≡ boots_in log
        → made ≡ kept scenario.now server log) }
    ensures epoch { IfOk result (λ made. made.epoch + 1 < 2 ^ 64) }
{
    let mut kept = kept_over(alloc, scenario, server, values, others)?;
    kept.epoch = boots + 1;
    Ok(kept)
}
