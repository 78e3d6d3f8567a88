//! The scripts of a scenario, one for each caller that has one.
ghost use Rattle.std.specs.Prelude.{◌≡◌, ◌++◌, IfOk, OnOk};
ghost use Rattle.tp_race.specs.Callers.{scripts_of, submissions};

use std::alloc::Global;
use tp_types::{List, NoMemory, Scenario, Step, TryClone, TxnId};

/// The scripts of clients, of publishers and of officers, in this order.
pub fn scripts_of(alloc: Global, scenario: &Scenario) -> Result<List<List<Step>>, NoMemory>
    ensures { IfOk result (λ made. made ≡ scripts_of scenario.now) }
{
    let mut made = List::new(alloc);
    for client in scenario.clients.as_slice() {
        made.push(submissions(alloc, client)?)?;
    }
    add_all(alloc, &mut made, &scenario.publishers)?;
    add_all(alloc, &mut made, &scenario.officers)?;
    Ok(made)
}

/// A client submits its transactions.
fn submissions(alloc: Global, client: &List<TxnId>) -> Result<List<Step>, NoMemory>
    ensures { IfOk result (λ made. made ≡ submissions client.now) }
{
    let mut made = List::new(alloc);
    for txn in client.as_slice() {
        made.push(Step::Submit { txn: *txn })?;
    }
    Ok(made)
}

/// Adds copies of scripts at the end.
fn add_all(
    alloc: Global,
    made: &mut List<List<Step>>,
    scripts: &List<List<Step>>,
) -> Result<(), NoMemory>
    ensures { OnOk result (made.new ≡ made.old ++ scripts.now) }
{
    for script in scripts.as_slice() {
        made.push(script.try_clone(alloc)?)?;
    }
    Ok(())
}
