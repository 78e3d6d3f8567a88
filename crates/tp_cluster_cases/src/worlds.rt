//! The world of a scenario, whose mails are delivered oldest first.
ghost use Rattle.std.specs.Prelude.{◌≡◌, true, false, IfOk};
ghost use Rattle.tp_model.specs.Valid.{is_valid};
ghost use Rattle.tp_types.specs.Each.{Each};
ghost use Rattle.tp_machine.specs.Named.{IsStepOf};

use std::alloc::Global;
use tp_auto::drain;
use tp_ends::follow;
use tp_machine::{Nobody, World};
use tp_runs::history::start_of;
use tp_types::{List, NoMemory, Scenario, Step};

/// The listed steps of a scenario.
fn listed(alloc: Global, scenario: &Scenario) -> Result<List<Step>, NoMemory>
    ensures { IfOk result (λ steps. steps ≡ scenario.now.steps) }
{
    Ok(List::from_vec(Vec::from_slice(alloc, scenario.steps.as_slice())?))
}

/// How many steps a world has, which ends then.
pub fn length_of(world: World) -> u64 {
    let length = world.steps().len() as u64;
    drop(world);
    length
}

/// Does these steps, and what comes by itself behind them. Answers how many steps there are then; None where one is
/// refused.
fn done(alloc: Global, world: &mut World, steps: &[Step]) -> Result<Option<u64>, NoMemory>
    requires ids { Each (IsStepOf world.old.scenario) steps.now }
    requires up { world.old.given_up ≡ false }
{
    if let Some(_) = follow(world, alloc, &mut Nobody, steps)? {
        return Ok(None);
    }
    drain(alloc, world, &mut Nobody)?;
    Ok(Some(world.steps().len() as u64))
}

/// The same in a world that ends then.
fn done_in(alloc: Global, world: World, steps: &[Step]) -> Result<Option<u64>, NoMemory>
    requires ids { Each (IsStepOf world.scenario) steps.now }
    requires up { world.given_up ≡ false }
{
    let mut world = world;
    let found = done(alloc, &mut world, steps);
    drop(world);
    found
}

/// Does the listed steps of a scenario, and what comes by itself behind them. Answers how many steps there were; None
/// where one is refused.
pub fn run(alloc: Global, scenario: Scenario) -> Result<Option<u64>, NoMemory>
    requires { is_valid scenario ≡ true }
{
    let steps = listed(alloc, &scenario)?;
    let world = start_of(alloc, scenario)?;
    done_in(alloc, world, steps.as_slice())
}
