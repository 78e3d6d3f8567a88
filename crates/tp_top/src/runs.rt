//! The run of a scenario's world: its listed steps, and then the automatic ones.
ghost use Rattle.std.specs.Prelude.{◌≡◌, true, IfOk, OnOk};
ghost use Rattle.tp_machine.specs.WorldView.{start};
ghost use Rattle.tp_model.specs.Valid as valid;
ghost use Rattle.tp_top.specs.mirrors.Runs.{HasRun};

use std::alloc::Global;
use tp_ends::{StepRefusal, follow, settle};
use tp_machine::{Watch, World};
use tp_types::{List, NoMemory, Scenario, Step};

/// How a run ends.
#[derive(Clone, Copy)]
pub enum RunEnd {
    /// Nothing is left to be done.
    AtRest,
    /// A listed step is refused.
    Stopped(StepRefusal),
}

/// The steps that a scenario lists, for who runs it in a world that takes it over.
pub(crate) fn listed_in(alloc: Global, scenario: &Scenario) -> Result<List<Step>, NoMemory>
    ensures { IfOk result (λ steps. steps ≡ scenario.now.steps) }
{
    Ok(List::from_vec(Vec::from_slice(alloc, scenario.steps.as_slice())?))
}

/// Does all steps of a scenario, of which these are listed, in its world before the first one. Who looks on sees each.
pub(crate) fn run<W: Watch>(
    world: &mut World,
    alloc: Global,
    watch: &mut W,
    steps: &[Step],
) -> Result<RunEnd, NoMemory>
    requires valid { valid.is_valid world.old.scenario ≡ true }
    requires fresh { world.old ≡ start world.old.scenario }
    requires listed { steps.now ≡ world.old.scenario.steps }
    ensures run { IfOk result (HasRun world.old.scenario world.new) }
    ensures kept { OnOk result (world.new.scenario ≡ world.old.scenario) }
    ensures followed { OnOk result
        (W.follows watch.old world.old → W.follows watch.new world.new) }
{
    match follow(world, alloc, watch, steps)? {
        Some(refused) => Ok(RunEnd::Stopped(refused)),
        None => {
            settle(world, alloc, watch)?;
            Ok(RunEnd::AtRest)
        }
    }
}
