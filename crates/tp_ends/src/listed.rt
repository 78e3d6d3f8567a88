//! The listed steps: they are done in order, until one is refused.
ghost use Rattle.std.specs.Prelude.{◌≡◌, false, IfOk, OnOk};
ghost use Rattle.tp_types.specs.Each.{Each};
ghost use Rattle.tp_machine.specs.Named.{IsStepOf};
ghost use Rattle.tp_ends.specs.Calls.{Follows, StopsBefore};

use std::alloc::Global;
use tp_machine::{StepError, Watch, World};
use tp_types::{NoMemory, Step};

/// A listed step that is refused.
#[derive(Clone, Copy)]
pub struct StepRefusal {
    /// Its number in the list, counted from 0.
    pub at: usize,
    /// Why it is refused.
    pub why: StepError,
}

/// Does the steps in order, until one is refused, and answers which and why; None exactly where all were done. Who
/// looks on sees those that are done.
pub fn follow<W: Watch>(
    world: &mut World,
    alloc: Global,
    watch: &mut W,
    steps: &[Step],
) -> Result<Option<StepRefusal>, NoMemory>
    requires ids { Each (IsStepOf world.old.scenario) steps.now }
    requires up { world.old.given_up ≡ false }
    ensures follows { IfOk result (Follows world.old world.new steps.now) }
    ensures before { IfOk result (StopsBefore world.old world.new steps.now) }
    ensures kept { OnOk result (world.new.scenario ≡ world.old.scenario) }
    ensures followed { OnOk result
        (W.follows watch.old world.old → W.follows watch.new world.new) }
{
    for (at, taken) in steps.iter().enumerate() {
        match world.step(alloc, watch, taken) {
            Ok(()) => {}
            Err(StepError::NoMemory) => return Err(NoMemory),
            Err(why) => return Ok(Some(StepRefusal { at, why })),
        }
    }
    Ok(None)
}
