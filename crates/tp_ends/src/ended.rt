//! How a run ends: a world comes to rest, and its ending.
ghost use Rattle.std.specs.Prelude.{◌≡◌, IfOk, OnOk};
ghost use Rattle.tp_machine.specs.Machine.{ending_of};
ghost use Rattle.tp_runs.specs.Laws.{IsTrustedState};
ghost use Rattle.tp_ends.specs.Calls.{IsWhole, Settles};

use std::alloc::Global;
use std::mem::forget;
use tp_auto::drain;
use tp_machine::{Watch, World};
use tp_runs::history;
use tp_types::{Ending, NoMemory};

/// Does the automatic steps of a world, whatever steps it is after.
pub fn settle<W: Watch>(world: &mut World, alloc: Global, watch: &mut W) -> Result<(), NoMemory>
    ensures rests { OnOk result (Settles world.old world.new) }
    ensures kept { OnOk result (world.new.scenario ≡ world.old.scenario) }
    ensures followed { OnOk result
        (W.follows watch.old world.old → W.follows watch.new world.new) }
{
    drain(alloc, world, watch)
}

/// How a world stands, of whose history all is told that holds at this moment, and once its transactions are finished.
pub fn ending(world: &World, alloc: Global) -> Result<Ending, NoMemory>
    ensures value { IfOk result (λ ending.
        ending ≡ ending_of world.now.scenario world.now.machine.state) }
    ensures so_far { OnOk result (IsTrustedState world.now.scenario world.now.machine.state) }
    ensures whole { OnOk result (IsWhole world.now.scenario world.now.machine.state) }
{
    let _so_far = history::facts(world);
    history::ending(world, alloc)
}

/// Leaves what a command took to the end of the process, which gives all memory back at once: the program ends behind
/// its answer, and letting go of a world piece by piece takes a twentieth of its run.
pub fn leave<T: Drop>(taken: T) {
    forget(taken);
}
