//! The end of a race: its cluster is closed, comes to rest, and is told.
ghost use Rattle.std.specs.Prelude.{◌≡◌, true, IfOk, OnOk};
ghost use Rattle.tp_ends.specs.Seen.{Ends, seen};
ghost use Rattle.tp_ends.specs.declared.status.Status.TheVariants as Status;
ghost use Rattle.tp_model.specs.Valid.{is_valid};
ghost use Rattle.tp_types.specs.Faults.{Rose};
ghost use Rattle.tp_race.specs.Finish.{AreAllPasses, FinishEnds, FinishesTo, FinishesTrusted};
ghost use Rattle.tp_race.specs.mirrors.Ends.{TellsRest};

use crate::text::race_text;
use std::alloc::Global;
use tp_cluster::{Cluster, Pass, Plan};
use tp_ends::{Status, leave, settle};
use tp_io::{Sink, write_all};
use tp_machine::{Nobody, World};
use tp_types::{List, NoMemory, Text};
use tp_wire::Site;

/// Finishes a race: it closes the cluster, does the automatic steps until nothing is left to be done, and writes the
/// whole text of the race. The passes are all that the cluster's opening gave. It takes no lock and always returns. The
/// whole text is made before the first write, and the writes take no memory.
pub fn finish<B: Site<Plan>, O: Sink>(
    alloc: Global,
    cluster: Cluster<B>,
    passes: List<Pass>,
    out: &mut O,
) -> Status
    requires { AreAllPasses B.about B.table passes }

    // The headline: what was written where it is done.
    ensures promised { result ≡ Status.Done
        → FinishesTrusted B.about passes (seen O.written O.faults out.old out.new) }

    // What came of it, by the status.
    ensures ended { FinishEnds result B.about passes
        (seen O.written O.faults out.old out.new) }

    // Where the output did not fail it is done, or memory was refused.
    ensures complete { ¬ (Rose (O.faults out.old) (O.faults out.new)) → Ends result Status.Done }
{
    match closed_text::<B>(alloc, cluster, passes) {
        Err(NoMemory) => Status::NoMemory,
        Ok(text) => match write_all(out, text.0.as_slice()) {
            Ok(()) => Status::Done,
            Err(_) => Status::WriteFault,
        },
    }
}

/// The text of a race, whose cluster is closed and comes to rest.
fn closed_text<B: Site<Plan>>(
    alloc: Global,
    cluster: Cluster<B>,
    passes: List<Pass>,
) -> Result<Text, NoMemory>
    requires { AreAllPasses B.about B.table passes }
    ensures { IfOk result (λ text. FinishesTo B.about passes text.0) }
{
    let mut world = cluster.close(alloc, passes)?;
    let text = rested_text(alloc, &mut world);
    leave(world);
    text
}

/// The text of a world that comes to rest.
fn rested_text(alloc: Global, world: &mut World) -> Result<Text, NoMemory>
    ensures text { IfOk result (λ text. TellsRest world.old text.0) }
    ensures valid { OnOk result (is_valid world.old.scenario ≡ true) }
{
    let _valid = world.scenario();
    settle(world, alloc, &mut Nobody)?;
    race_text(alloc, world)
}
