//! Serial data of the facts of a world: what commits read and wrote is what a serial run does.
ghost use Rattle.std.specs.Prelude.{◌≡◌, true};
ghost use Rattle.tp_model.specs.Commits.{are_lone};
ghost use Rattle.tp_model.specs.SerialRun.{is_serial};

use tp_machine::World;
use tp_types::{Fact, List};

/// The facts of a world. Its commits are serializable in the order of their decisions (Bernstein, Hadzilacos and Goodman 1987): each did what its
/// transaction does by itself on the data of the commits before it, and left every item in its range; and no two have one place.
pub fn serial(world: &World) -> &List<Fact>
    ensures value { result.now ≡ world.now.machine.state.facts }
    ensures data { is_serial world.now.scenario result.now ≡ true }
    ensures lone { are_lone result.now ≡ true }
{
    world.facts()
}
