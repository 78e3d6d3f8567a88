//! Agreement: no two actors decide a transaction differently, whatever was lost, repeated or came late.
ghost use Rattle.std.specs.Prelude.{◌≡◌, true};
ghost use Rattle.tp_model.specs.Agreement.{is_agreed};

use tp_machine::World;
use tp_types::{Fact, List};

/// The facts of a world. They agree, as atomic commitment asks (Skeen 1981): each transaction is submitted and decided at most once, and
/// each server settles it at most once and as it was decided.
pub fn agreed(world: &World) -> &List<Fact>
    ensures value { result.now ≡ world.now.machine.state.facts }
    ensures agreement { is_agreed world.now.scenario result.now ≡ true }
{
    world.facts()
}
