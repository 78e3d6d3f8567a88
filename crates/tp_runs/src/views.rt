//! Trust of the facts of a world: what a commit shows of its authorisation, and an abort of its cause.
ghost use Rattle.std.specs.Prelude.{◌≡◌, true};
ghost use Rattle.tp_model.specs.Causes.{is_caused};
ghost use Rattle.tp_model.specs.Trust.{is_trusted};

use tp_machine::World;
use tp_types::{Fact, List};

/// The facts of a world. Each commit is trusted (Iskander et al. 2011): its proofs evaluate true, as its scheme demands. Each abort has its
/// cause.
pub fn trusted(world: &World) -> &List<Fact>
    ensures value { result.now ≡ world.now.machine.state.facts }
    ensures trust { is_trusted world.now.scenario result.now ≡ true }
    ensures causes { is_caused world.now.scenario result.now ≡ true }
{
    world.facts()
}
