//! Who looks on as the steps of a run are done.
ghost use Rattle.std.specs.Prelude.{◌≡◌};

use crate::world::World;
use std::alloc::Global;
use tp_types::{Record, Step};

/// Who looks on as the steps of a run are done: it sees the world before each step and after it, and hears of the record that the
/// step has its actor force. Nothing that it does changes a step, so it refuses none; where it is refused memory, it is for it
/// to remember that. One call takes the steps of a run, whoever looks on.
pub trait Watch {
    ghost use Rattle.tp_model.specs.Words.{Record, Step};
    ghost use Rattle.tp_machine.specs.WorldView.{WorldView};
    ghost use Rattle.tp_machine.specs.Watches.{IsSeen, IsSeenAfter};

    // It has followed a run up to this world.
    ghost follows: { Self → WorldView → Type 0 };

    // It has seen this world, as this step is about to be done.
    ghost awaits: { Self → WorldView → Step → Type 0 };

    // What it comes to be once it hears of a record.
    ghost hears: { Self → Record → Self → Type 0 };

    /// A step that is not refused is about to be done in the world.
    fn before(&mut self, alloc: Global, world: &World, taken: &Step)
        requires { IsSeen world.now taken.now }
        ensures { follows self.old world.now → awaits self.new world.now taken.now };

    /// The actor of the step is about to force this record, or crashes as it does.
    fn hear(&mut self, alloc: Global, forced: &Record)
        ensures { hears self.old forced.now self.new };

    /// The step is done.
    fn after(&mut self, alloc: Global, world: &World, taken: &Step)
        ensures { IsSeenAfter awaits hears self.old world.now taken.now → follows self.new world.now };
}

/// Nobody looks on. It has no bytes.
#[derive(Drop)]
pub struct Nobody;

impl Watch for Nobody {
    ghost follows = { λ nobody world. Unit {0} };

    ghost awaits = { λ nobody world taken. Unit {0} };

    ghost hears = { λ nobody forced next. Unit {0} };

    fn before(&mut self, _alloc: Global, _world: &World, _taken: &Step) {}

    fn hear(&mut self, _alloc: Global, _forced: &Record) {}

    fn after(&mut self, _alloc: Global, _world: &World, _taken: &Step) {}
}
