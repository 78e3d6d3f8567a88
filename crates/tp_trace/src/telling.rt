//! Who tells the steps of a run as they are done.
ghost use Rattle.std.specs.Prelude.{◌≡◌, codes, IfOk, false};
ghost use Rattle.tp_machine.specs.WorldView.{WorldView, start};
ghost use Rattle.tp_trace.specs.Telling.{IsTraceOf, Tells};

use crate::blocks::{Noted, put_begun, put_lines};
use std::alloc::Global;
use std::mem;
use tp_machine::{Watch, World};
use tp_report::piece::put;
use tp_types::{NoMemory, Record, Step, TryClone};

/// The bytes of a step's block for which there is room from the start, so that a long trace seldom moves. Most blocks are
/// shorter.
const ROOM: usize = 256;

/// Tells the steps of a run as they are done: the trace of those so far.
#[derive(Drop)]
pub struct Telling {
    out: Vec<u8>,
    /// What was noted before the step that is being done, and the record that it has its actor force.
    noted: Option<Noted>,
    forced: Option<Record>,
    /// Memory was refused, so that the trace is not whole.
    lost: bool,
}

impl Telling {
    /// The first line of a trace, with room for what so many listed steps will say.
    pub fn begun(alloc: Global, listed: usize) -> Result<Telling, NoMemory>
        ensures { IfOk result (λ made. (w : WorldView) → w ≡ start w.scenario → Tells made w) }
    {
        let mut out = Vec::with_capacity(alloc, listed.saturating_mul(ROOM))?;
        put(&mut out, b"trace 1\n")?;
        Ok(Telling {
            out,
            noted: None,
            forced: None,
            lost: false,
        })
    }

    /// The trace of the steps that were done. NoMemory where memory was refused as one of them was told.
    pub fn text(self) -> Result<Vec<u8>, NoMemory>
        ensures { IfOk result (λ out. (w : WorldView) → Tells self w → IsTraceOf w out.items) }
    {
        if self.lost {
            Err(NoMemory)
        } else {
            Ok(self.out)
        }
    }
}

impl Watch for Telling {
    ghost use Rattle.tp_trace.specs.Telling.{Awaits, Hears, Tells};

    ghost follows = { Tells };

    ghost awaits = { Awaits };

    ghost hears = { Hears };

    fn before(&mut self, alloc: Global, world: &World, taken: &Step) {
        // what holds of the world: that it is the machine after its steps
        let _facts = world.facts();
        let listed = world.steps().len() < world.scenario().steps.len();
        match put_begun(&mut self.out, alloc, world, listed, taken) {
            Ok(noted) => {
                self.noted = Some(noted);
                self.forced = None;
            }
            Err(NoMemory) => self.lost = true,
        }
    }

    fn hear(&mut self, alloc: Global, forced: &Record) {
        match forced.try_clone(alloc) {
            Ok(forced) => self.forced = Some(forced),
            Err(NoMemory) => self.lost = true,
        }
    }

    fn after(&mut self, alloc: Global, world: &World, _taken: &Step) {
        let noted = mem::replace(&mut self.noted, None);
        let Some(noted) = noted else {
            self.lost = true;
            return;
        };
        match put_lines(&mut self.out, alloc, world, &noted, &self.forced) {
            Ok(()) => {}
            Err(NoMemory) => self.lost = true,
        }
    }
}
