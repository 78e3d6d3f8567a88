//! The text of a race: its steps, and the report of them.
ghost use Rattle.std.specs.Prelude.{◌≡◌, ◌++◌, flat_map, IfOk, OnOk};
ghost use Rattle.tp_machine.specs.Machine.{ending_of};
ghost use Rattle.tp_runs.specs.Laws.{IsTrustedState};
ghost use Rattle.tp_ends.specs.Calls.{IsWhole};
ghost use Rattle.tp_race.specs.Texts.{race_told, step_line};

use std::alloc::Global;
use tp_ends::text_of;
use tp_machine::World;
use tp_report::piece::put;
use tp_report::put_step_text;
use tp_types::{List, NoMemory, Scenario, Step, Text};

/// The bytes of a step's line for which there is room from the start, so that a long text seldom moves. Most lines are
/// shorter.
const ROOM: usize = 24;

/// Puts the line of a step.
fn put_step(out: &mut Vec<u8>, scenario: &Scenario, taken: &Step) -> Result<(), NoMemory>
    ensures { OnOk result (out.new.items ≡ out.old.items ++ step_line scenario.now taken.now) }
{
    put(out, b"step ")?;
    put_step_text(out, scenario, taken)?;
    put(out, b"\n")
}

/// Puts the line of each step.
fn put_steps(out: &mut Vec<u8>, scenario: &Scenario, steps: &List<Step>) -> Result<(), NoMemory>
    ensures { OnOk result
        (out.new.items ≡ out.old.items ++ flat_map (step_line scenario.now) steps.now) }
{
    for taken in steps.as_slice() {
        put_step(out, scenario, taken)?;
    }
    Ok(())
}

/// The steps of a world and its report, of whose history all is told that holds at this moment, and once its
/// transactions are finished.
pub(crate) fn race_text(alloc: Global, world: &World) -> Result<Text, NoMemory>
    ensures text { IfOk result (λ text.
        text.0 ≡ race_told world.now.scenario world.now.machine.state.steps
        world.now.machine.state.facts
        (ending_of world.now.scenario world.now.machine.state)) }
    ensures so_far { OnOk result (IsTrustedState world.now.scenario world.now.machine.state) }
    ensures whole { OnOk result (IsWhole world.now.scenario world.now.machine.state) }
{
    let report = text_of(alloc, world)?;
    let room = world.steps().len().saturating_mul(ROOM);
    let mut out = Vec::with_capacity(alloc, room.saturating_add(report.0.len()))?;
    put(&mut out, b"race 1\n")?;
    put_steps(&mut out, world.scenario(), world.steps())?;
    put(&mut out, report.0.as_slice())?;
    Ok(Text(List::from_vec(out)))
}
