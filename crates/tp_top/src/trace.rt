//! The command `trace`: each step of a run is done, and put as it is done.
ghost use Rattle.std.specs.Prelude.{◌≡◌, ◌≤◌, true, ℕ, IfOk, OnOk};
ghost use Rattle.tp_io.specs.Whole.{TakesAtMost};
ghost use Rattle.tp_machine.specs.Machine.{ending_of};
ghost use Rattle.tp_machine.specs.WorldView.{start};
ghost use Rattle.tp_model.specs.Valid as valid;
ghost use Rattle.tp_runs.specs.Laws.{IsTrustedState};
ghost use Rattle.tp_top.specs.Rows.{reads_at_most};
ghost use Rattle.tp_top.specs.mirrors.Commands.{Answers};
ghost use Rattle.tp_ends.specs.Seen.{seen};
ghost use Rattle.tp_top.specs.Trace.{trace_told};
ghost use Rattle.tp_ends.specs.Calls.{IsWhole};
ghost use Rattle.tp_top.specs.mirrors.Runs.{IsTraced};
ghost use Rattle.tp_trace.specs.Telling.{IsTraceOf};
ghost use Rattle.tp_words.specs.declared.commands.Command.TheVariants as Command;

use crate::refusals::step_line;
use crate::runs::{RunEnd, listed_in, run};
use std::alloc::Global;
use tp_ends::{Answer, ending, leave, scenario_in};
use tp_io::Source;
use tp_machine::World;
use tp_report::put_ending;
use tp_runs::history;
use tp_trace::Telling;
use tp_types::{List, NoMemory, Scenario, Step, Text};

/// Reads an input to its end and traces its scenario.
pub(crate) fn answer<I: Source>(alloc: Global, input: &mut I) -> Answer
    ensures cause { Answers Command.Trace (seen I.left I.faults input.old input.new) result }
    ensures taken { (most : ℕ) → reads_at_most Command.Trace ≤ most
        → TakesAtMost most (I.left input.old) (I.left input.new) }
{
    match scenario_in(alloc, input) {
        Err(answer) => answer,
        Ok(scenario) => traced(alloc, scenario),
    }
}

/// Runs a scenario and prints its trace.
fn traced(alloc: Global, scenario: Scenario) -> Answer
    requires { valid.is_valid scenario ≡ true }
    ensures { IsTraced scenario result }
{
    match trace(alloc, scenario) {
        Err(NoMemory) => Answer::NoMemory,
        Ok(answer) => answer,
    }
}

fn trace(alloc: Global, scenario: Scenario) -> Result<Answer, NoMemory>
    requires { valid.is_valid scenario ≡ true }
    ensures { IfOk result (IsTraced scenario) }
{
    let steps = listed_in(alloc, &scenario)?;
    let mut world = history::start_of(alloc, scenario)?;
    let answer = trace_in(alloc, &mut world, steps.as_slice());
    leave(world);
    answer
}

/// Runs a scenario, of which these steps are listed, in its world, and prints the trace, or that of the steps before
/// the first one that is refused.
fn trace_in(alloc: Global, world: &mut World, steps: &[Step]) -> Result<Answer, NoMemory>
    requires valid { valid.is_valid world.old.scenario ≡ true }
    requires fresh { world.old ≡ start world.old.scenario }
    requires listed { steps.now ≡ world.old.scenario.steps }
    ensures { IfOk result (IsTraced world.old.scenario) }
{
    let mut telling = Telling::begun(alloc, steps.len())?;
    match run(world, alloc, &mut telling, steps)? {
        RunEnd::Stopped(refused) => {
            let text = Text(List::from_vec(telling.text()?));
            let line = step_line(alloc, world.scenario(), refused)?;
            Ok(Answer::Refused { text, line })
        }
        RunEnd::AtRest => Ok(Answer::Text(whole(telling.text()?, alloc, world)?)),
    }
}

/// The trace of all steps of a world and how it has ended, of whose history all is told that holds at this moment, and
/// once its transactions are finished.
fn whole(mut out: Vec<u8>, alloc: Global, world: &World) -> Result<Text, NoMemory>
    requires told { IsTraceOf world.now out.items }
    ensures text { IfOk result (λ text.
        text.0 ≡ trace_told world.now.scenario world.now.machine.state.steps
        world.now.machine.state.facts
        (ending_of world.now.scenario world.now.machine.state)) }
    ensures so_far { OnOk result (IsTrustedState world.now.scenario world.now.machine.state) }
    ensures whole { OnOk result (IsWhole world.now.scenario world.now.machine.state) }
{
    let ending = ending(world, alloc)?;
    put_ending(&mut out, world.scenario(), &ending)?;
    Ok(Text(List::from_vec(out)))
}
