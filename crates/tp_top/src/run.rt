//! The command `run`: it reads a scenario, runs it, and prints its report.
ghost use Rattle.std.specs.Prelude.{◌≡◌, ◌≤◌, true, ℕ, IfOk};
ghost use Rattle.tp_io.specs.Whole.{TakesAtMost};
ghost use Rattle.tp_machine.specs.WorldView.{start};
ghost use Rattle.tp_model.specs.Valid as valid;
ghost use Rattle.tp_top.specs.Rows.{reads_at_most};
ghost use Rattle.tp_top.specs.mirrors.Commands.{Answers};
ghost use Rattle.tp_ends.specs.Seen.{seen};
ghost use Rattle.tp_top.specs.mirrors.Runs.{IsReported};
ghost use Rattle.tp_words.specs.declared.commands.Command.TheVariants as Command;

use crate::refusals::step_line;
use crate::runs::{RunEnd, listed_in, run};
use std::alloc::Global;
use tp_ends::{Answer, leave, no_text, scenario_in, text_of};
use tp_io::Source;
use tp_machine::{Nobody, World};
use tp_runs::history;
use tp_types::{NoMemory, Scenario, Step};

/// Reads an input to its end and runs its scenario.
pub(crate) fn answer<I: Source>(alloc: Global, input: &mut I) -> Answer
    ensures cause { Answers Command.Run (seen I.left I.faults input.old input.new) result }
    ensures taken { (most : ℕ) → reads_at_most Command.Run ≤ most
        → TakesAtMost most (I.left input.old) (I.left input.new) }
{
    match scenario_in(alloc, input) {
        Err(answer) => answer,
        Ok(scenario) => reported(alloc, scenario),
    }
}

/// Runs a scenario and prints its report.
fn reported(alloc: Global, scenario: Scenario) -> Answer
    requires { valid.is_valid scenario ≡ true }
    ensures { IsReported scenario result }
{
    match report(alloc, scenario) {
        Err(NoMemory) => Answer::NoMemory,
        Ok(answer) => answer,
    }
}

fn report(alloc: Global, scenario: Scenario) -> Result<Answer, NoMemory>
    requires { valid.is_valid scenario ≡ true }
    ensures { IfOk result (IsReported scenario) }
{
    let steps = listed_in(alloc, &scenario)?;
    let mut world = history::start_of(alloc, scenario)?;
    let answer = report_in(alloc, &mut world, steps.as_slice());
    leave(world);
    answer
}

/// Runs a scenario, of which these steps are listed, in its world, and prints the report, or the line of the first step
/// that is refused.
fn report_in(alloc: Global, world: &mut World, steps: &[Step]) -> Result<Answer, NoMemory>
    requires valid { valid.is_valid world.old.scenario ≡ true }
    requires fresh { world.old ≡ start world.old.scenario }
    requires listed { steps.now ≡ world.old.scenario.steps }
    ensures { IfOk result (IsReported world.old.scenario) }
{
    match run(world, alloc, &mut Nobody, steps)? {
        RunEnd::Stopped(refused) => {
            let line = step_line(alloc, world.scenario(), refused)?;
            Ok(Answer::Refused {
                text: no_text(alloc),
                line,
            })
        }
        RunEnd::AtRest => Ok(Answer::Text(text_of(alloc, world)?)),
    }
}
