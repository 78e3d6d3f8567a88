//! The command `bulk`: a large scenario is made, run, and told by one line.
ghost use Rattle.std.specs.Prelude.{◌≡◌, ◌≤◌, true, IfOk, OnOk};
ghost use Rattle.tp_bulk.specs.Bulk as made;
ghost use Rattle.tp_machine.specs.Machine.{ending_of};
ghost use Rattle.tp_machine.specs.WorldView.{start};
ghost use Rattle.tp_model.specs.Valid as valid;
ghost use Rattle.tp_runs.specs.Laws.{IsTrustedState};
ghost use Rattle.tp_top.specs.Bulk.{line_told};
ghost use Rattle.tp_top.specs.mirrors.Commands.{Answers};
ghost use Rattle.tp_ends.specs.Streams.{Stream};
ghost use Rattle.tp_ends.specs.Calls.{IsWhole};
ghost use Rattle.tp_top.specs.mirrors.Runs.{IsCounted};
ghost use Rattle.tp_words.specs.declared.commands.Command.TheVariants as Command;

use crate::runs::{RunEnd, listed_in, run};
use std::alloc::Global;
use tp_bulk::{run_line, scenario_of};
use tp_ends::{Answer, ending, leave, proved_facts};
use tp_machine::{Nobody, World};
use tp_runs::history;
use tp_types::{NoMemory, Scenario, Step, Text};

/// Makes the large scenario of so many transactions, and runs it. It reads no input, whichever that is.
pub(crate) fn answer(alloc: Global, count: u32) -> Answer
    requires least { 1 ≤ count }
    requires most { count ≤ 128 }
    ensures { (input : Stream) → Answers (Command.Bulk count) input result }
{
    match counted(alloc, count) {
        Err(NoMemory) => Answer::NoMemory,
        Ok(answer) => answer,
    }
}

fn counted(alloc: Global, count: u32) -> Result<Answer, NoMemory>
    requires least { 1 ≤ count }
    requires most { count ≤ 128 }
    ensures { IfOk result (IsCounted count) }
{
    let scenario = scenario_of(alloc, count)?;
    count_run(alloc, count, scenario)
}

fn count_run(alloc: Global, count: u32, scenario: Scenario) -> Result<Answer, NoMemory>
    requires made { scenario ≡ made.scenario_of count }
    requires valid { valid.is_valid scenario ≡ true }
    ensures { IfOk result (IsCounted count) }
{
    let steps = listed_in(alloc, &scenario)?;
    let mut world = history::start_of(alloc, scenario)?;
    let answer = count_in(alloc, count, &mut world, steps.as_slice());
    leave(world);
    answer
}

/// Runs the scenario, of which these steps are listed, in its world. They are submissions, each of another transaction,
/// and none is refused.
fn count_in(
    alloc: Global,
    count: u32,
    world: &mut World,
    steps: &[Step],
) -> Result<Answer, NoMemory>
    requires made { world.old.scenario ≡ made.scenario_of count }
    requires valid { valid.is_valid world.old.scenario ≡ true }
    requires fresh { world.old ≡ start world.old.scenario }
    requires listed { steps.now ≡ world.old.scenario.steps }
    ensures { IfOk result (IsCounted count) }
{
    match run(world, alloc, &mut Nobody, steps)? {
        RunEnd::Stopped(_) => unreachable!(),
        RunEnd::AtRest => Ok(Answer::Text(line_in(alloc, count, world)?)),
    }
}

/// The line of a world, of whose history all is told that holds at this moment, and once its transactions are finished.
fn line_in(alloc: Global, count: u32, world: &World) -> Result<Text, NoMemory>
    ensures text { IfOk result (λ text.
        text.0 ≡ line_told count world.now.scenario world.now.machine.state.steps
        world.now.machine.state.facts
        (ending_of world.now.scenario world.now.machine.state)) }
    ensures so_far { OnOk result (IsTrustedState world.now.scenario world.now.machine.state) }
    ensures whole { OnOk result (IsWhole world.now.scenario world.now.machine.state) }
{
    let ending = ending(world, alloc)?;
    let text = run_line(alloc, count, proved_facts(world), &ending)?;
    Ok(text)
}
