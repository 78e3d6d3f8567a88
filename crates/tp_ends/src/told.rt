//! What is told of a world: its facts, and its report.
ghost use Rattle.std.specs.Prelude.{◌≡◌, true, IfOk, OnOk};
ghost use Rattle.tp_machine.specs.Machine.{ending_of};
ghost use Rattle.tp_model.specs.Agreement.{is_agreed};
ghost use Rattle.tp_model.specs.Causes.{is_caused};
ghost use Rattle.tp_model.specs.Commits.{are_lone};
ghost use Rattle.tp_model.specs.SerialRun.{is_serial};
ghost use Rattle.tp_model.specs.Trust.{is_trusted};
ghost use Rattle.tp_report.specs.ReportText.{report_text};
ghost use Rattle.tp_runs.specs.Laws.{IsTrustedState};
ghost use Rattle.tp_ends.specs.Calls.{IsWhole};

use crate::ended::ending;
use std::alloc::Global;
use tp_machine::World;
use tp_report::print;
use tp_runs::agree::agreed;
use tp_runs::data::serial;
use tp_runs::views::trusted;
use tp_types::{Fact, List, NoMemory, Text};

/// The facts of a world, with what is promised of each: they agree, commits are trusted, serial and apart, and aborts
/// have causes.
pub fn proved_facts(world: &World) -> &List<Fact>
    ensures value { result.now ≡ world.now.machine.state.facts }
    ensures agreement { is_agreed world.now.scenario result.now ≡ true }
    ensures trust { is_trusted world.now.scenario result.now ≡ true }
    ensures causes { is_caused world.now.scenario result.now ≡ true }
    ensures data { is_serial world.now.scenario result.now ≡ true }
    ensures lone { are_lone result.now ≡ true }
{
    let _trusted = trusted(world);
    let _serial = serial(world);
    agreed(world)
}

/// The report of a world, of whose history all is told that holds at this moment, and once its transactions are
/// finished.
pub fn text_of(alloc: Global, world: &World) -> Result<Text, NoMemory>
    ensures text { IfOk result (λ text.
        text.0 ≡ report_text world.now.scenario world.now.machine.state.facts
        (ending_of world.now.scenario world.now.machine.state)) }
    ensures so_far { OnOk result (IsTrustedState world.now.scenario world.now.machine.state) }
    ensures whole { OnOk result (IsWhole world.now.scenario world.now.machine.state) }
{
    let ending = ending(world, alloc)?;
    let text = print(alloc, world.scenario(), proved_facts(world), &ending)?;
    Ok(text)
}
