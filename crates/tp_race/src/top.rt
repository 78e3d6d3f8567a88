//! The top call of a race.
ghost use Rattle.std.specs.Prelude.{◌≡◌, ◌≢◌, ◌+◌, [], true, IfErr, IfOk};
ghost use Rattle.tp_ends.specs.Seen.{Ends, call_of, seen};
ghost use Rattle.tp_ends.specs.Unread.{input_max};
ghost use Rattle.tp_ends.specs.declared.status.Status.TheVariants as Status;
ghost use Rattle.tp_io.specs.Whole.{TakesAtMost};
ghost use Rattle.tp_model.specs.Valid.{is_valid};
ghost use Rattle.tp_types.specs.Faults.{Rose};
ghost use Rattle.tp_race.specs.Race.{EndsWith, IsRaceInput, OwesRace, RacesTrusted};
ghost use Rattle.tp_race.specs.Race as race;
ghost use Rattle.tp_race.specs.mirrors.Answers.{IsStepsRefusal, IsUnraced};

use crate::Gate;
use crate::racing::race_of;
use std::alloc::Global;
use std::sync::Wait;
use std::thread::Threads;
use tp_ends::{Answer, Status, no_text, refusal_line, scenario_in};
use tp_io::{Sink, Source, write_all};
use tp_scenario::ScenarioError;
use tp_types::{List, NoMemory, Scenario, Text};

/// Does all that the program does: it reads the scenario of the input, which lists no steps, runs its scripts on
/// threads, and writes the steps that happened and their report to `out`, or the line of a refusal to `notes`. Words
/// are refused. The whole text is made before the first write, and the writes take no memory.
pub fn race<R: Threads + Wait + Sync, I: Source, O: Sink, N: Sink, G: Gate + Sync>(
    rt: &R,
    alloc: Global,
    words: &[Text],
    input: &mut I,
    out: &mut O,
    notes: &mut N,
    gate: &G,
) -> Status
    // The headline: what was read and written where it is done.
    ensures promised { result ≡ Status.Done
        → RacesTrusted (seen I.left I.faults input.old input.new)
        (seen O.written O.faults out.old out.new) }

    // What the call was, by its status.
    ensures ended { EndsWith result (call_of words.now
        (seen I.left I.faults input.old input.new) (seen O.written O.faults out.old out.new)
        (seen N.written N.faults notes.old notes.new)) }

    // Where nothing failed, each cause has the status that it owes, or want of memory; and words are answered by usage.
    ensures complete { OwesRace (call_of words.now
        (seen I.left I.faults input.old input.new) (seen O.written O.faults out.old out.new)
        (seen N.written N.faults notes.old notes.new)) result }
    ensures called { words.now ≢ [] → ¬ (Rose (N.faults notes.old) (N.faults notes.new))
        → result ≡ Status.Usage }

    // At every status no more is read than an input may have and one byte, and nothing where there are words.
    ensures taken { TakesAtMost (input_max + 1) (I.left input.old) (I.left input.new) }
    ensures unread { words.now ≢ [] → input.new ≡ input.old }
{
    if !words.is_empty() {
        return match write_all(notes, b"usage: tpvc_race\n") {
            Ok(()) => Status::Usage,
            Err(_) => Status::WriteFault,
        };
    }
    match unlisted_in(alloc, input) {
        Ok(scenario) => race_of(rt, alloc, &scenario, out, gate),
        Err(Answer::Refused { text: _, line }) => match write_all(notes, line.0.as_slice()) {
            Ok(()) => Status::Refused,
            Err(_) => Status::WriteFault,
        },
        Err(Answer::ReadFault) => Status::ReadFault,
        Err(Answer::NoMemory) => Status::NoMemory,
        Err(Answer::Text(_)) => unreachable!(),
    }
}

/// The scenario of an input that lists no steps, or the answer to an input that says none.
fn unlisted_in<I: Source>(alloc: Global, input: &mut I) -> Result<Scenario, Answer>
    ensures unread { IfErr result (IsUnraced (seen I.left I.faults input.old input.new)) }
    ensures read { IfOk result (IsRaceInput (seen I.left I.faults input.old input.new)) }
    ensures valid { IfOk result (λ sc. is_valid sc ≡ true) }
    ensures taken { TakesAtMost (input_max + 1) (I.left input.old) (I.left input.new) }
{
    match scenario_in(alloc, input) {
        Err(answer) => Err(answer),
        Ok(scenario) => {
            if scenario.steps.is_empty() {
                Ok(scenario)
            } else {
                Err(steps_refused(alloc))
            }
        }
    }
}

/// The answer to a scenario that lists steps.
fn steps_refused(alloc: Global) -> Answer
    ensures { IsStepsRefusal result }
{
    match steps_line(alloc) {
        Err(NoMemory) => Answer::NoMemory,
        Ok(line) => Answer::Refused {
            text: no_text(alloc),
            line,
        },
    }
}

fn steps_line(alloc: Global) -> Result<Text, NoMemory>
    ensures { IfOk result (λ line. line.0 ≡ race.steps_line) }
{
    let path = Text(List::from_vec(Vec::from_slice(alloc, b"$.steps")?));
    refusal_line(alloc, &ScenarioError::Range { path })
}
