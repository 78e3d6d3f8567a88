//! The scenario of an input, or the answer to one that says none.
ghost use Rattle.std.specs.Prelude.{◌+◌, IfErr, IfOk};
ghost use Rattle.tp_io.specs.Whole.{TakesAtMost};
ghost use Rattle.tp_ends.specs.Seen.{seen};
ghost use Rattle.tp_ends.specs.Unread.{input_max};
ghost use Rattle.tp_ends.specs.Calls.{IsInput, IsRefusal, IsUnread};

use crate::answer::{Answer, no_text};
use crate::refusals::refusal_line;
use std::alloc::Global;
use tp_io::{ReadError, Source, read_to_end};
use tp_scenario::{LENGTH_MAX, ScenarioError, read};
use tp_types::{NoMemory, Scenario};

/// The scenario that an input says, which is read to its end, or the answer to an input that says none.
pub fn scenario_in<I: Source>(alloc: Global, input: &mut I) -> Result<Scenario, Answer>
    ensures unread { IfErr result (IsUnread (seen I.left I.faults input.old input.new)) }
    ensures read { IfOk result (IsInput (seen I.left I.faults input.old input.new)) }
    ensures taken { TakesAtMost (input_max + 1) (I.left input.old) (I.left input.new) }
{
    match read_to_end(alloc, input, LENGTH_MAX) {
        Err(ReadError::TooLong) => Err(refused(alloc, &ScenarioError::TooLong)),
        Err(ReadError::Fault) => Err(Answer::ReadFault),
        Err(ReadError::NoMemory) => Err(Answer::NoMemory),
        Ok(bytes) => match read(alloc, bytes.as_slice()) {
            Err(ScenarioError::NoMemory) => Err(Answer::NoMemory),
            Err(why) => Err(refused(alloc, &why)),
            Ok(scenario) => Ok(scenario),
        },
    }
}

/// The answer to an input that is refused so.
fn refused(alloc: Global, why: &ScenarioError) -> Answer
    ensures { IsRefusal why.now result }
{
    match refusal_line(alloc, why) {
        Err(NoMemory) => Answer::NoMemory,
        Ok(line) => Answer::Refused {
            text: no_text(alloc),
            line,
        },
    }
}
