//! The answer to a command, made whole before anything is written.
ghost use Rattle.std.specs.Prelude.{◌≡◌, ◌≤◌, ℕ};
ghost use Rattle.tp_io.specs.Whole.{TakesAtMost};
ghost use Rattle.tp_top.specs.Rows.{reads_at_most};
ghost use Rattle.tp_top.specs.mirrors.Commands.{Answers, IsOfCommand};
ghost use Rattle.tp_ends.specs.Seen.{seen};

use crate::{bulk, run, trace};
use std::alloc::Global;
use tp_ends::Answer;
use tp_io::Source;
use tp_words::Command;

/// Does what a command asks for. An input is read to its end where the command has one.
pub fn answer_to<I: Source>(alloc: Global, command: Command, input: &mut I) -> Answer
    requires { IsOfCommand command }
    ensures cause { Answers command (seen I.left I.faults input.old input.new) result }
    ensures taken { (most : ℕ) → reads_at_most command ≤ most
        → TakesAtMost most (I.left input.old) (I.left input.new) }
    ensures unread { reads_at_most command ≤ 0 → input.new ≡ input.old }
{
    match command {
        Command::Run => run::answer(alloc, input),
        Command::Trace => trace::answer(alloc, input),
        Command::Bulk(count) => bulk::answer(alloc, count),
    }
}
