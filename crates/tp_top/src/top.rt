//! The top call of the program.
ghost use Rattle.std.specs.Prelude.{◌≡◌, ◌≤◌, ℕ};
ghost use Rattle.tp_io.specs.Whole.{TakesAtMost};
ghost use Rattle.tp_top.specs.Promises.{Promises};
ghost use Rattle.tp_top.specs.Rows.{Owes, TakesWithin};
ghost use Rattle.tp_ends.specs.Seen.{Ends, call_of, seen};
ghost use Rattle.tp_top.specs.Top.{EndsWith};
ghost use Rattle.tp_ends.specs.declared.status.Status.TheVariants as Status;
ghost use Rattle.tp_types.specs.Faults.{Rose};
ghost use Rattle.tp_words.specs.Commands.{IsCommand, IsNoCommand};
ghost use Rattle.tp_words.specs.declared.commands.Command.{Command};

use crate::answer::answer_to;
use std::alloc::Global;
use tp_ends::{Answer, Status};
use tp_io::{Sink, Source, write_all};
use tp_types::{NoMemory, Text};
use tp_words::command_of;

/// Does all that the program does: it finds the command that the words are, has the answer to it made, reading the input
/// where the command has one, and writes what it asks for to `out`, or what is told before a refusal to `out`, and the
/// line of the refusal to `notes`. It always returns. The whole text is made before the first write, and the writes take
/// no memory.
pub fn tpvc<I: Source, O: Sink, N: Sink>(
    alloc: Global,
    words: &[Text],
    input: &mut I,
    out: &mut O,
    notes: &mut N,
) -> Status
    // The headline: what a command promises where its call is done.
    ensures promised { (command : Command) → IsCommand words.now command → result ≡ Status.Done
        → Promises command (call_of words.now
        (seen I.left I.faults input.old input.new) (seen O.written O.faults out.old out.new)
        (seen N.written N.faults notes.old notes.new)) }

    // What the call was, by its status.
    ensures ended { EndsWith result (call_of words.now
        (seen I.left I.faults input.old input.new) (seen O.written O.faults out.old out.new)
        (seen N.written N.faults notes.old notes.new)) }

    // Where nothing failed, a command owes a status for each cause; and words that are no command are answered by
    // usage; or by want of memory.
    ensures complete { (command : Command) → IsCommand words.now command
        → Owes command (call_of words.now
        (seen I.left I.faults input.old input.new) (seen O.written O.faults out.old out.new)
        (seen N.written N.faults notes.old notes.new)) result }
    ensures called { IsNoCommand words.now → ¬ (Rose (N.faults notes.old) (N.faults notes.new))
        → Ends result Status.Usage }

    // At every status no more is read than the command may take, if the words are one, and where that is nothing the
    // input stays as it is.
    ensures taken { (most : ℕ) → TakesWithin words.now most
        → TakesAtMost most (I.left input.old) (I.left input.new) }
    ensures unread { TakesWithin words.now 0 → input.new ≡ input.old }
{
    let command = match command_of(alloc, words) {
        Err(NoMemory) => return Status::NoMemory,
        Ok(None) => {
            return match write_all(notes, b"usage: tpvc COMMAND [WORD]\n") {
                Ok(()) => Status::Usage,
                Err(_) => Status::WriteFault,
            };
        }
        Ok(Some(command)) => command,
    };
    match answer_to(alloc, command, input) {
        Answer::Text(text) => match write_all(out, text.0.as_slice()) {
            Ok(()) => Status::Done,
            Err(_) => Status::WriteFault,
        },
        Answer::Refused { text, line } => match write_all(out, text.0.as_slice()) {
            Ok(()) => match write_all(notes, line.0.as_slice()) {
                Ok(()) => Status::Refused,
                Err(_) => Status::WriteFault,
            },
            Err(_) => Status::WriteFault,
        },
        Answer::ReadFault => Status::ReadFault,
        Answer::NoMemory => Status::NoMemory,
    }
}
