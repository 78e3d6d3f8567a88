//! The race: clients, publishers and officers on threads, the steps that happened, and their report.
//!
//! What is promised, with the contract that carries it:
//!
//! - At Done there were no words, the input was read whole as a scenario without listed steps, and exactly the text of
//!   a race with a trusted history of it was written: `race 1`, a line for each step, and the report. Its steps are
//!   those of a list, the book, and then the automatic ones behind it; it has few mails, and its report can be read
//!   back (`race`: `promised`: `RacesTrusted`; `ended`)
//! - These steps are a whole race: each transaction stands in one submission, each script is within them, what comes
//!   from publishers and officers stands there as often as in all scripts, each mail's number stands in one delivery,
//!   no mail is lost, nobody crashes, timers stand behind the book alone, and the machine is quiet after them
//!   (`WholeRace`)
//! - No script is stopped by a step that the cluster refuses (`laws::no_script_is_stopped`)
//! - Where these steps are at most 100,000, a scenario may list them, each printed spelling is read as its step and as
//!   no other, the JSON of the race with all spellings at `steps` is read as the scenario that lists them, and what
//!   `run` promises of this one is the report with which the text ends (`laws::races_are_replayed`)
//! - Each status but NoMemory has its cause: Refused where the input is no scenario, or one that lists steps; Usage where there is
//!   a word; ReadFault and WriteFault where the count of faults rose, and then a front of the one text or line was
//!   written. At NoMemory nothing was written (`race`: `ended`)
//! - Of an input that tells its bytes, where there are no words and no count rose, each cause has its line, and a
//!   scenario that lists no steps is done, or memory was refused (`race`: `complete`). Words are answered by usage
//!   where the notes' count did not rise (`race`: `called`), and then nothing is read (`race`: `unread`). At most
//!   16,777,217 bytes are taken (`race`: `taken`)
//! - Of a cluster that any callers have used, and of all its passes, `finish` writes the same text, of a trusted
//!   history (`finish`: `promised`: `FinishesTrusted`). The first steps of it are the book (`IsBook`): each is of just
//!   one pass, the steps of each pass stand there in its order, with those of all passes together there are no others,
//!   what each pass has seen begins the book, and no mail was taken twice. Where the output's count did not rise it is
//!   done, or memory was refused (`finish`: `complete`, `ended`)
//!
//! Not claimed: that a race returns. Its threads wait for one another's locks.
#![tactic(auto)]

mod caller;
mod finishing;
pub mod laws;
mod racing;
mod scripts;
mod text;
mod threads;
mod top;

pub use finishing::finish;
pub use top::race;
pub use tp_cluster::Gate2 as Gate;
pub use tp_ends::Status;
