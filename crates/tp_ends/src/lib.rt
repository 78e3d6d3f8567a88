//! How a run ends: what is read of an input, the steps that are done, the automatic ones after them, and what is told
//! of the world that has come to rest. For whoever runs a scenario, whatever list of steps the run begins with.
//!
//! What is promised, with the contract that carries it:
//!
//! - Each status has its number (`Status::number`)
//! - The scenario of an input is the one that its bytes say, it is valid, and the input was read to its end; else the
//!   answer is the line of the refusal, with its cause in what was taken, that the input's count of faults rose, or
//!   want of memory. At most 16,777,217 bytes are taken (`scenario_in`: `read`, `unread`, `taken`)
//! - The line of a refusal is the defined one (`refusal_line`)
//! - Steps are done in order until one is refused, which is told with its number and the reason; where none is refused
//!   the world is the one after all of them. Who looks on has followed them (`follow`: `follows`, `before`, `followed`)
//! - Whatever steps a world is after, of which none was refused, it comes to rest after them: it is the machine after
//!   the automatic steps, which is quiet, or memory was refused. Who looks on has followed them (`settle`: `rests`,
//!   `followed`)
//! - The ending of a world is its machine's; its history is trusted at this moment; where all transactions are finished
//!   they have ended, and where they have, its values are those that all commits leave (`ending`: `value`, `so_far`,
//!   `whole`). So it is of its report, which is that of its facts and its ending (`text_of`)
//! - The facts of a world agree, commits are trusted, serial and apart, and aborts have causes (`proved_facts`)
//!
//! What follows for a run that rests is said by `RestsAfter`, and shown by `run_rests` of `proofs/PrintableRun`: a
//! trusted history, of few mails, that may be printed. `tells_trusted` of `proofs/RestLemmas` makes the headline of it,
//! which names no machine (`TellsTrusted`): whoever writes what is told of such a run has written what is told of a
//! trusted history.
#![tactic(auto)]

mod answer;
mod ended;
mod input;
mod listed;
mod refusals;
mod status;
mod told;

pub use answer::{Answer, no_text};
pub use ended::{ending, leave, settle};
pub use input::scenario_in;
pub use listed::{StepRefusal, follow};
pub use refusals::refusal_line;
pub use status::Status;
pub use told::{proved_facts, text_of};
