//! The top call of the cluster's program, and what stands directly under it: a module for each command, and the lines
//! of refused steps. And the law that the text of a step is read back as this step.
//!
//! What is promised, with the contract that carries it, of all commands:
//!
//! - At Done the words are a command, and what this command promises is so, in words that name no machine (`tpvc`:
//!   `promised`, by its row of `Promises`)
//! - At Done the output has gained exactly what the command asks for (its row of `HasText`), and the notes nothing
//!   (`tpvc`: `ended`: `IsDone`)
//! - At Refused the words are a command, and the notes have gained exactly the line of a refusal of it, and the output
//!   what is told before that (its row of `RefusesFor`) (`tpvc`: `ended`: `IsRefused`)
//! - At Usage the words are no command, the notes have gained the line on usage, and the output nothing (`tpvc`:
//!   `ended`: `IsUsage`)
//! - At ReadFault the words are a command that reads its input, the input's count of faults rose, what was taken is a
//!   front of what it had, and nothing was written (`tpvc`: `ended`: `IsReadFault`)
//! - At WriteFault the count of faults rose of the one sink that the answer is written to; the words, the input and the
//!   cause are as at Done, Refused or Usage; that sink has gained a front of the very text or line, which is not the
//!   whole, and the other nothing, or, if it is the notes, what stands before the line of a refusal (`tpvc`: `ended`:
//!   `IsOutFault`, `IsTellingFault`, `IsRefusalFault`, `IsUsageFault`)
//! - At NoMemory nothing was written (`tpvc`: `ended`: `IsNoMemory`)
//! - Where nothing failed that a command needs, each cause has the status that it owes (its row of `Owes`), or NoMemory
//!   (`tpvc`: `complete`)
//! - Where the notes' count of faults did not rise, words that are no command are answered by Usage or NoMemory
//!   (`tpvc`: `called`)
//! - At every status no more is taken of the input than the command that the words are may take (its row of
//!   `reads_at_most`), and nothing where they are none (`tpvc`: `taken`); where that is nothing the input stays as it
//!   was (`tpvc`: `unread`)
//!
//! Of each command, by its rows:
//!
//! - `run` promises that the input was read whole as a scenario, and exactly the report of a trusted history of it was
//!   written, whose steps are the listed ones and then such as come by themselves; it has few mails, and can be read
//!   back (`PrintsTrusted`). That is the report of the machine's facts and ending, which refuses none of the listed
//!   steps, and is quiet after all steps (`RunsTo`)
//! - `trace` promises the same of the trace of the steps of such a history, and how it has ended, and that its report
//!   is what the trace says of facts (`TracesTrusted`)
//! - Both are refused where what was taken is no scenario (`RefusesInput`), or by the first listed step that the
//!   machine refuses, with its number and the reason (`RefusesStep`). Nothing is told before that, but for `trace` and
//!   a refused step exactly the trace of the steps before it
//! - Both take at most 16,777,217 bytes. Of an input that tells its bytes, where no count rose, they owe to too many
//!   bytes the line `refused toolong`, to any other bytes that are refused the line of their refusal, with its path, to
//!   a scenario of which a listed step is refused the line of the first such step, and to any other scenario Done, as
//!   it comes to rest (`EndsRightly`)
//! - `bulk` promises that exactly the line of a trusted history of the large scenario was written (`CountsTrusted`). It
//!   is never refused, takes nothing of the input, and owes Done where the output's count of faults did not rise
//!
//! The history is trusted (`TrustedHistory`): no two actors decide a transaction differently, every commit's proofs
//! evaluate true as its scheme demands, every abort has its cause, data are those of a serial run, what comes from
//! outside is what the steps say, every transaction was submitted, decided, and settled so at each of its servers, and
//! the values are those that the servers have settled, which are those that all commits leave.
//!
//! - In a valid scenario whose names are spelled as names, as each is that is read, the text of a step (of `tp_report`)
//!   that names what exists, and whose numbers are in their ranges, says this step and no other one: a mail's number
//!   has at most 15 digits there. And of at most 100,000 such texts, where the scenario lists steps, these steps are
//!   read in their order (`laws::steps_are_read_back`: `steps`, `lists`)
//!
//! What a source or sink does not tell is not known: the standard streams of the program tell none of their bytes, so
//! of them the clauses say nothing.
#![tactic(auto)]

mod answer;
mod bulk;
pub mod laws;
mod refusals;
mod run;
mod runs;
mod top;
mod trace;

pub use top::tpvc;
pub use tp_ends::Status;
