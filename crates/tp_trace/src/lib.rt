//! The trace: a run step by step, with what each step brought, forced, made known, changed and sent.
//!
//! What is promised, with the contract that carries it:
//!
//! - Whoever tells a run (`Telling`) tells by each step that is done the lines of its block, and nothing else; a step
//!   that is refused is not told (`World::step`: `followed`, `unseen`, by `Watch for Telling`). What was told is the
//!   trace of the steps, unless memory was refused (`Telling::begun`, `text`)
//! - The words of a mail and of a record are exactly the defined ones (`put_mail`, `put_record`); those of a step are
//!   of `tp_report` (`put_step_text`)
//! - The report of a run is in its trace: in the lines of its steps, and the last lines (`traces_tell_reports`)
//!
//! Nothing but the text is kept between two steps: before a step the ends of lists are taken, and what is seen of the one
//! actor whom it moves; in it the record is heard of that this actor forces; behind it what differs is put. No log is
//! read for it. What stands below a fact and is not in a
//! report is of `tp_why`, and the last lines of a run are those of its report (`tp_report::put_ending`).
#![tactic(auto)]

mod blocks;
mod bodies;
mod lines;
mod phases;
mod records;
mod seen;
mod telling;
mod told;
mod why;
mod words;

pub use blocks::Noted;
pub use bodies::put_mail;
pub use lines::Kind;
pub use records::put_record;
pub use seen::Seen;
pub use telling::Telling;
pub use told::traces_tell_reports;
