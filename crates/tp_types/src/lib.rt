//! The plain types that every layer speaks of: ids, policies, the scenario, log records, mails and facts.
//!
//! What is promised, with the contract that carries it:
//!
//! - A list has what was put into it, in order; what is not there is answered by None (`List::new`, `from_vec`,
//!   `into_vec`, `len`, `is_empty`, `as_slice`, `iter`, `get`, `get_mut`, `pop`, `put`, `of_one`, `truncate`,
//!   each by its clauses)
//! - A push adds the member at the end; where memory is refused the list stays (`List::push`: `ok`, `err`)
//! - A list of one member is made in memory that an earlier list has left, if one has, and so is an empty vector with
//!   room (`Spare::list_of`; `Spare::room`: `empty`, `room`)
//! - A step raises the count by the weight of who counts, which is one or nothing (`Tally::step`: `exact`, `most`)
//! - A copy equals what it copies (`TryClone::try_clone`, which each type of scenarios, records, mails and
//!   facts has)
//! - Two answers taken together are both values, or the first failure (`both`: `ok`, `err`)
//! - Bytes become a name exactly where they are spelled as one, and the name has these bytes (`Name::of`,
//!   `Name::bytes`: `value`, `spelled`)
//! - Bytes are read as a number exactly where they spell one, which is below 10^15 (`number_of`: `value`,
//!   `small`)
//! - Whether a byte is a letter, a digit or one that a name may go on with, and whether bytes are spelled as a
//!   name, is answered exactly (`is_letter`, `is_digit`, `is_name_byte`, `is_name`)
//! - A new table has so many empty places; what stands at a place is taken out of it, and leaves the place
//!   empty (`none_for_each`; `take_at`: `value`, `left`)
#![tactic(auto)]

mod counted;
mod fact;
mod ids;
mod list;
mod mail;
mod name;
mod number;
mod policy;
mod reaction;
mod records;
mod results;
mod scenario;
mod spare;
mod spelling;
mod table;

pub use counted::{Steps, Tally, Uncounted};
pub use fact::{Ending, Fact, What};
pub use ids::{AdminId, CredId, ItemId, Place, ServerId, TxnId, Version};
pub use list::{List, NoMemory, TryClone};
pub use mail::{
    AckReply, Answer, AskRequest, Body, DecideRequest, DoneReply, InquireRequest, Letter, Mail,
    NewestReply, PrepareRequest, ProbeRequest, PushNotice, QueryRequest, Reaction, TellReply,
    ValidateRequest, VerdictsReply, Vote, VoteReply,
};
pub use name::{Name, Text, is_name};
pub use number::number_of;
pub use policy::{Action, Cond, Op, Pattern, Policy, Rule, Value};
pub use reaction::{forced_and_sent, ignored, nothing, sent_alone};
pub use records::{
    Cause, CommitRecord, Decided, Decision, Deed, Denied, Died, Instance, Met, Newer, No,
    OutOfRange, Outcome, Prepared, Reading, Record, Settled, Staple, Told, Verdict,
};
pub use results::both;
pub use scenario::{
    Actor, Admin, Credential, Cut, Item, Level, Operand, Query, Scenario, Scheme, ServerDecl, Step,
    Term, Transaction,
};
pub use spare::Spare;
pub use spelling::{DIGITS_MAX, NAME_MAX, is_digit, is_letter, is_name_byte};
pub use table::{none_for_each, take_at};
