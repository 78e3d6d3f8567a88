//! What holds of every run of the machine, after every list of steps: the history is trusted, values are bounded, mails
//! are few, and records are short.
//!
//! What is promised, with the contract that carries it:
//!
//! - In a world that is not given up what each actor's state, each mail, record and fact names is what the
//!   scenario has: transactions, queries, servers, items, administrators and credentials, each beside what it goes
//!   with; a deed has its query's item and action, and no credential stands twice in a proof (`Sound.IsSound`)
//!   (`history::facts`: `sound`)
//! - In a world that is not given up each value of query number i, in an actor's state, a mail, a record or a
//!   fact, is within 10^15 * 5^i, and each item's value, at a server and by its log, is in its range, within
//!   10^15; so the sums over what a coordinator has read are exact, and no step of them stops at an end of an
//!   i128 (`Bounded.AreBounded`) (`history::facts`: `bounded`)
//! - The facts of every world agree (`agree::agreed`: `agreement`)
//! - Every commit of every world is trusted, and every decided abort has its cause (`views::trusted`: `trust`,
//!   `causes`)
//! - Every commit of every world is serial, and the only one of its place (`data::serial`: `data`, `lone`)
//! - The history that a world shows is trusted at every moment: all of the above, and what comes from outside
//!   is what its steps say (`TrustedSoFar`) (`history::facts`: `so_far`)
//! - Each item's value at any moment is its opening value, overlaid by the commits that its server has settled,
//!   whether that server is up or down; where every transaction has ended at all its servers these are the values that
//!   all commits leave (`history::ending`: `overlaid`, `whole`)
//! - Where each transaction was submitted, and its coordinator is up and has no request outstanding, each was decided,
//!   and settled so at each of its servers (`history::ending`: `ended`)
//! - The law behind these: of every scenario that is run, after every list of steps that name what exists, the
//!   history is trusted so far; where all transactions are finished they have ended; and where they have ended the
//!   values are those of all commits (`laws::histories_are_trusted`: `trusted`, `ended`, `whole`)
//! - In a world that is not given up at most 128 times as many mails were sent as steps were done, though a
//!   single step may send more (`history::mails`: `few`)
//! - The law behind it: of every scenario that is run, no list of steps that name what exists sends more than
//!   128 times as many mails as it has steps (`laws::mails_are_few`)
//! - Of every scenario that is run, after every list of steps that name what exists, no record on an actor's log is
//!   too long for a log (`laws::records_fit`); so the world of each such scenario can be started, and its actors force
//!   what they log without a refusal but for want of memory (`history::start`)
//! - Of every scenario that is run, after every list of fewer than 2^57 steps that name what exists and whose numbers are
//!   of 64 bits, what it shows may be printed (`laws::histories_are_printable`)
//!
//! These hold after every list of steps, in any order, with losses, timers, deliveries of any mail ever sent, and
//! crashes and boots of servers and coordinators, where a crash in a receipt leaves the record of that receipt or nothing;
//! agreement, trust with causes, and serial data also of a world that was given up. The calls lean on the condition of
//! `World::start`, that the scenario is valid, and on that of `World::step`; the laws ask both of
//! their scenario and their steps. Each call takes from `World::facts` that the world is what its steps give.
#![tactic(auto)]

pub mod agree;
pub mod data;
pub mod history;
pub mod laws;
pub mod views;
