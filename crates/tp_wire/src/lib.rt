//! A history that many threads extend, each with a pass that says what it has seen of it.
//!
//! The history stands behind one lock. Beside it is a table of one word, the history's length, under a rule that says
//! what each pass knows (`specs/Rule`): which beginning of the history it has seen, and which parts of it are its own.
//! A part has a number, and no two have one. A step is posted by a pass that holds the part of one actor; its entry
//! names the numbers of all parts that the pass holds, and stands in each of them. What a pass knows is in proofs
//! alone: it holds no copy of the history, and a call takes a time that does not grow with it.
//!
//! What is promised, with the contract that carries it:
//!
//! - A history keeps the law that the layer above gives: each entry may follow those before it, and is of one actor
//!   (`Law`; `lawful` and `acted` of `IsPosted`, `SeesAll`, `IsLook` and `IsClosed`)
//! - The passes of an opened wire are numbered from 0 in their order, have seen nothing, and have a part of their
//!   number each (`Wire::opened`)
//! - A look answers a length, no less than the pass had been told or has seen; that the history has reached it is said
//!   of the closed book (`told` of `IsClosed`). What the pass has seen keeps the law, and no entry of its parts stands
//!   behind theirs (`Wire::look`: `look`)
//! - A post adds the step at the place that it answers, behind all that its pass had seen and been told. The pass has
//!   then seen the history up to this step and with it, and it stands in each of the pass's parts (`Wire::post`: `ok`).
//!   Where memory is refused, the pass knows what it knew, and is given up (`err`)
//! - A mail is that of its number in what the pass has then seen, which is no shorter than it had been told; where there
//!   is none, so many mails there are (`Wire::mail`: `ok`, `seen`)
//! - A take answers a number below which as many mails had been taken, and the pass then shows it as taken; or None,
//!   where as many had been taken as were sent in what the pass has then seen, which it shows as cleared (`Wire::take`:
//!   `some`, `none`, `seen`). Who had taken which is said of the closed book
//! - A pass that takes another in has the parts of both, the longer beginning and the greater numbers
//!   (`Wire::take_in`). A pass that gives a part back keeps the others, and the new one has seen as much
//!   (`Wire::give_back`)
//! - The closed book is one history. All entries that name a part's number are the part's, in order. Where the parts of
//!   all actors are given, each step stands in just one of them. The mails that were taken are the book's first ones,
//!   each taken by one part, so that none was taken twice and none passed over; all that was sent up to where a pass was
//!   cleared is among them (`Wire::close`, by `IsClosed`)
//! - Want of memory is shown by the pass that met it, and what other passes know stays true (`Pass::given_up`; the
//!   rule)
//!
//! *Cost, by the bodies.* A post takes its room before anything is changed. It takes one lock and makes three atomic
//! steps (a join, an addition and a split), and moves its step, facts and letters to the end of three vectors. A mail
//! and a take take one lock and three steps each, a look one step and no lock, `take_in` and `give_back` one step each.
//!
//! Of posts with one letter by one thread, 1,000,000 take 524 million instructions and 4,000,000 take 2,093 million, where
//! a bare lock round two vectors takes 409 and 1,636 (callgrind, with the making of the letters, on a build by LLVM).
//!
//! Not claimed: that a call which takes the lock returns, that a pass gets on while others do, or which of two posts
//! comes first where neither was told of the other.
#![tactic(auto)]

mod board;
mod book;
mod law;
mod pass;
mod plays;
mod view;
mod wire;

pub use book::{Book, Lookup};
pub use law::{Law, Ruled, Site};
pub use pass::Pass;
pub use view::{Entry, Part, View};
pub use wire::{Opening, Wire};
