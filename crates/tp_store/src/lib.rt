//! What a server keeps of data and versions: the values of items, the writes of transactions that are not settled, and the newest
//! versions that it knows.
//!
//! What is promised, with the contract that carries it:
//!
//! - A store begins as the scenario says (`Store::opened`), and what it begins with is told (`OpeningValues::of`,
//!   `known_at_first`); or it begins with what a log leaves (`Store::restored`; over a share of the ranges of items, which
//!   stores do not copy, `Store::over`, `Ranges`)
//! - Values are the opening ones with what was put over them, each by its item; putting takes no memory (`Values::over`,
//!   `Values::get`, `Values::put`). Stores share the opening ones (`OpeningValues::share`), and on `first_item`, which has no
//!   contract, hangs only how much memory a store touches
//! - A transaction reads what it has written itself, or else the item's value (`Store::read`, `Store::value`)
//! - Of two writes of one item the last by query is kept; where memory is refused the store stays
//!   (`Store::write`: `ok`, `err`)
//! - The first write outside its range is answered, and None exactly where there is none
//!   (`Store::first_outside`)
//! - A transaction is applied or forgotten as defined; neither can be refused memory (`Store::apply`,
//!   `Store::forget`)
//! - The newest version known is answered, and the greater is kept of what is told (`Store::newest`,
//!   `Store::told`)
//! - After its last write of an item by query a transaction of the store reads what it wrote; a write changes
//!   nothing that is kept of another item or another transaction (`own_writes_are_read`: `own`, `items`,
//!   `transactions`)
//! - Where a write comes that is the last of its item by query, applying it with the others is applying the
//!   others and then setting its item; and no two writes of a transaction are of one item
//!   (`writes_are_applied_in_order`: `order`, `apart`)
//! - The write that is answered as the first outside is one of the transaction's, is outside, and no write that
//!   is outside is of a lesser query; where none is answered none is outside (`first_outside_is_least`)
//!
//! No call asks a condition of its caller: an item that is not there has the value 0, a transaction that is not
//! there keeps no write, and of an administrator that is not there version 1 is known.
#![tactic(auto)]

mod laws;
mod opening;
mod ranges;
mod store;
mod tentative;
mod values;
mod writes;

pub use laws::{first_outside_is_least, own_writes_are_read, writes_are_applied_in_order};
pub use opening::{first_item, known_at_first};
pub use ranges::Ranges;
pub use store::Store;
pub use values::{OpeningValues, Values};
pub use writes::{Bounds, TentativeWrite};
