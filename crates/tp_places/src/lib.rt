//! Tables with a place for each number below a count, of which most stay empty.
//!
//! What is promised, with the contract that carries it:
//!
//! - A new table has so many empty places (`Places::none`)
//! - What is put at a place stands there, and the others stay; where memory is refused nothing changes (`Places::put`)
//! - What stands at a place is lent, also to be changed, taken out of it, or dropped (`Places::get`, `Places::get_mut`,
//!   `Places::take`, `Places::clear`); how many places there are is told, and whether one is empty
//!   (`Places::count`, `Places::is_unset`)
//! - Behind the places that are in memory there are only empty ones (`Places::made`, `Places::into_made`), and a table is
//!   made of such a front (`Places::from_made`)
//! - An overlay has so many empty places, and room for all (`Overlay::none`); what is put at a place stands there, and the others
//!   stay, and this takes no memory (`Overlay::put`, `Overlay::get`)
//!
//! That only the first places are in memory, up to the last that was ever filled, and of an overlay those from a place on that
//! its maker tells, is by the bodies; no contract says what memory a table takes.
#![tactic(auto)]

mod overlay;
mod places;

pub use overlay::Overlay;
pub use places::Places;
