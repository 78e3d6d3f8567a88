//! A large scenario, by the number of its transactions, and the line of its run.
//!
//! What is promised, with the contract that carries it:
//!
//! - The scenario is exactly the defined one, and keeps every rule (`scenario_of`: `value`, `valid`)
//! - The line is exactly the defined one, of any facts and ending: its commits and aborts count decisions (`run_line`)
#![tactic(auto)]

mod bulk;
mod draws;
mod line;
mod servers;

pub use bulk::scenario_of;
pub use line::run_line;
