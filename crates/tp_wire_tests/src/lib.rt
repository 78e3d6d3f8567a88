//! A wire used by one thread, and by two, four and eight at a time.
#![tactic(auto)]

#[cfg(test)]
mod one_thread;
#[cfg(test)]
mod plan;
#[cfg(test)]
mod threads;
#[cfg(test)]
mod worker;
