//! Races whose servers are held at a gate: that two servers act at the same time, that one is passed under its lock, and
//! that what is printed is the book of the cluster on which the scripts worked. Races that end otherwise than they began.
//! A race whose printed steps are given to `run`, and a cluster that one caller has used, told by `finish`.
#![tactic(auto)]

#[cfg(test)]
mod ends;
#[cfg(test)]
mod finishes;
#[cfg(test)]
mod gates;
#[cfg(test)]
mod replays;
#[cfg(test)]
mod scenarios;
#[cfg(test)]
mod threads;
