//! The tests of what stands on the machine: calls on a world that no scenario makes, a world
//! that is refused memory, reports of facts that no run yields yet, and a top
//! call with a word that no table of cases spells. Expected values were worked out by hand. Whole runs, and calls of which a stream fails,
//! are the cases of tp_cases.
#![tactic(auto)]

#[cfg(test)]
mod part;
#[cfg(test)]
mod refused;
#[cfg(test)]
mod report;
#[cfg(test)]
mod run;
#[cfg(test)]
mod world;
