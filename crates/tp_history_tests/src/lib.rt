//! Histories made by hand, and what the judge of histories says of each: which of its facts is the first that breaks
//! agreement, trust, causes or serial data, as it was worked out by hand; and the lines that stand below decisions.
#![tactic(auto)]

#[cfg(test)]
mod agreement;
#[cfg(test)]
mod causes;
#[cfg(test)]
mod conflicts;
#[cfg(test)]
mod continuous;
#[cfg(test)]
mod deferred;
#[cfg(test)]
mod incremental;
#[cfg(test)]
mod instances;
#[cfg(test)]
mod newer;
#[cfg(test)]
mod proofs;
#[cfg(test)]
mod punctual;
#[cfg(test)]
mod refusals;
#[cfg(test)]
mod scenario;
#[cfg(test)]
mod serial;
#[cfg(test)]
mod story;
#[cfg(test)]
mod trial;
#[cfg(test)]
mod verdict;
#[cfg(test)]
mod versions;
#[cfg(test)]
mod whole;
#[cfg(test)]
mod why;
