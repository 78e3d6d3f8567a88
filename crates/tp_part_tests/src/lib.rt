//! The parts that need no machine, as far as no table of cases says it: each call once with ample memory, streams and devices that
//! fail, the bytes of records, and images of logs. Expected values were worked out by hand, typed from the formats, or recorded
//! from another program.
#![tactic(auto)]

#[cfg(test)]
mod copies;
#[cfg(test)]
mod counted;
#[cfg(test)]
mod evaluation;
#[cfg(test)]
mod io;
#[cfg(test)]
mod locks;
#[cfg(test)]
mod log_images;
#[cfg(test)]
mod logs;
#[cfg(test)]
mod made;
#[cfg(test)]
mod offices;
#[cfg(test)]
mod places;
#[cfg(test)]
mod plain;
#[cfg(test)]
mod policy_text;
#[cfg(test)]
mod record_bytes;
#[cfg(test)]
mod record_kinds;
#[cfg(test)]
mod records;
#[cfg(test)]
mod recovery;
#[cfg(test)]
mod schemes;
#[cfg(test)]
mod small_scenario;
#[cfg(test)]
mod store;
