//! Scenarios that are read, and what they say or why they are refused.
use crate::said::said;
use std::alloc::Global;
use tp_policy_text::ParseError;
use tp_scenario::{ScenarioError, read};
use tp_types::{NoMemory, Text};

/// A word, and what stands behind it.
fn line(alloc: Global, word: &str, rest: &[u8]) -> Result<Vec<u8>, NoMemory> {
    let mut line = Vec::from_slice(alloc, word.as_bytes())?;
    line.extend_from_slice(rest)?;
    Ok(line)
}

fn at(alloc: Global, word: &str, path: &Text) -> Result<Vec<u8>, NoMemory> {
    line(alloc, word, path.0.as_slice())
}

/// Adds why a text is no policy.
pub fn add_fault(alloc: Global, line: &mut Vec<u8>, fault: ParseError) -> Result<(), NoMemory> {
    let told = match fault {
        ParseError::TooLong => String::from_str(alloc, " toolong 4096")?,
        ParseError::TooDeep { place } => format!(in alloc; " toodeep {place}")?,
        ParseError::Syntax { place } => format!(in alloc; " syntax {place}")?,
        ParseError::NoMemory => return Err(NoMemory),
    };
    line.extend_from_slice(told.as_bytes())?;
    Ok(())
}

fn policy(alloc: Global, path: &Text, fault: ParseError) -> Result<Vec<u8>, NoMemory> {
    let mut line = at(alloc, "policy ", path)?;
    add_fault(alloc, &mut line, fault)?;
    Ok(line)
}

fn refusal(alloc: Global, why: &ScenarioError) -> Result<Vec<u8>, NoMemory> {
    match why {
        ScenarioError::TooLong => line(alloc, "toolong", &[]),
        ScenarioError::BadJson => line(alloc, "badjson", &[]),
        ScenarioError::Shape { path } => at(alloc, "shape ", path),
        ScenarioError::Range { path } => at(alloc, "range ", path),
        ScenarioError::Unknown { path } => at(alloc, "unknown ", path),
        ScenarioError::Policy { path, fault } => policy(alloc, path, *fault),
        ScenarioError::NoMemory => Err(NoMemory),
    }
}

/// What a scenario says, or why it is refused.
pub fn answer(alloc: Global, text: &str) -> Result<Vec<u8>, NoMemory> {
    match read(alloc, text.as_bytes()) {
        Ok(scenario) => said(alloc, &scenario),
        Err(why) => refusal(alloc, &why),
    }
}
