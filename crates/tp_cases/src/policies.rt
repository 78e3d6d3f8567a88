//! Texts of policies, and what they say.
ghost use Rattle.tp_policy_text.specs.Printed.{IsOfGrammar};

use crate::readings::add_fault;
use crate::spelling::{fill, unescaped};
use std::alloc::Global;
use tp_policy_text::{ParseError, parse, print};
use tp_types::{NoMemory, Policy};

/// A text, with blanks behind it up to the length that is told behind a tab.
fn text_of(alloc: Global, given: &str) -> Result<Vec<u8>, NoMemory> {
    let (text, length) = given.split_once('\t').unwrap_or((given, ""));
    let mut text = unescaped(alloc, text)?;
    fill(&mut text, length)?;
    Ok(text)
}

fn printed(alloc: Global, policy: &Policy) -> Result<Vec<u8>, NoMemory>
    requires { IsOfGrammar policy.now }
{
    let text = print(alloc, policy)?;
    let mut line = Vec::from_slice(alloc, b"prints ")?;
    line.extend_from_slice(text.0.as_slice())?;
    Ok(line)
}

fn refused(alloc: Global, fault: ParseError) -> Result<Vec<u8>, NoMemory> {
    let mut line = Vec::from_slice(alloc, b"refuses")?;
    add_fault(alloc, &mut line, fault)?;
    Ok(line)
}

/// The printed form of what a text says, or why it says nothing.
pub fn answer(alloc: Global, given: &str) -> Result<Vec<u8>, NoMemory> {
    let text = text_of(alloc, given)?;
    match parse(alloc, text.as_slice()) {
        Ok(policy) => printed(alloc, &policy),
        Err(fault) => refused(alloc, fault),
    }
}
