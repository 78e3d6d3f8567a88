//! The lines of refusals of an input.
ghost use Rattle.std.specs.Prelude.{◌≡◌, ◌++◌, IfOk, OnOk, codes};
ghost use Rattle.tp_ends.specs.Refusals as refusals;

use std::alloc::Global;
use tp_policy_text::ParseError;
use tp_report::piece::{put, put_after};
use tp_scenario::ScenarioError;
use tp_types::{List, NoMemory, Text};

/// The line that says why a scenario was refused.
pub fn refusal_line(alloc: Global, why: &ScenarioError) -> Result<Text, NoMemory>
    ensures { IfOk result (λ line. line.0 ≡ refusals.refusal_line why.now) }
{
    match why {
        ScenarioError::TooLong => line_of(alloc, b"refused toolong\n"),
        ScenarioError::BadJson => line_of(alloc, b"refused badjson\n"),
        ScenarioError::Shape { path } => line_at(alloc, b"refused shape ", path),
        ScenarioError::Range { path } => line_at(alloc, b"refused range ", path),
        ScenarioError::Unknown { path } => line_at(alloc, b"refused unknown ", path),
        ScenarioError::Policy { path, fault } => policy_line(alloc, path, *fault),
        ScenarioError::NoMemory => line_of(alloc, b""),
    }
}

/// A line that ends with a path.
fn line_at(alloc: Global, front: &[u8], path: &Text) -> Result<Text, NoMemory>
    ensures { IfOk result (λ line. line.0 ≡ front.now ++ path.now.0 ++ codes "\n") }
{
    let mut line = Vec::from_slice(alloc, front)?;
    line.extend_from_slice(path.0.as_slice())?;
    line.extend_from_slice(b"\n")?;
    Ok(Text(List::from_vec(line)))
}

/// What is wrong with a policy's text, and at which byte of it.
fn put_fault(line: &mut Vec<u8>, fault: ParseError) -> Result<(), NoMemory>
    ensures { OnOk result (line.new.items ≡ line.old.items ++ refusals.fault_text fault) }
{
    match fault {
        ParseError::Syntax { place } => put_after(line, b" syntax ", place),
        ParseError::TooDeep { place } => put_after(line, b" toodeep ", place),
        ParseError::TooLong => put(line, b" toolong 4096"),
        ParseError::NoMemory => put(line, b""),
    }
}

/// The line of a text that is no policy.
fn policy_line(alloc: Global, path: &Text, fault: ParseError) -> Result<Text, NoMemory>
    ensures { IfOk result (λ line.
        line.0 ≡ refusals.refusal_line (ScenarioError.Policy path.now fault)) }
{
    let mut line = Vec::from_slice(alloc, b"refused policy ")?;
    put(&mut line, path.0.as_slice())?;
    put_fault(&mut line, fault)?;
    put(&mut line, b"\n")?;
    Ok(Text(List::from_vec(line)))
}

fn line_of(alloc: Global, bytes: &[u8]) -> Result<Text, NoMemory>
    ensures { IfOk result (λ line. line.0 ≡ bytes.now) }
{
    Ok(Text(List::from_vec(Vec::from_slice(alloc, bytes)?)))
}
