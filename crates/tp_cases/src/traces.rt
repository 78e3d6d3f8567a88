//! What holds of the trace of each recorded run that comes to rest.
use crate::runs;
use std::alloc::Global;
use std::fs::{self, Files};
use std::{io, str};
use tp_types::NoMemory;

/// What is to hold of a run and its trace.
#[derive(Clone, Copy)]
pub enum Law {
    /// The report is what the trace says of facts, of what a commit rests on, and of the end.
    Told,
    /// The scenario that lists the steps of the trace has the same report, and the same trace, in which no step comes by
    /// itself.
    Replayed,
}

/// The place of a line, its kind and its words. The last lines of a trace have neither a place nor a kind.
fn parts(line: &str) -> (&str, &str, &str) {
    if line.starts_with("item ") || line.starts_with("quiet ") {
        return ("", "", line);
    }
    let (place, rest) = line.split_once(' ').unwrap_or((line, ""));
    let (kind, words) = rest.split_once(' ').unwrap_or((rest, ""));
    (place, kind, words)
}

fn add(text: &mut String, parts: &[&str]) -> Result<(), NoMemory> {
    for part in parts {
        text.push_str(part)?;
    }
    Ok(())
}

/// Adds the line of a report that a line of a trace tells, where it tells one.
fn add_told(report: &mut String, line: &str) -> Result<(), NoMemory> {
    match parts(line) {
        (_, "", end) => add(report, &[end, "\n"]),
        (place, "fact", fact) => add(report, &[place, " ", fact, "\n"]),
        (_, "because", below) => add(report, &["  ", below, "\n"]),
        _ => Ok(()),
    }
}

/// The report that is in a trace.
fn told(alloc: Global, trace: &str) -> Result<String, NoMemory> {
    let mut report = String::from_str(alloc, "tpvc 1\n")?;
    for line in trace.lines().skip(1) {
        add_told(&mut report, line)?;
    }
    Ok(report)
}

/// Adds a line of a trace, in which a step is one that the scenario lists.
fn add_listed(trace: &mut String, line: &str) -> Result<(), NoMemory> {
    match parts(line) {
        (place, "auto", step) => add(trace, &[place, " step ", step, "\n"]),
        _ => add(trace, &[line, "\n"]),
    }
}

/// The trace of a scenario that lists all steps of this one.
fn listed(alloc: Global, trace: &str) -> Result<String, NoMemory> {
    let mut listed = String::new(alloc);
    for line in trace.lines() {
        add_listed(&mut listed, line)?;
    }
    Ok(listed)
}

/// The steps of a trace, as the members of an array.
fn steps_of(alloc: Global, trace: &str) -> Result<String, NoMemory> {
    let mut steps = String::new(alloc);
    for line in trace.lines() {
        if let (_, "step" | "auto", step) = parts(line) {
            let comma = if steps.is_empty() { "" } else { "," };
            add(&mut steps, &[comma, "\"", step, "\""])?;
        }
    }
    Ok(steps)
}

/// The scenario that lists the steps of a trace. It gains a member, since of a key that is repeated the last value counts.
fn replayed(alloc: Global, scenario: &str, trace: &str) -> Result<String, NoMemory> {
    let (members, _) = scenario.rsplit_once('}').unwrap_or((scenario, ""));
    let steps = steps_of(alloc, trace)?;
    let mut replayed = String::from_str(alloc, members)?;
    add(&mut replayed, &[",\"steps\":[", steps.as_str(), "]}"])?;
    Ok(replayed)
}

/// Whether a command makes this text of a scenario.
fn makes(alloc: Global, command: &str, scenario: &str, text: &[u8]) -> Result<bool, NoMemory> {
    let answer = runs::answer(alloc, command, scenario.as_bytes())?;
    Ok(answer.as_slice() == text)
}

fn is_told(alloc: Global, scenario: &str, trace: &str) -> Result<bool, NoMemory> {
    let report = told(alloc, trace)?;
    makes(alloc, "run", scenario, report.as_bytes())
}

fn is_replayed(alloc: Global, scenario: &str, trace: &str) -> Result<bool, NoMemory> {
    let replayed = replayed(alloc, scenario, trace)?;
    let listed = listed(alloc, trace)?;
    let report = runs::answer(alloc, "run", scenario.as_bytes())?;
    let has_report = makes(alloc, "run", replayed.as_str(), report.as_slice())?;
    let has_trace = makes(alloc, "trace", replayed.as_str(), listed.as_bytes())?;
    Ok(has_report && has_trace)
}

/// Whether the law holds of a scenario.
fn is_kept(alloc: Global, law: Law, scenario: &str) -> Result<bool, NoMemory> {
    let answer = runs::answer(alloc, "trace", scenario.as_bytes())?;
    match (law, str::from_utf8(answer.as_slice())) {
        (_, Err(_)) => Ok(false),
        (Law::Told, Ok(trace)) => is_told(alloc, scenario, trace),
        (Law::Replayed, Ok(trace)) => is_replayed(alloc, scenario, trace),
    }
}

/// Whether a line has a scenario that comes to rest: behind a tab, or in files.
pub fn is_at_rest(line: &str) -> bool {
    line.contains('\t') || line.ends_with(" 0 run") || line.ends_with(" 0 trace")
}

/// The scenario of a line, without the blanks that a length asks for.
fn scenario<R: Files + AllocGlobal>(rt: &R, folder: &str, line: &str) -> io::Result<String> {
    if let Some((_, scenario)) = line.split_once('\t') {
        return Ok(String::from_str(rt.alloc(), scenario)?);
    }
    let (named, _) = line.split_once(' ').unwrap_or((line, ""));
    let (name, _) = named.split_once(':').unwrap_or((named, ""));
    fs::read_to_string(rt, format!(in rt.alloc(); "{folder}/{name}.json")?)
}

/// Whether the law holds of the scenario of a line.
fn holds<R: Files + AllocGlobal>(rt: &R, folder: &str, law: Law, line: &str) -> io::Result<bool> {
    let scenario = scenario(rt, folder, line)?;
    Ok(is_kept(rt.alloc(), law, scenario.as_str()).unwrap_or(false))
}

/// What stands before the scenario of a line, or names it, where the law does not hold of it.
pub fn fault<'a, R: Files + AllocGlobal>(
    rt: &R,
    folder: &str,
    law: Law,
    line: &'a str,
) -> Option<&'a str> {
    if holds(rt, folder, law, line).unwrap_or(false) {
        return None;
    }
    let (named, _) = line.split_once('\t').unwrap_or((line, ""));
    Some(named)
}
