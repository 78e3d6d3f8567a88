//! Tries the cases of `data/`, table by table, and says how many went as their table wants.
#![tactic(auto)]

mod locks;
mod logs;
mod policies;
mod readings;
mod rounds;
mod runs;
mod said;
mod spelling;
mod traces;
mod verdicts;

use spelling::unescaped;
use std::alloc::Global;
use std::fs::{self, Files};
use std::io;
use tp_types::NoMemory;
use traces::Law;

/// What a case is.
#[derive(Clone, Copy)]
enum Kind {
    /// A call of the program, with its files.
    Run,
    /// A call of the program of which a call of a stream fails.
    Fault,
    /// A scenario whose bytes are spelled, and how its run ends.
    Bytes,
    /// A log, and what is found on it.
    Log,
    /// A scenario, and the report of its run.
    Evaluation,
    /// A scenario, and what it says or why it is refused.
    Reading,
    /// A round of validation, over several lines.
    Round,
    /// Calls of a table of locks.
    Locks,
    /// A text of a policy, and its printed form or why it is none.
    Policy,
    /// A scenario that comes to rest, of whose trace a law is to hold.
    Traced(Law),
}

/// What stands between two cases.
fn separator(kind: Kind) -> &'static str {
    match kind {
        Kind::Round => "\ncase ",
        _ => "\n",
    }
}

/// How the run of a scenario ends whose bytes are spelled.
fn run_of(alloc: Global, spelled: &str) -> Result<Vec<u8>, NoMemory> {
    let scenario = unescaped(alloc, spelled)?;
    runs::answer(alloc, "run", scenario.as_slice())
}

/// What is answered for what a case gives.
fn answer(alloc: Global, kind: Kind, given: &str) -> Result<Vec<u8>, NoMemory> {
    match kind {
        Kind::Reading => readings::answer(alloc, given),
        Kind::Policy => policies::answer(alloc, given),
        Kind::Bytes => run_of(alloc, given),
        _ => runs::answer(alloc, "run", given.as_bytes()),
    }
}

/// The wanted answer of a case where another is given. A tab stands behind it, and before what the case gives.
fn fault_of_answer<'a>(
    alloc: Global,
    kind: Kind,
    case: &'a str,
) -> Result<Option<&'a str>, NoMemory> {
    let (wanted, given) = case.split_once('\t').unwrap_or((case, ""));
    let answer = answer(alloc, kind, given)?;
    let spelled = unescaped(alloc, wanted)?;
    let is_wanted = answer.as_slice() == spelled.as_slice();
    Ok(if is_wanted { None } else { Some(wanted) })
}

/// The part of a case that does not go as it is wanted, if one does not.
fn fault<'a, R: Files + AllocGlobal>(
    rt: &R,
    folder: &str,
    kind: Kind,
    case: &'a str,
) -> Result<Option<&'a str>, NoMemory> {
    match kind {
        Kind::Run => runs::fault(rt, folder, case),
        Kind::Fault => runs::fault_of_stream(rt, folder, case),
        Kind::Log => logs::fault(rt.alloc(), case),
        Kind::Round => rounds::fault(rt.alloc(), case),
        Kind::Locks => locks::fault(rt.alloc(), case),
        Kind::Traced(law) => Ok(traces::fault(rt, folder, law, case)),
        _ => fault_of_answer(rt.alloc(), kind, case),
    }
}

/// Whether a line of a table is a case: it is not empty, no comment, and fit for what is tried.
fn is_case(kind: Kind, line: &str) -> bool {
    let is_fit = match kind {
        Kind::Traced(_) => traces::is_at_rest(line),
        _ => true,
    };
    is_fit && !line.is_empty() && !line.starts_with('#')
}

/// Tries each case of a table, and says which failed, and how many.
fn try_cases(
    rt: &HostRuntime,
    folder: &str,
    name: &str,
    kind: Kind,
    table: &str,
) -> io::Result<()> {
    let mut passed: u64 = 0;
    let mut failed: u64 = 0;
    let mut number: u64 = 0;
    for case in table.split(separator(kind)) {
        number = number.saturating_add(1);
        if !is_case(kind, case) {
            continue;
        }
        match fault(rt, folder, kind, case).unwrap_or(Some("no memory")) {
            None => passed = passed.saturating_add(1),
            Some(part) => {
                failed = failed.saturating_add(1);
                println!(rt; "{name} {number}: {part}")?;
            }
        }
    }
    println!(rt; "{name}: {passed} passed, {failed} failed")
}

/// Tries a table under a name.
fn try_table(rt: &HostRuntime, folder: &str, name: &str, file: &str, kind: Kind) -> io::Result<()> {
    let table = fs::read_to_string(rt, format!(in rt.alloc(); "{folder}/{file}.txt")?)?;
    try_cases(rt, folder, name, kind, table.as_str())
}

/// The folder that the tables lie in.
fn folder<R: Files + AllocGlobal>(rt: &R) -> &'static str {
    match fs::read_to_string(rt, "runs.txt") {
        Ok(_) => ".",
        Err(_) => "data",
    }
}

fn main(rt: HostRuntime) -> io::Result<()> {
    let folder = folder(&rt);
    for (name, file, kind) in [
        ("runs", "runs", Kind::Run),
        ("streams", "streams", Kind::Fault),
        ("bytes", "bytes", Kind::Bytes),
        ("logs", "logs", Kind::Log),
        ("evaluations", "evaluations", Kind::Evaluation),
        ("readings", "readings", Kind::Reading),
        ("rounds/hand", "rounds/hand", Kind::Round),
        ("rounds/view", "rounds/view", Kind::Round),
        ("rounds/levels", "rounds/levels", Kind::Round),
        ("locks", "locks", Kind::Locks),
        ("policies", "policies", Kind::Policy),
        ("runs told", "runs", Kind::Traced(Law::Told)),
        ("runs replayed", "runs", Kind::Traced(Law::Replayed)),
        ("evaluations told", "evaluations", Kind::Traced(Law::Told)),
        (
            "evaluations replayed",
            "evaluations",
            Kind::Traced(Law::Replayed),
        ),
    ] {
        try_table(&rt, folder, name, file, kind)?;
    }
    Ok(())
}
