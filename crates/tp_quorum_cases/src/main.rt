//! Plays runs of a replicated master. Each line of the input is a run: how many replicas, administrators and readers there
//! are, and behind each semicolon a step. For each run one line is written, with these parts: why a step was refused, by
//! its number; behind the listed steps the step that comes next by itself, and what came of each operation so far; then,
//! when the automatic phase has ended, the facts, what came of each operation, the newest version of each administrator,
//! and how many steps were done and mails were sent. A line that begins with # is written as it is, and one that is no run
//! as such.
#![tactic(auto)]

mod playing;
mod reading;
mod telling;

use std::alloc::Global;
use std::io;
use tp_types::NoMemory;

/// What is written for a line.
fn line_of(alloc: Global, given: &str) -> Result<String, NoMemory> {
    let mut line = String::new(alloc);
    if given.starts_with('#') {
        line.push_str(given)?;
        return Ok(line);
    }
    match reading::run_of(alloc, given)? {
        None => line.push_str("no run")?,
        Some(run) => playing::play(alloc, run, &mut line)?,
    }
    Ok(line)
}

fn main(rt: HostRuntime) -> io::Result<()> {
    for given in rt.lines(rt.alloc()) {
        match line_of(rt.alloc(), given?.as_str()) {
            Ok(line) => println!(rt; "{line}")?,
            Err(NoMemory) => println!(rt; "no memory")?,
        }
    }
    Ok(())
}
