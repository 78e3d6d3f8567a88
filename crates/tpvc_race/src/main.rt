//! Runs a race: standard input is its scenario, and the steps that happened and their report go to standard output, a
//! refusal to standard error. It takes no words.
#![tactic(auto)]

use std::process::ExitCode;
use tp_args::words;
use tp_io::{StdNotes, StdSink, StdSource};
use tp_race::{Gate, Status, race};
use tp_types::NoMemory;

/// A gate that holds nobody.
struct Open;

impl Gate for Open {
    fn pass(&self, _point: u32) {}
}

fn main(rt: HostRuntime) -> ExitCode {
    let mut input = StdSource::new(rt.stdin());
    let mut out = StdSink::new(rt.stdout());
    let mut notes = StdNotes::new(rt.stderr());
    let status = match words(&rt) {
        Ok(words) => race(
            &rt,
            rt.alloc(),
            words.as_slice(),
            &mut input,
            &mut out,
            &mut notes,
            &Open,
        ),
        Err(NoMemory) => Status::NoMemory,
    };
    ExitCode::from(status.number())
}
