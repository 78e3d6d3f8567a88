//! Runs the cluster: the words are the command's, standard input is the scenario that it reads, and what it is asked for goes to
//! standard output, a refusal to standard error.
#![tactic(auto)]

use std::process::ExitCode;
use tp_args::words;
use tp_io::{StdNotes, StdSink, StdSource};
use tp_top::{Status, tpvc};
use tp_types::NoMemory;

fn main(rt: HostRuntime) -> ExitCode {
    let mut input = StdSource::new(rt.stdin());
    let mut out = StdSink::new(rt.stdout());
    let mut notes = StdNotes::new(rt.stderr());
    let status = match words(&rt) {
        Ok(words) => tpvc(
            rt.alloc(),
            words.as_slice(),
            &mut input,
            &mut out,
            &mut notes,
        ),
        Err(NoMemory) => Status::NoMemory,
    };
    ExitCode::from(status.number())
}
