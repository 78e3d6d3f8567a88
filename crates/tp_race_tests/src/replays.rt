//! What a race prints, given to `run`.
use crate::scenarios::{SCRIPTED, raced_freely, run_of};
use std::alloc::Global;
use std::process::Abort;
use std::str;
use tp_race::Status;

/// The first line of a report.
const HEAD: &str = "tpvc 1\n";

fn add(rt: &impl Abort, text: &mut String<Global>, more: &str) {
    text.push_str(more).ok().expect(rt, "memory for a text");
}

/// A scenario's text with the steps of these lines.
fn listing(rt: &(impl Abort + AllocGlobal), scenario: &str, lines: &str) -> String<Global> {
    let mut text = String::new(rt.alloc());
    let members = scenario.strip_suffix("}").expect(rt, "an object");
    add(rt, &mut text, members);
    add(rt, &mut text, ",\"steps\":[");
    let mut is_first = true;
    for line in lines.lines() {
        let step = line.strip_prefix("step ").expect(rt, "a line of a step");
        if !is_first {
            add(rt, &mut text, ",");
        }
        is_first = false;
        add(rt, &mut text, "\"");
        add(rt, &mut text, step);
        add(rt, &mut text, "\"");
    }
    add(rt, &mut text, "]}");
    text
}

/// The lines of steps that a race printed, and the report behind them without its first line.
fn parts<'a>(rt: &impl Abort, printed: &'a [u8]) -> (&'a str, &'a str) {
    let text = str::from_utf8(printed).ok().expect(rt, "a race is UTF-8");
    let behind = text.strip_prefix("race 1\n").expect(rt, "a race");
    behind.split_once(HEAD).expect(rt, "a report")
}

#[test]
fn printed_steps_are_run(rt: HostRuntime) {
    let ended = raced_freely(&rt, &[], SCRIPTED);
    assert!(rt; ended.status == Status::Done);
    let (lines, report) = parts(&rt, ended.out.bytes());
    let input = listing(&rt, SCRIPTED, lines);
    let run = run_of(&rt, input.as_str());
    assert!(rt; run.status == Status::Done);
    let bytes = run.out.bytes().strip_prefix(HEAD.as_bytes());
    assert!(rt; bytes == Some(report.as_bytes()));
}
