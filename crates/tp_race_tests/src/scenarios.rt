//! Scenarios, and their races.
use crate::gates::Open;
use std::process::Abort;
use std::sync::Wait;
use std::thread::Threads;
use tp_io::{MemorySink, MemorySource};
use tp_race::{Gate, Status, race};
use tp_top::tpvc;
use tp_types::{List, Text};

/// The first scenario.
pub const FIRST: &str =
    r#"{"admins":[{"name":"hr","policies":["allow any on * if true;"]}],"servers":[{"name":"s0","items":[{"name":"x","admin":"hr","min":0,"max":100,"value":5}]}],"transactions":[{"name":"t1","subject":"ann","queries":["write x := 7"]}]}"#;

/// The same with a step.
pub const LISTED: &str =
    r#"{"admins":[{"name":"hr","policies":["allow any on * if true;"]}],"servers":[{"name":"s0","items":[{"name":"x","admin":"hr","min":0,"max":100,"value":5}]}],"transactions":[{"name":"t1","subject":"ann","queries":["write x := 7"]}],"steps":["submit t1"]}"#;

/// Two servers, and two clients with a transaction each, one on the first server alone and one on the second.
pub const APART: &str =
    r#"{"admins":[{"name":"hr","policies":["allow any on * if true;"]}],"servers":[{"name":"s0","items":[{"name":"x","admin":"hr","min":0,"max":100,"value":5}]},{"name":"s1","items":[{"name":"y","admin":"hr","min":0,"max":100,"value":5}]}],"transactions":[{"name":"t0","subject":"ann","queries":["write x := 7"]},{"name":"t1","subject":"ann","queries":["write y := 7"]}],"clients":[["t0"],["t1"]]}"#;

/// The first scenario with a client.
pub const ALONE: &str =
    r#"{"admins":[{"name":"hr","policies":["allow any on * if true;"]}],"servers":[{"name":"s0","items":[{"name":"x","admin":"hr","min":0,"max":100,"value":5}]}],"transactions":[{"name":"t1","subject":"ann","queries":["write x := 7"]}],"clients":[["t1"]]}"#;

/// Three servers, and two clients with a transaction each: one begins on the first server, the other on the second, and
/// both end on the third, where they share no item.
pub const MEETING: &str =
    r#"{"admins":[{"name":"hr","policies":["allow any on * if true;"]}],"servers":[{"name":"s0","items":[{"name":"x","admin":"hr","min":0,"max":100,"value":5}]},{"name":"s1","items":[{"name":"y","admin":"hr","min":0,"max":100,"value":5}]},{"name":"s2","items":[{"name":"v","admin":"hr","min":0,"max":100,"value":5},{"name":"w","admin":"hr","min":0,"max":100,"value":5}]}],"transactions":[{"name":"t0","subject":"ann","queries":["write x := 7","write v := 7"]},{"name":"t1","subject":"ann","queries":["write y := 7","write w := 7"]}],"clients":[["t0"],["t1"]]}"#;

/// Two clients, a publisher and an officer.
pub const SCRIPTED: &str =
    r#"{"admins":[{"name":"hr","policies":["allow any on * if hospital.role = nurse;","allow any on * if true;"]}],"credentials":[{"name":"badge","issuer":"hospital","subject":"ann","attr":"role","value":"nurse"}],"servers":[{"name":"s0","items":[{"name":"x","admin":"hr","min":0,"max":100,"value":5}]},{"name":"s1","items":[{"name":"y","admin":"hr","min":0,"max":100,"value":5}]}],"transactions":[{"name":"t0","subject":"ann","credentials":["badge"],"queries":["write x := 7","read y into r1"]},{"name":"t1","subject":"bob","queries":["write y := 8"]},{"name":"t2","subject":"ann","scheme":"continuous","level":"global","credentials":["badge"],"queries":["read x into r1","write y := r1 + 1"]}],"clients":[["t0","t1"],["t2"]],"publishers":[["publish hr","push hr s0"]],"officers":[["tick 5","revoke badge"]]}"#;

/// How a race ended, and what it wrote.
#[derive(Drop)]
pub struct Ended {
    pub status: Status,
    pub out: MemorySink,
    pub notes: MemorySink,
}

fn list<T: Copy + Drop>(rt: &(impl Abort + AllocGlobal), members: &[T]) -> List<T> {
    let made = Vec::from_slice(rt.alloc(), members);
    List::from_vec(made.ok().expect(rt, "memory for a list"))
}

fn texts(rt: &(impl Abort + AllocGlobal), spelled: &[&str]) -> List<Text> {
    let mut made = List::new(rt.alloc());
    for word in spelled {
        let pushed = made.push(Text(list(rt, word.as_bytes())));
        pushed.ok().expect(rt, "memory for words");
    }
    made
}

/// A source of a whole text.
fn source_of(rt: &(impl Abort + AllocGlobal), input: &str) -> MemorySource {
    MemorySource::new(list(rt, input.as_bytes()), list(rt, &[]), 100)
}

/// A sink that never fails.
pub fn sink(rt: &(impl Abort + AllocGlobal)) -> MemorySink {
    MemorySink::new(rt.alloc(), list(rt, &[]), 64)
}

/// A race with these words on this input.
pub fn raced<R: Threads + Wait + Abort + AllocGlobal + Sync, G: Gate + Sync>(
    rt: &R,
    words: &[&str],
    input: &str,
    gate: &G,
) -> Ended {
    let spelled = texts(rt, words);
    let mut source = source_of(rt, input);
    let mut out = sink(rt);
    let mut notes = sink(rt);
    let status = race(
        rt,
        rt.alloc(),
        spelled.as_slice(),
        &mut source,
        &mut out,
        &mut notes,
        gate,
    );
    Ended { status, out, notes }
}

/// A race that nobody holds.
pub fn raced_freely<R: Threads + Wait + Abort + AllocGlobal + Sync>(
    rt: &R,
    words: &[&str],
    input: &str,
) -> Ended {
    raced(rt, words, input, &Open)
}

/// What `run` does of this input.
pub fn run_of(rt: &(impl Abort + AllocGlobal), input: &str) -> Ended {
    let words = texts(rt, &["run"]);
    let mut source = source_of(rt, input);
    let mut out = sink(rt);
    let mut notes = sink(rt);
    let status = tpvc(
        rt.alloc(),
        words.as_slice(),
        &mut source,
        &mut out,
        &mut notes,
    );
    Ended { status, out, notes }
}
