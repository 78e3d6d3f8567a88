//! A top call with a word that no case of tp_cases can spell.
use std::process::Abort;
use tp_io::{MemorySink, MemorySource};
use tp_top::{Status, tpvc};
use tp_types::{List, Text};

/// The first scenario.
pub const FIRST: &str =
    r#"{"admins":[{"name":"hr","policies":["allow any on * if true;"]}],"servers":[{"name":"s0","items":[{"name":"x","admin":"hr","min":0,"max":100,"value":5}]}],"transactions":[{"name":"t1","subject":"ann","queries":["write x := 7"]}]}"#;

/// A list of members that are copied.
fn list<T: Copy + Drop>(rt: &(impl Abort + AllocGlobal), members: &[T]) -> List<T> {
    let made = Vec::from_slice(rt.alloc(), members);
    List::from_vec(made.ok().expect(rt, "memory for a list"))
}

// A word that is not UTF-8 is no command, and the input is not read.
#[test]
fn a_word_is_no_text(rt: HostRuntime) {
    let mut words = List::new(rt.alloc());
    let word = Text(list(&rt, &[b'r', b'u', b'n', 0xff]));
    words.push(word).ok().expect(&rt, "memory for a word");
    let input = list(&rt, FIRST.as_bytes());
    let mut source = MemorySource::new(input, list(&rt, &[0]), 100);
    let mut out = MemorySink::new(rt.alloc(), list(&rt, &[]), 3);
    let mut notes = MemorySink::new(rt.alloc(), list(&rt, &[]), 3);
    let status = tpvc(
        rt.alloc(),
        words.as_slice(),
        &mut source,
        &mut out,
        &mut notes,
    );
    assert!(rt; status == Status::Usage, "another status");
    assert!(rt; out.bytes().is_empty(), "something was written to out");
    assert!(rt;
        notes.bytes() == b"usage: tpvc COMMAND [WORD]\n".as_slice(),
        "another line"
    );
}
