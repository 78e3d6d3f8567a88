//! Two servers that are held until the other one acts, and one to which two clients come. On one thread these holds are
//! given up, and so are those of two servers with one lock round all actors, unless it is taken behind the gate: then two
//! meet at the one server.
use crate::gates::{Counted, Held, Narrow};
use crate::scenarios::{ALONE, APART, MEETING, raced};
use std::process::Abort;
use std::str;
use tp_race::Status;

/// Where a text stands in another one.
fn place_of(rt: &impl Abort, bytes: &[u8], part: &str) -> usize {
    let text = str::from_utf8(bytes).ok().expect(rt, "a report is UTF-8");
    text.find(part).expect(rt, "the commit is in the report")
}

#[test]
fn two_servers_act_at_one_time(rt: HostRuntime) {
    let gate = Held::for_acts(1, 1);
    let ended = raced(&rt, &[], APART, &gate);
    assert!(rt; ended.status == Status::Done);
    assert!(rt; gate.was_met());
}

#[test]
fn first_server_is_held(rt: HostRuntime) {
    let gate = Held::for_acts(3, 0);
    let ended = raced(&rt, &[], APART, &gate);
    assert!(rt; ended.status == Status::Done);
    assert!(rt; gate.was_met());
    let held = place_of(&rt, ended.out.bytes(), " commit t0 ");
    let other = place_of(&rt, ended.out.bytes(), " commit t1 ");
    assert!(rt; other < held);
}

#[test]
fn second_server_is_held(rt: HostRuntime) {
    let gate = Held::for_acts(0, 3);
    let ended = raced(&rt, &[], APART, &gate);
    assert!(rt; ended.status == Status::Done);
    assert!(rt; gate.was_met());
    let held = place_of(&rt, ended.out.bytes(), " commit t1 ");
    let other = place_of(&rt, ended.out.bytes(), " commit t0 ");
    assert!(rt; other < held);
}

// A gate that is called outside the server's lock is passed by two at a time.
#[test]
fn server_is_passed_by_one_at_a_time(rt: HostRuntime) {
    let gate = Narrow::new();
    let ended = raced(&rt, &[], MEETING, &gate);
    assert!(rt; ended.status == Status::Done);
    assert!(rt; gate.was_passed_alone());
}

// Of the eight mails of the first scenario the server gets the query, the call to prepare, and the decision.
#[test]
fn each_act_passes_once(rt: HostRuntime) {
    let gate = Counted::new();
    let ended = raced(&rt, &[], ALONE, &gate);
    assert!(rt; ended.status == Status::Done);
    assert!(rt; gate.count() == 3);
}
