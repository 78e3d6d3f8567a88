//! An actor that forces records, crashes, also within an append, and boots by what its log then has, call by call.
use crate::refused::count;
use crate::run::FIRST;
use std::process::Abort;
use tp_machine::Part;
use tp_recover::{Kept, kept_of};
use tp_scenario::read;
use tp_store::OpeningValues;
use tp_types::{AdminId, Cut, Record, Scenario, ServerId, Told, Version};

/// An actor that has forced one record. What its state is makes no difference here.
fn logged_once(rt: &(impl Abort + AllocGlobal)) -> Part<u64> {
    let mut part = Part::opened(rt.alloc(), 7).expect(rt, "memory for an actor");
    let forced = part.force(rt.alloc(), &Some(Record::Boot));
    forced.expect(rt, "memory for a record");
    part
}

/// How many records an actor that is down has; and its disk gives as many.
fn left_of(rt: &(impl Abort + AllocGlobal), part: Part<u64>) -> usize {
    if !part.is_down() {
        drop(part);
        return 0;
    }
    let records = part.records(rt.alloc()).expect(rt, "memory for records");
    let found = records.len();
    drop(records);
    let on_disk = count(part.disk().content());
    drop(part);
    assert!(*rt; on_disk == found);
    found
}

#[test]
fn an_actor_keeps_its_log_over_a_crash(rt: HostRuntime) {
    let mut part = logged_once(&rt);
    assert!(rt; !part.is_down());
    part.crash(rt.alloc());
    assert!(rt; left_of(&rt, part) == 1);
}

/// How many records an actor has that crashed within its second append, after so many calls of its disk.
fn cut_after(rt: &(impl Abort + AllocGlobal), calls: u32, fill: u8) -> usize {
    let mut part = logged_once(rt);
    let cut = Cut {
        mail: 0,
        calls,
        fill,
    };
    let torn = part.cut(rt.alloc(), &Some(Record::Boot), cut);
    part.crash(rt.alloc());
    torn.expect(rt, "memory for a record");
    left_of(rt, part)
}

/// How many records an actor has that booted after such a crash, with one more for its boot, and whether it is up.
fn booted_after(rt: &(impl Abort + AllocGlobal), calls: u32) -> Option<usize> {
    let mut part = logged_once(rt);
    let cut = Cut {
        mail: 0,
        calls,
        fill: 0,
    };
    let torn = part.cut(rt.alloc(), &Some(Record::Boot), cut);
    part.crash(rt.alloc());
    let forced = part.force(rt.alloc(), &Some(Record::Boot));
    part.comes_up(8);
    let is_up = part.state() == Some(&8);
    let count = count(part.disk().content());
    drop(part);
    if torn.is_ok() && forced.is_ok() && is_up {
        Some(count)
    } else {
        None
    }
}

#[test]
fn an_actor_crashes_within_an_append(rt: HostRuntime) {
    for fill in [0, 1, 90] {
        for calls in 0..6 {
            let is_kept = calls >= 4 || calls == 3 && fill == 1;
            let wanted = if is_kept { 2 } else { 1 };
            assert!(rt; cut_after(&rt, calls, fill) == wanted);
        }
    }
}

#[test]
fn an_actor_boots_on_what_is_left(rt: HostRuntime) {
    assert!(rt; booted_after(&rt, 2) == Some(2));
    assert!(rt; booted_after(&rt, 4) == Some(3));
}

/// What a server has at a boot: its epoch, and the version of its administrator.
#[derive(Clone, Copy, Debug, PartialEq)]
struct Known {
    epoch: u64,
    version: Version,
}

/// What a server has that was booted once, learnt versions 2, 3 and 4, and booted after each.
const KNOWN: [Known; 3] = [
    Known {
        epoch: 2,
        version: Version(2),
    },
    Known {
        epoch: 3,
        version: Version(3),
    },
    Known {
        epoch: 4,
        version: Version(4),
    },
];

fn known_of(kept: Kept) -> Known {
    let version = kept.newest.get(0).copied();
    let known = Known {
        epoch: kept.epoch,
        version: version.unwrap_or(Version(0)),
    };
    drop(kept);
    known
}

/// What a server has by its log that is read on, and by the whole of it.
fn known_twice(
    rt: &(impl Abort + AllocGlobal),
    scenario: &Scenario,
    part: &mut Part<u64>,
) -> (Known, Known) {
    let opening = OpeningValues::of(rt.alloc(), scenario.items.as_slice());
    let opening = opening.expect(rt, "memory for the opening values");
    let on = part.kept(rt.alloc(), scenario, ServerId(0), opening);
    let on = known_of(on.expect(rt, "memory for what is kept"));
    let records = part.records(rt.alloc()).expect(rt, "memory for records");
    let whole = kept_of(rt.alloc(), scenario, ServerId(0), &records);
    drop(records);
    (on, known_of(whole.expect(rt, "memory for what is kept")))
}

/// A server learns a version, crashes and boots. What it has by its log when it boots.
fn boot_after(
    rt: &(impl Abort + AllocGlobal),
    scenario: &Scenario,
    part: &mut Part<u64>,
    version: Version,
) -> (Known, Known) {
    let told = Record::Told(Told {
        admin: AdminId(0),
        version,
    });
    let learnt = part.force(rt.alloc(), &Some(told));
    learnt.expect(rt, "memory for a record");
    part.crash(rt.alloc());
    let known = known_twice(rt, scenario, part);
    let booted = part.force(rt.alloc(), &Some(Record::Boot));
    booted.expect(rt, "memory for a record");
    part.comes_up(9);
    known
}

#[test]
fn a_boot_reads_on_what_the_whole_log_has(rt: HostRuntime) {
    let scenario = read(rt.alloc(), FIRST.as_bytes()).ok();
    let scenario = scenario.expect(&rt, "a scenario");
    let mut part = logged_once(&rt);
    for wanted in &KNOWN {
        let known = boot_after(&rt, &scenario, &mut part, wanted.version);
        assert_eq!(rt; known, (*wanted, *wanted));
    }
    drop(part);
    drop(scenario);
}
