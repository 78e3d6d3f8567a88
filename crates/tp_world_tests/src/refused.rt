//! A world that is refused memory in a step is given up: it answers so from then on, what it shows stays, and of each actor's disk
//! no record is lost. The test passes where no memory is refused; `tools/refused_memory` refuses each allocation of it in turn.
use crate::run::FIRST;
use tp_auto::next;
use tp_machine::{Nobody, StepError, World};
use tp_runs::history::start;
use tp_scenario::read;
use tp_types::{Actor, ServerId, Step, TxnId};

/// More steps than the run of the first scenario has.
const STEPS: usize = 64;

/// How much a world shows: its steps, facts and mails.
#[derive(Clone, Copy, PartialEq)]
struct Shown {
    steps: usize,
    facts: usize,
    mails: u64,
}

/// How many records the disks of the one server and of the one coordinator give.
#[derive(Clone, Copy, PartialEq)]
struct Logged {
    server: usize,
    coordinator: usize,
}

fn shown_by(world: &World) -> Shown {
    Shown {
        steps: world.steps().len(),
        facts: world.facts().len(),
        mails: world.mails(),
    }
}

fn byte_at(bytes: &[u8], at: usize) -> usize {
    match bytes.get(at) {
        None => 0,
        Some(byte) => *byte as usize,
    }
}

/// The place of the gate behind the record at an open gate, or None where the gate is closed. A record has a length of four bytes, of
/// which the first two are 0 here, and so many bytes.
fn gate_behind(bytes: &[u8], gate: usize) -> Option<usize> {
    if byte_at(bytes, gate) != 1 {
        return None;
    }
    let high = byte_at(bytes, gate.saturating_add(3));
    let low = byte_at(bytes, gate.saturating_add(4));
    Some(
        gate.saturating_add(5)
            .saturating_add(high.saturating_mul(256))
            .saturating_add(low),
    )
}

/// How many records the bytes of a log give.
pub fn count(bytes: &[u8]) -> usize {
    let mut gate = 0;
    for found in 0..bytes.len() {
        match gate_behind(bytes, gate) {
            None => return found,
            Some(next) => gate = next,
        }
    }
    bytes.len()
}

fn logged_by(world: &World) -> Option<Logged> {
    if world.scenario().servers.len() == 0 || world.scenario().txns.len() == 0 {
        return None;
    }
    match (
        world.disk(&Actor::Server(ServerId(0))),
        world.disk(&Actor::Coordinator(TxnId(0))),
    ) {
        (Some(server), Some(coordinator)) => Some(Logged {
            server: count(server.content()),
            coordinator: count(coordinator.content()),
        }),
        _ => None,
    }
}

/// Whether there are as many records as before a step, or one more.
fn is_same_or_more(before: usize, now: usize) -> bool {
    now == before || now == before.saturating_add(1)
}

/// Whether no record is lost: the disks give what they gave before a step, or one of them a record more.
fn is_kept(before: Option<Logged>, now: Option<Logged>) -> bool {
    match (before, now) {
        (Some(before), Some(now)) => {
            now.server == before.server && is_same_or_more(before.coordinator, now.coordinator)
                || now.coordinator == before.coordinator
                    && is_same_or_more(before.server, now.server)
        }
        _ => false,
    }
}

/// Whether a world that was given up answers its ending so.
fn has_no_ending(rt: &impl AllocGlobal, world: &World) -> bool {
    match world.ending(rt.alloc()) {
        Err(_) => true,
        Ok(ending) => {
            drop(ending);
            false
        }
    }
}

/// Whether a world that was refused memory in a step is given up, shows what it showed, and answers so from then on.
fn is_given_up(rt: &impl AllocGlobal, world: &mut World, before: Shown) -> bool {
    let kept = logged_by(world);
    let again = match world.step(rt.alloc(), &mut Nobody, &Step::Tick { by: 1 }) {
        Err(StepError::NoMemory) => true,
        _ => false,
    };
    world.given_up()
        && again
        && has_no_ending(rt, world)
        && shown_by(world) == before
        && logged_by(world) == kept
}

/// Does the automatic steps of a world, and answers whether its run comes to rest, or the world is given up as it has to be.
fn runs(rt: &impl AllocGlobal, world: &mut World) -> bool {
    for _step in 0..STEPS {
        let (before, kept) = (shown_by(world), logged_by(world));
        match next(world, 0) {
            None => return !world.given_up(),
            Some(step) => match world.step(rt.alloc(), &mut Nobody, &step) {
                Ok(()) => {}
                Err(StepError::NoMemory) => {
                    return is_kept(kept, logged_by(world)) && is_given_up(rt, world, before);
                }
                Err(_) => return false,
            },
        }
    }
    false
}

/// Runs the first scenario, if there is memory for its world.
fn run_first(rt: &impl AllocGlobal) -> bool {
    match read(rt.alloc(), FIRST.as_bytes()) {
        Err(_) => true,
        Ok(scenario) => {
            let made = start(rt.alloc(), &scenario);
            drop(scenario);
            match made {
                Err(_) => true,
                Ok(mut world) => {
                    let runs = runs(rt, &mut world);
                    drop(world);
                    runs
                }
            }
        }
    }
}

#[test]
fn a_world_that_is_refused_memory_is_given_up(rt: HostRuntime) {
    assert!(rt; run_first(&rt));
}
