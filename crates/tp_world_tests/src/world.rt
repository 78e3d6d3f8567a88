//! Calls on the world of the first scenario that no scenario makes: a clock that comes to its end, a drain and the next step
//! before and after it, the oldest mail, and what a timer sends after each step.
ghost use Rattle.std.specs.Prelude.{◌≡◌, ◌<◌};

use crate::run::FIRST;
use std::marker::Brand;
use std::process::Abort;
use std::sync::ledger::{Blank, Ledger};
use tp_auto::{drain, next};
use tp_machine::{Nobody, StepError, World};
use tp_runs::history::start as start_of;
use tp_scenario::read;
use tp_types::{Fact, Step, Steps, TxnId, What};

/// The last moment of the clock.
const LAST: u64 = (1 << 63) - 1;

fn start(rt: &(impl Abort + AllocGlobal)) -> World {
    let scenario = read(rt.alloc(), FIRST.as_bytes()).ok();
    let made = start_of(rt.alloc(), &scenario.expect(rt, "a scenario"));
    made.ok().expect(rt, "memory for a world")
}

/// Lets time pass twice, up to the last moment, and answers where the clock stands as a further tick is refused.
fn last_moment(rt: &impl AllocGlobal, world: &mut World) -> Option<u64> {
    let first = world.step(rt.alloc(), &mut Nobody, &Step::Tick { by: 5 });
    let second = world.step(rt.alloc(), &mut Nobody, &Step::Tick { by: LAST - 5 });
    let third = world.step(rt.alloc(), &mut Nobody, &Step::Tick { by: 1 });
    match (first, second, third) {
        (Ok(()), Ok(()), Err(StepError::TooLate { clock })) => Some(clock),
        _ => None,
    }
}

/// The place of a fact that is a tick, and how far the clock moved.
fn ticked(world: &World, number: usize) -> Option<(u64, u64)> {
    match world.facts().get(number) {
        Some(
            Fact {
                place,
                what: What::Ticked(by),
            },
        ) => Some((*place, *by)),
        _ => None,
    }
}

/// Whether two ticks happened, and nothing else.
fn has_both_ticks(world: &World) -> bool {
    ticked(world, 0) == Some((0, 5))
        && ticked(world, 1) == Some((1, LAST - 5))
        && world.facts().len() == 2
}

#[test]
fn lets_time_pass_up_to_the_last_moment(rt: HostRuntime) {
    let mut world = start(&rt);
    let stands = last_moment(&rt, &mut world);
    let has_both = has_both_ticks(&world);
    drop(world);
    assert_eq!(rt; stands, Some(LAST));
    assert!(rt; has_both);
}

/// How many steps and mails there are once the world was drained, where no step is next in it.
fn drained(rt: &impl AllocGlobal, world: &mut World) -> Option<(usize, u64)> {
    match (drain(rt.alloc(), world, &mut Nobody), next(world, 0)) {
        (Ok(()), None) => Some((world.steps().len(), world.mails())),
        _ => None,
    }
}

/// The first scenario takes nine automatic steps, and a world that is quiet none.
#[test]
fn comes_to_rest(rt: HostRuntime) {
    let mut world = start(&rt);
    let began = next(&world, 0).is_some();
    let first = drained(&rt, &mut world);
    let again = drained(&rt, &mut world);
    drop(world);
    assert!(rt; began);
    assert_eq!(rt; first, Some((9, 8)));
    assert_eq!(rt; again, Some((9, 8)));
}

/// Submits the one transaction.
fn submit(rt: &impl AllocGlobal, world: &mut World) -> bool {
    if world.scenario().txns.len() == 0 {
        return false;
    }
    world
        .step(rt.alloc(), &mut Nobody, &Step::Submit { txn: TxnId(0) })
        .is_ok()
}

/// Fires the timer of the one transaction, and answers how many mails there are then, and whether it is armed.
fn fire(rt: &impl AllocGlobal, world: &mut World) -> Option<(u64, bool)> {
    if world.scenario().txns.len() == 0 {
        return None;
    }
    match world.step(rt.alloc(), &mut Nobody, &Step::Timer { txn: TxnId(0) }) {
        Ok(()) => Some((world.mails(), world.armed(TxnId(0)))),
        Err(_) => None,
    }
}

/// Delivers a mail, and fires the timer after it.
fn deliver_and_fire(rt: &impl AllocGlobal, world: &mut World, mail: u64) -> Option<(u64, bool)> {
    match world.step(rt.alloc(), &mut Nobody, &Step::Deliver { mail }) {
        Ok(()) => fire(rt, world),
        Err(_) => None,
    }
}

/// The transaction awaits, in this order, the answer to its query, the authority's, the vote, and the acknowledgement. As long as
/// it does, each step sends one mail and the timer after it one more; with the acknowledgement nothing is outstanding.
#[test]
fn sends_again_what_is_outstanding(rt: HostRuntime) {
    let mut world = start(&rt);
    assert!(rt; !world.armed(TxnId(0)));
    assert!(rt; fire(&rt, &mut world).is_none());
    assert!(rt; submit(&rt, &mut world));
    assert_eq!(rt; fire(&rt, &mut world), Some((2, true)));
    for exchange in 0..7 {
        let fired = deliver_and_fire(&rt, &mut world, 2 * exchange);
        assert_eq!(rt; fired, Some((2 * exchange + 4, true)));
    }
    let last = deliver_and_fire(&rt, &mut world, 14);
    drop(world);
    assert_eq!(rt; last, Some((16, false)));
}

/// The oldest undelivered mail, and then, once mail 0 is lost.
fn oldest_before_and_after_loss<L: Ledger>(
    rt: &impl AllocGlobal,
    world: &mut World,
    blank: Blank,
) -> (Option<u64>, Option<u64>)
    requires name { blank.name ≡ L.name }
    requires parts { blank.parts ≡ L.parts }
    requires some { 0 < blank.parts }
{
    let mut steps: Steps<L> = Steps::none(blank);
    let before = world.oldest(&mut steps);
    match world.step(rt.alloc(), &mut Nobody, &Step::Lose { mail: 0 }) {
        Ok(()) => (before, world.oldest(&mut steps)),
        Err(_) => (before, before),
    }
}

#[test]
fn knows_the_oldest_mail(rt: HostRuntime) {
    let mut world = start(&rt);
    assert!(rt; submit(&rt, &mut world));
    let sent = world.undelivered(0);
    let unsent = world.undelivered(1);
    let oldest = oldest_before_and_after_loss::<Brand>(&rt, &mut world, Blank::new(1));
    let lost = world.undelivered(0);
    drop(world);
    assert_eq!(rt; oldest.0, Some(0));
    assert_eq!(rt; oldest.1, None);
    assert!(rt; sent);
    assert!(rt; !unsent);
    assert!(rt; !lost);
}
