//! The automatic phase: what happens by itself when no step is listed, until the world is quiet.
ghost use Rattle.std.specs.Prelude.{◌≡◌, ◌<◌, ◌+◌, ◌≤◌, true, false, None, drop, find, length, slice_get, take, IfSome, IsErr, OnOk};
ghost use Rattle.tp_model.specs.Words.step;
ghost use Rattle.tp_model.specs.Valid as valid;
ghost use Rattle.tp_machine.specs.Machine.{is_armed_at, is_submitted, refusal};
ghost use Rattle.tp_machine.specs.Named.{IsStepOf, IsTxn};
ghost use Rattle.tp_auto.specs.Auto as automatic;
ghost use Rattle.tp_auto.specs.Auto.{Drains, Stops, bound_of, is_quiet, lowest_unsubmitted, next_of};
ghost use Rattle.tp_auto.specs.mirrors.Ups as ups;
ghost use Rattle.tp_auto.specs.mirrors.Ups.{KnowsUp};

use std::alloc::Global;
use tp_machine::{Watch, World};
use tp_types::{Actor, NoMemory, Scenario, ServerId, Step, TxnId, Uncounted};

/// The lowest transaction that is not submitted.
#[tactic(auto, using(crate::proofs::BoundLemmas::few_txns_valid))]
fn lowest_unsubmitted(world: &World) -> Option<TxnId>
    ensures value { result ≡ lowest_unsubmitted world.now.scenario world.now.machine.state.actors }
    ensures unsubmitted { IfSome result (λ txn.
        is_submitted world.now.machine.state.actors txn ≡ false) }
    ensures declared { IfSome result (λ txn. txn.0 < length world.now.scenario.txns) }
{
    (0..world.scenario().txns.len() as u32)
        .map(TxnId)
        .find(|txn| !world.is_submitted(*txn))
}

/// The first armed transaction at or after the cursor.
#[tactic(auto, using(crate::proofs::BoundLemmas::few_txns_valid))]
fn armed_behind(world: &World, cursor: u32) -> Option<TxnId>
    ensures value { result ≡ find (is_armed_at world.now.machine.state.actors)
        (drop cursor (automatic.txns_of world.now.scenario)) }
{
    (0..world.scenario().txns.len() as u32)
        .map(TxnId)
        .skip(cursor as usize)
        .find(|txn| world.armed(*txn))
}

/// The first armed transaction before the cursor.
#[tactic(auto, using(crate::proofs::BoundLemmas::few_txns_valid))]
fn armed_before(world: &World, cursor: u32) -> Option<TxnId>
    ensures value { result ≡ find (is_armed_at world.now.machine.state.actors)
        (take cursor (automatic.txns_of world.now.scenario)) }
{
    (0..world.scenario().txns.len() as u32)
        .map(TxnId)
        .take(cursor as usize)
        .find(|txn| world.armed(*txn))
}

/// The first armed transaction at or after the cursor, going round.
fn first_armed(world: &World, cursor: u32) -> Option<TxnId>
    ensures value { result
        ≡ automatic.first_armed world.now.scenario world.now.machine.state.actors cursor }
    ensures declared { IfSome result (IsTxn world.now.scenario) }
    ensures allowed { IfSome result (λ txn.
        refusal world.now.machine.state (step.Timer txn) ≡ None) }
{
    match armed_behind(world, cursor) {
        Some(txn) => Some(txn),
        None => armed_before(world, cursor),
    }
}

/// The lowest server that is down.
#[tactic(auto, using(crate::proofs::BoundLemmas::few_servers_valid))]
fn server_down(world: &World) -> Option<ServerId>
    ensures value { result
        ≡ automatic.server_down world.now.scenario world.now.machine.state.actors }
{
    (0..world.scenario().servers.len() as u32)
        .map(ServerId)
        .find(|at| world.down(&Actor::Server(*at)))
}

/// The lowest coordinator that is down.
#[tactic(auto, using(crate::proofs::BoundLemmas::few_txns_valid))]
fn coordinator_down(world: &World) -> Option<TxnId>
    ensures value { result
        ≡ automatic.coordinator_down world.now.scenario world.now.machine.state.actors }
{
    (0..world.scenario().txns.len() as u32)
        .map(TxnId)
        .find(|txn| world.down(&Actor::Coordinator(*txn)))
}

/// The lowest actor that is down, servers before coordinators.
fn lowest_down(world: &World) -> Option<Actor>
    ensures value { result
        ≡ automatic.lowest_down world.now.scenario world.now.machine.state.actors }
{
    match server_down(world) {
        Some(at) => Some(Actor::Server(at)),
        None => coordinator_down(world).map(Actor::Coordinator),
    }
}

/// The next step that comes by itself where nobody is down.
#[inline(always)]
fn next_running(world: &World, cursor: u32) -> Option<Step>
    ensures value { result ≡ automatic.next_by world.now.scenario world.now.machine.state.actors
        cursor (slice_get world.now.machine.undelivered 0) }
    ensures ids { IfSome result (IsStepOf world.now.scenario) }
    ensures allowed { IfSome result (λ step. refusal world.now.machine.state step ≡ None) }
{
    match world.oldest(&mut Uncounted) {
        Some(mail) => Some(Step::Deliver { mail }),
        None => match lowest_unsubmitted(world) {
            Some(txn) => Some(Step::Submit { txn }),
            None => first_armed(world, cursor).map(|txn| Step::Timer { txn }),
        },
    }
}

/// The next step that comes by itself, or None where the world is quiet: the lowest actor that is down boots, or else
/// the oldest undelivered mail is delivered, or else the lowest transaction that is not submitted is submitted, or else
/// the timer of the first armed transaction at or after the cursor fires, going round.
pub fn next(world: &World, cursor: u32) -> Option<Step>
    ensures value { result ≡ next_of world.now.scenario world.now.machine cursor }
    ensures ids { IfSome result (IsStepOf world.now.scenario) }
    ensures allowed { IfSome result (λ step. refusal world.now.machine.state step ≡ None) }
{
    match lowest_down(world) {
        Some(actor) => Some(Step::Boot { actor }),
        None => next_running(world, cursor),
    }
}

/// The next step. Who is down is not looked for where it is known that nobody is.
#[inline(always)]
fn next_knowing(world: &World, cursor: u32, all_up: bool) -> Option<Step>
    requires { KnowsUp all_up world.now }
    ensures value { result ≡ next_of world.now.scenario world.now.machine cursor }
    ensures ids { IfSome result (IsStepOf world.now.scenario) }
    ensures allowed { IfSome result (λ step. refusal world.now.machine.state step ≡ None) }
{
    if all_up {
        return next_running(world, cursor);
    }
    next(world, cursor)
}

/// Whether after an automatic step each actor is up or down as before.
fn keeps_up(taken: &Step) -> bool
    ensures { result ≡ ups.keeps_up taken.now }
{
    matches!(
        taken,
        Step::Submit { .. } | Step::Deliver { .. } | Step::Timer { .. }
    )
}

/// Where timers are looked for after a step of a scenario.
#[tactic(auto, using(crate::proofs::BoundLemmas::few_txns_valid))]
pub fn cursor_after(scenario: &Scenario, taken: &Step, cursor: u32) -> u32
    requires valid { valid.is_valid scenario.now ≡ true }
    requires exists { IsStepOf scenario.now taken.now }
    ensures { result ≡ automatic.cursor_after taken.now cursor }
{
    match taken {
        Step::Timer { txn } => txn.0 + 1,
        _ => cursor,
    }
}

/// Takes automatic steps until the world is quiet, or memory is refused. No bound is counted: that the world comes to
/// be quiet, and within the bound, is proved. A world that was given up before stays as it is. Who is down is looked
/// for at the first step and after each boot alone, as no other automatic step takes an actor down. Who looks on sees each
/// step.
pub fn drain<W: Watch>(alloc: Global, world: &mut World, watch: &mut W) -> Result<(), NoMemory>
    ensures quiet { OnOk result (is_quiet world.new.scenario world.new.machine ≡ true) }
    ensures steps { OnOk result (Drains world.old world.new) }
    ensures few { length world.new.machine.state.steps
        ≤ length world.old.machine.state.steps + bound_of world.old }
    ensures memory { IsErr result → world.new.given_up ≡ true }
    ensures stopped { IsErr result → world.old.given_up ≡ false → Stops world.old world.new }
    ensures given_up { world.old.given_up ≡ true → IsErr result }
    ensures unchanged { world.old.given_up ≡ true → world.new ≡ world.old }
    ensures scenario { world.new.scenario ≡ world.old.scenario }
    ensures followed { OnOk result
        (W.follows watch.old world.old → W.follows watch.new world.new) }
{
    if world.given_up() {
        return Err(NoMemory);
    }
    let _facts = world.facts();
    let mut cursor = 0;
    let mut all_up = false;
    while let Some(step) = next_knowing(world, cursor, all_up) {
        let after = cursor_after(world.scenario(), &step, cursor);
        match world.step(alloc, watch, &step) {
            Ok(()) => {
                cursor = after;
                all_up = keeps_up(&step);
            }
            Err(_) => return Err(NoMemory),
        }
    }
    Ok(())
}
