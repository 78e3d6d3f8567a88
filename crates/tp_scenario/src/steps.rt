//! Steps: their numbers, and the names that they use.
ghost use Rattle.std.specs.Prelude.{◌≡◌, [], option_map};
ghost use Rattle.tp_json.specs.View.{view, items_view};
ghost use Rattle.tp_model.specs.Limits as limits;
ghost use Rattle.tp_scenario.specs.Steps as steps;
ghost use Rattle.tp_scenario.specs.Values.{each};
ghost use Rattle.tp_scenario.specs.mirrors.Commands.{command as command_view};
ghost use Rattle.tp_scenario.specs.mirrors.Gives.{Gives};

use crate::command::{Command, CountVerb, NameVerb, command_at};
use crate::fault::{WalkError, range_at};
use crate::names::Declared;
use crate::path::{Key, Path};
use crate::values::{array_of, test_items_or, used};
use std::alloc::Global;
use tp_json::Json;
use tp_model::{CALLS_MAX, STEPS_MAX, TICK_MAX};
use tp_types::{Actor, AdminId, CredId, Cut, List, ServerId, Step, TxnId};

#[tactic(auto, unfolding(crate::specs::Steps::coordinator_at))]
fn coordinator_at(path: Path, names: &Declared, name: &[u8]) -> Result<Actor, WalkError>
    ensures { Gives result (steps.coordinator_at path names.now name.now) }
{
    let place = used(path, &names.txns, name)?;
    Ok(Actor::Coordinator(TxnId(place)))
}

/// A server, or the coordinator of a transaction.
#[tactic(auto, unfolding(crate::specs::Steps::actor_at))]
fn actor_at(path: Path, names: &Declared, name: &[u8]) -> Result<Actor, WalkError>
    ensures { Gives result (steps.actor_at path names.now name.now) }
{
    match names.servers.place_of(name) {
        Some(place) => Ok(Actor::Server(ServerId(place))),
        None => coordinator_at(path, names, name),
    }
}

#[tactic(auto, unfolding(crate::specs::Steps::named_step))]
fn named_step(path: Path, names: &Declared, verb: NameVerb, name: &[u8]) -> Result<Step, WalkError>
    ensures { Gives result (steps.named_step path names.now verb name.now) }
{
    match verb {
        NameVerb::Submit => {
            let txn = TxnId(used(path, &names.txns, name)?);
            Ok(Step::Submit { txn })
        }
        NameVerb::Publish => {
            let admin = AdminId(used(path, &names.admins, name)?);
            Ok(Step::Publish { admin })
        }
        NameVerb::Revoke => {
            let cred = CredId(used(path, &names.creds, name)?);
            Ok(Step::Revoke { cred })
        }
        NameVerb::Crash => {
            let actor = actor_at(path, names, name)?;
            Ok(Step::Crash { actor, cut: None })
        }
        NameVerb::Boot => {
            let actor = actor_at(path, names, name)?;
            Ok(Step::Boot { actor })
        }
        NameVerb::Timer => {
            let txn = TxnId(used(path, &names.txns, name)?);
            Ok(Step::Timer { txn })
        }
    }
}

fn is_tick(by: u64) -> bool
    ensures { result ≡ limits.is_from_to 1 limits.tick_limit by }
{
    1 <= by && by <= TICK_MAX
}

#[tactic(auto, unfolding(crate::specs::Steps::counted_step))]
fn counted_step(path: Path, verb: CountVerb, number: u64) -> Result<Step, WalkError>
    ensures { Gives result (steps.counted_step path verb number) }
{
    match verb {
        CountVerb::Tick => {
            if is_tick(number) {
                Ok(Step::Tick { by: number })
            } else {
                Err(range_at(path))
            }
        }
        CountVerb::Deliver => Ok(Step::Deliver { mail: number }),
        CountVerb::Lose => Ok(Step::Lose { mail: number }),
    }
}

#[tactic(auto, unfolding(crate::specs::Steps::push_step))]
fn push_step(path: Path, names: &Declared, admin: &[u8], server: &[u8]) -> Result<Step, WalkError>
    ensures { Gives result (steps.push_step path names.now admin.now server.now) }
{
    let from = used(path, &names.admins, admin)?;
    let to = used(path, &names.servers, server)?;
    Ok(Step::Push {
        admin: AdminId(from),
        server: ServerId(to),
    })
}

#[tactic(auto, unfolding(crate::specs::Steps::cut_step))]
fn cut_step(path: Path, names: &Declared, name: &[u8], cut: Cut) -> Result<Step, WalkError>
    ensures { Gives result (steps.cut_step path names.now name.now cut.mail cut.calls cut.fill) }
{
    let actor = actor_at(path, names, name)?;
    Ok(Step::Crash {
        actor,
        cut: Some(cut),
    })
}

fn cut_or_range(
    path: Path,
    names: &Declared,
    name: &[u8],
    mail: u64,
    calls: u64,
    fill: u64,
) -> Result<Step, WalkError>
    ensures { Gives result (steps.cut_or_range path names.now name.now mail calls fill) }
{
    if calls > u64::from(CALLS_MAX) || fill > 255 {
        return Err(range_at(path));
    }
    let cut = Cut {
        mail,
        calls: calls as u32,
        fill: fill as u8,
    };
    cut_step(path, names, name, cut)
}

/// The step that was spelled: its numbers, and then the names that it uses.
pub(crate) fn step_for(
    path: Path,
    names: &Declared,
    command: Command<'_>,
) -> Result<Step, WalkError>
    ensures { Gives result (steps.step_for path names.now (command_view command.entry)) }
{
    match command {
        Command::OfName(verb, name) => named_step(path, names, verb, name),
        Command::ByNumber(verb, number) => counted_step(path, verb, number),
        Command::Push(admin, server) => push_step(path, names, admin, server),
        Command::Cut(name, mail, calls, fill) => {
            cut_or_range(path, names, name, mail, calls, fill)
        }
    }
}

/// The step that a value spells.
#[tactic(auto, unfolding(crate::specs::Steps::step_at))]
pub(crate) fn step_at(names: &Declared, path: Path, value: &Json) -> Result<Step, WalkError>
    ensures { Gives result (steps.step_at names.now path (view value.now)) }
{
    let command = command_at(path, value)?;
    step_for(path, names, command)
}

fn each_step(alloc: Global, names: &Declared, values: &[Json]) -> Result<List<Step>, WalkError>
    ensures { Gives result (each (steps.step_in names.now) [] (items_view values.now)) }
{
    let mut made = List::new(alloc);
    for value in values {
        let path = Path::Member(Key::Steps, made.len());
        made.push(step_at(names, path, value)?)?;
    }
    Ok(made)
}

/// The listed steps.
#[tactic(auto, unfolding(crate::specs::Steps::steps_at))]
pub(crate) fn steps_at(
    alloc: Global,
    names: &Declared,
    value: Option<&Json>,
) -> Result<List<Step>, WalkError>
    ensures { Gives result (steps.steps_at names.now (option_map (λ v. view v.now) value.entry)) }
{
    test_items_or(Path::Top(Key::Steps), STEPS_MAX, value)?;
    match array_of(value) {
        None => Ok(List::new(alloc)),
        Some(values) => each_step(alloc, names, values),
    }
}
