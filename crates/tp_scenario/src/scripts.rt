//! The scripts of a race.
ghost use Rattle.std.specs.Prelude.{◌≡◌, [], map, option_map, slice_get, Some, IfOk};
ghost use Rattle.std.specs.Option.{option_map_or};
ghost use Rattle.std.specs.List.{list_any};
ghost use Rattle.tp_json.specs.View.{view, items_view};
ghost use Rattle.tp_model.specs.Ids.{same_txn};
ghost use Rattle.tp_scenario.specs.Scripts as scripts;
ghost use Rattle.tp_scenario.specs.Values.{each, through};
ghost use Rattle.tp_scenario.specs.mirrors.Commands.{command as command_view};
ghost use Rattle.tp_scenario.specs.mirrors.Elements.{items_in};
ghost use Rattle.tp_scenario.specs.mirrors.Gives.{Gives, GivesNew};

use crate::command::{Command, CountVerb, NameVerb, command_at};
use crate::fault::{WalkError, range_at};
use crate::names::{Declared, Names};
use crate::path::{Key, Path};
use crate::steps::step_for;
use crate::values::{array_of, test_array, test_items, test_items_or, used_at};
use std::alloc::Global;
use tp_json::Json;
use tp_model::{CLIENTS_MAX, OFFICERS_MAX, PUBLISHERS_MAX, STEPS_MAX};
use tp_types::{Admin, List, NoMemory, Step, TxnId};

/// The script of a publisher so far, and how many versions are left of each administrator.
#[derive(Drop)]
pub struct Published {
    pub script: List<Step>,
    pub left: List<usize>,
}

/// The scripts of publishers so far, and how many versions are left of each administrator.
#[derive(Drop)]
pub struct Publishing {
    pub scripts: List<List<Step>>,
    pub left: List<usize>,
}

fn is_among(txn: TxnId, made: &[TxnId]) -> bool
    ensures { result ≡ list_any (same_txn txn) made.now }
{
    made.iter().any(|other| txn == *other)
}

fn is_in_one(txn: TxnId, scripts: &[List<TxnId>]) -> bool
    ensures { result ≡ list_any (list_any (same_txn txn)) scripts.now }
{
    scripts
        .iter()
        .any(|script| is_among(txn, script.as_slice()))
}

fn is_submitted(earlier: &[List<TxnId>], made: &[TxnId], txn: TxnId) -> bool
    ensures { result ≡ scripts.is_submitted earlier.now made.now txn }
{
    is_among(txn, made) || is_in_one(txn, earlier)
}

#[tactic(auto, unfolding(crate::specs::Scripts::submission_at))]
fn submitted_at(
    path: Path,
    txns: &Names,
    earlier: &[List<TxnId>],
    made: &[TxnId],
    value: &Json,
) -> Result<TxnId, WalkError>
    ensures { Gives result
        (scripts.submission_at path txns.now earlier.now made.now (view value.now)) }
{
    let txn = TxnId(used_at(path, txns, Some(value))?);
    if is_submitted(earlier, made, txn) {
        Err(range_at(path))
    } else {
        Ok(txn)
    }
}

fn each_submitted(
    alloc: Global,
    txns: &Names,
    earlier: &[List<TxnId>],
    values: &[Json],
) -> Result<List<TxnId>, WalkError>
    ensures { Gives result
        (each (scripts.submission_in txns.now earlier.now) [] (items_view values.now)) }
{
    let mut made = List::new(alloc);
    for value in values {
        let path = Path::Line(Key::Clients, earlier.len(), made.len());
        let txn = submitted_at(path, txns, earlier, made.as_slice(), value)?;
        made.push(txn)?;
    }
    Ok(made)
}

#[tactic(auto, unfolding(crate::specs::Scripts::client_at))]
fn client_at(
    alloc: Global,
    txns: &Names,
    earlier: &[List<TxnId>],
    value: &Json,
) -> Result<List<TxnId>, WalkError>
    ensures { Gives result (scripts.client_at txns.now earlier.now (view value.now)) }
{
    test_array(Path::Member(Key::Clients, earlier.len()), Some(value))?;
    match array_of(Some(value)) {
        None => Ok(List::new(alloc)),
        Some(values) => each_submitted(alloc, txns, earlier, values),
    }
}

fn each_client(alloc: Global, txns: &Names, values: &[Json]) -> Result<List<List<TxnId>>, WalkError>
    ensures { Gives result (each (scripts.client_at txns.now) [] (items_view values.now)) }
{
    let mut made = List::new(alloc);
    for value in values {
        let script = client_at(alloc, txns, made.as_slice(), value)?;
        made.push(script)?;
    }
    Ok(made)
}

/// What each client submits.
#[tactic(auto, unfolding(crate::specs::Scripts::clients_at))]
pub(crate) fn clients_at(
    alloc: Global,
    txns: &Names,
    value: Option<&Json>,
) -> Result<List<List<TxnId>>, WalkError>
    ensures { Gives result
        (scripts.clients_at txns.now (option_map (λ v. view v.now) value.entry)) }
{
    test_items_or(Path::Top(Key::Clients), CLIENTS_MAX, value)?;
    match array_of(value) {
        None => Ok(List::new(alloc)),
        Some(values) => each_client(alloc, txns, values),
    }
}

fn is_publishing(command: Command<'_>) -> bool
    ensures { result ≡ scripts.is_publishing (command_view command.entry) }
{
    match command {
        Command::OfName(NameVerb::Publish, _) => true,
        Command::Push(_, _) => true,
        _ => false,
    }
}

fn is_official(command: Command<'_>) -> bool
    ensures { result ≡ scripts.is_official (command_view command.entry) }
{
    match command {
        Command::OfName(NameVerb::Revoke, _) => true,
        Command::ByNumber(CountVerb::Tick, _) => true,
        _ => false,
    }
}

fn allowed_step(
    allowed: bool,
    path: Path,
    names: &Declared,
    command: Command<'_>,
) -> Result<Step, WalkError>
    ensures { Gives result
        (scripts.step_or_range allowed path names.now (command_view command.entry)) }
{
    if allowed {
        step_for(path, names, command)
    } else {
        Err(range_at(path))
    }
}

#[tactic(auto, unfolding(crate::specs::Scripts::official_step_at))]
fn official_at(path: Path, names: &Declared, value: &Json) -> Result<Step, WalkError>
    ensures { Gives result (scripts.official_step_at path names.now (view value.now)) }
{
    let command = command_at(path, value)?;
    allowed_step(is_official(command), path, names, command)
}

fn each_official(
    alloc: Global,
    names: &Declared,
    at: usize,
    values: &[Json],
) -> Result<List<Step>, WalkError>
    ensures { Gives result
        (each (scripts.official_step_in names.now at) [] (items_view values.now)) }
{
    let mut made = List::new(alloc);
    for value in values {
        let path = Path::Line(Key::Officers, at, made.len());
        let step = official_at(path, names, value)?;
        made.push(step)?;
    }
    Ok(made)
}

#[tactic(auto, unfolding(crate::specs::Scripts::officer_at))]
fn officer_at(
    alloc: Global,
    names: &Declared,
    earlier: &[List<Step>],
    value: &Json,
) -> Result<List<Step>, WalkError>
    ensures { Gives result (scripts.officer_at names.now earlier.now (view value.now)) }
{
    let path = Path::Member(Key::Officers, earlier.len());
    test_items(path, 0, STEPS_MAX, Some(value))?;
    match array_of(Some(value)) {
        None => Ok(List::new(alloc)),
        Some(values) => each_official(alloc, names, earlier.len(), values),
    }
}

fn each_officer(
    alloc: Global,
    names: &Declared,
    values: &[Json],
) -> Result<List<List<Step>>, WalkError>
    ensures { Gives result (each (scripts.officer_at names.now) [] (items_view values.now)) }
{
    let mut made = List::new(alloc);
    for value in values {
        let script = officer_at(alloc, names, made.as_slice(), value)?;
        made.push(script)?;
    }
    Ok(made)
}

/// The script of each officer.
#[tactic(auto, unfolding(crate::specs::Scripts::officers_at))]
pub(crate) fn officers_at(
    alloc: Global,
    names: &Declared,
    value: Option<&Json>,
) -> Result<List<List<Step>>, WalkError>
    ensures { Gives result
        (scripts.officers_at names.now (option_map (λ v. view v.now) value.entry)) }
{
    test_items_or(Path::Top(Key::Officers), OFFICERS_MAX, value)?;
    match array_of(value) {
        None => Ok(List::new(alloc)),
        Some(values) => each_officer(alloc, names, values),
    }
}

/// Takes one version of an administrator from those that are left.
fn take_version(path: Path, left: &mut List<usize>, place: usize) -> Result<(), WalkError>
    ensures { GivesNew result left.new
        (scripts.fewer_or_range path left.old place
        (option_map_or (λ count. count) (slice_get left.old place) 0)) }
{
    match left.get(place).copied() {
        None => Err(range_at(path)),
        Some(count) => {
            if count == 0 {
                return Err(range_at(path));
            }
            left.put(place, count - 1);
            Ok(())
        }
    }
}

/// The versions that are left after a step.
fn take_left(path: Path, left: &mut List<usize>, step: Step) -> Result<(), WalkError>
    ensures { GivesNew result left.new (scripts.left_after path left.old step) }
{
    match step {
        Step::Publish { admin } => take_version(path, left, admin.0 as usize),
        _ => Ok(()),
    }
}

/// The next step of a publisher, added to its script.
#[tactic(auto, unfolding(crate::specs::Scripts::publication_at))]
fn published_at(
    alloc: Global,
    path: Path,
    names: &Declared,
    state: &mut Published,
    value: &Json,
) -> Result<(), WalkError>
    ensures { GivesNew result state.new
        (scripts.publication_at path names.now state.old (view value.now)) }
{
    let command = command_at(path, value)?;
    let made = allowed_step(is_publishing(command), path, names, command)?;
    take_left(path, &mut state.left, made)?;
    state.script.push(made)?;
    Ok(())
}

fn published_in(
    alloc: Global,
    names: &Declared,
    at: usize,
    state: &mut Published,
    value: &Json,
) -> Result<(), WalkError>
    ensures { GivesNew result state.new
        (scripts.publication_in names.now at state.old (view value.now)) }
{
    let path = Path::Line(Key::Publishers, at, state.script.len());
    published_at(alloc, path, names, state, value)
}

fn each_published(
    alloc: Global,
    names: &Declared,
    at: usize,
    left: List<usize>,
    values: &[Json],
) -> Result<Published, WalkError>
    ensures { Gives result
        (through (scripts.publication_in names.now at) (record { script = []; left = left })
        (items_view values.now)) }
{
    let mut state = Published {
        script: List::new(alloc),
        left,
    };
    for value in values {
        published_in(alloc, names, at, &mut state, value)?;
    }
    Ok(state)
}

fn published_by(
    alloc: Global,
    names: &Declared,
    at: usize,
    left: List<usize>,
    value: &Json,
) -> Result<Published, WalkError>
    ensures { Gives result
        (through (scripts.publication_in names.now at) (record { script = []; left = left })
        (items_in (Some (view value.now)))) }
{
    match array_of(Some(value)) {
        None => Ok(Published {
            script: List::new(alloc),
            left,
        }),
        Some(values) => each_published(alloc, names, at, left, values),
    }
}

/// The next publisher.
#[tactic(auto, unfolding(crate::specs::Scripts::publisher_at))]
fn publisher_at(
    alloc: Global,
    names: &Declared,
    state: Publishing,
    value: &Json,
) -> Result<Publishing, WalkError>
    ensures { Gives result (scripts.publisher_at names.now state (view value.now)) }
{
    let Publishing { mut scripts, left } = state;
    let at = scripts.len();
    test_array(Path::Member(Key::Publishers, at), Some(value))?;
    let Published { script, left } = published_by(alloc, names, at, left, value)?;
    scripts.push(script)?;
    Ok(Publishing { scripts, left })
}

fn versions_left(alloc: Global, admins: &[Admin]) -> Result<List<usize>, NoMemory>
    ensures { IfOk result (λ left. left ≡ map scripts.versions_left admins.now) }
{
    let mut left = List::new(alloc);
    for admin in admins {
        let count = admin.library.len().saturating_sub(admin.opening.0 as usize);
        left.push(count)?;
    }
    Ok(left)
}

fn each_publisher(
    alloc: Global,
    names: &Declared,
    left: List<usize>,
    values: &[Json],
) -> Result<Publishing, WalkError>
    ensures { Gives result
        (through (scripts.publisher_at names.now) (record { scripts = []; left = left })
        (items_view values.now)) }
{
    let mut state = Publishing {
        scripts: List::new(alloc),
        left,
    };
    for value in values {
        state = publisher_at(alloc, names, state, value)?;
    }
    Ok(state)
}

#[tactic(auto, unfolding(crate::specs::Scripts::publishing_from))]
fn publishing_from(
    alloc: Global,
    names: &Declared,
    admins: &[Admin],
    value: Option<&Json>,
) -> Result<Publishing, WalkError>
    ensures { Gives result
        (scripts.publishing_from names.now admins.now (option_map (λ v. view v.now) value.entry)) }
{
    test_items_or(Path::Top(Key::Publishers), PUBLISHERS_MAX, value)?;
    let left = versions_left(alloc, admins)?;
    match array_of(value) {
        None => Ok(Publishing {
            scripts: List::new(alloc),
            left,
        }),
        Some(values) => each_publisher(alloc, names, left, values),
    }
}

/// The script of each publisher.
#[tactic(auto, unfolding(crate::specs::Scripts::publishers_at))]
pub(crate) fn publishers_at(
    alloc: Global,
    names: &Declared,
    admins: &[Admin],
    value: Option<&Json>,
) -> Result<List<List<Step>>, WalkError>
    ensures { Gives result
        (scripts.publishers_at names.now admins.now (option_map (λ v. view v.now) value.entry)) }
{
    let Publishing { scripts, left: _ } = publishing_from(alloc, names, admins, value)?;
    Ok(scripts)
}
