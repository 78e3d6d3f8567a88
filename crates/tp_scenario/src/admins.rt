//! Administrators and their policies.
ghost use Rattle.std.specs.Prelude.{◌≡◌, ◌≤◌, ◌⊎◌, ◌++◌, ◌∷◌, [], length, map, option_map, IfOk};
ghost use Rattle.tp_json.specs.View.{view, items_view};
ghost use Rattle.tp_policy_text.specs.Parses.{IsOutOfMemory};
ghost use Rattle.tp_scenario.specs.Admins as admins;
ghost use Rattle.tp_scenario.specs.Policies.{policy_answer};
ghost use Rattle.tp_scenario.specs.Values.{each};
ghost use Rattle.tp_scenario.specs.mirrors.Gives.{Gives};
ghost use Rattle.tp_scenario.specs.mirrors.Parts as parts;

use crate::fault::{WalkError, policy_fault_at};
use crate::names::Names;
use crate::object::{field, object_at};
use crate::path::{Key, Path};
use crate::values::{array_of, count_or, new_name_at, test_items, text_at};
use std::alloc::Global;
use tp_json::Json;
use tp_model::{ADMINS_MAX, VERSIONS_MAX};
use tp_policy_text::{ParseError, parse};
use tp_types::{Admin, List, Policy, Version, both};

/// The answer that a policy's text has.
fn answer_of(alloc: Global, text: &[u8]) -> Result<Policy, ParseError>
    ensures { IsOutOfMemory result ⊎ (result ≡ policy_answer text.now) }
{
    parse(alloc, text)
}

fn policy_said(alloc: Global, path: Path, text: &[u8]) -> Result<Policy, WalkError>
    ensures { Gives result (admins.policy_or_fault path (policy_answer text.now)) }
{
    match answer_of(alloc, text) {
        Ok(policy) => Ok(policy),
        Err(ParseError::NoMemory) => Err(WalkError::NoMemory),
        Err(why) => Err(policy_fault_at(path, why)),
    }
}

#[tactic(auto, unfolding(crate::specs::Admins::policy_text_at))]
fn policy_at(alloc: Global, path: Path, value: &Json) -> Result<Policy, WalkError>
    ensures { Gives result (admins.policy_text_at path (view value.now)) }
{
    let text = text_at(path, Some(value))?;
    policy_said(alloc, path, text)
}

fn each_policy(alloc: Global, at: usize, values: &[Json]) -> Result<List<Policy>, WalkError>
    ensures value { Gives result (each (admins.policy_in at) [] (items_view values.now)) }
    ensures few { IfOk result (λ made. length made ≤ length values.now) }
{
    let mut made = List::new(alloc);
    for value in values {
        let path = Path::Entry(Key::Admins, at, Key::Policies, made.len());
        made.push(policy_at(alloc, path, value)?)?;
    }
    Ok(made)
}

#[tactic(auto, unfolding(crate::specs::Admins::policies_at))]
fn policies_at(alloc: Global, at: usize, value: Option<&Json>) -> Result<List<Policy>, WalkError>
    ensures value { Gives result
        (admins.policies_at at (option_map (λ v. view v.now) value.entry)) }
    ensures few { IfOk result (λ made. length made ≤ 64) }
{
    test_items(
        Path::Field(Key::Admins, at, Key::Policies),
        1,
        VERSIONS_MAX,
        value,
    )?;
    match array_of(value) {
        None => Ok(List::new(alloc)),
        Some(texts) => each_policy(alloc, at, texts),
    }
}

#[tactic(auto, unfolding(crate::specs::Admins::admin_at))]
fn admin_at<'a>(
    alloc: Global,
    names: &mut Names<'a>,
    at: usize,
    value: &Json<'a>,
) -> Result<Admin, WalkError>
    ensures value { Gives result (admins.admin_at names.old at (view value.now)) }
    ensures named { IfOk result (λ admin. names.new ≡ names.old ++ admin.name ∷ []) }
{
    let fields = object_at(
        Path::Member(Key::Admins, at),
        &[Key::Name, Key::Policies],
        &[Key::Opening],
        value,
    )?;
    let name = new_name_at(
        Path::Field(Key::Admins, at, Key::Name),
        names,
        field(fields, Key::Name),
    );
    let (name, (library, opening)) = both(name, library_at(alloc, at, fields))?;
    Ok(Admin {
        name,
        library,
        opening,
    })
}

/// The policies of an administrator, and the version of them that is newest at the start.
fn library_at(alloc: Global, at: usize, fields: &Json) -> Result<(List<Policy>, Version), WalkError>
    ensures { Gives result (parts.library_at at (view fields.now)) }
{
    let library = policies_at(alloc, at, field(fields, Key::Policies))?;
    let opening = opening_at(at, library.len(), field(fields, Key::Opening))?;
    Ok((library, opening))
}

/// The opening version, which is the first where none is told.
#[tactic(auto, unfolding(crate::specs::Admins::opening_at))]
fn opening_at(at: usize, count: usize, value: Option<&Json>) -> Result<Version, WalkError>
    requires { count ≤ 64 }
    ensures { Gives result (admins.opening_at at count (option_map (λ v. view v.now) value.entry)) }
{
    let path = Path::Field(Key::Admins, at, Key::Opening);
    let opening = count_or(path, 1, count as u64, 1, value)?;
    Ok(Version(opening as u32))
}

fn each_admin<'a>(
    alloc: Global,
    names: &mut Names<'a>,
    values: &[Json<'a>],
) -> Result<List<Admin>, WalkError>
    requires { names.old ≡ [] }
    ensures value { Gives result (each admins.admin_in [] (items_view values.now)) }
    ensures named { IfOk result (λ made. names.new ≡ map admins.admin_name made) }
{
    let mut made = List::new(alloc);
    for value in values {
        made.push(admin_at(alloc, names, made.len(), value)?)?;
    }
    Ok(made)
}

/// The administrators, whose names are added to none so far.
#[tactic(auto, unfolding(crate::specs::Admins::admins_at))]
pub(crate) fn admins_at<'a>(
    alloc: Global,
    names: &mut Names<'a>,
    value: Option<&Json<'a>>,
) -> Result<List<Admin>, WalkError>
    requires { names.old ≡ [] }
    ensures value { Gives result (admins.admins_at (option_map (λ v. view v.now) value.entry)) }
    ensures named { IfOk result (λ made. names.new ≡ map admins.admin_name made) }
{
    test_items(Path::Top(Key::Admins), 1, ADMINS_MAX, value)?;
    match array_of(value) {
        None => Ok(List::new(alloc)),
        Some(values) => each_admin(alloc, names, values),
    }
}
