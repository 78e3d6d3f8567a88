//! Objects, and their values.
ghost use Rattle.std.specs.Prelude.{◌≡◌, ◌++◌, option_map, is_some};
ghost use Rattle.serde_json.specs.Find.{as_object};
ghost use Rattle.std.specs.List.{list_all, list_any};
ghost use Rattle.tp_json.specs.View.{view, members_view};
ghost use Rattle.tp_scenario.specs.Values as values;
ghost use Rattle.tp_scenario.specs.mirrors.Entries.{Member};
ghost use Rattle.tp_scenario.specs.mirrors.Gives.{GivesAs};

use crate::fault::{WalkError, shape_at};
use crate::path::{Key, Path};
use tp_json::Json;

/// The value at a key of an object.
#[tactic(auto, unfolding(crate::specs::Values::field))]
pub(crate) fn field<'v, 'a>(value: &'v Json<'a>, key: Key) -> Option<&'v Json<'a>>
    ensures { option_map (λ v. view v.now) result ≡ values.field key (view value.now) }
{
    value.get(key.text())
}

fn has(value: &Json, key: Key) -> bool
    ensures { result ≡ values.has (view value.now) key }
{
    field(value, key).is_some()
}

fn is_spelled(key: Key, text: &str) -> bool
    ensures { result ≡ values.is_spelled text.now key }
{
    text == key.text()
}

fn is_key(keys: &[Key], text: &str) -> bool
    ensures { result ≡ values.is_key keys.now text.now }
{
    keys.iter().any(|key| is_spelled(*key, text))
}

fn has_all(value: &Json, keys: &[Key]) -> bool
    ensures { result ≡ list_all (values.has (view value.now)) keys.now }
{
    keys.iter().all(|key| has(value, *key))
}

#[tactic(auto, using(crate::proofs::Views::viewed))]
fn has_key_of(needed: &[Key], others: &[Key], text: &str) -> bool
    ensures { result ≡ values.is_key (needed.now ++ others.now) text.now }
{
    is_key(needed, text) || is_key(others, text)
}

fn are_keys(needed: &[Key], others: &[Key], members: &[(&str, Json)]) -> bool
    ensures { result ≡ list_all
        (λ (member : Member). values.is_key (needed.now ++ others.now) member.0.now) members.now }
{
    members
        .iter()
        .all(|member| has_key_of(needed, others, member.0))
}

fn have_keys(needed: &[Key], others: &[Key], members: &[(&str, Json)]) -> bool
    ensures { result ≡ values.have_keys (needed.now ++ others.now) (members_view members.now) }
{
    are_keys(needed, others, members)
}

fn has_only(needed: &[Key], others: &[Key], value: &Json) -> bool
    ensures { result ≡ values.has_only (needed.now ++ others.now) (as_object (view value.now)) }
{
    match value.as_object() {
        None => false,
        Some(members) => have_keys(needed, others, members),
    }
}

/// An object that has no other key than the needed ones and the others, and every needed one.
#[tactic(auto, unfolding(crate::specs::Values::object_at))]
pub(crate) fn object_at<'v, 'a>(
    path: Path,
    needed: &[Key],
    others: &[Key],
    value: &'v Json<'a>,
) -> Result<&'v Json<'a>, WalkError>
    ensures { GivesAs result (λ v. view v.now)
        (values.object_at path needed.now others.now (view value.now)) }
{
    if has_only(needed, others, value) && has_all(value, needed) {
        Ok(value)
    } else {
        Err(shape_at(path))
    }
}
