//! Single values of a scenario's JSON.
ghost use Rattle.std.specs.Prelude.{◌≡◌, ◌≤◌, ◌<◌, ◌++◌, ◌∷◌, [], length, max, option_and_then, option_map, pos, IfOk, IfSome, OnOk};
ghost use Rattle.serde_json.specs.Find.{as_array};
ghost use Rattle.tp_json.specs.View.{view, items_view};
ghost use Rattle.tp_model.specs.Limits as limits;
ghost use Rattle.tp_scenario.specs.Values as values;
ghost use Rattle.tp_scenario.specs.mirrors.Gives.{Gives, GivesAs};
ghost use Rattle.tp_scenario.specs.mirrors.Elements.{items_in};

use crate::fault::{WalkError, range_at, shape_at, unknown_at};
use crate::names::Names;
use crate::path::Path;
use std::alloc::Global;
use tp_json::Json;
use tp_types::{Name, is_name};

/// A value that is needed.
#[tactic(auto, unfolding(crate::specs::Values::present_at))]
pub(crate) fn needed<'v, 'a>(
    path: Path,
    value: Option<&'v Json<'a>>,
) -> Result<&'v Json<'a>, WalkError>
    ensures { GivesAs result (λ v. view v.now)
        (values.present_at path (option_map (λ v. view v.now) value.entry)) }
{
    value.ok_or(shape_at(path))
}

/// A text.
#[tactic(auto, unfolding(crate::specs::Values::text_at))]
pub(crate) fn text_at<'a>(path: Path, value: Option<&Json<'a>>) -> Result<&'a [u8], WalkError>
    ensures { GivesAs result (λ s. s.now)
        (values.text_at path (option_map (λ v. view v.now) value.entry)) }
{
    match value.and_then(Json::as_str) {
        None => Err(shape_at(path)),
        Some(text) => Ok(text.as_bytes()),
    }
}

/// A text that is spelled as a name, as it stands in the JSON.
#[tactic(auto, unfolding(crate::specs::Values::name_at))]
pub(crate) fn name_text<'a>(path: Path, value: Option<&Json<'a>>) -> Result<&'a [u8], WalkError>
    ensures { GivesAs result (λ s. s.now)
        (values.name_at path (option_map (λ v. view v.now) value.entry)) }
{
    let text = text_at(path, value)?;
    if is_name(text) {
        Ok(text)
    } else {
        Err(range_at(path))
    }
}

/// A name.
#[tactic(auto, unfolding(crate::specs::Values::name_at))]
pub(crate) fn name_at(path: Path, value: Option<&Json>) -> Result<Name, WalkError>
    ensures { Gives result (values.name_at path (option_map (λ v. view v.now) value.entry)) }
{
    let text = text_at(path, value)?;
    match Name::of(text) {
        None => Err(range_at(path)),
        Some(name) => Ok(name),
    }
}

/// A name that is declared, and is not among the names of its kind so far. It is added to them.
#[tactic(auto, unfolding(crate::specs::Values::new_name_at, crate::specs::Values::name_at))]
pub(crate) fn new_name_at<'a>(
    path: Path,
    names: &mut Names<'a>,
    value: Option<&Json<'a>>,
) -> Result<Name, WalkError>
    ensures value { Gives result
        (values.new_name_at path names.old (option_map (λ v. view v.now) value.entry)) }
    ensures named { IfOk result (λ name. names.new ≡ names.old ++ name ∷ []) }
{
    let text = text_at(path, value)?;
    match Name::of(text) {
        None => Err(range_at(path)),
        Some(name) => {
            if names.declare(text)? {
                Ok(name)
            } else {
                Err(range_at(path))
            }
        }
    }
}

/// The place of a name that is used.
#[tactic(auto, unfolding(crate::specs::Values::place_or_unknown))]
pub(crate) fn used(path: Path, names: &Names, name: &[u8]) -> Result<u32, WalkError>
    ensures { Gives result (values.place_or_unknown path names.now name.now) }
{
    match names.place_of(name) {
        None => Err(unknown_at(path)),
        Some(place) => Ok(place),
    }
}

/// The place of a name that is used by a value.
#[tactic(auto, unfolding(crate::specs::Values::place_at))]
pub(crate) fn used_at(path: Path, names: &Names, value: Option<&Json>) -> Result<u32, WalkError>
    ensures { Gives result
        (values.place_at path names.now (option_map (λ v. view v.now) value.entry)) }
{
    used(path, names, name_text(path, value)?)
}

/// A whole number.
#[tactic(auto, unfolding(crate::specs::Values::whole_at))]
pub(crate) fn whole_at(path: Path, value: Option<&Json>) -> Result<i64, WalkError>
    ensures { Gives result (values.whole_at path (option_map (λ v. view v.now) value.entry)) }
{
    match value.and_then(Json::as_i64) {
        None => Err(shape_at(path)),
        Some(number) => Ok(number),
    }
}

fn is_between(low: i64, high: i64, number: i64) -> bool
    ensures { result ≡ limits.is_between low high number }
{
    low <= number && number <= high
}

/// A whole number of a range.
#[tactic(auto, unfolding(crate::specs::Values::whole_in))]
pub(crate) fn whole_in(
    path: Path,
    low: i64,
    high: i64,
    value: Option<&Json>,
) -> Result<i64, WalkError>
    ensures { Gives result
        (values.whole_in path low high (option_map (λ v. view v.now) value.entry)) }
{
    let number = whole_at(path, value)?;
    if is_between(low, high, number) {
        Ok(number)
    } else {
        Err(range_at(path))
    }
}

fn is_from_to(low: u64, high: u64, number: u64) -> bool
    ensures { result ≡ limits.is_from_to low high number }
{
    low <= number && number <= high
}

fn counted(path: Path, low: u64, high: u64, number: i64) -> Result<u64, WalkError>
    ensures value { Gives result (values.count_or_range path low high number) }
    ensures most { IfOk result (λ n. n ≤ high) }
{
    if number < 0 {
        return Err(range_at(path));
    }
    let count = number as u64;
    if is_from_to(low, high, count) {
        Ok(count)
    } else {
        Err(range_at(path))
    }
}

/// A whole number of a range that begins at 0 or later.
#[tactic(auto, unfolding(crate::specs::Values::count_at))]
pub(crate) fn count_at(
    path: Path,
    low: u64,
    high: u64,
    value: Option<&Json>,
) -> Result<u64, WalkError>
    ensures value { Gives result
        (values.count_at path low high (option_map (λ v. view v.now) value.entry)) }
    ensures most { IfOk result (λ n. n ≤ high) }
{
    let number = whole_at(path, value)?;
    counted(path, low, high, number)
}

/// The same, where a missing one has this value.
#[tactic(auto, unfolding(crate::specs::Values::count_or))]
pub(crate) fn count_or(
    path: Path,
    low: u64,
    high: u64,
    missing: u64,
    value: Option<&Json>,
) -> Result<u64, WalkError>
    ensures value { Gives result
        (values.count_or path low high missing (option_map (λ v. view v.now) value.entry)) }
    ensures most { IfOk result (λ n. n ≤ max high missing) }
{
    match value {
        None => Ok(missing),
        Some(_) => count_at(path, low, high, value),
    }
}

/// The members of an array; None, where a value is missing or is no array.
#[tactic(auto, using(crate::proofs::Views::viewed))]
pub(crate) fn array_of<'v, 'a>(value: Option<&'v Json<'a>>) -> Option<&'v [Json<'a>]>
    ensures members { option_map (λ v. items_view v.now) result
        ≡ option_and_then as_array (option_map (λ v. view v.now) value.entry) }
    ensures count { IfSome result (λ v. values.item_count (items_view v.now) ≡ length v.now) }
{
    match value {
        None => None,
        Some(value) => value.as_array(),
    }
}

/// Whether the value is an array. A result that lends its members has no proof, so they are lent by `array_of`.
#[tactic(auto, unfolding(crate::specs::Values::array_at))]
pub(crate) fn test_array(path: Path, value: Option<&Json>) -> Result<(), WalkError>
    ensures { GivesAs result (λ _. items_in (option_map (λ v. view v.now) value.entry))
        (values.array_at path (option_map (λ v. view v.now) value.entry)) }
{
    match array_of(value) {
        None => Err(shape_at(path)),
        Some(_) => Ok(()),
    }
}

#[tactic(auto, unfolding(crate::specs::Values::items_or_range), using(crate::proofs::Views::viewed))]
fn sized(path: Path, least: usize, most: usize, items: &[Json]) -> Result<(), WalkError>
    ensures value { GivesAs result (λ _. items_view items.now)
        (values.items_or_range path least most (items_view items.now)) }
    ensures few { OnOk result (length items.now ≤ most) }
{
    if least <= items.len() && items.len() <= most {
        Ok(())
    } else {
        Err(range_at(path))
    }
}

/// Whether the value is an array whose length is in its range.
#[tactic(auto, unfolding(crate::specs::Values::items_at, crate::specs::Values::array_at))]
pub(crate) fn test_items(
    path: Path,
    least: usize,
    most: usize,
    value: Option<&Json>,
) -> Result<(), WalkError>
    ensures value { GivesAs result (λ _. items_in (option_map (λ v. view v.now) value.entry))
        (values.items_at path least most (option_map (λ v. view v.now) value.entry)) }
    ensures few { OnOk result
        (values.item_count (items_in (option_map (λ v. view v.now) value.entry)) ≤ most) }
{
    match array_of(value) {
        None => Err(shape_at(path)),
        Some(items) => sized(path, least, most, items),
    }
}

/// The same, where a missing one is empty.
#[tactic(auto, unfolding(crate::specs::Values::items_or))]
pub(crate) fn test_items_or(path: Path, most: usize, value: Option<&Json>) -> Result<(), WalkError>
    ensures { GivesAs result (λ _. items_in (option_map (λ v. view v.now) value.entry))
        (values.items_or path most (option_map (λ v. view v.now) value.entry)) }
{
    match value {
        None => Ok(()),
        Some(_) => test_items(path, 0, most, value),
    }
}
