//! Credentials.
ghost use Rattle.std.specs.Prelude.{◌≡◌, ◌++◌, ◌∷◌, [], map, option_map, IfOk};
ghost use Rattle.tp_json.specs.View.{view, items_view};
ghost use Rattle.tp_scenario.specs.Creds as creds;
ghost use Rattle.tp_scenario.specs.declared.path.Key.TheVariants as Key;
ghost use Rattle.tp_scenario.specs.declared.path.Path.TheVariants as Path;
ghost use Rattle.tp_scenario.specs.Values as values;
ghost use Rattle.tp_scenario.specs.Values.{each};
ghost use Rattle.tp_scenario.specs.mirrors.Gives.{Gives};
ghost use Rattle.tp_scenario.specs.mirrors.Parts as parts;

use crate::fault::WalkError;
use crate::names::Names;
use crate::object::{field, object_at};
use crate::path::{Key, Path};
use crate::values::{array_of, count_or, name_at, new_name_at, test_items_or, whole_in};
use std::alloc::Global;
use tp_json::Json;
use tp_model::{CLOCK_MAX, CREDS_MAX, NUMBER_MAX};
use tp_types::{Credential, List, Name, Value, both};

fn is_text(value: Option<&Json>) -> bool
    ensures { result ≡ creds.is_text (option_map (λ v. view v.now) value.entry) }
{
    value.and_then(Json::as_str).is_some()
}

#[tactic(auto, unfolding(crate::specs::Creds::word_at))]
fn word_at(path: Path, value: Option<&Json>) -> Result<Value, WalkError>
    ensures { Gives result (creds.word_at path (option_map (λ v. view v.now) value.entry)) }
{
    let word = name_at(path, value)?;
    Ok(Value::Word(word))
}

#[tactic(auto, unfolding(crate::specs::Creds::number_at))]
fn number_at(path: Path, value: Option<&Json>) -> Result<Value, WalkError>
    ensures { Gives result (creds.number_at path (option_map (λ v. view v.now) value.entry)) }
{
    let number = whole_in(path, -NUMBER_MAX, NUMBER_MAX, value)?;
    Ok(Value::Number(number))
}

#[tactic(auto, unfolding(crate::specs::Creds::value_at))]
fn value_at(alloc: Global, path: Path, value: Option<&Json>) -> Result<Value, WalkError>
    ensures { Gives result (creds.value_at path (option_map (λ v. view v.now) value.entry)) }
{
    if is_text(value) {
        word_at(path, value)
    } else {
        number_at(path, value)
    }
}

fn path_of(at: usize, key: Key) -> Path
    ensures { result ≡ Path.Field Key.Credentials at key }
{
    Path::Field(Key::Credentials, at, key)
}

/// The name at a key.
fn name_of(at: usize, key: Key, fields: &Json) -> Result<Name, WalkError>
    ensures { Gives result
        (values.name_at (Path.Field Key.Credentials at key) (values.field key (view fields.now))) }
{
    name_at(path_of(at, key), field(fields, key))
}

#[tactic(auto, unfolding(crate::specs::Creds::cred_at))]
fn cred_at<'a>(
    alloc: Global,
    names: &mut Names<'a>,
    at: usize,
    value: &Json<'a>,
) -> Result<Credential, WalkError>
    ensures value { Gives result (creds.cred_at names.old at (view value.now)) }
    ensures named { IfOk result (λ cred. names.new ≡ names.old ++ cred.name ∷ []) }
{
    let fields = object_at(
        Path::Member(Key::Credentials, at),
        &[Key::Name, Key::Issuer, Key::Subject, Key::Attr, Key::Value],
        &[Key::From, Key::Until],
        value,
    )?;
    let name = new_name_at(path_of(at, Key::Name), names, field(fields, Key::Name));
    let issuer = name_of(at, Key::Issuer, fields);
    let subject = name_of(at, Key::Subject, fields);
    let attr = name_of(at, Key::Attr, fields);
    let value = value_at(alloc, path_of(at, Key::Value), field(fields, Key::Value));
    let interval = interval_at(at, fields);
    let named = both(both(name, issuer), both(subject, attr));
    let held = both(value, interval);
    let (((name, issuer), (subject, attr)), (value, (from, until))) = both(named, held)?;
    Ok(Credential {
        name,
        issuer,
        subject,
        attr,
        value,
        from,
        until,
    })
}

/// The first and the last time at which a credential holds.
fn interval_at(at: usize, fields: &Json) -> Result<(u64, u64), WalkError>
    ensures { Gives result (parts.interval_at at (view fields.now)) }
{
    let from = count_or(
        path_of(at, Key::From),
        0,
        CLOCK_MAX,
        0,
        field(fields, Key::From),
    )?;
    let until = count_or(
        path_of(at, Key::Until),
        0,
        CLOCK_MAX,
        CLOCK_MAX,
        field(fields, Key::Until),
    )?;
    Ok((from, until))
}

fn each_cred<'a>(
    alloc: Global,
    names: &mut Names<'a>,
    values: &[Json<'a>],
) -> Result<List<Credential>, WalkError>
    requires { names.old ≡ [] }
    ensures value { Gives result (each creds.cred_in [] (items_view values.now)) }
    ensures named { IfOk result (λ made. names.new ≡ map creds.cred_name made) }
{
    let mut made = List::new(alloc);
    for value in values {
        made.push(cred_at(alloc, names, made.len(), value)?)?;
    }
    Ok(made)
}

/// The credentials, whose names are added to none so far.
#[tactic(auto, unfolding(crate::specs::Creds::creds_at))]
pub(crate) fn creds_at<'a>(
    alloc: Global,
    names: &mut Names<'a>,
    value: Option<&Json<'a>>,
) -> Result<List<Credential>, WalkError>
    requires { names.old ≡ [] }
    ensures value { Gives result (creds.creds_at (option_map (λ v. view v.now) value.entry)) }
    ensures named { IfOk result (λ made. names.new ≡ map creds.cred_name made) }
{
    test_items_or(Path::Top(Key::Credentials), CREDS_MAX, value)?;
    match array_of(value) {
        None => Ok(List::new(alloc)),
        Some(values) => each_cred(alloc, names, values),
    }
}
