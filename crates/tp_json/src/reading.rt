//! From a text to a value, a token at a time.
ghost use Rattle.std.specs.Prelude.{◌≡◌, ◌<◌, length, Some, None, Err, IfOk, OnOk, IsUtf8};
ghost use Rattle.json.specs.Json.{items as items_of_text, members as members_of_text, value as value_of_text};
ghost use Rattle.serde_json.specs.Data.{no_members};
ghost use Rattle.serde_json.specs.Read.{converted, of_items, of_json, of_members, read as read_text};
ghost use Rattle.tp_json.specs.View.{items_view, members_view, view};
ghost use Rattle.tp_json.specs.declared.reading.JsonError.{JsonError};

use crate::number::Number;
use crate::tree::Json;
use json::{Invalid, Reader, Scratch, Token};
use std::alloc::{AllocFailed, Global};

/// How deep arrays and objects nest at most.
const DEPTH_MAX: usize = 127;

/// Why no value was made of a text.
#[derive(Clone, Copy, Debug, PartialEq)]
pub enum JsonError {
    /// It is no JSON, or none that is read here.
    BadText,
    NoMemory,
}

impl From<Invalid> for JsonError {
    ghost use Rattle.std.specs.Prelude.{◌≡◌};
    ghost use Rattle.tp_json.specs.declared.reading.JsonError.TheVariants.{BadText};

    ghost from_gives = { λ _ e. e ≡ BadText };

    fn from(_invalid: Invalid) -> JsonError {
        JsonError::BadText
    }
}

impl<T: Drop> From<AllocFailed<T>> for JsonError {
    ghost use Rattle.std.specs.Prelude.{◌≡◌};
    ghost use Rattle.tp_json.specs.declared.reading.JsonError.TheVariants.{NoMemory};

    ghost from_gives = { λ _ e. e ≡ NoMemory };

    fn from(_refused: AllocFailed<T>) -> JsonError {
        JsonError::NoMemory
    }
}

/// Reads a value from bytes. What is unescaped of it stands in the scratch.
pub fn read<'a>(
    alloc: Global,
    bytes: &'a [u8],
    scratch: &'a mut Scratch,
) -> Result<Json<'a>, JsonError>
    ensures ok { IfOk result (λ v. IsUtf8 bytes.now × (read_text bytes.now ≡ Some (view v))) }
    ensures err { result ≡ Err JsonError.BadText → IsUtf8 bytes.now → read_text bytes.now ≡ None }
{
    match simdutf8::basic::from_utf8(bytes) {
        Ok(text) => whole(alloc, text, scratch),
        Err(_) => Err(JsonError::BadText),
    }
}

fn whole<'a>(alloc: Global, text: &'a str, scratch: &'a mut Scratch) -> Result<Json<'a>, JsonError>
    ensures ok { IfOk result (λ v. read_text text.now ≡ Some (view v)) }
    ensures err { result ≡ Err JsonError.BadText → read_text text.now ≡ None }
{
    let Ok(mut reader) = Reader::new(text, scratch) else {
        return Err(JsonError::NoMemory);
    };
    let found = value_at(alloc, &mut reader, DEPTH_MAX)?;
    if reader.next().is_some() {
        drop(found);
        return Err(JsonError::BadText);
    }
    Ok(found)
}

#[cycle(value_at)]
#[inline(always)]
fn value_at<'a>(alloc: Global, reader: &mut Reader<'a>, depth: usize) -> Result<Json<'a>, JsonError>
    ensures ok { IfOk result
        (λ v. converted of_json (value_of_text depth reader.old) ≡ Some (view v, reader.new)) }
    ensures shorter { OnOk result (length reader.new < length reader.old) }
    ensures err { result ≡ Err JsonError.BadText
        → converted of_json (value_of_text depth reader.old) ≡ None }
{
    let token = reader.next().ok_or(JsonError::BadText)?;
    match token {
        Token::Null => Ok(Json::Null),
        Token::Bool(truth) => Ok(Json::Bool(truth)),
        Token::String(text) => Ok(Json::String(text)),
        Token::Number(text) => match Number::of(text) {
            Some(number) => Ok(Json::Number(number)),
            None => Err(JsonError::BadText),
        },
        Token::BeginArray => {
            if depth == 0 {
                return Err(JsonError::BadText);
            }
            Ok(Json::Array(items_at(alloc, reader, depth - 1)?))
        }
        Token::BeginObject => {
            if depth == 0 {
                return Err(JsonError::BadText);
            }
            Ok(Json::Object(members_at(alloc, reader, depth - 1)?))
        }
        Token::EndArray | Token::EndObject | Token::Key(_) | Token::Bad => {
            Err(JsonError::BadText)
        }
    }
}

/// The members of an array, of which the bracket was read.
#[cycle(value_at)]
#[inline(never)]
fn items_at<'a>(
    alloc: Global,
    reader: &mut Reader<'a>,
    depth: usize,
) -> Result<Vec<Json<'a>>, JsonError>
    ensures ok { IfOk result (λ v.
        converted of_items (items_of_text (value_of_text depth) (length reader.old) reader.old)
        ≡ Some (items_view v.items, reader.new)) }
    ensures shorter { OnOk result (length reader.new < length reader.old) }
    ensures err { result ≡ Err JsonError.BadText
        → converted of_items (items_of_text (value_of_text depth) (length reader.old) reader.old)
        ≡ None }
{
    let mut found = Vec::new(alloc);
    'items: while !reader.take_end_array() {
        let item = value_at(alloc, reader, depth)?;
        found.push(item)?;
    }
    Ok(found)
}

/// The members of an object, of which the brace was read.
#[cycle(value_at)]
#[inline(never)]
fn members_at<'a>(
    alloc: Global,
    reader: &mut Reader<'a>,
    depth: usize,
) -> Result<Vec<(&'a str, Json<'a>)>, JsonError>
    ensures ok { IfOk result (λ v.
        converted (λ ms. of_members ms no_members)
        (members_of_text (value_of_text depth) (length reader.old) reader.old)
        ≡ Some (members_view v.items, reader.new)) }
    ensures shorter { OnOk result (length reader.new < length reader.old) }
    ensures err { result ≡ Err JsonError.BadText
        → converted (λ ms. of_members ms no_members)
        (members_of_text (value_of_text depth) (length reader.old) reader.old) ≡ None }
{
    let mut found = Vec::new(alloc);
    'members: while let Some(key) = reader.next_key()? {
        let member = value_at(alloc, reader, depth)?;
        found.push((key, member))?;
    }
    Ok(found)
}
