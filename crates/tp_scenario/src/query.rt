//! The text of a query.
ghost use Rattle.std.specs.Prelude.{◌≡◌, ◌∷◌, [], ◌&&◌, codes, option_map, IfOk};
ghost use Rattle.tp_types.specs.Spelling.{is_name as is_name_text};
ghost use Rattle.tp_model.specs.Ids.{same_name};
ghost use Rattle.tp_scenario.specs.Queries.{writes};
ghost use Rattle.std.specs.List.{count_by};
ghost use Rattle.tp_json.specs.View.{view};
ghost use Rattle.tp_model.specs.Valid.{has_constant};
ghost use Rattle.tp_scenario.specs.Queries as queries;
ghost use Rattle.tp_scenario.specs.mirrors.Asks.{asked};
ghost use Rattle.tp_scenario.specs.mirrors.Gives.{Gives};

use crate::fault::{WalkError, range_at, shape_at};
use crate::names::Names;
use crate::path::Path;
use crate::values::{text_at, used};
use crate::words::Words;
use std::alloc::Global;
use tp_json::Json;
use tp_model::TERMS_MAX;
use tp_types::{ItemId, List, NoMemory, Operand, Query, Term, is_name, number_of};

/// A query as it is spelled, with the name of its item.
#[derive(Drop)]
enum Asked<'a> {
    Read { item: &'a [u8], into: u32 },
    Write { item: &'a [u8], expr: List<Term> },
}

fn is_register_digit(byte: u8) -> bool
    ensures { result ≡ queries.is_register_digit byte }
{
    b'1' <= byte && byte <= b'9'
}

#[tactic(auto, unfolding(crate::specs::Queries::register_of))]
fn register_of(word: &[u8]) -> Option<u32>
    ensures { result ≡ queries.register_of word.now }
{
    match word {
        [letter, digit] => {
            if *letter == b'r' && is_register_digit(*digit) {
                Some(u32::from(*digit - b'0'))
            } else {
                None
            }
        }
        _ => None,
    }
}

#[tactic(auto, unfolding(crate::specs::Queries::constant_term))]
fn constant_term(minus: bool, digits: &[u8]) -> Option<Term>
    ensures { result ≡ queries.constant_term minus digits.now }
{
    let number = number_of(digits)?;
    Some(Term {
        minus,
        operand: Operand::Constant(number as i64),
    })
}

/// A register or a number.
#[tactic(auto, unfolding(crate::specs::Queries::term_of))]
fn term_of(minus: bool, word: &[u8]) -> Option<Term>
    ensures { result ≡ queries.term_of minus word.now }
{
    match register_of(word) {
        Some(register) => Some(Term {
            minus,
            operand: Operand::Register(register),
        }),
        None => constant_term(minus, word),
    }
}

/// The first term, of which a number may have `-` directly before it.
#[tactic(auto, unfolding(crate::specs::Queries::first_term))]
fn first_term(word: &[u8]) -> Option<Term>
    ensures { result ≡ queries.first_term word.now }
{
    match word.split_first() {
        None => None,
        Some((b'-', digits)) => constant_term(true, digits),
        Some(_) => term_of(false, word),
    }
}

#[tactic(auto, unfolding(crate::specs::Queries::sign_of))]
fn sign_of(word: &[u8]) -> Option<bool>
    ensures { result ≡ queries.sign_of word.now }
{
    if word == b"+".as_slice() {
        Some(false)
    } else if word == b"-".as_slice() {
        Some(true)
    } else {
        None
    }
}

/// A sign, and the term behind it.
#[tactic(auto, unfolding(crate::specs::Queries::signed_term))]
fn signed_term(sign: &[u8], word: &[u8]) -> Option<Term>
    ensures { result ≡ queries.signed_term sign.now word.now }
{
    term_of(sign_of(sign)?, word)
}

fn terms_after(
    alloc: Global,
    first: Term,
    words: &mut Words<'_>,
) -> Result<Option<List<Term>>, NoMemory>
    ensures { IfOk result (λ found. found ≡ queries.terms_after (first ∷ []) words.old) }
{
    let mut made = List::of_one(alloc, first)?;
    while let Some(sign) = words.next() {
        let Some(word) = words.next() else {
            return Ok(None);
        };
        let Some(term) = signed_term(sign, word) else {
            return Ok(None);
        };
        made.push(term)?;
    }
    Ok(Some(made))
}

fn sum_of(alloc: Global, words: &mut Words<'_>) -> Result<Option<List<Term>>, NoMemory>
    ensures { IfOk result (λ found. found ≡ queries.sum_of words.old) }
{
    match words.next() {
        None => Ok(None),
        Some(word) => match first_term(word) {
            None => Ok(None),
            Some(first) => terms_after(alloc, first, words),
        },
    }
}

fn is_read(name: &[u8], into: &[u8]) -> bool
    ensures { result ≡ (is_name_text name.now && same_name into.now (codes "into")) }
{
    is_name(name) && into == b"into".as_slice()
}

fn is_write(name: &[u8], sign: &[u8]) -> bool
    ensures { result ≡ (is_name_text name.now && same_name sign.now (codes ":=")) }
{
    is_name(name) && sign == b":=".as_slice()
}

#[tactic(auto, unfolding(crate::specs::Queries::read_of))]
fn read_of<'a>(words: &mut Words<'a>) -> Option<Asked<'a>>
    ensures { option_map asked result ≡ queries.read_of words.old }
{
    let item = words.next()?;
    let into = words.next()?;
    if is_read(item, into) {
        let into = register_of(words.only()?)?;
        Some(Asked::Read { item, into })
    } else {
        None
    }
}

fn written<'a>(
    alloc: Global,
    item: &'a [u8],
    words: &mut Words<'a>,
) -> Result<Option<Asked<'a>>, NoMemory>
    ensures { IfOk result (λ found.
        option_map asked found ≡ option_map (writes item.now) (queries.sum_of words.old)) }
{
    match sum_of(alloc, words)? {
        None => Ok(None),
        Some(expr) => Ok(Some(Asked::Write { item, expr })),
    }
}

#[tactic(auto, unfolding(crate::specs::Queries::write_of))]
fn write_of<'a>(alloc: Global, words: &mut Words<'a>) -> Result<Option<Asked<'a>>, NoMemory>
    ensures { IfOk result (λ found. option_map asked found ≡ queries.write_of words.old) }
{
    let Some(item) = words.next() else {
        return Ok(None);
    };
    let Some(sign) = words.next() else {
        return Ok(None);
    };
    if is_write(item, sign) {
        written(alloc, item, words)
    } else {
        Ok(None)
    }
}

fn asked_by<'a>(
    alloc: Global,
    verb: &[u8],
    words: &mut Words<'a>,
) -> Result<Option<Asked<'a>>, NoMemory>
    ensures { IfOk result (λ found.
        option_map asked found ≡ queries.asked_by verb.now words.old) }
{
    if verb == b"read".as_slice() {
        Ok(read_of(words))
    } else if verb == b"write".as_slice() {
        write_of(alloc, words)
    } else {
        Ok(None)
    }
}

fn asked_in<'a>(alloc: Global, words: &mut Words<'a>) -> Result<Option<Asked<'a>>, NoMemory>
    ensures { IfOk result (λ found. option_map asked found ≡ queries.asked_in words.old) }
{
    match words.next() {
        None => Ok(None),
        Some(verb) => asked_by(alloc, verb, words),
    }
}

/// The query that a text spells.
#[tactic(auto, unfolding(crate::specs::Queries::asked_of))]
fn asked_of(alloc: Global, text: &[u8]) -> Result<Option<Asked<'_>>, NoMemory>
    ensures { IfOk result (λ found. option_map asked found ≡ queries.asked_of text.now) }
{
    let mut words = Words::of(text);
    asked_in(alloc, &mut words)
}

fn count_constants(expr: &List<Term>) -> usize
    ensures { result ≡ count_by has_constant expr.now }
{
    expr.iter().filter(|term| is_constant(**term)).count()
}

fn is_constant(term: Term) -> bool
    ensures { result ≡ has_constant term }
{
    match term.operand {
        Operand::Constant(_) => true,
        Operand::Register(_) => false,
    }
}

fn is_short(expr: &List<Term>) -> bool
    ensures { result ≡ queries.is_short expr.now }
{
    expr.len() <= TERMS_MAX && count_constants(expr) <= 1
}

#[tactic(auto, unfolding(crate::specs::Queries::read_from))]
fn read_from(path: Path, items: &Names, name: &[u8], into: u32) -> Result<Query, WalkError>
    ensures { Gives result (queries.read_from path items.now name.now into) }
{
    let place = used(path, items, name)?;
    Ok(Query::Read {
        item: ItemId(place),
        into,
    })
}

#[tactic(auto, unfolding(crate::specs::Queries::write_to))]
fn write_to(path: Path, items: &Names, name: &[u8], expr: List<Term>) -> Result<Query, WalkError>
    ensures { Gives result (queries.write_to path items.now name.now expr) }
{
    let place = used(path, items, name)?;
    Ok(Query::Write {
        item: ItemId(place),
        expr,
    })
}

fn query_for(path: Path, items: &Names, query: Asked<'_>) -> Result<Query, WalkError>
    ensures { Gives result (queries.query_for path items.now (asked query.entry)) }
{
    match query {
        Asked::Read { item, into } => read_from(path, items, item, into),
        Asked::Write { item, expr } => {
            if is_short(&expr) {
                write_to(path, items, item, expr)
            } else {
                Err(range_at(path))
            }
        }
    }
}

/// A query: how it is spelled, its counts, and the item that it names.
#[tactic(auto, unfolding(crate::specs::Queries::query_at))]
pub(crate) fn query_at(
    alloc: Global,
    path: Path,
    items: &Names,
    value: &Json,
) -> Result<Query, WalkError>
    ensures { Gives result (queries.query_at path items.now (view value.now)) }
{
    let text = text_at(path, Some(value))?;
    match asked_of(alloc, text)? {
        None => Err(shape_at(path)),
        Some(query) => query_for(path, items, query),
    }
}
