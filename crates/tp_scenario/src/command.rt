//! The text of a step.
ghost use Rattle.std.specs.Prelude.{◌≡◌, option_map};
ghost use Rattle.tp_json.specs.View.{view};
ghost use Rattle.tp_scenario.specs.Steps as steps;
ghost use Rattle.tp_scenario.specs.Steps.{by_number, of_name};
ghost use Rattle.tp_scenario.specs.mirrors.Commands.{command};
ghost use Rattle.tp_scenario.specs.mirrors.Gives.{GivesAs};

use crate::fault::{WalkError, shape_at};
use crate::path::Path;
use crate::values::text_at;
use crate::words::Words;
use tp_json::Json;
use tp_types::{is_name, number_of};

/// A verb that a name follows.
#[derive(Clone, Copy)]
pub enum NameVerb {
    Submit,
    Publish,
    Revoke,
    Crash,
    Boot,
    Timer,
}

/// A verb that a number follows.
#[derive(Clone, Copy)]
pub enum CountVerb {
    Tick,
    Deliver,
    Lose,
}

/// A step as it is spelled, with the names that it uses.
#[derive(Clone, Copy)]
pub(crate) enum Command<'a> {
    OfName(NameVerb, &'a [u8]),
    ByNumber(CountVerb, u64),
    Push(&'a [u8], &'a [u8]),
    /// A crash in the receipt of a mail, with the mail's number, the device calls that pass, and the fill.
    Cut(&'a [u8], u64, u64, u64),
}

#[tactic(auto, unfolding(crate::specs::Steps::name_verb))]
fn name_verb(word: &[u8]) -> Option<NameVerb>
    ensures { result ≡ steps.name_verb word.now }
{
    if word == b"submit".as_slice() {
        Some(NameVerb::Submit)
    } else if word == b"publish".as_slice() {
        Some(NameVerb::Publish)
    } else if word == b"revoke".as_slice() {
        Some(NameVerb::Revoke)
    } else if word == b"crash".as_slice() {
        Some(NameVerb::Crash)
    } else if word == b"boot".as_slice() {
        Some(NameVerb::Boot)
    } else if word == b"timer".as_slice() {
        Some(NameVerb::Timer)
    } else {
        None
    }
}

#[tactic(auto, unfolding(crate::specs::Steps::count_verb))]
fn count_verb(word: &[u8]) -> Option<CountVerb>
    ensures { result ≡ steps.count_verb word.now }
{
    if word == b"tick".as_slice() {
        Some(CountVerb::Tick)
    } else if word == b"deliver".as_slice() {
        Some(CountVerb::Deliver)
    } else if word == b"lose".as_slice() {
        Some(CountVerb::Lose)
    } else {
        None
    }
}

/// The only word, where it is spelled as a name: a name has no space, so it is all that is left.
#[tactic(auto, using(crate::proofs::LastWords::last_name))]
fn one_name<'a>(words: Words<'a>) -> Option<&'a [u8]>
    ensures { option_map (λ name. name.now) result ≡ steps.one_name words.entry }
{
    let text = words.left()?;
    if is_name(text) { Some(text) } else { None }
}

/// The number that the only word is, which has no space either.
#[tactic(auto, using(crate::proofs::LastWords::last_number))]
fn one_number(words: Words<'_>) -> Option<u64>
    ensures { result ≡ steps.one_number words.entry }
{
    number_of(words.left()?)
}

#[tactic(auto, unfolding(crate::specs::Steps::push_of))]
fn push_of<'a>(mut words: Words<'a>) -> Option<Command<'a>>
    ensures { option_map command result ≡ steps.push_of words.entry }
{
    let admin = words.next()?;
    let server = one_name(words)?;
    if is_name(admin) {
        Some(Command::Push(admin, server))
    } else {
        None
    }
}

#[tactic(auto, unfolding(crate::specs::Steps::fill_of))]
fn fill_of(mut words: Words<'_>) -> Option<u64>
    ensures { result ≡ steps.fill_of words.entry }
{
    let key = words.next()?;
    if key == b"fill".as_slice() {
        one_number(words)
    } else {
        None
    }
}

#[tactic(auto, unfolding(crate::specs::Steps::calls_of))]
fn calls_of<'a>(name: &'a [u8], mail: u64, mut words: Words<'a>) -> Option<Command<'a>>
    ensures { option_map command result ≡ steps.calls_of name.now mail words.entry }
{
    let key = words.next()?;
    let calls = words.next()?;
    if key == b"at".as_slice() {
        let fill = fill_of(words)?;
        let calls = number_of(calls)?;
        Some(Command::Cut(name, mail, calls, fill))
    } else {
        None
    }
}

#[tactic(auto, unfolding(crate::specs::Steps::mail_of))]
fn mail_of<'a>(name: &'a [u8], mut words: Words<'a>) -> Option<Command<'a>>
    ensures { option_map command result ≡ steps.mail_of name.now words.entry }
{
    let key = words.next()?;
    let mail = words.next()?;
    if key == b"in".as_slice() {
        calls_of(name, number_of(mail)?, words)
    } else {
        None
    }
}

fn crashed<'a>(name: &'a [u8], words: Words<'a>) -> Option<Command<'a>>
    ensures { option_map command result ≡ steps.crash_by_name name.now words.entry }
{
    if words.is_at_end() {
        Some(Command::OfName(NameVerb::Crash, name))
    } else {
        mail_of(name, words)
    }
}

#[tactic(auto, unfolding(crate::specs::Steps::crash_of))]
fn crash_of<'a>(mut words: Words<'a>) -> Option<Command<'a>>
    ensures { option_map command result ≡ steps.crash_of words.entry }
{
    let name = words.next()?;
    if is_name(name) {
        crashed(name, words)
    } else {
        None
    }
}

fn of_one_name<'a>(verb: NameVerb, words: Words<'a>) -> Option<Command<'a>>
    ensures { option_map command result ≡ option_map (of_name verb) (steps.one_name words.entry) }
{
    let name = one_name(words)?;
    Some(Command::OfName(verb, name))
}

fn by_verb<'a>(verb: NameVerb, words: Words<'a>) -> Option<Command<'a>>
    ensures { option_map command result ≡ steps.by_verb verb words.entry }
{
    match verb {
        NameVerb::Crash => crash_of(words),
        _ => of_one_name(verb, words),
    }
}

fn named_by<'a>(word: &[u8], words: Words<'a>) -> Option<Command<'a>>
    ensures { option_map command result
        ≡ steps.command_by_name (steps.name_verb word.now) words.entry }
{
    match name_verb(word) {
        None => None,
        Some(verb) => by_verb(verb, words),
    }
}

fn counted_by<'a>(verb: CountVerb, words: Words<'a>) -> Option<Command<'a>>
    ensures { option_map command result
        ≡ option_map (by_number verb) (steps.one_number words.entry) }
{
    let number = one_number(words)?;
    Some(Command::ByNumber(verb, number))
}

fn counted_or<'a>(word: &[u8], words: Words<'a>) -> Option<Command<'a>>
    ensures { option_map command result
        ≡ steps.command_by_count_or (steps.count_verb word.now)
        (steps.name_verb word.now) words.entry }
{
    match count_verb(word) {
        Some(verb) => counted_by(verb, words),
        None => named_by(word, words),
    }
}

#[tactic(auto, unfolding(crate::specs::Steps::command_by))]
fn command_by<'a>(word: &[u8], words: Words<'a>) -> Option<Command<'a>>
    ensures { option_map command result ≡ steps.command_by word.now words.entry }
{
    if word == b"push".as_slice() {
        push_of(words)
    } else {
        counted_or(word, words)
    }
}

fn command_in<'a>(mut words: Words<'a>) -> Option<Command<'a>>
    ensures { option_map command result ≡ steps.command_in words.entry }
{
    let verb = words.next()?;
    command_by(verb, words)
}

#[tactic(auto, unfolding(crate::specs::Steps::command_of))]
fn command_of(text: &[u8]) -> Option<Command<'_>>
    ensures { option_map command result ≡ steps.command_of text.now }
{
    command_in(Words::of(text))
}

/// The step that a value spells.
#[tactic(auto, unfolding(crate::specs::Steps::command_at))]
pub(crate) fn command_at<'a>(path: Path, value: &Json<'a>) -> Result<Command<'a>, WalkError>
    ensures { GivesAs result command (steps.command_at path (view value.now)) }
{
    let text = text_at(path, Some(value))?;
    match command_of(text) {
        None => Err(shape_at(path)),
        Some(found) => Ok(found),
    }
}
