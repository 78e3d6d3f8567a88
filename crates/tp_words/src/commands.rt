//! The commands of the program.
ghost use Rattle.std.specs.Prelude.{◌≡◌, IfOk, MatchOption, map, option_map};
ghost use Rattle.tp_words.specs.Commands as commands;
ghost use Rattle.tp_words.specs.Commands.{AreUtf8, IsCommand, IsNoCommand, bytes_of};

use crate::reading::{Given, read};
use std::alloc::Global;
use std::str;
use tp_types::{NoMemory, Text, number_of};

/// What the program is asked to do.
#[derive(Clone, Copy)]
pub enum Command {
    /// To run the scenario on its input.
    Run,
    /// To run it, and to tell each step.
    Trace,
    /// To run the large scenario of so many transactions, from 1 to 128.
    Bulk(u32),
}

/// The words as texts, or None where one is not UTF-8.
fn texts<'a>(alloc: Global, words: &'a [Text]) -> Result<Option<Vec<&'a str>>, NoMemory>
    ensures { IfOk result (λ found.
        MatchOption found (¬ (AreUtf8 (bytes_of words.now)))
        (λ made. AreUtf8 (bytes_of words.now)
        × (map (λ text. text.now) made.items ≡ bytes_of words.now))) }
{
    let mut texts = Vec::new(alloc);
    for word in words {
        match str::from_utf8(word.0.as_slice()) {
            Ok(text) => texts.push(text)?,
            Err(_) => return Ok(None),
        }
    }
    Ok(Some(texts))
}

fn bulk_of(word: &str) -> Option<Command>
    ensures { result ≡ commands.bulk_of word.now }
{
    match number_of(word.as_bytes()) {
        None => None,
        Some(count) => {
            if 1 <= count && count <= 128 {
                Some(Command::Bulk(count as u32))
            } else {
                None
            }
        }
    }
}

fn alone(command: Command, word: Option<&str>) -> Option<Command>
    ensures { result ≡ commands.alone command (option_map (λ word. word.now) word.entry) }
{
    match word {
        None => Some(command),
        Some(_) => None,
    }
}

fn named(name: &str, word: Option<&str>) -> Option<Command>
    ensures { result ≡ commands.named name.now (option_map (λ word. word.now) word.entry) }
{
    if name == "run" {
        alone(Command::Run, word)
    } else if name == "trace" {
        alone(Command::Trace, word)
    } else if name == "bulk" {
        match word {
            None => None,
            Some(count) => bulk_of(count),
        }
    } else {
        None
    }
}

fn command_by(given: &Given) -> Option<Command>
    ensures { result ≡ commands.command_by (option_map (λ word. word.now) given.now.command)
        (option_map (λ word. word.now) given.now.word) }
{
    match given.command {
        None => None,
        Some(name) => named(name, given.word),
    }
}

/// The command that the words are, or None where they are none.
pub fn command_of(alloc: Global, words: &[Text]) -> Result<Option<Command>, NoMemory>
    ensures { IfOk result (λ found.
        MatchOption found (IsNoCommand words.now) (IsCommand words.now)) }
{
    match texts(alloc, words)? {
        None => Ok(None),
        Some(texts) => match read(alloc, texts.as_slice())? {
            None => Ok(None),
            Some(given) => Ok(command_by(&given)),
        },
    }
}
