//! The words after a program's name, as bytes: one that is not UTF-8 reaches the top call as it is.
#![tactic(auto)]

use std::env::FillError;
use std::rt::Env;
use tp_types::{List, NoMemory, Text};

/// What stands at a place among the words.
#[derive(Drop)]
enum Found {
    Word(Text),
    Nothing,
    /// It has more bytes than were asked for.
    Longer,
}

/// The word at a place, if it has at most so many bytes.
fn word_within<R: Env + AllocGlobal>(
    rt: &R,
    place: usize,
    length: usize,
) -> Result<Found, NoMemory> {
    let mut bytes = Vec::new(rt.alloc());
    bytes.resize(length, 0u8)?;
    match rt.arg(place, bytes.as_mut_slice()) {
        Ok(count) => {
            bytes.truncate(count);
            Ok(Found::Word(Text(List::from_vec(bytes))))
        }
        Err(FillError::NotPresent) => Ok(Found::Nothing),
        Err(FillError::TooLong) => Ok(Found::Longer),
    }
}

/// The word at a place: room is doubled until it is enough, or memory is refused.
fn word<R: Env + AllocGlobal>(rt: &R, place: usize) -> Result<Option<Text>, NoMemory> {
    let mut length = 256usize;
    for _ in 0..usize::BITS {
        match word_within(rt, place, length)? {
            Found::Word(word) => return Ok(Some(word)),
            Found::Nothing => return Ok(None),
            Found::Longer => length = length.saturating_mul(2),
        }
    }
    Err(NoMemory)
}

/// The words, in order.
pub fn words<R: Env + AllocGlobal>(rt: &R) -> Result<List<Text>, NoMemory> {
    let mut words = List::new(rt.alloc());
    for place in 1..usize::MAX {
        match word(rt, place)? {
            Some(word) => words.push(word)?,
            None => return Ok(words),
        }
    }
    Ok(words)
}
