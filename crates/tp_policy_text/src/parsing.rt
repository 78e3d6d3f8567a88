//! Reading a policy's text.
ghost use Rattle.std.specs.Prelude.{◌≡◌, ◌≢◌, ◌⊎◌, ◌≤◌, ◌<◌, length, Result, Err, IfOk};
ghost use Rattle.tp_types.specs.declared.policy.Policy.{Policy};
ghost use Rattle.tp_policy_text.specs.Parses as parses;
ghost use Rattle.tp_policy_text.specs.Parses.{Answers, HasAnswer, HasOneAnswer, IsOutOfMemory};
ghost use Rattle.tp_policy_text.specs.Printed.{IsOfGrammar};

use crate::halt::{Halt, Stop};
use crate::reader::Reader;
use std::alloc::Global;
use tp_types::{NoMemory, Policy};

/// The most bytes of a policy's text.
pub const TEXT_MAX: usize = 4096;

/// How many parentheses may stand within one another.
pub const DEPTH_MAX: usize = 16;

/// Why a text is no policy. A place is a number of bytes from the front of the text.
#[derive(Clone, Copy, Debug, Drop, PartialEq)]
pub enum ParseError {
    /// The text has more than `TEXT_MAX` bytes.
    TooLong,
    /// At the place, a parenthesis stands within `DEPTH_MAX` others.
    TooDeep { place: usize },
    /// No text of the grammar goes on with the byte at the place, or with the end.
    Syntax { place: usize },
    /// Memory was refused.
    NoMemory,
}

impl From<NoMemory> for ParseError {
    ghost use Rattle.std.specs.Prelude.{◌≡◌};
    ghost use Rattle.tp_policy_text.specs.declared.parsing.ParseError.TheVariants.{NoMemory as OutOfMemory};

    ghost from_gives = { λ _ error. error ≡ OutOfMemory };

    fn from(_error: NoMemory) -> ParseError {
        ParseError::NoMemory
    }
}

fn refused(stop: Stop, place: usize) -> ParseError
    requires { stop ≢ Stop.Spent }
    ensures { result ≡ parses.refusal_of stop place }
{
    match stop {
        Stop::Deep => ParseError::TooDeep { place },
        Stop::Syntax => ParseError::Syntax { place },
        Stop::Spent => unreachable!(),
    }
}

/// The policy that a text says. The refusals come in the order in which the text meets them, and a text that is too long is
/// refused as such, whatever else is wrong with it.
pub fn parse(alloc: Global, text: &[u8]) -> Result<Policy, ParseError>
    ensures answer { IsOutOfMemory result ⊎ Answers text.now result }
    ensures only { (answer : Result Policy ParseError) → Answers text.now answer
        → IsOutOfMemory result ⊎ (result ≡ answer) }
    ensures of_grammar { IfOk result (λ policy. IsOfGrammar policy) }
    ensures few { IfOk result (λ policy. length policy.rules ≤ length text.now) }
    ensures too_long { parses.length_max < length text.now → result ≡ Err ParseError.TooLong }
{
    if text.len() > TEXT_MAX {
        return Err(ParseError::TooLong);
    }
    let mut reader = Reader { alloc, rest: text };
    match reader.policy(text.len() + 1, DEPTH_MAX) {
        Ok(policy) => Ok(policy),
        Err(Halt::NoMemory) => Err(ParseError::NoMemory),
        Err(Halt::Stopped(stop)) => Err(refused(stop, text.len() - reader.rest.len())),
    }
}

/// Every text has an answer, and one alone: it says one policy within the limits, or is too long, or stops or goes too deep at one
/// place. This holds of the definition, whatever memory there is.
pub fn texts_have_one_answer()
    ensures some { HasAnswer }
    ensures alone { HasOneAnswer }
{}
