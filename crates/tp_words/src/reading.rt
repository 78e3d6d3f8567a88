//! Words, as `clap` reads them.
ghost use Rattle.std.specs.Prelude.{◌≡◌, IfOk, MatchOption, map, option_map};
ghost use Rattle.tp_words.specs.Reading.{IsNotRead, IsRead};

use clap::error::ErrorKind;
use clap::{Arg, Command};
use std::alloc::Global;
use tp_types::NoMemory;

/// The words that a command line has: the name of the command, and the word behind it.
#[derive(Clone, Copy)]
pub struct Given<'a> {
    pub command: Option<&'a str>,
    pub word: Option<&'a str>,
}

/// The words that are given, or None where they are no reading: a word that begins with `-` and is longer before `--`, none at all,
/// or more than two.
pub fn read<'a>(alloc: Global, words: &'a [&'a str]) -> Result<Option<Given<'a>>, NoMemory>
    ensures { IfOk result (λ found.
        MatchOption found (IsNotRead (map (λ word. word.now) words.now))
        (λ read. IsRead (map (λ word. word.now) words.now)
        (option_map (λ word. word.now) read.command) (option_map (λ word. word.now) read.word))) }
{
    let name = Arg::new(alloc, "COMMAND").required(true);
    let word = Arg::new(alloc, "WORD");
    let command = Command::new(alloc, "tpvc")
        .no_binary_name(true)
        .disable_help_flag(true)
        .disable_version_flag(true)
        .arg(name)?
        .arg(word)?;
    match command.try_get_matches_from(words) {
        Ok(matches) => Ok(Some(Given {
            command: matches.get_str("COMMAND"),
            word: matches.get_str("WORD"),
        })),
        Err(error) => match error.kind() {
            ErrorKind::OutOfMemory => Err(NoMemory),
            _ => Ok(None),
        },
    }
}
