//! Rounds of validation, played line by line.
use crate::verdicts::{has_judged_line, has_proofs_line, verdict_of};
use std::alloc::Global;
use tp_round::Round;
use tp_types::{Level, List, NoMemory, Reading, ServerId, Verdict, Version};

/// The round that is played, and what is read.
#[derive(Drop)]
struct Player {
    round: Option<Round>,
    reading: Option<Reading>,
}

fn number_of(word: &str) -> u32 {
    word.parse::<u32>().unwrap_or(0)
}

fn targets_of(alloc: Global, words: &[&str]) -> Result<List<ServerId>, NoMemory> {
    let mut targets = List::new(alloc);
    for word in words {
        targets.push(ServerId(number_of(word)))?;
    }
    Ok(targets)
}

fn started(alloc: Global, limit: u32, words: &[&str]) -> Result<Option<Round>, NoMemory> {
    if limit < 1 || limit > 16 {
        return Ok(None);
    }
    let targets = targets_of(alloc, words)?;
    let round = Round::start(alloc, targets.as_slice(), limit, Level::View)?;
    Ok(Some(round))
}

fn levels_of(alloc: Global, words: &[&str]) -> Result<List<Level>, NoMemory> {
    let mut levels = List::new(alloc);
    for word in words {
        let level = if number_of(word) == 1 {
            Level::Global
        } else {
            Level::View
        };
        levels.push(level)?;
    }
    Ok(levels)
}

fn reading_of(alloc: Global, place: u32, words: &[&str]) -> Result<Reading, NoMemory> {
    let mut newest = List::new(alloc);
    for word in words {
        newest.push(Version(number_of(word)))?;
    }
    Ok(Reading {
        place: u64::from(place),
        newest,
    })
}

fn verdicts_of(alloc: Global, words: &[&str]) -> Result<List<Verdict>, NoMemory> {
    let mut verdicts = List::new(alloc);
    for word in words {
        if let Some(verdict) = verdict_of(alloc, word)? {
            verdicts.push(verdict)?;
        }
    }
    Ok(verdicts)
}

/// Whether the round takes a reply, or ignores it, as the line says.
fn replies(
    alloc: Global,
    round: &mut Round,
    server: ServerId,
    kept: bool,
    words: &[&str],
) -> Result<bool, NoMemory> {
    let verdicts = verdicts_of(alloc, words)?;
    let was_awaited = round.awaits(server);
    let was_kept = round.reply(server, verdicts);
    Ok(was_awaited == was_kept && was_kept == kept)
}

/// Whether the round is judged as the line says.
fn judges(
    alloc: Global,
    round: &mut Round,
    reading: Option<&Reading>,
    line: &str,
) -> Result<bool, NoMemory> {
    let judged = round.judge(alloc, reading)?;
    has_judged_line(alloc, &judged, line)
}

/// Whether the round has the proofs that the line says.
fn proves(alloc: Global, round: &Round, line: &str) -> Result<bool, NoMemory> {
    let proofs = round.proofs(alloc)?;
    has_proofs_line(alloc, proofs.as_slice(), line)
}

/// The round has these levels from now on.
fn takes(alloc: Global, round: &mut Round, reads: bool, words: &[&str]) -> Result<bool, NoMemory> {
    round.levels = levels_of(alloc, words)?;
    round.reads = reads;
    Ok(true)
}

/// Whether the round goes on as the line says.
fn goes(
    alloc: Global,
    round: &mut Round,
    reading: Option<&Reading>,
    line: &str,
    words: &[&str],
) -> Result<bool, NoMemory> {
    match words {
        ["reply", server, kept, verdicts @ ..] => {
            let server = ServerId(number_of(server));
            replies(alloc, round, server, *kept == "kept", verdicts)
        }
        ["judge", ..] => judges(alloc, round, reading, line),
        ["rounds", number] => Ok(round.rounds() == number_of(number)),
        ["proofs", ..] => proves(alloc, round, line),
        ["levels", reads, levels @ ..] => takes(alloc, round, number_of(reads) == 1, levels),
        _ => Ok(false),
    }
}

impl Player {
    fn start(&mut self, alloc: Global, limit: u32, words: &[&str]) -> Result<bool, NoMemory> {
        self.round = started(alloc, limit, words)?;
        Ok(self.round.is_some())
    }

    fn read(&mut self, alloc: Global, place: u32, words: &[&str]) -> Result<bool, NoMemory> {
        self.reading = Some(reading_of(alloc, place, words)?);
        Ok(true)
    }

    /// Whether a line goes as recorded.
    fn step(&mut self, alloc: Global, line: &str, words: &[&str]) -> Result<bool, NoMemory> {
        match words {
            ["start", limit, targets @ ..] => self.start(alloc, number_of(limit), targets),
            ["reading", place, newest @ ..] => self.read(alloc, number_of(place), newest),
            ["unread"] => {
                self.reading = None;
                Ok(true)
            }
            _ => match &mut self.round {
                None => Ok(false),
                Some(round) => goes(alloc, round, self.reading.as_ref(), line, words),
            },
        }
    }

    fn play(&mut self, alloc: Global, line: &str) -> Result<bool, NoMemory> {
        let words: Vec<&str> = line.split_whitespace().collect(alloc)?;
        self.step(alloc, line, words.as_slice())
    }

    /// The first line, behind that of the name, that does not go as recorded.
    fn first_fault<'a>(
        &mut self,
        alloc: Global,
        case: &'a str,
    ) -> Result<Option<&'a str>, NoMemory> {
        for line in case.lines().skip(1) {
            if !self.play(alloc, line)? {
                return Ok(Some(line));
            }
        }
        Ok(None)
    }
}

/// The first line of a case that does not go as recorded.
pub fn fault<'a>(alloc: Global, case: &'a str) -> Result<Option<&'a str>, NoMemory> {
    let mut player = Player {
        round: None,
        reading: None,
    };
    let fault = player.first_fault(alloc, case);
    drop(player);
    fault
}
