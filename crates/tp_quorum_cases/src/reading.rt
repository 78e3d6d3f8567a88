//! What a line of the input says.
use std::alloc::Global;
use tp_quorum::{QStep, Sizes};
use tp_types::{AdminId, Cut, List, NoMemory};

/// How many there are, and the steps that are listed.
#[derive(Drop)]
pub struct Run {
    pub sizes: Sizes,
    pub steps: List<QStep>,
}

fn number(word: &str) -> Option<u32> {
    word.parse::<u32>().ok()
}

fn large_number(word: &str) -> Option<u64> {
    word.parse::<u64>().ok()
}

fn sizes_by(words: &[&str]) -> Option<Sizes> {
    let [replicas, admins, readers] = words else {
        return None;
    };
    Some(Sizes {
        replicas: number(replicas)?,
        admins: number(admins)?,
        readers: number(readers)?,
    })
}

fn cut_by(mail: &str, calls: &str, fill: &str) -> Option<Cut> {
    Some(Cut {
        mail: large_number(mail)?,
        calls: number(calls)?,
        fill: fill.parse::<u8>().ok()?,
    })
}

fn step_by(words: &[&str]) -> Option<QStep> {
    match words {
        ["publish", admin] => Some(QStep::Publish {
            admin: AdminId(number(admin)?),
        }),
        ["read", reader, admin] => Some(QStep::Read {
            reader: number(reader)?,
            admin: AdminId(number(admin)?),
        }),
        ["deliver", mail] => Some(QStep::Deliver {
            mail: large_number(mail)?,
        }),
        ["lose", mail] => Some(QStep::Lose {
            mail: large_number(mail)?,
        }),
        ["crash", replica] => Some(QStep::Crash {
            replica: number(replica)?,
            cut: None,
        }),
        ["crash", replica, "in", mail, "at", calls, "fill", fill] => Some(QStep::Crash {
            replica: number(replica)?,
            cut: Some(cut_by(mail, calls, fill)?),
        }),
        ["boot", replica] => Some(QStep::Boot {
            replica: number(replica)?,
        }),
        ["timer", op] => Some(QStep::Timer { op: number(op)? }),
        _ => None,
    }
}

fn sizes_of(alloc: Global, text: &str) -> Result<Option<Sizes>, NoMemory> {
    let words: Vec<&str> = text.split_whitespace().collect(alloc)?;
    Ok(sizes_by(words.as_slice()))
}

fn step_of(alloc: Global, text: &str) -> Result<Option<QStep>, NoMemory> {
    let words: Vec<&str> = text.split_whitespace().collect(alloc)?;
    Ok(step_by(words.as_slice()))
}

/// The run that a line says, or None where it says none.
pub fn run_of(alloc: Global, line: &str) -> Result<Option<Run>, NoMemory> {
    let parts: Vec<&str> = line.split(';').collect(alloc)?;
    let [first, rest @ ..] = parts.as_slice() else {
        return Ok(None);
    };
    let Some(sizes) = sizes_of(alloc, first)? else {
        return Ok(None);
    };
    let mut steps = List::new(alloc);
    for part in rest {
        match step_of(alloc, part)? {
            None => return Ok(None),
            Some(step) => steps.push(step)?,
        }
    }
    Ok(Some(Run { sizes, steps }))
}
