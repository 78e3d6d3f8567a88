//! What is written of a run.
use std::alloc::Global;
use tp_quorum::{Answer, QError, QFact, QStep, QWhat};
use tp_types::{AdminId, NoMemory, Version};

/// A part of the line, behind the others.
fn put(line: &mut String, part: &str) -> Result<(), NoMemory> {
    if !line.is_empty() {
        line.push_str("; ")?;
    }
    line.push_str(part)?;
    Ok(())
}

fn why_text(alloc: Global, why: QError) -> Result<String, NoMemory> {
    match why {
        QError::NoSuchMail { mail, mails } => Ok(format!(in alloc; "nomail {mail} {mails}")?),
        QError::Busy { op } => Ok(format!(in alloc; "busy {op}")?),
        QError::Idle { op } => Ok(format!(in alloc; "idle {op}")?),
        QError::IsDown { replica } => Ok(format!(in alloc; "isdown {replica}")?),
        QError::NotDown { replica } => Ok(format!(in alloc; "notdown {replica}")?),
        QError::NotItsMail { mail } => Ok(format!(in alloc; "notitsmail {mail}")?),
        QError::NoMemory => Ok(format!(in alloc; "nomemory")?),
    }
}

/// That a listed step was refused, by its number from 0.
pub fn put_refusal(
    alloc: Global,
    line: &mut String,
    number: usize,
    why: QError,
) -> Result<(), NoMemory> {
    let text = why_text(alloc, why)?;
    let part = format!(in alloc; "refused {number} {text}")?;
    put(line, part.as_str())
}

/// That a listed step names what is not there.
pub fn put_missing(alloc: Global, line: &mut String, number: usize) -> Result<(), NoMemory> {
    let part = format!(in alloc; "missing {number}")?;
    put(line, part.as_str())
}

fn next_text(alloc: Global, next: Option<QStep>) -> Result<String, NoMemory> {
    match next {
        None => Ok(format!(in alloc; "next none")?),
        Some(QStep::Boot { replica }) => Ok(format!(in alloc; "next boot {replica}")?),
        Some(QStep::Deliver { mail }) => Ok(format!(in alloc; "next deliver {mail}")?),
        Some(QStep::Timer { op }) => Ok(format!(in alloc; "next timer {op}")?),
        Some(_) => Ok(format!(in alloc; "next no automatic step")?),
    }
}

/// Which step comes next by itself.
pub fn put_next(alloc: Global, line: &mut String, next: Option<QStep>) -> Result<(), NoMemory> {
    let part = next_text(alloc, next)?;
    put(line, part.as_str())
}

/// What came of an operation.
pub fn put_answer(
    alloc: Global,
    line: &mut String,
    op: u32,
    answer: Answer,
) -> Result<(), NoMemory> {
    let part = match answer {
        Answer::Pending => format!(in alloc; "{op} pending")?,
        Answer::Done {
            version: Version(version),
        } => format!(in alloc; "{op} done {version}")?,
    };
    put(line, part.as_str())
}

fn number_of(version: Option<Version>) -> u32 {
    match version {
        None => 0,
        Some(Version(number)) => number,
    }
}

fn fact_text(alloc: Global, place: u64, what: QWhat) -> Result<String, NoMemory> {
    match what {
        QWhat::Began {
            op,
            admin: AdminId(admin),
            reader: None,
            version,
        } => {
            let version = number_of(version);
            Ok(format!(in alloc; "{place} begin {op} publish {admin} {version}")?)
        }
        QWhat::Began {
            op,
            admin: AdminId(admin),
            reader: Some(reader),
            version,
        } => {
            let version = number_of(version);
            if version == 0 {
                Ok(format!(in alloc; "{place} begin {op} read {reader} {admin}")?)
            } else {
                Ok(format!(in alloc; "{place} begin {op} read {reader} {admin} at {version}")?)
            }
        }
        QWhat::Ended {
            op,
            version: Version(version),
        } => Ok(format!(in alloc; "{place} end {op} {version}")?),
    }
}

/// A fact.
pub fn put_fact(alloc: Global, line: &mut String, fact: QFact) -> Result<(), NoMemory> {
    let part = fact_text(alloc, fact.place, fact.what)?;
    put(line, part.as_str())
}

/// The newest version of an administrator.
pub fn put_newest(
    alloc: Global,
    line: &mut String,
    admin: u32,
    newest: Version,
) -> Result<(), NoMemory> {
    let Version(version) = newest;
    let part = format!(in alloc; "newest {admin} {version}")?;
    put(line, part.as_str())
}

/// How many steps were done, and mails were sent.
pub fn put_quiet(alloc: Global, line: &mut String, steps: u64, mails: u64) -> Result<(), NoMemory> {
    let part = format!(in alloc; "quiet {steps} {mails}")?;
    put(line, part.as_str())
}
