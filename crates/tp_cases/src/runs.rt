//! Calls of the program, and how they end.
use crate::spelling::fill;
use std::alloc::{AllocError, Global};
use std::fs::{self, Files};
use std::io;
use tp_io::{MemorySink, MemorySource};
use tp_top::tpvc;
use tp_types::{List, NoMemory, Text, both};

/// A word of a call, where `""` stands for the empty one.
fn word_of(alloc: Global, spelled: &str) -> Result<Text, AllocError> {
    let word = if spelled == "\"\"" { "" } else { spelled };
    let bytes = Vec::from_slice(alloc, word.as_bytes())?;
    Ok(Text(List::from_vec(bytes)))
}

fn words_of(alloc: Global, spelled: &[&str]) -> Result<Vec<Text>, AllocError> {
    let mut words = Vec::new(alloc);
    for word in spelled {
        words.push(word_of(alloc, word)?)?;
    }
    Ok(words)
}

/// How a call ended or is to end: with what stands on out, and where that is not all, behind a byte 0, with the status and
/// what stands on notes.
fn ending(alloc: Global, status: u8, out: &[u8], notes: &[u8]) -> Result<Vec<u8>, AllocError> {
    let mut ending = Vec::from_slice(alloc, out)?;
    if status != 0 || !notes.is_empty() {
        ending.push(0)?;
        ending.push(status)?;
        ending.extend_from_slice(notes)?;
    }
    Ok(ending)
}

/// The call of a stream that fails: of `in`, `out` or `notes`, counted from 0.
#[derive(Clone, Copy)]
struct Failing<'a> {
    stream: &'a str,
    call: u64,
}

/// No call of a stream fails.
const NONE: Failing = Failing {
    stream: "",
    call: 0,
};

/// The calls of a stream that fail.
fn calls_of(alloc: Global, stream: &str, failing: Failing) -> Result<List<u64>, AllocError> {
    let mut calls = Vec::new(alloc);
    if failing.stream == stream {
        calls.push(failing.call)?;
    }
    Ok(List::from_vec(calls))
}

/// How a call ends on an input that comes in pieces, with sinks that take few bytes at once.
fn call(
    alloc: Global,
    words: &[Text],
    input: Vec<u8>,
    failing: Failing,
) -> Result<Vec<u8>, AllocError> {
    let reads = calls_of(alloc, "in", failing)?;
    let mut source = MemorySource::new(List::from_vec(input), reads, 100);
    let mut out = MemorySink::new(alloc, calls_of(alloc, "out", failing)?, 3);
    let mut notes = MemorySink::new(alloc, calls_of(alloc, "notes", failing)?, 3);
    let status = tpvc(alloc, words, &mut source, &mut out, &mut notes).number();
    ending(alloc, status, out.bytes(), notes.bytes())
}

fn called(
    alloc: Global,
    words: &[&str],
    input: Vec<u8>,
    failing: Failing,
) -> Result<Vec<u8>, AllocError> {
    let words = words_of(alloc, words)?;
    call(alloc, words.as_slice(), input, failing)
}

/// What a command makes of a scenario, or how else its call ends.
pub fn answer(alloc: Global, command: &str, scenario: &[u8]) -> Result<Vec<u8>, NoMemory> {
    let input = Vec::from_slice(alloc, scenario)?;
    Ok(called(alloc, &[command], input, NONE)?)
}

fn file<R: Files + AllocGlobal>(
    rt: &R,
    folder: &str,
    name: &str,
    kind: &str,
) -> io::Result<Vec<u8>> {
    fs::read(rt, format!(in rt.alloc(); "{folder}/{name}.{kind}")?)
}

/// The input of a case, with blanks behind it up to the length that is told.
fn input<R: Files + AllocGlobal>(
    rt: &R,
    folder: &str,
    name: &str,
    length: &str,
) -> io::Result<Vec<u8>> {
    let mut input = file(rt, folder, name, "json")?;
    fill(&mut input, length)?;
    Ok(input)
}

/// How a case is to end: with a whole text, or with a line that says why there is none, and what stands before it.
fn wanted<R: Files + AllocGlobal>(
    rt: &R,
    folder: &str,
    name: &str,
    status: &str,
) -> io::Result<Vec<u8>> {
    if status == "0" {
        return file(rt, folder, name, "out");
    }
    let notes = file(rt, folder, name, "err")?;
    let out = file(rt, folder, name, "out").unwrap_or(Vec::new(rt.alloc()));
    let status = status.parse::<u8>().unwrap_or(u8::MAX);
    Ok(ending(rt.alloc(), status, out.as_slice(), notes.as_slice())?)
}

/// Whether the case of this name ends as it is to: NAME, or NAME:LENGTH.
fn ends_so<R: Files + AllocGlobal>(
    rt: &R,
    folder: &str,
    named: &str,
    status: &str,
    words: &[&str],
) -> io::Result<bool> {
    let (name, length) = named.split_once(':').unwrap_or((named, ""));
    let input = input(rt, folder, name, length)?;
    let (ending, wanted) = both(
        called(rt.alloc(), words, input, NONE).map_err(io::Error::from),
        wanted(rt, folder, name, status),
    )?;
    Ok(ending.as_slice() == wanted.as_slice())
}

fn fault_of<'a, R: Files + AllocGlobal>(
    rt: &R,
    folder: &str,
    words: &[&'a str],
) -> Option<&'a str> {
    match words {
        [named, status, words @ ..] => {
            if ends_so(rt, folder, named, status, words).unwrap_or(false) {
                None
            } else {
                Some(named)
            }
        }
        _ => Some("a line without a status"),
    }
}

/// The name of the case of a line, where it does not end as the line says.
pub fn fault<'a, R: Files + AllocGlobal>(
    rt: &R,
    folder: &str,
    line: &'a str,
) -> Result<Option<&'a str>, NoMemory> {
    let words: Vec<&str> = line.split_whitespace().collect(rt.alloc())?;
    Ok(fault_of(rt, folder, words.as_slice()))
}

/// So many bytes of a file, or none where there is no such file.
fn front<R: Files + AllocGlobal>(
    rt: &R,
    folder: &str,
    name: &str,
    kind: &str,
    count: &str,
) -> io::Result<Vec<u8>> {
    let mut front = file(rt, folder, name, kind).unwrap_or(Vec::new(rt.alloc()));
    fill(&mut front, count)?;
    Ok(front)
}

/// How a case is to end at a fault: with the status, and with so many bytes on out and on notes.
fn wanted_at_fault<R: Files + AllocGlobal>(
    rt: &R,
    folder: &str,
    name: &str,
    [status, out, notes]: [&str; 3],
) -> io::Result<Vec<u8>> {
    let (out, notes) = both(
        front(rt, folder, name, "out", out),
        front(rt, folder, name, "err", notes),
    )?;
    let status = status.parse::<u8>().unwrap_or(u8::MAX);
    Ok(ending(rt.alloc(), status, out.as_slice(), notes.as_slice())?)
}

/// Whether the case of this name ends as it is to where a call of a stream fails.
fn fails_so<R: Files + AllocGlobal>(
    rt: &R,
    folder: &str,
    named: &str,
    failing: Failing,
    ends: [&str; 3],
    words: &[&str],
) -> io::Result<bool> {
    let (name, length) = named.split_once(':').unwrap_or((named, ""));
    let input = input(rt, folder, name, length)?;
    let (ending, wanted) = both(
        called(rt.alloc(), words, input, failing).map_err(io::Error::from),
        wanted_at_fault(rt, folder, name, ends),
    )?;
    Ok(ending.as_slice() == wanted.as_slice())
}

fn fault_at_fault<'a, R: Files + AllocGlobal>(
    rt: &R,
    folder: &str,
    words: &[&'a str],
) -> Option<&'a str> {
    match words {
        [named, status, stream, call, out, notes, words @ ..] => {
            let call = call.parse::<u64>().unwrap_or(u64::MAX);
            let failing = Failing { stream, call };
            let ends = [*status, *out, *notes];
            if fails_so(rt, folder, named, failing, ends, words).unwrap_or(false) {
                None
            } else {
                Some(named)
            }
        }
        _ => Some("a line without a call that fails"),
    }
}

/// The name of the case of a line, where it does not end at the fault as the line says.
pub fn fault_of_stream<'a, R: Files + AllocGlobal>(
    rt: &R,
    folder: &str,
    line: &'a str,
) -> Result<Option<&'a str>, NoMemory> {
    let words: Vec<&str> = line.split_whitespace().collect(rt.alloc())?;
    Ok(fault_at_fault(rt, folder, words.as_slice()))
}
