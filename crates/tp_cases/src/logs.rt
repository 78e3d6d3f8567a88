//! Logs on disks in memory: what an image gives, and what is found after an append of which a call of the disk was refused.
use crate::spelling::bytes_of;
use std::alloc::Global;
use tp_device::{Disk, MemoryDisk};
use tp_log::{Log, LogError};
use tp_record::{decode, encode};
use tp_types::{NoMemory, Record};

/// What is found on a disk.
#[derive(Drop)]
enum Found {
    /// A log, and the bodies of its records, one behind the other.
    Records(Vec<u8>),
    /// No log, from this place on.
    NotALog(u64),
}

fn bodies_of(alloc: Global, records: &[Record]) -> Result<Found, NoMemory> {
    let mut bodies = Vec::new(alloc);
    for record in records {
        let body = encode(alloc, record)?;
        bodies.extend_from_slice(body.0.as_slice())?;
    }
    Ok(Found::Records(bodies))
}

/// Puts these bytes on a disk, and syncs it.
fn put(disk: &mut MemoryDisk, bytes: &[u8]) -> bool {
    disk.cut(0).is_ok() && disk.write_at(0, bytes).is_ok() && disk.sync().is_ok()
}

fn disk_of(alloc: Global, bytes: &[u8]) -> Result<MemoryDisk, NoMemory> {
    let mut disk = MemoryDisk::fresh(alloc)?;
    if put(&mut disk, bytes) {
        Ok(disk)
    } else {
        Err(NoMemory)
    }
}

fn found_on(alloc: Global, disk: MemoryDisk) -> Result<Found, NoMemory> {
    match Log::opened(alloc, disk) {
        Ok((_log, found)) => bodies_of(alloc, found.as_slice()),
        Err((_disk, error)) => match error {
            LogError::NotALog { place } => Ok(Found::NotALog(place)),
            _ => Err(NoMemory),
        },
    }
}

/// What is found after an append of which so many calls of the disk passed, and after a crash of the disk that was taken
/// out. The append has to be answered as the word says.
fn found_after(
    alloc: Global,
    mut log: Log<MemoryDisk>,
    record: &Record,
    answer: &str,
    calls: u32,
    fill: u8,
) -> Result<Option<Found>, NoMemory> {
    log.stop_after(calls);
    let answered = match log.append(alloc, record) {
        Ok(()) => "done",
        Err(LogError::Device) => "device",
        Err(_) => "another",
    };
    let found = found_on(alloc, log.into_disk().crashed(fill))?;
    Ok(if answered == answer {
        Some(found)
    } else {
        None
    })
}

/// What is found after a crash in place that let so many calls of an append pass.
fn found_in_place(
    alloc: Global,
    mut log: Log<MemoryDisk>,
    record: &Record,
    calls: u32,
    fill: u8,
) -> Result<Option<Found>, NoMemory> {
    if log.crash_in_append(alloc, record, calls, fill).is_err() {
        return Err(NoMemory);
    }
    match log.reread(alloc) {
        Ok(found) => Ok(Some(bodies_of(alloc, found.as_slice())?)),
        Err(_) => Err(NoMemory),
    }
}

/// What is found after an append that ends in a way: `done` and `device` are its answers, before a crash of the disk that
/// is taken out, and `place` is a crash in place.
fn found_where(
    alloc: Global,
    image: &str,
    record: &Record,
    way: &str,
    calls: u32,
    fill: u8,
) -> Result<Option<Found>, NoMemory> {
    let image = bytes_of(alloc, image)?;
    match Log::opened(alloc, disk_of(alloc, image.as_slice())?) {
        Err(_) => Err(NoMemory),
        Ok((log, _records)) => {
            if way == "place" {
                found_in_place(alloc, log, record, calls, fill)
            } else {
                found_after(alloc, log, record, way, calls, fill)
            }
        }
    }
}

fn appended(
    alloc: Global,
    image: &str,
    record: &str,
    way: &str,
    [calls, fill]: [&str; 2],
) -> Result<Option<Found>, NoMemory> {
    let body = bytes_of(alloc, record)?;
    let calls = calls.parse::<u32>().unwrap_or(u32::MAX);
    let fill = fill.parse::<u8>().unwrap_or(u8::MAX);
    match decode(alloc, body.as_slice())? {
        None => Ok(None),
        Some((record, _)) => found_where(alloc, image, &record, way, calls, fill),
    }
}

fn opened(alloc: Global, image: &str) -> Result<Option<Found>, NoMemory> {
    let image = bytes_of(alloc, image)?;
    let disk = disk_of(alloc, image.as_slice())?;
    Ok(Some(found_on(alloc, disk)?))
}

/// Whether this is what a word says: the bodies of records, or `notalog/PLACE`.
fn is_found(alloc: Global, found: &Found, wanted: &str) -> Result<bool, NoMemory> {
    match found {
        Found::Records(bodies) => {
            let wanted = bytes_of(alloc, wanted)?;
            Ok(bodies.as_slice() == wanted.as_slice())
        }
        Found::NotALog(place) => {
            let told = format!(in alloc; "notalog/{place}")?;
            Ok(told.as_str() == wanted)
        }
    }
}

fn found_of(alloc: Global, words: &[&str]) -> Result<Option<Found>, NoMemory> {
    match words {
        [image] => opened(alloc, image),
        [image, record, way, calls, fill] => appended(alloc, image, record, way, [*calls, *fill]),
        _ => Ok(None),
    }
}

/// Whether this is found that a word says.
fn goes(alloc: Global, wanted: &str, given: &[&str]) -> Result<bool, NoMemory> {
    match found_of(alloc, given)? {
        None => Ok(false),
        Some(found) => is_found(alloc, &found, wanted),
    }
}

fn is_as_wanted(alloc: Global, words: &[&str]) -> Result<bool, NoMemory> {
    match words {
        [wanted, given @ ..] => goes(alloc, wanted, given),
        _ => Ok(false),
    }
}

/// The line, where something else is found than it says.
pub fn fault<'a>(alloc: Global, line: &'a str) -> Result<Option<&'a str>, NoMemory> {
    let words: Vec<&str> = line.split_whitespace().collect(alloc)?;
    let is_wanted = is_as_wanted(alloc, words.as_slice())?;
    Ok(if is_wanted { None } else { Some(line) })
}
