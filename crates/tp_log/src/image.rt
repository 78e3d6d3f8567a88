//! The records that the bytes of a log give.
ghost use Rattle.std.specs.Prelude.{◌≡◌, ◌≢◌, ◌<◌, ◌++◌, ◌∷◌, ℕ, List, length, drop, Err, IfOk, IfErr, MatchOption};
ghost use Rattle.tp_record.specs.Records.{IsRecord};
ghost use Rattle.tp_record.specs.Spelling.{spelling};
ghost use Rattle.tp_log.specs.Images.{FailsAt, Gives, NoneStands, blocks};
ghost use Rattle.tp_log.specs.Logs.{IsAt};
ghost use Rattle.tp_log.specs.Refusals.{IfNotALog};

use crate::error::LogError;
use std::alloc::Global;
use tp_record::decode;
use tp_types::{List, NoMemory, Record};

/// The records of a log, and the place of the gate that ends it.
#[derive(Drop)]
pub(crate) struct Found {
    pub(crate) records: List<Record>,
    pub(crate) gate: u64,
}

/// What stands behind an open gate.
fn behind_open_gate(rest: &[u8]) -> Option<&[u8]>
    requires { 0 < length rest.now }
    ensures { MatchOption result
        ((gate : ℕ) × (more : List ℕ) × (gate ≢ 1) × (rest.now ≡ gate ∷ more))
        (λ behind. rest.now ≡ 1 ∷ behind.now) }
{
    match rest.split_first() {
        Some((1, behind)) => Some(behind),
        _ => None,
    }
}

/// The record that stands behind an open gate with a next gate, and how many bytes it takes.
fn next_record(alloc: Global, behind: &[u8]) -> Result<Option<(Record, usize)>, NoMemory>
    ensures { IfOk result (λ found. MatchOption found (NoneStands behind.now)
        (λ r. IsRecord r.0 × (r.1 < length behind.now)
        × (behind.now ≡ spelling r.0 ++ drop r.1 behind.now))) }
{
    match decode(alloc, behind)? {
        None => Ok(None),
        Some((record, len)) => {
            if len < behind.len() {
                Ok(Some((record, len)))
            } else {
                Ok(None)
            }
        }
    }
}

/// The records of an image of more than one byte.
pub(crate) fn records_of(alloc: Global, image: &[u8]) -> Result<Found, LogError>
    requires { 1 < length image.now }
    ensures found { IfOk result (λ found. IsAt image.now found.records found.gate) }
    ensures failed { IfErr result (λ error. IfNotALog error (FailsAt image.now)) }
    ensures device { result ≡ Err LogError.Device → ⊥ }
{
    let mut records = List::new(alloc);
    let mut rest = image;
    while let Some(behind) = behind_open_gate(rest) {
        let Some((record, len)) = next_record(alloc, behind)? else {
            return Err(LogError::NotALog {
                place: (image.len() - behind.len()) as u64,
            });
        };
        records.push(record)?;
        rest = behind.split_at(len).1;
    }
    Ok(Found {
        records,
        gate: (image.len() - rest.len()) as u64,
    })
}

/// The records of an image that gives some.
pub(crate) fn given_by(alloc: Global, image: &[u8]) -> Result<Found, NoMemory>
    requires { (records : List Record) × Gives image.now records }
    ensures records { IfOk result (λ found. Gives image.now found.records) }
    ensures gate { IfOk result (λ found. found.gate ≡ length (blocks found.records)) }
{
    if image.len() <= 1 {
        return Ok(Found {
            records: List::new(alloc),
            gate: 0,
        });
    }
    match records_of(alloc, image) {
        Ok(found) => Ok(found),
        Err(LogError::NotALog { .. }) => unreachable!(),
        Err(_) => Err(NoMemory),
    }
}
