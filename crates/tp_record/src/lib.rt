//! The bytes of log records. Each record has one spelling, and no spelling begins another.
//!
//! What is promised, with the contract that carries it:
//!
//! - A record is written as its spelling, and every record that `encode` was given is in range (`encode`,
//!   `encode_into`: `spelled`, `range`)
//! - What is found is a record whose spelling the bytes begin with, and the spelling's length (`decode`:
//!   `found`)
//! - A record whose spelling the bytes begin with is found, whatever follows; nothing is found exactly where
//!   there is none (`decode`: `only`, `none`)
//! - Of records in range whose content is shorter than 2^32 bytes no two have one spelling, and no spelling
//!   begins another (`one_spelling`)
#![tactic(auto)]

ghost use Rattle.std.specs.Prelude.{◌≡◌, ◌≤◌, ◌++◌, ℕ, List, length, drop, Some, IfOk, IfNone, IfSome, OnOk};
ghost use Rattle.tp_types.specs.declared.records.Record.{Record};
ghost use Rattle.tp_record.specs.Ranges.{IsInRange};
ghost use Rattle.tp_record.specs.Records.{Begins, IsRecord};
ghost use Rattle.tp_record.specs.Spelling as spell;
ghost use Rattle.tp_record.specs.mirrors.Gives.{Gives};
ghost use Rattle.tp_record.specs.mirrors.Readings as readings;

mod bytes;
mod causes;
mod kinds;
mod parts;
mod spelled;
mod written;

use bytes::{Halt, Reader};
use spelled::{Spelled, write_count};
use std::alloc::Global;
use tp_types::{List, NoMemory, Record, Text};
pub use written::Writer;

/// Writes the one spelling of a record, in place of what was written before. It is as of `encode`, and takes memory only
/// for more bytes than stand in the writer.
#[tactic(auto, using(crate::proofs::CountLemmas::counted_length))]
pub fn encode_into(out: &mut Writer, r: &Record) -> Result<(), NoMemory>
    ensures spelled { OnOk result (out.new ≡ spell.spelling r.now) }
    ensures range { OnOk result (IsInRange r.now) }
{
    out.clear();
    // the length is known once the content is written behind it
    write_count(out, 0)?;
    r.write_to(out)?;
    let count = out.len() - 4;
    out.set_count(count);
    Ok(())
}

/// The one spelling of a record. It is meant for records whose spelling has fewer than 2^32 bytes: of a longer one
/// the length field has the lowest 32 bits, and no reader finds the record again.
/// It asks nothing of the record, since a log has to tell one that is too long from one that fits, and so spells
/// it first. Of a record of 2^32 bytes or more a length field or a count has the lowest 32 bits, and no reader
/// finds it again.
pub fn encode(alloc: Global, r: &Record) -> Result<Text, NoMemory>
    ensures spelled { IfOk result (λ text. text.0 ≡ spell.spelling r.now) }
    ensures range { OnOk result (IsInRange r.now) }
{
    let mut out = Writer::new(alloc);
    encode_into(&mut out, r)?;
    let bytes = out.as_slice().to_vec(alloc)?;
    Ok(Text(List::from_vec(bytes)))
}

/// Reads a body.
#[tactic(auto, unfolding(crate::specs::mirrors::Readings::body_at))]
fn body(reader: &mut Reader<'_>) -> Result<Record, Halt>
    ensures { Gives result reader.new.rest.now (readings.body_at reader.old.rest.now) }
{
    let count = u32::read_from(reader)?;
    let before = reader.rest.len();
    let record = Record::read_from(reader)?;
    if reader.rest.len() + count as usize != before {
        return Err(Halt::NoRecord);
    }
    Ok(record)
}

/// The record whose spelling the bytes begin with, and the length of that spelling. None comes exactly where the
/// bytes begin with no record's spelling.
pub fn decode(alloc: Global, bytes: &[u8]) -> Result<Option<(Record, usize)>, NoMemory>
    // What is found is a record, and the bytes begin with its spelling.
    ensures found { IfOk result (λ found. IfSome found (λ r. IsRecord r.0
        × (Begins bytes.now (spell.spelling r.0) × (r.1 ≡ length (spell.spelling r.0))))) }
    // A record whose spelling the bytes begin with is found.
    ensures only { IfOk result (λ found. (r : Record) → IsRecord r
        → Begins bytes.now (spell.spelling r)
        → found ≡ Some (r, length (spell.spelling r))) }
    ensures none { IfOk result (λ found. IfNone found ((r : Record) → IsRecord r
        → ¬ Begins bytes.now (spell.spelling r))) }
{
    let mut reader = Reader { alloc, rest: bytes };
    match body(&mut reader) {
        Ok(record) => Ok(Some((record, bytes.len() - reader.rest.len()))),
        Err(Halt::NoRecord) => Ok(None),
        Err(Halt::NoMemory) => Err(NoMemory),
    }
}

/// No record has the spelling of another, and no spelling begins another: what follows a record's spelling does not
/// matter.
pub fn one_spelling()
    ensures { (r s : Record) (x y : List ℕ) → IsRecord r → IsRecord s
        → spell.spelling r ++ x ≡ spell.spelling s ++ y → (r ≡ s) × (x ≡ y) }
{}
