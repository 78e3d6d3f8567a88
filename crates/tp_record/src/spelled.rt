//! What has a spelling: numbers, options and lists.
ghost use Rattle.std.specs.Prelude.{◌≡◌, ◌++◌, ℕ, List, length, OnOk, Option};
ghost use Rattle.tp_record.specs.Ranges as ranges;
ghost use Rattle.tp_record.specs.Spelling as spell;
ghost use Rattle.tp_record.specs.mirrors.Gives.{Gives};
ghost use Rattle.tp_record.specs.mirrors.Readings as readings;
ghost use Rattle.tp_record.specs.mirrors.Readings.{Reader as Reads};

use crate::bytes::{Halt, Reader};
use crate::written::Writer;
use byteorder::{BigEndian, ByteOrder};
use tp_types::{List, NoMemory};

/// A value that has one spelling.
pub(crate) trait Spelled: Drop {
    ghost spelling: { Self → List ℕ };

    // The values that the type has.
    ghost in_range: { Self → Type 0 };

    // How it is read again.
    ghost reading: { Reads Self };

    /// Writes the spelling at the end.
    fn write_to(&self, out: &mut Writer) -> Result<(), NoMemory>
        ensures spelled { OnOk result (out.new ≡ out.old ++ spelling self.now) }
        ensures range { OnOk result (in_range self.now) };

    /// Reads the value at the front.
    fn read_from(reader: &mut Reader<'_>) -> Result<Self, Halt>
        ensures { Gives result reader.new.rest.now (reading reader.old.rest.now) };
}

impl Spelled for u32 {
    ghost spelling = { spell.short };

    ghost in_range = { ranges.IsShort };

    ghost reading = { readings.number_at 4 };

    #[tactic(auto, unfolding(crate::specs::Spelling::short))]
    fn write_to(&self, out: &mut Writer) -> Result<(), NoMemory> {
        let number = *self;
        out.put(&number.to_be_bytes())
    }

    fn read_from(reader: &mut Reader<'_>) -> Result<u32, Halt> {
        Ok(BigEndian::read_u32(reader.front(4)?))
    }
}

impl Spelled for u64 {
    ghost spelling = { spell.long };

    ghost in_range = { ranges.IsLong };

    ghost reading = { readings.number_at 8 };

    #[tactic(auto, unfolding(crate::specs::Spelling::long))]
    fn write_to(&self, out: &mut Writer) -> Result<(), NoMemory> {
        let number = *self;
        out.put(&number.to_be_bytes())
    }

    fn read_from(reader: &mut Reader<'_>) -> Result<u64, Halt> {
        Ok(BigEndian::read_u64(reader.front(8)?))
    }
}

impl Spelled for i128 {
    ghost spelling = { spell.value };

    ghost in_range = { ranges.IsValue };

    ghost reading = { readings.value_at };

    #[tactic(auto, unfolding(crate::specs::Spelling::value))]
    fn write_to(&self, out: &mut Writer) -> Result<(), NoMemory> {
        let number = *self;
        out.put(&number.to_be_bytes())
    }

    #[tactic(auto, unfolding(crate::specs::mirrors::Readings::value_at))]
    fn read_from(reader: &mut Reader<'_>) -> Result<i128, Halt> {
        Ok(BigEndian::read_i128(reader.front(16)?))
    }
}

impl<T: Spelled> Spelled for Option<T> {
    ghost spelling = { spell.option T.spelling };

    ghost in_range = { ranges.InOption T.in_range };

    ghost reading = { readings.option_at T.reading };

    fn write_to(&self, out: &mut Writer) -> Result<(), NoMemory> {
        match self {
            None => out.push(0),
            Some(value) => {
                out.push(1)?;
                value.write_to(out)
            }
        }
    }

    fn read_from(reader: &mut Reader<'_>) -> Result<Option<T>, Halt> {
        match reader.byte()? {
            0 => Ok(None),
            1 => Ok(Some(T::read_from(reader)?)),
            _ => Err(Halt::NoRecord),
        }
    }
}

/// A count has the lowest four bytes of the length, which are all of it but in a list of 2^32 members or more.
#[tactic(auto, unfolding(crate::specs::Spelling::short))]
pub(crate) fn write_count(out: &mut Writer, count: usize) -> Result<(), NoMemory>
    ensures { OnOk result (out.new ≡ out.old ++ spell.short count) }
{
    let bytes = (count as u64).to_be_bytes();
    out.put(&bytes[4..])
}

impl<T: Spelled> Spelled for List<T> {
    ghost spelling = { spell.list T.spelling };

    ghost in_range = { ranges.InList T.in_range };

    ghost reading = { readings.list_at T.reading };

    fn write_to(&self, out: &mut Writer) -> Result<(), NoMemory> {
        write_count(out, self.len())?;
        for member in self.as_slice() {
            member.write_to(out)?;
        }
        Ok(())
    }

    fn read_from(reader: &mut Reader<'_>) -> Result<List<T>, Halt> {
        let count = u32::read_from(reader)?;
        let mut members = List::new(reader.alloc);
        for _ in 0..count {
            members.push(T::read_from(reader)?)?;
        }
        Ok(members)
    }
}
