//! Why transactions abort.
ghost use Rattle.std.specs.Prelude.{◌≡◌, ◌++◌, OnOk};
ghost use Rattle.tp_record.specs.Ranges as ranges;
ghost use Rattle.tp_record.specs.Spelling as spell;
ghost use Rattle.tp_record.specs.mirrors.Gives.{Gives};
ghost use Rattle.tp_record.specs.mirrors.Readings as readings;

use crate::bytes::{Halt, Reader};
use crate::spelled::Spelled;
use crate::written::Writer;
use tp_types::{
    AdminId, Cause, Denied, Died, List, Met, Newer, NoMemory, OutOfRange, ServerId, TxnId, Version,
};

impl Spelled for Denied {
    ghost spelling = { spell.denied_bytes };

    ghost in_range = { ranges.IsDenied };

    ghost reading = { readings.denied_at };

    fn write_to(&self, out: &mut Writer) -> Result<(), NoMemory> {
        self.query.write_to(out)?;
        self.server.0.write_to(out)?;
        self.admin.0.write_to(out)?;
        self.version.write_to(out)?;
        self.place.write_to(out)
    }

    #[tactic(auto, unfolding(crate::specs::mirrors::Readings::denied_at))]
    fn read_from(reader: &mut Reader<'_>) -> Result<Denied, Halt> {
        Ok(Denied {
            query: u32::read_from(reader)?,
            server: ServerId(u32::read_from(reader)?),
            admin: AdminId(u32::read_from(reader)?),
            version: Version::read_from(reader)?,
            place: u64::read_from(reader)?,
        })
    }
}

impl Spelled for OutOfRange {
    ghost spelling = { spell.out_of_range_bytes };

    ghost in_range = { ranges.IsOutOfRange };

    ghost reading = { readings.out_of_range_at };

    fn write_to(&self, out: &mut Writer) -> Result<(), NoMemory> {
        self.query.write_to(out)?;
        self.server.0.write_to(out)?;
        self.value.write_to(out)
    }

    #[tactic(auto, unfolding(crate::specs::mirrors::Readings::out_of_range_at))]
    fn read_from(reader: &mut Reader<'_>) -> Result<OutOfRange, Halt> {
        Ok(OutOfRange {
            query: u32::read_from(reader)?,
            server: ServerId(u32::read_from(reader)?),
            value: i128::read_from(reader)?,
        })
    }
}

impl Spelled for Died {
    ghost spelling = { spell.died_bytes };

    ghost in_range = { ranges.IsDied };

    ghost reading = { readings.died_at };

    fn write_to(&self, out: &mut Writer) -> Result<(), NoMemory> {
        self.query.write_to(out)?;
        self.server.0.write_to(out)?;
        self.other.0.write_to(out)?;
        self.place.write_to(out)
    }

    #[tactic(auto, unfolding(crate::specs::mirrors::Readings::died_at))]
    fn read_from(reader: &mut Reader<'_>) -> Result<Died, Halt> {
        Ok(Died {
            query: u32::read_from(reader)?,
            server: ServerId(u32::read_from(reader)?),
            other: TxnId(u32::read_from(reader)?),
            place: u64::read_from(reader)?,
        })
    }
}

impl Spelled for Newer {
    ghost spelling = { spell.newer_bytes };

    ghost in_range = { ranges.IsNewer };

    ghost reading = { readings.newer_at };

    fn write_to(&self, out: &mut Writer) -> Result<(), NoMemory> {
        self.admin.0.write_to(out)?;
        self.used.write_to(out)?;
        self.found.write_to(out)
    }

    #[tactic(auto, unfolding(crate::specs::mirrors::Readings::newer_at))]
    fn read_from(reader: &mut Reader<'_>) -> Result<Newer, Halt> {
        Ok(Newer {
            admin: AdminId(u32::read_from(reader)?),
            used: Version::read_from(reader)?,
            found: Version::read_from(reader)?,
        })
    }
}

impl Spelled for Cause {
    ghost spelling = { spell.cause };

    ghost in_range = { ranges.IsCause };

    ghost reading = { readings.cause_at };

    fn write_to(&self, out: &mut Writer) -> Result<(), NoMemory> {
        match self {
            Cause::Denied(held) => {
                out.push(1)?;
                held.write_to(out)
            }
            Cause::No(held) => {
                out.push(2)?;
                held.write_to(out)
            }
            Cause::Died(held) => {
                out.push(3)?;
                held.write_to(out)
            }
            Cause::Newer(held) => {
                out.push(4)?;
                held.write_to(out)
            }
            Cause::Rounds(held) => {
                out.push(5)?;
                held.write_to(out)
            }
            Cause::Restarted { server } => {
                out.push(6)?;
                server.0.write_to(out)
            }
            Cause::Halted => out.push(7),
        }
    }

    #[tactic(auto, unfolding(crate::specs::mirrors::Readings::cause_at))]
    fn read_from(reader: &mut Reader<'_>) -> Result<Cause, Halt> {
        match reader.byte()? {
            1 => Ok(Cause::Denied(Denied::read_from(reader)?)),
            2 => Ok(Cause::No(OutOfRange::read_from(reader)?)),
            3 => Ok(Cause::Died(Died::read_from(reader)?)),
            4 => Ok(Cause::Newer(Newer::read_from(reader)?)),
            5 => Ok(Cause::Rounds(List::<Met>::read_from(reader)?)),
            6 => Ok(Cause::Restarted {
                server: ServerId(u32::read_from(reader)?),
            }),
            7 => Ok(Cause::Halted),
            _ => Err(Halt::NoRecord),
        }
    }
}
