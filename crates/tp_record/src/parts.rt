//! The parts of records: ids, deeds, proofs of authorisation, and the instances of a commit.
ghost use Rattle.std.specs.Prelude.{◌≡◌, ◌++◌, OnOk};
ghost use Rattle.tp_record.specs.Ranges as ranges;
ghost use Rattle.tp_record.specs.Spelling as spell;
ghost use Rattle.tp_record.specs.mirrors.Gives.{Gives};
ghost use Rattle.tp_record.specs.mirrors.Readings as readings;

use crate::bytes::{Halt, Reader};
use crate::spelled::Spelled;
use crate::written::Writer;
use tp_types::{
    Action, AdminId, CredId, Deed, Instance, ItemId, List, Met, No, NoMemory, Outcome, ServerId,
    Verdict, Version,
};

impl Spelled for Action {
    ghost spelling = { spell.action };

    ghost in_range = { ranges.IsAction };

    ghost reading = { readings.action_at };

    fn write_to(&self, out: &mut Writer) -> Result<(), NoMemory> {
        out.push(match self {
            Action::Read => 0,
            Action::Write => 1,
        })
    }

    #[tactic(auto, unfolding(crate::specs::mirrors::Readings::action_at))]
    fn read_from(reader: &mut Reader<'_>) -> Result<Action, Halt> {
        match reader.byte()? {
            0 => Ok(Action::Read),
            1 => Ok(Action::Write),
            _ => Err(Halt::NoRecord),
        }
    }
}

impl Spelled for Outcome {
    ghost spelling = { spell.outcome };

    ghost in_range = { ranges.IsOutcome };

    ghost reading = { readings.outcome_at };

    fn write_to(&self, out: &mut Writer) -> Result<(), NoMemory> {
        out.push(match self {
            Outcome::Commit => 0,
            Outcome::Abort => 1,
        })
    }

    #[tactic(auto, unfolding(crate::specs::mirrors::Readings::outcome_at))]
    fn read_from(reader: &mut Reader<'_>) -> Result<Outcome, Halt> {
        match reader.byte()? {
            0 => Ok(Outcome::Commit),
            1 => Ok(Outcome::Abort),
            _ => Err(Halt::NoRecord),
        }
    }
}

impl Spelled for CredId {
    ghost spelling = { spell.credential };

    ghost in_range = { ranges.IsCredential };

    ghost reading = { readings.credential_at };

    fn write_to(&self, out: &mut Writer) -> Result<(), NoMemory> {
        self.0.write_to(out)
    }

    #[tactic(auto, unfolding(crate::specs::mirrors::Readings::credential_at))]
    fn read_from(reader: &mut Reader<'_>) -> Result<CredId, Halt> {
        Ok(CredId(u32::read_from(reader)?))
    }
}

impl Spelled for Version {
    ghost spelling = { spell.version };

    ghost in_range = { ranges.IsVersion };

    ghost reading = { readings.version_at };

    fn write_to(&self, out: &mut Writer) -> Result<(), NoMemory> {
        self.0.write_to(out)
    }

    #[tactic(auto, unfolding(crate::specs::mirrors::Readings::version_at))]
    fn read_from(reader: &mut Reader<'_>) -> Result<Version, Halt> {
        Ok(Version(u32::read_from(reader)?))
    }
}

impl Spelled for Deed {
    ghost spelling = { spell.deed };

    ghost in_range = { ranges.IsDeed };

    ghost reading = { readings.deed_at };

    fn write_to(&self, out: &mut Writer) -> Result<(), NoMemory> {
        self.query.write_to(out)?;
        self.item.0.write_to(out)?;
        self.action.write_to(out)?;
        self.value.write_to(out)
    }

    #[tactic(auto, unfolding(crate::specs::mirrors::Readings::deed_at))]
    fn read_from(reader: &mut Reader<'_>) -> Result<Deed, Halt> {
        Ok(Deed {
            query: u32::read_from(reader)?,
            item: ItemId(u32::read_from(reader)?),
            action: Action::read_from(reader)?,
            value: i128::read_from(reader)?,
        })
    }
}

impl Spelled for Verdict {
    ghost spelling = { spell.verdict };

    ghost in_range = { ranges.IsVerdict };

    ghost reading = { readings.verdict_at };

    fn write_to(&self, out: &mut Writer) -> Result<(), NoMemory> {
        self.query.write_to(out)?;
        self.server.0.write_to(out)?;
        self.admin.0.write_to(out)?;
        self.version.write_to(out)?;
        self.place.write_to(out)?;
        self.rule.write_to(out)?;
        self.uses.write_to(out)
    }

    #[tactic(auto, unfolding(crate::specs::mirrors::Readings::verdict_at))]
    fn read_from(reader: &mut Reader<'_>) -> Result<Verdict, Halt> {
        Ok(Verdict {
            query: u32::read_from(reader)?,
            server: ServerId(u32::read_from(reader)?),
            admin: AdminId(u32::read_from(reader)?),
            version: Version::read_from(reader)?,
            place: u64::read_from(reader)?,
            rule: Option::<u32>::read_from(reader)?,
            uses: List::<CredId>::read_from(reader)?,
        })
    }
}

impl Spelled for Instance {
    ghost spelling = { spell.instance };

    ghost in_range = { ranges.IsInstance };

    ghost reading = { readings.instance_at };

    fn write_to(&self, out: &mut Writer) -> Result<(), NoMemory> {
        self.reading.write_to(out)?;
        self.proofs.write_to(out)
    }

    #[tactic(auto, unfolding(crate::specs::mirrors::Readings::instance_at))]
    fn read_from(reader: &mut Reader<'_>) -> Result<Instance, Halt> {
        Ok(Instance {
            reading: Option::<u64>::read_from(reader)?,
            proofs: List::<Verdict>::read_from(reader)?,
        })
    }
}

impl Spelled for No {
    ghost spelling = { spell.no };

    ghost in_range = { ranges.IsNo };

    ghost reading = { readings.no_at };

    fn write_to(&self, out: &mut Writer) -> Result<(), NoMemory> {
        match self {
            No::Range { query, value } => {
                out.push(0)?;
                query.write_to(out)?;
                value.write_to(out)
            }
            No::Restarted => out.push(1),
        }
    }

    #[tactic(auto, unfolding(crate::specs::mirrors::Readings::no_at))]
    fn read_from(reader: &mut Reader<'_>) -> Result<No, Halt> {
        match reader.byte()? {
            0 => Ok(No::Range {
                query: u32::read_from(reader)?,
                value: i128::read_from(reader)?,
            }),
            1 => Ok(No::Restarted),
            _ => Err(Halt::NoRecord),
        }
    }
}

impl Spelled for Met {
    ghost spelling = { spell.met_bytes };

    ghost in_range = { ranges.IsMet };

    ghost reading = { readings.met_at };

    fn write_to(&self, out: &mut Writer) -> Result<(), NoMemory> {
        self.admin.0.write_to(out)?;
        self.used.write_to(out)?;
        self.newest.write_to(out)?;
        self.place.write_to(out)
    }

    #[tactic(auto, unfolding(crate::specs::mirrors::Readings::met_at))]
    fn read_from(reader: &mut Reader<'_>) -> Result<Met, Halt> {
        Ok(Met {
            admin: AdminId(u32::read_from(reader)?),
            used: Version::read_from(reader)?,
            newest: Version::read_from(reader)?,
            place: u64::read_from(reader)?,
        })
    }
}
