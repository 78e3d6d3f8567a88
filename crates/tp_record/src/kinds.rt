//! The kinds of records.
ghost use Rattle.std.specs.Prelude.{◌≡◌, ◌++◌, OnOk};
ghost use Rattle.tp_record.specs.Ranges as ranges;
ghost use Rattle.tp_record.specs.Spelling as spell;
ghost use Rattle.tp_record.specs.mirrors.Gives.{Gives};
ghost use Rattle.tp_record.specs.mirrors.Readings as readings;

use crate::bytes::{Halt, Reader};
use crate::spelled::Spelled;
use crate::written::Writer;
use tp_types::{
    AdminId, Cause, CommitRecord, Decided, Decision, Deed, Instance, List, No, NoMemory, Outcome,
    Prepared, Record, Settled, Told, TxnId, Verdict, Version, both,
};

impl Spelled for CommitRecord {
    ghost spelling = { spell.commit };

    ghost in_range = { ranges.IsCommit };

    ghost reading = { readings.commit_at };

    fn write_to(&self, out: &mut Writer) -> Result<(), NoMemory> {
        self.rounds.write_to(out)?;
        self.instances.write_to(out)?;
        self.deeds.write_to(out)
    }

    #[tactic(auto, unfolding(crate::specs::mirrors::Readings::commit_at))]
    fn read_from(reader: &mut Reader<'_>) -> Result<CommitRecord, Halt> {
        Ok(CommitRecord {
            rounds: u32::read_from(reader)?,
            instances: List::<Instance>::read_from(reader)?,
            deeds: List::<Deed>::read_from(reader)?,
        })
    }
}

impl Spelled for Decision {
    ghost spelling = { spell.decision };

    ghost in_range = { ranges.IsDecision };

    ghost reading = { readings.decision_at };

    fn write_to(&self, out: &mut Writer) -> Result<(), NoMemory> {
        match self {
            Decision::Commit(held) => {
                out.push(0)?;
                held.write_to(out)
            }
            Decision::Abort(held) => {
                out.push(1)?;
                held.write_to(out)
            }
        }
    }

    #[tactic(auto, unfolding(crate::specs::mirrors::Readings::decision_at))]
    fn read_from(reader: &mut Reader<'_>) -> Result<Decision, Halt> {
        match reader.byte()? {
            0 => Ok(Decision::Commit(CommitRecord::read_from(reader)?)),
            1 => Ok(Decision::Abort(Cause::read_from(reader)?)),
            _ => Err(Halt::NoRecord),
        }
    }
}

impl Spelled for Told {
    ghost spelling = { spell.told_bytes };

    ghost in_range = { ranges.IsTold };

    ghost reading = { readings.told_at };

    fn write_to(&self, out: &mut Writer) -> Result<(), NoMemory> {
        self.admin.0.write_to(out)?;
        self.version.write_to(out)
    }

    #[tactic(auto, unfolding(crate::specs::mirrors::Readings::told_at))]
    fn read_from(reader: &mut Reader<'_>) -> Result<Told, Halt> {
        Ok(Told {
            admin: AdminId(u32::read_from(reader)?),
            version: Version::read_from(reader)?,
        })
    }
}

impl Spelled for Prepared {
    ghost spelling = { spell.prepared_bytes };

    ghost in_range = { ranges.IsPrepared };

    ghost reading = { readings.prepared_at };

    fn write_to(&self, out: &mut Writer) -> Result<(), NoMemory> {
        self.txn.0.write_to(out)?;
        self.age.write_to(out)?;
        self.epoch.write_to(out)?;
        self.turn.write_to(out)?;
        self.deeds.write_to(out)?;
        self.verdicts.write_to(out)?;
        self.told.write_to(out)
    }

    #[tactic(auto, unfolding(crate::specs::mirrors::Readings::prepared_at))]
    fn read_from(reader: &mut Reader<'_>) -> Result<Prepared, Halt> {
        let txn = TxnId(u32::read_from(reader)?);
        let age = u64::read_from(reader)?;
        let epoch = u64::read_from(reader)?;
        let turn = u32::read_from(reader)?;
        let deeds = List::<Deed>::read_from(reader)?;
        let lists = both(Ok(deeds), List::<Verdict>::read_from(reader))?;
        let ((deeds, verdicts), told) = both(Ok(lists), List::<Version>::read_from(reader))?;
        Ok(Prepared {
            txn,
            age,
            epoch,
            turn,
            deeds,
            verdicts,
            told,
        })
    }
}

impl Spelled for Settled {
    ghost spelling = { spell.settled_bytes };

    ghost in_range = { ranges.IsSettled };

    ghost reading = { readings.settled_at };

    fn write_to(&self, out: &mut Writer) -> Result<(), NoMemory> {
        self.txn.0.write_to(out)?;
        self.outcome.write_to(out)?;
        self.why.write_to(out)
    }

    #[tactic(auto, unfolding(crate::specs::mirrors::Readings::settled_at))]
    fn read_from(reader: &mut Reader<'_>) -> Result<Settled, Halt> {
        Ok(Settled {
            txn: TxnId(u32::read_from(reader)?),
            outcome: Outcome::read_from(reader)?,
            why: Option::<No>::read_from(reader)?,
        })
    }
}

impl Spelled for Decided {
    ghost spelling = { spell.decided_bytes };

    ghost in_range = { ranges.IsDecided };

    ghost reading = { readings.decided_at };

    fn write_to(&self, out: &mut Writer) -> Result<(), NoMemory> {
        self.txn.0.write_to(out)?;
        self.decision.write_to(out)
    }

    #[tactic(auto, unfolding(crate::specs::mirrors::Readings::decided_at))]
    fn read_from(reader: &mut Reader<'_>) -> Result<Decided, Halt> {
        Ok(Decided {
            txn: TxnId(u32::read_from(reader)?),
            decision: Decision::read_from(reader)?,
        })
    }
}

/// The kind, and what a record of the kind says. Its length stands before it, outside.
impl Spelled for Record {
    ghost spelling = { spell.content };

    ghost in_range = { ranges.IsInRange };

    ghost reading = { readings.content_at };

    fn write_to(&self, out: &mut Writer) -> Result<(), NoMemory> {
        match self {
            Record::Boot => out.push(1),
            Record::Told(held) => {
                out.push(2)?;
                held.write_to(out)
            }
            Record::Prepared(held) => {
                out.push(3)?;
                held.write_to(out)
            }
            Record::Settled(held) => {
                out.push(4)?;
                held.write_to(out)
            }
            Record::Decided(held) => {
                out.push(5)?;
                held.write_to(out)
            }
        }
    }

    #[tactic(auto, unfolding(crate::specs::mirrors::Readings::content_at))]
    fn read_from(reader: &mut Reader<'_>) -> Result<Record, Halt> {
        match reader.byte()? {
            1 => Ok(Record::Boot),
            2 => Ok(Record::Told(Told::read_from(reader)?)),
            3 => Ok(Record::Prepared(Prepared::read_from(reader)?)),
            4 => Ok(Record::Settled(Settled::read_from(reader)?)),
            5 => Ok(Record::Decided(Decided::read_from(reader)?)),
            _ => Err(Halt::NoRecord),
        }
    }
}
