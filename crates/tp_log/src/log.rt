//! A log on a disk.
use crate::block::block_into;
use crate::calls::force;
use crate::error::LogError;
use crate::image::{given_by, records_of};
use crate::opening::taken;
use crate::running::{sync_running, write_gate_running};
use std::alloc::Global;
use std::marker::Model;
use tp_device::{Disk, DiskError, MemoryDisk};
use tp_record::Writer;
use tp_types::{List, NoMemory, Record};

/// A log on a disk, to which records are appended one by one. A record that was appended outlives a crash.
#[derive(Drop)]
pub struct Log<D: Disk> {
    disk: D,
    /// The place of the gate that ends the log.
    gate: u64,
    /// An append failed, or the log crashed and was not read again.
    closed: bool,
}

impl<D: Disk> Model for Log<D> {
    ghost use Rattle.std.specs.Prelude.{◌≡◌, ◌<◌, length, false};
    ghost use Rattle.tp_log.specs.Logs.{LogState, log_code};

    ghost Value = { LogState D };

    ghost coded = { log_code D.code };

    ghost view = { λ l. record { disk = l.disk; gate = l.gate; closed = l.closed } };

    ghost invariant = { λ l. l.closed ≡ false → l.gate < length (D.state l.disk).seen };
}

impl<D: Disk> Log<D> {
    ghost use Rattle.std.specs.Prelude.{◌≡◌, ◌<◌, ◌≤◌, ℕ, List, length, Err, IfErr, IfOk};
    ghost use Rattle.tp_types.specs.declared.records.Record.{Record};
    ghost use Rattle.tp_device.specs.Disks.{LeavesOnly, MayLeave};
    ghost use Rattle.tp_log.specs.Images.{FailsAt, Gives};
    ghost use Rattle.tp_log.specs.Logs.{AppendEffect, GivesEither, Keeps, MayKeep};
    ghost use Rattle.tp_log.specs.Openings.{GivesUp, LeftOpening, Opens};
    ghost use Rattle.tp_log.specs.Refusals.{IfNotALog};

    /// Opens the log that a disk holds, and gives its records. A disk of at most one byte gets a closed gate. What
    /// was unsynced on the disk is synced first, and one of more than one byte is only read then. Where it is refused
    /// the disk is given back.
    pub fn opened(alloc: Global, mut disk: D) -> Result<(Log<D>, List<Record>), (D, LogError)>
        ensures records { IfOk result (λ made. Gives (D.state disk).seen made.1) }
        ensures kept { IfOk result (λ made. Keeps D.state made.0 made.1) }
        // A disk of more than one byte is as a sync leaves it. A crash at any moment leaves what it might have left
        // before, or the bytes that a read gives; of a shorter disk an image of at most one byte.
        ensures opens { IfOk result (λ made.
            Opens D.state D.left_since D.does D.faults disk made.0.disk) }
        // Only where no records are given.
        ensures not_a_log { IfErr result (λ refused. IfNotALog refused.1 (FailsAt (D.state disk).seen)) }
        // Only where a call was refused, and a fault counted.
        ensures device { IfErr result (λ refused. refused.1 ≡ LogError.Device
            → GivesUp D.state D.left_since D.does D.faults disk refused.0) }
        // Whatever refused it: a crash at any moment leaves what it might have left before, or the bytes that a read
        // gives; of a disk of at most one byte an image of at most one byte. No count of faults fell.
        ensures moments { IfErr result (λ refused.
            LeavesOnly D.left_since disk refused.0 (LeftOpening (D.state disk))) }
        ensures later { IfErr result (λ refused. D.faults disk ≤ D.faults refused.0) }
        // A read of a disk of more than one byte gives what it gave.
        ensures same { IfErr result (λ refused. 1 < length (D.state disk).seen
            → (D.state refused.0).seen ≡ (D.state disk).seen) }
    {
        match taken(alloc, &mut disk) {
            Ok(image) => {
                if image.len() <= 1 {
                    return Ok((
                        Log {
                            disk,
                            gate: 0,
                            closed: false,
                        },
                        List::new(alloc),
                    ));
                }
                match records_of(alloc, &image) {
                    Ok(found) => Ok((
                        Log {
                            disk,
                            gate: found.gate,
                            closed: false,
                        },
                        found.records,
                    )),
                    Err(error) => Err((disk, error)),
                }
            }
            Err(error) => Err((disk, error)),
        }
    }

    /// Adds a record with four calls of the disk: the body and a closed gate behind it, a sync, the gate before it,
    /// and a sync. The room for the bytes is there before the first: it takes memory only for a record that is longer
    /// than a usual one.
    /// If a write was refused memory and the body stands behind the closed gate, it is not read, and the next
    /// append writes over it.
    pub fn append(&mut self, alloc: Global, r: &Record) -> Result<(), LogError>
        ensures answer { AppendEffect D.state D.does D.faults self.old r.now result self.new }
        // A crash at any moment of the call leaves the records from before it, with the new one or without.
        ensures any_moment { (records : List Record) → Keeps D.state self.old records
            → LeavesOnly D.left_since self.old.disk self.new.disk (GivesEither records r.now) }
    {
        if self.closed {
            return Err(LogError::Closed);
        }
        let mut block = Writer::new(alloc);
        block_into(&mut block, r)?;
        let bytes = block.as_slice();
        let Some(next) = self.gate.checked_add(bytes.len() as u64) else {
            return Err(LogError::NoMemory);
        };
        match force(&mut self.disk, self.gate, bytes) {
            Ok(()) => {
                self.gate = next;
                Ok(())
            }
            Err(DiskError::Failed) => {
                self.closed = true;
                Err(LogError::Device)
            }
            Err(DiskError::NoMemory) => Err(LogError::NoMemory),
        }
    }

    /// The log's disk.
    pub fn disk(&self) -> &D
        ensures lent { result.now ≡ self.now.disk }
        // Every image that a crash may leave gives the log's records.
        ensures kept { (records : List Record) → Keeps D.state self.now records
            → (image : List ℕ) → MayLeave (D.state result.now) image → Gives image records }
        // After an append that failed, it gives them with the new one or without.
        ensures failed { (records : List Record) (r : Record) → MayKeep D.state self.now records r
            → (image : List ℕ) → MayLeave (D.state result.now) image → GivesEither records r image }
    {
        &self.disk
    }

    /// Gives the log up, and its disk back.
    pub fn into_disk(self) -> D
        ensures given { result ≡ self.disk }
        ensures kept { (records : List Record) → Keeps D.state self records
            → (image : List ℕ) → MayLeave (D.state result) image → Gives image records }
        ensures failed { (records : List Record) (r : Record) → MayKeep D.state self records r
            → (image : List ℕ) → MayLeave (D.state result) image → GivesEither records r image }
    {
        self.disk
    }
}

impl Log<MemoryDisk> {
    ghost use Rattle.std.specs.Prelude.{◌≡◌, ◌≢◌, ◌<◌, ◌≤◌, [], ◌∷◌, ◌++◌, List, length, Some, None, true, false, not, Err, IfErr, IfOk, OnErr, OnOk};
    ghost use Rattle.tp_record.specs.Spelling.{spelling};
    ghost use Rattle.tp_types.specs.declared.records.Record.{Record};
    ghost use Rattle.tp_device.specs.Disks.{MayLeave, after_sync, clean_state};
    ghost use Rattle.tp_device.specs.Memory.{after_crash, disk_of};
    ghost use Rattle.tp_log.specs.Images.{FailsAt, Gives, GivesBehind, blocks};
    ghost use Rattle.tp_log.specs.Appends.{body_max, kept_after};
    ghost use Rattle.tp_log.specs.Logs.{Keeps, fresh_log};
    ghost use Rattle.tp_log.specs.Refusals.{IfNotALog, IfUncalled};

    /// An empty log on a disk of its own in memory, of which no call is stopped. It is what opening such a disk gives, for which
    /// nothing is to be read.
    pub fn fresh(alloc: Global) -> Result<Log<MemoryDisk>, NoMemory>
        ensures { IfOk result (λ log. log ≡ fresh_log) }
    {
        Ok(Log {
            disk: MemoryDisk::fresh(alloc)?,
            gate: 0,
            closed: false,
        })
    }

    /// Appends a record that is not too long to an open log, on a disk of which no call is stopped: only memory is refused, and
    /// then the log keeps its records.
    pub fn append_running(&mut self, alloc: Global, r: &Record) -> Result<(), NoMemory>
        requires was_open { self.old.closed ≡ false }
        requires running { self.old.disk.left ≡ None }
        requires fits { length (spelling r.now) ≤ body_max }
        ensures kept { OnOk result ((records : List Record) → Keeps disk_of self.old records
            → Keeps disk_of self.new (records ++ r.now ∷ [])) }
        ensures stays { OnErr result ((records : List Record) → Keeps disk_of self.old records
            → Keeps disk_of self.new records) }
        ensures is_open { self.new.closed ≡ false }
        ensures running { self.new.disk.left ≡ None }
    {
        match self.append(alloc, r) {
            Ok(()) => Ok(()),
            Err(LogError::NoMemory) => Err(NoMemory),
            Err(LogError::Device) => unreachable!(),
            Err(LogError::Closed) => unreachable!(),
            Err(LogError::TooLong) => unreachable!(),
            Err(LogError::NotALog { .. }) => unreachable!(),
        }
    }

    /// Lets so many further calls of the disk pass. The records stay.
    pub fn stop_after(&mut self, calls: u32)
        ensures { self.new ≡ record self.old { disk = record self.old.disk { left = Some calls } } }
    {
        self.disk.stop_after(calls);
    }

    /// No call of the disk is stopped any more. The records stay.
    pub fn run_on(&mut self)
        ensures { self.new ≡ record self.old { disk = record self.old.disk { left = None } } }
    {
        self.disk.run_on();
    }

    /// Whether the log takes records: no append has failed, and it did not crash since it was read.
    pub fn is_open(&self) -> bool
        ensures { result ≡ not self.now.closed }
    {
        !self.closed
    }

    /// Crashes the disk, on which what is unsynced then reads `fill`, and closes the log.
    fn crash_with(&mut self, alloc: Global, fill: u8)
        ensures exact { self.new ≡ record self.old { disk = after_crash fill self.old.disk; closed = true } }
        ensures image { MayLeave self.old.disk.disk self.new.disk.disk.seen }
    {
        self.disk.crash(alloc, fill);
        self.closed = true;
    }

    /// Crashes in place. What is unsynced on the disk then reads 0, and no call of it is stopped. The log takes no record
    /// until it is read again. It takes no memory.
    pub fn crash(&mut self, alloc: Global)
        ensures exact { self.new ≡ record self.old { disk = after_crash 0 self.old.disk; closed = true } }
        ensures image { MayLeave self.old.disk.disk self.new.disk.disk.seen }
        // Where nothing is unsynced, as on the disk of a log that keeps its records, the bytes stay.
        ensures forced { self.old.disk.disk ≡ clean_state self.old.disk.disk.seen
            → self.new.disk ≡ record self.old.disk { left = None } }
    {
        self.crash_with(alloc, 0);
    }

    /// Crashes within an append, in place: so many of its calls of the disk pass, and what is then unsynced reads `fill`.
    /// The log then takes no record until it is read again. A refusal is as of `append`, and is no crash. At each answer no
    /// call of the disk is stopped any more.
    /// It stands beside `append` as the crash within one that a scenario asks for, and carries its rule.
    pub fn crash_in_append(
        &mut self,
        alloc: Global,
        r: &Record,
        calls: u32,
        fill: u8,
    ) -> Result<(), LogError>
        // The record is there where all four calls passed, or three and the gate reads 1.
        ensures kept { OnOk result ((records : List Record) → Keeps disk_of self.old records
            → Gives self.new.disk.disk.seen (kept_after calls fill records r.now)) }
        ensures forced { OnOk result (self.new.disk.disk ≡ clean_state self.new.disk.disk.seen) }
        ensures closed { OnOk result (self.new.closed ≡ true) }
        ensures running { self.new.disk.left ≡ None }
        ensures refused { IfErr result (λ error. IfUncalled error self.old.closed r.now) }
        // Where it is refused the log keeps its records.
        ensures stays { OnErr result ((records : List Record) → Keeps disk_of self.old records
            → Keeps disk_of self.new records) }
        // Other bytes behind its gate are there only where memory was refused.
        ensures same { IfErr result (λ error. error ≢ LogError.NoMemory
            → self.new ≡ record self.old { disk = record self.old.disk { left = None } }) }
    {
        self.stop_after(calls);
        match self.append(alloc, r) {
            Ok(()) => {
                self.crash_with(alloc, fill);
                Ok(())
            }
            Err(LogError::Device) => {
                self.crash_with(alloc, fill);
                Ok(())
            }
            Err(error) => {
                self.run_on();
                Err(error)
            }
        }
    }

    /// The records that the bytes of the disk give. It makes no call of the disk.
    pub fn records(&self, alloc: Global) -> Result<List<Record>, NoMemory>
        requires gives { (records : List Record) × Gives self.now.disk.disk.seen records }
        ensures { IfOk result (λ records. Gives self.now.disk.disk.seen records) }
    {
        Ok(given_by(alloc, self.disk.content())?.records)
    }

    /// Opens the log anew on its disk, as `opened` does, in place, and gives its records. The log is closed where it is
    /// refused.
    pub fn reread(&mut self, alloc: Global) -> Result<List<Record>, LogError>
        requires running { self.old.disk.left ≡ None }
        ensures records { IfOk result (λ records. Gives self.old.disk.disk.seen records) }
        ensures kept { IfOk result (λ records. Keeps disk_of self.new records) }
        // A disk of more than one byte is as a sync leaves it. A shorter one holds a closed gate.
        ensures long { OnOk result (1 < length self.old.disk.disk.seen
            → self.new.disk ≡ record self.old.disk { disk = after_sync self.old.disk.disk }) }
        ensures short { OnOk result (length self.old.disk.disk.seen ≤ 1
            → self.new.disk ≡ record self.old.disk { disk = clean_state (0 ∷ []) }) }
        ensures stays { OnErr result (self.new ≡ record self.old {
          disk = record self.old.disk { disk = after_sync self.old.disk.disk };
          closed = true;
        }) }
        // Only where no records are given.
        ensures not_a_log { IfErr result (λ error. IfNotALog error (FailsAt self.old.disk.disk.seen)) }
        ensures device { result ≡ Err LogError.Device → ⊥ }
    {
        self.closed = true;
        sync_running(&mut self.disk);
        if self.disk.len() <= 1 {
            write_gate_running(&mut self.disk)?;
            self.gate = 0;
            self.closed = false;
            return Ok(List::new(alloc));
        }
        let found = records_of(alloc, self.disk.content())?;
        self.gate = found.gate;
        self.closed = false;
        Ok(found.records)
    }

    /// The place of the gate that ends an open log: what is appended later is read behind it.
    pub fn gate(&self) -> u64
        ensures { result ≡ self.now.gate }
    {
        self.gate
    }

    /// Opens the log anew, as `reread` does, and gives its records from the gate at this place on. Those before it are not
    /// looked at. The place is that of a gate of the log, as `gate` has told it; 0 is that of the first. The log is closed where
    /// memory is refused.
    pub fn reread_behind(&mut self, alloc: Global, place: u64) -> Result<List<Record>, NoMemory>
        requires running { self.old.disk.left ≡ None }
        requires gate { (before more : List Record)
            × GivesBehind self.old.disk.disk.seen place before more }
        ensures records { IfOk result (λ found. (before more : List Record)
            → GivesBehind self.old.disk.disk.seen place before more → found ≡ more) }
        ensures kept { OnOk result ((records : List Record)
            → Gives self.old.disk.disk.seen records → Keeps disk_of self.new records) }
        // A disk of more than one byte is as a sync leaves it. A shorter one holds a closed gate.
        ensures long { OnOk result (1 < length self.old.disk.disk.seen
            → self.new.disk ≡ record self.old.disk { disk = after_sync self.old.disk.disk }) }
        ensures short { OnOk result (length self.old.disk.disk.seen ≤ 1
            → self.new.disk ≡ record self.old.disk { disk = clean_state (0 ∷ []) }) }
        ensures stays { OnErr result (self.new ≡ record self.old {
          disk = record self.old.disk { disk = after_sync self.old.disk.disk };
          closed = true;
        }) }
    {
        self.closed = true;
        sync_running(&mut self.disk);
        if self.disk.len() <= 1 {
            write_gate_running(&mut self.disk)?;
            self.gate = 0;
            self.closed = false;
            return Ok(List::new(alloc));
        }
        let behind = self.disk.content().split_at(place as usize).1;
        let found = given_by(alloc, behind)?;
        self.gate = place + found.gate;
        self.closed = false;
        Ok(found.records)
    }
}
