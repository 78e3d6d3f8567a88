//! An actor's log.
ghost use Rattle.std.specs.Prelude.{◌≡◌, [], IfOk, IfSome, OnErr, OnOk};
ghost use Rattle.tp_actor_log.specs.Disks.{IsDiskOf};
ghost use Rattle.tp_actor_log.specs.Records.{FitsLog, cut_record, log_with};
ghost use Rattle.tp_actor_log.specs.mirrors.Pasts.{IsPast, IsWhole};

use crate::disks;
use crate::past::Past;
use std::alloc::Global;
use std::marker::Model;
use std::mem;
use tp_device::MemoryDisk;
use tp_log::Log;
use tp_types::{Cut, List, NoMemory, Record};

/// A write-ahead log on a disk of its own in memory, on which nothing is unsynced between two calls. Contracts see it as the list
/// of records that the bytes of the disk give.
#[derive(Drop)]
pub struct ActorLog {
    log: Log<MemoryDisk>,
    past: Past,
}

impl Model for ActorLog {
    ghost use Rattle.std.specs.Prelude.{List};
    ghost use Rattle.tp_model.specs.Words.{Record};
    ghost use Rattle.tp_actor_log.specs.mirrors.Disks.{records_on};
    ghost use Rattle.tp_actor_log.specs.mirrors.Pasts.{IsReadOf};

    ghost Value = { List Record };

    ghost view = { λ l. records_on l.log };

    ghost invariant = { λ l. IsReadOf l.past l.log };
}

impl ActorLog {
    /// A log on a disk that nothing was written to.
    pub fn fresh(alloc: Global) -> Result<ActorLog, NoMemory>
        ensures { IfOk result (λ made. made ≡ []) }
    {
        match Log::fresh(alloc) {
            Err(NoMemory) => Err(NoMemory),
            Ok(log) => Ok(ActorLog {
                log,
                past: Past::unread(alloc),
            }),
        }
    }

    /// Forces a record, if there is one: once it is answered the record outlives a crash.
    pub fn force(&mut self, alloc: Global, append: &Option<Record>) -> Result<(), NoMemory>
        requires { IfSome append.now FitsLog }
        ensures ok { OnOk result (self.new ≡ log_with self.old append.now) }
        ensures err { OnErr result (self.new ≡ self.old) }
    {
        match append {
            None => Ok(()),
            Some(forced) => disks::force(&mut self.log, alloc, forced),
        }
    }

    /// The disk crashes as a record is forced: so many of the calls of it pass, and what is then unsynced reads the fill. Where
    /// there is no record, or memory is refused, it does not crash.
    pub fn cut(&mut self, alloc: Global, append: &Option<Record>, cut: Cut) -> Result<(), NoMemory>
        requires { IfSome append.now FitsLog }
        ensures ok { OnOk result (self.new ≡ log_with self.old (cut_record cut append.now)) }
        ensures err { OnErr result (self.new ≡ self.old) }
    {
        match append {
            None => Ok(()),
            Some(forced) => disks::tear(&mut self.log, alloc, forced, cut),
        }
    }

    /// The disk crashes, and the log stays. It takes no memory.
    pub fn crash(&mut self, alloc: Global)
        ensures { self.new ≡ self.old }
    {
        self.log.crash(alloc);
    }

    /// All that was logged, with its boots counted and its other records apart. Of the disk those records alone are read
    /// that the log gained since the last time; what was read is to be given back by `keep`, or the next time reads the
    /// whole disk. Where memory is refused it is read another time.
    pub fn read(&mut self, alloc: Global) -> Result<Past, NoMemory>
        ensures whole { IfOk result (λ past. IsWhole past self.old) }
        ensures past { IfOk result (λ past. IsPast past self.old) }
        ensures same { self.new ≡ self.old }
    {
        let mut past = mem::replace(&mut self.past, Past::unread(alloc));
        match past.read_on(alloc, &mut self.log) {
            Ok(()) => Ok(past),
            Err(NoMemory) => {
                self.past = past;
                Err(NoMemory)
            }
        }
    }

    /// Keeps what was read, for the next time.
    pub fn keep(&mut self, past: Past)
        requires { IsPast past self.old }
        ensures { self.new ≡ self.old }
    {
        self.past = past;
    }

    /// The disk of the log. Every image that a crash may leave of it gives exactly the log's records.
    pub fn disk(&self) -> &MemoryDisk
        ensures { IsDiskOf result.now self.now }
    {
        self.log.disk()
    }

    /// The records that the disk gives now, for who looks on.
    pub fn records(&self, alloc: Global) -> Result<List<Record>, NoMemory>
        ensures { IfOk result (λ records. records ≡ self.now) }
    {
        self.log.records(alloc)
    }
}
