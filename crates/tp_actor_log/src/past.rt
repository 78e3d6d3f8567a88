//! What was read of an actor's log, so that a boot reads no more than the log gained since.
ghost use Rattle.std.specs.Prelude.{◌≡◌, List, OnOk};
ghost use Rattle.tp_model.specs.Words.{Record};
ghost use Rattle.tp_actor_log.specs.mirrors.Disks.{records_on};
ghost use Rattle.tp_actor_log.specs.mirrors.Pasts.{IsPast, IsReadOf, IsWhole};

use std::alloc::Global;
use tp_device::MemoryDisk;
use tp_log::Log;
use tp_recover::add_apart;
use tp_types::{List, NoMemory, Record};

/// The records of an actor's log up to a gate of it.
#[derive(Drop)]
pub struct Past {
    /// The place of that gate, in bytes.
    pub place: u64,
    /// How many of these records are boots.
    pub boots: u64,
    /// The others. What a scenario asks for bounds them, as each transaction is prepared and settled once.
    pub others: List<Record>,
}

impl Past {
    /// Nothing was read.
    pub fn unread(alloc: Global) -> Past
        ensures { (records : List Record) → IsPast result records }
    {
        Past {
            place: 0,
            boots: 0,
            others: List::new(alloc),
        }
    }

    /// Opens the log anew, and reads what it gained. Where memory is refused it is read another time.
    pub fn read_on(&mut self, alloc: Global, log: &mut Log<MemoryDisk>) -> Result<(), NoMemory>
        requires { IsReadOf self.old log.old }
        ensures read { IsReadOf self.new log.new }
        ensures same { records_on log.new ≡ records_on log.old }
        ensures ok { OnOk result (IsWhole self.new (records_on log.old)) }
    {
        let more = log.reread_behind(alloc, self.place)?;
        let boots = add_apart(&mut self.others, more)?;
        let place = log.gate();
        self.boots += boots;
        self.place = place;
        Ok(())
    }
}
