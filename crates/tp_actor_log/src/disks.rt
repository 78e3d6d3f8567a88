//! What is done to an actor's log on its disk, of which no call is stopped outside a cut.
ghost use Rattle.std.specs.Prelude.{◌≡◌, ◌++◌, ◌∷◌, [], false, OnErr, OnOk};
ghost use Rattle.tp_log.specs.Appends.{kept_after};
ghost use Rattle.tp_actor_log.specs.Records.{FitsLog};
ghost use Rattle.tp_actor_log.specs.mirrors.Disks.{IsForced, records_on};

use std::alloc::Global;
use tp_device::MemoryDisk;
use tp_log::{Log, LogError};
use tp_types::{Cut, NoMemory, Record};

/// Opens a log that a crash has closed, by reading it. One that is open is left as it is.
fn open(log: &mut Log<MemoryDisk>, alloc: Global) -> Result<(), NoMemory>
    requires { IsForced log.old }
    ensures forced { IsForced log.new }
    ensures same { records_on log.new ≡ records_on log.old }
    ensures ok { OnOk result (log.new.closed ≡ false) }
{
    if log.is_open() {
        return Ok(());
    }
    match log.reread(alloc) {
        Ok(records) => {
            drop(records);
            Ok(())
        }
        Err(LogError::NoMemory) => Err(NoMemory),
        Err(LogError::Device) => unreachable!(),
        Err(LogError::Closed) => unreachable!(),
        Err(LogError::TooLong) => unreachable!(),
        Err(LogError::NotALog { .. }) => unreachable!(),
    }
}

/// Forces a record.
pub fn force(log: &mut Log<MemoryDisk>, alloc: Global, forced: &Record) -> Result<(), NoMemory>
    requires kept { IsForced log.old }
    requires fits { FitsLog forced.now }
    ensures forced { IsForced log.new }
    ensures ok { OnOk result (records_on log.new ≡ records_on log.old ++ forced.now ∷ []) }
    ensures err { OnErr result (records_on log.new ≡ records_on log.old) }
{
    open(log, alloc)?;
    log.append_running(alloc, forced)
}

/// The disk crashes as a record is forced. Where memory is refused it does not.
pub fn tear(
    log: &mut Log<MemoryDisk>,
    alloc: Global,
    forced: &Record,
    cut: Cut,
) -> Result<(), NoMemory>
    requires kept { IsForced log.old }
    requires fits { FitsLog forced.now }
    ensures forced { IsForced log.new }
    ensures ok { OnOk result (records_on log.new
        ≡ kept_after cut.calls cut.fill (records_on log.old) forced.now) }
    ensures err { OnErr result (records_on log.new ≡ records_on log.old) }
{
    open(log, alloc)?;
    match log.crash_in_append(alloc, forced, cut.calls, cut.fill) {
        Ok(()) => Ok(()),
        Err(LogError::NoMemory) => Err(NoMemory),
        Err(LogError::Device) => unreachable!(),
        Err(LogError::Closed) => unreachable!(),
        Err(LogError::TooLong) => unreachable!(),
        Err(LogError::NotALog { .. }) => unreachable!(),
    }
}
