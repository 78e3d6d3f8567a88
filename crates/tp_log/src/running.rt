//! What a log asks of a disk in memory of which no call is stopped.
ghost use Rattle.std.specs.Prelude.{◌≡◌, ◌≤◌, [], ◌∷◌, length, None, OnErr, OnOk};
ghost use Rattle.tp_device.specs.Disks.{after_sync, clean_state};

use tp_device::{Disk, DiskError, MemoryDisk};
use tp_types::NoMemory;

/// Syncs the disk.
pub(crate) fn sync_running(disk: &mut MemoryDisk)
    requires { disk.old.left ≡ None }
    ensures { disk.new ≡ record disk.old { disk = after_sync disk.old.disk } }
{
    match disk.sync() {
        Ok(()) => {}
        Err(_) => unreachable!(),
    }
}

/// Writes a closed gate on a disk of at most one byte, and syncs it.
pub(crate) fn write_gate_running(disk: &mut MemoryDisk) -> Result<(), NoMemory>
    requires running { disk.old.left ≡ None }
    requires short { length disk.old.disk.seen ≤ 1 }
    ensures ok { OnOk result (disk.new ≡ record disk.old { disk = clean_state (0 ∷ []) }) }
    ensures err { OnErr result (disk.new ≡ disk.old) }
{
    match disk.write_at(0, &[0]) {
        Ok(()) => {
            sync_running(disk);
            Ok(())
        }
        Err(DiskError::NoMemory) => Err(NoMemory),
        Err(DiskError::Failed) => unreachable!(),
    }
}
