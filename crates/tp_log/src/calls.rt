//! What a log asks of its disk.
ghost use Rattle.std.specs.Prelude.{◌≡◌, ◌+◌, ◌^◌, ◌<◌, ◌≤◌, ◌++◌, [], ◌∷◌, length, Err, IfErr, IfOk};
ghost use Rattle.tp_types.specs.Faults.{Rose};
ghost use Rattle.tp_log.specs.Openings.{Reads, gate_calls};
ghost use Rattle.tp_log.specs.Refusals.{IfDevice};
ghost use Rattle.tp_log.specs.mirrors.Steps.{Steps, forced_calls};

use crate::error::LogError;
use std::alloc::Global;
use tp_device::{Disk, DiskError};

/// All the bytes of a disk.
pub(crate) fn image_of<D: Disk>(alloc: Global, disk: &mut D) -> Result<Vec<u8>, LogError>
    ensures bytes { IfOk result (λ bytes. bytes.items ≡ (D.state disk.old).seen) }
    ensures reads { Reads D.state D.left_since D.does D.faults disk.old disk.new }
    ensures refused { IfErr result (λ error.
        IfDevice error (Rose (D.faults disk.old) (D.faults disk.new))) }
{
    let mut image = vec![in alloc; 0; disk.len() as usize]?;
    disk.read(0, &mut image)?;
    Ok(image)
}

/// Writes a closed gate at the front of a disk, and syncs it.
pub(crate) fn write_gate<D: Disk>(disk: &mut D) -> Result<(), DiskError>
    ensures { Steps D.state D.left_since D.does D.faults gate_calls disk.old result disk.new }
{
    disk.write_at(0, &[0])?;
    disk.sync()
}

/// Writes these bytes behind the closed gate, and once they are synced opens it. The last of them is the next gate.
pub(crate) fn force<D: Disk>(disk: &mut D, gate: u64, bytes: &[u8]) -> Result<(), DiskError>
    requires within { gate < length (D.state disk.old).seen }
    requires fits { gate + 1 < 2 ^ 64 }
    ensures { Steps D.state D.left_since D.does D.faults
        (forced_calls gate bytes.now) disk.old result disk.new }
{
    disk.write_at(gate + 1, bytes)?;
    disk.sync()?;
    disk.write_at(gate, &[1])?;
    disk.sync()
}
