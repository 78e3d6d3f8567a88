//! Taking a disk for a log.
ghost use Rattle.std.specs.Prelude.{◌≡◌, ◌<◌, ◌≤◌, length, IfErr, IfOk, OnOk};
ghost use Rattle.tp_device.specs.Disks.{LeavesOnly};
ghost use Rattle.tp_log.specs.Openings.{GivesUp, LeftOpening, Opens};
ghost use Rattle.tp_log.specs.Refusals.{IfDevice};

use crate::calls::{image_of, write_gate};
use crate::error::LogError;
use std::alloc::Global;
use tp_device::Disk;

/// Syncs a disk and gives all its bytes. A disk of at most one byte gets a closed gate.
pub(crate) fn taken<D: Disk>(alloc: Global, disk: &mut D) -> Result<Vec<u8>, LogError>
    ensures bytes { IfOk result (λ bytes. bytes.items ≡ (D.state disk.old).seen) }
    ensures opens { OnOk result (Opens D.state D.left_since D.does D.faults disk.old disk.new) }
    ensures refused { IfErr result (λ error.
        IfDevice error (GivesUp D.state D.left_since D.does D.faults disk.old disk.new)) }
    // A refusal leaves what the call might have left at any moment, and no count fell.
    ensures moments { IfErr result (λ _. LeavesOnly D.left_since disk.old disk.new (LeftOpening (D.state disk.old))) }
    ensures later { IfErr result (λ _. D.faults disk.old ≤ D.faults disk.new) }
    // A read of a disk of more than one byte gives what it gave, whatever the answer.
    ensures same { 1 < length (D.state disk.old).seen → (D.state disk.new).seen ≡ (D.state disk.old).seen }
{
    disk.sync()?;
    let image = image_of(alloc, disk)?;
    if image.len() > 1 {
        return Ok(image);
    }
    write_gate(disk)?;
    Ok(image)
}
