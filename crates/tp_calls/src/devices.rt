//! Sinks and disks, as the program and a log write to them.
ghost use Rattle.std.specs.Prelude.{◌≤◌, OnOk, OnErr};
ghost use Rattle.std.specs.Io.KnownBytes.{Appends};
ghost use Rattle.tp_device.specs.Disks.{CallEffect, Passes, Sync};
ghost use Rattle.tp_device.specs.Faults.{HasCause};
ghost use Rattle.tp_io.specs.Whole.{AppendsFront};
ghost use Rattle.tp_types.specs.Faults.{Rose};

use tp_device::{Disk, DiskError};
use tp_io::{Failed, Sink, write_all};

/// Writes a whole text to any sink, or a part of its front where the sink fails and counts a fault.
pub fn write_text<O: Sink>(sink: &mut O, text: &[u8]) -> Result<(), Failed>
    ensures whole { OnOk result (Appends (O.written sink.old) (O.written sink.new) text.now) }
    ensures front { OnErr result (AppendsFront (O.written sink.old) (O.written sink.new) text.now) }
    ensures cause { OnErr result (Rose (O.faults sink.old) (O.faults sink.new)) }
    ensures later { O.faults sink.old ≤ O.faults sink.new }
{
    write_all(sink, text)
}

/// Syncs any disk: after it a crash leaves what a read gives.
pub fn sync_disk<D: Disk>(disk: &mut D) -> Result<(), DiskError>
    ensures effect { CallEffect Sync (D.state disk.old) result (D.state disk.new) }
    ensures call { D.does disk.old Sync result disk.new }
    ensures cause { HasCause (D.faults disk.old) (D.faults disk.new) result }
    ensures time { Passes D.state D.left_since disk.old disk.new }
{
    disk.sync()
}
