//! Disks, as a log sees them.
ghost use Rattle.std.specs.Prelude.{◌≡◌, ◌≤◌, ℕ, List, Result, length, IfOk, IsErrOf};
ghost use Rattle.tp_device.specs.Disks.{Call, Cut, DiskState, CallEffect, MayLeave, Passes, ReadsAt, Sync, Write};
ghost use Rattle.tp_device.specs.Faults.{HasCause};
ghost use Rattle.tp_device.specs.declared.disk.DiskError.{DiskError};

use tp_types::NoMemory;

/// Why a call of a disk was refused.
#[derive(Clone, Copy, Debug, PartialEq)]
pub enum DiskError {
    /// The disk failed, and counted a fault.
    Failed,
    /// Memory was refused. The disk is as before. Only `write_at` and `cut` answer so.
    NoMemory,
}

impl From<NoMemory> for DiskError {
    ghost use Rattle.std.specs.Prelude.{◌≡◌};
    ghost use Rattle.tp_device.specs.declared.disk.DiskError.TheVariants.{NoMemory as OutOfMemory};

    ghost from_gives = { λ _ error. error ≡ OutOfMemory };

    fn from(_error: NoMemory) -> DiskError {
        DiskError::NoMemory
    }
}

/// Bytes that outlive a crash once they are synced. Places and lengths are numbers of bytes.
pub trait Disk: Drop {
    // What a read gives, and what was written since the last sync that succeeded.
    ghost state: { Self → DiskState };

    // Which images a crash might have left at some moment from one state of the disk to a later one.
    ghost left_since: { Self → Self → List ℕ → Type 0 };

    // Which calls lead from one state of the disk to another, with this answer. A disk may say more here than `state` tells.
    ghost does: { Self → Call → Result (Unit {0}) DiskError → Self → Type 0 };

    // How many faults there have been, a count of 64 bits that stands still at its end.
    ghost faults: { Self → ℕ };

    fn len(&self) -> u64
        ensures { result ≡ length (state self.now).seen };

    /// Puts the bytes from a place on into the front of the buffer, and answers how many. There are none past the end.
    fn read(&mut self, at: u64, buf: &mut [u8]) -> Result<usize, DiskError>
        ensures bytes { IfOk result (λ n. ReadsAt (state self.old).seen at buf.old n buf.new) }
        ensures size { length buf.new ≡ length buf.old }
        ensures same { state self.new ≡ state self.old }
        ensures memory { IsErrOf result DiskError.NoMemory → ⊥ }
        ensures cause { HasCause (faults self.old) (faults self.new) result }
        ensures time { Passes state left_since self.old self.new };

    /// Writes over what is there, and past the end. Until the next sync a crash may leave any bytes there.
    fn write_at(&mut self, at: u64, piece: &[u8]) -> Result<(), DiskError>
        requires { at ≤ length (state self.old).seen }
        ensures effect { CallEffect (Write at piece.now) (state self.old) result (state self.new) }
        ensures call { does self.old (Write at piece.now) result self.new }
        ensures cause { HasCause (faults self.old) (faults self.new) result }
        ensures time { Passes state left_since self.old self.new };

    /// Keeps so many bytes. Until the next sync a crash may leave more.
    fn cut(&mut self, len: u64) -> Result<(), DiskError>
        requires { len ≤ length (state self.old).seen }
        ensures effect { CallEffect (Cut len) (state self.old) result (state self.new) }
        ensures call { does self.old (Cut len) result self.new }
        ensures cause { HasCause (faults self.old) (faults self.new) result }
        ensures time { Passes state left_since self.old self.new };

    /// After it a crash leaves what a read gives. Where it fails nothing more counts as synced.
    fn sync(&mut self) -> Result<(), DiskError>
        ensures effect { CallEffect Sync (state self.old) result (state self.new) }
        ensures call { does self.old Sync result self.new }
        ensures cause { HasCause (faults self.old) (faults self.new) result }
        ensures time { Passes state left_since self.old self.new };

    // The two ends are moments of those between them.
    ghost counts_start: { (start disk : Self) (image : List ℕ)
        → MayLeave (state start) image → left_since start disk image };

    ghost counts_now: { (start disk : Self) (image : List ℕ)
        → MayLeave (state disk) image → left_since start disk image };

    // From a moment to itself there is no other.
    ghost only_now: { (disk : Self) (image : List ℕ)
        → left_since disk disk image → MayLeave (state disk) image };
}
