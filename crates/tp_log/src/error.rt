//! Why a call of a log was refused.

use std::alloc::{AllocError, AllocFailed};
use tp_device::DiskError;
use tp_types::NoMemory;

/// Why a call of a log was refused.
#[derive(Clone, Copy, Debug, PartialEq)]
pub enum LogError {
    /// The disk failed, and counted a fault.
    Device,
    /// Behind an open gate no record and a next gate stand. The place is that behind the gate, in bytes.
    NotALog { place: u64 },
    /// An earlier append of this log answered `Device`, or the log crashed, and it was not read again since.
    Closed,
    /// The record's body is longer than `BODY_MAX`.
    TooLong,
    /// Memory was refused. The log keeps its records.
    NoMemory,
}

impl From<NoMemory> for LogError {
    ghost use Rattle.std.specs.Prelude.{◌≡◌};
    ghost use Rattle.tp_log.specs.declared.error.LogError.TheVariants.{NoMemory as OutOfMemory};

    ghost from_gives = { λ _ error. error ≡ OutOfMemory };

    fn from(_error: NoMemory) -> LogError {
        LogError::NoMemory
    }
}

impl From<AllocError> for LogError {
    ghost use Rattle.std.specs.Prelude.{◌≡◌};
    ghost use Rattle.tp_log.specs.declared.error.LogError.TheVariants.{NoMemory as OutOfMemory};

    ghost from_gives = { λ _ error. error ≡ OutOfMemory };

    fn from(_error: AllocError) -> LogError {
        LogError::NoMemory
    }
}

impl<T: Drop> From<AllocFailed<T>> for LogError {
    ghost use Rattle.std.specs.Prelude.{◌≡◌};
    ghost use Rattle.tp_log.specs.declared.error.LogError.TheVariants.{NoMemory as OutOfMemory};

    ghost from_gives = { λ _ error. error ≡ OutOfMemory };

    fn from(_error: AllocFailed<T>) -> LogError {
        LogError::NoMemory
    }
}

impl From<DiskError> for LogError {
    ghost use Rattle.std.specs.Prelude.{◌≡◌};
    ghost use Rattle.tp_log.specs.Refusals.{log_error};

    ghost from_gives = { λ error made. made ≡ log_error error };

    fn from(error: DiskError) -> LogError {
        match error {
            DiskError::Failed => LogError::Device,
            DiskError::NoMemory => LogError::NoMemory,
        }
    }
}
