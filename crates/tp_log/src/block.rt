//! The bytes of a record in a log.
ghost use Rattle.std.specs.Prelude.{◌≡◌, ◌≤◌, ◌<◌, ◌++◌, [], ◌∷◌, length, IfErr, OnOk};
ghost use Rattle.tp_record.specs.Records.{IsRecord};
ghost use Rattle.tp_record.specs.Spelling.{spelling};
ghost use Rattle.tp_log.specs.Appends.{body_max};
ghost use Rattle.tp_log.specs.Refusals.{IfTooLong};

use crate::error::LogError;
use tp_record::{Writer, encode_into};
use tp_types::Record;

/// The most bytes of a record's body.
pub const BODY_MAX: usize = 1_048_576;

/// Writes what stands behind the gate of a record: its body, and a closed gate. What was written before is gone.
pub(crate) fn block_into(out: &mut Writer, r: &Record) -> Result<(), LogError>
    ensures bytes { OnOk result ((out.new ≡ spelling r.now ++ 0 ∷ []) × IsRecord r.now
        × (length (spelling r.now) ≤ body_max)) }
    ensures refused { IfErr result (λ error. IfTooLong error (body_max < length (spelling r.now))) }
{
    encode_into(out, r)?;
    if out.len() > BODY_MAX {
        return Err(LogError::TooLong);
    }
    out.push(0)?;
    Ok(())
}
