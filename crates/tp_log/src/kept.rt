//! What is left of an append in whose midst the disk crashed.
ghost use Rattle.std.specs.Prelude.{◌≡◌};
ghost use Rattle.tp_log.specs.Appends as appends;

/// Whether the record of an append is kept of which so many calls passed before a crash, where what was unsynced then reads
/// the fill.
pub fn is_kept(calls: u32, fill: u8) -> bool
    ensures { result ≡ appends.is_kept calls fill }
{
    calls >= 4 || (calls == 3 && fill == 1)
}
