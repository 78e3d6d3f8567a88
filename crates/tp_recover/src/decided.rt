//! What a coordinator's log says.
ghost use Rattle.std.specs.Prelude.{◌≡◌};
ghost use Rattle.std.specs.Option.{option_copied};
ghost use Rattle.tp_recover.specs.Log.{decided_in};

use tp_types::{Decision, List, Record};

/// The decision of the first record that holds one; None where none does. It takes no memory.
pub fn decision_of(records: &List<Record>) -> Option<&Decision>
    ensures { option_copied result ≡ decided_in records.now }
{
    for forced in records.as_slice() {
        if let Record::Decided(held) = forced {
            return Some(&held.decision);
        }
    }
    None
}
