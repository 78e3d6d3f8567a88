//! The values that settled transactions leave.
ghost use Rattle.std.specs.Prelude.{◌≡◌};
ghost use Rattle.tp_model.specs.SerialRun.{with_deed, with_deeds};
ghost use Rattle.tp_recover.specs.Log as rule;

use tp_store::Values;
use tp_types::{Action, Deed, Outcome, Prepared};

fn leave(values: &mut Values, deed: &Deed)
    ensures { values.new ≡ with_deed values.old deed.now }
{
    match deed.action {
        Action::Read => {}
        Action::Write => values.put(deed.item.0 as usize, deed.value),
    }
}

fn leave_all(values: &mut Values, deeds: &[Deed])
    ensures { values.new ≡ with_deeds values.old deeds.now }
{
    for deed in deeds {
        leave(values, deed);
    }
}

/// What ends as a commit leaves the values that it has written, and what ends as an abort leaves nothing. Nor does a
/// commit of which nothing is prepared.
pub fn end(values: &mut Values, outcome: Outcome, prepared: &Option<Prepared>)
    ensures { values.new ≡ rule.values_by values.old outcome (rule.deeds_of_prepared prepared.now) }
{
    match outcome {
        Outcome::Abort => {}
        Outcome::Commit => {
            if let Some(vote) = prepared {
                leave_all(values, vote.deeds.as_slice());
            }
        }
    }
}
