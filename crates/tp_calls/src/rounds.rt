//! Rounds of validation, as a coordinator judges them.
ghost use Rattle.std.specs.Prelude.{◌≡◌, IfOk, OnOk, OnErr};
ghost use Rattle.std.specs.Option.{option_copied};
ghost use Rattle.tp_round.specs.Judge as rule;

use std::alloc::Global;
use tp_round::{Judged, Round};
use tp_types::{NoMemory, Reading};

/// Judges a round. Where servers are to evaluate again, the next round has begun.
pub fn judge_round(
    alloc: Global,
    round: &mut Round,
    reading: Option<&Reading>,
) -> Result<Judged, NoMemory>
    ensures answer { IfOk result (λ made.
        made ≡ rule.judge round.old (option_copied reading.entry)) }
    ensures next { OnOk result
        (round.new ≡ rule.after_judgement round.old (option_copied reading.entry)) }
    ensures memory { OnErr result (round.new ≡ round.old) }
{
    round.judge(alloc, reading)
}
