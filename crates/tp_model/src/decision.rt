//! How a decision ends its transaction.
ghost use Rattle.std.specs.Prelude.{◌≡◌};
ghost use Rattle.tp_model.specs.Facts as facts;

use tp_types::{Decision, Outcome};

/// How a decision ends its transaction.
pub fn outcome_of(decision: &Decision) -> Outcome
    ensures { result ≡ facts.outcome_of decision.now }
{
    match decision {
        Decision::Commit(_) => Outcome::Commit,
        Decision::Abort(_) => Outcome::Abort,
    }
}
