//! A policy that is printed is read as itself.
ghost use Rattle.std.specs.Prelude.{◌≡◌, ◌⊎◌, ◌≤◌, length, Ok};
ghost use Rattle.tp_policy_text.specs.Grammar.{IsWithin};
ghost use Rattle.tp_policy_text.specs.Parses.{Answers, IsOutOfMemory, depth_max, length_max};
ghost use Rattle.tp_policy_text.specs.Printed.{IsOfGrammar, policy_text};

use crate::parsing::{ParseError, parse};
use crate::printer::print;
use std::alloc::Global;
use tp_types::Policy;

/// Prints the policy and reads its printed form. Where that is within the limits of a text, it gives the policy again.
/// That printing and reading go together is a law on two calls, and a law counts only where a public call carries
/// it.
pub fn print_and_parse(alloc: Global, policy: &Policy) -> Result<Policy, ParseError>
    requires { IsOfGrammar policy.now }
    ensures answer { IsOutOfMemory result ⊎ Answers (policy_text policy.now) result }
    ensures same { length (policy_text policy.now) ≤ length_max
        → IsWithin depth_max (policy_text policy.now)
        → IsOutOfMemory result ⊎ (result ≡ Ok policy.now) }
{
    let text = print(alloc, policy)?;
    parse(alloc, text.0.as_slice())
}
