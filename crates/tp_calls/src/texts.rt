//! Log records and policies, as they are read from bytes.
ghost use Rattle.std.specs.Prelude.{◌≡◌, ◌⊎◌, length, Result, Some, IfOk, IfNone, IfSome};
ghost use Rattle.tp_policy_text.specs.Parses.{Answers, IsOutOfMemory};
ghost use Rattle.tp_policy_text.specs.declared.parsing.ParseError.{ParseError};
ghost use Rattle.tp_record.specs.Records.{Begins, IsRecord};
ghost use Rattle.tp_record.specs.Spelling.{spelling};
ghost use Rattle.tp_types.specs.declared.policy.Policy.{Policy};
ghost use Rattle.tp_types.specs.declared.records.Record.{Record};

use std::alloc::Global;
use tp_policy_text::{ParseError, parse};
use tp_record::decode;
use tp_types::{NoMemory, Policy, Record};

/// The record whose spelling the bytes begin with, and the length of that spelling; None exactly where there is no
/// such record.
pub fn decode_record(alloc: Global, bytes: &[u8]) -> Result<Option<(Record, usize)>, NoMemory>
    ensures found { IfOk result (λ found. IfSome found (λ r. IsRecord r.0
        × (Begins bytes.now (spelling r.0) × (r.1 ≡ length (spelling r.0))))) }
    ensures only { IfOk result (λ found. (r : Record) → IsRecord r
        → Begins bytes.now (spelling r) → found ≡ Some (r, length (spelling r))) }
    ensures none { IfOk result (λ found. IfNone found ((r : Record) → IsRecord r
        → ¬ Begins bytes.now (spelling r))) }
{
    decode(alloc, bytes)
}

/// The policy that a text says, or the one refusal that it has.
pub fn parse_policy(alloc: Global, text: &[u8]) -> Result<Policy, ParseError>
    ensures answer { IsOutOfMemory result ⊎ Answers text.now result }
    ensures only { (answer : Result Policy ParseError) → Answers text.now answer
        → IsOutOfMemory result ⊎ (result ≡ answer) }
{
    parse(alloc, text)
}
