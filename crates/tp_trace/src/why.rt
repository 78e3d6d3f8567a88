//! What stands below a decision and is not in a report.
ghost use Rattle.std.specs.Prelude.{◌≡◌, ◌++◌, map, OnOk};
ghost use Rattle.tp_trace.specs.Lines.{line_of, lines_text};
ghost use Rattle.tp_trace.specs.Why.{why_lines};
ghost use Rattle.tp_trace.specs.declared.lines.Kind.TheVariants as kind;
ghost use Rattle.tp_why.specs.Behind.{behind_lines};
ghost use Rattle.tp_why.specs.Why as why;

use std::alloc::Global;
use tp_types::{Fact, List, NoMemory, Scenario};
use tp_why::{put_behind_lines, put_why_lines};

/// Puts why an abort came, and which versions a commit was behind.
#[tactic(auto, using(crate::proofs::LineLemmas::lines_append))]
pub(crate) fn put_why(
    out: &mut Vec<u8>,
    alloc: Global,
    scenario: &Scenario,
    facts: &List<Fact>,
    fact: &Fact,
) -> Result<(), NoMemory>
    ensures { OnOk result
        (out.new.items
        ≡ out.old.items ++ lines_text (why_lines scenario.now facts.now fact.now)) }
{
    put_cause(out, alloc, scenario, facts, fact)?;
    put_older(out, alloc, scenario, facts, fact)
}

/// Puts why an abort came.
#[tactic(auto, using(crate::proofs::LineLemmas::why_is))]
fn put_cause(
    out: &mut Vec<u8>,
    alloc: Global,
    scenario: &Scenario,
    facts: &List<Fact>,
    fact: &Fact,
) -> Result<(), NoMemory>
    ensures { OnOk result
        (out.new.items
        ≡ out.old.items
        ++ lines_text (map (line_of fact.now.place kind.Why)
        (why.why_lines scenario.now facts.now fact.now))) }
{
    put_why_lines(alloc, out, scenario, facts.as_slice(), fact)
}

/// Puts which versions a commit was behind.
#[tactic(auto, using(crate::proofs::LineLemmas::behind_is))]
fn put_older(
    out: &mut Vec<u8>,
    alloc: Global,
    scenario: &Scenario,
    facts: &List<Fact>,
    fact: &Fact,
) -> Result<(), NoMemory>
    ensures { OnOk result
        (out.new.items
        ≡ out.old.items
        ++ lines_text (map (line_of fact.now.place kind.Behind)
        (behind_lines scenario.now facts.now fact.now))) }
{
    put_behind_lines(alloc, out, scenario, facts.as_slice(), fact)
}
