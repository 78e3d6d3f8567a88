//! The lines of facts: as a report has them, with the place before each, and what a report does not say below them.
ghost use Rattle.std.specs.Prelude.{◌≡◌, ◌++◌, OnOk, map};
ghost use Rattle.tp_trace.specs.Lines.{line_text, lines_text};
ghost use Rattle.tp_trace.specs.Laws.{TracesTellReports};
ghost use Rattle.tp_trace.specs.Told as told;

use crate::lines::{Kind, put_front};
use crate::why::put_why;
use std::alloc::Global;
use tp_report::{put_deed_line, put_instance_line, put_proof_line, put_what_line};
use tp_types::{
    CommitRecord, Decision, Deed, Fact, Instance, List, NoMemory, Place, Scenario, Verdict, What,
};

/// Puts the lines of facts, of which these are all so far.
#[tactic(auto, using(crate::proofs::LineLemmas::lines_append))]
pub(crate) fn put_all_told(
    out: &mut Vec<u8>,
    alloc: Global,
    scenario: &Scenario,
    facts: &List<Fact>,
    news: &[Fact],
) -> Result<(), NoMemory>
    ensures { OnOk result
        (out.new.items
        ≡ out.old.items ++ lines_text (told.all_told scenario.now facts.now news.now)) }
{
    for fact in news {
        put_told(out, alloc, scenario, facts, fact)?;
    }
    Ok(())
}

#[tactic(auto, using(crate::proofs::LineLemmas::lines_append))]
fn put_told(
    out: &mut Vec<u8>,
    alloc: Global,
    scenario: &Scenario,
    facts: &List<Fact>,
    fact: &Fact,
) -> Result<(), NoMemory>
    ensures { OnOk result
        (out.new.items
        ≡ out.old.items ++ lines_text (told.told_lines scenario.now facts.now fact.now)) }
{
    put_front(out, fact.place, Kind::Fact)?;
    put_what_line(out, scenario, &fact.what)?;
    put_because(out, scenario, fact.place, &fact.what)?;
    put_why(out, alloc, scenario, facts, fact)
}

/// Puts what a commit rests on.
fn put_because(
    out: &mut Vec<u8>,
    scenario: &Scenario,
    place: Place,
    what: &What,
) -> Result<(), NoMemory>
    ensures { OnOk result
        (out.new.items
        ≡ out.old.items ++ lines_text (told.because_lines scenario.now place what.now)) }
{
    match what {
        What::Decided(_, Decision::Commit(held)) => put_commit(out, scenario, place, held),
        _ => Ok(()),
    }
}

#[tactic(auto, using(crate::proofs::LineLemmas::lines_append))]
fn put_commit(
    out: &mut Vec<u8>,
    scenario: &Scenario,
    place: Place,
    held: &CommitRecord,
) -> Result<(), NoMemory>
    ensures { OnOk result
        (out.new.items
        ≡ out.old.items ++ lines_text (told.commit_because scenario.now place held.now)) }
{
    put_instances(out, scenario, place, &held.instances)?;
    put_deeds(out, scenario, place, &held.deeds)
}

#[tactic(auto, using(crate::proofs::LineLemmas::lines_append))]
fn put_instances(
    out: &mut Vec<u8>,
    scenario: &Scenario,
    place: Place,
    instances: &List<Instance>,
) -> Result<(), NoMemory>
    ensures { OnOk result
        (out.new.items
        ≡ out.old.items ++ lines_text (told.instances_because scenario.now place 1 instances.now)) }
{
    for (before, instance) in instances.as_slice().iter().enumerate() {
        put_instance(out, scenario, place, before + 1, instance)?;
    }
    Ok(())
}

fn put_instance(
    out: &mut Vec<u8>,
    scenario: &Scenario,
    place: Place,
    number: usize,
    instance: &Instance,
) -> Result<(), NoMemory>
    ensures { OnOk result
        (out.new.items
        ≡ out.old.items
        ++ lines_text (told.instance_because scenario.now place number instance.now)) }
{
    put_front(out, place, Kind::Because)?;
    put_instance_line(out, number, instance.reading)?;
    put_proofs(out, scenario, place, &instance.proofs)
}

fn put_proofs(
    out: &mut Vec<u8>,
    scenario: &Scenario,
    place: Place,
    proofs: &List<Verdict>,
) -> Result<(), NoMemory>
    ensures { OnOk result
        (out.new.items
        ≡ out.old.items
        ++ lines_text (map (told.proof_because scenario.now place) proofs.now)) }
{
    for proof in proofs.as_slice() {
        put_proof(out, scenario, place, proof)?;
    }
    Ok(())
}

fn put_proof(
    out: &mut Vec<u8>,
    scenario: &Scenario,
    place: Place,
    proof: &Verdict,
) -> Result<(), NoMemory>
    ensures { OnOk result
        (out.new.items ≡ out.old.items ++ line_text (told.proof_because scenario.now place proof.now)) }
{
    put_front(out, place, Kind::Because)?;
    put_proof_line(out, scenario, proof)
}

fn put_deeds(
    out: &mut Vec<u8>,
    scenario: &Scenario,
    place: Place,
    deeds: &List<Deed>,
) -> Result<(), NoMemory>
    ensures { OnOk result
        (out.new.items
        ≡ out.old.items ++ lines_text (map (told.deed_because scenario.now place) deeds.now)) }
{
    for deed in deeds.as_slice() {
        put_deed(out, scenario, place, deed)?;
    }
    Ok(())
}

fn put_deed(
    out: &mut Vec<u8>,
    scenario: &Scenario,
    place: Place,
    deed: &Deed,
) -> Result<(), NoMemory>
    ensures { OnOk result
        (out.new.items ≡ out.old.items ++ line_text (told.deed_because scenario.now place deed.now)) }
{
    put_front(out, place, Kind::Because)?;
    put_deed_line(out, scenario, deed)
}

/// The report of a run is in its trace: it has the facts that stand there, without the word behind their places, what stands
/// below them, without the place, and the same last lines. Its body is empty: a law that only a definition states could stay
/// unproved.
pub fn traces_tell_reports()
    ensures { TracesTellReports }
{}
