//! How replies and answers are spelled in a recording.
use crate::spelling::{add_number, add_word, numbers_of};
use std::alloc::Global;
use tp_round::{Judged, Wanted};
use tp_types::{AdminId, CredId, List, Met, NoMemory, ServerId, Verdict, Version};

fn uses_of(alloc: Global, numbers: &[u32]) -> Result<List<CredId>, NoMemory> {
    let mut uses = List::new(alloc);
    for number in numbers {
        uses.push(CredId(*number))?;
    }
    Ok(uses)
}

fn verdict(alloc: Global, numbers: &[u32]) -> Result<Option<Verdict>, NoMemory> {
    let [query, server, admin, version, place, rule, uses @ ..] = numbers else {
        return Ok(None);
    };
    let rule = if *rule == 0 { None } else { Some(*rule) };
    let uses = uses_of(alloc, uses)?;
    Ok(Some(Verdict {
        query: *query,
        server: ServerId(*server),
        admin: AdminId(*admin),
        version: Version(*version),
        place: u64::from(*place),
        rule,
        uses,
    }))
}

/// The verdict that a word says: query, server, administrator, version, place, rule, and what is used. Rule 0 is no rule.
pub fn verdict_of(alloc: Global, word: &str) -> Result<Option<Verdict>, NoMemory> {
    let numbers = numbers_of(alloc, word)?;
    verdict(alloc, numbers.as_slice())
}

fn add_verdict(alloc: Global, text: &mut String, verdict: &Verdict) -> Result<(), NoMemory> {
    let numbers = [
        u64::from(verdict.query),
        u64::from(verdict.server.0),
        u64::from(verdict.admin.0),
        u64::from(verdict.version.0),
        verdict.place,
        u64::from(verdict.rule.unwrap_or(0)),
    ];
    add_word(alloc, text, numbers.as_slice())?;
    for cred in verdict.uses.as_slice() {
        add_number(alloc, text, '/', u64::from(cred.0))?;
    }
    Ok(())
}

fn add_wanted(alloc: Global, text: &mut String, wanted: &Wanted) -> Result<(), NoMemory> {
    add_number(alloc, text, ' ', u64::from(wanted.server.0))?;
    for (admin, version) in wanted.want.as_slice() {
        add_number(alloc, text, '/', u64::from(admin.0))?;
        add_number(alloc, text, '/', u64::from(version.0))?;
    }
    Ok(())
}

fn add_met(alloc: Global, text: &mut String, met: &Met) -> Result<(), NoMemory> {
    let numbers = [
        u64::from(met.admin.0),
        u64::from(met.used.0),
        u64::from(met.newest.0),
        met.place,
    ];
    add_word(alloc, text, numbers.as_slice())
}

fn update_of(alloc: Global, named: &[Wanted]) -> Result<String, NoMemory> {
    let mut text = String::from_str(alloc, "judge update")?;
    for wanted in named {
        add_wanted(alloc, &mut text, wanted)?;
    }
    Ok(text)
}

fn spent_of(alloc: Global, mets: &[Met]) -> Result<String, NoMemory> {
    let mut text = String::from_str(alloc, "judge spent")?;
    for met in mets {
        add_met(alloc, &mut text, met)?;
    }
    Ok(text)
}

fn false_of(alloc: Global, verdict: &Verdict) -> Result<String, NoMemory> {
    let mut text = String::from_str(alloc, "judge false")?;
    add_verdict(alloc, &mut text, verdict)?;
    Ok(text)
}

fn judged_line(alloc: Global, judged: &Judged) -> Result<String, NoMemory> {
    match judged {
        Judged::Waiting => Ok(String::from_str(alloc, "judge waiting")?),
        Judged::AllTrue => Ok(String::from_str(alloc, "judge alltrue")?),
        Judged::False { verdict } => false_of(alloc, verdict),
        Judged::Spent(mets) => spent_of(alloc, mets.as_slice()),
        Judged::Update(named) => update_of(alloc, named.as_slice()),
    }
}

/// Whether this is the line of an answer.
pub fn has_judged_line(alloc: Global, judged: &Judged, line: &str) -> Result<bool, NoMemory> {
    let spelled = judged_line(alloc, judged)?;
    Ok(spelled.as_str() == line)
}

fn proofs_line(alloc: Global, proofs: &[Verdict]) -> Result<String, NoMemory> {
    let mut text = String::from_str(alloc, "proofs")?;
    for proof in proofs {
        add_verdict(alloc, &mut text, proof)?;
    }
    Ok(text)
}

/// Whether this is the line of these proofs.
pub fn has_proofs_line(alloc: Global, proofs: &[Verdict], line: &str) -> Result<bool, NoMemory> {
    let spelled = proofs_line(alloc, proofs)?;
    Ok(spelled.as_str() == line)
}
