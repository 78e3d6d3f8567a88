//! Why transactions aborted, each up to the end of its line.
ghost use Rattle.std.specs.Prelude.{◌≡◌, ◌++◌, OnOk, decimal};
ghost use Rattle.std.specs.List.{flat_map};
ghost use Rattle.tp_report.specs.ReportText.{cause_tokens, earlier_met_tokens, met_front, rounds_tokens};
ghost use Rattle.tp_report.specs.Tokens.{text_of};

use crate::piece::{
    put, put_admin, put_at, put_byte, put_number, put_policy, put_query, put_server, put_txn,
};
use tp_types::{Cause, Denied, Died, List, Met, Newer, NoMemory, OutOfRange, Scenario, ServerId};

pub(crate) fn put_cause(
    out: &mut Vec<u8>,
    scenario: &Scenario,
    cause: &Cause,
) -> Result<(), NoMemory>
    ensures { OnOk result
        (out.new.items ≡ out.old.items ++ text_of (cause_tokens scenario.now cause.now)) }
{
    match cause {
        Cause::Denied(denied) => put_denied(out, scenario, denied),
        Cause::No(outside) => put_no(out, scenario, outside),
        Cause::Died(died) => put_died(out, scenario, died),
        Cause::Newer(newer) => put_newer(out, scenario, newer),
        Cause::Rounds(mets) => put_rounds(out, scenario, mets),
        Cause::Restarted { server } => put_restarted(out, scenario, *server),
        Cause::Halted => put(out, b"halted\n"),
    }
}

fn put_denied(out: &mut Vec<u8>, scenario: &Scenario, denied: &Denied) -> Result<(), NoMemory>
    ensures { OnOk result
        (out.new.items
        ≡ out.old.items ++ text_of (cause_tokens scenario.now (Cause.Denied denied.now))) }
{
    put(out, b"denied ")?;
    put_query(out, scenario, denied.query, denied.server)?;
    put_policy(out, scenario, denied.admin, denied.version)?;
    put_at(out, denied.place)
}

fn put_no(out: &mut Vec<u8>, scenario: &Scenario, outside: &OutOfRange) -> Result<(), NoMemory>
    ensures { OnOk result
        (out.new.items
        ≡ out.old.items ++ text_of (cause_tokens scenario.now (Cause.No outside.now))) }
{
    put(out, b"no ")?;
    put_query(out, scenario, outside.query, outside.server)?;
    put_number(out, outside.value)?;
    put_byte(out, b'\n')
}

fn put_died(out: &mut Vec<u8>, scenario: &Scenario, died: &Died) -> Result<(), NoMemory>
    ensures { OnOk result
        (out.new.items
        ≡ out.old.items ++ text_of (cause_tokens scenario.now (Cause.Died died.now))) }
{
    put(out, b"died ")?;
    put_query(out, scenario, died.query, died.server)?;
    put_txn(out, scenario, died.other)?;
    put_byte(out, b' ')?;
    put_at(out, died.place)
}

fn put_newer(out: &mut Vec<u8>, scenario: &Scenario, newer: &Newer) -> Result<(), NoMemory>
    ensures { OnOk result
        (out.new.items
        ≡ out.old.items ++ text_of (cause_tokens scenario.now (Cause.Newer newer.now))) }
{
    put(out, b"newer ")?;
    put_admin(out, scenario, newer.admin)?;
    put_byte(out, b' ')?;
    put_number(out, newer.used.0)?;
    put_byte(out, b' ')?;
    put_number(out, newer.found.0)?;
    put_byte(out, b'\n')
}

fn put_restarted(out: &mut Vec<u8>, scenario: &Scenario, server: ServerId) -> Result<(), NoMemory>
    ensures { OnOk result
        (out.new.items
        ≡ out.old.items ++ text_of (cause_tokens scenario.now (Cause.Restarted server))) }
{
    put(out, b"restarted ")?;
    put_server(out, scenario, server)?;
    put_byte(out, b'\n')
}

fn put_rounds(out: &mut Vec<u8>, scenario: &Scenario, mets: &List<Met>) -> Result<(), NoMemory>
    ensures { OnOk result
        (out.new.items ≡ out.old.items ++ text_of (rounds_tokens scenario.now mets.now)) }
{
    match mets.as_slice().split_last() {
        None => put(out, b"rounds\n"),
        Some((last, others)) => {
            put(out, b"rounds ")?;
            put_earlier_mets(out, scenario, others)?;
            put_met(out, scenario, last)?;
            put_byte(out, b'\n')
        }
    }
}

/// Puts what rounds met, each with a comma and a space behind it.
#[tactic(auto, using(crate::proofs::TokenLemmas::text_append))]
fn put_earlier_mets(out: &mut Vec<u8>, scenario: &Scenario, mets: &[Met]) -> Result<(), NoMemory>
    ensures { OnOk result
        (out.new.items
        ≡ out.old.items ++ text_of (flat_map (earlier_met_tokens scenario.now) mets.now)) }
{
    for met in mets {
        put_met(out, scenario, met)?;
        put(out, b", ")?;
    }
    Ok(())
}

/// Puts what a round met, up to the last digit of its place.
fn put_met(out: &mut Vec<u8>, scenario: &Scenario, met: &Met) -> Result<(), NoMemory>
    ensures { OnOk result
        (out.new.items
        ≡ out.old.items ++ (text_of (met_front scenario.now met.now) ++ decimal met.now.place)) }
{
    put_admin(out, scenario, met.admin)?;
    put_byte(out, b' ')?;
    put_number(out, met.used.0)?;
    put_byte(out, b' ')?;
    put_number(out, met.newest.0)?;
    put(out, b" at ")?;
    put_number(out, met.place)
}
