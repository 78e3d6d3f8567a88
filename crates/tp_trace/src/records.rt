//! What records of logs say, as words.
ghost use Rattle.std.specs.Prelude.{◌≡◌, ◌++◌, OnOk, codes};
ghost use Rattle.tp_report.specs.ReportText.{outcome_word, txn_name};
ghost use Rattle.tp_trace.specs.Records as records;

use crate::words::{put_joined, put_no, put_of_admin, put_versions};
use tp_report::piece::{put, put_after, put_txn};
use tp_types::{
    Cause, Decided, Decision, No, NoMemory, Outcome, Prepared, Record, Scenario, Settled, TxnId,
};

/// Puts what a record says.
#[tactic(auto, unfolding(crate::specs::Records::record_text))]
pub fn put_record(out: &mut Vec<u8>, scenario: &Scenario, record: &Record) -> Result<(), NoMemory>
    ensures { OnOk result
        (out.new.items ≡ out.old.items ++ records.record_text scenario.now record.now) }
{
    put_kind(out, record)?;
    put_words(out, scenario, record)
}

fn put_kind(out: &mut Vec<u8>, record: &Record) -> Result<(), NoMemory>
    ensures { OnOk result (out.new.items ≡ out.old.items ++ records.record_kind record.now) }
{
    match record {
        Record::Boot => put(out, b"boot"),
        Record::Told(_) => put(out, b"told"),
        Record::Prepared(_) => put(out, b"prepared"),
        Record::Settled(_) => put(out, b"settled"),
        Record::Decided(_) => put(out, b"decided"),
    }
}

/// Puts what stands behind the kind of a record.
fn put_words(out: &mut Vec<u8>, scenario: &Scenario, record: &Record) -> Result<(), NoMemory>
    ensures { OnOk result
        (out.new.items ≡ out.old.items ++ records.record_words scenario.now record.now) }
{
    match record {
        Record::Boot => Ok(()),
        Record::Told(told) => put_of_admin(out, scenario, told.admin, told.version),
        Record::Prepared(prepared) => put_prepared(out, scenario, prepared),
        Record::Settled(settled) => put_settled(out, scenario, *settled),
        Record::Decided(decided) => put_decided(out, scenario, decided),
    }
}

fn put_prepared(out: &mut Vec<u8>, scenario: &Scenario, prepared: &Prepared) -> Result<(), NoMemory>
    ensures { OnOk result
        (out.new.items ≡ out.old.items ++ records.prepared_words scenario.now prepared.now) }
{
    put_prepared_front(out, scenario, prepared)?;
    put(out, b" deeds=")?;
    put_joined(out, scenario, prepared.deeds.as_slice())?;
    put(out, b" verdicts=")?;
    put_joined(out, scenario, prepared.verdicts.as_slice())?;
    put(out, b" told=")?;
    put_versions(out, scenario, prepared.told.as_slice())
}

/// Puts of which transaction a vote is, and to which request.
fn put_prepared_front(
    out: &mut Vec<u8>,
    scenario: &Scenario,
    prepared: &Prepared,
) -> Result<(), NoMemory>
    ensures { OnOk result
        (out.new.items ≡ out.old.items ++ records.prepared_front scenario.now prepared.now) }
{
    put_of_txn(out, scenario, prepared.txn)?;
    put_after(out, b" age=", prepared.age)?;
    put_after(out, b" epoch=", prepared.epoch)?;
    put_after(out, b" turn=", prepared.turn)
}

fn put_of_txn(out: &mut Vec<u8>, scenario: &Scenario, txn: TxnId) -> Result<(), NoMemory>
    ensures { OnOk result
        (out.new.items ≡ out.old.items ++ (codes " txn=" ++ txn_name scenario.now txn)) }
{
    put(out, b" txn=")?;
    put_txn(out, scenario, txn)
}

fn put_settled(out: &mut Vec<u8>, scenario: &Scenario, settled: Settled) -> Result<(), NoMemory>
    ensures { OnOk result
        (out.new.items ≡ out.old.items ++ records.settled_words scenario.now settled) }
{
    put_of_txn(out, scenario, settled.txn)?;
    put(out, b" outcome=")?;
    put_outcome(out, settled.outcome)?;
    put_why_if(out, settled.why)
}

fn put_outcome(out: &mut Vec<u8>, outcome: Outcome) -> Result<(), NoMemory>
    ensures { OnOk result (out.new.items ≡ out.old.items ++ outcome_word outcome) }
{
    match outcome {
        Outcome::Commit => put(out, b"commit"),
        Outcome::Abort => put(out, b"abort"),
    }
}

fn put_why_if(out: &mut Vec<u8>, why: Option<No>) -> Result<(), NoMemory>
    ensures { OnOk result (out.new.items ≡ out.old.items ++ records.why_words_if why) }
{
    match why {
        None => Ok(()),
        Some(why) => put_no(out, why),
    }
}

fn put_decided(out: &mut Vec<u8>, scenario: &Scenario, decided: &Decided) -> Result<(), NoMemory>
    ensures { OnOk result
        (out.new.items ≡ out.old.items ++ records.decided_words scenario.now decided.now) }
{
    put_of_txn(out, scenario, decided.txn)?;
    put(out, b" outcome=")?;
    put_decision(out, &decided.decision)
}

fn put_decision(out: &mut Vec<u8>, decision: &Decision) -> Result<(), NoMemory>
    ensures { OnOk result (out.new.items ≡ out.old.items ++ records.decision_words decision.now) }
{
    match decision {
        Decision::Commit(held) => put_after(out, b"commit rounds=", held.rounds),
        Decision::Abort(cause) => put_abort(out, cause),
    }
}

/// Puts that a transaction was aborted, with the first word of the cause.
fn put_abort(out: &mut Vec<u8>, cause: &Cause) -> Result<(), NoMemory>
    ensures { OnOk result
        (out.new.items ≡ out.old.items ++ (codes "abort cause=" ++ records.cause_word cause.now)) }
{
    match cause {
        Cause::Denied(_) => put(out, b"abort cause=denied"),
        Cause::No(_) => put(out, b"abort cause=no"),
        Cause::Died(_) => put(out, b"abort cause=died"),
        Cause::Newer(_) => put(out, b"abort cause=newer"),
        Cause::Rounds(_) => put(out, b"abort cause=rounds"),
        Cause::Restarted { .. } => put(out, b"abort cause=restarted"),
        Cause::Halted => put(out, b"abort cause=halted"),
    }
}
