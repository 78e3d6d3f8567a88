//! Facts, each on a line that begins with its place. A commit has further lines below it.
ghost use Rattle.std.specs.Prelude.{◌≡◌, ◌++◌, ◌∷◌, [], OnOk, codes, decimal};
ghost use Rattle.tp_report.specs.ReportText.{decision_tokens, fact_tokens, outcome_word, what_line, what_tokens};
ghost use Rattle.tp_report.specs.Tokens.{last_word, text_of, word};

use crate::cause::put_cause;
use crate::commit::{put_commit, put_commit_line};
use crate::piece::{
    put, put_actor, put_admin, put_byte, put_cred, put_number, put_server, put_txn,
};
use tp_types::{
    Actor, AdminId, Cause, CredId, Decision, Fact, NoMemory, Outcome, Scenario, ServerId, TxnId,
    Version, What,
};

pub(crate) fn put_fact(out: &mut Vec<u8>, scenario: &Scenario, fact: &Fact) -> Result<(), NoMemory>
    ensures { OnOk result (out.new.items ≡ out.old.items ++ text_of (fact_tokens scenario.now fact.now)) }
{
    put_number(out, fact.place)?;
    put_byte(out, b' ')?;
    put_what(out, scenario, &fact.what)
}

fn put_what(out: &mut Vec<u8>, scenario: &Scenario, what: &What) -> Result<(), NoMemory>
    ensures { OnOk result (out.new.items ≡ out.old.items ++ text_of (what_tokens scenario.now what.now)) }
{
    match what {
        What::Submitted(txn) => put_submitted(out, scenario, *txn),
        What::Published(admin, version) => put_published(out, scenario, *admin, *version),
        What::Revoked(cred) => put_revoked(out, scenario, *cred),
        What::Ticked(by) => put_ticked(out, *by),
        What::Crashed(actor) => put_crashed(out, scenario, *actor),
        What::Lost(mail) => put_lost(out, *mail),
        What::Decided(txn, decision) => put_decided(out, scenario, *txn, decision),
        What::Settled(server, txn, outcome) => put_settled(out, scenario, *server, *txn, *outcome),
    }
}

/// Puts the line of what happened, without its place; of a commit without what stands below it.
pub fn put_what_line(out: &mut Vec<u8>, scenario: &Scenario, what: &What) -> Result<(), NoMemory>
    ensures { OnOk result (out.new.items ≡ out.old.items ++ text_of (what_line scenario.now what.now)) }
{
    match what {
        What::Decided(txn, Decision::Commit(held)) => put_commit_line(out, scenario, *txn, held),
        _ => put_what(out, scenario, what),
    }
}

fn put_submitted(out: &mut Vec<u8>, scenario: &Scenario, txn: TxnId) -> Result<(), NoMemory>
    ensures { OnOk result
        (out.new.items ≡ out.old.items ++ text_of (what_tokens scenario.now (What.Submitted txn))) }
{
    put(out, b"submit ")?;
    put_txn(out, scenario, txn)?;
    put_byte(out, b'\n')
}

fn put_published(
    out: &mut Vec<u8>,
    scenario: &Scenario,
    admin: AdminId,
    version: Version,
) -> Result<(), NoMemory>
    ensures { OnOk result
        (out.new.items ≡ out.old.items ++ text_of (what_tokens scenario.now (What.Published admin version))) }
{
    put(out, b"publish ")?;
    put_admin(out, scenario, admin)?;
    put_byte(out, b' ')?;
    put_number(out, version.0)?;
    put_byte(out, b'\n')
}

fn put_revoked(out: &mut Vec<u8>, scenario: &Scenario, cred: CredId) -> Result<(), NoMemory>
    ensures { OnOk result
        (out.new.items ≡ out.old.items ++ text_of (what_tokens scenario.now (What.Revoked cred))) }
{
    put(out, b"revoke ")?;
    put_cred(out, scenario, cred)?;
    put_byte(out, b'\n')
}

fn put_ticked(out: &mut Vec<u8>, by: u64) -> Result<(), NoMemory>
    ensures { OnOk result
        (out.new.items ≡ out.old.items ++ text_of (word (codes "tick") ∷ last_word (decimal by) ∷ [])) }
{
    put(out, b"tick ")?;
    put_number(out, by)?;
    put_byte(out, b'\n')
}

fn put_crashed(out: &mut Vec<u8>, scenario: &Scenario, actor: Actor) -> Result<(), NoMemory>
    ensures { OnOk result
        (out.new.items ≡ out.old.items ++ text_of (what_tokens scenario.now (What.Crashed actor))) }
{
    put(out, b"crash ")?;
    put_actor(out, scenario, actor)?;
    put_byte(out, b'\n')
}

fn put_lost(out: &mut Vec<u8>, mail: u64) -> Result<(), NoMemory>
    ensures { OnOk result
        (out.new.items ≡ out.old.items ++ text_of (word (codes "lose") ∷ last_word (decimal mail) ∷ [])) }
{
    put(out, b"lose ")?;
    put_number(out, mail)?;
    put_byte(out, b'\n')
}

fn put_decided(
    out: &mut Vec<u8>,
    scenario: &Scenario,
    txn: TxnId,
    decision: &Decision,
) -> Result<(), NoMemory>
    ensures { OnOk result
        (out.new.items ≡ out.old.items ++ text_of (decision_tokens scenario.now txn decision.now)) }
{
    match decision {
        Decision::Commit(held) => put_commit(out, scenario, txn, held),
        Decision::Abort(cause) => put_abort(out, scenario, txn, cause),
    }
}

fn put_abort(
    out: &mut Vec<u8>,
    scenario: &Scenario,
    txn: TxnId,
    cause: &Cause,
) -> Result<(), NoMemory>
    ensures { OnOk result
        (out.new.items
        ≡ out.old.items ++ text_of (decision_tokens scenario.now txn (Decision.Abort cause.now))) }
{
    put(out, b"abort ")?;
    put_txn(out, scenario, txn)?;
    put_byte(out, b' ')?;
    put_cause(out, scenario, cause)
}

fn put_settled(
    out: &mut Vec<u8>,
    scenario: &Scenario,
    server: ServerId,
    txn: TxnId,
    outcome: Outcome,
) -> Result<(), NoMemory>
    ensures { OnOk result
        (out.new.items
        ≡ out.old.items ++ text_of (what_tokens scenario.now (What.Settled server txn outcome))) }
{
    put(out, b"settle ")?;
    put_server(out, scenario, server)?;
    put_byte(out, b' ')?;
    put_txn(out, scenario, txn)?;
    put_byte(out, b' ')?;
    put_outcome(out, outcome)?;
    put_byte(out, b'\n')
}

fn put_outcome(out: &mut Vec<u8>, outcome: Outcome) -> Result<(), NoMemory>
    ensures { OnOk result (out.new.items ≡ out.old.items ++ outcome_word outcome) }
{
    match outcome {
        Outcome::Commit => put(out, b"commit"),
        Outcome::Abort => put(out, b"abort"),
    }
}
