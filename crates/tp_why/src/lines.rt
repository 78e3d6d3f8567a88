//! The lines below an abort.
ghost use Rattle.std.specs.Prelude.{◌≡◌, ◌++◌, OnOk, codes, decimal, map};
ghost use Rattle.tp_report.specs.ReportText.{action_word};
ghost use Rattle.tp_why.specs.Lines as lines;
ghost use Rattle.tp_why.specs.mirrors.Asking.{lent_asked};
ghost use Rattle.tp_why.specs.mirrors.Said.{lent};

use crate::atoms::FalseAtom;
use crate::denial::Asked;
use crate::nearest::{Failing, Fault};
use tp_policy_text::put_atom;
use tp_report::piece::{put, put_cred, put_number, put_txn};
use tp_types::{Action, Credential, Item, NoMemory, Op, Place, Scenario, TxnId};

/// Puts what a line below an abort begins with.
fn put_front(out: &mut Vec<u8>, place: Place) -> Result<(), NoMemory>
    ensures { OnOk result (out.new.items ≡ out.old.items ++ (decimal place ++ codes " why ")) }
{
    put_number(out, place)?;
    put(out, b" why ")
}

fn put_action(out: &mut Vec<u8>, action: Action) -> Result<(), NoMemory>
    ensures { OnOk result (out.new.items ≡ out.old.items ++ action_word action) }
{
    match action {
        Action::Read => put(out, b"read"),
        Action::Write => put(out, b"write"),
    }
}

fn put_query(out: &mut Vec<u8>, asked: &Asked<'_>, clock: u128) -> Result<(), NoMemory>
    ensures { OnOk result
        (out.new.items ≡ out.old.items ++ lines.query_words (lent_asked asked.now) clock) }
{
    put(out, b"query ")?;
    put_action(out, asked.action)?;
    put(out, b" ")?;
    put(out, asked.item.bytes())?;
    put(out, b" clock ")?;
    put_number(out, clock)
}

/// Puts the line of what was asked, and of the clock.
pub(crate) fn put_query_line(
    out: &mut Vec<u8>,
    place: Place,
    asked: &Asked<'_>,
    clock: u128,
) -> Result<(), NoMemory>
    ensures { OnOk result
        (out.new.items
        ≡ out.old.items ++ lines.why_line place (lines.query_words (lent_asked asked.now) clock)) }
{
    put_front(out, place)?;
    put_query(out, asked, clock)?;
    put(out, b"\n")
}

fn put_held(out: &mut Vec<u8>, credential: &Credential) -> Result<(), NoMemory>
    ensures { OnOk result (out.new.items ≡ out.old.items ++ lines.held_words credential.now) }
{
    let said = credential;
    put(out, b"held ")?;
    put(out, said.name.bytes())?;
    put(out, b" ")?;
    put_atom(out, &said.issuer, &said.attr, Op::Equal, &said.value)
}

/// Puts the line of a credential that counts.
fn put_held_line(out: &mut Vec<u8>, place: Place, credential: &Credential) -> Result<(), NoMemory>
    ensures { OnOk result
        (out.new.items
        ≡ out.old.items ++ lines.why_line place (lines.held_words credential.now)) }
{
    put_front(out, place)?;
    put_held(out, credential)?;
    put(out, b"\n")
}

/// Puts the lines of the credentials that count.
pub(crate) fn put_held_lines(
    out: &mut Vec<u8>,
    place: Place,
    held: &[&Credential],
) -> Result<(), NoMemory>
    ensures { OnOk result
        (out.new.items
        ≡ out.old.items ++ lines.why_text place (map lines.held_words (map lent held.now))) }
{
    for credential in held {
        put_held_line(out, place, credential)?;
    }
    Ok(())
}

fn put_fault(out: &mut Vec<u8>, fault: Fault) -> Result<(), NoMemory>
    ensures { OnOk result (out.new.items ≡ out.old.items ++ lines.fault_word fault) }
{
    match fault {
        Fault::Subject => put(out, b"subject"),
        Fault::Value => put(out, b"value"),
        Fault::Early => put(out, b"early"),
        Fault::Late => put(out, b"late"),
        Fault::Revoked => put(out, b"revoked"),
    }
}

/// Puts the test that a credential failed, and its name.
fn put_failing(out: &mut Vec<u8>, scenario: &Scenario, failing: Failing) -> Result<(), NoMemory>
    ensures { OnOk result
        (out.new.items ≡ out.old.items ++ lines.nearest_words scenario.now (Some failing)) }
{
    put_fault(out, failing.fault)?;
    put(out, b" ")?;
    put_cred(out, scenario, failing.cred)
}

/// Puts which credential comes nearest, and the test that it failed.
fn put_nearest(
    out: &mut Vec<u8>,
    scenario: &Scenario,
    found: Option<Failing>,
) -> Result<(), NoMemory>
    ensures { OnOk result
        (out.new.items ≡ out.old.items ++ lines.nearest_words scenario.now found) }
{
    match found {
        None => put(out, b"absent"),
        Some(failing) => put_failing(out, scenario, failing),
    }
}

fn put_false_atom(
    out: &mut Vec<u8>,
    scenario: &Scenario,
    entry: &FalseAtom,
    found: Option<Failing>,
) -> Result<(), NoMemory>
    ensures { OnOk result
        (out.new.items ≡ out.old.items ++ lines.atom_words scenario.now entry.now found) }
{
    let atom = &entry.atom;
    put(out, b"rule ")?;
    put_number(out, entry.rule)?;
    put(out, b" ")?;
    put_atom(out, &atom.issuer, &atom.attr, atom.op, &atom.wanted)?;
    put(out, b" ")?;
    put_nearest(out, scenario, found)
}

/// Puts the line of an atom of a rule that is false.
pub(crate) fn put_atom_line(
    out: &mut Vec<u8>,
    scenario: &Scenario,
    place: Place,
    entry: &FalseAtom,
    found: Option<Failing>,
) -> Result<(), NoMemory>
    ensures { OnOk result
        (out.new.items
        ≡ out.old.items ++ lines.why_line place (lines.atom_words scenario.now entry.now found)) }
{
    put_front(out, place)?;
    put_false_atom(out, scenario, entry, found)?;
    put(out, b"\n")
}

/// Puts the line that no rule is about the action on the item.
pub(crate) fn put_no_rule_line(out: &mut Vec<u8>, place: Place) -> Result<(), NoMemory>
    ensures { OnOk result
        (out.new.items ≡ out.old.items ++ lines.why_line place (codes "norule")) }
{
    put_front(out, place)?;
    put(out, b"norule")?;
    put(out, b"\n")
}

fn put_range(out: &mut Vec<u8>, item: &Item) -> Result<(), NoMemory>
    ensures { OnOk result (out.new.items ≡ out.old.items ++ lines.range_words item.now) }
{
    put(out, b"range ")?;
    put(out, item.name.bytes())?;
    put(out, b" ")?;
    put_number(out, item.min)?;
    put(out, b" ")?;
    put_number(out, item.max)
}

/// Puts the line of an item's range.
pub(crate) fn put_range_line(out: &mut Vec<u8>, place: Place, item: &Item) -> Result<(), NoMemory>
    ensures { OnOk result
        (out.new.items ≡ out.old.items ++ lines.why_line place (lines.range_words item.now)) }
{
    put_front(out, place)?;
    put_range(out, item)?;
    put(out, b"\n")
}

fn put_place(out: &mut Vec<u8>, place: Option<Place>) -> Result<(), NoMemory>
    ensures { OnOk result (out.new.items ≡ out.old.items ++ lines.place_word place) }
{
    match place {
        None => Ok(()),
        Some(place) => put_number(out, place),
    }
}

/// A transaction, and the place of its submission.
#[derive(Clone, Copy)]
pub(crate) struct Submission {
    pub txn: TxnId,
    pub place: Option<Place>,
}

/// Puts a transaction, and the place of its submission.
fn put_submission(
    out: &mut Vec<u8>,
    scenario: &Scenario,
    submission: Submission,
) -> Result<(), NoMemory>
    ensures { OnOk result
        (out.new.items
        ≡ out.old.items ++ lines.submission_words scenario.now submission.txn submission.place) }
{
    put_txn(out, scenario, submission.txn)?;
    put(out, b" ")?;
    put_place(out, submission.place)
}

fn put_older(
    out: &mut Vec<u8>,
    scenario: &Scenario,
    older: Submission,
    younger: Submission,
) -> Result<(), NoMemory>
    ensures { OnOk result
        (out.new.items
        ≡ out.old.items
        ++ lines.older_words scenario.now older.txn older.place younger.txn younger.place) }
{
    put(out, b"older ")?;
    put_submission(out, scenario, older)?;
    put(out, b" ")?;
    put_submission(out, scenario, younger)
}

/// Puts the line of two submissions, of which the first is of the older transaction.
pub(crate) fn put_older_line(
    out: &mut Vec<u8>,
    scenario: &Scenario,
    place: Place,
    older: Submission,
    younger: Submission,
) -> Result<(), NoMemory>
    ensures { OnOk result
        (out.new.items
        ≡ out.old.items
        ++ lines.why_line place
        (lines.older_words scenario.now older.txn older.place younger.txn younger.place)) }
{
    put_front(out, place)?;
    put_older(out, scenario, older, younger)?;
    put(out, b"\n")
}
