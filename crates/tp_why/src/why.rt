//! Why an abort came: the lines below it.
ghost use Rattle.std.specs.Prelude.{◌≡◌, ◌++◌, map, OnOk};
ghost use Rattle.std.specs.List.{list_any};
ghost use Rattle.tp_model.specs.Causes.{submitted_at};
ghost use Rattle.tp_model.specs.Credentials.{holdings};
ghost use Rattle.tp_model.specs.Facts as history;
ghost use Rattle.tp_model.specs.Policies as policies;
ghost use Rattle.tp_why.specs.Lines as lines;
ghost use Rattle.tp_why.specs.Why as why;
ghost use Rattle.tp_why.specs.mirrors.Asking.{lent_asked};
ghost use Rattle.tp_why.specs.mirrors.Said.{said_by};

use crate::atoms::FalseAtom;
use crate::cut::refutation_of;
use crate::denial::{Asked, asked_of};
use crate::lines::{
    Submission, put_atom_line, put_held_lines, put_no_rule_line, put_older_line, put_query_line,
    put_range_line,
};
use crate::moment::{Moment, held_at, moment_at};
use crate::nearest::nearest;
use std::alloc::Global;
use tp_model::{item_of, matches, query_at};
use tp_types::{
    Cause, Credential, Decision, Denied, Died, Fact, NoMemory, OutOfRange, Place, Scenario,
    Transaction, TxnId, What,
};

/// An abort, below which lines stand: its place, its transaction, and the facts so far.
#[derive(Clone, Copy)]
pub struct Aborted<'a> {
    pub scenario: &'a Scenario,
    pub facts: &'a [Fact],
    pub place: Place,
    pub txn: TxnId,
}

fn put_atom_lines(
    out: &mut Vec<u8>,
    place: Place,
    moment: &Moment<'_>,
    declared: &Transaction,
    atoms: &[FalseAtom],
) -> Result<(), NoMemory>
    ensures { OnOk result (out.new.items
        ≡ out.old.items ++ lines.why_text place
        (map (why.atom_words moment.now.scenario.now moment.now.place moment.now.facts.now
        declared.now) atoms.now)) }
{
    for entry in atoms {
        let found = nearest(moment, declared, &entry.atom);
        put_atom_line(out, moment.scenario, place, entry, found)?;
    }
    Ok(())
}

fn is_about_some(asked: &Asked<'_>) -> bool
    ensures { result ≡ list_any (policies.matches asked.now.action asked.now.item.now)
        asked.now.policy.now.rules }
{
    asked
        .policy
        .rules
        .iter()
        .any(|rule| matches(asked.action, asked.item, rule))
}

fn put_rules(
    alloc: Global,
    out: &mut Vec<u8>,
    place: Place,
    moment: &Moment<'_>,
    declared: &Transaction,
    asked: &Asked<'_>,
    held: &[&Credential],
) -> Result<(), NoMemory>
    requires { said_by held.now ≡ holdings moment.now.scenario.now moment.now.place
        moment.now.facts.now declared.now }
    ensures { OnOk result (out.new.items
        ≡ out.old.items ++ lines.why_text place
        (why.rule_lines moment.now.scenario.now moment.now.place moment.now.facts.now
        declared.now (lent_asked asked.now))) }
{
    if !is_about_some(asked) {
        return put_no_rule_line(out, place);
    }
    let found = refutation_of(alloc, asked.policy, asked.action, asked.item, held)?;
    put_atom_lines(out, place, moment, declared, found.as_slice())
}

fn put_at(
    alloc: Global,
    out: &mut Vec<u8>,
    place: Place,
    moment: &Moment<'_>,
    declared: &Transaction,
    asked: &Asked<'_>,
) -> Result<(), NoMemory>
    ensures { OnOk result (out.new.items
        ≡ out.old.items ++ lines.why_text place
        (why.asked_lines moment.now.scenario.now moment.now.place moment.now.facts.now
        declared.now (lent_asked asked.now))) }
{
    put_query_line(out, place, asked, moment.clock)?;
    let held = held_at(alloc, moment, declared)?;
    put_held_lines(out, place, held.as_slice())?;
    put_rules(alloc, out, place, moment, declared, asked, held.as_slice())
}

fn put_denial(
    alloc: Global,
    out: &mut Vec<u8>,
    abort: &Aborted<'_>,
    declared: &Transaction,
    denied: &Denied,
) -> Result<(), NoMemory>
    ensures { OnOk result (out.new.items
        ≡ out.old.items ++ lines.why_text abort.now.place
        (why.denial_lines abort.now.scenario.now abort.now.facts.now denied.now declared.now)) }
{
    match asked_of(abort.scenario, declared, denied) {
        None => Ok(()),
        Some(asked) => {
            let moment = moment_at(alloc, abort.scenario, abort.facts, denied.place)?;
            put_at(alloc, out, abort.place, &moment, declared, &asked)
        }
    }
}

fn put_denied(
    alloc: Global,
    out: &mut Vec<u8>,
    abort: &Aborted<'_>,
    denied: &Denied,
) -> Result<(), NoMemory>
    ensures { OnOk result (out.new.items
        ≡ out.old.items ++ lines.why_text abort.now.place
        (why.cause_lines abort.now.scenario.now abort.now.facts.now abort.now.txn
        (Cause.Denied denied.now))) }
{
    match abort.scenario.txns.get(abort.txn.0 as usize) {
        None => Ok(()),
        Some(declared) => put_denial(alloc, out, abort, declared, denied),
    }
}

fn put_range(
    out: &mut Vec<u8>,
    abort: &Aborted<'_>,
    refused: &OutOfRange,
    declared: &Transaction,
) -> Result<(), NoMemory>
    ensures { OnOk result (out.new.items
        ≡ out.old.items ++ lines.why_text abort.now.place
        (why.range_lines abort.now.scenario.now refused.now declared.now)) }
{
    let Some(query) = query_at(declared, refused.query) else {
        return Ok(());
    };
    match abort.scenario.items.get(item_of(query).0 as usize) {
        None => Ok(()),
        Some(item) => put_range_line(out, abort.place, item),
    }
}

fn put_no(out: &mut Vec<u8>, abort: &Aborted<'_>, refused: &OutOfRange) -> Result<(), NoMemory>
    ensures { OnOk result (out.new.items
        ≡ out.old.items ++ lines.why_text abort.now.place
        (why.cause_lines abort.now.scenario.now abort.now.facts.now abort.now.txn
        (Cause.No refused.now))) }
{
    match abort.scenario.txns.get(abort.txn.0 as usize) {
        None => Ok(()),
        Some(declared) => put_range(out, abort, refused, declared),
    }
}

fn is_submission(txn: TxnId, fact: &Fact) -> bool
    ensures { result ≡ history.is_submission txn fact.now }
{
    match &fact.what {
        What::Submitted(other) => *other == txn,
        _ => false,
    }
}

fn submitted_in(txn: TxnId, facts: &[Fact]) -> Option<Place>
    ensures { result ≡ submitted_at txn facts.now }
{
    facts
        .iter()
        .find(|fact| is_submission(txn, fact))
        .map(|fact| fact.place)
}

fn submission_of(txn: TxnId, facts: &[Fact]) -> Submission
    ensures txn { result.txn ≡ txn }
    ensures place { result.place ≡ submitted_at txn facts.now }
{
    Submission {
        txn,
        place: submitted_in(txn, facts),
    }
}

fn put_died(out: &mut Vec<u8>, abort: &Aborted<'_>, died: &Died) -> Result<(), NoMemory>
    ensures { OnOk result (out.new.items
        ≡ out.old.items ++ lines.why_text abort.now.place
        (why.cause_lines abort.now.scenario.now abort.now.facts.now abort.now.txn
        (Cause.Died died.now))) }
{
    let older = submission_of(died.other, abort.facts);
    let younger = submission_of(abort.txn, abort.facts);
    put_older_line(out, abort.scenario, abort.place, older, younger)
}

fn put_cause(
    alloc: Global,
    out: &mut Vec<u8>,
    abort: &Aborted<'_>,
    cause: &Cause,
) -> Result<(), NoMemory>
    ensures { OnOk result (out.new.items
        ≡ out.old.items ++ lines.why_text abort.now.place
        (why.cause_lines abort.now.scenario.now abort.now.facts.now abort.now.txn cause.now)) }
{
    match cause {
        Cause::Denied(denied) => put_denied(alloc, out, abort, denied),
        Cause::No(refused) => put_no(out, abort, refused),
        Cause::Died(died) => put_died(out, abort, died),
        _ => Ok(()),
    }
}

/// Puts the lines below a fact that say why a transaction aborted: of a denial what refutes the policy, of a value the
/// range of its item, of a death the two submissions. Of other facts there are none. `facts` are all up to the fact.
pub fn put_why_lines(
    alloc: Global,
    out: &mut Vec<u8>,
    scenario: &Scenario,
    facts: &[Fact],
    fact: &Fact,
) -> Result<(), NoMemory>
    ensures { OnOk result (out.new.items
        ≡ out.old.items ++ lines.why_text fact.now.place
        (why.why_lines scenario.now facts.now fact.now)) }
{
    match &fact.what {
        What::Decided(txn, Decision::Abort(cause)) => {
            let abort = Aborted {
                scenario,
                facts,
                place: fact.place,
                txn: *txn,
            };
            put_cause(alloc, out, &abort, cause)
        }
        _ => Ok(()),
    }
}
