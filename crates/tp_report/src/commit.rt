//! What commits rest on: the proofs by instance, and the deeds.
ghost use Rattle.std.specs.Prelude.{◌≡◌, ◌++◌, OnOk, map};
ghost use Rattle.std.specs.List.{flat_map};
ghost use Rattle.tp_report.specs.ReportText.{action_word, commit_line, commit_tokens, deed_front, deed_line, deed_tokens, earlier_use, instance_front, instance_line, instance_tokens, instances_tokens, proof_front, proof_line, proof_tokens, reading_word, rule_word, uses_tokens};
ghost use Rattle.tp_report.specs.Tokens.{text_of};

use crate::piece::{put, put_byte, put_cred, put_item, put_number, put_policy, put_query, put_txn};
use tp_types::{
    Action, CommitRecord, CredId, Deed, Instance, List, NoMemory, Place, Scenario, TxnId, Verdict,
};

#[tactic(auto, using(crate::proofs::TokenLemmas::text_append))]
pub(crate) fn put_commit(
    out: &mut Vec<u8>,
    scenario: &Scenario,
    txn: TxnId,
    held: &CommitRecord,
) -> Result<(), NoMemory>
    ensures { OnOk result
        (out.new.items ≡ out.old.items ++ text_of (commit_tokens scenario.now txn held.now)) }
{
    put_commit_line(out, scenario, txn, held)?;
    put_instances(out, scenario, &held.instances)?;
    put_deeds(out, scenario, &held.deeds)
}

/// Puts the line of a commit, without what stands below it.
pub(crate) fn put_commit_line(
    out: &mut Vec<u8>,
    scenario: &Scenario,
    txn: TxnId,
    held: &CommitRecord,
) -> Result<(), NoMemory>
    ensures { OnOk result
        (out.new.items ≡ out.old.items ++ text_of (commit_line scenario.now txn held.now)) }
{
    put(out, b"commit ")?;
    put_txn(out, scenario, txn)?;
    put(out, b" rounds ")?;
    put_number(out, held.rounds)?;
    put_byte(out, b'\n')
}

#[tactic(auto, using(crate::proofs::TokenLemmas::text_append))]
fn put_instances(
    out: &mut Vec<u8>,
    scenario: &Scenario,
    instances: &List<Instance>,
) -> Result<(), NoMemory>
    ensures { OnOk result
        (out.new.items
        ≡ out.old.items ++ text_of (instances_tokens scenario.now 1 instances.now)) }
{
    for (before, instance) in instances.as_slice().iter().enumerate() {
        put_instance(out, scenario, before + 1, instance)?;
    }
    Ok(())
}

#[tactic(auto, unfolding(crate::specs::ReportText::instance_tokens), using(crate::proofs::TokenLemmas::text_append))]
fn put_instance(
    out: &mut Vec<u8>,
    scenario: &Scenario,
    number: usize,
    instance: &Instance,
) -> Result<(), NoMemory>
    ensures { OnOk result
        (out.new.items
        ≡ out.old.items ++ text_of (instance_tokens scenario.now number instance.now)) }
{
    put(out, b"  ")?;
    put_instance_line(out, number, instance.reading)?;
    put_proofs(out, scenario, &instance.proofs)
}

/// Puts the line of an instance, by its number from 1.
#[tactic(auto, unfolding(crate::specs::ReportText::instance_line), using(crate::proofs::TokenLemmas::text_append))]
pub fn put_instance_line(
    out: &mut Vec<u8>,
    number: usize,
    reading: Option<Place>,
) -> Result<(), NoMemory>
    ensures { OnOk result
        (out.new.items ≡ out.old.items ++ text_of (instance_line number reading)) }
{
    put_instance_front(out, number)?;
    put(out, b"reading ")?;
    put_reading(out, reading)?;
    put_byte(out, b'\n')
}

fn put_instance_front(out: &mut Vec<u8>, number: usize) -> Result<(), NoMemory>
    ensures { OnOk result (out.new.items ≡ out.old.items ++ text_of (instance_front number)) }
{
    put(out, b"instance ")?;
    put_number(out, number)?;
    put_byte(out, b' ')
}

fn put_reading(out: &mut Vec<u8>, reading: Option<Place>) -> Result<(), NoMemory>
    ensures { OnOk result (out.new.items ≡ out.old.items ++ reading_word reading) }
{
    match reading {
        None => put(out, b"none"),
        Some(place) => put_number(out, place),
    }
}

#[tactic(auto, using(crate::proofs::TokenLemmas::text_append))]
fn put_proofs(
    out: &mut Vec<u8>,
    scenario: &Scenario,
    proofs: &List<Verdict>,
) -> Result<(), NoMemory>
    ensures { OnOk result
        (out.new.items
        ≡ out.old.items ++ text_of (flat_map (proof_tokens scenario.now) proofs.now)) }
{
    for proof in proofs.as_slice() {
        put_proof(out, scenario, proof)?;
    }
    Ok(())
}

#[tactic(auto, unfolding(crate::specs::ReportText::proof_tokens))]
fn put_proof(out: &mut Vec<u8>, scenario: &Scenario, proof: &Verdict) -> Result<(), NoMemory>
    ensures { OnOk result
        (out.new.items ≡ out.old.items ++ text_of (proof_tokens scenario.now proof.now)) }
{
    put(out, b"  ")?;
    put_proof_line(out, scenario, proof)
}

/// Puts the line of a proof.
#[tactic(auto, unfolding(crate::specs::ReportText::proof_line), using(crate::proofs::TokenLemmas::text_append))]
pub fn put_proof_line(
    out: &mut Vec<u8>,
    scenario: &Scenario,
    proof: &Verdict,
) -> Result<(), NoMemory>
    ensures { OnOk result
        (out.new.items ≡ out.old.items ++ text_of (proof_line scenario.now proof.now)) }
{
    put_proof_front(out, scenario, proof)?;
    put(out, b"rule ")?;
    put_rule(out, proof.rule)?;
    put(out, b" uses ")?;
    put_uses(out, scenario, &proof.uses)
}

#[tactic(auto, unfolding(crate::specs::ReportText::proof_front))]
fn put_proof_front(out: &mut Vec<u8>, scenario: &Scenario, proof: &Verdict) -> Result<(), NoMemory>
    ensures { OnOk result
        (out.new.items ≡ out.old.items ++ text_of (proof_front scenario.now proof.now)) }
{
    put(out, b"proof ")?;
    put_query(out, scenario, proof.query, proof.server)?;
    put_policy(out, scenario, proof.admin, proof.version)?;
    put(out, b"at ")?;
    put_number(out, proof.place)?;
    put_byte(out, b' ')
}

/// Puts the rule of a proof. A false proof has none; no commit rests on one.
fn put_rule(out: &mut Vec<u8>, rule: Option<u32>) -> Result<(), NoMemory>
    ensures { OnOk result (out.new.items ≡ out.old.items ++ rule_word rule) }
{
    match rule {
        None => put(out, b"none"),
        Some(number) => put_number(out, number),
    }
}

/// Puts the credentials that a proof uses, up to the end of the line.
fn put_uses(out: &mut Vec<u8>, scenario: &Scenario, uses: &List<CredId>) -> Result<(), NoMemory>
    ensures { OnOk result
        (out.new.items ≡ out.old.items ++ text_of (uses_tokens scenario.now uses.now)) }
{
    match uses.as_slice().split_last() {
        None => put(out, b"none\n"),
        Some((last, others)) => {
            put_creds(out, scenario, others)?;
            put_cred(out, scenario, *last)?;
            put_byte(out, b'\n')
        }
    }
}

/// Puts credentials, each with a space behind it.
#[tactic(auto, using(crate::proofs::TokenLemmas::text_append))]
fn put_creds(out: &mut Vec<u8>, scenario: &Scenario, uses: &[CredId]) -> Result<(), NoMemory>
    ensures { OnOk result
        (out.new.items ≡ out.old.items ++ text_of (map (earlier_use scenario.now) uses.now)) }
{
    for cred in uses {
        put_cred(out, scenario, *cred)?;
        put_byte(out, b' ')?;
    }
    Ok(())
}

#[tactic(auto, using(crate::proofs::TokenLemmas::text_append))]
fn put_deeds(out: &mut Vec<u8>, scenario: &Scenario, deeds: &List<Deed>) -> Result<(), NoMemory>
    ensures { OnOk result
        (out.new.items
        ≡ out.old.items ++ text_of (flat_map (deed_tokens scenario.now) deeds.now)) }
{
    for deed in deeds.as_slice() {
        put_deed(out, scenario, deed)?;
    }
    Ok(())
}

fn put_deed(out: &mut Vec<u8>, scenario: &Scenario, deed: &Deed) -> Result<(), NoMemory>
    ensures { OnOk result
        (out.new.items ≡ out.old.items ++ text_of (deed_tokens scenario.now deed.now)) }
{
    put(out, b"  ")?;
    put_deed_line(out, scenario, deed)
}

/// Puts the line of what a query did.
pub fn put_deed_line(out: &mut Vec<u8>, scenario: &Scenario, deed: &Deed) -> Result<(), NoMemory>
    ensures { OnOk result
        (out.new.items ≡ out.old.items ++ text_of (deed_line scenario.now deed.now)) }
{
    put_deed_front(out, deed)?;
    put_item(out, scenario, deed.item)?;
    put_byte(out, b' ')?;
    put_number(out, deed.value)?;
    put_byte(out, b'\n')
}

fn put_deed_front(out: &mut Vec<u8>, deed: &Deed) -> Result<(), NoMemory>
    ensures { OnOk result (out.new.items ≡ out.old.items ++ text_of (deed_front deed.now)) }
{
    put_action(out, deed.action)?;
    put(out, b" q")?;
    put_number(out, deed.query)?;
    put_byte(out, b' ')
}

fn put_action(out: &mut Vec<u8>, action: Action) -> Result<(), NoMemory>
    ensures { OnOk result (out.new.items ≡ out.old.items ++ action_word action) }
{
    match action {
        Action::Read => put(out, b"read"),
        Action::Write => put(out, b"write"),
    }
}
