//! The printed form of policies.
ghost use Rattle.std.specs.Prelude.{◌≡◌, ◌≤◌, ◌↔◌, ◌++◌, List, ℕ, length, Ok, OnOk, IfOk, IsTrue, codes};
ghost use Rattle.std.specs.List.{flat_map, join_by};
ghost use Rattle.tp_policy_text.specs.Grammar.{IsWithin, Spells};
ghost use Rattle.tp_policy_text.specs.Parses.{Answers, depth_max, length_max};
ghost use Rattle.tp_policy_text.specs.Printed.{IsOfGrammar, action_text, atom_text, cond_text, in_parentheses, in_and, in_or, op_text, pattern_text, policy_text, rule_line, kind_and_text, value_text};

use itoa::Buffer;
use std::alloc::Global;
use tp_types::{Action, Cond, Name, NoMemory, Op, Pattern, Policy, Rule, Text, Value};

fn put(out: &mut Vec<u8>, piece: &[u8]) -> Result<(), NoMemory>
    ensures { OnOk result (out.new.items ≡ out.old.items ++ piece.now) }
{
    out.extend_from_slice(piece)?;
    Ok(())
}

fn put_op(out: &mut Vec<u8>, op: Op) -> Result<(), NoMemory>
    ensures { OnOk result (out.new.items ≡ out.old.items ++ op_text op) }
{
    match op {
        Op::Equal => put(out, b"="),
        Op::AtLeast => put(out, b">="),
        Op::AtMost => put(out, b"<="),
    }
}

fn put_value(out: &mut Vec<u8>, value: &Value) -> Result<(), NoMemory>
    ensures { OnOk result (out.new.items ≡ out.old.items ++ value_text value.now) }
{
    match value {
        Value::Number(number) => put(out, Buffer::new().format(*number).as_bytes()),
        Value::Word(word) => put(out, word.bytes()),
    }
}

/// Puts an atom, as a policy is printed.
pub fn put_atom(
    out: &mut Vec<u8>,
    issuer: &Name,
    attr: &Name,
    op: Op,
    wanted: &Value,
) -> Result<(), NoMemory>
    ensures { OnOk result
        (out.new.items ≡ out.old.items ++ atom_text issuer.now attr.now op wanted.now) }
{
    put(out, issuer.bytes())?;
    put(out, b".")?;
    put(out, attr.bytes())?;
    put(out, b" ")?;
    put_op(out, op)?;
    put(out, b" ")?;
    put_value(out, wanted)
}

#[cycle(printing)]
#[tactic(auto, using(crate::proofs::PrintLemmas::text_true, crate::proofs::PrintLemmas::text_atom, crate::proofs::PrintLemmas::text_and, crate::proofs::PrintLemmas::text_or))]
fn put_cond(out: &mut Vec<u8>, cond: &Cond) -> Result<(), NoMemory>
    ensures { OnOk result (out.new.items ≡ out.old.items ++ cond_text cond.now) }
{
    match cond {
        Cond::True => put(out, b"true"),
        Cond::Atom {
            issuer,
            attr,
            op,
            value,
        } => put_atom(out, issuer, attr, *op, value),
        Cond::And(members) => put_and(out, members.as_slice()),
        Cond::Or(members) => put_or(out, members.as_slice()),
    }
}

/// Puts a condition in parentheses.
#[cycle(printing)]
fn put_enclosed(out: &mut Vec<u8>, cond: &Cond) -> Result<(), NoMemory>
    ensures { OnOk result (out.new.items ≡ out.old.items ++ in_parentheses (cond_text cond.now)) }
{
    put(out, b"(")?;
    put_cond(out, cond)?;
    put(out, b")")
}

/// Puts a member of an And.
#[cycle(printing)]
#[tactic(auto, using(crate::proofs::PrintLemmas::and_true, crate::proofs::PrintLemmas::and_atom, crate::proofs::PrintLemmas::and_and, crate::proofs::PrintLemmas::and_or))]
fn put_in_and(out: &mut Vec<u8>, member: &Cond) -> Result<(), NoMemory>
    ensures { OnOk result (out.new.items ≡ out.old.items ++ in_and (kind_and_text member.now)) }
{
    match member {
        Cond::And(_) | Cond::Or(_) => put_enclosed(out, member),
        Cond::True | Cond::Atom { .. } => put_cond(out, member),
    }
}

/// Puts a member of an Or.
#[cycle(printing)]
#[tactic(auto, using(crate::proofs::PrintLemmas::or_true, crate::proofs::PrintLemmas::or_atom, crate::proofs::PrintLemmas::or_and, crate::proofs::PrintLemmas::or_or))]
fn put_in_or(out: &mut Vec<u8>, member: &Cond) -> Result<(), NoMemory>
    ensures { OnOk result (out.new.items ≡ out.old.items ++ in_or (kind_and_text member.now)) }
{
    match member {
        Cond::Or(_) => put_enclosed(out, member),
        Cond::True | Cond::Atom { .. } | Cond::And(_) => put_cond(out, member),
    }
}

#[cycle(printing)]
fn put_and(out: &mut Vec<u8>, members: &[Cond]) -> Result<(), NoMemory>
    ensures { OnOk result
        (out.new.items
        ≡ out.old.items ++ join_by (λ c. in_and (kind_and_text c)) (codes " and ") members.now) }
{
    let mut between: &[u8] = b"";
    for member in members {
        put(out, between)?;
        put_in_and(out, member)?;
        between = b" and ";
    }
    Ok(())
}

#[cycle(printing)]
fn put_or(out: &mut Vec<u8>, members: &[Cond]) -> Result<(), NoMemory>
    ensures { OnOk result
        (out.new.items
        ≡ out.old.items ++ join_by (λ c. in_or (kind_and_text c)) (codes " or ") members.now) }
{
    let mut between: &[u8] = b"";
    for member in members {
        put(out, between)?;
        put_in_or(out, member)?;
        between = b" or ";
    }
    Ok(())
}

fn put_action(out: &mut Vec<u8>, action: Option<Action>) -> Result<(), NoMemory>
    ensures { OnOk result (out.new.items ≡ out.old.items ++ action_text action) }
{
    match action {
        Some(Action::Read) => put(out, b"read"),
        Some(Action::Write) => put(out, b"write"),
        None => put(out, b"any"),
    }
}

fn put_pattern(out: &mut Vec<u8>, pattern: &Pattern) -> Result<(), NoMemory>
    ensures { OnOk result (out.new.items ≡ out.old.items ++ pattern_text pattern.now) }
{
    match pattern {
        Pattern::All => put(out, b"*"),
        Pattern::Exact(name) => put(out, name.bytes()),
        Pattern::Prefix(name) => {
            put(out, name.bytes())?;
            put(out, b"*")
        }
    }
}

fn put_rule(out: &mut Vec<u8>, rule: &Rule) -> Result<(), NoMemory>
    ensures { OnOk result (out.new.items ≡ out.old.items ++ rule_line rule.now) }
{
    put(out, b"allow ")?;
    put_action(out, rule.action)?;
    put(out, b" on ")?;
    put_pattern(out, &rule.pattern)?;
    put(out, b" if ")?;
    put_cond(out, &rule.cond)?;
    put(out, b";\n")
}

fn put_rules(out: &mut Vec<u8>, rules: &[Rule]) -> Result<(), NoMemory>
    ensures { OnOk result (out.new.items ≡ out.old.items ++ flat_map rule_line rules.now) }
{
    for rule in rules {
        put_rule(out, rule)?;
    }
    Ok(())
}

/// The policy's printed form: each rule on a line of its own, with parentheses only where a member would be read otherwise without.
pub fn print(alloc: Global, policy: &Policy) -> Result<Text, NoMemory>
    requires { IsOfGrammar policy.now }
    ensures printed { IfOk result (λ text. text.0 ≡ policy_text policy.now) }
    ensures spelled { IfOk result (λ text. Spells policy.now text.0) }
    ensures alone { IfOk result (λ text.
        (other : Policy) → Spells other text.0 → other ≡ policy.now) }
{
    let mut out = Vec::new(alloc);
    put_rules(&mut out, policy.rules.as_slice())?;
    Ok(Text(tp_types::List::from_vec(out)))
}

/// The printed form of a policy says it, also within the limits of a text where it is within them; a text says one policy at most;
/// and what a text says can be printed.
pub fn printed_is_exact()
    ensures spelled { (policy : Policy) → IsOfGrammar policy → Spells policy (policy_text policy) }
    ensures alone { (one other : Policy) (text : List ℕ) → Spells one text → Spells other text
        → one ≡ other }
    ensures within { (policy : Policy) → IsOfGrammar policy
        → length (policy_text policy) ≤ length_max
        → IsWithin depth_max (policy_text policy)
        → Answers (policy_text policy) (Ok policy) }
    ensures of_grammar { (policy : Policy) (text : List ℕ) → Spells policy text
        → IsOfGrammar policy }
{}
