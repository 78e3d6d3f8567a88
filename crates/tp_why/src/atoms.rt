//! Atoms of conditions, which refute a rule where they are false.
ghost use Rattle.std.specs.Prelude.{◌≡◌, IfOk};
ghost use Rattle.std.specs.List.{list_any};
ghost use Rattle.tp_model.specs.Policies.{meets, same_value};
ghost use Rattle.tp_why.specs.Refutation.{same_atom, same_op};
ghost use Rattle.tp_why.specs.mirrors.Said.{said_by};

use std::alloc::Global;
use tp_model::meets;
use tp_types::{Credential, Name, NoMemory, Op, TryClone, Value, both};

/// An atom of a condition: an attribute of which an issuer says a value that compares so with the wanted one.
#[derive(Drop)]
pub struct Atom {
    pub issuer: Name,
    pub attr: Name,
    pub op: Op,
    pub wanted: Value,
}

/// An atom of a rule's condition that is false.
#[derive(Drop)]
pub struct FalseAtom {
    /// The number of the rule in its policy, counted from 1.
    pub rule: usize,
    pub atom: Atom,
}

/// An atom with names and a value of its own.
pub(crate) fn atom_of(
    alloc: Global,
    issuer: &Name,
    attr: &Name,
    op: Op,
    wanted: &Value,
) -> Result<Atom, NoMemory>
    ensures { IfOk result (λ made.
        made ≡ record { issuer = issuer.now; attr = attr.now; op = op; wanted = wanted.now }) }
{
    let names = both(issuer.try_clone(alloc), attr.try_clone(alloc));
    let ((issuer, attr), wanted) = both(names, wanted.try_clone(alloc))?;
    Ok(Atom {
        issuer,
        attr,
        op,
        wanted,
    })
}

/// Whether what one of the credentials says meets an atom.
pub(crate) fn is_met(
    held: &[&Credential],
    issuer: &Name,
    attr: &Name,
    op: Op,
    wanted: &Value,
) -> bool
    ensures { result ≡ list_any (meets issuer.now attr.now op wanted.now) (said_by held.now) }
{
    held.iter()
        .any(|credential| meets(credential, issuer, attr, op, wanted))
}

fn is_same_op(one: Op, other: Op) -> bool
    ensures { result ≡ same_op one other }
{
    match (one, other) {
        (Op::Equal, Op::Equal) => true,
        (Op::AtLeast, Op::AtLeast) => true,
        (Op::AtMost, Op::AtMost) => true,
        _ => false,
    }
}

fn is_number(value: &Value, number: i64) -> bool
    ensures { result ≡ same_value (Value.Number number) value.now }
{
    match value {
        Value::Number(other) => number == *other,
        Value::Word(_) => false,
    }
}

fn is_word(value: &Value, word: &Name) -> bool
    ensures { result ≡ same_value (Value.Word word.now) value.now }
{
    match value {
        Value::Number(_) => false,
        Value::Word(other) => word == other,
    }
}

fn is_same_value(one: &Value, other: &Value) -> bool
    ensures { result ≡ same_value one.now other.now }
{
    match one {
        Value::Number(number) => is_number(other, *number),
        Value::Word(word) => is_word(other, word),
    }
}

/// Whether the atom says just this.
pub(crate) fn is_same(atom: &Atom, issuer: &Name, attr: &Name, op: Op, wanted: &Value) -> bool
    ensures { result ≡ same_atom atom.now
        (record { issuer = issuer.now; attr = attr.now; op = op; wanted = wanted.now }) }
{
    atom.issuer == *issuer
        && atom.attr == *attr
        && is_same_op(atom.op, op)
        && is_same_value(&atom.wanted, wanted)
}
