//! The atoms that refute a policy: of each rule that is about the action on the item, atoms that are false and enough
//! for its condition to be false.
ghost use Rattle.std.specs.Prelude.{◌≡◌, ◌++◌, map, true, false, not, IfOk};
ghost use Rattle.std.specs.List.{list_all};
ghost use Rattle.std.specs.Option.{is_some};
ghost use Rattle.tp_model.specs.Policies.{allows};
ghost use Rattle.tp_policy_text.specs.Printed.{IsOfGrammar};
ghost use Rattle.tp_why.specs.Refutation as refutation;
ghost use Rattle.tp_why.specs.mirrors.Said.{said_by};

use crate::atoms::{FalseAtom, atom_of, is_met};
use std::alloc::Global;
use tp_model::matches;
use tp_types::{Action, Cond, Credential, List, Name, NoMemory, Op, Policy, Rule, Value};

/// A rule by its number, and the credentials that count.
#[derive(Clone, Copy)]
struct Judged<'a, 'b> {
    number: usize,
    held: &'a [&'b Credential],
}

fn cut_atom(
    alloc: Global,
    judged: &Judged<'_, '_>,
    issuer: &Name,
    attr: &Name,
    op: Op,
    wanted: &Value,
    found: &mut List<FalseAtom>,
) -> Result<bool, NoMemory>
    ensures truth { IfOk result (λ is_false. is_false
        ≡ is_some (refutation.cut_atom (said_by judged.now.held.now)
        (record { issuer = issuer.now; attr = attr.now; op = op; wanted = wanted.now }))) }
    ensures added { IfOk result (λ _. found.new
        ≡ found.old ++ refutation.under judged.now.number
        (refutation.cut_atom (said_by judged.now.held.now)
        (record { issuer = issuer.now; attr = attr.now; op = op; wanted = wanted.now }))) }
{
    if is_met(judged.held, issuer, attr, op, wanted) {
        return Ok(false);
    }
    let atom = atom_of(alloc, issuer, attr, op, wanted)?;
    found.push(FalseAtom {
        rule: judged.number,
        atom,
    })?;
    Ok(true)
}

/// Whether the condition is false of what is held. Where it is, atoms are added that are false and enough for that;
/// where it is not, the list stays.
#[cycle(cutting)]
#[tactic(auto, using(crate::proofs::CutLemmas::cut_of_atom, crate::proofs::CutLemmas::cut_of_and, crate::proofs::CutLemmas::cut_of_or))]
fn cut(
    alloc: Global,
    judged: &Judged<'_, '_>,
    cond: &Cond,
    found: &mut List<FalseAtom>,
) -> Result<bool, NoMemory>
    ensures truth { IfOk result (λ is_false. is_false
        ≡ is_some (refutation.cut (said_by judged.now.held.now) cond.now)) }
    ensures added { IfOk result (λ _. found.new
        ≡ found.old ++ refutation.under judged.now.number
        (refutation.cut (said_by judged.now.held.now) cond.now)) }
{
    match cond {
        Cond::True => Ok(false),
        Cond::Atom {
            issuer,
            attr,
            op,
            value,
        } => cut_atom(alloc, judged, issuer, attr, *op, value, found),
        Cond::And(members) => cut_first(alloc, judged, members.as_slice(), found),
        Cond::Or(members) => cut_all(alloc, judged, members.as_slice(), found),
    }
}

/// Cuts the first member that is false.
#[cycle(cutting)]
fn cut_first(
    alloc: Global,
    judged: &Judged<'_, '_>,
    members: &[Cond],
    found: &mut List<FalseAtom>,
) -> Result<bool, NoMemory>
    ensures truth { IfOk result (λ is_false. is_false
        ≡ is_some (refutation.first_cut
        (map (refutation.cut (said_by judged.now.held.now)) members.now))) }
    ensures added { IfOk result (λ _. found.new
        ≡ found.old ++ refutation.under judged.now.number
        (refutation.first_cut
        (map (refutation.cut (said_by judged.now.held.now)) members.now))) }
{
    for member in members {
        if cut(alloc, judged, member, found)? {
            return Ok(true);
        }
    }
    Ok(false)
}

/// Cuts all members, where each is false.
#[cycle(cutting)]
fn cut_all(
    alloc: Global,
    judged: &Judged<'_, '_>,
    members: &[Cond],
    found: &mut List<FalseAtom>,
) -> Result<bool, NoMemory>
    ensures truth { IfOk result (λ is_false. is_false
        ≡ is_some (refutation.all_cuts
        (map (refutation.cut (said_by judged.now.held.now)) members.now))) }
    ensures added { IfOk result (λ _. found.new
        ≡ found.old ++ refutation.under judged.now.number
        (refutation.all_cuts
        (map (refutation.cut (said_by judged.now.held.now)) members.now))) }
{
    let before = found.len();
    for member in members {
        if !cut(alloc, judged, member, found)? {
            found.truncate(before);
            return Ok(false);
        }
    }
    Ok(true)
}

/// Adds the atoms of one rule, if it is about the action on the item.
fn cut_rule(
    alloc: Global,
    action: Action,
    item: &Name,
    judged: &Judged<'_, '_>,
    rule: &Rule,
    found: &mut List<FalseAtom>,
) -> Result<(), NoMemory>
    ensures { IfOk result (λ _. found.new
        ≡ found.old ++ refutation.rule_atoms action item.now (said_by judged.now.held.now)
        judged.now.number rule.now) }
{
    if !matches(action, item, rule) {
        return Ok(());
    }
    let _is_false = cut(alloc, judged, &rule.cond, found)?;
    Ok(())
}

/// The atoms that refute a policy, on the credentials that count: of each rule that is about the action on the item
/// those of its cut, in the order of the rules. Where the policy allows the action, some rule has none.
pub fn refutation_of(
    alloc: Global,
    policy: &Policy,
    action: Action,
    item: &Name,
    held: &[&Credential],
) -> Result<List<FalseAtom>, NoMemory>
    ensures exact { IfOk result (λ found.
        found ≡ refutation.refutation policy.now action item.now (said_by held.now)) }
    ensures all_false { IfOk result (λ found.
        list_all (refutation.is_false_entry (said_by held.now)) found ≡ true) }
    ensures complete { allows policy.now action item.now (said_by held.now) ≡ false
        → IfOk result (λ found.
        refutation.is_refuted policy.now action item.now (said_by held.now) found ≡ true) }
    ensures told { IsOfGrammar policy.now
        → allows policy.now action item.now (said_by held.now) ≡ false
        → IfOk result (λ found. refutation.is_told policy.now action item.now found ≡ true) }
{
    let mut found = List::new(alloc);
    for (before, rule) in policy.rules.as_slice().iter().enumerate() {
        let judged = Judged {
            number: before + 1,
            held,
        };
        cut_rule(alloc, action, item, &judged, rule, &mut found)?;
    }
    Ok(found)
}
