//! The credentials that make a condition true.
ghost use Rattle.std.specs.Prelude.{◌≡◌, map, option_map, IfOk};
ghost use Rattle.std.specs.List.{find};
ghost use Rattle.std.specs.Option.{is_some};
ghost use Rattle.tp_model.specs.Policies.{meets};
ghost use Rattle.tp_eval.specs.mirrors.Gathered as mirror;
ghost use Rattle.tp_eval.specs.mirrors.Gathered.{gathered, takes};
ghost use Rattle.tp_eval.specs.Uses as evaluation;

use crate::evidence::Evidence;
use crate::said::is_said;
use tp_cred::is_among;
use tp_types::{Cond, CredId, List, Name, NoMemory, Op, Value};

fn add_once(uses: &mut List<CredId>, cred: CredId) -> Result<(), NoMemory>
    ensures { IfOk result (λ _. uses.new ≡ evaluation.with_cred uses.old cred) }
{
    if !is_among(uses.as_slice(), cred) {
        uses.push(cred)?;
    }
    Ok(())
}

/// The first of these that says what an atom asks.
fn first_said(
    held: &Evidence<'_, '_>,
    kept: &[CredId],
    issuer: &Name,
    attr: &Name,
    op: Op,
    wanted: &Value,
) -> Option<CredId>
    ensures { result ≡ find
        (mirror.says held.now (meets issuer.now attr.now op wanted.now)) kept.now }
{
    kept.iter().copied().find(|cred| is_said(
        held.creds,
        held.subject,
        *cred,
        issuer,
        attr,
        op,
        wanted,
    ))
}

fn first_shown(
    held: &Evidence<'_, '_>,
    issuer: &Name,
    attr: &Name,
    op: Op,
    wanted: &Value,
) -> Option<CredId>
    ensures { result ≡ find
        (mirror.shows held.now (meets issuer.now attr.now op wanted.now)) held.now.presented.now }
{
    let kept = held.said.list_for(issuer, attr);
    first_said(held, kept, issuer, attr, op, wanted)
}

fn gather_atom(
    held: &Evidence<'_, '_>,
    issuer: &Name,
    attr: &Name,
    op: Op,
    wanted: &Value,
    uses: &mut List<CredId>,
) -> Result<bool, NoMemory>
    ensures truth { IfOk result (λ found.
        found ≡ is_some
        (find
        (mirror.shows held.now (meets issuer.now attr.now op wanted.now)) held.now.presented.now)) }
    ensures added { IfOk result (λ _.
        uses.new ≡ gathered uses.old
        (option_map evaluation.only
        (find (mirror.shows held.now (meets issuer.now attr.now op wanted.now))
        held.now.presented.now))) }
{
    match first_shown(held, issuer, attr, op, wanted) {
        None => Ok(false),
        Some(cred) => {
            add_once(uses, cred)?;
            Ok(true)
        }
    }
}

/// Whether the condition is true of what is held. Where it is, the credentials that make it so are added, each once; where
/// it is not, the list stays.
#[cycle(evaluation)]
#[tactic(auto, using(crate::proofs::UsesLemmas::taken_atom, crate::proofs::UsesLemmas::taken_and, crate::proofs::UsesLemmas::taken_or))]
pub fn gather(
    held: &Evidence<'_, '_>,
    cond: &Cond,
    uses: &mut List<CredId>,
) -> Result<bool, NoMemory>
    ensures truth { IfOk result (λ found. found ≡ is_some (takes held.now cond.now)) }
    ensures added { IfOk result (λ _. uses.new ≡ gathered uses.old (takes held.now cond.now)) }
{
    match cond {
        Cond::True => Ok(true),
        Cond::Atom {
            issuer,
            attr,
            op,
            value,
        } => gather_atom(held, issuer, attr, *op, value, uses),
        Cond::And(members) => gather_all(held, members.as_slice(), uses),
        Cond::Or(members) => gather_first(held, members.as_slice(), uses),
    }
}

#[cycle(evaluation)]
fn gather_all(
    held: &Evidence<'_, '_>,
    members: &[Cond],
    uses: &mut List<CredId>,
) -> Result<bool, NoMemory>
    ensures truth { IfOk result (λ found.
        found ≡ is_some (evaluation.uses_of_all (map (takes held.now) members.now))) }
    ensures added { IfOk result (λ _.
        uses.new ≡ gathered uses.old
        (evaluation.uses_of_all (map (takes held.now) members.now))) }
{
    let before = uses.len();
    for member in members {
        if !gather(held, member, uses)? {
            uses.truncate(before);
            return Ok(false);
        }
    }
    Ok(true)
}

#[cycle(evaluation)]
fn gather_first(
    held: &Evidence<'_, '_>,
    members: &[Cond],
    uses: &mut List<CredId>,
) -> Result<bool, NoMemory>
    ensures truth { IfOk result (λ found.
        found ≡ is_some (evaluation.uses_of_first (map (takes held.now) members.now))) }
    ensures added { IfOk result (λ _.
        uses.new ≡ gathered uses.old
        (evaluation.uses_of_first (map (takes held.now) members.now))) }
{
    for member in members {
        if gather(held, member, uses)? {
            return Ok(true);
        }
    }
    Ok(false)
}
