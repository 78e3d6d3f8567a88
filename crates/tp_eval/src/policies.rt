//! The evaluation of a policy.
ghost use Rattle.std.specs.Prelude.{◌≡◌, ◌<◌, ◌^◌, [], filter, length, option_map, true, IfOk, IfSome};
ghost use Rattle.std.specs.List.{list_all, IsDistinct};
ghost use Rattle.std.specs.Option.{is_some};
ghost use Rattle.tp_model.specs.Ids.{same_cred};
ghost use Rattle.tp_model.specs.Policies as policies;
ghost use Rattle.tp_model.specs.Credentials.{is_among, is_valid_in};
ghost use Rattle.tp_eval.specs.mirrors.Said.{IsIndexOf};
ghost use Rattle.tp_cred.specs.Certificates.{is_checked};
ghost use Rattle.tp_cred.specs.mirrors.HeldBy.{held_by, holder_in};
ghost use Rattle.tp_eval.specs.mirrors.Gathered as gathered;
ghost use Rattle.tp_eval.specs.Uses as evaluation;

use crate::evidence::Evidence;
use crate::gather::gather;
use crate::said::{Said, said_by};
use std::alloc::Global;
use tp_cred::Presented;
use tp_model::matches;
use tp_types::{Action, CredId, List, Name, NoMemory, Policy, Rule};

/// What shows that a policy allows an action: one of its rules, and the credentials that make its condition true.
#[derive(Drop)]
pub struct Certificate {
    /// The number of the rule in the policy, counted from 1.
    pub rule: u32,
    /// The credentials that make its condition true, each at its first use.
    pub uses: List<CredId>,
}

fn gather_rule(
    held: &Evidence<'_, '_>,
    action: Action,
    item: &Name,
    rule: &Rule,
    uses: &mut List<CredId>,
) -> Result<bool, NoMemory>
    ensures truth { IfOk result (λ found.
        found ≡ is_some (gathered.takes_by_rule held.now action item.now rule.now)) }
    ensures added { IfOk result (λ _.
        uses.new ≡ gathered.gathered uses.old
        (gathered.takes_by_rule held.now action item.now rule.now)) }
{
    if !matches(action, item, rule) {
        return Ok(false);
    }
    gather(held, &rule.cond, uses)
}

fn first_rule(
    held: &Evidence<'_, '_>,
    action: Action,
    item: &Name,
    rules: &[Rule],
    uses: &mut List<CredId>,
) -> Result<Option<u32>, NoMemory>
    requires empty { uses.old ≡ [] }
    requires few { length rules.now < 2 ^ 32 }
    ensures number { IfOk result (λ found.
        found ≡ option_map evaluation.rule_number
        (evaluation.first_certificate
        (gathered.takes_by_rule held.now action item.now) 1 rules.now)) }
    ensures uses { IfOk result (λ _.
        uses.new ≡ evaluation.uses_in
        (evaluation.first_certificate
        (gathered.takes_by_rule held.now action item.now) 1 rules.now)) }
{
    for (before, rule) in rules.iter().enumerate() {
        if gather_rule(held, action, item, rule, uses)? {
            return Ok(Some(before as u32 + 1));
        }
    }
    Ok(None)
}

/// Evaluates a policy for an action on an item, on evidence that was found before.
pub fn certify(
    alloc: Global,
    held: &Evidence<'_, '_>,
    policy: &Policy,
    action: Action,
    item: &Name,
) -> Result<Option<Certificate>, NoMemory>
    requires { length policy.now.rules < 2 ^ 32 }
    ensures { IfOk result (λ found.
        found ≡ evaluation.certificate policy.now action item.now (gathered.holder_in held.now)
        held.now.presented.now) }
{
    let mut uses = List::new(alloc);
    let found = first_rule(held, action, item, policy.rules.as_slice(), &mut uses)?;
    match found {
        None => Ok(None),
        Some(rule) => Ok(Some(Certificate { rule, uses })),
    }
}

/// Evaluates a policy on the credentials that a subject presents, once it was found what those say that are valid.
fn certify_presented(
    alloc: Global,
    held: &Presented<'_>,
    said: &Said<'_>,
    policy: &Policy,
    action: Action,
    item: &Name,
) -> Result<Option<Certificate>, NoMemory>
    requires few { length policy.now.rules < 2 ^ 32 }
    requires indexed { IsIndexOf held.now.store.now held.now.subject.now
        (filter (is_valid_in held.now.store.now held.now.clock held.now.revoked.now) held.now.creds.now)
        said.now.kinds.keys said.now.lists }
    ensures { IfOk result (λ found.
        found ≡ evaluation.certificate policy.now action item.now (holder_in held.now)
        held.now.creds.now) }
{
    let evidence = Evidence {
        creds: held.store.as_slice(),
        subject: held.subject,
        presented: held.creds,
        clock: held.clock,
        revoked: held.revoked,
        said,
    };
    certify(alloc, &evidence, policy, action, item)
}

/// Evaluates a policy for an action on an item, on the credentials that a subject presents: those count that are the
/// subject's and valid. A policy of a text has far fewer rules than the number that a certificate can count.
pub fn evaluate(
    alloc: Global,
    policy: &Policy,
    action: Action,
    item: &Name,
    held: &Presented<'_>,
) -> Result<Option<Certificate>, NoMemory>
    requires { length policy.now.rules < 2 ^ 32 }
    ensures exact { IfOk result (λ found.
        found ≡ evaluation.certificate policy.now action item.now (holder_in held.now)
        held.now.creds.now) }
    ensures truth { IfOk result (λ found.
        is_some found ≡ policies.allows policy.now action item.now (held_by held.now)) }
    ensures passes { IfOk result (λ found.
        IfSome found
        (λ certificate.
        is_checked policy.now action item.now (holder_in held.now) certificate.rule
        certificate.uses
        ≡ true)) }
    ensures presented { IfOk result (λ found.
        IfSome found
        (λ certificate. list_all (is_among held.now.creds.now) certificate.uses ≡ true)) }
    ensures each_once { IfOk result (λ found.
        IfSome found (λ certificate. IsDistinct same_cred certificate.uses)) }
{
    let creds = held.store.as_slice();
    let said = said_by(
        alloc,
        creds,
        held.subject,
        held.creds,
        held.clock,
        held.revoked,
    )?;
    certify_presented(alloc, held, &said, policy, action, item)
}
