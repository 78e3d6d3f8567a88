//! Credentials, and what they make of a policy, as a server and whoever checks it read them.
ghost use Rattle.std.specs.Prelude.{◌≡◌, ◌<◌, ◌^◌, length, IfOk};
ghost use Rattle.std.specs.Option.{is_some};
ghost use Rattle.tp_model.specs.Credentials as credentials;
ghost use Rattle.tp_model.specs.Policies as policies;
ghost use Rattle.tp_cred.specs.Certificates.{is_checked};
ghost use Rattle.tp_cred.specs.mirrors.HeldBy as presented;
ghost use Rattle.tp_eval.specs.mirrors.Gathered as gathered;
ghost use Rattle.tp_eval.specs.Uses as evaluation;

use std::alloc::Global;
use tp_check::check;
use tp_cred::{CredStore, Presented, is_valid};
use tp_eval::{Certificate, Evidence, certify, evaluate};
use tp_types::{Action, CredId, Credential, Name, NoMemory, Policy};

/// Whether one of these credentials is valid at a clock where those are revoked.
pub fn is_valid_among(creds: &[Credential], cred: CredId, now: u64, revoked: &[CredId]) -> bool
    ensures { result ≡ credentials.is_valid_in creds.now now revoked.now cred }
{
    is_valid(creds, cred, now, revoked)
}

/// Whether a credential of a store is valid at a clock where those are revoked.
pub fn is_valid_in_store(store: &CredStore, cred: CredId, now: u64, revoked: &[CredId]) -> bool
    ensures { result ≡ credentials.is_valid_in store.now now revoked.now cred }
{
    store.valid(cred, now, revoked)
}

/// Evaluates a policy on what a subject presents: there is a certificate exactly where it allows the action.
pub fn evaluate_policy(
    alloc: Global,
    policy: &Policy,
    action: Action,
    item: &Name,
    held: &Presented<'_>,
) -> Result<Option<Certificate>, NoMemory>
    requires { length policy.now.rules < 2 ^ 32 }
    ensures truth { IfOk result (λ found. is_some found
        ≡ policies.allows policy.now action item.now (presented.held_by held.now)) }
    ensures exact { IfOk result (λ found. found
        ≡ evaluation.certificate policy.now action item.now (presented.holder_in held.now)
        held.now.creds.now) }
{
    evaluate(alloc, policy, action, item, held)
}

/// Evaluates a policy on evidence that was found before, as a server does it for each of its queries.
pub fn certify_policy(
    alloc: Global,
    held: &Evidence<'_, '_>,
    policy: &Policy,
    action: Action,
    item: &Name,
) -> Result<Option<Certificate>, NoMemory>
    requires { length policy.now.rules < 2 ^ 32 }
    ensures { IfOk result (λ found. found
        ≡ evaluation.certificate policy.now action item.now (gathered.holder_in held.now)
        held.now.presented.now) }
{
    certify(alloc, held, policy, action, item)
}

/// Whether a certificate shows that a policy allows an action. The credentials that it uses are given as those
/// presented.
pub fn check_certificate(
    policy: &Policy,
    action: Action,
    item: &Name,
    held: &Presented<'_>,
    rule: u32,
) -> bool
    ensures { result ≡ is_checked policy.now action item.now (presented.holder_in held.now)
        rule held.now.creds.now }
{
    check(policy, action, item, held, rule)
}
