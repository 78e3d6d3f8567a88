//! What a subject presents.
ghost use Rattle.std.specs.Prelude.{◌≡◌, false};
ghost use Rattle.std.specs.Option.{option_map_or};
ghost use Rattle.tp_model.specs.Policies as policies;
ghost use Rattle.tp_model.specs.Credentials as credentials;
ghost use Rattle.tp_cred.specs.mirrors.HeldBy as held_by;

use crate::store::CredStore;
use tp_model::meets;
use tp_types::{CredId, Credential, Name, Op, Value};

/// Credentials that a subject presents, with what decides which of them count: those are held that are the subject's and valid.
#[derive(Clone, Copy)]
pub struct Presented<'a> {
    pub store: &'a CredStore,
    /// Of whom the credentials are to speak.
    pub subject: &'a Name,
    /// Those presented, in the subject's order.
    pub creds: &'a [CredId],
    /// The clock at which they are to be valid.
    pub clock: u64,
    /// Those revoked by then.
    pub revoked: &'a [CredId],
}

/// Whether a credential is the subject's, and what it says satisfies an atom.
#[tactic(auto, using(crate::proofs::HeldLemmas::said))]
pub fn says(
    credential: &Credential,
    subject: &Name,
    issuer: &Name,
    attr: &Name,
    op: Op,
    wanted: &Value,
) -> bool
    ensures { result ≡ option_map_or (policies.meets issuer.now attr.now op wanted.now)
        (credentials.triple_of subject.now credential.now) false }
{
    credential.subject == *subject && meets(credential, issuer, attr, op, wanted)
}

fn is_said(
    held: &Presented<'_>,
    cred: CredId,
    issuer: &Name,
    attr: &Name,
    op: Op,
    wanted: &Value,
) -> bool
    ensures { result ≡ option_map_or (policies.meets issuer.now attr.now op wanted.now)
        (credentials.said_in held.now.store.now held.now.subject.now cred) false }
{
    match held.store.get(cred) {
        None => false,
        Some(credential) => says(credential, held.subject, issuer, attr, op, wanted),
    }
}

/// Whether a credential is the subject's and valid, and what it says satisfies an atom. It may be any of the store, presented or not.
pub fn shows(
    held: &Presented<'_>,
    cred: CredId,
    issuer: &Name,
    attr: &Name,
    op: Op,
    wanted: &Value,
) -> bool
    ensures { result ≡ held_by.shows held.now
        (policies.meets issuer.now attr.now op wanted.now) cred }
{
    is_said(held, cred, issuer, attr, op, wanted)
        && held.store.valid(cred, held.clock, held.revoked)
}
