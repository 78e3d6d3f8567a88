//! What valid credentials say of a subject, found once, by issuer and attribute.
ghost use Rattle.std.specs.Prelude.{◌≡◌, [], filter, slice_get, unwrap_or, IfOk, OnOk};
ghost use Rattle.std.specs.List.{list_any};
ghost use Rattle.std.specs.Option.{option_copied};
ghost use Rattle.tp_model.specs.Credentials as validity;
ghost use Rattle.tp_model.specs.Policies.{meets};
ghost use Rattle.tp_eval.specs.mirrors.Said as mirror;

use indexmap::IndexSet;
use std::alloc::Global;
use tp_cred::{is_valid, says};
use tp_types::{CredId, Credential, List, Name, NoMemory, Op, Value};

/// What valid credentials say of a subject. Of those that say the same only the first is kept, since an atom is shown by
/// the first that says what it asks.
#[derive(Drop)]
pub struct Said<'a> {
    /// Each issuer with an attribute that it speaks of.
    pub kinds: IndexSet<(&'a [u8], &'a [u8])>,
    /// Of each of these the credentials that are kept, in the order in which they are presented.
    pub lists: List<List<CredId>>,
}

fn credential_of<'a>(creds: &'a [Credential], cred: CredId) -> Option<&'a Credential>
    ensures { option_copied result ≡ slice_get creds.now cred.0 }
{
    creds.get(cred.0 as usize)
}

/// Whether what a credential says of the subject satisfies an atom.
pub fn is_said(
    creds: &[Credential],
    subject: &Name,
    cred: CredId,
    issuer: &Name,
    attr: &Name,
    op: Op,
    wanted: &Value,
) -> bool
    ensures { result ≡ mirror.says_in creds.now subject.now
        (meets issuer.now attr.now op wanted.now) cred }
{
    match creds.get(cred.0 as usize) {
        None => false,
        Some(credential) => says(credential, subject, issuer, attr, op, wanted),
    }
}

/// Whether one of these says the same as a credential.
fn is_said_by_any(
    creds: &[Credential],
    subject: &Name,
    kept: &[CredId],
    credential: &Credential,
) -> bool
    ensures { result ≡ list_any
        (mirror.says_in creds.now subject.now (mirror.meets_same credential.now)) kept.now }
{
    kept.iter().any(|other| {
        is_said(
            creds,
            subject,
            *other,
            &credential.issuer,
            &credential.attr,
            Op::Equal,
            &credential.value,
        )
    })
}

/// Keeps a credential, unless one that is kept says the same.
fn keep(
    creds: &[Credential],
    subject: &Name,
    kept: &mut List<CredId>,
    credential: &Credential,
    cred: CredId,
) -> Result<(), NoMemory>
    ensures { OnOk result
        (kept.new ≡ mirror.with_first creds.now subject.now credential.now cred kept.old) }
{
    if is_said_by_any(creds, subject, kept.as_slice(), credential) {
        return Ok(());
    }
    kept.push(cred)
}

/// Keeps a credential in the list at a place.
fn keep_at(
    creds: &[Credential],
    subject: &Name,
    lists: &mut List<List<CredId>>,
    at: usize,
    credential: &Credential,
    cred: CredId,
) -> Result<(), NoMemory>
    ensures { OnOk result
        (lists.new ≡ mirror.at_place (mirror.with_first creds.now subject.now credential.now cred) at lists.old) }
{
    match lists.get_mut(at) {
        None => Ok(()),
        Some(kept) => keep(creds, subject, kept, credential, cred),
    }
}

impl<'a> Said<'a> {
    /// Nothing is said.
    fn nothing(alloc: Global) -> Said<'a>
        ensures kinds { result.kinds.keys ≡ [] }
        ensures lists { result.lists ≡ [] }
    {
        Said {
            kinds: IndexSet::new(alloc),
            lists: List::new(alloc),
        }
    }

    /// Those that are kept of an issuer and an attribute.
    pub fn list_for(&self, issuer: &Name, attr: &Name) -> &[CredId]
        ensures { result.now ≡ mirror.list_for self.now.kinds.keys self.now.lists issuer.now attr.now }
    {
        match self.kinds.get_index_of(&(issuer.bytes(), attr.bytes())) {
            None => &[],
            Some(at) => self.list_at(at),
        }
    }

    fn list_at(&self, at: usize) -> &[CredId]
        ensures { result.now ≡ unwrap_or (slice_get self.now.lists at) [] }
    {
        match self.lists.get(at) {
            None => &[],
            Some(kept) => kept.as_slice(),
        }
    }

    /// Notes what a credential says.
    fn note(
        &mut self,
        alloc: Global,
        creds: &'a [Credential],
        subject: &Name,
        cred: CredId,
    ) -> Result<(), NoMemory>
        ensures { OnOk result (mirror.Adds creds.now subject.now cred self.old.kinds.keys self.old.lists self.new.kinds.keys self.new.lists) }
    {
        let Some(credential) = credential_of(creds, cred) else {
            return Ok(());
        };
        if credential.subject != *subject {
            return Ok(());
        }
        self.note_kind(alloc, creds, subject, credential, cred)
    }

    fn note_kind(
        &mut self,
        alloc: Global,
        creds: &[Credential],
        subject: &Name,
        credential: &'a Credential,
        cred: CredId,
    ) -> Result<(), NoMemory>
        ensures { OnOk result (mirror.NotesKind creds.now subject.now credential.now cred self.old.kinds.keys self.old.lists self.new.kinds.keys self.new.lists) }
    {
        let (at, is_new) = self
            .kinds
            .insert_full((credential.issuer.bytes(), credential.attr.bytes()))?;
        if is_new {
            self.lists.push(List::of_one(alloc, cred)?)
        } else {
            keep_at(creds, subject, &mut self.lists, at, credential, cred)
        }
    }
}

/// What those of the presented credentials say that are valid.
pub fn said_by<'a>(
    alloc: Global,
    creds: &'a [Credential],
    subject: &Name,
    presented: &[CredId],
    now: u64,
    revoked: &[CredId],
) -> Result<Said<'a>, NoMemory>
    ensures { IfOk result (λ said.
        mirror.IsIndexOf creds.now subject.now
        (filter (validity.is_valid_in creds.now now revoked.now) presented.now)
        said.kinds.keys said.lists) }
{
    let mut said = Said::nothing(alloc);
    for cred in presented {
        if is_valid(creds, *cred, now, revoked) {
            said.note(alloc, creds, subject, *cred)?;
        }
    }
    Ok(said)
}
