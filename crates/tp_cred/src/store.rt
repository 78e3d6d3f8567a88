//! A store of credentials, whose ids are their places.
ghost use Rattle.std.specs.Prelude.{◌≡◌, ◌^◌, ◌<◌, ◌++◌, [], ◌∷◌, ◌↔◌, length, slice_get, false, IfOk, OnErr, IsTrue};
ghost use Rattle.std.specs.List.{position, IsDistinct};
ghost use Rattle.std.specs.Option.{option_copied, option_map_or};
ghost use Rattle.tp_model.specs.Credentials as credentials;
ghost use Rattle.tp_model.specs.Ids.{same_name};
ghost use Rattle.tp_cred.specs.Names as names;
ghost use Rattle.tp_cred.specs.Store as store;
ghost use Rattle.tp_model.specs.Credentials as credentials;

use std::alloc::Global;
use std::marker::Model;
use tp_types::{CredId, Credential, List, Name, NoMemory};

/// Why a credential was not added.
#[derive(Clone, Copy, Debug, PartialEq)]
pub enum CredError {
    /// The store has one of this name, with this id.
    Duplicate { id: CredId },
    /// Memory was refused.
    NoMemory,
}

impl From<NoMemory> for CredError {
    ghost use Rattle.std.specs.Prelude.{◌≡◌};
    ghost use Rattle.tp_cred.specs.declared.store.CredError.TheVariants as error;

    ghost from_gives = { λ _ e. e ≡ error.NoMemory };

    fn from(_error: NoMemory) -> CredError {
        CredError::NoMemory
    }
}

/// Credentials in the order in which they were added, no two of one name, and at most 2^32 of them. Contracts see their list.
#[derive(Drop)]
pub struct CredStore {
    creds: List<Credential>,
}

impl Model for CredStore {
    ghost use Rattle.std.specs.Prelude.{List};
    ghost use Rattle.tp_types.specs.declared.scenario.Credential.{Credential};
    ghost use Rattle.tp_cred.specs.Names.{IsStore};

    ghost Value = { List Credential };

    ghost view = { λ s. s.creds };

    ghost invariant = { λ s. IsStore s.creds };
}

/// Whether the credential is one of these.
pub fn is_among(creds: &[CredId], cred: CredId) -> bool
    ensures { result ≡ credentials.is_among creds.now cred }
{
    creds.iter().any(|other| *other == cred)
}

fn is_current(creds: &[Credential], id: CredId, now: u64) -> bool
    ensures { result ≡ option_map_or (credentials.is_current now) (slice_get creds.now id.0) false }
{
    match creds.get(id.0 as usize) {
        None => false,
        Some(credential) => credential.from <= now && now <= credential.until,
    }
}

/// Whether the clock is within the interval of the credential with this id, both ends included, and it is not among those revoked.
/// A credential that is not there is not valid.
pub fn is_valid(creds: &[Credential], id: CredId, now: u64, revoked: &[CredId]) -> bool
    ensures { result ≡ credentials.is_valid_in creds.now now revoked.now id }
{
    is_current(creds, id, now) && !is_among(revoked, id)
}

impl CredStore {
    /// The empty store, which takes no memory before its first credential.
    pub fn new(alloc: Global) -> CredStore
        ensures { result ≡ [] }
    {
        CredStore {
            creds: List::new(alloc),
        }
    }

    /// How many credentials there are. Their ids are the numbers below.
    pub fn len(&self) -> usize
        ensures count { result ≡ length self.now }
        ensures named_once { IsDistinct same_name (names.names_of self.now) }
    {
        self.creds.len()
    }

    /// The credentials, each at the place of its id.
    pub fn as_slice(&self) -> &[Credential]
        ensures { result.now ≡ self.now }
    {
        self.creds.as_slice()
    }

    /// Whether there is no credential.
    pub fn is_empty(&self) -> bool
        ensures { IsTrue result ↔ (self.now ≡ []) }
    {
        self.creds.is_empty()
    }

    fn place_of(&self, name: &Name) -> Option<usize>
        ensures { result ≡ position (store.is_named name.now) self.now }
    {
        self.creds
            .iter()
            .position(|credential| credential.name == *name)
    }

    /// Adds a credential, and gives its id. Where it is refused it is dropped.
    pub fn add(&mut self, credential: Credential) -> Result<CredId, CredError>
        requires { length self.old < 2 ^ 32 }
        ensures added { IfOk result (λ id.
            (id.0 ≡ length self.old) × (self.new ≡ self.old ++ credential ∷ [])) }
        ensures duplicate { store.duplicate_in result
            ≡ position (store.is_named credential.name) self.old }
        ensures refused { OnErr result (self.new ≡ self.old) }
    {
        match self.place_of(&credential.name) {
            Some(place) => Err(CredError::Duplicate {
                id: CredId(place as u32),
            }),
            None => {
                let id = CredId(self.creds.len() as u32);
                self.creds.push(credential)?;
                Ok(id)
            }
        }
    }

    /// The credential of this id, or None exactly where there is none.
    pub fn get(&self, id: CredId) -> Option<&Credential>
        ensures { option_copied result ≡ slice_get self.now id.0 }
    {
        self.creds.get(id.0 as usize)
    }

    /// The ids of a subject's credentials, in their order.
    pub fn of_subject(&self, alloc: Global, subject: &Name) -> Result<List<CredId>, NoMemory>
        ensures { IfOk result (λ found. found ≡ store.of_subject self.now subject.now) }
    {
        let mut found = List::new(alloc);
        for (place, credential) in self.creds.as_slice().iter().enumerate() {
            if credential.subject == *subject {
                found.push(CredId(place as u32))?;
            }
        }
        Ok(found)
    }

    /// Whether the clock is within the credential's interval, both ends included, and it is not among those revoked.
    /// A credential that is not there is not valid.
    pub fn valid(&self, id: CredId, now: u64, revoked: &[CredId]) -> bool
        ensures { result ≡ credentials.is_valid_in self.now now revoked.now id }
    {
        is_valid(self.as_slice(), id, now, revoked)
    }
}
