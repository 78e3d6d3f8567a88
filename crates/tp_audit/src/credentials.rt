//! Which credentials are valid at a place.
ghost use Rattle.std.specs.Prelude.{◌≡◌, slice_get, false};
ghost use Rattle.std.specs.List.{list_any};
ghost use Rattle.std.specs.Option.{option_map_or};
ghost use Rattle.tp_model.specs.Words.{Fact};
ghost use Rattle.tp_model.specs.Credentials as credentials;
ghost use Rattle.tp_model.specs.Facts.{before};
ghost use Rattle.tp_model.specs.Ids.{same_cred};

use tp_types::{CredId, Credential, Fact, List, Name, Place, Scenario, Transaction, What};

/// What a subject holds at a place: what those of its credentials say of it that are valid there.
#[derive(Clone, Copy)]
pub struct Held<'a> {
    pub scenario: &'a Scenario,
    pub facts: &'a List<Fact>,
    pub place: Place,
    pub subject: &'a Name,
    pub creds: &'a List<CredId>,
}

fn ticks(fact: &Fact) -> u64
    ensures { result ≡ credentials.tick_of fact.now }
{
    match &fact.what {
        What::Ticked(by) => *by,
        _ => 0,
    }
}

/// The clock at a place: the opening clock and all ticks before the place. It may be past what a clock can count.
fn clock_at(scenario: &Scenario, place: Place, facts: &List<Fact>) -> u128
    ensures { result ≡ credentials.clock_at scenario.now place facts.now }
{
    let mut clock = u128::from(scenario.clock);
    for fact in facts.as_slice() {
        if fact.place < place {
            clock += u128::from(ticks(fact));
        }
    }
    clock
}

fn is_revocation(cred: CredId, fact: &Fact) -> bool
    ensures { result ≡ option_map_or (same_cred cred) (credentials.revoked_by fact.now) false }
{
    match &fact.what {
        What::Revoked(other) => cred == *other,
        _ => false,
    }
}

fn has_revocation(cred: CredId, place: Place, facts: &List<Fact>) -> bool
    ensures { result ≡ list_any
        (λ (fact : Fact). option_map_or (same_cred cred) (credentials.revoked_by fact) false)
        (before place facts.now) }
{
    facts
        .iter()
        .filter(|fact| fact.place < place)
        .any(|fact| is_revocation(cred, fact))
}

fn was_revoked(cred: CredId, place: Place, facts: &List<Fact>) -> bool
    ensures { result ≡ credentials.is_among (credentials.revoked_at place facts.now) cred }
{
    has_revocation(cred, place, facts)
}

fn is_current(clock: u128, credential: &Credential) -> bool
    ensures { result ≡ credentials.is_current clock credential.now }
{
    u128::from(credential.from) <= clock && clock <= u128::from(credential.until)
}

fn is_in_force(scenario: &Scenario, place: Place, facts: &List<Fact>, cred: CredId) -> bool
    ensures { result ≡ option_map_or
        (credentials.is_current (credentials.clock_at scenario.now place facts.now))
        (slice_get scenario.now.creds cred.0) false }
{
    match scenario.creds.get(cred.0 as usize) {
        None => false,
        Some(credential) => is_current(clock_at(scenario, place, facts), credential),
    }
}

/// The credential is valid at the place: the clock there is within its interval, and it was not revoked before.
pub fn is_valid(scenario: &Scenario, place: Place, facts: &List<Fact>, cred: CredId) -> bool
    ensures { result ≡ credentials.is_valid scenario.now place facts.now cred }
{
    is_in_force(scenario, place, facts, cred) && !was_revoked(cred, place, facts)
}

/// The transaction presents the credential.
pub fn is_presented(txn: &Transaction, cred: CredId) -> bool
    ensures { result ≡ credentials.is_presented txn.now cred }
{
    txn.creds.iter().any(|other| cred == *other)
}
