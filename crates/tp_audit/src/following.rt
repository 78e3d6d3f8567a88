//! How the instances of a commit follow one another.
ghost use Rattle.std.specs.Prelude.{◌≡◌, drop, length, slice_get, take, true, false};
ghost use Rattle.std.specs.List.{list_all};
ghost use Rattle.std.specs.Option.{option_copied, option_map_or};
ghost use Rattle.tp_model.specs.Demand as demand;
ghost use Rattle.tp_model.specs.Ids as ids;

use tp_types::{Instance, List, Place, Scheme, Verdict};

fn is_after_reading(reading: Option<Place>, place: Place) -> bool
    ensures { result ≡ demand.is_after_reading reading place }
{
    match reading {
        None => true,
        Some(read) => read < place,
    }
}

fn is_earlier_proof(proof: &Verdict, other: &Verdict) -> bool
    ensures { result ≡ demand.is_earlier_proof proof.now other.now }
{
    other.place < proof.place
}

fn are_earlier(proofs: &List<Verdict>, proof: &Verdict) -> bool
    ensures { result ≡ list_all (demand.is_earlier_proof proof.now) proofs.now }
{
    proofs.iter().all(|other| is_earlier_proof(proof, other))
}

fn is_later(instance: &Instance, proof: &Verdict) -> bool
    ensures { result ≡ demand.is_later instance.now proof.now }
{
    are_earlier(&instance.proofs, proof) && is_after_reading(instance.reading, proof.place)
}

/// From this many proofs on, those of the next instance are later than all of the one.
fn are_later(one: &Instance, next: &Instance, from: usize) -> bool
    ensures { result ≡ list_all (demand.is_later one.now) (drop from next.now.proofs) }
{
    next.proofs
        .iter()
        .skip(from)
        .all(|proof| is_later(one, proof))
}

fn same_verdict(one: &Verdict, other: &Verdict) -> bool
    ensures { result ≡ ids.same_verdict one.now other.now }
{
    one.query == other.query
        && one.server == other.server
        && one.admin == other.admin
        && one.version == other.version
        && one.place == other.place
        && one.rule == other.rule
        && one.uses == other.uses
}

fn is_same_at(proof: &Verdict, proofs: &List<Verdict>, at: usize) -> bool
    ensures { result ≡ option_map_or (ids.same_verdict proof.now) (slice_get proofs.now at) false }
{
    match proofs.get(at) {
        None => false,
        Some(other) => same_verdict(proof, other),
    }
}

/// The next instance begins with the same proofs.
#[tactic(auto, using(crate::proofs::FollowingLemmas::same_front))]
fn keeps_proofs(proofs: &List<Verdict>, next: &List<Verdict>) -> bool
    ensures { result ≡ ids.same_proofs proofs.now (take (length proofs.now) next.now) }
{
    for (at, proof) in proofs.as_slice().iter().enumerate() {
        if !is_same_at(proof, next, at) {
            return false;
        }
    }
    true
}

fn reads_later(reading: Option<Place>, next: Option<Place>) -> bool
    ensures { result ≡ demand.reads_later reading next }
{
    match (reading, next) {
        (None, _) => true,
        (Some(_), None) => false,
        (Some(read), Some(place)) => read < place,
    }
}

fn goes_on(one: &Instance, next: &Instance) -> bool
    ensures { result ≡ demand.goes_on one.now next.now }
{
    keeps_proofs(&one.proofs, &next.proofs)
        && are_later(one, next, one.proofs.len())
        && reads_later(one.reading, next.reading)
}

fn follows(scheme: Scheme, one: &Instance, next: &Instance) -> bool
    ensures { result ≡ demand.follows scheme one.now next.now }
{
    match scheme {
        Scheme::Deferred => true,
        Scheme::Incremental => goes_on(one, next),
        Scheme::Punctual | Scheme::Continuous => are_later(one, next, 0),
    }
}

fn is_followed(scheme: Scheme, one: &Instance, next: Option<&Instance>) -> bool
    ensures { result ≡ option_map_or (demand.follows scheme one.now) (option_copied next.entry) true }
{
    match next {
        None => true,
        Some(instance) => follows(scheme, one, instance),
    }
}

/// Each instance follows the one before it, as the scheme asks.
pub fn each_follows(scheme: Scheme, instances: &List<Instance>) -> bool
    ensures { result ≡ demand.each_follows scheme instances.now }
{
    for (at, one) in instances.as_slice().iter().enumerate() {
        if !is_followed(scheme, one, instances.get(at + 1)) {
            return false;
        }
    }
    true
}
