//! Which version of an administrator's policy is the newest at a place of a history.
ghost use Rattle.std.specs.Prelude.{◌≡◌, ◌&&◌, ◌+◌, ◌<◌, ◌^◌};
ghost use Rattle.std.specs.List.{count_by};
ghost use Rattle.tp_model.specs.Facts as history;
ghost use Rattle.tp_model.specs.Versions as versions;

use tp_types::{AdminId, Fact, List, Place, Version, What};

fn is_publication(admin: AdminId, fact: &Fact) -> bool
    ensures { result ≡ versions.is_publication admin fact.now }
{
    match &fact.what {
        What::Published(other, _) => *other == admin,
        _ => false,
    }
}

fn is_earlier_publication(admin: AdminId, place: Place, fact: &Fact) -> bool
    ensures { result
        ≡ (history.is_earlier place fact.now && versions.is_publication admin fact.now) }
{
    fact.place < place && is_publication(admin, fact)
}

/// How many publications of an administrator there are before a place.
#[tactic(auto, using(crate::proofs::HistoryLemmas::count_before))]
pub fn publications(admin: AdminId, facts: &List<Fact>, place: Place) -> usize
    ensures { result ≡ count_by (versions.is_publication admin) (history.before place facts.now) }
{
    facts
        .iter()
        .filter(|fact| is_earlier_publication(admin, place, fact))
        .count()
}

/// The newest version of an administrator's policy at a place: the opening version, and one more for each publication before
/// the place.
#[tactic(auto, using(crate::proofs::HistoryLemmas::fewer_before))]
pub fn newest_at(admin: AdminId, opening: Version, facts: &List<Fact>, place: Place) -> Version
    requires { opening.0 + count_by (versions.is_publication admin) facts.now < 2 ^ 32 }
    ensures { result ≡ versions.newest_at admin opening place facts.now }
{
    Version(opening.0 + publications(admin, facts, place) as u32)
}
