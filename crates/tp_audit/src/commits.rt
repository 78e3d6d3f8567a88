//! Commits stand apart: no two have one place.
ghost use Rattle.std.specs.Prelude.{◌≡◌, ◌==◌};
ghost use Rattle.std.specs.List.{count_by};
ghost use Rattle.tp_model.specs.Commits as commits;

use tp_types::{Decision, Fact, List, Place, What};

fn is_commit_at(place: Place, fact: &Fact) -> bool
    ensures { result ≡ commits.is_commit_at place fact.now }
{
    fact.place == place && matches!(&fact.what, What::Decided(_, Decision::Commit(_)))
}

fn is_only_commit(facts: &List<Fact>, place: Place) -> bool
    ensures { result ≡ (count_by (commits.is_commit_at place) facts.now == 1) }
{
    facts
        .iter()
        .filter(|fact| is_commit_at(place, fact))
        .count()
        == 1
}

fn is_lone(facts: &List<Fact>, fact: &Fact) -> bool
    ensures { result ≡ commits.is_lone facts.now fact.now }
{
    match &fact.what {
        What::Decided(_, Decision::Commit(_)) => is_only_commit(facts, fact.place),
        _ => true,
    }
}

/// Whether every commit is the only one of its place, so that one of any two is before the other.
pub fn are_lone(facts: &List<Fact>) -> bool
    ensures { result ≡ commits.are_lone facts.now }
{
    facts.iter().all(|fact| is_lone(facts, fact))
}
