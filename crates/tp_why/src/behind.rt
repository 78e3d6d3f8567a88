//! Which versions a commit was behind: administrators of which a newer version had been published before it.
ghost use Rattle.std.specs.Prelude.{◌≡◌, ◌++◌, OnOk, IfOk};
ghost use Rattle.std.specs.List.{count_by, filter_map};
ghost use Rattle.tp_why.specs.Behind as behind;
ghost use Rattle.tp_why.specs.Lines as lines;
ghost use Rattle.tp_why.specs.mirrors.Publishers.{is_number, publisher, publisher_what};

use std::alloc::Global;
use tp_report::piece::{put, put_number};
use tp_types::{
    Admin, AdminId, CommitRecord, Decision, Fact, Instance, List, NoMemory, Place, Scenario,
    Verdict, Version, What,
};

/// A commit, below which lines stand: its place, the facts so far, and who published before it, once for each version.
#[derive(Clone, Copy)]
pub struct Committed<'a, 'b> {
    pub scenario: &'a Scenario,
    pub facts: &'a [Fact],
    pub place: Place,
    pub published: &'b [AdminId],
    ghost told: { published.now ≡ filter_map (publisher place) facts.now },
}

fn publisher_of(what: &What) -> Option<AdminId>
    ensures { result ≡ publisher_what what.now }
{
    match what {
        What::Published(admin, _) => Some(*admin),
        _ => None,
    }
}

fn earlier_publisher(place: Place, fact: &Fact) -> Option<AdminId>
    ensures { result ≡ publisher place fact.now }
{
    if fact.place < place {
        publisher_of(&fact.what)
    } else {
        None
    }
}

/// Who published before a place, once for each version.
fn publishers(alloc: Global, place: Place, facts: &[Fact]) -> Result<List<AdminId>, NoMemory>
    ensures { IfOk result (λ made. made ≡ filter_map (publisher place) facts.now) }
{
    let mut made = List::new(alloc);
    for fact in facts {
        if let Some(admin) = earlier_publisher(place, fact) {
            made.push(admin)?;
        }
    }
    Ok(made)
}

/// How often an administrator stands among these.
fn count_of(number: usize, published: &[AdminId]) -> usize
    ensures { result ≡ count_by (is_number number) published.now }
{
    published
        .iter()
        .filter(|admin| admin.0 as usize == number)
        .count()
}

/// The number of an administrator's newest version before the commit. It may be one that no library has.
fn newest(commit: &Committed<'_, '_>, number: usize, admin: &Admin) -> u128
    ensures { result ≡ behind.newest_of commit.now.place commit.now.facts.now number admin.now }
{
    u128::from(admin.opening.0) + count_of(number, commit.published) as u128
}

/// The version of the first proof by an administrator.
fn used(number: usize, proofs: &[Verdict]) -> Option<Version>
    ensures { result ≡ behind.used number proofs.now }
{
    proofs
        .iter()
        .find(|proof| proof.admin.0 as usize == number)
        .map(|proof| proof.version)
}

fn put_words(
    out: &mut Vec<u8>,
    admin: &Admin,
    version: Version,
    newest: u128,
) -> Result<(), NoMemory>
    ensures { OnOk result
        (out.new.items
        ≡ out.old.items ++ lines.behind_words admin.now.name version.0 newest) }
{
    put(out, admin.name.bytes())?;
    put(out, b" ")?;
    put_number(out, version.0)?;
    put(out, b" ")?;
    put_number(out, newest)
}

/// Puts the line of an administrator.
fn put_line(
    out: &mut Vec<u8>,
    place: Place,
    admin: &Admin,
    version: Version,
    newest: u128,
) -> Result<(), NoMemory>
    ensures { OnOk result
        (out.new.items
        ≡ out.old.items
        ++ lines.behind_line place (lines.behind_words admin.now.name version.0 newest)) }
{
    put_number(out, place)?;
    put(out, b" behind ")?;
    put_words(out, admin, version, newest)?;
    put(out, b"\n")
}

fn put_if_older(
    out: &mut Vec<u8>,
    place: Place,
    admin: &Admin,
    version: Version,
    newest: u128,
) -> Result<(), NoMemory>
    ensures { OnOk result
        (out.new.items
        ≡ out.old.items
        ++ lines.behind_text place (behind.line_if_older admin.now.name newest version)) }
{
    if u128::from(version.0) < newest {
        put_line(out, place, admin, version, newest)
    } else {
        Ok(())
    }
}

fn put_admin_lines(
    out: &mut Vec<u8>,
    commit: &Committed<'_, '_>,
    proofs: &[Verdict],
    number: usize,
    admin: &Admin,
) -> Result<(), NoMemory>
    ensures { OnOk result
        (out.new.items
        ≡ out.old.items
        ++ lines.behind_text commit.now.place
        (behind.admin_lines commit.now.place commit.now.facts.now proofs.now number admin.now)) }
{
    match used(number, proofs) {
        None => Ok(()),
        Some(version) => {
            let newest = newest(commit, number, admin);
            put_if_older(out, commit.place, admin, version, newest)
        }
    }
}

fn put_instance_lines(
    out: &mut Vec<u8>,
    commit: &Committed<'_, '_>,
    proofs: &[Verdict],
) -> Result<(), NoMemory>
    ensures { OnOk result
        (out.new.items
        ≡ out.old.items
        ++ lines.behind_text commit.now.place
        (behind.admins_lines commit.now.place commit.now.facts.now proofs.now 0
        commit.now.scenario.now.admins)) }
{
    for (number, admin) in commit.scenario.admins.as_slice().iter().enumerate() {
        put_admin_lines(out, commit, proofs, number, admin)?;
    }
    Ok(())
}

/// Puts the lines of an instance of a commit at a place.
fn put_instance(
    alloc: Global,
    out: &mut Vec<u8>,
    scenario: &Scenario,
    facts: &[Fact],
    place: Place,
    instance: &Instance,
) -> Result<(), NoMemory>
    ensures { OnOk result
        (out.new.items
        ≡ out.old.items
        ++ lines.behind_text place
        (behind.instance_lines scenario.now place facts.now instance.now)) }
{
    let published = publishers(alloc, place, facts)?;
    let commit = Committed {
        scenario,
        facts,
        place,
        published: published.as_slice(),
    };
    put_instance_lines(out, &commit, instance.proofs.as_slice())
}

fn put_commit(
    alloc: Global,
    out: &mut Vec<u8>,
    scenario: &Scenario,
    facts: &[Fact],
    place: Place,
    held: &CommitRecord,
) -> Result<(), NoMemory>
    ensures { OnOk result
        (out.new.items
        ≡ out.old.items
        ++ lines.behind_text place
        (behind.commit_lines scenario.now place facts.now held.now.instances)) }
{
    match held.instances.as_slice().last() {
        None => Ok(()),
        Some(instance) => put_instance(alloc, out, scenario, facts, place, instance),
    }
}

/// Puts the lines below a fact that say which versions a commit was behind: of each administrator of its last instance,
/// of which a newer version had been published before the commit, the version of its proofs and the newest. Of other
/// facts there are none. `facts` are all up to the fact.
pub fn put_behind_lines(
    alloc: Global,
    out: &mut Vec<u8>,
    scenario: &Scenario,
    facts: &[Fact],
    fact: &Fact,
) -> Result<(), NoMemory>
    ensures { OnOk result (out.new.items
        ≡ out.old.items ++ lines.behind_text fact.now.place
        (behind.behind_lines scenario.now facts.now fact.now)) }
{
    match &fact.what {
        What::Decided(_, Decision::Commit(held)) => {
            put_commit(alloc, out, scenario, facts, fact.place, held)
        }
        _ => Ok(()),
    }
}
