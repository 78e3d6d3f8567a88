//! Which version of an administrator's policy is the newest at a place, and when versions agree.
ghost use Rattle.std.specs.Prelude.{◌≡◌, if◌then◌else◌, is_none};
ghost use Rattle.std.specs.List.{list_all};
ghost use Rattle.tp_audit.specs.mirrors.Programs as program;
ghost use Rattle.tp_model.specs.Levels as levels;
ghost use Rattle.tp_model.specs.Versions as versions;

use tp_model::{is_global, level_of, publications, reads_master};
use tp_types::{AdminId, Fact, Instance, List, Place, Scenario, Transaction, Verdict, Version};

fn opening_of(scenario: &Scenario, admin: AdminId) -> Version
    ensures { result ≡ versions.opening_version scenario.now admin }
{
    match scenario.admins.get(admin.0 as usize) {
        None => Version(0),
        Some(declared) => declared.opening,
    }
}

/// The number of the newest version at a place; it may be one that no library has.
pub fn newest(scenario: &Scenario, admin: AdminId, place: Place, facts: &List<Fact>) -> u128
    ensures { result ≡ versions.newest scenario.now admin place facts.now }
{
    u128::from(opening_of(scenario, admin).0) + publications(admin, facts, place) as u128
}

fn have_one_version(one: &Verdict, other: &Verdict) -> bool
    ensures { result ≡ versions.have_one_version one.now other.now }
{
    one.admin != other.admin || one.version == other.version
}

fn agrees_with(proofs: &List<Verdict>, one: &Verdict) -> bool
    ensures { result ≡ versions.agrees_with proofs.now one.now }
{
    proofs.iter().all(|other| have_one_version(one, other))
}

fn is_one_version(proofs: &List<Verdict>) -> bool
    ensures { result ≡ versions.is_one_version proofs.now }
{
    proofs.iter().all(|one| agrees_with(proofs, one))
}

fn is_newest_proof(scenario: &Scenario, place: Place, facts: &List<Fact>, proof: &Verdict) -> bool
    ensures { result ≡ versions.is_newest_proof scenario.now place facts.now proof.now }
{
    u128::from(proof.version.0) == newest(scenario, proof.admin, place, facts)
        && proof.place < place
}

/// A transaction that read the newest versions from the master at a place.
#[derive(Clone, Copy)]
struct MasterRead<'a> {
    scenario: &'a Scenario,
    txn: &'a Transaction,
    place: Place,
    facts: &'a List<Fact>,
}

fn meets_reading(read: &MasterRead<'_>, proof: &Verdict) -> bool
    ensures { result ≡ program.meets_reading read.now proof.now }
{
    if is_global(level_of(read.txn, proof.admin)) {
        is_newest_proof(read.scenario, read.place, read.facts, proof)
    } else {
        proof.place < read.place
    }
}

fn all_meet_reading(read: &MasterRead<'_>, proofs: &List<Verdict>) -> bool
    ensures { result ≡ list_all (program.meets_reading read.now) proofs.now }
{
    proofs.iter().all(|proof| meets_reading(read, proof))
}

fn meets_readings(
    scenario: &Scenario,
    txn: &Transaction,
    facts: &List<Fact>,
    instance: &Instance,
) -> bool
    ensures { result ≡ versions.meets_readings scenario.now txn.now instance.now.reading facts.now
        instance.now.proofs }
{
    match instance.reading {
        None => false,
        Some(place) => {
            let read = MasterRead {
                scenario,
                txn,
                place,
                facts,
            };
            all_meet_reading(&read, &instance.proofs)
        }
    }
}

fn has_due_reading(
    scenario: &Scenario,
    txn: &Transaction,
    facts: &List<Fact>,
    instance: &Instance,
) -> bool
    ensures { result
        ≡ (if levels.reads_master scenario.now txn.now
        then versions.meets_readings scenario.now txn.now instance.now.reading facts.now
        instance.now.proofs
        else is_none instance.now.reading) }
{
    if reads_master(scenario, txn) {
        meets_readings(scenario, txn, facts, instance)
    } else {
        instance.reading.is_none()
    }
}

/// The instance has one version of each administrator, and a reading exactly where the transaction reads the master, which
/// all its proofs meet.
pub fn is_consistent(
    scenario: &Scenario,
    txn: &Transaction,
    facts: &List<Fact>,
    instance: &Instance,
) -> bool
    ensures { result ≡ versions.is_consistent scenario.now txn.now facts.now instance.now }
{
    is_one_version(&instance.proofs) && has_due_reading(scenario, txn, facts, instance)
}
