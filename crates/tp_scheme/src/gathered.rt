//! What a transaction has gathered: its proofs, where each query is proved as it runs, and its instances.
ghost use Rattle.std.specs.Prelude.{◌≡◌, replicate, OnOk, OnErr};
ghost use Rattle.tp_model.specs.Limits.{admins_limit};
ghost use Rattle.tp_model.specs.Words.level;
ghost use Rattle.tp_scheme.specs.Gathered as rule;

use std::alloc::Global;
use std::marker::Model;
use tp_model::{ADMINS_MAX, is_global_at};
use tp_types::{
    AdminId, Cause, Instance, Level, List, Newer, NoMemory, Place, Reading, TryClone, Verdict,
    Version,
};

/// A transaction that reads the master does so under global consistency of every administrator.
const LEVELS: [Level; ADMINS_MAX] = [Level::Global; ADMINS_MAX];

/// The proofs so far and the instances so far, each in the order in which they came.
#[derive(Drop)]
pub struct Gathered {
    proofs: List<Verdict>,
    instances: List<Instance>,
}

impl Model for Gathered {
    ghost use Rattle.tp_scheme.specs.Gathered as state;

    ghost Value = { state.Gathered };

    ghost view = { λ g. record { proofs = g.proofs; instances = g.instances } };
}

fn newest_in(reading: &Reading, admin: AdminId) -> Version
    ensures { result ≡ rule.newest_in reading.now admin }
{
    match reading.newest.get(admin.0 as usize) {
        None => Version(0),
        Some(version) => *version,
    }
}

fn is_older(levels: &[Level], reading: &Reading, proof: &Verdict) -> bool
    ensures { result ≡ rule.is_older levels.now reading.now proof.now }
{
    is_global_at(levels, proof.admin) && proof.version.0 < newest_in(reading, proof.admin).0
}

fn newer_by(reading: &Reading, proof: &Verdict) -> Cause
    ensures { result ≡ rule.newer_by reading.now proof.now }
{
    Cause::Newer(Newer {
        admin: proof.admin,
        used: proof.version,
        found: newest_in(reading, proof.admin),
    })
}

fn first_older(levels: &[Level], proofs: &[Verdict], reading: &Reading) -> Option<Cause>
    ensures { result ≡ rule.older levels.now proofs.now reading.now }
{
    for proof in proofs {
        if is_older(levels, reading, proof) {
            return Some(newer_by(reading, proof));
        }
    }
    None
}

impl Gathered {
    /// Nothing so far.
    pub fn new(alloc: Global) -> Gathered
        ensures { result ≡ rule.none_gathered }
    {
        Gathered {
            proofs: List::new(alloc),
            instances: List::new(alloc),
        }
    }

    /// Adds a proof. Where memory is refused nothing changes.
    pub fn add(&mut self, proof: Verdict) -> Result<(), NoMemory>
        ensures added { OnOk result (self.new ≡ rule.with_proof self.old proof) }
        ensures memory { OnErr result (self.new ≡ self.old) }
    {
        self.proofs.push(proof)
    }

    /// Adds an instance of all proofs so far, with the place of the master's reading after them if there was one. Where
    /// memory is refused nothing changes.
    pub fn close(&mut self, alloc: Global, reading: Option<Place>) -> Result<(), NoMemory>
        ensures closed { OnOk result (self.new ≡ rule.closed self.old reading) }
        ensures memory { OnErr result (self.new ≡ self.old) }
    {
        let proofs = self.proofs.try_clone(alloc)?;
        self.instances.push(Instance { reading, proofs })
    }

    /// Adds an instance that was closed elsewhere, as by a round. Where memory is refused nothing changes.
    pub fn closes(&mut self, instance: Instance) -> Result<(), NoMemory>
        ensures closed { OnOk result (self.new ≡ rule.with_instance self.old instance) }
        ensures memory { OnErr result (self.new ≡ self.old) }
    {
        self.instances.push(instance)
    }

    /// The proofs so far.
    pub fn proofs(&self) -> &List<Verdict>
        ensures { result.now ≡ self.now.proofs }
    {
        &self.proofs
    }

    /// The instances so far.
    pub fn instances(&self) -> &List<Instance>
        ensures { result.now ≡ self.now.instances }
    {
        &self.instances
    }

    /// The version that later proofs of an administrator are to have: that of its first proof. None exactly where it
    /// has none. It takes no memory.
    pub fn pin_of(&self, admin: AdminId) -> Option<Version>
        ensures { result ≡ rule.pin_of self.now.proofs admin }
    {
        for proof in self.proofs.as_slice() {
            if proof.admin == admin {
                return Some(proof.version);
            }
        }
        None
    }

    /// Why the transaction is to abort where the master was read: of the first proof whose version is below the
    /// reading's, the version used and the newer one that was found. None exactly where there is no such proof. A
    /// reading that has no version of an administrator finds nothing newer of it. It takes no memory.
    pub fn older(&self, reading: &Reading) -> Option<Cause>
        ensures { result ≡ rule.older
            (replicate admins_limit level.Global) self.now.proofs reading.now }
    {
        first_older(&LEVELS, self.proofs.as_slice(), reading)
    }
}
