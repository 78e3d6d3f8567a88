//! A replica: the versions that it knows, and its log, on a disk of its own in memory.
ghost use Rattle.std.specs.Prelude.{◌≡◌, ◌+◌, ◌<◌, ◌≤◌, ◌++◌, ◌∷◌, [], None, length, replicate, IfOk, IfSome, OnOk};
ghost use Rattle.tp_actor_log.specs.Disks.{IsDiskOf};
ghost use Rattle.tp_actor_log.specs.Records.{FitsLog, cut_record, log_with};
ghost use Rattle.tp_quorum.specs.Machine.{is_replica_down, opened_replica};
ghost use Rattle.tp_quorum.specs.Replica as rows;

use crate::types::{QBody, QMail};
use std::alloc::Global;
use std::marker::Model;
use tp_actor_log::ActorLog;
use tp_device::MemoryDisk;
use tp_types::{AdminId, Cut, List, NoMemory, Record, Told, Version};

/// A replica. Contracts see its log as the list of its records.
#[derive(Drop)]
pub struct Replica {
    /// One version for each administrator; None while the replica is down.
    up: Option<List<Version>>,
    log: ActorLog,
}

impl Model for Replica {
    ghost use Rattle.tp_quorum.specs.Replica.{ReplicaView};

    ghost Value = { ReplicaView };

    ghost view = { λ r. record { up = r.up; log = r.log } };
}

/// The first version for each administrator.
#[tactic(auto, using(crate::proofs::ReplicaLemmas::told_first))]
pub(crate) fn first_versions(alloc: Global, admins: usize) -> Result<List<Version>, NoMemory>
    ensures first { IfOk result (λ made. made ≡ replicate admins rows.first_version) }
    ensures told { IfOk result (λ made. made ≡ rows.told_of_all admins []) }
{
    let mut known = List::from_vec(Vec::with_capacity(alloc, admins)?);
    for _admin in 0..admins {
        known.push(Version(1))?;
    }
    Ok(known)
}

pub(crate) fn known_at(known: &List<Version>, admin: AdminId) -> Version
    ensures { result ≡ rows.known_at known.now admin }
{
    match known.get(admin.0 as usize) {
        None => Version(1),
        Some(version) => *version,
    }
}

/// Whether this version is greater than the one that is known.
fn is_newer(known: &List<Version>, admin: AdminId, version: Version) -> bool
    ensures { result ≡ rows.is_newer known.now admin version }
{
    known_at(known, admin).0 < version.0
}

/// The record that is forced on a mail. It is short.
#[tactic(auto, using(crate::proofs::ReplicaLemmas::forces_fit))]
fn forces(known: &List<Version>, said: QBody) -> Option<Record>
    ensures value { result ≡ rows.forces known.now said }
    ensures fits { IfSome result FitsLog }
{
    match said {
        QBody::Store { admin, version } if is_newer(known, admin, version) => {
            Some(Record::Told(Told { admin, version }))
        }
        _ => None,
    }
}

/// What is known after it.
fn learn(known: &mut List<Version>, said: QBody)
    ensures { known.new ≡ rows.learns known.old said }
{
    if let QBody::Store { admin, version } = said {
        if is_newer(known, admin, version) {
            known.put(admin.0 as usize, version);
        }
    }
}

/// What is replied, once the record is on the log.
fn replies(known: &List<Version>, said: QBody) -> Option<QBody>
    ensures { result ≡ rows.replies known.now said }
{
    match said {
        QBody::Fetch { admin } => Some(QBody::Has {
            version: known_at(known, admin),
        }),
        QBody::Store {
            admin: _,
            version: _,
        } => Some(QBody::Stored),
        _ => None,
    }
}

/// What is known after one more record of the log.
fn take_in(known: &mut List<Version>, record: &Record)
    ensures { known.new ≡ rows.with_record known.old record.now }
{
    if let Record::Told(told) = record {
        let admin = told.admin;
        let version = told.version;
        learn(known, QBody::Store { admin, version });
    }
}

/// What a log tells of each of so many administrators.
#[tactic(auto, using(crate::proofs::ReplicaLemmas::told_on))]
fn told_of_all(alloc: Global, admins: usize, records: &[Record]) -> Result<List<Version>, NoMemory>
    ensures { IfOk result (λ known. known ≡ rows.told_of_all admins records.now) }
{
    let mut known = first_versions(alloc, admins)?;
    for record in records {
        take_in(&mut known, record);
    }
    Ok(known)
}

/// The same of a log. Of its disk those records alone are read that it gained since it was read last.
fn told_by(log: &mut ActorLog, alloc: Global, admins: usize) -> Result<List<Version>, NoMemory>
    ensures told { IfOk result (λ known. known ≡ rows.told_of_all admins log.old) }
    ensures same { log.new ≡ log.old }
{
    let past = log.read(alloc)?;
    let made = told_of_all(alloc, admins, past.others.as_slice());
    log.keep(past);
    made
}

impl Replica {
    /// A replica that is up, and was never told anything.
    pub fn opened(alloc: Global, admins: usize) -> Result<Replica, NoMemory>
        ensures { IfOk result (λ made. made ≡ opened_replica admins) }
    {
        let known = first_versions(alloc, admins)?;
        match ActorLog::fresh(alloc) {
            Err(NoMemory) => Err(NoMemory),
            Ok(log) => Ok(Replica {
                up: Some(known),
                log,
            }),
        }
    }

    pub fn is_down(&self) -> bool
        ensures { result ≡ is_replica_down self.now }
    {
        self.up.is_none()
    }

    /// What the replica does on receipt of a mail: it forces, learns, and then answers the reply.
    pub fn receive(&mut self, alloc: Global, said: QBody) -> Result<Option<QBody>, NoMemory>
        ensures now { OnOk result (self.new ≡ rows.received self.old said) }
        ensures reply { IfOk result (λ reply. reply ≡ rows.reply_of self.old said) }
    {
        match &mut self.up {
            None => Ok(None),
            Some(known) => {
                let reply = replies(known, said);
                let append = forces(known, said);
                self.log.force(alloc, &append)?;
                learn(known, said);
                Ok(reply)
            }
        }
    }

    /// The replica crashes: its log stays. It takes no memory.
    pub fn crash(&mut self, alloc: Global)
        ensures { self.new ≡ record self.old { up = None } }
    {
        self.log.crash(alloc);
        self.up = None;
    }

    /// The record that it forces on a mail, while it is up.
    fn forced(&self, mail: &QMail) -> Option<Record>
        ensures value { result ≡ rows.forced_up self.now.up mail.now }
        ensures fits { IfSome result FitsLog }
    {
        match &self.up {
            None => None,
            Some(known) => forces(known, mail.body),
        }
    }

    /// The replica crashes in the receipt of a mail.
    pub fn crash_in(&mut self, alloc: Global, mail: &QMail, cut: Cut) -> Result<(), NoMemory>
        ensures { OnOk result (self.new ≡ record {
          up = None;
          log = log_with self.old.log (cut_record cut (rows.forced_up self.old.up mail.now));
        }) }
    {
        let append = self.forced(mail);
        self.log.cut(alloc, &append, cut)?;
        self.crash(alloc);
        Ok(())
    }

    /// The replica boots: it knows what its log tells, of so many administrators.
    pub fn boot(&mut self, alloc: Global, admins: usize) -> Result<(), NoMemory>
        ensures { OnOk result (self.new ≡ rows.booted admins self.old) }
    {
        let known = told_by(&mut self.log, alloc, admins)?;
        self.up = Some(known);
        Ok(())
    }

    /// The disk of the replica's log. Every image that a crash may leave of it gives exactly the log's records.
    pub fn disk(&self) -> &MemoryDisk
        ensures { IsDiskOf result.now self.now.log }
    {
        self.log.disk()
    }
}
