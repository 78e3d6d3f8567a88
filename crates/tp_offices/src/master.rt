//! The master: the newest version of each administrator's policy, which it publishes and pushes to servers.
ghost use Rattle.std.specs.Prelude.{◌≡◌, ◌<◌, ◌^◌, map, length, true, false, IfOk, IfErr, OnOk, OnErr};
ghost use Rattle.tp_types.specs.Effect.{Gives};
ghost use Rattle.tp_offices.specs.Master as office;

use std::alloc::Global;
use tp_types::{
    Actor, Admin, AdminId, Body, Letter, List, Mail, NewestReply, NoMemory, ProbeRequest,
    PushNotice, Reaction, Scenario, ServerId, Spare, TryClone, Version, ignored, sent_alone,
};

/// The master's state.
#[derive(Drop)]
pub struct Master {
    /// The newest version of each administrator.
    pub newest: List<Version>,
    /// The last version in the library of each administrator.
    pub last: List<Version>,
}

/// The newest version is the last in the library.
#[derive(Clone, Copy)]
pub struct NoMore;

impl Master {
    /// The master as it stands before the first step: it knows the versions with which the administrators begin.
    pub fn opened(alloc: Global, scenario: &Scenario) -> Result<Master, NoMemory>
        ensures { IfOk result (λ made. made ≡ office.opening scenario.now) }
    {
        Ok(Master {
            newest: opening_versions(alloc, scenario.admins.as_slice())?,
            last: last_versions(alloc, scenario.admins.as_slice())?,
        })
    }

    /// Whether the library of an administrator has a version after the newest.
    pub fn has_more(&self, admin: AdminId) -> bool
        ensures { result ≡ office.has_more self.now admin }
    {
        version_in(&self.newest, admin).0 < version_in(&self.last, admin).0
    }

    /// Makes the next version of an administrator's policy the newest, and answers it. NoMore exactly where the newest is the last in
    /// the library; then nothing changes. It takes no memory.
    pub fn publish(&mut self, admin: AdminId) -> Result<Version, NoMore>
        ensures version { IfOk result (λ version. version ≡ office.next_of self.old admin) }
        ensures more { OnOk result (office.has_more self.old admin ≡ true) }
        ensures ok { OnOk result (self.new ≡ office.after_publication admin self.old) }
        ensures none { OnErr result (office.has_more self.old admin ≡ false) }
        ensures unchanged { OnErr result (self.new ≡ self.old) }
    {
        let newest = version_in(&self.newest, admin);
        if newest.0 < version_in(&self.last, admin).0 {
            let next = Version(newest.0 + 1);
            self.newest.put(admin.0 as usize, next);
            Ok(next)
        } else {
            Err(NoMore)
        }
    }

    /// Sends the newest version of an administrator's policy to a server.
    pub fn push(
        &self,
        spare: &mut Spare<Letter>,
        admin: AdminId,
        server: ServerId,
    ) -> Result<Reaction, NoMemory>
        ensures { IfOk result (λ reaction.
            Gives (office.pushes self.now admin server) self.now reaction) }
    {
        let letter = Letter {
            from: Actor::Master,
            to: Actor::Server(server),
            body: Body::Push(PushNotice {
                admin,
                version: version_in(&self.newest, admin),
            }),
        };
        sent_alone(spare, letter)
    }

    /// What the master does on receipt of a mail. Its state stays.
    pub fn receive(&self, spare: &mut Spare<Letter>, mail: &Mail) -> Result<Reaction, NoMemory>
        ensures { IfOk result (λ reaction.
            Gives (office.master_row self.now mail.now) self.now reaction) }
    {
        match &mail.letter.body {
            Body::Probe(request) => self.tells(spare, *request),
            _ => Ok(ignored(spare.alloc())),
        }
    }

    fn tells(&self, spare: &mut Spare<Letter>, request: ProbeRequest) -> Result<Reaction, NoMemory>
        ensures { IfOk result (λ reaction.
            Gives (office.tells self.now request) self.now reaction) }
    {
        let told = NewestReply {
            txn: request.txn,
            turn: request.turn,
            newest: self.newest.try_clone(spare.alloc())?,
        };
        let letter = Letter {
            from: Actor::Master,
            to: Actor::Coordinator(request.txn),
            body: Body::Newest(told),
        };
        sent_alone(spare, letter)
    }
}

fn opening_versions(alloc: Global, admins: &[Admin]) -> Result<List<Version>, NoMemory>
    ensures { IfOk result (λ made. made ≡ map office.opening_in admins.now) }
{
    let mut made = List::new(alloc);
    for admin in admins {
        made.push(admin.opening)?;
    }
    Ok(made)
}

fn last_versions(alloc: Global, admins: &[Admin]) -> Result<List<Version>, NoMemory>
    ensures { IfOk result (λ made. made ≡ map office.last_of admins.now) }
{
    let mut made = List::new(alloc);
    for admin in admins {
        made.push(Version(u32::try_from(admin.library.len()).unwrap_or(u32::MAX)))?;
    }
    Ok(made)
}

fn version_in(versions: &List<Version>, admin: AdminId) -> Version
    ensures { result ≡ office.version_for versions.now admin }
{
    versions
        .get(admin.0 as usize)
        .copied()
        .unwrap_or(Version(0))
}
