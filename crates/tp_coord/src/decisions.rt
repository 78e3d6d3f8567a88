//! A coordinator's decision, which is forced before it is sent, the acknowledgements of it, and those who ask for it.
ghost use Rattle.std.specs.Prelude.{◌≡◌, ◌==◌, not, Option, None, filter, IfOk, OnOk};
ghost use Rattle.tp_coord.specs.declared.coordinator.Phase.TheVariants as Phase;
ghost use Rattle.tp_model.specs.Words.{ServerId};
ghost use Rattle.tp_model.specs.Words.body;
ghost use Rattle.tp_types.specs.Effect.{Gives, sends};
ghost use Rattle.tp_coord.specs.Row as row;

use crate::coordinator::{Coordinator, Phase};
use std::alloc::Global;
use std::mem;
use tp_types::{
    Actor, Body, Cause, CommitRecord, DecideRequest, Decided, Decision, Denied, Letter, List,
    NoMemory, Outcome, Reaction, Record, ServerId, Spare, TryClone, Verdict, both, ignored,
    nothing, sent_alone,
};

impl Coordinator {
    pub(crate) fn aborts(&mut self, alloc: Global, why: Cause) -> Result<Reaction, NoMemory>
        ensures { IfOk result (λ reaction. Gives (row.aborts self.old why) self.new reaction) }
    {
        self.decides(alloc, Outcome::Abort, Decision::Abort(why))
    }

    /// The transaction commits, after so many rounds, on the instances that it has closed.
    pub(crate) fn commits(&mut self, alloc: Global, rounds: u32) -> Result<Reaction, NoMemory>
        ensures { IfOk result (λ reaction. Gives (row.commits self.old rounds) self.new reaction) }
    {
        let instances = self.gathered.instances().try_clone(alloc);
        let (instances, deeds) = both(instances, self.deeds.try_clone(alloc))?;
        let commit = CommitRecord {
            rounds,
            instances,
            deeds,
        };
        self.decides(alloc, Outcome::Commit, Decision::Commit(commit))
    }

    fn decides(
        &mut self,
        alloc: Global,
        outcome: Outcome,
        decision: Decision,
    ) -> Result<Reaction, NoMemory>
        ensures { IfOk result (λ reaction.
            Gives (row.decides self.old outcome decision) self.new reaction) }
    {
        let letters = self.ends(alloc, outcome)?;
        let decided = Record::Decided(Decided {
            txn: self.txn,
            decision,
        });
        Ok(Reaction {
            append: Some(decided),
            letters,
        })
    }

    /// All of the transaction's servers are told the outcome, and are to acknowledge it.
    fn ends(&mut self, alloc: Global, outcome: Outcome) -> Result<List<Letter>, NoMemory>
        ensures letters { IfOk result (λ letters.
            letters ≡ row.decide_letters self.old outcome self.old.servers) }
        ensures awaited { OnOk result
            (self.new ≡ record self.old { phase = Phase.Ending outcome self.old.servers }) }
    {
        let letters = self.decide_letters(alloc, outcome, self.servers.as_slice());
        let (letters, awaited) = both(letters, self.servers.try_clone(alloc))?;
        self.enters(Phase::Ending { outcome, awaited });
        Ok(letters)
    }

    /// A coordinator that booted had decided so, and sends it again.
    pub(crate) fn ends_again(
        &mut self,
        alloc: Global,
        outcome: Outcome,
    ) -> Result<Reaction, NoMemory>
        ensures { IfOk result (λ reaction.
            Gives
            (sends (record self.old { phase = Phase.Ending outcome self.old.servers })
            (row.decide_letters self.old outcome self.old.servers))
            self.new reaction) }
    {
        let letters = self.ends(alloc, outcome)?;
        Ok(Reaction {
            append: None,
            letters,
        })
    }

    pub(crate) fn decide_letters(
        &self,
        alloc: Global,
        outcome: Outcome,
        servers: &[ServerId],
    ) -> Result<List<Letter>, NoMemory>
        ensures { IfOk result (λ letters.
            letters ≡ row.decide_letters self.now outcome servers.now) }
    {
        let mut letters = List::from_vec(Vec::with_capacity(alloc, servers.len())?);
        for server in servers {
            letters.push(self.decide_letter(outcome, *server))?;
        }
        Ok(letters)
    }

    fn decide_letter(&self, outcome: Outcome, server: ServerId) -> Letter
        ensures { result ≡ row.request self.now server
            (body.Decide (record { txn = self.now.txn; outcome = outcome })) }
    {
        let decide = DecideRequest {
            txn: self.txn,
            outcome,
        };
        self.request(server, Body::Decide(decide))
    }

    /// A server that booted asks how the transaction was decided: once it was, the server is told again.
    pub(crate) fn on_inquire(
        &self,
        spare: &mut Spare<Letter>,
        from: Actor,
    ) -> Result<Reaction, NoMemory>
        ensures { IfOk result (λ reaction.
            Gives (row.on_inquire self.now self.now.phase from) self.now reaction) }
    {
        let alloc = spare.alloc();
        let Actor::Server(server) = from else {
            return Ok(ignored(alloc));
        };
        match &self.phase {
            Phase::Ending {
                outcome,
                awaited: _,
            } => sent_alone(spare, self.decide_letter(*outcome, server)),
            _ => Ok(ignored(alloc)),
        }
    }

    pub(crate) fn on_ack(&mut self, alloc: Global, from: Actor) -> Result<Reaction, NoMemory>
        ensures { IfOk result (λ reaction.
            Gives (row.on_ack self.old self.old.phase from) self.new reaction) }
    {
        let Actor::Server(server) = from else {
            return Ok(ignored(alloc));
        };
        match &mut self.phase {
            Phase::Ending {
                outcome: _,
                awaited,
            } => {
                *awaited = without(mem::replace(awaited, List::new(alloc)), server);
                Ok(nothing(alloc))
            }
            _ => Ok(ignored(alloc)),
        }
    }
}

/// The servers that are still awaited, without this one. It takes no memory.
pub(crate) fn without(awaited: List<ServerId>, server: ServerId) -> List<ServerId>
    ensures { result ≡ row.without awaited server }
{
    let mut left = awaited.into_vec();
    left.retain(|other| other.0 != server.0);
    List::from_vec(left)
}

/// What a false verdict denies.
pub(crate) fn denied_by(verdict: &Verdict) -> Denied
    ensures { result ≡ row.denied_by verdict.now }
{
    Denied {
        query: verdict.query,
        server: verdict.server,
        admin: verdict.admin,
        version: verdict.version,
        place: verdict.place,
    }
}
