//! The cluster and its calls.
ghost use Rattle.std.specs.Prelude.{◌≡◌, ◌+◌, ◌≤◌, Some, false, true, slice_get, IfNone, IfOk, IfSome, OnErr, OnOk, IsErrOf};
ghost use Rattle.tp_types.specs.Each.{Each};
ghost use Rattle.tp_model.specs.Words.actor;
ghost use Rattle.tp_model.specs.Words.step;
ghost use Rattle.tp_wire.specs.Calls.{IsCleared, IsTaken, SeesAll};
ghost use Rattle.tp_wire.specs.Entries.{mails_in};
ghost use Rattle.tp_wire.specs.Passes.{Known, IsLook, fresh_passes, views_of};
ghost use Rattle.tp_machine.specs.Named.{IsAdmin, IsCred, IsServer, IsTxn};
ghost use Rattle.tp_cluster.specs.Calls.{IsAnswer, IsCaller, IsClosedWorld, IsReady};
ghost use Rattle.tp_cluster.specs.Runs.{IsNext, actors_of};

use crate::closing::{any_given_up, gathered, replay};
use crate::error::ClusterError;
use crate::gate::Gate2;
use crate::meeting::ClusterWire;
use crate::opening::{Actors, ClusterOpening, deal, passes_of};
use crate::plan::Plan;
use crate::{authority, coordinators, master, servers};
use std::alloc::Global;
use std::marker::Model;
use std::sync::Wait;
use tp_machine::{StepError, World};
use tp_types::{Actor, AdminId, CredId, List, Mail, NoMemory, Place, ServerId, TxnId};
use tp_wire::{Lookup, Pass, Site, Wire};

/// The cluster of a scenario. `B` says which one it is.
#[derive(Drop)]
pub struct Cluster<B: Site<Plan>> {
    plan: Plan,
    wire: ClusterWire<B>,
    actors: Actors<B>,
}

impl<B: Site<Plan>> Model for Cluster<B> {
    ghost use Rattle.std.specs.Coded.{codes};
    ghost use Rattle.tp_types.specs.contracts.policy.Cond as cond;
    ghost use Rattle.std.specs.Prelude.{◌≡◌};
    ghost use Rattle.tp_cluster.specs.Calls.{IsPlan};
    ghost use Rattle.tp_cluster.specs.declared.plan.Plan.{Plan};

    ghost Value = { Plan };

    ghost coded = { Prim.hlevel (codes, cond.the_row.coded) };

    ghost view = { λ c. c.plan };

    ghost invariant = { λ c. (c.plan ≡ B.about) × IsPlan c.plan };
}

impl<B: Site<Plan>> Cluster<B> {
    /// Opens a cluster with an empty history, and a pass for each caller. Their numbers follow those of the actors.
    pub fn opened(
        opening: ClusterOpening,
        alloc: Global,
    ) -> Result<(Cluster<B>, List<Pass>), NoMemory>
        requires site { opening.table ≡ B.table }
        requires about { opening.about ≡ B.about }
        ensures { IfOk result (λ made. made.1 ≡ fresh_passes B.table (actors_of B.about.scenario) B.about.callers) }
    {
        let ClusterOpening { plan, wire } = opening;
        let count = passes_of(&plan);
        let (wire, passes) = Wire::opened(wire, alloc, count)?;
        let (actors, callers) = deal::<B>(alloc, &plan, passes, count)?;
        let cluster = Cluster { plan, wire, actors };
        Ok((cluster, callers))
    }

    /// A length of the history, which the pass is then told. It takes neither a lock nor memory, and may be asked of a
    /// pass that is given up.
    pub fn seen(&self, pass: &mut Pass) -> u64
        requires { pass.old.table ≡ B.table }
        ensures same { (pass.new.table ≡ pass.old.table) × (pass.new.given_up ≡ pass.old.given_up) }
        ensures look { IsLook (IsNext B.about.scenario) (actors_of B.about.scenario) result pass.old.view pass.new.view }
    {
        self.wire.look(pass)
    }

    /// Takes the oldest mail that no pass has taken, or answers None where each that the pass has then seen sent is
    /// taken.
    pub fn take<R: Wait>(&self, rt: &R, pass: &mut Pass) -> Result<Option<u64>, NoMemory>
        requires site { pass.old.table ≡ B.table }
        requires caller { pass.old.given_up ≡ false → IsCaller B.about.scenario pass.old.view }
        ensures site { pass.new.table ≡ B.table }
        ensures seen { OnOk result (SeesAll (IsNext B.about.scenario) (actors_of B.about.scenario) pass.old.view pass.new.view) }
        ensures some { IfOk result (λ found. IfSome found (λ mail. IsTaken pass.old.view mail pass.new.view)) }
        ensures none { IfOk result (λ found. IfNone found (IsCleared pass.old.view pass.new.view)) }
        ensures live { OnOk result ((pass.old.given_up ≡ false) × (pass.new.given_up ≡ false)) }
        ensures caller { OnOk result (IsCaller B.about.scenario pass.new.view) }
        ensures memory { OnErr result (pass.new.given_up ≡ true) }
    {
        if pass.given_up() {
            return Err(NoMemory);
        }
        match self.wire.take(rt, pass) {
            Ok(Some(mail)) => Ok(Some(mail)),
            Ok(None) => Ok(None),
            Err(NoMemory) => {
                pass.give_up();
                Err(NoMemory)
            }
        }
    }

    /// Moves the clock. Answers the place of the step.
    pub fn tick<R: Wait>(&self, rt: &R, pass: &mut Pass, by: u64) -> Result<Place, ClusterError>
        requires site { pass.old.table ≡ B.table }
        requires caller { pass.old.given_up ≡ false → IsCaller B.about.scenario pass.old.view }
        ensures site { pass.new.table ≡ B.table }
        ensures answer { IsAnswer B.about.scenario pass.old (step.Tick by) result pass.new }
        ensures memory { IsErrOf result ClusterError.NoMemory → pass.new.given_up ≡ true }
    {
        if pass.given_up() {
            return Err(ClusterError::NoMemory);
        }
        let answer = self.ticks(rt, pass, by);
        if let Err(ClusterError::NoMemory) = answer {
            pass.give_up();
        }
        answer
    }

    fn ticks<R: Wait>(&self, rt: &R, pass: &mut Pass, by: u64) -> Result<Place, ClusterError>
        requires { IsReady B.about.scenario B.table pass.old }
        ensures site { pass.new.table ≡ B.table }
        ensures answer { IsAnswer B.about.scenario pass.old (step.Tick by) result pass.new }
    {
        let mut guard = self.actors.authority.lock(rt);
        let office = &mut *guard;
        authority::tick(rt, &self.wire, pass, office, by)
    }

    /// Revokes a credential. Answers the place of the step.
    pub fn revoke<R: Wait>(
        &self,
        rt: &R,
        pass: &mut Pass,
        cred: CredId,
    ) -> Result<Place, ClusterError>
        requires site { pass.old.table ≡ B.table }
        requires caller { pass.old.given_up ≡ false → IsCaller B.about.scenario pass.old.view }
        requires exists { IsCred B.about.scenario cred }
        ensures site { pass.new.table ≡ B.table }
        ensures answer { IsAnswer B.about.scenario pass.old (step.Revoke cred) result pass.new }
        ensures memory { IsErrOf result ClusterError.NoMemory → pass.new.given_up ≡ true }
    {
        if pass.given_up() {
            return Err(ClusterError::NoMemory);
        }
        let answer = self.revokes(rt, pass, cred);
        if let Err(ClusterError::NoMemory) = answer {
            pass.give_up();
        }
        answer
    }

    fn revokes<R: Wait>(&self, rt: &R, pass: &mut Pass, cred: CredId) -> Result<Place, ClusterError>
        requires ready { IsReady B.about.scenario B.table pass.old }
        requires exists { IsCred B.about.scenario cred }
        ensures site { pass.new.table ≡ B.table }
        ensures answer { IsAnswer B.about.scenario pass.old (step.Revoke cred) result pass.new }
    {
        let mut guard = self.actors.authority.lock(rt);
        let office = &mut *guard;
        authority::revoke(rt, &self.wire, pass, office, cred)
    }

    /// Submits a transaction. Answers the place of the step, which is its age.
    pub fn submit<R: Wait>(
        &self,
        rt: &R,
        pass: &mut Pass,
        txn: TxnId,
    ) -> Result<Place, ClusterError>
        requires site { pass.old.table ≡ B.table }
        requires caller { pass.old.given_up ≡ false → IsCaller B.about.scenario pass.old.view }
        requires exists { IsTxn B.about.scenario txn }
        ensures site { pass.new.table ≡ B.table }
        ensures answer { IsAnswer B.about.scenario pass.old (step.Submit txn) result pass.new }
        ensures memory { IsErrOf result ClusterError.NoMemory → pass.new.given_up ≡ true }
    {
        if pass.given_up() {
            return Err(ClusterError::NoMemory);
        }
        let answer = self.submits(rt, pass, txn);
        if let Err(ClusterError::NoMemory) = answer {
            pass.give_up();
        }
        answer
    }

    fn submits<R: Wait>(&self, rt: &R, pass: &mut Pass, txn: TxnId) -> Result<Place, ClusterError>
        requires ready { IsReady B.about.scenario B.table pass.old }
        requires exists { IsTxn B.about.scenario txn }
        ensures site { pass.new.table ≡ B.table }
        ensures answer { IsAnswer B.about.scenario pass.old (step.Submit txn) result pass.new }
    {
        // each coordinator stands at its number: these branches no run takes
        let Some(lock) = self.actors.coordinators.get(txn.0 as usize) else {
            return Err(ClusterError::NoMemory);
        };
        let mut guard = lock.lock(rt);
        let office = &mut *guard;
        let scenario = &self.plan.scenario;
        coordinators::submit(rt, &self.wire, scenario, pass, office, txn)
    }

    /// A transaction's timer fires. Answers the place of the step.
    pub fn timer<R: Wait>(&self, rt: &R, pass: &mut Pass, txn: TxnId) -> Result<Place, ClusterError>
        requires site { pass.old.table ≡ B.table }
        requires caller { pass.old.given_up ≡ false → IsCaller B.about.scenario pass.old.view }
        requires exists { IsTxn B.about.scenario txn }
        ensures site { pass.new.table ≡ B.table }
        ensures answer { IsAnswer B.about.scenario pass.old (step.Timer txn) result pass.new }
        ensures memory { IsErrOf result ClusterError.NoMemory → pass.new.given_up ≡ true }
    {
        if pass.given_up() {
            return Err(ClusterError::NoMemory);
        }
        let answer = self.fires(rt, pass, txn);
        if let Err(ClusterError::NoMemory) = answer {
            pass.give_up();
        }
        answer
    }

    fn fires<R: Wait>(&self, rt: &R, pass: &mut Pass, txn: TxnId) -> Result<Place, ClusterError>
        requires ready { IsReady B.about.scenario B.table pass.old }
        requires exists { IsTxn B.about.scenario txn }
        ensures site { pass.new.table ≡ B.table }
        ensures answer { IsAnswer B.about.scenario pass.old (step.Timer txn) result pass.new }
    {
        // each coordinator stands at its number: these branches no run takes
        let Some(lock) = self.actors.coordinators.get(txn.0 as usize) else {
            return Err(ClusterError::NoMemory);
        };
        let mut guard = lock.lock(rt);
        let office = &mut *guard;
        let scenario = &self.plan.scenario;
        coordinators::timer(rt, &self.wire, scenario, pass, office, txn)
    }

    /// Publishes the next version of an administrator's policy. Answers the place of the step.
    pub fn publish<R: Wait>(
        &self,
        rt: &R,
        pass: &mut Pass,
        admin: AdminId,
    ) -> Result<Place, ClusterError>
        requires site { pass.old.table ≡ B.table }
        requires caller { pass.old.given_up ≡ false → IsCaller B.about.scenario pass.old.view }
        requires exists { IsAdmin B.about.scenario admin }
        ensures site { pass.new.table ≡ B.table }
        ensures answer { IsAnswer B.about.scenario pass.old (step.Publish admin) result pass.new }
        ensures memory { IsErrOf result ClusterError.NoMemory → pass.new.given_up ≡ true }
    {
        if pass.given_up() {
            return Err(ClusterError::NoMemory);
        }
        let answer = self.publishes(rt, pass, admin);
        if let Err(ClusterError::NoMemory) = answer {
            pass.give_up();
        }
        answer
    }

    fn publishes<R: Wait>(
        &self,
        rt: &R,
        pass: &mut Pass,
        admin: AdminId,
    ) -> Result<Place, ClusterError>
        requires ready { IsReady B.about.scenario B.table pass.old }
        requires exists { IsAdmin B.about.scenario admin }
        ensures site { pass.new.table ≡ B.table }
        ensures answer { IsAnswer B.about.scenario pass.old (step.Publish admin) result pass.new }
    {
        let mut guard = self.actors.master.lock(rt);
        let office = &mut *guard;
        master::publish(rt, &self.wire, pass, office, admin)
    }

    /// Pushes the newest version of an administrator's policy to a server. Answers the place of the step.
    pub fn push<R: Wait>(
        &self,
        rt: &R,
        pass: &mut Pass,
        admin: AdminId,
        server: ServerId,
    ) -> Result<Place, ClusterError>
        requires site { pass.old.table ≡ B.table }
        requires caller { pass.old.given_up ≡ false → IsCaller B.about.scenario pass.old.view }
        requires exists { IsAdmin B.about.scenario admin × IsServer B.about.scenario server }
        ensures site { pass.new.table ≡ B.table }
        ensures answer { IsAnswer B.about.scenario pass.old (step.Push admin server) result pass.new }
        ensures memory { IsErrOf result ClusterError.NoMemory → pass.new.given_up ≡ true }
    {
        if pass.given_up() {
            return Err(ClusterError::NoMemory);
        }
        let answer = self.pushes(rt, pass, admin, server);
        if let Err(ClusterError::NoMemory) = answer {
            pass.give_up();
        }
        answer
    }

    fn pushes<R: Wait>(
        &self,
        rt: &R,
        pass: &mut Pass,
        admin: AdminId,
        server: ServerId,
    ) -> Result<Place, ClusterError>
        requires ready { IsReady B.about.scenario B.table pass.old }
        requires exists { IsAdmin B.about.scenario admin × IsServer B.about.scenario server }
        ensures site { pass.new.table ≡ B.table }
        ensures answer { IsAnswer B.about.scenario pass.old (step.Push admin server) result pass.new }
    {
        let mut guard = self.actors.master.lock(rt);
        let office = &mut *guard;
        master::push(rt, &self.wire, pass, office, admin, server)
    }

    fn to_coordinator<R: Wait>(
        &self,
        rt: &R,
        pass: &mut Pass,
        txn: TxnId,
        number: u64,
        mail: &Mail,
    ) -> Result<Place, ClusterError>
        requires ready { IsReady B.about.scenario B.table pass.old }
        requires sent { slice_get (mails_in pass.old.view.seen) number ≡ Some mail.now }
        requires to { mail.now.letter.to ≡ actor.Coordinator txn }
        ensures site { pass.new.table ≡ B.table }
        ensures answer { IsAnswer B.about.scenario pass.old (step.Deliver number) result pass.new }
    {
        // no mail is sent to a coordinator that is not there, and each stands at its number: these branches no run takes
        let Some(lock) = self.actors.coordinators.get(txn.0 as usize) else {
            return Err(ClusterError::NoMemory);
        };
        let mut guard = lock.lock(rt);
        let office = &mut *guard;
        let scenario = &self.plan.scenario;
        coordinators::deliver(rt, &self.wire, scenario, pass, office, txn, number, mail)
    }

    fn to_authority<R: Wait>(
        &self,
        rt: &R,
        pass: &mut Pass,
        number: u64,
        mail: &Mail,
    ) -> Result<Place, ClusterError>
        requires ready { IsReady B.about.scenario B.table pass.old }
        requires sent { slice_get (mails_in pass.old.view.seen) number ≡ Some mail.now }
        requires to { mail.now.letter.to ≡ actor.Authority }
        ensures site { pass.new.table ≡ B.table }
        ensures answer { IsAnswer B.about.scenario pass.old (step.Deliver number) result pass.new }
    {
        let mut guard = self.actors.authority.lock(rt);
        let office = &mut *guard;
        authority::deliver(rt, &self.wire, pass, office, number, mail)
    }

    fn to_master<R: Wait>(
        &self,
        rt: &R,
        pass: &mut Pass,
        number: u64,
        mail: &Mail,
    ) -> Result<Place, ClusterError>
        requires ready { IsReady B.about.scenario B.table pass.old }
        requires sent { slice_get (mails_in pass.old.view.seen) number ≡ Some mail.now }
        requires to { mail.now.letter.to ≡ actor.Master }
        ensures site { pass.new.table ≡ B.table }
        ensures answer { IsAnswer B.about.scenario pass.old (step.Deliver number) result pass.new }
    {
        let mut guard = self.actors.master.lock(rt);
        let office = &mut *guard;
        master::deliver(rt, &self.wire, pass, office, number, mail)
    }

    /// Delivers a mail to its actor. Of a server the gate is called first, under the server's lock.
    pub fn deliver<R: Wait, G: Gate2>(
        &self,
        rt: &R,
        alloc: Global,
        pass: &mut Pass,
        number: u64,
        gate: &G,
    ) -> Result<Place, ClusterError>
        requires site { pass.old.table ≡ B.table }
        requires caller { pass.old.given_up ≡ false → IsCaller B.about.scenario pass.old.view }
        ensures site { pass.new.table ≡ B.table }
        ensures answer { IsAnswer B.about.scenario pass.old (step.Deliver number) result pass.new }
        ensures memory { IsErrOf result ClusterError.NoMemory → pass.new.given_up ≡ true }
    {
        if pass.given_up() {
            return Err(ClusterError::NoMemory);
        }
        let answer = self.delivers(rt, alloc, pass, number, gate);
        if let Err(ClusterError::NoMemory) = answer {
            pass.give_up();
        }
        answer
    }

    fn delivers<R: Wait, G: Gate2>(
        &self,
        rt: &R,
        alloc: Global,
        pass: &mut Pass,
        number: u64,
        gate: &G,
    ) -> Result<Place, ClusterError>
        requires { IsReady B.about.scenario B.table pass.old }
        ensures site { pass.new.table ≡ B.table }
        ensures answer { IsAnswer B.about.scenario pass.old (step.Deliver number) result pass.new }
    {
        match self.wire.mail(rt, alloc, pass, number) {
            Err(NoMemory) => Err(ClusterError::NoMemory),
            Ok(Lookup::Missing { mails }) => {
                let why = StepError::NoSuchMail {
                    mail: number,
                    mails,
                };
                Err(ClusterError::Refused(why))
            }
            Ok(Lookup::Found(mail)) => self.receives(rt, pass, number, &mail, gate),
        }
    }

    fn receives<R: Wait, G: Gate2>(
        &self,
        rt: &R,
        pass: &mut Pass,
        number: u64,
        mail: &Mail,
        gate: &G,
    ) -> Result<Place, ClusterError>
        requires ready { IsReady B.about.scenario B.table pass.old }
        requires sent { slice_get (mails_in pass.old.view.seen) number ≡ Some mail.now }
        ensures site { pass.new.table ≡ B.table }
        ensures answer { IsAnswer B.about.scenario pass.old (step.Deliver number) result pass.new }
    {
        match mail.letter.to {
            Actor::Server(at) => self.to_server(rt, pass, at, number, mail, gate),
            Actor::Authority => self.to_authority(rt, pass, number, mail),
            Actor::Master => self.to_master(rt, pass, number, mail),
            Actor::Coordinator(txn) => self.to_coordinator(rt, pass, txn, number, mail),
        }
    }

    fn to_server<R: Wait, G: Gate2>(
        &self,
        rt: &R,
        pass: &mut Pass,
        at: ServerId,
        number: u64,
        mail: &Mail,
        gate: &G,
    ) -> Result<Place, ClusterError>
        requires ready { IsReady B.about.scenario B.table pass.old }
        requires sent { slice_get (mails_in pass.old.view.seen) number ≡ Some mail.now }
        requires to { mail.now.letter.to ≡ actor.Server at }
        ensures site { pass.new.table ≡ B.table }
        ensures answer { IsAnswer B.about.scenario pass.old (step.Deliver number) result pass.new }
    {
        // no mail is sent to a server that is not there, and each stands at its number: these branches no run takes
        let Some(lock) = self.actors.servers.get(at.0 as usize) else {
            return Err(ClusterError::NoMemory);
        };
        let mut guard = lock.lock(rt);
        let office = &mut *guard;
        gate.pass(at.0);
        let scenario = &self.plan.scenario;
        servers::deliver(rt, &self.wire, scenario, pass, office, at, number, mail)
    }

    /// Closes the cluster, and gives the world of its history's steps. It compares nothing: the history is a run. With
    /// a pass that is given up it answers NoMemory.
    pub fn close(self, alloc: Global, passes: List<Pass>) -> Result<World, NoMemory>
        requires { Each (λ (p : Known). p.table ≡ B.table) passes }
        ensures closed { IfOk result (λ world. IsClosedWorld B.about (views_of passes) world) }
        ensures live { OnOk result (Each (λ (p : Known). p.given_up ≡ false) passes) }
    {
        let Cluster { plan, wire, actors } = self;
        if any_given_up(&passes) {
            return Err(NoMemory);
        }
        let passes = gathered(&plan, passes, actors)?;
        let book = wire.close(passes)?;
        let world = World::of(alloc, plan.scenario)?;
        replay(alloc, world, book.steps)
    }
}
