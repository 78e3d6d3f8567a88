//! A cluster as it is opened: each actor with its pass behind its lock, and a pass for each caller.
ghost use Rattle.std.specs.Prelude.{◌≡◌, ◌+◌, ◌<◌, ◌≤◌, ◌^◌, Some, length, true, IfOk};
ghost use Rattle.tp_machine.specs.Fits.{AllFitLogs};
ghost use Rattle.tp_model.specs.Valid.{is_valid};
ghost use Rattle.tp_machine.specs.Machine.{opened_actors};
ghost use Rattle.tp_machine.specs.Moves.{number_of};
ghost use Rattle.tp_machine.specs.Named.{IsActor};
ghost use Rattle.tp_cluster.specs.Offices.{held_at};
ghost use Rattle.tp_wire.specs.Passes.{fresh_pass, fresh_passes};
ghost use Rattle.tp_cluster.specs.Runs.{actors_of};

use crate::office::{Office, Officer};
use crate::plan::{Plan, Runs};
use std::alloc::Global;
use std::marker::{Model, PhantomData};
use std::sync::Mutex;
use std::vec::IntoIter;
use tp_coord::Coordinator;
use tp_lock::LockTable;
use tp_machine::{Locks, Part, Spares};
use tp_offices::{Authority, Master};
use tp_server::Server;
use tp_store::first_item;
use tp_types::{Actor, List, NoMemory, Scenario, ServerId, TryClone, TxnId};
use tp_wire as wire;
use tp_wire::{Pass, Site};

/// An actor behind its lock.
pub type Locked<S, B> = Mutex<Office<S, B>>;

/// A cluster that no type names yet. A caller makes one, names it as its `Site`, and opens the cluster on it.
#[derive(Drop)]
pub struct ClusterOpening {
    pub(crate) plan: Plan,
    pub(crate) wire: wire::Opening<Plan, Runs>,
}

impl Model for ClusterOpening {
    ghost use Rattle.std.specs.Coded.{codes};
    ghost use Rattle.tp_types.specs.contracts.policy.Cond as cond;
    ghost use Rattle.std.specs.Prelude.{◌≡◌};
    ghost use Rattle.tp_wire.specs.Passes.{Opened};
    ghost use Rattle.tp_cluster.specs.Calls.{IsPlan};
    ghost use Rattle.tp_cluster.specs.declared.plan.Plan.{Plan};

    ghost Value = { Opened Plan };

    ghost coded = { Prim.hlevel (codes, cond.the_row.coded) };

    ghost view = { λ o. record { table = o.wire.table; about = o.plan } };

    ghost invariant = { λ o. (o.wire.about ≡ o.plan) × IsPlan o.plan };
}

impl ClusterOpening {
    /// Makes a table for a cluster of this scenario and so many callers.
    pub fn new(alloc: Global, scenario: &Scenario, callers: u32) -> Result<ClusterOpening, NoMemory>
        requires valid { is_valid scenario.now ≡ true }
        requires fit { AllFitLogs scenario.now }
        requires some { 1 ≤ callers }
        requires few { callers ≤ 100 }
        ensures { IfOk result (λ o. o.about ≡ record { scenario = scenario.now; callers = callers }) }
    {
        let plan = Plan {
            scenario: scenario.try_clone(alloc)?,
            callers,
        };
        let wire = wire::Opening::new(alloc, &plan)?;
        Ok(ClusterOpening { plan, wire })
    }
}

/// How many passes a cluster's wire has: one for each actor, and one for each caller.
pub fn passes_of(plan: &Plan) -> u32
    requires servers { length plan.now.scenario.servers ≤ 16 }
    requires txns { length plan.now.scenario.txns ≤ 128 }
    requires callers { plan.now.callers ≤ 100 }
    ensures { result ≡ actors_of plan.now.scenario + plan.now.callers }
{
    plan.scenario.servers.len() as u32 + plan.scenario.txns.len() as u32 + 2 + plan.callers
}

/// The passes of a wire that are not dealt yet. Contracts see the number of the next one.
#[derive(Drop)]
pub struct Dealer<B: Site<Plan>> {
    passes: IntoIter<Pass, Global>,
    number: u32,
    site: PhantomData<B>,
}

impl<B: Site<Plan>> Model for Dealer<B> {
    ghost use Rattle.std.specs.Prelude.{◌≡◌, ℕ};
    ghost use Rattle.std.specs.Vec.Iter.{into_iter_items};
    ghost use Rattle.tp_wire.specs.Passes.{fresh_passes};

    ghost Value = { ℕ };

    ghost view = { λ d. d.number };

    ghost invariant = { λ d. (left : ℕ) × (into_iter_items d.passes ≡ fresh_passes B.table d.number left) };
}

impl<B: Site<Plan>> Dealer<B> {
    /// All passes of a wire, so many.
    pub fn of(passes: List<Pass>, count: u32) -> Dealer<B>
        requires { passes ≡ fresh_passes B.table 0 count }
        ensures { result ≡ 0 }
    {
        Dealer {
            passes: passes.into_vec().into_iter(),
            number: 0,
            site: PhantomData,
        }
    }

    /// The next pass, with its number.
    fn next(&mut self) -> Result<(u32, Pass), NoMemory>
        ensures { IfOk result (λ dealt. (dealt.0 ≡ self.old) × (dealt.1 ≡ fresh_pass B.table self.old) × (self.new ≡ self.old + 1)) }
    {
        let Some(next) = self.number.checked_add(1) else {
            return Err(NoMemory);
        };
        let Some(pass) = self.passes.next() else {
            return Err(NoMemory);
        };
        let number = self.number;
        self.number = next;
        Ok((number, pass))
    }

    /// The pass of the next actor, whose number this has to be, behind a lock with what the actor opens with.
    fn office<S: Officer + Drop>(
        &mut self,
        alloc: Global,
        actor: Actor,
        state: S,
    ) -> Result<Locked<S, B>, NoMemory>
        requires exists { IsActor B.about.scenario actor }
        requires number { self.old ≡ number_of B.about.scenario actor }
        requires opened { IsActor B.about.scenario actor
            → held_at (opened_actors B.about.scenario) actor ≡ Some (S.held state) }
        ensures { IfOk result (λ _. self.new ≡ self.old + 1) }
    {
        match self.next() {
            Ok((number, pass)) => Ok(Mutex::new(Office {
                number,
                actor,
                state,
                pass: Some(pass),
                spares: Spares::new(alloc),
                site: PhantomData,
            })),
            Err(NoMemory) => {
                drop(state);
                Err(NoMemory)
            }
        }
    }

    /// The servers.
    pub fn servers(
        &mut self,
        alloc: Global,
        scenario: &Scenario,
    ) -> Result<List<Locked<Part<Server<Locks>>, B>>, NoMemory>
        requires about { scenario.now ≡ B.about.scenario }
        requires few { length scenario.now.servers < 2 ^ 32 }
        requires first { self.old ≡ 0 }
        ensures { IfOk result (λ _. self.new ≡ length scenario.now.servers) }
    {
        let mut made = List::new(alloc);
        for number in 0..scenario.servers.len() as u32 {
            let at = ServerId(number);
            let locks = Locks::opened(alloc, scenario.items.len(), first_item(scenario, at))?;
            let server = Server::opened(alloc, scenario, at, locks)?;
            let state = Part::opened(alloc, server)?;
            made.push(self.office(alloc, Actor::Server(at), state)?)?;
        }
        Ok(made)
    }

    /// The coordinators.
    pub fn coordinators(
        &mut self,
        alloc: Global,
        scenario: &Scenario,
    ) -> Result<List<Locked<Part<Coordinator>, B>>, NoMemory>
        requires about { scenario.now ≡ B.about.scenario }
        requires servers { length scenario.now.servers < 2 ^ 32 }
        requires few { length scenario.now.txns < 2 ^ 32 }
        requires first { self.old ≡ length scenario.now.servers }
        ensures { IfOk result (λ _. self.new ≡ length scenario.now.servers + length scenario.now.txns) }
    {
        let mut made = List::new(alloc);
        for number in 0..scenario.txns.len() as u32 {
            let txn = TxnId(number);
            let coordinator = Coordinator::idle(alloc, scenario, txn)?;
            let state = Part::opened(alloc, coordinator)?;
            made.push(self.office(alloc, Actor::Coordinator(txn), state)?)?;
        }
        Ok(made)
    }

    /// The authority.
    pub fn authority(
        &mut self,
        alloc: Global,
        scenario: &Scenario,
    ) -> Result<Locked<Authority, B>, NoMemory>
        requires about { scenario.now ≡ B.about.scenario }
        requires first { self.old ≡ length scenario.now.servers + length scenario.now.txns }
        ensures { IfOk result (λ _. self.new ≡ length scenario.now.servers + length scenario.now.txns + 1) }
    {
        let state = Authority::opened(alloc, scenario)?;
        self.office(alloc, Actor::Authority, state)
    }

    /// The master.
    pub fn master(
        &mut self,
        alloc: Global,
        scenario: &Scenario,
    ) -> Result<Locked<Master, B>, NoMemory>
        requires about { scenario.now ≡ B.about.scenario }
        requires first { self.old ≡ length scenario.now.servers + length scenario.now.txns + 1 }
        ensures { IfOk result (λ _. self.new ≡ actors_of scenario.now) }
    {
        let state = Master::opened(alloc, scenario)?;
        self.office(alloc, Actor::Master, state)
    }

    /// The next passes, so many, for callers.
    pub fn callers(&mut self, alloc: Global, count: u32) -> Result<List<Pass>, NoMemory>
        ensures { IfOk result (λ made. made ≡ fresh_passes B.table self.old count) }
    {
        let mut made = List::new(alloc);
        for dealt in 0..count {
            let (_, pass) = self.next()?;
            made.push(pass)?;
        }
        Ok(made)
    }
}

/// All actors behind their locks.
#[derive(Drop)]
pub struct Actors<B: Site<Plan>> {
    pub servers: List<Locked<Part<Server<Locks>>, B>>,
    pub coordinators: List<Locked<Part<Coordinator>, B>>,
    pub authority: Locked<Authority, B>,
    pub master: Locked<Master, B>,
}

/// Deals all passes of a wire: to the actors, and then to the callers.
pub fn deal<B: Site<Plan>>(
    alloc: Global,
    plan: &Plan,
    passes: List<Pass>,
    count: u32,
) -> Result<(Actors<B>, List<Pass>), NoMemory>
    requires about { plan.now ≡ B.about }
    requires servers { length plan.now.scenario.servers < 2 ^ 32 }
    requires txns { length plan.now.scenario.txns < 2 ^ 32 }
    requires passes { passes ≡ fresh_passes B.table 0 count }
    ensures { IfOk result (λ made.
        made.1 ≡ fresh_passes B.table (actors_of plan.now.scenario) plan.now.callers) }
{
    let scenario = &plan.scenario;
    let mut dealer: Dealer<B> = Dealer::of(passes, count);
    let servers = dealer.servers(alloc, scenario)?;
    let coordinators = dealer.coordinators(alloc, scenario)?;
    let authority = dealer.authority(alloc, scenario)?;
    let master = dealer.master(alloc, scenario)?;
    let callers = dealer.callers(alloc, plan.callers)?;
    let actors = Actors {
        servers,
        coordinators,
        authority,
        master,
    };
    Ok((actors, callers))
}
