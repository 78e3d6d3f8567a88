//! All the actors of a world, and what a step does to them.
ghost use Rattle.std.specs.Prelude.{◌≡◌, ◌+◌, ◌<◌, ◌^◌, ◌∷◌, [], List, Some, length, map, slice_get, true, is_some, IfOk, IfSome, OnErr, OnOk};
ghost use Rattle.std.specs.Option.{option_copied};
ghost use Rattle.tp_machine.specs.Machine as machine;
ghost use Rattle.tp_model.specs.Words.actor;
ghost use Rattle.tp_server.specs.Verdicts.{HasFewRules};
ghost use Rattle.tp_offices.specs.Authority.{clock_end};
ghost use Rattle.tp_offices.specs.Master as office;

use crate::part::{
    Act, Part, alone, coordinator_crashes_in, coordinator_submits, coordinator_takes, no_act,
    server_crashes_in, server_takes,
};
use crate::spares::Spares;
use crate::watch::Watch;
use std::alloc::Global;
use tp_coord::Coordinator;
use tp_device::MemoryDisk;
use tp_lock_chain::ChainLocks;
use tp_offices::{Authority, Master, NoMore};
use tp_recover::kept_of;
use tp_server::Server;
use tp_store::first_item;
use tp_types::{
    Actor, AdminId, CredId, Cut, Item, List, Mail, NoMemory, Place, Reaction, Record, Scenario,
    ServerId, TxnId, What, both,
};

/// The table of locks that each server keeps.
pub type Locks = ChainLocks;

/// The servers, the coordinators, each with its log, and the offices.
#[derive(Drop)]
pub struct Actors {
    pub servers: List<Part<Server<Locks>>>,
    pub coordinators: List<Part<Coordinator>>,
    pub authority: Authority,
    pub master: Master,
}

impl Actors {
    ghost use Rattle.tp_actor_log.specs.Disks.{IsDiskOf};
    ghost use Rattle.tp_machine.specs.Fits.{FitLogs};
    ghost use Rattle.tp_machine.specs.Logs as logs;
    ghost use Rattle.tp_machine.specs.Moves.{forces_at};
    ghost use Rattle.tp_machine.specs.Watches.{Heard};
    ghost use Rattle.tp_machine.specs.mirrors.Acts.{Moves, SameLogs, SameUp, with_down};
    ghost use Rattle.tp_machine.specs.Views.{coordinator_at, server_at};
    ghost use Rattle.tp_model.specs.Words.{Mail, Record};

    /// The actors as they stand before the first step.
    pub fn opened(alloc: Global, scenario: &Scenario) -> Result<Actors, NoMemory>
        requires servers { length scenario.now.servers < 2 ^ 32 }
        requires txns { length scenario.now.txns < 2 ^ 32 }
        ensures { IfOk result (λ made. made ≡ machine.opened_actors scenario.now) }
    {
        let servers = opened_servers(alloc, scenario);
        let parts = both(servers, idle_coordinators(alloc, scenario));
        let authority = Authority::opened(alloc, scenario);
        let offices = both(authority, Master::opened(alloc, scenario));
        let ((servers, coordinators), (authority, master)) = both(parts, offices)?;
        Ok(Actors {
            servers,
            coordinators,
            authority,
            master,
        })
    }

    /// Whether an actor is down. The offices never are.
    pub fn is_down(&self, actor: Actor) -> bool
        ensures { result ≡ machine.is_down self.now actor }
    {
        match actor {
            Actor::Server(at) => match self.servers.get(at.0 as usize) {
                None => false,
                Some(part) => part.is_down(),
            },
            Actor::Coordinator(txn) => match self.coordinators.get(txn.0 as usize) {
                None => false,
                Some(part) => part.is_down(),
            },
            _ => false,
        }
    }

    /// The disk of an actor's log; None exactly where there is no such server and no such coordinator.
    pub fn disk(&self, actor: Actor) -> Option<&MemoryDisk>
        ensures some { is_some result ≡ logs.has_log self.now actor }
        ensures kept { IfSome (option_copied result)
            (λ disk. IsDiskOf disk (logs.records_of self.now actor)) }
    {
        match actor {
            Actor::Server(at) => match self.servers.get(at.0 as usize) {
                None => None,
                Some(part) => Some(part.disk()),
            },
            Actor::Coordinator(txn) => match self.coordinators.get(txn.0 as usize) {
                None => None,
                Some(part) => Some(part.disk()),
            },
            _ => None,
        }
    }

    /// The records of an actor's log; an office has none.
    pub fn records(&self, alloc: Global, actor: Actor) -> Result<List<Record>, NoMemory>
        ensures { IfOk result (λ records. records ≡ logs.records_of self.now actor) }
    {
        match actor {
            Actor::Server(at) => match self.servers.get(at.0 as usize) {
                None => Ok(List::new(alloc)),
                Some(part) => part.records(alloc),
            },
            Actor::Coordinator(txn) => match self.coordinators.get(txn.0 as usize) {
                None => Ok(List::new(alloc)),
                Some(part) => part.records(alloc),
            },
            _ => Ok(List::new(alloc)),
        }
    }

    /// A server, by its number, while it is up.
    pub fn server(&self, at: ServerId) -> Option<&Server<Locks>>
        ensures { option_copied result ≡ server_at self.now at }
    {
        match self.servers.get(at.0 as usize) {
            None => None,
            Some(part) => part.state(),
        }
    }

    /// The coordinator of a transaction while it is up.
    pub fn coordinator(&self, txn: TxnId) -> Option<&Coordinator>
        ensures { option_copied result ≡ coordinator_at self.now txn }
    {
        match self.coordinators.get(txn.0 as usize) {
            None => None,
            Some(part) => part.state(),
        }
    }

    /// The value of each item.
    pub fn values(&self, alloc: Global, scenario: &Scenario) -> Result<List<i128>, NoMemory>
        ensures { IfOk result (λ values.
            values ≡ machine.item_values scenario.now self.now.servers 0 scenario.now.items) }
    {
        let items = scenario.items.as_slice();
        item_values(alloc, scenario, self.servers.as_slice(), items)
    }

    /// An actor crashes in the receipt of a mail to it: what is left of it is on its log. It goes down once that is noted. After
    /// NoMemory the actors are up as before, and so are their logs; nothing else is said of them.
    pub fn crash_in<W: Watch>(
        &mut self,
        spares: &mut Spares,
        watch: &mut W,
        scenario: &Scenario,
        actor: Actor,
        mail: &Mail,
        cut: Cut,
    ) -> Result<Act, NoMemory>
        requires few { HasFewRules scenario.now }
        requires fits { FitLogs (machine.receipt scenario.now self.old mail.now actor).actors }
        ensures ok { IfOk result (λ act. (mails : List Mail)
            → slice_get mails cut.mail ≡ Some mail.now
            → Moves (machine.crashes scenario.now self.old mails actor (Some cut))
            (with_down self.new actor) act) }
        ensures heard { OnOk result (Heard W.hears watch.old
            (forces_at scenario.now self.old actor mail.now) watch.new) }
        ensures up { SameUp self.old self.new }
        ensures logs { OnErr result (SameLogs self.old self.new) }
    {
        match actor {
            Actor::Server(at) => self.server_crash_in(spares, watch, scenario, at, mail, cut),
            Actor::Coordinator(txn) => self.coordinator_crash_in(
                spares, watch, scenario, txn, mail, cut,
            ),
            _ => alone(&mut spares.facts, What::Crashed(actor)),
        }
    }

    fn server_crash_in<W: Watch>(
        &mut self,
        spares: &mut Spares,
        watch: &mut W,
        scenario: &Scenario,
        at: ServerId,
        mail: &Mail,
        cut: Cut,
    ) -> Result<Act, NoMemory>
        requires few { HasFewRules scenario.now }
        requires fits { FitLogs
            (machine.receipt scenario.now self.old mail.now (actor.Server at)).actors }
        ensures ok { IfOk result (λ act. (mails : List Mail)
            → slice_get mails cut.mail ≡ Some mail.now
            → Moves (machine.crashes scenario.now self.old mails (actor.Server at) (Some cut))
            (with_down self.new (actor.Server at)) act) }
        ensures heard { OnOk result (Heard W.hears watch.old
            (forces_at scenario.now self.old (actor.Server at) mail.now) watch.new) }
        ensures up { SameUp self.old self.new }
        ensures logs { OnErr result (SameLogs self.old self.new) }
    {
        match self.servers.get_mut(at.0 as usize) {
            None => alone(&mut spares.facts, What::Crashed(Actor::Server(at))),
            Some(part) => server_crashes_in(part, spares, watch, scenario, at, mail, cut),
        }
    }

    fn coordinator_crash_in<W: Watch>(
        &mut self,
        spares: &mut Spares,
        watch: &mut W,
        scenario: &Scenario,
        txn: TxnId,
        mail: &Mail,
        cut: Cut,
    ) -> Result<Act, NoMemory>
        requires fits { FitLogs
            (machine.receipt scenario.now self.old mail.now (actor.Coordinator txn)).actors }
        ensures ok { IfOk result (λ act. (mails : List Mail)
            → slice_get mails cut.mail ≡ Some mail.now
            → Moves (machine.crashes scenario.now self.old mails (actor.Coordinator txn) (Some cut))
            (with_down self.new (actor.Coordinator txn)) act) }
        ensures heard { OnOk result (Heard W.hears watch.old
            (forces_at scenario.now self.old (actor.Coordinator txn) mail.now) watch.new) }
        ensures up { SameUp self.old self.new }
        ensures logs { OnErr result (SameLogs self.old self.new) }
    {
        match self.coordinators.get_mut(txn.0 as usize) {
            None => alone(&mut spares.facts, What::Crashed(Actor::Coordinator(txn))),
            Some(part) => coordinator_crashes_in(part, spares, watch, scenario, txn, mail, cut),
        }
    }

    /// An actor goes down, and its disk crashes. The offices never do.
    pub fn goes_down(&mut self, alloc: Global, actor: Actor)
        ensures { self.new ≡ with_down self.old actor }
    {
        match actor {
            Actor::Server(at) => {
                if let Some(part) = self.servers.get_mut(at.0 as usize) {
                    part.crash(alloc);
                }
            }
            Actor::Coordinator(txn) => {
                if let Some(part) = self.coordinators.get_mut(txn.0 as usize) {
                    part.crash(alloc);
                }
            }
            _ => {}
        }
    }

    /// A mail is delivered to its actor. After NoMemory the actors are up as before, and so are their logs; nothing else is
    /// said of them.
    pub fn receive<W: Watch>(
        &mut self,
        spares: &mut Spares,
        watch: &mut W,
        scenario: &Scenario,
        mail: &Mail,
    ) -> Result<Act, NoMemory>
        requires few { HasFewRules scenario.now }
        requires fits { FitLogs
            (machine.receipt scenario.now self.old mail.now mail.now.letter.to).actors }
        ensures ok { IfOk result (λ act.
            Moves
            (machine.receipt scenario.now self.old mail.now mail.now.letter.to) self.new act) }
        ensures heard { OnOk result (Heard W.hears watch.old
            (forces_at scenario.now self.old mail.now.letter.to mail.now) watch.new) }
        ensures up { SameUp self.old self.new }
        ensures logs { OnErr result (SameLogs self.old self.new) }
    {
        match mail.letter.to {
            Actor::Server(at) => self.to_server(spares, watch, scenario, mail, at),
            Actor::Coordinator(txn) => self.to_coordinator(spares, watch, scenario, mail, txn),
            Actor::Authority => self.to_authority(spares, mail),
            Actor::Master => self.to_master(spares, mail),
        }
    }

    fn to_server<W: Watch>(
        &mut self,
        spares: &mut Spares,
        watch: &mut W,
        scenario: &Scenario,
        mail: &Mail,
        at: ServerId,
    ) -> Result<Act, NoMemory>
        requires few { HasFewRules scenario.now }
        requires fits { FitLogs
            (machine.to_server scenario.now self.old mail.now at (slice_get self.old.servers at.0)).actors }
        ensures ok { IfOk result (λ act.
            Moves
            (machine.to_server scenario.now self.old mail.now at
            (slice_get self.old.servers at.0))
            self.new act) }
        ensures heard { OnOk result (Heard W.hears watch.old
            (forces_at scenario.now self.old (actor.Server at) mail.now) watch.new) }
        ensures up { SameUp self.old self.new }
        ensures logs { OnErr result (SameLogs self.old self.new) }
    {
        match self.servers.get_mut(at.0 as usize) {
            None => Ok(no_act(spares.alloc())),
            Some(part) => server_takes(part, spares, watch, scenario, at, mail),
        }
    }

    fn to_coordinator<W: Watch>(
        &mut self,
        spares: &mut Spares,
        watch: &mut W,
        scenario: &Scenario,
        mail: &Mail,
        txn: TxnId,
    ) -> Result<Act, NoMemory>
        requires fits { FitLogs
            (machine.to_coordinator scenario.now self.old mail.now txn
            (slice_get self.old.coordinators txn.0)).actors }
        ensures ok { IfOk result (λ act.
            Moves
            (machine.to_coordinator scenario.now self.old mail.now txn
            (slice_get self.old.coordinators txn.0))
            self.new act) }
        ensures heard { OnOk result (Heard W.hears watch.old
            (forces_at scenario.now self.old (actor.Coordinator txn) mail.now) watch.new) }
        ensures up { SameUp self.old self.new }
        ensures logs { OnErr result (SameLogs self.old self.new) }
    {
        match self.coordinators.get_mut(txn.0 as usize) {
            None => Ok(no_act(spares.alloc())),
            Some(part) => coordinator_takes(part, spares, watch, scenario, mail),
        }
    }

    fn to_authority(&self, spares: &mut Spares, mail: &Mail) -> Result<Act, NoMemory>
        ensures { IfOk result (λ act. Moves (machine.to_authority self.now mail.now) self.now act) }
    {
        let reaction = self.authority.receive(&mut spares.letters, mail)?;
        Ok(sends(spares.alloc(), reaction))
    }

    fn to_master(&self, spares: &mut Spares, mail: &Mail) -> Result<Act, NoMemory>
        ensures { IfOk result (λ act. Moves (machine.to_master self.now mail.now) self.now act) }
    {
        let reaction = self.master.receive(&mut spares.letters, mail)?;
        Ok(sends(spares.alloc(), reaction))
    }

    /// The master publishes the next version of an administrator's policy.
    pub fn publish(&mut self, spares: &mut Spares, admin: AdminId) -> Result<Act, NoMemory>
        requires { office.has_more self.old.master admin ≡ true }
        ensures ok { IfOk result (λ act. Moves (machine.publishes self.old admin) self.new act) }
        ensures up { SameUp self.old self.new }
        ensures logs { SameLogs self.old self.new }
    {
        match self.master.publish(admin) {
            Err(NoMore) => unreachable!(),
            Ok(version) => alone(&mut spares.facts, What::Published(admin, version)),
        }
    }

    /// The master pushes the newest version of an administrator's policy to a server.
    pub fn push(
        &self,
        spares: &mut Spares,
        admin: AdminId,
        server: ServerId,
    ) -> Result<Act, NoMemory>
        ensures { IfOk result (λ act.
            Moves (machine.pushes self.now admin server) self.now act) }
    {
        let reaction = self.master.push(&mut spares.letters, admin, server)?;
        Ok(sends(spares.alloc(), reaction))
    }

    /// A transaction's timer fires: its coordinator sends its outstanding request again.
    pub fn timer(
        &self,
        spares: &mut Spares,
        scenario: &Scenario,
        txn: TxnId,
    ) -> Result<Act, NoMemory>
        ensures { IfOk result (λ act. Moves (machine.times scenario.now self.now txn) self.now act) }
    {
        match self.coordinators.get(txn.0 as usize) {
            None => Ok(no_act(spares.alloc())),
            Some(part) => repeats_of(spares, scenario, part.state()),
        }
    }

    /// The clock moves.
    pub fn tick(&mut self, spares: &mut Spares, by: u64) -> Result<Act, NoMemory>
        requires { self.old.authority.clock + by < clock_end }
        ensures ok { IfOk result (λ act. Moves (machine.ticks self.old by) self.new act) }
        ensures up { SameUp self.old self.new }
        ensures logs { SameLogs self.old self.new }
    {
        let act = alone(&mut spares.facts, What::Ticked(by))?;
        self.authority.tick(by);
        Ok(act)
    }

    /// A credential is revoked.
    pub fn revoke(&mut self, spares: &mut Spares, cred: CredId) -> Result<Act, NoMemory>
        ensures ok { IfOk result (λ act. Moves (machine.revokes self.old cred) self.new act) }
        ensures up { SameUp self.old self.new }
        ensures logs { SameLogs self.old self.new }
    {
        let act = alone(&mut spares.facts, What::Revoked(cred))?;
        self.authority.revoke(cred);
        Ok(act)
    }

    /// A transaction is submitted at a place. After NoMemory the actors are up as before, and so are their logs.
    pub fn submit<W: Watch>(
        &mut self,
        spares: &mut Spares,
        watch: &mut W,
        scenario: &Scenario,
        txn: TxnId,
        place: Place,
    ) -> Result<Act, NoMemory>
        requires fits { FitLogs (machine.submission scenario.now self.old txn place).actors }
        ensures ok { IfOk result (λ act.
            Moves (machine.submission scenario.now self.old txn place) self.new act) }
        ensures heard { OnOk result (Heard W.hears watch.old
            (machine.begin_forces scenario.now (coordinator_at self.old txn)) watch.new) }
        ensures up { SameUp self.old self.new }
        ensures logs { OnErr result (SameLogs self.old self.new) }
    {
        match self.coordinators.get_mut(txn.0 as usize) {
            None => alone(&mut spares.facts, What::Submitted(txn)),
            Some(part) => coordinator_submits(part, spares, watch, scenario, txn, place),
        }
    }
}

/// What is sent, where nothing happens and no record is forced.
#[inline(always)]
fn sends(alloc: Global, reaction: Reaction) -> Act
    ensures { result ≡ record { happened = []; letters = reaction.letters } }
{
    let Reaction { append: _, letters } = reaction;
    Act {
        happened: List::new(alloc),
        letters,
    }
}

/// What a coordinator sends again at its timer; nothing while it is down.
fn repeats_of(
    spares: &mut Spares,
    scenario: &Scenario,
    up: Option<&Coordinator>,
) -> Result<Act, NoMemory>
    ensures ok { IfOk result (λ act. act.happened ≡ []) }
    ensures letters { IfOk result (λ act.
        act.letters ≡ machine.repeats_of scenario.now (option_copied up.entry)) }
{
    match up {
        None => Ok(no_act(spares.alloc())),
        Some(coordinator) => {
            let reaction = coordinator.timer(&mut spares.letters, scenario)?;
            Ok(sends(spares.alloc(), reaction))
        }
    }
}

fn item_values(
    alloc: Global,
    scenario: &Scenario,
    servers: &[Part<Server<Locks>>],
    items: &[Item],
) -> Result<List<i128>, NoMemory>
    ensures { IfOk result (λ values.
        values ≡ machine.item_values scenario.now servers.now 0 items.now) }
{
    let mut values = List::from_vec(Vec::with_capacity(alloc, items.len())?);
    for (at, item) in items.iter().enumerate() {
        values.push(item_value(alloc, scenario, servers, at, item)?)?;
    }
    Ok(values)
}

fn item_value(
    alloc: Global,
    scenario: &Scenario,
    servers: &[Part<Server<Locks>>],
    at: usize,
    item: &Item,
) -> Result<i128, NoMemory>
    ensures { IfOk result (λ value. value ≡ machine.item_value scenario.now servers.now at item.now) }
{
    let opening = i128::from(item.value);
    match servers.get(item.server.0 as usize) {
        None => Ok(opening),
        Some(part) => value_up(alloc, scenario, item.server, part, at, opening),
    }
}

/// The value of an item at a server. While that is down its log is read for it.
fn value_up(
    alloc: Global,
    scenario: &Scenario,
    server: ServerId,
    part: &Part<Server<Locks>>,
    at: usize,
    opening: i128,
) -> Result<i128, NoMemory>
    ensures { IfOk result (λ value.
        value ≡ machine.value_up scenario.now server part.now at opening) }
{
    if let Some(state) = part.state() {
        return Ok(state.value(at).unwrap_or(opening));
    }
    let records = part.records(alloc)?;
    let kept = kept_of(alloc, scenario, server, &records)?;
    Ok(kept.values.get(at).unwrap_or(opening))
}

#[tactic(auto, using(crate::proofs::basics::Opened::opened_servers_more))]
fn opened_servers(alloc: Global, scenario: &Scenario) -> Result<List<Part<Server<Locks>>>, NoMemory>
    requires { length scenario.now.servers < 2 ^ 32 }
    ensures { IfOk result (λ made.
        made ≡ machine.opened_servers scenario.now (length scenario.now.servers)) }
{
    let mut made = List::from_vec(Vec::with_capacity(alloc, scenario.servers.len())?);
    for number in 0..scenario.servers.len() as u32 {
        let server = ServerId(number);
        let locks = Locks::opened(alloc, scenario.items.len(), first_item(scenario, server))?;
        let server = Server::opened(alloc, scenario, server, locks)?;
        made.push(Part::opened(alloc, server)?)?;
    }
    Ok(made)
}

#[tactic(auto, using(crate::proofs::basics::Opened::idle_coordinators_more))]
fn idle_coordinators(
    alloc: Global,
    scenario: &Scenario,
) -> Result<List<Part<Coordinator>>, NoMemory>
    requires servers { length scenario.now.servers < 2 ^ 32 }
    requires txns { length scenario.now.txns < 2 ^ 32 }
    ensures { IfOk result (λ made.
        made ≡ machine.idle_coordinators scenario.now (length scenario.now.txns)) }
{
    let mut made = List::from_vec(Vec::with_capacity(alloc, scenario.txns.len())?);
    for number in 0..scenario.txns.len() as u32 {
        let coordinator = Coordinator::idle(alloc, scenario, TxnId(number))?;
        made.push(Part::opened(alloc, coordinator)?)?;
    }
    Ok(made)
}
