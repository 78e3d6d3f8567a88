//! What a step does to the actors and the history.
ghost use Rattle.std.specs.Prelude.{◌≡◌, ◌+◌, ◌<◌, ◌^◌, [], length, false, true, Some, None, slice_get, IfOk, OnOk, OnErr};
ghost use Rattle.std.specs.Option.{option_and_then, option_copied};
ghost use Rattle.tp_coord.specs.Row.{is_armed};
ghost use Rattle.tp_model.specs.Words.actor;
ghost use Rattle.tp_model.specs.Words.step;
ghost use Rattle.tp_model.specs.Words.{Scenario};
ghost use Rattle.tp_machine.specs.Fits.{FitLogs, received};
ghost use Rattle.tp_machine.specs.mirrors.Acts.{HasEitherLogs, Moves, SameLogs, SameUp, with_down};
ghost use Rattle.tp_machine.specs.mirrors.History.{Notes, SameHistory};
ghost use Rattle.tp_machine.specs.Machine as machine;
ghost use Rattle.tp_machine.specs.Opening.{opening_of};
ghost use Rattle.tp_machine.specs.Moves.{forces_at, logged, received_forces};
ghost use Rattle.tp_machine.specs.Watches.{Heard};
ghost use Rattle.tp_machine.specs.WorldView.{machine_of, state_of};
ghost use Rattle.tp_server.specs.Verdicts.{HasFewRules};
ghost use Rattle.tp_offices.specs.Authority.{clock_end};
ghost use Rattle.tp_offices.specs.Master as office;

use crate::actors::{Actors, Locks};
use crate::error::StepError;
use crate::history::History;
use crate::opening::Opening;
use crate::part::{Act, alone, coordinator_boots, no_act, server_boots};
use crate::spares::Spares;
use crate::watch::Watch;
use std::alloc::Global;
use tp_coord::Coordinator;
use tp_offices::{CLOCK_END, Master};
use tp_store::first_item;
use tp_types::{
    Actor, AdminId, CredId, Cut, List, Mail, NoMemory, Record, Scenario, ServerId, Step, TxnId,
    What, both,
};

/// Whether a transaction was submitted.
pub fn is_submitted(actors: &Actors, txn: TxnId) -> bool
    ensures { result ≡ machine.is_submitted actors.now txn }
{
    match actors.coordinators.get(txn.0 as usize) {
        None => false,
        Some(part) => is_part_submitted(part.state()),
    }
}

fn is_part_submitted(up: Option<&Coordinator>) -> bool
    ensures { result ≡ machine.is_part_submitted (option_copied up.entry) }
{
    match up {
        None => true,
        Some(coordinator) => coordinator.begun(),
    }
}

/// Whether the transaction's coordinator is up, and some request of it is outstanding.
pub fn is_armed(actors: &Actors, txn: TxnId) -> bool
    ensures { result ≡ machine.is_armed_at actors.now txn }
{
    match actors.coordinator(txn) {
        None => false,
        Some(coordinator) => coordinator.armed(),
    }
}

/// Why a step is refused, if it is.
#[inline(always)]
pub fn refusal(actors: &Actors, history: &History, taken: &Step) -> Option<StepError>
    ensures { result ≡ machine.refusal (state_of actors.now history.now) taken.now }
{
    match *taken {
        Step::Submit { txn } => {
            if is_submitted(actors, txn) {
                Some(StepError::AlreadySubmitted { txn })
            } else {
                None
            }
        }
        Step::Deliver { mail } => missing_mail(history.mails.as_slice(), mail),
        Step::Lose { mail } => missing_mail(history.mails.as_slice(), mail),
        Step::Publish { admin } => none_left(&actors.master, admin),
        Step::Tick { by } => too_late(actors.authority.clock, by),
        Step::Timer { txn } => match unsubmitted(actors, txn) {
            Some(why) => Some(why),
            None => down_now(actors, Actor::Coordinator(txn)),
        },
        Step::Crash { actor, cut } => crash_refusal(actors, history, actor, cut),
        Step::Boot { actor } => match unsubmitted_actor(actors, actor) {
            Some(why) => Some(why),
            None => up_now(actors, actor),
        },
        _ => None,
    }
}

fn crash_refusal(
    actors: &Actors,
    history: &History,
    actor: Actor,
    cut: Option<Cut>,
) -> Option<StepError>
    ensures { result ≡ machine.crash_refusal (state_of actors.now history.now) actor cut }
{
    let mails = history.mails.as_slice();
    if let Some(why) = missing_cut(mails, cut) {
        return Some(why);
    }
    if let Some(why) = unsubmitted_actor(actors, actor) {
        return Some(why);
    }
    match down_now(actors, actor) {
        Some(why) => Some(why),
        None => cut_elsewhere(mails, actor, cut),
    }
}

/// A coordinator whose transaction was not submitted.
fn unsubmitted_actor(actors: &Actors, actor: Actor) -> Option<StepError>
    ensures { result ≡ machine.unsubmitted_actor actors.now actor }
{
    match actor {
        Actor::Coordinator(txn) => unsubmitted(actors, txn),
        _ => None,
    }
}

fn up_now(actors: &Actors, actor: Actor) -> Option<StepError>
    ensures { result ≡ machine.up_now actors.now actor }
{
    if actors.is_down(actor) {
        None
    } else {
        Some(StepError::NotDown { actor })
    }
}

fn missing_cut(mails: &[Mail], cut: Option<Cut>) -> Option<StepError>
    ensures { result ≡ machine.missing_cut mails.now cut }
{
    match cut {
        None => None,
        Some(cut) => missing_mail(mails, cut.mail),
    }
}

fn same_actor(one: Actor, other: Actor) -> bool
    ensures { result ≡ machine.same_actor one other }
{
    match (one, other) {
        (Actor::Server(one), Actor::Server(other)) => one.0 == other.0,
        (Actor::Coordinator(one), Actor::Coordinator(other)) => one.0 == other.0,
        (Actor::Master, Actor::Master) => true,
        (Actor::Authority, Actor::Authority) => true,
        _ => false,
    }
}

/// A cut in the receipt of a mail to another actor.
fn cut_elsewhere(mails: &[Mail], actor: Actor, cut: Option<Cut>) -> Option<StepError>
    ensures { result ≡ machine.cut_elsewhere mails.now actor cut }
{
    let cut = cut?;
    let mail = mails.get(cut.mail as usize)?;
    if same_actor(mail.letter.to, actor) {
        None
    } else {
        Some(StepError::NotItsMail { mail: cut.mail })
    }
}

fn unsubmitted(actors: &Actors, txn: TxnId) -> Option<StepError>
    ensures { result ≡ machine.unsubmitted actors.now txn }
{
    if is_submitted(actors, txn) {
        None
    } else {
        Some(StepError::NotSubmitted { txn })
    }
}

fn down_now(actors: &Actors, actor: Actor) -> Option<StepError>
    ensures { result ≡ machine.down_now actors.now actor }
{
    if actors.is_down(actor) {
        Some(StepError::IsDown { actor })
    } else {
        None
    }
}

fn missing_mail(mails: &[Mail], mail: u64) -> Option<StepError>
    ensures { result ≡ machine.missing_mail mails.now mail }
{
    let mails = mails.len() as u64;
    if mail < mails {
        None
    } else {
        Some(StepError::NoSuchMail { mail, mails })
    }
}

fn none_left(master: &Master, admin: AdminId) -> Option<StepError>
    ensures { result ≡ machine.none_left master.now admin }
{
    if master.has_more(admin) {
        None
    } else {
        Some(StepError::NoMore { admin })
    }
}

fn too_late(clock: u64, by: u64) -> Option<StepError>
    ensures { result ≡ machine.too_late clock by }
{
    match clock.checked_add(by) {
        Some(sum) if sum < CLOCK_END => None,
        _ => Some(StepError::TooLate { clock }),
    }
}

/// Does a step that is not refused. Who looks on hears of the record that the step has its actor force.
#[inline(always)]
pub fn act<W: Watch>(
    actors: &mut Actors,
    history: &mut History,
    spares: &mut Spares,
    watch: &mut W,
    scenario: &Scenario,
    opening: &Opening,
    taken: &Step,
) -> Result<(), NoMemory>
    requires few { HasFewRules scenario.now }
    requires opening { opening.now ≡ opening_of scenario.now }
    requires servers { length scenario.now.servers < 2 ^ 32 }
    requires allowed { machine.refusal (state_of actors.old history.old) taken.now ≡ None }
    requires fits { FitLogs
        (machine.machine_after scenario.now (machine_of actors.old history.old)
        (received taken.now)).state.actors }
    ensures ok { OnOk result
        (machine_of actors.new history.new
        ≡ machine.machine_after scenario.now (machine_of actors.old history.old) taken.now) }
    ensures heard { OnOk result (Heard W.hears watch.old
        (logged scenario.now (state_of actors.old history.old) taken.now) watch.new) }
    ensures same_history { OnErr result (SameHistory history.old history.new) }
    ensures up { OnErr result (SameUp actors.old actors.new) }
    ensures logs { OnErr result (HasEitherLogs actors.old
        (machine.machine_after scenario.now (machine_of actors.old history.old) taken.now).state.actors
        actors.new) }
{
    match *taken {
        Step::Submit { txn } => submit(actors, history, spares, watch, scenario, txn),
        Step::Deliver { mail } => deliver(actors, history, spares, watch, scenario, mail),
        Step::Publish { admin } => publish(actors, history, spares, admin),
        Step::Push { admin, server } => push(actors, history, spares, admin, server),
        Step::Tick { by } => tick(actors, history, spares, by),
        Step::Revoke { cred } => revoke(actors, history, spares, cred),
        Step::Lose { mail } => lose(actors, history, spares, mail),
        Step::Timer { txn } => timer(actors, history, spares, scenario, txn),
        Step::Crash { actor, cut: None } => crash(actors, history, spares, actor),
        Step::Crash {
            actor,
            cut: Some(cut),
        } => crash_in(actors, history, spares, watch, scenario, actor, cut),
        Step::Boot {
            actor: Actor::Server(at),
        } => boot_server(actors, history, spares, watch, scenario, opening, at),
        Step::Boot {
            actor: Actor::Coordinator(txn),
        } => boot_coordinator(actors, history, spares, watch, scenario, txn),
        // the offices never crash
        Step::Boot { actor } => boots_nobody(history, spares, actor),
    }
}

/// An actor crashes. It goes down last, where nothing can be refused any more.
fn crash(
    actors: &mut Actors,
    history: &mut History,
    spares: &mut Spares,
    actor: Actor,
) -> Result<(), NoMemory>
    ensures ok { (sc : Scenario) → OnOk result
        (machine_of actors.new history.new
        ≡ machine.machine_after sc (machine_of actors.old history.old)
        (step.Crash actor None)) }
    ensures same_history { OnErr result (SameHistory history.old history.new) }
    ensures same_actors { OnErr result (actors.new ≡ actors.old) }
{
    let act = alone(&mut spares.facts, What::Crashed(actor))?;
    let taken = Step::Crash { actor, cut: None };
    history.note(spares, taken, act.happened, act.letters)?;
    actors.goes_down(spares.alloc(), actor);
    Ok(())
}

/// An actor crashes in the receipt of a mail. Its log has what is left of it before that is noted.
fn crash_in<W: Watch>(
    actors: &mut Actors,
    history: &mut History,
    spares: &mut Spares,
    watch: &mut W,
    scenario: &Scenario,
    actor: Actor,
    cut: Cut,
) -> Result<(), NoMemory>
    requires few { HasFewRules scenario.now }
    requires sent { cut.mail < length history.old.mails }
    requires its { machine.cut_elsewhere history.old.mails actor (Some cut) ≡ None }
    requires fits { FitLogs
        (machine.delivery scenario.now actors.old (slice_get history.old.mails cut.mail)).actors }
    ensures ok { OnOk result
        (machine_of actors.new history.new
        ≡ machine.machine_after scenario.now (machine_of actors.old history.old)
        (step.Crash actor (Some cut))) }
    ensures heard { OnOk result (Heard W.hears watch.old
        (logged scenario.now (state_of actors.old history.old) (step.Crash actor (Some cut)))
        watch.new) }
    ensures same_history { OnErr result (SameHistory history.old history.new) }
    ensures up { OnErr result (SameUp actors.old actors.new) }
    ensures logs { OnErr result (HasEitherLogs actors.old
        (machine.crashes scenario.now actors.old history.old.mails actor (Some cut)).actors
        actors.new) }
{
    let mails = history.mails.as_slice();
    let act = receive_cut(actors, spares, watch, scenario, mails, actor, cut)?;
    let taken = Step::Crash {
        actor,
        cut: Some(cut),
    };
    history.note(spares, taken, act.happened, act.letters)?;
    history.mark(cut.mail as usize);
    actors.goes_down(spares.alloc(), actor);
    Ok(())
}

fn receive_cut<W: Watch>(
    actors: &mut Actors,
    spares: &mut Spares,
    watch: &mut W,
    scenario: &Scenario,
    mails: &[Mail],
    actor: Actor,
    cut: Cut,
) -> Result<Act, NoMemory>
    requires few { HasFewRules scenario.now }
    requires sent { cut.mail < length mails.now }
    requires its { machine.cut_elsewhere mails.now actor (Some cut) ≡ None }
    requires fits { FitLogs
        (machine.delivery scenario.now actors.old (slice_get mails.now cut.mail)).actors }
    ensures ok { IfOk result (λ act.
        Moves (machine.crashes scenario.now actors.old mails.now actor (Some cut))
        (with_down actors.new actor) act) }
    ensures heard { OnOk result (Heard W.hears watch.old
        (option_and_then (forces_at scenario.now actors.old actor) (slice_get mails.now cut.mail))
        watch.new) }
    ensures up { SameUp actors.old actors.new }
    ensures logs { OnErr result (SameLogs actors.old actors.new) }
{
    match mails.get(cut.mail as usize) {
        None => alone(&mut spares.facts, What::Crashed(actor)),
        Some(found) => actors.crash_in(spares, watch, scenario, actor, found, cut),
    }
}

/// A server boots by its log. It comes up last, where nothing can be refused any more.
fn boot_server<W: Watch>(
    actors: &mut Actors,
    history: &mut History,
    spares: &mut Spares,
    watch: &mut W,
    scenario: &Scenario,
    opening: &Opening,
    at: ServerId,
) -> Result<(), NoMemory>
    requires opening { opening.now ≡ opening_of scenario.now }
    requires fits { FitLogs (machine.boots scenario.now actors.old (actor.Server at)).actors }
    ensures ok { OnOk result
        (machine_of actors.new history.new
        ≡ machine.machine_after scenario.now (machine_of actors.old history.old)
        (step.Boot (actor.Server at))) }
    ensures heard { OnOk result (Heard W.hears watch.old
        (logged scenario.now (state_of actors.old history.old) (step.Boot (actor.Server at))) watch.new) }
    ensures same_history { OnErr result (SameHistory history.old history.new) }
    ensures up { OnErr result (SameUp actors.old actors.new) }
    ensures logs { OnErr result (HasEitherLogs actors.old
        (machine.boots scenario.now actors.old (actor.Server at)).actors
        actors.new) }
{
    let actor = Actor::Server(at);
    let Some(part) = actors.servers.get_mut(at.0 as usize) else {
        return boots_nobody(history, spares, actor);
    };
    let alloc = spares.alloc();
    let own = both(
        opening.share(),
        Locks::opened(alloc, scenario.items.len(), first_item(scenario, at)),
    );
    let (own, locks) = own?;
    let (state, act) = server_boots(part, alloc, watch, scenario, at, own, locks)?;
    match history.note(spares, Step::Boot { actor }, act.happened, act.letters) {
        Ok(()) => {
            part.comes_up(state);
            Ok(())
        }
        Err(NoMemory) => {
            drop(state);
            Err(NoMemory)
        }
    }
}

/// A coordinator boots by its log, in the same way.
fn boot_coordinator<W: Watch>(
    actors: &mut Actors,
    history: &mut History,
    spares: &mut Spares,
    watch: &mut W,
    scenario: &Scenario,
    txn: TxnId,
) -> Result<(), NoMemory>
    requires few { length scenario.now.servers < 2 ^ 32 }
    requires fits { FitLogs (machine.boots scenario.now actors.old (actor.Coordinator txn)).actors }
    ensures ok { OnOk result
        (machine_of actors.new history.new
        ≡ machine.machine_after scenario.now (machine_of actors.old history.old)
        (step.Boot (actor.Coordinator txn))) }
    ensures heard { OnOk result (Heard W.hears watch.old
        (logged scenario.now (state_of actors.old history.old) (step.Boot (actor.Coordinator txn))) watch.new) }
    ensures same_history { OnErr result (SameHistory history.old history.new) }
    ensures up { OnErr result (SameUp actors.old actors.new) }
    ensures logs { OnErr result (HasEitherLogs actors.old
        (machine.boots scenario.now actors.old (actor.Coordinator txn)).actors
        actors.new) }
{
    let actor = Actor::Coordinator(txn);
    let Some(part) = actors.coordinators.get_mut(txn.0 as usize) else {
        return boots_nobody(history, spares, actor);
    };
    let (state, act) = coordinator_boots(part, spares.alloc(), watch, scenario, txn)?;
    match history.note(spares, Step::Boot { actor }, act.happened, act.letters) {
        Ok(()) => {
            part.comes_up(state);
            Ok(())
        }
        Err(NoMemory) => {
            drop(state);
            Err(NoMemory)
        }
    }
}

/// Nobody boots.
fn boots_nobody(history: &mut History, spares: &mut Spares, actor: Actor) -> Result<(), NoMemory>
    ensures ok { OnOk result (Notes history.old history.new (step.Boot actor) [] []) }
    ensures same_history { OnErr result (SameHistory history.old history.new) }
{
    let act = no_act(spares.alloc());
    history.note(spares, Step::Boot { actor }, act.happened, act.letters)
}

fn submit<W: Watch>(
    actors: &mut Actors,
    history: &mut History,
    spares: &mut Spares,
    watch: &mut W,
    scenario: &Scenario,
    txn: TxnId,
) -> Result<(), NoMemory>
    requires fits { FitLogs
        (machine.submission scenario.now actors.old txn (length history.old.steps)).actors }
    ensures ok { OnOk result
        (machine_of actors.new history.new
        ≡ machine.machine_after scenario.now (machine_of actors.old history.old)
        (step.Submit txn)) }
    ensures heard { OnOk result (Heard W.hears watch.old
        (logged scenario.now (state_of actors.old history.old) (step.Submit txn)) watch.new) }
    ensures same_history { OnErr result (SameHistory history.old history.new) }
    ensures up { SameUp actors.old actors.new }
    ensures logs { OnErr result (HasEitherLogs actors.old
        (machine.submission scenario.now actors.old txn (length history.old.steps)).actors
        actors.new) }
{
    let place = history.steps.len() as u64;
    let act = actors.submit(spares, watch, scenario, txn, place)?;
    history.note(spares, Step::Submit { txn }, act.happened, act.letters)
}

fn deliver<W: Watch>(
    actors: &mut Actors,
    history: &mut History,
    spares: &mut Spares,
    watch: &mut W,
    scenario: &Scenario,
    mail: u64,
) -> Result<(), NoMemory>
    requires few { HasFewRules scenario.now }
    requires sent { mail < length history.old.mails }
    requires fits { FitLogs
        (machine.delivery scenario.now actors.old (slice_get history.old.mails mail)).actors }
    ensures ok { OnOk result
        (machine_of actors.new history.new
        ≡ machine.machine_after scenario.now (machine_of actors.old history.old)
        (step.Deliver mail)) }
    ensures heard { OnOk result (Heard W.hears watch.old
        (logged scenario.now (state_of actors.old history.old) (step.Deliver mail)) watch.new) }
    ensures same_history { OnErr result (SameHistory history.old history.new) }
    ensures up { SameUp actors.old actors.new }
    ensures logs { OnErr result (HasEitherLogs actors.old
        (machine.delivery scenario.now actors.old (slice_get history.old.mails mail)).actors
        actors.new) }
{
    let mails = history.mails.as_slice();
    let act = receive(actors, spares, watch, scenario, mails, mail)?;
    history.note(spares, Step::Deliver { mail }, act.happened, act.letters)?;
    history.mark(mail as usize);
    Ok(())
}

fn publish(
    actors: &mut Actors,
    history: &mut History,
    spares: &mut Spares,
    admin: AdminId,
) -> Result<(), NoMemory>
    requires { office.has_more actors.old.master admin ≡ true }
    ensures ok { OnOk result
        (machine_of actors.new history.new
        ≡ machine.does (machine_of actors.old history.old) (step.Publish admin)
        (machine.publishes actors.old admin)) }
    ensures same_history { OnErr result (SameHistory history.old history.new) }
    ensures up { SameUp actors.old actors.new }
    ensures logs { SameLogs actors.old actors.new }
{
    let act = actors.publish(spares, admin)?;
    history.note(spares, Step::Publish { admin }, act.happened, act.letters)
}

fn push(
    actors: &Actors,
    history: &mut History,
    spares: &mut Spares,
    admin: AdminId,
    server: ServerId,
) -> Result<(), NoMemory>
    ensures ok { OnOk result
        (machine_of actors.now history.new
        ≡ machine.does (machine_of actors.now history.old) (step.Push admin server)
        (machine.pushes actors.now admin server)) }
    ensures same_history { OnErr result (SameHistory history.old history.new) }
{
    let act = actors.push(spares, admin, server)?;
    let taken = Step::Push { admin, server };
    history.note(spares, taken, act.happened, act.letters)
}

fn lose(
    actors: &Actors,
    history: &mut History,
    spares: &mut Spares,
    mail: u64,
) -> Result<(), NoMemory>
    requires sent { mail < length history.old.mails }
    ensures ok { OnOk result
        (machine_of actors.now history.new
        ≡ machine.machine_after_loss (machine_of actors.now history.old) mail) }
    ensures same_history { OnErr result (SameHistory history.old history.new) }
{
    let act = alone(&mut spares.facts, What::Lost(mail))?;
    history.note(spares, Step::Lose { mail }, act.happened, act.letters)?;
    history.mark(mail as usize);
    Ok(())
}

fn timer(
    actors: &Actors,
    history: &mut History,
    spares: &mut Spares,
    scenario: &Scenario,
    txn: TxnId,
) -> Result<(), NoMemory>
    ensures ok { OnOk result
        (machine_of actors.now history.new
        ≡ machine.does (machine_of actors.now history.old) (step.Timer txn)
        (machine.times scenario.now actors.now txn)) }
    ensures same_history { OnErr result (SameHistory history.old history.new) }
{
    let act = actors.timer(spares, scenario, txn)?;
    history.note(spares, Step::Timer { txn }, act.happened, act.letters)
}

fn tick(
    actors: &mut Actors,
    history: &mut History,
    spares: &mut Spares,
    by: u64,
) -> Result<(), NoMemory>
    requires { actors.old.authority.clock + by < clock_end }
    ensures ok { OnOk result
        (machine_of actors.new history.new
        ≡ machine.does (machine_of actors.old history.old) (step.Tick by)
        (machine.ticks actors.old by)) }
    ensures same_history { OnErr result (SameHistory history.old history.new) }
    ensures up { SameUp actors.old actors.new }
    ensures logs { SameLogs actors.old actors.new }
{
    let act = actors.tick(spares, by)?;
    history.note(spares, Step::Tick { by }, act.happened, act.letters)
}

fn revoke(
    actors: &mut Actors,
    history: &mut History,
    spares: &mut Spares,
    cred: CredId,
) -> Result<(), NoMemory>
    ensures ok { OnOk result
        (machine_of actors.new history.new
        ≡ machine.does (machine_of actors.old history.old) (step.Revoke cred)
        (machine.revokes actors.old cred)) }
    ensures same_history { OnErr result (SameHistory history.old history.new) }
    ensures up { SameUp actors.old actors.new }
    ensures logs { SameLogs actors.old actors.new }
{
    let act = actors.revoke(spares, cred)?;
    history.note(spares, Step::Revoke { cred }, act.happened, act.letters)
}

fn receive<W: Watch>(
    actors: &mut Actors,
    spares: &mut Spares,
    watch: &mut W,
    scenario: &Scenario,
    mails: &[Mail],
    mail: u64,
) -> Result<Act, NoMemory>
    requires few { HasFewRules scenario.now }
    requires fits { FitLogs
        (machine.delivery scenario.now actors.old (slice_get mails.now mail)).actors }
    ensures ok { IfOk result (λ act.
        Moves
        (machine.delivery scenario.now actors.old (slice_get mails.now mail)) actors.new act) }
    ensures heard { OnOk result (Heard W.hears watch.old
        (option_and_then (received_forces scenario.now actors.old) (slice_get mails.now mail))
        watch.new) }
    ensures up { SameUp actors.old actors.new }
    ensures logs { OnErr result (SameLogs actors.old actors.new) }
{
    match mails.get(mail as usize) {
        None => Ok(no_act(spares.alloc())),
        Some(found) => actors.receive(spares, watch, scenario, found),
    }
}
