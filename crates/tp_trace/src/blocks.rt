//! The block of a step: what is put and noted before it, and what is put once it is done.
ghost use Rattle.std.specs.Prelude.{◌≡◌, ◌++◌, IfOk, OnOk, drop, length};
ghost use Rattle.std.specs.Option.{option_and_then, option_copied};
ghost use Rattle.tp_machine.specs.Moves.{moved_by};
ghost use Rattle.tp_machine.specs.Views.{server_at};
ghost use Rattle.tp_trace.specs.Blocks as blocks;
ghost use Rattle.tp_trace.specs.Lines.{line_of, line_text, lines_text};
ghost use Rattle.tp_report.specs.StepText.{step_text};
ghost use Rattle.tp_trace.specs.Seen as seen;
ghost use Rattle.tp_trace.specs.mirrors.Noted as mirror;

use crate::lines::{Kind, put_front, put_mail_line, put_mail_lines, put_record_line};
use crate::phases::awaits;
use crate::seen::{Seen, items_of, nothing_seen, put_seen, put_values, see, values_to};
use crate::told::put_all_told;
use std::alloc::Global;
use tp_log::is_kept;
use tp_machine::{Locks, World, moved_by};
use tp_report::piece::{put, put_after, put_server, put_txn};
use tp_report::put_step_text;
use tp_server::Server;
use tp_types::{
    Actor, List, Mail, NoMemory, Outcome, Place, Record, Scenario, ServerId, Step, TxnId, both,
};

/// What is noted before a step, for the lines that tell what it changed.
#[derive(Drop)]
pub struct Noted {
    /// The number of steps, of facts and of mails so far.
    pub place: Place,
    pub facts: usize,
    pub mails: usize,
    /// The actor whom the step moves.
    pub actor: Option<Actor>,
    /// Whether it crashes before the record that the step has it force stands on its log.
    pub torn: bool,
    /// What is seen of it, if it is a server, and whether that is up.
    pub seen: Seen,
    pub was_up: bool,
    /// The values of its items to the transaction whose coordinator sent the mail that it receives.
    pub left: Option<List<i128>>,
    /// What it awaits, if it is a coordinator.
    pub awaited: List<u8>,
}

// ---- before the step

/// The mail that a step delivers or loses.
fn mail_at<'a>(world: &'a World, taken: &Step) -> Option<&'a Mail>
    ensures { option_copied result ≡ blocks.mail_at world.now.machine.state taken.now }
{
    match *taken {
        Step::Deliver { mail } => world.sent().get(mail as usize),
        Step::Lose { mail } => world.sent().get(mail as usize),
        Step::Crash { cut: Some(cut), .. } => world.sent().get(cut.mail as usize),
        _ => None,
    }
}

/// Whether the mail of a step is taken or gone.
fn fate(world: &World, taken: &Step, mail: &Mail) -> Kind
    ensures { result ≡ blocks.fate world.now.machine.state taken.now mail.now }
{
    match taken {
        Step::Deliver { .. } if world.down(&mail.letter.to) => Kind::Gone,
        Step::Lose { .. } => Kind::Gone,
        _ => Kind::Took,
    }
}

/// Puts what becomes of the mail of a step.
fn put_fate(out: &mut Vec<u8>, world: &World, taken: &Step) -> Result<(), NoMemory>
    ensures { OnOk result
        (out.new.items
        ≡ out.old.items
        ++ lines_text (blocks.fate_lines world.now.scenario world.now.machine.state taken.now
        (blocks.mail_at world.now.machine.state taken.now))) }
{
    let place = world.steps().len() as u64;
    match mail_at(world, taken) {
        None => Ok(()),
        Some(mail) => {
            let kind = fate(world, taken, mail);
            put_mail_line(out, world.scenario(), place, kind, mail)
        }
    }
}

/// Puts the line of a step.
fn put_step_line(
    out: &mut Vec<u8>,
    world: &World,
    listed: bool,
    taken: &Step,
) -> Result<(), NoMemory>
    ensures { OnOk result
        (out.new.items
        ≡ out.old.items
        ++ line_text (line_of (length world.now.machine.state.steps) (blocks.step_kind listed)
        (step_text world.now.scenario taken.now))) }
{
    let place = world.steps().len() as u64;
    put_front(out, place, step_kind(listed))?;
    put_step_text(out, world.scenario(), taken)?;
    put(out, b"\n")
}

fn step_kind(listed: bool) -> Kind
    ensures { result ≡ blocks.step_kind listed }
{
    if listed {
        Kind::Listed
    } else {
        Kind::Automatic
    }
}

fn is_torn(taken: &Step) -> bool
    ensures { result ≡ blocks.is_torn taken.now }
{
    match *taken {
        Step::Crash { cut: Some(cut), .. } => !is_kept(cut.calls, cut.fill),
        _ => false,
    }
}

/// What is seen of the actor, to be compared with what is seen after the step.
fn seen_before(alloc: Global, world: &World, actor: Option<Actor>) -> Result<Seen, NoMemory>
    ensures { IfOk result (λ seen.
        seen ≡ mirror.seen_before world.now.scenario world.now.machine.state actor) }
{
    match actor {
        Some(Actor::Server(at)) => see(alloc, items_of(world.scenario(), at), world.server(at)),
        _ => Ok(nothing_seen(alloc)),
    }
}

fn ended_by(mail: Option<&Mail>) -> Option<TxnId>
    ensures { result ≡ option_and_then blocks.ended_by (option_copied mail.entry) }
{
    match mail {
        None => None,
        Some(mail) => match mail.letter.from {
            Actor::Coordinator(txn) => Some(txn),
            _ => None,
        },
    }
}

/// What a server's items would be once the transaction has committed whose coordinator sent it this mail.
fn left_before(
    alloc: Global,
    world: &World,
    mail: Option<&Mail>,
    actor: Option<Actor>,
) -> Result<Option<List<i128>>, NoMemory>
    ensures { IfOk result (λ left.
        left
        ≡ mirror.left_before world.now.scenario world.now.machine.state
        (option_copied mail.entry) actor) }
{
    let Some(Actor::Server(at)) = actor else {
        return Ok(None);
    };
    match (world.server(at), ended_by(mail)) {
        (Some(server), Some(txn)) => {
            let items = items_of(world.scenario(), at);
            Ok(Some(values_to(alloc, items, &server.store, txn)?))
        }
        _ => Ok(None),
    }
}

fn was_up(world: &World, actor: Option<Actor>) -> bool
    ensures { result ≡ mirror.was_up world.now.machine.state actor }
{
    match actor {
        Some(Actor::Server(at)) => world.server(at).is_some(),
        _ => false,
    }
}

fn awaited_before(alloc: Global, world: &World, actor: Option<Actor>) -> Result<List<u8>, NoMemory>
    ensures { IfOk result (λ awaited.
        awaited ≡ mirror.awaited_before world.now.scenario world.now.machine.state actor) }
{
    match actor {
        Some(Actor::Coordinator(txn)) => awaits(alloc, world.scenario(), world.coordinator(txn)),
        _ => Ok(List::new(alloc)),
    }
}

fn note(alloc: Global, world: &World, taken: &Step, actor: Option<Actor>) -> Result<Noted, NoMemory>
    ensures { IfOk result (λ noted.
        noted ≡ mirror.noted_of world.now.scenario world.now.machine.state taken.now actor) }
{
    let seen = seen_before(alloc, world, actor);
    let left = left_before(alloc, world, mail_at(world, taken), actor);
    let awaited = awaited_before(alloc, world, actor);
    let ((seen, left), awaited) = both(both(seen, left), awaited)?;
    Ok(Noted {
        place: world.steps().len() as u64,
        facts: world.facts().len(),
        mails: world.sent().len(),
        actor,
        torn: is_torn(taken),
        seen,
        was_up: was_up(world, actor),
        left,
        awaited,
    })
}

/// Puts a step, with what becomes of its mail, and notes what it may change.
#[tactic(auto, using(crate::proofs::LineLemmas::lines_append))]
pub(crate) fn put_begun(
    out: &mut Vec<u8>,
    alloc: Global,
    world: &World,
    listed: bool,
    taken: &Step,
) -> Result<Noted, NoMemory>
    ensures text { OnOk result
        (out.new.items
        ≡ out.old.items
        ++ lines_text (mirror.begun world.now.scenario listed world.now.machine.state taken.now)) }
    ensures noted { IfOk result (λ noted.
        noted ≡ mirror.noted_of world.now.scenario world.now.machine.state taken.now
        (moved_by world.now.machine.state.mails taken.now)) }
{
    put_step_line(out, world, listed, taken)?;
    put_fate(out, world, taken)?;
    note(
        alloc,
        world,
        taken,
        moved_by(world.sent().as_slice(), taken),
    )
}

// ---- after it

/// The members from a place on.
fn behind<T>(members: &[T], place: usize) -> &[T]
    ensures { result.now ≡ drop place members.now }
{
    match members.get(place..) {
        None => &[],
        Some(others) => others,
    }
}

fn forced_or_torn(torn: bool) -> Kind
    ensures { result ≡ blocks.forced_or_torn torn }
{
    if torn { Kind::Torn } else { Kind::Forced }
}

/// Puts the record that the step had the actor force.
fn put_durable(
    out: &mut Vec<u8>,
    scenario: &Scenario,
    noted: &Noted,
    forced: &Option<Record>,
) -> Result<(), NoMemory>
    ensures { OnOk result
        (out.new.items
        ≡ out.old.items
        ++ lines_text (blocks.durable_lines scenario.now noted.now.place noted.now.torn
        noted.now.actor forced.now)) }
{
    match (noted.actor, forced) {
        (Some(actor), Some(record)) => {
            let kind = forced_or_torn(noted.torn);
            put_record_line(out, scenario, noted.place, kind, actor, record)
        }
        _ => Ok(()),
    }
}

/// Whether a record that was not torn says that a transaction has committed at its server.
fn leaves_commit(torn: bool, forced: &Option<Record>) -> bool
    ensures { result ≡ blocks.leaves_commit torn forced.now }
{
    match forced {
        Some(Record::Settled(settled)) => !torn && settled.outcome == Outcome::Commit,
        _ => false,
    }
}

/// Puts the values that a crash leaves.
fn put_left(
    out: &mut Vec<u8>,
    scenario: &Scenario,
    noted: &Noted,
    at: ServerId,
    commit: bool,
) -> Result<(), NoMemory>
    ensures { OnOk result
        (out.new.items
        ≡ out.old.items
        ++ lines_text (mirror.left_from scenario.now noted.now.place at commit
        noted.now.seen.values noted.now.left)) }
{
    match &noted.left {
        Some(after) if commit => {
            let before = noted.seen.values.as_slice();
            put_values(out, scenario, noted.place, at, before, after.as_slice())
        }
        _ => Ok(()),
    }
}

/// Puts what changed in a server.
fn put_changed(
    out: &mut Vec<u8>,
    alloc: Global,
    world: &World,
    noted: &Noted,
    at: ServerId,
    forced: &Option<Record>,
) -> Result<(), NoMemory>
    ensures { OnOk result
        (out.new.items
        ≡ out.old.items
        ++ lines_text (mirror.changed_from world.now.scenario noted.now at noted.now.was_up
        forced.now (server_at world.now.machine.state.actors at))) }
{
    let scenario = world.scenario();
    match world.server(at) {
        Some(server) => put_seen_now(out, alloc, scenario, noted, at, server),
        None if noted.was_up => {
            put_left(out, scenario, noted, at, leaves_commit(noted.torn, forced))
        }
        None => Ok(()),
    }
}

fn put_seen_now(
    out: &mut Vec<u8>,
    alloc: Global,
    scenario: &Scenario,
    noted: &Noted,
    at: ServerId,
    server: &Server<Locks>,
) -> Result<(), NoMemory>
    ensures { OnOk result
        (out.new.items
        ≡ out.old.items
        ++ lines_text (seen.seen_lines scenario.now noted.now.place at noted.now.seen
        (seen.seen_of (seen.items_of scenario.now at) server.now))) }
{
    let now = see(alloc, items_of(scenario, at), Some(server))?;
    put_seen(out, scenario, noted.place, at, &noted.seen, &now)
}

/// Puts what changed in the actor.
fn put_state(
    out: &mut Vec<u8>,
    alloc: Global,
    world: &World,
    noted: &Noted,
    forced: &Option<Record>,
) -> Result<(), NoMemory>
    ensures { OnOk result
        (out.new.items
        ≡ out.old.items
        ++ lines_text (mirror.state_from world.now.scenario noted.now noted.now.actor forced.now
        world.now.machine.state)) }
{
    match noted.actor {
        Some(Actor::Server(at)) => put_changed(out, alloc, world, noted, at, forced),
        _ => Ok(()),
    }
}

/// Puts that a server went down or came up.
fn put_server_now(
    out: &mut Vec<u8>,
    scenario: &Scenario,
    place: Place,
    at: ServerId,
    was_up: bool,
    up: Option<&Server<Locks>>,
) -> Result<(), NoMemory>
    ensures { OnOk result
        (out.new.items
        ≡ out.old.items
        ++ lines_text (mirror.server_from scenario.now place at was_up (option_copied up.entry))) }
{
    match up {
        None if was_up => {
            put_front(out, place, Kind::Now)?;
            put_server(out, scenario, at)?;
            put(out, b" down\n")
        }
        Some(server) if !was_up => {
            put_front(out, place, Kind::Now)?;
            put_server(out, scenario, at)?;
            put_after(out, b" up epoch=", server.epoch)?;
            put(out, b"\n")
        }
        _ => Ok(()),
    }
}

/// Puts what a coordinator awaits, where it is not what it awaited.
fn put_coordinator_now(
    out: &mut Vec<u8>,
    scenario: &Scenario,
    place: Place,
    txn: TxnId,
    before: &[u8],
    after: &[u8],
) -> Result<(), NoMemory>
    ensures { OnOk result
        (out.new.items
        ≡ out.old.items
        ++ lines_text (blocks.coordinator_now scenario.now place txn before.now after.now)) }
{
    if before == after {
        return Ok(());
    }
    put_front(out, place, Kind::Now)?;
    put_txn(out, scenario, txn)?;
    put(out, b" ")?;
    put(out, after)?;
    put(out, b"\n")
}

/// Puts that an actor went down or came up, or awaits something else.
fn put_now(out: &mut Vec<u8>, alloc: Global, world: &World, noted: &Noted) -> Result<(), NoMemory>
    ensures { OnOk result
        (out.new.items
        ≡ out.old.items
        ++ lines_text (mirror.now_from world.now.scenario noted.now noted.now.actor
        world.now.machine.state)) }
{
    let scenario = world.scenario();
    match noted.actor {
        Some(Actor::Server(at)) => {
            let up = world.server(at);
            put_server_now(out, scenario, noted.place, at, noted.was_up, up)
        }
        Some(Actor::Coordinator(txn)) => {
            let now = awaits(alloc, scenario, world.coordinator(txn))?;
            let before = noted.awaited.as_slice();
            put_coordinator_now(out, scenario, noted.place, txn, before, now.as_slice())
        }
        _ => Ok(()),
    }
}

/// Puts what a step did, which had its actor force this record.
#[tactic(auto, using(crate::proofs::LineLemmas::lines_append))]
pub(crate) fn put_lines(
    out: &mut Vec<u8>,
    alloc: Global,
    world: &World,
    noted: &Noted,
    forced: &Option<Record>,
) -> Result<(), NoMemory>
    ensures { OnOk result
        (out.new.items
        ≡ out.old.items
        ++ lines_text (mirror.lines_from world.now.scenario noted.now forced.now
        world.now.machine.state)) }
{
    let scenario = world.scenario();
    let facts = world.facts();
    let news = behind(facts.as_slice(), noted.facts);
    let sent = behind(world.sent().as_slice(), noted.mails);
    put_durable(out, scenario, noted, forced)?;
    put_all_told(out, alloc, scenario, facts, news)?;
    put_state(out, alloc, world, noted, forced)?;
    put_mail_lines(out, scenario, noted.place, Kind::Sent, sent)?;
    put_now(out, alloc, world, noted)
}
