//! An actor with its log, and what it does to both when it acts.
ghost use Rattle.std.specs.Prelude.{◌≡◌, ◌+◌, ◌<◌, ◌≤◌, ◌^◌, [], ◌∷◌, ◌++◌, List, Some, None, length, IfOk, IfSome, OnErr, OnOk};
ghost use Rattle.std.specs.Option.{option_copied, option_map_or};
ghost use Rattle.std.specs.Vec.{vec_capacity, vec_len};
ghost use Rattle.tp_coord.specs.Booted.{boot_row};
ghost use Rattle.tp_actor_log.specs.Disks.{IsDiskOf};
ghost use Rattle.tp_actor_log.specs.Records.{FitsLog, cut_record, log_with};
ghost use Rattle.tp_lock.specs.Rule as lock;
ghost use Rattle.tp_machine.specs.Acts.{Acts, Boots};
ghost use Rattle.tp_machine.specs.Fits.{HasShortLog};
ghost use Rattle.tp_machine.specs.Machine as machine;
ghost use Rattle.tp_machine.specs.Opening.{opening_of};
ghost use Rattle.tp_machine.specs.Watches.{Heard};
ghost use Rattle.tp_machine.specs.mirrors.Acts as acts;
ghost use Rattle.tp_model.specs.SerialRun.{opening_store};
ghost use Rattle.tp_model.specs.Words.actor;
ghost use Rattle.tp_model.specs.Words.what;
ghost use Rattle.tp_model.specs.Words.{What};
ghost use Rattle.tp_recover.specs.Kept.{kept};
ghost use Rattle.tp_server.specs.Verdicts.{HasFewRules};
ghost use Rattle.tp_types.specs.Effect.{Gives};

use crate::opening::Opening;
use crate::spares::Spares;
use crate::watch::Watch;
use std::alloc::Global;
use std::marker::Model;
use tp_actor_log::{ActorLog, Past};
use tp_coord::Coordinator;
use tp_device::MemoryDisk;
use tp_lock::LockTable;
use tp_log::is_kept;
use tp_recover::{Kept, kept_apart};
use tp_server::Server;
use tp_store::{OpeningValues, Values, first_item};
use tp_types::{
    Actor, Cut, Letter, List, Mail, NoMemory, Place, Reaction, Record, Scenario, ServerId, Spare,
    TryClone, TxnId, What,
};

/// An actor's state, which is None while it is down, and its log. Contracts see the log as the list of its records.
#[derive(Drop)]
pub struct Part<S> {
    up: Option<S>,
    records: ActorLog,
}

impl<S> Model for Part<S> {
    ghost use Rattle.tp_machine.specs.Parts as parts;

    ghost Value = { parts.Part S };

    ghost view = { λ p. record { up = p.up; log = p.records } };
}

impl<S: Drop> Part<S> {
    /// An actor that is up, and has logged nothing.
    pub fn opened(alloc: Global, state: S) -> Result<Part<S>, NoMemory>
        ensures { IfOk result (λ part. part ≡ machine.opened_part state) }
    {
        match ActorLog::fresh(alloc) {
            Err(NoMemory) => Err(NoMemory),
            Ok(records) => Ok(Part {
                up: Some(state),
                records,
            }),
        }
    }

    /// Forces what an act gives to the actor's log: once it is answered the record outlives a crash.
    pub fn force(&mut self, alloc: Global, append: &Option<Record>) -> Result<(), NoMemory>
        requires { IfSome append.now FitsLog }
        ensures ok { OnOk result (self.new ≡ record self.old { log = log_with self.old.log append.now }) }
        ensures err { OnErr result (self.new ≡ self.old) }
    {
        self.records.force(alloc, append)
    }

    /// The disk crashes as what an act gives is forced: so many of its calls pass, and what is then unsynced reads the fill. The
    /// actor itself goes down by `crash`, once that is noted. Where memory is refused the disk does not crash.
    pub fn cut(&mut self, alloc: Global, append: &Option<Record>, cut: Cut) -> Result<(), NoMemory>
        requires { IfSome append.now FitsLog }
        ensures ok { OnOk result (self.new ≡ record self.old {
          log = log_with self.old.log (cut_record cut append.now);
        }) }
        ensures err { OnErr result (self.new ≡ self.old) }
    {
        self.records.cut(alloc, append, cut)
    }

    /// The actor goes down, and its disk crashes. Its state is gone, and its log stays. It takes no memory.
    pub fn crash(&mut self, alloc: Global)
        ensures { self.new ≡ acts.down_part self.old }
    {
        self.records.crash(alloc);
        self.up = None;
    }

    /// All that is kept of the records that the disk gives, by which a server boots. Of these it reads those alone that the
    /// log gained since it was read last. It takes over a share of the opening values. One more boot can be counted.
    pub fn kept(
        &mut self,
        alloc: Global,
        scenario: &Scenario,
        server: ServerId,
        opening: OpeningValues,
    ) -> Result<Kept, NoMemory>
        requires values { opening ≡ opening_store scenario.now }
        ensures kept { IfOk result (λ made. made ≡ kept scenario.now server self.old.log) }
        ensures epoch { IfOk result (λ made. made.epoch + 1 < 2 ^ 64) }
        ensures same { self.new ≡ self.old }
    {
        let values = Values::over(alloc, opening, first_item(scenario, server))?;
        let past = self.records.read(alloc)?;
        let made = kept_apart(alloc, scenario, server, values, &past.others, past.boots);
        self.records.keep(past);
        made
    }

    /// The actor comes up with this state.
    pub fn comes_up(&mut self, state: S)
        ensures { self.new ≡ record self.old { up = Some state } }
    {
        self.up = Some(state);
    }

    /// The disk of the actor's log. Every image that a crash may leave of it gives exactly the log's records.
    pub fn disk(&self) -> &MemoryDisk
        ensures { IsDiskOf result.now self.now.log }
    {
        self.records.disk()
    }

    /// The records that the disk gives now, for who looks on.
    pub fn records(&self, alloc: Global) -> Result<List<Record>, NoMemory>
        ensures { IfOk result (λ records. records ≡ self.now.log) }
    {
        self.records.records(alloc)
    }

    /// Whether the actor is down.
    pub fn is_down(&self) -> bool
        ensures { result ≡ machine.is_part_down self.now }
    {
        self.up.is_none()
    }

    /// The actor's state, while it is up.
    pub fn state(&self) -> Option<&S>
        ensures { option_copied result ≡ self.now.up }
    {
        self.up.as_ref()
    }
}

impl Part<Coordinator> {
    /// The coordinator that boots by the records that the disk gives, and what it wants done.
    fn booted(
        &mut self,
        alloc: Global,
        scenario: &Scenario,
        txn: TxnId,
    ) -> Result<(Coordinator, Reaction), NoMemory>
        requires { length scenario.now.servers < 2 ^ 32 }
        ensures made { IfOk result (λ made.
            Gives (boot_row scenario.now txn self.old.log) made.0 made.1) }
        ensures same { self.new ≡ self.old }
    {
        let past = self.records.read(alloc)?;
        let made = Coordinator::booted(alloc, scenario, txn, &past.others);
        self.records.keep(past);
        made
    }

    /// The submission that the coordinator has begun took place there: what it sends from now on names that age.
    pub fn placed(&mut self, place: Place)
        ensures { self.new ≡ machine.placed_part place self.old }
    {
        if let Some(coordinator) = &mut self.up {
            coordinator.placed(place);
        }
    }
}

/// What an actor's act leaves for the history: what happened, and what it sends.
#[derive(Drop)]
pub struct Act {
    pub happened: List<What>,
    pub letters: List<Letter>,
}

/// No actor acted, and nothing happened.
pub fn no_act(alloc: Global) -> Act
    ensures { result ≡ record { happened = []; letters = [] } }
{
    Act {
        happened: List::new(alloc),
        letters: List::new(alloc),
    }
}

/// This happened, and no actor acted.
pub fn alone(spare: &mut Spare<What>, happened: What) -> Result<Act, NoMemory>
    ensures { IfOk result (λ act. act ≡ record { happened = happened ∷ []; letters = [] }) }
{
    let alloc = spare.alloc();
    Ok(Act {
        happened: spare.list_of(happened)?,
        letters: List::new(alloc),
    })
}

/// Who looks on hears of a record that is to be forced, if there is one.
#[inline(always)]
fn hear<W: Watch>(watch: &mut W, alloc: Global, append: &Option<Record>)
    ensures { Heard W.hears watch.old append.now watch.new }
{
    if let Some(forced) = append {
        watch.hear(alloc, forced);
    }
}

/// What an act gives is forced, where what happened in it was told. After NoMemory nothing was forced.
#[inline(always)]
fn noted<S: Drop, W: Watch>(
    part: &mut Part<S>,
    watch: &mut W,
    alloc: Global,
    reaction: Reaction,
    happened: Result<List<What>, NoMemory>,
) -> Result<Act, NoMemory>
    requires { IfSome reaction.append FitsLog }
    ensures forced { OnOk result (part.new ≡ record part.old {
      log = log_with part.old.log reaction.append;
    }) }
    ensures told { (facts : List What) → IfOk happened (λ told. told ≡ facts)
        → IfOk result (λ act. act ≡ record { happened = facts; letters = reaction.letters }) }
    ensures heard { OnOk result (Heard W.hears watch.old reaction.append watch.new) }
    ensures err { OnErr result (part.new ≡ part.old) }
{
    let Reaction { append, letters } = reaction;
    let happened = happened?;
    hear(watch, alloc, &append);
    match part.force(alloc, &append) {
        Ok(()) => Ok(Act { happened, letters }),
        Err(NoMemory) => Err(NoMemory),
    }
}

/// The same where the disk crashes as that is forced: nothing is sent.
fn torn<S: Drop, W: Watch>(
    part: &mut Part<S>,
    watch: &mut W,
    alloc: Global,
    append: Option<Record>,
    happened: Result<List<What>, NoMemory>,
    cut: Cut,
) -> Result<Act, NoMemory>
    requires { IfSome append FitsLog }
    ensures torn { OnOk result (part.new ≡ record part.old {
      log = log_with part.old.log (cut_record cut append);
    }) }
    ensures told { (facts : List What) → IfOk happened (λ told. told ≡ facts)
        → IfOk result (λ act. act ≡ record { happened = facts; letters = [] }) }
    ensures heard { OnOk result (Heard W.hears watch.old append watch.new) }
    ensures err { OnErr result (part.new ≡ part.old) }
{
    let happened = happened?;
    hear(watch, alloc, &append);
    match part.cut(alloc, &append, cut) {
        Ok(()) => Ok(Act {
            happened,
            letters: List::new(alloc),
        }),
        Err(NoMemory) => Err(NoMemory),
    }
}

/// A server receives a mail. After NoMemory nothing is said of its state, but that it is up as before; its log is as before.
pub fn server_takes<L: LockTable + Drop, W: Watch>(
    part: &mut Part<Server<L>>,
    spares: &mut Spares,
    watch: &mut W,
    scenario: &Scenario,
    at: ServerId,
    mail: &Mail,
) -> Result<Act, NoMemory>
    requires few { HasFewRules scenario.now }
    requires fits { HasShortLog (machine.server_takes scenario.now at part.old mail.now).part }
    ensures ok { IfOk result (λ act.
        Acts (machine.server_takes scenario.now at part.old mail.now) part.new act) }
    ensures heard { OnOk result (Heard W.hears watch.old
        (machine.server_forces scenario.now part.old.up mail.now) watch.new) }
    ensures up { machine.is_part_down part.new ≡ machine.is_part_down part.old }
    ensures log { OnErr result (part.new.log ≡ part.old.log) }
{
    let alloc = spares.alloc();
    let Some(server) = &mut part.up else {
        return Ok(no_act(alloc));
    };
    let reaction = server.receive(&mut spares.letters, scenario, mail)?;
    let happened = server_facts(&mut spares.facts, at, &reaction.append);
    noted(part, watch, alloc, reaction, happened)
}

/// A coordinator receives a mail. After NoMemory nothing is said of its state, but that it is up as before; its log is as
/// before.
pub fn coordinator_takes<W: Watch>(
    part: &mut Part<Coordinator>,
    spares: &mut Spares,
    watch: &mut W,
    scenario: &Scenario,
    mail: &Mail,
) -> Result<Act, NoMemory>
    requires fits { HasShortLog (machine.coordinator_takes scenario.now part.old mail.now).part }
    ensures ok { IfOk result (λ act.
        Acts (machine.coordinator_takes scenario.now part.old mail.now) part.new act) }
    ensures heard { OnOk result (Heard W.hears watch.old
        (machine.coordinator_forces scenario.now part.old.up mail.now) watch.new) }
    ensures up { machine.is_part_down part.new ≡ machine.is_part_down part.old }
    ensures log { OnErr result (part.new.log ≡ part.old.log) }
{
    let Some(coordinator) = &mut part.up else {
        return Ok(no_act(spares.alloc()));
    };
    let Reaction { append, letters } = coordinator.receive(&mut spares.letters, scenario, mail)?;
    match forced_with_room(part, watch, &mut spares.facts, &append) {
        Ok(room) => {
            let happened = coordinator_facts_in(room, append);
            Ok(Act { happened, letters })
        }
        Err(NoMemory) => {
            drop(append);
            drop(letters);
            Err(NoMemory)
        }
    }
}

/// A coordinator begins its transaction, wherever that is: its age is told to it once the place is known (`Part::placed`).
/// After NoMemory it is up as before, and its log is as before.
pub fn coordinator_begins<W: Watch>(
    part: &mut Part<Coordinator>,
    spares: &mut Spares,
    watch: &mut W,
    scenario: &Scenario,
    txn: TxnId,
) -> Result<Act, NoMemory>
    requires fits { HasShortLog (machine.coordinator_begins scenario.now part.old txn).part }
    ensures ok { IfOk result (λ act.
        Acts (machine.coordinator_begins scenario.now part.old txn) part.new act) }
    ensures heard { OnOk result (Heard W.hears watch.old
        (machine.begin_forces scenario.now part.old.up) watch.new) }
    ensures up { machine.is_part_down part.new ≡ machine.is_part_down part.old }
    ensures log { OnErr result (part.new.log ≡ part.old.log) }
{
    let alloc = spares.alloc();
    let Some(coordinator) = &mut part.up else {
        return alone(&mut spares.facts, What::Submitted(txn));
    };
    let reaction = coordinator.submit(&mut spares.letters, scenario)?;
    let happened = with_decision(&mut spares.facts, What::Submitted(txn), &reaction.append);
    noted(part, watch, alloc, reaction, happened)
}

/// A coordinator's transaction is submitted at a place. After NoMemory it is up as before, and its log is as before.
pub fn coordinator_submits<W: Watch>(
    part: &mut Part<Coordinator>,
    spares: &mut Spares,
    watch: &mut W,
    scenario: &Scenario,
    txn: TxnId,
    place: Place,
) -> Result<Act, NoMemory>
    requires fits { HasShortLog
        (machine.coordinator_submits scenario.now part.old txn place).part }
    ensures ok { IfOk result (λ act.
        Acts (machine.coordinator_submits scenario.now part.old txn place) part.new act) }
    ensures heard { OnOk result (Heard W.hears watch.old
        (machine.begin_forces scenario.now part.old.up) watch.new) }
    ensures up { machine.is_part_down part.new ≡ machine.is_part_down part.old }
    ensures log { OnErr result (part.new.log ≡ part.old.log) }
{
    let act = coordinator_begins(part, spares, watch, scenario, txn)?;
    part.placed(place);
    Ok(act)
}

/// A server crashes in the receipt of a mail: what is left of it is on its log. It goes down once that is noted, and is up until
/// then, with nothing said of its state. After NoMemory its log is as before.
#[tactic(auto, using(crate::proofs::basics::Crashes::told_of))]
pub fn server_crashes_in<L: LockTable + Drop, W: Watch>(
    part: &mut Part<Server<L>>,
    spares: &mut Spares,
    watch: &mut W,
    scenario: &Scenario,
    at: ServerId,
    mail: &Mail,
    cut: Cut,
) -> Result<Act, NoMemory>
    requires few { HasFewRules scenario.now }
    requires fits { IfSome (machine.server_forces scenario.now part.old.up mail.now) FitsLog }
    ensures ok { IfOk result (λ act.
        Acts
        (machine.goes_down (machine.server_fact at) (what.Crashed (actor.Server at) ∷ []) part.old
        (cut_record cut (machine.server_forces scenario.now part.old.up mail.now)))
        (acts.down_part part.new) act) }
    ensures heard { OnOk result (Heard W.hears watch.old
        (machine.server_forces scenario.now part.old.up mail.now) watch.new) }
    ensures up { machine.is_part_down part.new ≡ machine.is_part_down part.old }
    ensures log { OnErr result (part.new.log ≡ part.old.log) }
{
    let alloc = spares.alloc();
    let Some(server) = &mut part.up else {
        return alone(&mut spares.facts, What::Crashed(Actor::Server(at)));
    };
    let append = server.receive(&mut spares.letters, scenario, mail)?.append;
    let happened = server_cut_facts(&mut spares.facts, at, cut, &append);
    torn(part, watch, alloc, append, happened, cut)
}

/// A coordinator crashes in the receipt of a mail, in the same way.
#[tactic(auto, using(crate::proofs::basics::Crashes::told_of))]
pub fn coordinator_crashes_in<W: Watch>(
    part: &mut Part<Coordinator>,
    spares: &mut Spares,
    watch: &mut W,
    scenario: &Scenario,
    txn: TxnId,
    mail: &Mail,
    cut: Cut,
) -> Result<Act, NoMemory>
    requires fits { IfSome (machine.coordinator_forces scenario.now part.old.up mail.now) FitsLog }
    ensures ok { IfOk result (λ act.
        Acts
        (machine.goes_down machine.coordinator_fact (what.Crashed (actor.Coordinator txn) ∷ [])
        part.old
        (cut_record cut (machine.coordinator_forces scenario.now part.old.up mail.now)))
        (acts.down_part part.new) act) }
    ensures heard { OnOk result (Heard W.hears watch.old
        (machine.coordinator_forces scenario.now part.old.up mail.now) watch.new) }
    ensures up { machine.is_part_down part.new ≡ machine.is_part_down part.old }
    ensures log { OnErr result (part.new.log ≡ part.old.log) }
{
    let alloc = spares.alloc();
    let Some(coordinator) = &mut part.up else {
        return alone(&mut spares.facts, What::Crashed(Actor::Coordinator(txn)));
    };
    let append = coordinator
        .receive(&mut spares.letters, scenario, mail)?
        .append;
    let happened = coordinator_cut_facts(&mut spares.facts, txn, cut, &append);
    torn(part, watch, alloc, append, happened, cut)
}

/// What happened where a server crashed in a receipt: its crash, and what its log then tells.
fn server_cut_facts(
    spare: &mut Spare<What>,
    at: ServerId,
    cut: Cut,
    append: &Option<Record>,
) -> Result<List<What>, NoMemory>
    ensures { IfOk result (λ facts. facts ≡ what.Crashed (actor.Server at)
        ∷ option_map_or (machine.server_fact at) (cut_record cut append.now) []) }
{
    let mut happened = spare.list_of(What::Crashed(Actor::Server(at)))?;
    match append {
        Some(Record::Settled(settled)) if is_kept(cut.calls, cut.fill) => {
            happened.push(What::Settled(at, settled.txn, settled.outcome))?;
        }
        _ => {}
    }
    Ok(happened)
}

/// The same of a coordinator.
fn coordinator_cut_facts(
    spare: &mut Spare<What>,
    txn: TxnId,
    cut: Cut,
    append: &Option<Record>,
) -> Result<List<What>, NoMemory>
    ensures { IfOk result (λ facts. facts ≡ what.Crashed (actor.Coordinator txn)
        ∷ option_map_or machine.coordinator_fact (cut_record cut append.now) []) }
{
    let crash = What::Crashed(Actor::Coordinator(txn));
    if is_kept(cut.calls, cut.fill) {
        with_decision(spare, crash, append)
    } else {
        spare.list_of(crash)
    }
}

/// A server boots by its log, on which one boot more is then. It comes up with the state that is answered once that is noted.
pub fn server_boots<L: LockTable + Drop, W: Watch>(
    part: &mut Part<Server<L>>,
    alloc: Global,
    watch: &mut W,
    scenario: &Scenario,
    at: ServerId,
    opening: Opening,
    locks: L,
) -> Result<(Server<L>, Act), NoMemory>
    requires opening { opening ≡ opening_of scenario.now }
    requires locks { L.table locks ≡ lock.opening (length scenario.now.items) }
    requires fits { HasShortLog (machine.server_boots scenario.now at part.old).part }
    ensures ok { IfOk result (λ made.
        Boots (machine.server_boots scenario.now at part.old) part.new made.0 made.1) }
    ensures heard { OnOk result (Heard W.hears watch.old
        (machine.server_boot_forces scenario.now at part.old) watch.new) }
    ensures up { machine.is_part_down part.new ≡ machine.is_part_down part.old }
    ensures log { OnErr result (part.new.log ≡ part.old.log) }
{
    let Opening { ranges, values } = opening;
    let kept = part.kept(alloc, scenario, at, values)?;
    let (state, reaction) = Server::booted(alloc, scenario, at, ranges, kept, locks)?;
    let act = noted(part, watch, alloc, reaction, Ok(List::new(alloc)))?;
    Ok((state, act))
}

/// A coordinator boots by its log, in the same way.
#[tactic(auto, using(crate::proofs::basics::Crashes::told_of))]
pub fn coordinator_boots<W: Watch>(
    part: &mut Part<Coordinator>,
    alloc: Global,
    watch: &mut W,
    scenario: &Scenario,
    txn: TxnId,
) -> Result<(Coordinator, Act), NoMemory>
    requires few { length scenario.now.servers < 2 ^ 32 }
    requires fits { HasShortLog (machine.coordinator_boots scenario.now txn part.old).part }
    ensures ok { IfOk result (λ made.
        Boots (machine.coordinator_boots scenario.now txn part.old) part.new made.0 made.1) }
    ensures heard { OnOk result (Heard W.hears watch.old
        (machine.coordinator_boot_forces scenario.now txn part.old) watch.new) }
    ensures up { machine.is_part_down part.new ≡ machine.is_part_down part.old }
    ensures log { OnErr result (part.new.log ≡ part.old.log) }
{
    let (state, reaction) = part.booted(alloc, scenario, txn)?;
    let happened = coordinator_facts(alloc, &reaction.append);
    let act = noted(part, watch, alloc, reaction, happened)?;
    Ok((state, act))
}

fn server_facts(
    spare: &mut Spare<What>,
    at: ServerId,
    append: &Option<Record>,
) -> Result<List<What>, NoMemory>
    ensures { IfOk result (λ facts. facts ≡ option_map_or (machine.server_fact at) append.now []) }
{
    match append {
        Some(Record::Settled(settled)) => {
            spare.list_of(What::Settled(at, settled.txn, settled.outcome))
        }
        _ => Ok(List::new(spare.alloc())),
    }
}

/// Forces what a coordinator's act gives, once there is room for what it decides, which is the record's own: a commit
/// with all its proofs is not copied. After NoMemory nothing was forced.
fn forced_with_room<S: Drop, W: Watch>(
    part: &mut Part<S>,
    watch: &mut W,
    spare: &mut Spare<What>,
    append: &Option<Record>,
) -> Result<Vec<What>, NoMemory>
    requires { IfSome append.now FitsLog }
    ensures forced { OnOk result (part.new ≡ record part.old { log = log_with part.old.log append.now }) }
    ensures heard { OnOk result (Heard W.hears watch.old append.now watch.new) }
    ensures empty { IfOk result (λ room. vec_len room ≡ 0) }
    ensures room { IfOk result (λ room. acts.decisions append.now ≤ vec_capacity room) }
    ensures err { OnErr result (part.new ≡ part.old) }
{
    let alloc = spare.alloc();
    let room = spare.room(decisions(append))?;
    hear(watch, alloc, append);
    match part.force(alloc, append) {
        Ok(()) => Ok(room),
        Err(NoMemory) => {
            drop(room);
            Err(NoMemory)
        }
    }
}

/// How many decisions a record is.
fn decisions(append: &Option<Record>) -> usize
    ensures { result ≡ acts.decisions append.now }
{
    match append {
        Some(Record::Decided(_)) => 1,
        _ => 0,
    }
}

/// The decision that the log has gained, if there is one, in room for it.
fn coordinator_facts_in(mut room: Vec<What>, append: Option<Record>) -> List<What>
    requires empty { vec_len room ≡ 0 }
    requires room { acts.decisions append ≤ vec_capacity room }
    ensures { result ≡ option_map_or machine.coordinator_fact append [] }
{
    match append {
        Some(Record::Decided(decided)) => {
            room.push_reserved(What::Decided(decided.txn, decided.decision));
            List::from_vec(room)
        }
        other => {
            drop(other);
            List::from_vec(room)
        }
    }
}

fn coordinator_facts(alloc: Global, append: &Option<Record>) -> Result<List<What>, NoMemory>
    ensures { IfOk result (λ facts.
        facts ≡ option_map_or machine.coordinator_fact append.now []) }
{
    let mut facts = List::new(alloc);
    note_decision(alloc, &mut facts, append)?;
    Ok(facts)
}

/// What happened first, and the decision that the log gains if there is one.
#[inline(always)]
fn with_decision(
    spare: &mut Spare<What>,
    first: What,
    append: &Option<Record>,
) -> Result<List<What>, NoMemory>
    ensures { IfOk result (λ facts.
        facts ≡ first ∷ option_map_or machine.coordinator_fact append.now []) }
{
    let alloc = spare.alloc();
    let mut facts = spare.list_of(first)?;
    note_decision(alloc, &mut facts, append)?;
    Ok(facts)
}

fn note_decision(
    alloc: Global,
    happened: &mut List<What>,
    append: &Option<Record>,
) -> Result<(), NoMemory>
    ensures { OnOk result
        (happened.new ≡ happened.old ++ option_map_or machine.coordinator_fact append.now []) }
{
    match append {
        Some(Record::Decided(decided)) => {
            happened.push(What::Decided(decided.txn, decided.decision.try_clone(alloc)?))
        }
        _ => Ok(()),
    }
}
