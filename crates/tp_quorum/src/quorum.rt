//! A replicated master: its calls.
ghost use Rattle.std.specs.Prelude.{◌≡◌, ◌<◌, ◌≤◌, ◌+◌, ◌^◌, length, replicate, true, false, Some, None, slice_get, IfOk, IfErr, IfSome, IsErr, OnOk};
ghost use Rattle.tp_quorum.specs.Acts.{Advances, FitNumbers, HasNextVersion, beside, machine_of};
ghost use Rattle.tp_quorum.specs.Automatic.{next_of};
ghost use Rattle.tp_quorum.specs.Machine as machine;
ghost use Rattle.tp_quorum.specs.OneMaster.{OneMaster};
ghost use Rattle.tp_quorum.specs.QuorumView.{CanBegin, Does, Drains, IsNext, IsReached, Refuses, answer_by, answer_of, end_of, opened_ledger, opened_members, phase_answer};
ghost use Rattle.tp_quorum.specs.Words.error;

use crate::acts::{Members, do_step};
use crate::ledger::{Ledger, note};
use crate::refusal::{next, refusal};
use crate::replica::{Replica, first_versions, known_at};
use crate::types::{Answer, Operation, Phase, QError, QFact, QStep, Sizes};
use std::alloc::Global;
use std::marker::Model;
use tp_pending::Pending;
use tp_types::{AdminId, List, NoMemory, Version};

/// A replicated master. After memory was refused it is given up.
#[derive(Drop)]
pub struct Quorum {
    sizes: Sizes,
    members: Members,
    ledger: Ledger,
    given_up: bool,
}

impl Model for Quorum {
    ghost use Rattle.std.specs.Prelude.{◌≡◌, false};
    ghost use Rattle.tp_quorum.specs.Acts.{machine_of};
    ghost use Rattle.tp_quorum.specs.QuorumView.{IsRun, QuorumView};

    ghost Value = { QuorumView };

    ghost view = { λ q. record {
      sizes = q.sizes;
      machine = machine_of q.members q.ledger;
      given_up = q.given_up;
    } };

    ghost invariant = { λ q. q.given_up ≡ false → IsRun q.sizes q.members q.ledger };
}

fn answer_in(phase: &Phase) -> Answer
    ensures { result ≡ phase_answer phase.now }
{
    match phase {
        Phase::Ended { version } => Answer::Done { version: *version },
        _ => Answer::Pending,
    }
}

fn answer_at(ops: &List<Operation>, op: u32) -> Answer
    ensures { result ≡ answer_of (slice_get ops.now op) }
{
    match ops.get(op as usize) {
        None => Answer::Pending,
        Some(operation) => answer_in(&operation.phase),
    }
}

/// Does a step, and notes it.
fn advance(
    members: &mut Members,
    ledger: &mut Ledger,
    alloc: Global,
    taken: QStep,
) -> Result<(), NoMemory>
    requires fit { FitNumbers members.old }
    requires version { HasNextVersion members.old taken }
    ensures { OnOk result (Advances members.old ledger.old taken members.new ledger.new) }
{
    let act = do_step(members, alloc, &ledger.mails, taken)?;
    note(ledger, taken, act)
}

/// The same. Where memory is refused the whole is given up.
fn advance_or_give_up(
    members: &mut Members,
    ledger: &mut Ledger,
    given_up: &mut bool,
    alloc: Global,
    taken: QStep,
) -> Result<(), QError>
    requires fit { FitNumbers members.old }
    requires version { HasNextVersion members.old taken }
    ensures ok { OnOk result (Advances members.old ledger.old taken members.new ledger.new) }
    ensures same { OnOk result (given_up.new ≡ given_up.old) }
    ensures err { IfErr result (λ _. given_up.new ≡ true) }
    ensures why { IfErr result (λ why. why ≡ error.NoMemory) }
{
    match advance(members, ledger, alloc, taken) {
        Ok(()) => Ok(()),
        Err(NoMemory) => {
            *given_up = true;
            Err(QError::NoMemory)
        }
    }
}

/// So many replicas that were never told anything.
fn open_replicas(alloc: Global, count: u32, admins: usize) -> Result<List<Replica>, NoMemory>
    ensures { IfOk result (λ made. made ≡ replicate count (machine.opened_replica admins)) }
{
    let mut replicas = List::new(alloc);
    for _replica in 0..count {
        replicas.push(Replica::opened(alloc, admins)?)?;
    }
    Ok(replicas)
}

/// The parts before the first step.
fn open_members(alloc: Global, sizes: Sizes) -> Result<Members, NoMemory>
    ensures { IfOk result (λ made. made ≡ opened_members sizes) }
{
    let admins = sizes.admins as usize;
    let last = first_versions(alloc, admins)?;
    match open_replicas(alloc, sizes.replicas, admins) {
        Err(NoMemory) => Err(NoMemory),
        Ok(replicas) => Ok(Members {
            replicas,
            ops: List::new(alloc),
            last,
        }),
    }
}

fn open_ledger(alloc: Global) -> Result<Ledger, NoMemory>
    ensures { IfOk result (λ made. made ≡ opened_ledger) }
{
    let pending = Pending::new(alloc, 0)?;
    Ok(Ledger {
        mails: List::new(alloc),
        pending,
        facts: List::new(alloc),
        steps: List::new(alloc),
    })
}

impl Quorum {
    /// A replicated master with at least one replica, before the first step.
    #[tactic(auto, using(crate::proofs::QuorumLemmas::opened_run))]
    pub fn start(alloc: Global, sizes: Sizes) -> Result<Quorum, NoMemory>
        requires { 1 ≤ sizes.replicas }
        ensures { IfOk result (λ made. made
            ≡ record { sizes = sizes; machine = machine.opening sizes; given_up = false }) }
    {
        let members = open_members(alloc, sizes)?;
        match open_ledger(alloc) {
            Err(NoMemory) => Err(NoMemory),
            Ok(ledger) => Ok(Quorum {
                sizes,
                members,
                ledger,
                given_up: false,
            }),
        }
    }

    /// Whether memory was refused.
    pub fn is_given_up(&self) -> bool
        ensures { result ≡ self.now.given_up }
    {
        self.given_up
    }

    /// Does a step that names what exists, unless it is refused. Where memory is refused the replicated master is given up.
    #[tactic(auto, using(crate::proofs::QuorumLemmas::fits, crate::proofs::QuorumLemmas::has_next_version, crate::proofs::QuorumLemmas::refusal_same))]
    pub fn step(&mut self, alloc: Global, taken: &QStep) -> Result<(), QError>
        requires named { machine.IsStepOf self.old.sizes taken.now }
        requires begins { CanBegin self.old.machine taken.now }
        ensures ok { OnOk result (Does self.old self.new taken.now) }
        ensures err { IfErr result (Refuses self.old self.new taken.now) }
    {
        let taken = *taken;
        if self.given_up {
            return Err(QError::NoMemory);
        }
        if let Some(error) = refusal(&self.members, &self.ledger.mails, taken) {
            return Err(error);
        }
        advance_or_give_up(
            &mut self.members,
            &mut self.ledger,
            &mut self.given_up,
            alloc,
            taken,
        )
    }

    /// The facts: they are those of one master, and of a machine that steps give.
    #[tactic(auto, using(crate::proofs::QuorumLemmas::run_has_one_master))]
    pub fn facts(&self) -> &List<QFact>
        requires { self.now.given_up ≡ false }
        ensures value { result.now ≡ self.now.machine.state.facts }
        ensures reached { IsReached self.now.sizes self.now.machine }
        ensures one_master { OneMaster result.now }
    {
        &self.ledger.facts
    }

    /// The step that comes next by itself, or None exactly where nothing is left to do. It may be taken, and is not
    /// refused. It takes no memory.
    #[tactic(auto, using(crate::proofs::QuorumLemmas::fits))]
    pub fn next(&self) -> Option<QStep>
        requires { self.now.given_up ≡ false }
        ensures value { result ≡ next_of self.now.machine }
        ensures allowed { IfSome result (IsNext self.now.sizes self.now.machine) }
    {
        next(&self.members, &self.ledger.pending)
    }

    /// Takes the steps that come next by themselves, one after another, until nothing is left to do. There are no more of
    /// them than the bound, so none is counted. Where memory is refused the replicated master is given up.
    pub fn drain(&mut self, alloc: Global) -> Result<(), NoMemory>
        ensures ok { OnOk result (Drains self.old self.new) }
        ensures err { IsErr result → self.new.given_up ≡ true }
    {
        if self.given_up {
            return Err(NoMemory);
        }
        let _facts = self.facts();
        while let Some(taken) = self.next() {
            match self.step(alloc, &taken) {
                Ok(()) => {}
                Err(_) => return Err(NoMemory),
            }
        }
        Ok(())
    }

    /// What came of an operation: Done exactly where the facts have its end, with the version of that end.
    pub fn answer(&self, op: u32) -> Answer
        requires up { self.now.given_up ≡ false }
        requires begun { op < length self.now.machine.state.ops }
        ensures value { result ≡ answer_of (slice_get self.now.machine.state.ops op) }
        ensures ended { result ≡ answer_by (end_of op self.now.machine.state.facts) }
    {
        answer_at(&self.members.ops, op)
    }

    /// How many operations have begun.
    pub fn operations(&self) -> u32
        requires { self.now.given_up ≡ false }
        ensures { result ≡ length self.now.machine.state.ops }
    {
        self.members.ops.len() as u32
    }

    /// How many steps were done.
    pub fn steps(&self) -> u64
        ensures { result ≡ length self.now.machine.state.steps }
    {
        self.ledger.steps.len() as u64
    }

    /// How many mails were sent.
    pub fn mails(&self) -> u64
        ensures { result ≡ length self.now.machine.state.mails }
    {
        self.ledger.mails.len() as u64
    }

    /// The last version of the administrator's publisher, or 1 before its first publication.
    pub fn newest(&self, admin: AdminId) -> Version
        ensures { result ≡ machine.last_of self.now.machine.state.last admin }
    {
        known_at(&self.members.last, admin)
    }
}
