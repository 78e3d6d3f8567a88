//! What a coordinator does under its lock.
ghost use Rattle.std.specs.Prelude.{◌≡◌, IfOk, IfSome, IsTrue, Some, [], slice_get};
ghost use Rattle.tp_machine.specs.Machine as machine;
ghost use Rattle.tp_machine.specs.Named.{IsTxn};
ghost use Rattle.tp_machine.specs.Fits.{AllFitLogs};
ghost use Rattle.tp_model.specs.Words.actor;
ghost use Rattle.tp_model.specs.Words.step;
ghost use Rattle.tp_wire.specs.Entries.{mails_in};
ghost use Rattle.tp_cluster.specs.Calls.{IsAnswer, IsReady};
ghost use Rattle.tp_cluster.specs.Offices.{Held, IsOffice};
ghost use Rattle.tp_cluster.specs.Offices.Held.{OfCoordinator};
ghost use Rattle.tp_cluster.specs.mirrors.Meetings.{CanPlace, IsMet, untimed};
ghost use Rattle.tp_machine.specs.Moves.{number_of};
ghost use Rattle.tp_wire.specs.Passes.{Known};

use crate::error::ClusterError;
use crate::meeting::{ClusterWire, Left, finish, meet, post, refuse};
use crate::office::Office;
use crate::plan::Plan;
use std::sync::Wait;
use tp_coord::Coordinator;
use tp_machine::{
    Act, Nobody, Part, Spares, StepError, coordinator_begins, coordinator_takes, no_act,
};
use tp_types::{Actor, List, Mail, NoMemory, Place, Reaction, Scenario, Step, TxnId};
use tp_wire::{Pass, Site};

/// Whether this is the coordinator of a transaction.
fn is_coordinator(found: Actor, txn: TxnId) -> bool
    ensures { IsTrue result → found ≡ actor.Coordinator txn }
{
    match found {
        Actor::Coordinator(other) => other.0 == txn.0,
        _ => false,
    }
}

/// A coordinator receives a mail. A list of locks does not say which actor stands where, so that is tested here.
pub fn deliver<B: Site<Plan>, R: Wait>(
    rt: &R,
    wire: &ClusterWire<B>,
    scenario: &Scenario,
    pass: &mut Pass,
    office: &mut Office<Part<Coordinator>, B>,
    txn: TxnId,
    given: u64,
    mail: &Mail,
) -> Result<Place, ClusterError>
    requires ready { IsReady B.about.scenario B.table pass.old }
    requires about { scenario.now ≡ B.about.scenario }
    requires fit { AllFitLogs B.about.scenario }
    requires sent { slice_get (mails_in pass.old.view.seen) given ≡ Some mail.now }
    requires to { mail.now.letter.to ≡ actor.Coordinator txn }
    ensures site { pass.new.table ≡ B.table }
    ensures answer { IsAnswer B.about.scenario pass.old (step.Deliver given) result pass.new }
{
    match is_coordinator(office.actor, txn) {
        false => return Err(ClusterError::NoMemory),
        true => {}
    }
    let Some(kept) = office.pass.take() else {
        return Err(ClusterError::NoMemory);
    };
    meet(wire, pass, kept);
    match coordinator_takes(
        &mut office.state,
        &mut office.spares,
        &mut Nobody,
        scenario,
        mail,
    ) {
        Ok(act) => {
            let taken = Step::Deliver { mail: given };
            let (left, answer) = finish(
                rt,
                wire,
                pass,
                office.number,
                office.actor,
                &office.state,
                taken,
                act,
            );
            office.pass = left;
            answer
        }
        Err(NoMemory) => Err(ClusterError::NoMemory),
    }
}

/// A transaction that was not submitted, or whose coordinator is down.
fn untimed(part: &Part<Coordinator>, txn: TxnId) -> Option<StepError>
    ensures { result ≡ untimed part.now txn }
{
    match part.state() {
        None => Some(StepError::IsDown {
            actor: Actor::Coordinator(txn),
        }),
        Some(coordinator) => {
            if coordinator.begun() {
                None
            } else {
                Some(StepError::NotSubmitted { txn })
            }
        }
    }
}

/// What a coordinator sends again at its timer; nothing while it is down.
fn repeats_of(
    spares: &mut Spares,
    scenario: &Scenario,
    part: &Part<Coordinator>,
) -> Result<Act, NoMemory>
    ensures { IfOk result (λ act.
        (act.happened ≡ []) × (act.letters ≡ machine.repeats_of scenario.now part.now.up)) }
{
    match part.state() {
        None => Ok(no_act(spares.alloc())),
        Some(coordinator) => {
            let Reaction { append: _, letters } = coordinator.timer(&mut spares.letters, scenario)?;
            Ok(Act {
                happened: List::new(spares.alloc()),
                letters,
            })
        }
    }
}

/// A transaction's timer fires.
pub fn timer<B: Site<Plan>, R: Wait>(
    rt: &R,
    wire: &ClusterWire<B>,
    scenario: &Scenario,
    pass: &mut Pass,
    office: &mut Office<Part<Coordinator>, B>,
    txn: TxnId,
) -> Result<Place, ClusterError>
    requires ready { IsReady B.about.scenario B.table pass.old }
    requires about { scenario.now ≡ B.about.scenario }
    requires exists { IsTxn B.about.scenario txn }
    ensures site { pass.new.table ≡ B.table }
    ensures answer { IsAnswer B.about.scenario pass.old (step.Timer txn) result pass.new }
{
    match is_coordinator(office.actor, txn) {
        false => return Err(ClusterError::NoMemory),
        true => {}
    }
    let Some(kept) = office.pass.take() else {
        return Err(ClusterError::NoMemory);
    };
    meet(wire, pass, kept);
    match untimed(&office.state, txn) {
        Some(why) => {
            let alloc = office.spares.alloc();
            let (left, answer) = refuse(
                rt,
                alloc,
                wire,
                pass,
                office.number,
                office.actor,
                &office.state,
                why,
            );
            office.pass = left;
            return answer;
        }
        None => {}
    }
    match repeats_of(&mut office.spares, scenario, &office.state) {
        Ok(act) => {
            let taken = Step::Timer { txn };
            let (left, answer) = finish(
                rt,
                wire,
                pass,
                office.number,
                office.actor,
                &office.state,
                taken,
                act,
            );
            office.pass = left;
            answer
        }
        Err(NoMemory) => Err(ClusterError::NoMemory),
    }
}

/// Whether the transaction of a coordinator was submitted.
fn is_submitted(part: &Part<Coordinator>) -> bool
    ensures { result ≡ machine.is_part_submitted part.now.up }
{
    match part.state() {
        None => true,
        Some(coordinator) => coordinator.begun(),
    }
}

/// A transaction is submitted: its coordinator begins, and is told the place of this step, which is its age.
pub fn submit<B: Site<Plan>, R: Wait>(
    rt: &R,
    wire: &ClusterWire<B>,
    scenario: &Scenario,
    pass: &mut Pass,
    office: &mut Office<Part<Coordinator>, B>,
    txn: TxnId,
) -> Result<Place, ClusterError>
    requires ready { IsReady B.about.scenario B.table pass.old }
    requires about { scenario.now ≡ B.about.scenario }
    requires fit { AllFitLogs B.about.scenario }
    requires exists { IsTxn B.about.scenario txn }
    ensures site { pass.new.table ≡ B.table }
    ensures answer { IsAnswer B.about.scenario pass.old (step.Submit txn) result pass.new }
{
    match is_coordinator(office.actor, txn) {
        false => return Err(ClusterError::NoMemory),
        true => {}
    }
    let Some(kept) = office.pass.take() else {
        return Err(ClusterError::NoMemory);
    };
    meet(wire, pass, kept);
    match is_submitted(&office.state) {
        true => {
            let why = StepError::AlreadySubmitted { txn };
            {
                let alloc = office.spares.alloc();
                let (left, answer) = refuse(
                    rt,
                    alloc,
                    wire,
                    pass,
                    office.number,
                    office.actor,
                    &office.state,
                    why,
                );
                office.pass = left;
                return answer;
            }
        }
        false => {}
    }
    match coordinator_begins(
        &mut office.state,
        &mut office.spares,
        &mut Nobody,
        scenario,
        txn,
    ) {
        Ok(act) => {
            let (left, answer) = placed(
                rt,
                wire,
                pass,
                office.number,
                office.actor,
                &mut office.state,
                txn,
                act,
            );
            office.pass = left;
            answer
        }
        Err(NoMemory) => Err(ClusterError::NoMemory),
    }
}

/// The coordinator has begun: the submission is posted, and its place told to the coordinator.
fn placed<B: Site<Plan>, R: Wait>(
    rt: &R,
    wire: &ClusterWire<B>,
    pass: &mut Pass,
    number: u32,
    actor: Actor,
    state: &mut Part<Coordinator>,
    txn: TxnId,
    act: Act,
) -> Left
    requires number { number ≡ number_of B.about.scenario actor }
    requires may { CanPlace B.about.scenario B.table actor state.old pass.old (step.Submit txn) act }
    ensures site { pass.new.table ≡ B.table }
    ensures kept { IfSome result.0 (IsOffice B.about.scenario B.table actor (OfCoordinator state.new)) }
    ensures answer { (old : Known) (held : Held) → IsReady B.about.scenario B.table old
        → IsMet B.about.scenario B.table actor held old.view pass.old
        → IsAnswer B.about.scenario old (step.Submit txn) result.1 pass.new }
{
    match post(rt, wire, pass, number, Step::Submit { txn }, act) {
        Ok((place, kept)) => {
            state.placed(place);
            (Some(kept), Ok(place))
        }
        Err(NoMemory) => (None, Err(ClusterError::NoMemory)),
    }
}
