//! A caller's pass under an actor's lock: it takes the actor's pass in, does a step or is refused, and gives that pass
//! back.
ghost use Rattle.std.specs.Prelude.{◌≡◌, List, Some, false, IfOk, IfSome};
ghost use Rattle.tp_model.specs.Words.{Actor, Step};
ghost use Rattle.tp_machine.specs.declared.error.StepError.{StepError};
ghost use Rattle.tp_machine.specs.Machine.{refusal};
ghost use Rattle.tp_machine.specs.Moves.{number_of};
ghost use Rattle.tp_wire.specs.declared.view.Entry.{Entry};
ghost use Rattle.tp_wire.specs.declared.view.View.{View};
ghost use Rattle.tp_wire.specs.Passes.{Known};
ghost use Rattle.tp_cluster.specs.Calls.{IsAnswer, IsReady};
ghost use Rattle.tp_cluster.specs.Offices.{Held, IsOffice};
ghost use Rattle.tp_cluster.specs.Runs.{state_at};
ghost use Rattle.tp_cluster.specs.mirrors.Meetings.{CanFinish, CanPost, Follows, HasPosted, HasTurned, IsMet};

use crate::error::ClusterError;
use crate::office::Officer;
use crate::plan::{Plan, Runs};
use std::alloc::Global;
use std::sync::Wait;
use tp_machine::{Act, StepError};
use tp_types::{Actor, NoMemory, Place, Step};
use tp_wire::{Pass, Site, Wire};

/// The history of a cluster.
pub type ClusterWire<B> = Wire<Plan, Runs, B>;

/// The actor has this pass again, and this is what the call answers. Without it the actor is lost with the memory.
pub type Left = (Option<Pass>, Result<Place, ClusterError>);

/// The caller's pass takes in the actor's, and looks: what is kept with the actor is then what the machine has of it.
pub fn meet<B: Site<Plan>>(wire: &ClusterWire<B>, pass: &mut Pass, kept: Pass)
    requires ready { IsReady B.about.scenario B.table pass.old }
    requires kept { (kept.table ≡ B.table) × (kept.given_up ≡ false) }
    ensures site { pass.new.table ≡ B.table }
    ensures live { pass.new.given_up ≡ false }
    ensures met { (who : Actor) (held : Held) → IsOffice B.about.scenario B.table who held kept
        → IsMet B.about.scenario B.table who held pass.old.view pass.new }
{
    wire.take_in(pass, kept);
    wire.look(pass);
}

/// Posts the step with what happened in it, and gives the part of a number back. Answers the place.
pub fn post<B: Site<Plan>, R: Wait>(
    rt: &R,
    wire: &ClusterWire<B>,
    pass: &mut Pass,
    number: u32,
    taken: Step,
    act: Act,
) -> Result<(Place, Pass), NoMemory>
    requires { CanPost B.about.scenario B.table pass.old taken act }
    ensures site { pass.new.table ≡ B.table }
    ensures ok { IfOk result (λ made.
        HasPosted B.about.scenario pass.old number taken act made.0 pass.new made.1) }
{
    let Act { happened, letters } = act;
    let place = wire.post(rt, pass, taken, happened, letters)?;
    let kept = wire.give_back(pass, number);
    Ok((place, kept))
}

/// Sees the whole history, and gives the part of a number back.
pub fn turn_back<B: Site<Plan>, R: Wait>(
    rt: &R,
    alloc: Global,
    wire: &ClusterWire<B>,
    pass: &mut Pass,
    number: u32,
) -> Result<Pass, NoMemory>
    requires site { pass.old.table ≡ B.table }
    requires live { pass.old.given_up ≡ false }
    ensures site { pass.new.table ≡ B.table }
    ensures ok { IfOk result (λ kept. HasTurned B.about.scenario pass.old number pass.new kept) }
{
    // no mail has this number, so nothing is copied
    let found = wire.mail(rt, alloc, pass, u64::MAX)?;
    drop(found);
    Ok(wire.give_back(pass, number))
}

/// The actor has acted, and is as it then is: its step is posted.
pub fn finish<S: Officer, B: Site<Plan>, R: Wait>(
    rt: &R,
    wire: &ClusterWire<B>,
    pass: &mut Pass,
    number: u32,
    actor: Actor,
    state: &S,
    taken: Step,
    act: Act,
) -> Left
    requires number { number ≡ number_of B.about.scenario actor }
    requires may { CanFinish B.about.scenario B.table actor (S.held state.now) pass.old taken act }
    ensures site { pass.new.table ≡ B.table }
    ensures kept { IfSome result.0 (IsOffice B.about.scenario B.table actor (S.held state.now)) }
    ensures answer { (old : Known) (held : Held) → IsReady B.about.scenario B.table old
        → IsMet B.about.scenario B.table actor held old.view pass.old
        → IsAnswer B.about.scenario old taken result.1 pass.new }
{
    match post(rt, wire, pass, number, taken, act) {
        Ok((place, kept)) => (Some(kept), Ok(place)),
        Err(NoMemory) => (None, Err(ClusterError::NoMemory)),
    }
}

/// The actor's step is refused, and it is as it was: the caller sees the whole history.
pub fn refuse<S: Officer, B: Site<Plan>, R: Wait>(
    rt: &R,
    alloc: Global,
    wire: &ClusterWire<B>,
    pass: &mut Pass,
    number: u32,
    actor: Actor,
    state: &S,
    why: StepError,
) -> Left
    requires number { number ≡ number_of B.about.scenario actor }
    requires met { (v : View) × IsMet B.about.scenario B.table actor (S.held state.now) v pass.old }
    ensures site { pass.new.table ≡ B.table }
    ensures kept { IfSome result.0 (IsOffice B.about.scenario B.table actor (S.held state.now)) }
    ensures answer { (old : Known) (held : Held) (taken : Step) → IsReady B.about.scenario B.table old
        → IsMet B.about.scenario B.table actor held old.view pass.old
        → ((log : List Entry) → Follows B.about.scenario pass.old.view log
        → refusal (state_at B.about.scenario log) taken ≡ Some why)
        → IsAnswer B.about.scenario old taken result.1 pass.new }
{
    match turn_back(rt, alloc, wire, pass, number) {
        Ok(kept) => (Some(kept), Err(ClusterError::Refused(why))),
        Err(NoMemory) => (None, Err(ClusterError::NoMemory)),
    }
}
