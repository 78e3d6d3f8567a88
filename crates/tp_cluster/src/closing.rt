//! The world of a closed history.
ghost use Rattle.std.specs.Prelude.{◌≡◌, ◌≢◌, ◌≤◌, List, length, false, true, IfOk, IfSome};
ghost use Rattle.tp_types.specs.Each.{Each};
ghost use Rattle.tp_machine.specs.declared.error.StepError.TheVariants as StepError;
ghost use Rattle.tp_machine.specs.Machine.{after};
ghost use Rattle.tp_machine.specs.WorldView.{start};
ghost use Rattle.tp_wire.specs.declared.view.Entry.{Entry};
ghost use Rattle.tp_wire.specs.Entries.{steps_in};
ghost use Rattle.tp_wire.specs.History.{Lawful};
ghost use Rattle.tp_wire.specs.Passes.{Known};
ghost use Rattle.tp_cluster.specs.Runs.{IsNext, actors_of};
ghost use Rattle.tp_cluster.specs.mirrors.Homes.{AreGathered, IsHome};

use crate::office::{Office, Officer};
use crate::opening::{Actors, Locked};
use crate::plan::Plan;
use std::alloc::Global;
use tp_machine::{Nobody, StepError, World};
use tp_types::{List, NoMemory, Step};
use tp_wire::{Pass, Site};

/// Whether a pass of these is given up.
pub fn any_given_up(passes: &List<Pass>) -> bool
    ensures { result ≡ false → Each (λ (p : Known). p.given_up ≡ false) passes.now }
{
    for (at, pass) in passes.as_slice().iter().enumerate() {
        if pass.given_up() {
            return true;
        }
    }
    false
}

/// The pass kept behind this lock, if it is that of the actor of this number. A list of locks does not say which actor is
/// behind which.
fn kept_pass<S: Officer + Drop, B: Site<Plan>>(lock: Locked<S, B>, number: u32) -> Option<Pass>
    ensures { IfSome result (IsHome B.table number) }
{
    let office = lock.into_inner();
    let Office {
        number: own,
        pass,
        ..
    } = office;
    if own != number {
        return None;
    }
    pass
}

/// Adds the pass of the actor of this number, which is kept behind this lock.
fn gather<S: Officer + Drop, B: Site<Plan>>(
    passes: &mut List<Pass>,
    number: u32,
    lock: Locked<S, B>,
) -> Result<u32, NoMemory>
    ensures { IfOk result (λ next. AreGathered B.table number next passes.old passes.new) }
{
    let Some(next) = number.checked_add(1) else {
        return Err(NoMemory);
    };
    match kept_pass(lock, number) {
        None => Err(NoMemory),
        Some(kept) => {
            passes.push(kept)?;
            Ok(next)
        }
    }
}

/// Adds the passes of actors, of which the first has this number. Answers the number behind theirs.
fn gather_all<S: Officer + Drop, B: Site<Plan>>(
    passes: &mut List<Pass>,
    first: u32,
    locks: List<Locked<S, B>>,
) -> Result<u32, NoMemory>
    ensures { IfOk result (λ next. AreGathered B.table first next passes.old passes.new) }
{
    let mut number = first;
    for lock in locks.into_vec() {
        number = gather(passes, number, lock)?;
    }
    Ok(number)
}

/// These passes, and behind them those of all actors.
pub fn gathered<B: Site<Plan>>(
    plan: &Plan,
    mut passes: List<Pass>,
    actors: Actors<B>,
) -> Result<List<Pass>, NoMemory>
    requires servers { length plan.now.scenario.servers ≤ 16 }
    requires txns { length plan.now.scenario.txns ≤ 128 }
    ensures { IfOk result (AreGathered B.table 0 (actors_of plan.now.scenario) passes) }
{
    let Actors {
        servers,
        coordinators,
        authority,
        master,
    } = actors;
    let next = gather_all(&mut passes, 0, servers)?;
    let next = gather_all(&mut passes, next, coordinators)?;
    let next = gather(&mut passes, next, authority)?;
    let next = gather(&mut passes, next, master)?;
    let scenario = &plan.scenario;
    if next as usize != scenario.servers.len() + scenario.txns.len() + 2 {
        return Err(NoMemory);
    }
    Ok(passes)
}

/// Whether a step is refused for another reason than want of memory.
fn is_refusal(why: StepError) -> bool
    ensures { result ≡ true → why ≢ StepError.NoMemory }
{
    match why {
        StepError::NoSuchMail { .. }
        | StepError::AlreadySubmitted { .. }
        | StepError::NotSubmitted { .. }
        | StepError::IsDown { .. }
        | StepError::NotDown { .. }
        | StepError::NotItsMail { .. }
        | StepError::NoMore { .. }
        | StepError::TooLate { .. } => true,
        StepError::NoMemory => false,
    }
}

/// Does the steps of a history in the world of its scenario. As the history is a run, none is refused.
pub fn replay(alloc: Global, mut world: World, steps: List<Step>) -> Result<World, NoMemory>
    requires start { world ≡ start world.scenario }
    requires lawful { (log : List Entry) × (steps ≡ steps_in log) × Lawful (IsNext world.scenario) log }
    ensures scenario { IfOk result (λ done. done.scenario ≡ world.scenario) }
    ensures live { IfOk result (λ done. done.given_up ≡ false) }
    ensures machine { IfOk result (λ done. done.machine ≡ after world.scenario steps) }
{
    for taken in steps.into_vec() {
        match world.step(alloc, &mut Nobody, &taken) {
            Ok(()) => {}
            Err(why) => {
                if is_refusal(why) {
                    unreachable!();
                }
                return Err(NoMemory);
            }
        }
    }
    Ok(world)
}
