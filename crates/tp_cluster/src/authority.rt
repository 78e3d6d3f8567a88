//! What the authority does under its lock.
ghost use Rattle.std.specs.Prelude.{◌≡◌, Some, [], slice_get, IfOk};
ghost use Rattle.tp_machine.specs.Named.{IsCred};
ghost use Rattle.tp_offices.specs.Authority as rows;
ghost use Rattle.tp_model.specs.Words.actor;
ghost use Rattle.tp_wire.specs.Entries.{mails_in};
ghost use Rattle.tp_machine.specs.Machine as machine;
ghost use Rattle.tp_model.specs.Words.step;
ghost use Rattle.tp_cluster.specs.Calls.{IsAnswer, IsReady};

use crate::error::ClusterError;
use crate::meeting::{ClusterWire, finish, meet, refuse};
use crate::office::Office;
use crate::plan::Plan;
use std::sync::Wait;
use tp_machine::{Act, Spares, StepError};
use tp_offices::{Authority, CLOCK_END};
use tp_types::{CredId, List, Mail, NoMemory, Place, Reaction, Step, What};
use tp_wire::{Pass, Site};

/// A clock that would reach its end.
fn too_late(clock: u64, by: u64) -> Option<StepError>
    ensures { result ≡ machine.too_late clock by }
{
    match clock.checked_add(by) {
        Some(sum) if sum < CLOCK_END => None,
        _ => Some(StepError::TooLate { clock }),
    }
}

/// Moves the clock.
pub fn tick<B: Site<Plan>, R: Wait>(
    rt: &R,
    wire: &ClusterWire<B>,
    pass: &mut Pass,
    office: &mut Office<Authority, B>,
    by: u64,
) -> Result<Place, ClusterError>
    requires ready { IsReady B.about.scenario B.table pass.old }
    ensures site { pass.new.table ≡ B.table }
    ensures answer { IsAnswer B.about.scenario pass.old (step.Tick by) result pass.new }
{
    let Some(kept) = office.pass.take() else {
        return Err(ClusterError::NoMemory);
    };
    meet(wire, pass, kept);
    match too_late(office.state.clock, by) {
        Some(why) => {
            let alloc = office.spares.alloc();
            let (left, answer) = refuse(
                rt,
                alloc,
                wire,
                pass,
                office.number,
                office.actor,
                &office.state,
                why,
            );
            office.pass = left;
            return answer;
        }
        None => {}
    }
    match office.spares.facts.list_of(What::Ticked(by)) {
        Ok(happened) => {
            office.state.tick(by);
            let letters = List::new(office.spares.alloc());
            let act = Act { happened, letters };
            let taken = Step::Tick { by };
            let (left, answer) = finish(
                rt,
                wire,
                pass,
                office.number,
                office.actor,
                &office.state,
                taken,
                act,
            );
            office.pass = left;
            answer
        }
        Err(NoMemory) => Err(ClusterError::NoMemory),
    }
}

/// Revokes a credential.
pub fn revoke<B: Site<Plan>, R: Wait>(
    rt: &R,
    wire: &ClusterWire<B>,
    pass: &mut Pass,
    office: &mut Office<Authority, B>,
    cred: CredId,
) -> Result<Place, ClusterError>
    requires ready { IsReady B.about.scenario B.table pass.old }
    requires exists { IsCred B.about.scenario cred }
    ensures site { pass.new.table ≡ B.table }
    ensures answer { IsAnswer B.about.scenario pass.old (step.Revoke cred) result pass.new }
{
    let Some(kept) = office.pass.take() else {
        return Err(ClusterError::NoMemory);
    };
    meet(wire, pass, kept);
    match office.spares.facts.list_of(What::Revoked(cred)) {
        Ok(happened) => {
            office.state.revoke(cred);
            let letters = List::new(office.spares.alloc());
            let act = Act { happened, letters };
            let taken = Step::Revoke { cred };
            let (left, answer) = finish(
                rt,
                wire,
                pass,
                office.number,
                office.actor,
                &office.state,
                taken,
                act,
            );
            office.pass = left;
            answer
        }
        Err(NoMemory) => Err(ClusterError::NoMemory),
    }
}

/// What the authority sends on a mail.
fn received(spares: &mut Spares, state: &Authority, mail: &Mail) -> Result<Act, NoMemory>
    ensures { IfOk result (λ act. (act.happened ≡ []) × (act.letters ≡ (rows.authority_row state.now mail.now).reaction.letters)) }
{
    let Reaction { append: _, letters } = state.receive(&mut spares.letters, mail)?;
    Ok(Act {
        happened: List::new(spares.alloc()),
        letters,
    })
}

/// The authority receives a mail.
pub fn deliver<B: Site<Plan>, R: Wait>(
    rt: &R,
    wire: &ClusterWire<B>,
    pass: &mut Pass,
    office: &mut Office<Authority, B>,
    given: u64,
    mail: &Mail,
) -> Result<Place, ClusterError>
    requires ready { IsReady B.about.scenario B.table pass.old }
    requires sent { slice_get (mails_in pass.old.view.seen) given ≡ Some mail.now }
    requires to { mail.now.letter.to ≡ actor.Authority }
    ensures site { pass.new.table ≡ B.table }
    ensures answer { IsAnswer B.about.scenario pass.old (step.Deliver given) result pass.new }
{
    let Some(kept) = office.pass.take() else {
        return Err(ClusterError::NoMemory);
    };
    meet(wire, pass, kept);
    match received(&mut office.spares, &office.state, mail) {
        Ok(act) => {
            let taken = Step::Deliver { mail: given };
            let (left, answer) = finish(
                rt,
                wire,
                pass,
                office.number,
                office.actor,
                &office.state,
                taken,
                act,
            );
            office.pass = left;
            answer
        }
        Err(NoMemory) => Err(ClusterError::NoMemory),
    }
}
