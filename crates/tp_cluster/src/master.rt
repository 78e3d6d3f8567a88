//! What the master does under its lock.
ghost use Rattle.std.specs.Prelude.{◌≡◌, ◌∷◌, Some, [], true, slice_get, IfOk};
ghost use Rattle.tp_machine.specs.Named.{IsAdmin, IsServer};
ghost use Rattle.tp_model.specs.Words.actor;
ghost use Rattle.tp_model.specs.Words.step;
ghost use Rattle.tp_model.specs.Words.what;
ghost use Rattle.tp_offices.specs.Master as rows;
ghost use Rattle.tp_wire.specs.Entries.{mails_in};
ghost use Rattle.tp_cluster.specs.Calls.{IsAnswer, IsReady};

use crate::error::ClusterError;
use crate::meeting::{ClusterWire, finish, meet, refuse};
use crate::office::Office;
use crate::plan::Plan;
use std::sync::Wait;
use tp_machine::{Act, Spares, StepError, alone};
use tp_offices::{Master, NoMore};
use tp_types::{AdminId, List, Mail, NoMemory, Place, Reaction, ServerId, Step, What};
use tp_wire::{Pass, Site};

/// What happens as the master publishes the next version.
fn published(spares: &mut Spares, state: &mut Master, admin: AdminId) -> Result<Act, NoMemory>
    requires { rows.has_more state.old admin ≡ true }
    ensures state { IfOk result (λ act. state.new ≡ rows.after_publication admin state.old) }
    ensures act { IfOk result (λ act.
        act ≡ record { happened = what.Published admin (rows.next_of state.old admin) ∷ []; letters = [] }) }
{
    match state.publish(admin) {
        Err(NoMore) => unreachable!(),
        Ok(version) => alone(&mut spares.facts, What::Published(admin, version)),
    }
}

/// What the master sends as it pushes a version.
fn pushed(
    spares: &mut Spares,
    state: &Master,
    admin: AdminId,
    server: ServerId,
) -> Result<Act, NoMemory>
    ensures { IfOk result (λ act. (act.happened ≡ []) × (act.letters ≡ (rows.pushes state.now admin server).reaction.letters)) }
{
    let Reaction { append: _, letters } = state.push(&mut spares.letters, admin, server)?;
    Ok(Act {
        happened: List::new(spares.alloc()),
        letters,
    })
}

/// What the master sends on a mail.
fn received(spares: &mut Spares, state: &Master, mail: &Mail) -> Result<Act, NoMemory>
    ensures { IfOk result (λ act. (act.happened ≡ []) × (act.letters ≡ (rows.master_row state.now mail.now).reaction.letters)) }
{
    let Reaction { append: _, letters } = state.receive(&mut spares.letters, mail)?;
    Ok(Act {
        happened: List::new(spares.alloc()),
        letters,
    })
}

/// Publishes the next version of an administrator's policy.
pub fn publish<B: Site<Plan>, R: Wait>(
    rt: &R,
    wire: &ClusterWire<B>,
    pass: &mut Pass,
    office: &mut Office<Master, B>,
    admin: AdminId,
) -> Result<Place, ClusterError>
    requires ready { IsReady B.about.scenario B.table pass.old }
    requires exists { IsAdmin B.about.scenario admin }
    ensures site { pass.new.table ≡ B.table }
    ensures answer { IsAnswer B.about.scenario pass.old (step.Publish admin) result pass.new }
{
    let Some(kept) = office.pass.take() else {
        return Err(ClusterError::NoMemory);
    };
    meet(wire, pass, kept);
    match office.state.has_more(admin) {
        true => {}
        false => {
            let why = StepError::NoMore { admin };
            {
                let alloc = office.spares.alloc();
                let (left, answer) = refuse(
                    rt,
                    alloc,
                    wire,
                    pass,
                    office.number,
                    office.actor,
                    &office.state,
                    why,
                );
                office.pass = left;
                return answer;
            }
        }
    }
    match published(&mut office.spares, &mut office.state, admin) {
        Ok(act) => {
            let taken = Step::Publish { admin };
            let (left, answer) = finish(
                rt,
                wire,
                pass,
                office.number,
                office.actor,
                &office.state,
                taken,
                act,
            );
            office.pass = left;
            answer
        }
        Err(NoMemory) => Err(ClusterError::NoMemory),
    }
}

/// Pushes the newest version of an administrator's policy to a server.
pub fn push<B: Site<Plan>, R: Wait>(
    rt: &R,
    wire: &ClusterWire<B>,
    pass: &mut Pass,
    office: &mut Office<Master, B>,
    admin: AdminId,
    server: ServerId,
) -> Result<Place, ClusterError>
    requires ready { IsReady B.about.scenario B.table pass.old }
    requires exists { IsAdmin B.about.scenario admin × IsServer B.about.scenario server }
    ensures site { pass.new.table ≡ B.table }
    ensures answer { IsAnswer B.about.scenario pass.old (step.Push admin server) result pass.new }
{
    let Some(kept) = office.pass.take() else {
        return Err(ClusterError::NoMemory);
    };
    meet(wire, pass, kept);
    match pushed(&mut office.spares, &office.state, admin, server) {
        Ok(act) => {
            let taken = Step::Push { admin, server };
            let (left, answer) = finish(
                rt,
                wire,
                pass,
                office.number,
                office.actor,
                &office.state,
                taken,
                act,
            );
            office.pass = left;
            answer
        }
        Err(NoMemory) => Err(ClusterError::NoMemory),
    }
}

/// The master receives a mail.
pub fn deliver<B: Site<Plan>, R: Wait>(
    rt: &R,
    wire: &ClusterWire<B>,
    pass: &mut Pass,
    office: &mut Office<Master, B>,
    given: u64,
    mail: &Mail,
) -> Result<Place, ClusterError>
    requires ready { IsReady B.about.scenario B.table pass.old }
    requires sent { slice_get (mails_in pass.old.view.seen) given ≡ Some mail.now }
    requires to { mail.now.letter.to ≡ actor.Master }
    ensures site { pass.new.table ≡ B.table }
    ensures answer { IsAnswer B.about.scenario pass.old (step.Deliver given) result pass.new }
{
    let Some(kept) = office.pass.take() else {
        return Err(ClusterError::NoMemory);
    };
    meet(wire, pass, kept);
    match received(&mut office.spares, &office.state, mail) {
        Ok(act) => {
            let taken = Step::Deliver { mail: given };
            let (left, answer) = finish(
                rt,
                wire,
                pass,
                office.number,
                office.actor,
                &office.state,
                taken,
                act,
            );
            office.pass = left;
            answer
        }
        Err(NoMemory) => Err(ClusterError::NoMemory),
    }
}
