//! What a server does under its lock.
ghost use Rattle.std.specs.Prelude.{◌≡◌, Some, IsTrue, true, slice_get};
ghost use Rattle.tp_machine.specs.Fits.{AllFitLogs};
ghost use Rattle.tp_model.specs.Valid.{is_valid};
ghost use Rattle.tp_model.specs.Words.actor;
ghost use Rattle.tp_model.specs.Words.step;
ghost use Rattle.tp_wire.specs.Entries.{mails_in};
ghost use Rattle.tp_cluster.specs.Calls.{IsAnswer, IsReady};

use crate::error::ClusterError;
use crate::meeting::{ClusterWire, finish, meet};
use crate::office::Office;
use crate::plan::Plan;
use std::sync::Wait;
use tp_machine::{Locks, Nobody, Part, server_takes};
use tp_server::Server;
use tp_types::{Actor, Mail, NoMemory, Place, Scenario, ServerId, Step};
use tp_wire::{Pass, Site};

/// Whether this is the server of a number.
fn is_server(found: Actor, at: ServerId) -> bool
    ensures { IsTrue result → found ≡ actor.Server at }
{
    match found {
        Actor::Server(server) => server.0 == at.0,
        _ => false,
    }
}

/// A server receives a mail. A list of locks does not say which actor stands where, so that is tested here.
pub fn deliver<B: Site<Plan>, R: Wait>(
    rt: &R,
    wire: &ClusterWire<B>,
    scenario: &Scenario,
    pass: &mut Pass,
    office: &mut Office<Part<Server<Locks>>, B>,
    at: ServerId,
    given: u64,
    mail: &Mail,
) -> Result<Place, ClusterError>
    requires ready { IsReady B.about.scenario B.table pass.old }
    requires about { scenario.now ≡ B.about.scenario }
    requires valid { is_valid B.about.scenario ≡ true }
    requires fit { AllFitLogs B.about.scenario }
    requires sent { slice_get (mails_in pass.old.view.seen) given ≡ Some mail.now }
    requires to { mail.now.letter.to ≡ actor.Server at }
    ensures site { pass.new.table ≡ B.table }
    ensures answer { IsAnswer B.about.scenario pass.old (step.Deliver given) result pass.new }
{
    match is_server(office.actor, at) {
        false => return Err(ClusterError::NoMemory),
        true => {}
    }
    let Some(kept) = office.pass.take() else {
        return Err(ClusterError::NoMemory);
    };
    meet(wire, pass, kept);
    match server_takes(
        &mut office.state,
        &mut office.spares,
        &mut Nobody,
        scenario,
        at,
        mail,
    ) {
        Ok(act) => {
            let taken = Step::Deliver { mail: given };
            let (left, answer) = finish(
                rt,
                wire,
                pass,
                office.number,
                office.actor,
                &office.state,
                taken,
                act,
            );
            office.pass = left;
            answer
        }
        Err(NoMemory) => Err(ClusterError::NoMemory),
    }
}
