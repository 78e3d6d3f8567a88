//! Steps, as a scenario lists them.
ghost use Rattle.std.specs.Prelude.{◌≡◌, ◌++◌, OnOk, codes};
ghost use Rattle.tp_report.specs.StepText as steps;

use crate::piece::{put, put_admin, put_after, put_cred, put_server, put_txn};
use tp_types::{Actor, AdminId, Cut, NoMemory, Scenario, ServerId, Step};

/// Puts an actor's name, as a step and a trace have it. The offices are named with a capital, so that no server has their
/// names.
pub fn put_actor_word(out: &mut Vec<u8>, scenario: &Scenario, actor: Actor) -> Result<(), NoMemory>
    ensures { OnOk result (out.new.items ≡ out.old.items ++ steps.actor_word scenario.now actor) }
{
    match actor {
        Actor::Server(at) => put_server(out, scenario, at),
        Actor::Coordinator(txn) => put_txn(out, scenario, txn),
        Actor::Master => put(out, b"Master"),
        Actor::Authority => put(out, b"Authority"),
    }
}

/// Puts the text of a step. Of a step that names what the scenario has, and whose numbers are in their ranges, it is read
/// back as this step.
#[tactic(auto, unfolding(crate::specs::StepText::step_text))]
pub fn put_step_text(out: &mut Vec<u8>, scenario: &Scenario, taken: &Step) -> Result<(), NoMemory>
    ensures { OnOk result (out.new.items ≡ out.old.items ++ steps.step_text scenario.now taken.now) }
{
    match *taken {
        Step::Submit { txn } => {
            put(out, b"submit ")?;
            put_txn(out, scenario, txn)
        }
        Step::Publish { admin } => {
            put(out, b"publish ")?;
            put_admin(out, scenario, admin)
        }
        Step::Push { admin, server } => put_push(out, scenario, admin, server),
        Step::Revoke { cred } => {
            put(out, b"revoke ")?;
            put_cred(out, scenario, cred)
        }
        Step::Tick { by } => put_after(out, b"tick ", by),
        Step::Deliver { mail } => put_after(out, b"deliver ", mail),
        Step::Lose { mail } => put_after(out, b"lose ", mail),
        Step::Crash { actor, cut } => put_crash(out, scenario, actor, cut),
        Step::Boot { actor } => {
            put(out, b"boot ")?;
            put_actor_word(out, scenario, actor)
        }
        Step::Timer { txn } => {
            put(out, b"timer ")?;
            put_txn(out, scenario, txn)
        }
    }
}

fn put_push(
    out: &mut Vec<u8>,
    scenario: &Scenario,
    admin: AdminId,
    server: ServerId,
) -> Result<(), NoMemory>
    ensures { OnOk result
        (out.new.items ≡ out.old.items ++ steps.push_text scenario.now admin server) }
{
    put(out, b"push ")?;
    put_admin(out, scenario, admin)?;
    put(out, b" ")?;
    put_server(out, scenario, server)
}

fn put_crash(
    out: &mut Vec<u8>,
    scenario: &Scenario,
    actor: Actor,
    cut: Option<Cut>,
) -> Result<(), NoMemory>
    ensures { OnOk result
        (out.new.items ≡ out.old.items ++ steps.crash_text scenario.now actor cut) }
{
    put(out, b"crash ")?;
    put_actor_word(out, scenario, actor)?;
    put_cut(out, cut)
}

fn put_cut(out: &mut Vec<u8>, cut: Option<Cut>) -> Result<(), NoMemory>
    ensures { OnOk result (out.new.items ≡ out.old.items ++ steps.cut_text cut) }
{
    match cut {
        None => Ok(()),
        Some(cut) => {
            put_after(out, b" in ", cut.mail)?;
            put_after(out, b" at ", cut.calls)?;
            put_after(out, b" fill ", cut.fill)
        }
    }
}
