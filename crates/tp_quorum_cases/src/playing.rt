//! How a run is played.
ghost use Rattle.std.specs.Prelude.{◌≡◌, true, false, IfOk};
ghost use Rattle.tp_quorum.specs.Machine.{IsStepOf};

use crate::reading::Run;
use crate::telling::{
    put_answer, put_fact, put_missing, put_newest, put_next, put_quiet, put_refusal,
};
use std::alloc::Global;
use tp_quorum::{QError, QStep, Quorum, Sizes};
use tp_types::{AdminId, NoMemory};

/// No operation has a greater number. A run of a text has far fewer.
const OPERATIONS: u32 = 1_000_000_000;

/// Whether the administrator or the replica that a step names is there.
fn is_there(sizes: Sizes, taken: &QStep) -> bool
    ensures { result ≡ true → IsStepOf sizes taken.now }
{
    match taken {
        QStep::Publish { admin } => admin.0 < sizes.admins,
        QStep::Read { reader, admin } => *reader < sizes.readers && admin.0 < sizes.admins,
        QStep::Crash { replica, cut: _ } => *replica < sizes.replicas,
        QStep::Boot { replica } => *replica < sizes.replicas,
        _ => true,
    }
}

/// Does a listed step, or writes why it is not done.
fn take(
    alloc: Global,
    quorum: &mut Quorum,
    line: &mut String,
    number: usize,
    taken: &QStep,
) -> Result<(), NoMemory>
    requires { IsStepOf quorum.old.sizes taken.now }
    ensures { IfOk result (λ _. quorum.new.sizes ≡ quorum.old.sizes) }
{
    if quorum.is_given_up() || quorum.operations() > OPERATIONS {
        return Err(NoMemory);
    }
    match quorum.step(alloc, taken) {
        Ok(()) => Ok(()),
        Err(QError::NoMemory) => Err(NoMemory),
        Err(why) => put_refusal(alloc, line, number, why),
    }
}

/// Does the listed steps.
fn take_all(
    alloc: Global,
    quorum: &mut Quorum,
    line: &mut String,
    sizes: Sizes,
    steps: &[QStep],
) -> Result<(), NoMemory>
    requires { quorum.old.sizes ≡ sizes }
{
    for (number, taken) in steps.iter().enumerate() {
        if is_there(sizes, taken) {
            take(alloc, quorum, line, number, taken)?;
        } else {
            put_missing(alloc, line, number)?;
        }
    }
    Ok(())
}

/// Writes what came of each operation.
fn put_answers(alloc: Global, quorum: &Quorum, line: &mut String) -> Result<(), NoMemory>
    requires { quorum.now.given_up ≡ false }
{
    for op in 0..quorum.operations() {
        put_answer(alloc, line, op, quorum.answer(op))?;
    }
    Ok(())
}

/// Writes how far a run is before its automatic phase.
fn put_so_far(alloc: Global, quorum: &Quorum, line: &mut String) -> Result<(), NoMemory> {
    if quorum.is_given_up() {
        return Err(NoMemory);
    }
    put_next(alloc, line, quorum.next())?;
    put_answers(alloc, quorum, line)
}

/// Writes how a run ended.
fn put_end(alloc: Global, quorum: &Quorum, line: &mut String, admins: u32) -> Result<(), NoMemory> {
    if quorum.is_given_up() {
        return Err(NoMemory);
    }
    for fact in quorum.facts().as_slice() {
        put_fact(alloc, line, *fact)?;
    }
    put_answers(alloc, quorum, line)?;
    for admin in 0..admins {
        put_newest(alloc, line, admin, quorum.newest(AdminId(admin)))?;
    }
    put_next(alloc, line, quorum.next())?;
    put_quiet(alloc, line, quorum.steps(), quorum.mails())
}

/// Plays a run. When it has come to rest it is asked to do so again, which adds nothing.
pub fn play(alloc: Global, run: Run, line: &mut String) -> Result<(), NoMemory> {
    let sizes = run.sizes;
    if sizes.replicas == 0 {
        line.push_str("no replica")?;
        return Ok(());
    }
    let mut quorum = Quorum::start(alloc, sizes)?;
    take_all(alloc, &mut quorum, line, sizes, run.steps.as_slice())?;
    put_so_far(alloc, &quorum, line)?;
    quorum.drain(alloc)?;
    quorum.drain(alloc)?;
    put_end(alloc, &quorum, line, sizes.admins)
}
