//! An operation: what it asks of replicas, and what it makes of their answers.
ghost use Rattle.std.specs.Prelude.{◌≡◌, ◌<◌, ◌≤◌, ◌+◌, ◌*◌, ◌^◌, ℕ, [], ◌∷◌, ◌++◌, length, true, IfOk, OnOk};
ghost use Rattle.tp_quorum.specs.Operations as rows;

use crate::types::{Heard, Operation, Phase, QBody, QMail, QWhat};
use std::alloc::Global;
use tp_types::{AdminId, List, NoMemory, Version};

/// No replica has answered yet, of so many.
pub(crate) fn none_yet(alloc: Global, replicas: usize) -> Result<List<bool>, NoMemory>
    ensures { IfOk result (λ made. made ≡ rows.none_yet replicas) }
{
    let mut answered = List::from_vec(Vec::with_capacity(alloc, replicas)?);
    for _replica in 0..replicas {
        answered.push(false)?;
    }
    Ok(answered)
}

/// How many have answered.
fn answers_in(answered: &[bool]) -> usize
    ensures { result ≡ rows.answers_in answered.now }
{
    let mut count = 0;
    for flag in answered {
        count += usize::from(*flag);
    }
    count
}

/// Whether more than half of all replicas have answered.
fn most_answered(answered: &List<bool>) -> bool
    ensures { result ≡ rows.most_answered answered.now }
{
    answered.len() / 2 < answers_in(answered.as_slice())
}

/// Whether there is such a replica, and it has not answered.
fn is_awaited(answered: &List<bool>, replica: u32) -> bool
    ensures { result ≡ rows.is_awaited answered.now replica }
{
    match answered.get(replica as usize) {
        None => false,
        Some(flag) => !*flag,
    }
}

fn greater_of(one: Version, other: Version) -> Version
    ensures { result ≡ rows.greater_of one other }
{
    Version(one.0.max(other.0))
}

/// Adds a request to a replica, unless it has answered.
fn ask(sent: &mut List<QMail>, request: QMail, answered: bool) -> Result<(), NoMemory>
    ensures { IfOk result (λ _. sent.new
        ≡ sent.old ++ rows.requests request.op request.body request.replica (answered ∷ [])) }
{
    if answered { Ok(()) } else { sent.push(request) }
}

/// The request to each replica that has not answered, by number.
pub(crate) fn requests(
    alloc: Global,
    op: u32,
    asked: QBody,
    answered: &[bool],
) -> Result<List<QMail>, NoMemory>
    requires { length answered.now < 2 ^ 32 }
    ensures { IfOk result (λ sent. sent ≡ rows.requests op asked 0 answered.now) }
{
    let mut sent = List::new(alloc);
    let mut replica = 0;
    for flag in answered {
        let request = QMail {
            op,
            replica,
            body: asked,
        };
        ask(&mut sent, request, *flag)?;
        replica += 1;
    }
    Ok(sent)
}

/// What an operation asks in its phase, of whoever has not answered.
pub(crate) fn asks_again(
    alloc: Global,
    op: u32,
    admin: AdminId,
    now: &Phase,
) -> Result<List<QMail>, NoMemory>
    requires { rows.HasFlagsBelow (2 ^ 32) now.now }
    ensures { IfOk result (λ sent. sent ≡ rows.asks_again op admin now.now) }
{
    match now {
        Phase::Fetching {
            greatest: _,
            answered,
        } => requests(alloc, op, QBody::Fetch { admin }, answered.as_slice()),
        Phase::Storing { version, answered } => {
            requests(
                alloc,
                op,
                QBody::Store {
                    admin,
                    version: *version,
                },
                answered.as_slice(),
            )
        }
        Phase::Ended { version: _ } => Ok(List::new(alloc)),
    }
}

/// Whether the operation has not ended.
pub(crate) fn is_running(operation: &Operation) -> bool
    ensures { result ≡ rows.is_running operation.now }
{
    match &operation.phase {
        Phase::Ended { version: _ } => false,
        _ => true,
    }
}

/// The operation waits on.
fn waits(alloc: Global, now: Phase) -> Heard
    ensures { result ≡ rows.waits now }
{
    Heard {
        next: now,
        happened: None,
        sent: List::new(alloc),
    }
}

/// A reading has these answers to its fetch.
fn fetched(
    alloc: Global,
    op: u32,
    admin: AdminId,
    greatest: Version,
    answered: List<bool>,
) -> Result<Heard, NoMemory>
    requires { length answered < 2 ^ 32 }
    ensures { IfOk result (λ heard. heard ≡ rows.fetched op admin greatest answered) }
{
    if !most_answered(&answered) {
        return Ok(waits(alloc, Phase::Fetching { greatest, answered }));
    }
    let none = none_yet(alloc, answered.len())?;
    let body = QBody::Store {
        admin,
        version: greatest,
    };
    let sent = requests(alloc, op, body, none.as_slice())?;
    Ok(Heard {
        next: Phase::Storing {
            version: greatest,
            answered: none,
        },
        happened: None,
        sent,
    })
}

/// An operation has these answers to its store.
fn stored(alloc: Global, op: u32, version: Version, answered: List<bool>) -> Heard
    ensures { result ≡ rows.stored op version answered }
{
    if !most_answered(&answered) {
        return waits(alloc, Phase::Storing { version, answered });
    }
    Heard {
        next: Phase::Ended { version },
        happened: Some(QWhat::Ended { op, version }),
        sent: List::new(alloc),
    }
}

/// What the operation makes of a reply. An answer counts once for each replica, in the phase that it answers.
pub(crate) fn hears(
    alloc: Global,
    op: u32,
    admin: AdminId,
    replica: u32,
    now: Phase,
    said: QBody,
) -> Result<Heard, NoMemory>
    requires { rows.HasFlagsBelow (2 ^ 32) now }
    ensures { IfOk result (λ heard. heard ≡ rows.hears op admin replica now said) }
{
    match (now, said) {
        (
            Phase::Fetching {
                greatest,
                mut answered,
            },
            QBody::Has { version },
        ) => {
            if !is_awaited(&answered, replica) {
                return Ok(waits(alloc, Phase::Fetching { greatest, answered }));
            }
            answered.put(replica as usize, true);
            fetched(alloc, op, admin, greater_of(greatest, version), answered)
        }
        (
            Phase::Storing {
                version,
                mut answered,
            },
            QBody::Stored,
        ) => {
            if !is_awaited(&answered, replica) {
                return Ok(waits(alloc, Phase::Storing { version, answered }));
            }
            answered.put(replica as usize, true);
            Ok(stored(alloc, op, version, answered))
        }
        (now, _) => Ok(waits(alloc, now)),
    }
}
