//! Why a step is refused, and which comes next by itself.
ghost use Rattle.std.specs.Prelude.{◌≡◌, ◌<◌, ◌+◌, ◌^◌, Some, length, slice_get};
ghost use Rattle.tp_pending.specs.Flags.{marked};
ghost use Rattle.tp_quorum.specs.Acts.{FitNumbers, beside};
ghost use Rattle.tp_quorum.specs.Automatic as automatic;
ghost use Rattle.tp_quorum.specs.Machine as machine;
ghost use Rattle.tp_quorum.specs.Operations as rows;
ghost use Rattle.tp_quorum.specs.Words.step;

use crate::acts::Members;
use crate::operation::is_running;
use crate::running::{first_running, lowest_down, publication_of, reading_of};
use crate::types::{QBody, QError, QMail, QStep};
use tp_pending::Pending;
use tp_types::{Cut, List, Uncounted};

fn busy(running: Option<u32>) -> Option<QError>
    ensures { result ≡ machine.busy running }
{
    match running {
        None => None,
        Some(op) => Some(QError::Busy { op }),
    }
}

fn missing_mail(mails: &List<QMail>, mail: u64) -> Option<QError>
    ensures { result ≡ machine.missing_mail mails.now mail }
{
    let sent = mails.len() as u64;
    if mail < sent {
        None
    } else {
        Some(QError::NoSuchMail { mail, mails: sent })
    }
}

fn missing_cut(mails: &List<QMail>, cut: Option<Cut>) -> Option<QError>
    ensures { result ≡ machine.missing_cut mails.now cut }
{
    match cut {
        None => None,
        Some(cut) => missing_mail(mails, cut.mail),
    }
}

/// Whether the operation has not begun, or has ended.
fn is_idle(members: &Members, op: u32) -> bool
    ensures { result ≡ machine.is_idle (slice_get members.now.ops op) }
{
    match members.ops.get(op as usize) {
        None => true,
        Some(operation) => !is_running(operation),
    }
}

fn is_down(members: &Members, replica: u32) -> bool
    ensures { result ≡ machine.is_down (slice_get members.now.replicas replica) }
{
    match members.replicas.get(replica as usize) {
        None => false,
        Some(found) => found.is_down(),
    }
}

/// Whether a mail goes to a replica.
pub(crate) fn is_request(body: QBody) -> bool
    ensures { result ≡ machine.is_request body }
{
    match body {
        QBody::Fetch { admin: _ } => true,
        QBody::Store {
            admin: _,
            version: _,
        } => true,
        _ => false,
    }
}

fn sent_elsewhere(replica: u32, number: u64, mail: QMail) -> Option<QError>
    ensures { result ≡ machine.sent_elsewhere replica number (Some mail) }
{
    if is_request(mail.body) && mail.replica == replica {
        None
    } else {
        Some(QError::NotItsMail { mail: number })
    }
}

fn cut_elsewhere(mails: &List<QMail>, replica: u32, cut: Option<Cut>) -> Option<QError>
    ensures { result ≡ machine.cut_elsewhere mails.now replica cut }
{
    match cut {
        None => None,
        Some(cut) => match mails.get(cut.mail as usize) {
            None => None,
            Some(mail) => sent_elsewhere(replica, cut.mail, *mail),
        },
    }
}

fn crash_refusal(
    members: &Members,
    mails: &List<QMail>,
    replica: u32,
    cut: Option<Cut>,
) -> Option<QError>
    ensures { result ≡ machine.refusal (beside members.now mails.now) (step.Crash replica cut) }
{
    match missing_cut(mails, cut) {
        Some(error) => Some(error),
        None if is_down(members, replica) => Some(QError::IsDown { replica }),
        None => cut_elsewhere(mails, replica, cut),
    }
}

/// Why a step is refused, if it is.
pub(crate) fn refusal(members: &Members, mails: &List<QMail>, taken: QStep) -> Option<QError>
    requires { FitNumbers members.now }
    ensures { result ≡ machine.refusal (beside members.now mails.now) taken }
{
    match taken {
        QStep::Publish { admin } => busy(publication_of(members.ops.as_slice(), admin)),
        QStep::Read { reader, admin: _ } => busy(reading_of(members.ops.as_slice(), reader)),
        QStep::Deliver { mail } => missing_mail(mails, mail),
        QStep::Lose { mail } => missing_mail(mails, mail),
        QStep::Crash { replica, cut } => crash_refusal(members, mails, replica, cut),
        QStep::Boot { replica } => {
            if is_down(members, replica) {
                None
            } else {
                Some(QError::NotDown { replica })
            }
        }
        QStep::Timer { op } => {
            if is_idle(members, op) {
                Some(QError::Idle { op })
            } else {
                None
            }
        }
    }
}

/// The step that comes next by itself, if there is one. It takes no memory.
pub(crate) fn next(members: &Members, pending: &Pending) -> Option<QStep>
    requires { FitNumbers members.now }
    ensures { result ≡ automatic.next_by (machine.first_where machine.is_replica_down 0 members.now.replicas)
        (slice_get (marked 0 pending.now) 0) (machine.first_where rows.is_running 0 members.now.ops) }
{
    if let Some(replica) = lowest_down(members.replicas.as_slice()) {
        return Some(QStep::Boot { replica });
    }
    if let Some(mail) = pending.first(&mut Uncounted) {
        return Some(QStep::Deliver { mail: mail as u64 });
    }
    match first_running(members.ops.as_slice()) {
        None => None,
        Some(op) => Some(QStep::Timer { op }),
    }
}
