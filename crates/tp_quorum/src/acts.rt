//! What a step does to the replicas and operations of a replicated master.
ghost use Rattle.std.specs.Prelude.{◌≡◌, ◌+◌, ◌<◌, ◌^◌, List, Some, None, slice_get, IfOk, IfSome, OnOk};
ghost use Rattle.tp_quorum.specs.Acts.{Did, FitNumbers, HasNextVersion, act_after, act_of, among, beside, got_back, heard_of, ops_after, replicas_after, replicas_cut, replicas_down, replicas_up};
ghost use Rattle.tp_quorum.specs.Machine as machine;
ghost use Rattle.tp_quorum.specs.Operations.{HasFlagsBelow};
ghost use Rattle.tp_quorum.specs.Words.{QMail};

use crate::operation::{asks_again, hears, none_yet, requests};
use crate::refusal::is_request;
use crate::replica::{Replica, known_at};
use crate::types::{Operation, Phase, QBody, QMail, QStep, QWhat};
use std::alloc::Global;
use std::mem;
use tp_types::{AdminId, Cut, List, NoMemory, Version};

/// The replicas, every operation that began, and the last version of each publisher.
#[derive(Drop)]
pub struct Members {
    pub replicas: List<Replica>,
    pub ops: List<Operation>,
    pub last: List<Version>,
}

/// What a step did beside: what happened, and what was sent.
#[derive(Drop)]
pub struct Act {
    pub happened: Option<QWhat>,
    pub sent: List<QMail>,
}

/// Nothing happens, and these mails are sent.
fn quiet(sent: List<QMail>) -> Act
    ensures { result ≡ record { happened = None; sent = sent } }
{
    Act {
        happened: None,
        sent,
    }
}

/// A publication begins: it stores the version after the publisher's last.
pub(crate) fn publish(members: &mut Members, alloc: Global, admin: AdminId) -> Result<Act, NoMemory>
    requires fit { FitNumbers members.old }
    requires version { (machine.last_of members.old.last admin).0 + 1 < 2 ^ 32 }
    ensures { IfOk result (λ act. Did (machine.publishes (among members.old) admin) members.new act) }
{
    let version = Version(known_at(&members.last, admin).0 + 1);
    let op = members.ops.len() as u32;
    let answered = none_yet(alloc, members.replicas.len())?;
    let body = QBody::Store { admin, version };
    let sent = requests(alloc, op, body, answered.as_slice())?;
    members.ops.push(Operation {
        admin,
        reader: None,
        phase: Phase::Storing { version, answered },
    })?;
    members.last.put(admin.0 as usize, version);
    Ok(Act {
        happened: Some(QWhat::Began {
            op,
            admin,
            reader: None,
            version: Some(version),
        }),
        sent,
    })
}

/// A reading begins: it fetches.
pub(crate) fn read(
    members: &mut Members,
    alloc: Global,
    reader: u32,
    admin: AdminId,
) -> Result<Act, NoMemory>
    requires { FitNumbers members.old }
    ensures { IfOk result (λ act. Did (machine.reads (among members.old) reader admin) members.new act) }
{
    let op = members.ops.len() as u32;
    let answered = none_yet(alloc, members.replicas.len())?;
    let sent = requests(alloc, op, QBody::Fetch { admin }, answered.as_slice())?;
    members.ops.push(Operation {
        admin,
        reader: Some(reader),
        phase: Phase::Fetching {
            greatest: Version(1),
            answered,
        },
    })?;
    Ok(Act {
        happened: Some(QWhat::Began {
            op,
            admin,
            reader: Some(reader),
            version: None,
        }),
        sent,
    })
}

/// The reply, if there is one, goes back to the operation.
fn sends_back(alloc: Global, mail: QMail, reply: Option<QBody>) -> Result<List<QMail>, NoMemory>
    ensures { IfOk result (λ sent. sent ≡ machine.sends_back mail reply) }
{
    match reply {
        None => Ok(List::new(alloc)),
        Some(body) => List::of_one(
            alloc,
            QMail {
                op: mail.op,
                replica: mail.replica,
                body,
            },
        ),
    }
}

/// A replica receives a mail.
fn receive_at(
    replicas: &mut List<Replica>,
    alloc: Global,
    mail: QMail,
) -> Result<Option<QBody>, NoMemory>
    ensures now { OnOk result (replicas.new
        ≡ replicas_after replicas.old mail (slice_get replicas.old mail.replica)) }
    ensures reply { IfOk result (λ reply. reply ≡ got_back mail (slice_get replicas.old mail.replica)) }
{
    match replicas.get_mut(mail.replica as usize) {
        None => Ok(None),
        Some(replica) => replica.receive(alloc, mail.body),
    }
}

/// A request comes to its replica.
pub(crate) fn replica_takes(
    members: &mut Members,
    alloc: Global,
    mail: QMail,
) -> Result<Act, NoMemory>
    ensures { IfOk result (λ act. Did (machine.replica_takes (among members.old) mail) members.new act) }
{
    let reply = receive_at(&mut members.replicas, alloc, mail)?;
    Ok(quiet(sends_back(alloc, mail, reply)?))
}

/// An operation makes of a reply what it makes of it.
fn hear(operation: &mut Operation, alloc: Global, mail: QMail) -> Result<Act, NoMemory>
    requires { HasFlagsBelow (2 ^ 32) operation.old.phase }
    ensures now { OnOk result (operation.new ≡ machine.in_phase operation.old (heard_of mail operation.old)) }
    ensures act { IfOk result (λ act. act ≡ act_of (heard_of mail operation.old)) }
{
    let placeholder = Phase::Ended {
        version: Version(1),
    };
    let now = mem::replace(&mut operation.phase, placeholder);
    let heard = hears(
        alloc,
        mail.op,
        operation.admin,
        mail.replica,
        now,
        mail.body,
    )?;
    operation.phase = heard.next;
    Ok(Act {
        happened: heard.happened,
        sent: heard.sent,
    })
}

/// The operation of a reply hears it.
fn hear_at(ops: &mut List<Operation>, alloc: Global, mail: QMail) -> Result<Act, NoMemory>
    requires { IfSome (slice_get ops.old mail.op) (λ o. HasFlagsBelow (2 ^ 32) o.phase) }
    ensures now { OnOk result (ops.new ≡ ops_after ops.old mail (slice_get ops.old mail.op)) }
    ensures act { IfOk result (λ act. act ≡ act_after mail (slice_get ops.old mail.op)) }
{
    match ops.get_mut(mail.op as usize) {
        None => Ok(quiet(List::new(alloc))),
        Some(operation) => hear(operation, alloc, mail),
    }
}

/// A reply comes to its operation.
#[tactic(auto, using(crate::proofs::ActLemmas::operation_did))]
pub(crate) fn operation_takes(
    members: &mut Members,
    alloc: Global,
    mail: QMail,
) -> Result<Act, NoMemory>
    requires { IfSome (slice_get members.old.ops mail.op) (λ o. HasFlagsBelow (2 ^ 32) o.phase) }
    ensures { IfOk result (λ act. Did (machine.operation_takes (among members.old) mail) members.new act) }
{
    hear_at(&mut members.ops, alloc, mail)
}

/// A replica crashes. It takes no memory.
fn crash_at(replicas: &mut List<Replica>, alloc: Global, replica: u32)
    ensures { replicas.new ≡ replicas_down replicas.old replica (slice_get replicas.old replica) }
{
    if let Some(found) = replicas.get_mut(replica as usize) {
        found.crash(alloc);
    }
}

/// A replica crashes, and not in a receipt.
pub(crate) fn crash(members: &mut Members, alloc: Global, replica: u32) -> Act
    ensures { Did (machine.crashes (among members.old) replica None) members.new result }
{
    crash_at(&mut members.replicas, alloc, replica);
    quiet(List::new(alloc))
}

fn crash_in_at(
    replicas: &mut List<Replica>,
    alloc: Global,
    replica: u32,
    mail: QMail,
    cut: Cut,
) -> Result<(), NoMemory>
    ensures { OnOk result (replicas.new
        ≡ replicas_cut replicas.old replica mail cut (slice_get replicas.old replica)) }
{
    match replicas.get_mut(replica as usize) {
        None => Ok(()),
        Some(found) => found.crash_in(alloc, &mail, cut),
    }
}

/// A replica crashes in the receipt of a mail.
pub(crate) fn crash_in(
    members: &mut Members,
    alloc: Global,
    replica: u32,
    mail: QMail,
    cut: Cut,
) -> Result<Act, NoMemory>
    ensures { IfOk result (λ act. (mails : List QMail) → slice_get mails cut.mail ≡ Some mail
        → Did (machine.crashes (record (among members.old) { mails = mails }) replica (Some cut)) members.new act) }
{
    crash_in_at(&mut members.replicas, alloc, replica, mail, cut)?;
    Ok(quiet(List::new(alloc)))
}

fn boot_at(
    replicas: &mut List<Replica>,
    alloc: Global,
    replica: u32,
    admins: usize,
) -> Result<(), NoMemory>
    ensures { OnOk result (replicas.new
        ≡ replicas_up replicas.old replica admins (slice_get replicas.old replica)) }
{
    match replicas.get_mut(replica as usize) {
        None => Ok(()),
        Some(found) => found.boot(alloc, admins),
    }
}

/// A replica boots.
pub(crate) fn boot(members: &mut Members, alloc: Global, replica: u32) -> Result<Act, NoMemory>
    ensures { IfOk result (λ act. Did (machine.boots (among members.old) replica) members.new act) }
{
    let admins = members.last.len();
    boot_at(&mut members.replicas, alloc, replica, admins)?;
    Ok(quiet(List::new(alloc)))
}

/// An operation asks again.
pub(crate) fn time_out(members: &Members, alloc: Global, op: u32) -> Result<Act, NoMemory>
    requires { IfSome (slice_get members.now.ops op) (λ o. HasFlagsBelow (2 ^ 32) o.phase) }
    ensures { IfOk result (λ act. Did (machine.times_out (among members.now) op) members.now act) }
{
    match members.ops.get(op as usize) {
        None => Ok(quiet(List::new(alloc))),
        Some(operation) => Ok(quiet(asks_again(alloc, op, operation.admin, &operation.phase)?)),
    }
}

/// A mail comes to where it was sent.
#[tactic(auto, using(crate::proofs::ActLemmas::flags_at))]
fn deliver(
    members: &mut Members,
    alloc: Global,
    mails: &List<QMail>,
    number: u64,
) -> Result<Act, NoMemory>
    requires { FitNumbers members.old }
    ensures { IfOk result (λ act.
        Did (machine.delivery (among members.old) (slice_get mails.now number)) members.new act) }
{
    match mails.get(number as usize) {
        None => Ok(quiet(List::new(alloc))),
        Some(mail) => {
            let mail = *mail;
            if is_request(mail.body) {
                replica_takes(members, alloc, mail)
            } else {
                operation_takes(members, alloc, mail)
            }
        }
    }
}

/// A replica crashes in the receipt of a mail, if there is such a mail.
fn crash_at_mail(
    members: &mut Members,
    alloc: Global,
    mails: &List<QMail>,
    replica: u32,
    cut: Cut,
) -> Result<Act, NoMemory>
    ensures { IfOk result (λ act. Did (machine.crashes (beside members.old mails.now) replica (Some cut)) members.new act) }
{
    match mails.get(cut.mail as usize) {
        None => Ok(crash(members, alloc, replica)),
        Some(mail) => crash_in(members, alloc, replica, *mail, cut),
    }
}

/// What a step does to replicas and operations.
#[tactic(auto, using(crate::proofs::ActLemmas::flags_at))]
pub(crate) fn do_step(
    members: &mut Members,
    alloc: Global,
    mails: &List<QMail>,
    taken: QStep,
) -> Result<Act, NoMemory>
    requires fit { FitNumbers members.old }
    requires version { HasNextVersion members.old taken }
    ensures { IfOk result (λ act. Did (machine.move_of (beside members.old mails.now) taken) members.new act) }
{
    match taken {
        QStep::Publish { admin } => publish(members, alloc, admin),
        QStep::Read { reader, admin } => read(members, alloc, reader, admin),
        QStep::Deliver { mail } => deliver(members, alloc, mails, mail),
        QStep::Lose { mail: _ } => Ok(quiet(List::new(alloc))),
        QStep::Crash { replica, cut } => match cut {
            None => Ok(crash(members, alloc, replica)),
            Some(cut) => crash_at_mail(members, alloc, mails, replica, cut),
        },
        QStep::Boot { replica } => boot(members, alloc, replica),
        QStep::Timer { op } => time_out(members, alloc, op),
    }
}
