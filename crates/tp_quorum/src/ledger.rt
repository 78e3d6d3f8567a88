//! What a replicated master leaves behind: its mails, its facts and its steps.
ghost use Rattle.std.specs.Prelude.{◌≡◌, ◌<◌, ◌+◌, ◌++◌, length, replicate, slice_set, true, OnOk};
ghost use Rattle.tp_quorum.specs.Acts.{PostsAll, flags_after, noted};
ghost use Rattle.tp_quorum.specs.Machine.{with_fact};

use crate::acts::Act;
use crate::types::{QFact, QMail, QStep, QWhat};
use tp_pending::Pending;
use tp_types::{List, NoMemory};

/// Every mail ever sent, which of them are undelivered, the facts and the steps.
#[derive(Drop)]
pub struct Ledger {
    pub mails: List<QMail>,
    pub pending: Pending,
    pub facts: List<QFact>,
    pub steps: List<QStep>,
}

/// These mails are sent, and undelivered.
fn post_all(mails: &mut List<QMail>, pending: &mut Pending, sent: &[QMail]) -> Result<(), NoMemory>
    ensures { OnOk result (PostsAll mails.old pending.old sent.now mails.new pending.new) }
{
    for mail in sent {
        mails.push(*mail)?;
        pending.post()?;
    }
    Ok(())
}

/// A mail that is delivered, lost, or cut in its receipt is undelivered no more.
fn take(pending: &mut Pending, taken: QStep)
    ensures { pending.new ≡ flags_after taken pending.old }
{
    match taken {
        QStep::Deliver { mail } => pending.take(mail as usize),
        QStep::Lose { mail } => pending.take(mail as usize),
        QStep::Crash {
            replica: _,
            cut: Some(cut),
        } => pending.take(cut.mail as usize),
        _ => {}
    }
}

fn note_fact(facts: &mut List<QFact>, place: u64, happened: Option<QWhat>) -> Result<(), NoMemory>
    ensures { OnOk result (facts.new ≡ with_fact facts.old place happened) }
{
    match happened {
        None => Ok(()),
        Some(what) => facts.push(QFact { place, what }),
    }
}

/// Notes a step that was done.
pub(crate) fn note(ledger: &mut Ledger, taken: QStep, act: Act) -> Result<(), NoMemory>
    ensures { OnOk result (ledger.new ≡ noted ledger.old taken act) }
{
    take(&mut ledger.pending, taken);
    post_all(&mut ledger.mails, &mut ledger.pending, act.sent.as_slice())?;
    let place = ledger.steps.len() as u64;
    note_fact(&mut ledger.facts, place, act.happened)?;
    ledger.steps.push(taken)
}
