//! The lines of refused steps.
ghost use Rattle.std.specs.Prelude.{◌≡◌, ◌++◌, IfOk, OnOk};
ghost use Rattle.tp_report.specs.ReportText.{txn_name};
ghost use Rattle.tp_top.specs.Refusals as refusals;

use std::alloc::Global;
use tp_ends::StepRefusal;
use tp_machine::StepError;
use tp_report::piece::{put, put_actor, put_admin, put_after, put_number, put_txn};
use tp_types::{List, NoMemory, Scenario, Text, TxnId};

/// Puts a word, and a transaction's name after it.
fn put_txn_after(
    line: &mut Vec<u8>,
    word: &[u8],
    scenario: &Scenario,
    txn: TxnId,
) -> Result<(), NoMemory>
    ensures { OnOk result
        (line.new.items ≡ line.old.items ++ (word.now ++ txn_name scenario.now txn)) }
{
    put(line, word)?;
    put_txn(line, scenario, txn)
}

/// The line that says which listed step was refused, and why.
pub(crate) fn step_line(
    alloc: Global,
    scenario: &Scenario,
    refused: StepRefusal,
) -> Result<Text, NoMemory>
    ensures { IfOk result (λ line.
        line.0 ≡ refusals.step_line scenario.now refused.at refused.why) }
{
    let mut line = Vec::from_slice(alloc, b"refused step ")?;
    put_number(&mut line, refused.at)?;
    put_step_fault(&mut line, scenario, refused.why)?;
    put(&mut line, b"\n")?;
    Ok(Text(List::from_vec(line)))
}

/// Why a listed step was refused.
fn put_step_fault(line: &mut Vec<u8>, scenario: &Scenario, why: StepError) -> Result<(), NoMemory>
    ensures { OnOk result
        (line.new.items ≡ line.old.items ++ refusals.step_fault_text scenario.now why) }
{
    match why {
        StepError::NoSuchMail { mail, mails } => {
            put_after(line, b" nomail ", mail)?;
            put_after(line, b" ", mails)
        }
        StepError::AlreadySubmitted { txn } => put_txn_after(line, b" submitted ", scenario, txn),
        StepError::NotSubmitted { txn } => put_txn_after(line, b" notsubmitted ", scenario, txn),
        StepError::IsDown { actor } => {
            put(line, b" isdown ")?;
            put_actor(line, scenario, actor)
        }
        StepError::NotDown { actor } => {
            put(line, b" notdown ")?;
            put_actor(line, scenario, actor)
        }
        StepError::NotItsMail { mail } => put_after(line, b" notitsmail ", mail),
        StepError::NoMore { admin } => {
            put(line, b" nomore ")?;
            put_admin(line, scenario, admin)
        }
        StepError::TooLate { clock } => put_after(line, b" toolate ", clock),
        StepError::NoMemory => put(line, b""),
    }
}
