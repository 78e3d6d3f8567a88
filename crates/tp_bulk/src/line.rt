//! The line of a large run.
ghost use Rattle.std.specs.Prelude.{◌≡◌, ◌++◌, IfOk, OnOk, decimal};
ghost use Rattle.std.specs.List.{count_by};
ghost use Rattle.tp_bulk.specs.Line as line;
ghost use Rattle.tp_model.specs.Facts.{same_outcome};

use std::alloc::Global;
use tp_report::piece::{put, put_number};
use tp_types::{Decision, Ending, Fact, List, NoMemory, Outcome, Text, What};

fn is_same(one: Outcome, other: Outcome) -> bool
    ensures { result ≡ same_outcome one other }
{
    match (one, other) {
        (Outcome::Commit, Outcome::Commit) => true,
        (Outcome::Abort, Outcome::Abort) => true,
        _ => false,
    }
}

fn decides(ended: Outcome, fact: &Fact) -> bool
    ensures { result ≡ line.decides ended fact.now }
{
    match &fact.what {
        What::Decided(_, Decision::Commit(_)) => is_same(Outcome::Commit, ended),
        What::Decided(_, Decision::Abort(_)) => is_same(Outcome::Abort, ended),
        _ => false,
    }
}

/// How many facts decide a transaction so.
fn count(facts: &List<Fact>, ended: Outcome) -> usize
    ensures { result ≡ count_by (line.decides ended) facts.now }
{
    facts.iter().filter(|fact| decides(ended, fact)).count()
}

/// Puts a word with a space before and after it, and a number.
fn put_count(out: &mut Vec<u8>, word: &[u8], number: u64) -> Result<(), NoMemory>
    ensures { OnOk result (out.new.items ≡ out.old.items ++ (word.now ++ decimal number)) }
{
    put(out, word)?;
    put_number(out, number)
}

/// The bytes of most lines.
const USUAL: usize = 64;

/// The line of a run of so many transactions: how many were committed and aborted, and how many steps and mails it took.
pub fn run_line(
    alloc: Global,
    transactions: u32,
    facts: &List<Fact>,
    ending: &Ending,
) -> Result<Text, NoMemory>
    ensures { IfOk result (λ made. made.0 ≡ line.line_of transactions facts.now ending.now) }
{
    let mut out = Vec::with_capacity(alloc, USUAL)?;
    put_count(&mut out, b"bulk ", u64::from(transactions))?;
    put_count(&mut out, b" commits ", count(facts, Outcome::Commit) as u64)?;
    put_count(&mut out, b" aborts ", count(facts, Outcome::Abort) as u64)?;
    put_count(&mut out, b" steps ", ending.steps)?;
    put_count(&mut out, b" mails ", ending.mails)?;
    put(&mut out, b"\n")?;
    Ok(Text(List::from_vec(out)))
}
