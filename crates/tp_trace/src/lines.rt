//! Lines of a trace: what each begins with, and those of mails and of records.
ghost use Rattle.std.specs.Prelude.{◌≡◌, ◌++◌, OnOk, map};
ghost use Rattle.tp_trace.specs.Lines.{front_text, kind_word, line_text, lines_text, mail_line, record_line};

use crate::bodies::put_mail;
use crate::records::put_record;
use tp_report::piece::{put, put_number};
use tp_report::put_actor_word;
use tp_types::{Actor, Mail, NoMemory, Place, Record, Scenario};

/// What a line says, which is its second word.
#[derive(Clone, Copy)]
pub enum Kind {
    /// A step that the scenario lists.
    Listed,
    /// A step that came by itself.
    Automatic,
    /// A mail was delivered to an actor that is up.
    Took,
    /// A mail was lost, or delivered to an actor that is down.
    Gone,
    /// An actor's log gained a record.
    Forced,
    /// A crash cut a record that was to be forced.
    Torn,
    /// A fact.
    Fact,
    /// What a commit rests on.
    Because,
    /// Why an abort came.
    Why,
    /// A version that a commit rests on was not the newest.
    Behind,
    /// A lock is no longer there.
    Free,
    /// A lock is new, or is held after it waited.
    Lock,
    /// A server knows a version.
    Knows,
    /// An item has another value.
    Item,
    /// A mail was sent.
    Sent,
    /// An actor went down or came up, or awaits something else.
    Now,
}

/// Puts what a line begins with.
#[tactic(auto, unfolding(crate::specs::Lines::front_text))]
pub(crate) fn put_front(out: &mut Vec<u8>, place: Place, kind: Kind) -> Result<(), NoMemory>
    ensures { OnOk result (out.new.items ≡ out.old.items ++ front_text place kind) }
{
    put_number(out, place)?;
    put(out, b" ")?;
    put_kind(out, kind)?;
    put(out, b" ")
}

fn put_kind(out: &mut Vec<u8>, kind: Kind) -> Result<(), NoMemory>
    ensures { OnOk result (out.new.items ≡ out.old.items ++ kind_word kind) }
{
    match kind {
        Kind::Listed => put(out, b"step"),
        Kind::Automatic => put(out, b"auto"),
        Kind::Took => put(out, b"took"),
        Kind::Gone => put(out, b"gone"),
        Kind::Forced => put(out, b"forced"),
        Kind::Torn => put(out, b"torn"),
        Kind::Fact => put(out, b"fact"),
        Kind::Because => put(out, b"because"),
        Kind::Why => put(out, b"why"),
        Kind::Behind => put(out, b"behind"),
        Kind::Free => put(out, b"free"),
        Kind::Lock => put(out, b"lock"),
        Kind::Knows => put(out, b"knows"),
        Kind::Item => put(out, b"item"),
        Kind::Sent => put(out, b"sent"),
        Kind::Now => put(out, b"now"),
    }
}

/// Puts the line of a mail.
pub(crate) fn put_mail_line(
    out: &mut Vec<u8>,
    scenario: &Scenario,
    place: Place,
    kind: Kind,
    mail: &Mail,
) -> Result<(), NoMemory>
    ensures { OnOk result
        (out.new.items ≡ out.old.items ++ line_text (mail_line scenario.now place kind mail.now)) }
{
    put_front(out, place, kind)?;
    put_mail(out, scenario, mail)?;
    put(out, b"\n")
}

/// Puts the lines of mails.
pub(crate) fn put_mail_lines(
    out: &mut Vec<u8>,
    scenario: &Scenario,
    place: Place,
    kind: Kind,
    mails: &[Mail],
) -> Result<(), NoMemory>
    ensures { OnOk result
        (out.new.items
        ≡ out.old.items ++ lines_text (map (mail_line scenario.now place kind) mails.now)) }
{
    for mail in mails {
        put_mail_line(out, scenario, place, kind, mail)?;
    }
    Ok(())
}

/// Puts the line of a record of an actor's log.
pub(crate) fn put_record_line(
    out: &mut Vec<u8>,
    scenario: &Scenario,
    place: Place,
    kind: Kind,
    actor: Actor,
    record: &Record,
) -> Result<(), NoMemory>
    ensures { OnOk result
        (out.new.items
        ≡ out.old.items ++ line_text (record_line scenario.now place kind actor record.now)) }
{
    put_front(out, place, kind)?;
    put_actor_word(out, scenario, actor)?;
    put(out, b" ")?;
    put_record(out, scenario, record)?;
    put(out, b"\n")
}
