//! What mails say, as words.
ghost use Rattle.std.specs.Prelude.{◌≡◌, ◌++◌, OnOk, codes, option_map};
ghost use Rattle.tp_report.specs.ReportText.{outcome_word};
ghost use Rattle.tp_trace.specs.Bodies as bodies;
ghost use Rattle.tp_trace.specs.Words.{verdict_word, word_if};

use crate::words::{
    Member, put_if, put_joined, put_no, put_of_admin, put_staple, put_staple_if, put_versions,
    put_wants,
};
use tp_report::piece::{put, put_admin, put_after, put_number, put_txn};
use tp_report::put_actor_word;
use tp_types::{
    Answer, Body, DoneReply, List, Mail, Newer, NewestReply, NoMemory, Outcome, PrepareRequest,
    QueryRequest, Scenario, TellReply, ValidateRequest, Verdict, VerdictsReply, Version, Vote,
    VoteReply,
};

/// Puts a mail: its number, from whom it is, to whom, and what it says.
#[tactic(auto, unfolding(crate::specs::Bodies::mail_text))]
pub fn put_mail(out: &mut Vec<u8>, scenario: &Scenario, mail: &Mail) -> Result<(), NoMemory>
    ensures { OnOk result (out.new.items ≡ out.old.items ++ bodies.mail_text scenario.now mail.now) }
{
    put_number(out, mail.number)?;
    put(out, b" ")?;
    put_actor_word(out, scenario, mail.letter.from)?;
    put(out, b" ")?;
    put_actor_word(out, scenario, mail.letter.to)?;
    put(out, b" ")?;
    put_body(out, scenario, &mail.letter.body)
}

fn put_body(out: &mut Vec<u8>, scenario: &Scenario, body: &Body) -> Result<(), NoMemory>
    ensures { OnOk result
        (out.new.items
        ≡ out.old.items ++ (bodies.body_kind body.now ++ bodies.body_words scenario.now body.now)) }
{
    put_kind(out, body)?;
    put_words(out, scenario, body)
}

fn put_kind(out: &mut Vec<u8>, body: &Body) -> Result<(), NoMemory>
    ensures { OnOk result (out.new.items ≡ out.old.items ++ bodies.body_kind body.now) }
{
    match body {
        Body::Query(_) => put(out, b"query"),
        Body::Done(_) => put(out, b"done"),
        Body::Ask(_) => put(out, b"ask"),
        Body::Tell(_) => put(out, b"tell"),
        Body::Validate(_) => put(out, b"validate"),
        Body::Verdicts(_) => put(out, b"verdicts"),
        Body::Prepare(_) => put(out, b"prepare"),
        Body::Vote(_) => put(out, b"vote"),
        Body::Probe(_) => put(out, b"probe"),
        Body::Newest(_) => put(out, b"newest"),
        Body::Decide(_) => put(out, b"decide"),
        Body::Ack(_) => put(out, b"ack"),
        Body::Inquire(_) => put(out, b"inquire"),
        Body::Push(_) => put(out, b"push"),
    }
}

/// Puts what stands behind the kind of a mail.
fn put_words(out: &mut Vec<u8>, scenario: &Scenario, body: &Body) -> Result<(), NoMemory>
    ensures { OnOk result (out.new.items ≡ out.old.items ++ bodies.body_words scenario.now body.now) }
{
    match body {
        Body::Query(asked) => put_query(out, asked),
        Body::Done(done) => put_done(out, scenario, done),
        Body::Ask(asked) => put_after(out, b" turn=", asked.turn),
        Body::Tell(tell) => put_tell(out, tell),
        Body::Validate(asked) => put_validate(out, scenario, asked),
        Body::Verdicts(reply) => put_verdicts(out, scenario, reply),
        Body::Prepare(asked) => put_prepare(out, scenario, asked),
        Body::Vote(reply) => put_vote(out, scenario, reply),
        Body::Probe(asked) => put_after(out, b" turn=", asked.turn),
        Body::Newest(reply) => put_newest(out, scenario, reply),
        Body::Decide(told) => put_decide(out, told.outcome),
        Body::Ack(_) => Ok(()),
        Body::Inquire(_) => Ok(()),
        Body::Push(push) => put_of_admin(out, scenario, push.admin, push.version),
    }
}

fn put_query(out: &mut Vec<u8>, asked: &QueryRequest) -> Result<(), NoMemory>
    ensures { OnOk result (out.new.items ≡ out.old.items ++ bodies.query_words asked.now) }
{
    put_after(out, b" turn=", asked.turn)?;
    put_after(out, b" q=", asked.query)?;
    put_asked(out, asked)?;
    put_staple_if(out, &asked.staple)?;
    put_pin(out, asked.pin)
}

/// Puts the age and the epoch, where they are known, and the value of a write.
fn put_asked(out: &mut Vec<u8>, asked: &QueryRequest) -> Result<(), NoMemory>
    ensures { OnOk result (out.new.items ≡ out.old.items ++ bodies.asked_words asked.now) }
{
    put_if(out, b" age=", asked.age)?;
    put_if(out, b" epoch=", asked.epoch)?;
    put_if(out, b" value=", asked.value)
}

fn put_pin(out: &mut Vec<u8>, pin: Option<Version>) -> Result<(), NoMemory>
    ensures { OnOk result
        (out.new.items
        ≡ out.old.items ++ word_if (codes " pin=") (option_map bodies.version_number pin)) }
{
    match pin {
        None => Ok(()),
        Some(version) => put_after(out, b" pin=", version.0),
    }
}

fn put_done(out: &mut Vec<u8>, scenario: &Scenario, done: &DoneReply) -> Result<(), NoMemory>
    ensures { OnOk result (out.new.items ≡ out.old.items ++ bodies.done_words scenario.now done.now) }
{
    put_after(out, b" turn=", done.turn)?;
    put_after(out, b" q=", done.query)?;
    put_after(out, b" epoch=", done.epoch)?;
    put(out, b" answer=")?;
    put_answer(out, scenario, &done.answer)
}

/// Puts what became of a query.
fn put_answer(out: &mut Vec<u8>, scenario: &Scenario, answer: &Answer) -> Result<(), NoMemory>
    ensures { OnOk result
        (out.new.items ≡ out.old.items ++ bodies.answer_words scenario.now answer.now) }
{
    match answer {
        Answer::Ran { value, verdict } => {
            put_after(out, b"ran value=", *value)?;
            put_verdict_if(out, scenario, verdict)
        }
        Answer::Denied { verdict } => {
            put(out, b"denied")?;
            put_verdict(out, scenario, verdict)
        }
        Answer::Newer(newer) => put_newer(out, scenario, *newer),
        Answer::Died { other } => {
            put(out, b"died for=")?;
            put_txn(out, scenario, *other)
        }
        Answer::Restarted => put(out, b"restarted"),
    }
}

fn put_verdict_if(
    out: &mut Vec<u8>,
    scenario: &Scenario,
    verdict: &Option<Verdict>,
) -> Result<(), NoMemory>
    ensures { OnOk result
        (out.new.items
        ≡ out.old.items ++ word_if (codes " verdict=") (option_map (verdict_word scenario.now) verdict.now)) }
{
    match verdict {
        None => Ok(()),
        Some(verdict) => put_verdict(out, scenario, verdict),
    }
}

fn put_verdict(out: &mut Vec<u8>, scenario: &Scenario, verdict: &Verdict) -> Result<(), NoMemory>
    ensures { OnOk result
        (out.new.items
        ≡ out.old.items ++ (codes " verdict=" ++ verdict_word scenario.now verdict.now)) }
{
    put(out, b" verdict=")?;
    verdict.put_word(out, scenario)
}

fn put_newer(out: &mut Vec<u8>, scenario: &Scenario, newer: Newer) -> Result<(), NoMemory>
    ensures { OnOk result
        (out.new.items
        ≡ out.old.items ++ bodies.answer_words scenario.now (Answer.Newer newer)) }
{
    put(out, b"newer")?;
    put(out, b" admin=")?;
    put_admin(out, scenario, newer.admin)?;
    put_after(out, b" used=", newer.used.0)?;
    put_after(out, b" found=", newer.found.0)
}

fn put_tell(out: &mut Vec<u8>, tell: &TellReply) -> Result<(), NoMemory>
    ensures { OnOk result (out.new.items ≡ out.old.items ++ bodies.tell_words tell.now) }
{
    put_after(out, b" turn=", tell.turn)?;
    put_after(out, b" clock=", tell.clock)?;
    put_after(out, b" revoked=", tell.revoked.len())
}

fn put_validate(
    out: &mut Vec<u8>,
    scenario: &Scenario,
    asked: &ValidateRequest,
) -> Result<(), NoMemory>
    ensures { OnOk result
        (out.new.items ≡ out.old.items ++ bodies.validate_words scenario.now asked.now) }
{
    put_after(out, b" turn=", asked.turn)?;
    put_after(out, b" epoch=", asked.epoch)?;
    put_staple(out, &asked.staple)?;
    put_wants(out, scenario, &asked.want)
}

fn put_verdicts(
    out: &mut Vec<u8>,
    scenario: &Scenario,
    reply: &VerdictsReply,
) -> Result<(), NoMemory>
    ensures { OnOk result
        (out.new.items ≡ out.old.items ++ bodies.verdicts_words scenario.now reply.now) }
{
    put_after(out, b" turn=", reply.turn)?;
    put_shown(out, scenario, &reply.verdicts)
}

/// Puts the verdicts, or that the server has restarted.
fn put_shown(
    out: &mut Vec<u8>,
    scenario: &Scenario,
    verdicts: &Option<List<Verdict>>,
) -> Result<(), NoMemory>
    ensures { OnOk result
        (out.new.items ≡ out.old.items ++ bodies.shown_words scenario.now verdicts.now) }
{
    match verdicts {
        None => put(out, b" why=restarted"),
        Some(verdicts) => {
            put(out, b" verdicts=")?;
            put_joined(out, scenario, verdicts.as_slice())
        }
    }
}

fn put_prepare(
    out: &mut Vec<u8>,
    scenario: &Scenario,
    asked: &PrepareRequest,
) -> Result<(), NoMemory>
    ensures { OnOk result
        (out.new.items ≡ out.old.items ++ bodies.prepare_words scenario.now asked.now) }
{
    put_after(out, b" turn=", asked.turn)?;
    put_after(out, b" epoch=", asked.epoch)?;
    put_staple_if(out, &asked.staple)?;
    put_wants(out, scenario, &asked.want)
}

fn put_vote(out: &mut Vec<u8>, scenario: &Scenario, reply: &VoteReply) -> Result<(), NoMemory>
    ensures { OnOk result (out.new.items ≡ out.old.items ++ bodies.vote_words scenario.now reply.now) }
{
    put_after(out, b" turn=", reply.turn)?;
    put(out, b" vote=")?;
    put_ballot(out, scenario, &reply.vote)
}

fn put_ballot(out: &mut Vec<u8>, scenario: &Scenario, vote: &Vote) -> Result<(), NoMemory>
    ensures { OnOk result (out.new.items ≡ out.old.items ++ bodies.ballot_words scenario.now vote.now) }
{
    match vote {
        Vote::Yes(verdicts) => {
            put(out, b"yes")?;
            put(out, b" verdicts=")?;
            put_joined(out, scenario, verdicts.as_slice())
        }
        Vote::No(why) => {
            put(out, b"no")?;
            put_no(out, *why)
        }
    }
}

fn put_newest(out: &mut Vec<u8>, scenario: &Scenario, reply: &NewestReply) -> Result<(), NoMemory>
    ensures { OnOk result
        (out.new.items ≡ out.old.items ++ bodies.newest_words scenario.now reply.now) }
{
    put_after(out, b" turn=", reply.turn)?;
    put(out, b" newest=")?;
    put_versions(out, scenario, reply.newest.as_slice())
}

fn put_decide(out: &mut Vec<u8>, outcome: Outcome) -> Result<(), NoMemory>
    ensures { OnOk result
        (out.new.items ≡ out.old.items ++ (codes " outcome=" ++ outcome_word outcome)) }
{
    match outcome {
        Outcome::Commit => put(out, b" outcome=commit"),
        Outcome::Abort => put(out, b" outcome=abort"),
    }
}
