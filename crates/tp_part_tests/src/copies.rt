//! Mails with each body, a reaction, a reading, a scenario, a fact and an ending are copied. (Of records see `records`.)
use crate::made::{assert_case, list};
use crate::record_kinds::record;
use crate::small_scenario::small;
use std::process::Abort;
use tp_types::{
    AckReply, Actor, AdminId, Answer, AskRequest, Body, CredId, DecideRequest, DoneReply, Ending,
    Fact, InquireRequest, Letter, Mail, Newer, NewestReply, No, Outcome, PrepareRequest,
    ProbeRequest, PushNotice, QueryRequest, Reaction, Reading, ServerId, Staple, TellReply,
    TryClone, TxnId, ValidateRequest, Verdict, VerdictsReply, Version, Vote, VoteReply, What,
};

const T1: TxnId = TxnId(0);

fn verdict(rt: &(impl Abort + AllocGlobal)) -> Verdict {
    Verdict {
        query: 1,
        server: ServerId(0),
        admin: AdminId(0),
        version: Version(1),
        place: 3,
        rule: None,
        uses: list(rt, [CredId(0)]),
    }
}

fn staple(rt: &(impl Abort + AllocGlobal)) -> Staple {
    Staple {
        place: 3,
        clock: 0,
        revoked: list(rt, [CredId(0)]),
    }
}

/// The body of an answer that a query may have, by number below 5.
fn done(rt: &(impl Abort + AllocGlobal), kind: u32) -> Body {
    let answer = match kind {
        0 => Answer::Ran {
            value: -7,
            verdict: Some(verdict(rt)),
        },
        1 => Answer::Denied {
            verdict: verdict(rt),
        },
        2 => Answer::Newer(Newer {
            admin: AdminId(0),
            used: Version(1),
            found: Version(2),
        }),
        3 => Answer::Died { other: T1 },
        _ => Answer::Restarted,
    };
    Body::Done(DoneReply {
        txn: T1,
        turn: 1,
        query: 1,
        epoch: 1,
        answer,
    })
}

/// One body of each kind that a coordinator sends, and a push, by number from 5 below 13.
fn request(rt: &(impl Abort + AllocGlobal), kind: u32) -> Body {
    match kind {
        5 => Body::Query(QueryRequest {
            txn: T1,
            turn: 1,
            query: 1,
            age: Some(0),
            epoch: None,
            value: Some(7),
            staple: Some(staple(rt)),
            pin: Some(Version(1)),
        }),
        6 => Body::Ask(AskRequest { txn: T1, turn: 1 }),
        7 => Body::Validate(ValidateRequest {
            txn: T1,
            turn: 2,
            epoch: 1,
            staple: staple(rt),
            want: list(rt, [(AdminId(0), Version(2))]),
        }),
        8 => Body::Prepare(PrepareRequest {
            txn: T1,
            turn: 3,
            epoch: 1,
            staple: Some(staple(rt)),
            want: list(rt, [(AdminId(0), Version(2))]),
        }),
        9 => Body::Probe(ProbeRequest { txn: T1, turn: 4 }),
        10 => Body::Decide(DecideRequest {
            txn: T1,
            outcome: Outcome::Abort,
        }),
        11 => Body::Inquire(InquireRequest { txn: T1 }),
        _ => Body::Push(PushNotice {
            admin: AdminId(0),
            version: Version(2),
        }),
    }
}

/// One body of each kind that a coordinator is sent, where a vote is of two kinds, by number from 13.
fn reply(rt: &(impl Abort + AllocGlobal), kind: u32) -> Body {
    match kind {
        13 => Body::Tell(TellReply {
            txn: T1,
            turn: 2,
            clock: 5,
            revoked: list(rt, [CredId(0)]),
        }),
        14 => Body::Verdicts(VerdictsReply {
            txn: T1,
            turn: 2,
            verdicts: Some(list(rt, [verdict(rt)])),
        }),
        15 => Body::Vote(VoteReply {
            txn: T1,
            turn: 3,
            vote: Vote::Yes(list(rt, [verdict(rt)])),
        }),
        16 => Body::Vote(VoteReply {
            txn: T1,
            turn: 3,
            vote: Vote::No(No::Range { query: 1, value: 9 }),
        }),
        17 => Body::Newest(NewestReply {
            txn: T1,
            turn: 4,
            newest: list(rt, [Version(2)]),
        }),
        _ => Body::Ack(AckReply { txn: T1 }),
    }
}

/// How many bodies there are.
const BODIES: u32 = 19;

fn letter(rt: &(impl Abort + AllocGlobal), kind: u32) -> Letter {
    let body = match kind {
        0..=4 => done(rt, kind),
        5..=12 => request(rt, kind),
        _ => reply(rt, kind),
    };
    Letter {
        from: Actor::Coordinator(T1),
        to: Actor::Server(ServerId(0)),
        body,
    }
}

/// Whether a value is copied.
fn is_copied<T: TryClone + Drop>(rt: &impl AllocGlobal, value: T) -> bool {
    let copy = value.try_clone(rt.alloc());
    drop(value);
    match copy {
        Ok(made) => {
            drop(made);
            true
        }
        Err(_refused) => false,
    }
}

#[test]
fn mails_are_copied(rt: HostRuntime) {
    for kind in 0..BODIES {
        let mail = Mail {
            number: 0,
            sent: 0,
            letter: letter(&rt, kind),
        };
        assert_case(&rt, kind as usize, is_copied(&rt, mail));
    }
}

/// Whether a reaction with a record and a letter is copied.
fn is_reaction_copied(rt: &(impl Abort + AllocGlobal)) -> bool {
    let reaction = Reaction {
        append: Some(record(rt, 2)),
        letters: list(rt, [letter(rt, 5)]),
    };
    is_copied(rt, reaction)
}

#[test]
fn other_values_are_copied(rt: HostRuntime) {
    let reading = Reading {
        place: 3,
        newest: list(&rt, [Version(1)]),
    };
    let fact = Fact {
        place: 3,
        what: What::Settled(ServerId(0), T1, Outcome::Abort),
    };
    let ending = Ending {
        steps: 9,
        mails: 8,
        values: list(&rt, [7]),
    };
    let are_copied = is_copied(&rt, reading) & is_copied(&rt, fact) & is_copied(&rt, ending);
    assert!(rt; are_copied);
    assert!(rt; is_reaction_copied(&rt) && is_copied(&rt, small(&rt)));
}
