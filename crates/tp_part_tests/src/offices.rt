//! The authority and the master, act by act.
use crate::made::assert_case;
use crate::small_scenario::small;
use tp_offices::{Authority, Master};
use tp_types::{
    Actor, AdminId, AskRequest, Body, CredId, Letter, Mail, NoMemory, ProbeRequest, PushNotice,
    Reaction, ServerId, Spare, TxnId, Version,
};

/// A mail from the coordinator of the second transaction.
fn mail(to: Actor, body: Body) -> Mail {
    Mail {
        number: 4,
        sent: 3,
        letter: Letter {
            from: Actor::Coordinator(TxnId(1)),
            to,
            body,
        },
    }
}

const ASKED: AskRequest = AskRequest {
    txn: TxnId(1),
    turn: 5,
};

const PROBED: ProbeRequest = ProbeRequest {
    txn: TxnId(1),
    turn: 6,
};

/// Whether a reaction is none.
fn is_nothing(answer: Result<Reaction, NoMemory>) -> bool {
    match answer {
        Ok(reaction) => reaction.letters.is_empty() && reaction.append.is_none(),
        Err(_refused) => false,
    }
}

/// What the authority is to do, or what it is to tell: the clock, and the revoked credentials.
enum Act {
    Tick(u64),
    Revoke(u32),
    Tells(u64, &'static [CredId]),
}

const ACTS: &[Act] = &[
    Act::Tells(7, &[]),
    Act::Tick(5),
    Act::Revoke(3),
    Act::Revoke(1),
    Act::Tells(12, &[CredId(1), CredId(3)]),
    // one that was revoked, one that is not of the scenario, and the first
    Act::Revoke(3),
    Act::Revoke(9),
    Act::Revoke(0),
    Act::Tick(0),
    Act::Tells(12, &[CredId(0), CredId(1), CredId(3)]),
    Act::Revoke(2),
    Act::Tick(1),
    Act::Tells(13, &[CredId(0), CredId(1), CredId(2), CredId(3)]),
];

/// Whether a reaction is the one letter to that coordinator with this clock and these revocations.
fn is_told(answer: Result<Reaction, NoMemory>, clock: u64, revoked: &[CredId]) -> bool {
    let Ok(reaction) = answer else {
        return false;
    };
    reaction.append.is_none()
        && matches!(
            reaction.letters.as_slice(),
            [Letter {
                from: Actor::Authority,
                to: Actor::Coordinator(TxnId(1)),
                body: Body::Tell(told),
            }] if told.txn == TxnId(1)
                && told.turn == 5
                && told.clock == clock
                && told.revoked.as_slice() == revoked
        )
}

/// Does what is to be done, on a clock that is small.
fn plays(rt: &impl AllocGlobal, authority: &mut Authority, act: &Act) -> bool {
    match act {
        Act::Tick(by) => {
            let is_small = authority.clock < 1000 && *by < 1000;
            if is_small {
                authority.tick(*by);
            }
            is_small
        }
        Act::Revoke(number) => {
            authority.revoke(CredId(*number));
            true
        }
        Act::Tells(clock, revoked) => {
            let asked = mail(Actor::Authority, Body::Ask(ASKED));
            is_told(
                authority.receive(&mut Spare::new(rt.alloc()), &asked),
                *clock,
                *revoked,
            )
        }
    }
}

#[test]
fn tells_the_clock_and_the_revocations_in_order(rt: HostRuntime) {
    let scenario = small(&rt);
    let opened = Authority::opened(rt.alloc(), &scenario);
    drop(scenario);
    let mut authority = opened.expect(&rt, "memory for an authority");
    for (at, act) in ACTS.iter().enumerate() {
        assert_case(&rt, at, plays(&rt, &mut authority, act));
    }
    let probed = mail(Actor::Master, Body::Probe(PROBED));
    let ignores = is_nothing(authority.receive(&mut Spare::new(rt.alloc()), &probed));
    drop(probed);
    drop(authority);
    assert!(rt; ignores);
}

/// Whether a reaction is the one letter to that coordinator with these versions.
fn is_newest(answer: Result<Reaction, NoMemory>, newest: &[Version]) -> bool {
    let Ok(reaction) = answer else {
        return false;
    };
    reaction.append.is_none()
        && matches!(
            reaction.letters.as_slice(),
            [Letter {
                from: Actor::Master,
                to: Actor::Coordinator(TxnId(1)),
                body: Body::Newest(told),
            }] if told.txn == TxnId(1) && told.turn == 6 && told.newest.as_slice() == newest
        )
}

/// Whether a reaction is one letter that pushes this version of the first administrator to the second server.
fn is_pushed(answer: Result<Reaction, NoMemory>, version: Version) -> bool {
    let Ok(reaction) = answer else {
        return false;
    };
    reaction.append.is_none()
        && matches!(
            reaction.letters.as_slice(),
            [Letter {
                from: Actor::Master,
                to: Actor::Server(ServerId(1)),
                body: Body::Push(PushNotice {
                    admin: AdminId(0),
                    version: pushed,
                }),
            }] if *pushed == version
        )
}

/// Whether a master of the small scenario publishes up to the last version of the first administrator, and no further.
fn publishes(master: &mut Master) -> bool {
    let has_more = master.has_more(AdminId(0)) && !master.has_more(AdminId(1));
    let fourth = matches!(master.publish(AdminId(0)), Ok(Version(4)));
    let fifth = matches!(master.publish(AdminId(0)), Ok(Version(5)));
    let no_sixth = master.publish(AdminId(0)).is_err();
    let no_second = master.publish(AdminId(1)).is_err() && master.publish(AdminId(2)).is_err();
    has_more && fourth && fifth && no_sixth && no_second
}

#[test]
fn publishes_up_to_the_last_version(rt: HostRuntime) {
    let scenario = small(&rt);
    let opened = Master::opened(rt.alloc(), &scenario);
    drop(scenario);
    let mut master = opened.expect(&rt, "memory for a master");
    let probed = mail(Actor::Master, Body::Probe(PROBED));
    let opens = is_newest(
        master.receive(&mut Spare::new(rt.alloc()), &probed),
        &[Version(3), Version(1)],
    );
    let publishes = publishes(&mut master);
    let tells = is_newest(
        master.receive(&mut Spare::new(rt.alloc()), &probed),
        &[Version(5), Version(1)],
    );
    drop(probed);
    let pushes = is_pushed(
        master.push(&mut Spare::new(rt.alloc()), AdminId(0), ServerId(1)),
        Version(5),
    );
    let asked = mail(Actor::Authority, Body::Ask(ASKED));
    let ignores = is_nothing(master.receive(&mut Spare::new(rt.alloc()), &asked));
    drop(asked);
    drop(master);
    assert!(rt; opens && publishes && tells && pushes && ignores);
}
