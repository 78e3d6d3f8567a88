//! A record of each kind, of each way to settle and of each cause.
use crate::made::list;
use std::process::Abort;
use tp_types::{
    Action, AdminId, Cause, CommitRecord, CredId, Decided, Decision, Deed, Denied, Died, Instance,
    ItemId, List, Met, Newer, No, OutOfRange, Outcome, Prepared, Record, ServerId, Settled, Told,
    TxnId, Verdict, Version,
};

const WRITTEN: Deed = Deed {
    query: 1,
    item: ItemId(4),
    action: Action::Write,
    value: 5,
};

fn verdict(rule: Option<u32>, uses: List<CredId>) -> Verdict {
    Verdict {
        query: 1,
        server: ServerId(2),
        admin: AdminId(3),
        version: Version(4),
        place: 5,
        rule,
        uses,
    }
}

fn prepared(rt: &(impl Abort + AllocGlobal)) -> Prepared {
    let uses = list(rt, [CredId(7)]);
    Prepared {
        txn: TxnId(1),
        age: 0x0102_0304_0506_0708,
        epoch: 2,
        turn: 3,
        deeds: list(rt, [WRITTEN]),
        verdicts: list(rt, [verdict(Some(6), uses)]),
        told: list(rt, [Version(8), Version(9)]),
    }
}

fn commit(rt: &(impl Abort + AllocGlobal)) -> CommitRecord {
    let seen = Instance {
        reading: Some(9),
        proofs: List::new(rt.alloc()),
    };
    let unseen = Instance {
        reading: None,
        proofs: list(rt, [verdict(None, List::new(rt.alloc()))]),
    };
    let read = Deed {
        action: Action::Read,
        value: -2,
        ..WRITTEN
    };
    CommitRecord {
        rounds: 1,
        instances: list(rt, [seen, unseen]),
        deeds: list(rt, [read]),
    }
}

/// Why a transaction aborted, by number from 7.
fn cause(rt: &(impl Abort + AllocGlobal), number: usize) -> Cause {
    match number {
        7 => Cause::Denied(Denied {
            query: 1,
            server: ServerId(2),
            admin: AdminId(3),
            version: Version(4),
            place: 5,
        }),
        8 => Cause::No(OutOfRange {
            query: 1,
            server: ServerId(2),
            value: 258,
        }),
        9 => Cause::Died(Died {
            query: 1,
            server: ServerId(2),
            other: TxnId(3),
            place: 5,
        }),
        10 => Cause::Newer(Newer {
            admin: AdminId(1),
            used: Version(2),
            found: Version(3),
        }),
        11 => {
            let met = Met {
                admin: AdminId(1),
                used: Version(2),
                newest: Version(3),
                place: 4,
            };
            Cause::Rounds(list(rt, [met]))
        }
        12 => Cause::Restarted {
            server: ServerId(2),
        },
        _ => Cause::Halted,
    }
}

fn settled(outcome: Outcome, why: Option<No>) -> Record {
    Record::Settled(Settled {
        txn: TxnId(3),
        outcome,
        why,
    })
}

fn decided(decision: Decision) -> Record {
    Record::Decided(Decided {
        txn: TxnId(1),
        decision,
    })
}

/// The record of this number.
pub fn record(rt: &(impl Abort + AllocGlobal), number: usize) -> Record {
    match number {
        0 => Record::Boot,
        1 => Record::Told(Told {
            admin: AdminId(0),
            version: Version(2),
        }),
        2 => Record::Prepared(prepared(rt)),
        3 => settled(Outcome::Commit, None),
        4 => settled(
            Outcome::Abort,
            Some(No::Range {
                query: 2,
                value: -1,
            }),
        ),
        5 => settled(Outcome::Abort, Some(No::Restarted)),
        6 => decided(Decision::Commit(commit(rt))),
        _ => decided(Decision::Abort(cause(rt, number))),
    }
}

/// A vote whose body has 41 bytes, 25 more for each deed and 4 more for each version.
pub fn long(rt: &(impl Abort + AllocGlobal), deeds: usize, versions: usize) -> Record {
    let deeds = vec![in rt.alloc(); WRITTEN; deeds].expect(rt, "memory for deeds");
    let told = vec![in rt.alloc(); Version(1); versions].expect(rt, "memory for versions");
    Record::Prepared(Prepared {
        txn: TxnId(0),
        age: 0,
        epoch: 1,
        turn: 1,
        deeds: List::from_vec(deeds),
        verdicts: List::new(rt.alloc()),
        told: List::from_vec(told),
    })
}
