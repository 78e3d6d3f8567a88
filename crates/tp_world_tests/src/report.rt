//! Reports of facts that are made by hand and that no run yields yet, against texts that were typed by hand.
use std::process::Abort;
use tp_report::print;
use tp_scenario::read;
use tp_types::{
    Action, Actor, AdminId, Cause, CommitRecord, CredId, Decision, Deed, Denied, Died, Ending,
    Fact, Instance, ItemId, List, Met, Newer, OutOfRange, Outcome, Place, Scenario, ServerId,
    TxnId, Verdict, Version, What,
};

const HR: AdminId = AdminId(0);

const BILLING: AdminId = AdminId(1);

const S0: ServerId = ServerId(0);

const S1: ServerId = ServerId(1);

const X: ItemId = ItemId(0);

const Y: ItemId = ItemId(1);

const Z: ItemId = ItemId(2);

const T1: TxnId = TxnId(0);

const T2: TxnId = TxnId(1);

const C1: CredId = CredId(0);

const C2: CredId = CredId(1);

/// Server s0 with item x, and server s1 with items y and z. There are two of each other kind.
const NAMES: &str =
    r#"{"admins":[{"name":"hr","policies":[""]},{"name":"billing","policies":[""]}],"credentials":[{"name":"c1","issuer":"h","subject":"ann","attr":"role","value":1,"from":0,"until":10},{"name":"c2","issuer":"h","subject":"ann","attr":"role","value":1,"from":0,"until":10}],"servers":[{"name":"s0","items":[{"name":"x","admin":"hr","min":0,"max":100,"value":5}]},{"name":"s1","items":[{"name":"y","admin":"hr","min":0,"max":100,"value":5},{"name":"z","admin":"hr","min":0,"max":100,"value":5}]}],"transactions":[{"name":"t1","subject":"ann","queries":["read x into r1"]},{"name":"t2","subject":"ann","queries":["read x into r1"]}]}"#;

fn scenario(rt: &(impl Abort + AllocGlobal)) -> Scenario {
    read(rt.alloc(), NAMES.as_bytes())
        .ok()
        .expect(rt, "a scenario")
}

/// A list of the members of an array.
fn list<T: Drop, const N: usize>(rt: &(impl Abort + AllocGlobal), members: [T; N]) -> List<T> {
    let made = Vec::from_array(rt.alloc(), members);
    List::from_vec(made.ok().expect(rt, "memory for a list"))
}

/// Asserts that these facts and an ending with these values print as the text.
fn assert_prints(
    rt: &(impl Abort + AllocGlobal),
    facts: List<Fact>,
    steps: u64,
    mails: u64,
    values: [i128; 3],
    wanted: &str,
) {
    let ending = Ending {
        steps,
        mails,
        values: list(rt, values),
    };
    let scenario = scenario(rt);
    let printed = print(rt.alloc(), &scenario, &facts, &ending);
    drop(scenario);
    drop(facts);
    drop(ending);
    let printed = printed.expect(rt, "memory for a report");
    let text = std::str::from_utf8(printed.0.as_slice()).expect(rt, "a text");
    assert_eq!(*rt; text, wanted);
}

fn fact(place: Place, what: What) -> Fact {
    Fact { place, what }
}

/// A true proof by the first rule of a policy of hr, with some of the credentials.
fn proof(query: u32, server: ServerId, version: u32, place: Place, uses: List<CredId>) -> Verdict {
    Verdict {
        query,
        server,
        admin: HR,
        version: Version(version),
        place,
        rule: Some(1),
        uses,
    }
}

/// A true proof that uses no credential.
fn plain(
    rt: &impl AllocGlobal,
    query: u32,
    server: ServerId,
    version: u32,
    place: Place,
) -> Verdict {
    proof(query, server, version, place, List::new(rt.alloc()))
}

fn instance(reading: Option<Place>, proofs: List<Verdict>) -> Instance {
    Instance { reading, proofs }
}

fn committed(rounds: u32, instances: List<Instance>, deeds: List<Deed>) -> Decision {
    Decision::Commit(CommitRecord {
        rounds,
        instances,
        deeds,
    })
}

const READ_X: Deed = Deed {
    query: 1,
    item: X,
    action: Action::Read,
    value: 5,
};

const WRITE_Y: Deed = Deed {
    query: 2,
    item: Y,
    action: Action::Write,
    value: 6,
};

/// Proofs of both queries, at these places.
fn both(rt: &(impl Abort + AllocGlobal), first: Place, second: Place) -> Instance {
    let first = plain(rt, 1, S0, 2, first);
    instance(None, list(rt, [first, plain(rt, 2, S1, 2, second)]))
}

/// A commit on one proof, then two of which the first was evaluated again, then two new ones, of a read and a write.
fn read_and_written(rt: &(impl Abort + AllocGlobal)) -> Decision {
    let first = instance(None, list(rt, [plain(rt, 1, S0, 1, 3)]));
    let instances = list(rt, [first, both(rt, 15, 9), both(rt, 19, 19)]);
    committed(1, instances, list(rt, [READ_X, WRITE_Y]))
}

/// A commit of proofs that were evaluated after each query, with a read.
#[test]
fn several_instances(rt: HostRuntime) {
    let commit = fact(24, What::Decided(T1, read_and_written(&rt)));
    let first = fact(25, What::Settled(S0, T1, Outcome::Commit));
    let second = fact(26, What::Settled(S1, T1, Outcome::Commit));
    let facts = list(&rt, [commit, first, second]);
    assert_prints(
        &rt,
        facts,
        29,
        28,
        [5, 6, 0],
        "tpvc 1
24 commit t1 rounds 1
  instance 1 reading none
  proof q1 s0 hr 1 at 3 rule 1 uses none
  instance 2 reading none
  proof q1 s0 hr 2 at 15 rule 1 uses none
  proof q2 s1 hr 2 at 9 rule 1 uses none
  instance 3 reading none
  proof q1 s0 hr 2 at 19 rule 1 uses none
  proof q2 s1 hr 2 at 19 rule 1 uses none
  read q1 x 5
  write q2 y 6
25 settle s0 t1 commit
26 settle s1 t1 commit
item s0 x 5
item s1 y 6
item s1 z 0
quiet 29 28
",
    );
}

/// A commit on a proof that uses a credential.
fn unread(rt: &(impl Abort + AllocGlobal)) -> Decision {
    let one_use = proof(1, S0, 1, 1, list(rt, [C1]));
    let instances = list(rt, [instance(None, list(rt, [one_use]))]);
    committed(0, instances, List::new(rt.alloc()))
}

/// A commit on a proof that uses two credentials, with a reading of the master and a read of the least value.
fn lowest(rt: &(impl Abort + AllocGlobal)) -> Decision {
    let two_uses = proof(1, S1, 2, 43, list(rt, [C1, C2]));
    let instances = list(rt, [instance(Some(7), list(rt, [two_uses]))]);
    let least = Deed {
        item: Z,
        value: i128::MIN,
        ..READ_X
    };
    committed(1, instances, list(rt, [least]))
}

/// Proofs that use credentials, a reading of the master, and values below zero and at the widest.
#[test]
fn readings_and_credentials(rt: HostRuntime) {
    let first = fact(7, What::Decided(T1, unread(&rt)));
    let second = fact(u64::MAX, What::Decided(T2, lowest(&rt)));
    let facts = list(&rt, [first, second]);
    assert_prints(
        &rt,
        facts,
        10,
        8,
        [-1, -1_000_000_000_000_000, i128::MAX],
        "tpvc 1
7 commit t1 rounds 0
  instance 1 reading none
  proof q1 s0 hr 1 at 1 rule 1 uses c1
18446744073709551615 commit t2 rounds 1
  instance 1 reading 7
  proof q1 s1 hr 2 at 43 rule 1 uses c1 c2
  read q1 z -170141183460469231731687303715884105728
item s0 x -1
item s1 y -1000000000000000
item s1 z 170141183460469231731687303715884105727
quiet 10 8
",
    );
}

fn aborted(place: Place, txn: TxnId, cause: Cause) -> Fact {
    fact(place, What::Decided(txn, Decision::Abort(cause)))
}

/// A false proof of the first query.
const DENIED: Denied = Denied {
    query: 1,
    server: S0,
    admin: HR,
    version: Version(1),
    place: 6,
};

/// A value above its item's range.
const ABOVE: OutOfRange = OutOfRange {
    query: 1,
    server: S0,
    value: 101,
};

const DIED: Died = Died {
    query: 1,
    server: S0,
    other: T1,
    place: 3,
};

const NEWER: Newer = Newer {
    admin: HR,
    used: Version(1),
    found: Version(2),
};

/// An abort for each cause but rounds.
#[test]
fn causes(rt: HostRuntime) {
    let facts = list(
        &rt,
        [
            aborted(9, T1, Cause::Denied(DENIED)),
            aborted(6, T1, Cause::No(ABOVE)),
            aborted(5, T2, Cause::Died(DIED)),
            aborted(8, T1, Cause::Newer(NEWER)),
            aborted(10, T1, Cause::Restarted { server: S0 }),
            aborted(7, T1, Cause::Halted),
        ],
    );
    assert_prints(
        &rt,
        facts,
        12,
        10,
        [5, 0, 0],
        "tpvc 1
9 abort t1 denied q1 s0 hr 1 at 6
6 abort t1 no q1 s0 101
5 abort t2 died q1 s0 t1 at 3
8 abort t1 newer hr 1 2
10 abort t1 restarted s0
7 abort t1 halted
item s0 x 5
item s1 y 0
item s1 z 0
quiet 12 10
",
    );
}

const FIRST_MET: Met = Met {
    admin: HR,
    used: Version(1),
    newest: Version(2),
    place: 8,
};

const SECOND_MET: Met = Met {
    used: Version(2),
    newest: Version(3),
    place: 15,
    ..FIRST_MET
};

/// Rounds that met newer versions, and a negative value.
#[test]
fn rounds(rt: HostRuntime) {
    let one = Cause::Rounds(list(&rt, [FIRST_MET]));
    let both = Cause::Rounds(list(&rt, [FIRST_MET, SECOND_MET]));
    let below = Cause::No(OutOfRange { value: -1, ..ABOVE });
    let first = aborted(9, T2, one);
    let second = aborted(16, T1, both);
    let facts = list(&rt, [first, second, aborted(12, T2, below)]);
    assert_prints(
        &rt,
        facts,
        19,
        16,
        [5, 0, 0],
        "tpvc 1
9 abort t2 rounds hr 1 2 at 8
16 abort t1 rounds hr 1 2 at 8, hr 2 3 at 15
12 abort t2 no q1 s0 -1
item s0 x 5
item s1 y 0
item s1 z 0
quiet 19 16
",
    );
}

/// Facts of the steps themselves, and an abort at a server.
#[test]
fn each_step(rt: HostRuntime) {
    let facts = list(
        &rt,
        [
            fact(0, What::Ticked(1)),
            fact(1, What::Submitted(T2)),
            fact(2, What::Lost(1)),
            fact(4, What::Revoked(C1)),
            fact(5, What::Crashed(Actor::Server(S0))),
            fact(6, What::Crashed(Actor::Coordinator(T1))),
            fact(7, What::Published(HR, Version(2))),
            fact(11, What::Published(BILLING, Version(3))),
            fact(17, What::Settled(S1, T1, Outcome::Abort)),
        ],
    );
    assert_prints(
        &rt,
        facts,
        22,
        16,
        [5, 0, 0],
        "tpvc 1
0 tick 1
1 submit t2
2 lose 1
4 revoke c1
5 crash s0
6 crash t1
7 publish hr 2
11 publish billing 3
17 settle s1 t1 abort
item s0 x 5
item s1 y 0
item s1 z 0
quiet 22 16
",
    );
}
