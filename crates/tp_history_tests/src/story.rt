//! Histories, as tables tell them.
use crate::scenario::ids;
use std::process::Abort;
use tp_types::{
    Actor, AdminId, Cause, CommitRecord, CredId, Decision, Deed, Denied, Died, Fact, Instance,
    List, Met, Newer, OutOfRange, Outcome, ServerId, TxnId, Verdict, Version, What,
};

/// What a proof says.
#[derive(Clone, Copy)]
pub struct Claim<'a> {
    pub query: u32,
    pub server: u32,
    pub admin: u32,
    pub version: u32,
    pub place: u64,
    pub rule: Option<u32>,
    pub uses: &'a [u32],
}

/// What an instance says.
#[derive(Clone, Copy)]
pub struct Evidence<'a> {
    pub reading: Option<u64>,
    pub claims: &'a [Claim<'a>],
}

/// What a commit rests on.
#[derive(Clone, Copy)]
pub struct Basis<'a> {
    pub rounds: u32,
    pub evidence: &'a [Evidence<'a>],
    pub deeds: &'a [Deed],
}

/// Why a transaction aborted.
#[derive(Clone, Copy)]
pub enum Why<'a> {
    Denied(Denied),
    No(OutOfRange),
    Died(Died),
    Newer(Newer),
    Rounds(&'a [Met]),
    Restarted(u32),
    Halted,
}

/// What a history says of a place.
#[derive(Clone, Copy)]
pub enum Said<'a> {
    Submit(u32),
    Publish(u32, u32),
    Revoke(u32),
    Tick(u64),
    Crash(Actor),
    Lose,
    Commit(u32, Basis<'a>),
    Abort(u32, Why<'a>),
    Settle(u32, u32, Outcome),
}

/// What is said, each with its place.
pub type Story<'a> = &'a [(u64, Said<'a>)];

/// A commit that says nothing of what it rests on.
pub const NOTHING: Basis = Basis {
    rounds: 0,
    evidence: &[],
    deeds: &[],
};

fn instance(rt: &(impl Abort + AllocGlobal), evidence: &Evidence) -> Instance {
    let mut proofs = List::new(rt.alloc());
    for claim in evidence.claims {
        let proof = Verdict {
            query: claim.query,
            server: ServerId(claim.server),
            admin: AdminId(claim.admin),
            version: Version(claim.version),
            place: claim.place,
            rule: claim.rule,
            uses: ids(rt, claim.uses),
        };
        proofs.push(proof).expect(rt, "memory for a proof");
    }
    Instance {
        reading: evidence.reading,
        proofs,
    }
}

fn instances(rt: &(impl Abort + AllocGlobal), evidence: &[Evidence]) -> List<Instance> {
    let mut made = List::new(rt.alloc());
    for one in evidence {
        let instance = instance(rt, one);
        made.push(instance).expect(rt, "memory for an instance");
    }
    made
}

fn committed(rt: &(impl Abort + AllocGlobal), basis: &Basis) -> Decision {
    let deeds = Vec::from_slice(rt.alloc(), basis.deeds).expect(rt, "memory for deeds");
    Decision::Commit(CommitRecord {
        rounds: basis.rounds,
        instances: instances(rt, basis.evidence),
        deeds: List::from_vec(deeds),
    })
}

fn cause(rt: &(impl Abort + AllocGlobal), why: Why) -> Cause {
    match why {
        Why::Denied(denied) => Cause::Denied(denied),
        Why::No(refused) => Cause::No(refused),
        Why::Died(died) => Cause::Died(died),
        Why::Newer(newer) => Cause::Newer(newer),
        Why::Rounds(mets) => {
            let made = Vec::from_slice(rt.alloc(), mets).expect(rt, "memory for rounds");
            Cause::Rounds(List::from_vec(made))
        }
        Why::Restarted(server) => Cause::Restarted {
            server: ServerId(server),
        },
        Why::Halted => Cause::Halted,
    }
}

fn what(rt: &(impl Abort + AllocGlobal), said: &Said) -> What {
    match said {
        Said::Submit(txn) => What::Submitted(TxnId(*txn)),
        Said::Publish(admin, version) => What::Published(AdminId(*admin), Version(*version)),
        Said::Revoke(cred) => What::Revoked(CredId(*cred)),
        Said::Tick(by) => What::Ticked(*by),
        Said::Crash(actor) => What::Crashed(*actor),
        Said::Lose => What::Lost(0),
        Said::Commit(txn, basis) => What::Decided(TxnId(*txn), committed(rt, basis)),
        Said::Abort(txn, why) => What::Decided(TxnId(*txn), Decision::Abort(cause(rt, *why))),
        Said::Settle(server, txn, outcome) => {
            What::Settled(ServerId(*server), TxnId(*txn), *outcome)
        }
    }
}

/// Adds the facts of a story.
pub fn tell(rt: &(impl Abort + AllocGlobal), facts: &mut List<Fact>, story: Story) {
    for (place, said) in story {
        let fact = Fact {
            place: *place,
            what: what(rt, said),
        };
        facts.push(fact).expect(rt, "memory for a fact");
    }
}

/// The facts of a story.
pub fn told(rt: &(impl Abort + AllocGlobal), story: Story) -> List<Fact> {
    let mut facts = List::new(rt.alloc());
    tell(rt, &mut facts, story);
    facts
}
