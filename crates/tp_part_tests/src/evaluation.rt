//! A store of credentials, the evaluation of a policy on it, and the check of its certificate.
use crate::made::{assert_case, name};
use crate::policy_text::{WARD, policy};
use std::process::Abort;
use tp_check::check;
use tp_cred::{CredError, CredStore, Presented};
use tp_eval::{Certificate, evaluate};
use tp_types::{Action, CredId, Credential, Policy, Value};

const C1: CredId = CredId(0);

const C2: CredId = CredId(1);

const C3: CredId = CredId(2);

/// The id of no credential.
const NONE: CredId = CredId(3);

/// A credential of the hospital.
fn credential(
    rt: &(impl Abort + AllocGlobal),
    text: &str,
    subject: &str,
    attr: &str,
    value: Value,
) -> Credential {
    Credential {
        name: name(rt, text),
        issuer: name(rt, "hospital"),
        subject: name(rt, subject),
        attr: name(rt, attr),
        value,
        from: 1,
        until: 100,
    }
}

/// Adds to a store that is small.
fn added(
    rt: &(impl Abort + AllocGlobal),
    store: &mut CredStore,
    credential: Credential,
) -> Result<CredId, CredError> {
    assert!(*rt; store.len() < 1000);
    store.add(credential)
}

/// The nurse ann of ward 3: c1 has her role from 5 to 9, and c2 her ward. The doctor bob has c3.
fn hospital(rt: &(impl Abort + AllocGlobal)) -> CredStore {
    let mut store = CredStore::new(rt.alloc());
    let is_empty = store.is_empty();
    let nurse = Value::Word(name(rt, "nurse"));
    let doctor = Value::Word(name(rt, "doctor"));
    let mut role = credential(rt, "c1", "ann", "role", nurse);
    role.from = 5;
    role.until = 9;
    let c1 = added(rt, &mut store, role);
    let ward = credential(rt, "c2", "ann", "ward", Value::Number(3));
    let c2 = added(rt, &mut store, ward);
    let role = credential(rt, "c3", "bob", "role", doctor);
    let c3 = added(rt, &mut store, role);
    assert!(*rt; is_empty && c1 == Ok(C1) && c2 == Ok(C2) && c3 == Ok(C3));
    store
}

/// Whether a store of the hospital refuses the second credential's name, of another subject.
fn refuses_again(rt: &(impl Abort + AllocGlobal), store: &mut CredStore) -> bool {
    let again = credential(rt, "c2", "eve", "age", Value::Number(1));
    added(rt, store, again) == Err(CredError::Duplicate { id: C2 })
}

/// Whether a store has these two of ann, of which the first is valid from 5 to 9.
fn has_anns(rt: &(impl Abort + AllocGlobal), store: &CredStore) -> bool {
    let ann = name(rt, "ann");
    let found = store.of_subject(rt.alloc(), &ann);
    found.expect(rt, "memory for ids").as_slice() == [C1, C2].as_slice()
        && store.valid(C1, 9, &[C2])
        && !store.valid(C1, 10, &[])
        && !store.valid(C2, 9, &[C2])
}

#[test]
fn stores_credentials(rt: HostRuntime) {
    let mut store = hospital(&rt);
    let refuses = refuses_again(&rt, &mut store);
    let has_three = store.len() == 3 && store.get(C3).is_some() && store.get(NONE).is_none();
    let has_anns = has_anns(&rt, &store);
    drop(store);
    assert!(rt; refuses && has_three && has_anns);
}

/// What ann is allowed of temp at 7, by both her credentials.
fn certificate(
    rt: &(impl Abort + AllocGlobal),
    policy: &Policy,
    store: &CredStore,
    action: Action,
) -> Option<Certificate> {
    assert!(*rt; policy.rules.len() < 1000);
    let item = name(rt, "temp");
    let ann = name(rt, "ann");
    let held = Presented {
        store,
        subject: &ann,
        creds: &[C1, C2],
        clock: 7,
        revoked: &[],
    };
    let found = evaluate(rt.alloc(), policy, action, &item, &held);
    found.expect(rt, "memory for a certificate")
}

#[test]
fn a_nurse_reads_in_her_ward(rt: HostRuntime) {
    let policy = policy(&rt, WARD);
    let store = hospital(&rt);
    let written = certificate(&rt, &policy, &store, Action::Write);
    let read = certificate(&rt, &policy, &store, Action::Read);
    drop(store);
    drop(policy);
    assert!(rt; written.is_none());
    let read = read.expect(&rt, "a certificate");
    assert!(rt; read.rule == 1 && read.uses.as_slice() == [C1, C2].as_slice());
}

/// A certificate for temp under the policy of the ward, and whether it passes.
#[derive(Clone, Copy)]
struct Trial {
    action: Action,
    subject: &'static str,
    clock: u64,
    revoked: &'static [CredId],
    rule: u32,
    uses: &'static [CredId],
    passes: bool,
}

/// Ann reads.
const ANN: Trial = Trial {
    action: Action::Read,
    subject: "ann",
    clock: 7,
    revoked: &[],
    rule: 1,
    uses: &[C1, C2],
    passes: true,
};

const REFUSED: Trial = Trial {
    passes: false,
    ..ANN
};

const TRIALS: &[Trial] = &[
    ANN,
    Trial {
        uses: &[C1],
        ..REFUSED
    },
    Trial {
        uses: &[C2, C1],
        ..ANN
    },
    Trial {
        uses: &[C1, C2, C2],
        ..ANN
    },
    // no such rule, and one that does not match
    Trial { rule: 0, ..REFUSED },
    Trial { rule: 3, ..REFUSED },
    Trial {
        rule: u32::MAX,
        ..REFUSED
    },
    Trial { rule: 2, ..REFUSED },
    Trial {
        subject: "bob",
        rule: 2,
        uses: &[C3],
        ..REFUSED
    },
    Trial {
        subject: "bob",
        action: Action::Write,
        rule: 2,
        uses: &[C3],
        ..ANN
    },
    // another's credential does not serve, and does no harm
    Trial {
        uses: &[C3],
        ..REFUSED
    },
    Trial {
        uses: &[C1, C2, C3],
        ..ANN
    },
    // one that is not there or not valid, though it is not needed
    Trial {
        uses: &[C1, C2, NONE],
        ..REFUSED
    },
    Trial {
        revoked: &[C3],
        uses: &[C1, C2, C3],
        ..REFUSED
    },
    // c1 is valid from 5 to 9
    Trial {
        clock: 4,
        ..REFUSED
    },
    Trial { clock: 5, ..ANN },
    Trial { clock: 9, ..ANN },
    Trial {
        clock: 10,
        ..REFUSED
    },
    Trial {
        revoked: &[C2],
        ..REFUSED
    },
];

fn passes(
    rt: &(impl Abort + AllocGlobal),
    policy: &Policy,
    store: &CredStore,
    trial: &Trial,
) -> bool {
    let item = name(rt, "temp");
    let subject = name(rt, trial.subject);
    let held = Presented {
        store,
        subject: &subject,
        creds: trial.uses,
        clock: trial.clock,
        revoked: trial.revoked,
    };
    check(policy, trial.action, &item, &held, trial.rule)
}

#[test]
fn checks_certificates(rt: HostRuntime) {
    let policy = policy(&rt, WARD);
    let store = hospital(&rt);
    for (at, trial) in TRIALS.iter().enumerate() {
        let passes = passes(&rt, &policy, &store, trial);
        assert_case(&rt, at, passes == trial.passes);
    }
    drop(store);
    drop(policy);
}
