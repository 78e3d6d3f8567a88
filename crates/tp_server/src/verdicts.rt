//! A server's verdicts, where a query runs that was asked with a staple, on the queries so far, and at Prepare.
ghost use Rattle.std.specs.Prelude.{◌≡◌, ◌<◌, ◌^◌, [], filter, find, length, Some, IfOk};
ghost use Rattle.tp_model.specs.Authorisation as authorisation;
ghost use Rattle.tp_model.specs.Credentials as credentials;
ghost use Rattle.tp_eval.specs.mirrors.Said.{IsIndexOf};
ghost use Rattle.tp_model.specs.WantedVersions.{is_for};
ghost use Rattle.tp_server.specs.Evaluation as evaluation;
ghost use Rattle.tp_server.specs.Verdicts as verdicts;
ghost use Rattle.tp_server.specs.Verdicts.{HasFewRules};

use crate::server::Server;
use std::alloc::Global;
use tp_eval::{Certificate, Evidence, Said, certify, said_by};
use tp_lock::LockTable;
use tp_model::{action_of, item_of, policy_at, query_at};
use tp_store::Store;
use tp_types::{
    AdminId, Deed, ItemId, List, NoMemory, Place, Policy, Query, Scenario, ServerId, Staple,
    Transaction, Verdict, Version,
};

/// A transaction that is evaluated with a staple.
#[derive(Clone, Copy)]
struct Case<'a, 'b> {
    scenario: &'a Scenario,
    txn: &'a Transaction,
    staple: &'a Staple,
    /// The versions wanted, which are used instead of those known.
    want: &'a [(AdminId, Version)],
    /// What those of the credentials say that it presents and that are valid, found once.
    said: &'b Said<'a>,
    ghost indexed: { IsIndexOf scenario.now.creds txn.now.subject
        (filter
        (credentials.is_valid_in scenario.now.creds staple.now.clock staple.now.revoked)
        txn.now.creds)
        said.now.kinds.keys said.now.lists },
}

/// What those of the credentials say that the transaction presents and that are valid by the staple.
fn said_with<'a>(
    alloc: Global,
    scenario: &'a Scenario,
    txn: &Transaction,
    staple: &Staple,
) -> Result<Said<'a>, NoMemory>
    ensures { IfOk result (λ said.
        IsIndexOf scenario.now.creds txn.now.subject
        (filter
        (credentials.is_valid_in scenario.now.creds staple.now.clock staple.now.revoked)
        txn.now.creds)
        said.kinds.keys said.lists) }
{
    said_by(
        alloc,
        scenario.creds.as_slice(),
        &txn.subject,
        txn.creds.as_slice(),
        staple.clock,
        staple.revoked.as_slice(),
    )
}

/// Learns each of these versions.
pub fn learn(store: &mut Store, want: &[(AdminId, Version)])
    ensures { store.new ≡ verdicts.with_versions store.old want.now }
{
    for wanted in want {
        store.told(wanted.0, wanted.1);
    }
}

/// The verdicts on what the transaction did at the server.
pub fn verdicts_on<'a, L: LockTable + Drop>(
    alloc: Global,
    scenario: &'a Scenario,
    server: &Server<L>,
    txn: &'a Transaction,
    staple: &'a Staple,
    want: &'a [(AdminId, Version)],
    deeds: &[Deed],
) -> Result<List<Verdict>, NoMemory>
    requires { HasFewRules scenario.now }
    ensures { IfOk result (λ made.
        made ≡ verdicts.verdicts_on scenario.now server.now txn.now staple.now want.now
        deeds.now) }
{
    let said = said_with(alloc, scenario, txn, staple)?;
    verdicts_in(
        alloc,
        &Case {
            scenario,
            txn,
            staple,
            want,
            said: &said,
        },
        server,
        deeds,
    )
}

fn verdicts_in<L: LockTable + Drop>(
    alloc: Global,
    case: &Case<'_, '_>,
    server: &Server<L>,
    deeds: &[Deed],
) -> Result<List<Verdict>, NoMemory>
    requires { HasFewRules case.now.scenario.now }
    ensures { IfOk result (λ made.
        made ≡ verdicts.verdicts_on case.now.scenario.now server.now case.now.txn.now
        case.now.staple.now case.now.want.now deeds.now) }
{
    let mut made = List::from_vec(Vec::with_capacity(alloc, deeds.len())?);
    for deed in deeds {
        made.push(verdict_on(alloc, case, server, *deed)?)?;
    }
    Ok(made)
}

/// The verdict on one deed of the transaction, by the version that the server knows.
pub fn verdict_alone<'a, L: LockTable + Drop>(
    alloc: Global,
    scenario: &'a Scenario,
    server: &Server<L>,
    txn: &'a Transaction,
    staple: &'a Staple,
    deed: Deed,
) -> Result<Verdict, NoMemory>
    requires { HasFewRules scenario.now }
    ensures { IfOk result (λ made.
        made ≡ verdicts.verdict_on scenario.now server.now txn.now staple.now [] deed) }
{
    let said = said_with(alloc, scenario, txn, staple)?;
    verdict_on(
        alloc,
        &Case {
            scenario,
            txn,
            staple,
            want: &[],
            said: &said,
        },
        server,
        deed,
    )
}

fn verdict_on<L: LockTable + Drop>(
    alloc: Global,
    case: &Case<'_, '_>,
    server: &Server<L>,
    deed: Deed,
) -> Result<Verdict, NoMemory>
    requires { HasFewRules case.now.scenario.now }
    ensures { IfOk result (λ made.
        made ≡ verdicts.verdict_on case.now.scenario.now server.now case.now.txn.now
        case.now.staple.now case.now.want.now deed) }
{
    let admin = admin_of(case.scenario, deed.item);
    let version = version_used(server, case.want, admin);
    let found = certificate_of(alloc, case, deed.query, admin, version)?;
    Ok(verdict_of(
        alloc,
        server.server,
        deed.query,
        admin,
        version,
        case.staple.place,
        found,
    ))
}

/// The version that is wanted of an administrator, or else the one that the server knows.
fn version_used<L: LockTable + Drop>(
    server: &Server<L>,
    want: &[(AdminId, Version)],
    admin: AdminId,
) -> Version
    ensures { result ≡ verdicts.version_used server.now want.now admin }
{
    match wanted_for(want, admin) {
        None => server.store.newest(admin),
        Some((_, version)) => version,
    }
}

fn wanted_for(want: &[(AdminId, Version)], admin: AdminId) -> Option<(AdminId, Version)>
    ensures { result ≡ find (is_for admin) want.now }
{
    want.iter().copied().find(|wanted| wanted.0 == admin)
}

/// A verdict by a certificate; without one it is false.
fn verdict_of(
    alloc: Global,
    server: ServerId,
    query: u32,
    admin: AdminId,
    version: Version,
    place: Place,
    found: Option<Certificate>,
) -> Verdict
    ensures { result ≡ evaluation.verdict_of server query admin version place found }
{
    let (rule, uses) = match found {
        None => (None, List::new(alloc)),
        Some(Certificate { rule, uses }) => (Some(rule), uses),
    };
    Verdict {
        query,
        server,
        admin,
        version,
        place,
        rule,
        uses,
    }
}

/// The certificate of a query by a version of an administrator's policy, where there are such.
fn certificate_of(
    alloc: Global,
    case: &Case<'_, '_>,
    number: u32,
    admin: AdminId,
    version: Version,
) -> Result<Option<Certificate>, NoMemory>
    requires { HasFewRules case.now.scenario.now }
    ensures { IfOk result (λ found.
        found ≡ evaluation.certificate_of_version case.now.scenario.now case.now.txn.now
        case.now.staple.now number
        (authorisation.policy_at case.now.scenario.now admin version)) }
{
    let Some(policy) = policy_at(case.scenario, admin, version) else {
        return Ok(None);
    };
    let Some(query) = query_at(case.txn, number) else {
        return Ok(None);
    };
    certificate_by(alloc, case, query, policy)
}

/// The certificate of a query by a policy, where the scenario has its item.
fn certificate_by(
    alloc: Global,
    case: &Case<'_, '_>,
    query: &Query,
    policy: &Policy,
) -> Result<Option<Certificate>, NoMemory>
    requires { length policy.now.rules < 2 ^ 32 }
    ensures { IfOk result (λ found.
        found ≡ evaluation.certificate_of_query case.now.scenario.now case.now.txn.now
        case.now.staple.now (Some query.now) policy.now) }
{
    let Some(item) = case.scenario.items.get(item_of(query).0 as usize) else {
        return Ok(None);
    };
    let held = Evidence {
        creds: case.scenario.creds.as_slice(),
        subject: &case.txn.subject,
        presented: case.txn.creds.as_slice(),
        clock: case.staple.clock,
        revoked: case.staple.revoked.as_slice(),
        said: case.said,
    };
    certify(alloc, &held, policy, action_of(query), &item.name)
}

pub fn admin_of(scenario: &Scenario, item: ItemId) -> AdminId
    ensures { result ≡ verdicts.admin_of scenario.now item }
{
    match scenario.items.get(item.0 as usize) {
        None => AdminId(0),
        Some(found) => found.admin,
    }
}
