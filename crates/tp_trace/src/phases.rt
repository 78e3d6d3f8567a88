//! What coordinators await, as words.
ghost use Rattle.std.specs.Prelude.{◌≡◌, ◌++◌, IfOk, OnOk, codes};
ghost use Rattle.std.specs.Option.{option_copied};
ghost use Rattle.tp_report.specs.ReportText.{outcome_word};
ghost use Rattle.tp_coord.specs.Row.{home_of};
ghost use Rattle.tp_round.specs.Judge as judge;
ghost use Rattle.tp_trace.specs.Phases as phases;
ghost use Rattle.tp_trace.specs.mirrors.Offices as offices;

use crate::words::put_joined;
use std::alloc::Global;
use tp_coord::{Coordinator, Phase, Span};
use tp_report::piece::{put, put_after, put_server};
use tp_round::Round;
use tp_types::{List, NoMemory, Outcome, Scenario, ServerId, TxnId};

/// What a coordinator awaits, or that it is down.
pub(crate) fn awaits(
    alloc: Global,
    scenario: &Scenario,
    up: Option<&Coordinator>,
) -> Result<List<u8>, NoMemory>
    ensures { IfOk result (λ text.
        text ≡ phases.awaits_text scenario.now (option_copied up.entry)) }
{
    let mut out = Vec::new(alloc);
    put_awaits(&mut out, alloc, scenario, up)?;
    Ok(List::from_vec(out))
}

fn put_awaits(
    out: &mut Vec<u8>,
    alloc: Global,
    scenario: &Scenario,
    up: Option<&Coordinator>,
) -> Result<(), NoMemory>
    ensures { OnOk result
        (out.new.items
        ≡ out.old.items ++ phases.awaits_text scenario.now (option_copied up.entry)) }
{
    match up {
        None => put(out, b"down"),
        Some(coordinator) => put_phase(out, alloc, scenario, coordinator),
    }
}

fn put_phase(
    out: &mut Vec<u8>,
    alloc: Global,
    scenario: &Scenario,
    coordinator: &Coordinator,
) -> Result<(), NoMemory>
    ensures { OnOk result
        (out.new.items
        ≡ out.old.items
        ++ phases.phase_words scenario.now coordinator.now coordinator.now.phase) }
{
    let turn = coordinator.turn;
    match &coordinator.phase {
        Phase::Idle => put(out, b"idle"),
        Phase::Stapling { query } => { put_asked(out, Office::Authority, turn, u64::from(*query)) }
        Phase::Querying { query, .. } => put_querying(out, scenario, coordinator, *query),
        Phase::Probing { query } => put_asked(out, Office::Master, turn, u64::from(*query)),
        Phase::Asking { span, round } => {
            put_in_round(out, Office::Authority, scenario, coordinator, *span, round)
        }
        Phase::Checking { span, round, .. } => {
            put_checking(out, alloc, scenario, coordinator, *span, round)
        }
        Phase::Reading { span, round } => {
            put_in_round(out, Office::Master, scenario, coordinator, *span, round)
        }
        Phase::Voting { awaited } => put_voting(out, scenario, coordinator, awaited),
        Phase::VoteProbing => {
            let query = queries_of(scenario, coordinator.txn);
            put_asked(out, Office::Master, turn, query)
        }
        Phase::Ending { outcome, awaited } => put_ending(out, scenario, *outcome, awaited),
    }
}

/// The number of a transaction's queries.
fn queries_of(scenario: &Scenario, txn: TxnId) -> u64
    ensures { result ≡ phases.queries_of scenario.now txn }
{
    match scenario.txns.get(txn.0 as usize) {
        None => 0,
        Some(found) => found.queries.len() as u64,
    }
}

/// The last query that a round is over.
fn last_query(scenario: &Scenario, txn: TxnId, span: Span) -> u64
    ensures { result ≡ phases.last_query scenario.now txn span }
{
    match span {
        Span::Validate { query } => u64::from(query),
        Span::Commit => queries_of(scenario, txn),
    }
}

fn put_turn(out: &mut Vec<u8>, turn: u32, query: u64) -> Result<(), NoMemory>
    ensures { OnOk result (out.new.items ≡ out.old.items ++ phases.turn_words turn query) }
{
    put_after(out, b" turn=", turn)?;
    put_after(out, b" q=", query)
}

/// The office of which something is asked.
#[derive(Clone, Copy)]
enum Office {
    Authority,
    Master,
}

/// What is done while the office is awaited.
fn office_verb(office: Office) -> &'static [u8]
    ensures { result.now ≡ offices.office_verb office }
{
    match office {
        Office::Authority => b"asking",
        Office::Master => b"reading",
    }
}

fn office_awaited(office: Office) -> &'static [u8]
    ensures { result.now ≡ offices.office_awaited office }
{
    match office {
        Office::Authority => b" awaits=Authority",
        Office::Master => b" awaits=Master",
    }
}

/// Puts what is asked of an office with the turn and the query.
fn put_asked(out: &mut Vec<u8>, office: Office, turn: u32, query: u64) -> Result<(), NoMemory>
    ensures { OnOk result
        (out.new.items
        ≡ out.old.items
        ++ (offices.office_verb office ++ phases.turn_words turn query
        ++ offices.office_awaited office)) }
{
    put(out, office_verb(office))?;
    put_turn(out, turn, query)?;
    put(out, office_awaited(office))
}

/// Puts the turn, the last query and the number of a round.
fn put_round(
    out: &mut Vec<u8>,
    scenario: &Scenario,
    coordinator: &Coordinator,
    span: Span,
    round: &Round,
) -> Result<(), NoMemory>
    ensures { OnOk result
        (out.new.items
        ≡ out.old.items ++ phases.round_words scenario.now coordinator.now span round.now) }
{
    let query = last_query(scenario, coordinator.txn, span);
    put_turn(out, coordinator.turn, query)?;
    put_after(out, b" round=", round.number)
}

/// Puts what is asked of an office in a round.
fn put_in_round(
    out: &mut Vec<u8>,
    office: Office,
    scenario: &Scenario,
    coordinator: &Coordinator,
    span: Span,
    round: &Round,
) -> Result<(), NoMemory>
    ensures { OnOk result
        (out.new.items
        ≡ out.old.items
        ++ (offices.office_verb office
        ++ phases.round_words scenario.now coordinator.now span round.now
        ++ offices.office_awaited office)) }
{
    put(out, office_verb(office))?;
    put_round(out, scenario, coordinator, span, round)?;
    put(out, office_awaited(office))
}

fn put_querying(
    out: &mut Vec<u8>,
    scenario: &Scenario,
    coordinator: &Coordinator,
    query: u32,
) -> Result<(), NoMemory>
    ensures { OnOk result
        (out.new.items
        ≡ out.old.items
        ++ (codes "querying" ++ phases.turn_words coordinator.now.turn query
        ++ phases.home_awaited scenario.now (home_of scenario.now coordinator.now query))) }
{
    put(out, b"querying")?;
    put_turn(out, coordinator.turn, u64::from(query))?;
    put_home(out, scenario, coordinator.home_of(scenario, query))
}

/// Puts the server of a query as the one that is awaited.
fn put_home(out: &mut Vec<u8>, scenario: &Scenario, home: Option<ServerId>) -> Result<(), NoMemory>
    ensures { OnOk result
        (out.new.items ≡ out.old.items ++ phases.home_awaited scenario.now home) }
{
    match home {
        None => put(out, b" awaits=-"),
        Some(at) => {
            put(out, b" awaits=")?;
            put_server(out, scenario, at)
        }
    }
}

/// Puts the servers that are awaited.
fn put_servers(
    out: &mut Vec<u8>,
    scenario: &Scenario,
    servers: &List<ServerId>,
) -> Result<(), NoMemory>
    ensures { OnOk result
        (out.new.items ≡ out.old.items ++ phases.servers_awaited scenario.now servers.now) }
{
    put(out, b" awaits=")?;
    put_joined(out, scenario, servers.as_slice())
}

fn put_checking(
    out: &mut Vec<u8>,
    alloc: Global,
    scenario: &Scenario,
    coordinator: &Coordinator,
    span: Span,
    round: &Round,
) -> Result<(), NoMemory>
    ensures { OnOk result
        (out.new.items
        ≡ out.old.items
        ++ (codes "checking" ++ phases.round_words scenario.now coordinator.now span round.now
        ++ phases.servers_awaited scenario.now (judge.awaited_in round.now))) }
{
    put(out, b"checking")?;
    put_round(out, scenario, coordinator, span, round)?;
    let missing = awaited_in(alloc, round)?;
    put_servers(out, scenario, &missing)
}

/// The servers of a round whose replies are awaited.
fn awaited_in(alloc: Global, round: &Round) -> Result<List<ServerId>, NoMemory>
    ensures { IfOk result (λ missing. missing ≡ judge.awaited_in round.now) }
{
    let mut missing = List::new(alloc);
    for target in round.targets.as_slice() {
        if target.reply.is_none() {
            missing.push(target.server)?;
        }
    }
    Ok(missing)
}

fn put_voting(
    out: &mut Vec<u8>,
    scenario: &Scenario,
    coordinator: &Coordinator,
    awaited: &List<ServerId>,
) -> Result<(), NoMemory>
    ensures { OnOk result
        (out.new.items
        ≡ out.old.items
        ++ (codes "voting"
        ++ phases.turn_words coordinator.now.turn
        (phases.queries_of scenario.now coordinator.now.txn)
        ++ phases.servers_awaited scenario.now awaited.now)) }
{
    put(out, b"voting")?;
    put_turn(out, coordinator.turn, queries_of(scenario, coordinator.txn))?;
    put_servers(out, scenario, awaited)
}

fn put_ending(
    out: &mut Vec<u8>,
    scenario: &Scenario,
    outcome: Outcome,
    awaited: &List<ServerId>,
) -> Result<(), NoMemory>
    ensures { OnOk result
        (out.new.items
        ≡ out.old.items ++ phases.ending_words scenario.now outcome awaited.now) }
{
    if awaited.is_empty() {
        return put(out, b"finished");
    }
    put_outcome(out, outcome)?;
    put_servers(out, scenario, awaited)
}

/// Puts that a decision was sent.
fn put_outcome(out: &mut Vec<u8>, outcome: Outcome) -> Result<(), NoMemory>
    ensures { OnOk result
        (out.new.items ≡ out.old.items ++ (codes "ending outcome=" ++ outcome_word outcome)) }
{
    match outcome {
        Outcome::Commit => put(out, b"ending outcome=commit"),
        Outcome::Abort => put(out, b"ending outcome=abort"),
    }
}
