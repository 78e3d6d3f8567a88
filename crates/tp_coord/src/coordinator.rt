//! A coordinator: its state, and which of its rows a mail calls for.
ghost use Rattle.std.specs.Prelude.{◌≡◌, ◌<◌, ◌^◌, length, IfOk};
ghost use Rattle.std.specs.Option.{option_copied};
ghost use Rattle.tp_types.specs.Effect.{Gives};
ghost use Rattle.tp_coord.specs.Opened as opened;
ghost use Rattle.tp_coord.specs.Row as row;

use std::alloc::Global;
use std::marker::Model;
use tp_model::{item_of, query_at, servers_of};
use tp_round::Round;
use tp_scheme::{Gathered, Move, Point};
use tp_types::{
    Actor, Body, Deed, Letter, List, Mail, NoMemory, Outcome, Place, Query, Reaction, Scenario,
    ServerId, Spare, Staple, TxnId, both, ignored, none_for_each,
};

/// What a round is over.
#[derive(Clone, Copy)]
pub enum Span {
    /// The queries up to this one, which have run.
    Validate { query: u32 },
    /// All queries, at commit: the servers are asked to prepare.
    Commit,
}

/// What a coordinator awaits: its whole outstanding request.
/// A repeat of the request can be made from the phase alone.
#[derive(Drop)]
pub enum Phase {
    Idle,
    /// The authority was asked before a query.
    Stapling {
        query: u32,
    },
    /// A query was sent to its server, with the staple if there was one.
    Querying {
        query: u32,
        staple: Option<Staple>,
    },
    /// The master was asked after a query ran.
    Probing {
        query: u32,
    },
    /// The authority was asked before a round.
    Asking {
        span: Span,
        round: Round,
    },
    /// The servers of a round were asked, with a staple.
    Checking {
        span: Span,
        round: Round,
        staple: Staple,
    },
    /// All servers of a round have replied, and the master was asked.
    Reading {
        span: Span,
        round: Round,
    },
    /// The servers were asked to prepare without an evaluation; these have not voted.
    Voting {
        awaited: List<ServerId>,
    },
    /// All servers have voted so, and the master was asked.
    VoteProbing,
    /// The decision was sent; these servers have not acknowledged it.
    Ending {
        outcome: Outcome,
        awaited: List<ServerId>,
    },
}

/// A coordinator's state while it is up.
#[derive(Drop)]
pub struct Coordinator {
    pub txn: TxnId,
    /// The servers of the transaction's queries, in order of number.
    pub servers: List<ServerId>,
    /// The place of the submission, once there was one.
    pub age: Option<Place>,
    /// The number of requests so far, repeats not counted.
    pub turn: u32,
    /// The epoch of each server of the scenario, as its last reply told it.
    pub epochs: List<Option<u64>>,
    pub deeds: List<Deed>,
    /// The proofs so far, where each query is proved as it runs, and the instances that agreed so far.
    pub gathered: Gathered,
    pub phase: Phase,
}

impl Model for Coordinator {
    ghost use Rattle.tp_coord.specs.State as state;

    ghost Value = { state.Coordinator };

    ghost view = { λ c. record {
      txn = c.txn;
      servers = c.servers;
      age = c.age;
      turn = c.turn;
      epochs = c.epochs;
      deeds = c.deeds;
      gathered = c.gathered.proofs;
      instances = c.gathered.instances;
      phase = c.phase;
    } };
}

impl Coordinator {
    /// A coordinator before its transaction is submitted.
    pub fn idle(alloc: Global, scenario: &Scenario, txn: TxnId) -> Result<Coordinator, NoMemory>
        requires { length scenario.now.servers < 2 ^ 32 }
        ensures { IfOk result (λ made. made ≡ opened.idle scenario.now txn) }
    {
        let told = none_for_each(alloc, scenario.servers.len());
        let (servers, epochs) = both(servers_at(alloc, scenario, txn), told)?;
        Ok(Coordinator {
            txn,
            servers,
            age: None,
            turn: 0,
            epochs,
            deeds: List::new(alloc),
            gathered: Gathered::new(alloc),
            phase: Phase::Idle,
        })
    }

    /// What the submission of the transaction does. After NoMemory nothing is said of the state.
    pub fn submit(
        &mut self,
        spare: &mut Spare<Letter>,
        scenario: &Scenario,
    ) -> Result<Reaction, NoMemory>
        ensures { IfOk result (λ reaction.
            Gives (row.submit_row scenario.now self.old) self.new reaction) }
    {
        match self.move_at(scenario, Point::Begun { query: 1 }) {
            Move::SendQuery => self.sends_next(spare, scenario, 1, None),
            Move::Ask => self.asks_in(spare, Phase::Stapling { query: 1 }),
            _ => Ok(ignored(spare.alloc())),
        }
    }

    /// Tells the place of the submission, once it is known.
    pub fn placed(&mut self, place: Place)
        ensures { self.new ≡ row.coordinator_with_age self.old place }
    {
        self.age = Some(place);
    }

    /// Whether the transaction was submitted.
    pub fn begun(&self) -> bool
        ensures { result ≡ row.is_begun self.now.phase }
    {
        !matches!(self.phase, Phase::Idle)
    }

    /// Whether the transaction is submitted, and some server has not acknowledged its end.
    pub fn armed(&self) -> bool
        ensures { result ≡ row.is_armed self.now }
    {
        self.begun() && !is_done(&self.phase)
    }

    /// What the coordinator does on receipt of a mail. After NoMemory nothing is said of the state.
    pub fn receive(
        &mut self,
        spare: &mut Spare<Letter>,
        scenario: &Scenario,
        mail: &Mail,
    ) -> Result<Reaction, NoMemory>
        ensures { IfOk result (λ reaction.
            Gives (row.coordinator_row scenario.now self.old mail.now) self.new reaction) }
    {
        let alloc = spare.alloc();
        let from = mail.letter.from;
        match &mail.letter.body {
            Body::Done(done) => self.on_done(spare, scenario, mail.sent, from, done),
            Body::Tell(tell) => self.on_tell(spare, scenario, mail.sent, tell),
            Body::Verdicts(reply) => self.on_verdicts(spare, scenario, from, reply),
            Body::Vote(reply) => self.on_vote(spare, scenario, from, reply),
            Body::Newest(reply) => self.on_newest(spare, scenario, mail.sent, reply),
            Body::Ack(_) => self.on_ack(alloc, from),
            Body::Inquire(_) => self.on_inquire(spare, from),
            _ => Ok(ignored(alloc)),
        }
    }

    pub(crate) fn query_of<'a>(&self, scenario: &'a Scenario, number: u32) -> Option<&'a Query>
        ensures { option_copied result ≡ row.own_query scenario.now self.now number }
    {
        match scenario.txns.get(self.txn.0 as usize) {
            None => None,
            Some(txn) => query_at(txn, number),
        }
    }

    /// The server of the transaction's query of this number.
    pub fn home_of(&self, scenario: &Scenario, number: u32) -> Option<ServerId>
        ensures { result ≡ row.home_of scenario.now self.now number }
    {
        match self.query_of(scenario, number) {
            None => None,
            Some(query) => server_of(scenario, query),
        }
    }

    pub(crate) fn request(&self, server: ServerId, body: Body) -> Letter
        ensures { result ≡ row.request self.now server body }
    {
        Letter {
            from: Actor::Coordinator(self.txn),
            to: Actor::Server(server),
            body,
        }
    }

    pub(crate) fn next_turn(&self) -> u32
        ensures { result ≡ row.next_turn self.now }
    {
        self.turn.saturating_add(1)
    }

    #[inline(always)]
    pub(crate) fn enters(&mut self, phase: Phase)
        ensures { self.new ≡ record self.old { phase = phase } }
    {
        self.phase = phase;
    }

    /// Begins a request, whose replies the phase awaits.
    #[inline(always)]
    pub(crate) fn awaits(&mut self, phase: Phase)
        ensures { self.new ≡ record self.old { turn = row.next_turn self.old; phase = phase } }
    {
        self.turn = self.next_turn();
        self.enters(phase);
    }

    /// The epoch that a server has told the transaction, if it has told one.
    pub(crate) fn epoch_told(&self, server: ServerId) -> Option<u64>
        ensures { result ≡ row.epoch_told self.now server }
    {
        match self.epochs.get(server.0 as usize) {
            Some(told) => *told,
            None => None,
        }
    }
}

fn servers_at(alloc: Global, scenario: &Scenario, txn: TxnId) -> Result<List<ServerId>, NoMemory>
    requires { length scenario.now.servers < 2 ^ 32 }
    ensures { IfOk result (λ made. made ≡ opened.servers_at scenario.now txn) }
{
    match scenario.txns.get(txn.0 as usize) {
        None => Ok(List::new(alloc)),
        Some(found) => servers_of(alloc, scenario, found),
    }
}

pub(crate) fn server_of(scenario: &Scenario, query: &Query) -> Option<ServerId>
    ensures { result ≡ row.server_of scenario.now query.now }
{
    match scenario.items.get(item_of(query).0 as usize) {
        None => None,
        Some(item) => Some(item.server),
    }
}

/// Whether all servers have acknowledged the end.
fn is_done(phase: &Phase) -> bool
    ensures { result ≡ row.is_done phase.now }
{
    match phase {
        Phase::Ending {
            outcome: _,
            awaited,
        } => awaited.is_empty(),
        _ => false,
    }
}
