//! A coordinator's queries: each is sent to the server of its item, and what its answer brings is kept.
ghost use Rattle.std.specs.Prelude.{◌≡◌, IfOk, OnOk};
ghost use Rattle.tp_coord.specs.declared.coordinator.Phase.TheVariants as Phase;
ghost use Rattle.tp_model.specs.Levels.{is_global};
ghost use Rattle.tp_model.specs.Words.body;
ghost use Rattle.tp_scheme.specs.declared.moves.Point.TheVariants as Point;
ghost use Rattle.tp_types.specs.Effect.{Gives};
ghost use Rattle.tp_coord.specs.Row as row;

use crate::coordinator::{Coordinator, Phase, server_of};
use crate::decisions::denied_by;
use crate::sums::asked_value;
use std::alloc::Global;
use tp_model::{deed_of, is_global, item_of};
use tp_scheme::Point;
use tp_types::{
    Actor, Answer, Body, Cause, Died, DoneReply, Instance, Letter, List, NoMemory, Place, Query,
    QueryRequest, Reaction, Scenario, Scheme, ServerId, Spare, Staple, TryClone, Verdict, Version,
    ignored, sent_alone,
};

impl Coordinator {
    /// A query is sent, with the staple if it is proved as it runs, where it has a server.
    pub(crate) fn sends_next(
        &mut self,
        spare: &mut Spare<Letter>,
        scenario: &Scenario,
        number: u32,
        staple: Option<Staple>,
    ) -> Result<Reaction, NoMemory>
        ensures { IfOk result (λ reaction.
            Gives
            (row.sends_next scenario.now self.old number staple
            (row.home_of scenario.now self.old number))
            self.new reaction) }
    {
        match self.home_of(scenario, number) {
            None => Ok(ignored(spare.alloc())),
            Some(server) => self.sends_query(spare, scenario, number, staple, server),
        }
    }

    /// The value that a query is asked with: a write's sum over what was read.
    pub(crate) fn value_of(&self, scenario: &Scenario, number: u32) -> Option<i128>
        ensures { result ≡ row.value_of scenario.now self.now number }
    {
        match scenario.txns.get(self.txn.0 as usize) {
            Some(txn) => asked_value(txn, self.deeds.as_slice(), number),
            None => None,
        }
    }

    /// The version that a query is to be proved by, if a gathered proof has pinned one.
    fn pin_for(&self, scenario: &Scenario, number: u32) -> Option<Version>
        ensures { result ≡ row.pin_for scenario.now self.now number }
    {
        let Some(query) = self.query_of(scenario, number) else {
            return None;
        };
        match scenario.items.get(item_of(query).0 as usize) {
            None => None,
            Some(item) => self.gathered.pin_of(item.admin),
        }
    }

    fn sends_query(
        &mut self,
        spare: &mut Spare<Letter>,
        scenario: &Scenario,
        number: u32,
        staple: Option<Staple>,
        server: ServerId,
    ) -> Result<Reaction, NoMemory>
        ensures { IfOk result (λ reaction.
            Gives (row.sends_query scenario.now self.old number staple server) self.new reaction) }
    {
        let turn = self.next_turn();
        let letter = self.query_letter(spare.alloc(), scenario, turn, server, number, &staple)?;
        self.awaits(Phase::Querying {
            query: number,
            staple,
        });
        sent_alone(spare, letter)
    }

    pub(crate) fn query_letter(
        &self,
        alloc: Global,
        scenario: &Scenario,
        turn: u32,
        server: ServerId,
        number: u32,
        staple: &Option<Staple>,
    ) -> Result<Letter, NoMemory>
        ensures { IfOk result (λ letter.
            letter ≡ row.request self.now server
            (body.Query (row.query_request scenario.now self.now turn server number staple.now))) }
    {
        let staple = staple.try_clone(alloc)?;
        let query = QueryRequest {
            txn: self.txn,
            turn,
            query: number,
            age: self.age,
            epoch: self.epoch_told(server),
            value: self.value_of(scenario, number),
            staple,
            pin: self.pin_for(scenario, number),
        };
        Ok(self.request(server, Body::Query(query)))
    }

    pub(crate) fn on_done(
        &mut self,
        spare: &mut Spare<Letter>,
        scenario: &Scenario,
        sent: Place,
        from: Actor,
        done: &DoneReply,
    ) -> Result<Reaction, NoMemory>
        ensures { IfOk result (λ reaction.
            Gives
            (row.on_done scenario.now self.old self.old.phase sent from done.now)
            self.new reaction) }
    {
        let alloc = spare.alloc();
        if !self.awaits_query(done) {
            return Ok(ignored(alloc));
        }
        let Some(query) = self.query_of(scenario, done.query) else {
            return Ok(ignored(alloc));
        };
        match server_of(scenario, query) {
            Some(server) if is_from(from, server) => {
                self.answered(spare, scenario, sent, server, done, query)
            }
            _ => Ok(ignored(alloc)),
        }
    }

    fn awaits_query(&self, done: &DoneReply) -> bool
        ensures { result ≡ row.awaits_query self.now self.now.phase done.now }
    {
        match &self.phase {
            Phase::Querying { query, .. } => done.turn == self.turn && done.query == *query,
            _ => false,
        }
    }

    fn answered(
        &mut self,
        spare: &mut Spare<Letter>,
        scenario: &Scenario,
        sent: Place,
        server: ServerId,
        done: &DoneReply,
        query: &Query,
    ) -> Result<Reaction, NoMemory>
        ensures { IfOk result (λ reaction.
            Gives
            (row.on_answer scenario.now self.old
            (record { sent = sent; server = server; done = done.now; query = query.now })
            done.now.answer)
            self.new reaction) }
    {
        let alloc = spare.alloc();
        match &done.answer {
            Answer::Ran { value, verdict } => {
                self.runs_on(spare, scenario, server, done, query, *value, verdict)
            }
            Answer::Denied { verdict } => self.aborts(alloc, Cause::Denied(denied_by(verdict))),
            Answer::Newer(newer) => self.aborts(alloc, Cause::Newer(*newer)),
            Answer::Died { other } => {
                let died = Died {
                    query: done.query,
                    server,
                    other: *other,
                    place: sent,
                };
                self.aborts(alloc, Cause::Died(died))
            }
            Answer::Restarted => self.aborts(alloc, Cause::Restarted { server }),
        }
    }

    /// A query ran: the table is asked what follows before its deed and its proof are kept.
    fn runs_on(
        &mut self,
        spare: &mut Spare<Letter>,
        scenario: &Scenario,
        server: ServerId,
        done: &DoneReply,
        query: &Query,
        value: i128,
        verdict: &Option<Verdict>,
    ) -> Result<Reaction, NoMemory>
        ensures { IfOk result (λ reaction.
            Gives
            (row.goes_on scenario.now self.old
            (row.with_proof scenario.now
            (row.with_deed self.old server done.now query.now value) verdict.now)
            (Point.Ran done.now.query) 0)
            self.new reaction) }
    {
        let alloc = spare.alloc();
        let at = Point::Ran { query: done.query };
        let Some(next) = self.move_made(scenario, at) else {
            return Ok(ignored(alloc));
        };
        self.ran(alloc, server, done, query, value)?;
        self.keeps_proof(alloc, scenario, verdict)?;
        self.makes(spare, scenario, at, next, 0)
    }

    /// What a query did is kept, and the epoch of its server.
    fn ran(
        &mut self,
        alloc: Global,
        server: ServerId,
        done: &DoneReply,
        query: &Query,
        value: i128,
    ) -> Result<(), NoMemory>
        ensures { OnOk result
            (self.new ≡ row.with_deed self.old server done.now query.now value) }
    {
        self.deeds.push(deed_of(done.query, query, value))?;
        self.epochs.put(server.0 as usize, Some(done.epoch));
        Ok(())
    }

    /// The proof of a query that was proved as it ran is gathered by incremental, and under another scheme it is an
    /// instance of its own.
    fn keeps_proof(
        &mut self,
        alloc: Global,
        scenario: &Scenario,
        proof: &Option<Verdict>,
    ) -> Result<(), NoMemory>
        ensures { OnOk result (self.new ≡ row.with_proof scenario.now self.old proof.now) }
    {
        match self.scheme_at(scenario) {
            Scheme::Incremental => self.gathers(alloc, scenario, proof),
            Scheme::Deferred | Scheme::Punctual | Scheme::Continuous => {
                self.closes_own(alloc, proof)
            }
        }
    }

    /// A proof is gathered; where the master is not read an instance of all proofs so far is closed.
    fn gathers(
        &mut self,
        alloc: Global,
        scenario: &Scenario,
        proof: &Option<Verdict>,
    ) -> Result<(), NoMemory>
        ensures { OnOk result
            (self.new
            ≡ record self.old {
              gathered = row.with_gathered self.old.gathered proof.now;
              instances = row.with_all
                  (is_global (row.level_at scenario.now self.old))
                  self.old.instances self.old.gathered proof.now;
            }) }
    {
        let Some(verdict) = proof else {
            return Ok(());
        };
        self.gathered.add(verdict.try_clone(alloc)?)?;
        if is_global(self.level_at(scenario)) {
            return Ok(());
        }
        self.gathered.close(alloc, None)
    }

    fn closes_own(&mut self, alloc: Global, proof: &Option<Verdict>) -> Result<(), NoMemory>
        ensures { OnOk result
            (self.new
            ≡ record self.old { instances = row.with_own self.old.instances proof.now }) }
    {
        let Some(verdict) = proof else {
            return Ok(());
        };
        let proofs = List::of_one(alloc, verdict.try_clone(alloc)?)?;
        self.gathered.closes(Instance {
            reading: None,
            proofs,
        })
    }

    fn scheme_at(&self, scenario: &Scenario) -> Scheme
        ensures { result ≡ row.scheme_at scenario.now self.now }
    {
        match scenario.txns.get(self.txn.0 as usize) {
            None => Scheme::Deferred,
            Some(txn) => txn.scheme,
        }
    }
}

fn is_from(from: Actor, asked: ServerId) -> bool
    ensures { result ≡ row.is_from from asked }
{
    match from {
        Actor::Server(server) => server.0 == asked.0,
        _ => false,
    }
}
