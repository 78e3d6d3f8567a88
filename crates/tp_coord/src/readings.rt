//! A coordinator's readings of the master: after a query that was proved as it ran, after the votes, and where a round reads it.
ghost use Rattle.std.specs.Prelude.{◌≡◌, IfOk};
ghost use Rattle.tp_types.specs.Effect.{Gives};
ghost use Rattle.tp_coord.specs.Row as row;

use crate::coordinator::{Coordinator, Phase};
use std::alloc::Global;
use tp_scheme::Point;
use tp_types::{
    Actor, Body, Letter, NewestReply, NoMemory, Place, ProbeRequest, Reaction, Reading, Scenario,
    Spare, TryClone, ignored, sent_alone,
};

impl Coordinator {
    pub(crate) fn probe_letter(&self, turn: u32) -> Letter
        ensures { result ≡ row.probe_letter self.now turn }
    {
        Letter {
            from: Actor::Coordinator(self.txn),
            to: Actor::Master,
            body: Body::Probe(ProbeRequest {
                txn: self.txn,
                turn,
            }),
        }
    }

    /// The master is asked for the newest versions, which the phase awaits.
    pub(crate) fn probes(
        &mut self,
        spare: &mut Spare<Letter>,
        phase: Phase,
    ) -> Result<Reaction, NoMemory>
        ensures { IfOk result (λ reaction. Gives (row.probes self.old phase) self.new reaction) }
    {
        let letter = self.probe_letter(self.next_turn());
        self.awaits(phase);
        sent_alone(spare, letter)
    }

    pub(crate) fn on_newest(
        &mut self,
        spare: &mut Spare<Letter>,
        scenario: &Scenario,
        sent: Place,
        reply: &NewestReply,
    ) -> Result<Reaction, NoMemory>
        ensures { IfOk result (λ reaction.
            Gives (row.on_newest scenario.now self.old self.old.phase sent reply.now)
            self.new reaction) }
    {
        let alloc = spare.alloc();
        if reply.turn != self.turn {
            return Ok(ignored(alloc));
        }
        let reading = reading_of(alloc, sent, reply)?;
        let reaction = self.on_reading(spare, scenario, &reading);
        drop(reading);
        reaction
    }

    /// The master was read: after a query, after the votes, or after the replies of a round.
    fn on_reading(
        &mut self,
        spare: &mut Spare<Letter>,
        scenario: &Scenario,
        reading: &Reading,
    ) -> Result<Reaction, NoMemory>
        ensures { IfOk result (λ reaction.
            Gives (row.on_reading scenario.now self.old self.old.phase reading.now)
            self.new reaction) }
    {
        match &self.phase {
            Phase::Probing { query } => {
                let at = Point::Read { query: *query };
                self.proofs_read(spare, scenario, at, reading)
            }
            Phase::VoteProbing => self.proofs_read(spare, scenario, Point::VoteRead, reading),
            _ => self.round_read(spare, scenario, reading),
        }
    }

    /// The master was read after the replies of a round.
    fn round_read(
        &mut self,
        spare: &mut Spare<Letter>,
        scenario: &Scenario,
        reading: &Reading,
    ) -> Result<Reaction, NoMemory>
        ensures { IfOk result (λ reaction.
            Gives (row.on_round_read scenario.now self.old self.old.phase reading.now)
            self.new reaction) }
    {
        let alloc = spare.alloc();
        match &mut self.phase {
            Phase::Reading { span: _, round } => {
                let answer = round.judge(alloc, Some(reading))?;
                self.follows(spare, scenario, answer, Some(reading))
            }
            _ => Ok(ignored(alloc)),
        }
    }

    /// Where a proof so far is older than the newest version the transaction aborts; else all of them are an instance,
    /// and it goes on.
    fn proofs_read(
        &mut self,
        spare: &mut Spare<Letter>,
        scenario: &Scenario,
        at: Point,
        reading: &Reading,
    ) -> Result<Reaction, NoMemory>
        ensures { IfOk result (λ reaction.
            Gives (row.on_proofs_read scenario.now self.old at reading.now) self.new reaction) }
    {
        let alloc = spare.alloc();
        if let Some(why) = self.gathered.older(reading) {
            return self.aborts(alloc, why);
        }
        let Some(next) = self.move_made(scenario, at) else {
            return Ok(ignored(alloc));
        };
        self.gathered.close(alloc, Some(reading.place))?;
        self.makes(spare, scenario, at, next, 0)
    }
}

/// What the master told, at the place where it was sent.
fn reading_of(alloc: Global, sent: Place, reply: &NewestReply) -> Result<Reading, NoMemory>
    ensures { IfOk result (λ reading. reading ≡ row.reading_of reply.now sent) }
{
    Ok(Reading {
        place: sent,
        newest: reply.newest.try_clone(alloc)?,
    })
}
