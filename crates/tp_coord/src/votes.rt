//! A coordinator's replies from servers: votes, in a round at commit or without an evaluation, and verdicts on the queries so far.
ghost use Rattle.std.specs.Prelude.{◌≡◌, Some, IfOk};
ghost use Rattle.tp_model.specs.Words.vote;
ghost use Rattle.tp_types.specs.Effect.{Gives};
ghost use Rattle.tp_coord.specs.Row as row;

use crate::coordinator::{Coordinator, Phase, Span};
use crate::decisions::without;
use crate::rounds::counts;
use std::alloc::Global;
use std::mem;
use tp_scheme::Point;
use tp_types::{
    Actor, Body, Cause, Letter, List, No, NoMemory, OutOfRange, PrepareRequest, Reaction, Scenario,
    ServerId, Spare, TryClone, Verdict, VerdictsReply, Vote, VoteReply, both, ignored, nothing,
};

impl Coordinator {
    /// Each query was proved as it ran: all servers are asked to prepare without an evaluation.
    pub(crate) fn asks_votes(&mut self, alloc: Global) -> Result<Reaction, NoMemory>
        ensures { IfOk result (λ reaction. Gives (row.asks_votes self.old) self.new reaction) }
    {
        let turn = self.next_turn();
        let letters = self.vote_letters(alloc, turn, self.servers.as_slice());
        let (letters, awaited) = both(letters, self.servers.try_clone(alloc))?;
        self.awaits(Phase::Voting { awaited });
        Ok(Reaction {
            append: None,
            letters,
        })
    }

    pub(crate) fn vote_letters(
        &self,
        alloc: Global,
        turn: u32,
        servers: &[ServerId],
    ) -> Result<List<Letter>, NoMemory>
        ensures { IfOk result (λ letters.
            letters ≡ row.vote_letters self.now turn servers.now) }
    {
        let mut letters = List::from_vec(Vec::with_capacity(alloc, servers.len())?);
        for server in servers {
            letters.push(self.vote_letter(alloc, turn, *server))?;
        }
        Ok(letters)
    }

    fn vote_letter(&self, alloc: Global, turn: u32, server: ServerId) -> Letter
        ensures { result ≡ row.vote_letter self.now turn server }
    {
        let prepare = PrepareRequest {
            txn: self.txn,
            turn,
            epoch: self.epoch_of(server),
            staple: None,
            want: List::new(alloc),
        };
        self.request(server, Body::Prepare(prepare))
    }

    pub(crate) fn on_vote(
        &mut self,
        spare: &mut Spare<Letter>,
        scenario: &Scenario,
        from: Actor,
        reply: &VoteReply,
    ) -> Result<Reaction, NoMemory>
        ensures { IfOk result (λ reaction.
            Gives (row.on_vote scenario.now self.old self.old.phase from reply.now)
            self.new reaction) }
    {
        let alloc = spare.alloc();
        let Actor::Server(server) = from else {
            return Ok(ignored(alloc));
        };
        if reply.turn != self.turn || !awaits_vote(&self.phase, server) {
            return Ok(ignored(alloc));
        }
        match &reply.vote {
            Vote::Yes(verdicts) => self.on_yes(spare, scenario, server, verdicts),
            Vote::No(why) => self.on_no(alloc, server, *why),
        }
    }

    /// A vote YES of a server that is awaited comes into its round, or leaves others to be awaited.
    fn on_yes(
        &mut self,
        spare: &mut Spare<Letter>,
        scenario: &Scenario,
        server: ServerId,
        verdicts: &List<Verdict>,
    ) -> Result<Reaction, NoMemory>
        ensures { IfOk result (λ reaction.
            Gives
            (row.vote_at scenario.now self.old self.old.phase server (vote.Yes verdicts.now))
            self.new reaction) }
    {
        let alloc = spare.alloc();
        match &mut self.phase {
            Phase::Checking {
                span: Span::Commit,
                round,
                staple: _,
            } => {
                counts(alloc, round, server, verdicts)?;
                self.counted(spare, scenario)
            }
            Phase::Voting { awaited } => {
                let left = without(mem::replace(awaited, List::new(alloc)), server);
                self.votes_left(spare, scenario, left)
            }
            _ => Ok(ignored(alloc)),
        }
    }

    /// These servers are awaited; where none is, all have voted, and the transaction goes on.
    fn votes_left(
        &mut self,
        spare: &mut Spare<Letter>,
        scenario: &Scenario,
        awaited: List<ServerId>,
    ) -> Result<Reaction, NoMemory>
        ensures { IfOk result (λ reaction.
            Gives (row.on_votes_left scenario.now self.old awaited) self.new reaction) }
    {
        let alloc = spare.alloc();
        let have_voted = awaited.is_empty();
        self.enters(Phase::Voting { awaited });
        if !have_voted {
            return Ok(nothing(alloc));
        }
        match self.move_made(scenario, Point::Voted) {
            None => Ok(ignored(alloc)),
            Some(next) => self.makes(spare, scenario, Point::Voted, next, 0),
        }
    }

    /// A vote NO of a server that is awaited ends the transaction at once.
    fn on_no(&mut self, alloc: Global, server: ServerId, why: No) -> Result<Reaction, NoMemory>
        ensures { IfOk result (λ reaction. Gives (row.on_no self.old server why) self.new reaction) }
    {
        match why {
            No::Range { query, value } => self.aborts(
                alloc,
                Cause::No(OutOfRange {
                    query,
                    server,
                    value,
                }),
            ),
            No::Restarted => self.aborts(alloc, Cause::Restarted { server }),
        }
    }

    pub(crate) fn on_verdicts(
        &mut self,
        spare: &mut Spare<Letter>,
        scenario: &Scenario,
        from: Actor,
        reply: &VerdictsReply,
    ) -> Result<Reaction, NoMemory>
        ensures { IfOk result (λ reaction.
            Gives (row.on_verdicts scenario.now self.old self.old.phase from reply.now)
            self.new reaction) }
    {
        let alloc = spare.alloc();
        let Actor::Server(server) = from else {
            return Ok(ignored(alloc));
        };
        if reply.turn != self.turn || !awaits_verdicts(&self.phase, server) {
            return Ok(ignored(alloc));
        }
        match &reply.verdicts {
            None => self.aborts(alloc, Cause::Restarted { server }),
            Some(verdicts) => self.on_proofs(spare, scenario, server, verdicts),
        }
    }

    /// The verdicts of a server that is awaited come into its round.
    fn on_proofs(
        &mut self,
        spare: &mut Spare<Letter>,
        scenario: &Scenario,
        server: ServerId,
        verdicts: &List<Verdict>,
    ) -> Result<Reaction, NoMemory>
        ensures { IfOk result (λ reaction.
            Gives
            (row.verdicts_at scenario.now self.old self.old.phase server (Some verdicts.now))
            self.new reaction) }
    {
        let alloc = spare.alloc();
        match &mut self.phase {
            Phase::Checking {
                span: Span::Validate { .. },
                round,
                staple: _,
            } => {
                counts(alloc, round, server, verdicts)?;
                self.counted(spare, scenario)
            }
            _ => Ok(ignored(alloc)),
        }
    }
}

fn awaits_vote(phase: &Phase, server: ServerId) -> bool
    ensures { result ≡ row.awaits_vote phase.now server }
{
    match phase {
        Phase::Checking {
            span: Span::Commit,
            round,
            staple: _,
        } => round.awaits(server),
        Phase::Voting { awaited } => is_among(awaited.as_slice(), server),
        _ => false,
    }
}

fn is_among(awaited: &[ServerId], server: ServerId) -> bool
    ensures { result ≡ row.is_among awaited.now server }
{
    awaited.iter().any(|other| other.0 == server.0)
}

fn awaits_verdicts(phase: &Phase, server: ServerId) -> bool
    ensures { result ≡ row.awaits_verdicts phase.now server }
{
    match phase {
        Phase::Checking {
            span: Span::Validate { .. },
            round,
            staple: _,
        } => round.awaits(server),
        _ => false,
    }
}
