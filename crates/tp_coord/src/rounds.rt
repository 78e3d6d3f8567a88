//! A coordinator's rounds of validation: the authority is asked, then the servers are to evaluate, and at commit to
//! prepare, and their replies are judged.
ghost use Rattle.std.specs.Prelude.{◌≡◌, Option, Some, None, [], filter, map, option_map, take, IfOk, OnOk};
ghost use Rattle.std.specs.List.{find};
ghost use Rattle.std.specs.Option.{option_copied};
ghost use Rattle.tp_model.specs.Ids.{same_server};
ghost use Rattle.tp_coord.specs.declared.coordinator.Phase.TheVariants as Phase;
ghost use Rattle.tp_coord.specs.declared.coordinator.Span.TheVariants as Span;
ghost use Rattle.tp_round.specs.declared.round.Wanted.{Wanted};
ghost use Rattle.tp_types.specs.Effect.{Gives};
ghost use Rattle.tp_round.specs.Judge as judge;
ghost use Rattle.tp_coord.specs.Row as row;
ghost use Rattle.tp_coord.specs.mirrors.InPlace as place;

use crate::coordinator::{Coordinator, Phase, Span};
use crate::decisions::denied_by;
use std::alloc::Global;
use std::mem;
use tp_model::has_query_at;
use tp_round::{Judged, Round, Wanted};
use tp_scheme::Point;
use tp_types::{
    Actor, AdminId, AskRequest, Body, Cause, Instance, Letter, List, NoMemory, Place,
    PrepareRequest, Query, Reaction, Reading, Scenario, ServerId, Spare, Staple, TellReply,
    Transaction, TryClone, ValidateRequest, Verdict, Version, ignored, nothing, sent_alone,
};

impl Coordinator {
    /// All queries ran: the first round at commit, of all of the transaction's servers.
    pub(crate) fn begins_rounds(
        &mut self,
        spare: &mut Spare<Letter>,
        scenario: &Scenario,
    ) -> Result<Reaction, NoMemory>
        ensures { IfOk result (λ reaction.
            Gives (row.asks self.old Span.Commit (row.commit_round scenario.now self.old)) self.new reaction) }
    {
        let round = self.round_of(spare.alloc(), scenario, self.servers.as_slice())?;
        self.asks(spare, Span::Commit, round)
    }

    /// A query ran, and all up to it are to be evaluated: the first round, of their servers.
    pub(crate) fn validates(
        &mut self,
        spare: &mut Spare<Letter>,
        scenario: &Scenario,
        query: u32,
    ) -> Result<Reaction, NoMemory>
        ensures { IfOk result (λ reaction.
            Gives
            (row.asks self.old (Span.Validate query)
            (row.validation_round scenario.now self.old query))
            self.new reaction) }
    {
        let alloc = spare.alloc();
        let servers = self.servers_upto(alloc, scenario, query)?;
        let round = self.round_of(alloc, scenario, servers.as_slice())?;
        self.asks(spare, Span::Validate { query }, round)
    }

    /// A first round of these servers.
    fn round_of(
        &self,
        alloc: Global,
        scenario: &Scenario,
        servers: &[ServerId],
    ) -> Result<Round, NoMemory>
        ensures { IfOk result (λ round. round ≡ row.round_of scenario.now self.now servers.now) }
    {
        let limit = self.limit_at(scenario);
        Round::start(alloc, servers, limit, self.level_at(scenario))
    }

    /// Of the transaction's servers, those of its queries up to this one.
    fn servers_upto(
        &self,
        alloc: Global,
        scenario: &Scenario,
        query: u32,
    ) -> Result<List<ServerId>, NoMemory>
        ensures { IfOk result (λ found. found ≡ row.servers_upto scenario.now self.now query) }
    {
        let Some(txn) = scenario.txns.get(self.txn.0 as usize) else {
            return Ok(List::new(alloc));
        };
        let asked = queries_upto(txn, query);
        let found: Vec<ServerId> = self
            .servers
            .as_slice()
            .iter()
            .copied()
            .filter(|server| has_query_at(scenario, server.0, asked))
            .collect(alloc)?;
        Ok(List::from_vec(found))
    }

    /// Before each round the authority is asked.
    pub(crate) fn asks(
        &mut self,
        spare: &mut Spare<Letter>,
        span: Span,
        round: Round,
    ) -> Result<Reaction, NoMemory>
        ensures { IfOk result (λ reaction. Gives (row.asks self.old span round) self.new reaction) }
    {
        self.asks_in(spare, Phase::Asking { span, round })
    }

    /// The authority is asked, for what the phase awaits.
    pub(crate) fn asks_in(
        &mut self,
        spare: &mut Spare<Letter>,
        phase: Phase,
    ) -> Result<Reaction, NoMemory>
        ensures { IfOk result (λ reaction. Gives (row.asks_in self.old phase) self.new reaction) }
    {
        let letter = self.ask_letter(self.next_turn());
        self.awaits(phase);
        sent_alone(spare, letter)
    }

    pub(crate) fn ask_letter(&self, turn: u32) -> Letter
        ensures { result ≡ row.ask_letter self.now turn }
    {
        Letter {
            from: Actor::Coordinator(self.txn),
            to: Actor::Authority,
            body: Body::Ask(AskRequest {
                txn: self.txn,
                turn,
            }),
        }
    }

    pub(crate) fn epoch_of(&self, server: ServerId) -> u64
        ensures { result ≡ row.epoch_of self.now server }
    {
        self.epoch_told(server).unwrap_or(0)
    }

    /// What a server of a round is asked: to evaluate the queries so far, or to prepare at commit.
    fn round_letter(
        &self,
        alloc: Global,
        span: Span,
        turn: u32,
        round: &Round,
        staple: &Staple,
        server: ServerId,
    ) -> Result<Letter, NoMemory>
        ensures { IfOk result (λ letter.
            letter ≡ row.round_letter self.now span turn round.now staple.now server) }
    {
        let staple = staple.try_clone(alloc)?;
        let want = want_for(alloc, round, server)?;
        let epoch = self.epoch_of(server);
        let txn = self.txn;
        let body = match span {
            Span::Validate { .. } => Body::Validate(ValidateRequest {
                txn,
                turn,
                epoch,
                staple,
                want,
            }),
            Span::Commit => Body::Prepare(PrepareRequest {
                txn,
                turn,
                epoch,
                staple: Some(staple),
                want,
            }),
        };
        Ok(self.request(server, body))
    }

    pub(crate) fn round_letters(
        &self,
        alloc: Global,
        span: Span,
        turn: u32,
        round: &Round,
        staple: &Staple,
    ) -> Result<List<Letter>, NoMemory>
        ensures { IfOk result (λ letters.
            letters ≡ row.round_letters self.now span turn round.now staple.now) }
    {
        let mut letters = List::from_vec(Vec::with_capacity(alloc, round.targets.len())?);
        for target in round.targets.as_slice() {
            if target.reply.is_none() {
                let letter = self.round_letter(alloc, span, turn, round, staple, target.server)?;
                letters.push(letter)?;
            }
        }
        Ok(letters)
    }

    pub(crate) fn on_tell(
        &mut self,
        spare: &mut Spare<Letter>,
        scenario: &Scenario,
        sent: Place,
        tell: &TellReply,
    ) -> Result<Reaction, NoMemory>
        ensures { IfOk result (λ reaction.
            Gives (row.on_tell scenario.now self.old self.old.phase sent tell.now) self.new reaction) }
    {
        let alloc = spare.alloc();
        if tell.turn != self.turn {
            return Ok(ignored(alloc));
        }
        if let Phase::Stapling { query } = self.phase {
            let staple = staple_of(alloc, sent, tell)?;
            return self.sends_next(spare, scenario, query, Some(staple));
        }
        match mem::replace(&mut self.phase, Phase::Idle) {
            Phase::Asking { span, round } => {
                let staple = staple_of(alloc, sent, tell)?;
                self.checks(alloc, span, round, staple)
            }
            other => {
                self.enters(other);
                Ok(ignored(alloc))
            }
        }
    }

    fn checks(
        &mut self,
        alloc: Global,
        span: Span,
        round: Round,
        staple: Staple,
    ) -> Result<Reaction, NoMemory>
        ensures { IfOk result (λ reaction.
            Gives (row.checks self.old span round staple) self.new reaction) }
    {
        let letters = self.round_letters(alloc, span, self.next_turn(), &round, &staple)?;
        self.awaits(Phase::Checking {
            span,
            round,
            staple,
        });
        Ok(Reaction {
            append: None,
            letters,
        })
    }

    /// A server that is awaited has replied: once all have, the master is read where the round reads it, and else the
    /// round is judged.
    pub(crate) fn counted(
        &mut self,
        spare: &mut Spare<Letter>,
        scenario: &Scenario,
    ) -> Result<Reaction, NoMemory>
        ensures { IfOk result (λ reaction.
            Gives (place.on_counted scenario.now self.old self.old.phase) self.new reaction) }
    {
        let alloc = spare.alloc();
        match &mut self.phase {
            Phase::Checking { round, .. } => {
                if round.awaits_any() {
                    return Ok(nothing(alloc));
                }
                if round.reads {
                    return self.reads_after(spare);
                }
                let answer = round.judge(alloc, None)?;
                self.follows(spare, scenario, answer, None)
            }
            _ => Ok(ignored(alloc)),
        }
    }

    /// All of a round have replied: the master is asked.
    fn reads_after(&mut self, spare: &mut Spare<Letter>) -> Result<Reaction, NoMemory>
        ensures { IfOk result (λ reaction.
            Gives (place.reads_after self.old self.old.phase) self.new reaction) }
    {
        match mem::replace(&mut self.phase, Phase::Idle) {
            Phase::Checking {
                span,
                round,
                staple: _,
            } => self.probes(spare, Phase::Reading { span, round }),
            other => {
                self.enters(other);
                Ok(ignored(spare.alloc()))
            }
        }
    }

    /// What follows from what was judged of the round that is awaited.
    pub(crate) fn follows(
        &mut self,
        spare: &mut Spare<Letter>,
        scenario: &Scenario,
        answer: Judged,
        reading: Option<&Reading>,
    ) -> Result<Reaction, NoMemory>
        ensures { IfOk result (λ reaction.
            Gives
            (place.follows scenario.now self.old (option_copied reading.entry) answer)
            self.new reaction) }
    {
        let alloc = spare.alloc();
        match answer {
            Judged::Waiting => Ok(nothing(alloc)),
            Judged::Spent(mets) => self.aborts(alloc, Cause::Rounds(mets)),
            Judged::Update(_) => self.asks_anew(spare),
            Judged::False { verdict } => self.aborts(alloc, Cause::Denied(denied_by(&verdict))),
            Judged::AllTrue => self.agrees(spare, scenario, reading),
        }
    }

    /// An update has begun the next round: the authority is asked anew.
    fn asks_anew(&mut self, spare: &mut Spare<Letter>) -> Result<Reaction, NoMemory>
        ensures { IfOk result (λ reaction.
            Gives (place.asks_anew self.old self.old.phase) self.new reaction) }
    {
        match mem::replace(&mut self.phase, Phase::Idle) {
            Phase::Checking {
                span,
                round,
                staple: _,
            } => self.asks(spare, span, round),
            Phase::Reading { span, round } => self.asks(spare, span, round),
            other => {
                self.enters(other);
                Ok(ignored(spare.alloc()))
            }
        }
    }

    /// All proofs of a round are true, of one version each: they are an instance, and the transaction goes on. The
    /// proofs are taken out of the round, which is over.
    fn agrees(
        &mut self,
        spare: &mut Spare<Letter>,
        scenario: &Scenario,
        reading: Option<&Reading>,
    ) -> Result<Reaction, NoMemory>
        ensures { IfOk result (λ reaction.
            Gives
            (place.agrees_in scenario.now self.old self.old.phase (option_copied reading.entry))
            self.new reaction) }
    {
        let alloc = spare.alloc();
        let Some((span, rounds)) = span_in(&self.phase) else {
            return Ok(ignored(alloc));
        };
        let at = point_of(span);
        let Some(next) = self.move_made(scenario, at) else {
            return Ok(ignored(alloc));
        };
        self.closes_round(alloc, reading)?;
        self.makes(spare, scenario, at, next, rounds)
    }

    /// The proofs of the round that is awaited are taken out of it, and are an instance.
    fn closes_round(&mut self, alloc: Global, reading: Option<&Reading>) -> Result<(), NoMemory>
        ensures { OnOk result
            (self.new
            ≡ record (row.closes self.old
            (option_map row.place_of (option_copied reading.entry))
            (place.proofs_at self.old.phase)) { phase = self.new.phase }) }
    {
        let proofs = proofs_out_of(alloc, &mut self.phase)?;
        let agreed = Instance {
            reading: reading.map(|read| read.place),
            proofs,
        };
        self.gathered.closes(agreed)?;
        Ok(())
    }
}

/// What the round that is awaited is over, and its number.
fn span_in(phase: &Phase) -> Option<(Span, u32)>
    ensures { result ≡ place.span_in phase.now }
{
    match phase {
        Phase::Checking {
            span,
            round,
            staple: _,
        } => Some((*span, round.rounds())),
        Phase::Reading { span, round } => Some((*span, round.rounds())),
        _ => None,
    }
}

/// The proofs of the round that is awaited, which is used up.
fn proofs_out_of(alloc: Global, phase: &mut Phase) -> Result<List<Verdict>, NoMemory>
    ensures { IfOk result (λ proofs. proofs ≡ place.proofs_at phase.old) }
{
    match phase {
        Phase::Checking {
            span: _,
            round,
            staple: _,
        } => round.take_proofs(alloc),
        Phase::Reading { span: _, round } => round.take_proofs(alloc),
        _ => Ok(List::new(alloc)),
    }
}

/// The point that a round leads to.
fn point_of(span: Span) -> Point
    ensures { result ≡ row.point_of span }
{
    match span {
        Span::Validate { query } => Point::Validated { query },
        Span::Commit => Point::Voted,
    }
}

/// The first queries of a transaction, up to this number.
fn queries_upto(txn: &Transaction, number: u32) -> &[Query]
    ensures { result.now ≡ take number txn.now.queries }
{
    let queries = txn.queries.as_slice();
    let count = queries.len().min(number as usize);
    &queries[..count]
}

/// A reply comes into its round.
pub(crate) fn counts(
    alloc: Global,
    round: &mut Round,
    server: ServerId,
    verdicts: &List<Verdict>,
) -> Result<(), NoMemory>
    ensures { OnOk result (round.new ≡ judge.after_reply round.old server verdicts.now) }
{
    let verdicts = verdicts.try_clone(alloc)?;
    round.reply(server, verdicts);
    Ok(())
}

/// What the authority told, at the place where it was sent.
fn staple_of(alloc: Global, sent: Place, tell: &TellReply) -> Result<Staple, NoMemory>
    ensures { IfOk result (λ staple. staple ≡ row.staple_of tell.now sent) }
{
    Ok(Staple {
        place: sent,
        clock: tell.clock,
        revoked: tell.revoked.try_clone(alloc)?,
    })
}

/// What the last update named the server for.
fn named_for<'a>(named: &'a [Wanted], server: ServerId) -> Option<&'a Wanted>
    ensures { option_copied result
        ≡ find (λ (one : Wanted). same_server one.server server) named.now }
{
    named.iter().find(|one| one.server.0 == server.0)
}

/// What the last update wants of a server.
fn want_for(
    alloc: Global,
    round: &Round,
    server: ServerId,
) -> Result<List<(AdminId, Version)>, NoMemory>
    ensures { IfOk result (λ want. want ≡ row.want_for round.now server) }
{
    match named_for(round.named.as_slice(), server) {
        None => Ok(List::new(alloc)),
        Some(named) => named.want.try_clone(alloc),
    }
}
