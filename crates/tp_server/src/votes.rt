//! What a server does on a Prepare: it evaluates what was done, and votes.
ghost use Rattle.std.specs.Prelude.{◌≡◌, Option, Some, None, [], ◌∷◌, slice_get, slice_set, IfOk, OnOk};
ghost use Rattle.tp_types.specs.Effect.{Gives};
ghost use Rattle.std.specs.Option.{option_flatten};
ghost use Rattle.tp_server.specs.declared.server.Entry.{Entry};
ghost use Rattle.tp_server.specs.Row as row;
ghost use Rattle.tp_server.specs.Verdicts.{HasFewRules};

use crate::entries::Entries;
use crate::server::{Ballot, Entry, Server};
use crate::verdicts::{learn, verdicts_on};
use std::alloc::Global;
use tp_lock::LockTable;
use tp_types::{
    Body, Letter, List, No, NoMemory, Outcome, PrepareRequest, Prepared, Reaction, Record,
    Scenario, Settled, Spare, TryClone, TxnId, Verdict, Vote, VoteReply, both, forced_and_sent,
    ignored, sent_alone,
};

impl<L: LockTable + Drop> Server<L> {
    pub(crate) fn on_prepare(
        &mut self,
        spare: &mut Spare<Letter>,
        scenario: &Scenario,
        request: &PrepareRequest,
    ) -> Result<Reaction, NoMemory>
        requires { HasFewRules scenario.now }
        ensures { IfOk result (λ reaction.
            Gives (row.on_prepare scenario.now self.old request.now) self.new reaction) }
    {
        if !self.is_open(request.txn) {
            return self.on_settled_prepare(spare, request);
        }
        let outside = self.store.first_outside(request.txn);
        let Some(entry) = self.entry_at(request.txn) else {
            return self.refuses(spare, scenario, request, No::Restarted);
        };
        if entry.epoch != request.epoch {
            return self.refuses(spare, scenario, request, No::Restarted);
        }
        if let Some(cast) = &entry.ballot {
            if cast.turn == request.turn {
                return self.votes_again(spare, request.txn, cast);
            }
            if request.turn < cast.turn {
                return Ok(ignored(spare.alloc()));
            }
        } else if let Some((query, value)) = outside {
            return self.refuses(spare, scenario, request, No::Range { query, value });
        }
        self.evaluates(spare, scenario, request)
    }

    /// Learns the versions that are wanted, and votes YES: with a staple on what the transaction did here, which is
    /// evaluated, and else without verdicts.
    fn evaluates(
        &mut self,
        spare: &mut Spare<Letter>,
        scenario: &Scenario,
        request: &PrepareRequest,
    ) -> Result<Reaction, NoMemory>
        requires { HasFewRules scenario.now }
        ensures { IfOk result (λ reaction. (entry : Entry)
            → row.entry_at self.old request.now.txn ≡ Some entry
            → Gives
            (row.evaluates scenario.now self.old request.now entry request.now.staple)
            self.new reaction) }
    {
        let alloc = spare.alloc();
        let Some(staple) = &request.staple else {
            learn(&mut self.store, request.want.as_slice());
            return self.votes_with(spare, request, List::new(alloc));
        };
        let Some(txn) = scenario.txns.get(request.txn.0 as usize) else {
            return Ok(ignored(alloc));
        };
        let want = request.want.as_slice();
        learn(&mut self.store, want);
        let Some(entry) = self.entry_at(request.txn) else {
            return Ok(ignored(alloc));
        };
        let deeds = entry.deeds.as_slice();
        let verdicts = verdicts_on(alloc, scenario, self, txn, staple, want, deeds)?;
        self.votes_with(spare, request, verdicts)
    }

    /// Votes YES with these verdicts, where the transaction has an entry.
    fn votes_with(
        &mut self,
        spare: &mut Spare<Letter>,
        request: &PrepareRequest,
        verdicts: List<Verdict>,
    ) -> Result<Reaction, NoMemory>
        ensures { IfOk result (λ reaction. (entry : Entry)
            → row.entry_at self.old request.now.txn ≡ Some entry
            → Gives (row.votes self.old request.now verdicts entry) self.new reaction) }
    {
        let alloc = spare.alloc();
        let Some(entry) = self.entry_at(request.txn) else {
            return Ok(ignored(alloc));
        };
        let forced = self.prepared(alloc, request, entry, verdicts)?;
        self.votes(spare, forced)
    }

    /// The vote YES of a ballot.
    fn votes_again(
        &self,
        spare: &mut Spare<Letter>,
        txn: TxnId,
        cast: &Ballot,
    ) -> Result<Reaction, NoMemory>
        ensures { IfOk result (λ reaction.
            reaction
            ≡ record { append = None; letters = row.yes_letter self.now txn cast.now ∷ [] }) }
    {
        let vote = VoteReply {
            txn,
            turn: cast.turn,
            vote: Vote::Yes(cast.verdicts.try_clone(spare.alloc())?),
        };
        let letter = self.reply(txn, Body::Vote(vote));
        sent_alone(spare, letter)
    }

    /// A request to prepare what is settled already: a vote NO is given again with its reason.
    fn on_settled_prepare(
        &self,
        spare: &mut Spare<Letter>,
        request: &PrepareRequest,
    ) -> Result<Reaction, NoMemory>
        ensures { IfOk result (λ reaction.
            Gives
            (row.on_settled_prepare self.now request.now
            (option_flatten (slice_get self.now.settled request.now.txn.0)))
            self.now reaction) }
    {
        let alloc = spare.alloc();
        match self.settled.get(request.txn.0 as usize) {
            Some(settled) => match settled.why {
                Some(why) => {
                    let letter = self.no_letter(request, why);
                    sent_alone(spare, letter)
                }
                None => Ok(ignored(alloc)),
            },
            _ => Ok(ignored(alloc)),
        }
    }

    fn no_letter(&self, request: &PrepareRequest, why: No) -> Letter
        ensures { result ≡ row.no_letter self.now request.now why }
    {
        let vote = VoteReply {
            txn: request.txn,
            turn: request.turn,
            vote: Vote::No(why),
        };
        self.reply(request.txn, Body::Vote(vote))
    }

    /// Aborts the transaction here, and votes NO.
    fn refuses(
        &mut self,
        spare: &mut Spare<Letter>,
        scenario: &Scenario,
        request: &PrepareRequest,
        why: No,
    ) -> Result<Reaction, NoMemory>
        requires { HasFewRules scenario.now }
        ensures { IfOk result (λ reaction.
            Gives (row.refuses scenario.now self.old request.now why) self.new reaction) }
    {
        let settled = Settled {
            txn: request.txn,
            outcome: Outcome::Abort,
            why: Some(why),
        };
        let vote = self.no_letter(request, why);
        self.ends(spare, scenario, settled, vote)
    }

    fn prepared(
        &self,
        alloc: Global,
        request: &PrepareRequest,
        entry: &Entry,
        verdicts: List<Verdict>,
    ) -> Result<Prepared, NoMemory>
        ensures { IfOk result (λ made.
            made ≡ row.prepared_record self.now request.now entry.now verdicts) }
    {
        let deeds = entry.deeds.try_clone(alloc);
        let told = self.store.known().try_clone(alloc);
        let Ok((deeds, told)) = both(deeds, told) else {
            drop(verdicts);
            return Err(NoMemory);
        };
        Ok(Prepared {
            txn: request.txn,
            age: entry.age,
            epoch: entry.epoch,
            turn: request.turn,
            deeds,
            verdicts,
            told,
        })
    }

    fn votes(&mut self, spare: &mut Spare<Letter>, forced: Prepared) -> Result<Reaction, NoMemory>
        ensures { IfOk result (λ reaction. (entry : Entry)
            → row.entry_at self.old forced.txn ≡ Some entry
            → Gives (row.casts self.old forced entry) self.new reaction) }
    {
        let alloc = spare.alloc();
        let sent = forced.verdicts.try_clone(alloc);
        let Ok((kept, sent)) = both(forced.verdicts.try_clone(alloc), sent) else {
            drop(forced);
            return Err(NoMemory);
        };
        let ballot = Ballot {
            turn: forced.turn,
            verdicts: kept,
        };
        cast(&mut self.entries, forced.txn.0 as usize, ballot)?;
        let vote = VoteReply {
            txn: forced.txn,
            turn: forced.turn,
            vote: Vote::Yes(sent),
        };
        let letter = self.reply(forced.txn, Body::Vote(vote));
        forced_and_sent(spare, Record::Prepared(forced), letter)
    }
}

/// Casts a vote at the entry that stands there.
#[tactic(auto, using(crate::proofs::Tables::set_twice))]
fn cast(entries: &mut Entries, at: usize, ballot: Ballot) -> Result<(), NoMemory>
    ensures { OnOk result
        ((entry : Entry) → option_flatten (slice_get entries.old at) ≡ Some entry
        → entries.new ≡ slice_set entries.old at (Some (record entry { ballot = Some ballot }))) }
{
    match entries.take(at) {
        None => Ok(()),
        Some(mut entry) => {
            entry.ballot = Some(ballot);
            entries.put(at, entry)
        }
    }
}
