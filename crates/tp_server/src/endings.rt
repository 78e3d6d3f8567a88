//! What a server does at the end of a transaction: its writes are applied or dropped, its locks are released, and what waited for them runs.
ghost use Rattle.std.specs.Prelude.{◌≡◌, None, slice_get, IfOk};
ghost use Rattle.tp_types.specs.Effect.{Gives};
ghost use Rattle.std.specs.Option.{option_flatten};
ghost use Rattle.tp_server.specs.Row as row;
ghost use Rattle.tp_server.specs.Verdicts.{HasFewRules};

use crate::server::Server;
use tp_lock::LockTable;
use tp_types::{
    AckReply, Body, DecideRequest, Letter, List, NoMemory, Outcome, Reaction, Record, Scenario,
    Settled, Spare, TxnId, ignored, sent_alone,
};

impl<L: LockTable + Drop> Server<L> {
    pub(crate) fn on_decide(
        &mut self,
        spare: &mut Spare<Letter>,
        scenario: &Scenario,
        request: DecideRequest,
    ) -> Result<Reaction, NoMemory>
        requires { HasFewRules scenario.now }
        ensures { IfOk result (λ reaction.
            Gives (row.on_decide scenario.now self.old request) self.new reaction) }
    {
        if !self.is_open(request.txn) {
            return self.on_settled_decide(spare, request);
        }
        let settled = Settled {
            txn: request.txn,
            outcome: request.outcome,
            why: None,
        };
        let letter = self.ack_letter(request.txn);
        self.ends(spare, scenario, settled, letter)
    }

    /// An order to end what may be settled already.
    fn on_settled_decide(
        &self,
        spare: &mut Spare<Letter>,
        request: DecideRequest,
    ) -> Result<Reaction, NoMemory>
        ensures { IfOk result (λ reaction.
            Gives
            (row.on_settled_decide self.now request
            (option_flatten (slice_get self.now.settled request.txn.0)))
            self.now reaction) }
    {
        match self.settled.get(request.txn.0 as usize) {
            Some(_) => {
                let letter = self.ack_letter(request.txn);
                sent_alone(spare, letter)
            }
            None => Ok(ignored(spare.alloc())),
        }
    }

    fn ack_letter(&self, txn: TxnId) -> Letter
        ensures { result ≡ row.ack_letter self.now txn }
    {
        self.reply(txn, Body::Ack(AckReply { txn }))
    }

    /// Forces how a transaction ended, ends its entry, releases its locks, and sends the letter; what waited for them goes on.
    #[inline(always)]
    pub(crate) fn ends(
        &mut self,
        spare: &mut Spare<Letter>,
        scenario: &Scenario,
        settled: Settled,
        letter: Letter,
    ) -> Result<Reaction, NoMemory>
        requires { HasFewRules scenario.now }
        ensures { IfOk result (λ reaction.
            Gives (row.ends scenario.now self.old settled letter) self.new reaction) }
    {
        let alloc = spare.alloc();
        let at = settled.txn.0 as usize;
        self.end(settled.txn, settled.outcome);
        self.settled.put(at, settled)?;
        self.entries.clear(at);
        self.locks.release(settled.txn);
        let mut letters = spare.list_of(letter)?;
        while let Some(grant) = self.locks.take_granted() {
            self.resumes(alloc, scenario, grant.owner, &mut letters)?;
        }
        Ok(Reaction {
            append: Some(Record::Settled(settled)),
            letters,
        })
    }

    /// Applies what a commit has written, or drops what an abort has.
    fn end(&mut self, txn: TxnId, outcome: Outcome)
        ensures { self.new
            ≡ record self.old { store = row.ended_store self.old.store txn outcome } }
    {
        match outcome {
            Outcome::Commit => self.store.apply(txn),
            Outcome::Abort => self.store.forget(txn),
        }
    }
}
