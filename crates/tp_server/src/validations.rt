//! What a server does on a Validate: it evaluates what was done so far, without a vote.
ghost use Rattle.std.specs.Prelude.{◌≡◌, Option, Some, None, slice_get, IfOk};
ghost use Rattle.tp_types.specs.Effect.{Gives};
ghost use Rattle.tp_server.specs.declared.server.Entry.{Entry};
ghost use Rattle.tp_server.specs.Row as row;
ghost use Rattle.tp_server.specs.Verdicts.{HasFewRules};

use crate::server::Server;
use crate::verdicts::{learn, verdicts_on};
use tp_lock::LockTable;
use tp_types::{
    Body, Letter, List, NoMemory, Reaction, Scenario, Spare, ValidateRequest, Verdict,
    VerdictsReply, ignored, sent_alone,
};

impl<L: LockTable + Drop> Server<L> {
    pub(crate) fn on_validate(
        &mut self,
        spare: &mut Spare<Letter>,
        scenario: &Scenario,
        request: &ValidateRequest,
    ) -> Result<Reaction, NoMemory>
        requires { HasFewRules scenario.now }
        ensures { IfOk result (λ reaction.
            Gives (row.on_validate scenario.now self.old request.now) self.new reaction) }
    {
        let alloc = spare.alloc();
        if !self.is_open(request.txn) {
            return Ok(ignored(alloc));
        }
        let Some(entry) = self.entry_at(request.txn) else {
            return self.shows(spare, request, None);
        };
        if entry.ballot.is_some() {
            return Ok(ignored(alloc));
        }
        if entry.epoch != request.epoch {
            return self.shows(spare, request, None);
        }
        self.shows_deeds(spare, scenario, request)
    }

    /// Learns the versions that are wanted, and evaluates what the transaction did here.
    fn shows_deeds(
        &mut self,
        spare: &mut Spare<Letter>,
        scenario: &Scenario,
        request: &ValidateRequest,
    ) -> Result<Reaction, NoMemory>
        requires { HasFewRules scenario.now }
        ensures { IfOk result (λ reaction. (entry : Entry)
            → row.entry_at self.old request.now.txn ≡ Some entry
            → Gives
            (row.shows_with scenario.now self.old request.now entry
            (slice_get scenario.now.txns request.now.txn.0))
            self.new reaction) }
    {
        let alloc = spare.alloc();
        let Some(txn) = scenario.txns.get(request.txn.0 as usize) else {
            return Ok(ignored(alloc));
        };
        let want = request.want.as_slice();
        learn(&mut self.store, want);
        let Some(entry) = self.entry_at(request.txn) else {
            return Ok(ignored(alloc));
        };
        let deeds = entry.deeds.as_slice();
        let verdicts = verdicts_on(alloc, scenario, self, txn, &request.staple, want, deeds)?;
        self.shows(spare, request, Some(verdicts))
    }

    /// The verdicts are sent; none where what was done here was lost.
    fn shows(
        &self,
        spare: &mut Spare<Letter>,
        request: &ValidateRequest,
        verdicts: Option<List<Verdict>>,
    ) -> Result<Reaction, NoMemory>
        ensures { IfOk result (λ reaction.
            Gives (row.shows self.now request.now verdicts) self.now reaction) }
    {
        let shown = VerdictsReply {
            txn: request.txn,
            turn: request.turn,
            verdicts,
        };
        let letter = self.reply(request.txn, Body::Verdicts(shown));
        sent_alone(spare, letter)
    }
}
