//! What a server does on a Query: it asks for a lock, and what has its lock runs.
ghost use Rattle.std.specs.Prelude.{◌≡◌, [], ◌∷◌, Option, Some, None, slice_set, IfOk, OnOk};
ghost use Rattle.std.specs.Option.{option_copied};
ghost use Rattle.tp_model.specs.Deeds as ran;
ghost use Rattle.tp_types.specs.Effect.{Gives, sends};
ghost use Rattle.tp_server.specs.Verdicts as verdicts;
ghost use Rattle.tp_server.specs.Verdicts.{HasFewRules};
ghost use Rattle.tp_server.specs.Row as row;
ghost use Rattle.tp_server.specs.mirrors.Entries.{Continues, entry_of, IsNoted};

use crate::server::{Entry, Server};
use crate::verdicts::{admin_of, verdict_alone};
use std::alloc::Global;
use tp_lock::{Asked, LockTable};
use tp_model::{action_of, deed_of, item_of, query_at};
use tp_types::{
    AdminId, Answer, Body, Deed, DoneReply, Letter, List, Newer, NoMemory, Place, Query,
    QueryRequest, Reaction, Scenario, Spare, TryClone, TxnId, Verdict, Version, ignored, nothing,
    sent_alone,
};

impl<L: LockTable + Drop> Server<L> {
    pub(crate) fn on_query(
        &mut self,
        spare: &mut Spare<Letter>,
        scenario: &Scenario,
        sent: Place,
        request: &QueryRequest,
    ) -> Result<Reaction, NoMemory>
        requires { HasFewRules scenario.now }
        ensures { IfOk result (λ reaction.
            Gives (row.on_query scenario.now self.old sent request.now) self.new reaction) }
    {
        let alloc = spare.alloc();
        if !self.is_open(request.txn) {
            return Ok(ignored(alloc));
        }
        let Some(entry) = self.entry_at(request.txn) else {
            return self.on_first_query(spare, scenario, sent, request);
        };
        if entry.ballot.is_some() {
            return Ok(ignored(alloc));
        }
        if names_another_epoch(entry, request) {
            return self.restarts(spare, request);
        }
        if let Some(given) = answer_to(entry, request.query) {
            let given = given.try_clone(alloc)?;
            return self.answers(spare, request.txn, given);
        }
        if entry.waiting.is_some() {
            return Ok(ignored(alloc));
        }
        self.asks(spare, scenario, sent, request)
    }

    /// A query of a transaction that has no entry.
    fn on_first_query(
        &mut self,
        spare: &mut Spare<Letter>,
        scenario: &Scenario,
        sent: Place,
        request: &QueryRequest,
    ) -> Result<Reaction, NoMemory>
        requires { HasFewRules scenario.now }
        ensures { row.entry_at self.old request.now.txn ≡ None → IfOk result (λ reaction.
            Gives
            (row.on_open_query scenario.now self.old sent request.now None)
            self.new reaction) }
    {
        if request.epoch.is_some() {
            return self.restarts(spare, request);
        }
        self.asks(spare, scenario, sent, request)
    }

    /// A query asks for the lock on its item.
    fn asks(
        &mut self,
        spare: &mut Spare<Letter>,
        scenario: &Scenario,
        sent: Place,
        request: &QueryRequest,
    ) -> Result<Reaction, NoMemory>
        requires { HasFewRules scenario.now }
        ensures { IfOk result (λ reaction.
            Gives
            (row.asks scenario.now self.old request.now
            (entry_of self.old sent request.now))
            self.new reaction) }
    {
        let alloc = spare.alloc();
        let Some(query) = asked_query(scenario, request) else {
            return Ok(ignored(alloc));
        };
        let Some(value) = self.value_of_run(request, query) else {
            return Ok(ignored(alloc));
        };
        let age = self.age_at(sent, request);
        let item = item_of(query);
        let asked = self
            .locks
            .request(alloc, request.txn, age, item, action_of(query))?;
        match asked {
            Asked::Granted => {
                let letter = self.runs(alloc, scenario, sent, request, query, value)?;
                sent_alone(spare, letter)
            }
            Asked::Waits => self.waits(alloc, sent, request),
            // an older transaction stands in the way
            Asked::Dies { other } => {
                let letter = self.answers_with(alloc, sent, request, Answer::Died { other })?;
                sent_alone(spare, letter)
            }
        }
    }

    /// The place of the transaction's submission: as its entry has it, or as the request tells it.
    fn age_at(&self, sent: Place, request: &QueryRequest) -> Place
        ensures { result ≡ (entry_of self.now sent request.now).age }
    {
        match self.entry_at(request.txn) {
            Some(entry) => entry.age,
            None => request.age.unwrap_or(sent),
        }
    }

    /// The query is kept until its lock is granted.
    #[tactic(auto, using(crate::proofs::Tables::set_twice))]
    fn waits(
        &mut self,
        alloc: Global,
        sent: Place,
        request: &QueryRequest,
    ) -> Result<Reaction, NoMemory>
        ensures { IfOk result (λ reaction.
            Gives
            (row.waits self.old request.now (entry_of self.old sent request.now))
            self.new reaction) }
    {
        let waiting = request.try_clone(alloc)?;
        let mut entry = self.take_entry(alloc, sent, request)?;
        entry.waiting = Some(waiting);
        self.entries.put(request.txn.0 as usize, entry)?;
        Ok(nothing(alloc))
    }

    /// An answer that ends the transaction is kept, and given by the letter.
    #[inline(always)]
    #[tactic(auto, using(crate::proofs::Tables::set_twice))]
    fn answers_with(
        &mut self,
        alloc: Global,
        sent: Place,
        request: &QueryRequest,
        given: Answer,
    ) -> Result<Letter, NoMemory>
        ensures { IfOk result (λ letter.
            row.answers_with self.old request.now (entry_of self.old sent request.now) given
            ≡ sends self.new (letter ∷ [])) }
    {
        let kept = given.try_clone(alloc)?;
        let mut entry = self.take_entry(alloc, sent, request)?;
        let epoch = entry.epoch;
        entry.answers.push(reply_of(request, epoch, kept))?;
        self.entries.put(request.txn.0 as usize, entry)?;
        Ok(self.reply(request.txn, Body::Done(reply_of(request, epoch, given))))
    }

    fn value_of_run(&self, request: &QueryRequest, query: &Query) -> Option<i128>
        ensures { result ≡ row.value_of_run self.now request.now query.now }
    {
        match query {
            Query::Read { item, .. } => Some(self.store.read(request.txn, *item)),
            Query::Write { .. } => request.value,
        }
    }

    /// A query that has its lock runs, unless the server knows a newer version than the pinned one, which is else learnt,
    /// or the query was asked with a staple and its proof is false; the letter answers it.
    fn runs(
        &mut self,
        alloc: Global,
        scenario: &Scenario,
        sent: Place,
        request: &QueryRequest,
        query: &Query,
        value: i128,
    ) -> Result<Letter, NoMemory>
        requires { HasFewRules scenario.now }
        ensures { IfOk result (λ letter.
            row.runs scenario.now self.old request.now query.now
            (entry_of self.old sent request.now)
            (ran.deed_of request.now.query query.now value)
            ≡ sends self.new (letter ∷ [])) }
    {
        let deed = deed_of(request.query, query, value);
        let admin = admin_of(scenario, deed.item);
        if let Some(newer) = self.newer_known(admin, request.pin) {
            return self.answers_with(alloc, sent, request, Answer::Newer(newer));
        }
        self.learns_pin(admin, request.pin);
        self.runs_proved(alloc, scenario, sent, request, query, deed)
    }

    /// The version that the server knows, if it is newer than the pinned one.
    fn newer_known(&self, admin: AdminId, pin: Option<Version>) -> Option<Newer>
        ensures { result ≡ row.newer_known self.now admin pin }
    {
        let used = pin?;
        let found = self.store.newest(admin);
        if used.0 < found.0 {
            Some(Newer { admin, used, found })
        } else {
            None
        }
    }

    fn learns_pin(&mut self, admin: AdminId, pin: Option<Version>)
        ensures { self.new ≡ verdicts.with_pin self.old admin pin }
    {
        if let Some(version) = pin {
            self.store.told(admin, version);
        }
    }

    /// A query runs, unless its proof is false.
    fn runs_proved(
        &mut self,
        alloc: Global,
        scenario: &Scenario,
        sent: Place,
        request: &QueryRequest,
        query: &Query,
        deed: Deed,
    ) -> Result<Letter, NoMemory>
        requires { HasFewRules scenario.now }
        ensures { IfOk result (λ letter.
            row.runs_by self.old request.now query.now (entry_of self.old sent request.now) deed
            (row.verdict_at scenario.now self.old request.now deed)
            ≡ sends self.new (letter ∷ [])) }
    {
        match self.verdict_at(alloc, scenario, request, deed)? {
            None => self.completes(alloc, sent, request, query, deed, None),
            Some(verdict) => {
                if verdict.rule.is_none() {
                    return self.answers_with(alloc, sent, request, Answer::Denied { verdict });
                }
                self.completes(alloc, sent, request, query, deed, Some(verdict))
            }
        }
    }

    /// The verdict on what a query does, where it was asked with a staple: by the version that the server knows.
    fn verdict_at(
        &self,
        alloc: Global,
        scenario: &Scenario,
        request: &QueryRequest,
        deed: Deed,
    ) -> Result<Option<Verdict>, NoMemory>
        requires { HasFewRules scenario.now }
        ensures { IfOk result (λ found.
            found ≡ row.verdict_at scenario.now self.now request.now deed) }
    {
        let Some(staple) = &request.staple else {
            return Ok(None);
        };
        let Some(txn) = scenario.txns.get(request.txn.0 as usize) else {
            return Ok(None);
        };
        let verdict = verdict_alone(alloc, scenario, self, txn, staple, deed)?;
        Ok(Some(verdict))
    }

    /// What the query does is kept, and answered by the letter.
    fn completes(
        &mut self,
        alloc: Global,
        sent: Place,
        request: &QueryRequest,
        query: &Query,
        deed: Deed,
        verdict: Option<Verdict>,
    ) -> Result<Letter, NoMemory>
        ensures { IfOk result (λ letter.
            row.completes self.old request.now query.now (entry_of self.old sent request.now)
            deed verdict
            ≡ sends self.new (letter ∷ [])) }
    {
        let kept = verdict.try_clone(alloc)?;
        let epoch = self.notes(alloc, sent, request, deed, kept)?;
        self.keep(alloc, request, query, deed.value)?;
        let given = ran_as(deed, verdict);
        Ok(self.reply(request.txn, Body::Done(reply_of(request, epoch, given))))
    }

    /// What waits at an owner's entry runs, and its answer is added to the letters.
    pub(crate) fn resumes(
        &mut self,
        alloc: Global,
        scenario: &Scenario,
        owner: TxnId,
        letters: &mut List<Letter>,
    ) -> Result<(), NoMemory>
        requires { HasFewRules scenario.now }
        ensures { OnOk result
            (Continues (row.resumes scenario.now self.old owner) self.new letters.old letters.new) }
    {
        let Some(request) = self.taken_waiting(owner)? else {
            return Ok(());
        };
        let resumed = self.resumes_at(alloc, scenario, &request, letters);
        drop(request);
        resumed
    }

    /// A query that waited runs, where its transaction has an entry.
    fn resumes_at(
        &mut self,
        alloc: Global,
        scenario: &Scenario,
        request: &QueryRequest,
        letters: &mut List<Letter>,
    ) -> Result<(), NoMemory>
        requires { HasFewRules scenario.now }
        ensures { OnOk result
            (Continues
            (row.resumes_at scenario.now self.old request.now
            (row.entry_at self.old request.now.txn))
            self.new letters.old letters.new) }
    {
        if self.entry_at(request.txn).is_none() {
            return Ok(());
        }
        let Some(query) = asked_query(scenario, request) else {
            return Ok(());
        };
        let Some(value) = self.value_of_run(request, query) else {
            return Ok(());
        };
        let letter = self.runs(alloc, scenario, 0, request, query, value)?;
        letters.push(letter)
    }

    /// Takes what waits at an owner's entry.
    #[tactic(auto, using(crate::proofs::Tables::set_twice))]
    fn taken_waiting(&mut self, owner: TxnId) -> Result<Option<QueryRequest>, NoMemory>
        ensures taken { IfOk result (λ waiting. waiting ≡ row.waiting_at self.old owner) }
        ensures left { OnOk result (self.new ≡ row.without_waiting self.old owner) }
    {
        match self.entries.take(owner.0 as usize) {
            None => Ok(None),
            Some(mut entry) => {
                let waiting = entry.waiting.take();
                self.entries.put(owner.0 as usize, entry)?;
                Ok(waiting)
            }
        }
    }

    /// Adds a deed, with its answer, to the entry of its transaction, and gives the entry's epoch.
    #[tactic(auto, using(crate::proofs::Tables::set_twice))]
    fn notes(
        &mut self,
        alloc: Global,
        sent: Place,
        request: &QueryRequest,
        deed: Deed,
        verdict: Option<Verdict>,
    ) -> Result<u64, NoMemory>
        ensures { IfOk result (λ epoch.
            IsNoted self.old sent request.now deed verdict self.new epoch) }
    {
        let mut entry = self.take_entry(alloc, sent, request)?;
        let epoch = entry.epoch;
        adds_run(entry.as_mut(), request, deed, verdict)?;
        self.entries.put(request.txn.0 as usize, entry)?;
        Ok(epoch)
    }

    /// Takes the entry of a transaction, or makes one.
    #[inline(always)]
    fn take_entry(
        &mut self,
        alloc: Global,
        sent: Place,
        request: &QueryRequest,
    ) -> Result<Box<Entry, Global>, NoMemory>
        ensures taken { IfOk result (λ entry. entry.value ≡ entry_of self.old sent request.now) }
        ensures left { OnOk result (self.new
            ≡ record self.old { entries = slice_set self.old.entries request.now.txn.0 None }) }
    {
        if let Some(entry) = self.entries.take(request.txn.0 as usize) {
            return Ok(entry);
        }
        self.entries
            .begun(alloc, request.age.unwrap_or(sent), self.epoch)
    }

    fn keep(
        &mut self,
        alloc: Global,
        request: &QueryRequest,
        query: &Query,
        value: i128,
    ) -> Result<(), NoMemory>
        ensures { OnOk result (self.new
            ≡ record self.old { store = row.kept_by self.old.store request.now query.now value }) }
    {
        match query {
            Query::Read { .. } => Ok(()),
            Query::Write { item, .. } => {
                self.store
                    .write(alloc, request.txn, request.query, *item, value)
            }
        }
    }

    /// What the transaction did here was lost in an earlier epoch.
    fn restarts(
        &self,
        spare: &mut Spare<Letter>,
        request: &QueryRequest,
    ) -> Result<Reaction, NoMemory>
        ensures { IfOk result (λ reaction.
            Gives (row.restarts self.now request.now) self.now reaction) }
    {
        let restarted = reply_of(request, self.epoch, Answer::Restarted);
        self.answers(spare, request.txn, restarted)
    }

    fn answers(
        &self,
        spare: &mut Spare<Letter>,
        txn: TxnId,
        given: DoneReply,
    ) -> Result<Reaction, NoMemory>
        ensures { IfOk result (λ reaction.
            Gives (row.answers self.now txn given) self.now reaction) }
    {
        let letter = self.reply(txn, Body::Done(given));
        sent_alone(spare, letter)
    }
}

/// Whether the request names an epoch, and the entry was made in another.
fn names_another_epoch(entry: &Entry, request: &QueryRequest) -> bool
    ensures { result ≡ row.names_another_epoch request.now entry.now }
{
    match request.epoch {
        None => false,
        Some(epoch) => epoch != entry.epoch,
    }
}

/// The answer that a query of this number was given.
fn answer_to(entry: &Entry, number: u32) -> Option<&DoneReply>
    ensures { option_copied result ≡ row.answer_to entry.now number }
{
    entry
        .answers
        .as_slice()
        .iter()
        .find(|given| given.query == number)
}

fn asked_query<'a>(scenario: &'a Scenario, request: &QueryRequest) -> Option<&'a Query>
    ensures { option_copied result ≡ row.asked_query scenario.now request.now }
{
    let txn = scenario.txns.get(request.txn.0 as usize)?;
    query_at(txn, request.query)
}

/// Adds to an entry that its query ran.
fn adds_run(
    entry: &mut Entry,
    request: &QueryRequest,
    deed: Deed,
    verdict: Option<Verdict>,
) -> Result<(), NoMemory>
    ensures { OnOk result (entry.new ≡ row.entry_after request.now entry.old deed verdict) }
{
    let answer = reply_of(request, entry.epoch, ran_as(deed, verdict));
    entry.answers.push(answer)?;
    entry.deeds.push(deed)
}

/// The answer to a query that ran, with its proof if it was asked with a staple.
fn ran_as(deed: Deed, verdict: Option<Verdict>) -> Answer
    ensures { result ≡ row.ran_as deed verdict }
{
    Answer::Ran {
        value: deed.value,
        verdict,
    }
}

/// The reply to a query with an answer.
fn reply_of(request: &QueryRequest, epoch: u64, answer: Answer) -> DoneReply
    ensures { result ≡ row.reply_of request.now epoch answer }
{
    DoneReply {
        txn: request.txn,
        turn: request.turn,
        query: request.query,
        epoch,
        answer,
    }
}
