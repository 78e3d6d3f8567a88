//! What the world keeps of its run: the steps, the facts, and every mail with whether it is undelivered.
ghost use Rattle.std.specs.Prelude.{◌≡◌, ◌+◌, ◌≤◌, ◌<◌, ℕ, [], ◌∷◌, ◌++◌, length, take, drop, replicate, slice_get, slice_set, ◌==◌, true, false, IfOk, IfSome, OnOk, OnErr};
ghost use Rattle.tp_pending.specs.Flags.{marked};
ghost use Rattle.std.specs.List.{list_any};
ghost use Rattle.tp_machine.specs.Machine.{facts_of, mails_of};

use crate::spares::Spares;
use std::alloc::Global;
use tp_pending::Pending;
use tp_types::{
    Fact, Letter, List, Mail, NoMemory, Place, Scenario, Spare, Step, Tally, What, both,
};

/// The steps, facts and mails of a run so far.
#[derive(Drop)]
pub struct History {
    pub steps: List<Step>,
    pub facts: List<Fact>,
    pub mails: List<Mail>,
    /// Of each mail, whether it is neither delivered nor lost.
    pub pending: Pending,
    ghost flagged: { length pending ≡ length mails },
}

impl History {
    ghost use Rattle.tp_machine.specs.mirrors.History.{IsEmpty, Notes, SameHistory};

    /// Before the first step of this scenario, with room for a run of it in which each request is made about once, so that the
    /// lists seldom move as they grow.
    pub fn new(alloc: Global, scenario: &Scenario) -> Result<History, NoMemory>
        ensures { IfOk result (λ made. IsEmpty made) }
    {
        let Room {
            steps,
            facts,
            mails,
        } = room_for(scenario);
        let pending = Pending::new(alloc, mails);
        let lists = both(with_room(alloc, facts), with_room(alloc, mails));
        let (steps, ((facts, mails), pending)) = both(
            with_room(alloc, steps),
            both(lists, pending),
        )?;
        Ok(History {
            steps,
            facts,
            mails,
            pending,
        })
    }

    /// Whether a mail of this number was sent, and is neither delivered nor lost.
    pub fn is_pending(&self, number: usize) -> bool
        ensures { result ≡ list_any (λ (other : ℕ). other == number) (marked 0 self.now.pending) }
    {
        self.pending.is_pending(number)
    }

    /// The least number of a pending mail, or None exactly where there is none.
    pub fn first_pending<T: Tally>(&self, tally: &mut T) -> Option<u64>
        ensures value { result ≡ slice_get (marked 0 self.now.pending) 0 }
        ensures sent { IfSome result (λ mail. mail < length self.now.mails) }
        ensures counted { T.counted tally.new ≡ T.counted tally.old + T.weight }
    {
        match self.pending.first(tally) {
            None => None,
            Some(number) => Some(number as u64),
        }
    }

    /// Adds a step with what happened in it and its letters, which become mails, and keeps the memory of both lists. Where memory
    /// is refused nothing is added.
    pub fn note(
        &mut self,
        spares: &mut Spares,
        taken: Step,
        happened: List<What>,
        letters: List<Letter>,
    ) -> Result<(), NoMemory>
        ensures ok { OnOk result (Notes self.old self.new taken happened letters) }
        ensures err { OnErr result (SameHistory self.old self.new) }
    {
        let steps = self.steps.len();
        let facts = self.facts.len();
        let mails = self.mails.len();
        let added = add(
            &mut self.steps,
            &mut self.facts,
            &mut self.mails,
            &mut self.pending,
            spares,
            taken,
            happened,
            letters,
        );
        match added {
            Ok(()) => Ok(()),
            Err(refused) => {
                self.steps.truncate(steps);
                self.facts.truncate(facts);
                self.mails.truncate(mails);
                self.pending.cut(mails);
                Err(refused)
            }
        }
    }

    /// Marks a mail as no longer undelivered.
    pub fn mark(&mut self, number: usize)
        ensures steps { self.new.steps ≡ self.old.steps }
        ensures facts { self.new.facts ≡ self.old.facts }
        ensures mails { self.new.mails ≡ self.old.mails }
        ensures pending { self.new.pending ≡ slice_set self.old.pending number false }
    {
        self.pending.take(number);
    }
}

/// How many steps, facts and mails there is room for from the start. Only how often lists move hangs on it.
struct Room {
    steps: usize,
    facts: usize,
    mails: usize,
}

/// About as many as a run has in which each query is asked once, each server three times beside that, and all of these answer.
fn room_for(scenario: &Scenario) -> Room {
    let mut facts: usize = 0;
    let mut mails: usize = 0;
    for txn in scenario.txns.as_slice() {
        let queries = txn.queries.len();
        let servers = queries.min(scenario.servers.len());
        facts = facts.saturating_add(servers.saturating_add(2));
        mails = mails.saturating_add(queries.saturating_mul(2));
        mails = mails.saturating_add(servers.saturating_mul(6));
    }
    let listed = scenario.steps.len().saturating_add(scenario.txns.len());
    Room {
        steps: listed.saturating_add(mails),
        facts,
        mails,
    }
}

/// An empty list with room for so many members.
fn with_room<T: Drop>(alloc: Global, room: usize) -> Result<List<T>, NoMemory>
    ensures { IfOk result (λ made. made ≡ []) }
{
    Ok(List::from_vec(Vec::with_capacity(alloc, room)?))
}

/// Adds to each list. Where memory is refused each list still begins with what it had.
fn add(
    steps: &mut List<Step>,
    facts: &mut List<Fact>,
    mails: &mut List<Mail>,
    pending: &mut Pending,
    spares: &mut Spares,
    taken: Step,
    happened: List<What>,
    letters: List<Letter>,
) -> Result<(), NoMemory>
    ensures steps { OnOk result (steps.new ≡ steps.old ++ taken ∷ []) }
    ensures facts { OnOk result (facts.new ≡ facts.old ++ facts_of (length steps.old) happened) }
    ensures mails { OnOk result
        (mails.new ≡ mails.old ++ mails_of (length steps.old) (length mails.old) letters) }
    ensures pending { OnOk result (pending.new ≡ pending.old ++ replicate (length letters) true) }
    ensures steps_kept { take (length steps.old) steps.new ≡ steps.old }
    ensures facts_kept { take (length facts.old) facts.new ≡ facts.old }
    ensures mails_kept { take (length mails.old) mails.new ≡ mails.old }
    ensures pending_kept { take (length pending.old) pending.new ≡ pending.old }
{
    let place = steps.len() as u64;
    steps.push(taken)?;
    tell(facts, &mut spares.facts, place, happened)?;
    send(mails, pending, &mut spares.letters, place, letters)
}

/// Adds what happened to the facts, and keeps the memory of a list of one or none.
fn tell(
    facts: &mut List<Fact>,
    spare: &mut Spare<What>,
    place: Place,
    mut happened: List<What>,
) -> Result<(), NoMemory>
    ensures ok { OnOk result (facts.new ≡ facts.old ++ facts_of place happened) }
    ensures kept { take (length facts.old) facts.new ≡ facts.old }
{
    if 1 < happened.len() {
        return add_facts(facts, place, happened);
    }
    if let Some(what) = happened.pop() {
        facts.push(Fact { place, what })?;
    }
    spare.keep(happened);
    Ok(())
}

fn add_facts(facts: &mut List<Fact>, place: Place, happened: List<What>) -> Result<(), NoMemory>
    ensures ok { OnOk result (facts.new ≡ facts.old ++ facts_of place happened) }
    ensures kept { take (length facts.old) facts.new ≡ facts.old }
{
    for what in happened.into_vec() {
        facts.push(Fact { place, what })?;
    }
    Ok(())
}

/// Makes mails of letters, and keeps the memory of a list of one or none.
fn send(
    mails: &mut List<Mail>,
    pending: &mut Pending,
    spare: &mut Spare<Letter>,
    sent: Place,
    mut letters: List<Letter>,
) -> Result<(), NoMemory>
    ensures mails { OnOk result
        (mails.new ≡ mails.old ++ mails_of sent (length mails.old) letters) }
    ensures pending { OnOk result (pending.new ≡ pending.old ++ replicate (length letters) true) }
    ensures mails_kept { take (length mails.old) mails.new ≡ mails.old }
    ensures pending_kept { take (length pending.old) pending.new ≡ pending.old }
{
    if 1 < letters.len() {
        return post(mails, pending, sent, letters);
    }
    if let Some(letter) = letters.pop() {
        post_one(mails, pending, sent, letter)?;
    }
    spare.keep(letters);
    Ok(())
}

fn post(
    mails: &mut List<Mail>,
    pending: &mut Pending,
    sent: Place,
    letters: List<Letter>,
) -> Result<(), NoMemory>
    ensures mails { OnOk result
        (mails.new ≡ mails.old ++ mails_of sent (length mails.old) letters) }
    ensures pending { OnOk result (pending.new ≡ pending.old ++ replicate (length letters) true) }
    ensures mails_kept { take (length mails.old) mails.new ≡ mails.old }
    ensures pending_kept { take (length pending.old) pending.new ≡ pending.old }
{
    for letter in letters.into_vec() {
        post_one(mails, pending, sent, letter)?;
    }
    Ok(())
}

/// Makes a letter the next mail, which is undelivered.
#[inline(always)]
fn post_one(
    mails: &mut List<Mail>,
    pending: &mut Pending,
    sent: Place,
    letter: Letter,
) -> Result<(), NoMemory>
    ensures mails { OnOk result
        (mails.new ≡ mails.old ++ mails_of sent (length mails.old) (letter ∷ [])) }
    ensures pending { OnOk result (pending.new ≡ pending.old ++ true ∷ []) }
    ensures mails_kept { take (length mails.old) mails.new ≡ mails.old }
    ensures pending_kept { take (length pending.old) pending.new ≡ pending.old }
{
    let number = mails.len() as u64;
    mails.push(Mail {
        number,
        sent,
        letter,
    })?;
    pending.post()?;
    Ok(())
}
