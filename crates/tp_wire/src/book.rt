//! The book: the history's steps, facts and mails, behind its lock and when it is closed.
ghost use Rattle.std.specs.Prelude.{◌≡◌, ◌+◌, ◌<◌, ◌≤◌, ◌++◌, [], ◌∷◌, length, nat_lt, false, true, IfOk, OnOk, OnErr};
ghost use Rattle.std.specs.Vec.{vec_capacity, vec_len};
ghost use Rattle.tp_types.specs.Each.{Each};
ghost use Rattle.tp_wire.specs.Entries.{steps_in, facts_of, facts_in, mails_of, mails_in, sent_in};
ghost use Rattle.tp_wire.specs.History.{HasOneActor};
ghost use Rattle.tp_wire.specs.Passes.{Known, MayPost, entry_by, views_of};
ghost use Rattle.tp_wire.specs.mirrors.Moves.{all_joined};
ghost use Rattle.tp_wire.specs.Calls.{IsPosted, SeesAll, KeepsParts, IsLookup, IsTaken, IsCleared};

use crate::board::Board;
use crate::law::{Law, Site};
use crate::pass::Pass;
use crate::plays::Posting;
use crate::view::View;
use atomic_table::Seat;
use std::alloc::Global;
use std::marker::{Model, PhantomData};
use tp_types::{Fact, Letter, List, Mail, NoMemory, Place, Step, TryClone, What};

/// At most so many entries: 2^48, which no run comes near.
const MOST: usize = 1 << 48;

/// A wire's history, once it is closed.
#[derive(Drop)]
pub struct Book {
    pub steps: List<Step>,
    pub facts: List<Fact>,
    pub mails: List<Mail>,
}

/// What stands under a number in what a pass has seen.
#[derive(Drop)]
pub enum Lookup {
    Found(Mail),
    /// There is no mail of the number, but so many mails.
    Missing { mails: u64 },
}

/// The book behind its lock, with the seat that knows the whole history. Contracts see it as what this seat knows.
#[derive(Drop)]
pub struct LockedBook<K, B: Site<K>> {
    seat: Seat<(), View>,
    steps: Vec<Step>,
    facts: Vec<Fact>,
    mails: Vec<Mail>,
    /// How many mails are taken: those of the least numbers.
    taken: usize,
    site: PhantomData<(K, B)>,
}

impl<K, B: Site<K>> Model for LockedBook<K, B> {
    ghost use Rattle.std.specs.Prelude.{◌≡◌, []};
    ghost use Rattle.tp_wire.specs.declared.view.View.{View};
    ghost use Rattle.tp_wire.specs.mirrors.Locked.{IsLocked};

    ghost Value = { View };

    ghost view = { λ b. b.seat.me.0 };

    ghost invariant = { λ b. (b.seat.table_id ≡ B.table) × (b.seat.me.1 ≡ []) × IsLocked b.seat.me.0 b.steps.items b.facts.items b.mails.items b.taken };
}

impl<K, B: Site<K>> LockedBook<K, B> {
    ghost use Rattle.tp_wire.specs.Rule.{keeper};

    /// The empty book.
    pub fn empty(alloc: Global, seat: Seat<(), View>) -> LockedBook<K, B>
        requires site { seat.table_id ≡ B.table }
        requires seat { seat.me ≡ (keeper [] [], []) }
        ensures { result ≡ keeper [] [] }
    {
        LockedBook {
            seat,
            steps: Vec::new(alloc),
            facts: Vec::new(alloc),
            mails: Vec::new(alloc),
            taken: 0,
            site: PhantomData,
        }
    }

    /// Adds a step, what happened in it and what was sent, for the pass whose entry `E` names. The room is taken first:
    /// where memory is refused nothing changes, but that the pass is given up.
    pub fn post<L: Law<K>, E: Posting>(
        self,
        board: &Board<K, L, B>,
        pass: &mut Pass,
        step: Step,
        happened: List<What>,
        letters: List<Letter>,
    ) -> (LockedBook<K, B>, Result<Place, NoMemory>)
        requires site { pass.old.table ≡ B.table }
        requires live { pass.old.given_up ≡ false }
        requires entry { E.entry ≡ entry_by pass.old.view step happened letters }
        requires actor { HasOneActor (L.actors B.about) E.entry }
        requires law { MayPost (L.follows B.about) pass.old.view E.entry }
        ensures table { pass.new.table ≡ pass.old.table }
        ensures ok { IfOk result.1 (λ place. IsPosted (L.follows B.about) (L.actors B.about) pass.old.view E.entry place pass.new.view) }
        ensures live { OnOk result.1 (pass.new.given_up ≡ false) }
        ensures err { OnErr result.1 (pass.new ≡ record pass.old { given_up = true }) }
    {
        let LockedBook {
            seat,
            mut steps,
            mut facts,
            mut mails,
            taken,
            site,
        } = self;
        let room = make_room(
            &mut steps,
            &mut facts,
            &mut mails,
            happened.len(),
            letters.len(),
        );
        if steps.len() >= MOST || room.is_err() {
            pass.give_up();
            let book = LockedBook {
                seat,
                steps,
                facts,
                mails,
                taken,
                site,
            };
            return (book, Err(NoMemory));
        }
        board.take_book(&mut pass.seat, seat);
        let place = board.add::<E>(&mut pass.seat);
        let seat = board.cut_book(&mut pass.seat);
        steps.push_reserved(step);
        add_facts(&mut facts, place, happened);
        add_mails(&mut mails, place, letters);
        let book = LockedBook {
            seat,
            steps,
            facts,
            mails,
            taken,
            site,
        };
        (book, Ok(place))
    }

    /// The pass sees the whole history.
    pub fn show<L: Law<K>>(self, board: &Board<K, L, B>, pass: &mut Pass) -> LockedBook<K, B>
        requires { pass.old.table ≡ B.table }
        ensures same { (pass.new.table ≡ pass.old.table) × (pass.new.given_up ≡ pass.old.given_up) }
        ensures book { result ≡ self }
        ensures seen { pass.new.view.seen ≡ self.log }
        ensures all { SeesAll (L.follows B.about) (L.actors B.about) pass.old.view pass.new.view }
        ensures parts { KeepsParts pass.old.view pass.new.view }
    {
        let LockedBook {
            seat,
            steps,
            facts,
            mails,
            taken,
            site,
        } = self;
        board.take_book(&mut pass.seat, seat);
        board.read(&mut pass.seat);
        let seat = board.cut_book(&mut pass.seat);
        LockedBook {
            seat,
            steps,
            facts,
            mails,
            taken,
            site,
        }
    }

    /// A copy of the mail of a number, or how many mails there are where there is none.
    pub fn mail(&self, alloc: Global, number: u64) -> Result<Lookup, NoMemory>
        ensures { IfOk result (λ found. IsLookup (mails_in self.now.log) number found) }
    {
        match self.mails.get(number as usize) {
            Some(mail) => Ok(Lookup::Found(mail.try_clone(alloc)?)),
            None => Ok(Lookup::Missing {
                mails: self.mails.len() as u64,
            }),
        }
    }

    /// Whether there is a mail that is not taken.
    pub fn has_free(&self) -> bool
        ensures { result ≡ nat_lt (length self.now.takers) (sent_in self.now.log) }
    {
        self.taken < self.mails.len()
    }

    /// The one part of the pass takes the oldest mail that is not taken.
    pub fn take<L: Law<K>>(self, board: &Board<K, L, B>, pass: &mut Pass) -> (LockedBook<K, B>, u64)
        requires site { pass.old.table ≡ B.table }
        requires part { length pass.old.view.parts ≡ 1 }
        requires free { length self.takers < sent_in self.log }
        ensures same { (pass.new.table ≡ pass.old.table) × (pass.new.given_up ≡ pass.old.given_up) }
        ensures all { SeesAll (L.follows B.about) (L.actors B.about) pass.old.view pass.new.view }
        ensures taken { IsTaken pass.old.view result.1 pass.new.view }
    {
        let LockedBook {
            seat,
            steps,
            facts,
            mails,
            taken,
            site,
        } = self;
        let sent = mails.len();
        prove!(taken < sent);
        board.take_book(&mut pass.seat, seat);
        board.take(&mut pass.seat);
        let seat = board.cut_book(&mut pass.seat);
        let book = LockedBook {
            seat,
            steps,
            facts,
            mails,
            taken: taken + 1,
            site,
        };
        (book, taken as u64)
    }

    /// The pass finds each mail taken.
    pub fn clear<L: Law<K>>(self, board: &Board<K, L, B>, pass: &mut Pass) -> LockedBook<K, B>
        requires site { pass.old.table ≡ B.table }
        requires none { sent_in self.log ≤ length self.takers }
        ensures same { (pass.new.table ≡ pass.old.table) × (pass.new.given_up ≡ pass.old.given_up) }
        ensures all { SeesAll (L.follows B.about) (L.actors B.about) pass.old.view pass.new.view }
        ensures cleared { IsCleared pass.old.view pass.new.view }
    {
        let LockedBook {
            seat,
            steps,
            facts,
            mails,
            taken,
            site,
        } = self;
        board.take_book(&mut pass.seat, seat);
        board.clear(&mut pass.seat);
        let seat = board.cut_book(&mut pass.seat);
        LockedBook {
            seat,
            steps,
            facts,
            mails,
            taken,
            site,
        }
    }
}

impl<K, B: Site<K>> LockedBook<K, B> {
    ghost use Rattle.tp_wire.specs.Closing.{IsClosed};

    /// The book, once all passes that are left are taken in.
    pub fn close<L: Law<K>>(self, board: &Board<K, L, B>, passes: List<Pass>) -> Book
        requires { Each (λ (p : Known). p.table ≡ B.table) passes }
        ensures { IsClosed (L.follows B.about) (L.actors B.about) (L.passes B.about) (views_of passes) result }
    {
        let LockedBook {
            mut seat,
            steps,
            facts,
            mails,
            taken: _,
            site: _,
        } = self;
        gather(board, &mut seat, passes);
        board.read(&mut seat);
        Book {
            steps: List::from_vec(steps),
            facts: List::from_vec(facts),
            mails: List::from_vec(mails),
        }
    }
}

/// Takes all passes in, one after another.
fn gather<K, L: Law<K>, B: Site<K>>(
    board: &Board<K, L, B>,
    seat: &mut Seat<(), View>,
    passes: List<Pass>,
)
    requires site { seat.old.table_id ≡ B.table }
    requires passes { Each (λ (p : Known). p.table ≡ B.table) passes }
    ensures site { seat.new.table_id ≡ seat.old.table_id }
    ensures views { seat.new.me ≡ (all_joined seat.old.me.0 (views_of passes), seat.old.me.1) }
{
    for pass in passes.into_vec() {
        board.take_all(seat, pass.into_seat());
    }
}

/// Makes room for a step, and for so many facts and mails. The lists stay.
fn make_room(
    steps: &mut Vec<Step>,
    facts: &mut Vec<Fact>,
    mails: &mut Vec<Mail>,
    happened: usize,
    letters: usize,
) -> Result<(), NoMemory>
    ensures same { (steps.new.items ≡ steps.old.items) × (facts.new.items ≡ facts.old.items) × (mails.new.items ≡ mails.old.items) }
    ensures steps { OnOk result (vec_len steps.new + 1 ≤ vec_capacity steps.new) }
    ensures facts { OnOk result (vec_len facts.new + happened ≤ vec_capacity facts.new) }
    ensures mails { OnOk result (vec_len mails.new + letters ≤ vec_capacity mails.new) }
{
    steps.reserve(1)?;
    facts.reserve(happened)?;
    mails.reserve(letters)?;
    Ok(())
}

/// Adds what happened to the facts, which have room for it.
fn add_facts(facts: &mut Vec<Fact>, place: Place, happened: List<What>)
    requires { vec_len facts.old + length happened ≤ vec_capacity facts.old }
    ensures { facts.new.items ≡ facts.old.items ++ facts_of place happened }
{
    for what in happened.into_vec() {
        facts.push_reserved(Fact { place, what });
    }
}

/// Makes mails of letters, for which there is room.
fn add_mails(mails: &mut Vec<Mail>, sent: Place, letters: List<Letter>)
    requires { vec_len mails.old + length letters ≤ vec_capacity mails.old }
    ensures { mails.new.items ≡ mails.old.items ++ mails_of sent (length mails.old.items) letters }
{
    for letter in letters.into_vec() {
        let number = mails.len() as u64;
        mails.push_reserved(Mail {
            number,
            sent,
            letter,
        });
    }
}
