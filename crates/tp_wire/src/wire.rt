//! The wire: a history that many threads extend.
ghost use Rattle.std.specs.Prelude.{◌≡◌, ◌≤◌, ◌∷◌, [], length, true, false, IfOk, OnOk, OnErr, IfSome, IfNone};
ghost use Rattle.tp_types.specs.Each.{Each};
ghost use Rattle.tp_wire.specs.Entries.{mails_in};
ghost use Rattle.tp_wire.specs.History.{times_below, numbers_of};
ghost use Rattle.tp_wire.specs.Passes.{Known, IsLook, MayPost, entry_by, joined, without_part, part_alone, fresh_passes, views_of};
ghost use Rattle.tp_wire.specs.Calls.{IsPosted, SeesAll, KeepsParts, IsLookup, IsTaken, IsCleared};
ghost use Rattle.tp_wire.specs.Closing.{IsClosed};
ghost use Rattle.tp_wire.specs.Rule.{holder, fresh_parts};

use crate::board::Board;
use crate::book::{Book, LockedBook, Lookup};
use crate::law::{Law, Ruled, Site};
use crate::pass::Pass;
use crate::plays::Numbered;
use crate::view::View;
use atomic_table::{Seat, Table};
use std::alloc::Global;
use std::marker::{Brand, Model};
use std::sync::{Mutex, Wait};
use tp_types::{Letter, List, NoMemory, Place, Step, What};

/// A wire that no type names yet. A caller makes one, names it as its `Site`, and opens the wire on it.
#[derive(Drop)]
pub struct Opening<K, L: Law<K>> {
    table: Table<(), View, K, Ruled<L>, Global>,
    seat: Seat<(), View>,
}

impl<K, L: Law<K>> Model for Opening<K, L> {
    ghost use Rattle.std.specs.Prelude.{◌≡◌, []};
    ghost use Rattle.tp_wire.specs.Passes.{Opened};
    ghost use Rattle.tp_wire.specs.Rule.{first_view};

    ghost Value = { Opened K };

    ghost view = { λ o. record { table = o.table.shared.table_id; about = o.table.shared.key } };

    ghost invariant = { λ o. (o.table.shared.table_id.words ≡ 1) × (o.seat.table_id ≡ o.table.shared.table_id) × (o.seat.me ≡ (first_view (L.passes o.table.shared.key), [])) };
}

impl<K, L: Law<K>> Opening<K, L> {
    /// Makes a table for a wire that is told this. It keeps no copy of it.
    pub fn new(alloc: Global, about: &K) -> Result<Opening<K, L>, NoMemory>
        ensures { IfOk result (λ o. o.about ≡ about.now) }
    {
        let (table, seat) = Table::of_words(alloc, &[0], about)?;
        Ok(Opening { table, seat })
    }
}

/// One history of a law `L`, of which `B` says which wire it is.
#[derive(Drop)]
pub struct Wire<K, L: Law<K>, B: Site<K>> {
    board: Board<K, L, B>,
    book: Mutex<Option<LockedBook<K, B>>>,
}

impl<K, L: Law<K>, B: Site<K>> Wire<K, L, B> {
    /// Opens a wire with an empty history, and so many passes, numbered from 0 in their order, each with a part of its
    /// own number.
    pub fn opened(
        opening: Opening<K, L>,
        alloc: Global,
        passes: u32,
    ) -> Result<(Wire<K, L, B>, List<Pass>), NoMemory>
        requires site { opening.table ≡ B.table }
        requires about { opening.about ≡ B.about }
        requires passes { passes ≡ L.passes B.about }
        ensures { IfOk result (λ made. made.1 ≡ fresh_passes B.table 0 passes) }
    {
        let Opening { table, mut seat } = opening;
        let board = Board::of(table);
        let book = LockedBook::empty(alloc, board.cut_book(&mut seat));
        let dealt = deal(alloc, &board, seat, passes)?;
        let wire = Wire {
            board,
            book: Mutex::new(Some(book)),
        };
        Ok((wire, dealt))
    }

    /// The length of the history, which the pass is then told. It takes neither a lock nor memory, and may be asked of
    /// a pass that is given up.
    pub fn look(&self, pass: &mut Pass) -> u64
        requires { pass.old.table ≡ B.table }
        ensures same { (pass.new.table ≡ pass.old.table) × (pass.new.given_up ≡ pass.old.given_up) }
        ensures look { IsLook (L.follows B.about) (L.actors B.about) result pass.old.view pass.new.view }
    {
        self.board.look(&mut pass.seat)
    }

    /// Adds a step with what happened in it, and its letters as the next mails, sent at its place. Answers the place.
    /// At NoMemory the history is unchanged, and the pass given up.
    pub fn post<R: Wait>(
        &self,
        rt: &R,
        pass: &mut Pass,
        step: Step,
        happened: List<What>,
        letters: List<Letter>,
    ) -> Result<Place, NoMemory>
        requires site { pass.old.table ≡ B.table }
        requires live { pass.old.given_up ≡ false }
        requires actor { times_below (L.actors B.about) (numbers_of pass.old.view.parts) ≡ 1 }
        requires law { MayPost (L.follows B.about) pass.old.view (entry_by pass.old.view step happened letters) }
        ensures table { pass.new.table ≡ pass.old.table }
        ensures ok { IfOk result (λ place. IsPosted (L.follows B.about) (L.actors B.about) pass.old.view (entry_by pass.old.view step happened letters) place pass.new.view) }
        ensures live { OnOk result (pass.new.given_up ≡ false) }
        ensures err { OnErr result (pass.new ≡ record pass.old { given_up = true }) }
    {
        let mut guard = self.book.lock(rt);
        let Some(book) = guard.take() else {
            pass.give_up();
            return Err(NoMemory);
        };
        let (book, posted) = book.post::<L, Brand>(&self.board, pass, step, happened, letters);
        *guard = Some(book);
        posted
    }

    /// A copy of the mail of a number, in the whole history, which the pass has then seen; or how many mails that has,
    /// where it has none of the number. At NoMemory the pass is given up.
    pub fn mail<R: Wait>(
        &self,
        rt: &R,
        alloc: Global,
        pass: &mut Pass,
        number: u64,
    ) -> Result<Lookup, NoMemory>
        requires site { pass.old.table ≡ B.table }
        requires live { pass.old.given_up ≡ false }
        ensures table { pass.new.table ≡ pass.old.table }
        ensures ok { IfOk result (λ found. IsLookup (mails_in pass.new.view.seen) number found) }
        ensures seen { OnOk result (SeesAll (L.follows B.about) (L.actors B.about) pass.old.view pass.new.view) }
        ensures parts { OnOk result (KeepsParts pass.old.view pass.new.view) }
        ensures live { OnOk result (pass.new.given_up ≡ false) }
        ensures err { OnErr result (pass.new ≡ record pass.old { given_up = true }) }
    {
        let mut guard = self.book.lock(rt);
        let Some(book) = guard.take() else {
            pass.give_up();
            return Err(NoMemory);
        };
        match book.mail(alloc, number) {
            Ok(found) => {
                *guard = Some(book.show(&self.board, pass));
                Ok(found)
            }
            Err(NoMemory) => {
                *guard = Some(book);
                pass.give_up();
                Err(NoMemory)
            }
        }
    }

    /// Takes the oldest mail that is not taken, for the pass's one part; or answers None exactly where each mail is
    /// taken, which the pass then shows. At NoMemory the pass is given up.
    pub fn take<R: Wait>(&self, rt: &R, pass: &mut Pass) -> Result<Option<u64>, NoMemory>
        requires site { pass.old.table ≡ B.table }
        requires live { pass.old.given_up ≡ false }
        requires part { length pass.old.view.parts ≡ 1 }
        ensures table { pass.new.table ≡ pass.old.table }
        ensures seen { OnOk result (SeesAll (L.follows B.about) (L.actors B.about) pass.old.view pass.new.view) }
        ensures some { IfOk result (λ found. IfSome found (λ mail. IsTaken pass.old.view mail pass.new.view)) }
        ensures none { IfOk result (λ found. IfNone found (IsCleared pass.old.view pass.new.view)) }
        ensures live { OnOk result (pass.new.given_up ≡ false) }
        ensures err { OnErr result (pass.new ≡ record pass.old { given_up = true }) }
    {
        let mut guard = self.book.lock(rt);
        let Some(book) = guard.take() else {
            pass.give_up();
            return Err(NoMemory);
        };
        if book.has_free() {
            let (book, mail) = book.take(&self.board, pass);
            *guard = Some(book);
            Ok(Some(mail))
        } else {
            *guard = Some(book.clear(&self.board, pass));
            Ok(None)
        }
    }

    /// Takes in another pass: its parts, and the longer of the two beginnings.
    pub fn take_in(&self, pass: &mut Pass, kept: Pass)
        requires site { (pass.old.table ≡ B.table) × (kept.table ≡ B.table) }
        requires live { (pass.old.given_up ≡ false) × (kept.given_up ≡ false) }
        ensures same { (pass.new.table ≡ pass.old.table) × (pass.new.given_up ≡ false) }
        ensures view { pass.new.view ≡ joined pass.old.view kept.view }
    {
        self.board.take_all(&mut pass.seat, kept.into_seat());
    }

    /// Gives the part of a number back, in a pass of its own that has seen as much.
    pub fn give_back(&self, pass: &mut Pass, number: u32) -> Pass
        requires site { pass.old.table ≡ B.table }
        requires live { pass.old.given_up ≡ false }
        ensures left { pass.new ≡ record pass.old { view = without_part number pass.old.view } }
        ensures right { result ≡ record pass.old { view = part_alone number pass.old.view } }
    {
        Pass::of(cut_off::<K, L, B, Brand>(&self.board, &mut pass.seat, number))
    }

    /// Closes the wire, and gives its history. What the passes show holds of it, given up or not.
    pub fn close(self, passes: List<Pass>) -> Result<Book, NoMemory>
        requires { Each (λ (p : Known). p.table ≡ B.table) passes }
        ensures { IfOk result (λ book. IsClosed (L.follows B.about) (L.actors B.about) (L.passes B.about) (views_of passes) book) }
    {
        let Wire { board, book } = self;
        match book.into_inner() {
            Some(book) => Ok(book.close(&board, passes)),
            None => Err(NoMemory),
        }
    }
}

/// Cuts the part of a number off, which `N` names.
fn cut_off<K, L: Law<K>, B: Site<K>, N: Numbered>(
    board: &Board<K, L, B>,
    seat: &mut Seat<(), View>,
    number: u32,
) -> Seat<(), View>
    requires site { seat.old.table_id ≡ B.table }
    requires number { N.number ≡ number }
    ensures left { (seat.new.table_id ≡ seat.old.table_id) × (seat.new.me ≡ (without_part number seat.old.me.0, seat.old.me.1)) }
    ensures right { (result.table_id ≡ seat.old.table_id) × (result.me ≡ (part_alone number seat.old.me.0, [])) }
{
    board.cut_part::<N>(seat)
}

/// Cuts the parts off one after another, a pass for each.
fn deal<K, L: Law<K>, B: Site<K>>(
    alloc: Global,
    board: &Board<K, L, B>,
    mut seat: Seat<(), View>,
    passes: u32,
) -> Result<List<Pass>, NoMemory>
    requires site { seat.table_id ≡ B.table }
    requires parts { seat.me ≡ (holder (fresh_parts 0 passes), []) }
    ensures { IfOk result (λ made. made ≡ fresh_passes B.table 0 passes) }
{
    let mut made = List::new(alloc);
    for number in 0..passes {
        let part = cut_off::<K, L, B, Brand>(board, &mut seat, number);
        made.push(Pass::of(part))?;
    }
    Ok(made)
}
