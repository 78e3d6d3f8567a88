//! The table of a wire, and what a seat does on it.
ghost use Rattle.std.specs.Prelude.{◌≡◌, ◌+◌, ◌^◌, ◌<◌, ◌≤◌, [], ◌∷◌, length, true};
ghost use Rattle.tp_wire.specs.Entries.{sent_in};
ghost use Rattle.tp_wire.specs.History.{HasOneActor, numbers_of};
ghost use Rattle.tp_wire.specs.Passes.{IsLook, MayPost, joined, without_part, part_alone};
ghost use Rattle.tp_wire.specs.mirrors.Moves.{Made, reads, adds, takes, clears, without_book, book_alone, with_book};

use crate::law::{Law, Ruled, Site};
use crate::plays::{
    Adds, Clears, CutBook, CutPart, Looks, Makes, Numbered, Posting, Reads, TakeAll, TakeBook,
    Takes,
};
use crate::view::View;
use atomic_table::{Seat, Table};
use std::alloc::Global;
use std::marker::{Model, PhantomData};

/// The table of a wire: one word, the length of the history. Contracts see it as what the wire was told.
#[derive(Drop)]
pub struct Board<K, L: Law<K>, B: Site<K>> {
    table: Table<(), View, K, Ruled<L>, Global>,
    site: PhantomData<B>,
}

impl<K, L: Law<K>, B: Site<K>> Model for Board<K, L, B> {
    ghost use Rattle.std.specs.Prelude.{◌≡◌};

    ghost Value = { K };

    ghost view = { λ b. b.table.shared.key };

    ghost invariant = { λ b. (b.table.shared.table_id ≡ B.table) × (b.table.shared.table_id.words ≡ 1) × (b.table.shared.key ≡ B.about) };
}

impl<K, L: Law<K>, B: Site<K>> Board<K, L, B> {
    /// The board of a table that is this site's.
    pub fn of(table: Table<(), View, K, Ruled<L>, Global>) -> Board<K, L, B>
        requires site { table.shared.table_id ≡ B.table }
        requires words { table.shared.table_id.words ≡ 1 }
        requires about { table.shared.key ≡ B.about }
    {
        Board {
            table,
            site: PhantomData,
        }
    }

    /// A load.
    pub fn look(&self, seat: &mut Seat<(), View>) -> u64
        requires { seat.old.table_id ≡ B.table }
        ensures same { (seat.new.table_id ≡ seat.old.table_id) × (seat.new.me.1 ≡ seat.old.me.1) }
        ensures look { IsLook (L.follows B.about) (L.actors B.about) result seat.old.me.0 seat.new.me.0 }
    {
        self.table.shared.load::<Looks<K, L, B>>(seat, 0)
    }

    /// A load by the seat with the book, which sees the whole history.
    pub fn read(&self, seat: &mut Seat<(), View>)
        requires site { seat.old.table_id ≡ B.table }
        requires book { seat.old.me.0.book ≡ true }
        ensures same { (seat.new.table_id ≡ seat.old.table_id) × (seat.new.me ≡ (reads seat.old.me.0, seat.old.me.1)) }
        ensures made { Made (L.follows B.about) (L.actors B.about) (L.passes B.about) (length seat.old.me.0.log) seat.old.me.0 (reads seat.old.me.0) }
    {
        self.table.shared.load::<Makes<K, L, B, Reads>>(seat, 0);
    }

    /// A load by the seat with the book, whose one part takes the first mail that is free.
    pub fn take(&self, seat: &mut Seat<(), View>)
        requires site { seat.old.table_id ≡ B.table }
        requires book { seat.old.me.0.book ≡ true }
        requires part { length seat.old.me.0.parts ≡ 1 }
        requires free { length seat.old.me.0.takers < sent_in seat.old.me.0.log }
        ensures same { (seat.new.table_id ≡ seat.old.table_id) × (seat.new.me ≡ (takes seat.old.me.0, seat.old.me.1)) }
        ensures made { Made (L.follows B.about) (L.actors B.about) (L.passes B.about) (length seat.old.me.0.log) seat.old.me.0 (takes seat.old.me.0) }
    {
        self.table.shared.load::<Makes<K, L, B, Takes>>(seat, 0);
    }

    /// A load by the seat with the book, which finds no mail that is free.
    pub fn clear(&self, seat: &mut Seat<(), View>)
        requires site { seat.old.table_id ≡ B.table }
        requires book { seat.old.me.0.book ≡ true }
        requires none { sent_in seat.old.me.0.log ≤ length seat.old.me.0.takers }
        ensures same { (seat.new.table_id ≡ seat.old.table_id) × (seat.new.me ≡ (clears seat.old.me.0, seat.old.me.1)) }
        ensures made { Made (L.follows B.about) (L.actors B.about) (L.passes B.about) (length seat.old.me.0.log) seat.old.me.0 (clears seat.old.me.0) }
    {
        self.table.shared.load::<Makes<K, L, B, Clears>>(seat, 0);
    }

    /// One is added to the word, and an entry to the history, by the seat with the book. Answers the entry's place.
    pub fn add<E: Posting>(&self, seat: &mut Seat<(), View>) -> u64
        requires site { seat.old.table_id ≡ B.table }
        requires book { seat.old.me.0.book ≡ true }
        requires room { length seat.old.me.0.log < 2 ^ 48 }
        requires numbers { E.entry.numbers ≡ numbers_of seat.old.me.0.parts }
        requires actor { HasOneActor (L.actors B.about) E.entry }
        requires law { MayPost (L.follows B.about) seat.old.me.0 E.entry }
        ensures same { (seat.new.table_id ≡ seat.old.table_id) × (seat.new.me ≡ (adds E.entry seat.old.me.0, seat.old.me.1)) }
        ensures made { Made (L.follows B.about) (L.actors B.about) (L.passes B.about) result seat.old.me.0 (adds E.entry seat.old.me.0) }
    {
        self.table
            .shared
            .fetch_add::<Makes<K, L, B, Adds<E>>>(seat, 0, 1)
    }

    /// The book goes to a seat of its own.
    pub fn cut_book(&self, seat: &mut Seat<(), View>) -> Seat<(), View>
        requires { seat.old.table_id ≡ B.table }
        ensures left { (seat.new.table_id ≡ seat.old.table_id) × (seat.new.me ≡ (without_book seat.old.me.0, seat.old.me.1)) }
        ensures right { (result.table_id ≡ seat.old.table_id) × (result.me ≡ (book_alone seat.old.me.0, [])) }
    {
        self.table.shared.split_seat::<CutBook>(seat)
    }

    /// The part of a number goes to a seat of its own.
    pub fn cut_part<N: Numbered>(&self, seat: &mut Seat<(), View>) -> Seat<(), View>
        requires { seat.old.table_id ≡ B.table }
        ensures left { (seat.new.table_id ≡ seat.old.table_id) × (seat.new.me ≡ (without_part N.number seat.old.me.0, seat.old.me.1)) }
        ensures right { (result.table_id ≡ seat.old.table_id) × (result.me ≡ (part_alone N.number seat.old.me.0, [])) }
    {
        self.table.shared.split_seat::<CutPart<N>>(seat)
    }

    /// The book is taken in.
    pub fn take_book(&self, seat: &mut Seat<(), View>, book: Seat<(), View>)
        requires site { (seat.old.table_id ≡ B.table) × (book.table_id ≡ B.table) }
        requires alone { book.me.1 ≡ [] }
        ensures { (seat.new.table_id ≡ seat.old.table_id) × (seat.new.me ≡ (with_book seat.old.me.0 book.me.0, seat.old.me.1)) }
    {
        self.table.shared.join_seat::<TakeBook>(seat, book);
    }

    /// Everything is taken in.
    pub fn take_all(&self, seat: &mut Seat<(), View>, other: Seat<(), View>)
        requires site { (seat.old.table_id ≡ B.table) × (other.table_id ≡ B.table) }
        requires alone { other.me.1 ≡ [] }
        ensures { (seat.new.table_id ≡ seat.old.table_id) × (seat.new.me ≡ (joined seat.old.me.0 other.me.0, seat.old.me.1)) }
    {
        self.table.shared.join_seat::<TakeAll>(seat, other);
    }
}
