//! What each step of a seat does to its view, for the table: these types stand for definitions, and have no values.

use crate::law::{Law, Site};
use crate::view::View;
use atomic_table::{Join, Play, Split};
use std::marker::{Brand, PhantomData};

/// A look.
pub struct Looks<K, L, B>(PhantomData<(K, L, B)>);

impl<K, L: Law<K>, B: Site<K>> Play<(), View> for Looks<K, L, B> {
    ghost use Rattle.std.specs.Prelude.{◌≡◌};
    ghost use Rattle.tp_wire.specs.Passes.{IsLook};

    ghost then = { λ s v found w. IsLook (L.follows B.about) (L.actors B.about) found v.0 w.0 × (w.1 ≡ v.1) };
}

/// How the seat with the book changes.
pub trait Change {
    ghost use Rattle.tp_wire.specs.declared.view.View.{View};

    ghost next: { View → View };
}

/// A step of the seat with the book.
pub struct Makes<K, L, B, C>(PhantomData<(K, L, B, C)>);

impl<K, L: Law<K>, B: Site<K>, C: Change> Play<(), View> for Makes<K, L, B, C> {
    ghost use Rattle.std.specs.Prelude.{◌≡◌};
    ghost use Rattle.tp_wire.specs.mirrors.Moves.{Made};

    ghost then = { λ s v found w. Made (L.follows B.about) (L.actors B.about) (L.passes B.about) found v.0 (C.next v.0) × (w ≡ (C.next v.0, v.1)) };
}

/// It sees the whole history.
pub struct Reads;

impl Change for Reads {
    ghost use Rattle.tp_wire.specs.mirrors.Moves.{reads};

    ghost next = { reads };
}

/// It takes the first mail that is free.
pub struct Takes;

impl Change for Takes {
    ghost use Rattle.tp_wire.specs.mirrors.Moves.{takes};

    ghost next = { takes };
}

/// It finds no mail that is free.
pub struct Clears;

impl Change for Clears {
    ghost use Rattle.tp_wire.specs.mirrors.Moves.{clears};

    ghost next = { clears };
}

/// Names the entry that is posted.
pub trait Posting {
    ghost use Rattle.tp_wire.specs.declared.view.Entry.{Entry};

    ghost entry: { Entry };
}

impl Posting for Brand {
    ghost use Rattle.tp_wire.specs.mirrors.Moves.{no_entry};

    ghost entry = { no_entry };
}

/// It adds an entry.
pub struct Adds<E>(PhantomData<E>);

impl<E: Posting> Change for Adds<E> {
    ghost use Rattle.tp_wire.specs.mirrors.Moves.{adds};

    ghost next = { λ v. adds E.entry v };
}

/// The book goes to a seat of its own.
pub struct CutBook;

impl Split<View> for CutBook {
    ghost use Rattle.tp_wire.specs.mirrors.Moves.{without_book, book_alone};

    ghost left = { without_book };

    ghost right = { book_alone };
}

/// Names the part that is cut off.
pub trait Numbered {
    ghost use Rattle.std.specs.Prelude.{ℕ};

    ghost number: { ℕ };
}

impl Numbered for Brand {
    ghost number = { 0 };
}

/// The part of a number goes to a seat of its own.
pub struct CutPart<N>(PhantomData<N>);

impl<N: Numbered> Split<View> for CutPart<N> {
    ghost use Rattle.tp_wire.specs.Passes.{without_part, part_alone};

    ghost left = { λ v. without_part N.number v };

    ghost right = { λ v. part_alone N.number v };
}

/// The book is taken in.
pub struct TakeBook;

impl Join<View> for TakeBook {
    ghost use Rattle.tp_wire.specs.mirrors.Moves.{with_book, spent};

    ghost both = { with_book };

    ghost spent = { spent };
}

/// Everything is taken in.
pub struct TakeAll;

impl Join<View> for TakeAll {
    ghost use Rattle.tp_wire.specs.Passes.{joined};
    ghost use Rattle.tp_wire.specs.mirrors.Moves.{spent};

    ghost both = { joined };

    ghost spent = { spent };
}
