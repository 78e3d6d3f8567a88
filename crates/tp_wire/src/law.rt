//! The law of a history, which the layer above gives, and the rule of the table that follows from it.

use crate::view::View;
use atomic_table::TableRule;
use std::marker::PhantomData;

/// What a history has to keep, by what its wire was told when it was opened, a value of type `K`.
pub trait Law<K> {
    ghost use Rattle.std.specs.Prelude.{ℕ, List};
    ghost use Rattle.tp_wire.specs.declared.view.Entry.{Entry};

    // Whether an entry may follow these.
    ghost follows: { K → List Entry → Entry → Type 0 };

    // The numbers below this one are those of actors. Each entry names one of them, and once.
    ghost actors: { K → ℕ };

    // How many passes are opened.
    ghost passes: { K → ℕ };
}

/// Names one wire, where nothing but a type is known of a value, as behind a lock.
pub trait Site<K> {
    ghost use Rattle.atomic_table.specs.Seated.{TableId};

    ghost table: { TableId };

    // What the wire was told.
    ghost about: { K };
}

/// The rule of a table whose history keeps a law.
pub struct Ruled<L>(PhantomData<L>);

impl<K, L: Law<K>> TableRule<(), View, K> for Ruled<L> {
    ghost use Rattle.tp_wire.specs.Rule.{Kept, first_view};

    ghost holds = { λ k s. Kept (L.follows k) (L.actors k) (L.passes k) s.words s.views };

    ghost first = { λ k. first_view (L.passes k) };
}
