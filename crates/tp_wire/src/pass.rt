//! A pass: what a thread carries that says what it has seen of the history.
ghost use Rattle.std.specs.Prelude.{◌≡◌, [], true, false};

use crate::view::View;
use atomic_table::Seat;
use std::marker::Model;

/// What one holder has seen of a wire's history, and the parts of it that are its own. It holds no copy of them: what
/// it knows stands in proofs alone, and of bytes it has the one that says whether it is given up.
#[derive(Drop)]
pub struct Pass {
    pub(crate) seat: Seat<(), View>,
    pub(crate) given_up: bool,
}

impl Model for Pass {
    ghost use Rattle.std.specs.Prelude.{◌≡◌, []};
    ghost use Rattle.tp_wire.specs.Passes.{Known};

    ghost Value = { Known };

    ghost view = { λ p. record { table = p.seat.table_id; view = p.seat.me.0; given_up = p.given_up } };

    ghost invariant = { λ p. p.seat.me.1 ≡ [] };
}

impl Pass {
    /// The pass of a seat, which is not given up.
    pub(crate) fn of(seat: Seat<(), View>) -> Pass
        requires { seat.me.1 ≡ [] }
        ensures { result ≡ record { table = seat.table_id; view = seat.me.0; given_up = false } }
    {
        Pass {
            seat,
            given_up: false,
        }
    }

    /// Whether a call with it has met want of memory. Then it is of no further use but to look and to close.
    pub fn given_up(&self) -> bool
        ensures { result ≡ self.now.given_up }
    {
        self.given_up
    }

    /// Gives it up, as who meets want of memory under a call of its own.
    pub fn give_up(&mut self)
        ensures { self.new ≡ record self.old { given_up = true } }
    {
        self.given_up = true;
    }

    /// Its seat.
    pub(crate) fn into_seat(self) -> Seat<(), View>
        ensures { (result.table_id ≡ self.table) × (result.me ≡ (self.view, [])) }
    {
        self.seat
    }
}
