//! The draws: a linear congruential generator with a modulus of 2^31, of which the upper bits are taken.
ghost use Rattle.std.specs.Prelude.{◌≡◌, ◌<◌};
ghost use Rattle.tp_bulk.specs.Bulk as bulk;

/// The number behind this one.
pub(crate) fn next_state(x: u64) -> u64
    requires here { x < 2147483648 }
    ensures value { result ≡ bulk.next_state x }
    ensures bound { result < 2147483648 }
{
    (1_103_515_245 * x + 12_345) % 2_147_483_648
}

/// What is drawn at a number, below a bound.
pub(crate) fn drawn_below(x: u64, bound: u64) -> u64
    requires some { 0 < bound }
    ensures value { result ≡ bulk.drawn_below x bound }
    ensures small { result < bound }
{
    x / 65_536 % bound
}
