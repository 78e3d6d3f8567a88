//! Numbers of a JSON text.
ghost use Rattle.std.specs.Prelude.{◌≡◌, ◌<◌, ◌==◌, length, slice_index, option_map, IsTrue};
ghost use Rattle.serde_json.specs.Find.{as_i64};
ghost use Rattle.serde_json.specs.Read.{float_of, number_from, number_of};
ghost use Rattle.std.specs.Prelude.{true, false};
ghost use Rattle.tp_json.specs.View.{number_view};

use fast_float::Numeral;

/// A number: a whole one that fits 64 bits, or else the nearest float.
#[derive(Clone, Copy)]
pub enum Number {
    Natural(u64),
    /// Below 0.
    Negative(i64),
    /// Finite.
    Float(f64),
}

impl Number {
    /// The number that a token of JSON spells; None where it is too large for a float.
    pub fn of(text: &str) -> Option<Number>
        ensures { option_map number_view result ≡ number_of text.now }
    {
        let bytes = text.as_bytes();
        if has_minus(bytes) {
            negative_of(&Numeral::scan(&bytes[1..]))
        } else {
            natural_of(&Numeral::scan(bytes))
        }
    }

    /// The number, where it is a whole one that fits 64 bits with its sign.
    pub fn as_i64(&self) -> Option<i64>
        ensures { result ≡ as_i64 (number_view self.now) }
    {
        match *self {
            Number::Natural(number) => {
                if number <= i64::MAX as u64 {
                    Some(number as i64)
                } else {
                    None
                }
            }
            Number::Negative(number) => Some(number),
            Number::Float(_) => None,
        }
    }
}

fn has_minus(bytes: &[u8]) -> bool
    ensures value { result ≡ (slice_index bytes.now 0 == 45) }
    ensures len { IsTrue result → 0 < length bytes.now }
{
    !bytes.is_empty() && bytes[0] == b'-'
}

fn natural_of(numeral: &Numeral<'_>) -> Option<Number>
    ensures { option_map number_view result ≡ number_from false numeral.now }
{
    match numeral.to_u64() {
        Some(number) => Some(Number::Natural(number)),
        None => nearest(false, numeral),
    }
}

fn negative_of(numeral: &Numeral<'_>) -> Option<Number>
    ensures { option_map number_view result ≡ number_from true numeral.now }
{
    if let Some(number) = numeral.to_i64(true) {
        if number < 0 {
            return Some(Number::Negative(number));
        }
    }
    nearest(true, numeral)
}

fn nearest(minus: bool, numeral: &Numeral<'_>) -> Option<Number>
    ensures { option_map number_view result ≡ float_of minus numeral.now }
{
    let number = numeral.to_float::<f64>(minus);
    if number.is_finite() {
        Some(Number::Float(number))
    } else {
        None
    }
}
