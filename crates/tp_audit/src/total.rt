//! Sums that no number of terms overflows.
ghost use Rattle.std.specs.Prelude.{◌≡◌, ℕ, ◌+◌, ◌^◌, pos, neg_ℤ, ◌+ℤ◌, ◌-ℤ◌, ◌<ℤ◌, ◌≤ℤ◌};
ghost use Rattle.std.specs.Ordering.{int_eq};
ghost use Rattle.tp_audit.specs.mirrors.Programs as program;
ghost use Rattle.tp_model.specs.Queries.{with_sign};

/// A sum that may be past an i128: its part in that range, and how often it wrapped, counted up above and down below.
#[derive(Clone, Copy)]
pub struct Total {
    pub part: i128,
    pub wraps: i128,
}

/// The sum of no terms.
pub fn nothing() -> Total
    ensures value { program.value_of result ≡ pos 0 }
    ensures wraps { result.wraps ≡ pos 0 }
{
    Total { part: 0, wraps: 0 }
}

/// A sum that is past the greatest i128, less 2^128.
fn wrapped_above(part: i128, term: i128) -> i128
    requires { pos (2 ^ 127) ≤ℤ (part +ℤ term) }
    ensures { result ≡ (part +ℤ term) -ℤ pos (2 ^ 128) }
{
    (part + i128::MIN) + (term + i128::MIN)
}

/// A sum that is past the least i128, and 2^128 more.
fn wrapped_below(part: i128, term: i128) -> i128
    requires { (part +ℤ term) <ℤ neg_ℤ (pos (2 ^ 127)) }
    ensures { result ≡ (part +ℤ term) +ℤ pos (2 ^ 128) }
{
    (part - i128::MIN) + (term - i128::MIN)
}

/// The sum with one more term.
pub fn plus(total: Total, term: i128) -> Total
    requires { program.HasWrapped (2 ^ 100) total }
    ensures value { program.value_of result ≡ program.value_of total +ℤ term }
    ensures wraps { (most : ℕ) → program.HasWrapped most total
        → program.HasWrapped (most + 1) result }
{
    let Total { part, wraps } = total;
    match part.checked_add(term) {
        Some(sum) => Total { part: sum, wraps },
        None if term < 0 => Total {
            part: wrapped_below(part, term),
            wraps: wraps - 1,
        },
        None => Total {
            part: wrapped_above(part, term),
            wraps: wraps + 1,
        },
    }
}

/// The sum with one term taken away. The least i128 has no negative, so one is added apart.
pub fn minus(total: Total, term: i128) -> Total
    requires { program.HasWrapped (2 ^ 99) total }
    ensures value { program.value_of result ≡ program.value_of total -ℤ term }
    ensures wraps { (most : ℕ) → program.HasWrapped most total
        → program.HasWrapped (most + 2) result }
{
    if term < 0 {
        plus(plus(total, -(term + 1)), 1)
    } else {
        plus(total, -term)
    }
}

/// The sum of a carry and of two digits, of which the second may be taken away.
pub fn column(carry: i128, one: i128, other: i128, is_taken: bool) -> Total
    ensures { program.value_of result ≡ (carry +ℤ one) +ℤ with_sign is_taken other }
{
    let total = plus(plus(nothing(), carry), one);
    if is_taken {
        minus(total, other)
    } else {
        plus(total, other)
    }
}

/// The value is the sum.
pub fn is_total(value: i128, total: Total) -> bool
    ensures { result ≡ int_eq value (program.value_of total) }
{
    total.wraps == 0 && value == total.part
}
