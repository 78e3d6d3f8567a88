//! Numbers, which have one spelling.
ghost use Rattle.std.specs.Prelude.{◌≡◌, ◌^◌, ◌<◌, ◌≤◌, length, IsTrue, IfSome, true};
ghost use Rattle.std.specs.List.{list_all};
ghost use Rattle.tp_types.specs.Spelling as spelling;

use crate::spelling::{DIGITS_MAX, is_digit};

fn are_digits(bytes: &[u8]) -> bool
    ensures { result ≡ list_all spelling.is_digit bytes.now }
{
    bytes.iter().all(|byte| is_digit(*byte))
}

fn is_number(bytes: &[u8]) -> bool
    ensures value { result ≡ spelling.is_number bytes.now }
    ensures digits { IsTrue result → list_all spelling.is_digit bytes.now ≡ true }
    ensures short { IsTrue result → length bytes.now ≤ 15 }
{
    match bytes.split_first() {
        None => false,
        Some((first, others)) => {
            if others.is_empty() {
                is_digit(*first)
            } else {
                is_digit(*first) && b'0' < *first && are_digits(others) && others.len() < DIGITS_MAX
            }
        }
    }
}

fn spelled(digits: &[u8]) -> u64
    requires digits { list_all spelling.is_digit digits.now ≡ true }
    requires short { length digits.now ≤ 15 }
    ensures value { result ≡ spelling.spelled_from 0 digits.now }
    ensures small { result < 10 ^ 15 }
{
    let mut value: u64 = 0;
    for digit in digits {
        value = value * 10 + u64::from(*digit - b'0');
    }
    value
}

/// The number that the bytes spell: `0`, or 1 to 15 digits of which the first is not `0`; None exactly for another spelling.
pub fn number_of(bytes: &[u8]) -> Option<u64>
    ensures value { result ≡ spelling.number_of bytes.now }
    ensures small { IfSome result (λ number. number < 10 ^ 15) }
{
    if is_number(bytes) {
        Some(spelled(bytes))
    } else {
        None
    }
}
