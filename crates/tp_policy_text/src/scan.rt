//! How far blanks, names and digits reach at the front of a text.
ghost use Rattle.std.specs.Prelude.{◌≡◌, ◌^◌, ◌≤◌, ◌<◌, length, pos, true};
ghost use Rattle.std.specs.List.{list_all};
ghost use Rattle.tp_types.specs.Spelling as spelling;
ghost use Rattle.tp_policy_text.specs.Lexis as lexis;
ghost use Rattle.tp_policy_text.specs.mirrors.Scans as scans;

use tp_types::{DIGITS_MAX, NAME_MAX, is_digit, is_letter, is_name_byte};

/// A space, a tab, a line feed or a carriage return.
fn is_blank(byte: u8) -> bool
    ensures { result ≡ lexis.is_blank byte }
{
    byte == b' ' || byte == b'\t' || byte == b'\n' || byte == b'\r'
}

/// What is left after the blanks in front.
pub(crate) fn after_blanks(text: &[u8]) -> &[u8]
    ensures { result.now ≡ lexis.skip text.now }
{
    for (count, byte) in text.iter().enumerate() {
        if !is_blank(*byte) {
            return text.split_at(count).1;
        }
    }
    &[]
}

/// The byte goes on with a name of which so many were read.
fn follows(count: usize, byte: u8) -> bool
    ensures { result ≡ scans.follows count byte }
{
    if count == 0 {
        is_letter(byte)
    } else {
        is_name_byte(byte) && count < NAME_MAX
    }
}

/// How many bytes in front go on with one name.
pub(crate) fn name_reach(text: &[u8]) -> usize
    ensures value { result ≡ scans.reach scans.follows 0 text.now }
    ensures within { result ≤ length text.now }
{
    for (count, byte) in text.iter().enumerate() {
        if !follows(count, *byte) {
            return count;
        }
    }
    text.len()
}

/// The byte goes on with a number of which so many digits were read, and which does not begin with 0.
fn is_next_digit(count: usize, byte: u8) -> bool
    ensures { result ≡ scans.is_next_digit count byte }
{
    is_digit(byte)
        && if count == 0 {
            byte != b'0'
        } else {
            count < DIGITS_MAX
        }
}

/// How many digits in front go on with one number that does not begin with 0.
fn digit_run(text: &[u8]) -> usize
    ensures value { result ≡ scans.reach scans.is_next_digit 0 text.now }
    ensures within { result ≤ length text.now }
{
    for (count, byte) in text.iter().enumerate() {
        if !is_next_digit(count, *byte) {
            return count;
        }
    }
    text.len()
}

/// How many digits in front go on with one number, which does not begin with 0 where it has another digit or a sign.
pub(crate) fn digit_reach(negative: bool, text: &[u8]) -> usize
    ensures value { result ≡ scans.digit_reach negative text.now }
    ensures within { result ≤ length text.now }
{
    match text.split_first() {
        None => 0,
        Some((b'0', _)) => usize::from(!negative),
        Some((_, _)) => digit_run(text),
    }
}

fn value_of(digits: &[u8]) -> u64
    requires short { length digits.now ≤ 15 }
    requires are_digits { list_all spelling.is_digit digits.now ≡ true }
    ensures value { result ≡ spelling.spelled_from 0 digits.now }
    ensures small { result < 10 ^ 15 }
{
    let mut value: u64 = 0;
    for digit in digits {
        value = value * 10 + u64::from(*digit - b'0');
    }
    value
}

/// The number that at most 15 digits spell.
pub(crate) fn number_of(digits: &[u8]) -> i64
    requires short { length digits.now ≤ 15 }
    requires are_digits { list_all spelling.is_digit digits.now ≡ true }
    ensures value { result ≡ pos (spelling.spelled_from 0 digits.now) }
    ensures small { spelling.spelled_from 0 digits.now < 10 ^ 15 }
{
    value_of(digits) as i64
}
