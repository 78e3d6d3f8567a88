//! The bytes of names and numbers.
ghost use Rattle.std.specs.Prelude.{◌≡◌};
ghost use Rattle.tp_types.specs.Spelling as spelling;

/// The most bytes of a name.
pub const NAME_MAX: usize = 32;

/// The most digits of a number.
pub const DIGITS_MAX: usize = 15;

/// A lower-case letter.
pub fn is_letter(byte: u8) -> bool
    ensures { result ≡ spelling.is_letter byte }
{
    b'a' <= byte && byte <= b'z'
}

/// A digit.
pub fn is_digit(byte: u8) -> bool
    ensures { result ≡ spelling.is_digit byte }
{
    b'0' <= byte && byte <= b'9'
}

/// A lower-case letter, a digit or `_`.
pub fn is_name_byte(byte: u8) -> bool
    ensures { result ≡ spelling.is_name_byte byte }
{
    is_letter(byte) || is_digit(byte) || byte == b'_'
}
