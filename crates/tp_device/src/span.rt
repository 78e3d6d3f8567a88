//! Ranges of bytes.

/// A range of bytes: the place of the first, and how many there are.
#[derive(Clone, Copy, Debug, PartialEq)]
pub struct Span {
    pub at: u64,
    pub len: u64,
}
