//! Values that several tests are made of.
use std::process::Abort;
use tp_types::{List, Name};

/// A list of the members of an array.
pub fn list<T: Drop, const N: usize>(rt: &(impl Abort + AllocGlobal), members: [T; N]) -> List<T> {
    let made = Vec::from_array(rt.alloc(), members);
    List::from_vec(made.ok().expect(rt, "memory for a list"))
}

pub fn name(rt: &impl Abort, text: &str) -> Name {
    Name::of(text.as_bytes()).expect(rt, "a name")
}

/// Asserts what is wanted of the case of this number.
pub fn assert_case(rt: &impl Abort, at: usize, holds: bool) {
    assert!(*rt; holds, "case {at}");
}
