//! Names, which have one spelling, and texts, which have any.
ghost use Rattle.std.specs.Prelude.{◌≡◌, MatchOption};
ghost use Rattle.tp_types.specs.Spelling as spelling;
ghost use Rattle.tp_types.specs.Spelling.{IsName};
ghost use Rattle.std.specs.List.{list_all};

use crate::list::{List, NoMemory, TryClone};
use crate::spelling::{NAME_MAX, is_letter, is_name_byte};
use std::alloc::Global;
use std::marker::Model;

/// A name: a lower-case letter and at most 31 lower-case letters, digits and `_`. Contracts see its bytes. They stand in
/// the value itself, so that a name takes no memory of its own.
#[derive(Drop)]
pub struct Name {
    /// The bytes, and zeros behind them.
    room: [u8; NAME_MAX],
    /// How many bytes there are.
    len: usize,
}

impl Model for Name {
    ghost use Rattle.std.specs.Prelude.{◌≤◌, List, ℕ, take};
    ghost use Rattle.std.specs.Coded.{coded_list, coded_ℕ};
    ghost use Rattle.tp_types.specs.Spelling.{IsName};

    ghost Value = { List ℕ };

    ghost coded = { coded_list coded_ℕ };

    ghost view = { λ n. take n.len n.room };

    ghost invariant = { λ n. (n.len ≤ 32) × IsName (take n.len n.room) };
}

impl Name {
    /// The name that these bytes spell, or None exactly for another spelling.
    pub fn of(bytes: &[u8]) -> Option<Name>
        ensures { MatchOption result (¬ IsName bytes.now)
            (λ name. IsName bytes.now × (name ≡ bytes.now)) }
    {
        if !is_name(bytes) {
            return None;
        }
        let len = bytes.len();
        let mut room = [0; NAME_MAX];
        room[..len].copy_from_slice(bytes);
        Some(Name { room, len })
    }

    /// The name's bytes, as it is spelled.
    pub fn bytes(&self) -> &[u8]
        ensures value { result.now ≡ self.now }
        ensures spelled { IsName self.now }
    {
        &self.room[..self.len]
    }
}

impl PartialEq for Name {
    ghost use Rattle.std.specs.Prelude.{nat_eq};
    ghost use Rattle.std.specs.Cmp.{partial_equiv_from_equiv};
    ghost use Rattle.std.specs.Cmp.Lexicographic.{nat_list_eq_equiv, pointwise};

    ghost eq = { pointwise nat_eq };

    ghost laws = { partial_equiv_from_equiv nat_list_eq_equiv };

    fn eq(&self, other: &Self) -> bool {
        self.bytes() == other.bytes()
    }
}

impl TryClone for Name {
    fn try_clone(&self, _alloc: Global) -> Result<Self, NoMemory> {
        Ok(Name {
            room: self.room,
            len: self.len,
        })
    }
}

/// Any bytes.
#[derive(Drop)]
pub struct Text(pub List<u8>);

impl TryClone for Text {
    fn try_clone(&self, alloc: Global) -> Result<Self, NoMemory> {
        Ok(Text(self.0.try_clone(alloc)?))
    }
}

fn are_name_bytes(bytes: &[u8]) -> bool
    ensures { result ≡ list_all spelling.is_name_byte bytes.now }
{
    bytes.iter().all(|byte| is_name_byte(*byte))
}

/// Whether the bytes are spelled as a name.
pub fn is_name(bytes: &[u8]) -> bool
    ensures { result ≡ spelling.is_name bytes.now }
{
    match bytes.split_first() {
        None => false,
        Some((first, others)) => {
            is_letter(*first) && others.len() < NAME_MAX && are_name_bytes(others)
        }
    }
}
