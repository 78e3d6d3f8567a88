//! A list that contracts see as the list of its members, and clones that equal what they copy.
ghost use Rattle.std.specs.Prelude.{◌≡◌, [], ◌∷◌, ◌++◌, ◌<◌, ◌↔◌, length, take, slice_get, slice_set, IfOk, OnOk, OnErr, IfSome, IfNone, IsSome, IsTrue};

use std::alloc::{AllocError, AllocFailed, Global};
use std::marker::Model;
use std::slice::Iter;

/// No memory was to be had. What the call would have changed is as its contract says.
#[derive(Clone, Copy, Debug, PartialEq)]
pub struct NoMemory;

impl From<AllocError> for NoMemory {
    fn from(_error: AllocError) -> NoMemory {
        NoMemory
    }
}

impl<T: Drop> From<AllocFailed<T>> for NoMemory {
    fn from(_error: AllocFailed<T>) -> NoMemory {
        NoMemory
    }
}

/// A copy that equals the value, or the want of memory for it.
/// It takes the allocator, since nothing else can hand one to it.
pub trait TryClone {
    fn try_clone(&self, alloc: Global) -> Result<Self, NoMemory>
        ensures { IfOk result (λ made. made ≡ self.now) };
}

/// A growing list. Contracts see it as the list of its members, so a copy equals what it copies.
#[derive(Drop)]
pub struct List<T> {
    items: Vec<T>,
}

impl<T> Model for List<T> {
    ghost use Rattle.std.specs.Prelude.{List};
    ghost use Rattle.std.specs.Coded.{coded_list};

    ghost Value = { List T };

    ghost coded = { coded_list T.code };

    ghost view = { λ l. l.items.items };
}

impl<T> List<T> {
    ghost use Rattle.std.specs.Option.{option_copied};
    ghost use Rattle.std.specs.List.{IsItemAtMut};
    ghost use Rattle.std.specs.Borrow.{sem};
    ghost use Rattle.std.specs.Slice.Iter.{iter_rest};
    ghost use Rattle.std.specs.Iterator.Adapters.{IterYieldsInOrder};
    ghost use Rattle.tp_types.specs.mirrors.Lends.{lends_get};

    /// The empty list, which takes no memory before its first member.
    pub fn new(alloc: Global) -> List<T>
        ensures { result ≡ [] }
    {
        List {
            items: Vec::new(alloc),
        }
    }

    /// The members of a vector, in their order.
    /// Beside the basic calls: this takes what an iterator collected, `put` replaces a member without lending it,
    /// `of_one` makes the list of one member, and `truncate` takes back what was added before memory was refused.
    pub fn from_vec(items: Vec<T>) -> List<T>
        ensures { result ≡ items.items }
    {
        List { items }
    }

    /// The members as the `Vec` that held them.
    pub fn into_vec(self) -> Vec<T>
        ensures { result.items ≡ self }
    {
        self.items
    }

    /// How many members there are.
    pub fn len(&self) -> usize
        ensures { result ≡ length self.now }
    {
        self.items.len()
    }

    /// Whether there is no member.
    pub fn is_empty(&self) -> bool
        ensures { IsTrue result ↔ (self.now ≡ []) }
    {
        self.items.is_empty()
    }

    /// The members in order.
    pub fn as_slice(&self) -> &[T]
        ensures { result.now ≡ self.now }
    {
        self.items.as_slice()
    }

    /// Lends the members one after another, in order.
    pub fn iter(&self) -> Iter<'_, T>
        ensures rest { iter_rest result ≡ self.now }
        ensures runs { IterYieldsInOrder T }
    {
        self.items.iter()
    }

    /// The member at a place that counts from 0, or None exactly where there is none.
    pub fn get(&self, at: usize) -> Option<&T>
        ensures { option_copied result ≡ slice_get self.now at }
    {
        self.items.get(at)
    }

    /// The member at a place, to be changed in place, or None exactly where there is none.
    pub fn get_mut(&mut self, at: usize) -> Option<&mut T>
        ensures* writes_back { sem 𝓛 (lends_get T.row self.entry at result) }
        ensures variant { IsSome result ↔ (at < length self.old) }
        ensures item { IsItemAtMut self.old at result }
    {
        self.items.get_mut(at)
    }
}

impl<T: Drop> List<T> {
    /// Adds a member at the end. Where memory is refused the list stays, and the member is dropped.
    #[inline(always)]
    pub fn push(&mut self, value: T) -> Result<(), NoMemory>
        ensures ok { OnOk result (self.new ≡ self.old ++ value ∷ []) }
        ensures err { OnErr result (self.new ≡ self.old) }
    {
        self.items.push(value)?;
        Ok(())
    }

    /// Takes the last member, or answers None exactly where there is none.
    pub fn pop(&mut self) -> Option<T>
        ensures some { IfSome result (λ last. self.old ≡ self.new ++ last ∷ []) }
        ensures none { IfNone result ((self.old ≡ []) × (self.new ≡ [])) }
    {
        self.items.pop()
    }

    /// Replaces the member at a place. Where there is no such place the list stays, and the value is dropped.
    pub fn put(&mut self, at: usize, value: T)
        ensures { self.new ≡ slice_set self.old at value }
    {
        if at < self.items.len() {
            self.items[at] = value;
        }
    }

    /// The list of one member.
    pub fn of_one(alloc: Global, value: T) -> Result<List<T>, NoMemory>
        ensures { IfOk result (λ made. made ≡ value ∷ []) }
    {
        let mut items = Vec::with_capacity(alloc, 1)?;
        items.push(value)?;
        Ok(List { items })
    }

    /// Keeps the first members, at most so many.
    pub fn truncate(&mut self, len: usize)
        ensures { self.new ≡ take len self.old }
    {
        self.items.truncate(len);
    }
}

impl<T: TryClone + Drop> TryClone for List<T> {
    fn try_clone(&self, alloc: Global) -> Result<Self, NoMemory> {
        let mut made = List::from_vec(Vec::with_capacity(alloc, self.len())?);
        for item in self.as_slice() {
            made.push(item.try_clone(alloc)?)?;
        }
        Ok(made)
    }
}

impl<T: PartialEq> PartialEq for List<T> {
    ghost use Rattle.std.specs.Cmp.Lexicographic.{pointwise, lists_per};

    ghost eq = { λ v w. pointwise T.eq v w };

    ghost laws = { lists_per T.laws };

    fn eq(&self, other: &Self) -> bool {
        self.as_slice() == other.as_slice()
    }
}
