//! A table that keeps its first places alone in memory.
ghost use Rattle.std.specs.Prelude.{◌≡◌, ◌-◌, ◌++◌, Some, None, length, replicate, slice_get, slice_set, OnOk, OnErr};
ghost use Rattle.std.specs.Option.{option_copied, option_flatten};
ghost use Rattle.tp_places.specs.Padded.{padded};
ghost use Rattle.tp_types.specs.Table.{is_unset};

use std::alloc::Global;
use std::marker::Model;
use tp_types::{List, NoMemory, TryClone, take_at};

/// A table with a place for each number below a count, where most places stay empty: it takes memory for the first
/// places only, up to the last that was ever filled. Contracts see all places.
#[derive(Drop)]
pub struct Places<T> {
    count: usize,
    made: List<Option<T>>,
}

impl<T> Model for Places<T> {
    ghost use Rattle.std.specs.Prelude.{List, Option};
    ghost use Rattle.std.specs.Coded.{coded_list, coded_option};
    ghost use Rattle.tp_places.specs.Padded.{padded};

    ghost Value = { List (Option T) };

    ghost coded = { coded_list (coded_option T.code) };

    ghost view = { λ p. padded p.made p.count };
}

impl<T: Drop> Places<T> {
    ghost use Rattle.std.specs.Borrow.{sem};
    ghost use Rattle.std.specs.Option.{option_copied_mut};
    ghost use Rattle.tp_places.specs.mirrors.Lends.{lends_place};

    /// So many empty places, which take no memory.
    pub fn none(alloc: Global, count: usize) -> Places<T>
        ensures { result ≡ replicate count None }
    {
        Places {
            count,
            made: List::new(alloc),
        }
    }

    /// These places, and empty ones behind them up to so many in all.
    pub fn from_made(count: usize, made: List<Option<T>>) -> Places<T>
        ensures { result ≡ padded made count }
    {
        Places { count, made }
    }

    /// How many places there are.
    pub fn count(&self) -> usize
        ensures { result ≡ length self.now }
    {
        if self.made.len() < self.count {
            self.count
        } else {
            self.made.len()
        }
    }

    /// What stands at a place, or None where nothing does.
    pub fn get(&self, at: usize) -> Option<&T>
        ensures { option_copied result ≡ option_flatten (slice_get self.now at) }
    {
        match self.made.get(at) {
            None => None,
            Some(place) => place.as_ref(),
        }
    }

    /// What stands at a place, to be changed in place, or None where nothing does.
    pub fn get_mut(&mut self, at: usize) -> Option<&mut T>
        ensures* writes_back { sem 𝓛 (lends_place T.row self.entry at result) }
        ensures item { option_copied_mut result ≡ option_flatten (slice_get self.old at) }
    {
        match self.made.get_mut(at) {
            None => None,
            Some(place) => place.as_mut(),
        }
    }

    /// Whether there is such a place and nothing stands there.
    pub fn is_unset(&self, at: usize) -> bool
        ensures { result ≡ is_unset (slice_get self.now at) }
    {
        match self.made.get(at) {
            None => at < self.count,
            Some(place) => place.is_none(),
        }
    }

    /// Puts a value at a place. Where there is no such place the table stays, and the value is dropped.
    #[inline(always)]
    pub fn put(&mut self, at: usize, value: T) -> Result<(), NoMemory>
        ensures ok { OnOk result (self.new ≡ slice_set self.old at (Some value)) }
        ensures err { OnErr result (self.new ≡ self.old) }
    {
        if at < self.made.len() {
            self.made.put(at, Some(value));
            return Ok(());
        }
        if at >= self.count {
            return Ok(());
        }
        while self.made.len() < at {
            self.made.push(None)?;
        }
        self.made.push(Some(value))
    }

    /// Takes what stands at a place, and leaves the place empty.
    pub fn take(&mut self, at: usize) -> Option<T>
        ensures value { result ≡ option_flatten (slice_get self.old at) }
        ensures left { self.new ≡ slice_set self.old at None }
    {
        take_at(&mut self.made, at)
    }

    /// Empties a place.
    pub fn clear(&mut self, at: usize)
        ensures { self.new ≡ slice_set self.old at None }
    {
        self.made.put(at, None);
    }

    /// The places that are in memory. All others are behind them, and empty.
    pub fn made(&self) -> &[Option<T>]
        ensures { self.now ≡ result.now ++ replicate (length self.now - length result.now) None }
    {
        self.made.as_slice()
    }

    /// The same, where the table is needed no more.
    pub fn into_made(self) -> List<Option<T>>
        ensures { self ≡ result ++ replicate (length self - length result) None }
    {
        self.made
    }
}

impl<T: TryClone + Drop> TryClone for Places<T> {
    fn try_clone(&self, alloc: Global) -> Result<Self, NoMemory> {
        let mut made = List::from_vec(Vec::with_capacity(alloc, self.made.len())?);
        for place in self.made.as_slice() {
            match place {
                None => made.push(None)?,
                Some(value) => made.push(Some(value.try_clone(alloc)?))?,
            }
        }
        Ok(Places {
            count: self.count,
            made,
        })
    }
}
