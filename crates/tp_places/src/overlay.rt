//! A table of what has been written over others' places.
ghost use Rattle.std.specs.Prelude.{◌≡◌, ◌≤◌, ◌<◌, ◌-◌, Some, None, length, replicate, slice_get, slice_set, vec_len, vec_capacity, IfOk, IfSome};
ghost use Rattle.std.specs.Option.{option_flatten};
ghost use Rattle.tp_places.specs.Padded.{padded};
ghost use Rattle.tp_places.specs.Turned.{place_of, turned};

use std::alloc::Global;
use std::marker::Model;
use tp_types::{NoMemory, TryClone};

/// A table with a place for each number below a count, where most places stay empty and those that are filled stand near each
/// other. There is room for all from the start, so that filling one takes no memory. Places are made from a first one on, as
/// far as they are filled, and only behind the last those before the first. Contracts see all places in their order.
#[derive(Drop)]
pub struct Overlay<T> {
    count: usize,
    first: usize,
    made: Vec<Option<T>>,
}

impl<T> Model for Overlay<T> {
    ghost use Rattle.std.specs.Prelude.{◌≤◌, ◌-◌, List, Option, vec_len, vec_capacity};
    ghost use Rattle.std.specs.Coded.{coded_list, coded_option};
    ghost use Rattle.tp_places.specs.Padded.{padded};
    ghost use Rattle.tp_places.specs.Turned.{turned};

    ghost Value = { List (Option T) };

    ghost coded = { coded_list (coded_option T.code) };

    ghost view = { λ o. turned (o.count - o.first) (padded o.made.items o.count) };

    ghost invariant = { λ o. (o.first ≤ o.count) × ((vec_len o.made ≤ o.count) × (o.count ≤ vec_capacity o.made)) };
}

/// Where a number stands among the places as they are made: those from the first one on, and then those before it.
fn place_among(count: usize, first: usize, at: usize) -> usize
    requires first { first ≤ count }
    requires within { at < count }
    ensures { result ≡ place_of count first at }
{
    if at < first {
        count - first + at
    } else {
        at - first
    }
}

/// Makes the places up to this one, each empty. There is room for them.
fn reach<T: Copy + Drop>(made: &mut Vec<Option<T>>, count: usize, place: usize)
    requires few { vec_len made.old ≤ count }
    requires room { count ≤ vec_capacity made.old }
    requires within { place < count }
    ensures same { padded made.new.items count ≡ padded made.old.items count }
    ensures few { vec_len made.new ≤ count }
    ensures room { vec_capacity made.new ≡ vec_capacity made.old }
    ensures reached { place < vec_len made.new }
{
    while made.len() <= place {
        made.push_reserved(None);
    }
}

impl<T: Copy + Drop> Overlay<T> {
    /// So many empty places, which will be made from this one on; from number 0 on where there is no such place.
    pub fn none(alloc: Global, count: usize, first: usize) -> Result<Overlay<T>, NoMemory>
        ensures { IfOk result (λ made. made ≡ replicate count None) }
    {
        Ok(Overlay {
            count,
            first: first.min(count),
            made: Vec::with_capacity(alloc, count)?,
        })
    }

    /// What stands at a place, or None where nothing does.
    pub fn get(&self, at: usize) -> Option<T>
        ensures { result ≡ option_flatten (slice_get self.now at) }
    {
        if at >= self.count {
            return None;
        }
        match self.made.get(place_among(self.count, self.first, at)) {
            None => None,
            Some(place) => *place,
        }
    }

    /// Puts a value at a place. Where there is no such place the table stays. It takes no memory.
    pub fn put(&mut self, at: usize, value: T)
        ensures { self.new ≡ slice_set self.old at (Some value) }
    {
        if at < self.count {
            let place = place_among(self.count, self.first, at);
            reach(&mut self.made, self.count, place);
            self.made[place] = Some(value);
        }
    }
}

impl<T: Copy + Drop> TryClone for Overlay<T> {
    fn try_clone(&self, alloc: Global) -> Result<Self, NoMemory> {
        let mut made = Vec::with_capacity(alloc, self.count)?;
        for place in &self.made {
            made.push_reserved(*place);
        }
        Ok(Overlay {
            count: self.count,
            first: self.first,
            made,
        })
    }
}
