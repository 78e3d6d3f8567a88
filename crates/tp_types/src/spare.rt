//! Memory that short lists use one after another.
ghost use Rattle.std.specs.Prelude.{◌≡◌, ◌≤◌, [], ◌∷◌, IfOk};
ghost use Rattle.std.specs.Vec.{vec_capacity, vec_len};

use crate::list::{List, NoMemory};
use std::alloc::Global;
use std::mem;

/// The memory of a list that was used up, for the next one of its kind, so that lists of which one follows another take
/// memory once. Contracts see nothing of it.
#[derive(Drop)]
pub struct Spare<T> {
    room: Vec<T>,
}

impl<T: Drop> Spare<T> {
    /// No memory yet.
    pub fn new(alloc: Global) -> Spare<T> {
        Spare {
            room: Vec::new(alloc),
        }
    }

    /// Where its memory comes from, so that who is lent it takes other memory there too.
    #[inline(always)]
    pub fn alloc(&self) -> Global {
        *self.room.allocator()
    }

    /// An empty vector with room for so many members, in the memory that was kept if there is some.
    #[inline(always)]
    pub fn room(&mut self, count: usize) -> Result<Vec<T>, NoMemory>
        ensures empty { IfOk result (λ room. vec_len room ≡ 0) }
        ensures room { IfOk result (λ room. count ≤ vec_capacity room) }
    {
        let mut room = self.take();
        room.clear();
        room.reserve(count)?;
        Ok(room)
    }

    /// The list of one member, in the memory that was kept if there is some.
    #[inline(always)]
    pub fn list_of(&mut self, value: T) -> Result<List<T>, NoMemory>
        ensures { IfOk result (λ made. made ≡ value ∷ []) }
    {
        let mut items = self.take();
        items.clear();
        items.push(value)?;
        Ok(List::from_vec(items))
    }

    /// Takes the memory that was kept.
    #[inline(always)]
    fn take(&mut self) -> Vec<T> {
        let alloc = self.alloc();
        mem::replace(&mut self.room, Vec::new(alloc))
    }

    /// Keeps the memory of a list. What stands in it is dropped.
    #[inline(always)]
    pub fn keep(&mut self, used: List<T>) {
        let room = used.into_vec();
        if 0 < room.capacity() {
            self.room = room;
        }
    }
}
