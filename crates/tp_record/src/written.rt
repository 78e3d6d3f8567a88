//! Bytes that are being written, at the end.
ghost use Rattle.std.specs.Prelude.{◌≡◌, ◌≤◌, ◌<◌, ◌+◌, [], ◌∷◌, ◌++◌, length, take, drop, OnErr, OnOk};
ghost use Rattle.tp_record.specs.Spelling as spell;
ghost use Rattle.tp_record.specs.mirrors.Room.{room_of};

use std::alloc::Global;
use std::marker::Model;
use tp_types::NoMemory;

/// Room for a usual record and the one byte that a log puts behind it, in bytes, so that it takes no memory.
const USUAL: usize = 256;

/// How many bytes of room are made behind those that are asked for.
const BEYOND: usize = 512;

/// Puts a count into the first four bytes.
#[tactic(auto, unfolding(crate::specs::Spelling::short))]
fn put_count(bytes: &mut [u8], count: usize)
    requires { 4 ≤ length bytes.old }
    ensures fits { length bytes.new ≡ length bytes.old }
    ensures counted { bytes.new ≡ spell.short count ++ drop 4 bytes.old }
{
    let count = (count as u64).to_be_bytes();
    bytes[..4].copy_from_slice(&count[4..]);
}

/// Writes a piece into the room, behind what was written.
#[inline(always)]
fn put_behind(room: &mut [u8], len: usize, piece: &[u8])
    requires { len + length piece.now ≤ length room.old }
    ensures fits { length room.new ≡ length room.old }
    ensures written { take (len + length piece.now) room.new ≡ take len room.old ++ piece.now }
{
    room[len..len + piece.len()].copy_from_slice(piece);
}

/// Makes room in `far` up to this length and well beyond it, so that it is seldom called. It begins with what stood in
/// the room before.
#[inline(never)]
fn make_room(near: &[u8; USUAL], far: &mut Vec<u8>, end: usize) -> Result<(), NoMemory>
    requires { length (room_of near.now far.old.items) < end }
    ensures stays { OnOk result (take (length (room_of near.now far.old.items)) far.new.items
        ≡ room_of near.now far.old.items) }
    ensures fits { OnOk result (end ≤ length far.new.items) }
    ensures refused { OnErr result (far.new.items ≡ far.old.items) }
{
    let is_first = far.is_empty();
    far.resize(end.saturating_add(BEYOND), 0)?;
    if is_first {
        put_behind(far, 0, near);
    }
    Ok(())
}

/// Bytes that are being written. Up to 256 of them stand in the value itself, and only more take memory. The room for
/// them is there before them, so that a number is one copy into it.
#[derive(Drop)]
pub struct Writer {
    /// The room, while `far` is empty.
    near: [u8; USUAL],
    /// The room, once 256 bytes did not do.
    far: Vec<u8>,
    /// How many bytes were written.
    len: usize,
}

impl Model for Writer {
    ghost use Rattle.std.specs.Prelude.{◌≤◌, ℕ, List, length, take};
    ghost use Rattle.tp_record.specs.mirrors.Room.{room_of};

    ghost Value = { List ℕ };

    ghost view = { λ w. take w.len (room_of w.near w.far.items) };

    // The room is never shorter than `near`, so what fits that and not `far` goes to `near`.
    ghost invariant = { λ w. (w.len ≤ length (room_of w.near w.far.items))
        × (256 ≤ length (room_of w.near w.far.items)) };
}

impl Writer {
    /// Nothing is written yet, and no memory is taken.
    #[inline(always)]
    pub fn new(alloc: Global) -> Writer
        ensures { result ≡ [] }
    {
        Writer {
            near: [0; USUAL],
            far: Vec::new(alloc),
            len: 0,
        }
    }

    /// Writes these bytes at the end.
    #[inline(always)]
    pub(crate) fn put(&mut self, piece: &[u8]) -> Result<(), NoMemory>
        ensures { OnOk result (self.new ≡ self.old ++ piece.now) }
    {
        let end = self.len + piece.len();
        if end <= self.far.len() {
            put_behind(&mut self.far, self.len, piece);
        } else if end <= USUAL {
            put_behind(&mut self.near, self.len, piece);
        } else {
            make_room(&self.near, &mut self.far, end)?;
            put_behind(&mut self.far, self.len, piece);
        }
        self.len = end;
        Ok(())
    }

    /// Writes a byte at the end.
    #[inline(always)]
    pub fn push(&mut self, byte: u8) -> Result<(), NoMemory>
        ensures { OnOk result (self.new ≡ self.old ++ byte ∷ []) }
    {
        self.put(&[byte])
    }

    /// Forgets what was written, and keeps the room.
    pub(crate) fn clear(&mut self)
        ensures { self.new ≡ [] }
    {
        self.len = 0;
    }

    /// Puts a count into the first four bytes.
    pub(crate) fn set_count(&mut self, count: usize)
        requires { 4 ≤ length self.old }
        ensures { self.new ≡ spell.short count ++ drop 4 self.old }
    {
        if self.far.is_empty() {
            put_count(&mut self.near, count);
        } else {
            put_count(&mut self.far, count);
        }
    }

    /// What was written.
    pub fn as_slice(&self) -> &[u8]
        ensures { result.now ≡ self.now }
    {
        if self.far.is_empty() {
            let near: &[u8] = &self.near;
            &near[..self.len]
        } else {
            &self.far[..self.len]
        }
    }

    /// How many bytes were written.
    pub fn len(&self) -> usize
        ensures { result ≡ length self.now }
    {
        self.len
    }
}
