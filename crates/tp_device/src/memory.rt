//! A disk in memory, which can be stopped and crash.
ghost use Rattle.std.specs.Prelude.{◌≡◌, ◌≤◌, ◌<◌, ◌⊎◌, ◌++◌, ℕ, List, length, Some, None, drop, take, min, OnOk, OnErr, IfOk, IsErrOf};
ghost use Rattle.std.specs.List.{cons_option};
ghost use Rattle.std.proofs.Common.{inl, inr, ⊎_elim};
ghost use Rattle.tp_device.specs.Disks as disks;
ghost use Rattle.tp_device.specs.Disks.{Cut, CallEffect, MayLeave, Passes, ReadsAt, Sync, Write};
ghost use Rattle.tp_types.specs.Faults.{one_more};
ghost use Rattle.tp_device.specs.Faults.{HasCause};
ghost use Rattle.tp_device.specs.Memory as memory;
ghost use Rattle.tp_device.specs.Memory.{Calls};

use crate::disk::{Disk, DiskError};
use crate::span::Span;
use std::alloc::{AllocError, Global};
use std::marker::Model;
use std::mem;
use tp_types::{List, NoMemory};

/// The bytes that a fresh disk has room for, so that a short log does not move.
const FIRST_BYTES: usize = 128;

/// How many calls still pass, and how many faults there have been.
#[derive(Drop)]
struct Fuse {
    left: Option<u32>,
    faults: u64,
}

impl Fuse {
    /// Lets a call begin, or counts a fault where no call passes any more.
    fn enter(&mut self) -> Result<(), DiskError>
        ensures ok { OnOk result ((self.old.left ≡ Some 0 → ⊥) × (self.new ≡ self.old)) }
        ensures err { OnErr result ((self.old.left ≡ Some 0) × (self.new ≡ record self.old {
          faults = one_more self.old.faults;
        })) }
        ensures failed { result ≡ Err DiskError.NoMemory → ⊥ }
    {
        if self.left == Some(0) {
            self.faults = self.faults.saturating_add(1);
            return Err(DiskError::Failed);
        }
        Ok(())
    }

    /// Counts a call that passed.
    fn pass(&mut self)
        ensures { self.new ≡ record self.old { left = memory.fewer_calls self.old.left } }
    {
        if let Some(left) = self.left {
            self.left = Some(left.saturating_sub(1));
        }
    }
}

/// Puts the front of what there is into the front of the buffer, and answers how many bytes.
fn copy_front(content: &[u8], buf: &mut [u8]) -> usize
    ensures count { result ≡ min (length buf.old) (length content.now) }
    ensures bytes { buf.new ≡ take result content.now ++ drop result buf.old }
{
    let count = buf.len().min(content.len());
    buf[..count].copy_from_slice(&content[..count]);
    count
}

/// Writes over the content from a place on, and past its end.
fn overwrite(content: &mut Vec<u8>, at: usize, piece: &[u8]) -> Result<(), AllocError>
    requires { at ≤ length content.old.items }
    ensures ok { OnOk result (content.new.items ≡ disks.with_piece content.old.items at piece.now) }
    ensures err { OnErr result (content.new.items ≡ content.old.items) }
{
    // a record goes behind the end, and the byte of its gate into the content: each is one copy
    if at == content.len() {
        return content.extend_from_slice(piece);
    }
    let (over, past) = piece.split_at(piece.len().min(content.len() - at));
    if !past.is_empty() {
        content.extend_from_slice(past)?;
    }
    content[at..at + over.len()].copy_from_slice(over);
    Ok(())
}

/// Fills a range, as far as there are such bytes.
fn blank(content: &mut [u8], span: Span, fill: u8)
    ensures { content.new ≡ memory.with_blank fill content.old span }
{
    let len = content.len() as u64;
    let from = span.at.min(len);
    let to = span.at.saturating_add(span.len).min(len);
    for i in from..to {
        content[i as usize] = fill;
    }
}

/// Fills the first range, where there is one, and then each later one.
fn blank_all(content: &mut [u8], first: Option<Span>, later: &[Span], fill: u8)
    ensures { content.new ≡ memory.with_blanks fill content.old (cons_option first later.now) }
{
    if let Some(span) = first {
        blank(content, span, fill);
    }
    for span in later {
        blank(content, *span, fill);
    }
}

/// A disk in memory. It keeps its content, and the ranges that were written since the last sync. The first of them
/// stands in the disk itself, so that none takes memory where each write is synced before the next.
/// It tells no past: its meaning of "since an earlier moment" has the two ends alone. Nothing that is proved of a
/// log uses more of a disk than the bounds of the trait.
#[derive(Drop)]
pub struct MemoryDisk {
    content: Vec<u8>,
    least: usize,
    greatest: usize,
    /// The first range that was written since the last sync.
    first: Option<Span>,
    /// The ranges that were written after it.
    later: List<Span>,
    fuse: Fuse,
}

impl Model for MemoryDisk {
    ghost use Rattle.std.specs.Prelude.{◌≡◌, ◌≤◌, [], None, length};
    ghost use Rattle.std.specs.List.{cons_option};
    ghost use Rattle.tp_device.specs.Memory.{Memory};

    ghost Value = { Memory };

    ghost view = { λ m. record {
      disk = record {
        seen = m.content.items;
        least = m.least;
        greatest = m.greatest;
        written = cons_option m.first m.later;
      };
      left = m.fuse.left;
      faults = m.fuse.faults;
    } };

    ghost invariant = { λ m.
        (m.least ≤ length m.content.items) × ((length m.content.items ≤ m.greatest)
        × (m.first ≡ None → m.later ≡ [])) };
}

impl MemoryDisk {
    /// A disk that holds the one byte 0, synced. No call of it is stopped.
    pub fn fresh(alloc: Global) -> Result<MemoryDisk, NoMemory>
        ensures { IfOk result (λ disk. disk ≡ memory.fresh) }
    {
        let mut content = Vec::with_capacity(alloc, FIRST_BYTES)?;
        content.push(0)?;
        Ok(MemoryDisk {
            content,
            least: 1,
            greatest: 1,
            first: None,
            later: List::new(alloc),
            fuse: Fuse {
                left: None,
                faults: 0,
            },
        })
    }

    /// Lets so many further calls pass: each later `read`, `write_at`, `cut` and `sync` fails, changes nothing,
    /// and counts a fault.
    pub fn stop_after(&mut self, calls: u32)
        ensures { self.new ≡ record self.old { left = Some calls } }
    {
        self.fuse.left = Some(calls);
    }

    /// No call is stopped any more.
    pub fn run_on(&mut self)
        ensures { self.new ≡ record self.old { left = None } }
    {
        self.fuse.left = None;
    }

    /// All the bytes, as a read gives them. It is no call of the disk, and takes no memory.
    pub fn content(&self) -> &[u8]
        ensures { result.now ≡ self.now.disk.seen }
    {
        self.content.as_slice()
    }

    /// The disk after a crash: each byte that was written since the last sync that succeeded reads `fill`, and the
    /// length is the length then reached. Nothing on it is unsynced, and no call of it is stopped.
    pub fn crashed(self, fill: u8) -> MemoryDisk
        ensures exact { result ≡ memory.after_crash fill self }
        ensures image { MayLeave self.disk result.disk.seen }
    {
        let MemoryDisk {
            mut content,
            least: _,
            greatest: _,
            first,
            mut later,
            fuse,
        } = self;
        blank_all(&mut content, first, later.as_slice(), fill);
        later.truncate(0);
        MemoryDisk {
            least: content.len(),
            greatest: content.len(),
            content,
            first: None,
            later,
            fuse: Fuse {
                left: None,
                faults: fuse.faults,
            },
        }
    }

    /// Crashes in place, as `crashed` does. It takes no memory.
    pub fn crash(&mut self, alloc: Global, fill: u8)
        ensures exact { self.new ≡ memory.after_crash fill self.old }
        ensures image { MayLeave self.old.disk self.new.disk.seen }
    {
        let empty = MemoryDisk {
            content: Vec::new(alloc),
            least: 0,
            greatest: 0,
            first: None,
            later: List::new(alloc),
            fuse: Fuse {
                left: None,
                faults: 0,
            },
        };
        let before = mem::replace(self, empty);
        *self = before.crashed(fill);
    }
}

impl Disk for MemoryDisk {
    ghost state = { memory.disk_of };

    ghost left_since = { memory.left_at_ends };

    ghost does = { memory.does };

    ghost faults = { λ m. m.faults };

    ghost counts_start = { λ start now image left. inl left };

    ghost counts_now = { λ start now image left. inr left };

    ghost only_now = { λ now image left. ⊎_elim (λ l. l) (λ l. l) left };

    fn len(&self) -> u64 {
        self.content.len() as u64
    }

    fn read(&mut self, at: u64, buf: &mut [u8]) -> Result<usize, DiskError>
        ensures bytes { IfOk result (λ n. ReadsAt self.old.disk.seen at buf.old n buf.new) }
        ensures size { length buf.new ≡ length buf.old }
        ensures same { self.new.disk ≡ self.old.disk }
        ensures memory { IsErrOf result DiskError.NoMemory → ⊥ }
        ensures cause { HasCause self.old.faults self.new.faults result }
        ensures time { Passes memory.disk_of memory.left_at_ends self.old self.new }
        ensures exact { Calls self.old.disk self.old result self.new }
    {
        self.fuse.enter()?;
        let at = self.content.len().min(at as usize);
        let count = copy_front(&self.content[at..], buf);
        self.fuse.pass();
        Ok(count)
    }

    #[inline(always)]
    fn write_at(&mut self, at: u64, piece: &[u8]) -> Result<(), DiskError>
        requires { at ≤ length self.old.disk.seen }
        ensures effect { CallEffect (Write at piece.now) self.old.disk result self.new.disk }
        ensures call { memory.does self.old (Write at piece.now) result self.new }
        ensures cause { HasCause self.old.faults self.new.faults result }
        ensures time { Passes memory.disk_of memory.left_at_ends self.old self.new }
    {
        self.fuse.enter()?;
        let span = Span {
            at,
            len: piece.len() as u64,
        };
        let before = self.later.len();
        if self.first.is_some() {
            self.later.push(span)?;
        }
        if overwrite(&mut self.content, at as usize, piece).is_err() {
            self.later.truncate(before);
            return Err(DiskError::NoMemory);
        }
        if self.first.is_none() {
            self.first = Some(span);
        }
        self.greatest = self.greatest.max(at as usize + piece.len());
        self.fuse.pass();
        Ok(())
    }

    fn cut(&mut self, len: u64) -> Result<(), DiskError>
        requires { len ≤ length self.old.disk.seen }
        ensures effect { CallEffect (Cut len) self.old.disk result self.new.disk }
        ensures call { memory.does self.old (Cut len) result self.new }
        ensures cause { HasCause self.old.faults self.new.faults result }
        ensures time { Passes memory.disk_of memory.left_at_ends self.old self.new }
    {
        self.fuse.enter()?;
        let len = len as usize;
        self.content.truncate(len);
        self.least = self.least.min(len);
        self.fuse.pass();
        Ok(())
    }

    fn sync(&mut self) -> Result<(), DiskError>
        ensures effect { CallEffect Sync self.old.disk result self.new.disk }
        ensures call { memory.does self.old Sync result self.new }
        ensures cause { HasCause self.old.faults self.new.faults result }
        ensures time { Passes memory.disk_of memory.left_at_ends self.old self.new }
    {
        self.fuse.enter()?;
        self.first = None;
        self.later.truncate(0);
        self.least = self.content.len();
        self.greatest = self.content.len();
        self.fuse.pass();
        Ok(())
    }
}
