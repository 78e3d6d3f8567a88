//! Entries with a flag that is false for a grant that nobody took, and what a request asks of them.
ghost use Rattle.std.specs.Prelude.{◌≡◌};
ghost use Rattle.tp_lock.specs.Rule as rule;
ghost use Rattle.tp_lock.specs.mirrors.Slots as mirror;

use crate::entry::{Asked, LockEntry};
use tp_types::{Action, Place, TxnId};

/// An entry, with room for its grant: `told` is false while the entry was granted by the last release and nobody
/// has taken that grant.
#[derive(Clone, Copy)]
pub struct Slot {
    pub entry: LockEntry,
    pub told: bool,
}

fn is_write(mode: Action) -> bool
    ensures { result ≡ rule.is_write mode }
{
    match mode {
        Action::Read => false,
        Action::Write => true,
    }
}

fn conflicts(owner: TxnId, mode: Action, entry: &LockEntry) -> bool
    ensures { result ≡ rule.conflicts owner mode entry.now }
{
    entry.owner != owner && (is_write(mode) || is_write(entry.mode))
}

fn serves(owner: TxnId, mode: Action, entry: &LockEntry) -> bool
    ensures { result ≡ rule.serves owner mode entry.now }
{
    entry.held && (entry.owner == owner && (is_write(entry.mode) || !is_write(mode)))
}

fn is_older(owner: TxnId, age: Place, entry: &LockEntry) -> bool
    ensures { result ≡ rule.is_older owner age entry.now }
{
    entry.age < age || (entry.age == age && entry.owner.0 < owner.0)
}

fn is_elder(owner: TxnId, age: Place, mode: Action, entry: &LockEntry) -> bool
    ensures { result ≡ rule.is_elder owner age mode entry.now }
{
    conflicts(owner, mode, entry) && is_older(owner, age, entry)
}

/// Whether the owner holds a lock that serves.
pub fn is_served(slots: &[Slot], owner: TxnId, mode: Action) -> bool
    ensures { result ≡ mirror.is_served owner mode slots.now }
{
    slots.iter().any(|slot| serves(owner, mode, &slot.entry))
}

fn has_conflict(slots: &[Slot], owner: TxnId, mode: Action) -> bool
    ensures { result ≡ mirror.has_conflict owner mode slots.now }
{
    slots.iter().any(|slot| conflicts(owner, mode, &slot.entry))
}

fn elder_of(slots: &[Slot], owner: TxnId, age: Place, mode: Action) -> Option<Slot>
    ensures { result ≡ mirror.elder_of owner age mode slots.now }
{
    slots
        .iter()
        .copied()
        .find(|slot| is_elder(owner, age, mode, &slot.entry))
}

/// The answer to an owner that holds no lock that serves.
pub fn answer_to_new(slots: &[Slot], owner: TxnId, age: Place, mode: Action) -> Asked
    ensures { result ≡ mirror.answer_to_new owner age mode slots.now }
{
    if !has_conflict(slots, owner, mode) {
        return Asked::Granted;
    }
    match elder_of(slots, owner, age, mode) {
        None => Asked::Waits,
        Some(elder) => Asked::Dies {
            other: elder.entry.owner,
        },
    }
}

fn is_granted(earlier: &[Slot], entry: &LockEntry) -> bool
    ensures { result ≡ mirror.is_granted earlier.now entry.now }
{
    !entry.held && !has_conflict(earlier, entry.owner, entry.mode)
}

/// A slot after these, held from now on where it waits and no earlier one conflicts. A grant of before counts as told.
pub fn settled(earlier: &[Slot], slot: &Slot) -> Slot
    ensures { result ≡ mirror.with_grant earlier.now slot.now }
{
    let granted = is_granted(earlier, &slot.entry);
    let held = slot.entry.held || granted;
    let entry = LockEntry { held, ..slot.entry };
    Slot {
        entry,
        told: !granted,
    }
}
