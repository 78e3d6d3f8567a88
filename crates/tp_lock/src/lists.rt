//! What each call does with the slots of an item, or of several. None but a request takes memory.
ghost use Rattle.std.specs.Prelude.{◌≡◌, [], drop, IfOk, OnOk, OnErr, filter, find, option_map, option_and_then, slice_get};
ghost use Rattle.tp_lock.specs.mirrors.Kept as kept;
ghost use Rattle.tp_lock.specs.mirrors.Slots as mirror;

use crate::entry::{Asked, LockEntry};
use crate::slots::{Slot, answer_to_new, is_served, settled};
use std::alloc::Global;
use std::mem;
use tp_types::{Action, List, NoMemory, Place, TxnId};

fn slot_of(owner: TxnId, age: Place, mode: Action, held: bool) -> Slot
    ensures { result ≡ mirror.slot_of owner age mode held }
{
    Slot {
        entry: LockEntry {
            owner,
            age,
            mode,
            held,
        },
        told: true,
    }
}

/// Asks for a lock, and adds the entry that the answer calls for.
pub fn ask(
    slots: &mut List<Slot>,
    owner: TxnId,
    age: Place,
    mode: Action,
) -> Result<Asked, NoMemory>
    ensures answer { IfOk result (λ asked. asked ≡ mirror.answer owner age mode slots.old) }
    ensures ok { OnOk result (slots.new ≡ mirror.with_slot owner age mode slots.old) }
    ensures err { OnErr result (slots.new ≡ slots.old) }
{
    if is_served(slots.as_slice(), owner, mode) {
        return Ok(Asked::Granted);
    }
    match answer_to_new(slots.as_slice(), owner, age, mode) {
        Asked::Granted => {
            slots.push(slot_of(owner, age, mode, true))?;
            Ok(Asked::Granted)
        }
        Asked::Waits => {
            slots.push(slot_of(owner, age, mode, false))?;
            Ok(Asked::Waits)
        }
        Asked::Dies { other } => Ok(Asked::Dies { other }),
    }
}

fn without(mut slots: Vec<Slot>, owner: TxnId) -> Vec<Slot>
    ensures { result.items ≡ filter (mirror.is_of_other owner) slots.items }
{
    slots.retain(|slot| slot.entry.owner != owner);
    slots
}

fn settle(slots: &mut [Slot])
    ensures { slots.new ≡ mirror.with_grants_from [] slots.old }
{
    for at in 0..slots.len() {
        let whole: &[Slot] = slots;
        let (earlier, _) = whole.split_at(at);
        let next = settled(earlier, &whole[at]);
        slots[at] = next;
    }
}

/// Takes the owner's slots out, and settles those that are left in their order.
fn leave(alloc: Global, slots: &mut List<Slot>, owner: TxnId)
    ensures { slots.new ≡ mirror.left_by owner slots.old }
{
    let whole = mem::replace(slots, List::new(alloc));
    let mut left = without(whole.into_vec(), owner);
    settle(&mut left);
    *slots = List::from_vec(left);
}

/// Takes the owner's slots out of the list of one item.
fn leave_one(alloc: Global, lists: &mut Vec<List<Slot>>, item: u32, owner: TxnId)
    ensures { lists.new.items ≡ kept.at_item (mirror.left_by owner) item lists.old.items }
{
    if let Some(slots) = lists.get_mut(item as usize) {
        leave(alloc, slots, owner);
    }
}

/// Takes the owner's slots out of the lists of these items.
pub fn leave_each(alloc: Global, lists: &mut Vec<List<Slot>>, items: &[u32], owner: TxnId)
    ensures { lists.new.items ≡ kept.at_each (mirror.left_by owner) items.now lists.old.items }
{
    for item in items {
        leave_one(alloc, lists, *item, owner);
    }
}

fn tell_all(slots: &mut [Slot])
    ensures { slots.new ≡ mirror.all_told slots.old }
{
    for at in 0..slots.len() {
        slots[at].told = true;
    }
}

fn forget_one(alloc: Global, lists: &mut Vec<List<Slot>>, item: u32)
    ensures { lists.new.items ≡ kept.at_item mirror.all_told item lists.old.items }
{
    if let Some(slots) = lists.get_mut(item as usize) {
        let mut whole = mem::replace(slots, List::new(alloc)).into_vec();
        tell_all(&mut whole);
        *slots = List::from_vec(whole);
    }
}

/// Forgets the grants that nobody took in the lists of these items, from a place on.
pub fn forget_each(alloc: Global, lists: &mut Vec<List<Slot>>, items: &[u32], from: usize)
    ensures { lists.new.items ≡ kept.at_each mirror.all_told (drop from items.now) lists.old.items }
{
    for at in from..items.len() {
        forget_one(alloc, lists, items[at]);
    }
}

fn untold_at(slots: &List<Slot>, at: usize) -> Option<Slot>
    ensures { result ≡ option_and_then mirror.untold_of (slice_get slots.now at) }
{
    match slots.get(at) {
        None => None,
        Some(slot) => { if slot.told { None } else { Some(*slot) } }
    }
}

/// Tells the first grant that nobody took, and answers its owner.
fn tell(slots: &mut List<Slot>) -> Option<TxnId>
    ensures owner { result ≡ option_map mirror.owner_of (find mirror.is_untold slots.old) }
    ensures told { slots.new ≡ mirror.told_first slots.old }
{
    for at in 0..slots.len() {
        if let Some(slot) = untold_at(slots, at) {
            slots.put(at, Slot { told: true, ..slot });
            return Some(slot.entry.owner);
        }
    }
    None
}

/// Tells the first grant that nobody took in the list of one item.
pub fn tell_one(lists: &mut Vec<List<Slot>>, item: u32) -> Option<TxnId>
    ensures owner { result ≡ option_map mirror.owner_of
        (find mirror.is_untold (kept.slots_at item lists.old.items)) }
    ensures told { lists.new.items ≡ kept.at_item mirror.told_first item lists.old.items }
{
    match lists.get_mut(item as usize) {
        None => None,
        Some(slots) => tell(slots),
    }
}
