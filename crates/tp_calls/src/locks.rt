//! Locks, as a server asks for them and gives them back.
ghost use Rattle.std.specs.Prelude.{◌≡◌, IfOk, OnOk, OnErr};
ghost use Rattle.tp_lock.specs.Rule as rule;

use std::alloc::Global;
use tp_lock::{Asked, LockTable};
use tp_types::{Action, ItemId, NoMemory, Place, TxnId};

/// Asks for a lock: the owner has it, or waits for owners that are all younger, or dies by an older one.
pub fn request_lock<L: LockTable>(
    alloc: Global,
    locks: &mut L,
    owner: TxnId,
    age: Place,
    item: ItemId,
    mode: Action,
) -> Result<Asked, NoMemory>
    ensures answer { IfOk result (λ asked.
        asked ≡ rule.answer_at owner age item mode (L.table locks.old)) }
    ensures kept { OnOk result
        (L.table locks.new ≡ rule.after_request owner age item mode (L.table locks.old)) }
    ensures memory { OnErr result (L.table locks.new ≡ L.table locks.old) }
{
    locks.request(alloc, owner, age, item, mode)
}

/// Gives back all locks of an owner.
pub fn release_locks<L: LockTable>(locks: &mut L, owner: TxnId)
    ensures { L.table locks.new ≡ rule.after_release owner (L.table locks.old) }
{
    locks.release(owner);
}
