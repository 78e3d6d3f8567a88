//! What stands in a table of locks, and what it answers.
use tp_types::{Action, ItemId, Place, TxnId};

/// A lock of an owner in the list of an item.
#[derive(Clone, Copy, PartialEq)]
pub struct LockEntry {
    pub owner: TxnId,
    /// The age of the owner: the smaller, the older.
    pub age: Place,
    pub mode: Action,
    /// Whether the owner has the lock. Else it waits for it.
    pub held: bool,
}

/// A lock that an owner waited for and now has.
#[derive(Clone, Copy, Debug, PartialEq)]
pub struct Grant {
    pub owner: TxnId,
    pub item: ItemId,
}

/// The answer to a request.
#[derive(Clone, Copy, Debug, PartialEq)]
pub enum Asked {
    /// The owner has the lock.
    Granted,
    /// The owner waits for the lock. There is a grant once it has it.
    Waits,
    /// The owner is to give up, since an older one stands in its way: the first of the list.
    Dies { other: TxnId },
}
