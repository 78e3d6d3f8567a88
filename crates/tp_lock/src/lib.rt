//! Locks on items: strict two-phase locking with wait-die (Rosenkrantz, Stearns and Lewis 1978).
//!
//! What is promised, with the contract that carries it:
//!
//! - `PlainLocks` begins with an empty list for each item (`PlainLocks::opened`)
//! - A request is answered as defined and leaves the table that is defined; where memory is refused the table
//!   stays (`LockTable::request`: `answer`, `ok`, `err`)
//! - A release leaves the table that is defined. It cannot be refused memory (`LockTable::release`)
//! - The first grant that nobody took is answered and taken, and None comes exactly where there is none. It
//!   cannot be refused memory (`LockTable::take_granted`: `granted`, `left`)
//! - A request has four cases, of which the first that fits counts: where the owner holds a lock that serves it
//!   is granted and nothing changes; where no entry conflicts a held entry is added at the end; where each
//!   entry that conflicts is of a greater age a waiting one is added; else nothing changes, and the owner dies
//!   by the first entry that conflicts and has a smaller age (`requests_are_answered`: `cases`)
//! - Of two owners one is the older, nobody is older than itself, and who is older than an older one is older.
//!   So entries that wait make no circle, where each owner has one age in all of its entries
//!   (`requests_are_answered`: `ages`, `itself`, `chains`)
//! - Who is granted a lock holds one that serves, and keeps it through requests of all and releases of others
//!   (`requests_are_answered`: `held`, `kept`; `releases_grant`: `kept`)
//! - A table that its calls have made has orderly lists: the opened one has them, and requests, releases and
//!   the taking of a grant keep them (`tables_are_orderly`: `opened`, `requested`, `released`, `taken`)
//! - In an orderly list two locks that are held never conflict (`tables_are_orderly`: `exclusive`)
//! - After a release the owner has no entry (`releases_grant`: `gone`)
//! - The entries of others keep owner, age, mode and order, and only from waiting to held may one have changed
//!   (`releases_grant`: `others`)
//! - What is clear after a release is held (`releases_grant`: `clear`)
//! - The grants are for the entries that waited before and are held now, by item and then in the order of the
//!   list (`releases_grant`: `grants`, `by_item`)
//! - A grant is for an entry that stood in the list and waited, and stands there now as it was but that it is
//!   held (`releases_grant`: `held`)
//! - A release changes nothing in an orderly list in which the owner has no entry, and grants nothing there
//!   (`releases_grant`: `absent`)
//!
//! No call asks a condition of its caller. What is asked of an item that is not there is granted and kept
//! nowhere; the laws speak of the lists that there are. Each call names its owner's age, and that an owner
//! always gives the same one is its caller's to keep. Not claimed: that an owner that waits is ever granted its
//! lock, which is up to those that it waits for, and how long a call takes.
#![tactic(auto)]

ghost use Rattle.std.specs.Prelude.{◌≡◌, IfOk, OnOk, OnErr};
ghost use Rattle.tp_lock.specs.Rule as rule;

mod entry;
mod laws;
mod lists;
mod owned;
mod plain;
mod slots;

pub use entry::{Asked, Grant, LockEntry};
pub use laws::{releases_grant, requests_are_answered, tables_are_orderly};
pub use plain::PlainLocks;
use std::alloc::Global;
use tp_types::{Action, ItemId, NoMemory, Place, TxnId};

/// A table of the locks on a number of items, with a list of entries for each. An entry is held or waits.
pub trait LockTable {
    ghost use Rattle.tp_lock.specs.Table.{Table};

    // The list of entries of each item, and the grants that nobody has taken.
    ghost table: { Self → Table };

    /// Asks for a lock on an item. It is granted at once where the owner holds one that serves, or where no entry of
    /// another owner conflicts. Else the owner waits where it is older than the owners of all entries that conflict,
    /// and dies where it is not. The age is that of the owner, by which the elder has the smaller number; of two
    /// equal ages the owner with the greater number is the younger. An item that is not there grants everything and
    /// keeps nothing. Where memory is refused the table stays.
    fn request(
        &mut self,
        alloc: Global,
        owner: TxnId,
        age: Place,
        item: ItemId,
        mode: Action,
    ) -> Result<Asked, NoMemory>
        ensures answer { IfOk result (λ asked.
            asked ≡ rule.answer_at owner age item mode (table self.old)) }
        ensures ok { OnOk result
            (table self.new ≡ rule.after_request owner age item mode (table self.old)) }
        ensures err { OnErr result (table self.new ≡ table self.old) };

    /// Takes the owner's entries out of all lists. Each waiting entry that is clear by then becomes held, and is
    /// one of the grants to be taken, by item and then in the order of the list. Grants of an earlier release that
    /// nobody took are forgotten. It takes no memory.
    fn release(&mut self, owner: TxnId)
        ensures { table self.new ≡ rule.after_release owner (table self.old) };

    /// Takes the first grant that nobody has taken, or answers None exactly where there is none. It takes no memory.
    fn take_granted(&mut self) -> Option<Grant>
        ensures granted { result ≡ rule.first_grant (table self.old) }
        ensures left { table self.new ≡ rule.without_grant (table self.old) };
}
