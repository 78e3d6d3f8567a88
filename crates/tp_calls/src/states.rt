//! What a server's store and the authority keep, as steps change it.
ghost use Rattle.std.specs.Prelude.{◌≡◌, ◌+◌, ◌<◌};
ghost use Rattle.tp_offices.specs.Authority as office;
ghost use Rattle.tp_store.specs.Rule as rule;

use tp_offices::Authority;
use tp_store::Store;
use tp_types::{AdminId, TxnId, Version};

/// Learns a version: of it and the one known, the greater is known.
pub fn learn_version(store: &mut Store, admin: AdminId, version: Version)
    ensures { store.new ≡ rule.with_version store.old admin version }
{
    store.told(admin, version);
}

/// Drops the writes of a transaction that aborted. The items keep their values.
pub fn forget_writes(store: &mut Store, txn: TxnId)
    ensures { store.new ≡ rule.after_forget store.old txn }
{
    store.forget(txn);
}

/// Moves the authority's clock.
pub fn move_clock(authority: &mut Authority, by: u64)
    requires { authority.old.clock + by < office.clock_end }
    ensures { authority.new ≡ office.after_tick by authority.old }
{
    authority.tick(by);
}
