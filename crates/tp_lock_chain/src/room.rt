//! Room for a new entry: the ring of its owner, a place for its grant, and its node. Here alone is memory taken.
ghost use Rattle.std.specs.Prelude.{◌≡◌, ◌<◌, length, IfOk, OnOk, OnErr};
ghost use Rattle.tp_lock_chain.specs.mirrors.Room as room;

use crate::ends::{Ends, lone};
use crate::links::{Node, Pool, blank};
use std::alloc::Global;
use tp_lock::{Grant, LockEntry};
use tp_types::{ItemId, List, NoMemory, TxnId};

/// A pool for so many items, with no node. From the first one on the ends of their rings are made.
pub fn opened(alloc: Global, items: u32, first: usize) -> Result<Pool, NoMemory>
    ensures { IfOk result (λ made. made ≡ room.opened items) }
{
    Ok(Pool {
        nodes: List::new(alloc),
        items: Ends::opened(alloc, items as usize, first)?,
        owners: List::new(alloc),
        free: items,
        granted: List::new(alloc),
        given: 0,
        next: 0,
    })
}

/// Makes a ring for each owner up to this one.
pub fn reach(pool: &mut Pool, owner: usize) -> Result<(), NoMemory>
    ensures keeps { room.Keeps pool.old pool.new }
    ensures ok { OnOk result (owner < length pool.new.owners) }
{
    while pool.owners.len() <= owner {
        pool.owners.push(lone(pool.owners.len()))?;
    }
    Ok(())
}

/// One place more for a grant.
pub fn place_for_grant(pool: &mut Pool) -> Result<(), NoMemory>
    ensures ok { OnOk result (pool.new ≡ room.with_place pool.old) }
    ensures err { OnErr result (pool.new ≡ pool.old) }
{
    pool.granted.push(Grant {
        owner: TxnId(0),
        item: ItemId(0),
    })
}

/// One node more, with this entry and of this item, behind all others. It stands in no ring.
pub fn new_node(pool: &mut Pool, ring: u32, entry: LockEntry) -> Result<usize, NoMemory>
    ensures node { IfOk result (λ node. node ≡ length pool.old.nodes) }
    ensures ok { OnOk result (pool.new ≡ room.with_node ring entry pool.old) }
    ensures err { OnErr result (pool.new ≡ pool.old) }
{
    let node = pool.nodes.len();
    pool.nodes.push(Node {
        entry,
        ring,
        ..blank()
    })?;
    Ok(node)
}
