//! Rings of nodes by index: two links for each node and each end of a ring, and what they change to.
//!
//! What reads and writes links is put into its callers, each of which knows the kind of its rings.
ghost use Rattle.std.specs.Prelude.{◌≡◌, slice_index_or, slice_set};
ghost use Rattle.tp_lock_chain.specs.mirrors.Links as mirror;

use crate::ends::Ends;
use tp_lock::{Grant, LockEntry};
use tp_types::{Action, List, TxnId};

/// A place in a ring: its end, which stands behind its last node and before its first, or a node.
#[derive(Clone, Copy)]
pub enum Spot {
    End(usize),
    On(usize),
}

/// What stands next to a place in its ring.
#[derive(Clone, Copy)]
pub struct Pair {
    pub before: Spot,
    pub after: Spot,
}

/// The two kinds of rings. Those of items are one for each item, and one more for the nodes that are free.
#[derive(Clone, Copy)]
pub enum Kind {
    Item,
    Owner,
}

/// An entry, the ring of its item, and its neighbours in the rings of either kind.
#[derive(Clone, Copy)]
pub struct Node {
    pub entry: LockEntry,
    pub ring: u32,
    pub by_item: Pair,
    pub by_owner: Pair,
}

/// The nodes with the ends of their rings, and the grants.
#[derive(Drop)]
pub struct Pool {
    pub nodes: List<Node>,
    pub items: Ends,
    pub owners: List<Pair>,
    /// The ring of free nodes, the last of those of items.
    pub free: u32,
    /// The grants of the last release, from the first place on. There is a place for each node.
    pub granted: List<Grant>,
    /// How many grants there are.
    pub given: usize,
    /// How many of them were taken.
    pub next: usize,
}

/// The links of an end that is not there.
pub fn nowhere() -> Pair
    ensures { result ≡ mirror.nowhere }
{
    Pair {
        before: Spot::End(0),
        after: Spot::End(0),
    }
}

/// A node of nobody, for the place of a node that is not there.
pub fn blank() -> Node
    ensures { result ≡ mirror.blank }
{
    Node {
        entry: LockEntry {
            owner: TxnId(0),
            age: 0,
            mode: Action::Read,
            held: false,
        },
        ring: 0,
        by_item: nowhere(),
        by_owner: nowhere(),
    }
}

/// The node of this number.
pub fn node_at(pool: &Pool, node: usize) -> Node
    ensures { result ≡ mirror.node_at pool.now node }
{
    match pool.nodes.get(node) {
        None => blank(),
        Some(found) => *found,
    }
}

fn end_of(ends: &List<Pair>, ring: usize) -> Pair
    ensures { result ≡ mirror.end_of ends.now ring }
{
    match ends.get(ring) {
        None => nowhere(),
        Some(found) => *found,
    }
}

fn pair_of(node: &Node, kind: Kind) -> Pair
    ensures { result ≡ mirror.pair_of kind node.now }
{
    match kind {
        Kind::Item => node.by_item,
        Kind::Owner => node.by_owner,
    }
}

fn pair_at(nodes: &List<Node>, kind: Kind, node: usize) -> Pair
    ensures { result ≡ mirror.pair_of kind (slice_index_or nodes.now node mirror.blank) }
{
    match nodes.get(node) {
        None => pair_of(&blank(), kind),
        Some(found) => pair_of(found, kind),
    }
}

/// The neighbours of a place.
#[inline(always)]
pub fn links(pool: &Pool, kind: Kind, spot: Spot) -> Pair
    ensures { result ≡ mirror.links kind pool.now spot }
{
    match spot {
        Spot::End(ring) => match kind {
            Kind::Item => pool.items.get(ring),
            Kind::Owner => end_of(&pool.owners, ring),
        },
        Spot::On(node) => pair_at(&pool.nodes, kind, node),
    }
}

#[inline(always)]
fn set_links(pool: &mut Pool, kind: Kind, spot: Spot, pair: Pair)
    ensures { pool.new ≡ mirror.with_links kind spot pair pool.old }
{
    match spot {
        Spot::End(ring) => match kind {
            Kind::Item => pool.items.put(ring, pair),
            Kind::Owner => pool.owners.put(ring, pair),
        },
        Spot::On(node) => set_pair(&mut pool.nodes, kind, node, pair),
    }
}

/// Writes the links of a node.
fn set_pair(nodes: &mut List<Node>, kind: Kind, node: usize, pair: Pair)
    ensures { nodes.new
        ≡ slice_set nodes.old node
        (mirror.with_pair kind pair (slice_index_or nodes.old node mirror.blank)) }
{
    if let Some(found) = nodes.get_mut(node) {
        match kind {
            Kind::Item => found.by_item = pair,
            Kind::Owner => found.by_owner = pair,
        }
    }
}

#[inline(always)]
fn set_after(pool: &mut Pool, kind: Kind, spot: Spot, after: Spot)
    ensures { pool.new ≡ mirror.with_after kind spot after pool.old }
{
    let pair = links(pool, kind, spot);
    set_links(pool, kind, spot, Pair { after, ..pair });
}

#[inline(always)]
fn set_before(pool: &mut Pool, kind: Kind, spot: Spot, before: Spot)
    ensures { pool.new ≡ mirror.with_before kind spot before pool.old }
{
    let pair = links(pool, kind, spot);
    set_links(pool, kind, spot, Pair { before, ..pair });
}

/// Takes a node out of its ring: its neighbours become neighbours of one another.
#[tactic(auto, unfolding(crate::specs::mirrors::Links::unlinked))]
#[inline(always)]
pub fn unlink(pool: &mut Pool, kind: Kind, node: usize)
    ensures { pool.new ≡ mirror.unlinked kind node pool.old }
{
    let pair = links(pool, kind, Spot::On(node));
    set_after(pool, kind, pair.before, pair.after);
    set_before(pool, kind, pair.after, pair.before);
}

/// Puts a node that stands in no ring of this kind before a place in one.
#[tactic(auto, unfolding(crate::specs::mirrors::Links::linked_before))]
#[inline(always)]
pub fn link_before(pool: &mut Pool, kind: Kind, node: usize, spot: Spot)
    ensures { pool.new ≡ mirror.linked_before kind node spot pool.old }
{
    let last = links(pool, kind, spot).before;
    set_links(
        pool,
        kind,
        Spot::On(node),
        Pair {
            before: last,
            after: spot,
        },
    );
    set_after(pool, kind, last, Spot::On(node));
    set_before(pool, kind, spot, Spot::On(node));
}

/// Notes the ring of a node's item.
pub fn set_ring(pool: &mut Pool, node: usize, ring: u32)
    ensures { pool.new ≡ mirror.with_ring node ring pool.old }
{
    if let Some(found) = pool.nodes.get_mut(node) {
        found.ring = ring;
    }
}

/// Writes the entry of a node.
pub fn set_entry(pool: &mut Pool, node: usize, entry: LockEntry)
    ensures { pool.new ≡ mirror.with_entry node entry pool.old }
{
    if let Some(found) = pool.nodes.get_mut(node) {
        found.entry = entry;
    }
}

/// Moves a node from its item's ring to the end of another.
#[tactic(auto, unfolding(crate::specs::mirrors::Links::moved))]
#[inline(always)]
pub fn move_to(pool: &mut Pool, node: usize, ring: u32)
    ensures { pool.new ≡ mirror.moved node ring pool.old }
{
    unlink(pool, Kind::Item, node);
    set_ring(pool, node, ring);
    link_before(pool, Kind::Item, node, Spot::End(ring as usize));
}
