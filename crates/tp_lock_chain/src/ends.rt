//! The ends of the rings of items, made up as they are written.
ghost use Rattle.std.specs.Prelude.{◌≡◌, ◌+◌, slice_set, IfOk};
ghost use Rattle.tp_lock_chain.specs.mirrors.Ends as mirror;
ghost use Rattle.tp_lock_chain.specs.mirrors.Links.{end_of};

use crate::links::{Pair, Spot, nowhere};
use std::alloc::Global;
use std::marker::Model;
use tp_places::Overlay;
use tp_types::NoMemory;

/// The ends of the rings of items, and behind them that of the ring of free nodes. An end that was never written has no
/// node. There is memory for all from the start, so that writing one takes none.
#[derive(Drop)]
pub struct Ends {
    count: usize,
    last: Pair,
    written: Overlay<Pair>,
}

impl Model for Ends {
    ghost use Rattle.std.specs.Prelude.{◌≡◌, ◌++◌, [], ◌∷◌, List, length};
    ghost use Rattle.tp_lock_chain.specs.declared.links.Pair.{Pair};
    ghost use Rattle.tp_lock_chain.specs.mirrors.Ends.{filled};

    ghost Value = { List Pair };

    ghost view = { λ e. filled 0 e.written ++ e.last ∷ [] };

    ghost invariant = { λ e. length e.written ≡ e.count };
}

/// The links of an end with no node.
pub fn lone(ring: usize) -> Pair
    ensures { result ≡ mirror.lone ring }
{
    Pair {
        before: Spot::End(ring),
        after: Spot::End(ring),
    }
}

impl Ends {
    /// As many ends, each with no node, and one more for the free nodes. The table of those that are written begins with
    /// the first one; any number will do.
    pub fn opened(alloc: Global, count: usize, first: usize) -> Result<Ends, NoMemory>
        ensures { IfOk result (λ made. made ≡ mirror.ends (count + 1)) }
    {
        Ok(Ends {
            count,
            last: lone(count),
            written: Overlay::none(alloc, count, first)?,
        })
    }

    /// The end of this number.
    #[inline(always)]
    pub fn get(&self, ring: usize) -> Pair
        ensures { result ≡ end_of self.now ring }
    {
        match self.written.get(ring) {
            Some(pair) => pair,
            None => {
                if ring < self.count {
                    lone(ring)
                } else if ring == self.count {
                    self.last
                } else {
                    nowhere()
                }
            }
        }
    }

    /// Writes an end. Where there is no such end they stay. It takes no memory.
    pub fn put(&mut self, ring: usize, pair: Pair)
        ensures { self.new ≡ slice_set self.old ring pair }
    {
        if ring < self.count {
            self.written.put(ring, pair);
        } else if ring == self.count {
            self.last = pair;
        }
    }
}
