//! Numbers that are pending, and the ring of their nodes.
ghost use Rattle.std.specs.Prelude.{◌≡◌, ◌<◌, ◌≤◌, ◌+◌, ◌-◌, ◌==◌, ◌++◌, ◌∷◌, ℕ, [], length, slice_get, slice_set, take, true, false, IfOk, IfSome, OnOk, OnErr};
ghost use Rattle.std.specs.List.{list_any};
ghost use Rattle.tp_pending.specs.Flags.{marked};

use crate::nodes::{Node, end_alone, set_after, set_before, set_done, visited};
use std::alloc::Global;
use std::marker::Model;
use tp_types::{List, NoMemory, Tally, Uncounted};

/// Which numbers are pending, of those that were posted.
#[derive(Drop)]
pub struct Pending {
    /// The end of the ring, and then a node for each number that was posted.
    nodes: List<Node>,
}

impl Model for Pending {
    ghost use Rattle.std.specs.Prelude.{Bool, List};
    ghost use Rattle.tp_pending.specs.mirrors.Ring.{IsRing, flags_of};

    ghost Value = { List Bool };

    ghost view = { λ p. flags_of p.nodes };

    ghost invariant = { λ p. IsRing p.nodes };
}

impl Pending {
    /// Nothing was posted. There is room for so many numbers from the start.
    pub fn new(alloc: Global, room: usize) -> Result<Pending, NoMemory>
        ensures { IfOk result (λ made. made ≡ []) }
    {
        let mut nodes = List::from_vec(Vec::with_capacity(alloc, room.saturating_add(1))?);
        nodes.push(end_alone())?;
        Ok(Pending { nodes })
    }

    /// How many were posted.
    pub fn len(&self) -> usize
        ensures { result ≡ length self.now }
    {
        self.nodes.len() - 1
    }

    /// Whether a number was posted and is pending.
    pub fn is_pending(&self, number: usize) -> bool
        ensures { result ≡ list_any (λ (other : ℕ). other == number) (marked 0 self.now) }
    {
        if self.len() <= number {
            return false;
        }
        match self.nodes.get(number + 1) {
            None => false,
            Some(node) => node.pending,
        }
    }

    /// The least number that is pending, or None exactly where there is none. It visits one node.
    pub fn first<T: Tally>(&self, tally: &mut T) -> Option<usize>
        ensures value { result ≡ slice_get (marked 0 self.now) 0 }
        ensures posted { IfSome result (λ number. number < length self.now) }
        ensures counted { T.counted tally.new ≡ T.counted tally.old + T.weight }
    {
        let node = visited(&self.nodes, 0, tally).after;
        if node == 0 { None } else { Some(node - 1) }
    }

    /// Posts the next number, which is pending: its node is pushed, and the last one of the ring linked to it. Where memory is
    /// refused nothing changes.
    #[inline(always)]
    pub fn post(&mut self) -> Result<(), NoMemory>
        ensures ok { OnOk result (self.new ≡ self.old ++ true ∷ []) }
        ensures err { OnErr result (self.new ≡ self.old) }
    {
        let node = self.nodes.len();
        let last = visited(&self.nodes, 0, &mut Uncounted).before;
        self.nodes.push(Node {
            pending: true,
            before: last,
            after: 0,
        })?;
        set_after(&mut self.nodes, last, node);
        set_before(&mut self.nodes, 0, node);
        Ok(())
    }

    /// Takes a number: it is pending no more. Two links change, whatever else is pending.
    pub fn take(&mut self, number: usize)
        ensures { self.new ≡ slice_set self.old number false }
    {
        if self.len() <= number {
            return;
        }
        let at = number + 1;
        let node = visited(&self.nodes, at, &mut Uncounted);
        if node.pending {
            set_after(&mut self.nodes, node.before, node.after);
            set_before(&mut self.nodes, node.after, node.before);
            set_done(&mut self.nodes, at);
        }
    }

    /// Takes back what was posted last, so that so many numbers are left.
    pub fn cut(&mut self, count: usize)
        ensures { self.new ≡ take count self.old }
    {
        let posted = self.len();
        if count < posted {
            for _left in count..posted {
                self.take_back();
            }
        }
    }

    /// Takes back the last one that was posted, if there is one.
    fn take_back(&mut self)
        ensures { self.new ≡ take (length self.old - 1) self.old }
    {
        let posted = self.len();
        if 0 < posted {
            let last = posted - 1;
            self.take(last);
            self.nodes.truncate(posted);
        }
    }
}
