//! Nodes, and the links of a ring of nodes whose end is node 0.
ghost use Rattle.std.specs.Prelude.{[], ◌∷◌, ◌≡◌, ◌+◌, ◌++◌, length};
ghost use Rattle.tp_pending.specs.mirrors.Ring as mirror;

use tp_types::{List, Tally};

/// What is kept of a number, or of the end of the ring: whether it is pending, and the nodes before and behind it in the ring. The
/// links of a node that is not pending lead nowhere.
#[derive(Clone, Copy)]
pub struct Node {
    pub pending: bool,
    pub before: usize,
    pub after: usize,
}

/// The end of a ring of which it is the one node.
pub(crate) fn end_alone() -> Node
    ensures { result ≡ mirror.end_alone }
{
    Node {
        pending: false,
        before: 0,
        after: 0,
    }
}

/// The node at a place. Links are read by this alone, and each node that is read is one step.
pub(crate) fn visited<T: Tally>(nodes: &List<Node>, at: usize, tally: &mut T) -> Node
    ensures value { result ≡ mirror.node_at nodes.now at }
    ensures counted { T.counted tally.new ≡ T.counted tally.old + T.weight }
{
    tally.step();
    match nodes.get(at) {
        None => end_alone(),
        Some(found) => *found,
    }
}

/// Links a node to one behind it.
pub(crate) fn set_after(nodes: &mut List<Node>, at: usize, after: usize)
    ensures { nodes.new ≡ mirror.with_after at after nodes.old }
{
    if let Some(found) = nodes.get_mut(at) {
        found.after = after;
    }
}

/// Links a node to one before it.
pub(crate) fn set_before(nodes: &mut List<Node>, at: usize, before: usize)
    ensures { nodes.new ≡ mirror.with_before at before nodes.old }
{
    if let Some(found) = nodes.get_mut(at) {
        found.before = before;
    }
}

/// Notes that the number of a node is pending no more.
pub(crate) fn set_done(nodes: &mut List<Node>, at: usize)
    ensures { nodes.new ≡ mirror.with_done at nodes.old }
{
    if let Some(found) = nodes.get_mut(at) {
        found.pending = false;
    }
}
