//! Locks in chains by index, behind the lists of `tp_lock`.
//!
//! Each entry of a table is a node. It stands in the ring of its item and in that of its owner, and each ring goes
//! through an end of its own, so that no node is the first or the last. A node that is free stands in one ring more.
//! What is promised, with the contract that carries it:
//!
//! - `ChainLocks` begins with an empty list for each item, of which there are fewer than 2^32: with more memory is
//!   refused (`ChainLocks::opened`)
//! - A request, a release and the taking of a grant answer and leave what `tp_lock` defines, so that its laws are
//!   those of this table too (`LockTable` for `ChainLocks`). None but a request takes memory
//! - `release_counted` leaves what `release` does (`released`), and counts its steps: at most three for each entry of
//!   the owner and two for each entry of the lists of its items, as these stood before (`counted`). A step is a node
//!   that is visited or relinked. An entry of the owner is visited, taken from its owner's ring, and from its item's to
//!   the free ones. An entry of such a list is visited, and where it waits and is clear, it is granted
//! - The table's invariant says that used and free nodes are all; that each is once in the ring of its item, or in that
//!   of free nodes, and in no other of these; that a used node is once in the ring of its owner, and in no other of
//!   these; that links agree both ways; and that the nodes of an owner go by items
//!
//! A release asks of each entry whether an earlier one conflicts, and looks at each once: who was passed is told by one
//! owner or by "many", of all entries and of those that write. So its steps do not grow with the other items or owners,
//! nor with the square of a list.
//!
//! *Beside the plain table.* Thousands of instructions for a turn at a table that was used before, plain and chained
//! (callgrind, on a build by LLVM without the tests that the proofs rule out): 128 owners that want to write one item,
//! each of which waits, and then leave one after another, 638 and 872; 16 such owners, 16.2 and 21.9; one owner with 16
//! locks among 1,024 items, and its release, 4.0 and 9.9; one lock and its release, 0.42 and 0.67. The plain table is
//! faster in all of these, and so for what a scenario can be: it keeps the items of each owner too, so that neither
//! table looks at other items; entries that lie side by side are read faster than nodes by their links; and in most
//! lists the entry that one waits for stands near the front, where the plain table finds it at once. The chains win
//! where that is not so: with 64 readers, a writer that waits for them, and 63 readers that wait for it, a turn takes
//! 1,475 and 793. What they give is the bound, which is proved of every table; of the plain one none is.
//!
//! An opened table has memory for the ends of all its items' rings, and makes these ends only as they are written: from a
//! first item on that its maker tells, up to the last that was written, and behind the last item those before the first
//! (`Overlay` of `tp_places`). So a server, whose own items stand side by side, makes little of it. That is by the
//! bodies, and no contract says it.
//!
//! Not claimed: a bound on the steps of a request, which reads the list of its item once, and the ring of its owner
//! where the owner has a lock on a later item; nor how long a step takes.
#![tactic(auto)]

mod ask;
mod chain;
mod ends;
mod leave;
mod links;
mod room;

pub use chain::ChainLocks;
