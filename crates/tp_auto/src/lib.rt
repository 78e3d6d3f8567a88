//! The automatic phase: what happens by itself when no step is listed, until the world is quiet.
//!
//! What is promised, with the contract that carries it:
//!
//! - **The phase ends**: of every scenario that is run, after every list of steps that name what exists, there are no
//!   more automatic steps than the bound, and after them the machine is quiet, and each transaction was submitted,
//!   decided, and settled so at each of its servers (`laws::phases_end`)
//! - The next step is the defined one, or None exactly where the world is quiet: the boot of the lowest actor that is
//!   down, a delivery, a submission, or the timer of the first armed transaction from the cursor on; it is one that
//!   `World::step` takes and does not refuse (`next`: `value`, `ids`, `allowed`)
//! - A drain answers Ok only where the world is quiet, and it then did exactly the automatic steps of the world, with
//!   the cursor at 0 at first (`drain`: `quiet`, `steps`). Whatever it answers, it added at most as many steps as the
//!   bound of the world that it was given (`drain`: `few`). It counts none of them: that it ends is proved by a measure.
//!   Who looks on has then followed the run to its end (`drain`: `followed`)
//! - Where memory is refused the world is given up, after the automatic steps that came before; a world that was given
//!   up is answered by want of memory, and stays as it is (`drain`: `memory`, `stopped`, `given_up`, `unchanged`)
#![tactic(auto)]

mod auto;
pub mod laws;

pub use auto::{cursor_after, drain, next};
