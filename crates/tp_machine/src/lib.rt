//! The cluster as a machine: actors, their logs, the mails between them, and the facts that they make.
//!
//! What is promised, with the contract that carries it:
//!
//! - The actors begin as defined (`Actors::opened`, `World::start`)
//! - A step that is done was not refused by the machine, and gives exactly the machine's next state
//!   (`World::step`: `ok`)
//! - A refused step has exactly the machine's reason, and changes nothing (`World::step`: `refused`)
//! - Where memory is refused the world is given up; its facts, steps and mails stay, and so does who is up. Each
//!   actor's log is that from before the step, or that after it. A world that is given up only answers that memory
//!   was refused (`World::step`: `memory`, `ok`, `refused`; `World::ending`: `given_up`)
//! - Whatever image a crash may leave of an actor's disk, it gives exactly the records that the machine has of the
//!   actor, also in a world that is given up; the offices alone have no disk (`World::disk`: `kept`, `none`)
//! - A world that is not given up is the machine of its scenario after the steps that it shows; its scenario is
//!   valid, its steps name what exists, and its facts are those that they give, also of a world that is given
//!   up (`World::facts`: `reached`, `valid`, `named`, `of_steps`; `World::scenario`: `valid`)
//! - The views show the machine (`World::facts` and `scenario`: `value`; `mails`,
//!   `steps`, `given_up`, `down`, `undelivered`, `is_submitted`, `armed`; `ending`: `value`)
//! - Each mail, each server and coordinator that is up, and the records of each log are shown as the machine has them
//!   (`World::mail`, `sent`, `server`, `coordinator`, `records`)
//! - Who looks on is shown the world before a step and after it, and hears in between the record that the step has its
//!   actor force, whole also where a cut leaves nothing of it; of a step that forces none it hears nothing
//!   (`World::step`: `followed`, `unseen`). A world that runs by itself needs nobody: `Nobody` has no bytes (`Watch`)
//! - A step moves one actor, or nobody: the machine after it is that move put in its place, the part of every other
//!   actor is as it was, the mover's log gains just what is left of the record that is heard, and no two actors have
//!   one number (`steps_move_one_actor`; `moved_by` tells which)
//! - What an actor does can be had without a world: each act changes the one part that it is given, as the machine has
//!   that part moved (`server_takes`, `coordinator_takes`, `coordinator_begins` and `Part::placed`, `server_boots`,
//!   `coordinator_boots`)
//! - The oldest undelivered mail is the first of the undelivered ones, and it was sent; it is told by a visit of
//!   one node (`World::oldest`: `value`, `sent`, `counted`)
//!
//! `World::start` asks that the scenario is valid (`valid`), and that no run of it makes a record that is too
//! long for a log (`fit`), which holds of every such scenario (`tp_runs`); `World::step` that what the step names
//! exists in the scenario, and that no office is to crash or to boot (`ids`). So no log refuses a record but for want
//! of memory, and no disk fails outside a cut.
#![tactic(auto)]

mod actors;
mod acts;
mod error;
mod history;
mod laws;
mod moves;
mod opening;
mod part;
mod spares;
mod watch;
mod world;

pub use actors::{Actors, Locks};
pub use error::StepError;
pub use history::History;
pub use laws::steps_move_one_actor;
pub use moves::moved_by;
pub use opening::Opening;
pub use part::{
    Act, Part, alone, coordinator_begins, coordinator_boots, coordinator_takes, no_act,
    server_boots, server_takes,
};
pub use spares::Spares;
pub use watch::{Nobody, Watch};
pub use world::World;
