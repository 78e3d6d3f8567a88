//! The cluster of a scenario with each actor behind a lock of its own, over a history that many threads extend.
//!
//! The history is a wire's (`tp_wire`), whose law says that it is a run of the scenario's machine (`specs/Runs`): each
//! step names what exists, is not refused by the machine after the steps before it, and its entry tells what happens
//! in it and what is sent. So every beginning that a pass has seen is a run. Behind an actor's lock stands what the
//! machine has of the actor, and the pass with the actor's part of the history (`specs/Offices`). Under it a call
//! takes that pass in, acts by the machine's own acts, posts the step, and gives the pass back. It takes one actor's
//! lock, and then the book's.
//!
//! What is promised, with the contract that carries it:
//!
//! - A cluster is opened with an empty history, each actor as the machine opens it, and a pass for each caller, of one
//!   part whose number follows those of the actors (`Cluster::opened`)
//! - Where a call answers a place, its step stands there, behind all that its pass had seen or been told; the pass has
//!   seen the history up to it and with it, which is a run, and the step is the last one of the caller's part
//!   (`answer` of `Cluster::submit`, `tick`, `revoke`, `publish`, `push`, `timer` and `deliver`: `IsDone`)
//! - A refusal is the machine's, after the whole history that the pass has then seen, which is no shorter than it had
//!   been told (`answer`: `IsTurned`)
//! - After NoMemory the pass is given up, and then answers nothing else (`memory`, and `was_live` of both)
//! - A look and a take answer as a wire's (`Cluster::seen`; `take`: `seen`, `some`, `none`), and a take leaves the
//!   caller's pass one (`caller`)
//! - A closed cluster is the world of its history's steps, without any comparison. The wire's closing tells what the
//!   passes of callers and actors saw, did and took: each step is of one actor and of one caller, the actors took no
//!   mail, and where the passes of all callers are given, all mails up to where a pass was cleared were taken by these
//!   (`Cluster::close`: `closed`, `live`)
//!
//! By the bodies, and no contract's: after NoMemory of one pass others go on, but the actor whose lock was held may be
//! lost, and its calls then answer NoMemory; a delivery to a server calls the gate once, under the server's lock and
//! before the server acts.
//!
//! Not claimed: that a call which takes a lock returns.
#![tactic(auto)]

mod authority;
mod closing;
mod cluster;
mod coordinators;
mod error;
mod gate;
mod master;
mod meeting;
mod office;
mod opening;
mod plan;
mod servers;

pub use cluster::Cluster;
pub use error::ClusterError;
pub use gate::Gate2;
pub use opening::ClusterOpening;
pub use plan::{Plan, Runs};
pub use tp_wire::Pass;
