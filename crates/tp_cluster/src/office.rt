//! An actor behind its lock.

use crate::plan::Plan;
use std::marker::{Model, PhantomData};
use tp_coord::Coordinator;
use tp_machine::{Locks, Part, Spares};
use tp_offices::{Authority, Master};
use tp_server::Server;
use tp_types::Actor;
use tp_wire::{Pass, Site};

/// What an actor has, as the machine has it.
pub trait Officer {
    ghost use Rattle.tp_cluster.specs.Offices.{Held};

    ghost held: { Self → Held };
}

impl Officer for Part<Server<Locks>> {
    ghost use Rattle.tp_cluster.specs.Offices.Held.{OfServer};

    ghost held = { λ part. OfServer part };
}

impl Officer for Part<Coordinator> {
    ghost use Rattle.tp_cluster.specs.Offices.Held.{OfCoordinator};

    ghost held = { λ part. OfCoordinator part };
}

impl Officer for Authority {
    ghost use Rattle.tp_cluster.specs.Offices.Held.{OfAuthority};

    ghost held = { λ authority. OfAuthority authority };
}

impl Officer for Master {
    ghost use Rattle.tp_cluster.specs.Offices.Held.{OfMaster};

    ghost held = { λ master. OfMaster master };
}

/// What stands behind an actor's lock: what it has, the pass with its part of the history, and the memory that its
/// steps lend one another. Without the pass the actor is lost with memory that was refused. Contracts see it as the
/// actor.
#[derive(Drop)]
pub struct Office<S: Officer, B: Site<Plan>> {
    pub number: u32,
    pub actor: Actor,
    pub state: S,
    pub pass: Option<Pass>,
    pub spares: Spares,
    pub site: PhantomData<B>,
}

impl<S: Officer, B: Site<Plan>> Model for Office<S, B> {
    ghost use Rattle.std.specs.Prelude.{◌≡◌, IfSome};
    ghost use Rattle.tp_model.specs.Words.{Actor};
    ghost use Rattle.tp_machine.specs.Moves.{number_of};
    ghost use Rattle.tp_cluster.specs.Offices.{IsOffice};

    ghost Value = { Actor };

    ghost view = { λ o. o.actor };

    ghost invariant = { λ o. (o.number ≡ number_of B.about.scenario o.actor) × IfSome o.pass (IsOffice B.about.scenario B.table o.actor (S.held o.state)) };
}
