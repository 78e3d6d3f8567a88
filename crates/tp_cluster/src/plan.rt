//! What a cluster is opened for, and the law that its history keeps.

use std::marker::Brand;
use tp_types::Scenario;
use tp_wire::{Law, Site};

/// A scenario, and how many callers its cluster has.
#[derive(Drop)]
pub struct Plan {
    pub scenario: Scenario,
    pub callers: u32,
}

/// The law of a cluster's history: it is a run of the scenario's machine. Its type stands for a definition, and has no
/// value.
pub struct Runs;

impl Law<Plan> for Runs {
    ghost use Rattle.std.specs.Prelude.{◌+◌};
    ghost use Rattle.tp_cluster.specs.Runs.{IsNext, actors_of};

    ghost follows = { λ plan. IsNext plan.scenario };

    ghost actors = { λ plan. actors_of plan.scenario };

    ghost passes = { λ plan. actors_of plan.scenario + plan.callers };
}

impl Site<Plan> for Brand {
    ghost use Rattle.tp_cluster.specs.Offices.{no_plan, no_table};

    ghost table = { no_table };

    ghost about = { no_plan };
}
