//! A wire for tests, under the law that allows every entry.
ghost use Rattle.std.specs.Prelude.{◌≡◌, ◌<◌, ◌≤◌, [], ◌∷◌, IfOk, OnOk, IfSome};
ghost use Rattle.tp_wire.specs.Passes.{fresh_passes};
ghost use Rattle.tp_wire_tests.specs.Ready.{IsReady};

use std::alloc::Global;
use std::marker::Brand;
use std::sync::Wait;
use tp_types::{Actor, Body, Letter, List, NoMemory, Place, ProbeRequest, Step, TxnId};
use tp_wire::{Law, Pass, Site, Wire};

/// So many passes, and of so many of them the numbers are those of actors.
#[derive(Drop)]
pub struct Plan {
    pub passes: u32,
    pub actors: u32,
}

/// The law that allows every entry.
pub struct Anything;

impl Law<Plan> for Anything {
    ghost follows = { λ plan before e. Unit {0} };

    ghost actors = { λ plan. plan.actors };

    ghost passes = { λ plan. plan.passes };
}

impl Site<Plan> for Brand {
    ghost use Rattle.tp_wire_tests.specs.Ready.{no_table};

    ghost table = { no_table };

    ghost about = { record { passes = 0; actors = 0 } };
}

pub type TestWire<B> = Wire<Plan, Anything, B>;

/// Posts a tick with one letter.
pub fn post<B: Site<Plan>, R: Wait>(
    rt: &R,
    alloc: Global,
    wire: &TestWire<B>,
    pass: &mut Pass,
    by: u64,
) -> Result<Place, NoMemory>
    requires { IsReady B.table B.about.actors pass.old }
    ensures { OnOk result (IsReady B.table B.about.actors pass.new) }
{
    let letter = Letter {
        from: Actor::Master,
        to: Actor::Authority,
        body: Body::Probe(ProbeRequest {
            txn: TxnId(0),
            turn: 0,
        }),
    };
    let letters = List::of_one(alloc, letter)?;
    wire.post(rt, pass, Step::Tick { by }, List::new(alloc), letters)
}

/// Takes a mail, if there is one that is free.
pub fn take<B: Site<Plan>, R: Wait>(
    rt: &R,
    wire: &TestWire<B>,
    pass: &mut Pass,
) -> Result<Option<u64>, NoMemory>
    requires { IsReady B.table B.about.actors pass.old }
    ensures { OnOk result (IsReady B.table B.about.actors pass.new) }
{
    wire.take(rt, pass)
}

/// Looks.
pub fn look<B: Site<Plan>>(wire: &TestWire<B>, pass: &mut Pass) -> u64
    requires { IsReady B.table B.about.actors pass.old }
    ensures { IsReady B.table B.about.actors pass.new }
{
    wire.look(pass)
}
