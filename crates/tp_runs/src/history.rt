//! What a world has seen so far, with what holds of it at every moment.
ghost use Rattle.std.specs.Prelude.{◌≡◌, ◌≤◌, ◌*◌, length, true, false, IfOk, IsErr, OnOk};
ghost use Rattle.tp_model.specs.SerialRun.{overlay, store_of};
ghost use Rattle.tp_model.specs.TrustedHistory.{have_ended};
ghost use Rattle.tp_model.specs.Valid as valid;
ghost use Rattle.tp_machine.specs.Machine.{ending_of};
ghost use Rattle.tp_machine.specs.WorldView as views;
ghost use Rattle.tp_runs.specs.Bounded.{AreBounded};
ghost use Rattle.tp_runs.specs.Laws.{HasAllEnds, IsTrustedSoFar, mails_most};
ghost use Rattle.tp_runs.specs.Sound.{IsSound};

use crate::laws::records_fit;
use std::alloc::Global;
use tp_machine::World;
use tp_types::{Ending, Fact, List, NoMemory, Scenario};

/// The world of a scenario before its first step. No run of it makes a record that a log does not take.
pub fn start(alloc: Global, scenario: &Scenario) -> Result<World, NoMemory>
    requires { valid.is_valid scenario.now ≡ true }
    ensures { IfOk result (λ world. world ≡ views.start scenario.now) }
{
    records_fit();
    World::start(alloc, scenario)
}

/// The same of a scenario that the world takes over, so that it is not copied.
pub fn start_of(alloc: Global, scenario: Scenario) -> Result<World, NoMemory>
    requires { valid.is_valid scenario ≡ true }
    ensures { IfOk result (λ world. world ≡ views.start scenario) }
{
    records_fit();
    World::of(alloc, scenario)
}

/// What happened so far, in order. It is a trusted history at every moment, whoever is down; all that mails, records and
/// facts name exists; and all values are far from the ends of their numbers.
pub fn facts(world: &World) -> &List<Fact>
    ensures value { result.now ≡ world.now.machine.state.facts }
    ensures so_far { world.now.given_up ≡ false → IsTrustedSoFar world.now }
    ensures sound { world.now.given_up ≡ false
        → IsSound world.now.scenario world.now.machine.state }
    ensures bounded { world.now.given_up ≡ false
        → AreBounded world.now.scenario world.now.machine.state }
{
    world.facts()
}

/// The number of mails sent so far: at most 128 times as many as there were steps.
pub fn mails(world: &World) -> u64
    ensures value { result ≡ length world.now.machine.state.mails }
    ensures few { world.now.given_up ≡ false
        → result ≤ mails_most * length world.now.machine.state.steps }
{
    let _facts = world.facts();
    world.mails()
}

/// How many steps and mails there were, and the value of each item: its opening value, overlaid by the commits that its
/// server has settled, also while that server is down, by what its log leaves. Where every transaction is finished, its
/// coordinator up, each has ended at all its servers, and these are the values that all commits leave.
pub fn ending(world: &World, alloc: Global) -> Result<Ending, NoMemory>
    ensures value { IfOk result (λ ending.
        ending ≡ ending_of world.now.scenario world.now.machine.state) }
    ensures overlaid { IfOk result (λ ending.
        ending.values ≡ overlay world.now.scenario world.now.machine.state.facts) }
    ensures ended { OnOk result (HasAllEnds world.now.scenario world.now.machine.state) }
    ensures whole { IfOk result (λ ending.
        have_ended world.now.scenario world.now.machine.state.facts 0 world.now.scenario.txns
        ≡ true
        → ending.values ≡ store_of world.now.scenario world.now.machine.state.facts) }
    ensures given_up { world.now.given_up ≡ true → IsErr result }
{
    let _facts = world.facts();
    world.ending(alloc)
}
