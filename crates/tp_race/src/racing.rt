//! The race of a scenario.
ghost use Rattle.std.specs.Prelude.{◌≡◌, ◌≤◌, length, true, IfOk};
ghost use Rattle.tp_ends.specs.Seen.{Ends, seen};
ghost use Rattle.tp_ends.specs.declared.status.Status.TheVariants as Status;
ghost use Rattle.tp_model.specs.Valid.{is_valid};
ghost use Rattle.tp_types.specs.Faults.{Rose};
ghost use Rattle.tp_race.specs.Callers as callers;
ghost use Rattle.tp_race.specs.mirrors.Answers.{IsRaced, RaceEnds};

use crate::Gate;
use crate::finishing::finish;
use crate::threads::run_scripts;
use std::alloc::Global;
use std::marker::Brand;
use std::sync::Wait;
use std::thread::Threads;
use tp_cluster::{Cluster, ClusterOpening, Pass, Plan};
use tp_ends::Status;
use tp_io::Sink;
use tp_types::{List, NoMemory, Scenario};
use tp_wire::Site;

/// Races a scenario, and writes the text of the race.
pub(crate) fn race_of<R: Threads + Wait + Sync, O: Sink, G: Gate + Sync>(
    rt: &R,
    alloc: Global,
    scenario: &Scenario,
    out: &mut O,
    gate: &G,
) -> Status
    requires { is_valid scenario.now ≡ true }
    ensures ended { RaceEnds result scenario.now (seen O.written O.faults out.old out.new) }
    ensures complete { ¬ (Rose (O.faults out.old) (O.faults out.new)) → Ends result Status.Done }
{
    let callers = callers_of(scenario);
    match ClusterOpening::new(alloc, scenario, callers) {
        Err(NoMemory) => Status::NoMemory,
        Ok(opening) => race_on::<Brand, R, O, G>(rt, alloc, scenario, opening, out, gate),
    }
}

/// How many callers a scenario has: one for each script, and one without a script.
#[tactic(auto, using(crate::proofs::RaceLemmas::counted))]
fn callers_of(scenario: &Scenario) -> u32
    requires clients { length scenario.now.clients ≤ 16 }
    requires publishers { length scenario.now.publishers ≤ 8 }
    requires officers { length scenario.now.officers ≤ 8 }
    ensures value { result ≡ callers.callers_of scenario.now }
    ensures few { result ≤ 33 }
{
    let scripts = scenario.clients.len() + scenario.publishers.len() + scenario.officers.len();
    scripts as u32 + 1
}

/// Races a scenario on the cluster that is opened.
fn race_on<B: Site<Plan> + Send + Sync, R: Threads + Wait + Sync, O: Sink, G: Gate + Sync>(
    rt: &R,
    alloc: Global,
    scenario: &Scenario,
    opening: ClusterOpening,
    out: &mut O,
    gate: &G,
) -> Status
    requires site { opening.table ≡ B.table }
    requires about { opening.about ≡ B.about }
    requires scenario { scenario.now ≡ B.about.scenario }
    requires callers { B.about.callers ≡ callers.callers_of B.about.scenario }
    requires valid { is_valid scenario.now ≡ true }
    ensures ended { RaceEnds result B.about.scenario (seen O.written O.faults out.old out.new) }
    ensures complete { ¬ (Rose (O.faults out.old) (O.faults out.new)) → Ends result Status.Done }
{
    match raced::<B, R, G>(rt, alloc, scenario, opening, gate) {
        Err(NoMemory) => Status::NoMemory,
        Ok((cluster, passes)) => finish::<B, O>(alloc, cluster, passes, out),
    }
}

/// The cluster after all scripts, and all passes.
fn raced<B: Site<Plan> + Send + Sync, R: Threads + Wait + Sync, G: Gate + Sync>(
    rt: &R,
    alloc: Global,
    scenario: &Scenario,
    opening: ClusterOpening,
    gate: &G,
) -> Result<(Cluster<B>, List<Pass>), NoMemory>
    requires site { opening.table ≡ B.table }
    requires about { opening.about ≡ B.about }
    requires scenario { scenario.now ≡ B.about.scenario }
    requires callers { B.about.callers ≡ callers.callers_of B.about.scenario }
    requires valid { is_valid scenario.now ≡ true }
    ensures { IfOk result (λ made. IsRaced B.about B.table made.1) }
{
    let (cluster, dealt) = Cluster::opened(opening, alloc)?;
    let passes = run_scripts(rt, alloc, &cluster, scenario, dealt, gate)?;
    Ok((cluster, passes))
}
