//! A cluster that one caller has used, and that is finished as a race.
ghost use Rattle.std.specs.Prelude.{◌≡◌, ◌≤◌, ◌∷◌, [], length, false, true, IfOk};
ghost use Rattle.tp_model.specs.Valid.{is_valid};
ghost use Rattle.tp_wire.specs.History.{numbers_of};
ghost use Rattle.tp_wire.specs.Passes.{fresh_pass, fresh_passes};
ghost use Rattle.tp_cluster.specs.Runs.{actors_of};
ghost use Rattle.tp_race.specs.Finish.{AreAllPasses};

use crate::ends::PRINTED;
use crate::scenarios::{FIRST, sink};
use std::alloc::Global;
use std::marker::Brand;
use std::sync::Wait;
use tp_cluster::{Cluster, ClusterOpening, Pass, Plan};
use tp_io::MemorySink;
use tp_race::{Status, finish};
use tp_scenario::read;
use tp_types::{List, NoMemory, Scenario, TxnId};
use tp_wire::Site;

/// Submits the first transaction.
fn submit_first<B: Site<Plan>, R: Wait>(rt: &R, cluster: &Cluster<B>, pass: &mut Pass)
    requires pass { pass.old ≡ fresh_pass B.table (actors_of B.about.scenario) }
    requires exists { 1 ≤ length B.about.scenario.txns }
    ensures site { pass.new.table ≡ B.table }
    ensures number { pass.new.given_up ≡ false → numbers_of pass.new.view.parts ≡ actors_of B.about.scenario ∷ [] }
{
    let answer = cluster.submit(rt, pass, TxnId(0));
    if answer.is_err() {
        pass.give_up();
    }
}

/// The one pass of a cluster, after its caller has submitted the first transaction.
fn used<B: Site<Plan>, R: Wait>(
    rt: &R,
    cluster: &Cluster<B>,
    mut passes: List<Pass>,
) -> Result<List<Pass>, NoMemory>
    requires passes { passes ≡ fresh_passes B.table (actors_of B.about.scenario) 1 }
    requires callers { B.about.callers ≡ 1 }
    requires exists { 1 ≤ length B.about.scenario.txns }
    ensures { IfOk result (λ left. AreAllPasses B.about B.table left) }
{
    let Some(mut pass) = passes.pop() else {
        return Err(NoMemory);
    };
    submit_first(rt, cluster, &mut pass);
    passes.push(pass)?;
    Ok(passes)
}

/// The cluster of an opening, which one caller has used.
fn used_cluster<B: Site<Plan>, R: Wait>(
    rt: &R,
    alloc: Global,
    opening: ClusterOpening,
) -> Result<(Cluster<B>, List<Pass>), NoMemory>
    requires site { opening.table ≡ B.table }
    requires about { opening.about ≡ B.about }
    requires callers { B.about.callers ≡ 1 }
    requires exists { 1 ≤ length B.about.scenario.txns }
    ensures { IfOk result (λ made. AreAllPasses B.about B.table made.1) }
{
    let (cluster, dealt) = Cluster::opened(opening, alloc)?;
    let passes = used(rt, &cluster, dealt)?;
    Ok((cluster, passes))
}

/// Finishes the cluster of an opening that one caller has used.
fn finished_on<B: Site<Plan>, R: Wait>(
    rt: &R,
    alloc: Global,
    opening: ClusterOpening,
    out: &mut MemorySink,
) -> Status
    requires site { opening.table ≡ B.table }
    requires about { opening.about ≡ B.about }
    requires callers { B.about.callers ≡ 1 }
    requires exists { 1 ≤ length B.about.scenario.txns }
{
    match used_cluster::<B, R>(rt, alloc, opening) {
        Err(NoMemory) => Status::NoMemory,
        Ok((cluster, passes)) => finish::<B, MemorySink>(alloc, cluster, passes, out),
    }
}

/// Finishes a scenario's cluster that one caller has used.
fn finished<R: Wait>(rt: &R, alloc: Global, scenario: &Scenario, out: &mut MemorySink) -> Status
    requires valid { is_valid scenario.now ≡ true }
    requires exists { 1 ≤ length scenario.now.txns }
{
    match ClusterOpening::new(alloc, scenario, 1) {
        Err(NoMemory) => Status::NoMemory,
        Ok(opening) => finished_on::<Brand, R>(rt, alloc, opening, out),
    }
}

/// Finishes the cluster of a scenario's text that one caller has used.
fn finished_text<R: Wait>(rt: &R, alloc: Global, text: &str, out: &mut MemorySink) -> Status {
    let Ok(scenario) = read(alloc, text.as_bytes()) else {
        return Status::Refused;
    };
    if scenario.txns.is_empty() {
        return Status::Refused;
    }
    finished(rt, alloc, &scenario, out)
}

#[test]
fn one_caller(rt: HostRuntime) {
    let mut out = sink(&rt);
    let status = finished_text(&rt, rt.alloc(), FIRST, &mut out);
    assert!(rt; status == Status::Done);
    assert!(rt; out.bytes() == PRINTED.as_bytes());
}
