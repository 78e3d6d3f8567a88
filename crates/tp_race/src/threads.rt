//! The scripts of a race on threads.
ghost use Rattle.std.specs.Prelude.{◌≡◌, ◌+◌, false, length, true, IfOk};
ghost use Rattle.tp_model.specs.Valid.{is_valid};
ghost use Rattle.tp_types.specs.Each.{Each, EachAt};
ghost use Rattle.tp_wire.specs.Passes.{Known, fresh_pass, fresh_passes, views_of};
ghost use Rattle.tp_cluster.specs.Runs.{actors_of};
ghost use Rattle.tp_race.specs.Callers.{AreAll, HasEnded, callers_of, scripts_of};
ghost use Rattle.tp_race.specs.Commands.{HasWorked, IsCommand};

use crate::Gate;
use crate::caller::work;
use crate::scripts::scripts_of;
use std::alloc::Global;
use std::sync::Wait;
use std::thread;
use std::thread::Threads;
use tp_cluster::{Cluster, Pass, Plan};
use tp_types::{List, NoMemory, Scenario, Step};
use tp_wire::Site;

/// Runs each script on a thread of its own where one can be made, and else after another. When all have ended, the
/// caller without a script delivers what is left. Gives all passes back in their order.
pub fn run_scripts<B: Site<Plan> + Send + Sync, R: Threads + Wait + Sync, G: Gate + Sync>(
    rt: &R,
    alloc: Global,
    cluster: &Cluster<B>,
    scenario: &Scenario,
    mut passes: List<Pass>,
    gate: &G,
) -> Result<List<Pass>, NoMemory>
    requires about { scenario.now ≡ B.about.scenario }
    requires valid { is_valid scenario.now ≡ true }
    requires callers { B.about.callers ≡ callers_of B.about.scenario }
    requires passes { passes ≡ fresh_passes B.table (actors_of B.about.scenario) B.about.callers }
    ensures site { IfOk result (λ made. Each (λ (p : Known). p.table ≡ B.table) made) }
    ensures ended { IfOk result (λ made. Each (λ (p : Known). p.given_up ≡ false) made
        → AreAll (HasEnded B.about.scenario) (callers_of B.about.scenario) (views_of made)) }
{
    let scripts = scripts_of(alloc, scenario)?;
    let Some(mut last) = passes.pop() else {
        // one caller has no script, so that there is a pass
        unreachable!()
    };
    let mut others = passes.into_vec();
    work_each(rt, alloc, cluster, &scripts, others.as_mut_slice(), gate);
    work(rt, alloc, cluster, &scripts, scripts.len(), &mut last, gate);
    let mut all = List::from_vec(others);
    all.push(last)?;
    Ok(all)
}

/// Each caller works, on a thread of its own where one can be made.
fn work_each<B: Site<Plan> + Send + Sync, R: Threads + Wait + Sync, G: Gate + Sync>(
    rt: &R,
    alloc: Global,
    cluster: &Cluster<B>,
    scripts: &List<List<Step>>,
    passes: &mut [Pass],
    gate: &G,
)
    requires scripts { scripts.now ≡ scripts_of B.about.scenario }
    requires commands { Each (Each (IsCommand B.about.scenario)) scripts.now }
    requires fresh { passes.old ≡ fresh_passes B.table (actors_of B.about.scenario) (length passes.old) }
    ensures { EachAt (HasWorked B.about.scenario B.table) passes.new }
{
    let count = passes.len().max(1);
    thread::for_each_mut(
        rt,
        passes,
        count,
        &|caller: usize, pass: &mut Pass|
            requires scripts { scripts.now ≡ scripts_of B.about.scenario }
            requires commands { Each (Each (IsCommand B.about.scenario)) scripts.now }
            requires fresh { pass.now ≡ fresh_pass B.table (actors_of B.about.scenario + caller) }
            ensures { HasWorked B.about.scenario B.table caller pass.exit.now }
        { work(rt, alloc, cluster, scripts, caller, pass, gate) },
    );
}
