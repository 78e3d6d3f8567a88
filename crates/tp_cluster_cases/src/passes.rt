//! The calls of a cluster that do no step, for passes that are callers' as long as they are not given up.
ghost use Rattle.std.specs.Prelude.{◌≡◌, IfOk, IfSome};
ghost use Rattle.tp_types.specs.Each.{Each};
ghost use Rattle.tp_cluster_cases.specs.Passes.{IsOfCaller};

use std::alloc::Global;
use std::sync::Wait;
use tp_cluster::{Cluster, ClusterOpening, Pass, Plan};
use tp_machine::World;
use tp_types::{List, NoMemory};
use tp_wire::Site;

/// Opens the cluster of an opening.
pub fn opened<B: Site<Plan>>(
    opening: ClusterOpening,
    alloc: Global,
) -> Result<(Cluster<B>, List<Pass>), NoMemory>
    requires site { opening.table ≡ B.table }
    requires about { opening.about ≡ B.about }
    ensures { IfOk result (λ made. Each (IsOfCaller B.about.scenario B.table) made.1) }
{
    let (cluster, passes) = Cluster::opened(opening, alloc)?;
    Ok((cluster, passes))
}

/// Takes the last of the passes out.
pub fn taken_out<B: Site<Plan>>(_cluster: &Cluster<B>, passes: &mut List<Pass>) -> Option<Pass>
    requires { Each (IsOfCaller B.about.scenario B.table) passes.old }
    ensures others { Each (IsOfCaller B.about.scenario B.table) passes.new }
    ensures last { IfSome result (IsOfCaller B.about.scenario B.table) }
{
    passes.pop()
}

/// Puts a pass behind the others.
pub fn put_back<B: Site<Plan>>(
    _cluster: &Cluster<B>,
    passes: &mut List<Pass>,
    pass: Pass,
) -> Result<(), NoMemory>
    requires others { Each (IsOfCaller B.about.scenario B.table) passes.old }
    requires last { IsOfCaller B.about.scenario B.table pass }
    ensures { Each (IsOfCaller B.about.scenario B.table) passes.new }
{
    passes.push(pass)
}

/// Takes the oldest mail that no pass has taken; None where there is none.
pub fn next_mail<B: Site<Plan>, R: Wait>(
    rt: &R,
    cluster: &Cluster<B>,
    pass: &mut Pass,
) -> Result<Option<u64>, NoMemory>
    requires { IsOfCaller B.about.scenario B.table pass.old }
    ensures { IsOfCaller B.about.scenario B.table pass.new }
{
    cluster.take(rt, pass)
}

/// A length of the history.
pub fn length_seen<B: Site<Plan>>(cluster: &Cluster<B>, pass: &mut Pass) -> u64
    requires { IsOfCaller B.about.scenario B.table pass.old }
    ensures { IsOfCaller B.about.scenario B.table pass.new }
{
    cluster.seen(pass)
}

/// Closes a cluster with these passes.
pub fn closed<B: Site<Plan>>(
    cluster: Cluster<B>,
    alloc: Global,
    passes: List<Pass>,
) -> Result<World, NoMemory>
    requires { Each (IsOfCaller B.about.scenario B.table) passes }
{
    cluster.close(alloc, passes)
}
