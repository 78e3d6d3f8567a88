//! One caller of a cluster.
ghost use Rattle.std.specs.Prelude.{◌≡◌};
ghost use Rattle.tp_types.specs.Each.{Each};
ghost use Rattle.tp_machine.specs.Named.{IsStepOf};
ghost use Rattle.tp_cluster_cases.specs.Passes.{IsOfCaller};

use crate::passes::{closed, length_seen, next_mail, opened, put_back, taken_out};
use crate::worlds::length_of;
use std::alloc::Global;
use std::sync::Wait;
use tp_cluster::{Cluster, ClusterError, ClusterOpening, Gate2, Pass, Plan};
use tp_types::{List, NoMemory, Place, Step};
use tp_wire::Site;

/// A gate that holds nobody.
pub struct Open;

impl Gate2 for Open {
    fn pass(&self, _point: u32) {}
}

/// Does a step; None where the cluster has no call of this kind.
pub fn step<B: Site<Plan>, R: Wait>(
    rt: &R,
    alloc: Global,
    cluster: &Cluster<B>,
    pass: &mut Pass,
    taken: &Step,
) -> Option<Result<Place, ClusterError>>
    requires pass { IsOfCaller B.about.scenario B.table pass.old }
    requires ids { IsStepOf B.about.scenario taken.now }
    ensures { IsOfCaller B.about.scenario B.table pass.new }
{
    match *taken {
        Step::Submit { txn } => Some(cluster.submit(rt, pass, txn)),
        Step::Timer { txn } => Some(cluster.timer(rt, pass, txn)),
        Step::Publish { admin } => Some(cluster.publish(rt, pass, admin)),
        Step::Push { admin, server } => Some(cluster.push(rt, pass, admin, server)),
        Step::Revoke { cred } => Some(cluster.revoke(rt, pass, cred)),
        Step::Tick { by } => Some(cluster.tick(rt, pass, by)),
        Step::Deliver { mail } => Some(cluster.deliver(rt, alloc, pass, mail, &Open)),
        Step::Lose { .. } | Step::Crash { .. } | Step::Boot { .. } => None,
    }
}

/// Does these steps. Answers whether each was done.
pub fn steps_done<B: Site<Plan>, R: Wait>(
    rt: &R,
    alloc: Global,
    cluster: &Cluster<B>,
    pass: &mut Pass,
    steps: &[Step],
) -> bool
    requires pass { IsOfCaller B.about.scenario B.table pass.old }
    requires ids { Each (IsStepOf B.about.scenario) steps.now }
    ensures { IsOfCaller B.about.scenario B.table pass.new }
{
    for taken in steps {
        let Some(Ok(_)) = step(rt, alloc, cluster, pass, taken) else {
            return false;
        };
    }
    true
}

/// Takes and delivers mails until none is left. Answers whether each was delivered.
fn all_delivered<B: Site<Plan>, R: Wait>(
    rt: &R,
    alloc: Global,
    cluster: &Cluster<B>,
    pass: &mut Pass,
) -> Result<bool, NoMemory>
    requires { IsOfCaller B.about.scenario B.table pass.old }
    ensures { IsOfCaller B.about.scenario B.table pass.new }
{
    for _ in rt.forever() {
        let Some(mail) = next_mail(rt, cluster, pass)? else {
            return Ok(true);
        };
        let Some(Ok(_)) = step(rt, alloc, cluster, pass, &Step::Deliver { mail }) else {
            return Ok(false);
        };
    }
    Ok(false)
}

/// Does these steps, and delivers all mails. Answers how many steps there were; None where one is refused.
fn run_by<B: Site<Plan>, R: Wait>(
    rt: &R,
    alloc: Global,
    cluster: &Cluster<B>,
    pass: &mut Pass,
    steps: &[Step],
) -> Result<Option<u64>, NoMemory>
    requires pass { IsOfCaller B.about.scenario B.table pass.old }
    requires ids { Each (IsStepOf B.about.scenario) steps.now }
    ensures { IsOfCaller B.about.scenario B.table pass.new }
{
    let done = steps_done(rt, alloc, cluster, pass, steps);
    if !done || !all_delivered(rt, alloc, cluster, pass)? {
        return Ok(None);
    }
    Ok(Some(length_seen(cluster, pass)))
}

/// The same by the caller whose pass is the last of these.
fn run_with<B: Site<Plan>, R: Wait>(
    rt: &R,
    alloc: Global,
    cluster: &Cluster<B>,
    passes: &mut List<Pass>,
    steps: &[Step],
) -> Result<Option<u64>, NoMemory>
    requires passes { Each (IsOfCaller B.about.scenario B.table) passes.old }
    requires ids { Each (IsStepOf B.about.scenario) steps.now }
    ensures { Each (IsOfCaller B.about.scenario B.table) passes.new }
{
    let Some(mut pass) = taken_out(cluster, passes) else {
        return Err(NoMemory);
    };
    let found = run_by(rt, alloc, cluster, &mut pass, steps);
    put_back(cluster, passes, pass)?;
    found
}

/// Closes a cluster. Answers how many steps its world has.
fn closed_length<B: Site<Plan>>(
    cluster: Cluster<B>,
    alloc: Global,
    passes: List<Pass>,
) -> Result<u64, NoMemory>
    requires { Each (IsOfCaller B.about.scenario B.table) passes }
{
    let world = closed(cluster, alloc, passes)?;
    Ok(length_of(world))
}

/// Does these steps by one caller, and delivers all mails, in a cluster that is closed then or ends. Answers how many
/// steps there were; None where one is refused.
fn run_in<B: Site<Plan>, R: Wait>(
    rt: &R,
    alloc: Global,
    cluster: Cluster<B>,
    passes: List<Pass>,
    steps: &[Step],
    closes: bool,
) -> Result<Option<u64>, NoMemory>
    requires passes { Each (IsOfCaller B.about.scenario B.table) passes }
    requires ids { Each (IsStepOf B.about.scenario) steps.now }
{
    let mut passes = passes;
    let found = run_with(rt, alloc, &cluster, &mut passes, steps);
    if !closes {
        drop(cluster);
        return found;
    }
    let length = closed_length(cluster, alloc, passes)?;
    match found? {
        Some(_) => Ok(Some(length)),
        None => Ok(None),
    }
}

/// Does these steps in the cluster of an opening, and delivers all mails. Answers how many steps there were; None where
/// one is refused.
pub fn run_on<B: Site<Plan>, R: Wait>(
    rt: &R,
    alloc: Global,
    opening: ClusterOpening,
    steps: &[Step],
    closes: bool,
) -> Result<Option<u64>, NoMemory>
    requires site { opening.table ≡ B.table }
    requires about { opening.about ≡ B.about }
    requires ids { Each (IsStepOf B.about.scenario) steps.now }
{
    let (cluster, passes): (Cluster<B>, List<Pass>) = opened(opening, alloc)?;
    run_in(rt, alloc, cluster, passes, steps, closes)
}
