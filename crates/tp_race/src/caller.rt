//! What one caller does on the cluster.
ghost use Rattle.std.specs.Prelude.{◌≡◌, ◌+◌, ◌<◌, [], ℕ, List, false, true, IsErrOf};
ghost use Rattle.tp_model.specs.Words.{Step};
ghost use Rattle.tp_types.specs.Each.{Each};
ghost use Rattle.tp_wire.specs.Entries.{sent_in};
ghost use Rattle.tp_wire.specs.Passes.{fresh_pass};
ghost use Rattle.tp_cluster.specs.Calls.{IsAnswer};
ghost use Rattle.tp_cluster.specs.Runs.{actors_of};
ghost use Rattle.tp_race.specs.Callers.{IsAt, script_at, scripts_of};
ghost use Rattle.tp_race.specs.Commands.{HasTaken, HasWorked, IsCommand, IsOfCaller, StaysAt};

use crate::Gate;
use std::alloc::Global;
use std::sync::Wait;
use tp_cluster::{Cluster, ClusterError, Pass, Plan};
use tp_types::{List, NoMemory, Place, Step};
use tp_wire::Site;

/// Does all that a caller is to do: its script, or without one what is left to deliver.
pub fn work<B: Site<Plan>, R: Wait, G: Gate>(
    rt: &R,
    alloc: Global,
    cluster: &Cluster<B>,
    scripts: &List<List<Step>>,
    caller: usize,
    pass: &mut Pass,
    gate: &G,
)
    requires scripts { scripts.now ≡ scripts_of B.about.scenario }
    requires commands { Each (Each (IsCommand B.about.scenario)) scripts.now }
    requires fresh { pass.old ≡ fresh_pass B.table (actors_of B.about.scenario + caller) }
    ensures { HasWorked B.about.scenario B.table caller pass.new }
{
    match scripts.get(caller) {
        Some(script) => do_script(rt, alloc, cluster, script, pass, gate),
        None => deliver_all(rt, alloc, cluster, pass, gate),
    }
}

/// Does the steps of a script one after another, and after each delivers mails until none is left. It stops at a step
/// that the cluster refuses.
fn do_script<B: Site<Plan>, R: Wait, G: Gate>(
    rt: &R,
    alloc: Global,
    cluster: &Cluster<B>,
    script: &List<Step>,
    pass: &mut Pass,
    gate: &G,
)
    requires pass { IsOfCaller B.about.scenario B.table pass.old }
    requires commands { Each (IsCommand B.about.scenario) script.now }
    ensures { (caller : ℕ) → script_at B.about.scenario caller ≡ script.now
        → IsAt B.about.scenario caller [] pass.old.view → HasWorked B.about.scenario B.table caller pass.new }
{
    for taken in script.as_slice() {
        match do_step(rt, cluster, pass, *taken) {
            Ok(_) => deliver_all(rt, alloc, cluster, pass, gate),
            Err(_) => return,
        }
    }
}

/// Does a step of a script.
fn do_step<B: Site<Plan>, R: Wait>(
    rt: &R,
    cluster: &Cluster<B>,
    pass: &mut Pass,
    taken: Step,
) -> Result<Place, ClusterError>
    requires pass { IsOfCaller B.about.scenario B.table pass.old }
    requires command { IsCommand B.about.scenario taken }
    ensures site { pass.new.table ≡ B.table }
    ensures answer { IsAnswer B.about.scenario pass.old taken result pass.new }
    ensures memory { IsErrOf result ClusterError.NoMemory → pass.new.given_up ≡ true }
{
    match taken {
        Step::Submit { txn } => cluster.submit(rt, pass, txn),
        Step::Publish { admin } => cluster.publish(rt, pass, admin),
        Step::Push { admin, server } => cluster.push(rt, pass, admin, server),
        Step::Revoke { cred } => cluster.revoke(rt, pass, cred),
        Step::Tick { by } => cluster.tick(rt, pass, by),
        _ => unreachable!(),
    }
}

/// Takes mails and delivers them, until a take finds none or memory is refused.
fn deliver_all<B: Site<Plan>, R: Wait, G: Gate>(
    rt: &R,
    alloc: Global,
    cluster: &Cluster<B>,
    pass: &mut Pass,
    gate: &G,
)
    requires { IsOfCaller B.about.scenario B.table pass.old }
    ensures pass { IsOfCaller B.about.scenario B.table pass.new }
    ensures at { pass.new.given_up ≡ false → StaysAt B.about.scenario pass.old pass.new }
{
    for _ in rt.forever() {
        if !deliver_next(rt, alloc, cluster, pass, gate) {
            return;
        }
    }
    unreachable!()
}

/// Takes the oldest mail that no pass has taken, and delivers it. Answers whether it did.
fn deliver_next<B: Site<Plan>, R: Wait, G: Gate>(
    rt: &R,
    alloc: Global,
    cluster: &Cluster<B>,
    pass: &mut Pass,
    gate: &G,
) -> bool
    requires { IsOfCaller B.about.scenario B.table pass.old }
    ensures pass { IsOfCaller B.about.scenario B.table pass.new }
    ensures at { pass.new.given_up ≡ false → StaysAt B.about.scenario pass.old pass.new }
{
    match cluster.take(rt, pass) {
        Ok(Some(mail)) => deliver(rt, alloc, cluster, pass, mail, gate),
        Ok(None) => false,
        Err(NoMemory) => false,
    }
}

/// Delivers a mail that was sent in what the pass has seen, and so is not refused. Answers whether memory was not
/// refused.
fn deliver<B: Site<Plan>, R: Wait, G: Gate>(
    rt: &R,
    alloc: Global,
    cluster: &Cluster<B>,
    pass: &mut Pass,
    mail: u64,
    gate: &G,
) -> bool
    requires pass { IsOfCaller B.about.scenario B.table pass.old }
    requires sent { mail < sent_in pass.old.view.seen }
    ensures pass { IsOfCaller B.about.scenario B.table pass.new }
    ensures live { pass.new.given_up ≡ false → pass.old.given_up ≡ false }
    ensures at { pass.new.given_up ≡ false → (caller : ℕ) (done : List Step)
        → HasTaken B.about.scenario caller done mail pass.old.view → IsAt B.about.scenario caller done pass.new.view }
{
    match cluster.deliver(rt, alloc, pass, mail, gate) {
        Ok(_) => true,
        Err(ClusterError::NoMemory) => false,
        Err(ClusterError::Refused(_)) => unreachable!(),
    }
}
