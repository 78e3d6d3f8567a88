//! Each call of a cluster, with its refusals in their order, and the first scenario by one caller.
ghost use Rattle.std.specs.Prelude.{◌≡◌, true};
ghost use Rattle.tp_model.specs.Valid.{is_valid};
ghost use Rattle.tp_machine.specs.Named.{IsStepOf};
ghost use Rattle.tp_types.specs.Each.{Each};
ghost use Rattle.tp_cluster_cases.specs.Passes.{IsOfCaller};

use crate::callers::{step, steps_done};
use crate::passes::{closed, length_seen, next_mail, opened, put_back, taken_out};
use std::alloc::Global;
use std::marker::Brand;
use std::sync::Wait;
use std::test::Fail;
use tp_cluster::{Cluster, ClusterError, ClusterOpening, Pass, Plan};
use tp_machine::{StepError, World};
use tp_scenario::read;
use tp_types::{List, NoMemory, Scenario, Step};
use tp_wire::Site;

/// The first scenario, and its steps: its transaction takes eight mails.
const FIRST: &str = r#"{"admins":[{"name":"hr","policies":["allow any on * if true;"]}],
    "servers":[{"name":"s0","items":[{"name":"x","admin":"hr","min":0,"max":100,"value":5}]}],
    "transactions":[{"name":"t1","subject":"ann","queries":["write x := 7"]}],
    "steps":["submit t1"]}"#;

/// A step of each kind that a cluster has, and behind some the refusal that it has then.
const EACH: &str =
    r#"{"admins":[{"name":"hr","policies":["allow any on * if true;","allow any on * if true;"]}],
    "credentials":[{"name":"badge","issuer":"hr","subject":"ann","attr":"role","value":"nurse"}],
    "servers":[{"name":"s0","items":[{"name":"x","admin":"hr","min":0,"max":100,"value":5}]}],
    "transactions":[{"name":"t1","subject":"ann","queries":["write x := 7"]}],
    "steps":["timer t1","deliver 0","submit t1","submit t1","publish hr","publish hr","push hr s0","tick 5",
        "revoke badge","deliver 0","deliver 999","timer t1","tick 1"]}"#;

/// What is wanted of a step.
enum Wanted {
    At(u64),
    NotSubmitted,
    NoSuchMail(u64),
    AlreadySubmitted,
    NoMore,
}

/// What is wanted of the steps of `EACH`.
const ANSWERS: [Wanted; 13] = [
    Wanted::NotSubmitted,
    Wanted::NoSuchMail(0),
    Wanted::At(0),
    Wanted::AlreadySubmitted,
    Wanted::At(1),
    Wanted::NoMore,
    Wanted::At(2),
    Wanted::At(3),
    Wanted::At(4),
    Wanted::At(5),
    // the submission sent a request, the push a notice, and the delivery a reply
    Wanted::NoSuchMail(3),
    Wanted::At(6),
    Wanted::At(7),
];

/// Whether an answer is the wanted one. All are about the first transaction and administrator.
fn is_wanted(answer: &Option<Result<u64, ClusterError>>, wanted: &Wanted) -> bool {
    match (answer, wanted) {
        (Some(Ok(place)), Wanted::At(at)) => place == at,
        (Some(Err(ClusterError::Refused(why))), _) => match (why, wanted) {
            (StepError::NotSubmitted { txn }, Wanted::NotSubmitted) => txn.0 == 0,
            (StepError::AlreadySubmitted { txn }, Wanted::AlreadySubmitted) => txn.0 == 0,
            (StepError::NoMore { admin }, Wanted::NoMore) => admin.0 == 0,
            (StepError::NoSuchMail { mails, .. }, Wanted::NoSuchMail(sent)) => mails == sent,
            _ => false,
        },
        _ => false,
    }
}

/// Whether a step was done at this place.
fn is_at(answer: Option<Result<u64, ClusterError>>, at: u64) -> bool {
    matches!(answer, Some(Ok(place)) if place == at)
}

/// Whether a mail is delivered in the step whose place is the next number.
fn is_behind(answer: Option<Result<u64, ClusterError>>, mail: u64) -> bool {
    is_at(answer, mail.wrapping_add(1))
}

/// Whether the clock is refused to move, and stands here.
fn is_too_late(answer: Option<Result<u64, ClusterError>>, at: u64) -> bool {
    matches!(answer, Some(Err(ClusterError::Refused(StepError::TooLate { clock }))) if clock == at)
}

/// Whether memory was refused.
fn is_without_memory(answer: Option<Result<u64, ClusterError>>) -> bool {
    matches!(answer, Some(Err(ClusterError::NoMemory)))
}

/// Whether a mail is this one.
fn is_mail(found: Option<u64>, wanted: u64) -> bool {
    matches!(found, Some(mail) if mail == wanted)
}

/// What is tried of a cluster.
#[derive(Clone, Copy)]
enum Trial {
    /// Each call of the cluster of `EACH`.
    Calls,
    /// The first scenario by one pass.
    First,
    /// A pass that is given up.
    GivenUp,
}

/// Whether each of these steps is answered as is wanted.
fn each_wanted<B: Site<Plan>, R: Wait>(
    rt: &R,
    alloc: Global,
    cluster: &Cluster<B>,
    pass: &mut Pass,
    steps: &[Step],
) -> bool
    requires pass { IsOfCaller B.about.scenario B.table pass.old }
    requires ids { Each (IsStepOf B.about.scenario) steps.now }
    ensures { IsOfCaller B.about.scenario B.table pass.new }
{
    let mut wanted: &[Wanted] = &ANSWERS;
    for taken in steps {
        let answer = step(rt, alloc, cluster, pass, taken);
        let Some((first, others)) = wanted.split_first() else {
            return false;
        };
        if !is_wanted(&answer, first) {
            return false;
        }
        wanted = others;
    }
    wanted.is_empty()
}

/// Whether the mails are taken in their order, and no more than these.
fn taken_in_order<B: Site<Plan>, R: Wait>(
    rt: &R,
    cluster: &Cluster<B>,
    pass: &mut Pass,
    count: u64,
) -> Result<bool, NoMemory>
    requires { IsOfCaller B.about.scenario B.table pass.old }
    ensures { IsOfCaller B.about.scenario B.table pass.new }
{
    for number in 0..count {
        let mail = next_mail(rt, cluster, pass)?;
        if !is_mail(mail, number) {
            return Ok(false);
        }
    }
    Ok(next_mail(rt, cluster, pass)?.is_none())
}

/// Whether the calls of a cluster of `EACH` answer as is wanted: its steps, then a clock that cannot move, a look and
/// the takes.
fn calls_wanted<B: Site<Plan>, R: Wait>(
    rt: &R,
    alloc: Global,
    cluster: &Cluster<B>,
    pass: &mut Pass,
    steps: &[Step],
) -> Result<bool, NoMemory>
    requires pass { IsOfCaller B.about.scenario B.table pass.old }
    requires ids { Each (IsStepOf B.about.scenario) steps.now }
    ensures { IsOfCaller B.about.scenario B.table pass.new }
{
    let right = each_wanted(rt, alloc, cluster, pass, steps);
    let late = step(rt, alloc, cluster, pass, &Step::Tick { by: u64::MAX });
    let found = length_seen(cluster, pass);
    let taken = taken_in_order(rt, cluster, pass, 4)?;
    Ok(right && is_too_late(late, 6) && found == 8 && taken)
}

/// Whether each of eight mails is taken and delivered, and then none is left.
fn eight_delivered<B: Site<Plan>, R: Wait>(
    rt: &R,
    alloc: Global,
    cluster: &Cluster<B>,
    pass: &mut Pass,
) -> Result<bool, NoMemory>
    requires { IsOfCaller B.about.scenario B.table pass.old }
    ensures { IsOfCaller B.about.scenario B.table pass.new }
{
    for number in 0..8u64 {
        let mail = next_mail(rt, cluster, pass)?;
        let delivered = step(rt, alloc, cluster, pass, &Step::Deliver { mail: number });
        if !is_mail(mail, number) || !is_behind(delivered, number) {
            return Ok(false);
        }
    }
    Ok(next_mail(rt, cluster, pass)?.is_none())
}

/// Whether one caller, who takes and delivers each mail, does the first scenario in nine steps, the last of which sends
/// nothing.
fn first_wanted<B: Site<Plan>, R: Wait>(
    rt: &R,
    alloc: Global,
    cluster: &Cluster<B>,
    pass: &mut Pass,
    steps: &[Step],
) -> Result<bool, NoMemory>
    requires pass { IsOfCaller B.about.scenario B.table pass.old }
    requires ids { Each (IsStepOf B.about.scenario) steps.now }
    ensures { IsOfCaller B.about.scenario B.table pass.new }
{
    let submitted = steps_done(rt, alloc, cluster, pass, steps);
    let found = length_seen(cluster, pass);
    let delivered = eight_delivered(rt, alloc, cluster, pass)?;
    Ok(submitted && found == 1 && delivered)
}

/// Gives a pass up.
fn give_up<B: Site<Plan>>(_cluster: &Cluster<B>, pass: &mut Pass)
    requires { IsOfCaller B.about.scenario B.table pass.old }
    ensures { IsOfCaller B.about.scenario B.table pass.new }
{
    pass.give_up();
}

/// Whether a pass that is given up answers nothing but a look, while another goes on.
fn given_up_wanted<B: Site<Plan>, R: Wait>(
    rt: &R,
    alloc: Global,
    cluster: &Cluster<B>,
    pass: &mut Pass,
    other: &mut Pass,
) -> bool
    requires pass { IsOfCaller B.about.scenario B.table pass.old }
    requires other { IsOfCaller B.about.scenario B.table other.old }
    ensures pass { IsOfCaller B.about.scenario B.table pass.new }
    ensures other { IsOfCaller B.about.scenario B.table other.new }
{
    give_up(cluster, pass);
    let refused = step(rt, alloc, cluster, pass, &Step::Tick { by: 1 });
    let none = next_mail(rt, cluster, pass).is_err();
    let done = step(rt, alloc, cluster, other, &Step::Tick { by: 1 });
    let found = length_seen(cluster, pass);
    is_without_memory(refused) && none && is_at(done, 0) && found == 1
}

/// Whether a trial's calls answer as is wanted.
fn trial_wanted<B: Site<Plan>, R: Wait>(
    rt: &R,
    alloc: Global,
    cluster: &Cluster<B>,
    pass: &mut Pass,
    other: &mut Pass,
    steps: &[Step],
    trial: Trial,
) -> Result<bool, NoMemory>
    requires pass { IsOfCaller B.about.scenario B.table pass.old }
    requires other { IsOfCaller B.about.scenario B.table other.old }
    requires ids { Each (IsStepOf B.about.scenario) steps.now }
    ensures pass { IsOfCaller B.about.scenario B.table pass.new }
    ensures other { IsOfCaller B.about.scenario B.table other.new }
{
    match trial {
        Trial::Calls => calls_wanted(rt, alloc, cluster, pass, steps),
        Trial::First => first_wanted(rt, alloc, cluster, pass, steps),
        Trial::GivenUp => Ok(given_up_wanted(rt, alloc, cluster, pass, other)),
    }
}

/// How many steps, mails and facts a world has.
fn lengths_of(world: &World) -> (usize, u64, usize) {
    (world.steps().len(), world.mails(), world.facts().len())
}

/// Whether the closed world of a trial, which ends then, has as many steps, mails and facts as are wanted. One with a
/// pass that is given up is not closed.
fn world_wanted(world: World, trial: Trial) -> bool {
    let (steps, mails, facts) = lengths_of(&world);
    drop(world);
    match trial {
        Trial::Calls => steps == 8 && mails == 4,
        Trial::First => steps == 9 && mails == 8 && facts == 3,
        Trial::GivenUp => false,
    }
}

/// Whether a trial's calls by the last two of these passes answer as is wanted.
fn trial_with<B: Site<Plan>, R: Wait>(
    rt: &R,
    alloc: Global,
    cluster: &Cluster<B>,
    passes: &mut List<Pass>,
    steps: &[Step],
    trial: Trial,
) -> Result<bool, NoMemory>
    requires passes { Each (IsOfCaller B.about.scenario B.table) passes.old }
    requires ids { Each (IsStepOf B.about.scenario) steps.now }
    ensures { Each (IsOfCaller B.about.scenario B.table) passes.new }
{
    let Some(mut pass) = taken_out(cluster, passes) else {
        return Ok(false);
    };
    let Some(mut other) = taken_out(cluster, passes) else {
        return Ok(false);
    };
    let right = trial_wanted(rt, alloc, cluster, &mut pass, &mut other, steps, trial);
    put_back(cluster, passes, pass)?;
    put_back(cluster, passes, other)?;
    right
}

/// Whether a trial's cluster closes as is wanted.
fn close_wanted<B: Site<Plan>>(
    cluster: Cluster<B>,
    alloc: Global,
    passes: List<Pass>,
    trial: Trial,
) -> bool
    requires { Each (IsOfCaller B.about.scenario B.table) passes }
{
    match closed(cluster, alloc, passes) {
        Ok(world) => world_wanted(world, trial),
        Err(NoMemory) => matches!(trial, Trial::GivenUp),
    }
}

/// Whether a trial's calls answer, and its cluster closes, as is wanted.
fn trial_in<B: Site<Plan>, R: Wait>(
    rt: &R,
    alloc: Global,
    cluster: Cluster<B>,
    passes: List<Pass>,
    steps: &[Step],
    trial: Trial,
) -> Result<bool, NoMemory>
    requires passes { Each (IsOfCaller B.about.scenario B.table) passes }
    requires ids { Each (IsStepOf B.about.scenario) steps.now }
{
    let mut passes = passes;
    let right = trial_with(rt, alloc, &cluster, &mut passes, steps, trial);
    let closes = close_wanted(cluster, alloc, passes, trial);
    Ok(right? && closes)
}

/// Whether a trial on the cluster of an opening, which has two callers, answers as is wanted.
fn trial_on<B: Site<Plan>, R: Wait>(
    rt: &R,
    alloc: Global,
    opening: ClusterOpening,
    steps: &[Step],
    trial: Trial,
) -> Result<bool, NoMemory>
    requires site { opening.table ≡ B.table }
    requires about { opening.about ≡ B.about }
    requires ids { Each (IsStepOf B.about.scenario) steps.now }
{
    let (cluster, passes): (Cluster<B>, List<Pass>) = opened(opening, alloc)?;
    trial_in(rt, alloc, cluster, passes, steps, trial)
}

/// Whether a trial on the cluster of a scenario answers as is wanted.
fn trial_of<R: Wait>(
    rt: &R,
    alloc: Global,
    scenario: &Scenario,
    trial: Trial,
) -> Result<bool, NoMemory>
    requires { is_valid scenario.now ≡ true }
{
    let opening = ClusterOpening::new(alloc, scenario, 2)?;
    let steps = scenario.steps.as_slice();
    trial_on::<Brand, R>(rt, alloc, opening, steps, trial)
}

/// Whether a trial on the cluster of a scenario's text answers as is wanted.
fn tried<R: Wait>(rt: &R, alloc: Global, text: &str, trial: Trial) -> Result<bool, NoMemory> {
    match read(alloc, text.as_bytes()) {
        Ok(scenario) => trial_of(rt, alloc, &scenario, trial),
        Err(_) => Ok(false),
    }
}

#[test]
fn each_call(rt: HostRuntime) -> Result<(), Fail> {
    assert!(rt; tried(&rt, rt.alloc(), EACH, Trial::Calls).expect(&rt, "memory"));
    Ok(())
}

#[test]
fn first_scenario(rt: HostRuntime) -> Result<(), Fail> {
    assert!(rt; tried(&rt, rt.alloc(), FIRST, Trial::First).expect(&rt, "memory"));
    Ok(())
}

#[test]
fn want_of_memory(rt: HostRuntime) -> Result<(), Fail> {
    assert!(rt; tried(&rt, rt.alloc(), FIRST, Trial::GivenUp).expect(&rt, "memory"));
    Ok(())
}
