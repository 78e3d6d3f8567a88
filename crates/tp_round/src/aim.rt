//! The targets of a round's proofs, and the servers that are out of date.
ghost use Rattle.std.specs.Prelude.{◌≡◌, map, IfOk};
ghost use Rattle.std.specs.List.{list_any, find};
ghost use Rattle.std.specs.Option.{option_copied};
ghost use Rattle.tp_round.specs.Judge as rule;
ghost use Rattle.tp_round.specs.mirrors.Renewals as renewals;
ghost use Rattle.tp_round.specs.Replies as replies;

use crate::replies::{admins_of, greatest, least, verdicts_in};
use crate::round::{Target, Wanted};
use std::alloc::Global;
use tp_model::is_global_at;
use tp_types::{AdminId, Level, List, Met, NoMemory, Reading, Verdict, Version};

// ---- targets

fn newest_in(reading: Option<&Reading>, admin: AdminId) -> u32
    ensures { result ≡ rule.newest_in (option_copied reading.entry) admin }
{
    match reading {
        None => 0,
        Some(reading) => match reading.newest.get(admin.0 as usize) {
            None => 0,
            Some(version) => version.0,
        },
    }
}

fn target(
    levels: &[Level],
    reading: Option<&Reading>,
    targets: &[Target],
    admin: AdminId,
) -> Version
    ensures { result.0 ≡ rule.target levels.now (option_copied reading.entry)
        (replies.proofs_in targets.now) admin }
{
    if is_global_at(levels, admin) {
        Version(newest_in(reading, admin))
    } else {
        Version(greatest(admin, targets))
    }
}

/// The target of each administrator that has a proof, in order of number.
pub fn aim_of(
    alloc: Global,
    levels: &[Level],
    reading: Option<&Reading>,
    targets: &[Target],
) -> Result<List<(AdminId, Version)>, NoMemory>
    ensures { IfOk result (λ made.
        made ≡ rule.aim_of levels.now (option_copied reading.entry)
        (replies.proofs_in targets.now)) }
{
    let admins = admins_of(alloc, targets)?;
    let mut made = List::from_vec(Vec::with_capacity(alloc, admins.len())?);
    for admin in admins.as_slice() {
        made.push((*admin, target(levels, reading, targets, *admin)))?;
    }
    Ok(made)
}

// ---- servers that are out of date

fn is_aimed(aim: &[(AdminId, Version)], verdict: &Verdict) -> bool
    ensures { result ≡ rule.is_aimed aim.now verdict.now }
{
    aim.iter().any(|aimed| aimed.0 == verdict.admin && aimed.1 == verdict.version)
}

fn is_outdated(aim: &[(AdminId, Version)], target: &Target) -> bool
    ensures { result ≡ rule.is_outdated aim.now target.now }
{
    verdicts_in(target)
        .iter()
        .any(|verdict| !is_aimed(aim, verdict))
}

/// Whether a server is out of date.
pub fn any_outdated(aim: &[(AdminId, Version)], targets: &[Target]) -> bool
    ensures { result ≡ list_any (rule.is_outdated aim.now) targets.now }
{
    targets.iter().any(|target| is_outdated(aim, target))
}

fn is_proved_by(target: &Target, admin: AdminId) -> bool
    ensures { result ≡ list_any (replies.is_of admin) (replies.verdicts_in target.now) }
{
    verdicts_in(target)
        .iter()
        .any(|verdict| verdict.admin == admin)
}

fn wanted(alloc: Global, aim: &[(AdminId, Version)], target: &Target) -> Result<Wanted, NoMemory>
    ensures { IfOk result (λ made. made ≡ rule.want_of aim.now target.now) }
{
    let mut want = List::from_vec(Vec::with_capacity(alloc, aim.len())?);
    for aimed in aim {
        if is_proved_by(target, aimed.0) {
            want.push(*aimed)?;
        }
    }
    Ok(Wanted {
        server: target.server,
        want,
    })
}

/// What is wanted of each server that is out of date.
pub fn named_by(
    alloc: Global,
    aim: &[(AdminId, Version)],
    targets: &[Target],
) -> Result<List<Wanted>, NoMemory>
    ensures { IfOk result (λ made. made ≡ rule.wants_of aim.now targets.now) }
{
    let mut named = List::from_vec(Vec::with_capacity(alloc, targets.len())?);
    for target in targets {
        if is_outdated(aim, target) {
            named.push(wanted(alloc, aim, target)?)?;
        }
    }
    Ok(named)
}

fn renew_at(aim: &[(AdminId, Version)], targets: &mut List<Target>, at: usize)
    ensures { targets.new ≡ renewals.with_renewed aim.now targets.old at }
{
    let Some(old) = targets.get(at) else {
        return;
    };
    if is_outdated(aim, old) {
        let server = old.server;
        targets.put(
            at,
            Target {
                server,
                reply: None,
            },
        );
    }
}

/// The replies of the servers that are out of date are awaited again, and the others stay. It takes no memory.
pub fn renew(aim: &[(AdminId, Version)], targets: &mut List<Target>)
    ensures { targets.new ≡ map (rule.next_target aim.now) targets.old }
{
    for at in 0..targets.len() {
        renew_at(aim, targets, at);
    }
}

// ---- newer versions at the master

fn is_below(levels: &[Level], targets: &[Target], aimed: (AdminId, Version)) -> bool
    ensures { result ≡ rule.is_below levels.now (replies.proofs_in targets.now) aimed }
{
    is_global_at(levels, aimed.0) && least(aimed.0, targets) < aimed.1.0
}

fn met_at(reading: &Reading, targets: &[Target], aimed: (AdminId, Version)) -> Met
    ensures { result ≡ rule.met_at reading.now (replies.proofs_in targets.now) aimed }
{
    Met {
        admin: aimed.0,
        used: Version(least(aimed.0, targets)),
        newest: aimed.1,
        place: reading.place,
    }
}

fn first_below(
    levels: &[Level],
    targets: &[Target],
    aim: &[(AdminId, Version)],
) -> Option<(AdminId, Version)>
    ensures { result ≡ find (rule.is_below levels.now (replies.proofs_in targets.now)) aim.now }
{
    aim.iter()
        .copied()
        .find(|aimed| is_below(levels, targets, *aimed))
}

/// What the round met at the master: of the least administrator under global consistency that has a proof below its target.
pub fn met_by(
    levels: &[Level],
    reading: Option<&Reading>,
    targets: &[Target],
    aim: &[(AdminId, Version)],
) -> Option<Met>
    ensures { result ≡ rule.met_by levels.now (option_copied reading.entry)
        (replies.proofs_in targets.now) aim.now }
{
    let reading = reading?;
    let aimed = first_below(levels, targets, aim)?;
    Some(met_at(reading, targets, aimed))
}
