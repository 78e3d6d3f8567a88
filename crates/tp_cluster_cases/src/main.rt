//! Does the listed steps of a scenario, and delivers all that is sent: in the world, or in the same cluster with each
//! actor behind a lock, by one caller. It is there to compare what both cost. The first line of the input says which:
//! `world`, `cluster`, or `closed`, a cluster that is closed then. Behind it stands the scenario, which may list no
//! loss, crash or boot. What is written is how many steps were done.
#![tactic(auto)]

ghost use Rattle.std.specs.Prelude.{◌≡◌, true};
ghost use Rattle.tp_model.specs.Valid.{is_valid};

mod callers;
#[cfg(test)]
mod calls;
mod passes;
mod worlds;

use std::alloc::Global;
use std::io;
use std::marker::Brand;
use std::sync::Wait;
use tp_cluster::ClusterOpening;
use tp_io::{StdSource, read_to_end};
use tp_scenario::{LENGTH_MAX, read};
use tp_types::{NoMemory, Scenario};

/// What an input asks for.
#[derive(Clone, Copy)]
enum Way {
    World,
    Cluster { closed: bool },
}

/// What the first line of an input says, and what stands behind it.
fn way_of(bytes: &[u8]) -> Option<(Way, &[u8])> {
    if let Some(rest) = bytes.strip_prefix(b"world\n") {
        return Some((Way::World, rest));
    }
    if let Some(rest) = bytes.strip_prefix(b"cluster\n") {
        return Some((Way::Cluster { closed: false }, rest));
    }
    let rest = bytes.strip_prefix(b"closed\n")?;
    Some((Way::Cluster { closed: true }, rest))
}

/// How many steps were done; None where one is refused.
fn steps_done<R: Wait>(
    rt: &R,
    alloc: Global,
    way: Way,
    scenario: Scenario,
) -> Result<Option<u64>, NoMemory>
    requires { is_valid scenario ≡ true }
{
    match way {
        Way::World => worlds::run(alloc, scenario),
        Way::Cluster { closed } => {
            let opening = ClusterOpening::new(alloc, &scenario, 1)?;
            let steps = scenario.steps.as_slice();
            callers::run_on::<Brand, R>(rt, alloc, opening, steps, closed)
        }
    }
}

fn answer<R: Wait>(rt: &R, alloc: Global, bytes: &[u8]) -> Result<Option<u64>, NoMemory> {
    let Some((way, text)) = way_of(bytes) else {
        return Ok(None);
    };
    let Ok(scenario) = read(alloc, text) else {
        return Ok(None);
    };
    steps_done(rt, alloc, way, scenario)
}

fn main(rt: HostRuntime) -> io::Result<()> {
    let mut input = StdSource::new(rt.stdin());
    let Ok(bytes) = read_to_end(rt.alloc(), &mut input, LENGTH_MAX) else {
        return println!(rt; "no input");
    };
    match answer(&rt, rt.alloc(), bytes.as_slice()) {
        Ok(Some(steps)) => println!(rt; "{steps}"),
        Ok(None) => println!(rt; "refused"),
        Err(NoMemory) => println!(rt; "no memory"),
    }
}
