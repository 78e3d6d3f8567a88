//! The parts of a store before the first step.
ghost use Rattle.std.specs.Prelude.{◌≡◌, IfOk};
ghost use Rattle.tp_store.specs.Rule as rule;

use std::alloc::Global;
use tp_types::{List, NoMemory, Scenario, ServerId, TryClone, Version};

/// The versions that the scenario says the server knows.
pub fn known_at_first(
    alloc: Global,
    scenario: &Scenario,
    server: ServerId,
) -> Result<List<Version>, NoMemory>
    ensures { IfOk result (λ made. made ≡ rule.known_at_first scenario.now server) }
{
    match scenario.servers.get(server.0 as usize) {
        None => Ok(List::new(alloc)),
        Some(declared) => declared.knows.try_clone(alloc),
    }
}

/// The number of the first item that the scenario gives the server; 0 where it gives it none. A server's tables of items are
/// made from it on.
pub fn first_item(scenario: &Scenario, server: ServerId) -> usize {
    let Some(declared) = scenario.servers.get(server.0 as usize) else {
        return 0;
    };
    match declared.items.get(0) {
        None => 0,
        Some(item) => item.0 as usize,
    }
}
