//! What each server of a scenario opens with.
ghost use Rattle.std.specs.Prelude.{◌≡◌, IfOk};
ghost use Rattle.tp_machine.specs.Opening.{opening_of};

use std::alloc::Global;
use tp_store::{OpeningValues, Ranges};
use tp_types::{NoMemory, Scenario, both};

/// The ranges of items, and their opening values. They are made once for a scenario, and a server that boots gets a share of them.
#[derive(Drop)]
pub struct Opening {
    pub ranges: Ranges,
    pub values: OpeningValues,
}

impl Opening {
    /// What each server of this scenario opens with.
    pub fn of(alloc: Global, scenario: &Scenario) -> Result<Opening, NoMemory>
        ensures { IfOk result (λ made. made ≡ opening_of scenario.now) }
    {
        let ranges = Ranges::of(alloc, scenario.items.as_slice());
        let values = OpeningValues::of(alloc, scenario.items.as_slice());
        let (ranges, values) = both(ranges, values)?;
        Ok(Opening { ranges, values })
    }

    /// The same for one server more.
    pub fn share(&self) -> Result<Opening, NoMemory>
        ensures { IfOk result (λ made. made ≡ self.now) }
    {
        let (ranges, values) = both(self.ranges.share(), self.values.share())?;
        Ok(Opening { ranges, values })
    }
}
