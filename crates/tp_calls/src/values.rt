//! Plain values, as every crate copies them and takes their answers together.
ghost use Rattle.std.specs.Prelude.{◌≡◌, ◌⊎◌, Ok, Err, IfOk, IfErr, IsOk};

use std::alloc::Global;
use tp_types::{List, NoMemory, TryClone, both};

/// A copy of a list, which equals it.
pub fn copy_list<T: TryClone + Drop>(alloc: Global, list: &List<T>) -> Result<List<T>, NoMemory>
    ensures { IfOk result (λ made. made ≡ list.now) }
{
    list.try_clone(alloc)
}

/// Both values, or the failure that came first.
pub fn both_values<T: Drop, U: Drop, E: Drop>(
    first: Result<T, E>,
    second: Result<U, E>,
) -> Result<(T, U), E>
    ensures values { IfOk result (λ made. (first ≡ Ok made.0) × (second ≡ Ok made.1)) }
    ensures failure { IfErr result (λ error.
        (first ≡ Err error) ⊎ (IsOk first × (second ≡ Err error))) }
{
    both(first, second)
}
