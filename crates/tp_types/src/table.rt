//! Tables with a place for each number.
ghost use Rattle.std.specs.Prelude.{◌≡◌, None, replicate, slice_get, slice_set, IfOk};
ghost use Rattle.std.specs.Option.{option_flatten};

use crate::list::{List, NoMemory};
use std::alloc::Global;

/// So many empty places.
pub fn none_for_each<T: Drop>(alloc: Global, count: usize) -> Result<List<Option<T>>, NoMemory>
    ensures { IfOk result (λ made. made ≡ replicate count None) }
{
    let mut made = List::from_vec(Vec::with_capacity(alloc, count)?);
    for _place in 0..count {
        made.push(None)?;
    }
    Ok(made)
}

/// Takes what stands at a place, and leaves the place empty.
pub fn take_at<T: Drop>(places: &mut List<Option<T>>, at: usize) -> Option<T>
    ensures value { result ≡ option_flatten (slice_get places.old at) }
    ensures left { places.new ≡ slice_set places.old at None }
{
    match places.get_mut(at) {
        None => None,
        Some(place) => place.take(),
    }
}
