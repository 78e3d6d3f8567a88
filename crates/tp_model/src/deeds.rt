//! What a query that ran has done.
ghost use Rattle.std.specs.Prelude.{◌≡◌};
ghost use Rattle.tp_model.specs.Deeds as deeds;

use crate::query::{action_of, item_of};
use tp_types::{Deed, Query};

/// The deed of a query with its number and value: what was read, or what was written.
pub fn deed_of(number: u32, query: &Query, value: i128) -> Deed
    ensures { result ≡ deeds.deed_of number query.now value }
{
    Deed {
        query: number,
        item: item_of(query),
        action: action_of(query),
        value,
    }
}
