//! The members of an object in order.
ghost use Rattle.std.specs.Prelude.{◌≡◌, IfOk};
ghost use Rattle.tp_json.specs.View.{members_view};
ghost use Rattle.tp_json.specs.mirrors.Lent.{lent_view};

use crate::tree::Json;
use std::alloc::Global;
use std::collections::BTreeMap;
use tp_types::NoMemory;

/// The members of an object in order of their keys, each key once with its last value.
pub fn in_order<'v, 'a>(
    alloc: Global,
    members: &'v [(&'a str, Json<'a>)],
) -> Result<BTreeMap<&'a str, &'v Json<'a>>, NoMemory>
    ensures { IfOk result (λ found. lent_view found.entries ≡ members_view members.now) }
{
    let mut found = BTreeMap::new(alloc);
    for member in members {
        found.insert(member.0, &member.1)?;
    }
    Ok(found)
}
