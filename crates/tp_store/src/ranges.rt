//! The ranges of items, which the stores of a scenario share.
ghost use Rattle.std.specs.Prelude.{◌≡◌, map, IfOk};
ghost use Rattle.tp_store.specs.Rule as rule;

use crate::writes::Bounds;
use std::alloc::{AllocError, Global};
use std::marker::Model;
use std::sync::Arc;
use tp_types::{Item, List, NoMemory};

/// The range of each item of a scenario. It is the same at every server, so that a share of it is no copy.
#[derive(Drop)]
pub struct Ranges {
    of_items: Arc<List<Bounds>, Global>,
}

impl Model for Ranges {
    ghost use Rattle.std.specs.Prelude.{List};
    ghost use Rattle.std.specs.Arc.{arc_value};
    ghost use Rattle.tp_store.specs.declared.writes.Bounds as bounds;

    ghost Value = { List bounds.Bounds };

    ghost view = { λ r. arc_value r.of_items };
}

fn bounds_of_item(item: &Item) -> Bounds
    ensures { result ≡ rule.bounds_of item.now }
{
    Bounds {
        min: item.min,
        max: item.max,
    }
}

fn bounds_in(alloc: Global, items: &[Item]) -> Result<Vec<Bounds>, AllocError>
    ensures { IfOk result (λ made. made.items ≡ map rule.bounds_of items.now) }
{
    items.iter().map(bounds_of_item).collect(alloc)
}

impl Ranges {
    /// The range of each of these items.
    pub fn of(alloc: Global, items: &[Item]) -> Result<Ranges, NoMemory>
        ensures { IfOk result (λ made. made ≡ map rule.bounds_of items.now) }
    {
        let made = List::from_vec(bounds_in(alloc, items)?);
        let of_items = Arc::new(alloc, made)?;
        Ok(Ranges { of_items })
    }

    /// The same ranges for one store more.
    pub fn share(&self) -> Result<Ranges, NoMemory>
        ensures { IfOk result (λ made. made ≡ self.now) }
    {
        let of_items = Arc::try_clone(&self.of_items)?;
        Ok(Ranges { of_items })
    }

    pub(crate) fn as_slice(&self) -> &[Bounds]
        ensures { result.now ≡ self.now }
    {
        let of_items: &List<Bounds> = &self.of_items;
        of_items.as_slice()
    }
}
