//! The values of items: those at first, which the stores of a scenario share, and over them what was written.
ghost use Rattle.std.specs.Prelude.{◌≡◌, length, map, slice_get, slice_set, IfOk};
ghost use Rattle.tp_model.specs.SerialRun.{opening_value};

use std::alloc::{AllocError, Global};
use std::marker::Model;
use std::sync::Arc;
use tp_places::Overlay;
use tp_types::{Item, List, NoMemory, TryClone, both};

/// The opening value of each item of a scenario. It is the same at every server, so that a share of it is no copy.
#[derive(Drop)]
pub struct OpeningValues {
    of_items: Arc<List<i128>, Global>,
}

impl Model for OpeningValues {
    ghost use Rattle.std.specs.Prelude.{List, ℤ};
    ghost use Rattle.std.specs.Arc.{arc_value};

    ghost Value = { List ℤ };

    ghost view = { λ v. arc_value v.of_items };
}

fn values_in(alloc: Global, items: &[Item]) -> Result<Vec<i128>, AllocError>
    ensures { IfOk result (λ made. made.items ≡ map opening_value items.now) }
{
    items
        .iter()
        .map(|item| i128::from(item.value))
        .collect(alloc)
}

impl OpeningValues {
    /// The opening value of each of these items.
    pub fn of(alloc: Global, items: &[Item]) -> Result<OpeningValues, NoMemory>
        ensures { IfOk result (λ made. made ≡ map opening_value items.now) }
    {
        let made = List::from_vec(values_in(alloc, items)?);
        let of_items = Arc::new(alloc, made)?;
        Ok(OpeningValues { of_items })
    }

    /// The same values for one store more.
    pub fn share(&self) -> Result<OpeningValues, NoMemory>
        ensures { IfOk result (λ made. made ≡ self.now) }
    {
        let of_items = Arc::try_clone(&self.of_items)?;
        Ok(OpeningValues { of_items })
    }

    /// How many values there are.
    pub fn len(&self) -> usize
        ensures { result ≡ length self.now }
    {
        let of_items: &List<i128> = &self.of_items;
        of_items.len()
    }

    fn get(&self, at: usize) -> Option<i128>
        ensures { result ≡ slice_get self.now at }
    {
        let of_items: &List<i128> = &self.of_items;
        of_items.get(at).copied()
    }
}

/// The value of each item of a scenario. A store keeps beside the opening values only what was written over them, so that it
/// takes time for the items alone that are written; there is room for all, so that writing takes no memory.
#[derive(Drop)]
pub struct Values {
    opening: OpeningValues,
    written: Overlay<i128>,
}

impl Model for Values {
    ghost use Rattle.std.specs.Prelude.{◌≡◌, List, ℤ, length};
    ghost use Rattle.tp_store.specs.mirrors.Values.{laid};

    ghost Value = { List ℤ };

    ghost view = { λ v. laid v.opening v.written };

    ghost invariant = { λ v. length v.written ≡ length v.opening };
}

impl Values {
    /// The opening values, over which nothing is written. The first item that is likely to be written is told; only what memory
    /// is touched hangs on it.
    pub fn over(alloc: Global, opening: OpeningValues, first: usize) -> Result<Values, NoMemory>
        ensures { IfOk result (λ made. made ≡ opening) }
    {
        let written = Overlay::none(alloc, opening.len(), first)?;
        Ok(Values { opening, written })
    }

    /// The value of an item; None where there is no such item.
    pub fn get(&self, item: usize) -> Option<i128>
        ensures { result ≡ slice_get self.now item }
    {
        match self.written.get(item) {
            None => self.opening.get(item),
            written => written,
        }
    }

    /// Gives an item a value. Where there is no such item the values stay. It takes no memory.
    pub fn put(&mut self, item: usize, value: i128)
        ensures { self.new ≡ slice_set self.old item value }
    {
        self.written.put(item, value);
    }
}

impl TryClone for Values {
    fn try_clone(&self, alloc: Global) -> Result<Self, NoMemory> {
        let (opening, written) = both(self.opening.share(), self.written.try_clone(alloc))?;
        Ok(Values { opening, written })
    }
}
