//! Numbers that name things of a scenario. They count from 0 in declared order, but a version counts from 1.
ghost use Rattle.std.specs.Prelude.{◌≡◌, IfOk};

use crate::list::{NoMemory, TryClone};
use std::alloc::Global;

/// The number of steps before an event.
pub type Place = u64;

/// An administrator, by its place in the scenario.
#[derive(Clone, Copy, PartialEq)]
pub struct AdminId(pub u32);

/// A server, by its place in the scenario.
#[derive(Clone, Copy, PartialEq)]
pub struct ServerId(pub u32);

/// An item, by its place in the scenario; items are counted over all servers.
#[derive(Clone, Copy, Debug, PartialEq)]
pub struct ItemId(pub u32);

/// A transaction, by its place in the scenario. It names its coordinator too.
#[derive(Clone, Copy, Debug, PartialEq)]
pub struct TxnId(pub u32);

/// A credential, by its place in the scenario.
#[derive(Clone, Copy, Debug, PartialEq)]
pub struct CredId(pub u32);

/// A version of an administrator's policy. The first is 1.
#[derive(Clone, Copy, Debug, PartialEq)]
pub struct Version(pub u32);

impl TryClone for AdminId {
    fn try_clone(&self, _alloc: Global) -> Result<Self, NoMemory> {
        Ok(*self)
    }
}

impl TryClone for ServerId {
    fn try_clone(&self, _alloc: Global) -> Result<Self, NoMemory> {
        Ok(*self)
    }
}

impl TryClone for ItemId {
    fn try_clone(&self, _alloc: Global) -> Result<Self, NoMemory> {
        Ok(*self)
    }
}

impl TryClone for TxnId {
    fn try_clone(&self, _alloc: Global) -> Result<Self, NoMemory> {
        Ok(*self)
    }
}

impl TryClone for CredId {
    fn try_clone(&self, _alloc: Global) -> Result<Self, NoMemory> {
        Ok(*self)
    }
}

impl TryClone for Version {
    fn try_clone(&self, _alloc: Global) -> Result<Self, NoMemory> {
        Ok(*self)
    }
}

impl TryClone for u8 {
    fn try_clone(&self, _alloc: Global) -> Result<Self, NoMemory> {
        Ok(*self)
    }
}

impl TryClone for u64 {
    fn try_clone(&self, _alloc: Global) -> Result<Self, NoMemory> {
        Ok(*self)
    }
}

impl TryClone for i128 {
    fn try_clone(&self, _alloc: Global) -> Result<Self, NoMemory> {
        Ok(*self)
    }
}

impl<T: TryClone> TryClone for Option<T> {
    fn try_clone(&self, alloc: Global) -> Result<Self, NoMemory> {
        match self {
            None => Ok(None),
            Some(value) => Ok(Some(value.try_clone(alloc)?)),
        }
    }
}

impl TryClone for (AdminId, Version) {
    fn try_clone(&self, _alloc: Global) -> Result<Self, NoMemory> {
        Ok(*self)
    }
}
