ghost use Rattle.std.specs.Prelude.{◌≡◌, ◌≢◌, ◌⊎◌, ◌≤◌, ◌<◌, ℕ, IfOk, OnOk, Some, None, [], IsSome};
ghost use Rattle.std.specs.Option.{option_copied};
ghost use Rattle.std.specs.BTreeMap.{IsEmpty};
ghost use Rattle.vk_order.specs.Inner.Keyed.{front_at, IsLeastFront};

use crate::fronts::Front;
use std::alloc::{AllocError, Global};
use std::collections::BTreeMap;
use std::ops::Bound;

/// Fronts that are known by an id and a number: of signals by semaphore and value, of elements of
/// sets by event and index.
#[derive(Drop)]
pub struct Keyed {
    tables: BTreeMap<u32, BTreeMap<u64, Front>>,
}

impl Keyed {
    /// No fronts.
    pub fn new(alloc: Global) -> Keyed
        ensures { (id number : ℕ) → front_at result id number ≡ None }
    {
        Keyed {
            tables: BTreeMap::new(alloc),
        }
    }

    /// The front of an id and a number.
    pub fn get(&self, id: u32, number: u64) -> Option<&Front>
        ensures { option_copied result ≡ front_at self.now id number }
    {
        match self.tables.get(&id) {
            Some(table) => table.get(&number),
            None => None,
        }
    }

    /// The front of an id and the least number at or above this one.
    pub fn least_from(&self, id: u32, number: u64) -> Option<&Front>
        ensures { IsLeastFront self.now id number (option_copied result) }
    {
        let table = self.tables.get(&id)?;
        let from = (Bound::Included(number), Bound::Unbounded);
        match table.range(from).next() {
            Some((_, front)) => Some(front),
            None => None,
        }
    }

    /// Keeps a front of an id and a number.
    pub fn set(
        &mut self,
        alloc: Global,
        id: u32,
        number: u64,
        front: Front,
    ) -> Result<(), AllocError>
        ensures here { OnOk result (front_at self.new id number ≡ Some front) }
        ensures others { OnOk result ((i u : ℕ) → (i ≢ id) ⊎ (u ≢ number) → front_at self.new i u ≡ front_at self.old i u) }
    {
        if let Some(table) = self.tables.get_mut(&id) {
            table.insert(number, front)?;
            return Ok(());
        }
        let mut table = BTreeMap::new(alloc);
        table.insert(number, front)?;
        self.tables.insert(id, table)?;
        Ok(())
    }
}
