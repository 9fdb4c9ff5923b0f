ghost use Rattle.std.specs.Prelude.{◌≡◌, ◌<◌, ◌≤◌, ◌==◌, ℕ, length, Some, None, IfOk, OnOk, if◌then◌else◌};
ghost use Rattle.std.specs.Borrow.{sem};
ghost use Rattle.std.specs.Option.{option_copied, option_copied_mut};
ghost use Rattle.vk_ids.specs.Ids.{value_of};
ghost use Rattle.vk_ids.specs.Lent.{lends_at};

use std::alloc::{AllocError, Global};
use std::collections::BTreeMap;

/// How many times as long the list may be as there are values.
const SPREAD: usize = 4;

/// So many values more are counted, so that the first ones find a list.
const FIRST: usize = 16;

/// One value for some ids.
#[derive(Drop)]
pub struct IdMap<T> {
    /// The values of the ids below its length.
    low: Vec<Option<T>>,
    /// The values of the others.
    high: BTreeMap<u32, T>,
    /// How often a value was put, so that the list doesn't outgrow them.
    puts: usize,
}

impl<T: Drop> IdMap<T> {
    /// A map without a value.
    pub fn new(alloc: Global) -> IdMap<T>
        ensures { (id : ℕ) → value_of result id ≡ None }
    {
        IdMap {
            low: Vec::new(alloc),
            high: BTreeMap::new(alloc),
            puts: 0,
        }
    }

    /// The value of an id.
    pub fn get(&self, id: u32) -> Option<&T>
        ensures { option_copied result ≡ value_of self.now id }
    {
        match self.low.as_slice().get(id as usize) {
            Some(value) => value.as_ref(),
            None => self.high.get(&id),
        }
    }

    /// The value of an id, to change.
    pub fn get_mut(&mut self, id: u32) -> Option<&mut T>
        ensures* writes_back { sem 𝓛 (lends_at T.row self.entry id result) }
        ensures value { option_copied_mut result ≡ value_of self.old id }
    {
        let place = id as usize;
        if place < self.low.len() {
            self.low[place].as_mut()
        } else {
            self.high.get_mut(&id)
        }
    }

    /// Gives an id a value, and answers the one that it had. The only error is want of memory, after
    /// which the values aren't said.
    pub fn put(&mut self, id: u32, value: T) -> Result<Option<T>, AllocError>
        ensures before { IfOk result (λ before. before ≡ value_of self.old id) }
        ensures after { OnOk result ((other : ℕ) → value_of self.new other ≡ (if other == id then Some value else value_of self.old other)) }
    {
        self.make_room(id)?;
        if (id as usize) < self.low.len() {
            return Ok(self.put_low(id, value));
        }
        self.put_high(id, value)
    }

    /// Gives an id that the list reaches a value, and answers the one that it had.
    fn put_low(&mut self, id: u32, value: T) -> Option<T>
        requires { id < length self.old.low.items }
        ensures before { result ≡ value_of self.old id }
        ensures after { (other : ℕ) → value_of self.new other ≡ (if other == id then Some value else value_of self.old other) }
    {
        self.low[id as usize].replace(value)
    }

    /// The same for an id past the list.
    fn put_high(&mut self, id: u32, value: T) -> Result<Option<T>, AllocError>
        requires { length self.old.low.items ≤ id }
        ensures before { IfOk result (λ before. before ≡ value_of self.old id) }
        ensures after { OnOk result ((other : ℕ) → value_of self.new other ≡ (if other == id then Some value else value_of self.old other)) }
    {
        let before = self.high.insert(id, value)?;
        Ok(before)
    }

    /// Counts that an id is put, and makes the list long enough for it, where this takes no more memory
    /// than some times that of the values. No value changes.
    fn make_room(&mut self, id: u32) -> Result<(), AllocError>
        ensures { OnOk result ((other : ℕ) → value_of self.new other ≡ value_of self.old other) }
    {
        self.puts = self.puts.saturating_add(1);
        let place = id as usize;
        if place < self.puts.saturating_add(FIRST).saturating_mul(SPREAD) {
            self.reach(place)?;
        }
        Ok(())
    }

    /// Makes the list long enough for an id. No value changes.
    fn reach(&mut self, place: usize) -> Result<(), AllocError>
        requires { place < 4294967296 }
        ensures { OnOk result ((other : ℕ) → value_of self.new other ≡ value_of self.old other) }
    {
        for next in self.low.len()..place + 1 {
            let value = self.high.remove(&(next as u32));
            self.low.push(value)?;
        }
        Ok(())
    }
}
