ghost use Rattle.std.specs.Prelude.{◌≡◌, ◌==◌, ◌+◌, ◌-◌, ℕ, OnOk, nat_lt, if◌then◌else◌};
ghost use Rattle.vk_history.specs.Counted.{count_at};

use std::alloc::{AllocError, Global};
use vk_ids::IdMap;

/// How many there are for each id.
#[derive(Drop)]
pub struct Counts {
    counts: IdMap<u64>,
}

impl Counts {
    /// None for any id.
    pub fn new(alloc: Global) -> Counts
        ensures { (i : ℕ) → count_at result i ≡ 0 }
    {
        Counts {
            counts: IdMap::new(alloc),
        }
    }

    /// Whether there is one for an id.
    pub fn has(&self, id: u32) -> bool
        ensures { result ≡ nat_lt 0 (count_at self.now id) }
    {
        self.count(id) > 0
    }

    fn count(&self, id: u32) -> u64
        ensures { result ≡ count_at self.now id }
    {
        self.counts.get(id).copied().unwrap_or(0)
    }

    /// One more for an id. The only error is want of memory, or of numbers.
    pub fn add(&mut self, id: u32) -> Result<(), AllocError>
        ensures { OnOk result ((i : ℕ) → count_at self.new i ≡ count_at self.old i + (if i == id then 1 else 0)) }
    {
        match self.counts.get_mut(id) {
            Some(count) => {
                let Some(more) = count.checked_add(1) else {
                    return Err(AllocError);
                };
                *count = more;
                Ok(())
            }
            None => {
                self.counts.put(id, 1)?;
                Ok(())
            }
        }
    }

    /// One less for an id, where there is one.
    pub fn remove(&mut self, id: u32)
        ensures { (i : ℕ) → count_at self.new i ≡ count_at self.old i - (if i == id then 1 else 0) }
    {
        if let Some(count) = self.counts.get_mut(id) {
            *count = count.saturating_sub(1);
        }
    }
}
