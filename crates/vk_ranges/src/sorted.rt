ghost use Rattle.std.specs.Prelude.{◌≡◌, [], OnOk, OnErr, IfOk};
ghost use Rattle.std.specs.Ordering.{nat_cmp};
ghost use Rattle.std.specs.Map.{remove_entry, set_value};
ghost use Rattle.std.specs.BTreeMap.{is_at, insert_entry};
ghost use Rattle.vk_ranges.specs.Runs.{after};

use crate::after::RunsAfter;
use crate::changes::Near;
use crate::chunk::Chunk;
use crate::chunks::{insert_both, insert_run, remove_run, runs_after, set_run};
use std::alloc::{AllocError, Global};
use std::cell::Cell;
use std::marker::Model;

/// Runs in the order of their ends, in chunks. Contracts see the list of the runs. A change at an
/// end is given where to look for it first.
#[derive(Drop)]
pub(crate) struct SortedRuns<T> {
    /// Each chunk has the ends after those of the one before it, up to its last one. There is at
    /// least one, and the last one takes all up to the greatest index: no other is empty.
    chunks: Vec<Chunk<T>>,
    /// The chunk that the last search found. The next one often begins there: a range is looked at
    /// before it is changed.
    found: Cell<usize>,
}

impl<T> Model for SortedRuns<T> {
    ghost use Rattle.std.specs.Prelude.{List, ℕ};
    ghost use Rattle.vk_ranges.specs.Inner.Chunks.{AreChunks, joined};

    ghost Value = { List (ℕ × T) };

    ghost view = { λ m. joined m.chunks.items };

    ghost invariant = { λ m. AreChunks 0 m.chunks.items };
}

impl<T> SortedRuns<T> {
    /// The runs that end after an index.
    #[inline(always)]
    pub(crate) fn after(&self, index: u32) -> RunsAfter<'_, T>
        ensures { result ≡ after index self.now }
    {
        runs_after(&self.chunks, &self.found, index)
    }
}

impl<T: Drop> SortedRuns<T> {
    /// No runs. The only error is want of memory.
    pub(crate) fn new(alloc: Global) -> Result<SortedRuns<T>, AllocError>
        ensures { IfOk result (λ runs. runs ≡ []) }
    {
        let mut chunks = Vec::new(alloc);
        chunks.push(Chunk {
            last: u32::MAX,
            runs: Vec::new(alloc),
        })?;
        Ok(SortedRuns {
            chunks,
            found: Cell::new(0),
        })
    }

    /// Gives the run that ends at an index the value, which is a new run where none ends there. An
    /// error, for want of memory, leaves the runs as they were.
    pub(crate) fn insert(&mut self, near: Near, end: u32, value: T) -> Result<(), AllocError>
        ensures ok { OnOk result (self.new ≡ insert_entry nat_cmp self.old end value) }
        ensures err { OnErr result (self.new ≡ self.old) }
    {
        insert_run(&mut self.chunks, near, end, value)
    }

    /// Gives two indices the values, as `insert` does, where a run that is new at the second one can
    /// be taken back. An error, for want of memory, leaves the runs as they were.
    #[inline(always)]
    pub(crate) fn insert_both(
        &mut self,
        near: Near,
        low: (u32, T),
        high: (u32, T),
    ) -> Result<(), AllocError>
        requires { remove_entry (is_at (nat_cmp high.0)) (insert_entry nat_cmp self.old high.0 high.1) ≡ self.old }
        ensures ok { OnOk result (self.new
            ≡ insert_entry nat_cmp (insert_entry nat_cmp self.old high.0 high.1) low.0 low.1) }
        ensures err { OnErr result (self.new ≡ self.old) }
    {
        insert_both(&mut self.chunks, near, low, high)
    }

    /// Takes away the run that ends at an index, if there is one.
    pub(crate) fn remove(&mut self, near: Near, end: u32)
        ensures { self.new ≡ remove_entry (is_at (nat_cmp end)) self.old }
    {
        remove_run(&mut self.chunks, near, end);
    }

    /// Gives the run that ends at an index another value, if there is one.
    pub(crate) fn set(&mut self, near: Near, end: u32, value: T)
        ensures { self.new ≡ set_value (is_at (nat_cmp end)) self.old value }
    {
        set_run(&mut self.chunks, near, end, value);
    }
}
