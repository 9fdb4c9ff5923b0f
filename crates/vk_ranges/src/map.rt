ghost use Rattle.std.specs.Prelude.{◌≡◌, ◌≤◌, ◌<◌, ℕ, true, false, Some, Ok, length, slice_get};
ghost use Rattle.std.specs.Prelude.{IfOk, IfSome, IfNone, OnOk, OnErr};
ghost use Rattle.std.specs.Option.{IsSomeAnd};
ghost use Rattle.std.specs.Fn.{FnReturnsAt};
ghost use Rattle.vk_ranges.specs.Overlaps.{AreRunsOf, pieces_left};

use crate::changes::Near;
use crate::edges::runs_after;
use crate::planning::overlapping;
use crate::rewrites::{assign_runs, update_runs};
use crate::runs::Overlapping;
use crate::sorted::SortedRuns;
use crate::value::RangeValue;
use std::alloc::{AllocError, Global};
use std::marker::Model;

/// One value for each index of `0..len`. Contracts see the list of the values.
#[derive(Drop)]
pub struct RangeMap<T> {
    alloc: Global,
    len: u32,
    /// The runs in order, by the index after the last one of each.
    runs: SortedRuns<T>,
}

impl<T> Model for RangeMap<T> {
    ghost use Rattle.std.specs.Prelude.{List};
    ghost use Rattle.vk_ranges.specs.Runs.{values_from, AreRuns};

    ghost Value = { List T };

    ghost view = { λ m. values_from 0 m.runs };

    ghost invariant = { λ m. AreRuns m.len m.runs };
}

impl<T: RangeValue> RangeMap<T> {
    /// A map in which each index has the value. The only error is want of memory, or of numbers where
    /// there are 2^32 indices or more.
    pub fn new(alloc: Global, len: u64, value: T) -> Result<RangeMap<T>, AllocError>
        ensures len { IfOk result (λ map. length map ≡ len) }
        ensures values { IfOk result (λ map. (index : ℕ) → index < len
            → slice_get map index ≡ Some value) }
    {
        let Ok(len) = u32::try_from(len) else {
            return Err(AllocError);
        };
        let mut runs = SortedRuns::new(alloc)?;
        if len > 0 {
            runs.insert(Near { chunks: 0, runs: 0 }, len, value)?;
        }
        Ok(RangeMap { alloc, len, runs })
    }

    /// The number of indices, which never changes.
    pub fn len(&self) -> u64
        ensures { result ≡ length self.now }
    {
        u64::from(self.len)
    }

    /// The value of an index.
    pub fn at(&self, index: u64) -> &T
        requires { index < length self.now }
        ensures { slice_get self.now index ≡ Some result.now }
    {
        let index = self.narrow(index);
        let Some((_, value)) = runs_after(&self.runs, index).next() else {
            unreachable!()
        };
        value
    }

    /// The runs that overlap `low..high`, in order, each cut to it.
    pub fn overlapping(&self, low: u64, high: u64) -> Overlapping<'_, T>
        requires order { low ≤ high }
        requires within { high ≤ length self.now }
        ensures { AreRunsOf self.now low high (pieces_left result) }
    {
        let low = self.narrow(low);
        let high = self.narrow(high);
        overlapping(&self.runs, low, high)
    }

    /// The first index of `low..high` whose value passes the test.
    pub fn find<F: Fn(&T) -> bool>(&self, low: u64, high: u64, test: F) -> Option<u64>
        requires callable { F.IsAlwaysCallable test }
        requires order { low ≤ high }
        requires within { high ≤ length self.now }
        ensures within { IfSome result (λ found. (low ≤ found) × (found < high)) }
        ensures passes { IfSome result (λ found.
            IsSomeAnd (slice_get self.now found) (λ value. FnReturnsAt F.Fn test value true)) }
        ensures first { IfSome result (λ found. (index : ℕ) → low ≤ index → index < found
            → IsSomeAnd (slice_get self.now index) (λ value. FnReturnsAt F.Fn test value false)) }
        ensures none { IfNone result ((index : ℕ) → low ≤ index → index < high
            → IsSomeAnd (slice_get self.now index) (λ value. FnReturnsAt F.Fn test value false)) }
    {
        for run in self.overlapping(low, high) {
            if test(run.value) {
                return Some(run.start);
            }
        }
        None
    }

    /// Gives the indices `low..high` the value, and keeps all others. The only error is want of
    /// memory, after which the map is as it was.
    pub fn assign(&mut self, low: u64, high: u64, value: T) -> Result<(), AllocError>
        requires order { low ≤ high }
        requires within { high ≤ length self.old }
        ensures len { length self.new ≡ length self.old }
        ensures inside { OnOk result ((index : ℕ) → low ≤ index → index < high
            → slice_get self.new index ≡ Some value) }
        ensures before { OnOk result ((index : ℕ) → index < low
            → slice_get self.new index ≡ slice_get self.old index) }
        ensures after { OnOk result ((index : ℕ) → high ≤ index
            → slice_get self.new index ≡ slice_get self.old index) }
        ensures err { OnErr result (self.new ≡ self.old) }
    {
        if low == high {
            return Ok(());
        }
        let low = self.narrow(low);
        let high = self.narrow(high);
        assign_runs(self.alloc, &mut self.runs, low, high, value)
    }

    /// Gives each index of `low..high` what `f` answers for its value, and keeps all others. An
    /// error, of `f` or for want of memory, leaves the map as it was.
    pub fn update<F: Fn(&T) -> Result<T, AllocError>>(
        &mut self,
        low: u64,
        high: u64,
        f: F,
    ) -> Result<(), AllocError>
        requires callable { F.IsAlwaysCallable f }
        requires order { low ≤ high }
        requires within { high ≤ length self.old }
        ensures len { length self.new ≡ length self.old }
        ensures inside { OnOk result ((index : ℕ) → low ≤ index → index < high
            → IsSomeAnd (slice_get self.old index) (λ before.
            IsSomeAnd (slice_get self.new index) (λ after.
            FnReturnsAt F.Fn f before (Ok after)))) }
        ensures before { OnOk result ((index : ℕ) → index < low
            → slice_get self.new index ≡ slice_get self.old index) }
        ensures after { OnOk result ((index : ℕ) → high ≤ index
            → slice_get self.new index ≡ slice_get self.old index) }
        ensures err { OnErr result (self.new ≡ self.old) }
    {
        if low == high {
            return Ok(());
        }
        let low = self.narrow(low);
        let high = self.narrow(high);
        update_runs(self.alloc, &mut self.runs, low, high, f)
    }

    /// An index, or the end of a range, as the runs have it.
    #[inline(always)]
    fn narrow(&self, index: u64) -> u32
        requires { index ≤ length self.now }
        ensures { result ≡ index }
    {
        index.min(u64::from(self.len)) as u32
    }
}
