ghost use Rattle.std.specs.Prelude.{◌≡◌, ◌<◌, ◌≤◌, ◌+◌, ℕ, if◌then◌else◌, length, replicate, slice_index, IfOk, Some, None};
ghost use Rattle.vk_lag.specs.Lags.{late_in, is_between, caught_up, in_memory};

use crate::chunks::Chunks;
use crate::late::{Due, Late, Writer};
use std::alloc::{AllocError, Global};
use std::marker::Model;
use vk_heap::Region;

/// Which bytes of a resource are late. Contracts see that of each byte.
#[derive(Drop)]
pub(crate) struct LateBytes {
    bytes: Chunks,
    /// Before this byte none is late.
    low: usize,
    /// From this byte on none is late.
    high: usize,
}

impl Model for LateBytes {
    ghost use Rattle.std.specs.Prelude.{List, Option};
    ghost use Rattle.vk_lag.specs.declared.late.Late.{Late};
    ghost use Rattle.vk_lag.specs.Inner.{AreLateBetween};

    ghost Value = { List (Option Late) };

    ghost view = { λ b. b.bytes };

    ghost invariant = { λ b. AreLateBetween b.bytes b.low b.high };
}

impl LateBytes {
    /// Room for `size` bytes, of which none is late. The only error is want of memory.
    pub(crate) fn new(alloc: Global, size: usize) -> Result<LateBytes, AllocError>
        ensures { IfOk result (λ b. b ≡ replicate size None) }
    {
        Ok(LateBytes {
            bytes: Chunks::new(alloc, size)?,
            low: 0,
            high: 0,
        })
    }

    /// Whether a byte is late.
    pub(crate) fn late(&self, at: usize) -> Option<Late>
        ensures { result ≡ late_in self.now at }
    {
        self.bytes.late(at)
    }

    /// So many bytes from byte `at` on become late, of which memory still has what a region has: byte `k`
    /// of all lies at byte `base + k` of the region.
    pub(crate) fn write_from(
        &mut self,
        at: usize,
        size: usize,
        region: &Region,
        base: u64,
        writer: Writer,
    )
        requires room { at + size ≤ length self.old }
        requires within { base + (at + size) ≤ length region.now }
        ensures len { length self.new ≡ length self.old }
        ensures bytes { (k : ℕ) → late_in self.new k
            ≡ (if is_between at (at + size) k then Some (record { writer = writer; value = slice_index region.now (base + k) }) else late_in self.old k) }
    {
        let _size = self.bytes.size();
        let end = at + size;
        self.bytes.write_from(at, size, region, base, writer);
        if self.low < self.high {
            self.low = self.low.min(at);
            self.high = self.high.max(end);
        } else {
            self.low = at;
            self.high = end;
        }
    }

    /// Memory catches up with the bytes from byte `low` to before byte `high` that are due.
    pub(crate) fn catch_up(&mut self, low: usize, high: usize, due: Due)
        ensures len { length self.new ≡ length self.old }
        ensures bytes { (k : ℕ) → late_in self.new k
            ≡ (if is_between low high k then caught_up due (late_in self.old k) else late_in self.old k) }
    {
        let from = low.max(self.low);
        let to = high.min(self.high);
        if from < to {
            let some = self.bytes.catch_up(from, to, due);
            if from == self.low && to == self.high && !some {
                self.low = 0;
                self.high = 0;
            }
        }
    }

    /// Memory catches up with all bytes that are due.
    pub(crate) fn catch_up_all(&mut self, due: Due)
        ensures len { length self.new ≡ length self.old }
        ensures bytes { (k : ℕ) → late_in self.new k ≡ caught_up due (late_in self.old k) }
    {
        let size = self.bytes.size();
        self.catch_up(0, size, due);
    }

    /// Puts what memory still has over the newest values of the bytes from byte `at` on.
    pub(crate) fn look(&self, at: usize, out: &mut [u8])
        requires { at + length out.old ≤ length self.now }
        ensures { (k : ℕ) → k < length out.old → slice_index out.new k ≡ in_memory (slice_index out.old k) (late_in self.now (at + k)) }
    {
        self.bytes.look(at, out);
    }
}
