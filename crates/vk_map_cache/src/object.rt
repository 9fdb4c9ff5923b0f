ghost use Rattle.std.specs.Prelude.{◌≡◌, ◌<◌, ◌≤◌, ◌+◌, ◌-◌, ◌⊎◌, ℕ, [], ◌&&◌, true, nat_lt, nat_le, if◌then◌else◌, length, slice_index, OnOk};
ghost use Rattle.vk_model.specs.Run.Caches.{Cell, value_through, forgotten};
ghost use Rattle.vk_model.specs.Run.CachedRuns.{after_host_write};
ghost use Rattle.vk_map_cache.specs.Holdings.{IsCell, held_in, given};
ghost use Rattle.vk_map_cache.specs.Inner.Marks.{changed};

use crate::mark::{Change, Mark, change_bytes, mark_all, read_through};
use std::alloc::{AllocError, Global};
use std::marker::Model;

/// What a cache holds of the bytes of one memory object. Contracts see what it holds of each byte
/// that there is room for.
#[derive(Drop)]
pub(crate) struct ObjectCache {
    marks: Vec<Mark>,
    values: Vec<u8>,
}

impl Model for ObjectCache {
    ghost use Rattle.std.specs.Prelude.{◌≤◌, List, Option, length};
    ghost use Rattle.vk_model.specs.Run.Caches.{Held};
    ghost use Rattle.vk_map_cache.specs.Inner.Marks.{holdings_of};

    ghost Value = { List (Option Held) };

    ghost view = { λ o. holdings_of o.marks.items o.values.items };

    ghost invariant = { λ o. length o.marks.items ≤ length o.values.items };
}

impl ObjectCache {
    /// Room for no byte.
    pub(crate) fn new(alloc: Global) -> ObjectCache
        ensures { result ≡ [] }
    {
        ObjectCache {
            marks: Vec::new(alloc),
            values: Vec::new(alloc),
        }
    }

    /// The number of bytes that there is room for.
    pub(crate) fn len(&self) -> usize
        ensures { result ≡ length self.now }
    {
        self.marks.as_slice().len()
    }

    /// Makes room for `size` bytes. The only error is want of memory.
    pub(crate) fn make_room(&mut self, size: usize) -> Result<(), AllocError>
        requires { length self.old ≤ size }
        ensures len { OnOk result (length self.new ≡ size) }
        ensures same { (k : ℕ) → held_in self.new k ≡ held_in self.old k }
    {
        self.values.resize(size, 0)?;
        self.marks.resize(size, Mark::Absent)?;
        Ok(())
    }

    /// Puts over the bytes from byte `at` on what is held of them.
    pub(crate) fn read(&self, at: usize, out: &mut [u8])
        ensures { (k : ℕ) → k < length out.old
            → slice_index out.new k
            ≡ value_through (held_in self.now (at + k)) (slice_index out.old k) }
    {
        if at >= self.marks.as_slice().len() {
            return;
        }
        let count = out.len().min(self.marks.as_slice().len() - at);
        let end = at + count;
        read_through(
            &mut out[..count],
            &self.marks[at..end],
            &self.values[at..end],
        );
    }

    /// Holds the bytes from byte `at` on, dirty.
    pub(crate) fn write(&mut self, at: usize, bytes: &[u8])
        requires { at + length bytes.now ≤ length self.old }
        ensures len { length self.new ≡ length self.old }
        ensures held { (k value : ℕ) (cell : Cell) → IsCell (held_in self.old k) value cell
            → IsCell (held_in self.new k) value
            (after_host_write true (given at bytes.now k) cell) }
    {
        let _room = self.len();
        let end = at + bytes.len();
        self.values[at..end].copy_from_slice(bytes);
        mark_all(&mut self.marks[at..end], Mark::Dirty);
    }

    /// Changes the bytes from byte `at` on; `region` has their values in memory.
    pub(crate) fn change(&mut self, change: Change, at: usize, region: &mut [u8])
        requires { at + length region.old ≤ length self.old }
        ensures len { length self.new ≡ length self.old }
        ensures inside { (k : ℕ) (cell : Cell) → at ≤ k → k < at + length region.old
            → IsCell (held_in self.old k) (slice_index region.old (k - at)) cell
            → IsCell (held_in self.new k) (slice_index region.new (k - at)) (changed change cell) }
        ensures outside { (k : ℕ) → (k < at) ⊎ (at + length region.old ≤ k)
            → held_in self.new k ≡ held_in self.old k }
    {
        let _room = self.len();
        let end = at + region.len();
        change_bytes(
            change,
            region,
            &mut self.marks[at..end],
            &mut self.values[at..end],
        );
    }

    /// Holds nothing any more of the bytes from byte `low` to before byte `high`.
    pub(crate) fn forget(&mut self, low: usize, high: usize)
        requires order { low ≤ high }
        requires room { high ≤ length self.old }
        ensures len { length self.new ≡ length self.old }
        ensures held { (k value : ℕ) (cell : Cell) → IsCell (held_in self.old k) value cell
            → IsCell (held_in self.new k) value
            (if nat_le low k && nat_lt k high then forgotten 0 cell else cell) }
    {
        mark_all(&mut self.marks[low..high], Mark::Absent);
    }
}
