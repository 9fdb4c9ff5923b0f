ghost use Rattle.std.specs.Prelude.{◌≡◌, ◌<◌, ◌≤◌, ◌+◌, ℕ, List, [], if◌then◌else◌, length, replicate, slice_index, IfOk, None};
ghost use Rattle.vk_model.specs.Run.Caches.{Cell, value_through, written_back, loaded};
ghost use Rattle.vk_map_cache.specs.Holdings.{IsCellOf, held_in, given, is_between, mark_of, overwritten};
ghost use Rattle.vk_map_cache.specs.Inner.Marks.{Leaves, turned, value_back, value_loaded};

use crate::mark::Mark;
use crate::marks::{Marks, Run, Turn};
use std::alloc::{AllocError, Global};
use std::marker::Model;
use vk_heap::Region;

/// What a queue's cache holds of the bytes of one memory object. Contracts see what it holds of each
/// byte.
#[derive(Drop)]
pub(crate) struct QueueObject {
    marks: Marks,
    /// The values of the bytes that are held.
    values: Region,
}

impl Model for QueueObject {
    ghost use Rattle.std.specs.Prelude.{◌≡◌, List, Option, length};
    ghost use Rattle.vk_model.specs.Run.Caches.{Held};
    ghost use Rattle.vk_map_cache.specs.Inner.Marks.{holdings_of};

    ghost Value = { List (Option Held) };

    ghost view = { λ o. holdings_of o.marks o.values };

    ghost invariant = { λ o. length o.marks ≡ length o.values };
}

impl QueueObject {
    /// Room for `size` bytes, of which none is held. The only error is want of memory.
    pub(crate) fn new(alloc: Global, size: u64) -> Result<QueueObject, AllocError>
        requires { 0 < size }
        ensures { IfOk result (λ o. o ≡ replicate size None) }
    {
        let values = Region::new(alloc, size)?;
        let marks = Marks::new(alloc, size as usize)?;
        Ok(QueueObject { marks, values })
    }

    /// How a byte is held.
    pub(crate) fn held(&self, at: usize) -> Mark
        ensures { result ≡ mark_of (held_in self.now at) }
    {
        self.marks.at(at)
    }

    /// Puts over the bytes from byte `at` on what is held of them.
    pub(crate) fn read(&self, at: usize, out: &mut [u8])
        requires { at + length out.old ≤ length self.now }
        ensures { (k : ℕ) → k < length out.old
            → slice_index out.new k
            ≡ value_through (held_in self.now (at + k)) (slice_index out.old k) }
    {
        let _size = self.values.size();
        let mut done = 0;
        while done < out.len() {
            done += self.read_run(at + done, &mut out[done..]);
        }
    }

    /// Puts over the first bytes that are held alike what is held of them, and answers how many.
    fn read_run(&self, at: usize, out: &mut [u8]) -> usize
        requires some { 0 < length out.old }
        requires room { at + length out.old ≤ length self.now }
        ensures some { 0 < result }
        ensures within { result ≤ length out.old }
        ensures bytes { (k : ℕ) → k < result
            → slice_index out.new k
            ≡ value_through (held_in self.now (at + k)) (slice_index out.old k) }
        ensures rest { (k : ℕ) → result ≤ k → slice_index out.new k ≡ slice_index out.old k }
    {
        let _size = self.values.size();
        let run = self.marks.run(at, at + out.len());
        let count = run.end - at;
        match run.mark {
            Mark::Absent => {}
            _ => self.values.read(at as u64, &mut out[..count]),
        }
        count
    }

    /// Holds the bytes from byte `at` on, dirty.
    pub(crate) fn write(&mut self, at: usize, bytes: &[u8])
        requires { at + length bytes.now ≤ length self.old }
        ensures len { length self.new ≡ length self.old }
        ensures bytes { (a k value : ℕ) (cell : Cell) → IsCellOf a (held_in self.old k) value cell
            → IsCellOf a (held_in self.new k) value (overwritten a (given at bytes.now k) cell) }
    {
        let _size = self.values.size();
        self.values.write(at as u64, bytes);
        self.marks.set_all(at, at + bytes.len(), Mark::Dirty);
    }

    /// Writes the dirty bytes of a range back; they stay as copies.
    pub(crate) fn write_back(&mut self, region: &mut Region, low: usize, high: usize)
        requires order { low ≤ high }
        requires room { high ≤ length self.old }
        requires within { high ≤ length region.old }
        ensures len { length self.new ≡ length self.old }
        ensures size { length region.new ≡ length region.old }
        ensures bytes { (a k : ℕ) (cell : Cell)
            → IsCellOf a (held_in self.old k) (slice_index region.old k) cell
            → IsCellOf a (held_in self.new k) (slice_index region.new k)
            (if is_between low high k then written_back a cell else cell) }
    {
        let mut done = low;
        while done < high {
            done = self.write_back_run(region, done, high);
        }
    }

    /// Does so with the first bytes of a range that are held alike, and answers where they end.
    fn write_back_run(&mut self, region: &mut Region, low: usize, high: usize) -> usize
        requires order { low < high }
        requires room { high ≤ length self.old }
        requires within { high ≤ length region.old }
        ensures some { low < result }
        ensures within { result ≤ high }
        ensures len { length self.new ≡ length self.old }
        ensures size { length region.new ≡ length region.old }
        ensures bytes { (a k : ℕ) (cell : Cell)
            → IsCellOf a (held_in self.old k) (slice_index region.old k) cell
            → IsCellOf a (held_in self.new k) (slice_index region.new k)
            (if is_between low result k then written_back a cell else cell) }
    {
        let run = self.marks.run(low, high);
        copy_dirty(&self.values, region, low, run);
        self.marks.turn(Turn::WriteBack, low, run);
        run.end
    }

    /// Copies the bytes of a range that aren't held from memory.
    pub(crate) fn load(&mut self, region: &Region, low: usize, high: usize)
        requires order { low ≤ high }
        requires room { high ≤ length self.old }
        requires within { high ≤ length region.now }
        ensures len { length self.new ≡ length self.old }
        ensures bytes { (a k : ℕ) (cell : Cell)
            → IsCellOf a (held_in self.old k) (slice_index region.now k) cell
            → IsCellOf a (held_in self.new k) (slice_index region.now k)
            (if is_between low high k then loaded a cell else cell) }
    {
        let mut done = low;
        while done < high {
            done = self.load_run(region, done, high);
        }
    }

    /// Does so with the first bytes of a range that are held alike, and answers where they end.
    fn load_run(&mut self, region: &Region, low: usize, high: usize) -> usize
        requires order { low < high }
        requires room { high ≤ length self.old }
        requires within { high ≤ length region.now }
        ensures some { low < result }
        ensures within { result ≤ high }
        ensures len { length self.new ≡ length self.old }
        ensures bytes { (a k : ℕ) (cell : Cell)
            → IsCellOf a (held_in self.old k) (slice_index region.now k) cell
            → IsCellOf a (held_in self.new k) (slice_index region.now k)
            (if is_between low result k then loaded a cell else cell) }
    {
        let run = self.marks.run(low, high);
        copy_absent(region, &mut self.values, low, run);
        self.marks.turn(Turn::Load, low, run);
        run.end
    }

    /// Drops the copies of a range, or forgets all that is held of it.
    pub(crate) fn leave(&mut self, turn: Turn, low: usize, high: usize)
        requires leaves { Leaves turn }
        requires order { low ≤ high }
        requires room { high ≤ length self.old }
        ensures len { length self.new ≡ length self.old }
        ensures bytes { (a k value : ℕ) (cell : Cell) → IsCellOf a (held_in self.old k) value cell
            → IsCellOf a (held_in self.new k) value
            (if is_between low high k then turned turn a cell else cell) }
    {
        let mut done = low;
        while done < high {
            done = self.leave_run(turn, done, high);
        }
    }

    /// Does so with the first bytes of a range that are held alike, and answers where they end.
    fn leave_run(&mut self, turn: Turn, low: usize, high: usize) -> usize
        requires leaves { Leaves turn }
        requires order { low < high }
        requires room { high ≤ length self.old }
        ensures some { low < result }
        ensures within { result ≤ high }
        ensures len { length self.new ≡ length self.old }
        ensures bytes { (a k value : ℕ) (cell : Cell) → IsCellOf a (held_in self.old k) value cell
            → IsCellOf a (held_in self.new k) value
            (if is_between low result k then turned turn a cell else cell) }
    {
        let run = self.marks.run(low, high);
        self.marks.turn(turn, low, run);
        run.end
    }
}

/// Copies the bytes of a run to memory, if they are dirty.
fn copy_dirty(values: &Region, region: &mut Region, low: usize, run: Run)
    requires order { low < run.end }
    requires room { run.end ≤ length values.now }
    requires within { run.end ≤ length region.old }
    ensures size { length region.new ≡ length region.old }
    ensures bytes { (k : ℕ) → slice_index region.new k
        ≡ (if is_between low run.end k
        then value_back run.mark (slice_index values.now k) (slice_index region.old k)
        else slice_index region.old k) }
{
    if let Mark::Dirty = run.mark {
        let len = run.end - low;
        values.copy_between(low as u64, region, low as u64, len as u64);
    }
}

/// Copies the bytes of a run from memory, if they aren't held.
fn copy_absent(region: &Region, values: &mut Region, low: usize, run: Run)
    requires order { low < run.end }
    requires room { run.end ≤ length values.old }
    requires within { run.end ≤ length region.now }
    ensures size { length values.new ≡ length values.old }
    ensures bytes { (k : ℕ) → slice_index values.new k
        ≡ (if is_between low run.end k
        then value_loaded run.mark (slice_index values.old k) (slice_index region.now k)
        else slice_index values.old k) }
{
    if let Mark::Absent = run.mark {
        let len = run.end - low;
        region.copy_between(low as u64, values, low as u64, len as u64);
    }
}
