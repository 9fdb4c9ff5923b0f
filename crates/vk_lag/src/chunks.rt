ghost use Rattle.std.specs.Prelude.{◌≡◌, ◌<◌, ◌≤◌, ◌+◌, ℕ, if◌then◌else◌, IfOk, length, replicate, slice_index, Some, None, false};
ghost use Rattle.std.specs.Prelude.{vec_capacity};
ghost use Rattle.vk_lag.specs.Lags.{late_in, is_between, caught_up, in_memory};
ghost use Rattle.vk_lag.specs.Inner.{IsPart, late_by};

use crate::late::{Due, Late, Writer};
use crate::marks::{Mark, claim, settle, writer_by};
use crate::parts::{CHUNK, Part};
use crate::reaching::reach;
use std::alloc::{AllocError, Global};
use std::marker::Model;
use vk_heap::Region;

/// Of each byte of a resource whether it is late, in chunks: where all bytes of a chunk were written by
/// one command a mark says so, and else each has its writer. Room for all is taken at first, and filled
/// up to the last byte that was late. Contracts see the list of all bytes.
#[derive(Drop)]
pub(crate) struct Chunks {
    /// How many bytes there are.
    size: usize,
    /// What is so of each chunk.
    marks: Vec<Mark>,
    /// What memory has of the late bytes, up to the last that was late; of others anything.
    values: Vec<u8>,
    /// The writers of the bytes of mixed chunks, up to the last of such a chunk; of others anything.
    writers: Vec<Option<Writer>>,
}

impl Model for Chunks {
    ghost use Rattle.std.specs.Prelude.{List, Option};
    ghost use Rattle.vk_lag.specs.declared.late.Late.{Late};
    ghost use Rattle.vk_lag.specs.Inner.{bytes_of};
    ghost use Rattle.vk_lag.specs.Inner.HasRoom.{HasRoom};

    ghost Value = { List (Option Late) };

    ghost view = { λ c. bytes_of c.size c.marks.items c.values.items c.writers.items };

    ghost invariant = { HasRoom };
}

impl Chunks {
    /// Room for `size` bytes, of which none is late. The only error is want of memory.
    pub(crate) fn new(alloc: Global, size: usize) -> Result<Chunks, AllocError>
        ensures { IfOk result (λ c. c ≡ replicate size None) }
    {
        let mut marks = Vec::new(alloc);
        marks.resize(size.div_ceil(CHUNK), Mark::Clean)?;
        let values = Vec::with_capacity(alloc, size)?;
        let writers = Vec::with_capacity(alloc, size)?;
        Ok(Chunks {
            size,
            marks,
            values,
            writers,
        })
    }

    /// How many bytes there are.
    pub(crate) fn size(&self) -> usize
        ensures { result ≡ length self.now }
    {
        self.size
    }

    /// Whether a byte is late.
    pub(crate) fn late(&self, at: usize) -> Option<Late>
        ensures { result ≡ late_in self.now at }
    {
        if self.size <= at {
            return None;
        }
        let mark = self.marks[at / CHUNK];
        late_by(
            value_at(self.values.as_slice(), at),
            writer_by(mark, self.writers.as_slice(), at),
        )
    }

    /// So many bytes from byte `at` on become late, of which memory still has what a region has: byte `k`
    /// of all lies at byte `base + k` of the region.
    pub(crate) fn write_from(
        &mut self,
        at: usize,
        size: usize,
        region: &Region,
        base: u64,
        writer: Writer,
    )
        requires room { at + size ≤ length self.old }
        requires within { base + (at + size) ≤ length region.now }
        ensures len { length self.new ≡ length self.old }
        ensures bytes { (k : ℕ) → late_in self.new k
            ≡ (if is_between at (at + size) k then Some (record { writer = writer; value = slice_index region.now (base + k) }) else late_in self.old k) }
    {
        let _sizes = (self.size(), region.size());
        let mut done = 0;
        while done < size {
            let part = Part::of(self.size(), at + done, at + size);
            self.write_part(part, region, base, writer);
            done = part.high - at;
        }
    }

    /// The same of a part.
    fn write_part(&mut self, part: Part, region: &Region, base: u64, writer: Writer)
        requires part { IsPart (length self.old) part }
        requires within { base + part.high ≤ length region.now }
        ensures len { length self.new ≡ length self.old }
        ensures bytes { (k : ℕ) → late_in self.new k
            ≡ (if is_between part.low part.high k then Some (record { writer = writer; value = slice_index region.now (base + k) }) else late_in self.old k) }
    {
        let _size = region.size();
        read_values(&mut self.values, part.low, part.high, region, base);
        claim(&mut self.marks, &mut self.writers, part, self.size, writer);
    }

    /// Memory catches up with the bytes from byte `low` to before byte `high` that are due; the answer is
    /// whether one of these may be late still.
    pub(crate) fn catch_up(&mut self, low: usize, high: usize, due: Due) -> bool
        requires order { low ≤ high }
        requires room { high ≤ length self.old }
        ensures len { length self.new ≡ length self.old }
        ensures bytes { (k : ℕ) → late_in self.new k
            ≡ (if is_between low high k then caught_up due (late_in self.old k) else late_in self.old k) }
        ensures none { result ≡ false → (k : ℕ) → low ≤ k → k < high → late_in self.new k ≡ None }
    {
        let mut some = false;
        let mut next = low;
        while next < high {
            let part = Part::of(self.size(), next, high);
            let left = self.catch_up_part(part, due);
            some = some || left;
            next = part.high;
        }
        some
    }

    /// The same of a part.
    fn catch_up_part(&mut self, part: Part, due: Due) -> bool
        requires part { IsPart (length self.old) part }
        ensures len { length self.new ≡ length self.old }
        ensures bytes { (k : ℕ) → late_in self.new k
            ≡ (if is_between part.low part.high k then caught_up due (late_in self.old k) else late_in self.old k) }
        ensures none { result ≡ false → (k : ℕ) → part.low ≤ k → k < part.high → late_in self.new k ≡ None }
    {
        settle(&mut self.marks, &mut self.writers, part, self.size, due)
    }

    /// Puts what memory still has over the newest values of the bytes from byte `at` on.
    pub(crate) fn look(&self, at: usize, out: &mut [u8])
        requires { at + length out.old ≤ length self.now }
        ensures { (k : ℕ) → k < length out.old → slice_index out.new k ≡ in_memory (slice_index out.old k) (late_in self.now (at + k)) }
    {
        let _size = self.size();
        for i in 0..out.len() {
            if let Some(late) = self.late(at + i) {
                out[i] = late.value;
            }
        }
    }
}

/// The values of the bytes from byte `low` to before byte `high` become those of a region: byte `k` of all
/// lies at byte `base + k` of it.
fn read_values(values: &mut Vec<u8>, low: usize, high: usize, region: &Region, base: u64)
    requires order { low ≤ high }
    requires room { high ≤ vec_capacity values.old }
    requires within { base + high ≤ length region.now }
    ensures capacity { vec_capacity values.old ≤ vec_capacity values.new }
    ensures bytes { (k : ℕ) → slice_index values.new.items k ≡ (if is_between low high k then slice_index region.now (base + k) else slice_index values.old.items k) }
{
    let _size = region.size();
    reach(values, high, 0);
    read_between(values.as_mut_slice(), low, high, region, base);
}

/// The same where values are there up to the last of these bytes.
fn read_between(values: &mut [u8], low: usize, high: usize, region: &Region, base: u64)
    requires order { low ≤ high }
    requires there { high ≤ length values.old }
    requires within { base + high ≤ length region.now }
    ensures { (k : ℕ) → slice_index values.new k ≡ (if is_between low high k then slice_index region.now (base + k) else slice_index values.old k) }
{
    let _size = region.size();
    region.read(base + low as u64, &mut values[low..high]);
}

/// What memory has of a byte, as far as values are there.
fn value_at(values: &[u8], at: usize) -> u8
    ensures { result ≡ slice_index values.now at }
{
    match values.get(at) {
        Some(value) => *value,
        None => 0,
    }
}

/// A byte of this writer, of which memory has this value.
fn late_by(value: u8, writer: Option<Writer>) -> Option<Late>
    ensures { result ≡ late_by value writer }
{
    match writer {
        Some(writer) => Some(Late { writer, value }),
        None => None,
    }
}
