ghost use Rattle.std.specs.Prelude.{◌≡◌, ◌<◌, ◌≤◌, ◌+◌, ◌*◌, IfOk, length, replicate};
ghost use Rattle.std.specs.Int.{to_le_bytes, w32};
ghost use Rattle.std.specs.Prelude.{◌++◌, ◌-◌, ℕ};
ghost use Rattle.std.specs.Prelude.{vec_capacity};
ghost use Rattle.vk_heap.specs.Region.{splice, piece, repeated, with_fresh};

use std::alloc::{AllocError, Global};
use std::marker::Model;

/// What a new region is filled with, since Vulkan leaves the contents of new memory undefined.
const FRESH: u8 = 0xcd;

/// The bytes of one memory object. Room for all is taken when it is made, and given back when it is
/// dropped; the bytes are written up to the last one that was reached, so that memory that isn't used
/// costs no time. Contracts see the list of all bytes.
#[derive(Drop)]
pub struct Region {
    /// The bytes up to the last one that was reached.
    bytes: Vec<u8>,
    /// How many bytes there are.
    size: usize,
}

impl Model for Region {
    ghost use Rattle.std.specs.Prelude.{List, ℕ};
    ghost use Rattle.vk_heap.specs.Region.{with_fresh};
    ghost use Rattle.vk_heap.specs.Inner.IsRegion.{IsRegion};

    ghost Value = { List ℕ };

    ghost view = { λ r. with_fresh r.bytes.items r.size };

    ghost invariant = { IsRegion };
}

impl Region {
    /// A region of `size` bytes, each 0xCD. The only error is want of memory.
    pub fn new(alloc: Global, size: u64) -> Result<Region, AllocError>
        requires { 0 < size }
        ensures { IfOk result (λ r. r ≡ replicate size 205) }
    {
        let size = size as usize;
        let bytes = Vec::with_capacity(alloc, size)?;
        Ok(Region { bytes, size })
    }

    /// The number of bytes, which never changes.
    pub fn size(&self) -> u64
        ensures { result ≡ length self.now }
    {
        self.size as u64
    }

    /// Copies the bytes from byte `at` on into `out`.
    pub fn read(&self, at: u64, out: &mut [u8])
        requires { at + length out.old ≤ length self.now }
        ensures { out.new ≡ piece self.now at (length out.old) }
    {
        copy_out(self.bytes.as_slice(), at as usize, out);
    }

    /// Writes `bytes` from byte `at` on, and keeps all others.
    pub fn write(&mut self, at: u64, bytes: &[u8])
        requires { at + length bytes.now ≤ length self.old }
        ensures { self.new ≡ splice self.old at bytes.now }
    {
        let _size = self.size;
        let start = at as usize;
        let end = start + bytes.len();
        reach(&mut self.bytes, end);
        self.bytes.as_mut_slice()[start..end].copy_from_slice(bytes);
    }

    /// Writes `word`, little-endian, `words` times from byte `at` on, and keeps all others.
    pub fn fill(&mut self, at: u64, words: u64, word: u32)
        requires { at + 4 * words ≤ length self.old }
        ensures { self.new ≡ splice self.old at (repeated words (to_le_bytes w32 word)) }
    {
        let _size = self.size;
        let start = at as usize;
        let end = start + 4 * words as usize;
        reach(&mut self.bytes, end);
        let bytes = self.bytes.as_mut_slice();
        fill_words(&mut bytes[start..end], words as usize, word);
    }

    /// Copies `len` bytes from byte `at` on to `into`, from its byte `to` on, and keeps all others.
    #[inline(always)]
    pub fn copy_between(&self, at: u64, into: &mut Region, to: u64, len: u64)
        requires from { at + len ≤ length self.now }
        requires room { to + len ≤ length into.old }
        ensures { into.new ≡ splice into.old to (piece self.now at len) }
    {
        let bytes = self.bytes.as_slice();
        let start = at as usize;
        let end = start + len as usize;
        if bytes.len() < end {
            self.copy_with_fresh(at, into, to, len);
            return;
        }
        // Where the compiler knows the length there is no call: texels come in pairs of so many bytes.
        match len {
            8 => into.write(to, &bytes[start..start + 8]),
            16 => into.write(to, &bytes[start..start + 16]),
            _ => into.write(to, &bytes[start..end]),
        }
    }

    /// The same where not all bytes have been reached that are copied.
    fn copy_with_fresh(&self, at: u64, into: &mut Region, to: u64, len: u64)
        requires from { at + len ≤ length self.now }
        requires room { to + len ≤ length into.old }
        ensures { into.new ≡ splice into.old to (piece self.now at len) }
    {
        let _size = into.size;
        let start = to as usize;
        let end = start + len as usize;
        reach(&mut into.bytes, end);
        copy_out(
            self.bytes.as_slice(),
            at as usize,
            &mut into.bytes.as_mut_slice()[start..end],
        );
    }

    /// Copies `len` bytes from byte `at` on, as they were, to byte `to` on, and keeps all others.
    /// The two ranges may overlap.
    pub fn copy_within(&mut self, at: u64, to: u64, len: u64)
        requires from { at + len ≤ length self.old }
        requires room { to + len ≤ length self.old }
        ensures { self.new ≡ splice self.old to (piece self.old at len) }
    {
        let (from, into, count) = (at as usize, to as usize, len as usize);
        reach(&mut self.bytes, from.max(into) + count);
        move_bytes(self.bytes.as_mut_slice(), from, into, count);
    }
}

/// Fills up what isn't there yet of the bytes before `end`; there is room for them.
fn reach(bytes: &mut Vec<u8>, end: usize)
    requires { end ≤ vec_capacity bytes.old }
    ensures items { bytes.new.items ≡ bytes.old.items ++ replicate (end - length bytes.old.items) 205 }
    ensures capacity { vec_capacity bytes.old ≤ vec_capacity bytes.new }
{
    if bytes.len() < end && bytes.resize(end, FRESH).is_err() {
        unreachable!()
    }
}

/// Copies bytes from byte `at` on, behind which all others are fresh.
fn copy_out(bytes: &[u8], at: usize, out: &mut [u8])
    ensures { (size : ℕ) → at + length out.old ≤ size → length bytes.now ≤ size → out.new ≡ piece (with_fresh bytes.now size) at (length out.old) }
{
    let start = at.min(bytes.len());
    let there = out.len().min(bytes.len() - start);
    let (known, fresh) = out.split_at_mut(there);
    known.copy_from_slice(&bytes[start..start + there]);
    fresh.fill(FRESH);
}

/// Copies bytes within a slice, at once where the two ranges are apart.
fn move_bytes(bytes: &mut [u8], at: usize, to: usize, len: usize)
    requires from { at + len ≤ length bytes.old }
    requires room { to + len ≤ length bytes.old }
    ensures { bytes.new ≡ splice bytes.old to (piece bytes.old at len) }
{
    if at + len <= to {
        let (front, back) = bytes.split_at_mut(to);
        back[..len].copy_from_slice(&front[at..at + len]);
    } else if to + len <= at {
        let (front, back) = bytes.split_at_mut(at);
        front[to..to + len].copy_from_slice(&back[..len]);
    } else {
        bytes.copy_within(at..at + len, to);
    }
}

/// How many words are stored one after another, 4 KiB of them.
const MOST_STORED: usize = 1024;

/// How many words are copied at once, 8 KiB of them: what is copied stays in a processor's first cache.
const MOST_COPIED: usize = 2048;

/// Writes the word, little-endian, over each four bytes: a front of them is stored, and what is filled
/// so far, or a front of it, is copied behind itself.
fn fill_words(out: &mut [u8], words: usize, word: u32)
    requires { length out.old ≡ 4 * words }
    ensures { out.new ≡ repeated words (to_le_bytes w32 word) }
{
    let front = words.min(MOST_STORED);
    store_words(&mut out[..4 * front], front, word);
    let mut filled = front;
    while filled < words {
        let more = filled.min(words - filled).min(MOST_COPIED);
        move_bytes(out, 0, 4 * filled, 4 * more);
        filled += more;
    }
}

/// Writes the word, little-endian, over each four bytes, one after another: the compiler makes wide
/// stores of them, which wait for nothing that was written just before.
fn store_words(out: &mut [u8], words: usize, word: u32)
    requires { length out.old ≡ 4 * words }
    ensures { out.new ≡ repeated words (to_le_bytes w32 word) }
{
    let bytes = word.to_le_bytes();
    for i in 0..words {
        out[4 * i..4 * i + 4].copy_from_slice(&bytes);
    }
}
