ghost use Rattle.std.specs.Prelude.{◌≡◌, ℕ, ◌<◌, ◌+◌, ◌-◌, ◌≤◌, ◌&&◌, ◌/◌, ◌==◌, OnOk, None, Some, true, is_some, length, map};
ghost use Rattle.vk_model.specs.Basics.{below};
ghost use Rattle.vk_model.specs.World.Bytes.{in_buffer};
ghost use Rattle.vk_map_cache.specs.Holdings.{given, only_where};
ghost use Rattle.vk_model.specs.Trace.Point.{Past};
ghost use Rattle.vk_model.specs.Run.Caches.{written_back, forgotten};
ghost use Rattle.vk_model.specs.Run.CachedRuns.{after_host_write, turned_over};
ghost use Rattle.vk_model.specs.Run.Runs.{touched_by, atom_count};
ghost use Rattle.vk_model.specs.World.Effect.{in_atoms};

use crate::resources::Resources;
use std::alloc::AllocError;
use vk_model::{Entry, Length};

/// The bytes that the host's cache takes up and gives back together, as `nonCoherentAtomSize`
/// (profile).
const ATOM: u64 = 64;

/// How many bytes a range from `offset` on has, of a buffer of `end` bytes.
fn reached(size: Length, offset: u64, end: u64) -> u64
    ensures { result ≡ length_to end offset size }
{
    match size {
        Length::Bytes(bytes) => bytes,
        Length::Whole => end.saturating_sub(offset),
    }
}

/// The buffer that the host accesses by an entry.
fn accessed(entry: &Entry) -> Option<u32>
    ensures { result ≡ touched_by entry.now }
{
    match entry {
        Entry::Write { buffer, .. } => Some(*buffer),
        Entry::Read { buffer, .. } => Some(*buffer),
        Entry::Flush { buffer, .. } => Some(*buffer),
        Entry::Invalidate { buffer, .. } => Some(*buffer),
        _ => None,
    }
}

ghost use Rattle.vk_resources.specs.Inner.Steps.{length_to};

/// How many atoms a buffer of so many bytes has.
fn atoms_in(size: u64) -> u64
    ensures { result ≡ (size + 63) / 64 }
{
    let whole = size / ATOM;
    if size % ATOM == 0 { whole } else { whole + 1 }
}

impl Resources {
    ghost use Rattle.vk_resources.specs.Held.{shape_of, flat, seen_at, IsConsistent};
    ghost use Rattle.vk_resources.specs.Rest.{KeepsRest, is_given_back};
    ghost use Rattle.vk_resources.specs.Matches.{Stands};
    ghost use Rattle.vk_resources.specs.Allocating.{allotted};
    ghost use Rattle.vk_resources.specs.PassSteps.{KeepsCopies};
    ghost use Rattle.vk_resources.specs.Fits.{FitsEntry};
    ghost use Rattle.vk_resources.specs.Done.{AtomReady, TurnsOver};
    ghost use Rattle.vk_resources.specs.Inner.Steps.{MayReach, MayReachTo, HasAtom, HasChanged, Forgets, KeepsPlaces, cached_at};

    /// Writes bytes of the host to a buffer in cached memory: its cache has them, and memory stays.
    pub(crate) fn write_cached(
        &mut self,
        id: u32,
        offset: u64,
        bytes: &[u8],
    ) -> Result<(), AllocError>
        requires buffer { shape_of self.old id ≡ None }
        requires range { MayReach (cached_at self.old id) offset (length bytes.now) }
        ensures { OnOk result (HasChanged self.old self.new id (λ k. after_host_write true (given offset bytes.now k))) }
    {
        if let Some(buffer) = self.cached(id) {
            let region = self.memories.region(buffer.object);
            let _size = region.size();
            self.cache
                .write(buffer.object, region, buffer.offset + offset, bytes)?;
        }
        Ok(())
    }

    /// Copies bytes of a buffer that is there into `out`, as the host sees them. Of memory that isn't
    /// cached the cache holds nothing.
    pub(crate) fn copy_seen(&self, id: u32, offset: u64, out: &mut [u8])
        requires { MayReach (flat self.now id) offset (length out.old) }
        ensures { out.new ≡ map (λ k. seen_at self.now (in_buffer id (offset + k))) (below (length out.old)) }
    {
        if let Some(buffer) = self.buffer(id) {
            let region = self.memories.region(buffer.object);
            let _size = region.size();
            self.cache
                .read(buffer.object, region, buffer.offset + offset, out);
        }
    }

    /// Writes the dirty bytes back of the atoms that a range of a buffer reaches, where it is in cached
    /// memory.
    pub(crate) fn flush(&mut self, id: u32, offset: u64, size: Length)
        requires { MayReachTo (flat self.old id) offset size }
        ensures { HasChanged self.old self.new id (only_where (λ k. is_some (cached_at self.old id) && in_atoms offset size k) (written_back 0)) }
    {
        if let Some(buffer) = self.cached(id) {
            let bytes = reached(size, offset, buffer.size);
            let region = self.memories.region_mut(buffer.object);
            let _size = region.size();
            self.cache
                .flush(buffer.object, region, buffer.offset + offset, bytes);
        }
    }

    /// Holds nothing any more of the atoms that a range of a buffer reaches, where it is in cached
    /// memory.
    pub(crate) fn invalidate(&mut self, id: u32, offset: u64, size: Length)
        requires { MayReachTo (flat self.old id) offset size }
        ensures { HasChanged self.old self.new id (only_where (λ k. is_some (cached_at self.old id) && in_atoms offset size k) (forgotten 0)) }
    {
        if let Some(buffer) = self.cached(id) {
            let bytes = reached(size, offset, buffer.size);
            let _size = self.memories.region(buffer.object).size();
            self.cache
                .invalidate(buffer.object, buffer.offset + offset, bytes);
        }
    }

    /// Holds nothing any more of a resource, where it is in cached memory, and writes nothing back.
    pub(crate) fn forget(&mut self, id: u32)
        ensures memory { self.new.memory ≡ self.old.memory }
        ensures backed { self.new.backed ≡ self.old.backed }
        ensures resources { self.new.resources ≡ self.old.resources }
        ensures shapes { self.new.shapes ≡ self.old.shapes }
        ensures forgets { Forgets self.old self.new id }
        ensures consistent { IsConsistent self.old }
    {
        if let Some(buffer) = self.cached(id) {
            let _size = self.memories.region(buffer.object).size();
            self.cache
                .drop_range(buffer.object, buffer.offset, buffer.size);
        }
    }

    /// How many atoms the buffer has in cached memory that the host accesses by an entry; none where it
    /// accesses no such buffer.
    pub fn atoms(&self, entry: &Entry) -> u64
        ensures counted { (past : Past) → Stands past self.now → FitsEntry past entry.now → result ≡ atom_count past entry.now }
        ensures none { touched_by entry.now ≡ None → result ≡ 0 }
    {
        match accessed(entry) {
            Some(buffer) => match self.cached(buffer) {
                Some(placed) => atoms_in(placed.size),
                None => 0,
            },
            None => 0,
        }
    }

    /// Just before an entry: writes the dirty bytes back of an atom of the buffer that the host
    /// accesses, and holds none of those any more that were held; the others are loaded.
    ///
    /// # Errors
    /// Only want of memory.
    pub fn turn_over(&mut self, entry: &Entry, atom: u64) -> Result<(), AllocError>
        requires { AtomReady self.old entry.now atom }
        ensures turned { OnOk result (TurnsOver entry.now atom self.old self.new) }
        ensures rest { OnOk result (KeepsRest self.old self.new (is_given_back self.old entry.now atom)) }
        ensures agree { OnOk result (KeepsCopies self.old self.new (is_given_back self.old entry.now atom)) }
        ensures matches { (past : Past) → Stands past self.old → Stands past self.new }
        ensures placed { self.new.resources ≡ self.old.resources }
        ensures shapes { self.new.shapes ≡ self.old.shapes }
        ensures allotted { allotted self.new ≡ allotted self.old }
    {
        let _memories = &self.memories;
        match accessed(entry) {
            Some(buffer) => self.turn_over_atom(buffer, atom),
            None => Ok(()),
        }
    }

    /// The same of an atom of a buffer in cached memory.
    fn turn_over_atom(&mut self, id: u32, atom: u64) -> Result<(), AllocError>
        requires buffer { shape_of self.old id ≡ None }
        requires atom { HasAtom (cached_at self.old id) atom }
        ensures turned { OnOk result (HasChanged self.old self.new id (only_where (λ k. is_some (cached_at self.old id) && k / 64 == atom) turned_over)) }
        ensures keeps { KeepsPlaces self.old self.new }
    {
        if let Some(buffer) = self.cached(id) {
            let region = self.memories.region_mut(buffer.object);
            let _size = region.size();
            let first = buffer.offset / ATOM;
            self.cache.turn_over(buffer.object, region, first + atom)?;
        }
        Ok(())
    }
}
