ghost use Rattle.std.specs.Prelude.{◌≡◌, ◌<◌, ◌≤◌, ◌+◌, ◌^◌, ℕ, ◌&&◌, List, [], true, nat_le, nat_lt, None, length, slice_index, slice_index_or, OnOk, OnErr};
ghost use Rattle.vk_model.specs.declared.command.Length.TheVariants as length_of;
ghost use Rattle.vk_model.specs.Run.Caches.{Cell, value_through, written_back, loaded, forgotten};
ghost use Rattle.vk_model.specs.Run.CachedRuns.{after_host_write, turned_over};
ghost use Rattle.vk_model.specs.World.Effect.{in_atoms};
ghost use Rattle.vk_map_cache.specs.Inner.Marks.{changed};
ghost use Rattle.vk_map_cache.specs.Holdings.{held_at, is_reached, is_in_atom, given, only_where, evicted, Changes, HoldsSame};

use crate::atoms::{ATOM, Span, atom_at, atoms_of};
use crate::mark::Change;
use crate::object::ObjectCache;
use crate::span::change_span;
use std::alloc::{AllocError, Global};
use std::marker::Model;
use vk_heap::Region;

/// The host's cache in front of memory that isn't coherent. Contracts see what it holds of each
/// byte of each memory object.
#[derive(Drop)]
pub struct HostCache {
    alloc: Global,
    objects: Vec<ObjectCache>,
}

impl Model for HostCache {
    ghost use Rattle.vk_map_cache.specs.Holdings.{Holdings};

    ghost Value = { Holdings };

    ghost view = { λ c. c.objects.items };
}

impl HostCache {
    /// A cache that holds nothing. It takes no memory.
    pub fn new(alloc: Global) -> HostCache
        ensures { result ≡ [] }
    {
        HostCache {
            alloc,
            objects: Vec::new(alloc),
        }
    }

    /// Writes bytes as the host does: the cache holds them, dirty, and the region stays.
    ///
    /// # Errors
    /// Only want of memory, after which the cache holds what it held.
    pub fn write(
        &mut self,
        memory: u64,
        region: &Region,
        at: u64,
        bytes: &[u8],
    ) -> Result<(), AllocError>
        requires { at + length bytes.now ≤ length region.now }
        ensures ok { OnOk result (Changes (λ k. after_host_write true (given at bytes.now k))
            memory self.old self.new region.now region.now) }
        ensures err { OnErr result (HoldsSame self.old self.new) }
    {
        self.make_room(memory, region.size())?;
        self.objects[memory as usize].write(at as usize, bytes);
        Ok(())
    }

    /// Reads bytes as the host does: each is what the cache holds of it, or else the region's.
    pub fn read(&self, memory: u64, region: &Region, at: u64, out: &mut [u8])
        requires { at + length out.old ≤ length region.now }
        ensures { (k : ℕ) → k < length out.old
            → slice_index out.new k
            ≡ value_through (held_at self.now memory (at + k))
            (slice_index region.now (at + k)) }
    {
        region.read(at, out);
        if let Some(object) = self.objects.as_slice().get(memory as usize) {
            object.read(at as usize, out);
        }
    }

    /// Copies into the cache those bytes of an atom that it doesn't hold. An atom past the region's
    /// end has no bytes.
    ///
    /// # Errors
    /// Only want of memory, after which the cache holds what it held.
    pub fn load(&mut self, memory: u64, region: &Region, atom: u64) -> Result<(), AllocError>
        ensures ok { OnOk result (Changes
            (only_where (is_in_atom (length region.now) atom) (loaded 0))
            memory self.old self.new region.now region.now) }
        ensures err { OnErr result (HoldsSame self.old self.new) }
    {
        let size = region.size();
        self.make_room(memory, size)?;
        let span = atom_at(atom, size);
        let mut buffer = [0; ATOM as usize];
        let bytes = &mut buffer[..span.high - span.low];
        region.read(span.low as u64, bytes);
        self.objects[memory as usize].change(Change::Load, span.low, bytes);
        Ok(())
    }

    /// Writes the dirty bytes back of the atoms that a range reaches, as
    /// `vkFlushMappedMemoryRanges`; they stay as copies.
    pub fn flush(&mut self, memory: u64, region: &mut Region, offset: u64, size: u64)
        requires { offset + size ≤ length region.old }
        ensures { Changes (only_where (is_reached (length region.old) offset size) (written_back 0))
            memory self.old self.new region.old region.new }
    {
        let span = atoms_of(offset, size, region.size());
        self.change_held(Change::WriteBack, memory, region, span);
    }

    /// Holds nothing any more of the atoms that a range reaches, as
    /// `vkInvalidateMappedMemoryRanges`; what was dirty is lost.
    pub fn invalidate(&mut self, memory: u64, offset: u64, size: u64)
        requires { offset + size < 2 ^ 64 }
        ensures { (region : List ℕ)
            → Changes (only_where (in_atoms offset (length_of.Bytes size)) (forgotten 0))
            memory self.old self.new region region }
    {
        if memory < self.objects.as_slice().len() as u64 {
            let object = &mut self.objects[memory as usize];
            let span = atoms_of(offset, size, object.len() as u64);
            object.forget(span.low, span.high);
        }
    }

    /// Writes the dirty bytes of an atom back, and holds none of its bytes any more.
    pub fn evict(&mut self, memory: u64, region: &mut Region, atom: u64)
        ensures { Changes (only_where (is_in_atom (length region.old) atom) evicted)
            memory self.old self.new region.old region.new }
    {
        let span = atom_at(atom, region.size());
        self.change_held(Change::Evict, memory, region, span);
    }

    /// Evicts those bytes of an atom that the cache holds, and loads the others.
    ///
    /// # Errors
    /// Only want of memory, after which cache and region are as they were.
    pub fn turn_over(
        &mut self,
        memory: u64,
        region: &mut Region,
        atom: u64,
    ) -> Result<(), AllocError>
        ensures ok { OnOk result (Changes
            (only_where (is_in_atom (length region.old) atom) turned_over)
            memory self.old self.new region.old region.new) }
        ensures err { OnErr result (HoldsSame self.old self.new) }
        ensures kept { OnErr result (region.new ≡ region.old) }
    {
        let size = region.size();
        self.make_room(memory, size)?;
        let span = atom_at(atom, size);
        let object = &mut self.objects[memory as usize];
        change_span(Change::TurnOver, object, region, span.low, span.high);
        Ok(())
    }

    /// Holds nothing any more of the atoms that a range reaches, and writes nothing back: what was
    /// there has ended. A range of the whole object gives the room for its bytes back.
    pub fn drop_range(&mut self, memory: u64, offset: u64, size: u64)
        requires { offset + size < 2 ^ 64 }
        ensures { (region : List ℕ)
            → Changes (only_where (in_atoms offset (length_of.Bytes size)) (forgotten 0))
            memory self.old self.new region region }
    {
        self.invalidate(memory, offset, size);
        if offset == 0 && self.room(memory) <= size {
            self.free(memory);
        }
    }

    /// The number of bytes of an object that there is room for.
    fn room(&self, memory: u64) -> u64
        ensures { result ≡ length (slice_index_or self.now memory []) }
    {
        match self.objects.as_slice().get(memory as usize) {
            Some(object) => object.len() as u64,
            None => 0,
        }
    }

    /// Gives the room for the bytes of an object back.
    fn free(&mut self, memory: u64)
        requires { (k : ℕ) → held_at self.old memory k ≡ None }
        ensures empty { slice_index_or self.new memory [] ≡ [] }
        ensures same { HoldsSame self.old self.new }
    {
        if memory < self.objects.as_slice().len() as u64 {
            self.objects[memory as usize] = ObjectCache::new(self.alloc);
        }
    }

    /// Changes those bytes of a span that are held, where the change leaves all others alone.
    fn change_held(&mut self, change: Change, memory: u64, region: &mut Region, span: Span)
        requires order { span.low ≤ span.high }
        requires within { span.high ≤ length region.old }
        requires others { (cell : Cell) → cell.held 0 ≡ None → changed change cell ≡ cell }
        ensures { Changes
            (only_where (λ k. nat_le span.low k && nat_lt k span.high) (changed change))
            memory self.old self.new region.old region.new }
    {
        if memory < self.objects.as_slice().len() as u64 {
            let object = &mut self.objects[memory as usize];
            let high = span.high.min(object.len());
            let low = span.low.min(high);
            change_span(change, object, region, low, high);
        }
    }

    /// Makes room for the bytes of an object.
    fn make_room(&mut self, memory: u64, size: u64) -> Result<(), AllocError>
        ensures named { OnOk result (memory < length self.new) }
        ensures room { OnOk result (size ≤ length (slice_index_or self.new memory [])) }
        ensures same { HoldsSame self.old self.new }
    {
        self.make_objects(memory)?;
        let object = &mut self.objects[memory as usize];
        if object.len() < size as usize {
            object.make_room(size as usize)?;
        }
        Ok(())
    }

    /// Makes objects up to this number, with room for no byte.
    fn make_objects(&mut self, memory: u64) -> Result<(), AllocError>
        ensures named { OnOk result (memory < length self.new) }
        ensures same { HoldsSame self.old self.new }
    {
        while self.objects.as_slice().len() <= memory as usize {
            self.objects.push(ObjectCache::new(self.alloc))?;
        }
        Ok(())
    }
}
