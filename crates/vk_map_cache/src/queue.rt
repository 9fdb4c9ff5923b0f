ghost use Rattle.std.specs.Prelude.{◌≡◌, ◌<◌, ◌≤◌, ◌+◌, ℕ, List, [], length, slice_index, OnOk, OnErr, None};
ghost use Rattle.vk_model.specs.Run.Caches.{value_through, written_back, dropped, loaded, forgotten};
ghost use Rattle.vk_map_cache.specs.Holdings.{object_in, held_at, mark_of, given, overwritten, only_where, is_between, ChangesOf, SameRoom, IsRoomed, SameObjects};

use crate::mark::Mark;
use crate::marks::Turn;
use crate::queue_object::QueueObject;
use std::alloc::{AllocError, Global};
use std::marker::Model;
use vk_heap::Region;

/// The cache of a queue in front of all memory. Contracts see what it holds of each byte of each
/// memory object that was added; of which agent it is, they leave open.
#[derive(Drop)]
pub struct QueueCache {
    alloc: Global,
    objects: Vec<Option<QueueObject>>,
}

impl Model for QueueCache {
    ghost use Rattle.vk_map_cache.specs.Holdings.{Holdings};
    ghost use Rattle.vk_map_cache.specs.Inner.Objects.{all_held};

    ghost Value = { Holdings };

    ghost view = { λ c. all_held c.objects.items };
}

impl QueueCache {
    /// A cache that holds nothing. It takes no memory.
    pub fn new(alloc: Global) -> QueueCache
        ensures { result ≡ [] }
    {
        QueueCache {
            alloc,
            objects: Vec::new(alloc),
        }
    }

    /// Makes room for every byte of an object of `size` bytes, of which nothing is held.
    ///
    /// # Errors
    /// Only want of memory, after which room and what is held are as they were.
    pub fn add(&mut self, memory: u64, size: u64) -> Result<(), AllocError>
        requires { 0 < size }
        ensures ok { OnOk result (IsRoomed memory size self.old self.new) }
        ensures err { OnErr result (SameObjects self.old self.new) }
    {
        let object = QueueObject::new(self.alloc, size)?;
        while self.objects.as_slice().len() <= memory as usize {
            self.objects.push(None)?;
        }
        self.objects[memory as usize] = Some(object);
        Ok(())
    }

    /// Forgets all bytes of an object, and gives the room for them back.
    pub fn remove(&mut self, memory: u64)
        ensures { IsRoomed memory 0 self.old self.new }
    {
        if memory < self.objects.as_slice().len() as u64 {
            clear(&mut self.objects[memory as usize]);
        }
    }

    /// How a byte is held.
    pub fn held(&self, memory: u64, at: u64) -> Mark
        requires { at < length (object_in self.now memory) }
        ensures { result ≡ mark_of (held_at self.now memory at) }
    {
        match self.objects.as_slice().get(memory as usize) {
            Some(Some(object)) => object.held(at as usize),
            _ => Mark::Absent,
        }
    }

    /// Reads bytes as the queue does: each is what the cache holds of it, or else the region's.
    pub fn read(&self, memory: u64, region: &Region, at: u64, out: &mut [u8])
        requires room { at + length out.old ≤ length (object_in self.now memory) }
        requires within { at + length out.old ≤ length region.now }
        ensures { (k : ℕ) → k < length out.old
            → slice_index out.new k
            ≡ value_through (held_at self.now memory (at + k))
            (slice_index region.now (at + k)) }
    {
        region.read(at, out);
        if let Some(Some(object)) = self.objects.as_slice().get(memory as usize) {
            object.read(at as usize, out);
        }
    }

    /// Writes bytes as the queue does: the cache holds them, dirty.
    pub fn write(&mut self, memory: u64, at: u64, bytes: &[u8])
        requires { at + length bytes.now ≤ length (object_in self.old memory) }
        ensures bytes { (a : ℕ) (region : List ℕ)
            → ChangesOf a (λ k. overwritten a (given at bytes.now k))
            memory self.old self.new region region }
        ensures room { SameRoom self.old self.new }
    {
        if memory < self.objects.as_slice().len() as u64 {
            if let Some(object) = &mut self.objects[memory as usize] {
                object.write(at as usize, bytes);
            }
        }
    }

    /// Writes the dirty bytes from byte `low` to before byte `high` back; they stay as copies.
    pub fn write_back(&mut self, memory: u64, region: &mut Region, low: u64, high: u64)
        requires order { low ≤ high }
        requires room { high ≤ length (object_in self.old memory) }
        requires within { high ≤ length region.old }
        ensures bytes { (a : ℕ)
            → ChangesOf a (only_where (is_between low high) (written_back a))
            memory self.old self.new region.old region.new }
        ensures room { SameRoom self.old self.new }
    {
        if memory < self.objects.as_slice().len() as u64 {
            if let Some(object) = &mut self.objects[memory as usize] {
                object.write_back(region, low as usize, high as usize);
            }
        }
    }

    /// Drops the copies of the bytes from byte `low` to before byte `high`; what is dirty stays.
    pub fn drop_clean(&mut self, memory: u64, low: u64, high: u64)
        requires order { low ≤ high }
        requires room { high ≤ length (object_in self.old memory) }
        ensures bytes { (a : ℕ) (region : List ℕ)
            → ChangesOf a (only_where (is_between low high) (dropped a))
            memory self.old self.new region region }
        ensures room { SameRoom self.old self.new }
    {
        if memory < self.objects.as_slice().len() as u64 {
            if let Some(object) = &mut self.objects[memory as usize] {
                object.leave(Turn::Drop, low as usize, high as usize);
            }
        }
    }

    /// Copies the bytes from byte `low` to before byte `high` that aren't held from memory.
    pub fn load(&mut self, memory: u64, region: &Region, low: u64, high: u64)
        requires order { low ≤ high }
        requires room { high ≤ length (object_in self.old memory) }
        requires within { high ≤ length region.now }
        ensures bytes { (a : ℕ)
            → ChangesOf a (only_where (is_between low high) (loaded a))
            memory self.old self.new region.now region.now }
        ensures room { SameRoom self.old self.new }
    {
        if memory < self.objects.as_slice().len() as u64 {
            if let Some(object) = &mut self.objects[memory as usize] {
                object.load(region, low as usize, high as usize);
            }
        }
    }

    /// Holds nothing any more of the bytes from byte `low` to before byte `high`; what was dirty is
    /// lost.
    pub fn forget(&mut self, memory: u64, low: u64, high: u64)
        requires order { low ≤ high }
        requires room { high ≤ length (object_in self.old memory) }
        ensures bytes { (a : ℕ) (region : List ℕ)
            → ChangesOf a (only_where (is_between low high) (forgotten a))
            memory self.old self.new region region }
        ensures room { SameRoom self.old self.new }
    {
        if memory < self.objects.as_slice().len() as u64 {
            if let Some(object) = &mut self.objects[memory as usize] {
                object.leave(Turn::Forget, low as usize, high as usize);
            }
        }
    }
}

/// Gives the room for the bytes of an object back.
fn clear(object: &mut Option<QueueObject>)
    ensures { object.new ≡ None }
{
    *object = None;
}
