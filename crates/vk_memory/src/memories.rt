ghost use Rattle.std.specs.Prelude.{◌≡◌, ◌<◌, [], ◌∷◌, ◌++◌, length, IfOk, IsOk, OnErr, IsErrOf};

use crate::copying::RegionCopy;
use std::alloc::{AllocError, AllocFailed, Global};
use std::marker::Model;
use thiserror::Error;
use vk_heap::{Budget, HeapFull, Region};
use vk_model::Config;

/// How many memory objects may be live at once, as `maxMemoryAllocationCount` (profile).
const MOST_OBJECTS: usize = 4096;

/// Why a memory object could not be made. Nothing is changed then.
#[derive(Clone, Copy, Debug, Drop, PartialEq, Eq, Error)]
pub enum MemoryError {
    /// The heap would be passed, or the most objects are live (`VK_ERROR_OUT_OF_DEVICE_MEMORY`,
    /// `VK_ERROR_TOO_MANY_OBJECTS`).
    #[error("no room in the heap")]
    NoRoom,
    /// The program's own memory could not grow.
    #[error("no memory")]
    NoMemory,
}

impl From<AllocError> for MemoryError {
    ghost use Rattle.vk_memory.specs.declared.memories.MemoryError.TheVariants.{NoMemory};
    ghost use Rattle.std.specs.Prelude.{◌≡◌};

    ghost from_gives = { λ _ e. e ≡ NoMemory };

    fn from(_refused: AllocError) -> MemoryError {
        MemoryError::NoMemory
    }
}

impl<T: Drop> From<AllocFailed<T>> for MemoryError {
    ghost use Rattle.vk_memory.specs.declared.memories.MemoryError.TheVariants.{NoMemory};
    ghost use Rattle.std.specs.Prelude.{◌≡◌};

    ghost from_gives = { λ _ e. e ≡ NoMemory };

    fn from(_refused: AllocFailed<T>) -> MemoryError {
        MemoryError::NoMemory
    }
}

impl From<HeapFull> for MemoryError {
    ghost use Rattle.vk_memory.specs.declared.memories.MemoryError.TheVariants.{NoRoom};
    ghost use Rattle.std.specs.Prelude.{◌≡◌};

    ghost from_gives = { λ _ e. e ≡ NoRoom };

    fn from(_full: HeapFull) -> MemoryError {
        MemoryError::NoRoom
    }
}

/// An object is mapped already that is to be mapped, or isn't that is to be unmapped (Vulkan, "Host
/// Access to Device Memory Objects"). Nothing is changed.
#[derive(Clone, Copy, Debug, Drop, PartialEq, Eq, Error)]
#[error("the memory object is mapped already, or is not mapped")]
pub struct MapState;

/// A memory object.
#[derive(Drop)]
pub struct Object {
    /// Its memory type, as it was asked for.
    pub memory_type: u32,
    /// In bytes: the length of the region, kept beside it since a region may be lent out.
    pub size: u64,
    /// Whether the host has mapped it.
    pub mapped: bool,
    /// Its bytes.
    pub region: Region,
}

/// The memory objects of a device, each named by its number, within the budgets of two heaps. Type 0
/// lies on heap 0, every other type on heap 1. Numbers rise and are never given again.
#[derive(Drop)]
pub struct Memories {
    alloc: Global,
    pub(crate) heap0: Budget,
    pub(crate) heap1: Budget,
    pub(crate) objects: Vec<Option<Object>>,
    live: usize,
}

impl Model for Memories {
    ghost use Rattle.std.specs.Prelude.{◌≡◌, true, false};
    ghost use Rattle.vk_memory.specs.MemoryState.{MemoryState, sizes_on, live_count};

    ghost Value = { MemoryState };

    ghost view = { λ m. record { sizes = record { heap0 = m.heap0.size; heap1 = m.heap1.size }; objects = m.objects.items } };

    ghost invariant = { λ m. (m.heap0.used ≡ sizes_on true m.objects.items) × (m.heap1.used ≡ sizes_on false m.objects.items)
        × (m.live ≡ live_count m.objects.items) };
}

impl Memories {
    ghost use Rattle.vk_memory.specs.MemoryState.{IsFull, IsLive, fresh, heap_size, on_first, sizes_on, region_of, with_object, with_region, with_mapped, is_mapped, type_of, IsCopied};
    ghost use Rattle.std.specs.Borrow.{Lends, sem};
    ghost use Rattle.vk_memory.specs.contracts.memories.Memories.{the_row};
    ghost use Rattle.vk_heap.specs.contracts.region.Region.{the_row as region_row};
    ghost use Rattle.vk_heap.specs.Region.{splice, piece};
    ghost use Rattle.std.specs.Prelude.{◌==◌, ◌↔◌, ◌≤◌, ◌+◌, IsErr, OnOk, IsTrue, true, false, Some, None};

    /// Heaps of these sizes, without objects. It takes no memory.
    pub fn new(alloc: Global, config: Config) -> Memories
        ensures { result ≡ record { sizes = config; objects = [] } }
    {
        Memories {
            alloc,
            heap0: Budget::new(config.heap0()),
            heap1: Budget::new(config.heap1()),
            objects: Vec::new(alloc),
            live: 0,
        }
    }

    /// The number of the next object that is made.
    pub fn next_number(&self) -> u64
        ensures { result ≡ length self.now.objects }
    {
        self.objects.len() as u64
    }

    /// Whether there is no room for an object of `size` bytes: the heap would be passed, or the most
    /// objects are live.
    pub fn is_full(&self, memory_type: u32, size: u64) -> bool
        ensures { IsTrue result ↔ IsFull self.now memory_type size }
    {
        let heap = self.heap(memory_type);
        self.live >= MOST_OBJECTS || size > heap.size - heap.used
    }

    /// Makes an object of `size` bytes, and answers its number: they count from 0, and rise.
    #[tactic(auto, using(crate::proofs::MemoryStateLemmas::adding))]
    pub fn allocate(&mut self, memory_type: u32, size: u64) -> Result<u64, MemoryError>
        requires { 0 < size }
        ensures ok { IfOk result (λ number. (number ≡ length self.old.objects)
            × (self.new ≡ record self.old { objects = self.old.objects ++ Some (fresh memory_type size) ∷ [] })) }
        ensures room { IsOk result → ¬ IsFull self.old memory_type size }
        ensures full { IsErrOf result MemoryError.NoRoom → IsFull self.old memory_type size }
        ensures reported { IsFull self.old memory_type size → IsErrOf result MemoryError.NoRoom }
        ensures err { OnErr result (self.new ≡ self.old) }
    {
        if self.live >= MOST_OBJECTS {
            return Err(MemoryError::NoRoom);
        }
        let number = self.objects.len();
        let mut heap = self.heap(memory_type);
        heap.take(size)?;
        let region = Region::new(self.alloc, size)?;
        self.objects.push(Some(Object {
            memory_type,
            size,
            mapped: false,
            region,
        }))?;
        self.live += 1;
        if memory_type == 0 {
            self.heap0 = heap;
        } else {
            self.heap1 = heap;
        }
        Ok(number as u64)
    }

    /// The heap of a memory type.
    fn heap(&self, memory_type: u32) -> Budget
        ensures size { result.size ≡ heap_size self.now memory_type }
        ensures used { result.used ≡ sizes_on (on_first memory_type) self.now.objects }
    {
        if memory_type == 0 {
            self.heap0
        } else {
            self.heap1
        }
    }

    /// The memory type of a live object.
    pub fn memory_type(&self, number: u64) -> u32
        requires { IsLive self.now number }
        ensures { result ≡ type_of self.now number }
    {
        let object = &self.objects[number as usize];
        match object {
            Some(object) => object.memory_type,
            None => unreachable!(),
        }
    }

    /// The bytes of a live object.
    pub fn region(&self, number: u64) -> &Region
        requires { IsLive self.now number }
        ensures { result.now ≡ region_of self.now number }
    {
        match &self.objects[number as usize] {
            Some(object) => &object.region,
            None => unreachable!(),
        }
    }

    /// The bytes of a live object, to be written.
    pub fn region_mut(&mut self, number: u64) -> &mut Region
        requires { IsLive self.old number }
        ensures* writes_back { sem 𝓛 (Lends the_row region_row self.entry result (with_region self.old number)) }
        ensures value { result.now ≡ region_of self.old number }
    {
        match &mut self.objects[number as usize] {
            Some(object) => &mut object.region,
            None => unreachable!(),
        }
    }

    /// Maps a live object that is not mapped.
    pub fn map(&mut self, number: u64) -> Result<(), MapState>
        requires { IsLive self.old number }
        ensures ok { OnOk result (self.new ≡ with_mapped self.old number true) }
        ensures state { IsErr result ↔ IsTrue (is_mapped self.old number) }
        ensures err { OnErr result (self.new ≡ self.old) }
    {
        match &mut self.objects[number as usize] {
            Some(object) => {
                if object.mapped {
                    return Err(MapState);
                }
                object.mapped = true;
                Ok(())
            }
            None => unreachable!(),
        }
    }

    /// Unmaps a live object that is mapped.
    pub fn unmap(&mut self, number: u64) -> Result<(), MapState>
        requires { IsLive self.old number }
        ensures ok { OnOk result (self.new ≡ with_mapped self.old number false) }
        ensures state { IsOk result ↔ IsTrue (is_mapped self.old number) }
        ensures err { OnErr result (self.new ≡ self.old) }
    {
        match &mut self.objects[number as usize] {
            Some(object) => {
                if !object.mapped {
                    return Err(MapState);
                }
                object.mapped = false;
                Ok(())
            }
            None => unreachable!(),
        }
    }

    /// Frees a live object, mapped or not. Its heap has the bytes back, and its number is not given
    /// again.
    pub fn free(&mut self, number: u64)
        requires { IsLive self.old number }
        ensures { self.new ≡ with_object self.old number None }
    {
        match self.objects[number as usize].take() {
            Some(object) => {
                self.live -= 1;
                if object.memory_type == 0 {
                    self.heap0.give(object.size);
                } else {
                    self.heap1.give(object.size);
                }
            }
            None => unreachable!(),
        }
    }

    /// Copies `len` bytes of a live object, as they were, from its byte `at` on, to a live object,
    /// from its byte `to_at` on. They may be one object, and the ranges may overlap.
    pub fn copy(&mut self, from: u64, at: u64, to: u64, to_at: u64, len: u64)
        requires source { IsLive self.old from × (at + len ≤ length (region_of self.old from)) }
        requires destination { IsLive self.old to × (to_at + len ≤ length (region_of self.old to)) }
        ensures { self.new ≡ with_region self.old to (splice (region_of self.old to) to_at (piece (region_of self.old from) at len)) }
    {
        if from == to {
            self.region_mut(to).copy_within(at, to_at, len);
            return;
        }
        let taken = self.objects[to as usize].take();
        match (&self.objects[from as usize], taken) {
            (Some(source), Some(mut object)) => {
                source
                    .region
                    .copy_between(at, &mut object.region, to_at, len);
                self.objects[to as usize] = Some(object);
            }
            _ => unreachable!(),
        }
    }

    /// Copies from a live object to a live object, which may be that one, as the copy says.
    pub fn copy_by<C: RegionCopy>(&mut self, from: u64, to: u64, copy: &C)
        requires source { IsLive self.old from }
        requires destination { IsLive self.old to }
        requires within { from ≡ to → C.may_copy_within copy.now (region_of self.old to) }
        requires between { ¬ (from ≡ to) → C.may_copy_between copy.now (region_of self.old from) (region_of self.old to) }
        ensures { IsCopied (C.has_copied copy.now) self.old self.new from to }
    {
        if from == to {
            copy.copy_within(self.region_mut(to));
            return;
        }
        let taken = self.objects[to as usize].take();
        match (&self.objects[from as usize], taken) {
            (Some(source), Some(mut object)) => {
                copy.copy_between(&source.region, &mut object.region);
                self.objects[to as usize] = Some(object);
            }
            _ => unreachable!(),
        }
    }

    /// The bytes that the live objects take of heap 0 or of heap 1.
    pub fn used(&self, heap: u32) -> u64
        ensures { result ≡ sizes_on (heap == 0) self.now.objects }
    {
        if heap == 0 {
            self.heap0.used()
        } else {
            self.heap1.used()
        }
    }
}
