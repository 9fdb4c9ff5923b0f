ghost use Rattle.std.specs.Prelude.{◌≡◌, ℕ, ◌<◌, ◌≤◌, IfOk, OnOk, None, IsSomeAnd};
ghost use Rattle.vk_model.specs.Trace.Point.{Past};
ghost use Rattle.vk_model.specs.Memory.Suballocation.{IsRequest};
ghost use Rattle.vk_model.specs.declared.entry.Entry.TheVariants as entry;

use crate::applied::Applied;
use crate::resources::{Placed, Resources};
use std::alloc::AllocError;
use vk_image_tiles::Shape;
use vk_model::{BufferInfo, Entry, ImageInfo, Kind, Place, texels_inside};
use vma_pools::Asked;

/// Buffers are rounded up to this many bytes, and begin at a multiple of it (profile).
const BUFFER_UNIT: u64 = 16;

/// More bytes than a memory object has.
const WHOLE_OBJECT: u64 = 1 << 63;

impl Resources {
    ghost use Rattle.vk_resources.specs.Held.{placed, shape_of, object_of, IsConsistent};
    ghost use Rattle.vk_resources.specs.Rest.{KeepsRest, is_changed_by};
    ghost use Rattle.vk_resources.specs.Matches.{Stands};
    ghost use Rattle.vk_resources.specs.Allocating.{NoRoomIsExact, Allots};
    ghost use Rattle.vk_resources.specs.Fits.{FitsEntry};
    ghost use Rattle.vk_resources.specs.Counted.{Counts};
    ghost use Rattle.vk_resources.specs.Passes.{HasSpared, KeepsPassing, KeepsSpared};
    ghost use Rattle.vk_resources.specs.PassSteps.{KeepsSparedCopies};
    ghost use Rattle.vk_resources.specs.Done.{DoneBy, EntryReady};
    ghost use Rattle.vk_resources.specs.Inner.Steps.{KeepsObjects, IsMaking, MadeOr, ResourceMade, MemoryMade, ShapeReady, PutReady, Puts, FoundOr, SharedMade, BindReady, Binds, IsEmpty, Ends};
    ghost use Rattle.vk_backing.specs.Backed.{pool_by, allocation_of, IsStill};
    ghost use Rattle.vk_backing.specs.Steps.{Grows};

    /// Makes a memory object for an id, and answers its number; none where there is no room.
    fn allocate(&mut self, id: u32, memory_type: u32, size: u64) -> Result<Option<u64>, AllocError>
        requires absent { object_of self.old id ≡ None }
        requires apart { allocation_of self.old.backed id ≡ None }
        requires some { 0 < size }
        ensures made { IfOk result (λ o. MadeOr o self.old self.new id memory_type size) }
        ensures consistent { IsConsistent self.old }
    {
        self.backing.own(&mut self.memories, id, memory_type, size)
    }

    /// Makes a memory object.
    fn make_memory(&mut self, id: u32, memory_type: u32, size: u64) -> Result<Applied, AllocError>
        requires absent { object_of self.old id ≡ None }
        requires apart { allocation_of self.old.backed id ≡ None }
        requires some { 0 < size }
        ensures made { IfOk result (λ a. MemoryMade a self.old self.new id memory_type size) }
        ensures consistent { IsConsistent self.old }
    {
        match self.allocate(id, memory_type, size)? {
            Some(_) => Ok(Applied::Done),
            None => Ok(Applied::NoRoom),
        }
    }

    /// Puts a new resource somewhere, an image with its shape.
    fn put(&mut self, id: u32, placed: Placed, shape: Option<Shape>) -> Result<(), AllocError>
        // What the type's invariant says may be used to show it.
        requires ready { IsConsistent self.old → PutReady self.old id placed shape }
        ensures put { OnOk result (Puts self.old self.new id placed shape) }
        ensures memory { self.new.memory ≡ self.old.memory }
        ensures backed { self.new.backed ≡ self.old.backed }
        ensures cache { self.new.cache ≡ self.old.cache }
        ensures consistent { IsConsistent self.old }
    {
        self.resources.insert(id, placed)?;
        if let Some(shape) = shape {
            self.shapes.insert(id, shape)?;
        }
        Ok(())
    }

    /// Makes a resource of some bytes in a memory object of its own, of the bytes that it asks for.
    fn make_resource(
        &mut self,
        id: u32,
        memory_type: u32,
        size: u64,
        asked: Asked,
        shape: Option<Shape>,
    ) -> Result<Applied, AllocError>
        requires absent { object_of self.old id ≡ None }
        requires apart { allocation_of self.old.backed id ≡ None }
        requires unplaced { placed self.old id ≡ None }
        requires unshaped { shape_of self.old id ≡ None }
        requires some { 0 < size }
        requires room { size ≤ asked.size }
        requires request { IsRequest asked.size asked.align }
        requires shaped { (object : ℕ) → ShapeReady shape (record { size = size; object = object; offset = 0 }) }
        ensures made { IfOk result (λ a. ResourceMade a self.old self.new id memory_type size asked.size shape) }
        ensures consistent { IsConsistent self.old }
    {
        match self.dedicate(id, memory_type, asked)? {
            Some(object) => {
                let offset = 0;
                let placed = Placed {
                    size,
                    object,
                    offset,
                };
                self.put(id, placed, shape)?;
                Ok(Applied::Done)
            }
            None => Ok(Applied::NoRoom),
        }
    }

    /// Finds a place in the pool of an id for a resource, and answers where it is; none where there is no
    /// room.
    fn find(
        &mut self,
        id: u32,
        pool: u32,
        asked: Asked,
        upper: bool,
    ) -> Result<Option<vk_model::Spot>, AllocError>
        requires absent { object_of self.old id ≡ None }
        requires apart { allocation_of self.old.backed id ≡ None }
        requires request { IsRequest asked.size asked.align }
        requires fits { IsSomeAnd (pool_by self.old.backed pool) (λ k. asked.size ≤ k.pool.info.block_size) }
        ensures found { IfOk result (λ o. FoundOr o self.old self.new id pool asked upper) }
        ensures grows { Grows self.old.memory self.new.memory }
        ensures consistent { IsConsistent self.old }
    {
        self.backing
            .share(&mut self.memories, id, pool, asked, upper)
    }

    /// Makes a resource of some bytes in the pool of an id.
    fn make_shared(
        &mut self,
        id: u32,
        pool: u32,
        asked: Asked,
        size: u64,
        upper: bool,
        shape: Option<Shape>,
    ) -> Result<Applied, AllocError>
        requires absent { object_of self.old id ≡ None }
        requires apart { allocation_of self.old.backed id ≡ None }
        requires unplaced { placed self.old id ≡ None }
        requires unshaped { shape_of self.old id ≡ None }
        requires some { 0 < size }
        requires room { size ≤ asked.size }
        requires request { IsRequest asked.size asked.align }
        requires fits { IsSomeAnd (pool_by self.old.backed pool) (λ k. asked.size ≤ k.pool.info.block_size) }
        requires shaped { (object offset : ℕ) → ShapeReady shape (record { size = size; object = object; offset = offset }) }
        requires elsewhere { IsEmpty self.old id }
        ensures made { IfOk result (λ a. SharedMade a self.old self.new id pool size asked upper shape) }
        ensures consistent { IsConsistent self.old }
    {
        match self.find(id, pool, asked, upper)? {
            Some(spot) => {
                let placed = Placed {
                    size,
                    object: spot.memory,
                    offset: spot.offset,
                };
                self.put(id, placed, shape)?;
                Ok(Applied::Done)
            }
            None => Ok(Applied::NoRoom),
        }
    }

    /// Binds a new resource at an offset of the memory object that an id has.
    fn bind(
        &mut self,
        id: u32,
        memory: u32,
        offset: u64,
        size: u64,
        shape: Option<Shape>,
    ) -> Result<(), AllocError>
        // What the type's invariant says may be used to show it.
        requires ready { IsConsistent self.old → BindReady self.old memory offset size }
        requires absent { placed self.old id ≡ None }
        requires unshaped { shape_of self.old id ≡ None }
        requires shaped { (object : ℕ) → ShapeReady shape (record { size = size; object = object; offset = offset }) }
        ensures bound { OnOk result (Binds self.old self.new id memory offset size shape) }
        ensures consistent { IsConsistent self.old }
    {
        let Some(object) = self.backing.object(memory) else {
            return Ok(());
        };
        let placed = Placed {
            size,
            object,
            offset,
        };
        self.put(id, placed, shape)
    }

    /// Ends what an id has: its resource, with what the host's cache holds of it, and its memory object
    /// or its place in a pool. A memory object that nothing needs any more is freed, with the room that
    /// the cache has for it.
    fn end(&mut self, id: u32)
        requires empty { IsConsistent self.old → IsEmpty self.old id }
        requires still { IsConsistent self.old → IsStill self.old.backed id }
        ensures ended { Ends self.old self.new id }
        ensures consistent { IsConsistent self.old }
    {
        self.forget(id);
        self.resources.remove(&id);
        self.shapes.remove(&id);
        if let Some(object) = self.backing.release(&mut self.memories, id) {
            self.cache.drop_range(object, 0, WHOLE_OBJECT);
        }
    }

    /// Makes a buffer.
    fn make_buffer(&mut self, id: u32, info: &BufferInfo) -> Result<Applied, AllocError>
        requires ready { EntryReady self.old (entry.Buffer id info.now) }
        ensures done { IfOk result (λ a. (e : ℕ) (past : Past) → Stands past self.old → FitsEntry past (entry.Buffer id info.now) → DoneBy a e (entry.Buffer id info.now) past self.old self.new) }
        ensures rooms { IfOk result (λ a. (past : Past) → FitsEntry past (entry.Buffer id info.now) → NoRoomIsExact a self.old (entry.Buffer id info.now)) }
        ensures allots { IfOk result (λ a. (past : Past) → Stands past self.old → FitsEntry past (entry.Buffer id info.now) → Allots a (entry.Buffer id info.now) self.old self.new) }
        ensures keeps { IfOk result (λ a. KeepsObjects self.old self.new) }
        ensures passing { IfOk result (λ a. KeepsPassing self.old self.new) }
    {
        let asked = Asked {
            size: (info.size + (BUFFER_UNIT - 1)) / BUFFER_UNIT * BUFFER_UNIT,
            align: BUFFER_UNIT,
            kind: Kind::Linear,
        };
        match info.place {
            Place::Dedicated { memory_type } => {
                self.make_resource(id, memory_type, info.size, asked, None)
            }
            Place::Memory { memory, offset } => {
                self.bind(id, memory, offset, info.size, None)?;
                Ok(Applied::Done)
            }
            Place::Pool { pool } => self.make_shared(id, pool, asked, info.size, false, None),
            Place::PoolUpper { pool } => self.make_shared(id, pool, asked, info.size, true, None),
        }
    }

    /// Makes an image.
    fn make_image(&mut self, id: u32, info: &ImageInfo) -> Result<Applied, AllocError>
        requires ready { EntryReady self.old (entry.Image id info.now) }
        ensures done { IfOk result (λ a. (e : ℕ) (past : Past) → Stands past self.old → FitsEntry past (entry.Image id info.now) → DoneBy a e (entry.Image id info.now) past self.old self.new) }
        ensures rooms { IfOk result (λ a. (past : Past) → FitsEntry past (entry.Image id info.now) → NoRoomIsExact a self.old (entry.Image id info.now)) }
        ensures allots { IfOk result (λ a. (past : Past) → Stands past self.old → FitsEntry past (entry.Image id info.now) → Allots a (entry.Image id info.now) self.old self.new) }
        ensures keeps { IfOk result (λ a. KeepsObjects self.old self.new) }
        ensures passing { IfOk result (λ a. KeepsPassing self.old self.new) }
    {
        texels_inside();
        let Ok(shape) = Shape::of(info) else {
            unreachable!()
        };
        let need = shape.requirements();
        let size = need.size;
        let asked = Asked {
            size,
            align: need.align,
            kind: info.tiling,
        };
        match info.place {
            Place::Dedicated { memory_type } => {
                self.make_resource(id, memory_type, size, asked, Some(shape))
            }
            Place::Memory { memory, offset } => {
                self.bind(id, memory, offset, size, Some(shape))?;
                Ok(Applied::Done)
            }
            Place::Pool { pool } => self.make_shared(id, pool, asked, size, false, Some(shape)),
            Place::PoolUpper { pool } => self.make_shared(id, pool, asked, size, true, Some(shape)),
        }
    }

    /// Makes the memory object, the buffer or the image that an entry makes.
    fn make(&mut self, entry: &Entry) -> Result<Applied, AllocError>
        requires ready { EntryReady self.old entry.now }
        requires making { IsMaking entry.now }
        ensures done { IfOk result (λ a. (e : ℕ) (past : Past) → Stands past self.old → FitsEntry past entry.now → DoneBy a e entry.now past self.old self.new) }
        ensures rooms { IfOk result (λ a. (past : Past) → FitsEntry past entry.now → NoRoomIsExact a self.old entry.now) }
        ensures allots { IfOk result (λ a. (past : Past) → Stands past self.old → FitsEntry past entry.now → Allots a entry.now self.old self.new) }
        ensures keeps { IfOk result (λ a. KeepsObjects self.old self.new) }
        ensures passing { IfOk result (λ a. KeepsPassing self.old self.new) }
    {
        match entry {
            Entry::Memory { id, info } => self.make_memory(*id, info.memory_type, info.size),
            Entry::Buffer { id, info } => self.make_buffer(*id, info),
            Entry::Image { id, info } => self.make_image(*id, info),
            _ => unreachable!(),
        }
    }

    /// Does what an entry does to resources. Mappings are counted, and no access asks for them: an entry
    /// that breaks no rule reaches memory only where it is mapped. The only error is want of memory.
    pub fn apply(&mut self, entry: &Entry) -> Result<Applied, AllocError>
        requires ready { EntryReady self.old entry.now }
        requires spared { HasSpared self.old entry.now }
        ensures done { IfOk result (λ a. (e : ℕ) (past : Past) → Stands past self.old → FitsEntry past entry.now → DoneBy a e entry.now past self.old self.new) }
        ensures rooms { IfOk result (λ a. (past : Past) → FitsEntry past entry.now → NoRoomIsExact a self.old entry.now) }
        ensures allots { IfOk result (λ a. (past : Past) → Stands past self.old → FitsEntry past entry.now → Allots a entry.now self.old self.new) }
        ensures counts { OnOk result (Counts entry.now self.old self.new) }
        ensures passing { OnOk result (KeepsSpared entry.now self.old self.new) }
        // Of all memory objects that stay only the bytes that memory gets change.
        ensures rest { OnOk result ((past : Past) → Stands past self.old → FitsEntry past entry.now → KeepsRest self.old self.new (is_changed_by self.old past entry.now)) }
        ensures agree { OnOk result ((past : Past) → Stands past self.old → FitsEntry past entry.now → KeepsSparedCopies entry.now self.old self.new (is_changed_by self.old past entry.now)) }
    {
        let _memories = &self.memories;
        match entry {
            Entry::Memory { .. } | Entry::Buffer { .. } | Entry::Image { .. } => self.make(entry),
            Entry::Pool { id, info } => {
                self.make_pool(*id, *info)?;
                Ok(Applied::Done)
            }
            Entry::DropPool { pool } => {
                self.drop_pool(*pool);
                Ok(Applied::Done)
            }
            Entry::Free { memory } => {
                self.end(*memory);
                Ok(Applied::Done)
            }
            Entry::Destroy { resource } => {
                self.end(*resource);
                Ok(Applied::Done)
            }
            Entry::Write { .. } | Entry::Read { .. } => self.access(entry),
            Entry::Flush { .. } | Entry::Invalidate { .. } => self.flush_or_invalidate(entry),
            Entry::Map { buffer } => {
                self.map(*buffer);
                Ok(Applied::Done)
            }
            Entry::Unmap { buffer } => {
                self.unmap(*buffer);
                Ok(Applied::Done)
            }
            _ => Ok(Applied::Done),
        }
    }
}
