ghost use Rattle.std.specs.Prelude.{◌≡◌, ℕ, ◌+◌, IfOk, OnOk, IsTrue, is_some, false, length, map};
ghost use Rattle.vk_map_cache.specs.Holdings.{given};
ghost use Rattle.vk_model.specs.Basics.{below};
ghost use Rattle.vk_model.specs.World.Bytes.{in_buffer};
ghost use Rattle.vk_model.specs.Run.CachedRuns.{after_host_write};
ghost use Rattle.vk_model.specs.Trace.Point.{Past};
ghost use Rattle.vk_model.specs.Inner.Kinds.{is_access, is_flush};

use crate::applied::Applied;
use crate::resources::Resources;
use std::alloc::AllocError;
use vk_model::{Entry, Sequence};

impl Resources {
    ghost use Rattle.vk_resources.specs.Held.{flat, seen_at};
    ghost use Rattle.vk_resources.specs.Rest.{KeepsRest, is_changed_by};
    ghost use Rattle.vk_resources.specs.Matches.{Stands};
    ghost use Rattle.vk_resources.specs.Allocating.{allotted, NoRoomIsExact, Allots};
    ghost use Rattle.vk_resources.specs.Fits.{FitsEntry};
    ghost use Rattle.vk_resources.specs.Counted.{Counts};
    ghost use Rattle.vk_resources.specs.Done.{DoneBy, EntryReady};
    ghost use Rattle.vk_resources.specs.Inner.Steps.{MayReach, HasChanged, cached_at};

    /// Writes bytes of the host to a buffer that is there.
    fn write(&mut self, id: u32, offset: u64, bytes: &[u8]) -> Result<(), AllocError>
        requires { MayReach (flat self.old id) offset (length bytes.now) }
        ensures { OnOk result (HasChanged self.old self.new id (λ k. after_host_write (is_some (cached_at self.old id)) (given offset bytes.now k))) }
    {
        if self.cached(id).is_some() {
            return self.write_cached(id, offset, bytes);
        }
        self.write_memory(id, offset, bytes);
        Ok(())
    }

    /// Writes bytes of the host to a buffer that is there, as they are to be in memory at once.
    fn write_memory(&mut self, id: u32, offset: u64, bytes: &[u8])
        requires { MayReach (flat self.old id) offset (length bytes.now) }
        ensures { HasChanged self.old self.new id (λ k. after_host_write false (given offset bytes.now k)) }
    {
        if let Some(buffer) = self.buffer(id) {
            let region = self.memories.region_mut(buffer.object);
            // A region's size is a whole number of 64 bits, so the places in it are too.
            let _size = region.size();
            region.write(buffer.offset + offset, bytes);
        }
    }

    /// Reads bytes of a buffer that is there, as the host sees them.
    fn read(&self, id: u32, offset: u64, size: u64) -> Result<Sequence<u8>, AllocError>
        requires { MayReach (flat self.now id) offset size }
        ensures bytes { IfOk result (λ bytes. bytes ≡ map (λ k. seen_at self.now (in_buffer id (offset + k))) (below size)) }
    {
        let mut bytes = vec![in self.alloc; 0u8; size as usize]?;
        self.copy_seen(id, offset, &mut bytes);
        Ok(Sequence::new(bytes))
    }

    /// Writes or reads bytes as an entry of the host does.
    pub(crate) fn access(&mut self, entry: &Entry) -> Result<Applied, AllocError>
        requires ready { EntryReady self.old entry.now }
        requires access { IsTrue (is_access entry.now) }
        ensures done { IfOk result (λ a. (e : ℕ) (past : Past) → Stands past self.old → FitsEntry past entry.now → DoneBy a e entry.now past self.old self.new) }
        ensures rooms { IfOk result (λ a. (past : Past) → FitsEntry past entry.now → NoRoomIsExact a self.old entry.now) }
        ensures allots { IfOk result (λ a. (past : Past) → Stands past self.old → FitsEntry past entry.now → Allots a entry.now self.old self.new) }
        ensures counts { OnOk result (Counts entry.now self.old self.new) }
        ensures allotted { OnOk result (allotted self.new ≡ allotted self.old) }
        ensures rest { OnOk result ((past : Past) → Stands past self.old → FitsEntry past entry.now → KeepsRest self.old self.new (is_changed_by self.old past entry.now)) }
    {
        match entry {
            Entry::Write {
                buffer,
                offset,
                bytes,
            } => {
                self.write(*buffer, *offset, bytes.as_slice())?;
                Ok(Applied::Done)
            }
            Entry::Read {
                buffer,
                offset,
                size,
            } => {
                let bytes = self.read(*buffer, *offset, *size)?;
                Ok(Applied::Bytes(bytes))
            }
            _ => unreachable!(),
        }
    }

    /// Flushes or invalidates bytes as an entry does.
    pub(crate) fn flush_or_invalidate(&mut self, entry: &Entry) -> Result<Applied, AllocError>
        requires ready { EntryReady self.old entry.now }
        requires flush { IsTrue (is_flush entry.now) }
        ensures done { IfOk result (λ a. (e : ℕ) (past : Past) → Stands past self.old → FitsEntry past entry.now → DoneBy a e entry.now past self.old self.new) }
        ensures rooms { IfOk result (λ a. (past : Past) → FitsEntry past entry.now → NoRoomIsExact a self.old entry.now) }
        ensures allots { IfOk result (λ a. (past : Past) → Stands past self.old → FitsEntry past entry.now → Allots a entry.now self.old self.new) }
        ensures counts { OnOk result (Counts entry.now self.old self.new) }
        ensures allotted { OnOk result (allotted self.new ≡ allotted self.old) }
        ensures rest { OnOk result ((past : Past) → Stands past self.old → FitsEntry past entry.now → KeepsRest self.old self.new (is_changed_by self.old past entry.now)) }
    {
        match entry {
            Entry::Flush {
                buffer,
                offset,
                size,
            } => {
                self.flush(*buffer, *offset, *size);
                Ok(Applied::Done)
            }
            Entry::Invalidate {
                buffer,
                offset,
                size,
            } => {
                self.invalidate(*buffer, *offset, *size);
                Ok(Applied::Done)
            }
            _ => unreachable!(),
        }
    }
}
