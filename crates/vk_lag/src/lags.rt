ghost use Rattle.std.specs.Prelude.{◌≡◌, ◌<◌, ◌≤◌, ◌+◌, ℕ, [], if◌then◌else◌, length, slice_index, OnOk, OnErr, Some, None};
ghost use Rattle.vk_lag.specs.Lags.{resource_in, late_at, is_between, caught_up, in_memory, Changes, IsRoomed, IsSame};

use crate::bytes::LateBytes;
use crate::late::{Due, Late, Writer};
use std::alloc::{AllocError, Global};
use std::collections::BTreeMap;
use std::marker::Model;
use vk_heap::Region;

/// Which bytes of resources are late, by the ids of the resources. Contracts see that of each byte of
/// each resource that was added.
#[derive(Drop)]
pub struct Lags {
    alloc: Global,
    resources: BTreeMap<u32, LateBytes>,
}

impl Model for Lags {
    ghost use Rattle.vk_lag.specs.Lags as specs;

    ghost Value = { specs.Lags };

    ghost view = { λ l. l.resources.entries };
}

impl Lags {
    /// No resource. It takes no memory.
    pub fn new(alloc: Global) -> Lags
        ensures { result ≡ [] }
    {
        Lags {
            alloc,
            resources: BTreeMap::new(alloc),
        }
    }

    /// Makes room for every byte of a resource of `size` bytes, of which none is late.
    ///
    /// # Errors
    /// Only want of memory, after which room and late bytes are as they were.
    pub fn add(&mut self, resource: u32, size: u64) -> Result<(), AllocError>
        ensures ok { OnOk result (IsRoomed resource size self.old self.new) }
        ensures err { OnErr result (IsSame self.old self.new) }
    {
        let bytes = LateBytes::new(self.alloc, size as usize)?;
        self.resources.insert(resource, bytes)?;
        Ok(())
    }

    /// Forgets all bytes of a resource, and gives the room for them back.
    pub fn remove(&mut self, resource: u32)
        ensures { IsRoomed resource 0 self.old self.new }
    {
        self.resources.remove(&resource);
    }

    /// Whether a byte is late; none is where the resource was not added, or past its end.
    pub fn late(&self, resource: u32, at: u64) -> Option<Late>
        ensures { result ≡ late_at self.now resource at }
    {
        match self.resources.get(&resource) {
            Some(bytes) => bytes.late(at as usize),
            None => None,
        }
    }

    /// So many bytes from byte `at` on become late, as a command of a queue is about to write them: memory
    /// still has what its region has. Byte `k` of the resource lies at byte `base + k` of the region.
    pub fn write_from(
        &mut self,
        resource: u32,
        at: u64,
        size: u64,
        region: &Region,
        base: u64,
        writer: Writer,
    )
        requires room { at + size ≤ length (resource_in self.old resource) }
        requires within { base + (at + size) ≤ length region.now }
        ensures { Changes resource (λ k byte. if is_between at (at + size) k then Some (record { writer = writer; value = slice_index region.now (base + k) }) else byte) self.old self.new }
    {
        if let Some(bytes) = self.resources.get_mut(&resource) {
            bytes.write_from(at as usize, size as usize, region, base, writer);
        }
    }

    /// Memory catches up with the bytes from byte `low` to before byte `high` that are due.
    pub fn catch_up(&mut self, resource: u32, low: u64, high: u64, due: Due)
        ensures { Changes resource (λ k byte. if is_between low high k then caught_up due byte else byte) self.old self.new }
    {
        if let Some(bytes) = self.resources.get_mut(&resource) {
            bytes.catch_up(low as usize, high as usize, due);
        }
    }

    /// Memory catches up with the bytes of a resource that are due.
    pub fn catch_up_whole(&mut self, resource: u32, due: Due)
        ensures { Changes resource (λ k byte. caught_up due byte) self.old self.new }
    {
        if let Some(bytes) = self.resources.get_mut(&resource) {
            bytes.catch_up_all(due);
        }
    }

    /// Memory catches up with the bytes of all resources that are due.
    pub fn catch_up_all(&mut self, due: Due)
        ensures room { (id : ℕ) → length (resource_in self.new id) ≡ length (resource_in self.old id) }
        ensures bytes { (id k : ℕ) → late_at self.new id k ≡ caught_up due (late_at self.old id k) }
    {
        self.resources.retain(move |_, bytes| {
            bytes.catch_up_all(due);
            true
        });
    }

    /// Puts what memory still has over the newest values of the bytes from byte `at` on.
    pub fn look(&self, resource: u32, at: u64, out: &mut [u8])
        requires { at + length out.old ≤ length (resource_in self.now resource) }
        ensures { (k : ℕ) → k < length out.old → slice_index out.new k ≡ in_memory (slice_index out.old k) (late_at self.now resource (at + k)) }
    {
        if let Some(bytes) = self.resources.get(&resource) {
            bytes.look(at as usize, out);
        }
    }
}
