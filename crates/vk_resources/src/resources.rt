ghost use Rattle.std.specs.Prelude.{◌≡◌, ℕ, ◌+◌, ◌≤◌, [], List, Option, Some, IfSome, IsSome, length, option_map};
ghost use Rattle.vk_memory.specs.MemoryState.{IsLive, region_of};
ghost use Rattle.vk_heap.specs.Region.{piece};

use std::alloc::Global;
use std::collections::BTreeMap;
use std::marker::Model;
use vk_backing::Backing;
use vk_image_tiles::Shape;
use vk_map_cache::HostCache;
use vk_memory::Memories;
use vk_model::Config;

/// Where a resource lies in memory.
#[derive(Clone, Copy, Debug, PartialEq, Eq)]
pub struct Spot {
    /// The number of the memory object.
    pub memory: u64,
    /// Where it begins there, in bytes.
    pub offset: u64,
    /// Its size in bytes: that of a buffer as it was asked for, of an image what it asks for.
    pub size: u64,
}

/// Where a buffer or an image lies.
#[derive(Clone, Copy)]
pub struct Placed {
    /// Its size in bytes: that of a buffer as it was asked for, of an image what it asks for.
    pub size: u64,
    /// The number of the memory object.
    pub object: u64,
    /// Where it begins there, in bytes.
    pub offset: u64,
}

/// The type of memory that the host reaches through a cache that isn't coherent (profile).
const CACHED_TYPE: u32 = 2;

/// Buffers and images, the memory that they lie in, and the host's cache in front of it.
#[derive(Drop)]
pub struct Resources {
    pub(crate) alloc: Global,
    pub(crate) memories: Memories,
    /// What backs ids with memory objects, their own or those of pools.
    pub(crate) backing: Backing,
    /// Where each buffer and each image lies.
    pub(crate) resources: BTreeMap<u32, Placed>,
    /// Where the texels of each image lie in it.
    pub(crate) shapes: BTreeMap<u32, Shape>,
    /// What the host has written there or read, and no queue sees.
    pub(crate) cache: HostCache,
}

impl Model for Resources {
    ghost use Rattle.std.specs.Prelude.{ℕ, List};
    ghost use Rattle.vk_resources.specs.Held.{Held, IsApart, IsCaching, AreShaped};

    ghost Value = { Held };

    ghost view = { λ r. record { memory = r.memories; backed = r.backing; resources = r.resources.entries; shapes = r.shapes.entries; cache = r.cache } };

    ghost invariant = { λ r. IsApart r.memories r.backing r.resources.entries
        × IsCaching r.memories r.resources.entries r.cache
        × AreShaped r.resources.entries r.shapes.entries };
}

impl Resources {
    ghost use Rattle.vk_resources.specs.Held.{placed, flat, spot_of, IsConsistent, IsSpotIn};
    ghost use Rattle.vk_resources.specs.Inner.Steps.{cached_at};

    /// No resources, on heaps of these sizes. It takes no memory.
    pub fn new(alloc: Global, config: Config) -> Resources
        ensures memory { result.memory ≡ record { sizes = config; objects = [] } }
        ensures backed { result.backed ≡ record { owned = []; pools = record { pools = []; allocations = [] }; numbers = []; allocations = [] } }
        ensures resources { result.resources ≡ [] }
        ensures shapes { result.shapes ≡ [] }
        ensures cache { result.cache ≡ [] }
    {
        Resources {
            alloc,
            memories: Memories::new(alloc, config),
            backing: Backing::new(alloc),
            resources: BTreeMap::new(alloc),
            shapes: BTreeMap::new(alloc),
            cache: HostCache::new(alloc),
        }
    }

    /// What always holds of what is held: each resource lies inside a memory object and shares no byte
    /// with another one, and the host's cache holds bytes of those in cached memory alone.
    pub fn are_resources(&self)
        ensures { IsConsistent self.now }
    {
        let _memories = &self.memories;
    }

    /// Where a resource lies, by its id; none where there is no such resource.
    pub(crate) fn placed(&self, resource: u32) -> Option<Placed>
        ensures { result ≡ placed self.now resource }
    {
        self.resources.get(&resource).copied()
    }

    /// Where a buffer lies, by its id; none where there is no such buffer.
    pub(crate) fn buffer(&self, id: u32) -> Option<Placed>
        ensures { result ≡ flat self.now id }
    {
        match self.shapes.get(&id) {
            Some(_) => None,
            None => self.placed(id),
        }
    }

    /// Where a buffer lies that is there.
    pub(crate) fn there(&self, id: u32) -> Placed
        requires { IsSome (flat self.now id) }
        ensures { flat self.now id ≡ Some result }
    {
        match self.buffer(id) {
            Some(placed) => placed,
            None => unreachable!(),
        }
    }

    /// Where a resource lies that is in cached memory; none where there is no such resource, and where
    /// it is in other memory.
    pub(crate) fn cached(&self, resource: u32) -> Option<Placed>
        ensures { result ≡ cached_at self.now resource }
    {
        let placed = self.placed(resource)?;
        if self.memories.memory_type(placed.object) == CACHED_TYPE {
            Some(placed)
        } else {
            None
        }
    }

    /// Where a resource lies, by its id, inside a live memory object; none where there is no such
    /// resource.
    pub fn spot(&self, resource: u32) -> Option<Spot>
        ensures there { result ≡ option_map spot_of (placed self.now resource) }
        ensures inside { IfSome result (IsSpotIn self.now.memory) }
    {
        match self.resources.get(&resource) {
            Some(placed) => Some(Spot {
                memory: placed.object,
                offset: placed.offset,
                size: placed.size,
            }),
            None => None,
        }
    }

    /// Copies the bytes of a memory object from byte `at` on into `out`.
    pub fn peek(&self, memory: u64, at: u64, out: &mut [u8])
        requires live { IsLive self.now.memory memory }
        requires inside { at + length out.old ≤ length (region_of self.now.memory memory) }
        ensures { out.new ≡ piece (region_of self.now.memory memory) at (length out.old) }
    {
        self.memories.region(memory).read(at, out);
    }
}
