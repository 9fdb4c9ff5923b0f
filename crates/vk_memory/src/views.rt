ghost use Rattle.std.specs.Prelude.{◌≡◌, ◌==◌, if◌then◌else◌, option_map};
ghost use Rattle.vk_memory.specs.MemoryState.{object_at};
ghost use Rattle.vk_memory.specs.Views.{info_of};

use crate::memories::{Memories, Object};

/// What a live memory object is, but for its bytes.
#[derive(Clone, Copy, Debug, PartialEq, Eq)]
pub struct ObjectInfo {
    /// Its memory type, as it was asked for.
    pub memory_type: u32,
    /// In bytes.
    pub size: u64,
    /// Whether the host has mapped the object itself.
    pub mapped: bool,
}

/// What an object is.
fn info_of(object: &Object) -> ObjectInfo
    ensures { result ≡ info_of object.now }
{
    ObjectInfo {
        memory_type: object.memory_type,
        size: object.size,
        mapped: object.mapped,
    }
}

impl Memories {
    /// What the memory object of a number is; none where it was freed or never made.
    pub fn object(&self, number: u64) -> Option<ObjectInfo>
        ensures { result ≡ option_map info_of (object_at self.now number) }
    {
        match self.objects.get(number as usize) {
            Some(Some(object)) => Some(info_of(object)),
            _ => None,
        }
    }

    /// The size of heap 0 or of heap 1, in bytes.
    pub fn heap_bytes(&self, heap: u32) -> u64
        ensures { result ≡ (if heap == 0 then self.now.sizes.heap0 else self.now.sizes.heap1) }
    {
        if heap == 0 {
            self.heap0.size
        } else {
            self.heap1.size
        }
    }
}
