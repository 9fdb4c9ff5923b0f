use crate::layout::Format;
use crate::masks::Usage;

/// Whether a resource belongs to one queue family at a time, as `VkSharingMode`.
#[derive(Clone, Copy, PartialEq, Eq, Debug)]
pub enum Sharing {
    /// One family at a time owns the resource.
    Exclusive,
    /// All families use it, and none owns it.
    Concurrent,
}

/// How the bytes of a resource lie, as `VkImageTiling`; a buffer is linear.
#[derive(Clone, Copy, PartialEq, Eq, Debug)]
pub enum Kind {
    /// Row by row.
    Linear,
    /// Tile by tile.
    Optimal,
}

/// Which algorithm places the allocations of a pool, as `VmaPoolCreateFlags`.
#[derive(Clone, Copy, PartialEq, Eq, Debug)]
pub enum PoolKind {
    /// Two-level segregated fit, which can be defragmented.
    Tlsf,
    /// One allocation after the other: a stack, a ring or a double stack.
    Linear,
}

/// Where a resource gets its memory.
#[derive(Clone, Copy, PartialEq, Eq, Debug)]
pub enum Place {
    /// A memory object of its own.
    Dedicated {
        /// The memory type of the object.
        memory_type: u32,
    },
    /// A block of the pool.
    Pool {
        /// The pool's id.
        pool: u32,
    },
    /// The upper end of the only block of a linear pool.
    PoolUpper {
        /// The pool's id.
        pool: u32,
    },
    /// An offset in bytes in a memory object that the trace made.
    Memory {
        /// The memory object's id.
        memory: u32,
        /// Where in it the resource starts, in bytes.
        offset: u64,
    },
}

/// What a pool is made with, as `VmaPoolCreateInfo`.
#[derive(Clone, Copy, PartialEq, Eq, Debug)]
pub struct PoolInfo {
    /// Which algorithm places its allocations.
    pub kind: PoolKind,
    /// The memory type of its blocks.
    pub memory_type: u32,
    /// The bytes of each block.
    pub block_size: u64,
    /// How many blocks may be live at once.
    pub block_limit: u32,
}

/// What a buffer is made with, as `VkBufferCreateInfo`, and its place.
#[derive(Clone, Copy, PartialEq, Eq, Debug)]
pub struct BufferInfo {
    /// In bytes.
    pub size: u64,
    /// What it may be used for.
    pub usage: Usage,
    /// Whether one queue family at a time owns it.
    pub sharing: Sharing,
    /// Where it gets its memory.
    pub place: Place,
}

/// What an image is made with, as `VkImageCreateInfo`, and its place.
#[derive(Clone, Copy, PartialEq, Eq, Debug)]
pub struct ImageInfo {
    /// The format of a texel.
    pub format: Format,
    /// In texels, of level 0.
    pub width: u32,
    /// In texels, of level 0.
    pub height: u32,
    /// How many mip levels it has.
    pub levels: u32,
    /// How many array layers it has.
    pub layers: u32,
    /// How its texels lie in memory.
    pub tiling: Kind,
    /// What it may be used for.
    pub usage: Usage,
    /// Whether one queue family at a time owns it.
    pub sharing: Sharing,
    /// Where it gets its memory.
    pub place: Place,
}

/// What a memory object is made with, as `VkMemoryAllocateInfo`.
#[derive(Clone, Copy, PartialEq, Eq, Debug)]
pub struct MemoryInfo {
    /// The memory type, 0 to 2.
    pub memory_type: u32,
    /// In bytes.
    pub size: u64,
}

/// What a resource asks of the memory that it is put in, as `VkMemoryRequirements`.
#[derive(Clone, Copy, PartialEq, Eq, Debug)]
pub struct Need {
    /// In bytes.
    pub size: u64,
    /// Its place starts at a multiple of this many bytes.
    pub align: u64,
    /// Bit `t` is set where memory type `t` is allowed.
    pub types: u32,
}

/// A range of bytes of a memory object.
#[derive(Clone, Copy, PartialEq, Eq, Debug)]
pub struct Spot {
    /// The number of the memory object.
    pub memory: u64,
    /// In bytes from the object's start.
    pub offset: u64,
    /// In bytes.
    pub size: u64,
}
