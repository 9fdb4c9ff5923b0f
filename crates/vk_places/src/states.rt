use vk_model::{Kind, PoolInfo, Statistics};

/// How much of a heap is in use.
#[derive(Clone, Copy, Debug, PartialEq, Eq)]
pub struct HeapUse {
    /// Its size in bytes.
    pub size: u64,
    /// The bytes of the live memory objects on it.
    pub used: u64,
}

/// Whose a memory object is.
#[derive(Clone, Copy, Debug, PartialEq, Eq)]
pub enum Owner {
    /// An id's: it is one that the trace made, or that of a resource with one of its own.
    Id(u32),
    /// A block of a pool.
    Block {
        /// The id of the pool.
        pool: u32,
        /// The number of the block there.
        block: u64,
    },
}

/// A live memory object.
#[derive(Clone, Copy, Debug, PartialEq, Eq)]
pub struct LiveObject {
    /// Its number: numbers count from 0, and none is given again.
    pub number: u64,
    /// Its memory type.
    pub memory_type: u32,
    /// Its size in bytes.
    pub size: u64,
    /// Whether the host has mapped it, or something that lies in it.
    pub mapped: bool,
    /// Whose it is.
    pub owner: Option<Owner>,
}

/// How a range is taken.
#[derive(Clone, Copy, Debug, PartialEq, Eq)]
pub enum Hold {
    /// Its resource lies there.
    Lies,
    /// Its resource lies there, and moves elsewhere in the open pass.
    Moves,
    /// The open pass has reserved it for its resource, which lies elsewhere.
    Reserved,
}

/// A range that is taken in a block of a pool.
#[derive(Clone, Copy, Debug, PartialEq, Eq)]
pub struct Taken {
    /// The number of the pool among all that were made.
    pub pool: u64,
    /// The number of the block in the pool.
    pub block: u64,
    /// Where the range starts in the block, in bytes.
    pub offset: u64,
    /// Its bytes.
    pub size: u64,
    /// How the bytes of its resource lie.
    pub kind: Kind,
    /// The id of the resource.
    pub id: u32,
    /// How it is taken.
    pub hold: Hold,
}

/// A block of a live pool.
#[derive(Debug, Drop)]
pub struct LiveBlock {
    /// Its number in the pool: numbers count from 0, and none is given again.
    pub number: u64,
    /// The number of the memory object that it is.
    pub object: u64,
    /// What is taken of it, by rising offset.
    pub taken: Vec<Taken>,
}

/// A live pool.
#[derive(Debug, Drop)]
pub struct LivePool {
    /// Its id.
    pub id: u32,
    /// What it was made with.
    pub info: PoolInfo,
    /// How much of its memory is in use.
    pub statistics: Statistics,
    /// Its blocks, the oldest first.
    pub blocks: Vec<LiveBlock>,
}

/// A live buffer or image.
#[derive(Clone, Copy, Debug, PartialEq, Eq)]
pub struct LiveResource {
    /// Its id.
    pub id: u32,
    /// How its texels lie, of an image; none of a buffer.
    pub tiling: Option<Kind>,
    /// The number of the memory object that it lies in.
    pub object: u64,
    /// Where it starts there, in bytes.
    pub offset: u64,
    /// Its bytes: those that were asked for of a buffer, those that it asks for of an image.
    pub size: u64,
}

/// Where everything lies after an entry.
#[derive(Debug, Drop)]
pub struct State {
    /// The number of the entry.
    pub entry: usize,
    /// Heap 0, device memory.
    pub heap0: HeapUse,
    /// Heap 1, host memory.
    pub heap1: HeapUse,
    /// The live memory objects, by their numbers.
    pub objects: Vec<LiveObject>,
    /// The live pools, by their ids.
    pub pools: Vec<LivePool>,
    /// The live buffers and images, by their ids.
    pub resources: Vec<LiveResource>,
    /// The id of the defragmentation whose pass is open; none where no pass is.
    pub opened: Option<u32>,
}
