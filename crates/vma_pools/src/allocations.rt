use crate::pool::PoolPlace;
use vk_model::Kind;

/// What an allocation asks of the memory that it is put in.
#[derive(Clone, Copy, Debug, PartialEq, Eq)]
pub struct Asked {
    /// Its bytes: a multiple of 16, above 0.
    pub size: u64,
    /// Its place starts at a multiple of this many bytes: 16, 64 or 256.
    pub align: u64,
    /// How the bytes of its resource lie.
    pub kind: Kind,
}

/// Where an allocation lies.
#[derive(Clone, Copy, Debug, PartialEq, Eq)]
pub enum Home {
    /// In a memory object of its own.
    Own {
        /// The number of the object.
        memory: u64,
    },
    /// In a pool.
    Shared {
        /// The number of the pool.
        pool: u64,
        /// The place that it has there.
        place: PoolPlace,
    },
}

/// An allocation, as `VmaAllocation`.
#[derive(Clone, Copy, Debug, PartialEq, Eq)]
pub struct Allocation {
    /// Where it lies.
    pub home: Home,
    /// What it asked.
    pub asked: Asked,
    /// How often it is mapped.
    pub maps: u32,
    /// The place in its pool that is reserved for it.
    pub target: Option<PoolPlace>,
}
