/// How much of a pool's memory is in use, as `VmaStatistics` and `VmaDetailedStatistics`.
#[derive(Clone, Copy, PartialEq, Eq, Debug)]
pub struct Statistics {
    /// How many blocks the pool has.
    pub blocks: usize,
    /// How many ranges of them are taken.
    pub allocations: usize,
    /// The bytes of these ranges.
    pub used: u64,
    /// The bytes of all blocks.
    pub held: u64,
    /// The bytes of the longest free range; 0 where there is none.
    pub largest_free: u64,
}
