//! Pools of memory, and the allocations in them and in memory objects of their own.
#![tactic(auto)]

mod allocations;
mod asking;
mod blocks;
mod counted;
mod listing;
mod lower;
mod moving;
mod numbers;
mod pool;
mod pools;
mod settling;
mod views;

pub use allocations::{Allocation, Asked, Home};
pub use pool::PoolPlace;
pub use pools::PoolsOf;
pub use views::BlockObject;
use vma_blocks::AnyBlock;

/// Pools whose blocks are placed by either algorithm.
pub type Pools = PoolsOf<AnyBlock>;
