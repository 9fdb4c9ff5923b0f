//! One block of a linear pool of the Vulkan Memory Allocator: a stack, a ring, or stacks from both
//! ends (VMA, "Linear allocation algorithm").
//!
//! ```text
//! let mut block = Linear::new(alloc, 4096, true);
//! block.allocate_lower(2048, 16, Kind::Linear)?;               // 0
//! block.allocate_lower(2048, 16, Kind::Linear)?;               // 2048
//! block.give_back(0);
//! block.allocate_lower(1024, 16, Kind::Linear)?;               // 0: round to the start
//! ```
//!
//! Contracts see a block as the record `Linear` of the definitions: its size, whether it may be a
//! ring, and the ranges of its lower stack, of those that went round, and of its upper stack.
#![tactic(auto)]

mod gaps;
mod linear;
mod list;
mod slots;
mod suballoc;
mod walks;

pub use linear::Linear;
