//! One block of a pool that can be defragmented, by two-level segregated free lists.
//!
//! The ranges of a block, taken and free, are nodes of a list by place; no two free ranges follow
//! one another. Free ranges are also in lists by size: one for each size below 256 bytes, and
//! sixteen for each power of two above. A word for each level says which lists have a range, so the
//! smallest list whose ranges are all long enough is found without a walk.
//!
//! ```text
//! let mut block = Tlsf::new(alloc, 4096)?;
//! let first = block.allocate(1024, 16, Kind::Linear)?;     // 0
//! block.allocate(1024, 16, Kind::Linear)?;                 // 1024
//! block.free(first);
//! block.allocate_below(512, 16, Kind::Linear, 0, 1024)?;   // 0
//! ```
//!
//! Contracts see the ranges that are taken. The lists by size, and the slots that are remembered for
//! bytes, are hints: what they lead to is looked at before it is used, and no contract rests on them.
#![tactic(auto)]

mod changes;
mod lists;
mod near;
mod places;
mod ranges;
mod steps;
mod tlsf;

pub use tlsf::Tlsf;
