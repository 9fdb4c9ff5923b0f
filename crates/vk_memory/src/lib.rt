//! The memory objects of a device within the budgets of its heaps.
#![tactic(auto)]

mod copying;
mod memories;
mod views;

pub use copying::RegionCopy;
pub use memories::{MapState, Memories, MemoryError};
pub use views::ObjectInfo;
