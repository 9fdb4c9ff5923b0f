//! The memory under a device: regions of bytes, and budgets of bytes.
#![tactic(auto)]

mod budget;
mod region;

pub use budget::{Budget, HeapFull};
pub use region::Region;
