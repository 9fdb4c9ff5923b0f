//! The resources of a device, the memory that they lie in, and the host's cache in front of it.
#![tactic(auto)]

mod accesses;
mod applied;
mod caching;
mod entries;
mod images;
mod passes;
mod pieces;
mod pools;
mod resources;
mod rows;
mod stretches;
mod views;
mod work;

pub use applied::Applied;
pub use resources::{Placed, Resources, Spot};
pub use stretches::Written;
pub use work::Work;
