//! What backs the memory objects, resources and pools of a trace, by their ids: memory objects of
//! their own, and places in the blocks of pools.
#![tactic(auto)]

mod backing;
mod passes;
mod views;

pub use backing::{Backing, Own};
pub use passes::{MovingResource, Passes};
