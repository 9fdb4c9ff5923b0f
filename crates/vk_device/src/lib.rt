//! The device: it runs the entries of a trace on regions of memory, and pieces of commands in any
//! order that the rules allow.
#![tactic(auto)]

mod applied;
mod asking;
mod changes;
mod copies;
mod device;
mod replaying;
mod views;

pub use applied::ApplyError;
pub use asking::pick;
pub use device::Device;
pub use replaying::{Replayed, replay};
pub use vk_offers::Piece;
pub use vk_resources::{Applied, Spot};
