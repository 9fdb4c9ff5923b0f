//! Which writes of resources have reached memory, for a device that keeps newest bytes in place.
//!
//! A piece of a queue's command writes in place, and memory is behind by its bytes until they are made
//! available (Vulkan, "Execution and Memory Dependencies"). What a piece is about to write is known in
//! stretches (`vk_resources::Written`); which bytes are late, `vk_lag` keeps. Memory catches up as
//! dependencies, waits and signals happen (`vk_events::Event`), and as a queue's cache writes back.
#![tactic(auto)]

mod happening;
mod pieces;
mod ranges;
mod touches;

pub use happening::happen;
pub use pieces::make_late;
pub use touches::write_back;
