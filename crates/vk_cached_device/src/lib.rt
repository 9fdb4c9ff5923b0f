//! A device whose queues each keep a write-back cache.
//!
//! Newest bytes are kept in place, since no piece that may run reads or writes a byte that another queue's
//! cache holds dirty: that is a law of traces without a fault. Beside them it is kept of which bytes memory
//! is behind: those that a queue's command has written, until a dependency, wait or signal makes them
//! available, or the cache writes them back by itself.
//!
//! ```text
//! device.apply(&fill, &mut sched)?;              // a batch with a fill and a signal after it
//! let piece = device.device().nth_offered(0);
//! device.step(piece)?;
//! device.peek(buffer, 0, &mut bytes);            // what memory had, if the fill has more pieces
//! ```
#![tactic(auto)]

mod applying;
mod device;
mod directly;
mod entries;
mod peeking;
mod picking;
mod replays;
mod steps;

pub use device::CachedDevice;
pub use replays::{CachedReplay, replay_through_caches};
pub use steps::Touch;
pub use vk_device::{Applied, ApplyError, Piece};
