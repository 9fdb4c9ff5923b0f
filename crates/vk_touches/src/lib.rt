//! Who touched a byte last, and what an access finds wrong with that.
//!
//! A byte remembers the last node that touched it in each way: the last command that wrote it, the
//! last host entry that did, who read it last, its last layout transition, and what was flushed and
//! invalidated since. In a past without a fault these decide for all earlier nodes, so what is kept
//! of a byte doesn't grow.
#![tactic(auto)]

mod accesses;
mod bytes;
mod early;
mod found;
mod invalidations;
mod map;
mod others;
mod parts;
mod ranges;
mod reads;
mod touches;
mod transitions;
mod writes;

pub use accesses::ResourceAccess;
pub use bytes::Bytes;
pub use found::Conflicts;
pub use invalidations::invalidate_touches;
pub use map::TouchMap;
pub use parts::Part;
pub use ranges::{flush_touches, touch, touch_destinations, touch_sources, touch_transition};
pub use touches::{LastTouches, QueueReads, Spot, Touch};
pub use transitions::TransitionAccess;
