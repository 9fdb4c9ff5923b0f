//! One value for each index of a range, kept as runs.
//!
//! A `RangeMap<T>` has a value for each of the indices `0..len`, as the bytes of a buffer have what
//! is remembered of them. Neighbours of one value are one run, so a map costs nothing for its
//! length, and an operation costs the runs that it touches: a search and a walk from there, and one
//! search for each end of a run that is new, goes, or gets another value. The runs lie in order in
//! chunks of at most 64, so a new one moves those of its chunk, and the list of the chunks where
//! that is full. A search looks first in the chunk that the one before it found, and else halves
//! the list of the chunks; in a chunk it begins where the end would be if all of them lay evenly,
//! and in the last one it halves. An end near one that was found is looked for there first, and two
//! new ends within one run take one search, where their chunk has room for both. An end has 32
//! bits.
//!
//! ```text
//! let mut map = RangeMap::new(alloc, 10, 0)?;     // 0 0 0 0 0 0 0 0 0 0
//! map.assign(2, 5, 7)?;                           // 0 0 7 7 7 0 0 0 0 0
//! map.update(4, 6, |value| Ok(*value + 1))?;      // 0 0 7 7 8 1 0 0 0 0
//! map.find(0, 10, |value| *value > 7)             // Some(4)
//! map.overlapping(3, 6)                           // 3..4 has 7, 4..5 has 8, 5..6 has 1
//! ```
//!
//! Contracts see a map as the list of its values, one for each index. Ranges are half open,
//! `low..high` with `low <= high <= len`. The only error of the map itself is want of memory, after
//! which it is as it was; a map of 2^32 indices or more is refused by it too. What a value must
//! offer is `RangeValue`: a copy that is the value, and a comparison that keeps values apart.
#![tactic(auto)]

mod after;
mod changes;
mod chunk;
mod chunks;
mod edges;
mod map;
mod plan;
mod planning;
mod rewrites;
mod runs;
mod sorted;
mod value;

pub use map::RangeMap;
pub use runs::{Overlapping, Run};
pub use value::RangeValue;
