//! Defragmentations of a pool: passes of moves to lower places, copied in parts (VMA,
//! "Defragmentation").
//!
//! A pass chooses its moves and reserves their targets. Until it ends, what moves lies where it lay;
//! its bytes are copied part by part, in any order. At the end the moves are made, but for those of
//! allocations that are ignored or destroyed.
#![tactic(auto)]

mod choosing;
mod cursors;
mod defrag;
mod ending;
mod open;
mod parts;

pub use defrag::{Defrag, Move};
