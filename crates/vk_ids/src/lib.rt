//! One value for some ids.
//!
//! A trace mostly numbers its objects from 0 or 1 on. Those values lie in a list, by their ids, and any
//! others in a tree: an id is looked up at once where ids are dense, and takes no memory for the ids that
//! lie between where they aren't.
#![tactic(auto)]

mod map;

pub use map::IdMap;
