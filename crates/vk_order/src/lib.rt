//! What comes before what: the laws of order and visibility, and the order of points.
#![tactic(auto)]

mod access;
mod act;
mod acts;
mod adding;
mod awaiting;
mod before;
mod bytes;
mod clocks;
mod commands;
mod counts;
mod frontier;
mod fronts;
mod keyed;
mod laws;
mod lines;
mod names;
mod new_node;
mod owning;
mod parts;
mod places;
mod points;
mod reads;
mod rows;
mod seen;
mod serving;
mod tallies;
mod transitions;
mod units;
mod unseen;
mod visible_prefix;
mod writes;

pub use access::Access;
pub use act::Act;
pub use acts::Row;
pub use bytes::{Byte, ByteAccess};
pub use frontier::Frontier;
pub use laws::{
    commands_follow, commands_seen, counterexamples, elements_are_alone, elements_are_together,
    flushed_seen, host_seen, invalidated_seen, last_write_seen, limited_seen, prefixes,
    seen_through,
};
pub use lines::Line;
pub use new_node::NewNode;
pub use parts::{Part, Spot};
pub use points::Points;
pub use rows::rows_of;
pub use units::Units;
pub use unseen::SeenUntil;
pub use visible_prefix::VisiblePrefix;
pub use writes::{is_acquire, is_release};
