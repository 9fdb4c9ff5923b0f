//! Repairs of a refused trace: edits after which it is accepted, or its first fault comes later.
#![tactic(auto)]

mod counting;
mod found;
mod judging;
mod parts;
mod repairs;
mod seeking;

pub use found::Repair;
pub use repairs::repair;
