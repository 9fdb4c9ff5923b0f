//! What has happened in a trace, as its rules ask for it.
//!
//! The points of a trace that break no rule are noted one after another in tables: what was made and
//! ended, mapped, bound and defragmented, which semaphores and events were signaled and set, in
//! which layouts images are, and which bytes are defined and were accessed by whom.
#![tactic(auto)]

mod acts;
mod bound;
mod changes;
mod contents;
mod copying;
mod counts;
mod defrags;
mod element_parts;
mod element_spots;
mod elements;
mod endings;
mod events;
mod families;
mod flushes;
mod history;
mod images;
mod last_uses;
mod layouts;
mod mappings;
mod objects;
mod occupants;
mod owners;
mod passes;
mod passing;
mod places;
mod ranges;
mod residents;
mod resource_contents;
mod searches;
mod semaphores;
mod stretches;
mod tables;
mod used;
mod uses;

pub use changes::{Change, change_by};
pub use element_parts::ElementPart;
pub use elements::is_transition;
pub use events::EventSet;
pub use families::family_of;
pub use history::History;
pub use owners::{Owned, Release};
pub use resource_contents::ResourceContents;
pub use semaphores::{Signals, signal_of};
