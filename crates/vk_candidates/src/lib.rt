//! Edits of a trace: what they make of it, and where they move its points; and lists of edits that may
//! repair a refused trace, by the rule that it breaks.
#![tactic(auto)]

mod applying;
mod by_rule;
mod cases;
mod contents;
mod defrags;
mod edits;
mod ending;
mod entries;
mod events;
mod extents;
mod halves;
mod hazards;
mod host_hazards;
mod ids;
mod images;
mod layouts;
mod lists;
mod lives;
mod losses;
mod masks;
mod moving;
mod orders;
mod overlaps;
mod owners;
mod ownership;
mod pass_lists;
mod passes;
mod pieces;
mod places;
mod ranges;
mod reaches;
mod renaming;
mod rows;
mod semaphores;
mod sharing;
mod shortening;
mod sides;
mod sizes;
mod stages;
mod staging;
mod stand_ins;
mod transitions;
mod undefined;
mod uses;
mod waits;

pub use applying::edited;
pub use by_rule::candidates;
pub use cases::{Candidates, Case, Kind, PLAIN, STAND_IN, WEAKER};
pub use edits::{Change, Edit, InBatch, Member};
pub use lists::EditList;
pub use moving::moved;
pub use shortening::{STEPS, copy_of_edits, has_removal, may_go, with_less, without_edit};
