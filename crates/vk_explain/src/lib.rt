//! Why a trace is refused, in words; or what an accepted one has, and what Vulkan refuses of it that
//! no rule judges.
#![tactic(auto)]

mod colours;
mod explaining;
mod forms;
mod identifiers;
mod json;
mod listing;
mod mending;
mod mistakes;
mod notes;
mod patching;
mod presentation;
mod repairs;
mod reports;
mod summary;

pub use explaining::{Explanation, Judgment, explained_and_repaired, explanation_of, run};
pub use forms::{Form, Wanted};
pub use mending::repaired_of;
pub use notes::{MOST_NOTES, Note, NoteKind, note_words, notes_of};
pub use presentation::Presentation;
pub use summary::{QueueSummary, Summary, summary_of};
pub use vk_mistakes::{InputPlace, line_and_column, place_of};
