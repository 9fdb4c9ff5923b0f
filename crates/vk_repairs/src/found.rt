use vk_candidates::Edit;
use vk_model::{At, Entry, Rule};

/// Edits of a refused trace, with what they lead to.
#[derive(Drop)]
pub struct Repair {
    /// The edits. They are made from the last to the first.
    pub edits: Vec<Edit>,
    /// The trace that they make of the refused one.
    pub changed: Vec<Entry>,
    /// The first fault of that trace; none where it is accepted.
    pub next: Option<(At, Rule)>,
    /// Whether that trace asks for less than the refused one did, or for other bytes.
    pub weaker: bool,
    /// Whether it has made up data, in the place of data that the refused one lacks.
    pub stands_in: bool,
}
