use vk_order::{Frontier, Part};

/// What is known at an element of a barrier that comes next, where it is on a part of memory.
pub struct ElementPart<'a> {
    /// What is known of the nodes so far.
    pub frontier: &'a Frontier,
    /// What is known at the element.
    pub part: Part,
}
