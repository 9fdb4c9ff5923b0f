use std::alloc::AllocError;
use vk_hazards::at_of;
use vk_model::Point;
use vk_words::push_at;

/// Adds how a point is reported.
pub fn push_point(out: &mut String, point: Point<'_>) -> Result<(), AllocError> {
    push_at(out, at_of(&point))
}

/// Adds a word, and then how a point is reported.
pub fn push_at_point(out: &mut String, word: &str, point: Point<'_>) -> Result<(), AllocError> {
    out.push_str(word)?;
    push_point(out, point)
}
