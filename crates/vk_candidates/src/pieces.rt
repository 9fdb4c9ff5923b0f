use crate::cases::{Case, family_of};
use std::alloc::AllocError;
use vk_model::{Action, Cmd, Element, ImageElement, Layout, SubresourceRange};

/// Layouts are looked up for at most so many levels or layers.
const MOST: u32 = 32;

/// Layers of a level of an image that are in one layout.
#[derive(Clone, Copy)]
pub struct Piece {
    /// The layout.
    pub layout: Layout,
    /// The layers.
    pub range: SubresourceRange,
}

/// The layout of a subresource before the point.
pub fn layout_at(case: &Case<'_>, image: u32, level: u32, layer: u32) -> Layout {
    let mut layout = Layout::UNDEFINED;
    for point in case.earlier {
        if let Action::Run(Cmd::Barrier { elements }) = point.action {
            for element in elements.as_slice() {
                if let Element::Image(range) = element {
                    let is_there = range.image == image && covers(&range.range, level, layer);
                    if is_there && changes(range, point.queue) {
                        layout = range.new_layout;
                    }
                }
            }
        }
    }
    layout
}

/// Whether an element changes layouts on a queue: the release of a transfer doesn't.
fn changes(element: &ImageElement, queue: u32) -> bool {
    let families = element.families;
    let is_release = families.source != families.destination && families.source == family_of(queue);
    element.old_layout != element.new_layout && !is_release
}

fn covers(range: &SubresourceRange, level: u32, layer: u32) -> bool {
    is_in(range.first_level, range.levels, level) && is_in(range.first_layer, range.layers, layer)
}

fn is_in(first: u32, count: u32, number: u32) -> bool {
    match number.checked_sub(first) {
        Some(after) => after < count,
        None => false,
    }
}

/// The layout of all of a range before the point, where it is one.
pub fn one_layout(case: &Case<'_>, image: u32, range: &SubresourceRange) -> Option<Layout> {
    let first = layout_at(case, image, range.first_level, range.first_layer);
    for level in 0..range.levels.min(MOST) {
        for layer in 0..range.layers.min(MOST) {
            let level = range.first_level.saturating_add(level);
            let layer = range.first_layer.saturating_add(layer);
            if layout_at(case, image, level, layer) != first {
                return None;
            }
        }
    }
    Some(first)
}

/// A range, in pieces that are in one layout each; what some pieces have already is left out.
pub fn add_pieces(
    case: &Case<'_>,
    image: u32,
    range: &SubresourceRange,
    pieces: &mut Vec<Piece>,
) -> Result<(), AllocError> {
    if let Some(layout) = one_layout(case, image, range) {
        if pieces.is_empty() {
            pieces.push(Piece {
                layout,
                range: *range,
            })?;
            return Ok(());
        }
    }
    for level in 0..range.levels.min(MOST) {
        for layer in 0..range.layers.min(MOST) {
            let level = range.first_level.saturating_add(level);
            let layer = range.first_layer.saturating_add(layer);
            if !has_piece(pieces.as_slice(), level, layer) {
                let layout = layout_at(case, image, level, layer);
                add_layer(pieces, layout, level, layer)?;
            }
        }
    }
    Ok(())
}

fn has_piece(pieces: &[Piece], level: u32, layer: u32) -> bool {
    for piece in pieces {
        if covers(&piece.range, level, layer) {
            return true;
        }
    }
    false
}

/// A layer more, in the last piece where it fits there.
fn add_layer(
    pieces: &mut Vec<Piece>,
    layout: Layout,
    level: u32,
    layer: u32,
) -> Result<(), AllocError> {
    if let Some(last) = pieces.as_slice().last() {
        let Piece {
            layout: same,
            range,
        } = *last;
        let next = range.first_layer.saturating_add(range.layers);
        if same == layout && range.levels == 1 && range.first_level == level && next == layer {
            let _ = pieces.pop();
            let layers = range.layers.saturating_add(1);
            pieces.push(Piece {
                layout,
                range: SubresourceRange { layers, ..range },
            })?;
            return Ok(());
        }
    }
    pieces.push(Piece {
        layout,
        range: SubresourceRange {
            first_level: level,
            levels: 1,
            first_layer: layer,
            layers: 1,
        },
    })?;
    Ok(())
}
