use crate::cases::{Candidates, Case, family_of, place_of};
use crate::lists::EditList;
use crate::pieces::{Piece, add_pieces, one_layout};
use crate::sides::{Side, named, named_in, ranges_of};
use std::alloc::AllocError;
use vk_model::{
    Accesses, Action, Cmd, Dependency, Duplicate, Element, Families, ImageElement, Layout,
    Sequence, Stages, SubresourceRange,
};

/// The layout that the point names is the current one, or a transition to it comes right before.
pub fn layout(case: &Case<'_>, found: &mut Candidates) -> Result<(), AllocError> {
    let Action::Run(command) = case.refused.action else {
        return Ok(());
    };
    if let Cmd::Barrier { elements } = command {
        return known_layouts(case, elements.as_slice(), found);
    }
    in_current(case, command, found)?;
    widened_transitions(case, command, found)?;
    for is_general in [false, true] {
        after_transitions(case, command, is_general, found)?;
    }
    Ok(())
}

/// Whether a side may be in a layout.
fn is_allowed(side: Side, layout: Layout) -> bool {
    match side {
        Side::Source => layout == Layout::GENERAL || layout == Layout::TRANSFER_SRC_OPTIMAL,
        Side::Destination => layout == Layout::GENERAL || layout == Layout::TRANSFER_DST_OPTIMAL,
    }
}

/// The command, with the current layouts where they are allowed.
fn in_current(case: &Case<'_>, command: &Cmd, found: &mut Candidates) -> Result<(), AllocError> {
    let mut changed = command.duplicate()?;
    for side in [Side::Source, Side::Destination] {
        if let Some((image, _)) = named(command, side) {
            let mut pieces = Vec::new(case.alloc);
            let ranges = ranges_of(case, command, side)?;
            for range in ranges.as_slice() {
                add_pieces(case, image, range, &mut pieces)?;
            }
            match same_layout(pieces.as_slice()) {
                Some(layout) if is_allowed(side, layout) => {
                    changed = named_in(&changed, side, layout)?;
                }
                _ => return Ok(()),
            }
        }
    }
    let mut edits = case.edits();
    edits.replace_command(place_of(&case.refused), changed)?;
    found.add(edits)
}

/// The layout that all pieces are in.
fn same_layout(pieces: &[Piece]) -> Option<Layout> {
    let mut layout = None;
    for piece in pieces {
        match layout {
            Some(other) if other != piece.layout => return None,
            _ => layout = Some(piece.layout),
        }
    }
    layout
}

/// The last transition of each image to the layout that the command names takes in what the command reaches
/// in another layout.
fn widened_transitions(
    case: &Case<'_>,
    command: &Cmd,
    found: &mut Candidates,
) -> Result<(), AllocError> {
    let mut edits = case.edits();
    for side in [Side::Source, Side::Destination] {
        if let Some((image, layout)) = named(command, side) {
            let mut pieces = Vec::new(case.alloc);
            let ranges = ranges_of(case, command, side)?;
            for range in ranges.as_slice() {
                add_pieces(case, image, range, &mut pieces)?;
            }
            if let Some(more) = elsewhere(pieces.as_slice(), layout) {
                widened_transition(case, image, layout, more, &mut edits)?;
            }
        }
    }
    found.add(edits)
}

/// The levels and layers from the first to the last of the pieces that aren't in a layout.
fn elsewhere(pieces: &[Piece], layout: Layout) -> Option<SubresourceRange> {
    let mut found = None;
    for piece in pieces {
        if piece.layout != layout {
            found = match found {
                Some(range) => Some(both(range, piece.range)),
                None => Some(piece.range),
            };
        }
    }
    found
}

/// The last transition of an image to a layout takes in a range more.
fn widened_transition(
    case: &Case<'_>,
    image: u32,
    layout: Layout,
    more: SubresourceRange,
    edits: &mut EditList,
) -> Result<(), AllocError> {
    for point in case.earlier.iter().rev() {
        if let Action::Run(Cmd::Barrier { elements }) = point.action {
            let mut all = Vec::new(case.alloc);
            let mut is_wider = false;
            for element in elements.as_slice() {
                match element {
                    Element::Image(range)
                        if range.image == image
                            && range.new_layout == layout
                            && range.old_layout != layout => {
                        is_wider = true;
                        all.push(Element::Image(ImageElement {
                            range: both(range.range, more),
                            ..*range
                        }))?;
                    }
                    other => all.push(*other)?,
                }
            }
            if is_wider {
                let elements = Sequence::new(all);
                return edits.replace_command(place_of(point), Cmd::Barrier { elements });
            }
        }
    }
    Ok(())
}

/// The levels and layers from the first to the last of two ranges.
fn both(one: SubresourceRange, other: SubresourceRange) -> SubresourceRange {
    let first_level = one.first_level.min(other.first_level);
    let first_layer = one.first_layer.min(other.first_layer);
    let end_level = end(one.first_level, one.levels).max(end(other.first_level, other.levels));
    let end_layer = end(one.first_layer, one.layers).max(end(other.first_layer, other.layers));
    SubresourceRange {
        first_level,
        levels: end_level.saturating_sub(first_level),
        first_layer,
        layers: end_layer.saturating_sub(first_layer),
    }
}

fn end(first: u32, count: u32) -> u32 {
    first.saturating_add(count)
}

/// Transitions right before the command, to layouts that it names from then on.
fn after_transitions(
    case: &Case<'_>,
    command: &Cmd,
    is_general: bool,
    found: &mut Candidates,
) -> Result<(), AllocError> {
    let mut changed = command.duplicate()?;
    let mut elements = Vec::new(case.alloc);
    for side in [Side::Source, Side::Destination] {
        if let Some((image, layout)) = named(command, side) {
            let new = wanted(side, layout, is_general);
            changed = named_in(&changed, side, new)?;
            let mut pieces = Vec::new(case.alloc);
            let ranges = ranges_of(case, command, side)?;
            for range in ranges.as_slice() {
                add_pieces(case, image, range, &mut pieces)?;
            }
            for piece in pieces.as_slice() {
                if piece.layout != new {
                    elements.push(transition(image, *piece, new, side))?;
                }
            }
        }
    }
    let elements = Sequence::new(elements);
    let mut edits = case.edits();
    edits.insert_command(place_of(&case.refused), Cmd::Barrier { elements })?;
    edits.replace_command(place_of(&case.refused), changed)?;
    found.add(edits)
}

/// The layout for a side: the one that is named, where it is allowed.
fn wanted(side: Side, layout: Layout, is_general: bool) -> Layout {
    if is_general {
        return Layout::GENERAL;
    }
    if is_allowed(side, layout) {
        return layout;
    }
    match side {
        Side::Source => Layout::TRANSFER_SRC_OPTIMAL,
        Side::Destination => Layout::TRANSFER_DST_OPTIMAL,
    }
}

fn transition(image: u32, piece: Piece, new_layout: Layout, side: Side) -> Element {
    let accesses = match side {
        Side::Source => Accesses::TRANSFER_READ,
        Side::Destination => Accesses::TRANSFER_WRITE,
    };
    Element::Image(ImageElement {
        dependency: Dependency {
            source_stages: Stages::TRANSFER,
            source_accesses: Accesses::TRANSFER_WRITE,
            destination_stages: Stages::TRANSFER,
            destination_accesses: accesses,
        },
        families: Families {
            source: u32::MAX,
            destination: u32::MAX,
        },
        image,
        old_layout: piece.layout,
        new_layout,
        range: piece.range,
    })
}

/// The transitions of a barrier, between layouts that are known.
fn known_layouts(
    case: &Case<'_>,
    elements: &[Element],
    found: &mut Candidates,
) -> Result<(), AllocError> {
    let mut all = Vec::new(case.alloc);
    for element in elements {
        match element {
            Element::Image(range) if range.old_layout != range.new_layout => {
                all.push(Element::Image(known(case, *range)))?;
            }
            other => all.push(*other)?,
        }
    }
    let elements = Sequence::new(all);
    let mut edits = case.edits();
    edits.replace_command(place_of(&case.refused), Cmd::Barrier { elements })?;
    found.add(edits)
}

fn known(case: &Case<'_>, element: ImageElement) -> ImageElement {
    let mut mended = element;
    if !is_known(mended.new_layout) || mended.new_layout == Layout::UNDEFINED {
        mended.new_layout = Layout::GENERAL;
    }
    if !is_known(mended.old_layout) {
        mended.old_layout = one_layout(case, element.image, &element.range).unwrap_or(
            Layout::UNDEFINED,
        );
    }
    mended
}

fn is_known(layout: Layout) -> bool {
    layout == Layout::UNDEFINED
        || layout == Layout::GENERAL
        || layout == Layout::TRANSFER_SRC_OPTIMAL
        || layout == Layout::TRANSFER_DST_OPTIMAL
}

/// The current layouts as the old ones of the point's transitions, with an element for each; or
/// UNDEFINED, and the contents are lost.
pub fn old_layout(case: &Case<'_>, found: &mut Candidates) -> Result<(), AllocError> {
    let Action::Run(Cmd::Barrier { elements }) = case.refused.action else {
        return Ok(());
    };
    let place = place_of(&case.refused);
    let mut current = Vec::new(case.alloc);
    let mut lost = Vec::new(case.alloc);
    for element in elements.as_slice() {
        match element {
            Element::Image(range) if is_from(range, case.refused.queue) => {
                from_current(case, range, &mut current)?;
                let mut other = *range;
                other.old_layout = Layout::UNDEFINED;
                lost.push(Element::Image(other))?;
            }
            other => {
                current.push(*other)?;
                lost.push(*other)?;
            }
        }
    }
    let elements = Sequence::new(current);
    let mut edits = case.edits();
    edits.replace_command(place, Cmd::Barrier { elements })?;
    found.add(edits)?;
    let elements = Sequence::new(lost);
    let mut edits = case.edits();
    edits.replace_command(place, Cmd::Barrier { elements })?;
    found.add_weaker(edits)
}

/// Whether the old layout of an element has to be the current one.
fn is_from(element: &ImageElement, queue: u32) -> bool {
    let families = element.families;
    let is_acquire = families.source != families.destination && families.source != family_of(queue);
    let is_transition = element.old_layout != element.new_layout;
    is_transition && element.old_layout != Layout::UNDEFINED && !is_acquire
}

/// An element for each layout that its range is in.
fn from_current(
    case: &Case<'_>,
    element: &ImageElement,
    all: &mut Vec<Element>,
) -> Result<(), AllocError> {
    let image = element.image;
    let range = element.range;
    let mut pieces = Vec::new(case.alloc);
    add_pieces(case, image, &range, &mut pieces)?;
    for piece in pieces.as_slice() {
        all.push(from_piece(element, piece))?;
    }
    Ok(())
}

/// An element on a piece, from the layout that it is in.
fn from_piece(element: &ImageElement, piece: &Piece) -> Element {
    Element::Image(ImageElement {
        old_layout: piece.layout,
        range: piece.range,
        ..*element
    })
}
