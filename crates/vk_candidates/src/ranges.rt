use crate::cases::{Candidates, Case, place_of};
use crate::entries::replaced;
use crate::reaches::{reach_at, reach_of};
use crate::uses::uses_of;
use std::alloc::AllocError;
use vk_model::{
    Action, BufferElement, BufferImageCopy, BufferInfo, Cmd, Element, Entry, ImageElement,
    ImageInfo, Length, Sequence, SubresourceRange,
};

/// Ranges to the end of their buffer, rows without gaps, larger buffers; reads and fills of less.
pub fn range(case: &Case<'_>, found: &mut Candidates) -> Result<(), AllocError> {
    let number = case.refused.entry;
    match case.refused.action {
        Action::Host(Entry::Flush { buffer, offset, .. }) => {
            for offset in [*offset, 0] {
                let flush = Entry::Flush {
                    buffer: *buffer,
                    offset,
                    size: Length::Whole,
                };
                replaced(case, number, flush, found)?;
            }
            Ok(())
        }
        Action::Host(Entry::Invalidate { buffer, offset, .. }) => {
            for offset in [*offset, 0] {
                let invalidate = Entry::Invalidate {
                    buffer: *buffer,
                    offset,
                    size: Length::Whole,
                };
                replaced(case, number, invalidate, found)?;
            }
            Ok(())
        }
        Action::Host(Entry::Read { buffer, offset, .. }) => {
            larger_buffers(case, found)?;
            shorter_read(case, *buffer, *offset, found)
        }
        Action::Run(command) => command_range(case, command, found),
        _ => larger_buffers(case, found),
    }
}

fn shorter_read(
    case: &Case<'_>,
    buffer: u32,
    offset: u64,
    found: &mut Candidates,
) -> Result<(), AllocError> {
    if let Some((_, Entry::Buffer { info, .. })) = case.creator(buffer) {
        let size = info.size.saturating_sub(offset);
        let read = Entry::Read {
            buffer,
            offset,
            size,
        };
        let mut edits = case.edits();
        edits.replace(case.refused.entry, read)?;
        found.add_weaker(edits)?;
    }
    Ok(())
}

fn command_range(case: &Case<'_>, command: &Cmd, found: &mut Candidates) -> Result<(), AllocError> {
    if let Some(shorter) = within(case, command)? {
        let mut edits = case.edits();
        edits.replace_command(place_of(&case.refused), shorter)?;
        found.add(edits)?;
    }
    larger_buffers(case, found)?;
    shorter_fill(case, command, found)
}

/// A command with elements to the end of their buffers, or with rows without gaps.
fn within(case: &Case<'_>, command: &Cmd) -> Result<Option<Cmd>, AllocError> {
    match command {
        Cmd::Barrier { elements } => Ok(Some(Cmd::Barrier {
            elements: ends(case, elements.as_slice())?,
        })),
        Cmd::CopyIn {
            buffer,
            image,
            layout,
            regions,
        } => Ok(Some(Cmd::CopyIn {
            buffer: *buffer,
            image: *image,
            layout: *layout,
            regions: tight(case, regions.as_slice())?,
        })),
        Cmd::CopyOut {
            image,
            layout,
            buffer,
            regions,
        } => Ok(Some(Cmd::CopyOut {
            image: *image,
            layout: *layout,
            buffer: *buffer,
            regions: tight(case, regions.as_slice())?,
        })),
        _ => Ok(None),
    }
}

fn shorter_fill(case: &Case<'_>, command: &Cmd, found: &mut Candidates) -> Result<(), AllocError> {
    if let Cmd::Fill {
        buffer,
        offset,
        word,
        ..
    } = command
    {
        let fill = Cmd::Fill {
            buffer: *buffer,
            offset: *offset,
            size: Length::Whole,
            word: *word,
        };
        let mut edits = case.edits();
        edits.replace_command(place_of(&case.refused), fill)?;
        found.add_weaker(edits)?;
    }
    Ok(())
}

/// Elements on buffers end where their buffer does.
fn ends(case: &Case<'_>, elements: &[Element]) -> Result<Sequence<Element>, AllocError> {
    let mut all = Vec::new(case.alloc);
    for element in elements {
        match element {
            Element::Buffer(range) => all.push(Element::Buffer(BufferElement {
                size: Length::Whole,
                ..*range
            }))?,
            other => all.push(*other)?,
        }
    }
    Ok(Sequence::new(all))
}

/// Regions whose rows follow each other.
fn tight(
    case: &Case<'_>,
    regions: &[BufferImageCopy],
) -> Result<Sequence<BufferImageCopy>, AllocError> {
    let mut all = Vec::new(case.alloc);
    for region in regions {
        all.push(BufferImageCopy {
            row_length: 0,
            image_height: 0,
            ..*region
        })?;
    }
    Ok(Sequence::new(all))
}

/// The buffers that the point uses as large as the trace reaches in them, or as the point itself does.
pub fn larger_buffers(case: &Case<'_>, found: &mut Candidates) -> Result<(), AllocError> {
    let uses = uses_of(case.alloc, case.refused.action)?;
    for is_of_trace in [true, false] {
        let mut edits = case.edits();
        let mut larger = Vec::new(case.alloc);
        for one in uses.as_slice() {
            if let Some((number, Entry::Buffer { id, info })) = case.creator(one.resource) {
                let size = if is_of_trace {
                    reach_of(case, *id)
                } else {
                    reach_at(case, *id)
                };
                if size > info.size && !larger.contains(id) {
                    larger.push(*id)?;
                    let info = BufferInfo { size, ..*info };
                    edits.replace(number, Entry::Buffer { id: *id, info })?;
                }
            }
        }
        found.add(edits)?;
    }
    Ok(())
}

/// The levels and layers of elements and clears that their image has.
pub fn subresource(case: &Case<'_>, found: &mut Candidates) -> Result<(), AllocError> {
    let changed = match case.refused.action {
        Action::Run(Cmd::Barrier { elements }) => {
            let mut all = Vec::new(case.alloc);
            for element in elements.as_slice() {
                all.push(element_within(case, *element))?;
            }
            Cmd::Barrier {
                elements: Sequence::new(all),
            }
        }
        Action::Run(
            Cmd::Clear {
                image,
                layout,
                color,
                ranges,
            },
        ) => {
            let mut all = Vec::new(case.alloc);
            for range in ranges.as_slice() {
                all.push(range_within(case, *image, *range))?;
            }
            Cmd::Clear {
                image: *image,
                layout: *layout,
                color: *color,
                ranges: Sequence::new(all),
            }
        }
        _ => return Ok(()),
    };
    let mut edits = case.edits();
    edits.replace_command(place_of(&case.refused), changed)?;
    found.add(edits)
}

fn element_within(case: &Case<'_>, element: Element) -> Element {
    match element {
        Element::Image(range) => Element::Image(ImageElement {
            range: range_within(case, range.image, range.range),
            ..range
        }),
        other => other,
    }
}

fn range_within(case: &Case<'_>, image: u32, range: SubresourceRange) -> SubresourceRange {
    match case.creator(image) {
        Some((_, Entry::Image { info, .. })) => clamped(info, range),
        _ => range,
    }
}

fn clamped(info: &ImageInfo, range: SubresourceRange) -> SubresourceRange {
    let first_level = range.first_level.min(info.levels.saturating_sub(1));
    let first_layer = range.first_layer.min(info.layers.saturating_sub(1));
    SubresourceRange {
        first_level,
        levels: range
            .levels
            .max(1)
            .min(info.levels.saturating_sub(first_level)),
        first_layer,
        layers: range
            .layers
            .max(1)
            .min(info.layers.saturating_sub(first_layer)),
    }
}
