use crate::cases::Case;
use std::alloc::AllocError;
use vk_model::{Cmd, Duplicate, Layout, SubresourceRange};

/// A side of a copy.
#[derive(Clone, Copy, PartialEq, Eq)]
pub enum Side {
    /// What is read.
    Source,
    /// What is written.
    Destination,
}

/// The command, with another layout for the image of one side.
pub fn named_in(command: &Cmd, side: Side, layout: Layout) -> Result<Cmd, AllocError> {
    match (command, side) {
        (
            Cmd::Clear {
                image,
                color,
                ranges,
                ..
            },
            Side::Destination,
        ) => Ok(Cmd::Clear {
            image: *image,
            layout,
            color: *color,
            ranges: ranges.duplicate()?,
        }),
        _ => copied_by_buffer_in(command, side, layout),
    }
}

/// The copy between a buffer and an image, with another layout for the image of one side.
fn copied_by_buffer_in(command: &Cmd, side: Side, layout: Layout) -> Result<Cmd, AllocError> {
    match (command, side) {
        (
            Cmd::CopyIn {
                buffer,
                image,
                regions,
                ..
            },
            Side::Destination,
        ) => Ok(Cmd::CopyIn {
            buffer: *buffer,
            image: *image,
            layout,
            regions: regions.duplicate()?,
        }),
        (
            Cmd::CopyOut {
                image,
                buffer,
                regions,
                ..
            },
            Side::Source,
        ) => Ok(Cmd::CopyOut {
            image: *image,
            layout,
            buffer: *buffer,
            regions: regions.duplicate()?,
        }),
        _ => copied_in(command, side, layout),
    }
}

/// The copy between images, with another layout for one side.
fn copied_in(command: &Cmd, side: Side, layout: Layout) -> Result<Cmd, AllocError> {
    let Cmd::CopyImage {
        source,
        source_layout,
        destination,
        destination_layout,
        regions,
    } = command
    else {
        return command.duplicate();
    };
    let (source_layout, destination_layout) = match side {
        Side::Source => (layout, *destination_layout),
        Side::Destination => (*source_layout, layout),
    };
    Ok(Cmd::CopyImage {
        source: *source,
        source_layout,
        destination: *destination,
        destination_layout,
        regions: regions.duplicate()?,
    })
}

/// The image of one side, and the layout that the command names.
pub fn named(command: &Cmd, side: Side) -> Option<(u32, Layout)> {
    match (command, side) {
        (Cmd::Clear { image, layout, .. }, Side::Destination)
        | (Cmd::CopyIn { image, layout, .. }, Side::Destination)
        | (Cmd::CopyOut { image, layout, .. }, Side::Source) => Some((*image, *layout)),
        (
            Cmd::CopyImage {
                source,
                source_layout,
                ..
            },
            Side::Source,
        ) => Some((*source, *source_layout)),
        (
            Cmd::CopyImage {
                destination,
                destination_layout,
                ..
            },
            Side::Destination,
        ) => Some((*destination, *destination_layout)),
        _ => None,
    }
}

/// The subresources of one side that the command names.
pub fn ranges_of(
    case: &Case<'_>,
    command: &Cmd,
    side: Side,
) -> Result<Vec<SubresourceRange>, AllocError> {
    let mut all = Vec::new(case.alloc);
    match (command, side) {
        (Cmd::Clear { ranges, .. }, Side::Destination) => {
            for range in ranges.as_slice() {
                all.push(*range)?;
            }
        }
        (Cmd::CopyIn { regions, .. }, Side::Destination)
        | (Cmd::CopyOut { regions, .. }, Side::Source) => {
            for region in regions.as_slice() {
                all.push(layers_of(region.level, region.first_layer, region.layers))?;
            }
        }
        (Cmd::CopyImage { regions, .. }, Side::Source) => {
            for region in regions.as_slice() {
                let first = region.source_first_layer;
                all.push(layers_of(region.source_level, first, region.layers))?;
            }
        }
        (Cmd::CopyImage { regions, .. }, Side::Destination) => {
            for region in regions.as_slice() {
                let first = region.destination_first_layer;
                all.push(layers_of(region.destination_level, first, region.layers))?;
            }
        }
        _ => {}
    }
    Ok(all)
}

fn layers_of(level: u32, first_layer: u32, layers: u32) -> SubresourceRange {
    SubresourceRange {
        first_level: level,
        levels: 1,
        first_layer,
        layers,
    }
}
