use crate::cases::{Candidates, Case, place_of};
use std::alloc::AllocError;
use vk_image_tiles::{level_height, level_width};
use vk_model::{Action, BufferImageCopy, Cmd, Entry, ImageCopy, ImageInfo, Sequence};

/// A part of a side, a number of levels or of layers.
#[derive(Clone, Copy)]
struct Part {
    first: u32,
    count: u32,
}

/// Copies of images without the regions that have no texel; or cut where the image ends.
pub fn within_images(case: &Case<'_>, found: &mut Candidates) -> Result<(), AllocError> {
    let Action::Run(command) = case.refused.action else {
        return Ok(());
    };
    if let Some(fewer) = without_empty(case, command)? {
        let mut edits = case.edits();
        edits.replace_command(place_of(&case.refused), fewer)?;
        found.add(edits)?;
    }
    if let Some(cut) = cut(case, command)? {
        let mut edits = case.edits();
        edits.replace_command(place_of(&case.refused), cut)?;
        found.add_weaker(edits)?;
    }
    Ok(())
}

/// The command without the regions that have no texel, where it has others.
fn without_empty(case: &Case<'_>, command: &Cmd) -> Result<Option<Cmd>, AllocError> {
    match command {
        Cmd::CopyIn { regions, .. } | Cmd::CopyOut { regions, .. } => {
            let mut all = Vec::new(case.alloc);
            for region in regions.as_slice() {
                if region.width > 0 && region.height > 0 && region.layers > 0 {
                    all.push(*region)?;
                }
            }
            if all.is_empty() {
                return Ok(None);
            }
            Ok(with_regions(command, Sequence::new(all)))
        }
        Cmd::CopyImage { regions, .. } => {
            let mut all = Vec::new(case.alloc);
            for region in regions.as_slice() {
                if region.width > 0 && region.height > 0 && region.layers > 0 {
                    all.push(*region)?;
                }
            }
            if all.is_empty() {
                return Ok(None);
            }
            Ok(with_image_regions(command, Sequence::new(all)))
        }
        _ => Ok(None),
    }
}

/// A copy between a buffer and an image with other regions.
fn with_regions(command: &Cmd, regions: Sequence<BufferImageCopy>) -> Option<Cmd> {
    match command {
        Cmd::CopyIn {
            buffer,
            image,
            layout,
            ..
        } => Some(Cmd::CopyIn {
            buffer: *buffer,
            image: *image,
            layout: *layout,
            regions,
        }),
        Cmd::CopyOut {
            image,
            layout,
            buffer,
            ..
        } => Some(Cmd::CopyOut {
            image: *image,
            layout: *layout,
            buffer: *buffer,
            regions,
        }),
        _ => None,
    }
}

/// A copy between images with other regions.
fn with_image_regions(command: &Cmd, regions: Sequence<ImageCopy>) -> Option<Cmd> {
    match command {
        Cmd::CopyImage {
            source,
            source_layout,
            destination,
            destination_layout,
            ..
        } => Some(Cmd::CopyImage {
            source: *source,
            source_layout: *source_layout,
            destination: *destination,
            destination_layout: *destination_layout,
            regions,
        }),
        _ => None,
    }
}

/// The command with regions that lie in its images.
fn cut(case: &Case<'_>, command: &Cmd) -> Result<Option<Cmd>, AllocError> {
    match command {
        Cmd::CopyIn { image, regions, .. } | Cmd::CopyOut { image, regions, .. } => {
            let Some((_, Entry::Image { info, .. })) = case.creator(*image) else {
                return Ok(None);
            };
            let mut all = Vec::new(case.alloc);
            for region in regions.as_slice() {
                all.push(cut_region(info, region))?;
            }
            Ok(with_regions(command, Sequence::new(all)))
        }
        Cmd::CopyImage {
            source,
            destination,
            regions,
            ..
        } => {
            let Some((_, Entry::Image { info: from, .. })) = case.creator(*source) else {
                return Ok(None);
            };
            let Some((_, Entry::Image { info: to, .. })) = case.creator(*destination) else {
                return Ok(None);
            };
            let mut all = Vec::new(case.alloc);
            for region in regions.as_slice() {
                all.push(cut_image_region(from, to, region))?;
            }
            Ok(with_image_regions(command, Sequence::new(all)))
        }
        _ => Ok(None),
    }
}

/// What there is of a part, or the last item where there is nothing.
fn cut_part(part: Part, end: u32) -> Part {
    let first = part.first.min(end.saturating_sub(1));
    Part {
        first,
        count: part.count.max(1).min(end.saturating_sub(first)),
    }
}

fn cut_region(info: &ImageInfo, region: &BufferImageCopy) -> BufferImageCopy {
    let level = region.level.min(info.levels.saturating_sub(1));
    let layers = cut_part(
        Part {
            first: region.first_layer,
            count: region.layers,
        },
        info.layers,
    );
    let across = cut_part(
        Part {
            first: region.x,
            count: region.width,
        },
        level_width(info, level),
    );
    let down = cut_part(
        Part {
            first: region.y,
            count: region.height,
        },
        level_height(info, level),
    );
    BufferImageCopy {
        level,
        first_layer: layers.first,
        layers: layers.count,
        x: across.first,
        width: across.count,
        y: down.first,
        height: down.count,
        ..*region
    }
}

/// The corner of a region in an image.
#[derive(Clone, Copy)]
struct Corner {
    level: u32,
    layer: u32,
    x: u32,
    y: u32,
}

fn cut_image_region(from: &ImageInfo, to: &ImageInfo, region: &ImageCopy) -> ImageCopy {
    let source = cut_region(
        from,
        &one_side(
            region,
            Corner {
                level: region.source_level,
                layer: region.source_first_layer,
                x: region.source_x,
                y: region.source_y,
            },
        ),
    );
    let destination = cut_region(
        to,
        &one_side(
            region,
            Corner {
                level: region.destination_level,
                layer: region.destination_first_layer,
                x: region.destination_x,
                y: region.destination_y,
            },
        ),
    );
    ImageCopy {
        source_level: source.level,
        source_first_layer: source.first_layer,
        destination_level: destination.level,
        destination_first_layer: destination.first_layer,
        layers: source.layers.min(destination.layers),
        source_x: source.x,
        source_y: source.y,
        destination_x: destination.x,
        destination_y: destination.y,
        width: source.width.min(destination.width),
        height: source.height.min(destination.height),
    }
}

/// One side of a region between images, as if the other were a buffer.
fn one_side(region: &ImageCopy, corner: Corner) -> BufferImageCopy {
    BufferImageCopy {
        buffer_offset: 0,
        row_length: 0,
        image_height: 0,
        level: corner.level,
        first_layer: corner.layer,
        layers: region.layers,
        x: corner.x,
        y: corner.y,
        width: region.width,
        height: region.height,
    }
}
