use crate::counts::push_count;
use crate::elements::{push_dependencies, push_elements};
use crate::masks::push_mask;
use crate::names::push_layout;
use crate::ranges::{
    push_bytes, push_bytes_of, push_layers, push_length_of, push_more, push_subresources,
};
use std::alloc::AllocError;
use vk_model::{
    BufferCopy, BufferImageCopy, Cmd, ImageCopy, Layout, SemaphoreSubmit, SubresourceRange,
};

/// What a command does.
pub fn push_command(out: &mut String, command: &Cmd) -> Result<(), AllocError> {
    match command {
        Cmd::Fill {
            buffer,
            offset,
            size,
            word: _,
        } => push_length_of(out, "writes", *offset, *size, *buffer),
        Cmd::Update {
            buffer,
            offset,
            bytes,
        } => push_bytes_of(out, "writes", *offset, bytes.len() as u64, *buffer),
        Cmd::Copy {
            source,
            destination,
            regions,
        } => push_copy(out, *source, *destination, regions.as_slice()),
        Cmd::Barrier { elements } => {
            let count = elements.len() as u64;
            push_count(out, "is a barrier of ", count, "element", "elements")?;
            push_elements(out, elements.as_slice())
        }
        Cmd::Set { event, elements } => {
            write!(out, "sets event {event}")?;
            push_dependencies(out, elements.as_slice())
        }
        Cmd::Await { event, elements } => {
            write!(out, "awaits event {event}")?;
            push_dependencies(out, elements.as_slice())
        }
        _ => push_of_images(out, command),
    }
}

/// What a command does that names images; of another one nothing.
fn push_of_images(out: &mut String, command: &Cmd) -> Result<(), AllocError> {
    match command {
        Cmd::Clear {
            image,
            layout,
            color: _,
            ranges,
        } => push_clear(out, *image, *layout, ranges.as_slice()),
        Cmd::CopyIn {
            buffer,
            image,
            layout,
            regions,
        } => push_copy_in(out, *buffer, *image, *layout, regions.as_slice()),
        Cmd::CopyOut {
            image,
            layout,
            buffer,
            regions,
        } => push_copy_out(out, *image, *layout, *buffer, regions.as_slice()),
        Cmd::CopyImage {
            source,
            source_layout,
            destination,
            destination_layout,
            regions,
        } => {
            out.push_str("copies ")?;
            push_image_copy(out, regions.as_slice(), *source, *destination)?;
            push_layouts(out, *source_layout, *destination_layout)?;
            push_more(out, 1, regions.len(), "region")
        }
        _ => Ok(()),
    }
}

/// The name of a command in a trace.
pub fn command_name(command: &Cmd) -> &'static str {
    match command {
        Cmd::Fill { .. } => "fill",
        Cmd::Update { .. } => "update",
        Cmd::Copy { .. } => "copy",
        Cmd::Clear { .. } => "clear",
        Cmd::CopyIn { .. } => "copy_in",
        Cmd::CopyOut { .. } => "copy_out",
        Cmd::CopyImage { .. } => "copy_image",
        Cmd::Barrier { .. } => "barrier",
        Cmd::Set { .. } => "set",
        Cmd::Await { .. } => "await",
    }
}

fn push_copy(
    out: &mut String,
    source: u32,
    destination: u32,
    regions: &[BufferCopy],
) -> Result<(), AllocError> {
    let Some(region) = regions.first() else {
        return write!(
            out,
            "copies nothing from buffer {source} to buffer {destination}"
        );
    };
    out.push_str("copies ")?;
    push_bytes(out, region.source_offset, region.size)?;
    write!(out, " of buffer {source} to ")?;
    push_bytes(out, region.destination_offset, region.size)?;
    write!(out, " of buffer {destination}")?;
    push_more(out, 1, regions.len(), "region")
}

fn push_clear(
    out: &mut String,
    image: u32,
    layout: Layout,
    ranges: &[SubresourceRange],
) -> Result<(), AllocError> {
    let Some(range) = ranges.first() else {
        return write!(out, "clears nothing of image {image}");
    };
    out.push_str("clears ")?;
    push_subresources(out, *range)?;
    write!(out, " of image {image} in ")?;
    push_layout(out, layout)?;
    push_more(out, 1, ranges.len(), "range")
}

/// The texels of a region and where they are in an image.
fn push_texels(out: &mut String, region: &BufferImageCopy, image: u32) -> Result<(), AllocError> {
    let width = region.width;
    let height = region.height;
    let x = region.x;
    let y = region.y;
    write!(out, "{width} by {height} texels at ({x}, {y}) of ")?;
    push_layers(out, region.level, region.first_layer, region.layers)?;
    write!(out, " of image {image}")
}

fn push_copy_in(
    out: &mut String,
    buffer: u32,
    image: u32,
    layout: Layout,
    regions: &[BufferImageCopy],
) -> Result<(), AllocError> {
    let Some(region) = regions.first() else {
        return write!(out, "copies nothing from buffer {buffer} to image {image}");
    };
    let offset = region.buffer_offset;
    write!(out, "copies from byte {offset} of buffer {buffer} on to ")?;
    push_texels(out, region, image)?;
    out.push_str(" in ")?;
    push_layout(out, layout)?;
    push_more(out, 1, regions.len(), "region")
}

fn push_copy_out(
    out: &mut String,
    image: u32,
    layout: Layout,
    buffer: u32,
    regions: &[BufferImageCopy],
) -> Result<(), AllocError> {
    let Some(region) = regions.first() else {
        return write!(out, "copies nothing from image {image} to buffer {buffer}");
    };
    out.push_str("copies ")?;
    push_texels(out, region, image)?;
    out.push_str(" in ")?;
    push_layout(out, layout)?;
    let offset = region.buffer_offset;
    write!(out, " to buffer {buffer} from byte {offset} on")?;
    push_more(out, 1, regions.len(), "region")
}

fn push_image_copy(
    out: &mut String,
    regions: &[ImageCopy],
    source: u32,
    destination: u32,
) -> Result<(), AllocError> {
    let Some(region) = regions.first() else {
        return write!(out, "nothing from image {source} to image {destination}");
    };
    let width = region.width;
    let height = region.height;
    write!(out, "{width} by {height} texels from ")?;
    push_corner(out, region.source_x, region.source_y)?;
    push_layers(
        out,
        region.source_level,
        region.source_first_layer,
        region.layers,
    )?;
    write!(out, " of image {source} to ")?;
    push_corner(out, region.destination_x, region.destination_y)?;
    push_layers(
        out,
        region.destination_level,
        region.destination_first_layer,
        region.layers,
    )?;
    write!(out, " of image {destination}")
}

fn push_corner(out: &mut String, x: u32, y: u32) -> Result<(), AllocError> {
    write!(out, "({x}, {y}) of ")
}

/// The layouts of the two images of a copy.
fn push_layouts(out: &mut String, source: Layout, destination: Layout) -> Result<(), AllocError> {
    out.push_str(", from ")?;
    push_layout(out, source)?;
    out.push_str(" to ")?;
    push_layout(out, destination)
}

/// What a wait of a batch waits for.
pub fn push_wait(out: &mut String, wait: &SemaphoreSubmit) -> Result<(), AllocError> {
    let semaphore = wait.semaphore;
    let value = wait.value;
    write!(out, "waits for semaphore {semaphore} at {value}, before ")?;
    push_mask(out, &wait.stages)
}

/// What a signal of a batch signals.
pub fn push_signal(out: &mut String, signal: &SemaphoreSubmit) -> Result<(), AllocError> {
    let semaphore = signal.semaphore;
    let value = signal.value;
    write!(out, "signals semaphore {semaphore} to {value}, after ")?;
    push_mask(out, &signal.stages)
}
