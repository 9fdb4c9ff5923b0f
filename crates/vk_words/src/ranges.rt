use std::alloc::AllocError;
use vk_model::{Length, SubresourceRange};

/// A range of bytes by its first and its last one.
pub fn push_bytes(out: &mut String, offset: u64, size: u64) -> Result<(), AllocError> {
    if size == 0 {
        return write!(out, "0 bytes at {offset}");
    }
    if size == 1 {
        return write!(out, "byte {offset}");
    }
    match offset.checked_add(size - 1) {
        Some(last) => write!(out, "bytes {offset} to {last}"),
        None => write!(out, "{size} bytes from byte {offset} on"),
    }
}

/// A verb, and the bytes of a buffer that it is about.
pub fn push_bytes_of(
    out: &mut String,
    verb: &str,
    offset: u64,
    size: u64,
    buffer: u32,
) -> Result<(), AllocError> {
    push_length_of(out, verb, offset, Length::Bytes(size), buffer)
}

/// A verb, and the bytes of a buffer that it is about, which may go to the end.
pub fn push_length_of(
    out: &mut String,
    verb: &str,
    offset: u64,
    size: Length,
    buffer: u32,
) -> Result<(), AllocError> {
    write!(out, "{verb} ")?;
    push_length(out, offset, size)?;
    write!(out, " of buffer {buffer}")
}

/// A range of bytes that may go to the end.
pub fn push_length(out: &mut String, offset: u64, size: Length) -> Result<(), AllocError> {
    match size {
        Length::Bytes(bytes) => push_bytes(out, offset, bytes),
        Length::Whole => write!(out, "bytes {offset} to the end"),
    }
}

/// So many levels or layers, from the first on.
fn push_some(out: &mut String, what: &str, first: u32, count: u32) -> Result<(), AllocError> {
    if count == 0 {
        return write!(out, "0 {what}s from {first} on");
    }
    if count == 1 {
        return write!(out, "{what} {first}");
    }
    match first.checked_add(count - 1) {
        Some(last) => write!(out, "{what}s {first} to {last}"),
        None => write!(out, "{count} {what}s from {first} on"),
    }
}

/// One level, and its layers.
pub fn push_layers(
    out: &mut String,
    level: u32,
    first_layer: u32,
    layers: u32,
) -> Result<(), AllocError> {
    write!(out, "level {level}, ")?;
    push_some(out, "layer", first_layer, layers)
}

/// Levels and layers of an image.
pub fn push_subresources(out: &mut String, range: SubresourceRange) -> Result<(), AllocError> {
    push_some(out, "level", range.first_level, range.levels)?;
    out.push_str(", ")?;
    push_some(out, "layer", range.first_layer, range.layers)
}

/// That there are more in a list than were named, each one named by the word.
pub fn push_more(
    out: &mut String,
    reported: usize,
    all: usize,
    what: &str,
) -> Result<(), AllocError> {
    let more = all.saturating_sub(reported);
    match more {
        0 => Ok(()),
        1 => write!(out, ", and 1 more {what}"),
        _ => write!(out, ", and {more} more {what}s"),
    }
}
