use crate::elements::push_elements;
use crate::lists::{Written, push_list};
use crate::words::{push_bytes, push_length};
use std::alloc::{AllocError, Global};
use vk_model::{BufferImageCopy, Cmd, Layout, SubresourceRange};

/// A command.
pub fn command_json(alloc: Global, command: &Cmd) -> Result<String, AllocError> {
    let mut out = String::new(alloc);
    command.push_json(&mut out)?;
    Ok(out)
}

impl Written for Cmd {
    fn push_json(&self, out: &mut String) -> Result<(), AllocError> {
        match self {
            Cmd::Fill {
                buffer,
                offset,
                size,
                word,
            } => {
                write!(out, "[\"fill\",{buffer},{offset},")?;
                push_length(out, *size)?;
                write!(out, ",{word}]")
            }
            Cmd::Update {
                buffer,
                offset,
                bytes,
            } => {
                write!(out, "[\"update\",{buffer},{offset},")?;
                push_bytes(out, bytes.as_slice())?;
                out.push_str("]")
            }
            Cmd::Copy {
                source,
                destination,
                regions,
            } => {
                write!(out, "[\"copy\",{source},{destination},")?;
                push_last(out, regions.as_slice())
            }
            Cmd::Barrier { .. } | Cmd::Set { .. } | Cmd::Await { .. } => {
                push_of_elements(out, self)
            }
            _ => push_of_images(out, self),
        }
    }
}

/// Adds a command that has elements; of another one nothing.
fn push_of_elements(out: &mut String, command: &Cmd) -> Result<(), AllocError> {
    match command {
        Cmd::Barrier { elements } => {
            out.push_str("[\"barrier\",")?;
            push_elements(out, elements.as_slice())?;
            out.push_str("]")
        }
        Cmd::Set { event, elements } => {
            write!(out, "[\"set\",{event},")?;
            push_last(out, elements.as_slice())
        }
        Cmd::Await { event, elements } => {
            write!(out, "[\"await\",{event},")?;
            push_last(out, elements.as_slice())
        }
        _ => Ok(()),
    }
}

/// Adds a command that names images; of another one nothing.
fn push_of_images(out: &mut String, command: &Cmd) -> Result<(), AllocError> {
    match command {
        Cmd::Clear {
            image,
            layout,
            color,
            ranges,
        } => push_clear(out, *image, *layout, *color, ranges.as_slice()),
        Cmd::CopyIn {
            buffer,
            image,
            layout,
            regions,
        } => push_copy_in(out, *buffer, *image, *layout, regions.as_slice()),
        Cmd::CopyOut {
            image,
            layout,
            buffer,
            regions,
        } => push_copy_out(out, *image, *layout, *buffer, regions.as_slice()),
        Cmd::CopyImage {
            source,
            source_layout,
            destination,
            destination_layout,
            regions,
        } => {
            let from = source_layout.code();
            let to = destination_layout.code();
            write!(out, "[\"copy_image\",{source},{from},{destination},{to},")?;
            push_last(out, regions.as_slice())
        }
        _ => Ok(()),
    }
}

fn push_clear(
    out: &mut String,
    image: u32,
    layout: Layout,
    color: [u32; 4],
    ranges: &[SubresourceRange],
) -> Result<(), AllocError> {
    let layout = layout.code();
    let [red, green, blue, alpha] = color;
    write!(
        out,
        "[\"clear\",{image},{layout},[{red},{green},{blue},{alpha}],"
    )?;
    push_last(out, ranges)
}

fn push_copy_in(
    out: &mut String,
    buffer: u32,
    image: u32,
    layout: Layout,
    regions: &[BufferImageCopy],
) -> Result<(), AllocError> {
    let layout = layout.code();
    write!(out, "[\"copy_in\",{buffer},{image},{layout},")?;
    push_last(out, regions)
}

fn push_copy_out(
    out: &mut String,
    image: u32,
    layout: Layout,
    buffer: u32,
    regions: &[BufferImageCopy],
) -> Result<(), AllocError> {
    let layout = layout.code();
    write!(out, "[\"copy_out\",{image},{layout},{buffer},")?;
    push_last(out, regions)
}

/// Adds a list that is the last member of its array.
fn push_last<T: Written>(out: &mut String, items: &[T]) -> Result<(), AllocError> {
    push_list(out, items)?;
    out.push_str("]")
}
