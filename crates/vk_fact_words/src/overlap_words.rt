use std::alloc::{AllocError, Global};
use vk_findings::{Common, Overlap, Part};

/// Which two parts of a point overlap, and what they have in common, in words, as `region 1 writes byte
/// 8 of buffer 3, which region 0 reads`. The only error is want of memory.
pub fn overlap_words(alloc: Global, overlap: Overlap) -> Result<String, AllocError> {
    let mut out = String::new(alloc);
    let one = number_of(overlap.one);
    match overlap.other {
        Part::Written(other) => push_written(&mut out, one, other, overlap.common)?,
        Part::Read(other) => push_read(&mut out, one, other, overlap.common)?,
        Part::Transition(other) => push_transitions(&mut out, one, other, overlap.common)?,
        Part::Listed(_) => push_listed(&mut out, overlap.common)?,
    }
    Ok(out)
}

fn number_of(part: Part) -> usize {
    match part {
        Part::Written(number) => number,
        Part::Read(number) => number,
        Part::Transition(number) => number,
        Part::Listed(number) => number,
    }
}

fn push_written(
    out: &mut String,
    one: usize,
    other: usize,
    common: Common,
) -> Result<(), AllocError> {
    match common {
        Common::Subresource { .. } => write!(out, "ranges {one} and {other} both clear ")?,
        _ => write!(out, "regions {one} and {other} both write ")?,
    }
    push_common(out, common)
}

fn push_read(out: &mut String, one: usize, other: usize, common: Common) -> Result<(), AllocError> {
    write!(out, "region {one} writes ")?;
    push_common(out, common)?;
    write!(out, ", which region {other} reads")
}

fn push_transitions(
    out: &mut String,
    one: usize,
    other: usize,
    common: Common,
) -> Result<(), AllocError> {
    write!(out, "elements {one} and {other} are both transitions of ")?;
    push_common(out, common)
}

fn push_listed(out: &mut String, common: Common) -> Result<(), AllocError> {
    push_common(out, common)?;
    out.push_str(" is listed twice")
}

/// Adds what two parts have in common.
fn push_common(out: &mut String, common: Common) -> Result<(), AllocError> {
    match common {
        Common::Byte { buffer, at } => write!(out, "byte {at} of buffer {buffer}"),
        Common::Texel {
            image,
            level,
            layer,
            x,
            y,
        } => write!(
            out,
            "texel {x}, {y} of level {level}, layer {layer} of image {image}"
        ),
        Common::Subresource {
            image,
            level,
            layer,
        } => write!(out, "level {level}, layer {layer} of image {image}"),
        Common::Id { id } => write!(out, "id {id}"),
    }
}
