use crate::masks::push_mask;
use crate::names::push_layout;
use crate::ranges::{push_length, push_more, push_subresources};
use std::alloc::AllocError;
use vk_model::{BufferElement, Dependency, Element, Families, ImageElement};

/// How many elements of a command are named one by one.
const MOST_ELEMENTS: usize = 4;

/// The two scopes: stages, with accesses in parentheses.
fn push_scopes(out: &mut String, dependency: Dependency) -> Result<(), AllocError> {
    push_mask(out, &dependency.source_stages)?;
    out.push_str(" (")?;
    push_mask(out, &dependency.source_accesses)?;
    out.push_str(") to ")?;
    push_mask(out, &dependency.destination_stages)?;
    out.push_str(" (")?;
    push_mask(out, &dependency.destination_accesses)?;
    out.push_str(")")
}

/// Between which families the resource goes, where they differ.
fn push_families(out: &mut String, families: Families) -> Result<(), AllocError> {
    if families.source == families.destination {
        return Ok(());
    }
    let source = families.source;
    let destination = families.destination;
    write!(out, ", from family {source} to family {destination}")
}

fn push_buffer_element(out: &mut String, element: BufferElement) -> Result<(), AllocError> {
    push_length(out, element.offset, element.size)?;
    let buffer = element.buffer;
    write!(out, " of buffer {buffer}, ")?;
    push_scopes(out, element.dependency)?;
    push_families(out, element.families)
}

fn push_image_element(out: &mut String, element: ImageElement) -> Result<(), AllocError> {
    push_subresources(out, element.range)?;
    let image = element.image;
    write!(out, " of image {image}")?;
    if element.old_layout.code() != element.new_layout.code() {
        out.push_str(" from ")?;
        push_layout(out, element.old_layout)?;
        out.push_str(" to ")?;
        push_layout(out, element.new_layout)?;
    }
    out.push_str(", ")?;
    push_scopes(out, element.dependency)?;
    push_families(out, element.families)
}

fn push_element(out: &mut String, element: &Element) -> Result<(), AllocError> {
    match element {
        Element::Memory(dependency) => {
            out.push_str("all memory, ")?;
            push_scopes(out, *dependency)
        }
        Element::Buffer(element) => push_buffer_element(out, *element),
        Element::Image(element) => push_image_element(out, *element),
    }
}

/// The elements of a barrier, each with its number in the barrier.
pub fn push_elements(out: &mut String, elements: &[Element]) -> Result<(), AllocError> {
    for (number, element) in elements.iter().take(MOST_ELEMENTS).enumerate() {
        write!(out, "; element {number} is on ")?;
        push_element(out, element)?;
    }
    push_more(out, MOST_ELEMENTS, elements.len(), "element")
}

/// The elements of a set or an await, all on memory.
pub fn push_dependencies(out: &mut String, elements: &[Dependency]) -> Result<(), AllocError> {
    for (number, element) in elements.iter().take(MOST_ELEMENTS).enumerate() {
        write!(out, "; element {number} is on all memory, ")?;
        push_scopes(out, *element)?;
    }
    push_more(out, MOST_ELEMENTS, elements.len(), "element")
}
