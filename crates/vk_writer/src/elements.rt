use crate::lists::Written;
use crate::words::push_length;
use bitflags::Flags;
use std::alloc::AllocError;
use vk_model::{
    BufferCopy, BufferElement, BufferImageCopy, Dependency, Element, Families, ImageCopy,
    ImageElement, SubresourceRange,
};

impl Written for Dependency {
    fn push_json(&self, out: &mut String) -> Result<(), AllocError> {
        out.push_str("[")?;
        push_scopes(out, self)?;
        out.push_str("]")
    }
}

/// Adds the four masks of a dependency, with commas between.
fn push_scopes(out: &mut String, dependency: &Dependency) -> Result<(), AllocError> {
    let from = dependency.source_stages.bits();
    let written = dependency.source_accesses.bits();
    let to = dependency.destination_stages.bits();
    let read = dependency.destination_accesses.bits();
    write!(out, "{from},{written},{to},{read}")
}

fn push_families(out: &mut String, families: Families) -> Result<(), AllocError> {
    let Families {
        source,
        destination,
    } = families;
    write!(out, ",{source},{destination}")
}

impl Written for BufferElement {
    fn push_json(&self, out: &mut String) -> Result<(), AllocError> {
        out.push_str("[")?;
        push_scopes(out, &self.dependency)?;
        push_families(out, self.families)?;
        let buffer = self.buffer;
        let offset = self.offset;
        write!(out, ",{buffer},{offset},")?;
        push_length(out, self.size)?;
        out.push_str("]")
    }
}

impl Written for ImageElement {
    fn push_json(&self, out: &mut String) -> Result<(), AllocError> {
        out.push_str("[")?;
        push_scopes(out, &self.dependency)?;
        push_families(out, self.families)?;
        let image = self.image;
        let old = self.old_layout.code();
        let new = self.new_layout.code();
        write!(out, ",{image},{old},{new},")?;
        self.range.push_json(out)?;
        out.push_str("]")
    }
}

impl Written for SubresourceRange {
    fn push_json(&self, out: &mut String) -> Result<(), AllocError> {
        let SubresourceRange {
            first_level,
            levels,
            first_layer,
            layers,
        } = *self;
        write!(out, "[{first_level},{levels},{first_layer},{layers}]")
    }
}

impl Written for BufferCopy {
    fn push_json(&self, out: &mut String) -> Result<(), AllocError> {
        let from = self.source_offset;
        let to = self.destination_offset;
        let size = self.size;
        write!(out, "[{from},{to},{size}]")
    }
}

impl Written for BufferImageCopy {
    fn push_json(&self, out: &mut String) -> Result<(), AllocError> {
        let offset = self.buffer_offset;
        let row_length = self.row_length;
        let image_height = self.image_height;
        write!(out, "[{offset},{row_length},{image_height},")?;
        let level = self.level;
        let first_layer = self.first_layer;
        let layers = self.layers;
        write!(out, "{level},{first_layer},{layers},")?;
        let x = self.x;
        let y = self.y;
        let width = self.width;
        let height = self.height;
        write!(out, "{x},{y},{width},{height}]")
    }
}

impl Written for ImageCopy {
    fn push_json(&self, out: &mut String) -> Result<(), AllocError> {
        let from_level = self.source_level;
        let from_layer = self.source_first_layer;
        let to_level = self.destination_level;
        let to_layer = self.destination_first_layer;
        let layers = self.layers;
        write!(
            out,
            "[{from_level},{from_layer},{to_level},{to_layer},{layers},"
        )?;
        let from_x = self.source_x;
        let from_y = self.source_y;
        let to_x = self.destination_x;
        let to_y = self.destination_y;
        let width = self.width;
        let height = self.height;
        write!(out, "{from_x},{from_y},{to_x},{to_y},{width},{height}]")
    }
}

/// A kind of elements of a barrier. A trace has those of each kind in a list of their own.
#[derive(Clone, Copy)]
enum ElementKind {
    Memory,
    Buffer,
    Image,
}

/// Adds the three lists of elements of a barrier.
pub fn push_elements(out: &mut String, elements: &[Element]) -> Result<(), AllocError> {
    push_kind(out, elements, ElementKind::Memory)?;
    out.push_str(",")?;
    push_kind(out, elements, ElementKind::Buffer)?;
    out.push_str(",")?;
    push_kind(out, elements, ElementKind::Image)
}

/// Adds the elements of a kind.
fn push_kind(out: &mut String, elements: &[Element], kind: ElementKind) -> Result<(), AllocError> {
    out.push_str("[")?;
    let mut begun = false;
    for element in elements {
        begun = push_if(out, element, kind, begun)?;
    }
    out.push_str("]")
}

/// Adds an element if it is of the kind, and says whether there is one now.
fn push_if(
    out: &mut String,
    element: &Element,
    kind: ElementKind,
    begun: bool,
) -> Result<bool, AllocError> {
    match (element, kind) {
        (Element::Memory(dependency), ElementKind::Memory) => push_next(out, dependency, begun)?,
        (Element::Buffer(buffer), ElementKind::Buffer) => push_next(out, buffer, begun)?,
        (Element::Image(image), ElementKind::Image) => push_next(out, image, begun)?,
        _ => return Ok(begun),
    }
    Ok(true)
}

/// Adds an item of a list, after a comma where it isn't the first.
fn push_next<T: Written>(out: &mut String, item: &T, begun: bool) -> Result<(), AllocError> {
    if begun {
        out.push_str(",")?;
    }
    item.push_json(out)
}
