use crate::cases::Case;
use vk_model::{
    Accesses, BufferElement, Dependency, Element, Entry, Families, ImageElement, ImageInfo, Layout,
    Length, Stages, SubresourceRange,
};

/// One scope of a dependency.
#[derive(Clone, Copy)]
pub struct Scope {
    stages: Stages,
    accesses: Accesses,
}

/// What a release waits for.
pub fn written() -> Scope {
    Scope {
        stages: Stages::TRANSFER,
        accesses: Accesses::TRANSFER_WRITE,
    }
}

/// What waits for an acquire.
pub fn used() -> Scope {
    Scope {
        stages: Stages::TRANSFER,
        accesses: Accesses(6144),
    }
}

/// The scope that a half of a transfer leaves out.
pub fn nothing() -> Scope {
    Scope {
        stages: Stages::TRANSFER,
        accesses: Accesses(0),
    }
}

fn between(source: Scope, destination: Scope) -> Dependency {
    Dependency {
        source_stages: source.stages,
        source_accesses: source.accesses,
        destination_stages: destination.stages,
        destination_accesses: destination.accesses,
    }
}

/// All levels and layers of an image.
pub fn all_of(info: &ImageInfo) -> SubresourceRange {
    SubresourceRange {
        first_level: 0,
        levels: info.levels,
        first_layer: 0,
        layers: info.layers,
    }
}

/// An element with other families.
pub fn with_families(element: Element, families: Families) -> Element {
    match element {
        Element::Memory(dependency) => Element::Memory(dependency),
        Element::Buffer(range) => Element::Buffer(BufferElement { families, ..range }),
        Element::Image(range) => Element::Image(ImageElement { families, ..range }),
    }
}

/// The other half of a transfer, with these scopes.
pub fn half(element: &Element, source: Scope, destination: Scope) -> Option<Element> {
    let dependency = between(source, destination);
    match element {
        Element::Memory(_) => None,
        Element::Buffer(range) => Some(Element::Buffer(BufferElement {
            dependency,
            ..*range
        })),
        Element::Image(range) => Some(Element::Image(ImageElement {
            dependency,
            ..*range
        })),
    }
}

/// One half of a transfer of a whole resource that keeps its layouts.
pub fn whole_half(
    case: &Case<'_>,
    id: u32,
    families: Families,
    source: Scope,
    destination: Scope,
) -> Option<Element> {
    let dependency = between(source, destination);
    match case.creator(id) {
        Some((_, Entry::Buffer { .. })) => Some(Element::Buffer(BufferElement {
            dependency,
            families,
            buffer: id,
            offset: 0,
            size: Length::Whole,
        })),
        Some((_, Entry::Image { info, .. })) => Some(Element::Image(ImageElement {
            dependency,
            families,
            image: id,
            old_layout: Layout::GENERAL,
            new_layout: Layout::GENERAL,
            range: all_of(info),
        })),
        _ => None,
    }
}
