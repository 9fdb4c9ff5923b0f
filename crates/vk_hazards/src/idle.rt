use crate::before::at_of;
use crate::hazards::{Hazard, HazardFact};
use bitflags::Flags;
use vk_model::{
    Accesses, Action, BufferElement, Cmd, Dependency, Element, ImageElement, Length, Point, Stages,
};
use vk_order::Byte;

/// Why a barrier between two accesses of a byte doesn't keep them from being in hazard, though its masks
/// would.
#[derive(Clone, Copy, Debug, PartialEq, Eq)]
pub enum IdleCause {
    /// The element of this index is on the resource, and not on the byte.
    OtherBytes(usize),
    /// One element makes the write available and another one makes it visible: elements of one barrier
    /// don't chain.
    Unchained,
}

/// A barrier between two accesses of a byte that are in hazard.
#[derive(Clone, Copy)]
pub struct IdleBarrier<'a> {
    /// The barrier.
    pub by: Point<'a>,
    /// Why it doesn't serve.
    pub cause: IdleCause,
}

/// The last barrier between two commands of one queue in hazard that would keep them from it if it were on
/// the byte, or if its elements chained.
pub fn idle_barrier<'a>(older: &[Point<'a>], hazard: &HazardFact<'a>) -> Option<IdleBarrier<'a>> {
    let earlier = hazard.earlier.row.point;
    let queue = hazard.later.row.point.queue;
    if earlier.queue != queue || !matches!(earlier.action, Action::Run(_)) {
        return None;
    }
    let first = at_of(&earlier);
    for point in older.iter().rev() {
        if at_of(point) == first {
            return None;
        }
        if point.queue == queue {
            if let Some(cause) = cause_of(point, hazard) {
                return Some(IdleBarrier { by: *point, cause });
            }
        }
    }
    None
}

/// Why a point that is a barrier doesn't serve.
fn cause_of(point: &Point<'_>, hazard: &HazardFact<'_>) -> Option<IdleCause> {
    let Action::Run(Cmd::Barrier { elements }) = point.action else {
        return None;
    };
    for (index, element) in elements.as_slice().iter().enumerate() {
        let dependency = dependency_of(element);
        let serves = is_source(dependency, hazard) && is_destination(dependency, hazard);
        if serves && is_beside(element, hazard.byte) {
            return Some(IdleCause::OtherBytes(index));
        }
    }
    if is_unchained(elements.as_slice(), hazard) {
        Some(IdleCause::Unchained)
    } else {
        None
    }
}

/// Whether one element has what makes a write available, and another one what makes it visible, and none
/// has both.
fn is_unchained(elements: &[Element], hazard: &HazardFact<'_>) -> bool {
    let mut has_source = false;
    let mut has_destination = false;
    for element in elements {
        if covers(element, hazard.byte) {
            let dependency = dependency_of(element);
            let makes_available = is_source(dependency, hazard);
            let makes_visible = is_destination(dependency, hazard);
            if makes_available && makes_visible {
                return false;
            }
            has_source = has_source || makes_available;
            has_destination = has_destination || makes_visible;
        }
    }
    has_source && has_destination
}

fn dependency_of(element: &Element) -> &Dependency {
    match element {
        Element::Memory(dependency) => dependency,
        Element::Buffer(on_buffer) => &on_buffer.dependency,
        Element::Image(on_image) => &on_image.dependency,
    }
}

/// Whether the first scope of a dependency has what the earlier access needs, which is a transfer.
fn is_source(dependency: &Dependency, hazard: &HazardFact<'_>) -> bool {
    let accesses = dependency.source_accesses;
    is_of_transfers(dependency.source_stages)
        && match hazard.hazard {
            Hazard::War => true,
            Hazard::Raw | Hazard::Waw => {
                accesses.intersects(Accesses::TRANSFER_WRITE)
                    || accesses.intersects(Accesses::MEMORY_WRITE)
            }
        }
}

/// Whether the second scope has what the later access needs, which is a transfer.
fn is_destination(dependency: &Dependency, hazard: &HazardFact<'_>) -> bool {
    let accesses = dependency.destination_accesses;
    is_of_transfers(dependency.destination_stages)
        && match hazard.hazard {
            Hazard::War => true,
            Hazard::Raw => {
                accesses.intersects(Accesses::TRANSFER_READ)
                    || accesses.intersects(Accesses::MEMORY_READ)
            }
            Hazard::Waw => {
                accesses.intersects(Accesses::TRANSFER_WRITE)
                    || accesses.intersects(Accesses::MEMORY_WRITE)
            }
        }
}

fn is_of_transfers(stages: Stages) -> bool {
    stages.intersects(Stages::TRANSFER) || stages.intersects(Stages::ALL_COMMANDS)
}

/// Whether an element is on the resource of a byte, and not on the byte.
fn is_beside(element: &Element, byte: Byte) -> bool {
    let is_of_it = match element {
        Element::Memory(_) => false,
        Element::Buffer(on_buffer) => on_buffer.buffer == byte.resource(),
        Element::Image(on_image) => on_image.image == byte.resource(),
    };
    is_of_it && !covers(element, byte)
}

fn covers(element: &Element, byte: Byte) -> bool {
    match (element, byte) {
        (Element::Memory(_), _) => true,
        (Element::Buffer(on_buffer), Byte::Buffer { buffer, at }) => {
            on_buffer.buffer == buffer && has_byte(on_buffer, at)
        }
        (
            Element::Image(on_image),
            Byte::Texel {
                image,
                level,
                layer,
                ..
            },
        ) => on_image.image == image && has_subresource(on_image, level, layer),
        _ => false,
    }
}

fn has_byte(element: &BufferElement, at: u64) -> bool {
    element.offset <= at
        && match element.size {
            Length::Bytes(bytes) => at - element.offset < bytes,
            Length::Whole => true,
        }
}

fn has_subresource(element: &ImageElement, level: u32, layer: u32) -> bool {
    let range = element.range;
    range.first_level <= level
        && level - range.first_level < range.levels
        && range.first_layer <= layer
        && layer - range.first_layer < range.layers
}
