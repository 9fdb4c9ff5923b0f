use crate::cases::{Case, family_of};
use crate::uses::{has, uses_of};
use std::alloc::AllocError;
use vk_model::{Action, Cmd, Element, Entry, Families, Point, Sharing};

/// What is known of the owner of a resource.
#[derive(Clone, Copy)]
pub struct Owned {
    /// The family that used, released or acquired it last.
    pub family: Option<u32>,
    /// The release that nothing followed.
    pub release: Option<Element>,
    /// The place among the earlier points of the last one that had to do with it.
    pub last: Option<usize>,
}

/// What an element does on a queue with the owner of its resource.
#[derive(Clone, Copy, PartialEq, Eq)]
pub enum Half {
    /// Nothing.
    Neither,
    /// It is the first half of a transfer.
    Release,
    /// It is the second.
    Acquire,
    /// It names families that its queue has no part in.
    Strange,
}

/// What families do on a queue.
pub fn half_of(families: Families, queue: u32) -> Half {
    let family = family_of(queue);
    if families.source == families.destination {
        Half::Neither
    } else if families.source == family {
        Half::Release
    } else if families.destination == family {
        Half::Acquire
    } else {
        Half::Strange
    }
}

/// The resource and the families of an element.
pub fn families_of(element: &Element) -> Option<(u32, Families)> {
    match element {
        Element::Memory(_) => None,
        Element::Buffer(range) => Some((range.buffer, range.families)),
        Element::Image(range) => Some((range.image, range.families)),
    }
}

/// Who owns a resource before the point.
pub fn owner_of(case: &Case<'_>, resource: u32) -> Result<Owned, AllocError> {
    let mut owned = Owned {
        family: None,
        release: None,
        last: None,
    };
    for (index, point) in case.earlier.iter().enumerate() {
        if let Action::Run(command) = point.action {
            owned = after_command(case, &owned, index, point, command, resource)?;
        }
    }
    Ok(owned)
}

/// Who owns a resource after a command.
pub fn after_command(
    case: &Case<'_>,
    owned: &Owned,
    index: usize,
    point: &Point<'_>,
    command: &Cmd,
    resource: u32,
) -> Result<Owned, AllocError> {
    let mut after = *owned;
    let family = Some(family_of(point.queue));
    let last = Some(index);
    let Cmd::Barrier { elements } = command else {
        let uses = uses_of(case.alloc, point.action)?;
        if has(uses.as_slice(), resource) {
            after = Owned {
                family,
                release: None,
                last,
            };
        }
        return Ok(after);
    };
    for element in elements.as_slice() {
        if let Some((named, families)) = families_of(element) {
            let half = half_of(families, point.queue);
            if named == resource && (half != Half::Neither || is_transition(element)) {
                let is_release = half == Half::Release;
                after = Owned {
                    family,
                    release: if is_release { Some(*element) } else { None },
                    last,
                };
            }
        }
    }
    Ok(after)
}

/// Whether an element is a layout transition.
pub fn is_transition(element: &Element) -> bool {
    match element {
        Element::Image(range) => range.old_layout != range.new_layout,
        _ => false,
    }
}

/// Whether one family at a time owns a resource.
pub fn is_exclusive(case: &Case<'_>, resource: u32) -> bool {
    match case.creator(resource) {
        Some((_, Entry::Buffer { info, .. })) => matches!(info.sharing, Sharing::Exclusive),
        Some((_, Entry::Image { info, .. })) => matches!(info.sharing, Sharing::Exclusive),
        _ => false,
    }
}
