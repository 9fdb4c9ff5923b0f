use crate::cases::{Candidates, Case, place_of};
use crate::hazards::barrier;
use crate::uses::Use;
use std::alloc::AllocError;
use vk_model::{Accesses, Action, Cmd, Dependency, Element, ImageElement, Point, Sequence, Stages};

/// The bits of TRANSFER_READ and TRANSFER_WRITE.
const TRANSFERS: u32 = 6144;

/// The transitions of each image that the point uses end before transfers: those of its batch, and
/// the last other one; also with a barrier before the point.
pub fn opened(
    case: &Case<'_>,
    uses: &[Use],
    also: Option<Dependency>,
    found: &mut Candidates,
) -> Result<(), AllocError> {
    let mut edits = case.edits();
    for one in uses {
        let barriers = transitions_of(case, one.resource)?;
        for point in barriers.as_slice() {
            if let Action::Run(Cmd::Barrier { elements }) = point.action {
                let wider = wider(case, elements.as_slice(), one.resource)?;
                edits.replace_command(place_of(point), Cmd::Barrier { elements: wider })?;
            }
        }
    }
    if edits.is_empty() {
        return Ok(());
    }
    if let Some(dependency) = also {
        edits.insert_command(place_of(&case.refused), barrier(case, dependency)?)?;
    }
    found.add(edits)
}

/// The barriers with an element on an image that come before the point: those of its batch, and the
/// last other one.
fn transitions_of<'a>(case: &Case<'a>, image: u32) -> Result<Vec<Point<'a>>, AllocError> {
    let mut all = Vec::new(case.alloc);
    let mut last = None;
    for point in case.earlier {
        if let Action::Run(Cmd::Barrier { elements }) = point.action {
            if is_on(elements.as_slice(), image) {
                if is_in_batch(point, &case.refused) {
                    all.push(*point)?;
                } else {
                    last = Some(*point);
                }
            }
        }
    }
    if let Some(point) = last {
        all.push(point)?;
    }
    Ok(all)
}

/// Whether two points are of one batch.
fn is_in_batch(one: &Point<'_>, other: &Point<'_>) -> bool {
    one.entry == other.entry && one.batch == other.batch
}

fn is_on(elements: &[Element], image: u32) -> bool {
    for element in elements {
        if let Element::Image(range) = element {
            if range.image == image {
                return true;
            }
        }
    }
    false
}

/// Elements of which those on an image are before reads and writes of transfers.
fn wider(
    case: &Case<'_>,
    elements: &[Element],
    image: u32,
) -> Result<Sequence<Element>, AllocError> {
    let mut all = Vec::new(case.alloc);
    for element in elements {
        all.push(widened(*element, image))?;
    }
    Ok(Sequence::new(all))
}

fn widened(element: Element, image: u32) -> Element {
    match element {
        Element::Image(range) => Element::Image(open_on(range, image)),
        other => other,
    }
}

fn open_on(element: ImageElement, image: u32) -> ImageElement {
    if element.image != image {
        return element;
    }
    ImageElement {
        dependency: before_transfers(element.dependency),
        ..element
    }
}

/// A dependency with transfers in its second scope too.
fn before_transfers(dependency: Dependency) -> Dependency {
    Dependency {
        destination_stages: Stages(dependency.destination_stages.0 | Stages::TRANSFER.0),
        destination_accesses: Accesses(dependency.destination_accesses.0 | TRANSFERS),
        ..dependency
    }
}
