use crate::cases::{Candidates, Case, family_of, place_of};
use crate::halves::{half, nothing, used, whole_half, with_families, written};
use crate::lists::EditList;
use crate::orders::{Ordering, order_after};
use crate::ownership::{Half, Owned, after_command, families_of, half_of, is_exclusive};
use std::alloc::AllocError;
use vk_model::{Action, Cmd, Element, Families, Point, Sequence};

/// A use by a family of what another one owned.
#[derive(Clone, Copy)]
struct Loss {
    /// The resource.
    resource: u32,
    /// The place of the use among the earlier points.
    index: usize,
    /// Who owned it before.
    owned: Owned,
}

/// Transfers of ownership of some resources before uses by another family: a release at the end of the last batch of
/// the one, and an acquire before the use by the other; also with what orders the two.
pub fn transfers(
    case: &Case<'_>,
    resources: &[u32],
    found: &mut Candidates,
) -> Result<(), AllocError> {
    let losses = losses(case, resources)?;
    for loss in losses.as_slice() {
        by_known_barriers(case, loss, found)?;
    }
    for ordering in [Ordering::Nothing, Ordering::Known, Ordering::New] {
        for loss in losses.as_slice() {
            let mut edits = case.edits();
            transfer(case, *loss, ordering, 0, &mut edits)?;
            found.add(edits)?;
        }
    }
    for ordering in [Ordering::Known, Ordering::New] {
        let mut edits = case.edits();
        let mut count = 0;
        for loss in losses.as_slice() {
            transfer(case, *loss, ordering, count, &mut edits)?;
            count = 4u32.saturating_add(count);
        }
        found.add(edits)?;
    }
    Ok(())
}

/// The barriers on a resource that are there become the halves of its transfer: the last one on the queue of the
/// owner, after its last use, and the last one on the queue of the other use, before that.
fn by_known_barriers(
    case: &Case<'_>,
    loss: &Loss,
    found: &mut Candidates,
) -> Result<(), AllocError> {
    let resource = loss.resource;
    let index = loss.index;
    let Some(last) = loss.owned.last else {
        return Ok(());
    };
    let (Some(owner), Some(user)) = (case.earlier.get(last), case.earlier.get(index)) else {
        return Ok(());
    };
    let Some(first) = last_barrier(case, resource, owner.queue, last, index) else {
        return Ok(());
    };
    let Some(second) = last_barrier(case, resource, user.queue, 0, index) else {
        return Ok(());
    };
    let families = Families {
        source: family_of(owner.queue),
        destination: family_of(user.queue),
    };
    let mut edits = case.edits();
    transfer_by(case, &first, resource, families, &mut edits)?;
    transfer_by(case, &second, resource, families, &mut edits)?;
    found.add(edits)
}

/// A barrier transfers a resource between families.
fn transfer_by(
    case: &Case<'_>,
    barrier: &Point<'_>,
    resource: u32,
    families: Families,
    edits: &mut EditList,
) -> Result<(), AllocError> {
    let Action::Run(Cmd::Barrier { elements }) = barrier.action else {
        return Ok(());
    };
    let elements = transferring(case, elements.as_slice(), resource, families)?;
    edits.replace_command(place_of(barrier), Cmd::Barrier { elements })
}

/// The last barrier on a queue between two places among the earlier points that has an element on a resource
/// and no transfer of it.
fn last_barrier<'a>(
    case: &Case<'a>,
    resource: u32,
    queue: u32,
    first: usize,
    end: usize,
) -> Option<Point<'a>> {
    let mut last = None;
    for (index, point) in case.earlier.iter().enumerate() {
        if let Action::Run(Cmd::Barrier { elements }) = point.action {
            let is_between = first <= index && index < end && point.queue == queue;
            let mut on_it = elements.as_slice().iter();
            if is_between && on_it.any(|element| stays(element, resource)) {
                last = Some(*point);
            }
        }
    }
    last
}

/// Whether an element is on a resource, whose owner stays.
fn stays(element: &Element, resource: u32) -> bool {
    match families_of(element) {
        Some((named, families)) => named == resource && families.source == families.destination,
        None => false,
    }
}

/// Elements of which those on a resource transfer it between these families.
fn transferring(
    case: &Case<'_>,
    elements: &[Element],
    resource: u32,
    families: Families,
) -> Result<Sequence<Element>, AllocError> {
    let mut all = Vec::new(case.alloc);
    for element in elements {
        if stays(element, resource) {
            all.push(with_families(*element, families))?;
        } else {
            all.push(*element)?;
        }
    }
    Ok(Sequence::new(all))
}

/// The uses before the point by which contents of resources were lost.
fn losses(case: &Case<'_>, resources: &[u32]) -> Result<Vec<Loss>, AllocError> {
    let mut all = Vec::new(case.alloc);
    for resource in resources {
        if is_exclusive(case, *resource) {
            losses_of(case, *resource, &mut all)?;
        }
    }
    Ok(all)
}

fn losses_of(case: &Case<'_>, resource: u32, all: &mut Vec<Loss>) -> Result<(), AllocError> {
    let mut owned = Owned {
        family: None,
        release: None,
        last: None,
    };
    for (index, point) in case.earlier.iter().enumerate() {
        if let Action::Run(command) = point.action {
            let is_other = is_other(owned.family, point.queue);
            let after = after_command(case, &owned, index, point, command, resource)?;
            let is_used = after.last == Some(index);
            if is_used && is_other && !is_acquired(command, resource, point.queue) {
                all.push(Loss {
                    resource,
                    index,
                    owned: same(&owned),
                })?;
            }
            owned = after;
        }
    }
    Ok(())
}

fn same(owned: &Owned) -> Owned {
    *owned
}

/// Whether a resource is of another family than a queue.
fn is_other(family: Option<u32>, queue: u32) -> bool {
    match family {
        Some(family) => family != family_of(queue),
        None => false,
    }
}

fn is_acquired(command: &Cmd, resource: u32, queue: u32) -> bool {
    if let Cmd::Barrier { elements } = command {
        for element in elements.as_slice() {
            if let Some((named, families)) = families_of(element) {
                if named == resource && half_of(families, queue) == Half::Acquire {
                    return true;
                }
            }
        }
    }
    false
}

/// The transfer of what is used, before its use.
fn transfer(
    case: &Case<'_>,
    loss: Loss,
    ordering: Ordering,
    others: u32,
    edits: &mut EditList,
) -> Result<(), AllocError> {
    let Loss {
        resource,
        index,
        owned,
    } = loss;
    let Owned {
        family: _,
        release,
        last,
    } = owned;
    let Some(point) = case.earlier.get(index) else {
        return Ok(());
    };
    let Some(last) = last else {
        return Ok(());
    };
    let Some(earlier) = case.earlier.get(last) else {
        return Ok(());
    };
    let is_released = release.is_some();
    let Some(acquire) = acquire_of(case, resource, release, earlier.queue, point.queue) else {
        return Ok(());
    };
    if !is_released {
        release_for(case, &acquire, earlier, edits)?;
    }
    let then = case.at(index, point);
    order_after(&then, ordering, last, earlier, others, edits)?;
    let elements = Sequence::new(vec![in case.alloc; acquire]?);
    edits.insert_command(place_of(point), Cmd::Barrier { elements })
}

/// The acquire that belongs to a release, or that of a whole resource.
fn acquire_of(
    case: &Case<'_>,
    resource: u32,
    release: Option<Element>,
    source: u32,
    destination: u32,
) -> Option<Element> {
    let families = Families {
        source: family_of(source),
        destination: family_of(destination),
    };
    match release {
        Some(release) => half(&release, nothing(), used()),
        None => whole_half(case, resource, families, nothing(), used()),
    }
}

/// The release that belongs to an acquire, at the end of the batch of an earlier point.
fn release_for(
    case: &Case<'_>,
    acquire: &Element,
    earlier: &Point<'_>,
    edits: &mut EditList,
) -> Result<(), AllocError> {
    if let Some(release) = half(acquire, written(), nothing()) {
        let elements = Sequence::new(vec![in case.alloc; release]?);
        edits.insert_command(case.commands_end(earlier), Cmd::Barrier { elements })?;
    }
    Ok(())
}
