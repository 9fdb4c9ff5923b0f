ghost use Rattle.std.specs.Prelude.{◌≡◌, ℕ, Some, slice_get, take};
ghost use Rattle.vk_model.specs.Sync.Node.{nodes};
ghost use Rattle.vk_model.specs.declared.point.Point.{Point as AnyPoint};
ghost use Rattle.vk_model.specs.Trace.PointViews.{point_of};
ghost use Rattle.vk_order.specs.Queries.{IsNew};
ghost use Rattle.vk_queues.specs.PointViews.{past_of};

use crate::before::{all_rows, at_of, order_of, points_until};
use std::alloc::{AllocError, Global};
use vk_model::{At, Element, Entry};
use vk_order::{Act, Points, Row};

/// Which link between a release and its acquire is missing.
#[derive(Clone, Copy)]
pub enum LateRelease {
    /// A signal that the release comes before; with the first signal that follows it on its queue, if one
    /// does, whose stages don't take in the release.
    Signal(Option<At>),
    /// A wait for this signal, which is the first that the release comes before, or for a later one.
    Wait(At),
    /// That this wait, which the release comes before, comes before the acquire.
    Acquire(At),
}

/// A release, and an acquire that comes after it in reference order.
#[derive(Clone, Copy)]
pub struct Halves {
    /// The point of the release.
    pub released: At,
    /// The resource that it releases.
    pub resource: u32,
    /// The point of the acquire.
    pub acquired: At,
    /// The index of its element.
    pub element: usize,
}

/// Which link between a release and an acquire of a trace is missing, where the one isn't known to come before
/// the other; none where there aren't such points. The only error is want of memory.
pub fn late_release(
    alloc: Global,
    entries: &[Entry],
    halves: Halves,
) -> Result<Option<LateRelease>, AllocError> {
    let Some(points) = points_until(alloc, entries, halves.acquired)? else {
        return Ok(None);
    };
    let rows = all_rows(alloc, points.as_slice())?;
    let order = order_of(alloc, points.as_slice())?;
    let Some(release) = last_at(rows.as_slice(), halves.released, halves.resource) else {
        return Ok(None);
    };
    let Some(acquire) = nth_at(rows.as_slice(), halves.acquired, halves.element) else {
        return Ok(None);
    };
    Ok(missing(&order, rows.as_slice(), release, acquire))
}

/// The number of the last node of a point whose element is on a resource.
fn last_at(rows: &[Row<'_>], at: At, resource: u32) -> Option<usize> {
    let mut found = None;
    for (number, row) in rows.iter().enumerate() {
        if at_of(&row.point) == at && is_on(&row.act, resource) {
            found = Some(number);
        }
    }
    found
}

fn is_on(act: &Act<'_>, resource: u32) -> bool {
    match act {
        Act::Barrier(Element::Buffer(range)) => range.buffer == resource,
        Act::Barrier(Element::Image(range)) => range.image == resource,
        _ => false,
    }
}

/// The number of a node of a point, by its place among the nodes of the point.
fn nth_at(rows: &[Row<'_>], at: At, place: usize) -> Option<usize> {
    let mut left = place;
    for (number, row) in rows.iter().enumerate() {
        if at_of(&row.point) == at {
            if left == 0 {
                return Some(number);
            }
            left -= 1;
        }
    }
    None
}

/// Whether one node comes before another in every allowed order.
fn is_before(order: &Points<'_>, first: usize, second: usize) -> bool {
    first < order.len() && second < order.len() && order.before(first, second)
}

/// The link that is missing between two nodes.
fn missing(
    order: &Points<'_>,
    rows: &[Row<'_>],
    release: usize,
    acquire: usize,
) -> Option<LateRelease> {
    let from = rows.get(release)?.point.queue;
    let to = rows.get(acquire)?.point.queue;
    let Some(signal) = first_signal(order, rows, release) else {
        return Some(LateRelease::Signal(next_signal(rows, release, from)));
    };
    let mut last = None;
    for (number, row) in rows.iter().enumerate() {
        if is_wait(row, to) && is_before(order, release, number) {
            last = Some(at_of(&row.point));
        }
    }
    match last {
        Some(wait) => Some(LateRelease::Acquire(wait)),
        None => Some(LateRelease::Wait(signal)),
    }
}

/// The first signal that a node comes before.
fn first_signal(order: &Points<'_>, rows: &[Row<'_>], release: usize) -> Option<At> {
    for (number, row) in rows.iter().enumerate() {
        if matches!(row.act, Act::Signals(_)) && is_before(order, release, number) {
            return Some(at_of(&row.point));
        }
    }
    None
}

/// The first signal of a queue after a node.
fn next_signal(rows: &[Row<'_>], release: usize, queue: u32) -> Option<At> {
    for row in rows.iter().skip(release) {
        if matches!(row.act, Act::Signals(_)) && row.point.queue == queue {
            return Some(at_of(&row.point));
        }
    }
    None
}

/// Whether a node is a wait of a batch on a queue, or one of the host.
fn is_wait(row: &Row<'_>, queue: u32) -> bool {
    match row.act {
        Act::Waits(_) => row.point.queue == queue,
        Act::Hosts(Entry::Wait { .. }) => true,
        _ => false,
    }
}
