use crate::named::{Spot, named_by};
use crate::submitted::names;
use crate::timeline::Timeline;
use std::alloc::{AllocError, Global};
use std::collections::BTreeSet;
use vk_model::{Action, Batch, Entry, Point};

/// Where a command is that is likely to use a resource and not be known complete: of a started batch, or
/// else of one that waits. Nothing is promised of it: it only says where to look first. The only error is
/// want of memory.
pub fn likely(
    alloc: Global,
    timeline: &Timeline<'_>,
    points: &[Point<'_>],
    resource: u32,
) -> Result<Option<Spot>, AllocError> {
    match started(timeline, resource) {
        Some(spot) => Ok(Some(spot)),
        None => waiting(alloc, points, resource),
    }
}

/// One of a started batch.
fn started(timeline: &Timeline<'_>, resource: u32) -> Option<Spot> {
    for node in 0..timeline.len() {
        let row = timeline.row(node)?;
        if named_by(&row.act).has(resource) && timeline.is_late(node) {
            return Some(Spot {
                entry: row.point.entry,
                batch: row.point.batch,
                place: row.point.place,
            });
        }
    }
    None
}

/// One of a batch that waits.
fn waiting(alloc: Global, points: &[Point<'_>], resource: u32) -> Result<Option<Spot>, AllocError> {
    let started = started_batches(alloc, points)?;
    for point in points {
        if let Action::Host(Entry::Submit { batches, .. }) = point.action {
            for (number, batch) in batches.as_slice().iter().enumerate() {
                if !started.contains(&(point.entry, number))
                    && let Some(found) = in_batch(point.entry, number, batch, resource)
                {
                    return Ok(Some(found));
                }
            }
        }
    }
    Ok(None)
}

/// The entry and the number of each batch that has points.
fn started_batches(
    alloc: Global,
    points: &[Point<'_>],
) -> Result<BTreeSet<(usize, usize)>, AllocError> {
    let mut started = BTreeSet::new(alloc);
    for point in points {
        if let Action::Run(_) = point.action {
            started.insert((point.entry, point.batch))?;
        }
    }
    Ok(started)
}

/// The first command of a batch that names a resource.
fn in_batch(entry: usize, number: usize, batch: &Batch, resource: u32) -> Option<Spot> {
    for (place, command) in batch.commands.as_slice().iter().enumerate() {
        if names(command, resource) {
            return Some(Spot {
                entry,
                batch: number,
                place,
            });
        }
    }
    None
}
