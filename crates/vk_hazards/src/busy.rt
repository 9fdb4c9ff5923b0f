ghost use Rattle.std.specs.Prelude.{◌≡◌, ℕ, Some, slice_get, take};
ghost use Rattle.vk_model.specs.Sync.Node.{nodes};
ghost use Rattle.vk_model.specs.declared.point.Point.{Point as AnyPoint};
ghost use Rattle.vk_model.specs.Trace.PointViews.{point_of};
ghost use Rattle.vk_order.specs.Queries.{IsNew};
ghost use Rattle.vk_queues.specs.PointViews.{past_of};

use crate::before::order_of;
use crate::creating::{place_in, started_batches};
use crate::trail::uses;
use std::alloc::{AllocError, Global};
use std::collections::BTreeSet;
use vk_model::{Action, At, Batch, Cmd, Element, Entry, Place, Point};
use vk_order::{Points, rows_of};

/// What uses an object that ends.
#[derive(Clone, Copy)]
pub enum User<'a> {
    /// A command that was started, and isn't ordered before the end.
    Started(Point<'a>),
    /// A command of a batch that still waits.
    Waiting(At),
    /// A resource that lies in it.
    Resource(u32),
}

/// What uses the object that an entry ends, which is that of the last of some points; with those
/// before it.
pub fn user_of<'a>(
    alloc: Global,
    points: &[Point<'a>],
    older: &[Point<'a>],
    entry: &Entry,
) -> Result<Option<User<'a>>, AllocError>
    requires { (k : ℕ) (p : AnyPoint) → slice_get points.now k ≡ Some p → IsNew (point_of p) (nodes (past_of (take k points.now))) }
{
    match entry {
        Entry::Destroy { resource } => command_on(alloc, points, older, *resource),
        Entry::Free { memory } => resource_in(alloc, older, *memory),
        Entry::DropPool { pool } => resource_in(alloc, older, *pool),
        _ => Ok(None),
    }
}

/// A command that names a resource and isn't known complete at a host entry.
fn command_on<'a>(
    alloc: Global,
    points: &[Point<'a>],
    older: &[Point<'a>],
    resource: u32,
) -> Result<Option<User<'a>>, AllocError>
    requires { (k : ℕ) (p : AnyPoint) → slice_get points.now k ≡ Some p → IsNew (point_of p) (nodes (past_of (take k points.now))) }
{
    let order = order_of(alloc, points)?;
    let firsts = first_nodes(alloc, older)?;
    let Some(last) = firsts.last().copied() else {
        return Ok(None);
    };
    for (point, first) in older.iter().zip(firsts.iter()) {
        let count = rows_of(alloc, *point)?.len();
        if is_early(&order, *point, resource, *first, count, last) {
            return Ok(Some(User::Started(*point)));
        }
    }
    waiting_on(alloc, older, resource)
}

/// The number of the first node of each point, and of the one after them.
fn first_nodes(alloc: Global, points: &[Point<'_>]) -> Result<Vec<usize>, AllocError> {
    let mut firsts = Vec::new(alloc);
    let mut number = 0usize;
    firsts.push(number)?;
    for point in points {
        let rows = rows_of(alloc, *point)?;
        number = number.saturating_add(rows.len());
        firsts.push(number)?;
    }
    Ok(firsts)
}

/// Whether a point's command names a resource by a node that isn't before another one.
fn is_early(
    order: &Points<'_>,
    point: Point<'_>,
    resource: u32,
    first: usize,
    count: usize,
    last: usize,
) -> bool {
    let Action::Run(command) = point.action else {
        return false;
    };
    for place in 0..count {
        let node = first.saturating_add(place);
        let is_there = node < order.len() && last < order.len();
        if names_at(command, place, resource) && is_there && !order.before(node, last) {
            return true;
        }
    }
    false
}

/// Whether a node of a command, by its place among them, names a resource.
fn names_at(command: &Cmd, place: usize, resource: u32) -> bool {
    match command {
        Cmd::Barrier { elements } => match elements.as_slice().get(place) {
            Some(element) => is_named(element, resource),
            None => false,
        },
        _ => uses(command, resource),
    }
}

fn is_named(element: &Element, resource: u32) -> bool {
    match element {
        Element::Memory(_) => false,
        Element::Buffer(buffer) => buffer.buffer == resource,
        Element::Image(image) => image.image == resource,
    }
}

/// A command of a batch without a point that names a resource.
fn waiting_on<'a>(
    alloc: Global,
    points: &[Point<'_>],
    resource: u32,
) -> Result<Option<User<'a>>, AllocError> {
    let started = started_batches(alloc, points)?;
    for point in points {
        if let Action::Host(Entry::Submit { batches, .. }) = point.action {
            for (number, batch) in batches.as_slice().iter().enumerate() {
                if !started.contains(&(point.entry, number))
                    && let Some(place) = place_naming(batch, resource)
                {
                    let at = At::Command(point.entry, number, place);
                    return Ok(Some(User::Waiting(at)));
                }
            }
        }
    }
    Ok(None)
}

/// The place of the first command of a batch that names a resource.
fn place_naming(batch: &Batch, resource: u32) -> Option<usize> {
    for (place, command) in batch.commands.as_slice().iter().enumerate() {
        if names(command, resource) {
            return Some(place);
        }
    }
    None
}

fn names(command: &Cmd, resource: u32) -> bool {
    match command {
        Cmd::Barrier { elements } => {
            for element in elements.as_slice() {
                if is_named(element, resource) {
                    return true;
                }
            }
            false
        }
        _ => uses(command, resource),
    }
}

/// A live resource that lies in a memory object or in a pool.
fn resource_in<'a>(
    alloc: Global,
    points: &[Point<'_>],
    object: u32,
) -> Result<Option<User<'a>>, AllocError> {
    let ended = ended_resources(alloc, points)?;
    for point in points {
        if let Action::Host(entry) = point.action
            && let (Some(id), Some(place)) = (entry.made_id(), place_in(entry))
            && is_inside(place, object)
            && !ended.contains(&id)
        {
            return Ok(Some(User::Resource(id)));
        }
    }
    Ok(None)
}

fn is_inside(place: Place, object: u32) -> bool {
    match place {
        Place::Dedicated { .. } => false,
        Place::Memory { memory, .. } => memory == object,
        Place::Pool { pool } | Place::PoolUpper { pool } => pool == object,
    }
}

/// The resources that were destroyed.
fn ended_resources(alloc: Global, points: &[Point<'_>]) -> Result<BTreeSet<u32>, AllocError> {
    let mut ended = BTreeSet::new(alloc);
    for point in points {
        if let Action::Host(Entry::Destroy { resource }) = point.action {
            ended.insert(*resource)?;
        }
    }
    Ok(ended)
}
