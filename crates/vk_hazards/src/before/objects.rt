ghost use Rattle.std.specs.Prelude.{◌≡◌, option_map};
ghost use Rattle.vk_model.specs.Trace.Objects as objects;
ghost use Rattle.vk_queues.specs.PointViews.{past_of};

use crate::before::doings::made;
use vk_model::{Entry, Place, Point};

/// The memory type that the host reaches through a cache.
const CACHED: u32 = 2;

/// The pool of a place.
pub fn pool_at(place: Place) -> Option<u32>
    ensures { result ≡ objects.pool_at place }
{
    match place {
        Place::Pool { pool } | Place::PoolUpper { pool } => Some(pool),
        _ => None,
    }
}

/// The memory type of a place.
pub fn type_at(points: &[Point<'_>], place: Place) -> Option<u32>
    ensures { result ≡ objects.type_at (past_of points.now) place }
{
    match place {
        Place::Dedicated { memory_type } => Some(memory_type),
        Place::Pool { pool } => pool_type(points, pool),
        Place::PoolUpper { pool } => pool_type(points, pool),
        Place::Memory { memory, .. } => object_type(points, memory),
    }
}

fn pool_type(points: &[Point<'_>], id: u32) -> Option<u32>
    ensures { result ≡ option_map (λ x. x.memory_type) (objects.pool (past_of points.now) id) }
{
    match made(points, id) {
        Some(Entry::Pool { info, .. }) => Some(info.memory_type),
        _ => None,
    }
}

fn object_type(points: &[Point<'_>], id: u32) -> Option<u32>
    ensures { result ≡ option_map (λ x. x.memory_type) (objects.memory (past_of points.now) id) }
{
    match made(points, id) {
        Some(Entry::Memory { info, .. }) => Some(info.memory_type),
        _ => None,
    }
}

/// The memory type of a resource.
pub fn type_of(points: &[Point<'_>], id: u32) -> Option<u32>
    ensures { result ≡ objects.type_of (past_of points.now) id }
{
    match made(points, id) {
        Some(Entry::Buffer { info, .. }) => type_at(points, info.place),
        Some(Entry::Image { info, .. }) => type_at(points, info.place),
        _ => None,
    }
}

/// Whether the host reaches a resource through a cache, by some points: it is in memory of type 2.
pub fn is_cached(points: &[Point<'_>], id: u32) -> bool
    ensures { result ≡ objects.is_cached (past_of points.now) id }
{
    match type_of(points, id) {
        Some(memory_type) => memory_type == CACHED,
        None => false,
    }
}
