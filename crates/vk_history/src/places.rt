ghost use Rattle.std.specs.Prelude.{◌≡◌, option_map};
ghost use Rattle.vk_model.specs.Trace.Objects as objects;

use vk_model::Place;

/// The pool of a place.
pub fn pool_at(place: Place) -> Option<u32>
    ensures { result ≡ objects.pool_at place }
{
    match place {
        Place::Pool { pool } | Place::PoolUpper { pool } => Some(pool),
        _ => None,
    }
}

/// The memory object of a place that the trace binds itself, and the offset in it in bytes.
pub fn bound_at(place: Place) -> Option<(u32, u64)>
    ensures { result ≡ objects.bound_at place }
{
    match place {
        Place::Memory { memory, offset } => Some((memory, offset)),
        _ => None,
    }
}

/// The memory object of such a place.
pub fn memory_at(place: Place) -> Option<u32>
    ensures { result ≡ option_map (λ x. x.0) (objects.bound_at place) }
{
    match place {
        Place::Memory { memory, .. } => Some(memory),
        _ => None,
    }
}
