ghost use Rattle.std.specs.Prelude.{◌≡◌, ◌==◌, option_map, option_and_then, is_some};
ghost use Rattle.std.specs.List.{find};
ghost use Rattle.vk_model.specs.Basics.{among};
ghost use Rattle.vk_model.specs.Trace.Objects as objects;
ghost use Rattle.vk_model.specs.Trace.Order as spec;
ghost use Rattle.vk_model.specs.Trace.Point as spec_point;
ghost use Rattle.vk_model.specs.Trace.PointViews.{action_of, point_of};
ghost use Rattle.vk_queues.specs.PointViews.{past_of};
ghost use Rattle.vk_hazards.specs.Doings.{does};

use vk_model::{Action, Entry, Point, SemaphoreValue};

/// What a point may do with an object.
#[derive(Clone, Copy, Debug, PartialEq, Eq)]
pub enum Doing {
    /// It makes the object.
    Makes,
    /// It ends the object.
    Ends,
    /// It signals the semaphore.
    Signals,
}

/// Whether a point does this with an object.
pub fn does(doing: Doing, id: u32, point: &Point<'_>) -> bool
    ensures { result ≡ does doing id (point_of point.now) }
{
    match doing {
        Doing::Makes => makes(id, point),
        Doing::Ends => ends(id, point),
        Doing::Signals => signals(id, point),
    }
}

fn makes(id: u32, point: &Point<'_>) -> bool
    ensures { result ≡ does Doing.Makes id (point_of point.now) }
{
    match point.action {
        Action::Host(entry) => match entry.made_id() {
            Some(made) => id == made,
            None => false,
        },
        _ => false,
    }
}

fn ends(id: u32, point: &Point<'_>) -> bool
    ensures { result ≡ does Doing.Ends id (point_of point.now) }
{
    match point.action {
        Action::Host(entry) => is_ended_by(id, entry),
        _ => false,
    }
}

/// Whether an entry ends an object.
fn is_ended_by(id: u32, entry: &Entry) -> bool
    ensures { result ≡ among id (objects.ended_by entry.now) }
{
    match entry {
        Entry::Free { memory } => id == *memory,
        Entry::Destroy { resource } => id == *resource,
        Entry::DropPool { pool } => id == *pool,
        Entry::EndPass { destroyed, .. } => is_among(id, destroyed.as_slice()),
        Entry::EndDefrag { defrag } => id == *defrag,
        _ => false,
    }
}

fn is_among(id: u32, ids: &[u32]) -> bool
    ensures { result ≡ among id ids.now }
{
    ids.iter().any(|other| id == *other)
}

fn signals(id: u32, point: &Point<'_>) -> bool
    ensures { result ≡ does Doing.Signals id (point_of point.now) }
{
    match signal_of(point) {
        Some(signal) => signal.semaphore == id,
        None => false,
    }
}

/// What a point signals.
pub fn signal_of(point: &Point<'_>) -> Option<SemaphoreValue>
    ensures { option_map (λ x. (x.semaphore, x.value)) result ≡ spec.signal_of (action_of point.now.action) }
{
    match point.action {
        Action::Host(Entry::Signal { semaphore, value }) => Some(SemaphoreValue {
            semaphore: *semaphore,
            value: *value,
        }),
        Action::Signal(signal) => Some(SemaphoreValue {
            semaphore: signal.semaphore,
            value: signal.value,
        }),
        _ => None,
    }
}

/// The last of some points that does this with an object.
pub fn latest<'a>(points: &[Point<'a>], doing: Doing, id: u32) -> Option<Point<'a>>
    ensures { option_map point_of result ≡ find (does doing id) (past_of points.now) }
{
    let mut found = None;
    for point in points {
        if does(doing, id, point) {
            found = Some(*point);
        }
    }
    found
}

/// The entry that made an object, by some points.
pub fn made<'a>(points: &[Point<'a>], id: u32) -> Option<&'a Entry>
    ensures { option_map (λ x. x.now) result ≡ objects.made (past_of points.now) id }
{
    match latest(points, Doing::Makes, id) {
        Some(point) => entry_of(&point),
        None => None,
    }
}

/// Whether one of some points ends an object.
pub fn is_ended(points: &[Point<'_>], id: u32) -> bool
    ensures { result ≡ objects.ended (past_of points.now) id }
{
    latest(points, Doing::Ends, id).is_some()
}

/// The entry that made a live object, by some points.
pub fn live<'a>(points: &[Point<'a>], id: u32) -> Option<&'a Entry>
    ensures { option_map (λ x. x.now) result ≡ objects.live (past_of points.now) id }
{
    if is_ended(points, id) {
        None
    } else {
        made(points, id)
    }
}

/// The entry of the host that a point is.
pub fn entry_of<'a>(point: &Point<'a>) -> Option<&'a Entry>
    ensures { option_map (λ x. x.now) result ≡ spec_point.host_of (action_of point.now.action) }
{
    match point.action {
        Action::Host(entry) => Some(entry),
        _ => None,
    }
}
