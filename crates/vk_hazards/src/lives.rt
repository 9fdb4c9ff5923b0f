ghost use Rattle.std.specs.Prelude.{◌≡◌, IfOk, IfSome, IfNone, Contains, option_and_then, is_some, true, false};
ghost use Rattle.std.specs.List.{list_any};
ghost use Rattle.vk_model.specs.Trace.Point.{host_of};
ghost use Rattle.vk_model.specs.Trace.Objects.{made_by};
ghost use Rattle.vk_model.specs.Rules.Ids as ids;
ghost use Rattle.vk_model.specs.Rules.Ids.{judged_in, until};
ghost use Rattle.vk_model.specs.Trace.PointViews.{action_of, point_of};
ghost use Rattle.vk_queues.specs.PointViews.{past_of};
ghost use Rattle.vk_hazards.specs.Lives.{IsLife, IsMade, IsDead, asked_of};

use crate::asked::{Asked, ObjectKind, asked_by};
use crate::before::{Doing, entry_of, latest, live, made};
use std::alloc::{AllocError, Global};
use vk_model::{Action, Point};

/// What became of an id.
#[derive(Clone, Copy)]
pub struct Life<'a> {
    /// The id.
    pub id: u32,
    /// The last point that made an object of this id.
    pub made: Option<Point<'a>>,
    /// The last point that ended it.
    pub ended: Option<Point<'a>>,
}

/// That an id isn't that of a live object of the kind asked.
#[derive(Clone, Copy)]
pub struct DeadId<'a> {
    /// What became of it by the points that it is judged by: of a point of a batch those before its
    /// submit.
    pub life: Life<'a>,
    /// The last of all earlier points that made an object of this id: where none of those points did,
    /// one after the submit.
    pub made_ever: Option<Point<'a>>,
    /// What the point asks for.
    pub wanted: ObjectKind,
}

/// What became of an id by some points.
pub fn life_of<'a>(points: &[Point<'a>], id: u32) -> Life<'a>
    ensures { IsLife (past_of points.now) id result }
{
    Life {
        id,
        made: latest(points, Doing::Makes, id),
        ended: latest(points, Doing::Ends, id),
    }
}

/// NEW_ID: what became of the id that a point makes, where it was made before.
pub fn made_id<'a>(older: &[Point<'a>], point: &Point<'a>) -> Option<Life<'a>>
    ensures { IsMade (past_of older.now) (point_of point.now) result }
{
    let id = id_made_by(point)?;
    match made(older, id) {
        Some(_) => Some(life_of(older, id)),
        None => None,
    }
}

/// The id that a point makes.
fn id_made_by(point: &Point<'_>) -> Option<u32>
    ensures { result ≡ option_and_then made_by (host_of (action_of point.now.action)) }
{
    match entry_of(point) {
        Some(entry) => entry.made_id(),
        None => None,
    }
}

/// LIVE_ID: what became of the first id that a point names, and that isn't one of a live object of
/// the kind asked. The only error is want of memory.
pub fn dead_id<'a>(
    alloc: Global,
    older: &[Point<'a>],
    point: &Point<'a>,
) -> Result<Option<DeadId<'a>>, AllocError>
    ensures { IfOk result (IsDead (past_of older.now) (point_of point.now)) }
{
    let judged = judged_points(older, point);
    let asked = asked_by(alloc, point.action)?;
    match first_dead(judged, asked.as_slice()) {
        Some(dead) => Ok(Some(DeadId {
            life: life_of(judged, dead.id),
            made_ever: latest(older, Doing::Makes, dead.id),
            wanted: dead.kind,
        })),
        None => Ok(None),
    }
}

/// The first of some ids that isn't that of a live object of the kind asked, by some points.
fn first_dead(points: &[Point<'_>], asked: &[Asked]) -> Option<Asked>
    ensures some { IfSome result (λ a. Contains asked.now a × (ids.is_dead (past_of points.now) (asked_of a) ≡ true)) }
    ensures none { IfNone result (list_any (λ a. ids.is_dead (past_of points.now) (asked_of a)) asked.now ≡ false) }
{
    for one in asked {
        if is_dead(points, *one) {
            return Some(*one);
        }
    }
    None
}

/// Whether an id isn't that of a live object of the kind asked, by some points.
fn is_dead(points: &[Point<'_>], asked: Asked) -> bool
    ensures { result ≡ ids.is_dead (past_of points.now) (asked_of asked) }
{
    match live(points, asked.id) {
        Some(entry) => !asked.kind.is_of(entry),
        None => true,
    }
}

/// The points by which the ids of a point are judged.
fn judged_points<'b, 'a>(older: &'b [Point<'a>], point: &Point<'a>) -> &'b [Point<'a>]
    ensures { past_of result.now ≡ judged_in (past_of older.now) (point_of point.now) }
{
    match point.action {
        Action::Host(_) => older,
        _ => points_before(older, point.entry),
    }
}

/// The points before an entry of the host.
fn points_before<'b, 'a>(points: &'b [Point<'a>], number: usize) -> &'b [Point<'a>]
    ensures { past_of result.now ≡ until number (past_of points.now) }
{
    let mut count = 0;
    for (index, point) in points.iter().enumerate() {
        if point.entry == number && is_of_host(point) {
            count = index;
        }
    }
    &points[..count]
}

/// Whether a point is an entry of the host.
fn is_of_host(point: &Point<'_>) -> bool
    ensures { result ≡ is_some (host_of (action_of point.now.action)) }
{
    matches!(point.action, Action::Host(_))
}
