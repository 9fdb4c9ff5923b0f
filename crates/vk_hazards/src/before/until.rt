ghost use Rattle.std.specs.Prelude.{◌≡◌, ◌<◌, ℕ, IfOk, IfSome, IfNone, IsTrue, false, MatchOption, Some, slice_get, take, length};
ghost use Rattle.vk_model.specs.Trace.Point as spec;
ghost use Rattle.vk_model.specs.Trace.Order.{order};
ghost use Rattle.vk_model.specs.Sync.Node.{nodes};
ghost use Rattle.vk_model.specs.declared.point.Point.{Point as AnyPoint};
ghost use Rattle.vk_model.specs.Trace.PointViews.{point_of};
ghost use Rattle.vk_order.specs.Places.{IsApart};
ghost use Rattle.vk_order.specs.Queries.{IsNew};
ghost use Rattle.vk_queues.specs.PointViews.{past_of};
ghost use Rattle.vk_hazards.specs.Until.{IsUntil, IsNowhere};

use std::alloc::{AllocError, Global};
use vk_model::{Action, At, Entry, Point};
use vk_queues::reference_order;

/// The points of a trace in reference order, up to and with the one at this place; none where
/// no point is. Each is new after the ones before it, and no two commands are at one place. The only
/// error is want of memory.
pub fn points_until<'a>(
    alloc: Global,
    entries: &'a [Entry],
    at: At,
) -> Result<Option<Vec<Point<'a>>>, AllocError>
    ensures until { IfOk result (λ found. MatchOption found (IsNowhere (order entries.now) at) (λ points. IsUntil (order entries.now) at (past_of points.items))) }
    ensures new { IfOk result (λ found. IfSome found (λ points. (k : ℕ) (p : AnyPoint) → slice_get points.items k ≡ Some p → IsNew (point_of p) (nodes (past_of (take k points.items))))) }
    ensures apart { IfOk result (λ found. IfSome found (λ points. IsApart (past_of points.items))) }
{
    let mut points = reference_order(alloc, entries)?;
    let Some(index) = index_of(points.as_slice(), at) else {
        return Ok(None);
    };
    points.truncate(index + 1);
    Ok(Some(points))
}

/// The index of the first point of this kind.
fn index_of(points: &[Point<'_>], at: At) -> Option<usize>
    ensures within { IfSome result (λ i. i < length points.now) }
    ensures found { IfSome result (λ i. (p : AnyPoint) → slice_get points.now i ≡ Some p → spec.at_of (point_of p) ≡ at) }
    ensures none { IfNone result (IsNowhere (past_of points.now) at) }
{
    for (index, point) in points.iter().enumerate() {
        if is_same(at_of(point), at) {
            return Some(index);
        }
    }
    None
}

/// Whether two reports are of the same point.
fn is_same(first: At, second: At) -> bool
    ensures same { IsTrue result → first ≡ second }
    ensures other { result ≡ false → first ≡ second → ⊥ }
{
    first == second
}

/// How a point is reported.
pub fn at_of(point: &Point<'_>) -> At
    ensures { result ≡ spec.at_of (point_of point.now) }
{
    match point.action {
        Action::Host(_) => At::Entry(point.entry),
        Action::Wait(_) => At::Wait(point.entry, point.batch, point.place),
        Action::Run(_) => At::Command(point.entry, point.batch, point.place),
        Action::Signal(_) => At::Signal(point.entry, point.batch, point.place),
    }
}
