ghost use Rattle.std.specs.Prelude.{◌≡◌, ◌≤◌, ◌<◌, IfOk, IfSome, IsSomeAnd, length, slice_get, take};
ghost use Rattle.std.specs.Bool.{OnTrue};
ghost use Rattle.vk_model.specs.Trace.Point as spec;
ghost use Rattle.vk_model.specs.Trace.Order.{order};
ghost use Rattle.vk_model.specs.Trace.Structure.{IsOrdered};
ghost use Rattle.vk_model.specs.Rules.Table.{fault, first_fault};
ghost use Rattle.vk_model.specs.Trace.PointViews.{point_of};
ghost use Rattle.vk_queues.specs.PointViews.{past_of};
ghost use Rattle.vk_validate.specs.Verdicts.{reported};
ghost use Rattle.vk_repairs.specs.Starts.{sound_start, IsAmong};

use std::alloc::{AllocError, Global};
use vk_model::{Action, At, Entry, Point, Rule};
use vk_queues::reference_order;
use vk_validate::{Verdict, validate};

/// What is known of a trace.
#[derive(Drop)]
pub struct Judged<'a> {
    /// The points before its first fault, the oldest first; all of them where there is none.
    pub sound: Vec<Point<'a>>,
    /// Its first fault.
    pub next: Option<(At, Rule)>,
}

/// What is so of a trace. The only error is want of memory.
pub fn judge<'a>(alloc: Global, trace: &'a [Entry]) -> Result<Option<Judged<'a>>, AllocError>
    ensures next { IfOk result (λ found. IfSome found (λ j. j.next ≡ first_fault trace.now)) }
    ensures sound { IfOk result (λ found. IfSome found (λ j. past_of j.sound.items ≡ sound_start (order trace.now))) }
{
    let points = reference_order(alloc, trace)?;
    let verdict = validate(alloc, trace)?;
    let next = fault_in(verdict);
    Ok(with_start(points, next))
}

/// The points of a trace before its first fault, which is given, and that fault.
pub fn with_start<'a>(points: Vec<Point<'a>>, next: Option<(At, Rule)>) -> Option<Judged<'a>>
    requires ordered { IsOrdered (past_of points.items) }
    requires fault { next ≡ fault (past_of points.items) }
    ensures next { IfSome result (λ j. j.next ≡ next) }
    ensures sound { IfSome result (λ j. past_of j.sound.items ≡ sound_start (past_of points.entry.items)) }
{
    let count = sound_count(points.as_slice(), next)?;
    let mut sound = points;
    sound.truncate(count);
    Some(Judged { sound, next })
}

/// The fault that a verdict reports.
fn fault_in(verdict: Verdict<'_>) -> Option<(At, Rule)>
    ensures { result ≡ reported verdict.entry }
{
    match verdict {
        Verdict::Accepted(_) => None,
        Verdict::Refused(at, rule) => Some((at, rule)),
    }
}

/// How many points come before the first fault.
fn sound_count(points: &[Point<'_>], next: Option<(At, Rule)>) -> Option<usize>
    requires ordered { IsOrdered (past_of points.now) }
    requires fault { next ≡ fault (past_of points.now) }
    ensures within { IfSome result (λ n. n ≤ length points.now) }
    ensures start { IfSome result (λ n. past_of (take n points.now) ≡ sound_start (past_of points.now)) }
{
    let Some((at, _)) = next else {
        return Some(points.len());
    };
    place_of(points, at)
}

/// The place of a point.
fn place_of(points: &[Point<'_>], at: At) -> Option<usize>
    ensures within { IfSome result (λ n. n < length points.now) }
    ensures there { IfSome result (λ n. IsSomeAnd (slice_get points.now n) (λ p. spec.at_of (point_of p) ≡ at)) }
{
    for (index, point) in points.iter().enumerate() {
        if at_of(point) == at {
            return Some(index);
        }
    }
    None
}

/// Whether one of some points is reported so.
pub fn is_among(points: &[Point<'_>], at: At) -> bool
    ensures { OnTrue result (IsAmong (past_of points.now) at) }
{
    let Some(_) = place_of(points, at) else {
        return false;
    };
    true
}

/// How a point is reported.
pub fn at_of(point: &Point<'_>) -> At
    ensures { result ≡ spec.at_of (point_of point.now) }
{
    match point.action {
        Action::Host(_) => At::Entry(point.entry),
        Action::Wait(_) => At::Wait(point.entry, point.batch, point.place),
        Action::Run(_) => At::Command(point.entry, point.batch, point.place),
        Action::Signal(_) => At::Signal(point.entry, point.batch, point.place),
    }
}
