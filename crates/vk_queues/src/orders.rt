ghost use Rattle.std.specs.Prelude.{◌≡◌, ◌+◌, ℕ, IfOk, OnOk, Some, slice_get, take};
ghost use Rattle.vk_model.specs.Trace.Point.{Past};
ghost use Rattle.vk_model.specs.Trace.Order.{Front, after_entry, order};
ghost use Rattle.vk_model.specs.Sync.Node.{nodes};
ghost use Rattle.vk_model.specs.declared.point.Point.{Point as AnyPoint};
ghost use Rattle.vk_model.specs.Trace.PointViews.{point_of};
ghost use Rattle.vk_order.specs.Queries.{IsNew};
ghost use Rattle.vk_queues.specs.PointViews.{past_after, past_of};
ghost use Rattle.vk_queues.specs.IsWaiting.{IsWaiting};

use crate::pushing::push_batch;
use crate::waiting::Waiting;
use std::alloc::{AllocError, Global};
use vk_model::{Action, Entry, Point};

/// The points of a trace in reference order, the oldest first. A batch that is never started has
/// none. Each point is new after the ones before it, so that it can be added to `vk_order::Points`.
/// The only error is want of memory.
pub fn reference_order<'a>(
    alloc: Global,
    entries: &'a [Entry],
) -> Result<Vec<Point<'a>>, AllocError>
    ensures order { IfOk result (λ points. past_of points.items ≡ order entries.now) }
    ensures new { IfOk result (λ points. (k : ℕ) (p : AnyPoint) → slice_get points.items k ≡ Some p → IsNew (point_of p) (nodes (past_of (take k points.items)))) }
{
    let mut points = Vec::new(alloc);
    let mut waiting = Waiting::new(alloc);
    for (number, entry) in entries.iter().enumerate() {
        push_points(&mut points, &mut waiting, number, entry)?;
    }
    Ok(points)
}

/// The points that come with an entry of the host, in order: its own, and those of the batches that
/// are started then. The only error is want of memory, after which nothing is known of the batches.
pub fn points_after<'a>(
    alloc: Global,
    waiting: &mut Waiting<'a>,
    number: usize,
    entry: &'a Entry,
) -> Result<Vec<Point<'a>>, AllocError>
    ensures { IfOk result (λ points. (f : Front) → IsWaiting waiting.old number f
        → (past_after f.past points.items ≡ (after_entry number entry.now f).past) × IsWaiting waiting.new (number + 1) (after_entry number entry.now f)) }
{
    let mut points = Vec::new(alloc);
    push_points(&mut points, waiting, number, entry)?;
    Ok(points)
}

fn push_points<'a>(
    points: &mut Vec<Point<'a>>,
    waiting: &mut Waiting<'a>,
    number: usize,
    entry: &'a Entry,
) -> Result<(), AllocError>
    ensures { OnOk result ((before : Past) (f : Front) → IsWaiting waiting.old number f → past_after before points.old.items ≡ f.past
        → (past_after before points.new.items ≡ (after_entry number entry.now f).past) × IsWaiting waiting.new (number + 1) (after_entry number entry.now f)) }
{
    waiting.enter(number, entry)?;
    points.push(Point {
        entry: number,
        batch: 0,
        place: 0,
        queue: 0,
        action: Action::Host(entry),
    })?;
    while let Some(batch) = waiting.start()? {
        push_batch(points, &batch)?;
    }
    Ok(())
}
