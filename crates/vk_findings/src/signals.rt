ghost use Rattle.std.specs.Prelude.{◌≡◌, true, IfOk, IfSome};
ghost use Rattle.vk_model.specs.Rules.Synchronization.{breaks_signal_order};
ghost use Rattle.vk_model.specs.Trace.Point.{Action as AnyAction};
ghost use Rattle.vk_model.specs.Trace.PointViews.{action_of, point_of};
ghost use Rattle.vk_queues.specs.PointViews.{past_of};
ghost use Rattle.vk_history.specs.PointViews.{past};
ghost use Rattle.vk_rules.specs.Synchronization as unordered;
ghost use Rattle.vk_findings.specs.Signals.{IsSignalOrder};

use std::alloc::AllocError;
use vk_hazards::{Doing, latest, signal_of};
use vk_history::History;
use vk_model::Point;
use vk_rules::UnorderedSignal;

/// SIGNAL_ORDER: a signal, and the last one of the same semaphore before it.
#[derive(Clone, Copy)]
pub struct SignalOrder<'a> {
    /// The id of the semaphore.
    pub semaphore: u32,
    /// The value that the point signals.
    pub value: u64,
    /// The last point that signaled the semaphore.
    pub last: Point<'a>,
    /// The value that it signaled.
    pub last_value: u64,
}

/// SIGNAL_ORDER: what a point signals, and the last signal of the semaphore, which doesn't come before
/// it. The only error is want of memory.
pub fn signal_order_of<'a>(
    history: &History<'a>,
    point: &Point<'a>,
) -> Result<Option<SignalOrder<'a>>, AllocError>
    ensures broken { IfOk result (λ found. IfSome found (λ s. breaks_signal_order (past history.now) (point_of point.now) ≡ true)) }
    ensures reported { IfOk result (λ found. IfSome found (IsSignalOrder (past history.now) (action_of point.now.action))) }
{
    match vk_rules::signal_order_of(history, point)? {
        Some(signal) => Ok(after_last(history.happened(), signal)),
        None => Ok(None),
    }
}

/// A signal, and the last of some points that signals its semaphore.
fn after_last<'a>(points: &[Point<'a>], signal: UnorderedSignal) -> Option<SignalOrder<'a>>
    ensures { (a : AnyAction) → unordered.IsSignalOrder a signal → IfSome result (IsSignalOrder (past_of points.now) a) }
{
    let last = latest(points, Doing::Signals, signal.semaphore)?;
    let earlier = signal_of(&last)?;
    Some(SignalOrder {
        semaphore: signal.semaphore,
        value: signal.value,
        last,
        last_value: earlier.value,
    })
}
