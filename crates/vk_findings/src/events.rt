ghost use Rattle.std.specs.Prelude.{◌≡◌, IfSome, is_some, option_map};
ghost use Rattle.std.specs.List.{find};
ghost use Rattle.vk_model.specs.Rules.Synchronization as rules;
ghost use Rattle.vk_model.specs.Trace.PointViews.{action_of, point_of};
ghost use Rattle.vk_queues.specs.PointViews.{past_of};
ghost use Rattle.vk_history.specs.PointViews.{past};
ghost use Rattle.vk_findings.specs.Events.{IsEventState, IsEventDependency, sets_event};

use vk_history::History;
use vk_model::{Action, Cmd, Point};

/// EVENT_STATE: whether an event was set.
#[derive(Clone, Copy)]
pub struct EventState<'a> {
    /// The id of the event.
    pub event: u32,
    /// The last point that set it, on any queue. An await needs one on its own queue, a set none.
    pub set: Option<Point<'a>>,
}

/// EVENT_DEPENDENCY: an event that is awaited with other elements than it was set with.
#[derive(Clone, Copy)]
pub struct EventDependency<'a> {
    /// The id of the event.
    pub event: u32,
    /// The last point that set it.
    pub set: Option<Point<'a>>,
    /// The first index at which the elements of the two differ, or only one of them has an element;
    /// 0 where no point set the event.
    pub element: usize,
}

/// EVENT_STATE: which point set the event of a point, where that doesn't fit.
pub fn event_state_of<'a>(history: &History<'a>, point: &Point<'a>) -> Option<EventState<'a>>
    ensures broken { is_some result ≡ rules.breaks_event_state (past history.now) (point_of point.now) }
    ensures reported { IfSome result (IsEventState (past history.now) point.now.queue (action_of point.now.action)) }
{
    let found = vk_rules::event_state_of(history, point)?;
    Some(EventState {
        event: found.event,
        set: last_set(history.happened(), found.event),
    })
}

/// EVENT_DEPENDENCY: which element of a point's await is another one than that of the event's set, and
/// which point set it.
pub fn event_dependency_of<'a>(
    history: &History<'a>,
    point: &Point<'a>,
) -> Option<EventDependency<'a>>
    ensures broken { is_some result ≡ rules.breaks_event_dependency (past history.now) (point_of point.now) }
    ensures reported { IfSome result (IsEventDependency (past history.now) (action_of point.now.action)) }
{
    let found = vk_rules::event_dependency_of(history, point)?;
    Some(EventDependency {
        event: found.event,
        set: last_set(history.happened(), found.event),
        element: found.element,
    })
}

/// The last of some points that sets an event.
fn last_set<'a>(points: &[Point<'a>], event: u32) -> Option<Point<'a>>
    ensures { option_map point_of result ≡ find (sets_event event) (past_of points.now) }
{
    let mut found = None;
    for point in points {
        if sets(event, point) {
            found = Some(*point);
        }
    }
    found
}

/// Whether a point sets an event.
fn sets(event: u32, point: &Point<'_>) -> bool
    ensures { result ≡ sets_event event (point_of point.now) }
{
    match point.action {
        Action::Run(Cmd::Set { event: set, .. }) => event == *set,
        _ => false,
    }
}
