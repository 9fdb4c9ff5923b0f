ghost use Rattle.std.specs.Prelude.{◌≡◌, ◌∷◌, IfOk};
ghost use Rattle.vk_model.specs.declared.rule.Rule.TheVariants as rule;
ghost use Rattle.vk_model.specs.Trace.PointViews.{point_of};
ghost use Rattle.vk_model.specs.Trace.Structure.{IsOrdered};
ghost use Rattle.vk_history.specs.PointViews.{past};
ghost use Rattle.vk_queues.specs.PointViews.{past_of};
ghost use Rattle.vk_findings.specs.States.{IsFound};

use crate::events::{EventDependency, EventState, event_dependency_of, event_state_of};
use crate::layouts::{LayoutState, OldLayout, layout_of, old_layout_of};
use crate::mappings::{MapState, map_state_of};
use crate::signals::{SignalOrder, signal_order_of};
use crate::transfers::{OwnerState, owner_pair_of};
use std::alloc::{AllocError, Global};
use vk_history::History;
use vk_model::{Point, Rule};
use vk_rules::{Aliased, aliased_of};

/// What a point finds that its rule doesn't allow.
#[derive(Clone, Copy)]
pub enum State<'a> {
    /// LAYOUT: a layout that a command names wrongly.
    Layout(LayoutState<'a>),
    /// OLD_LAYOUT: a subresource that isn't in the old layout of its transition.
    OldLayout(OldLayout<'a>),
    /// MAP_STATE: a resource whose mapping doesn't fit, and how often it was mapped and unmapped.
    MapState(MapState<'a>),
    /// EVENT_STATE: whether an event was set.
    EventState(EventState<'a>),
    /// EVENT_DEPENDENCY: an event that is awaited with other elements than it was set with.
    EventDependency(EventDependency<'a>),
    /// SIGNAL_ORDER: a signal, and the last one of the same semaphore before it.
    SignalOrder(SignalOrder<'a>),
    /// OWNER_PAIR: a release or an acquire, and who owns its resource.
    OwnerPair(OwnerState<'a>),
    /// ALIASED: where a new resource would lie, and another one with which it is in conflict there.
    Aliased(Aliased),
}

/// In which state a point that comes next finds an object, where the point breaks this rule; nothing of
/// a rule that has no variant of `State`. The history is that of the points before it. The only error is
/// want of memory.
pub fn state_of<'a>(
    alloc: Global,
    history: &History<'a>,
    point: &Point<'a>,
    rule: Rule,
) -> Result<Option<State<'a>>, AllocError>
    requires ordered { IsOrdered (point_of point.now ∷ past history.now) }
    ensures { IfOk result (IsFound rule (past history.now) (point_of point.now)) }
{
    match rule {
        Rule::Layout => of_layout(alloc, history, point),
        Rule::OldLayout => of_old_layout(alloc, history, point),
        Rule::MapState => Ok(of_map_state(history, point)),
        Rule::EventState => Ok(of_event_state(history, point)),
        Rule::EventDependency => Ok(of_event_dependency(history, point)),
        Rule::SignalOrder => of_signal_order(history, point),
        Rule::OwnerPair => of_owner_pair(history, point),
        Rule::Aliased => of_aliased(history, point),
        _ => Ok(None),
    }
}

#[tactic(auto, unfolding(vk_model::specs::Rules::Table::breaks))]
fn of_layout<'a>(
    alloc: Global,
    history: &History<'a>,
    point: &Point<'a>,
) -> Result<Option<State<'a>>, AllocError>
    ensures { IfOk result (IsFound rule.Layout (past history.now) (point_of point.now)) }
{
    match layout_of(alloc, history, point)? {
        Some(state) => Ok(Some(State::Layout(state))),
        None => Ok(None),
    }
}

#[tactic(auto, unfolding(vk_model::specs::Rules::Table::breaks))]
fn of_old_layout<'a>(
    alloc: Global,
    history: &History<'a>,
    point: &Point<'a>,
) -> Result<Option<State<'a>>, AllocError>
    ensures { IfOk result (IsFound rule.OldLayout (past history.now) (point_of point.now)) }
{
    match old_layout_of(alloc, history, point)? {
        Some(state) => Ok(Some(State::OldLayout(state))),
        None => Ok(None),
    }
}

#[tactic(auto, unfolding(vk_model::specs::Rules::Table::breaks))]
fn of_map_state<'a>(history: &History<'a>, point: &Point<'a>) -> Option<State<'a>>
    ensures { IsFound rule.MapState (past history.now) (point_of point.now) result }
{
    let state = map_state_of(history, point)?;
    Some(State::MapState(state))
}

#[tactic(auto, unfolding(vk_model::specs::Rules::Table::breaks))]
fn of_event_state<'a>(history: &History<'a>, point: &Point<'a>) -> Option<State<'a>>
    ensures { IsFound rule.EventState (past history.now) (point_of point.now) result }
{
    let state = event_state_of(history, point)?;
    Some(State::EventState(state))
}

#[tactic(auto, unfolding(vk_model::specs::Rules::Table::breaks))]
fn of_event_dependency<'a>(history: &History<'a>, point: &Point<'a>) -> Option<State<'a>>
    ensures { IsFound rule.EventDependency (past history.now) (point_of point.now) result }
{
    let state = event_dependency_of(history, point)?;
    Some(State::EventDependency(state))
}

#[tactic(auto, unfolding(vk_model::specs::Rules::Table::breaks))]
fn of_signal_order<'a>(
    history: &History<'a>,
    point: &Point<'a>,
) -> Result<Option<State<'a>>, AllocError>
    ensures { IfOk result (IsFound rule.SignalOrder (past history.now) (point_of point.now)) }
{
    match signal_order_of(history, point)? {
        Some(state) => Ok(Some(State::SignalOrder(state))),
        None => Ok(None),
    }
}

#[tactic(auto, unfolding(vk_model::specs::Rules::Table::breaks))]
fn of_owner_pair<'a>(
    history: &History<'a>,
    point: &Point<'a>,
) -> Result<Option<State<'a>>, AllocError>
    requires ordered { IsOrdered (point_of point.now ∷ past history.now) }
    ensures { IfOk result (IsFound rule.OwnerPair (past history.now) (point_of point.now)) }
{
    match owner_pair_of(history, point)? {
        Some(state) => Ok(Some(State::OwnerPair(state))),
        None => Ok(None),
    }
}

#[tactic(auto, unfolding(vk_model::specs::Rules::Table::breaks))]
fn of_aliased<'a>(history: &History<'a>, point: &Point<'a>) -> Result<Option<State<'a>>, AllocError>
    ensures { IfOk result (IsFound rule.Aliased (past history.now) (point_of point.now)) }
{
    match aliased_of(history, point)? {
        Some(state) => Ok(Some(State::Aliased(state))),
        None => Ok(None),
    }
}
