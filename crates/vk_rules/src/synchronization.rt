ghost use Rattle.std.specs.Prelude.{◌≡◌, ◌==◌, List, Contains, nat_le, nat_lt, not, true, false, length, slice_get, Some, IfOk, IfSome, is_some};
ghost use Rattle.std.specs.Option.{option_map};
ghost use Rattle.std.specs.List.{list_any};
ghost use Rattle.vk_model.specs.Basics.{holds};
ghost use Rattle.vk_model.specs.declared.command.Dependency.{Dependency as AnyDependency};
ghost use Rattle.vk_model.specs.Trace.Order.{counter, signal_of};
ghost use Rattle.vk_model.specs.Trace.Point.{Past};
ghost use Rattle.vk_model.specs.Rules.Synchronization as sync;
ghost use Rattle.vk_model.specs.Trace.PointViews.{action_of, point_of};
ghost use Rattle.vk_history.specs.PointViews.{past};
ghost use Rattle.vk_rules.specs.Synchronization.{AreOthers, IsDifference, IsEventDependency, IsEventUse, IsSignalOrder, is_set, same_one};

use std::alloc::AllocError;
use vk_history::{History, signal_of};
use vk_model::{Action, Cmd, Dependency, Entry, Point, SemaphoreValue};

/// EVENT_STATE: an event that is set again, or awaited on a queue that didn't set it.
#[derive(Clone, Copy)]
pub struct EventUse {
    /// The id of the event.
    pub event: u32,
    /// Whether it was set, on any queue.
    pub is_set: bool,
}

/// EVENT_DEPENDENCY: an event that is awaited with other elements than it was set with.
#[derive(Clone, Copy)]
pub struct OtherElements {
    /// The id of the event.
    pub event: u32,
    /// The first index at which the elements of the two differ, or only one of them has an element;
    /// 0 where no point set the event.
    pub element: usize,
}

/// SIGNAL_ORDER: a signal that an earlier one of the same semaphore doesn't come before.
#[derive(Clone, Copy)]
pub struct UnorderedSignal {
    /// The id of the semaphore.
    pub semaphore: u32,
    /// The value that the point signals.
    pub value: u64,
}

/// EVENT_STATE: a set of an event that was set before, or an await of one that wasn't set on the queue.
pub fn breaks_event_state(history: &History<'_>, point: &Point<'_>) -> bool
    ensures { result ≡ sync.breaks_event_state (past history.now) (point_of point.now) }
{
    event_state_of(history, point).is_some()
}

/// EVENT_STATE: the event of a point, and whether it was set, where that doesn't fit.
pub fn event_state_of(history: &History<'_>, point: &Point<'_>) -> Option<EventUse>
    ensures broken { is_some result ≡ sync.breaks_event_state (past history.now) (point_of point.now) }
    ensures reported { IfSome result (IsEventUse (past history.now) point.now.queue (action_of point.now.action)) }
{
    match point.action {
        Action::Run(Cmd::Set { event, .. }) => set_again(history, *event),
        Action::Run(Cmd::Await { event, .. }) => awaited_unset(history, point.queue, *event),
        _ => None,
    }
}

fn set_again(history: &History<'_>, event: u32) -> Option<EventUse>
    ensures broken { is_some result ≡ nat_lt 0 (length (sync.sets (past history.now) event)) }
    ensures event { IfSome result (λ m. m.event ≡ event) }
    ensures set { IfSome result (λ m. m.is_set ≡ is_set (past history.now) event) }
    ensures again { IfSome result (λ m. m.is_set ≡ true) }
{
    let is_set = was_set(history, event);
    if is_set {
        Some(EventUse { event, is_set })
    } else {
        None
    }
}

fn awaited_unset(history: &History<'_>, queue: u32, event: u32) -> Option<EventUse>
    ensures broken { is_some result ≡ (length (sync.sets (sync.on_queue queue (past history.now)) event) == 0) }
    ensures event { IfSome result (λ m. m.event ≡ event) }
    ensures set { IfSome result (λ m. m.is_set ≡ is_set (past history.now) event) }
    ensures unset { IfSome result (λ m. is_set (sync.on_queue queue (past history.now)) event ≡ false) }
{
    if was_set_on(history, queue, event) {
        None
    } else {
        Some(EventUse {
            event,
            is_set: was_set(history, event),
        })
    }
}

fn was_set(history: &History<'_>, event: u32) -> bool
    ensures { result ≡ is_set (past history.now) event }
{
    history.is_judged();
    history.last_set(event).is_some()
}

fn was_set_on(history: &History<'_>, queue: u32, event: u32) -> bool
    ensures { not result ≡ (length (sync.sets (sync.on_queue queue (past history.now)) event) == 0) }
{
    history.is_judged();
    match history.last_set(event) {
        Some(set) => set.queue == queue,
        None => false,
    }
}

/// EVENT_DEPENDENCY: an await whose elements differ from those of the set.
pub fn breaks_event_dependency(history: &History<'_>, point: &Point<'_>) -> bool
    ensures { result ≡ sync.breaks_event_dependency (past history.now) (point_of point.now) }
{
    event_dependency_of(history, point).is_some()
}

/// EVENT_DEPENDENCY: which element of a point's await is another one than that of the event's set.
pub fn event_dependency_of(history: &History<'_>, point: &Point<'_>) -> Option<OtherElements>
    ensures broken { is_some result ≡ sync.breaks_event_dependency (past history.now) (point_of point.now) }
    ensures reported { IfSome result (IsEventDependency (past history.now) (action_of point.now.action)) }
{
    match point.action {
        Action::Run(Cmd::Await { event, elements }) => {
            awaited_otherwise(history, *event, elements.as_slice())
        }
        _ => None,
    }
}

fn awaited_otherwise(
    history: &History<'_>,
    event: u32,
    elements: &[Dependency],
) -> Option<OtherElements>
    ensures broken { is_some result ≡ not (list_any (sync.same_dependencies elements.now) (sync.sets (past history.now) event)) }
    ensures reported { IfSome result (AreOthers (past history.now) event elements.now) }
{
    history.is_judged();
    match history.last_set(event) {
        Some(set) => otherwise_than(event, elements, set.elements),
        None => Some(OtherElements { event, element: 0 }),
    }
}

fn otherwise_than(event: u32, elements: &[Dependency], set: &[Dependency]) -> Option<OtherElements>
    ensures broken { is_some result ≡ not (sync.same_dependencies elements.now set.now) }
    ensures reported { (past : Past) → ((es : List AnyDependency) → Contains (sync.sets past event) es → set.now ≡ es) → IfSome result (AreOthers past event elements.now) }
{
    let element = first_difference(elements, set)?;
    Some(OtherElements { event, element })
}

/// The first index at which two lists of elements differ, or only one of them has an element.
fn first_difference(awaited: &[Dependency], set: &[Dependency]) -> Option<usize>
    ensures broken { is_some result ≡ not (sync.same_dependencies awaited.now set.now) }
    ensures reported { IfSome result (IsDifference awaited.now set.now) }
{
    let count = awaited.len().max(set.len());
    for index in 0..count {
        if !same_at(awaited, set, index) {
            return Some(index);
        }
    }
    None
}

/// Whether two lists have equal elements at an index, or none.
fn same_at(awaited: &[Dependency], set: &[Dependency], index: usize) -> bool
    ensures { result ≡ same_one (slice_get awaited.now index) (slice_get set.now index) }
{
    match (awaited.get(index), set.get(index)) {
        (Some(one), Some(other)) => is_same(one, other),
        (None, None) => true,
        _ => false,
    }
}

fn is_same(one: &Dependency, other: &Dependency) -> bool
    ensures { result ≡ sync.same_dependency one.now other.now }
{
    one.source_stages.0 == other.source_stages.0
        && one.source_accesses.0 == other.source_accesses.0
        && one.destination_stages.0 == other.destination_stages.0
        && one.destination_accesses.0 == other.destination_accesses.0
}

/// SIGNAL_VALUE: the value isn't above the initial one and all earlier signals.
pub fn breaks_signal_value(history: &History<'_>, point: &Point<'_>) -> bool
    ensures { result ≡ sync.breaks_signal_value (past history.now) (point_of point.now) }
{
    match signal_of(point) {
        Some(signal) => is_reached(history, signal.semaphore, signal.value),
        None => false,
    }
}

/// SIGNAL_ORDER: an earlier signal of the semaphore doesn't come before this one. The only error is
/// want of memory.
pub fn breaks_signal_order(history: &History<'_>, point: &Point<'_>) -> Result<bool, AllocError>
    ensures { IfOk result (λ broken. broken ≡ sync.breaks_signal_order (past history.now) (point_of point.now)) }
{
    let found = signal_order_of(history, point)?;
    Ok(found.is_some())
}

/// SIGNAL_ORDER: what a point signals, where an earlier signal of the semaphore doesn't come before it.
/// The only error is want of memory.
pub fn signal_order_of(
    history: &History<'_>,
    point: &Point<'_>,
) -> Result<Option<UnorderedSignal>, AllocError>
    ensures broken { IfOk result (λ found. is_some found ≡ sync.breaks_signal_order (past history.now) (point_of point.now)) }
    ensures reported { IfOk result (λ found. IfSome found (IsSignalOrder (action_of point.now.action))) }
{
    history.is_judged();
    match signal_of(point) {
        Some(signal) => unordered(history, point, signal),
        None => Ok(None),
    }
}

fn unordered(
    history: &History<'_>,
    point: &Point<'_>,
    signal: SemaphoreValue,
) -> Result<Option<UnorderedSignal>, AllocError>
    requires { signal_of (action_of point.now.action) ≡ Some (signal.semaphore, signal.value) }
    ensures broken { IfOk result (λ found. is_some found ≡ sync.breaks_signal_order (past history.now) (point_of point.now)) }
    ensures reported { IfOk result (λ found. IfSome found (IsSignalOrder (action_of point.now.action))) }
{
    if is_unordered(history, point, signal.semaphore)? {
        Ok(Some(UnorderedSignal {
            semaphore: signal.semaphore,
            value: signal.value,
        }))
    } else {
        Ok(None)
    }
}

/// Whether a signal of a semaphore misses an earlier one.
fn is_unordered(
    history: &History<'_>,
    point: &Point<'_>,
    semaphore: u32,
) -> Result<bool, AllocError>
    requires { option_map (λ x. x.0) (signal_of (action_of point.now.action)) ≡ Some semaphore }
    ensures { IfOk result (λ broken. broken ≡ sync.breaks_signal_order (past history.now) (point_of point.now)) }
{
    history.is_judged();
    match history.last_signal(semaphore) {
        Some(last) => {
            let new_node = history.new_node(point)?;
            Ok(!new_node.follows(last.line, last.place))
        }
        None => Ok(false),
    }
}

/// Whether the counter of a semaphore has reached a value.
fn is_reached(history: &History<'_>, semaphore: u32, value: u64) -> bool
    ensures { result ≡ holds (counter (past history.now) semaphore) (nat_le value) }
{
    match history.counter(semaphore) {
        Some(counter) => value <= counter,
        None => false,
    }
}

/// WAIT_NEVER: the host waits for a value above the counter.
pub fn breaks_wait_never(history: &History<'_>, point: &Point<'_>) -> bool
    ensures { result ≡ sync.breaks_wait_never (past history.now) (point_of point.now) }
{
    match point.action {
        Action::Host(Entry::Wait { waits }) => waits_for_more(history, waits.as_slice()),
        _ => false,
    }
}

fn waits_for_more(history: &History<'_>, waits: &[SemaphoreValue]) -> bool
    ensures { result ≡ list_any (λ w. holds (counter (past history.now) w.semaphore) (λ c. nat_lt c w.value)) waits.now }
{
    waits.iter().any(|wait| is_beyond(history, wait))
}

fn is_beyond(history: &History<'_>, wait: &SemaphoreValue) -> bool
    ensures { result ≡ holds (counter (past history.now) wait.now.semaphore) (λ c. nat_lt c wait.now.value) }
{
    match history.counter(wait.semaphore) {
        Some(counter) => counter < wait.value,
        None => false,
    }
}
