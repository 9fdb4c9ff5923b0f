use crate::points::push_at_point;
use std::alloc::AllocError;
use vk_findings::{EventDependency, EventState, MapState, SignalOrder};
use vk_rules::Aliased;

/// MAP_STATE: whether the memory of a resource is mapped.
pub fn push_mapping(out: &mut String, mapping: MapState<'_>) -> Result<(), AllocError> {
    push_mapped(out, mapping)?;
    if mapping.found.is_mapped {
        let maps = mapping.maps;
        let unmaps = mapping.unmaps;
        write!(out, "is mapped (maps: {maps}, unmaps: {unmaps}")?;
        return push_last(out, mapping);
    }
    match mapping.since {
        Some(point) => push_at_point(out, "isn't mapped since ", point),
        None => out.push_str("was never mapped"),
    }
}

/// Adds what is mapped with a resource.
fn push_mapped(out: &mut String, mapping: MapState<'_>) -> Result<(), AllocError> {
    let resource = mapping.found.resource;
    match mapping.found.memory {
        Some(memory) => write!(out, "memory object {memory} of resource {resource} "),
        None => write!(out, "the memory of resource {resource} "),
    }
}

fn push_last(out: &mut String, mapping: MapState<'_>) -> Result<(), AllocError> {
    match mapping.since {
        Some(point) => {
            push_at_point(out, ", the last at ", point)?;
            out.push_str(")")
        }
        None => out.push_str(")"),
    }
}

/// EVENT_STATE: where an event was set.
pub fn push_event(out: &mut String, state: EventState<'_>) -> Result<(), AllocError> {
    let event = state.event;
    let Some(point) = state.set else {
        return write!(out, "event {event} was never set");
    };
    let queue = point.queue;
    write!(out, "event {event} was set at ")?;
    push_at_point(out, "", point)?;
    write!(
        out,
        " on queue {queue}; it is set once, and awaited on that queue"
    )
}

/// EVENT_DEPENDENCY: which element of an await differs.
pub fn push_event_dependency(
    out: &mut String,
    state: EventDependency<'_>,
) -> Result<(), AllocError> {
    let event = state.event;
    let element = state.element;
    match state.set {
        Some(point) => {
            write!(
                out,
                "element {element} of the await isn't that of the set of event {event} at "
            )?;
            push_at_point(out, "", point)
        }
        None => write!(out, "event {event} was never set"),
    }
}

/// SIGNAL_ORDER: which signal came last.
pub fn push_signal_order(out: &mut String, order: SignalOrder<'_>) -> Result<(), AllocError> {
    let semaphore = order.semaphore;
    let value = order.value;
    let last = order.last_value;
    write!(out, "signals semaphore {semaphore} to {value}; ")?;
    push_at_point(out, "", order.last)?;
    write!(out, " signaled it to {last} and isn't known to come before")
}

/// ALIASED: which resource lies there.
pub fn push_aliased(out: &mut String, aliased: Aliased) -> Result<(), AllocError> {
    let memory = aliased.memory;
    let other = aliased.other;
    push_range(out, aliased.offset, aliased.size)?;
    write!(out, " of memory object {memory} ")?;
    if aliased.by_bytes {
        write!(out, "have some in common with resource {other}, at ")?;
    } else {
        write!(
            out,
            "share a page of 1024 with resource {other}, one linear and the other optimal, at "
        )?;
    }
    push_range(out, aliased.other_offset, aliased.other_size)
}

/// Adds a range of bytes.
fn push_range(out: &mut String, offset: u64, size: u64) -> Result<(), AllocError> {
    let last = offset.saturating_add(size).saturating_sub(1);
    write!(out, "bytes {offset} to {last}")
}
