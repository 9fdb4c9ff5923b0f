use crate::layouts::{push_layout_state, push_old_layout};
use crate::objects::{
    push_aliased, push_event, push_event_dependency, push_mapping, push_signal_order,
};
use crate::transfers::push_transfer;
use std::alloc::{AllocError, Global};
use vk_findings::State;

/// What a point finds that its rule doesn't allow, in words. The only error is want of memory.
pub fn state_words(alloc: Global, state: State<'_>) -> Result<String, AllocError> {
    let mut out = String::new(alloc);
    match state {
        State::Layout(layout) => push_layout_state(&mut out, layout)?,
        State::OldLayout(layout) => push_old_layout(&mut out, layout)?,
        State::MapState(mapping) => push_mapping(&mut out, mapping)?,
        State::EventState(event) => push_event(&mut out, event)?,
        State::EventDependency(event) => push_event_dependency(&mut out, event)?,
        State::SignalOrder(signal) => push_signal_order(&mut out, signal)?,
        State::OwnerPair(owner) => push_transfer(&mut out, owner)?,
        State::Aliased(aliased) => push_aliased(&mut out, aliased)?,
    }
    Ok(out)
}
