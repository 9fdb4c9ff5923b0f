use crate::pass_states::{push_moving, push_state};
use std::alloc::{AllocError, Global};
use vk_findings::{BusyResource, PassFact};
use vk_words::push_at;

/// What is so of a point that doesn't fit the passes of defragmentations, in words. The only error is
/// want of memory.
pub fn pass_words(alloc: Global, fact: PassFact<'_>) -> Result<String, AllocError> {
    let mut out = String::new(alloc);
    match fact {
        PassFact::State(state) => push_state(&mut out, state)?,
        PassFact::Busy(busy) => push_busy(&mut out, busy)?,
        PassFact::Write(moving) => push_moving(&mut out, moving)?,
    }
    Ok(out)
}

/// Adds a command that uses a resource of a pool.
fn push_busy(out: &mut String, busy: BusyResource) -> Result<(), AllocError> {
    let resource = busy.resource;
    let pool = busy.pool;
    write!(
        out,
        "resource {resource} of pool {pool} is used by command "
    )?;
    push_at(out, busy.command)?;
    if busy.is_started {
        out.push_str(", which isn't known complete")
    } else {
        out.push_str(", which isn't known complete: its batch waits")
    }
}
