use std::alloc::AllocError;
use vk_findings::{MovingResource, NoPass, OpenDefrag, OpenPass, PassState};
use vk_hazards::at_of;
use vk_model::Point;
use vk_words::push_at;

/// PASS_STATE: what a point doesn't fit.
pub fn push_state(out: &mut String, state: PassState<'_>) -> Result<(), AllocError> {
    match state {
        PassState::Defrag(defrag) => push_defrag(out, defrag),
        PassState::Pass(pass) => push_pass(out, pass),
        PassState::NoPass(none) => push_no_pass(out, none),
        PassState::Moving(resource) => push_moving(out, resource),
    }
}

/// Adds a defragmentation that hasn't ended.
fn push_defrag(out: &mut String, open: OpenDefrag<'_>) -> Result<(), AllocError> {
    let defrag = open.defrag;
    let pool = open.pool;
    write!(
        out,
        "defragmentation {defrag} of pool {pool} hasn't ended: "
    )?;
    push_begun(out, open.begun)
}

/// Adds a pass that is open.
fn push_pass(out: &mut String, pass: OpenPass<'_>) -> Result<(), AllocError> {
    let defrag = pass.defrag;
    write!(out, "a pass of defragmentation {defrag} is open: ")?;
    push_begun(out, pass.begun)
}

/// Adds that no pass of a defragmentation is open, and which one is.
fn push_no_pass(out: &mut String, none: NoPass<'_>) -> Result<(), AllocError> {
    let defrag = none.defrag;
    write!(out, "no pass of defragmentation {defrag} is open")?;
    match none.other {
        Some(pass) => {
            out.push_str("; ")?;
            push_pass(out, pass)
        }
        None => Ok(()),
    }
}

/// Adds a resource that lies in a pool of which a pass is open.
pub fn push_moving(out: &mut String, moving: MovingResource<'_>) -> Result<(), AllocError> {
    let resource = moving.resource;
    let pool = moving.pool;
    write!(out, "resource {resource} lies in pool {pool}; ")?;
    push_pass(out, moving.pass)
}

/// Adds which entry began it.
fn push_begun(out: &mut String, point: Point<'_>) -> Result<(), AllocError> {
    out.push_str("begun by entry ")?;
    push_at(out, at_of(&point))
}
