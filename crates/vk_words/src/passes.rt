use crate::counts::push_count;
use crate::names::noun_of;
use crate::ranges::push_more;
use std::alloc::AllocError;
use vk_model::Entry;

/// How many resources of a list are named one by one.
const MOST_LISTED: usize = 4;

/// What an entry does with defragmentations and their passes.
pub fn push_pass_entry(out: &mut String, entry: &Entry, trace: &[Entry]) -> Result<(), AllocError> {
    match entry {
        Entry::Defrag {
            id,
            pool,
            max_bytes,
            max_moves,
        } => {
            write!(out, "begins defragmentation {id} of pool {pool}")?;
            push_limits(out, *max_bytes, *max_moves as u64)
        }
        Entry::Pass { defrag } => write!(out, "begins a pass of defragmentation {defrag}"),
        Entry::EndPass {
            defrag,
            ignored,
            destroyed,
        } => {
            write!(out, "ends a pass of defragmentation {defrag}")?;
            push_listed(out, "; staying: ", ignored.as_slice(), trace)?;
            push_listed(out, "; destroyed: ", destroyed.as_slice(), trace)
        }
        Entry::EndDefrag { defrag } => write!(out, "ends defragmentation {defrag}"),
        _ => Ok(()),
    }
}

/// The limits of a pass, of which 0 is none.
fn push_limits(out: &mut String, max_bytes: u64, max_moves: u64) -> Result<(), AllocError> {
    let before = ", with passes of at most ";
    if max_bytes == 0 && max_moves == 0 {
        return Ok(());
    }
    if max_moves == 0 {
        return push_count(out, before, max_bytes, "byte", "bytes");
    }
    if max_bytes == 0 {
        return push_count(out, before, max_moves, "move", "moves");
    }
    push_count(out, before, max_bytes, "byte", "bytes")?;
    push_count(out, " and ", max_moves, "move", "moves")
}

/// The resources of a list of the end of a pass, if there are any.
fn push_listed(
    out: &mut String,
    before: &str,
    resources: &[u32],
    trace: &[Entry],
) -> Result<(), AllocError> {
    for (number, resource) in resources.iter().take(MOST_LISTED).enumerate() {
        out.push_str(if number > 0 { ", " } else { before })?;
        let noun = noun_of(trace, *resource);
        write!(out, "{noun} {resource}")?;
    }
    push_more(out, MOST_LISTED, resources.len(), "resource")
}
