use crate::cases::{Candidates, Case};
use crate::uses::uses_of;
use std::alloc::AllocError;
use vk_model::{Action, BufferInfo, Entry, ImageInfo, Point, Sharing};

/// Resources are shared by all families where they are made.
pub fn concurrent(
    case: &Case<'_>,
    resources: &[u32],
    found: &mut Candidates,
) -> Result<(), AllocError> {
    let mut edits = case.edits();
    for (number, entry) in case.trace.iter().enumerate() {
        if let Some(id) = entry.made_id() {
            if resources.contains(&id) {
                if let Some(shared) = shared(entry) {
                    edits.replace(number, shared)?;
                }
            }
        }
    }
    found.add_weaker(edits)
}

/// The resources that the point uses, and those that were copied to them, the last copy first.
pub fn sources(case: &Case<'_>) -> Result<Vec<u32>, AllocError> {
    let mut all = Vec::new(case.alloc);
    let uses = uses_of(case.alloc, case.refused.action)?;
    for one in uses.as_slice() {
        all.push(one.resource)?;
    }
    let count = case.earlier.len();
    for turn in 0..count {
        if let Some(point) = case.earlier.get(count - 1 - turn) {
            add_sources(case, point, &mut all)?;
        }
    }
    Ok(all)
}

/// What a command copies to one of these resources is one of them too.
fn add_sources(case: &Case<'_>, point: &Point<'_>, all: &mut Vec<u32>) -> Result<(), AllocError> {
    if let Action::Run(_) = point.action {
        let uses = uses_of(case.alloc, point.action)?;
        let mut is_copied = false;
        for one in uses.as_slice() {
            is_copied = is_copied || (one.is_write && all.contains(&one.resource));
        }
        for one in uses.as_slice() {
            if is_copied && !one.is_write && !all.contains(&one.resource) {
                all.push(one.resource)?;
            }
        }
    }
    Ok(())
}

/// A resource that all families share.
fn shared(entry: &Entry) -> Option<Entry> {
    match entry {
        Entry::Buffer { id, info } => Some(Entry::Buffer {
            id: *id,
            info: BufferInfo {
                sharing: Sharing::Concurrent,
                ..*info
            },
        }),
        Entry::Image { id, info } => Some(Entry::Image {
            id: *id,
            info: ImageInfo {
                sharing: Sharing::Concurrent,
                ..*info
            },
        }),
        _ => None,
    }
}
