use crate::cases::{Candidates, Case};
use crate::defrags::new_defrag;
use crate::lists::EditList;
use crate::places::visible;
use crate::uses::uses_of;
use std::alloc::AllocError;
use vk_model::{Action, BufferInfo, Duplicate, Entry, ImageInfo, Usage};

/// A resource is mapped fewer times than this.
const MOST_MAPS: usize = 6;

/// A fresh id for what the entry makes.
pub fn new_id(case: &Case<'_>, found: &mut Candidates) -> Result<(), AllocError> {
    let id = case.fresh_id(0);
    let Action::Host(entry) = case.refused.action else {
        return Ok(());
    };
    let fresh = match entry {
        Entry::Pool { info, .. } => Entry::Pool { id, info: *info },
        Entry::Buffer { info, .. } => Entry::Buffer { id, info: *info },
        Entry::Image { info, .. } => Entry::Image { id, info: *info },
        Entry::Memory { info, .. } => Entry::Memory { id, info: *info },
        Entry::Semaphore { initial, .. } => Entry::Semaphore {
            id,
            initial: *initial,
        },
        Entry::Event { .. } => Entry::Event { id },
        _ => return new_defrag(case, found),
    };
    replaced(case, case.refused.entry, fresh, found)
}

/// An entry in place of another.
pub fn replaced(
    case: &Case<'_>,
    number: usize,
    entry: Entry,
    found: &mut Candidates,
) -> Result<(), AllocError> {
    let mut edits = case.edits();
    edits.replace(number, entry)?;
    found.add(edits)
}

/// A later entry before the refused one.
pub fn moved_before(
    case: &Case<'_>,
    number: usize,
    entry: &Entry,
    found: &mut Candidates,
) -> Result<(), AllocError> {
    let mut edits = case.edits();
    edits.insert(case.refused.entry, entry.duplicate()?)?;
    edits.remove(number)?;
    found.add(edits)
}

/// An entry before another.
fn inserted(
    case: &Case<'_>,
    number: usize,
    entry: Entry,
    found: &mut Candidates,
) -> Result<(), AllocError> {
    let mut edits = case.edits();
    edits.insert(number, entry)?;
    found.add(edits)
}

/// The submit on another queue.
pub fn queue(case: &Case<'_>, most: u32, found: &mut Candidates) -> Result<(), AllocError> {
    let Some(entry) = case.trace.get(case.refused.entry) else {
        return Ok(());
    };
    for other in 0..most {
        if let Entry::Submit { batches, .. } = entry.duplicate()? {
            let submit = Entry::Submit {
                queue: other,
                batches,
            };
            replaced(case, case.refused.entry, submit, found)?;
        }
    }
    Ok(())
}

/// More usage where the resources are made that the point uses.
pub fn usage(case: &Case<'_>, found: &mut Candidates) -> Result<(), AllocError> {
    if let Action::Host(Entry::Buffer { .. } | Entry::Image { .. }) = case.refused.action {
        if let Some(entry) = case.trace.get(case.refused.entry) {
            replaced(
                case,
                case.refused.entry,
                with_usage(entry, Usage(3))?,
                found,
            )?;
        }
        return Ok(());
    }
    for bits in [Usage::TRANSFER_SRC, Usage::TRANSFER_DST, Usage(3)] {
        let uses = uses_of(case.alloc, case.refused.action)?;
        for one in uses.as_slice() {
            if let Some((number, creator)) = case.creator(one.resource) {
                replaced(case, number, with_usage(creator, bits)?, found)?;
            }
        }
        all_usages(case, bits, found)?;
    }
    Ok(())
}

/// The same of all resources of the point at once.
fn all_usages(case: &Case<'_>, bits: Usage, found: &mut Candidates) -> Result<(), AllocError> {
    let uses = uses_of(case.alloc, case.refused.action)?;
    let mut edits = case.edits();
    for one in uses.as_slice() {
        if let Some((number, creator)) = case.creator(one.resource) {
            edits.replace(number, with_usage(creator, bits)?)?;
        }
    }
    found.add(edits)
}

/// A resource with these bits of usage too.
fn with_usage(entry: &Entry, bits: Usage) -> Result<Entry, AllocError> {
    match entry {
        Entry::Buffer { id, info } => Ok(Entry::Buffer {
            id: *id,
            info: BufferInfo {
                usage: Usage((info.usage.0 & 3) | bits.0),
                ..*info
            },
        }),
        Entry::Image { id, info } => Ok(Entry::Image {
            id: *id,
            info: ImageInfo {
                usage: Usage((info.usage.0 & 3) | bits.0),
                ..*info
            },
        }),
        other => other.duplicate(),
    }
}

/// The buffer is mapped before the entry, or unmapped.
pub fn map_state(case: &Case<'_>, found: &mut Candidates) -> Result<(), AllocError> {
    let number = case.refused.entry;
    match case.refused.action {
        Action::Host(Entry::Map { buffer } | Entry::Destroy { resource: buffer }) => {
            let buffer = *buffer;
            for count in 1..MOST_MAPS {
                let mut edits = case.edits();
                for _ in 0..count {
                    edits.insert(number, Entry::Unmap { buffer })?;
                }
                found.add(edits)?;
            }
            Ok(())
        }
        Action::Host(
            Entry::Unmap { buffer }
            | Entry::Write { buffer, .. }
            | Entry::Read { buffer, .. }
            | Entry::Flush { buffer, .. }
            | Entry::Invalidate { buffer, .. },
        ) => {
            inserted(case, number, Entry::Map { buffer: *buffer }, found)?;
            mapped_elsewhere(case, *buffer, found)
        }
        Action::Host(Entry::EndPass { destroyed, .. }) => {
            unmapped(case, destroyed.as_slice(), found)
        }
        _ => Ok(()),
    }
}

/// The buffer is mapped before the entry, and is in memory that the host sees.
fn mapped_elsewhere(
    case: &Case<'_>,
    buffer: u32,
    found: &mut Candidates,
) -> Result<(), AllocError> {
    if let Some((number, entry)) = visible(case, buffer)? {
        let mut edits = case.edits();
        edits.replace(number, entry)?;
        edits.insert(case.refused.entry, Entry::Map { buffer })?;
        found.add(edits)?;
    }
    Ok(())
}

/// What an end of a pass destroys is unmapped before, as often as it is mapped.
fn unmapped(case: &Case<'_>, destroyed: &[u32], found: &mut Candidates) -> Result<(), AllocError> {
    let mut edits = case.edits();
    for buffer in destroyed {
        unmap_all(case, *buffer, &mut edits)?;
    }
    found.add(edits)
}

/// A buffer is unmapped before the entry, as often as it has been mapped and not unmapped.
pub fn unmap_all(case: &Case<'_>, buffer: u32, edits: &mut EditList) -> Result<(), AllocError> {
    for _ in 0..times_mapped(case, buffer) {
        edits.insert(case.refused.entry, Entry::Unmap { buffer })?;
    }
    Ok(())
}

/// How often a buffer has been mapped and not unmapped.
fn times_mapped(case: &Case<'_>, id: u32) -> usize {
    let mut times: usize = 0;
    for point in case.earlier {
        match point.action {
            Action::Host(Entry::Map { buffer }) if *buffer == id => {
                times = times.saturating_add(1);
            }
            Action::Host(Entry::Unmap { buffer }) if *buffer == id => {
                times = times.saturating_sub(1);
            }
            _ => {}
        }
    }
    times
}
