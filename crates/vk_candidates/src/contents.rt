use crate::cases::{Candidates, Case, place_of};
use crate::edits::InBatch;
use crate::hazards::barrier;
use crate::uses::{has, uses_of};
use std::alloc::AllocError;
use vk_model::{
    Accesses, Action, Cmd, Dependency, Element, Entry, ImageElement, Layout, Length, Place, Point,
    Sequence, Stages,
};

/// No more bytes are made up.
const MOST: u64 = 65_536;

/// Bytes 0 stand in for what nothing wrote, in one of some resources: the host writes them where a buffer is made, or a command before the first one that uses it; an
/// image is cleared after its first transition; or the host writes what it reads, right before.
pub fn made_up(
    case: &Case<'_>,
    resources: &[u32],
    found: &mut Candidates,
) -> Result<(), AllocError> {
    for id in resources {
        match case.creator(*id) {
            Some((number, Entry::Buffer { info, .. })) => {
                let memory_type = type_at(case, info.place);
                if memory_type != 0 && info.size <= MOST {
                    zeroed(case, number, *id, info.size, memory_type == 2, found)?;
                }
                filled(case, *id, found)?;
            }
            Some((_, Entry::Image { .. })) => cleared(case, *id, found)?,
            _ => {}
        }
    }
    filled_last(case, found)?;
    written_before(case, found)
}

/// A fill of what the host reads, after the last command that writes to its buffer, and a barrier
/// between the two.
fn filled_last(case: &Case<'_>, found: &mut Candidates) -> Result<(), AllocError> {
    let Action::Host(
        Entry::Read {
            buffer,
            offset,
            size,
        },
    ) = case.refused.action
    else {
        return Ok(());
    };
    let Some(last) = last_write(case, *buffer)? else {
        return Ok(());
    };
    let first: u64 = *offset / 4 * 4;
    let end = offset.saturating_add(*size).saturating_add(3) / 4 * 4;
    for size in [Length::Bytes(end.saturating_sub(first)), Length::Whole] {
        let fill = Cmd::Fill {
            buffer: *buffer,
            offset: first,
            size,
            word: 0,
        };
        let at = InBatch {
            place: last.place.saturating_add(1),
            ..last
        };
        let mut edits = case.edits();
        edits.insert_command(at, barrier(case, after_writes())?)?;
        edits.insert_command(at, fill)?;
        found.add_stand_in(edits)?;
    }
    Ok(())
}

/// The last command that writes to a resource.
fn last_write(case: &Case<'_>, resource: u32) -> Result<Option<InBatch>, AllocError> {
    let mut last = None;
    for point in case.earlier {
        if let Action::Run(_) = point.action {
            let uses = uses_of(case.alloc, point.action)?;
            for one in uses.as_slice() {
                if one.resource == resource && one.is_write {
                    last = Some(place_of(point));
                }
            }
        }
    }
    Ok(last)
}

/// From writes to reads and writes of transfers.
fn after_writes() -> Dependency {
    Dependency {
        source_stages: Stages::TRANSFER,
        source_accesses: Accesses::TRANSFER_WRITE,
        destination_stages: Stages::TRANSFER,
        destination_accesses: Accesses(6144),
    }
}

/// A fill of a buffer, and a barrier, before the first command that uses it.
fn filled(case: &Case<'_>, buffer: u32, found: &mut Candidates) -> Result<(), AllocError> {
    for point in case.earlier {
        if let Action::Run(_) = point.action {
            let uses = uses_of(case.alloc, point.action)?;
            if has(uses.as_slice(), buffer) {
                let fill = Cmd::Fill {
                    buffer,
                    offset: 0,
                    size: Length::Whole,
                    word: 0,
                };
                return written_at(case, place_of(point), fill, found);
            }
        }
    }
    Ok(())
}

/// A command that writes, and a barrier after it.
fn written_at(
    case: &Case<'_>,
    at: InBatch,
    command: Cmd,
    found: &mut Candidates,
) -> Result<(), AllocError> {
    let mut edits = case.edits();
    edits.insert_command(at, command)?;
    edits.insert_command(at, barrier(case, after_writes())?)?;
    found.add_stand_in(edits)
}

/// A clear of an image, and a barrier, after the first transition to a layout for it.
fn cleared(case: &Case<'_>, image: u32, found: &mut Candidates) -> Result<(), AllocError> {
    for point in case.earlier {
        if let Some(range) = transition_of(point, image) {
            let clear = Cmd::Clear {
                image,
                layout: range.new_layout,
                color: [0, 0, 0, 0],
                ranges: Sequence::new(vec![in case.alloc; range.range]?),
            };
            let at = place_of(point);
            let after = InBatch {
                place: at.place.saturating_add(1),
                ..at
            };
            return written_at(case, after, clear, found);
        }
    }
    Ok(())
}

/// The transition of an image to a layout for clears, on a queue that clears.
fn transition_of(point: &Point<'_>, image: u32) -> Option<ImageElement> {
    let Action::Run(Cmd::Barrier { elements }) = point.action else {
        return None;
    };
    for element in elements.as_slice() {
        if let Element::Image(range) = element {
            let new = range.new_layout;
            let is_for_clears = new == Layout::GENERAL || new == Layout::TRANSFER_DST_OPTIMAL;
            if range.image == image && is_for_clears && point.queue < 2 {
                return Some(*range);
            }
        }
    }
    None
}

/// The memory type of a place.
fn type_at(case: &Case<'_>, place: Place) -> u32 {
    let id = match place {
        Place::Dedicated { memory_type } => return memory_type,
        Place::Pool { pool } | Place::PoolUpper { pool } => pool,
        Place::Memory { memory, .. } => memory,
    };
    match case.creator(id) {
        Some((_, Entry::Memory { info, .. })) => info.memory_type,
        Some((_, Entry::Pool { info, .. })) => info.memory_type,
        _ => 0,
    }
}

/// A buffer is written with bytes 0 right after it is made.
fn zeroed(
    case: &Case<'_>,
    number: usize,
    buffer: u32,
    size: u64,
    is_cached: bool,
    found: &mut Candidates,
) -> Result<(), AllocError> {
    let after = number.saturating_add(1);
    let mut edits = case.edits();
    edits.insert(after, Entry::Map { buffer })?;
    edits.insert(after, zeros(case, buffer, 0, size)?)?;
    if is_cached {
        edits.insert(
            after,
            Entry::Flush {
                buffer,
                offset: 0,
                size: Length::Whole,
            },
        )?;
    }
    edits.insert(after, Entry::Unmap { buffer })?;
    found.add_stand_in(edits)
}

fn zeros(case: &Case<'_>, buffer: u32, offset: u64, size: u64) -> Result<Entry, AllocError> {
    let mut bytes = Vec::new(case.alloc);
    for _ in 0..size.min(MOST) {
        bytes.push(0)?;
    }
    Ok(Entry::Write {
        buffer,
        offset,
        bytes: Sequence::new(bytes),
    })
}

/// The host writes what it reads, right before.
fn written_before(case: &Case<'_>, found: &mut Candidates) -> Result<(), AllocError> {
    if let Action::Host(
        Entry::Read {
            buffer,
            offset,
            size,
        },
    ) = case.refused.action
    {
        let write = zeros(case, *buffer, *offset, *size)?;
        let mut edits = case.edits();
        edits.insert(case.refused.entry, write)?;
        found.add_stand_in(edits)?;
    }
    Ok(())
}
