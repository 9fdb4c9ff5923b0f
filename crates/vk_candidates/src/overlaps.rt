use crate::cases::{Candidates, Case, place_of};
use crate::edits::InBatch;
use crate::hazards::barrier;
use std::alloc::AllocError;
use vk_model::{Accesses, Action, Cmd, Dependency, Duplicate, Length, Sequence, Stages};

/// A command is taken apart into at most so many.
pub const MOST: usize = 8;

/// What overlaps in one command is done by commands one after another; transitions by barriers one
/// after another.
pub fn overlap(case: &Case<'_>, found: &mut Candidates) -> Result<(), AllocError> {
    let Action::Run(command) = case.refused.action else {
        return Ok(());
    };
    let count = parts(command).min(MOST);
    let place = place_of(&case.refused);
    let mut edits = case.edits();
    for number in 0..count {
        let one = part(case, command, number)?;
        if number == 0 {
            edits.replace_command(place, one)?;
        } else {
            let next = InBatch {
                place: place.place.saturating_add(1),
                ..place
            };
            edits.insert_command(next, barrier(case, between_writes())?)?;
            edits.insert_command(next, one)?;
        }
    }
    if count > 1 {
        found.add(edits)?;
    }
    Ok(())
}

fn between_writes() -> Dependency {
    Dependency {
        source_stages: Stages::TRANSFER,
        source_accesses: Accesses::TRANSFER_WRITE,
        destination_stages: Stages::TRANSFER,
        destination_accesses: Accesses::TRANSFER_WRITE,
    }
}

/// How many parts a command has.
pub fn parts(command: &Cmd) -> usize {
    match command {
        Cmd::Copy { regions, .. } => regions.len(),
        Cmd::Clear { ranges, .. } => ranges.len(),
        Cmd::CopyIn { regions, .. } | Cmd::CopyOut { regions, .. } => regions.len(),
        Cmd::CopyImage { regions, .. } => regions.len(),
        Cmd::Barrier { elements } => elements.len(),
        _ => 0,
    }
}

/// One part of a command.
pub fn part(case: &Case<'_>, command: &Cmd, number: usize) -> Result<Cmd, AllocError> {
    match command {
        Cmd::Copy {
            source,
            destination,
            regions,
        } => Ok(Cmd::Copy {
            source: *source,
            destination: *destination,
            regions: only(case, regions.as_slice(), number)?,
        }),
        Cmd::Clear {
            image,
            layout,
            color,
            ranges,
        } => Ok(Cmd::Clear {
            image: *image,
            layout: *layout,
            color: *color,
            ranges: only(case, ranges.as_slice(), number)?,
        }),
        Cmd::Barrier { elements } => Ok(Cmd::Barrier {
            elements: only(case, elements.as_slice(), number)?,
        }),
        _ => image_part(case, command, number),
    }
}

fn image_part(case: &Case<'_>, command: &Cmd, number: usize) -> Result<Cmd, AllocError> {
    match command {
        Cmd::CopyIn {
            buffer,
            image,
            layout,
            regions,
        } => Ok(Cmd::CopyIn {
            buffer: *buffer,
            image: *image,
            layout: *layout,
            regions: only(case, regions.as_slice(), number)?,
        }),
        Cmd::CopyOut {
            image,
            layout,
            buffer,
            regions,
        } => Ok(Cmd::CopyOut {
            image: *image,
            layout: *layout,
            buffer: *buffer,
            regions: only(case, regions.as_slice(), number)?,
        }),
        Cmd::CopyImage {
            source,
            source_layout,
            destination,
            destination_layout,
            regions,
        } => Ok(Cmd::CopyImage {
            source: *source,
            source_layout: *source_layout,
            destination: *destination,
            destination_layout: *destination_layout,
            regions: only(case, regions.as_slice(), number)?,
        }),
        other => other.duplicate(),
    }
}

/// One item of a list; the last part has the items that are left.
fn only<T: Copy + Drop>(
    case: &Case<'_>,
    items: &[T],
    number: usize,
) -> Result<Sequence<T>, AllocError> {
    let mut all = Vec::new(case.alloc);
    for (place, item) in items.iter().enumerate() {
        if place == number || (place > number && number == MOST - 1) {
            all.push(*item)?;
        }
    }
    Ok(Sequence::new(all))
}

/// Fills that write whole words, also before the first byte and after the last one.
pub fn align(case: &Case<'_>, found: &mut Candidates) -> Result<(), AllocError> {
    let Action::Run(
        Cmd::Fill {
            buffer,
            offset,
            size,
            word,
        },
    ) = case.refused.action
    else {
        return Ok(());
    };
    let first: u64 = *offset / 4 * 4;
    let size = match size {
        Length::Whole => Length::Whole,
        Length::Bytes(bytes) => {
            let end = offset.saturating_add(*bytes).saturating_add(3) / 4 * 4;
            Length::Bytes(end.saturating_sub(first))
        }
    };
    let mut edits = case.edits();
    edits.replace_command(
        place_of(&case.refused),
        Cmd::Fill {
            buffer: *buffer,
            offset: first,
            size,
            word: *word,
        },
    )?;
    found.add(edits)
}
