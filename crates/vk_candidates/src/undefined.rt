use crate::cases::{Candidates, Case};
use crate::sharing::sources;
use crate::{contents, images, losses, sharing};
use std::alloc::AllocError;
use vk_model::{Action, Entry};

/// Repairs of a read of an undefined byte: a flush before an invalidation that lost what was
/// written, a transition that keeps the contents, a transfer of ownership; resources that no family
/// owns; bytes that stand in for what nothing wrote.
pub fn read_undefined(case: &Case<'_>, found: &mut Candidates) -> Result<(), AllocError> {
    let sources = sources(case)?;
    for point in case.earlier {
        if let Action::Host(
            Entry::Invalidate {
                buffer,
                offset,
                size,
            },
        ) = point.action
        {
            if sources.contains(buffer) {
                let mut edits = case.edits();
                edits.insert(
                    point.entry,
                    Entry::Flush {
                        buffer: *buffer,
                        offset: *offset,
                        size: *size,
                    },
                )?;
                found.add(edits)?;
            }
        }
    }
    images::kept_contents(case, sources.as_slice(), found)?;
    losses::transfers(case, sources.as_slice(), found)?;
    sharing::concurrent(case, sources.as_slice(), found)?;
    contents::made_up(case, sources.as_slice(), found)
}
