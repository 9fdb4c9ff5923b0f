use crate::cases::{Candidates, Case};
use crate::edits::{Change, InBatch};
use crate::entries::unmap_all;
use crate::host_hazards;
use crate::lists::EditList;
use crate::lives::is_live;
use crate::orders::covering;
use crate::pass_lists::without;
use crate::passes::uses_in_pool;
use crate::places::memory_of;
use crate::uses::{Use, meet, uses_of};
use crate::waits::{add_held, held, signal_earlier, signal_for};
use std::alloc::AllocError;
use vk_model::{Action, Batch, Duplicate, Entry, SemaphoreValue, Sequence};

/// So many waits after an end are tried.
const MOST_WAITS: usize = 8;

/// Repairs of the end of an object that is in use: it ends after a wait that follows; the host waits for
/// what uses it; a batch that waits is signaled first; what lies in it is destroyed before.
pub fn in_use(case: &Case<'_>, found: &mut Candidates) -> Result<(), AllocError> {
    let uses = uses_of(case.alloc, case.refused.action)?;
    behind_waits(case, found)?;
    known_complete(case, uses.as_slice(), found)?;
    destroyed_before(case, found)
}

/// The end comes after a wait of the host that follows it.
fn behind_waits(case: &Case<'_>, found: &mut Candidates) -> Result<(), AllocError> {
    let number = case.refused.entry;
    let Some(end) = case.trace.get(number) else {
        return Ok(());
    };
    let waits = case.trace.iter().enumerate().filter(|(place, entry)| {
        *place > number && matches!(entry, Entry::Wait { .. })
    });
    for (place, _) in waits.take(MOST_WAITS) {
        let mut edits = case.edits();
        edits.remove(number)?;
        edits.insert(place.saturating_add(1), end.duplicate()?)?;
        found.add(edits)?;
    }
    Ok(())
}

/// Repairs of a begin or an end of a pass while resources of its pool are in use: the same for all of
/// them.
pub fn pass_busy(case: &Case<'_>, found: &mut Candidates) -> Result<(), AllocError> {
    let uses = uses_in_pool(case)?;
    known_complete(case, uses.as_slice(), found)
}

/// The host waits for what uses some resources; a batch that waits is signaled first.
fn known_complete(case: &Case<'_>, uses: &[Use], found: &mut Candidates) -> Result<(), AllocError> {
    host_hazards::waits(case, uses, found)?;
    for held in [
        StartedBy::Signaled,
        StartedBy::SignaledAfter,
        StartedBy::SignaledEarlier,
        StartedBy::SignaledAlone,
    ] {
        after_held(case, uses, held, found)?;
    }
    Ok(())
}

/// How batches that wait are started.
#[derive(Clone, Copy)]
enum StartedBy {
    /// The host signals what they wait for.
    Signaled,
    /// It does so after a wait for the last signal.
    SignaledAfter,
    /// What signals it later comes before.
    SignaledEarlier,
    /// The host signals what those wait for alone that use the resources.
    SignaledAlone,
}

fn start_held(
    case: &Case<'_>,
    used: &[Use],
    started_by: StartedBy,
    edits: &mut EditList,
) -> Result<(), AllocError> {
    let waits = match started_by {
        StartedBy::SignaledAlone => held_by_users(case, used)?,
        _ => held(case)?,
    };
    match started_by {
        StartedBy::SignaledEarlier => signal_earlier(case, waits.as_slice(), edits),
        _ => {
            let is_after = matches!(started_by, StartedBy::SignaledAfter);
            for wait in waits.as_slice() {
                signal_for(case, edits, *wait, is_after)?;
            }
            Ok(())
        }
    }
}

/// What the batches wait for that aren't started and use some resources.
fn held_by_users(case: &Case<'_>, used: &[Use]) -> Result<Vec<SemaphoreValue>, AllocError> {
    let mut all = Vec::new(case.alloc);
    for (number, entry) in case.trace.iter().enumerate() {
        if number < case.refused.entry {
            if let Entry::Submit { batches, .. } = entry {
                for batch in batches.as_slice() {
                    if uses(case, batch, used)? {
                        add_held(case, batch, &mut all)?;
                    }
                }
            }
        }
    }
    Ok(all)
}

/// Batches that wait are started, and the host waits for those that use some resources.
fn after_held(
    case: &Case<'_>,
    used: &[Use],
    started_by: StartedBy,
    found: &mut Candidates,
) -> Result<(), AllocError> {
    let mut edits = case.edits();
    start_held(case, used, started_by, &mut edits)?;
    let mut waits = Vec::new(case.alloc);
    let mut count = 0;
    for (number, entry) in case.trace.iter().enumerate() {
        if number < case.refused.entry {
            if let Entry::Submit { batches, .. } = entry {
                for (place, batch) in batches.as_slice().iter().enumerate() {
                    if uses(case, batch, used)? {
                        let id = case.fresh_id(count);
                        count = 1u32.saturating_add(count);
                        let at = InBatch {
                            entry: number,
                            batch: place,
                            place: batch.signals.len(),
                        };
                        waits.push(signaled_at(&mut edits, at, id)?)?;
                    }
                }
            }
        }
    }
    if waits.is_empty() {
        return Ok(());
    }
    let waits = Sequence::new(waits);
    edits.insert(case.refused.entry, Entry::Wait { waits })?;
    found.add(edits)
}

fn uses(case: &Case<'_>, batch: &Batch, used: &[Use]) -> Result<bool, AllocError> {
    for command in batch.commands.as_slice() {
        let all = uses_of(case.alloc, Action::Run(command))?;
        if meet(all.as_slice(), used) {
            return Ok(true);
        }
    }
    Ok(false)
}

/// A new semaphore that a batch signals.
fn signaled_at(
    edits: &mut EditList,
    at: InBatch,
    semaphore: u32,
) -> Result<SemaphoreValue, AllocError> {
    let made = Entry::Semaphore {
        id: semaphore,
        initial: 0,
    };
    edits.insert(at.entry, made)?;
    edits.signal(Change::Insert, at, covering(semaphore, 1))?;
    Ok(SemaphoreValue {
        semaphore,
        value: 1,
    })
}

/// What lies in a memory object or a pool is destroyed before that ends, and not later.
fn destroyed_before(case: &Case<'_>, found: &mut Candidates) -> Result<(), AllocError> {
    let ended = match case.refused.action {
        Action::Host(Entry::Free { memory }) => *memory,
        Action::Host(Entry::DropPool { pool }) => *pool,
        _ => return Ok(()),
    };
    let mut edits = case.edits();
    for point in case.earlier {
        if let Action::Host(entry) = point.action {
            if let Some(resource) = entry.made_id() {
                if memory_of(entry) == ended && is_live(case, resource) {
                    if let Action::Host(Entry::DropPool { .. }) = case.refused.action {
                        unmap_all(case, resource, &mut edits)?;
                    }
                    edits.insert(case.refused.entry, Entry::Destroy { resource })?;
                    not_later(case, resource, &mut edits)?;
                }
            }
        }
    }
    found.add(edits)
}

fn not_later(case: &Case<'_>, id: u32, edits: &mut EditList) -> Result<(), AllocError> {
    for (number, entry) in case.trace.iter().enumerate() {
        if number > case.refused.entry {
            match entry {
                Entry::Destroy { resource } if *resource == id => edits.remove(number)?,
                Entry::Unmap { buffer } if *buffer == id => edits.remove(number)?,
                Entry::EndPass { destroyed, .. } if destroyed.as_slice().contains(&id) => {
                    edits.replace(number, without(case, entry, &[id])?)?;
                }
                _ => {}
            }
        }
    }
    Ok(())
}
