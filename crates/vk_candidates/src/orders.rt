use crate::cases::Case;
use crate::edits::Change;
use crate::lists::EditList;
use std::alloc::AllocError;
use vk_model::{Action, Entry, Point, SemaphoreSubmit, SemaphoreValue, Stages};

/// What orders the refused point after earlier ones.
#[derive(Clone, Copy, PartialEq, Eq)]
pub enum Ordering {
    /// What there is.
    Nothing,
    /// Its batch waits for the first signal that comes after each.
    Known,
    /// Its batch waits for a new semaphore for each.
    New,
}

/// The batch of the refused point comes after an earlier one, whose place among the earlier points is
/// given. So many new ids are left out.
pub fn order_after(
    case: &Case<'_>,
    ordering: Ordering,
    index: usize,
    earlier: &Point<'_>,
    others: u32,
    edits: &mut EditList,
) -> Result<(), AllocError> {
    match ordering {
        Ordering::Nothing => Ok(()),
        Ordering::Known => {
            let Some(known) = signal_after(case, index, earlier.queue) else {
                let id = case.fresh_id(earlier.queue.saturating_add(others));
                return link(case, edits, id, earlier);
            };
            let wait = covering(known.semaphore, known.value);
            edits.wait(Change::Insert, case.waits_end(&case.refused), wait)
        }
        Ordering::New => {
            let id = case.fresh_id(earlier.queue.saturating_add(others));
            link(case, edits, id, earlier)
        }
    }
}

/// A wait or a signal that covers all commands.
pub fn covering(semaphore: u32, value: u64) -> SemaphoreSubmit {
    SemaphoreSubmit {
        semaphore,
        value,
        stages: Stages::ALL_COMMANDS,
    }
}

/// A new semaphore that the batch of an earlier point signals, and that the refused one waits for.
pub fn link(
    case: &Case<'_>,
    edits: &mut EditList,
    id: u32,
    earlier: &Point<'_>,
) -> Result<(), AllocError> {
    let semaphore = covering(id, 1);
    let first = earlier.entry.min(case.refused.entry);
    edits.insert(first, Entry::Semaphore { id, initial: 0 })?;
    edits.signal(Change::Insert, case.signals_end(earlier), semaphore)?;
    edits.wait(Change::Insert, case.waits_end(&case.refused), semaphore)
}

/// What the host waits for after an earlier command: the first signal that comes after it, or a new
/// semaphore that its batch signals.
pub fn host_wait_after(
    case: &Case<'_>,
    ordering: Ordering,
    index: usize,
    earlier: &Point<'_>,
    edits: &mut EditList,
) -> Result<Option<SemaphoreValue>, AllocError> {
    match ordering {
        Ordering::Nothing => Ok(None),
        Ordering::Known => match signal_after(case, index, earlier.queue) {
            Some(known) => Ok(Some(known)),
            None => Ok(Some(signaled(case, earlier, edits)?)),
        },
        Ordering::New => Ok(Some(signaled(case, earlier, edits)?)),
    }
}

/// A new semaphore that the batch of an earlier point signals, with the value that it gets.
fn signaled(
    case: &Case<'_>,
    earlier: &Point<'_>,
    edits: &mut EditList,
) -> Result<SemaphoreValue, AllocError> {
    let semaphore = case.fresh_id(earlier.queue);
    let made = Entry::Semaphore {
        id: semaphore,
        initial: 0,
    };
    edits.insert(earlier.entry, made)?;
    let signal = covering(semaphore, 1);
    edits.signal(Change::Insert, case.signals_end(earlier), signal)?;
    Ok(SemaphoreValue {
        semaphore,
        value: 1,
    })
}

/// The first signal of a queue after a point.
pub fn signal_after(case: &Case<'_>, index: usize, queue: u32) -> Option<SemaphoreValue> {
    for (place, point) in case.earlier.iter().enumerate() {
        if place > index && point.queue == queue {
            if let Action::Signal(signal) = point.action {
                return Some(SemaphoreValue {
                    semaphore: signal.semaphore,
                    value: signal.value,
                });
            }
        }
    }
    None
}
