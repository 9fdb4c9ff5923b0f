use crate::cases::{Candidates, Case, place_of};
use crate::edits::Change;
use std::alloc::AllocError;
use vk_model::{Action, Entry, Point, SemaphoreSubmit, SemaphoreValue, Sequence, Stages};

/// The greatest value that a semaphore has had before the refused point.
pub fn last_value(case: &Case<'_>, semaphore: u32) -> u64 {
    let mut last = 0;
    for point in case.earlier {
        last = last.max(value_at(point, semaphore));
    }
    last
}

/// The value that a point gives to a semaphore.
fn value_at(point: &Point<'_>, semaphore: u32) -> u64 {
    match point.action {
        Action::Host(Entry::Semaphore { id, initial }) if *id == semaphore => *initial,
        Action::Host(
            Entry::Signal {
                semaphore: other,
                value,
            },
        ) if *other == semaphore => *value,
        Action::Signal(signal) if signal.semaphore == semaphore => signal.value,
        _ => 0,
    }
}

/// A greater value for the signal.
pub fn signal_value(case: &Case<'_>, found: &mut Candidates) -> Result<(), AllocError> {
    let mut edits = case.edits();
    match case.refused.action {
        Action::Host(Entry::Signal { semaphore, .. }) => edits.replace(
            case.refused.entry,
            Entry::Signal {
                semaphore: *semaphore,
                value: last_value(case, *semaphore).saturating_add(1),
            },
        )?,
        Action::Signal(signal) => edits.signal(
            Change::Replace,
            place_of(&case.refused),
            SemaphoreSubmit {
                semaphore: signal.semaphore,
                value: last_value(case, signal.semaphore).saturating_add(1),
                stages: signal.stages,
            },
        )?,
        _ => {}
    }
    found.add(edits)?;
    own_semaphore(case, found)
}

/// A semaphore of its own for the signal.
fn own_semaphore(case: &Case<'_>, found: &mut Candidates) -> Result<(), AllocError> {
    let id = case.fresh_id(0);
    let mut edits = case.edits();
    edits.insert(case.refused.entry, Entry::Semaphore { id, initial: 0 })?;
    match case.refused.action {
        Action::Host(Entry::Signal { .. }) => {
            let signal = Entry::Signal {
                semaphore: id,
                value: 1,
            };
            edits.replace(case.refused.entry, signal)?;
        }
        Action::Signal(signal) => {
            let own = SemaphoreSubmit {
                semaphore: id,
                value: 1,
                stages: signal.stages,
            };
            edits.signal(Change::Replace, place_of(&case.refused), own)?;
        }
        _ => {}
    }
    found.add_weaker(edits)
}

/// A wait for the last signal of the semaphore before the signal.
pub fn signal_order(case: &Case<'_>, found: &mut Candidates) -> Result<(), AllocError> {
    match case.refused.action {
        Action::Host(Entry::Signal { semaphore, .. }) => {
            let value = last_value(case, *semaphore);
            let mut edits = case.edits();
            edits.insert(case.refused.entry, host_wait(case, *semaphore, value)?)?;
            found.add(edits)?;
            own_semaphore(case, found)
        }
        Action::Signal(signal) => {
            let wait = SemaphoreSubmit {
                semaphore: signal.semaphore,
                value: last_value(case, signal.semaphore),
                stages: Stages::ALL_COMMANDS,
            };
            waited(case, wait, false, found)?;
            waited(case, wait, true, found)?;
            own_semaphore(case, found)
        }
        _ => Ok(()),
    }
}

/// The batch waits; also with a signal that covers all commands.
fn waited(
    case: &Case<'_>,
    wait: SemaphoreSubmit,
    is_wide: bool,
    found: &mut Candidates,
) -> Result<(), AllocError> {
    let mut edits = case.edits();
    edits.wait(Change::Insert, case.waits_end(&case.refused), wait)?;
    if let Action::Signal(signal) = case.refused.action {
        if is_wide {
            edits.signal(
                Change::Replace,
                place_of(&case.refused),
                SemaphoreSubmit {
                    semaphore: signal.semaphore,
                    value: signal.value,
                    stages: Stages::ALL_COMMANDS,
                },
            )?;
        }
    }
    found.add(edits)
}

/// A wait of the host for one value.
pub fn host_wait(case: &Case<'_>, semaphore: u32, value: u64) -> Result<Entry, AllocError> {
    let waits = vec![in case.alloc; SemaphoreValue { semaphore, value }]?;
    Ok(Entry::Wait {
        waits: Sequence::new(waits),
    })
}
