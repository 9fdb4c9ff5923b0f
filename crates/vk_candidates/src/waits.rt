use crate::cases::{Candidates, Case};
use crate::edits::Change;
use crate::lists::EditList;
use crate::orders::covering;
use crate::semaphores::{host_wait, last_value};
use std::alloc::AllocError;
use vk_model::{Action, Batch, Duplicate, Entry, Point, SemaphoreValue, Sequence};

/// Repairs of a wait that is never met: what signals later comes before, the host signals what
/// batches wait for, or what is waited for itself; a wait for what there is.
pub fn wait_never(case: &Case<'_>, found: &mut Candidates) -> Result<(), AllocError> {
    let Action::Host(Entry::Wait { waits }) = case.refused.action else {
        return Ok(());
    };
    let unmet = unmet(case, waits.as_slice())?;
    let held = held(case)?;
    with_later_signals(case, unmet.as_slice(), found)?;
    with_later_signals(case, held.as_slice(), found)?;
    in_other_order(case, held.as_slice(), found)?;
    for wait in held.as_slice() {
        let mut edits = case.edits();
        signal_for(case, &mut edits, *wait, false)?;
        found.add(edits)?;
    }
    with_signals(case, held.as_slice(), &[], false, found)?;
    with_signals(case, held.as_slice(), &[], true, found)?;
    with_batch_signals(case, unmet.as_slice(), found)?;
    for held in [&[], held.as_slice()] {
        for is_after in [false, true] {
            with_signals(case, held, unmet.as_slice(), is_after, found)?;
        }
    }
    with_counters(case, waits.as_slice(), found)
}

/// What is waited for and never comes.
fn unmet(case: &Case<'_>, waits: &[SemaphoreValue]) -> Result<Vec<SemaphoreValue>, AllocError> {
    let mut all = Vec::new(case.alloc);
    for wait in waits {
        if last_value(case, wait.semaphore) < wait.value {
            all.push(*wait)?;
        }
    }
    Ok(all)
}

/// What the batches wait for that aren't started.
pub fn held(case: &Case<'_>) -> Result<Vec<SemaphoreValue>, AllocError> {
    let mut all = Vec::new(case.alloc);
    for (number, entry) in case.trace.iter().enumerate() {
        if number < case.refused.entry {
            if let Entry::Submit { batches, .. } = entry {
                for batch in batches.as_slice() {
                    add_held(case, batch, &mut all)?;
                }
            }
        }
    }
    Ok(all)
}

/// With what a batch waits for that hasn't been signaled.
pub fn add_held(
    case: &Case<'_>,
    batch: &Batch,
    all: &mut Vec<SemaphoreValue>,
) -> Result<(), AllocError> {
    for wait in batch.waits.as_slice() {
        let semaphore = wait.semaphore;
        let value = wait.value;
        let is_new = !has_value(all.as_slice(), semaphore, value);
        if is_new && last_value(case, semaphore) < value {
            all.push(SemaphoreValue { semaphore, value })?;
        }
    }
    Ok(())
}

fn has_value(all: &[SemaphoreValue], semaphore: u32, value: u64) -> bool {
    for one in all {
        if one.semaphore == semaphore && one.value >= value {
            return true;
        }
    }
    false
}

/// The entries after the wait that signal these values come before it.
fn with_later_signals(
    case: &Case<'_>,
    waits: &[SemaphoreValue],
    found: &mut Candidates,
) -> Result<(), AllocError> {
    let mut edits = case.edits();
    signal_earlier(case, waits, &mut edits)?;
    found.add(edits)
}

/// For each of these values, the first entry after the refused one that signals it or more comes
/// before.
pub fn signal_earlier(
    case: &Case<'_>,
    waits: &[SemaphoreValue],
    edits: &mut EditList,
) -> Result<(), AllocError> {
    let mut moved = Vec::new(case.alloc);
    for wait in waits {
        if let Some(number) = first_giving(case, *wait) {
            moved.push(number)?;
        }
    }
    for (number, entry) in case.trace.iter().enumerate() {
        if moved.contains(&number) {
            edits.insert(case.refused.entry, entry.duplicate()?)?;
            edits.remove(number)?;
        }
    }
    Ok(())
}

/// Where a batch waits for what a submit after it signals, that submit comes before it: in one queue
/// neither could be started.
fn in_other_order(
    case: &Case<'_>,
    held: &[SemaphoreValue],
    found: &mut Candidates,
) -> Result<(), AllocError> {
    for wait in held {
        let Some(waiting) = first_waiting(case, *wait) else {
            continue;
        };
        for (number, entry) in case.trace.iter().enumerate() {
            let is_between = waiting < number && number < case.refused.entry;
            if is_between && gives(entry, wait.semaphore, wait.value) {
                let mut edits = case.edits();
                edits.insert(waiting, entry.duplicate()?)?;
                edits.remove(number)?;
                found.add(edits)?;
            }
        }
    }
    Ok(())
}

/// The first submit with a batch that waits for a value or more.
fn first_waiting(case: &Case<'_>, wait: SemaphoreValue) -> Option<usize> {
    for (number, entry) in case.trace.iter().enumerate() {
        if let Entry::Submit { batches, .. } = entry {
            for batch in batches.as_slice() {
                for other in batch.waits.as_slice() {
                    if other.semaphore == wait.semaphore && other.value >= wait.value {
                        return Some(number);
                    }
                }
            }
        }
    }
    None
}

/// Whether a submit before the refused point signals one of these values, so that the host would signal it
/// in the place of a batch.
fn is_submitted(case: &Case<'_>, waits: &[SemaphoreValue]) -> bool {
    for (number, entry) in case.trace.iter().enumerate() {
        if number < case.refused.entry && matches!(entry, Entry::Submit { .. }) {
            for wait in waits {
                if gives(entry, wait.semaphore, wait.value) {
                    return true;
                }
            }
        }
    }
    false
}

/// The first entry after the refused one that signals a value or more.
fn first_giving(case: &Case<'_>, wait: SemaphoreValue) -> Option<usize> {
    for (number, entry) in case.trace.iter().enumerate() {
        if number > case.refused.entry && gives(entry, wait.semaphore, wait.value) {
            return Some(number);
        }
    }
    None
}

fn gives(entry: &Entry, semaphore: u32, least: u64) -> bool {
    match entry {
        Entry::Signal {
            semaphore: other,
            value,
        } => *other == semaphore && *value >= least,
        Entry::Submit { batches, .. } => {
            for batch in batches.as_slice() {
                for signal in batch.signals.as_slice() {
                    if signal.semaphore == semaphore && signal.value >= least {
                        return true;
                    }
                }
            }
            false
        }
        _ => false,
    }
}

/// The last batch of the queue that signaled each semaphore last signals these values.
fn with_batch_signals(
    case: &Case<'_>,
    waits: &[SemaphoreValue],
    found: &mut Candidates,
) -> Result<(), AllocError> {
    let mut edits = case.edits();
    for wait in waits {
        if let Some(last) = last_signaler(case, wait.semaphore) {
            let signal = covering(wait.semaphore, wait.value);
            edits.signal(Change::Insert, case.signals_end(&last), signal)?;
        }
    }
    found.add(edits)
}

/// The last point on the queue by which a semaphore was signaled last.
fn last_signaler<'a>(case: &Case<'a>, semaphore: u32) -> Option<Point<'a>> {
    let mut queue = None;
    for point in case.earlier {
        if let Action::Signal(signal) = point.action {
            if signal.semaphore == semaphore {
                queue = Some(point.queue);
            }
        }
    }
    let queue = queue?;
    let mut last = None;
    for point in case.earlier {
        if point.queue == queue && !matches!(point.action, Action::Host(_)) {
            last = Some(*point);
        }
    }
    last
}

/// The host signals these values; also each after a wait for the last value before. Where a batch would
/// signal what is waited for, it may then never be run.
fn with_signals(
    case: &Case<'_>,
    held: &[SemaphoreValue],
    unmet: &[SemaphoreValue],
    is_after: bool,
    found: &mut Candidates,
) -> Result<(), AllocError> {
    let mut edits = case.edits();
    for wait in held {
        signal_for(case, &mut edits, *wait, is_after)?;
    }
    for wait in unmet {
        signal_for(case, &mut edits, *wait, is_after)?;
    }
    if is_submitted(case, unmet) {
        found.add_weaker(edits)
    } else {
        found.add(edits)
    }
}

/// The host signals a value, also after a wait for the last one.
pub fn signal_for(
    case: &Case<'_>,
    edits: &mut EditList,
    wait: SemaphoreValue,
    is_after: bool,
) -> Result<(), AllocError> {
    let SemaphoreValue { semaphore, value } = wait;
    if is_after {
        let last = last_value(case, semaphore);
        edits.insert(case.refused.entry, host_wait(case, semaphore, last)?)?;
    }
    edits.insert(case.refused.entry, Entry::Signal { semaphore, value })
}

/// Each wait for at most what its semaphore has reached.
fn with_counters(
    case: &Case<'_>,
    waits: &[SemaphoreValue],
    found: &mut Candidates,
) -> Result<(), AllocError> {
    let mut all = Vec::new(case.alloc);
    for wait in waits {
        let semaphore = wait.semaphore;
        let value = wait.value.min(last_value(case, semaphore));
        all.push(SemaphoreValue { semaphore, value })?;
    }
    let mut edits = case.edits();
    edits.replace(
        case.refused.entry,
        Entry::Wait {
            waits: Sequence::new(all),
        },
    )?;
    found.add_weaker(edits)
}
