use crate::creating::started_batches;
use std::alloc::{AllocError, Global};
use std::collections::BTreeSet;
use vk_model::{Action, At, Batch, Entry, Point, SemaphoreSubmit, SemaphoreValue};

/// What would signal the value that the host waits for.
#[derive(Clone, Copy, Debug, PartialEq, Eq)]
pub enum Signaler {
    /// A signal of a batch that was submitted and still waits.
    Waiting {
        /// The signal.
        signal: At,
        /// The first of its waits that isn't met; none where the batch comes behind another one that
        /// waits, and that one isn't found.
        wait: Option<At>,
    },
    /// A signal of a batch that was submitted, and comes behind another one that waits.
    Behind {
        /// The signal.
        signal: At,
        /// The first wait of the other batch that isn't met.
        wait: At,
        /// Whether a batch behind that one on the same queue would meet it, so that neither can start.
        is_deadlock: bool,
    },
    /// A signal that comes later in the trace.
    Later(At),
}

/// What would signal the first of some values that isn't reached by the points before a wait of the
/// host, which is this entry of the trace. The only error is want of memory.
pub fn signaler_of(
    alloc: Global,
    entries: &[Entry],
    older: &[Point<'_>],
    number: usize,
    waits: &[SemaphoreValue],
) -> Result<Option<Signaler>, AllocError> {
    let Some(wait) = waits.iter().find(|wait| !is_reached(older, wait)) else {
        return Ok(None);
    };
    let started = started_batches(alloc, older)?;
    if let Some(found) = waiting_signal(older, &started, wait) {
        return Ok(Some(found));
    }
    Ok(later_signal(entries, number, wait))
}

/// Whether a semaphore has a value, or a greater one, after some points.
fn is_reached(points: &[Point<'_>], wanted: &SemaphoreValue) -> bool {
    has_value(points, wanted.semaphore, wanted.value)
}

fn has_value(points: &[Point<'_>], semaphore: u32, value: u64) -> bool {
    points.iter().any(|point| gives(point, semaphore).is_some_and(|given| given >= value))
}

/// The value that a point gives a semaphore.
fn gives(point: &Point<'_>, semaphore: u32) -> Option<u64> {
    match point.action {
        Action::Host(Entry::Semaphore { id, initial }) if *id == semaphore => Some(*initial),
        Action::Host(
            Entry::Signal {
                semaphore: signaled,
                value,
            },
        ) if *signaled == semaphore => Some(*value),
        Action::Signal(signal) if signal.semaphore == semaphore => Some(signal.value),
        _ => None,
    }
}

/// The first signal to such a value of a batch that was submitted and has no points.
fn waiting_signal(
    points: &[Point<'_>],
    started: &BTreeSet<(usize, usize)>,
    wanted: &SemaphoreValue,
) -> Option<Signaler> {
    for point in points {
        if let Action::Host(Entry::Submit { queue, batches }) = point.action {
            for (number, batch) in batches.as_slice().iter().enumerate() {
                if !started.contains(&(point.entry, number))
                    && let Some(place) = signal_among(batch.signals.as_slice(), wanted)
                {
                    let signal = At::Signal(point.entry, number, place);
                    let wait = unmet_wait(points, point.entry, number, batch);
                    return Some(match wait {
                        Some(_) => Signaler::Waiting { signal, wait },
                        None => behind(points, started, *queue, signal),
                    });
                }
            }
        }
    }
    None
}

/// A signal of a batch that comes behind another one on its queue.
fn behind(
    points: &[Point<'_>],
    started: &BTreeSet<(usize, usize)>,
    queue: u32,
    signal: At,
) -> Signaler {
    let mut first: Option<(At, SemaphoreValue)> = None;
    let mut is_deadlock = false;
    for point in points {
        if let Action::Host(
            Entry::Submit {
                queue: other,
                batches,
            },
        ) = point.action
            && *other == queue
        {
            for (number, batch) in batches.as_slice().iter().enumerate() {
                if started.contains(&(point.entry, number)) {
                    continue;
                }
                if first.is_none() {
                    first = unmet_value(points, point.entry, number, batch);
                }
                if let Some((_, wanted)) = &first {
                    let signals = batch.signals.as_slice();
                    is_deadlock = is_deadlock || signal_among(signals, wanted).is_some();
                }
            }
        }
    }
    match first {
        Some((wait, _)) => Signaler::Behind {
            signal,
            wait,
            is_deadlock,
        },
        None => Signaler::Waiting { signal, wait: None },
    }
}

/// The first wait of a batch whose value isn't reached, and the value.
fn unmet_value(
    points: &[Point<'_>],
    entry: usize,
    number: usize,
    batch: &Batch,
) -> Option<(At, SemaphoreValue)> {
    for (place, wait) in batch.waits.as_slice().iter().enumerate() {
        let SemaphoreSubmit {
            semaphore,
            value,
            ..
        } = *wait;
        if !has_value(points, semaphore, value) {
            let wanted = SemaphoreValue { semaphore, value };
            return Some((At::Wait(entry, number, place), wanted));
        }
    }
    None
}

/// The place of the first signal to such a value.
fn signal_among(signals: &[SemaphoreSubmit], wanted: &SemaphoreValue) -> Option<usize> {
    signals.iter().position(|signal| signal.semaphore == wanted.semaphore
        && signal.value >= wanted.value)
}

/// The first wait of a batch whose value isn't reached.
fn unmet_wait(points: &[Point<'_>], entry: usize, number: usize, batch: &Batch) -> Option<At> {
    let (at, _) = unmet_value(points, entry, number, batch)?;
    Some(at)
}

/// The first signal to such a value that comes after an entry of the trace.
fn later_signal(entries: &[Entry], number: usize, wanted: &SemaphoreValue) -> Option<Signaler> {
    for (later, entry) in entries.iter().enumerate() {
        if later > number
            && let Some(at) = signal_in(later, entry, wanted)
        {
            return Some(Signaler::Later(at));
        }
    }
    None
}

/// The first signal to such a value in an entry.
fn signal_in(number: usize, entry: &Entry, wanted: &SemaphoreValue) -> Option<At> {
    match entry {
        Entry::Signal { semaphore, value }
            if *semaphore == wanted.semaphore && *value >= wanted.value => {
            Some(At::Entry(number))
        }
        Entry::Submit { batches, .. } => {
            for (index, batch) in batches.as_slice().iter().enumerate() {
                if let Some(place) = signal_among(batch.signals.as_slice(), wanted) {
                    return Some(At::Signal(number, index, place));
                }
            }
            None
        }
        _ => None,
    }
}
