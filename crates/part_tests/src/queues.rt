use super::expect::expect;
use std::alloc::{AllocError, Global};
use std::process::Abort;
use std::test::Fail;
use vk_model::{Action, Batch, Entry, Point, SemaphoreSubmit, Sequence, Stages};
use vk_queues::{Waiting, points_after, reference_order};

/// A semaphore with a value, as a list.
fn one(alloc: Global, semaphore: u32, value: u64) -> Result<Sequence<SemaphoreSubmit>, AllocError> {
    let submit = SemaphoreSubmit {
        semaphore,
        value,
        stages: Stages::ALL_COMMANDS,
    };
    let list = Vec::from_array(alloc, [submit])?;
    Ok(Sequence::new(list))
}

fn submit_to(
    alloc: Global,
    queue: u32,
    wait: (u32, u64),
    signal: (u32, u64),
) -> Result<Entry, AllocError> {
    let waits = one(alloc, wait.0, wait.1)?;
    let signals = one(alloc, signal.0, signal.1)?;
    let batch = Batch {
        waits,
        commands: Sequence::new(Vec::new(alloc)),
        signals,
    };
    let batches = Vec::from_array(alloc, [batch])?;
    Ok(Entry::Submit {
        queue,
        batches: Sequence::new(batches),
    })
}

/// The queue, the wait and the signal of each submit.
static SUBMITS: [(u32, (u32, u64), (u32, u64)); 3] = [
    (1, (2, 4), (1, 9)),
    (0, (1, 5), (2, 4)),
    (3, (1, 5), (1, 7)),
];

/// A host signal that two queues wait for, and a third queue that waits for one of these.
fn signaled(alloc: Global) -> Result<Vec<Entry>, AllocError> {
    let mut entries = Vec::new(alloc);
    for id in [1, 2] {
        entries.push(Entry::Semaphore { id, initial: 0 })?;
    }
    for (queue, wait, signal) in &SUBMITS {
        entries.push(submit_to(alloc, *queue, *wait, *signal)?)?;
    }
    entries.push(Entry::Signal {
        semaphore: 1,
        value: 5,
    })?;
    Ok(entries)
}

fn kind(point: &Point<'_>) -> (usize, u32, u8) {
    let kind = match point.action {
        Action::Host(_) => 0,
        Action::Wait(_) => 1,
        Action::Run(_) => 2,
        Action::Signal(_) => 3,
    };
    (point.entry, point.queue, kind)
}

/// Expects the entry, the queue and the kind of each point.
fn expect_kinds(rt: &impl Abort, alloc: Global, entries: &[Entry]) -> Result<(), AllocError> {
    let points = reference_order(alloc, entries)?;
    expect(rt, "points", points.len(), KINDS.len());
    for (number, (point, wanted)) in points.iter().zip(&KINDS).enumerate() {
        expect(rt, number, kind(point), *wanted);
    }
    Ok(())
}

/// Six entries of the host, and then a wait and a signal on each queue.
static KINDS: [(usize, u32, u8); 12] = [
    (0, 0, 0),
    (1, 0, 0),
    (2, 0, 0),
    (3, 0, 0),
    (4, 0, 0),
    (5, 0, 0),
    (3, 0, 1),
    (3, 0, 3),
    (2, 1, 1),
    (2, 1, 3),
    (4, 3, 1),
    (4, 3, 3),
];

#[test]
fn a_host_signal_starts_the_queues_that_wait(rt: HostRuntime) -> Result<(), Fail> {
    let entries = signaled(rt.alloc())?;
    expect_kinds(&rt, rt.alloc(), &entries)?;
    Ok(())
}

/// Expects how many points come with each entry.
fn expect_counts(rt: &impl Abort, alloc: Global, entries: &[Entry]) -> Result<(), AllocError> {
    let mut waiting = Waiting::new(alloc);
    for (number, (entry, count)) in entries.iter().zip([1, 1, 1, 1, 1, 7]).enumerate() {
        let points = points_after(alloc, &mut waiting, number, entry)?;
        expect(rt, number, points.len(), count);
    }
    Ok(())
}

#[test]
fn the_points_of_an_entry_are_its_own_and_those_that_it_starts(
    rt: HostRuntime,
) -> Result<(), Fail> {
    let entries = signaled(rt.alloc())?;
    expect_counts(&rt, rt.alloc(), &entries)?;
    Ok(())
}
