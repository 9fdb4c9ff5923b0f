use crate::cases::{Candidates, Case, Earlier, place_of};
use crate::edits::Change;
use crate::lists::EditList;
use crate::orders::{Ordering, covering, order_after};
use crate::uses::{Use, uses_of};
use crate::{host_hazards, stages, transitions};
use std::alloc::AllocError;
use vk_model::{
    Accesses, Action, Batch, Cmd, Dependency, Duplicate, Element, Entry, Length, Point, Rule,
    Sequence, Stages,
};

/// How many queues there are.
pub const QUEUES: u32 = 4;

/// The accesses of a transfer that reads, writes or both.
fn transfers(reads: bool, writes: bool) -> Accesses {
    match (reads, writes) {
        (false, false) => Accesses(0),
        (true, false) => Accesses::TRANSFER_READ,
        (false, true) => Accesses::TRANSFER_WRITE,
        (true, true) => Accesses(6144),
    }
}

/// A barrier on all memory.
pub fn barrier(case: &Case<'_>, dependency: Dependency) -> Result<Cmd, AllocError> {
    let elements = vec![in case.alloc; Element::Memory(dependency)]?;
    Ok(Cmd::Barrier {
        elements: Sequence::new(elements),
    })
}

/// Repairs of a hazard of a point.
pub fn hazards(case: &Case<'_>, found: &mut Candidates) -> Result<(), AllocError> {
    match case.refused.action {
        Action::Run(_) => before_command(case, found),
        Action::Host(_) => host_hazards::hazards(case, found),
        _ => Ok(()),
    }
}

/// The scopes of a barrier between transfers for this hazard.
fn scopes(rule: Rule) -> Dependency {
    let (source, destination) = match rule {
        Rule::HazardWar => (transfers(false, false), transfers(false, false)),
        Rule::HazardRaw => (transfers(false, true), transfers(true, false)),
        _ => (transfers(false, true), transfers(false, true)),
    };
    between(source, destination)
}

fn between(source: Accesses, destination: Accesses) -> Dependency {
    Dependency {
        source_stages: Stages::TRANSFER,
        source_accesses: source,
        destination_stages: Stages::TRANSFER,
        destination_accesses: destination,
    }
}

fn before_command(case: &Case<'_>, found: &mut Candidates) -> Result<(), AllocError> {
    let narrow = scopes(case.rule);
    let wide = between(transfers(false, true), transfers(true, true));
    let uses = uses_of(case.alloc, case.refused.action)?;
    let uses = uses.as_slice();
    let flushes = flushes(case, uses)?;
    widened_transition(case, narrow, found)?;
    with_barrier(case, uses, narrow, Flushed::Nothing, found)?;
    with_barrier(case, uses, wide, Flushed::Nothing, found)?;
    moved_flush(case, uses, found)?;
    for flush in flushes.as_slice() {
        let mut edits = case.edits();
        insert_flush(*flush, &mut edits)?;
        found.add(edits)?;
    }
    all_flushed(case, uses, found)?;
    with_barrier(case, uses, wide, Flushed::Each, found)?;
    transitions::opened(case, uses, None, found)?;
    transitions::opened(case, uses, Some(wide), found)?;
    stages::wider_waits(case, uses, found)?;
    for ordering in [Ordering::Known, Ordering::New] {
        for earlier in [Earlier::Accessed, Earlier::Latest] {
            for also in [None, Some(narrow), Some(wide)] {
                let order = Order { earlier, ordering };
                after_queues(case, uses, order, also, Flushed::Nothing, found)?;
            }
        }
    }
    let order = Order {
        earlier: Earlier::Latest,
        ordering: Ordering::New,
    };
    after_queues(case, uses, order, Some(wide), Flushed::Each, found)?;
    for flush in flushes.as_slice() {
        let flushed = Flushed::One(*flush);
        with_barrier(case, uses, wide, flushed, found)?;
        after_queues(case, uses, order, Some(wide), flushed, found)?;
    }
    after_late_write(case, uses, found)
}

/// The transition of the point itself waits for what comes before it.
fn widened_transition(
    case: &Case<'_>,
    scopes: Dependency,
    found: &mut Candidates,
) -> Result<(), AllocError> {
    let Action::Run(Cmd::Barrier { elements }) = case.refused.action else {
        return Ok(());
    };
    let mut wider = Vec::new(case.alloc);
    for element in elements.as_slice() {
        wider.push(widened(*element, scopes))?;
    }
    let mut edits = case.edits();
    edits.replace_command(
        place_of(&case.refused),
        Cmd::Barrier {
            elements: Sequence::new(wider),
        },
    )?;
    found.add(edits)
}

/// An element with these bits too in its first scope.
fn widened(element: Element, scopes: Dependency) -> Element {
    match element {
        Element::Image(mut range) => {
            let stages = range.dependency.source_stages.0 | scopes.source_stages.0;
            let accesses = range.dependency.source_accesses.0 | scopes.source_accesses.0;
            range.dependency.source_stages = Stages(stages);
            range.dependency.source_accesses = Accesses(accesses);
            Element::Image(range)
        }
        other => other,
    }
}

/// A barrier right before the command, also with flushes.
fn with_barrier(
    case: &Case<'_>,
    uses: &[Use],
    dependency: Dependency,
    flushed: Flushed,
    found: &mut Candidates,
) -> Result<(), AllocError> {
    let mut edits = case.edits();
    insert_flushes(case, uses, flushed, &mut edits)?;
    edits.insert_command(place_of(&case.refused), barrier(case, dependency)?)?;
    found.add(edits)
}

/// What is flushed that the host wrote.
#[derive(Clone, Copy)]
enum Flushed {
    /// Nothing.
    Nothing,
    /// A range of a buffer.
    One(Flush),
    /// Each buffer that is used, right after the host's last write to it.
    Each,
}

fn insert_flushes(
    case: &Case<'_>,
    uses: &[Use],
    flushed: Flushed,
    edits: &mut EditList,
) -> Result<(), AllocError> {
    match flushed {
        Flushed::Nothing => Ok(()),
        Flushed::One(flush) => insert_flush(flush, edits),
        Flushed::Each => {
            for index in 0..uses.len() {
                if let Some(written) = case.latest_host_write(&uses[index..index + 1]) {
                    flush_after(&written, edits)?;
                }
            }
            Ok(())
        }
    }
}

/// A flush to insert.
#[derive(Clone, Copy)]
struct Flush {
    /// The number of the entry that it comes before.
    number: usize,
    /// The buffer.
    buffer: u32,
    /// In bytes.
    offset: u64,
    /// How many bytes.
    size: Length,
}

/// Flushes of what the host wrote: right before the submit, or right after the write.
fn flushes(case: &Case<'_>, uses: &[Use]) -> Result<Vec<Flush>, AllocError> {
    let mut all = Vec::new(case.alloc);
    let Some(written) = case.latest_host_write(uses) else {
        return Ok(all);
    };
    let Action::Host(
        Entry::Write {
            buffer,
            offset,
            bytes,
        },
    ) = written.action
    else {
        return Ok(all);
    };
    let first = Flush {
        number: case.refused.entry,
        buffer: *buffer,
        offset: *offset,
        size: Length::Bytes(bytes.len() as u64),
    };
    let number = written.entry.saturating_add(1);
    let (offset, size) = (0, Length::Whole);
    all.push(first)?;
    all.push(Flush { number, ..first })?;
    all.push(Flush {
        offset,
        size,
        ..first
    })?;
    all.push(Flush {
        number,
        offset,
        size,
        ..first
    })?;
    Ok(all)
}

/// A flush of the buffer that the host wrote to, before which nothing was written to it, comes right after the
/// write.
fn moved_flush(case: &Case<'_>, uses: &[Use], found: &mut Candidates) -> Result<(), AllocError> {
    let Some(written) = case.latest_host_write(uses) else {
        return Ok(());
    };
    let Action::Host(Entry::Write { buffer, .. }) = written.action else {
        return Ok(());
    };
    if let Some((number, flush)) = idle_flush(case, *buffer, written.entry) {
        let mut edits = case.edits();
        edits.remove(number)?;
        edits.insert(written.entry.saturating_add(1), flush.duplicate()?)?;
        found.add(edits)?;
    }
    Ok(())
}

/// The last flush of a buffer before an entry, where the host wrote nothing to the buffer before it.
fn idle_flush<'a>(case: &Case<'a>, id: u32, end: usize) -> Option<(usize, &'a Entry)> {
    let mut idle = None;
    let mut is_written = false;
    for (number, entry) in case.trace.iter().enumerate() {
        match entry {
            Entry::Write { buffer, .. } if *buffer == id && number < end => is_written = true,
            Entry::Flush { buffer, .. } if *buffer == id && number < end => {
                idle = if is_written {
                    None
                } else {
                    Some((number, entry))
                };
                is_written = false;
            }
            _ => {}
        }
    }
    idle
}

fn insert_flush(flush: Flush, edits: &mut EditList) -> Result<(), AllocError> {
    edits.insert(
        flush.number,
        Entry::Flush {
            buffer: flush.buffer,
            offset: flush.offset,
            size: flush.size,
        },
    )
}

/// Flushes of each of the buffers.
fn all_flushed(case: &Case<'_>, uses: &[Use], found: &mut Candidates) -> Result<(), AllocError> {
    let mut edits = case.edits();
    insert_flushes(case, uses, Flushed::Each, &mut edits)?;
    found.add(edits)
}

/// What the batch of the point comes after, and by which semaphore.
#[derive(Clone, Copy)]
struct Order {
    /// Which commands of other queues.
    earlier: Earlier,
    /// By which semaphore.
    ordering: Ordering,
}

/// The batch of the point comes after commands of other queues that touched the resources; also with a
/// barrier before the point, and with flushes.
fn after_queues(
    case: &Case<'_>,
    uses: &[Use],
    order: Order,
    also: Option<Dependency>,
    flushed: Flushed,
    found: &mut Candidates,
) -> Result<(), AllocError> {
    let mut edits = case.edits();
    let mut is_ordered = false;
    for queue in 0..QUEUES {
        if queue != case.refused.queue {
            if let Some((index, earlier)) = case.earlier_on(order.earlier, queue, uses)? {
                order_after(case, order.ordering, index, &earlier, 0, &mut edits)?;
                is_ordered = true;
            }
        }
    }
    insert_flushes(case, uses, flushed, &mut edits)?;
    if let Some(dependency) = also {
        edits.insert_command(place_of(&case.refused), barrier(case, dependency)?)?;
    }
    if is_ordered {
        found.add(edits)?;
    }
    Ok(())
}

/// Where the host wrote after the submit: an empty submit after the write, also with a flush; and one
/// that signals, with a wait of the batch for it.
fn after_late_write(
    case: &Case<'_>,
    uses: &[Use],
    found: &mut Candidates,
) -> Result<(), AllocError> {
    let Some(written) = case.latest_host_write(uses) else {
        return Ok(());
    };
    if written.entry < case.refused.entry {
        return Ok(());
    }
    submitted_late(case, &written, found)?;
    let after = written.entry.saturating_add(1);
    let id = case.fresh_id(0);
    for is_flushed in [false, true] {
        let mut edits = case.edits();
        edits.insert(case.refused.entry, Entry::Semaphore { id, initial: 0 })?;
        edits.wait(
            Change::Insert,
            case.waits_end(&case.refused),
            covering(id, 1),
        )?;
        if is_flushed {
            flush_after(&written, &mut edits)?;
        }
        edits.insert(after, empty_submit(case, Some(id))?)?;
        found.add(edits)?;
    }
    Ok(())
}

/// An empty submit right before the entry that lets the batch start, which comes after a write of the host;
/// also with a flush.
fn submitted_late(
    case: &Case<'_>,
    written: &Point<'_>,
    found: &mut Candidates,
) -> Result<(), AllocError> {
    let mut host = case.earlier.iter().rev();
    let Some(start) = host.find(|point| matches!(point.action, Action::Host(_))) else {
        return Ok(());
    };
    if start.entry <= written.entry {
        return Ok(());
    }
    for is_flushed in [false, true] {
        let mut edits = case.edits();
        if is_flushed {
            flush_after(written, &mut edits)?;
        }
        edits.insert(start.entry, empty_submit(case, None)?)?;
        found.add(edits)?;
    }
    Ok(())
}

/// A flush of the buffer that the host wrote to, right after the write.
fn flush_after(written: &Point<'_>, edits: &mut EditList) -> Result<(), AllocError> {
    if let Action::Host(Entry::Write { buffer, .. }) = written.action {
        let flush = Flush {
            number: written.entry.saturating_add(1),
            buffer: *buffer,
            offset: 0,
            size: Length::Whole,
        };
        insert_flush(flush, edits)?;
    }
    Ok(())
}

/// A submit of a batch that has no more than a signal of a semaphore, if one is given, on another queue
/// than the point's.
fn empty_submit(case: &Case<'_>, semaphore: Option<u32>) -> Result<Entry, AllocError> {
    let mut signals = Vec::new(case.alloc);
    if let Some(id) = semaphore {
        signals.push(covering(id, 1))?;
    }
    let batch = Batch {
        waits: Sequence::new(Vec::new(case.alloc)),
        commands: Sequence::new(Vec::new(case.alloc)),
        signals: Sequence::new(signals),
    };
    let batches = vec![in case.alloc; batch]?;
    let queue = if case.refused.queue == 0 { 1 } else { 0 };
    Ok(Entry::Submit {
        queue,
        batches: Sequence::new(batches),
    })
}
