ghost use Rattle.std.specs.Prelude.{◌≡◌, IfOk, insert, remove};
ghost use Rattle.vk_candidates.specs.Edits as spec;
ghost use Rattle.vk_candidates.specs.Edits.{after_change, at_index, at_batch, batch_after};

use crate::edits::{Change, Edit, InBatch, Member};
use std::alloc::{AllocError, Global};
use vk_model::{Batch, Duplicate, Entry, Sequence};

/// The trace that edits make of a trace, the last of them made first. The only error is want of
/// memory.
pub fn edited(alloc: Global, entries: &[Entry], edits: &[Edit]) -> Result<Vec<Entry>, AllocError>
    ensures { IfOk result (λ trace. trace.items ≡ spec.edited entries.now edits.now) }
{
    match edits.split_first() {
        None => copies(alloc, entries),
        Some((first, rest)) => {
            let trace = edited(alloc, entries, rest)?;
            edited_once(trace, first)
        }
    }
}

fn copies(alloc: Global, entries: &[Entry]) -> Result<Vec<Entry>, AllocError>
    ensures { IfOk result (λ trace. trace.items ≡ entries.now) }
{
    let mut trace = Vec::new(alloc);
    for entry in entries {
        trace.push(entry.duplicate()?)?;
    }
    Ok(trace)
}

/// A trace after one edit.
fn edited_once(trace: Vec<Entry>, edit: &Edit) -> Result<Vec<Entry>, AllocError>
    ensures { IfOk result (λ after. after.items ≡ spec.edited_once edit.now trace.items) }
{
    match edit {
        Edit::Entry {
            change,
            number,
            entry,
        } => changed(trace, *change, *number, entry.duplicate()?),
        Edit::Remove { number } => Ok(without(trace, *number)),
        Edit::Member { change, at, member } => with_member(trace, *change, *at, member),
    }
}

/// A list after a change at a place.
fn changed<T: Drop>(
    items: Vec<T>,
    change: Change,
    place: usize,
    item: T,
) -> Result<Vec<T>, AllocError>
    ensures { IfOk result (λ after. after.items ≡ after_change change place item items.items) }
{
    match change {
        Change::Insert => inserted(items, place, item),
        Change::Replace => Ok(replaced(items, place, item)),
    }
}

/// A list with an item before another, or at the end.
fn inserted<T: Drop>(items: Vec<T>, place: usize, item: T) -> Result<Vec<T>, AllocError>
    ensures { IfOk result (λ after. after.items ≡ insert items.items place item) }
{
    let mut longer = items;
    let end = longer.len();
    if place < end {
        longer.insert(place, item)?;
    } else {
        longer.push(item)?;
    }
    Ok(longer)
}

/// A list with an item in place of another, if there is one.
#[tactic(auto, using(crate::proofs::Changes::at_index_past, crate::proofs::Changes::at_index_set))]
fn replaced<T: Drop>(items: Vec<T>, place: usize, item: T) -> Vec<T>
    ensures { result.items ≡ at_index (λ _. item) place items.items }
{
    let mut other = items;
    if place >= other.len() {
        return other;
    }
    other[place] = item;
    other
}

/// A list without an item.
fn without<T: Drop>(items: Vec<T>, place: usize) -> Vec<T>
    ensures { result.items ≡ remove items.items place }
{
    let mut fewer = items;
    if place >= fewer.len() {
        return fewer;
    }
    let _ = fewer.remove(place);
    fewer
}

/// A trace after a change in a batch.
fn with_member(
    trace: Vec<Entry>,
    change: Change,
    at: InBatch,
    member: &Member,
) -> Result<Vec<Entry>, AllocError>
    ensures { IfOk result (λ after. after.items ≡ at_index (at_batch (batch_after change at.place member.now) at.batch) at.entry trace.items) }
{
    let mut rest = trace;
    if at.entry >= rest.len() {
        return Ok(rest);
    }
    let entry = rest.remove(at.entry);
    let after = entry_after(entry, change, at, member)?;
    let whole = inserted(rest, at.entry, after)?;
    Ok(whole)
}

fn entry_after(
    entry: Entry,
    change: Change,
    at: InBatch,
    member: &Member,
) -> Result<Entry, AllocError>
    ensures { IfOk result (λ after. after ≡ at_batch (batch_after change at.place member.now) at.batch entry) }
{
    match entry {
        Entry::Submit { queue, batches } => {
            let changed = batches_after(batches.into_vec(), change, at, member)?;
            Ok(Entry::Submit {
                queue,
                batches: Sequence::new(changed),
            })
        }
        other => Ok(other),
    }
}

fn batches_after(
    batches: Vec<Batch>,
    change: Change,
    at: InBatch,
    member: &Member,
) -> Result<Vec<Batch>, AllocError>
    ensures { IfOk result (λ after. after.items ≡ at_index (batch_after change at.place member.now) at.batch batches.items) }
{
    let mut rest = batches;
    if at.batch >= rest.len() {
        return Ok(rest);
    }
    let batch = rest.remove(at.batch);
    let after = batch_after(batch, change, at.place, member)?;
    let whole = inserted(rest, at.batch, after)?;
    Ok(whole)
}

fn batch_after(
    batch: Batch,
    change: Change,
    place: usize,
    member: &Member,
) -> Result<Batch, AllocError>
    ensures { IfOk result (λ after. after ≡ batch_after change place member.now batch) }
{
    let Batch {
        waits,
        commands,
        signals,
    } = batch;
    match member {
        Member::Wait(wait) => {
            let waits = sequence_after(waits, change, place, *wait)?;
            Ok(Batch {
                waits,
                commands,
                signals,
            })
        }
        Member::Command(command) => {
            let commands = sequence_after(commands, change, place, command.duplicate()?)?;
            Ok(Batch {
                waits,
                commands,
                signals,
            })
        }
        Member::Signal(signal) => {
            let signals = sequence_after(signals, change, place, *signal)?;
            Ok(Batch {
                waits,
                commands,
                signals,
            })
        }
    }
}

fn sequence_after<T: Drop>(
    items: Sequence<T>,
    change: Change,
    place: usize,
    item: T,
) -> Result<Sequence<T>, AllocError>
    ensures { IfOk result (λ after. after ≡ after_change change place item items) }
{
    let items = changed(items.into_vec(), change, place, item)?;
    Ok(Sequence::new(items))
}
