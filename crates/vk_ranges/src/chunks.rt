ghost use Rattle.std.specs.Prelude.{◌≡◌, ◌<◌, ◌+◌, ◌⊎◌, ℕ, length, slice_index_or, IsTrue, OnOk, OnErr, IfOk};
ghost use Rattle.std.specs.Ordering.{nat_cmp};
ghost use Rattle.std.specs.Map.{remove_entry, set_value};
ghost use Rattle.std.specs.BTreeMap.{is_at, insert_entry};
ghost use Rattle.vk_ranges.specs.Runs.{after};
ghost use Rattle.vk_ranges.specs.declared.chunk.Chunk.{Chunk};
ghost use Rattle.vk_ranges.specs.Inner.Chunks.{AreChunks, IsChunkOf, joined};

use crate::after::RunsAfter;
use crate::changes::Near;
use crate::chunk::Chunk;
use std::alloc::AllocError;
use std::cell::Cell;

/// The chunk that a run which ends at an index belongs to.
#[inline(always)]
fn chunk_of<T>(chunks: &[Chunk<T>], index: u32) -> usize
    requires { AreChunks 0 chunks.now }
    ensures within { result < length chunks.now }
    ensures first { IsChunkOf index result chunks.now }
{
    chunks.partition_point(|chunk| chunk.last < index)
}

/// The chunk that a run which ends at an index belongs to, found at once where it is at this place.
#[inline(always)]
fn chunk_near<T>(chunks: &[Chunk<T>], place: usize, index: u32) -> usize
    requires { AreChunks 0 chunks.now }
    ensures within { result < length chunks.now }
    ensures first { IsChunkOf index result chunks.now }
{
    if place < chunks.len() && is_chunk_of(chunks, place, index) {
        return place;
    }
    chunk_of(chunks, index)
}

/// The chunk that a run which ends at an index belongs to, found at once where that many chunks
/// come after it.
#[inline(always)]
fn chunk_at<T>(chunks: &[Chunk<T>], later: usize, index: u32) -> usize
    requires { AreChunks 0 chunks.now }
    ensures within { result < length chunks.now }
    ensures first { IsChunkOf index result chunks.now }
{
    let place = chunks.len().saturating_sub(later).saturating_sub(1);
    chunk_near(chunks, place, index)
}

/// Whether a run which ends at an index belongs to this chunk.
#[inline(always)]
fn is_chunk_of<T>(chunks: &[Chunk<T>], at: usize, index: u32) -> bool
    requires chunks { AreChunks 0 chunks.now }
    requires within { at < length chunks.now }
    ensures { IsTrue result → IsChunkOf index at chunks.now }
{
    if index > chunks[at].last {
        return false;
    }
    at == 0 || chunks[at - 1].last < index
}

/// The runs that end after an index. Their chunk is looked for first where one was found, and is
/// then the one that was.
#[inline(always)]
pub(crate) fn runs_after<'a, T>(
    chunks: &'a [Chunk<T>],
    found: &Cell<usize>,
    index: u32,
) -> RunsAfter<'a, T>
    requires { AreChunks 0 chunks.now }
    ensures { result ≡ after index (joined chunks.now) }
{
    let at = chunk_near(chunks, found.get(), index);
    found.set(at);
    let low = if at == 0 { 0 } else { chunks[at - 1].last };
    let here = chunks[at].after(low, index);
    let later = &chunks[at + 1..];
    RunsAfter { here, later }
}

/// Gives the run that ends at an index the value, which is a new run where none ends there. An
/// error, for want of memory, leaves the runs as they were.
pub(crate) fn insert_run<T: Drop>(
    chunks: &mut Vec<Chunk<T>>,
    near: Near,
    end: u32,
    value: T,
) -> Result<(), AllocError>
    requires { AreChunks 0 chunks.old.items }
    ensures chunks { AreChunks 0 chunks.new.items }
    ensures ok { OnOk result (joined chunks.new.items ≡ insert_entry nat_cmp (joined chunks.old.items) end value) }
    ensures err { OnErr result (joined chunks.new.items ≡ joined chunks.old.items) }
{
    let at = room_for(chunks, near.chunks, end)?;
    match chunks[at].insert(near.runs, end, value) {
        Ok(()) => Ok(()),
        Err(error) => Err(error),
    }
}

/// Gives two indices the values, as `insert_run` does, where a run that is new at the second one
/// can be taken back. An error, for want of memory, leaves the runs as they were.
#[inline(always)]
pub(crate) fn insert_both<T: Drop>(
    chunks: &mut Vec<Chunk<T>>,
    near: Near,
    low: (u32, T),
    high: (u32, T),
) -> Result<(), AllocError>
    requires chunks { AreChunks 0 chunks.old.items }
    requires undone { remove_entry (is_at (nat_cmp high.0)) (insert_entry nat_cmp (joined chunks.old.items) high.0 high.1)
        ≡ joined chunks.old.items }
    ensures chunks { AreChunks 0 chunks.new.items }
    ensures ok { OnOk result (joined chunks.new.items
        ≡ insert_entry nat_cmp (insert_entry nat_cmp (joined chunks.old.items) high.0 high.1) low.0 low.1) }
    ensures err { OnErr result (joined chunks.new.items ≡ joined chunks.old.items) }
{
    let at = chunk_at(chunks, near.chunks, low.0);
    let Some(place) = chunks[at].gap(near.runs, low.0, high.0) else {
        return insert_each(chunks, near, low, high);
    };
    match chunks[at].insert_both(place, low, high) {
        Ok(()) => Ok(()),
        Err(error) => Err(error),
    }
}

/// Does the work of `insert_both` in two steps.
fn insert_each<T: Drop>(
    chunks: &mut Vec<Chunk<T>>,
    near: Near,
    low: (u32, T),
    high: (u32, T),
) -> Result<(), AllocError>
    requires chunks { AreChunks 0 chunks.old.items }
    requires undone { remove_entry (is_at (nat_cmp high.0)) (insert_entry nat_cmp (joined chunks.old.items) high.0 high.1)
        ≡ joined chunks.old.items }
    ensures chunks { AreChunks 0 chunks.new.items }
    ensures ok { OnOk result (joined chunks.new.items
        ≡ insert_entry nat_cmp (insert_entry nat_cmp (joined chunks.old.items) high.0 high.1) low.0 low.1) }
    ensures err { OnErr result (joined chunks.new.items ≡ joined chunks.old.items) }
{
    let (high, high_value) = high;
    let (low, low_value) = low;
    insert_run(chunks, near, high, high_value)?;
    if let Err(error) = insert_run(chunks, near, low, low_value) {
        remove_run(chunks, near, high);
        return Err(error);
    }
    Ok(())
}

/// The chunk that a run which ends at an index belongs to, with room for one more run.
fn room_for<T: Drop>(
    chunks: &mut Vec<Chunk<T>>,
    later: usize,
    end: u32,
) -> Result<usize, AllocError>
    requires { AreChunks 0 chunks.old.items }
    ensures chunks { AreChunks 0 chunks.new.items }
    ensures runs { joined chunks.new.items ≡ joined chunks.old.items }
    ensures within { IfOk result (λ at. at < length chunks.new.items) }
    ensures first { IfOk result (λ at. IsChunkOf end at chunks.new.items) }
{
    let at = chunk_at(chunks, later, end);
    if !chunks[at].is_full() {
        return Ok(at);
    }
    split(chunks, at)?;
    if end <= chunks[at].last {
        return Ok(at);
    }
    Ok(at + 1)
}

/// Makes two chunks of one. An error leaves them as they were.
fn split<T: Drop>(chunks: &mut Vec<Chunk<T>>, at: usize) -> Result<(), AllocError>
    requires chunks { AreChunks 0 chunks.old.items }
    requires within { at < length chunks.old.items }
    requires some { (d : Chunk T) → 1 < length (slice_index_or chunks.old.items at d).runs.items }
    ensures chunks { AreChunks 0 chunks.new.items }
    ensures runs { joined chunks.new.items ≡ joined chunks.old.items }
    ensures within { OnOk result (at + 1 < length chunks.new.items) }
    ensures either { OnOk result ((end : ℕ) → IsChunkOf end at chunks.old.items
        → IsChunkOf end at chunks.new.items ⊎ IsChunkOf end (at + 1) chunks.new.items) }
{
    chunks.reserve(1)?;
    let more = chunks[at].halve()?;
    match chunks.insert(at + 1, more) {
        Ok(()) => Ok(()),
        Err(_) => unreachable!(),
    }
}

/// Takes away the run that ends at an index, if there is one.
pub(crate) fn remove_run<T: Drop>(chunks: &mut Vec<Chunk<T>>, near: Near, end: u32)
    requires { AreChunks 0 chunks.old.items }
    ensures chunks { AreChunks 0 chunks.new.items }
    ensures runs { joined chunks.new.items ≡ remove_entry (is_at (nat_cmp end)) (joined chunks.old.items) }
{
    let at = chunk_at(chunks, near.chunks, end);
    chunks[at].remove(near.runs, end);
    drop_empty(chunks, at);
}

/// Takes away a chunk with no runs, unless it is the last one.
fn drop_empty<T: Drop>(chunks: &mut Vec<Chunk<T>>, at: usize)
    requires chunks { AreChunks 0 chunks.old.items }
    requires within { at < length chunks.old.items }
    ensures chunks { AreChunks 0 chunks.new.items }
    ensures runs { joined chunks.new.items ≡ joined chunks.old.items }
{
    if !chunks[at].runs.is_empty() {
        return;
    }
    if at + 1 < chunks.len() {
        chunks.remove(at);
    }
}

/// Gives the run that ends at an index another value, if there is one.
pub(crate) fn set_run<T: Drop>(chunks: &mut Vec<Chunk<T>>, near: Near, end: u32, value: T)
    requires { AreChunks 0 chunks.old.items }
    ensures chunks { AreChunks 0 chunks.new.items }
    ensures runs { joined chunks.new.items ≡ set_value (is_at (nat_cmp end)) (joined chunks.old.items) value }
{
    let at = chunk_at(chunks, near.chunks, end);
    chunks[at].set(near.runs, end, value);
}
