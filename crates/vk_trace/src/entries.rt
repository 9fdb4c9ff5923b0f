ghost use Rattle.std.specs.Prelude.{◌≡◌, Some, OnOk, codes};
ghost use Rattle.vk_trace.specs.Members.{after_word};
ghost use Rattle.vk_trace.specs.Trace.{sharing_value, place_rows, place_value, semaphore_value, semaphore_submit, batch_value, entry_rows, entry_value};
ghost use Rattle.vk_trace.specs.Inner.Gives.{Gives};
ghost use Rattle.vk_trace.specs.Inner.Ahead.{ahead, whole};

use crate::defrags::{defrag_of, end_defrag_of, end_pass_of, pass_of};
use crate::errors::ReadTraceError;
use crate::images::image_of;
use crate::members::{Member, first, first_bytes, is_named, word_first};
use crate::pools::{drop_pool_of, in_pool_of, pool_of, upper_of};
use crate::tokens::{Reading, Tokens};
use bitflags::Flags;
use std::alloc::Global;
use vk_model::{
    Batch, BufferInfo, Entry, Length, MemoryInfo, Place, SemaphoreSubmit, SemaphoreValue, Sharing,
    Stages, Usage,
};

impl Member for Sharing {
    ghost means = { sharing_value };

    #[tactic(auto, unfolding(crate::specs::Trace::sharing_value))]
    fn member(_alloc: Global, tokens: &mut Tokens<'_>) -> Reading<Sharing> {
        match tokens.text()? {
            "exclusive" => Ok(Sharing::Exclusive),
            "concurrent" => Ok(Sharing::Concurrent),
            _ => Err(ReadTraceError::NotTrace),
        }
    }
}

impl Member for Place {
    ghost means = { place_value };

    #[tactic(auto, unfolding(crate::specs::Trace::place_value, crate::specs::Trace::place_rows))]
    fn member(alloc: Global, tokens: &mut Tokens<'_>) -> Reading<Place> {
        match word_first(tokens)? {
            "dedicated" => dedicated_of(alloc, tokens),
            "memory" => bound_of(alloc, tokens),
            "pool" => in_pool_of(alloc, tokens),
            "pool_upper" => upper_of(alloc, tokens),
            _ => Err(ReadTraceError::NotTrace),
        }
    }
}

#[tactic(auto, unfolding(crate::specs::Trace::place_rows))]
fn dedicated_of(alloc: Global, tokens: &mut Tokens<'_>) -> Reading<Place>
    ensures value { Gives (λ x. x) result (after_word place_rows (codes "dedicated") (ahead tokens.old)) }
    ensures rest { OnOk result (whole tokens.old ≡ Some tokens.new) }
{
    let memory_type = first::<u32>(alloc, tokens)?;
    tokens.end()?;
    Ok(Place::Dedicated { memory_type })
}

#[tactic(auto, unfolding(crate::specs::Trace::place_rows))]
fn bound_of(alloc: Global, tokens: &mut Tokens<'_>) -> Reading<Place>
    ensures value { Gives (λ x. x) result (after_word place_rows (codes "memory") (ahead tokens.old)) }
    ensures rest { OnOk result (whole tokens.old ≡ Some tokens.new) }
{
    let memory = first::<u32>(alloc, tokens)?;
    let offset = first::<u64>(alloc, tokens)?;
    tokens.end()?;
    Ok(Place::Memory { memory, offset })
}

impl Member for SemaphoreValue {
    ghost means = { semaphore_value };

    #[tactic(auto, unfolding(crate::specs::Trace::semaphore_value))]
    fn member(alloc: Global, tokens: &mut Tokens<'_>) -> Reading<SemaphoreValue> {
        tokens.begin()?;
        let semaphore = first::<u32>(alloc, tokens)?;
        let value = first::<u64>(alloc, tokens)?;
        tokens.end()?;
        Ok(SemaphoreValue { semaphore, value })
    }
}

impl Member for SemaphoreSubmit {
    ghost means = { semaphore_submit };

    #[tactic(auto, unfolding(crate::specs::Trace::semaphore_submit))]
    fn member(alloc: Global, tokens: &mut Tokens<'_>) -> Reading<SemaphoreSubmit> {
        tokens.begin()?;
        let semaphore = first::<u32>(alloc, tokens)?;
        let value = first::<u64>(alloc, tokens)?;
        let stages = first::<u32>(alloc, tokens)?;
        tokens.end()?;
        Ok(SemaphoreSubmit {
            semaphore,
            value,
            stages: Stages::from_bits_retain(stages),
        })
    }
}

impl Member for Batch {
    ghost means = { batch_value };

    #[tactic(auto, unfolding(crate::specs::Trace::batch_value))]
    fn member(alloc: Global, tokens: &mut Tokens<'_>) -> Reading<Batch> {
        tokens.begin()?;
        let waits = first(alloc, tokens)?;
        let commands = first(alloc, tokens)?;
        let signals = first(alloc, tokens)?;
        tokens.end()?;
        Ok(Batch {
            waits,
            commands,
            signals,
        })
    }
}

impl Member for Entry {
    ghost means = { entry_value };

    #[tactic(auto, unfolding(crate::specs::Trace::entry_value, crate::specs::Trace::entry_rows))]
    fn member(alloc: Global, tokens: &mut Tokens<'_>) -> Reading<Entry> {
        match word_first(tokens)? {
            word if is_named(word, "submit") => submit_of(alloc, tokens),
            word if is_named(word, "wait") => wait_of(alloc, tokens),
            word if is_named(word, "semaphore") => semaphore_of(alloc, tokens),
            word if is_named(word, "write") => write_of(alloc, tokens),
            word if is_named(word, "read") => read_of(alloc, tokens),
            word if is_named(word, "map") => map_of(alloc, tokens),
            word if is_named(word, "buffer") => buffer_of(alloc, tokens),
            word if is_named(word, "destroy") => destroy_of(alloc, tokens),
            word if is_named(word, "unmap") => unmap_of(alloc, tokens),
            word if is_named(word, "flush") => flush_of(alloc, tokens),
            word if is_named(word, "invalidate") => invalidate_of(alloc, tokens),
            word if is_named(word, "image") => image_of(alloc, tokens),
            word if is_named(word, "memory") => memory_of(alloc, tokens),
            word if is_named(word, "free") => free_of(alloc, tokens),
            word if is_named(word, "signal") => signal_of(alloc, tokens),
            word if is_named(word, "event") => event_of(alloc, tokens),
            word if is_named(word, "pool") => pool_of(alloc, tokens),
            word if is_named(word, "drop_pool") => drop_pool_of(alloc, tokens),
            word if is_named(word, "defrag") => defrag_of(alloc, tokens),
            word if is_named(word, "pass") => pass_of(alloc, tokens),
            word if is_named(word, "end_pass") => end_pass_of(alloc, tokens),
            word if is_named(word, "end_defrag") => end_defrag_of(alloc, tokens),
            _ => Err(ReadTraceError::NotTrace),
        }
    }
}

#[tactic(auto, unfolding(crate::specs::Trace::entry_rows))]
fn buffer_of(alloc: Global, tokens: &mut Tokens<'_>) -> Reading<Entry>
    ensures value { Gives (λ x. x) result (after_word entry_rows (codes "buffer") (ahead tokens.old)) }
    ensures rest { OnOk result (whole tokens.old ≡ Some tokens.new) }
{
    let id = first::<u32>(alloc, tokens)?;
    let size = first::<u64>(alloc, tokens)?;
    let usage = first::<u32>(alloc, tokens)?;
    let sharing = first::<Sharing>(alloc, tokens)?;
    let place = first::<Place>(alloc, tokens)?;
    tokens.end()?;
    let info = BufferInfo {
        size,
        usage: Usage::from_bits_retain(usage),
        sharing,
        place,
    };
    Ok(Entry::Buffer { id, info })
}

#[tactic(auto, unfolding(crate::specs::Trace::entry_rows))]
fn memory_of(alloc: Global, tokens: &mut Tokens<'_>) -> Reading<Entry>
    ensures value { Gives (λ x. x) result (after_word entry_rows (codes "memory") (ahead tokens.old)) }
    ensures rest { OnOk result (whole tokens.old ≡ Some tokens.new) }
{
    let id = first::<u32>(alloc, tokens)?;
    let memory_type = first::<u32>(alloc, tokens)?;
    let size = first::<u64>(alloc, tokens)?;
    tokens.end()?;
    let info = MemoryInfo { memory_type, size };
    Ok(Entry::Memory { id, info })
}

#[tactic(auto, unfolding(crate::specs::Trace::entry_rows))]
fn free_of(alloc: Global, tokens: &mut Tokens<'_>) -> Reading<Entry>
    ensures value { Gives (λ x. x) result (after_word entry_rows (codes "free") (ahead tokens.old)) }
    ensures rest { OnOk result (whole tokens.old ≡ Some tokens.new) }
{
    let memory = first::<u32>(alloc, tokens)?;
    tokens.end()?;
    Ok(Entry::Free { memory })
}

#[tactic(auto, unfolding(crate::specs::Trace::entry_rows))]
fn destroy_of(alloc: Global, tokens: &mut Tokens<'_>) -> Reading<Entry>
    ensures value { Gives (λ x. x) result (after_word entry_rows (codes "destroy") (ahead tokens.old)) }
    ensures rest { OnOk result (whole tokens.old ≡ Some tokens.new) }
{
    let resource = first::<u32>(alloc, tokens)?;
    tokens.end()?;
    Ok(Entry::Destroy { resource })
}

#[tactic(auto, unfolding(crate::specs::Trace::entry_rows))]
fn semaphore_of(alloc: Global, tokens: &mut Tokens<'_>) -> Reading<Entry>
    ensures value { Gives (λ x. x) result (after_word entry_rows (codes "semaphore") (ahead tokens.old)) }
    ensures rest { OnOk result (whole tokens.old ≡ Some tokens.new) }
{
    let id = first::<u32>(alloc, tokens)?;
    let initial = first::<u64>(alloc, tokens)?;
    tokens.end()?;
    Ok(Entry::Semaphore { id, initial })
}

#[tactic(auto, unfolding(crate::specs::Trace::entry_rows))]
fn event_of(alloc: Global, tokens: &mut Tokens<'_>) -> Reading<Entry>
    ensures value { Gives (λ x. x) result (after_word entry_rows (codes "event") (ahead tokens.old)) }
    ensures rest { OnOk result (whole tokens.old ≡ Some tokens.new) }
{
    let id = first::<u32>(alloc, tokens)?;
    tokens.end()?;
    Ok(Entry::Event { id })
}

#[tactic(auto, unfolding(crate::specs::Trace::entry_rows))]
fn signal_of(alloc: Global, tokens: &mut Tokens<'_>) -> Reading<Entry>
    ensures value { Gives (λ x. x) result (after_word entry_rows (codes "signal") (ahead tokens.old)) }
    ensures rest { OnOk result (whole tokens.old ≡ Some tokens.new) }
{
    let semaphore = first::<u32>(alloc, tokens)?;
    let value = first::<u64>(alloc, tokens)?;
    tokens.end()?;
    Ok(Entry::Signal { semaphore, value })
}

#[tactic(auto, unfolding(crate::specs::Trace::entry_rows))]
fn submit_of(alloc: Global, tokens: &mut Tokens<'_>) -> Reading<Entry>
    ensures value { Gives (λ x. x) result (after_word entry_rows (codes "submit") (ahead tokens.old)) }
    ensures rest { OnOk result (whole tokens.old ≡ Some tokens.new) }
{
    let queue = first::<u32>(alloc, tokens)?;
    let batches = first(alloc, tokens)?;
    tokens.end()?;
    Ok(Entry::Submit { queue, batches })
}

#[tactic(auto, unfolding(crate::specs::Trace::entry_rows))]
fn wait_of(alloc: Global, tokens: &mut Tokens<'_>) -> Reading<Entry>
    ensures value { Gives (λ x. x) result (after_word entry_rows (codes "wait") (ahead tokens.old)) }
    ensures rest { OnOk result (whole tokens.old ≡ Some tokens.new) }
{
    let waits = first(alloc, tokens)?;
    tokens.end()?;
    Ok(Entry::Wait { waits })
}

#[tactic(auto, unfolding(crate::specs::Trace::entry_rows))]
fn map_of(alloc: Global, tokens: &mut Tokens<'_>) -> Reading<Entry>
    ensures value { Gives (λ x. x) result (after_word entry_rows (codes "map") (ahead tokens.old)) }
    ensures rest { OnOk result (whole tokens.old ≡ Some tokens.new) }
{
    let buffer = first::<u32>(alloc, tokens)?;
    tokens.end()?;
    Ok(Entry::Map { buffer })
}

#[tactic(auto, unfolding(crate::specs::Trace::entry_rows))]
fn unmap_of(alloc: Global, tokens: &mut Tokens<'_>) -> Reading<Entry>
    ensures value { Gives (λ x. x) result (after_word entry_rows (codes "unmap") (ahead tokens.old)) }
    ensures rest { OnOk result (whole tokens.old ≡ Some tokens.new) }
{
    let buffer = first::<u32>(alloc, tokens)?;
    tokens.end()?;
    Ok(Entry::Unmap { buffer })
}

#[tactic(auto, unfolding(crate::specs::Trace::entry_rows))]
fn write_of(alloc: Global, tokens: &mut Tokens<'_>) -> Reading<Entry>
    ensures value { Gives (λ x. x) result (after_word entry_rows (codes "write") (ahead tokens.old)) }
    ensures rest { OnOk result (whole tokens.old ≡ Some tokens.new) }
{
    let buffer = first::<u32>(alloc, tokens)?;
    let offset = first::<u64>(alloc, tokens)?;
    let bytes = first_bytes(alloc, tokens)?;
    tokens.end()?;
    Ok(Entry::Write {
        buffer,
        offset,
        bytes,
    })
}

#[tactic(auto, unfolding(crate::specs::Trace::entry_rows))]
fn read_of(alloc: Global, tokens: &mut Tokens<'_>) -> Reading<Entry>
    ensures value { Gives (λ x. x) result (after_word entry_rows (codes "read") (ahead tokens.old)) }
    ensures rest { OnOk result (whole tokens.old ≡ Some tokens.new) }
{
    let buffer = first::<u32>(alloc, tokens)?;
    let offset = first::<u64>(alloc, tokens)?;
    let size = first::<u64>(alloc, tokens)?;
    tokens.end()?;
    Ok(Entry::Read {
        buffer,
        offset,
        size,
    })
}

#[tactic(auto, unfolding(crate::specs::Trace::entry_rows))]
fn flush_of(alloc: Global, tokens: &mut Tokens<'_>) -> Reading<Entry>
    ensures value { Gives (λ x. x) result (after_word entry_rows (codes "flush") (ahead tokens.old)) }
    ensures rest { OnOk result (whole tokens.old ≡ Some tokens.new) }
{
    let buffer = first::<u32>(alloc, tokens)?;
    let offset = first::<u64>(alloc, tokens)?;
    let size = first::<Length>(alloc, tokens)?;
    tokens.end()?;
    Ok(Entry::Flush {
        buffer,
        offset,
        size,
    })
}

#[tactic(auto, unfolding(crate::specs::Trace::entry_rows))]
fn invalidate_of(alloc: Global, tokens: &mut Tokens<'_>) -> Reading<Entry>
    ensures value { Gives (λ x. x) result (after_word entry_rows (codes "invalidate") (ahead tokens.old)) }
    ensures rest { OnOk result (whole tokens.old ≡ Some tokens.new) }
{
    let buffer = first::<u32>(alloc, tokens)?;
    let offset = first::<u64>(alloc, tokens)?;
    let size = first::<Length>(alloc, tokens)?;
    tokens.end()?;
    Ok(Entry::Invalidate {
        buffer,
        offset,
        size,
    })
}
