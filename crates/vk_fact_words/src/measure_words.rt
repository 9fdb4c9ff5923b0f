use crate::memory::{
    push_bind_align, push_bind_range, push_hidden, push_memory_size, push_memory_type,
    push_pool_kind, push_pool_size, push_usage,
};
use crate::numbers::{push_align, push_format, push_limit, push_outside, push_range, push_size};
use crate::synchronization::{push_owner_whole, push_queue, push_queue_kind, push_stage};
use std::alloc::{AllocError, Global};
use vk_findings::Measure;

/// What a rule compares, in words. The only error is want of memory.
pub fn measure_words(alloc: Global, measure: Measure) -> Result<String, AllocError> {
    let mut out = String::new(alloc);
    match measure {
        Measure::Range(range) => push_range(&mut out, range)?,
        Measure::Stage(masks) => push_stage(&mut out, masks)?,
        Measure::Usage(usage) => push_usage(&mut out, usage)?,
        Measure::Subresource(outside) => push_outside(&mut out, outside)?,
        Measure::BindRange(past) => push_bind_range(&mut out, past)?,
        Measure::BindAlign(misplaced) => push_bind_align(&mut out, misplaced)?,
        Measure::MemoryType(bad) => push_memory_type(&mut out, bad)?,
        Measure::MemorySize(bad) => push_memory_size(&mut out, bad)?,
        Measure::PoolSize(over) => push_pool_size(&mut out, over)?,
        Measure::HostVisible(hidden) => push_hidden(&mut out, hidden)?,
        Measure::Size(size) => push_size(&mut out, size)?,
        Measure::Align(misaligned) => push_align(&mut out, misaligned)?,
        Measure::Format(other) => push_format(&mut out, other)?,
        Measure::Queue(number) => push_queue(&mut out, number)?,
        Measure::QueueKind(asked) => push_queue_kind(&mut out, asked)?,
        Measure::OwnerWhole(part) => push_owner_whole(&mut out, part)?,
        Measure::PoolKind(asked) => push_pool_kind(&mut out, asked)?,
        Measure::Limit(number) => push_limit(&mut out, number)?,
    }
    Ok(out)
}
