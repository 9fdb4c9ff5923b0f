use crate::counts::push_count;
use crate::masks::push_mask;
use crate::names::{format_name, noun_of, sharing_name, tiling_name};
use crate::passes::push_pass_entry;
use crate::ranges::{push_bytes_of, push_length_of, push_more};
use std::alloc::AllocError;
use vk_model::{
    BufferInfo, Entry, ImageInfo, Place, PoolInfo, PoolKind, SemaphoreValue, Sharing, Usage,
};

/// How many semaphores of a wait are named one by one.
const MOST_WAITS: usize = 4;

/// What an entry does. The trace says of which kind a resource is that is named by its id alone.
pub fn push_entry(out: &mut String, entry: &Entry, trace: &[Entry]) -> Result<(), AllocError> {
    match entry {
        Entry::Buffer { id, info } => push_buffer(out, *id, info),
        Entry::Image { id, info } => push_image(out, *id, info),
        Entry::Memory { id, info } => {
            write!(out, "makes memory object {id}")?;
            push_count(out, ": ", info.size, "byte", "bytes")?;
            let memory_type = info.memory_type;
            write!(out, " of memory type {memory_type}")
        }
        Entry::Free { memory } => write!(out, "frees memory object {memory}"),
        Entry::Destroy { resource } => {
            let noun = noun_of(trace, *resource);
            write!(out, "destroys {noun} {resource}")
        }
        Entry::Semaphore { id, initial } => {
            write!(out, "makes semaphore {id}, which begins at {initial}")
        }
        Entry::Event { id } => write!(out, "makes event {id}"),
        Entry::Signal { semaphore, value } => {
            write!(out, "signals semaphore {semaphore} to {value}")
        }
        Entry::Wait { waits } => push_waits(out, waits.as_slice()),
        Entry::Submit { queue, batches } => {
            let count = batches.len() as u64;
            push_count(out, "submits ", count, "batch", "batches")?;
            write!(out, " to queue {queue}")
        }
        _ => push_host_access(out, entry, trace),
    }
}

/// What an entry does that maps memory or accesses it.
fn push_host_access(out: &mut String, entry: &Entry, trace: &[Entry]) -> Result<(), AllocError> {
    match entry {
        Entry::Map { buffer } => write!(out, "maps the memory of buffer {buffer}"),
        Entry::Unmap { buffer } => write!(out, "unmaps the memory of buffer {buffer}"),
        Entry::Write {
            buffer,
            offset,
            bytes,
        } => push_bytes_of(out, "writes", *offset, bytes.len() as u64, *buffer),
        Entry::Read {
            buffer,
            offset,
            size,
        } => push_bytes_of(out, "reads", *offset, *size, *buffer),
        Entry::Flush {
            buffer,
            offset,
            size,
        } => push_length_of(out, "flushes", *offset, *size, *buffer),
        Entry::Invalidate {
            buffer,
            offset,
            size,
        } => push_length_of(out, "invalidates", *offset, *size, *buffer),
        _ => push_pool_entry(out, entry, trace),
    }
}

/// What an entry does with pools.
fn push_pool_entry(out: &mut String, entry: &Entry, trace: &[Entry]) -> Result<(), AllocError> {
    match entry {
        Entry::Pool { id, info } => push_pool(out, *id, info),
        Entry::DropPool { pool } => write!(out, "destroys pool {pool}"),
        _ => push_pass_entry(out, entry, trace),
    }
}

fn push_place(out: &mut String, place: Place) -> Result<(), AllocError> {
    match place {
        Place::Dedicated { memory_type } => {
            write!(out, ", in memory of its own, of type {memory_type}")
        }
        Place::Pool { pool } => write!(out, ", in pool {pool}"),
        Place::PoolUpper { pool } => write!(out, ", at the upper end of pool {pool}"),
        Place::Memory { memory, offset } => {
            write!(out, ", in memory object {memory} from byte {offset} on")
        }
    }
}

/// What a resource may be used for, who owns it, and where it lies.
fn push_use(
    out: &mut String,
    usage: Usage,
    sharing: Sharing,
    place: Place,
) -> Result<(), AllocError> {
    out.push_str(", usage ")?;
    push_mask(out, &usage)?;
    let name = sharing_name(sharing);
    write!(out, ", {name}")?;
    push_place(out, place)
}

fn push_buffer(out: &mut String, id: u32, info: &BufferInfo) -> Result<(), AllocError> {
    write!(out, "makes buffer {id}")?;
    push_count(out, ": ", info.size, "byte", "bytes")?;
    push_use(out, info.usage, info.sharing, info.place)
}

fn push_image(out: &mut String, id: u32, info: &ImageInfo) -> Result<(), AllocError> {
    let format = format_name(info.format);
    let width = info.width;
    let height = info.height;
    write!(
        out,
        "makes image {id}: {format}, {width} by {height} texels, "
    )?;
    let levels = info.levels;
    let layers = info.layers;
    let tiling = tiling_name(info.tiling);
    write!(out, "mip levels {levels}, array layers {layers}, {tiling}")?;
    push_use(out, info.usage, info.sharing, info.place)
}

fn push_pool(out: &mut String, id: u32, info: &PoolInfo) -> Result<(), AllocError> {
    let kind = match info.kind {
        PoolKind::Tlsf => "two-level free lists",
        PoolKind::Linear => "linear",
    };
    let memory_type = info.memory_type;
    write!(out, "makes pool {id}: {kind}, memory type {memory_type}")?;
    let limit = info.block_limit as u64;
    push_count(out, ", at most ", limit, "block", "blocks")?;
    push_count(out, " of ", info.block_size, "byte", "bytes")
}

fn push_waits(out: &mut String, waits: &[SemaphoreValue]) -> Result<(), AllocError> {
    out.push_str("waits for ")?;
    if waits.is_empty() {
        return out.push_str("no semaphore");
    }
    for (number, wait) in waits.iter().take(MOST_WAITS).enumerate() {
        if number > 0 {
            out.push_str(", ")?;
        }
        let semaphore = wait.semaphore;
        let value = wait.value;
        write!(out, "semaphore {semaphore} at {value}")?;
    }
    push_more(out, MOST_WAITS, waits.len(), "semaphore")
}
