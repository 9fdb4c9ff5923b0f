use crate::lists::{Written, push_list};
use crate::words::{algorithm_word, push_bytes, push_length, push_place};
use bitflags::Flags;
use std::alloc::{AllocError, Global};
use vk_model::{Batch, BufferInfo, Entry, ImageInfo, Length, PoolInfo};
use vk_words::{format_name, sharing_name, tiling_name};

/// A trace, with a line for each entry.
pub fn trace_json(alloc: Global, trace: &[Entry]) -> Result<String, AllocError> {
    let mut out = String::from_str(alloc, "[")?;
    for (number, entry) in trace.iter().enumerate() {
        if number > 0 {
            out.push_str(",\n ")?;
        }
        entry.push_json(&mut out)?;
    }
    out.push_str("]\n")?;
    Ok(out)
}

/// An entry.
pub fn entry_json(alloc: Global, entry: &Entry) -> Result<String, AllocError> {
    let mut out = String::new(alloc);
    entry.push_json(&mut out)?;
    Ok(out)
}

impl Written for Entry {
    fn push_json(&self, out: &mut String) -> Result<(), AllocError> {
        match self {
            Entry::Pool { id, info } => push_pool(out, *id, info),
            Entry::Buffer { id, info } => push_buffer(out, *id, info),
            Entry::Image { id, info } => push_image(out, *id, info),
            Entry::Memory { id, info } => {
                let memory_type = info.memory_type;
                let size = info.size;
                write!(out, "[\"memory\",{id},{memory_type},{size}]")
            }
            Entry::Free { memory } => write!(out, "[\"free\",{memory}]"),
            Entry::Destroy { resource } => write!(out, "[\"destroy\",{resource}]"),
            Entry::DropPool { pool } => write!(out, "[\"drop_pool\",{pool}]"),
            Entry::Map { buffer } => write!(out, "[\"map\",{buffer}]"),
            Entry::Unmap { buffer } => write!(out, "[\"unmap\",{buffer}]"),
            Entry::Write {
                buffer,
                offset,
                bytes,
            } => push_write(out, *buffer, *offset, bytes.as_slice()),
            Entry::Read {
                buffer,
                offset,
                size,
            } => write!(out, "[\"read\",{buffer},{offset},{size}]"),
            Entry::Flush {
                buffer,
                offset,
                size,
            } => push_range(out, "flush", *buffer, *offset, *size),
            Entry::Invalidate {
                buffer,
                offset,
                size,
            } => push_range(out, "invalidate", *buffer, *offset, *size),
            _ => push_other(out, self),
        }
    }
}

/// Adds an entry on semaphores, events, queues or defragmentations; of another one nothing.
fn push_other(out: &mut String, entry: &Entry) -> Result<(), AllocError> {
    match entry {
        Entry::Semaphore { id, initial } => write!(out, "[\"semaphore\",{id},{initial}]"),
        Entry::Event { id } => write!(out, "[\"event\",{id}]"),
        Entry::Signal { semaphore, value } => write!(out, "[\"signal\",{semaphore},{value}]"),
        Entry::Wait { waits } => {
            out.push_str("[\"wait\",")?;
            push_list(out, waits.as_slice())?;
            out.push_str("]")
        }
        Entry::Submit { queue, batches } => {
            write!(out, "[\"submit\",{queue},")?;
            push_list(out, batches.as_slice())?;
            out.push_str("]")
        }
        Entry::Defrag {
            id,
            pool,
            max_bytes,
            max_moves,
        } => write!(out, "[\"defrag\",{id},{pool},{max_bytes},{max_moves}]"),
        Entry::Pass { defrag } => write!(out, "[\"pass\",{defrag}]"),
        Entry::EndPass {
            defrag,
            ignored,
            destroyed,
        } => {
            write!(out, "[\"end_pass\",{defrag},")?;
            push_list(out, ignored.as_slice())?;
            out.push_str(",")?;
            push_list(out, destroyed.as_slice())?;
            out.push_str("]")
        }
        Entry::EndDefrag { defrag } => write!(out, "[\"end_defrag\",{defrag}]"),
        _ => Ok(()),
    }
}

impl Written for Batch {
    fn push_json(&self, out: &mut String) -> Result<(), AllocError> {
        out.push_str("[")?;
        push_list(out, self.waits.as_slice())?;
        out.push_str(",")?;
        push_list(out, self.commands.as_slice())?;
        out.push_str(",")?;
        push_list(out, self.signals.as_slice())?;
        out.push_str("]")
    }
}

fn push_pool(out: &mut String, id: u32, info: &PoolInfo) -> Result<(), AllocError> {
    let algorithm = algorithm_word(info.kind);
    let memory_type = info.memory_type;
    let block_size = info.block_size;
    let block_limit = info.block_limit;
    write!(
        out,
        "[\"pool\",{id},\"{algorithm}\",{memory_type},{block_size},{block_limit}]"
    )
}

fn push_buffer(out: &mut String, id: u32, info: &BufferInfo) -> Result<(), AllocError> {
    let size = info.size;
    let usage = info.usage.bits();
    let sharing = sharing_name(info.sharing);
    write!(out, "[\"buffer\",{id},{size},{usage},\"{sharing}\",")?;
    push_place(out, info.place)?;
    out.push_str("]")
}

fn push_image(out: &mut String, id: u32, info: &ImageInfo) -> Result<(), AllocError> {
    let format = format_name(info.format);
    let width = info.width;
    let height = info.height;
    write!(out, "[\"image\",{id},\"{format}\",{width},{height},")?;
    let levels = info.levels;
    let layers = info.layers;
    let tiling = tiling_name(info.tiling);
    write!(out, "{levels},{layers},\"{tiling}\",")?;
    let usage = info.usage.bits();
    let sharing = sharing_name(info.sharing);
    write!(out, "{usage},\"{sharing}\",")?;
    push_place(out, info.place)?;
    out.push_str("]")
}

fn push_write(out: &mut String, buffer: u32, offset: u64, bytes: &[u8]) -> Result<(), AllocError> {
    write!(out, "[\"write\",{buffer},{offset},")?;
    push_bytes(out, bytes)?;
    out.push_str("]")
}

fn push_range(
    out: &mut String,
    word: &str,
    buffer: u32,
    offset: u64,
    size: Length,
) -> Result<(), AllocError> {
    write!(out, "[\"{word}\",{buffer},{offset},")?;
    push_length(out, size)?;
    out.push_str("]")
}
