use std::alloc::AllocError;
use vk_model::{PoolKind, Usage};
use vk_rules::{
    AlignCause, BadSize, BadType, Hidden, Misplaced, OverHalf, PastMemory, PoolAsked, PoolUse,
    Purpose, UsageLack, UsageMeasure,
};
use vk_words::{push_count, push_mask, tiling_name};

/// Adds the usage that is needed, and the one that there is.
pub fn push_usage(out: &mut String, measure: UsageMeasure) -> Result<(), AllocError> {
    match measure {
        UsageMeasure::Made(usage) => {
            out.push_str("usage ")?;
            push_mask(out, &usage)?;
            out.push_str("; TRANSFER_SRC, TRANSFER_DST or both are wanted")
        }
        UsageMeasure::Lacks(lack) => push_lack(out, lack),
    }
}

fn push_lack(out: &mut String, lack: UsageLack) -> Result<(), AllocError> {
    match lack.purpose {
        Purpose::Source => out.push_str("source: ")?,
        Purpose::Destination => out.push_str("destination: ")?,
        Purpose::Layout(index) => write!(out, "element {index}: ")?,
    }
    let resource = lack.resource;
    write!(out, "resource {resource} was made with ")?;
    match lack.usage {
        Some(usage) => push_mask(out, &usage)?,
        None => push_mask(out, &Usage(0))?,
    }
    out.push_str("; needed: ")?;
    push_mask(out, &lack.needed)
}

/// Adds the range of a resource, and the size of its memory object.
pub fn push_bind_range(out: &mut String, past: PastMemory) -> Result<(), AllocError> {
    let memory = past.memory;
    let offset = past.offset;
    let need = past.need;
    let size = past.size;
    write!(
        out,
        "{need} bytes at {offset} of memory object {memory}, which has {size}"
    )
}

/// Adds an offset, and of what it must be a multiple.
pub fn push_bind_align(out: &mut String, misplaced: Misplaced) -> Result<(), AllocError> {
    let memory = misplaced.memory;
    let offset = misplaced.offset;
    let multiple = misplaced.multiple;
    let cause = match misplaced.cause {
        AlignCause::Resource => "as the resource asks",
        AlignCause::Atom => "the bytes of an atom of the host's cache",
    };
    write!(
        out,
        "offset {offset} of memory object {memory}; a multiple of {multiple} is wanted, {cause}"
    )
}

/// Adds a memory type, and what it's named for.
pub fn push_memory_type(out: &mut String, bad: BadType) -> Result<(), AllocError> {
    let memory_type = bad.memory_type;
    match bad.kind {
        Some(kind) => {
            let name = tiling_name(kind);
            write!(
                out,
                "memory type {memory_type} for a resource whose bytes lie {name}; "
            )?;
            out.push_str("linear ones may be in types 0 to 2, optimal ones in type 0")
        }
        None => write!(out, "memory type {memory_type}; there are 0 to 2"),
    }
}

/// Adds the bytes that are asked for.
pub fn push_memory_size(out: &mut String, bad: BadSize) -> Result<(), AllocError> {
    let need = bad.need;
    write!(
        out,
        "{need} bytes are asked for; at least 1, at most 67108864"
    )
}

/// Adds the bytes that are asked for, and those of a block.
pub fn push_pool_size(out: &mut String, over: OverHalf) -> Result<(), AllocError> {
    let pool = over.pool;
    let need = over.need;
    let block_size = over.block_size;
    write!(
        out,
        "{need} bytes are asked for; at most half a block of pool {pool}, which has {block_size}"
    )
}

/// Adds a buffer, and its memory type.
pub fn push_hidden(out: &mut String, hidden: Hidden) -> Result<(), AllocError> {
    let buffer = hidden.buffer;
    let memory_type = hidden.memory_type;
    write!(
        out,
        "buffer {buffer} is in memory type {memory_type}; the host sees types 1 and 2"
    )
}

/// Adds a pool, and what it can't do.
pub fn push_pool_kind(out: &mut String, asked: PoolUse) -> Result<(), AllocError> {
    let pool = asked.pool;
    let kind = match asked.kind {
        PoolKind::Tlsf => "tlsf",
        PoolKind::Linear => "linear",
    };
    match asked.asked {
        PoolAsked::Defragments => write!(out, "pool {pool} is {kind}, and can't be defragmented"),
        PoolAsked::UpperEnd => {
            write!(out, "pool {pool} is {kind}")?;
            let limit = asked.block_limit as u64;
            push_count(out, ", and may have ", limit, "block", "blocks")?;
            out.push_str("; a linear one of 1 has an upper end")
        }
    }
}
