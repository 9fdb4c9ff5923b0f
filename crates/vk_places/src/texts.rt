//! States as JSON.
use crate::lacking::{HeapLack, Lack, PoolLack};
use crate::states::{
    HeapUse, Hold, LiveBlock, LiveObject, LivePool, LiveResource, Owner, State, Taken,
};
use crate::walking::Walk;
use std::alloc::{AllocError, Global};
use vk_model::{At, Entry, PoolKind, Rule};
use vk_words::{push_at, tiling_name};

/// Adds what stands before an item of a list: a comma, but before the first.
fn push_between(out: &mut String, index: usize, between: &str) -> Result<(), AllocError> {
    if index > 0 {
        out.push_str(between)?;
    }
    Ok(())
}

/// Adds numbers as a list, or `null` where there is no list.
fn push_numbers<N: Copy + Into<u64>>(
    out: &mut String,
    numbers: Option<&[N]>,
) -> Result<(), AllocError> {
    let Some(numbers) = numbers else {
        return out.push_str("null");
    };
    out.push_str("[")?;
    for (index, number) in numbers.iter().enumerate() {
        push_between(out, index, ",")?;
        let number: u64 = (*number).into();
        write!(out, "{number}")?;
    }
    out.push_str("]")
}

/// The name of a call, as a trace has it.
fn call_name(entry: Option<&Entry>) -> &'static str {
    match entry {
        Some(Entry::Pool { .. }) => "pool",
        Some(Entry::Buffer { .. }) => "buffer",
        Some(Entry::Image { .. }) => "image",
        Some(Entry::Memory { .. }) => "memory",
        Some(Entry::Free { .. }) => "free",
        Some(Entry::Destroy { .. }) => "destroy",
        Some(Entry::DropPool { .. }) => "drop_pool",
        Some(Entry::Pass { .. }) => "pass",
        Some(Entry::EndPass { .. }) => "end_pass",
        _ => "other",
    }
}

/// Adds how much of a heap is in use.
fn push_heap(out: &mut String, heap: HeapUse) -> Result<(), AllocError> {
    let size = heap.size;
    let used = heap.used;
    write!(out, "{{\"size\":{size},\"used\":{used}}}")
}

/// Adds whose a memory object is.
fn push_owner(out: &mut String, owner: Option<Owner>) -> Result<(), AllocError> {
    match owner {
        Some(Owner::Id(id)) => write!(out, ",\"id\":{id}"),
        Some(Owner::Block { pool, block }) => write!(out, ",\"pool\":{pool},\"block\":{block}"),
        None => Ok(()),
    }
}

/// Adds a memory object.
fn push_object(out: &mut String, object: &LiveObject) -> Result<(), AllocError> {
    let number = object.number;
    let memory_type = object.memory_type;
    let size = object.size;
    let mapped = object.mapped;
    write!(
        out,
        "{{\"number\":{number},\"type\":{memory_type},\"size\":{size},\"mapped\":{mapped}"
    )?;
    push_owner(out, object.owner)?;
    out.push_str("}")
}

/// Adds a range that is taken.
fn push_taken(out: &mut String, range: &Taken) -> Result<(), AllocError> {
    let id = range.id;
    let offset = range.offset;
    let size = range.size;
    write!(out, "{{\"id\":{id},\"offset\":{offset},\"size\":{size}")?;
    match range.hold {
        Hold::Lies => {}
        Hold::Moves => out.push_str(",\"moves\":true")?,
        Hold::Reserved => out.push_str(",\"reserved\":true")?,
    }
    out.push_str("}")
}

/// Adds a free range, where it has bytes.
fn push_free(out: &mut String, is_first: bool, offset: u64, end: u64) -> Result<bool, AllocError> {
    if end <= offset {
        return Ok(is_first);
    }
    if !is_first {
        out.push_str(",")?;
    }
    let size = end - offset;
    write!(out, "{{\"offset\":{offset},\"size\":{size}}}")?;
    Ok(false)
}

/// Adds the free ranges of a block: those between what is taken.
fn push_gaps(out: &mut String, taken: &[Taken], block_size: u64) -> Result<(), AllocError> {
    let mut is_first = true;
    let mut offset = 0;
    for range in taken {
        is_first = push_free(out, is_first, offset, range.offset)?;
        offset = range.offset.saturating_add(range.size);
    }
    push_free(out, is_first, offset, block_size)?;
    Ok(())
}

/// Adds a block of a pool.
fn push_block(out: &mut String, block: &LiveBlock, block_size: u64) -> Result<(), AllocError> {
    let number = block.number;
    let object = block.object;
    write!(out, "{{\"number\":{number},\"object\":{object},\"taken\":[")?;
    for (index, range) in block.taken.iter().enumerate() {
        push_between(out, index, ",")?;
        push_taken(out, range)?;
    }
    out.push_str("],\"free\":[")?;
    push_gaps(out, block.taken.as_slice(), block_size)?;
    out.push_str("]}")
}

/// Adds a pool.
fn push_pool(out: &mut String, pool: &LivePool) -> Result<(), AllocError> {
    let id = pool.id;
    let algorithm = match pool.info.kind {
        PoolKind::Tlsf => "tlsf",
        PoolKind::Linear => "linear",
    };
    let memory_type = pool.info.memory_type;
    let block_size = pool.info.block_size;
    let block_limit = pool.info.block_limit;
    let used = pool.statistics.used;
    let largest_free = pool.statistics.largest_free;
    write!(
        out,
        "{{\"id\":{id},\"algorithm\":\"{algorithm}\",\"type\":{memory_type},\"block_size\":{block_size},\"block_limit\":{block_limit}"
    )?;
    write!(
        out,
        ",\"used\":{used},\"largest_free\":{largest_free},\"blocks\":["
    )?;
    for (index, block) in pool.blocks.iter().enumerate() {
        push_between(out, index, ",")?;
        push_block(out, block, block_size)?;
    }
    out.push_str("]}")
}

/// Adds a buffer or an image.
fn push_resource(out: &mut String, resource: &LiveResource) -> Result<(), AllocError> {
    let id = resource.id;
    let object = resource.object;
    let offset = resource.offset;
    let size = resource.size;
    write!(out, "{{\"id\":{id},\"kind\":")?;
    match resource.tiling {
        Some(tiling) => {
            let tiling = tiling_name(tiling);
            write!(out, "\"image\",\"tiling\":\"{tiling}\"")?;
        }
        None => out.push_str("\"buffer\"")?,
    }
    write!(
        out,
        ",\"object\":{object},\"offset\":{offset},\"size\":{size}}}"
    )
}

/// Adds the lists of a state.
fn push_lists(out: &mut String, state: &State) -> Result<(), AllocError> {
    out.push_str("],\"objects\":[")?;
    for (index, object) in state.objects.iter().enumerate() {
        push_between(out, index, ",")?;
        push_object(out, object)?;
    }
    out.push_str("],\"pools\":[")?;
    for (index, pool) in state.pools.iter().enumerate() {
        push_between(out, index, ",")?;
        push_pool(out, pool)?;
    }
    out.push_str("],\"resources\":[")?;
    for (index, resource) in state.resources.iter().enumerate() {
        push_between(out, index, ",")?;
        push_resource(out, resource)?;
    }
    out.push_str("]")
}

/// Adds a state.
fn push_state(out: &mut String, state: &State, entries: &[Entry]) -> Result<(), AllocError> {
    let entry = state.entry;
    let call = call_name(entries.get(entry));
    write!(out, "{{\"entry\":{entry},\"call\":\"{call}\",\"pass\":")?;
    match state.opened {
        Some(defrag) => write!(out, "{defrag}")?,
        None => out.push_str("null")?,
    }
    out.push_str(",\"heaps\":[")?;
    push_heap(out, state.heap0)?;
    out.push_str(",")?;
    push_heap(out, state.heap1)?;
    push_lists(out, state)?;
    out.push_str("}")
}

/// Adds what a pool lacks.
fn push_pool_lack(out: &mut String, lack: &Option<PoolLack>) -> Result<(), AllocError> {
    let Some(lack) = lack else {
        return out.push_str("null");
    };
    let id = lack.id;
    let size = lack.size;
    let align = lack.align;
    let free = lack.free;
    let largest_free = lack.largest_free;
    write!(
        out,
        "{{\"id\":{id},\"size\":{size},\"align\":{align},\"free\":{free},\"largest_free\":{largest_free},\"go\":"
    )?;
    push_numbers(out, lack.go.as_ref().map(|ids| ids.as_slice()))?;
    out.push_str("}")
}

/// Adds what a heap lacks.
fn push_heap_lack(out: &mut String, lack: &Option<HeapLack>) -> Result<(), AllocError> {
    let Some(lack) = lack else {
        return out.push_str("null");
    };
    let heap = lack.heap;
    let size = lack.size;
    let free = lack.free;
    let objects = lack.objects;
    write!(
        out,
        "{{\"number\":{heap},\"size\":{size},\"free\":{free},\"objects\":{objects},\"go\":"
    )?;
    push_numbers(out, lack.go.as_ref().map(|numbers| numbers.as_slice()))?;
    out.push_str("}")
}

/// Adds which entry finds no room, if one does, and what it lacks.
fn push_stop(out: &mut String, stop: &Option<(usize, Option<Lack>)>) -> Result<(), AllocError> {
    let Some((entry, lack)) = stop else {
        return out.push_str("null");
    };
    write!(out, "{{\"entry\":{entry}")?;
    if let Some(lack) = lack {
        let id = lack.id;
        write!(out, ",\"id\":{id},\"pool\":")?;
        push_pool_lack(out, &lack.pool)?;
        out.push_str(",\"heap\":")?;
        push_heap_lack(out, &lack.heap)?;
    }
    out.push_str("}")
}

/// The object on an accepted trace, with a line for each state.
pub(crate) fn walk_text(
    alloc: Global,
    walk: &Walk,
    entries: &[Entry],
) -> Result<String, AllocError> {
    let mut out = String::from_str(alloc, "{\"verdict\":\"accepted\",\"states\":[")?;
    for (index, state) in walk.states.iter().enumerate() {
        push_between(&mut out, index, ",")?;
        out.push_str("\n")?;
        push_state(&mut out, state, entries)?;
    }
    out.push_str("],\n\"no_room\":")?;
    push_stop(&mut out, &walk.stop)?;
    out.push_str("}\n")?;
    Ok(out)
}

/// The object on a refused trace.
pub(crate) fn refusal_text(alloc: Global, at: At, rule: Rule) -> Result<String, AllocError> {
    let mut out = String::from_str(alloc, "{\"verdict\":\"refused\",\"at\":\"")?;
    push_at(&mut out, at)?;
    out.push_str("\",\"rule\":\"")?;
    out.push_str(rule.name())?;
    out.push_str("\"}\n")?;
    Ok(out)
}
