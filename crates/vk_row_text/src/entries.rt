ghost use Rattle.std.specs.Prelude.{◌≡◌, ◌++◌, IfOk, OnOk, string_bytes, true, [], ◌∷◌};
ghost use Rattle.vk_row_text.specs.Rows as spec;
ghost use Rattle.vk_row_text.specs.Texts.{entry_lines};
ghost use Rattle.vk_row_text.specs.Words.{row_words};

use crate::items::items_of;
use crate::names::{EntryName, RowName};
use crate::texts::push_row;
use crate::words::{Row, Word, plain_row, row_of};
use std::alloc::{AllocError, Global};
use vk_model::{BufferInfo, Entry, ImageInfo, PoolInfo, SemaphoreValue, Sequence};
use vk_words::push_number;

/// Adds the lines of an entry, behind its number in the trace.
pub fn push_entry(
    alloc: Global,
    out: &mut String,
    number: usize,
    entry: &Entry,
) -> Result<(), AllocError>
    ensures { OnOk result (string_bytes out.new ≡ string_bytes out.old ++ entry_lines number entry.now) }
{
    let row = entry_row(alloc, entry)?;
    out.push_str("    /* ")?;
    push_number(out, number)?;
    out.push_str(" */ ")?;
    push_row(out, &row)?;
    out.push_str("\n")
}

/// The row of an entry.
fn entry_row(alloc: Global, entry: &Entry) -> Result<Row, AllocError>
    ensures { IfOk result (λ row. row_words row ≡ spec.entry_row entry.now) }
{
    match entry {
        Entry::Pool { id, info } => pool_row(alloc, *id, info),
        Entry::Buffer { id, info } => buffer_row(alloc, *id, info),
        Entry::Image { id, info } => image_row(alloc, *id, info),
        Entry::Memory { id, info } => {
            let id = Word::Number(*id as u64);
            let memory_type = Word::Number(info.memory_type as u64);
            let words = Vec::from_array(alloc, [id, memory_type, Word::Number(info.size)])?;
            Ok(plain_row(alloc, EntryName::AllocateMemory, words))
        }
        Entry::Free { memory } => one_row(alloc, EntryName::FreeMemory, *memory),
        Entry::Destroy { resource } => one_row(alloc, EntryName::Destroy, *resource),
        Entry::DropPool { pool } => one_row(alloc, EntryName::DestroyPool, *pool),
        Entry::Map { buffer } => one_row(alloc, EntryName::MapMemory, *buffer),
        Entry::Unmap { buffer } => one_row(alloc, EntryName::UnmapMemory, *buffer),
        Entry::Write { .. } | Entry::Read { .. } | Entry::Flush { .. } | Entry::Invalidate { .. } =>
            range_row(alloc, entry),
        Entry::Semaphore { id, initial } => {
            value_row(alloc, EntryName::CreateSemaphore, *id, *initial)
        }
        Entry::Event { id } => one_row(alloc, EntryName::CreateEvent, *id),
        Entry::Signal { semaphore, value } => {
            value_row(alloc, EntryName::SignalSemaphore, *semaphore, *value)
        }
        Entry::Wait { .. } | Entry::Submit { .. } | Entry::Defrag { .. } | Entry::EndPass { .. } =>
            list_row(alloc, entry),
        Entry::Pass { defrag } => one_row(alloc, EntryName::BeginPass, *defrag),
        Entry::EndDefrag { defrag } => one_row(alloc, EntryName::EndDefragmentation, *defrag),
    }
}

/// The row of a pool that is made.
fn pool_row(alloc: Global, id: u32, info: &PoolInfo) -> Result<Row, AllocError>
    ensures { IfOk result (λ row. row_words row ≡ spec.entry_row (Entry.Pool id info.now)) }
{
    let words = [
        Word::Number(id as u64),
        Word::Algorithm(info.kind),
        Word::Number(info.memory_type as u64),
        Word::Number(info.block_size),
        Word::Number(info.block_limit as u64),
    ];
    let words = Vec::from_array(alloc, words)?;
    Ok(plain_row(alloc, EntryName::CreatePool, words))
}

/// The row of a buffer that is made.
fn buffer_row(alloc: Global, id: u32, info: &BufferInfo) -> Result<Row, AllocError>
    ensures { IfOk result (λ row. row_words row ≡ spec.entry_row (Entry.Buffer id info.now)) }
{
    let words = [
        Word::Number(id as u64),
        Word::Number(info.size),
        Word::Usage(info.usage),
        Word::Sharing(info.sharing),
        Word::Place(info.place),
    ];
    let words = Vec::from_array(alloc, words)?;
    Ok(plain_row(alloc, EntryName::CreateBuffer, words))
}

/// The row of an image that is made.
fn image_row(alloc: Global, id: u32, info: &ImageInfo) -> Result<Row, AllocError>
    ensures { IfOk result (λ row. row_words row ≡ spec.entry_row (Entry.Image id info.now)) }
{
    let words = [
        Word::Number(id as u64),
        Word::Format(info.format),
        Word::Number(info.width as u64),
        Word::Number(info.height as u64),
        Word::Number(info.levels as u64),
        Word::Number(info.layers as u64),
        Word::Tiling(info.tiling),
        Word::Usage(info.usage),
        Word::Sharing(info.sharing),
        Word::Place(info.place),
    ];
    let words = Vec::from_array(alloc, words)?;
    Ok(plain_row(alloc, EntryName::CreateImage, words))
}

/// A row with an id alone.
fn one_row(alloc: Global, name: EntryName, id: u32) -> Result<Row, AllocError>
    ensures { IfOk result (λ row. row_words row ≡ spec.of_entry name (Word.Number id ∷ [])) }
{
    let words = Vec::from_array(alloc, [Word::Number(id as u64)])?;
    Ok(plain_row(alloc, name, words))
}

/// A row with a semaphore and a value.
fn value_row(alloc: Global, name: EntryName, id: u32, value: u64) -> Result<Row, AllocError>
    ensures { IfOk result (λ row. row_words row ≡ spec.of_entry name (Word.Number id ∷ Word.Number value ∷ [])) }
{
    let words = Vec::from_array(alloc, [Word::Number(id as u64), Word::Number(value)])?;
    Ok(plain_row(alloc, name, words))
}

/// The row of an entry on a range of a buffer.
fn range_row(alloc: Global, entry: &Entry) -> Result<Row, AllocError>
    requires { spec.is_of_range entry.now ≡ true }
    ensures { IfOk result (λ row. row_words row ≡ spec.entry_row entry.now) }
{
    let (name, buffer, offset, size) = match entry {
        Entry::Write {
            buffer,
            offset,
            bytes,
        } => {
            let size = Word::Number(bytes.len() as u64);
            (EntryName::Write, *buffer, *offset, size)
        }
        Entry::Read {
            buffer,
            offset,
            size,
        } => (EntryName::Read, *buffer, *offset, Word::Number(*size)),
        Entry::Flush {
            buffer,
            offset,
            size,
        } => (EntryName::Flush, *buffer, *offset, Word::Bytes(*size)),
        Entry::Invalidate {
            buffer,
            offset,
            size,
        } => (EntryName::Invalidate, *buffer, *offset, Word::Bytes(*size)),
        _ => unreachable!(),
    };
    let words = [Word::Number(buffer as u64), Word::Number(offset), size];
    let words = Vec::from_array(alloc, words)?;
    Ok(plain_row(alloc, name, words))
}

/// The row of an entry with a list, or of one that begins a defragmentation.
fn list_row(alloc: Global, entry: &Entry) -> Result<Row, AllocError>
    requires { spec.is_of_lists entry.now ≡ true }
    ensures { IfOk result (λ row. row_words row ≡ spec.entry_row entry.now) }
{
    match entry {
        Entry::Wait { waits } => wait_row(alloc, waits),
        Entry::Submit { queue, batches } => {
            let queue = Word::Number(*queue as u64);
            let count = Word::Number(batches.len() as u64);
            let words = Vec::from_array(alloc, [queue, count])?;
            Ok(plain_row(alloc, EntryName::Submit, words))
        }
        Entry::Defrag {
            id,
            pool,
            max_bytes,
            max_moves,
        } => {
            let words = [
                Word::Number(*id as u64),
                Word::Number(*pool as u64),
                Word::Number(*max_bytes),
                Word::Number(*max_moves as u64),
            ];
            let words = Vec::from_array(alloc, words)?;
            Ok(plain_row(alloc, EntryName::BeginDefragmentation, words))
        }
        Entry::EndPass {
            defrag,
            ignored,
            destroyed,
        } => end_row(alloc, *defrag, ignored, destroyed),
        _ => unreachable!(),
    }
}

/// The row of a wait of the host.
fn wait_row(alloc: Global, waits: &Sequence<SemaphoreValue>) -> Result<Row, AllocError>
    ensures { IfOk result (λ row. row_words row ≡ spec.entry_row (Entry.Wait waits.now)) }
{
    let words = Vec::from_array(alloc, [Word::Number(waits.len() as u64)])?;
    let items = items_of(alloc, waits.as_slice())?;
    Ok(row_of(RowName::OfEntry(EntryName::WaitSemaphores), words, items))
}

/// The row of the end of a pass.
fn end_row(
    alloc: Global,
    defrag: u32,
    ignored: &Sequence<u32>,
    destroyed: &Sequence<u32>,
) -> Result<Row, AllocError>
    ensures { IfOk result (λ row. row_words row ≡ spec.entry_row (Entry.EndPass defrag ignored.now destroyed.now)) }
{
    let words = [
        Word::Number(defrag as u64),
        Word::Number(ignored.len() as u64),
        Word::Number(destroyed.len() as u64),
    ];
    let words = Vec::from_array(alloc, words)?;
    let mut items = items_of(alloc, ignored.as_slice())?;
    let mut more = items_of(alloc, destroyed.as_slice())?;
    items.append(&mut more)?;
    Ok(row_of(RowName::OfEntry(EntryName::EndPass), words, items))
}
