ghost use Rattle.std.specs.Prelude.{◌≡◌, IfOk, IsSome, IsTrue};
ghost use Rattle.vk_model.specs.Trace.Objects.{made_by};
ghost use Rattle.vk_model.specs.Inner.Kinds.{is_buffer_write, is_image_command, is_buffer_image_copy, is_access, is_flush, is_of_pass};

use crate::command::{
    BufferCopy, BufferImageCopy, Cmd, Dependency, Element, ImageCopy, SubresourceRange,
};
use crate::entry::{Batch, Entry, SemaphoreSubmit, SemaphoreValue};
use crate::sequence::Sequence;
use std::alloc::{AllocError, Global};

/// A value of which an equal one can be made. What it keeps on the heap is copied with the allocator
/// that it was made with.
pub trait Duplicate: Drop {
    /// The equal one. The only error is want of memory.
    fn duplicate(&self) -> Result<Self, AllocError>
        ensures { IfOk result (λ copy. copy ≡ self.now) };
}

impl Duplicate for u8 {
    fn duplicate(&self) -> Result<u8, AllocError> {
        Ok(*self)
    }
}

impl Duplicate for u32 {
    fn duplicate(&self) -> Result<u32, AllocError> {
        Ok(*self)
    }
}

impl Duplicate for BufferCopy {
    fn duplicate(&self) -> Result<BufferCopy, AllocError> {
        Ok(*self)
    }
}

impl Duplicate for BufferImageCopy {
    fn duplicate(&self) -> Result<BufferImageCopy, AllocError> {
        Ok(*self)
    }
}

impl Duplicate for ImageCopy {
    fn duplicate(&self) -> Result<ImageCopy, AllocError> {
        Ok(*self)
    }
}

impl Duplicate for SubresourceRange {
    fn duplicate(&self) -> Result<SubresourceRange, AllocError> {
        Ok(*self)
    }
}

impl Duplicate for Dependency {
    fn duplicate(&self) -> Result<Dependency, AllocError> {
        Ok(*self)
    }
}

impl Duplicate for Element {
    fn duplicate(&self) -> Result<Element, AllocError> {
        Ok(*self)
    }
}

impl Duplicate for SemaphoreValue {
    fn duplicate(&self) -> Result<SemaphoreValue, AllocError> {
        Ok(*self)
    }
}

impl Duplicate for SemaphoreSubmit {
    fn duplicate(&self) -> Result<SemaphoreSubmit, AllocError> {
        Ok(*self)
    }
}

fn copies<T: Duplicate>(alloc: Global, items: &[T]) -> Result<Vec<T>, AllocError>
    ensures { IfOk result (λ v. v.items ≡ items.now) }
{
    let mut copies = Vec::new(alloc);
    for item in items {
        copies.push(item.duplicate()?)?;
    }
    Ok(copies)
}

impl<T: Duplicate> Duplicate for Sequence<T> {
    fn duplicate(&self) -> Result<Sequence<T>, AllocError> {
        let items = copies(self.allocator(), self.as_slice())?;
        Ok(Sequence::new(items))
    }
}

impl Duplicate for Cmd {
    fn duplicate(&self) -> Result<Cmd, AllocError> {
        match self {
            Cmd::Fill { .. } | Cmd::Update { .. } => copy_of_buffer_write(self),
            Cmd::Copy {
                source,
                destination,
                regions,
            } => Ok(Cmd::Copy {
                source: *source,
                destination: *destination,
                regions: regions.duplicate()?,
            }),
            Cmd::Barrier { elements } => Ok(Cmd::Barrier {
                elements: elements.duplicate()?,
            }),
            Cmd::Set { event, elements } => Ok(Cmd::Set {
                event: *event,
                elements: elements.duplicate()?,
            }),
            Cmd::Await { event, elements } => Ok(Cmd::Await {
                event: *event,
                elements: elements.duplicate()?,
            }),
            Cmd::Clear { .. } | Cmd::CopyImage { .. } => copy_of_image_command(self),
            Cmd::CopyIn { .. } | Cmd::CopyOut { .. } => copy_of_buffer_image_copy(self),
        }
    }
}

fn copy_of_buffer_write(command: &Cmd) -> Result<Cmd, AllocError>
    requires { IsTrue (is_buffer_write command.now) }
    ensures { IfOk result (λ copy. copy ≡ command.now) }
{
    match command {
        Cmd::Fill {
            buffer,
            offset,
            size,
            word,
        } => Ok(Cmd::Fill {
            buffer: *buffer,
            offset: *offset,
            size: *size,
            word: *word,
        }),
        Cmd::Update {
            buffer,
            offset,
            bytes,
        } => Ok(Cmd::Update {
            buffer: *buffer,
            offset: *offset,
            bytes: bytes.duplicate()?,
        }),
        _ => unreachable!(),
    }
}

fn copy_of_image_command(command: &Cmd) -> Result<Cmd, AllocError>
    requires { IsTrue (is_image_command command.now) }
    ensures { IfOk result (λ copy. copy ≡ command.now) }
{
    match command {
        Cmd::Clear {
            image,
            layout,
            color,
            ranges,
        } => Ok(Cmd::Clear {
            image: *image,
            layout: *layout,
            color: *color,
            ranges: ranges.duplicate()?,
        }),
        Cmd::CopyImage {
            source,
            source_layout,
            destination,
            destination_layout,
            regions,
        } => Ok(Cmd::CopyImage {
            source: *source,
            source_layout: *source_layout,
            destination: *destination,
            destination_layout: *destination_layout,
            regions: regions.duplicate()?,
        }),
        _ => unreachable!(),
    }
}

fn copy_of_buffer_image_copy(command: &Cmd) -> Result<Cmd, AllocError>
    requires { IsTrue (is_buffer_image_copy command.now) }
    ensures { IfOk result (λ copy. copy ≡ command.now) }
{
    match command {
        Cmd::CopyIn {
            buffer,
            image,
            layout,
            regions,
        } => Ok(Cmd::CopyIn {
            buffer: *buffer,
            image: *image,
            layout: *layout,
            regions: regions.duplicate()?,
        }),
        Cmd::CopyOut {
            image,
            layout,
            buffer,
            regions,
        } => Ok(Cmd::CopyOut {
            image: *image,
            layout: *layout,
            buffer: *buffer,
            regions: regions.duplicate()?,
        }),
        _ => unreachable!(),
    }
}

impl Duplicate for Batch {
    fn duplicate(&self) -> Result<Batch, AllocError> {
        Ok(Batch {
            waits: self.waits.duplicate()?,
            commands: self.commands.duplicate()?,
            signals: self.signals.duplicate()?,
        })
    }
}

impl Duplicate for Entry {
    fn duplicate(&self) -> Result<Entry, AllocError> {
        match self {
            Entry::Free { memory } => Ok(Entry::Free { memory: *memory }),
            Entry::Destroy { resource } => Ok(Entry::Destroy {
                resource: *resource,
            }),
            Entry::DropPool { pool } => Ok(Entry::DropPool { pool: *pool }),
            Entry::Signal { semaphore, value } => Ok(Entry::Signal {
                semaphore: *semaphore,
                value: *value,
            }),
            Entry::Wait { waits } => Ok(Entry::Wait {
                waits: waits.duplicate()?,
            }),
            Entry::Submit { queue, batches } => Ok(Entry::Submit {
                queue: *queue,
                batches: batches.duplicate()?,
            }),
            Entry::Pool { .. }
            | Entry::Buffer { .. }
            | Entry::Image { .. }
            | Entry::Memory { .. }
            | Entry::Semaphore { .. }
            | Entry::Event { .. }
            | Entry::Defrag { .. } => Ok(copy_of_making(self)),
            Entry::Map { buffer } => Ok(Entry::Map { buffer: *buffer }),
            Entry::Unmap { buffer } => Ok(Entry::Unmap { buffer: *buffer }),
            Entry::Write { .. } | Entry::Read { .. } => copy_of_access(self),
            Entry::Flush { .. } | Entry::Invalidate { .. } => copy_of_flush(self),
            Entry::Pass { .. } | Entry::EndPass { .. } | Entry::EndDefrag { .. } => {
                copy_of_pass(self)
            }
        }
    }
}

/// An equal entry, of one that makes an object.
fn copy_of_making(entry: &Entry) -> Entry
    requires { IsSome (made_by entry.now) }
    ensures { result ≡ entry.now }
{
    match entry {
        Entry::Pool { id, info } => Entry::Pool {
            id: *id,
            info: *info,
        },
        Entry::Buffer { id, info } => Entry::Buffer {
            id: *id,
            info: *info,
        },
        Entry::Image { id, info } => Entry::Image {
            id: *id,
            info: *info,
        },
        Entry::Memory { id, info } => Entry::Memory {
            id: *id,
            info: *info,
        },
        Entry::Semaphore { id, initial } => Entry::Semaphore {
            id: *id,
            initial: *initial,
        },
        Entry::Event { id } => Entry::Event { id: *id },
        Entry::Defrag {
            id,
            pool,
            max_bytes,
            max_moves,
        } => Entry::Defrag {
            id: *id,
            pool: *pool,
            max_bytes: *max_bytes,
            max_moves: *max_moves,
        },
        _ => unreachable!(),
    }
}

/// An equal entry, of one by which the host accesses a buffer.
fn copy_of_access(entry: &Entry) -> Result<Entry, AllocError>
    requires { IsTrue (is_access entry.now) }
    ensures { IfOk result (λ copy. copy ≡ entry.now) }
{
    match entry {
        Entry::Write {
            buffer,
            offset,
            bytes,
        } => Ok(Entry::Write {
            buffer: *buffer,
            offset: *offset,
            bytes: bytes.duplicate()?,
        }),
        Entry::Read {
            buffer,
            offset,
            size,
        } => Ok(Entry::Read {
            buffer: *buffer,
            offset: *offset,
            size: *size,
        }),
        _ => unreachable!(),
    }
}

/// An equal entry, of one by which the host makes accesses to a buffer available or visible.
fn copy_of_flush(entry: &Entry) -> Result<Entry, AllocError>
    requires { IsTrue (is_flush entry.now) }
    ensures { IfOk result (λ copy. copy ≡ entry.now) }
{
    match entry {
        Entry::Flush {
            buffer,
            offset,
            size,
        } => Ok(Entry::Flush {
            buffer: *buffer,
            offset: *offset,
            size: *size,
        }),
        Entry::Invalidate {
            buffer,
            offset,
            size,
        } => Ok(Entry::Invalidate {
            buffer: *buffer,
            offset: *offset,
            size: *size,
        }),
        _ => unreachable!(),
    }
}

/// An equal entry, of one of a defragmentation that has begun.
fn copy_of_pass(entry: &Entry) -> Result<Entry, AllocError>
    requires { IsTrue (is_of_pass entry.now) }
    ensures { IfOk result (λ copy. copy ≡ entry.now) }
{
    match entry {
        Entry::Pass { defrag } => Ok(Entry::Pass { defrag: *defrag }),
        Entry::EndPass {
            defrag,
            ignored,
            destroyed,
        } => Ok(Entry::EndPass {
            defrag: *defrag,
            ignored: ignored.duplicate()?,
            destroyed: destroyed.duplicate()?,
        }),
        Entry::EndDefrag { defrag } => Ok(Entry::EndDefrag { defrag: *defrag }),
        _ => unreachable!(),
    }
}
