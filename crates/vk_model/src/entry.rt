use crate::command::{Cmd, Length};
use crate::masks::Stages;
use crate::resource::{BufferInfo, ImageInfo, MemoryInfo, PoolInfo};
use crate::sequence::Sequence;

/// A value of a timeline semaphore that the host waits for.
#[derive(Clone, Copy, PartialEq, Eq, Debug)]
pub struct SemaphoreValue {
    /// The id of the semaphore.
    pub semaphore: u32,
    /// The value of its counter.
    pub value: u64,
}

/// A wait or a signal of a batch, as `VkSemaphoreSubmitInfo`.
#[derive(Clone, Copy, PartialEq, Eq, Debug)]
pub struct SemaphoreSubmit {
    /// The id of the semaphore.
    pub semaphore: u32,
    /// The value of its counter.
    pub value: u64,
    /// The stages that it covers.
    pub stages: Stages,
}

/// What is submitted at once, as `VkSubmitInfo2`.
#[derive(Debug, Drop)]
pub struct Batch {
    /// What is waited for before the commands.
    pub waits: Sequence<SemaphoreSubmit>,
    /// The commands, in submission order.
    pub commands: Sequence<Cmd>,
    /// What is signaled after them.
    pub signals: Sequence<SemaphoreSubmit>,
}

/// One entry of a trace. Ids of all objects are one space; offsets and sizes are in bytes.
#[derive(Debug, Drop)]
pub enum Entry {
    /// `vmaCreatePool`.
    Pool {
        /// The new id.
        id: u32,
        /// What it is made with.
        info: PoolInfo,
    },
    /// `vkCreateBuffer`, with its memory.
    Buffer {
        /// The new id.
        id: u32,
        /// What it is made with.
        info: BufferInfo,
    },
    /// `vkCreateImage`, with its memory.
    Image {
        /// The new id.
        id: u32,
        /// What it is made with.
        info: ImageInfo,
    },
    /// `vkAllocateMemory`.
    Memory {
        /// The new id.
        id: u32,
        /// What it is made with.
        info: MemoryInfo,
    },
    /// Frees a memory object.
    Free {
        /// The id of the memory object.
        memory: u32,
    },
    /// Destroys a buffer or an image.
    Destroy {
        /// The id of the buffer or image.
        resource: u32,
    },
    /// `vmaDestroyPool`.
    DropPool {
        /// The id of the pool.
        pool: u32,
    },
    /// `vkMapMemory` on the memory of a buffer.
    Map {
        /// The id of the buffer.
        buffer: u32,
    },
    /// `vkUnmapMemory` on the memory of a buffer.
    Unmap {
        /// The id of the buffer.
        buffer: u32,
    },
    /// The host writes to a mapped buffer.
    Write {
        /// The id of the buffer.
        buffer: u32,
        /// In bytes from the buffer's start.
        offset: u64,
        /// The bytes that are written.
        bytes: Sequence<u8>,
    },
    /// The host reads from a mapped buffer.
    Read {
        /// The id of the buffer.
        buffer: u32,
        /// In bytes from the buffer's start.
        offset: u64,
        /// How many bytes.
        size: u64,
    },
    /// `vkFlushMappedMemoryRanges` on a range of a buffer.
    Flush {
        /// The id of the buffer.
        buffer: u32,
        /// In bytes from the buffer's start.
        offset: u64,
        /// How many bytes.
        size: Length,
    },
    /// `vkInvalidateMappedMemoryRanges` on a range of a buffer.
    Invalidate {
        /// The id of the buffer.
        buffer: u32,
        /// In bytes from the buffer's start.
        offset: u64,
        /// How many bytes.
        size: Length,
    },
    /// A timeline semaphore with its initial value.
    Semaphore {
        /// The new id.
        id: u32,
        /// The counter's initial value.
        initial: u64,
    },
    /// `vkCreateEvent`.
    Event {
        /// The new id.
        id: u32,
    },
    /// `vkSignalSemaphore`: the host signals.
    Signal {
        /// The id of the semaphore.
        semaphore: u32,
        /// The value of its counter.
        value: u64,
    },
    /// `vkWaitSemaphores`: the host waits for all.
    Wait {
        /// The semaphores, each with the value that is waited for.
        waits: Sequence<SemaphoreValue>,
    },
    /// `vkQueueSubmit2`.
    Submit {
        /// The number of the queue.
        queue: u32,
        /// The batches, in submission order.
        batches: Sequence<Batch>,
    },
    /// `vmaBeginDefragmentation`, with the limits of each pass; 0 for none.
    Defrag {
        /// The new id.
        id: u32,
        /// The id of the pool.
        pool: u32,
        /// The most bytes that a pass may move.
        max_bytes: u64,
        /// The most resources that a pass may move.
        max_moves: u32,
    },
    /// `vmaBeginDefragmentationPass`.
    Pass {
        /// The id of the defragmentation.
        defrag: u32,
    },
    /// `vmaEndDefragmentationPass`, with the resources that stay and those that end.
    EndPass {
        /// The id of the defragmentation.
        defrag: u32,
        /// The ids of resources that stay where they are.
        ignored: Sequence<u32>,
        /// The ids of resources that end.
        destroyed: Sequence<u32>,
    },
    /// `vmaEndDefragmentation`.
    EndDefrag {
        /// The id of the defragmentation.
        defrag: u32,
    },
}
