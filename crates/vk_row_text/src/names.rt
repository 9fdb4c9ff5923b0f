ghost use Rattle.std.specs.Prelude.{◌≡◌};
ghost use Rattle.vk_row_text.specs.Names as spec;

/// The name of the row of an entry.
#[derive(Clone, Copy)]
pub enum EntryName {
    /// A pool is made.
    CreatePool,
    /// A buffer is made.
    CreateBuffer,
    /// An image is made.
    CreateImage,
    /// A memory object is allocated.
    AllocateMemory,
    /// A memory object is freed.
    FreeMemory,
    /// A buffer or an image ends.
    Destroy,
    /// A pool ends.
    DestroyPool,
    /// The memory of a buffer is mapped.
    MapMemory,
    /// The memory of a buffer is unmapped.
    UnmapMemory,
    /// The host writes.
    Write,
    /// The host reads.
    Read,
    /// A range of a buffer is flushed.
    Flush,
    /// A range of a buffer is invalidated.
    Invalidate,
    /// A semaphore is made.
    CreateSemaphore,
    /// An event is made.
    CreateEvent,
    /// The host signals a semaphore.
    SignalSemaphore,
    /// The host waits for semaphores.
    WaitSemaphores,
    /// Batches are submitted. Each has rows of its own where it is started.
    Submit,
    /// A defragmentation begins.
    BeginDefragmentation,
    /// A pass begins.
    BeginPass,
    /// A pass ends.
    EndPass,
    /// A defragmentation ends.
    EndDefragmentation,
}

impl EntryName {
    /// It, as it is written.
    pub fn text(self) -> &'static str
        ensures { result.now ≡ spec.entry_name self }
    {
        match self {
            EntryName::CreatePool => "CREATE_POOL",
            EntryName::CreateBuffer => "CREATE_BUFFER",
            EntryName::CreateImage => "CREATE_IMAGE",
            EntryName::AllocateMemory => "ALLOCATE_MEMORY",
            EntryName::FreeMemory => "FREE_MEMORY",
            EntryName::Destroy => "DESTROY",
            EntryName::DestroyPool => "DESTROY_POOL",
            EntryName::MapMemory => "MAP_MEMORY",
            EntryName::UnmapMemory => "UNMAP_MEMORY",
            EntryName::Write => "WRITE",
            EntryName::Read => "READ",
            EntryName::Flush => "FLUSH",
            EntryName::Invalidate => "INVALIDATE",
            EntryName::CreateSemaphore => "CREATE_SEMAPHORE",
            EntryName::CreateEvent => "CREATE_EVENT",
            EntryName::SignalSemaphore => "SIGNAL_SEMAPHORE",
            EntryName::WaitSemaphores => "WAIT_SEMAPHORES",
            EntryName::Submit => "SUBMIT",
            EntryName::BeginDefragmentation => "BEGIN_DEFRAGMENTATION",
            EntryName::BeginPass => "BEGIN_PASS",
            EntryName::EndPass => "END_PASS",
            EntryName::EndDefragmentation => "END_DEFRAGMENTATION",
        }
    }
}

/// The name of a row of a batch.
#[derive(Clone, Copy)]
pub enum BatchName {
    /// The batch itself.
    Batch,
    /// A wait.
    BatchWait,
    /// A signal.
    BatchSignal,
    /// `vkCmdFillBuffer`.
    FillBuffer,
    /// `vkCmdUpdateBuffer`.
    UpdateBuffer,
    /// `vkCmdCopyBuffer2`.
    CopyBuffer,
    /// `vkCmdClearColorImage`.
    ClearColorImage,
    /// `vkCmdCopyBufferToImage2`.
    CopyBufferToImage,
    /// `vkCmdCopyImageToBuffer2`.
    CopyImageToBuffer,
    /// `vkCmdCopyImage2`.
    CopyImage,
    /// `vkCmdPipelineBarrier2`.
    PipelineBarrier,
    /// `vkCmdSetEvent2`.
    SetEvent,
    /// `vkCmdWaitEvents2`.
    WaitEvent,
}

impl BatchName {
    /// It, as it is written.
    pub fn text(self) -> &'static str
        ensures { result.now ≡ spec.batch_name self }
    {
        match self {
            BatchName::Batch => "BATCH",
            BatchName::BatchWait => "BATCH_WAIT",
            BatchName::BatchSignal => "BATCH_SIGNAL",
            BatchName::FillBuffer => "CMD_FILL_BUFFER",
            BatchName::UpdateBuffer => "CMD_UPDATE_BUFFER",
            BatchName::CopyBuffer => "CMD_COPY_BUFFER",
            BatchName::ClearColorImage => "CMD_CLEAR_COLOR_IMAGE",
            BatchName::CopyBufferToImage => "CMD_COPY_BUFFER_TO_IMAGE",
            BatchName::CopyImageToBuffer => "CMD_COPY_IMAGE_TO_BUFFER",
            BatchName::CopyImage => "CMD_COPY_IMAGE",
            BatchName::PipelineBarrier => "CMD_PIPELINE_BARRIER",
            BatchName::SetEvent => "CMD_SET_EVENT",
            BatchName::WaitEvent => "CMD_WAIT_EVENT",
        }
    }
}

/// The name of an item of a row.
#[derive(Clone, Copy)]
pub enum ItemName {
    /// An id that a pass names.
    Id,
    /// A semaphore and the value that is waited for.
    Semaphore,
    /// Levels and layers of an image.
    Range,
    /// A region of a copy between buffers.
    Copy,
    /// A region of a copy between a buffer and an image.
    BufferImageCopy,
    /// A region of a copy between images.
    ImageCopy,
    /// An element on all memory.
    MemoryBarrier,
    /// An element on a range of a buffer.
    BufferBarrier,
    /// An element on levels and layers of an image.
    ImageBarrier,
}

impl ItemName {
    /// It, as it is written.
    pub fn text(self) -> &'static str
        ensures { result.now ≡ spec.item_name self }
    {
        match self {
            ItemName::Id => "ID",
            ItemName::Semaphore => "SEMAPHORE",
            ItemName::Range => "RANGE",
            ItemName::Copy => "COPY",
            ItemName::BufferImageCopy => "BUFFER_IMAGE_COPY",
            ItemName::ImageCopy => "IMAGE_COPY",
            ItemName::MemoryBarrier => "MEMORY_BARRIER",
            ItemName::BufferBarrier => "BUFFER_BARRIER",
            ItemName::ImageBarrier => "IMAGE_BARRIER",
        }
    }
}

/// The name of a row, or of an item of one.
#[derive(Clone, Copy)]
pub enum RowName {
    /// Of an entry.
    OfEntry(EntryName),
    /// In a batch.
    InBatch(BatchName),
    /// Of an item.
    OfItem(ItemName),
}

impl RowName {
    /// It, as it is written.
    pub fn text(self) -> &'static str
        ensures { result.now ≡ spec.row_name self }
    {
        match self {
            RowName::OfEntry(name) => name.text(),
            RowName::InBatch(name) => name.text(),
            RowName::OfItem(name) => name.text(),
        }
    }
}
