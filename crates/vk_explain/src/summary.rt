use std::alloc::{AllocError, Global};
use vk_model::{Batch, Cmd, Entry};
use vk_queues::reference_order;

/// What is submitted to a queue.
#[derive(Clone, Copy, Debug, PartialEq, Eq)]
pub struct QueueSummary {
    /// How many batches.
    pub batches: usize,
    /// How many commands they have.
    pub commands: usize,
}

/// What a trace has.
#[derive(Clone, Copy, Debug, PartialEq, Eq)]
pub struct Summary {
    /// How many entries.
    pub entries: usize,
    /// How many points: entries, and waits, commands and signals of the batches that are started.
    pub points: usize,
    /// How many buffers are made.
    pub buffers: usize,
    /// How many images are made.
    pub images: usize,
    /// How many memory objects are made.
    pub memory_objects: usize,
    /// How many pools are made.
    pub pools: usize,
    /// How many semaphores are made.
    pub semaphores: usize,
    /// How many events are made.
    pub events: usize,
    /// How many defragmentations begin.
    pub defragmentations: usize,
    /// How many passes of defragmentations begin.
    pub passes: usize,
    /// What is submitted to the queues 0 to 3.
    pub queues: [QueueSummary; 4],
    /// How many regions and ranges its commands have, elements its barriers, sets and awaits, and waits
    /// and signals its batches.
    pub parts: usize,
    /// How many bytes the host reads.
    pub read_bytes: u64,
}

/// What a trace has. Counts stay at the greatest number of their type where they would pass it.
///
/// # Errors
///
/// Where no memory is left.
pub fn summary_of(alloc: Global, trace: &[Entry]) -> Result<Summary, AllocError> {
    let points = reference_order(alloc, trace)?;
    let nothing = QueueSummary {
        batches: 0,
        commands: 0,
    };
    let mut summary = Summary {
        entries: trace.len(),
        points: points.len(),
        buffers: 0,
        images: 0,
        memory_objects: 0,
        pools: 0,
        semaphores: 0,
        events: 0,
        defragmentations: 0,
        passes: 0,
        queues: [nothing, nothing, nothing, nothing],
        parts: 0,
        read_bytes: 0,
    };
    for entry in trace {
        summary.count(entry);
    }
    Ok(summary)
}

impl Summary {
    /// Counts an entry.
    fn count(&mut self, entry: &Entry) {
        match entry {
            Entry::Buffer { .. } => self.buffers = self.buffers.saturating_add(1),
            Entry::Image { .. } => self.images = self.images.saturating_add(1),
            Entry::Memory { .. } => self.memory_objects = self.memory_objects.saturating_add(1),
            Entry::Pool { .. } => self.pools = self.pools.saturating_add(1),
            Entry::Semaphore { .. } => self.semaphores = self.semaphores.saturating_add(1),
            Entry::Event { .. } => self.events = self.events.saturating_add(1),
            Entry::Defrag { .. } => {
                self.defragmentations = self.defragmentations.saturating_add(1);
            }
            Entry::Pass { .. } => self.passes = self.passes.saturating_add(1),
            Entry::Read { size, .. } => self.read_bytes = self.read_bytes.saturating_add(*size),
            Entry::Submit { queue, batches } => self.count_batches(*queue, batches.as_slice()),
            _ => {}
        }
    }

    /// Counts the batches of a submit.
    fn count_batches(&mut self, queue: u32, batches: &[Batch]) {
        for batch in batches {
            self.count_parts(batch);
        }
        let queue = queue as usize;
        if queue >= self.queues.len() {
            return;
        }
        let mut counted = self.queues[queue];
        for batch in batches {
            counted.batches = counted.batches.saturating_add(1);
            counted.commands = counted.commands.saturating_add(batch.commands.len());
        }
        self.queues[queue] = counted;
    }

    /// Counts the parts of a batch.
    fn count_parts(&mut self, batch: &Batch) {
        self.parts = self.parts.saturating_add(batch.waits.len());
        self.parts = self.parts.saturating_add(batch.signals.len());
        for command in batch.commands.as_slice() {
            self.parts = self.parts.saturating_add(parts_of(command));
        }
    }
}

/// How many regions, ranges or elements a command has.
fn parts_of(command: &Cmd) -> usize {
    match command {
        Cmd::Copy { regions, .. } => regions.len(),
        Cmd::CopyIn { regions, .. } | Cmd::CopyOut { regions, .. } => regions.len(),
        Cmd::CopyImage { regions, .. } => regions.len(),
        Cmd::Clear { ranges, .. } => ranges.len(),
        Cmd::Barrier { elements } => elements.len(),
        Cmd::Set { elements, .. } | Cmd::Await { elements, .. } => elements.len(),
        Cmd::Fill { .. } | Cmd::Update { .. } => 0,
    }
}
