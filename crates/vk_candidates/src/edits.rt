use vk_model::{Cmd, Entry, SemaphoreSubmit};

/// What is done at a place of a list.
#[derive(Clone, Copy)]
pub enum Change {
    /// An item comes before what is there, or at the end where the list ends before the place.
    Insert,
    /// An item takes the place of what is there, if anything is.
    Replace,
}

/// A place in a list of a batch: of its waits, its commands or its signals.
#[derive(Clone, Copy)]
pub struct InBatch {
    /// The number of the entry that submits the batch.
    pub entry: usize,
    /// The number of the batch in the submit.
    pub batch: usize,
    /// The place in the list.
    pub place: usize,
}

/// What a batch has in one of its lists.
#[derive(Drop)]
pub enum Member {
    /// A wait.
    Wait(SemaphoreSubmit),
    /// A command.
    Command(Cmd),
    /// A signal.
    Signal(SemaphoreSubmit),
}

/// One change of a trace. A place that the trace doesn't have leaves it as it is, but for
/// insertions at the end of a list.
#[derive(Drop)]
pub enum Edit {
    /// An entry is inserted or replaced.
    Entry {
        /// Which of the two.
        change: Change,
        /// The number of the entry.
        number: usize,
        /// The new entry.
        entry: Entry,
    },
    /// An entry is taken out.
    Remove {
        /// The number of the entry.
        number: usize,
    },
    /// A wait, a command or a signal of a batch is inserted or replaced.
    Member {
        /// Which of the two.
        change: Change,
        /// Where.
        at: InBatch,
        /// The new wait, command or signal.
        member: Member,
    },
}
