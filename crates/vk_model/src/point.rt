use crate::command::Cmd;
use crate::entry::{Entry, SemaphoreSubmit};

/// What happens at a point.
#[derive(Clone, Copy)]
pub enum Action<'a> {
    /// An entry of the host, a submit too.
    Host(&'a Entry),
    /// A wait of a batch.
    Wait(&'a SemaphoreSubmit),
    /// A command of a batch.
    Run(&'a Cmd),
    /// A signal of a batch.
    Signal(&'a SemaphoreSubmit),
}

/// A point: one thing that happens.
#[derive(Clone, Copy)]
pub struct Point<'a> {
    /// The number of its entry.
    pub entry: usize,
    /// The number of its batch in the submit.
    pub batch: usize,
    /// Its index in the batch's list of waits, commands or signals.
    pub place: usize,
    /// The number of its queue.
    pub queue: u32,
    /// What happens.
    pub action: Action<'a>,
}
