use crate::edits::{Change, Edit, InBatch, Member};
use std::alloc::{AllocError, Global};
use vk_model::{Cmd, Entry, SemaphoreSubmit};

/// Edits in the order of the trace. The only error of a change is want of memory.
#[derive(Drop)]
pub struct EditList {
    edits: Vec<Edit>,
}

/// Where an edit comes in its list.
#[derive(Clone, Copy)]
struct Turn {
    entry: usize,
    is_within: bool,
    batch: usize,
    place: usize,
    is_replaced: bool,
}

impl Turn {
    fn of(edit: &Edit) -> Turn {
        match edit {
            Edit::Entry { change, number, .. } => Turn {
                entry: *number,
                is_within: matches!(change, Change::Replace),
                batch: 0,
                place: 0,
                is_replaced: false,
            },
            Edit::Remove { number } => Turn {
                entry: *number,
                is_within: true,
                batch: 0,
                place: 0,
                is_replaced: false,
            },
            Edit::Member { change, at, .. } => Turn {
                entry: at.entry,
                is_within: true,
                batch: at.batch,
                place: at.place,
                is_replaced: matches!(change, Change::Replace),
            },
        }
    }

    fn is_after(self, other: Turn) -> bool {
        if self.entry != other.entry {
            return self.entry > other.entry;
        }
        if self.is_within != other.is_within {
            return self.is_within;
        }
        if self.batch != other.batch {
            return self.batch > other.batch;
        }
        if self.place != other.place {
            return self.place > other.place;
        }
        self.is_replaced && !other.is_replaced
    }
}

impl EditList {
    /// Without edits.
    pub fn new(alloc: Global) -> EditList {
        EditList {
            edits: Vec::new(alloc),
        }
    }

    /// The edits.
    pub fn into_edits(self) -> Vec<Edit> {
        self.edits
    }

    /// Whether there are none.
    pub fn is_empty(&self) -> bool {
        self.edits.is_empty()
    }

    /// An entry is taken out.
    pub fn remove(&mut self, number: usize) -> Result<(), AllocError> {
        self.add(Edit::Remove { number })
    }

    /// With an edit more, after those at the same place.
    fn add(&mut self, edit: Edit) -> Result<(), AllocError> {
        let turn = Turn::of(&edit);
        let mut place = 0;
        for (index, other) in self.edits.iter().enumerate() {
            if Turn::of(other).is_after(turn) {
                break;
            }
            place = index + 1;
        }
        if place <= self.edits.len() {
            self.edits.insert(place, edit)?;
        }
        Ok(())
    }

    /// An entry before another.
    pub fn insert(&mut self, number: usize, entry: Entry) -> Result<(), AllocError> {
        self.add(Edit::Entry {
            change: Change::Insert,
            number,
            entry,
        })
    }

    /// An entry in place of another.
    pub fn replace(&mut self, number: usize, entry: Entry) -> Result<(), AllocError> {
        self.add(Edit::Entry {
            change: Change::Replace,
            number,
            entry,
        })
    }

    /// A command before another.
    pub fn insert_command(&mut self, at: InBatch, command: Cmd) -> Result<(), AllocError> {
        self.add(Edit::Member {
            change: Change::Insert,
            at,
            member: Member::Command(command),
        })
    }

    /// A command in place of another.
    pub fn replace_command(&mut self, at: InBatch, command: Cmd) -> Result<(), AllocError> {
        self.add(Edit::Member {
            change: Change::Replace,
            at,
            member: Member::Command(command),
        })
    }

    /// A wait at a place.
    pub fn wait(
        &mut self,
        change: Change,
        at: InBatch,
        wait: SemaphoreSubmit,
    ) -> Result<(), AllocError> {
        self.add(Edit::Member {
            change,
            at,
            member: Member::Wait(wait),
        })
    }

    /// A signal at a place.
    pub fn signal(
        &mut self,
        change: Change,
        at: InBatch,
        signal: SemaphoreSubmit,
    ) -> Result<(), AllocError> {
        self.add(Edit::Member {
            change,
            at,
            member: Member::Signal(signal),
        })
    }
}
