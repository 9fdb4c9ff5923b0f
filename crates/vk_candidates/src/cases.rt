use crate::edits::{Edit, InBatch};
use crate::lists::EditList;
use crate::uses::{Use, has, meet, uses_of};
use std::alloc::{AllocError, Global};
use vk_model::{Action, Batch, Entry, Point, Rule};

/// A refused trace, of which repairs are sought.
#[derive(Clone, Copy)]
pub struct Case<'a> {
    /// The allocator.
    pub alloc: Global,
    /// The trace.
    pub trace: &'a [Entry],
    /// The points before the first fault, the oldest first.
    pub earlier: &'a [Point<'a>],
    /// The point that is refused.
    pub refused: Point<'a>,
    /// The rule that it breaks.
    pub rule: Rule,
    /// Of a hazard the place of the earlier access among the earlier points, where it's known.
    pub accessed: Option<usize>,
}

/// What a list of edits keeps of a trace.
#[derive(Clone, Copy)]
pub struct Kind {
    /// Whether the trace asks for less then.
    pub weaker: bool,
    /// Whether data is made up.
    pub stands_in: bool,
}

/// The trace asks for what it asked for.
pub const PLAIN: Kind = Kind {
    weaker: false,
    stands_in: false,
};
/// It asks for less.
pub const WEAKER: Kind = Kind {
    weaker: true,
    stands_in: false,
};
/// It has made up data.
pub const STAND_IN: Kind = Kind {
    weaker: true,
    stands_in: true,
};

/// Lists of edits, in order of trial.
#[derive(Drop)]
pub struct Candidates {
    /// Those after which the trace asks for what it asked for.
    pub lists: Vec<Vec<Edit>>,
    /// Those after which it asks for less.
    pub weaker: Vec<Vec<Edit>>,
    /// Those that make up data.
    pub stand_ins: Vec<Vec<Edit>>,
}

impl Candidates {
    /// Without lists.
    pub fn new(alloc: Global) -> Candidates {
        Candidates {
            lists: Vec::new(alloc),
            weaker: Vec::new(alloc),
            stand_ins: Vec::new(alloc),
        }
    }

    /// The lists of a kind.
    pub fn of_kind(self, kind: Kind) -> Vec<Vec<Edit>> {
        let Candidates {
            lists,
            weaker,
            stand_ins,
        } = self;
        if kind.stands_in {
            stand_ins
        } else if kind.weaker {
            weaker
        } else {
            lists
        }
    }

    /// With a list more; one without edits is left out.
    pub(crate) fn add(&mut self, list: EditList) -> Result<(), AllocError> {
        if !list.is_empty() {
            self.lists.push(list.into_edits())?;
        }
        Ok(())
    }

    /// With a list more after which the trace asks for less.
    pub(crate) fn add_weaker(&mut self, list: EditList) -> Result<(), AllocError> {
        if !list.is_empty() {
            self.weaker.push(list.into_edits())?;
        }
        Ok(())
    }

    /// With a list more that makes up data.
    pub(crate) fn add_stand_in(&mut self, list: EditList) -> Result<(), AllocError> {
        if !list.is_empty() {
            self.stand_ins.push(list.into_edits())?;
        }
        Ok(())
    }
}

/// Which commands a repair comes after.
#[derive(Clone, Copy)]
pub enum Earlier {
    /// The one that makes the earlier access of the hazard.
    Accessed,
    /// The latest one of each queue.
    Latest,
}

impl<'a> Case<'a> {
    /// No edits yet.
    pub(crate) fn edits(&self) -> EditList {
        EditList::new(self.alloc)
    }

    /// The case of an earlier point, whose place is given.
    pub(crate) fn at(&self, index: usize, point: &Point<'a>) -> Case<'a> {
        let earlier = if index <= self.earlier.len() {
            &self.earlier[..index]
        } else {
            self.earlier
        };
        Case {
            earlier,
            refused: *point,
            accessed: None,
            ..*self
        }
    }

    /// An id that no entry makes, after so many others: above all that are made, or else the least.
    pub(crate) fn fresh_id(&self, others: u32) -> u32 {
        let mut greatest: u32 = 0;
        for entry in self.trace {
            if let Some(id) = entry.made_id() {
                greatest = greatest.max(id);
            }
        }
        let after = greatest.saturating_add(1);
        if after > greatest && others <= u32::MAX - after {
            after + others
        } else {
            self.unused_id(others)
        }
    }

    /// The least id that no entry makes, after so many others.
    fn unused_id(&self, others: u32) -> u32 {
        let mut id: u32 = 0;
        let mut left = others;
        for _ in 0..self.trace.len() {
            if self.creator(id).is_none() {
                if left == 0 {
                    return id;
                }
                left -= 1;
            }
            id = id.saturating_add(1);
        }
        id.saturating_add(left)
    }

    /// The entry that makes an id, with its number.
    pub(crate) fn creator(&self, id: u32) -> Option<(usize, &'a Entry)> {
        for (number, entry) in self.trace.iter().enumerate() {
            if entry.made_id() == Some(id) {
                return Some((number, entry));
            }
        }
        None
    }

    /// The batch of a point.
    pub(crate) fn batch_of(&self, point: &Point<'_>) -> Option<&'a Batch> {
        match self.trace.get(point.entry) {
            Some(Entry::Submit { batches, .. }) => batches.as_slice().get(point.batch),
            _ => None,
        }
    }

    /// The end of the commands of a point's batch.
    pub(crate) fn commands_end(&self, point: &Point<'_>) -> InBatch {
        let place = match self.batch_of(point) {
            Some(batch) => batch.commands.len(),
            None => 0,
        };
        InBatch {
            entry: point.entry,
            batch: point.batch,
            place,
        }
    }

    /// The end of the waits of a point's batch.
    pub(crate) fn waits_end(&self, point: &Point<'_>) -> InBatch {
        let place = match self.batch_of(point) {
            Some(batch) => batch.waits.len(),
            None => 0,
        };
        InBatch {
            entry: point.entry,
            batch: point.batch,
            place,
        }
    }

    /// The end of the signals of a point's batch.
    pub(crate) fn signals_end(&self, point: &Point<'_>) -> InBatch {
        let place = match self.batch_of(point) {
            Some(batch) => batch.signals.len(),
            None => 0,
        };
        InBatch {
            entry: point.entry,
            batch: point.batch,
            place,
        }
    }

    /// The latest command on a queue that names one of these resources, where one of the two writes
    /// to it, and its place among the earlier points.
    pub(crate) fn latest_on(
        &self,
        queue: u32,
        uses: &[Use],
    ) -> Result<Option<(usize, Point<'a>)>, AllocError> {
        let mut latest = None;
        for (index, point) in self.earlier.iter().enumerate() {
            let is_there = matches!(point.action, Action::Run(_)) && point.queue == queue;
            if is_there {
                let others = uses_of(self.alloc, point.action)?;
                if meet(others.as_slice(), uses) {
                    latest = Some((index, *point));
                }
            }
        }
        Ok(latest)
    }

    /// The command on a queue that a repair comes after, and its place among the earlier points: the latest one
    /// that names one of these resources, where one of the two writes to it; or the earlier access of the
    /// hazard, where that isn't the latest one.
    pub(crate) fn earlier_on(
        &self,
        which: Earlier,
        queue: u32,
        uses: &[Use],
    ) -> Result<Option<(usize, Point<'a>)>, AllocError> {
        let latest = self.latest_on(queue, uses)?;
        match which {
            Earlier::Latest => Ok(latest),
            Earlier::Accessed => match (latest, self.accessed_on(queue)) {
                (Some((last, _)), Some((index, point))) if last != index => {
                    Ok(Some((index, point)))
                }
                _ => Ok(None),
            },
        }
    }

    /// The earlier access of the hazard, if a command on this queue makes it.
    fn accessed_on(&self, queue: u32) -> Option<(usize, Point<'a>)> {
        let index = self.accessed?;
        let point = self.earlier.get(index)?;
        if matches!(point.action, Action::Run(_)) && point.queue == queue {
            Some((index, *point))
        } else {
            None
        }
    }

    /// The latest write of the host to one of these resources.
    pub(crate) fn latest_host_write(&self, uses: &[Use]) -> Option<Point<'a>> {
        let mut latest = None;
        for point in self.earlier {
            if let Action::Host(Entry::Write { buffer, .. }) = point.action {
                if has(uses, *buffer) {
                    latest = Some(*point);
                }
            }
        }
        latest
    }
}

/// The place of a point in its batch.
pub fn place_of(point: &Point<'_>) -> InBatch {
    InBatch {
        entry: point.entry,
        batch: point.batch,
        place: point.place,
    }
}

/// The family of a queue.
pub fn family_of(queue: u32) -> u32 {
    if queue < 2 { 0 } else { 1 }
}
