ghost use Rattle.std.specs.Prelude.{◌<◌, length};

use std::alloc::{AllocError, Global};
use std::collections::BTreeMap;
use vk_candidates::{Edit, InBatch, Member, moved};
use vk_model::At;

/// An edit of a repair, in the order in which edits are listed.
#[derive(Clone, Copy)]
pub struct Listed {
    /// The number of the edit in the repair.
    pub number: usize,
    /// The point that it puts into the changed trace, or takes out of the given one; none where a number
    /// would be too large.
    pub at: Option<At>,
}

/// When an edit is listed: the least comes first.
#[derive(Clone, Copy, PartialEq, Eq, PartialOrd, Ord)]
struct Turn {
    /// Whether its entry stays. Entries are taken out first, from the last one on.
    is_kept: bool,
    /// The number of the entry in the changed trace; of one that is taken out, how far it is from the
    /// greatest number.
    entry: usize,
    /// How many edits so far put in or replace the whole entry, this one with them.
    stage: usize,
    /// Which part of the entry it is of.
    part: Part,
    /// How many edits are made before it.
    made: usize,
}

/// A part of an entry: the whole of it comes first, then the places of its batches.
#[derive(Clone, Copy, PartialEq, Eq, PartialOrd, Ord)]
struct Part {
    /// Whether it isn't the whole of the entry.
    is_within: bool,
    /// The number of the batch.
    batch: usize,
    /// Which list of the batch: 0 for waits, 1 for commands, 2 for signals.
    list: usize,
    /// The place in the list.
    place: usize,
}

/// The whole of an entry.
const WHOLE: Part = Part {
    is_within: false,
    batch: 0,
    list: 0,
    place: 0,
};

/// The edits of a repair in an order in which they come right one after another: each is then of the
/// trace that those before it made. A repair has them in the order of the trace, and makes the last of
/// them first.
pub fn in_listed_order(alloc: Global, edits: &[Edit]) -> Result<Vec<Listed>, AllocError> {
    let mut turns = BTreeMap::new(alloc);
    let mut stages = BTreeMap::new(alloc);
    let count = edits.len();
    for made in 0..count {
        let number = count - 1 - made;
        let at = place_of(edits, number);
        let turn = turn_of(&edits[number], at, made, &mut stages)?;
        turns.insert(turn, Listed { number, at })?;
    }
    let mut all = Vec::new(alloc);
    for one in turns.values() {
        all.push(*one)?;
    }
    Ok(all)
}

/// The point of an edit: of the given trace where it takes an entry out, else of the changed one, where
/// those that are made after it move it to.
fn place_of(edits: &[Edit], number: usize) -> Option<At>
    requires { number < length edits.now }
{
    let later = &edits[..number];
    match &edits[number] {
        Edit::Entry { number, .. } => moved(later, At::Entry(*number)),
        Edit::Member { at, member, .. } => moved(later, member_at(*at, member)),
        Edit::Remove { number } => Some(At::Entry(*number)),
    }
}

/// The point that a member of a batch is.
fn member_at(at: InBatch, member: &Member) -> At {
    match member {
        Member::Wait(_) => At::Wait(at.entry, at.batch, at.place),
        Member::Command(_) => At::Command(at.entry, at.batch, at.place),
        Member::Signal(_) => At::Signal(at.entry, at.batch, at.place),
    }
}

/// When an edit is listed that is made after so many. It counts those of whole entries.
fn turn_of(
    edit: &Edit,
    at: Option<At>,
    made: usize,
    stages: &mut BTreeMap<usize, usize>,
) -> Result<Turn, AllocError> {
    let (entry, part) = part_of(at);
    if let Edit::Remove { number } = edit {
        return Ok(Turn {
            is_kept: false,
            entry: usize::MAX - *number,
            stage: 0,
            part: WHOLE,
            made,
        });
    }
    let stage = stages.entry(entry)?.or_insert(0);
    if let Edit::Entry { .. } = edit {
        *stage = stage.saturating_add(1);
    }
    Ok(Turn {
        is_kept: true,
        entry,
        stage: *stage,
        part,
        made,
    })
}

/// The number of the entry of a point, and which part of the entry it is; after all of them where there
/// is none.
fn part_of(at: Option<At>) -> (usize, Part) {
    match at {
        None => (usize::MAX, WHOLE),
        Some(At::Entry(entry)) => (entry, WHOLE),
        Some(At::Wait(entry, batch, place)) => (entry, within(batch, 0, place)),
        Some(At::Command(entry, batch, place)) => (entry, within(batch, 1, place)),
        Some(At::Signal(entry, batch, place)) => (entry, within(batch, 2, place)),
    }
}

fn within(batch: usize, list: usize, place: usize) -> Part {
    Part {
        is_within: true,
        batch,
        list,
        place,
    }
}
