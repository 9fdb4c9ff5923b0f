use crate::cases::{Candidates, Case};
use crate::defrags::live_defrag;
use crate::entries::moved_before;
use crate::ids::{Kind, Named, ids_of, names};
use crate::pass_lists::{listed_of_pool, without};
use crate::renaming::Renaming;
use crate::stand_ins::{stand_in, with_made};
use std::alloc::AllocError;
use vk_model::{Action, Duplicate, Entry};

/// Each object that the point names is there: what is made later is made before, what has ended ends
/// after its last use, and semaphores and events that nothing makes are made.
pub fn live_id(case: &Case<'_>, found: &mut Candidates) -> Result<(), AllocError> {
    listed_of_pool(case, found)?;
    let all = ids_of(case.alloc, case.refused.action)?;
    for one in all.as_slice() {
        if one.kind == Kind::Defrag {
            live_defrag(case, one.id, found)?;
            continue;
        }
        match case.creator(one.id) {
            Some((number, entry)) if number > case.refused.entry => {
                moved_before(case, number, entry, found)?;
            }
            Some((_, entry)) if !one.kind.is_of(entry) => {
                made(case, *one, case.fresh_id(0), found)?;
            }
            Some(_) => ended_later(case, one.id, found)?,
            None => made(case, *one, one.id, found)?,
        }
    }
    Ok(())
}

/// The end of an object comes after the last entry that names it, or at the end of the trace. What an
/// end of a pass destroys is destroyed there.
pub fn ended_later(case: &Case<'_>, id: u32, found: &mut Candidates) -> Result<(), AllocError> {
    let Some((number, entry)) = end_of(case, id) else {
        return Ok(());
    };
    let mut last = case.refused.entry;
    for (place, other) in case.trace.iter().enumerate() {
        if place > last && names(case.alloc, other, id)? {
            last = place;
        }
    }
    for place in [last.saturating_add(1), case.trace.len()] {
        let mut edits = case.edits();
        if let Entry::EndPass { .. } = entry {
            edits.replace(number, without(case, entry, &[id])?)?;
            edits.insert(place, Entry::Destroy { resource: id })?;
        } else {
            edits.remove(number)?;
            edits.insert(place, entry.duplicate()?)?;
        }
        found.add(edits)?;
    }
    Ok(())
}

/// The entry before the refused one by which an object ends.
fn end_of<'a>(case: &Case<'a>, id: u32) -> Option<(usize, &'a Entry)> {
    for (number, entry) in case.trace.iter().enumerate() {
        if number < case.refused.entry && ends(entry, id) {
            return Some((number, entry));
        }
    }
    None
}

/// Whether an entry ends an object.
fn ends(entry: &Entry, id: u32) -> bool {
    match entry {
        Entry::Destroy { resource } => *resource == id,
        Entry::Free { memory } => *memory == id,
        Entry::DropPool { pool } => *pool == id,
        Entry::EndPass { destroyed, .. } => destroyed.as_slice().contains(&id),
        Entry::EndDefrag { defrag } => *defrag == id,
        _ => false,
    }
}

/// Whether an object has been made before the refused point and hasn't ended.
pub fn is_live(case: &Case<'_>, id: u32) -> bool {
    let mut is_live = false;
    for point in case.earlier {
        if let Action::Host(entry) = point.action {
            if entry.made_id() == Some(id) {
                is_live = true;
            }
            if ends(entry, id) {
                is_live = false;
            }
        }
    }
    is_live
}

/// What nothing makes is made before the point, by this id, which the point names then. Of what has
/// contents or a size this makes it up.
fn made(case: &Case<'_>, one: Named, id: u32, found: &mut Candidates) -> Result<(), AllocError> {
    let renaming = Renaming {
        from: one.id,
        to: id,
    };
    match one.kind {
        Kind::Semaphore => {
            for initial in [0, one.value] {
                found.add(with_made(case, Entry::Semaphore { id, initial }, renaming)?)?;
            }
            Ok(())
        }
        Kind::Event => found.add(with_made(case, Entry::Event { id }, renaming)?),
        kind => stand_in(case, kind, renaming, found),
    }
}
