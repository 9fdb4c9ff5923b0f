use crate::cases::{Candidates, Case};
use crate::entries::{moved_before, replaced};
use crate::pass_lists::without;
use crate::places::memory_of;
use crate::renaming::{Renaming, renamed_entry};
use crate::uses::{Use, write};
use std::alloc::AllocError;
use vk_model::{Action, Duplicate, Entry, Sequence};

/// The defragmentation whose pass is open before the refused point.
pub fn open_pass(case: &Case<'_>) -> Option<u32> {
    let mut open = None;
    for point in case.earlier {
        match point.action {
            Action::Host(Entry::Pass { defrag }) => open = Some(*defrag),
            Action::Host(Entry::EndPass { .. }) => open = None,
            _ => {}
        }
    }
    open
}

/// The defragmentation of a pool that hasn't ended before the refused point.
fn defrag_of(case: &Case<'_>, of: u32) -> Option<u32> {
    let mut found = None;
    for point in case.earlier {
        match point.action {
            Action::Host(Entry::Defrag { id, pool, .. }) if *pool == of => found = Some(*id),
            Action::Host(Entry::EndDefrag { defrag }) if found == Some(*defrag) => found = None,
            _ => {}
        }
    }
    found
}

/// The defragmentation that an entry goes on with.
pub fn named_defrag(entry: &Entry) -> Option<u32> {
    match entry {
        Entry::Pass { defrag } | Entry::EndPass { defrag, .. } | Entry::EndDefrag { defrag } => {
            Some(*defrag)
        }
        _ => None,
    }
}

/// The pool of a defragmentation.
pub fn pool_of(case: &Case<'_>, defrag: u32) -> Option<u32> {
    match case.creator(defrag) {
        Some((_, Entry::Defrag { pool, .. })) => Some(*pool),
        _ => None,
    }
}

/// The resources of the pool whose pass the refused entry begins or ends, as if it wrote them.
pub fn uses_in_pool(case: &Case<'_>) -> Result<Vec<Use>, AllocError> {
    let mut uses = Vec::new(case.alloc);
    let Action::Host(entry) = case.refused.action else {
        return Ok(uses);
    };
    let Some(defrag) = named_defrag(entry) else {
        return Ok(uses);
    };
    let Some(pool) = pool_of(case, defrag) else {
        return Ok(uses);
    };
    for point in case.earlier {
        if let Action::Host(entry) = point.action {
            if let Some(resource) = entry.made_id() {
                if memory_of(entry) == pool {
                    uses.push(write(resource))?;
                }
            }
        }
    }
    Ok(uses)
}

/// What doesn't fit the passes that are open: a defragmentation or a pass ends before the entry, or
/// the pass that it ends begins before it.
pub fn pass_state(case: &Case<'_>, found: &mut Candidates) -> Result<(), AllocError> {
    let Action::Host(entry) = case.refused.action else {
        return Ok(());
    };
    match entry {
        Entry::Defrag { pool, .. } | Entry::DropPool { pool } => defrag_ended(case, *pool, found),
        Entry::EndPass { defrag, .. } => pass_begun(case, entry, *defrag, found),
        _ => pass_ended(case, found),
    }
}

/// The open pass ends before the entry: by the entry that ends it later, or without lists.
pub fn pass_ended(case: &Case<'_>, found: &mut Candidates) -> Result<(), AllocError> {
    let Some(open) = open_pass(case) else {
        return Ok(());
    };
    for (number, entry) in case.trace.iter().enumerate() {
        if number > case.refused.entry && named_defrag(entry) == Some(open) {
            if let Entry::EndPass { .. } = entry {
                end_moved(case, number, entry, found)?;
            }
            break;
        }
    }
    let mut edits = case.edits();
    edits.insert(case.refused.entry, end_without_lists(case, open))?;
    found.add(edits)
}

/// A later end of a pass comes before the entry. It doesn't list what the entry destroys.
fn end_moved(
    case: &Case<'_>,
    number: usize,
    end: &Entry,
    found: &mut Candidates,
) -> Result<(), AllocError> {
    let mut edits = case.edits();
    let moved = match case.refused.action {
        Action::Host(Entry::Destroy { resource }) => without(case, end, &[*resource])?,
        _ => end.duplicate()?,
    };
    edits.insert(case.refused.entry, moved)?;
    edits.remove(number)?;
    found.add(edits)
}

/// The end of a pass by which nothing stays and nothing is destroyed.
fn end_without_lists(case: &Case<'_>, defrag: u32) -> Entry {
    Entry::EndPass {
        defrag,
        ignored: Sequence::new(Vec::new(case.alloc)),
        destroyed: Sequence::new(Vec::new(case.alloc)),
    }
}

/// The defragmentation of a pool ends before the entry: by what ends it later, with its passes until
/// then, or at once.
fn defrag_ended(case: &Case<'_>, pool: u32, found: &mut Candidates) -> Result<(), AllocError> {
    let Some(defrag) = defrag_of(case, pool) else {
        return Ok(());
    };
    for is_moved in [true, false] {
        let mut edits = case.edits();
        let mut is_open = open_pass(case) == Some(defrag);
        let mut has_ended = false;
        for (number, entry) in case.trace.iter().enumerate() {
            let is_later = is_moved && !has_ended && number > case.refused.entry;
            if is_later && named_defrag(entry) == Some(defrag) {
                is_open = matches!(entry, Entry::Pass { .. });
                has_ended = matches!(entry, Entry::EndDefrag { .. });
                edits.insert(case.refused.entry, entry.duplicate()?)?;
                edits.remove(number)?;
            }
        }
        if is_open {
            edits.insert(case.refused.entry, end_without_lists(case, defrag))?;
        }
        if !has_ended {
            edits.insert(case.refused.entry, Entry::EndDefrag { defrag })?;
        }
        found.add(edits)?;
    }
    Ok(())
}

/// A pass that isn't open ends: the one that is open does; or it begins before, by an entry that begins
/// it later or by a new one, where the open one ends.
fn pass_begun(
    case: &Case<'_>,
    end: &Entry,
    defrag: u32,
    found: &mut Candidates,
) -> Result<(), AllocError> {
    let open = open_pass(case);
    if let Some(to) = open {
        let renaming = Renaming { from: defrag, to };
        replaced(
            case,
            case.refused.entry,
            renamed_entry(end, renaming)?,
            found,
        )?;
    }
    for (number, entry) in case.trace.iter().enumerate() {
        if number > case.refused.entry && named_defrag(entry) == Some(defrag) {
            if let Entry::Pass { .. } = entry {
                moved_before(case, number, entry, found)?;
            }
            break;
        }
    }
    let mut edits = case.edits();
    if let Some(other) = open {
        edits.insert(case.refused.entry, end_without_lists(case, other))?;
    }
    edits.insert(case.refused.entry, Entry::Pass { defrag })?;
    found.add(edits)
}
