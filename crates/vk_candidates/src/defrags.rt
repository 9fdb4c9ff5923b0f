use crate::cases::{Candidates, Case};
use crate::entries::moved_before;
use crate::lists::EditList;
use crate::lives::{ended_later, is_live};
use crate::passes::named_defrag;
use crate::renaming::{Renaming, renamed_entry};
use std::alloc::AllocError;
use vk_model::{Action, Entry, PoolKind};

/// What a defragmentation is begun with.
#[derive(Clone, Copy)]
struct Terms {
    pool: u32,
    max_bytes: u64,
    max_moves: u32,
}

impl Terms {
    fn entry(self, id: u32) -> Entry {
        Entry::Defrag {
            id,
            pool: self.pool,
            max_bytes: self.max_bytes,
            max_moves: self.max_moves,
        }
    }
}

/// A fresh id for a defragmentation; the entries after it that go on with it name that one, or go on
/// with what had the id before.
pub fn new_defrag(case: &Case<'_>, found: &mut Candidates) -> Result<(), AllocError> {
    let Action::Host(
        Entry::Defrag {
            id,
            pool,
            max_bytes,
            max_moves,
        },
    ) = case.refused.action
    else {
        return Ok(());
    };
    let terms = Terms {
        pool: *pool,
        max_bytes: *max_bytes,
        max_moves: *max_moves,
    };
    let to = case.fresh_id(0);
    for is_followed in [true, false] {
        let mut edits = case.edits();
        edits.replace(case.refused.entry, terms.entry(to))?;
        if is_followed {
            renamed_from_here(case, Renaming { from: *id, to }, &mut edits)?;
        }
        found.add(edits)?;
    }
    Ok(())
}

/// The refused entry and those after it go on with another defragmentation.
fn renamed_from_here(
    case: &Case<'_>,
    renaming: Renaming,
    edits: &mut EditList,
) -> Result<(), AllocError> {
    for (number, entry) in case.trace.iter().enumerate() {
        if number >= case.refused.entry && named_defrag(entry) == Some(renaming.from) {
            edits.replace(number, renamed_entry(entry, renaming)?)?;
        }
    }
    Ok(())
}

/// A defragmentation that isn't live: it begins before or ends later, or the entries name one that is
/// live, or it is begun anew.
pub fn live_defrag(case: &Case<'_>, id: u32, found: &mut Candidates) -> Result<(), AllocError> {
    match case.creator(id) {
        Some((number, entry)) if number > case.refused.entry => {
            moved_before(case, number, entry, found)?;
        }
        Some((_, Entry::Defrag { .. })) if is_live(case, id) => return Ok(()),
        Some((_, Entry::Defrag { .. })) => ended_later(case, id, found)?,
        _ => {}
    }
    another_named(case, id, found)?;
    begun_anew(case, id, found)
}

/// The entries name a defragmentation that is live.
fn another_named(case: &Case<'_>, id: u32, found: &mut Candidates) -> Result<(), AllocError> {
    for point in case.earlier {
        if let Action::Host(Entry::Defrag { id: to, .. }) = point.action {
            if is_live(case, *to) {
                let mut edits = case.edits();
                renamed_from_here(case, Renaming { from: id, to: *to }, &mut edits)?;
                found.add(edits)?;
            }
        }
    }
    Ok(())
}

/// It is begun before the entry, as it was, or of a pool that there is; by a new id, if something had its
/// id.
fn begun_anew(case: &Case<'_>, id: u32, found: &mut Candidates) -> Result<(), AllocError> {
    if let Some(
        (
            _,
            Entry::Defrag {
                pool,
                max_bytes,
                max_moves,
                ..
            },
        ),
    ) = case.creator(id)
    {
        let terms = Terms {
            pool: *pool,
            max_bytes: *max_bytes,
            max_moves: *max_moves,
        };
        return begun(case, id, terms, found);
    }
    for point in case.earlier {
        if let Action::Host(Entry::Pool { id: pool, info }) = point.action {
            if matches!(info.kind, PoolKind::Tlsf) && is_live(case, *pool) {
                let terms = Terms {
                    pool: *pool,
                    max_bytes: 0,
                    max_moves: 0,
                };
                begun(case, id, terms, found)?;
            }
        }
    }
    Ok(())
}

/// It is begun so before the entry, with a pass if that is what ends.
fn begun(case: &Case<'_>, id: u32, terms: Terms, found: &mut Candidates) -> Result<(), AllocError> {
    let to = match case.creator(id) {
        Some(_) => case.fresh_id(0),
        None => id,
    };
    let mut edits = case.edits();
    edits.insert(case.refused.entry, terms.entry(to))?;
    if let Action::Host(Entry::EndPass { .. }) = case.refused.action {
        edits.insert(case.refused.entry, Entry::Pass { defrag: to })?;
    }
    if to != id {
        renamed_from_here(case, Renaming { from: id, to }, &mut edits)?;
    }
    found.add(edits)
}
