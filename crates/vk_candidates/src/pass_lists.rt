use crate::cases::{Candidates, Case};
use crate::entries::replaced;
use crate::lives::is_live;
use crate::passes::pool_of;
use crate::places::memory_of;
use std::alloc::AllocError;
use vk_model::{Action, Duplicate, Entry, Sequence};

/// The end of a pass without some ids in its lists. Any other id stands in each of them once.
pub fn without(case: &Case<'_>, end: &Entry, left_out: &[u32]) -> Result<Entry, AllocError> {
    match end {
        Entry::EndPass {
            defrag,
            ignored,
            destroyed,
        } => Ok(Entry::EndPass {
            defrag: *defrag,
            ignored: others(case, ignored.as_slice(), left_out)?,
            destroyed: others(case, destroyed.as_slice(), left_out)?,
        }),
        other => other.duplicate(),
    }
}

/// Ids without some others, each once.
fn others(case: &Case<'_>, ids: &[u32], left_out: &[u32]) -> Result<Sequence<u32>, AllocError> {
    let mut all = Vec::new(case.alloc);
    for id in ids {
        if !left_out.contains(id) && !all.contains(id) {
            all.push(*id)?;
        }
    }
    Ok(Sequence::new(all))
}

/// An end of a pass lists each id once: as one that is destroyed, or as one that stays.
pub fn listed_once(case: &Case<'_>, found: &mut Candidates) -> Result<(), AllocError> {
    let Action::Host(
        Entry::EndPass {
            defrag,
            ignored,
            destroyed,
        },
    ) = case.refused.action
    else {
        return Ok(());
    };
    let ignored = ignored.as_slice();
    let destroyed = destroyed.as_slice();
    let first = Entry::EndPass {
        defrag: *defrag,
        ignored: others(case, ignored, destroyed)?,
        destroyed: others(case, destroyed, &[])?,
    };
    let second = Entry::EndPass {
        defrag: *defrag,
        ignored: others(case, ignored, &[])?,
        destroyed: others(case, destroyed, ignored)?,
    };
    replaced(case, case.refused.entry, first, found)?;
    replaced(case, case.refused.entry, second, found)
}

/// An end of a pass lists live resources of its pool alone; another one that it destroys is destroyed
/// after it.
pub fn listed_of_pool(case: &Case<'_>, found: &mut Candidates) -> Result<(), AllocError> {
    let Action::Host(end) = case.refused.action else {
        return Ok(());
    };
    let Entry::EndPass {
        defrag,
        ignored,
        destroyed,
    } = end
    else {
        return Ok(());
    };
    let Some(pool) = pool_of(case, *defrag) else {
        return Ok(());
    };
    let mut strays = Vec::new(case.alloc);
    add_strays(case, pool, ignored.as_slice(), &mut strays)?;
    add_strays(case, pool, destroyed.as_slice(), &mut strays)?;
    if strays.is_empty() {
        return Ok(());
    }
    let mut edits = case.edits();
    edits.replace(case.refused.entry, without(case, end, strays.as_slice())?)?;
    for resource in strays.as_slice() {
        if destroyed.as_slice().contains(resource) && is_live_resource(case, *resource) {
            let after = case.refused.entry.saturating_add(1);
            edits.insert(
                after,
                Entry::Destroy {
                    resource: *resource,
                },
            )?;
        }
    }
    found.add(edits)
}

/// With the ids that aren't of live resources in a pool, each once.
fn add_strays(
    case: &Case<'_>,
    pool: u32,
    ids: &[u32],
    strays: &mut Vec<u32>,
) -> Result<(), AllocError> {
    for id in ids {
        if !is_live_in(case, *id, pool) && !strays.contains(id) {
            strays.push(*id)?;
        }
    }
    Ok(())
}

fn is_live_in(case: &Case<'_>, id: u32, pool: u32) -> bool {
    match case.creator(id) {
        Some((_, entry)) => memory_of(entry) == pool && is_live(case, id),
        None => false,
    }
}

fn is_live_resource(case: &Case<'_>, id: u32) -> bool {
    match case.creator(id) {
        Some((_, Entry::Buffer { .. } | Entry::Image { .. })) => is_live(case, id),
        _ => false,
    }
}
