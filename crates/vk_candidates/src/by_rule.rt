use crate::cases::{Candidates, Case};
use crate::{
    ending, entries, events, extents, hazards, layouts, lives, masks, overlaps, owners, pass_lists,
    passes, places, ranges, semaphores, sizes, staging, undefined, waits,
};
use std::alloc::AllocError;
use vk_model::Rule;

/// Lists of edits that may repair a trace, in order of trial. The only error is want of memory.
pub fn candidates(case: &Case<'_>) -> Result<Candidates, AllocError> {
    let mut found = Candidates::new(case.alloc);
    match case.rule {
        Rule::HazardWar | Rule::HazardRaw | Rule::HazardWaw => hazards::hazards(case, &mut found)?,
        Rule::ReadUndefined => undefined::read_undefined(case, &mut found)?,
        Rule::InUse => ending::in_use(case, &mut found)?,
        Rule::SignalValue => semaphores::signal_value(case, &mut found)?,
        Rule::SignalOrder => semaphores::signal_order(case, &mut found)?,
        Rule::WaitNever => waits::wait_never(case, &mut found)?,
        Rule::LiveId => lives::live_id(case, &mut found)?,
        _ => by_entry(case, &mut found)?,
    }
    Ok(found)
}

fn by_entry(case: &Case<'_>, found: &mut Candidates) -> Result<(), AllocError> {
    match case.rule {
        Rule::NewId => entries::new_id(case, found),
        Rule::Queue => entries::queue(case, 4, found),
        Rule::QueueKind => entries::queue(case, 2, found),
        Rule::Align => {
            entries::queue(case, 2, found)?;
            staging::unaligned(case, found)?;
            overlaps::align(case, found)
        }
        Rule::Size => {
            sizes::size(case, found)?;
            extents::within_images(case, found)
        }
        Rule::MemorySize => sizes::memory_size(case, found),
        Rule::Usage => entries::usage(case, found),
        Rule::MemoryType | Rule::HostVisible => places::memory_type(case, found),
        Rule::BindRange | Rule::BindAlign | Rule::Aliased => places::binding(case, found),
        Rule::PoolSize => places::pool_size(case, found),
        Rule::PoolKind => places::pool_kind(case, found),
        Rule::MapState => entries::map_state(case, found),
        Rule::Range => {
            ranges::range(case, found)?;
            extents::within_images(case, found)
        }
        Rule::Subresource => {
            ranges::subresource(case, found)?;
            extents::within_images(case, found)
        }
        Rule::Overlap => {
            pass_lists::listed_once(case, found)?;
            overlaps::overlap(case, found)?;
            staging::within_one(case, found)
        }
        _ => by_command(case, found),
    }
}

fn by_command(case: &Case<'_>, found: &mut Candidates) -> Result<(), AllocError> {
    match case.rule {
        Rule::Stage => masks::stage(case, found),
        Rule::Layout => layouts::layout(case, found),
        Rule::OldLayout => layouts::old_layout(case, found),
        Rule::OwnerWhole => owners::owner_whole(case, found),
        Rule::OwnerPair => owners::owner_pair(case, found),
        Rule::EventState => events::event_state(case, found),
        Rule::EventDependency => events::event_dependency(case, found),
        _ => by_pass(case, found),
    }
}

fn by_pass(case: &Case<'_>, found: &mut Candidates) -> Result<(), AllocError> {
    match case.rule {
        Rule::PassState => passes::pass_state(case, found),
        Rule::PassBusy => ending::pass_busy(case, found),
        Rule::PassWrite => passes::pass_ended(case, found),
        _ => Ok(()),
    }
}
