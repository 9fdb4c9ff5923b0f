ghost use Rattle.std.specs.Prelude.{◌+◌, List, All, IfOk, OnOk};
ghost use Rattle.vk_model.specs.Memory.HeapSizes.{HeapSizes};
ghost use Rattle.vk_model.specs.declared.entry.Entry.{Entry};
ghost use Rattle.vk_device.specs.Led.{IsSoundTrace};
ghost use Rattle.vk_places.specs.Walks.{IsAfter, IsStateAfter};

use crate::lacking::{Lack, lack_of};
use crate::listing::state_of;
use crate::states::State;
use std::alloc::{AllocError, Global};
use vk_device::{Applied, ApplyError, Device};
use vk_laws::{defined_runs_follow, direct_runs_are_runs, picks_are_runs};
use vk_model::{Config, Entry, First, Scheduler};
use vk_validate::Accepted;

/// Where everything lies in the course of a trace.
#[derive(Debug, Drop)]
pub struct Walk {
    /// After each entry that allocates, releases or moves something; or after one entry alone.
    pub states: Vec<State>,
    /// The entry that found no room, where one did, with what it lacks: the entries from it on weren't
    /// applied.
    pub stop: Option<(usize, Option<Lack>)>,
}

/// Whether an entry changes where something lies: it makes a resource, memory or a pool, ends one, or
/// begins or ends a pass.
fn is_listed(entry: &Entry) -> bool {
    match entry {
        Entry::Pool { .. }
        | Entry::Buffer { .. }
        | Entry::Image { .. }
        | Entry::Memory { .. }
        | Entry::Free { .. }
        | Entry::Destroy { .. }
        | Entry::DropPool { .. }
        | Entry::Pass { .. }
        | Entry::EndPass { .. } => true,
        _ => false,
    }
}

/// Whether the state after an entry is wanted: after that entry alone, or after each that is listed.
fn is_wanted(index: usize, entry: &Entry, after: Option<usize>) -> bool {
    match after {
        Some(wanted) => index == wanted,
        None => is_listed(entry),
    }
}

/// Adds the state of a device after an entry, where it is wanted.
fn push_state(
    alloc: Global,
    states: &mut Vec<State>,
    device: &Device<'_>,
    index: usize,
    wanted: bool,
) -> Result<(), AllocError>
    ensures { OnOk result ((sizes : HeapSizes) (t : List Entry) → IsAfter sizes t (index + 1) device.now → All (IsStateAfter sizes t) states.old.items
        → All (IsStateAfter sizes t) states.new.items) }
{
    if wanted {
        let state = state_of(alloc, device.resources(), device.passes(), index)?;
        states.push(state)?;
    }
    Ok(())
}

/// Where everything lies after the entries of an accepted trace that change it, or after one entry alone,
/// on a device with heaps of these sizes, up to the first entry that finds no room. The only error is want
/// of memory.
pub fn walk_of(
    alloc: Global,
    accepted: &Accepted<'_>,
    config: Config,
    after: Option<usize>,
) -> Result<Walk, AllocError>
    ensures { IfOk result (λ w. All (IsStateAfter config accepted.now) w.states.items) }
{
    match walk_entries(alloc, accepted.entries(), config, after, &mut First) {
        Ok(walked) => Ok(walked),
        Err(_) => Err(AllocError),
    }
}

/// The same for entries that break no rule, with pieces of commands as a scheduler picks them.
fn walk_entries<'a, S: Scheduler>(
    alloc: Global,
    entries: &'a [Entry],
    config: Config,
    after: Option<usize>,
    sched: &mut S,
) -> Result<Walk, ApplyError>
    requires { IsSoundTrace entries.now }
    ensures { IfOk result (λ w. All (IsStateAfter config entries.now) w.states.items) }
{
    defined_runs_follow();
    direct_runs_are_runs();
    picks_are_runs();
    let mut device = Device::new(alloc, config);
    let mut states = Vec::new(alloc);
    for (index, entry) in entries.iter().enumerate() {
        match device.apply(entry, sched)? {
            Applied::Done => {}
            Applied::Bytes(_bytes) => {}
            Applied::NoRoom => {
                let before = state_of(alloc, device.resources(), device.passes(), index)?;
                let lack = lack_of(alloc, &before, entry)?;
                return Ok(Walk {
                    states,
                    stop: Some((index, lack)),
                });
            }
        }
        let wanted = is_wanted(index, entry, after);
        push_state(alloc, &mut states, &device, index, wanted)?;
    }
    Ok(Walk { states, stop: None })
}
