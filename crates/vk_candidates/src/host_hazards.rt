use crate::cases::{Candidates, Case, Earlier};
use crate::hazards::{QUEUES, barrier};
use crate::lists::EditList;
use crate::orders::{Ordering, host_wait_after};
use crate::uses::{Use, uses_of, writes};
use std::alloc::AllocError;
use vk_model::{Accesses, Action, Dependency, Duplicate, Entry, Length, Rule, Sequence, Stages};

/// Which parts a repair before a point of the host has.
#[derive(Clone, Copy)]
struct Plan {
    /// A barrier to the host at the end of the batch of each command.
    barrier: bool,
    /// How the host waits.
    waiting: Ordering,
    /// An invalidation before the point.
    invalidate: bool,
}

/// The plans for a hazard, in order of trial.
fn plans() -> [Plan; 9] {
    [
        planned(false, Ordering::Nothing, true),
        planned(false, Ordering::Known, false),
        planned(false, Ordering::Known, true),
        planned(true, Ordering::Nothing, false),
        planned(true, Ordering::Nothing, true),
        planned(true, Ordering::Known, false),
        planned(true, Ordering::Known, true),
        planned(true, Ordering::New, false),
        planned(true, Ordering::New, true),
    ]
}

/// The plans where the order is enough.
fn waits_alone() -> [Plan; 2] {
    [
        planned(false, Ordering::Known, false),
        planned(false, Ordering::New, false),
    ]
}

fn planned(barrier: bool, waiting: Ordering, invalidate: bool) -> Plan {
    Plan {
        barrier,
        waiting,
        invalidate,
    }
}

/// Repairs of a hazard of a point of the host.
pub fn hazards(case: &Case<'_>, found: &mut Candidates) -> Result<(), AllocError> {
    let uses = uses_of(case.alloc, case.refused.action)?;
    if matches!(case.rule, Rule::HazardWar) {
        before_host(case, &waits_alone(), uses.as_slice(), found)
    } else {
        moved_invalidation(case, found)?;
        before_host(case, &plans(), uses.as_slice(), found)
    }
}

/// The last invalidation of the buffer that the host reads, after which it hasn't read the buffer, comes right
/// before the read.
fn moved_invalidation(case: &Case<'_>, found: &mut Candidates) -> Result<(), AllocError> {
    let Action::Host(Entry::Read { buffer: id, .. }) = case.refused.action else {
        return Ok(());
    };
    let mut last = None;
    for (number, entry) in case.trace.iter().enumerate().take(case.refused.entry) {
        match entry {
            Entry::Read { buffer, .. } if buffer == id => last = None,
            Entry::Invalidate { buffer, .. } if buffer == id => last = Some((number, entry)),
            _ => {}
        }
    }
    if let Some((number, invalidation)) = last {
        let mut edits = case.edits();
        edits.remove(number)?;
        edits.insert(case.refused.entry, invalidation.duplicate()?)?;
        found.add(edits)?;
    }
    Ok(())
}

/// The host waits for the commands that use some resources.
pub fn waits(case: &Case<'_>, uses: &[Use], found: &mut Candidates) -> Result<(), AllocError> {
    before_host(case, &waits_alone(), uses, found)
}

/// Repairs before a point of the host that uses some resources, by each of some plans.
fn before_host(
    case: &Case<'_>,
    plans: &[Plan],
    uses: &[Use],
    found: &mut Candidates,
) -> Result<(), AllocError> {
    for plan in plans {
        for which in [Earlier::Accessed, Earlier::Latest] {
            by_plan(case, *plan, which, uses, found)?;
        }
    }
    Ok(())
}

fn by_plan(
    case: &Case<'_>,
    plan: Plan,
    which: Earlier,
    uses: &[Use],
    found: &mut Candidates,
) -> Result<(), AllocError> {
    let mut edits = case.edits();
    let mut waits = Vec::new(case.alloc);
    let mut is_found = false;
    for queue in 0..QUEUES {
        if let Some((index, earlier)) = case.earlier_on(which, queue, uses)? {
            is_found = true;
            if plan.barrier {
                let to_host = to_host(writes(uses));
                edits.insert_command(case.commands_end(&earlier), barrier(case, to_host)?)?;
            }
            if let Some(wait) = host_wait_after(case, plan.waiting, index, &earlier, &mut edits)? {
                waits.push(wait)?;
            }
        }
    }
    if !waits.is_empty() {
        edits.insert(
            case.refused.entry,
            Entry::Wait {
                waits: Sequence::new(waits),
            },
        )?;
    }
    if plan.invalidate {
        invalidated(case, &mut edits)?;
    }
    if !is_found && matches!(which, Earlier::Accessed) {
        return Ok(());
    }
    found.add(edits)
}

/// Writes of transfers are made available to the host, and visible to its accesses.
fn to_host(is_write: bool) -> Dependency {
    let accesses = if is_write {
        Accesses::HOST_WRITE
    } else {
        Accesses::HOST_READ
    };
    Dependency {
        source_stages: Stages::TRANSFER,
        source_accesses: Accesses::TRANSFER_WRITE,
        destination_stages: Stages::HOST,
        destination_accesses: accesses,
    }
}

/// An invalidation of what the host reads, right before it.
fn invalidated(case: &Case<'_>, edits: &mut EditList) -> Result<(), AllocError> {
    if let Action::Host(
        Entry::Read {
            buffer,
            offset,
            size,
        },
    ) = case.refused.action
    {
        edits.insert(
            case.refused.entry,
            Entry::Invalidate {
                buffer: *buffer,
                offset: *offset,
                size: Length::Bytes(*size),
            },
        )?;
    }
    Ok(())
}
