ghost use Rattle.std.specs.Prelude.{◌≡◌, ◌↔◌, filter, is_some, slice_index_or, IfOk, IsTrue, None};
ghost use Rattle.vma_pools.specs.Inner.Numbers.{AreNumbers};

use crate::allocations::Allocation;
use std::alloc::{AllocError, Global};

/// How many more numbers of ended allocations than of live ones are kept at most.
const MORE_ENDED: usize = 64;

/// The allocation of a number; none where it has ended or was never made.
pub(crate) fn entry_at(allocations: &[Option<Allocation>], number: u64) -> Option<Allocation>
    ensures { result ≡ slice_index_or allocations.now number None }
{
    match allocations.get(number as usize) {
        Some(entry) => *entry,
        None => None,
    }
}

/// Whether the allocation of a number is live.
fn is_live(allocations: &[Option<Allocation>], number: u64) -> bool
    ensures { result ≡ is_some (slice_index_or allocations.now number None) }
{
    entry_at(allocations, number).is_some()
}

/// The numbers of live allocations among some. The only error is want of memory.
fn live_among(
    alloc: Global,
    numbers: &[u64],
    allocations: &[Option<Allocation>],
) -> Result<Vec<u64>, AllocError>
    ensures { IfOk result (λ live. live.items ≡ filter (λ n. is_some (slice_index_or allocations.now n None)) numbers.now) }
{
    numbers
        .iter()
        .copied()
        .filter(|number| is_live(allocations, *number))
        .collect(alloc)
}

/// Leaves out the numbers of allocations that have ended, once they are more than those of live
/// ones, so that each end of an allocation pays for a few numbers.
pub(crate) fn leave_ended(
    alloc: Global,
    numbers: &mut Vec<u64>,
    allocations: &[Option<Allocation>],
    live: usize,
)
    requires { AreNumbers numbers.old.items allocations.now }
    ensures { AreNumbers numbers.new.items allocations.now }
{
    let most_ended = live.saturating_add(MORE_ENDED);
    if numbers.len().saturating_sub(live) <= most_ended {
        return;
    }
    if let Ok(kept) = live_among(alloc, numbers, allocations) {
        *numbers = kept;
    }
}
