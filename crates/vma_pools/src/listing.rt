ghost use Rattle.std.specs.Prelude.{◌≡◌, [], ◌∷◌, map, IfOk, IsSome, MatchOption, OnOk};
ghost use Rattle.std.specs.List.Sorted.{IsPermutation};
ghost use Rattle.vk_model.specs.Memory.Pools.{AreStatistics, numbered_blocks};
ghost use Rattle.vma_pools.specs.State.{IfKept, pool_at};
ghost use Rattle.vma_pools.specs.Listing.{AreByPlace, resident_at};
ghost use Rattle.vma_pools.specs.Inner.Listed.{AreInOrder, resident};
ghost use Rattle.vma_pools.specs.Inner.Numbers.{residents_at};

use crate::allocations::{Allocation, Asked, Home};
use crate::numbers::entry_at;
use crate::pool::PoolPlace;
use crate::pools::PoolsOf;
use std::alloc::{AllocError, Global};
use vk_model::Statistics;
use vma_blocks::PoolBlock;

/// An allocation of a pool.
#[derive(Clone, Copy)]
pub(crate) struct Listed {
    /// Its number.
    number: u64,
    /// Where it lies there.
    place: PoolPlace,
    /// What it asked.
    asked: Asked,
}

/// An allocation by its number, where it lies in a pool.
fn listed_at(pool: u64, number: u64, entry: Option<Allocation>) -> Option<Listed>
    ensures { MatchOption result (resident_at pool number entry ≡ []) (λ one. resident_at pool number entry ≡ resident one ∷ []) }
{
    let Some(live) = entry else {
        return None;
    };
    match live.home {
        Home::Shared { pool: its, place } if its == pool => Some(Listed {
            number,
            place,
            asked: live.asked,
        }),
        _ => None,
    }
}

/// The allocations of a pool among those of some numbers.
fn listed_in(
    alloc: Global,
    allocations: &[Option<Allocation>],
    numbers: &[u64],
    pool: u64,
) -> Result<Vec<Listed>, AllocError>
    ensures { IfOk result (λ found. map resident found.items ≡ residents_at pool allocations.now numbers.now) }
{
    let mut found = Vec::new(alloc);
    for number in numbers {
        if let Some(one) = listed_at(pool, *number, entry_at(allocations, *number)) {
            found.push(one)?;
        }
    }
    Ok(found)
}

/// Puts allocations of one pool in the order of their places, from the lowest up.
fn sort_by_place(found: &mut Vec<Listed>) -> Result<(), AllocError>
    ensures permutation { IsPermutation found.old.items found.new.items }
    ensures sorted { OnOk result (AreInOrder found.new.items) }
{
    found.sort_by_key(|one| one.place.start)?;
    // Within a block the starts stay in order: this sort is stable.
    found.sort_by_key(|one| one.place.block)
}

/// The numbers of allocations.
fn numbers_of(alloc: Global, found: &[Listed]) -> Result<Vec<u64>, AllocError>
    ensures { IfOk result (λ numbers. numbers.items ≡ map (λ one. one.number) found.now) }
{
    found.iter().map(|one| one.number).collect(alloc)
}

impl<B: PoolBlock> PoolsOf<B> {
    /// How much of a pool's memory is in use. It takes no longer with more allocations.
    pub fn stats(&self, pool: u64) -> Statistics
        requires { IsSome (pool_at self.now pool) }
        ensures { IfKept self.now pool (λ k. AreStatistics (numbered_blocks k.pool.blocks) result) }
    {
        let Some(kept) = &self.pools[pool as usize] else {
            unreachable!()
        };
        kept.stats()
    }

    /// The numbers of a pool's allocations by place, from the highest down. It takes as long as
    /// allocations are live, and not as long as were made. The only error is want of memory.
    pub fn by_place(&self, pool: u64) -> Result<Vec<u64>, AllocError>
        ensures { IfOk result (λ numbers. AreByPlace self.now pool numbers.items) }
    {
        let mut found = listed_in(self.alloc, &self.allocations, &self.numbers, pool)?;
        sort_by_place(&mut found)?;
        found.reverse();
        numbers_of(self.alloc, &found)
    }
}
