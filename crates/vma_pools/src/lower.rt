ghost use Rattle.std.specs.Prelude.{◌≡◌, ◌<◌, ◌≤◌, length, All, AllPairs, Some, None, false, IfOk, OnErr, MatchOption, option_map};
ghost use Rattle.vk_model.specs.Memory.Suballocation.{IsRequest};
ghost use Rattle.vk_model.specs.Memory.Pools.{block_bytes, block_with};
ghost use Rattle.vma_blocks.specs.Alike.{IsAlike, IsGeneral};
ghost use Rattle.vma_pools.specs.Exhausted.{HasNoneBelow};
ghost use Rattle.vma_pools.specs.Inner.Lower.{lower_in, at_start, start_in, IsLowest, IsLowerTaken, NoneLower};
ghost use Rattle.vma_pools.specs.Inner.Walk.{seen, objects};

use crate::blocks::{Held, first_from};
use crate::pool::PoolPlace;
use std::alloc::AllocError;
use vk_model::{Kind, SubFault};
use vma_blocks::PoolBlock;

/// What is to move to a target in a pool.
#[derive(Clone, Copy)]
pub(crate) struct Mover {
    /// The number of its block.
    pub(crate) block: u64,
    /// Where it starts there, in bytes.
    pub(crate) start: u64,
    /// Its bytes.
    pub(crate) bytes: u64,
    /// Its alignment in bytes.
    pub(crate) align: u64,
    /// How its bytes lie.
    pub(crate) kind: Kind,
}

/// Where the search of a block begins, if that of its pool begins at a place: there, or at the block's
/// start.
fn start_at(low: PoolPlace, number: u64) -> u64
    ensures { result ≡ start_in (record { block = low.block; start = low.start }) number }
{
    if number == low.block { low.start } else { 0 }
}

/// Where what is to move has to end in a block: where it starts in its own block, at the block's end in
/// an earlier one.
fn end_at(mover: Mover, number: u64, size: u64) -> u64
    ensures own { number ≡ mover.block → result ≡ mover.start }
    ensures earlier { number < mover.block → result ≡ size }
{
    if number == mover.block {
        mover.start
    } else {
        size
    }
}

/// Takes the lowest place that a block has for what is to move, and answers its start in bytes. The
/// only error is want of memory.
fn take_at<B: PoolBlock>(
    block: &mut B,
    number: u64,
    size: u64,
    mover: Mover,
    low: PoolPlace,
) -> Result<Option<u64>, AllocError>
    requires request { IsRequest mover.bytes mover.align }
    requires general { IsGeneral (B.block block.old) }
    requires bytes { block_bytes (B.block block.old) ≡ size }
    requires inside { mover.start ≤ size }
    requires upto { number ≤ mover.block }
    requires low { HasNoneBelow (record { block = low.block; start = low.start }) (record { size = mover.bytes; align = mover.align; kind = mover.kind }) (record { number = number; block = B.block block.old }) }
    ensures ok { IfOk result (λ o. MatchOption o
        ((lower_in (record { block = mover.block; start = mover.start }) (record { size = mover.bytes; align = mover.align; kind = mover.kind }) (record { number = number; block = B.block block.old }) ≡ None) × (B.block block.new ≡ B.block block.old))
        (λ start. (lower_in (record { block = mover.block; start = mover.start }) (record { size = mover.bytes; align = mover.align; kind = mover.kind }) (record { number = number; block = B.block block.old }) ≡ Some (record { block = number; start = start }))
        × IsAlike (block_with (B.block block.old) (record { size = mover.bytes; align = mover.align; kind = mover.kind }) false start) (B.block block.new))) }
    ensures err { OnErr result (B.block block.new ≡ B.block block.old) }
{
    let from = start_at(low, number);
    let limit = end_at(mover, number, size);
    match block.allocate_below(mover.bytes, mover.align, mover.kind, from, limit) {
        Ok(start) => Ok(Some(start)),
        Err(SubFault::NoRoom) => Ok(None),
        Err(SubFault::NoMemory) => Err(AllocError),
    }
}

/// Takes the lowest place of the first block that has one for what is to move, and answers the
/// block's index and the start in bytes; none where no block has one. The search begins at `low`, and
/// ends with its own block.
pub(crate) fn take_below<B: PoolBlock>(
    blocks: &mut [Held<B>],
    size: u64,
    mover: Mover,
    low: PoolPlace,
) -> Result<Option<(usize, u64)>, AllocError>
    requires request { IsRequest mover.bytes mover.align }
    requires general { All (λ b. IsGeneral b.block × (block_bytes b.block ≡ size)) (seen B.block blocks.old) }
    requires inside { mover.start ≤ size }
    requires rising { AllPairs (λ a b. a.number < b.number) (seen B.block blocks.old) }
    requires low { All (HasNoneBelow (record { block = low.block; start = low.start }) (record { size = mover.bytes; align = mover.align; kind = mover.kind })) (seen B.block blocks.old) }
    ensures ok { IfOk result (λ o. MatchOption o
        (NoneLower (seen B.block blocks.old) (record { block = mover.block; start = mover.start }) (record { size = mover.bytes; align = mover.align; kind = mover.kind }) (length blocks.old) × (seen B.block blocks.new ≡ seen B.block blocks.old))
        (λ t. IsLowerTaken (seen B.block blocks.old) (seen B.block blocks.new) (record { block = mover.block; start = mover.start }) (record { size = mover.bytes; align = mover.align; kind = mover.kind }) t.0 t.1)) }
    ensures err { OnErr result (seen B.block blocks.new ≡ seen B.block blocks.old) }
    ensures objects { objects blocks.new ≡ objects blocks.old }
{
    for i in first_from(blocks, low.block)..blocks.len() {
        let held = &mut blocks[i];
        if mover.block < held.number {
            return Ok(None);
        }
        match take_at(&mut held.block, held.number, size, mover, low)? {
            Some(start) => return Ok(Some((i, start))),
            None => {}
        }
    }
    Ok(None)
}

/// The lowest place that a block has for what is to move, by its start in bytes, of which nothing is
/// taken; none where it has none.
fn place_at<B: PoolBlock>(
    block: &B,
    number: u64,
    size: u64,
    mover: Mover,
    low: PoolPlace,
) -> Option<u64>
    requires request { IsRequest mover.bytes mover.align }
    requires general { IsGeneral (B.block block.now) }
    requires bytes { block_bytes (B.block block.now) ≡ size }
    requires inside { mover.start ≤ size }
    requires upto { number ≤ mover.block }
    requires low { HasNoneBelow (record { block = low.block; start = low.start }) (record { size = mover.bytes; align = mover.align; kind = mover.kind }) (record { number = number; block = B.block block.now }) }
    ensures { lower_in (record { block = mover.block; start = mover.start }) (record { size = mover.bytes; align = mover.align; kind = mover.kind }) (record { number = number; block = B.block block.now }) ≡ option_map (at_start number) result }
{
    let from = start_at(low, number);
    let limit = end_at(mover, number, size);
    block.lowest_below(mover.bytes, mover.align, mover.kind, from, limit)
}

/// The index of the first block that has a place for what is to move, and the start in bytes of the
/// lowest such place there; none where no block has one. The search begins at `low`, and ends with its
/// own block.
pub(crate) fn place_below<B: PoolBlock>(
    blocks: &[Held<B>],
    size: u64,
    mover: Mover,
    low: PoolPlace,
) -> Option<(usize, u64)>
    requires request { IsRequest mover.bytes mover.align }
    requires general { All (λ b. IsGeneral b.block × (block_bytes b.block ≡ size)) (seen B.block blocks.now) }
    requires inside { mover.start ≤ size }
    requires rising { AllPairs (λ a b. a.number < b.number) (seen B.block blocks.now) }
    requires low { All (HasNoneBelow (record { block = low.block; start = low.start }) (record { size = mover.bytes; align = mover.align; kind = mover.kind })) (seen B.block blocks.now) }
    ensures { MatchOption result
        (NoneLower (seen B.block blocks.now) (record { block = mover.block; start = mover.start }) (record { size = mover.bytes; align = mover.align; kind = mover.kind }) (length blocks.now))
        (λ t. IsLowest (seen B.block blocks.now) (record { block = mover.block; start = mover.start }) (record { size = mover.bytes; align = mover.align; kind = mover.kind }) t.0 t.1) }
{
    for i in first_from(blocks, low.block)..blocks.len() {
        let held = &blocks[i];
        if mover.block < held.number {
            return None;
        }
        match place_at(&held.block, held.number, size, mover, low) {
            Some(start) => return Some((i, start)),
            None => {}
        }
    }
    None
}
