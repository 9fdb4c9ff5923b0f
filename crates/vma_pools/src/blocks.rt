ghost use Rattle.std.specs.Prelude.{◌≡◌, ℕ, ◌<◌, ◌≤◌, slice_index_or, All, AllPairs, Any, length, IfOk, OnErr, OnOk, IsErrOf};
ghost use Rattle.vk_model.specs.Memory.Suballocation.{IsRequest};
ghost use Rattle.vk_model.specs.Memory.Pools.{BlockGives, IsLargestIn, block_with, new_block, numbered_blocks};
ghost use Rattle.vma_pools.specs.Inner.Walk.{seen, objects, NoneBefore, IsTaken};
ghost use Rattle.vma_blocks.specs.Alike.{IsAlike};
ghost use Rattle.vma_blocks.specs.PoolInfos.{IsPoolInfo};
ghost use Rattle.vma_pools.specs.declared.blocks.Held.{Held};

use std::alloc::{AllocError, Global};
use vk_model::{Kind, PoolInfo, SubFault, blocks_give};
use vma_blocks::PoolBlock;

/// A block of a pool.
#[derive(Drop)]
pub(crate) struct Held<B> {
    /// Its number: numbers rise, and are never used again (profile).
    pub(crate) number: u64,
    /// The number of the memory object that it is.
    pub(crate) memory: u64,
    /// What is taken of it.
    pub(crate) block: B,
}

/// Takes a range of the first block that holds the request, and answers the block's index and the
/// range's start in bytes.
pub(crate) fn take_in<B: PoolBlock>(
    blocks: &mut [Held<B>],
    bytes: u64,
    align: u64,
    kind: Kind,
    upper: bool,
) -> Result<(usize, u64), SubFault>
    requires { IsRequest bytes align }
    ensures ok { IfOk result (λ t. IsTaken (seen B.block blocks.old) (seen B.block blocks.new) (record { size = bytes; align = align; kind = kind }) upper t.0 t.1) }
    ensures no_room { IsErrOf result SubFault.NoRoom → NoneBefore (seen B.block blocks.old) (record { size = bytes; align = align; kind = kind }) upper (length blocks.old) }
    ensures err { OnErr result (seen B.block blocks.new ≡ seen B.block blocks.old) }
    ensures objects { objects blocks.new ≡ objects blocks.old }
{
    for i in 0..blocks.len() {
        let held = &mut blocks[i];
        match held.block.allocate(bytes, align, kind, upper) {
            Ok(start) => return Ok((i, start)),
            Err(SubFault::NoRoom) => {}
            Err(SubFault::NoMemory) => return Err(SubFault::NoMemory),
        }
    }
    Err(SubFault::NoRoom)
}

/// A new block, of which one range is taken.
#[derive(Drop)]
pub(crate) struct Fresh<B> {
    /// The block.
    pub(crate) block: B,
    /// Where the range starts, in bytes.
    pub(crate) start: u64,
}

/// A new block of a pool, from which a request has its place. The only error is want of memory.
pub(crate) fn begin_block<B: PoolBlock>(
    alloc: Global,
    info: PoolInfo,
    bytes: u64,
    align: u64,
    kind: Kind,
    upper: bool,
) -> Result<Fresh<B>, AllocError>
    requires info { IsPoolInfo info }
    requires request { IsRequest bytes align }
    requires fits { bytes ≤ info.block_size }
    ensures gives { IfOk result (λ f. BlockGives (new_block info) (record { size = bytes; align = align; kind = kind }) upper f.start) }
    ensures taken { IfOk result (λ f. IsAlike (block_with (new_block info) (record { size = bytes; align = align; kind = kind }) upper f.start) (B.block f.block)) }
{
    blocks_give();
    let mut block = B::make(alloc, info)?;
    match block.allocate(bytes, align, kind, upper) {
        Ok(start) => Ok(Fresh { block, start }),
        Err(SubFault::NoMemory) => Err(AllocError),
        Err(SubFault::NoRoom) => unreachable!(),
    }
}

/// The index of the first block whose number is this one or above it; how many blocks there are where
/// no block has such a number.
pub(crate) fn first_from<B>(blocks: &[Held<B>], number: u64) -> usize
    requires rising { AllPairs (λ a b. a.number < b.number) blocks.now }
    ensures within { result ≤ length blocks.now }
    ensures before { (k : ℕ) (d : Held B) → k < result → (slice_index_or blocks.now k d).number < number }
    ensures from { (k : ℕ) (d : Held B) → result ≤ k → k < length blocks.now → number ≤ (slice_index_or blocks.now k d).number }
{
    let mut low = 0;
    let mut high = blocks.len();
    while low < high {
        let middle = low + (high - low) / 2;
        if blocks[middle].number < number {
            low = middle + 1;
        } else {
            high = middle;
        }
    }
    low
}

/// The index of the block of a number.
pub(crate) fn index_of<B>(blocks: &[Held<B>], number: u64) -> usize
    requires rising { AllPairs (λ a b. a.number < b.number) blocks.now }
    requires there { Any (λ held. held.number ≡ number) blocks.now }
    ensures within { result < length blocks.now }
    ensures found { (d : Held B) → (slice_index_or blocks.now result d).number ≡ number }
{
    first_from(blocks, number)
}

/// The length in bytes of the longest free range of a block; 0 where there is no block.
pub(crate) fn largest_in<B: PoolBlock>(blocks: &[Held<B>]) -> u64
    ensures { IsLargestIn (numbered_blocks (seen B.block blocks.now)) result }
{
    let mut largest = 0;
    for held in blocks {
        let length = held.block.largest_free();
        if largest < length {
            largest = length;
        }
    }
    largest
}
