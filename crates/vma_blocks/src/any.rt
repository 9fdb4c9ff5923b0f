use crate::block::PoolBlock;
use crate::{general, stack};
use std::alloc::{AllocError, Global};
use vk_model::{Kind, PoolInfo, PoolKind, SubFault};
use vma_linear::Linear;
use vma_tlsf::Tlsf;

/// One block of a pool of either algorithm (VMA, "Custom memory pools").
#[derive(Drop)]
pub enum AnyBlock {
    /// By two-level free lists; it can be defragmented.
    General(Tlsf),
    /// A stack, a ring, or stacks from both ends.
    Stack(Linear),
}

/// Which one a pool has is said by what the pool is made with.
impl PoolBlock for AnyBlock {
    ghost use Rattle.vma_blocks.specs.Blocks.{block_of};

    ghost block = { block_of };

    fn make(alloc: Global, info: PoolInfo) -> Result<Self, AllocError> {
        match info.kind {
            PoolKind::Tlsf => Ok(AnyBlock::General(general::make(alloc, info)?)),
            PoolKind::Linear => Ok(AnyBlock::Stack(stack::make(alloc, info))),
        }
    }

    fn allocate(
        &mut self,
        bytes: u64,
        align: u64,
        kind: Kind,
        upper: bool,
    ) -> Result<u64, SubFault> {
        match self {
            AnyBlock::General(block) => general::allocate(block, bytes, align, kind),
            AnyBlock::Stack(block) => stack::allocate(block, bytes, align, kind, upper),
        }
    }

    fn allocate_below(
        &mut self,
        bytes: u64,
        align: u64,
        kind: Kind,
        low: u64,
        limit: u64,
    ) -> Result<u64, SubFault> {
        match self {
            AnyBlock::General(block) => {
                general::allocate_below(block, bytes, align, kind, low, limit)
            }
            AnyBlock::Stack(_) => unreachable!(),
        }
    }

    fn lowest_below(
        &self,
        bytes: u64,
        align: u64,
        kind: Kind,
        low: u64,
        limit: u64,
    ) -> Option<u64> {
        match self {
            AnyBlock::General(block) => {
                general::lowest_below(block, bytes, align, kind, low, limit)
            }
            AnyBlock::Stack(_) => unreachable!(),
        }
    }

    fn free(&mut self, start: u64) {
        match self {
            AnyBlock::General(block) => general::free(block, start),
            AnyBlock::Stack(block) => block.give_back(start),
        }
    }

    fn is_empty(&self) -> bool {
        match self {
            AnyBlock::General(block) => block.is_empty(),
            AnyBlock::Stack(block) => block.is_empty(),
        }
    }

    fn largest_free(&self) -> u64 {
        match self {
            AnyBlock::General(block) => general::largest_free(block),
            AnyBlock::Stack(block) => block.widest_gap(),
        }
    }
}
