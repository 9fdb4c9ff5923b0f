//! Blocks that are a stack, a ring, or stacks from both ends.
ghost use Rattle.std.specs.Prelude.{◌≡◌, ◌==◌, IfOk, OnErr, IsErrOf};
ghost use Rattle.vk_model.specs.Memory.Suballocation.{IsRequest};
ghost use Rattle.vk_model.specs.Memory.Room.{Stack, BlockHolds};
ghost use Rattle.vk_model.specs.Memory.LinearBlocks.{empty_linear};
ghost use Rattle.vk_model.specs.Memory.Pools.{BlockGives, block_with};
ghost use Rattle.vma_blocks.specs.Alike.{IsAlike};
ghost use Rattle.vma_blocks.specs.PoolInfos.{IsPoolInfo};

use std::alloc::Global;
use vk_model::{Kind, PoolInfo, SubFault};
use vma_linear::Linear;

/// A new block, which may be a ring where its pool has no other.
pub(crate) fn make(alloc: Global, info: PoolInfo) -> Linear
    requires { IsPoolInfo info }
    ensures { result ≡ empty_linear info.block_size (info.block_limit == 1) }
{
    Linear::new(alloc, info.block_size, info.block_limit == 1)
}

/// Takes a range, at the upper end where that is asked, and answers its start in bytes.
pub(crate) fn allocate(
    block: &mut Linear,
    bytes: u64,
    align: u64,
    kind: Kind,
    upper: bool,
) -> Result<u64, SubFault>
    requires { IsRequest bytes align }
    ensures ok { IfOk result (λ start. BlockGives (Stack block.old) (record { size = bytes; align = align; kind = kind }) upper start
        × IsAlike (block_with (Stack block.old) (record { size = bytes; align = align; kind = kind }) upper start) (Stack block.new)) }
    ensures no_room { IsErrOf result SubFault.NoRoom → BlockHolds (Stack block.old) (record { size = bytes; align = align; kind = kind }) upper → ⊥ }
    ensures err { OnErr result (block.new ≡ block.old) }
{
    if upper {
        block.allocate_upper(bytes, align, kind)
    } else {
        block.allocate_lower(bytes, align, kind)
    }
}
