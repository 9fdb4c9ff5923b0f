//! Blocks that can be defragmented, by two-level free lists.
ghost use Rattle.std.specs.Prelude.{◌≡◌, Some, None, false, [], min, IfOk, OnErr, IsErrOf};
ghost use Rattle.vk_model.specs.Memory.Suballocation.{IsRequest, IsTakenAt, IsLargestFree};
ghost use Rattle.vk_model.specs.Memory.Room.{General, BlockHolds, is_none_left, lowest};
ghost use Rattle.vk_model.specs.Memory.Pools.{BlockGives, block_with, block_without};
ghost use Rattle.vma_tlsf.specs.Block.{taken, IsExhaustedBelow};
ghost use Rattle.vma_blocks.specs.Alike.{IsAlike};
ghost use Rattle.vma_blocks.specs.Blocks.{general_block};
ghost use Rattle.vma_blocks.specs.PoolInfos.{IsPoolInfo};

use std::alloc::{AllocError, Global};
use vk_model::{Kind, PoolInfo, SubFault, Suballoc};
use vma_tlsf::Tlsf;

/// The memory type in which optimal images can lie beside buffers.
const MIXED_TYPE: u32 = 0;

/// A new block: for resources of both kinds where its memory type can have both.
pub(crate) fn make(alloc: Global, info: PoolInfo) -> Result<Tlsf, AllocError>
    requires { IsPoolInfo info }
    ensures { IfOk result (λ b. general_block b ≡ General info.block_size []) }
{
    if info.memory_type == MIXED_TYPE {
        Tlsf::mixed(alloc, info.block_size)
    } else {
        Tlsf::new(alloc, info.block_size)
    }
}

/// Takes a range, and answers its start in bytes.
pub(crate) fn allocate(
    block: &mut Tlsf,
    bytes: u64,
    align: u64,
    kind: Kind,
) -> Result<u64, SubFault>
    requires { IsRequest bytes align }
    ensures ok { IfOk result (λ start. BlockGives (general_block block.old) (record { size = bytes; align = align; kind = kind }) false start
        × IsAlike (block_with (general_block block.old) (record { size = bytes; align = align; kind = kind }) false start) (general_block block.new)) }
    ensures no_room { IsErrOf result SubFault.NoRoom → BlockHolds (general_block block.old) (record { size = bytes; align = align; kind = kind }) false → ⊥ }
    ensures err { OnErr result (general_block block.new ≡ general_block block.old) }
{
    block.allocate(bytes, align, kind)
}

/// Takes the lowest range that ends at or below a limit, and answers its start in bytes. The search
/// begins at `low`.
pub(crate) fn allocate_below(
    block: &mut Tlsf,
    bytes: u64,
    align: u64,
    kind: Kind,
    low: u64,
    limit: u64,
) -> Result<u64, SubFault>
    requires request { IsRequest bytes align }
    requires low { IsExhaustedBelow block.old.size (taken block.old) (record { size = bytes; align = align; kind = kind }) low }
    ensures ok { IfOk result (λ start.
        (lowest (taken block.old) (record { size = bytes; align = align; kind = kind }) 0 (min limit block.old.size) ≡ Some start)
        × IsAlike (block_with (general_block block.old) (record { size = bytes; align = align; kind = kind }) false start) (general_block block.new)) }
    ensures no_room { IsErrOf result SubFault.NoRoom → lowest (taken block.old) (record { size = bytes; align = align; kind = kind }) 0 (min limit block.old.size) ≡ None }
    ensures err { OnErr result (general_block block.new ≡ general_block block.old) }
{
    block.allocate_below(bytes, align, kind, low, limit)
}

/// The lowest range for a request that ends at or below a limit, by its start in bytes. The search
/// begins at `low`.
pub(crate) fn lowest_below(
    block: &Tlsf,
    bytes: u64,
    align: u64,
    kind: Kind,
    low: u64,
    limit: u64,
) -> Option<u64>
    requires request { IsRequest bytes align }
    requires low { IsExhaustedBelow block.now.size (taken block.now) (record { size = bytes; align = align; kind = kind }) low }
    ensures { result ≡ lowest (taken block.now) (record { size = bytes; align = align; kind = kind }) 0 (min limit block.now.size) }
{
    block.lowest_below(bytes, align, kind, low, limit)
}

/// Gives back the range that starts here.
pub(crate) fn free(block: &mut Tlsf, start: u64)
    requires { IsTakenAt start (taken block.old) }
    ensures { IsAlike (block_without (general_block block.old) start) (general_block block.new) }
{
    block.give_back(start);
}

/// The length in bytes of the longest free range.
pub(crate) fn largest_free(block: &Tlsf) -> u64
    ensures { IsLargestFree block.now.size (taken block.now) result }
{
    block.largest_free()
}
