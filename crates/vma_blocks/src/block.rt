ghost use Rattle.std.specs.Prelude.{◌≡◌, Some, None, false, min, IfOk, OnErr, IsErrOf};
ghost use Rattle.vk_model.specs.Memory.Suballocation.{IsRequest, IsTakenAt, IsLargestFree};
ghost use Rattle.vk_model.specs.Memory.Room.{Block, BlockHolds, is_none_left, lowest};
ghost use Rattle.vk_model.specs.Memory.Pools.{BlockGives, block_bytes, block_taken, block_with, block_without, new_block};
ghost use Rattle.vma_tlsf.specs.Block.{IsExhaustedBelow};
ghost use Rattle.vma_blocks.specs.Alike.{IsAlike, IsGeneral};
ghost use Rattle.vma_blocks.specs.PoolInfos.{IsPoolInfo};

use std::alloc::{AllocError, Global};
use vk_model::{Kind, PoolInfo, SubFault};

/// One block of a pool, whatever places its ranges. Contracts see the definitions' block, but for the
/// order in which they list what is taken of one that can be defragmented.
pub trait PoolBlock: Sized + Drop {
    ghost block: { Self → Block };

    /// A new block of a pool that is made so. The only error is want of memory.
    fn make(alloc: Global, info: PoolInfo) -> Result<Self, AllocError>
        requires { IsPoolInfo info }
        ensures { IfOk result (λ b. block b ≡ new_block info) };

    /// Takes a range, at the upper end where that is asked, and answers its start in bytes.
    fn allocate(&mut self, bytes: u64, align: u64, kind: Kind, upper: bool) -> Result<u64, SubFault>
        requires { IsRequest bytes align }
        ensures ok { IfOk result (λ start. BlockGives (block self.old) (record { size = bytes; align = align; kind = kind }) upper start
            × IsAlike (block_with (block self.old) (record { size = bytes; align = align; kind = kind }) upper start) (block self.new)) }
        ensures no_room { IsErrOf result SubFault.NoRoom → BlockHolds (block self.old) (record { size = bytes; align = align; kind = kind }) upper → ⊥ }
        ensures err { OnErr result (block self.new ≡ block self.old) };

    /// Takes the lowest range that ends at or below a limit, and answers its start in bytes, in a block
    /// that can be defragmented. The search begins at `low`, below which the request fits nowhere.
    fn allocate_below(
        &mut self,
        bytes: u64,
        align: u64,
        kind: Kind,
        low: u64,
        limit: u64,
    ) -> Result<u64, SubFault>
        requires request { IsRequest bytes align }
        requires general { IsGeneral (block self.old) }
        requires low { IsExhaustedBelow (block_bytes (block self.old)) (block_taken (block self.old)) (record { size = bytes; align = align; kind = kind }) low }
        ensures ok { IfOk result (λ start.
            (lowest (block_taken (block self.old)) (record { size = bytes; align = align; kind = kind }) 0 (min limit (block_bytes (block self.old))) ≡ Some start)
            × IsAlike (block_with (block self.old) (record { size = bytes; align = align; kind = kind }) false start) (block self.new)) }
        ensures no_room { IsErrOf result SubFault.NoRoom → lowest (block_taken (block self.old)) (record { size = bytes; align = align; kind = kind }) 0 (min limit (block_bytes (block self.old))) ≡ None }
        ensures err { OnErr result (block self.new ≡ block self.old) };

    /// The lowest range for a request that ends at or below a limit, by its start in bytes, in a block
    /// that can be defragmented; none where there is no such range. The search begins at `low`, below
    /// which the request fits nowhere.
    fn lowest_below(&self, bytes: u64, align: u64, kind: Kind, low: u64, limit: u64) -> Option<u64>
        requires request { IsRequest bytes align }
        requires general { IsGeneral (block self.now) }
        requires low { IsExhaustedBelow (block_bytes (block self.now)) (block_taken (block self.now)) (record { size = bytes; align = align; kind = kind }) low }
        ensures { result ≡ lowest (block_taken (block self.now)) (record { size = bytes; align = align; kind = kind }) 0 (min limit (block_bytes (block self.now))) };

    /// Gives back the range that starts here.
    fn free(&mut self, start: u64)
        requires { IsTakenAt start (block_taken (block self.old)) }
        ensures { IsAlike (block_without (block self.old) start) (block self.new) };

    /// Whether nothing is taken.
    fn is_empty(&self) -> bool
        ensures { result ≡ is_none_left (block_taken (block self.now)) };

    /// The length in bytes of the longest free range.
    fn largest_free(&self) -> u64
        ensures { IsLargestFree (block_bytes (block self.now)) (block_taken (block self.now)) result };
}
