ghost use Rattle.std.specs.Prelude.{◌≡◌, ℕ, List, IfOk, OnErr, IsOk, IsErrOf};
ghost use Rattle.vk_model.specs.Memory.Suballocation.{Taken, Request, IsRequest, IsTakenAt, IsSound, IsLargestFree, Puts, TakesAway};

use crate::resource::Kind;

/// Why a suballocator refuses a request. Nothing is changed then.
#[derive(Clone, Copy, PartialEq, Eq, Debug, Drop)]
pub enum SubFault {
    /// The block has no place for the request.
    NoRoom,
    /// The suballocator's own tables could not grow.
    NoMemory,
}

/// A range of bytes that is taken in a block, as `VmaVirtualAllocationInfo`.
#[derive(Clone, Copy, PartialEq, Eq, Debug)]
pub struct TakenRange {
    /// Where it starts in the block, in bytes.
    pub start: u64,
    /// Its bytes.
    pub size: u64,
    /// How the bytes of its resource lie.
    pub kind: Kind,
}

/// Places allocations in one block of memory, as a block of a VMA pool. Contracts see the ranges that
/// are taken.
pub trait Suballoc {
    ghost size: { Self → ℕ };

    ghost taken: { Self → List Taken };

    /// Whether the algorithm has a place for the request.
    ghost can_hold: { Self → Request → Type 0 };

    /// Takes a range, and answers its start in bytes. `bytes` is a multiple of 16 above 0, `align` is
    /// 16, 64 or 256.
    fn allocate(&mut self, bytes: u64, align: u64, kind: Kind) -> Result<u64, SubFault>
        requires { IsRequest bytes align }
        ensures ok { IfOk result (λ start. Puts (taken self.old) (taken self.new) (record { size = bytes; align = align; kind = kind }) start) }
        ensures room { IsOk result → can_hold self.old (record { size = bytes; align = align; kind = kind }) }
        ensures no_room { IsErrOf result SubFault.NoRoom → can_hold self.old (record { size = bytes; align = align; kind = kind }) → ⊥ }
        ensures err { OnErr result (taken self.new ≡ taken self.old) }
        ensures block { size self.new ≡ size self.old };

    /// Gives back the range that starts here.
    fn free(&mut self, start: u64)
        requires { IsTakenAt start (taken self.old) }
        ensures freed { TakesAway (taken self.old) (taken self.new) start }
        ensures block { size self.new ≡ size self.old };

    /// The length in bytes of the longest free range.
    fn largest_free(&self) -> u64
        ensures { IsLargestFree (size self.now) (taken self.now) result };

    ghost sound: { (s : Self) → IsSound (size s) (taken s) };
}
