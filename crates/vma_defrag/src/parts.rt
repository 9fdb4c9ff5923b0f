ghost use Rattle.std.specs.Prelude.{◌≡◌, ◌==◌, ◌+◌, ◌/◌, ◌<◌, ℕ, Contains, IfOk, Some, filter, length, not, slice_get, sum_by};
ghost use Rattle.vk_model.specs.Basics.{below};
ghost use Rattle.vk_transfer.specs.Counted.{AreCounted};
ghost use Rattle.vma_pools.specs.State.{Backs};
ghost use Rattle.vma_defrag.specs.State.{part_count};
ghost use Rattle.vma_defrag.specs.Plans.{AreMatched, IsMove};
ghost use Rattle.vma_defrag.specs.Bytes.{CopiesPartOf, IsPart};
ghost use Rattle.vma_defrag.specs.Inner.Planned.{move_of, moves_of};

use crate::open::Planned;
use std::alloc::{AllocError, Global};
use vk_memory::Memories;
use vk_sync::PieceSet;
use vk_transfer::Counts;
use vma_blocks::PoolBlock;
use vma_pools::PoolsOf;

/// The bytes that a part of a move has at most.
const PART: u64 = 4_096;

/// A part of a move.
#[derive(Clone, Copy)]
pub(crate) struct Part {
    /// The index of the move.
    pub(crate) index: usize,
    /// Its number among the parts of the move.
    pub(crate) number: u64,
}

/// The parts of the moves of a pass, and which of them are left to be copied.
#[derive(Drop)]
pub(crate) struct Parts {
    /// How many parts come before those of each move.
    counts: Counts,
    left: PieceSet,
}

/// How many parts a move of some bytes has.
fn parts_in(bytes: u64) -> u64
    ensures { result ≡ (bytes + 4095) / 4096 }
{
    let whole = bytes / PART;
    if bytes % PART == 0 { whole } else { whole + 1 }
}

/// Copies a part of a move from the place where its allocation lies to the one that is reserved.
pub(crate) fn copy_bytes<B: PoolBlock>(
    pools: &PoolsOf<B>,
    memories: &mut Memories,
    one: Planned,
    number: u64,
)
    requires planned { (pool : ℕ) × IsMove pools.now pool (move_of one) }
    requires some { number < part_count (move_of one) }
    requires backs { Backs pools.now memories.old }
    requires matched { AreMatched pools.now }
    ensures { CopiesPartOf pools.now (move_of one) number memories.old memories.new }
{
    pools.are_pools();
    let from = pools.place(one.allocation);
    let to = pools.target(one.allocation);
    let offset = number * PART;
    let size = PART.min(one.bytes - offset);
    memories.copy(
        from.memory,
        from.offset + offset,
        to.memory,
        to.offset + offset,
        size,
    );
}

impl Parts {
    /// The parts of some moves, none of which is copied. The only error is want of memory.
    pub(crate) fn of(alloc: Global, planned: &[Planned]) -> Result<Parts, AllocError>
        ensures counted { IfOk result (λ p. AreCounted part_count (moves_of planned.now) (length (moves_of planned.now)) p.counts) }
        ensures left { IfOk result (λ p. p.left ≡ below (sum_by part_count (moves_of planned.now))) }
    {
        let mut counts = Counts::new(alloc);
        for one in planned {
            counts.add(parts_in(one.bytes)).map_err(|_| AllocError)?;
        }
        let left = PieceSet::all(alloc, counts.all())?;
        Ok(Parts { counts, left })
    }

    /// How many parts are left.
    pub(crate) fn left(&self) -> u64
        ensures { result ≡ length self.now.left }
    {
        self.left.len()
    }

    /// A part by its place among those that are left.
    pub(crate) fn nth(&self, place: u64) -> u64
        requires { place < length self.now.left }
        ensures { slice_get self.now.left place ≡ Some result }
    {
        self.left.nth(place)
    }

    /// Which part of which of the moves a part is.
    pub(crate) fn find(&self, planned: &[Planned], part: u64) -> Part
        requires counted { AreCounted part_count (moves_of planned.now) (length (moves_of planned.now)) self.now.counts }
        requires below { part < sum_by part_count (moves_of planned.now) }
        ensures { IsPart (moves_of planned.now) part result.index result.number }
    {
        let _moves = planned;
        let found = self.counts.find(part);
        Part {
            index: found.part,
            number: found.number,
        }
    }

    /// A part that is left has been copied.
    pub(crate) fn finish(&mut self, part: u64)
        requires { Contains self.old.left part }
        ensures counts { self.new.counts ≡ self.old.counts }
        ensures left { self.new.left ≡ filter (λ k. not (k == part)) self.old.left }
        ensures fewer { length self.new.left + 1 ≡ length self.old.left }
    {
        self.left.remove(part);
    }
}
