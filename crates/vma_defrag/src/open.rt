ghost use Rattle.std.specs.Prelude.{◌≡◌, ◌==◌, ℕ, Contains, IfOk, Some, filter, length, not, slice_get, ◌<◌};
ghost use Rattle.vk_model.specs.Memory.PassRanks.{AreOnce};
ghost use Rattle.vma_pools.specs.State.{Backs};
ghost use Rattle.vma_defrag.specs.Bytes.{CopiesPart};
ghost use Rattle.vma_defrag.specs.Passes.{pass_of};
ghost use Rattle.vma_defrag.specs.Plans.{AreMatched, ArePlanned};
ghost use Rattle.vma_defrag.specs.Inner.Planned.{moves_of, AreIndexed, AreMade};

use crate::parts::{Parts, copy_bytes};
use std::alloc::{AllocError, Global};
use std::collections::BTreeMap;
use std::marker::Model;
use vk_memory::Memories;
use vma_blocks::PoolBlock;
use vma_pools::{PoolPlace, PoolsOf};

/// What becomes of a move when its pass ends, as `VmaDefragmentationMoveOperation`.
#[derive(Clone, Copy, Debug, PartialEq, Eq)]
pub(crate) enum Fate {
    /// It is made.
    Made,
    /// The allocation stays where it is.
    Kept,
    /// The allocation is destroyed.
    Lost,
}

/// A move of a pass.
#[derive(Clone, Copy)]
pub(crate) struct Planned {
    /// The number of its allocation.
    pub(crate) allocation: u64,
    /// The place that is reserved for it.
    pub(crate) to: PoolPlace,
    /// Its bytes.
    pub(crate) bytes: u64,
    /// What becomes of it; it is to be made as long as its pass is open.
    pub(crate) fate: Fate,
}

/// What is made ready for the copies and the end of a pass.
#[derive(Drop)]
pub(crate) struct Prepared {
    /// The parts of its moves.
    pub(crate) parts: Parts,
    /// The index of the move of an allocation, by its number.
    pub(crate) by_number: BTreeMap<u64, usize>,
}

/// A pass that has begun.
#[derive(Drop)]
pub(crate) struct OpenPass {
    pub(crate) planned: Vec<Planned>,
    pub(crate) prepared: Prepared,
}

impl Model for OpenPass {
    ghost use Rattle.vma_defrag.specs.State.{PassState};
    ghost use Rattle.vma_defrag.specs.Inner.Planned.{moves_of, IsOpen};

    ghost Value = { PassState };

    ghost view = { λ o. record { moves = moves_of o.planned.items; left = o.prepared.parts.left } };

    ghost invariant = { λ o. IsOpen o.planned.items o.prepared.parts.counts o.prepared.parts.left o.prepared.by_number.entries };
}

/// The index of each move, by the number of its allocation. The only error is want of memory.
fn indices_of(alloc: Global, planned: &[Planned]) -> Result<BTreeMap<u64, usize>, AllocError>
    requires once { AreOnce (moves_of planned.now) }
    ensures { IfOk result (λ m. AreIndexed planned.now m.entries) }
{
    let mut indices = BTreeMap::new(alloc);
    for index in 0..planned.len() {
        indices.insert(planned[index].allocation, index)?;
    }
    Ok(indices)
}

impl Prepared {
    /// What the moves of a pass need. The only error is want of memory.
    pub(crate) fn of(alloc: Global, planned: &[Planned]) -> Result<Prepared, AllocError>
        requires once { AreOnce (moves_of planned.now) }
        ensures counted { IfOk result (λ p. AreCounted part_count (moves_of planned.now) (length (moves_of planned.now)) p.parts.counts) }
        ensures left { IfOk result (λ p. p.parts.left ≡ below (sum_by part_count (moves_of planned.now))) }
        ensures indexed { IfOk result (λ p. AreIndexed planned.now p.by_number.entries) }
    {
        Ok(Prepared {
            parts: Parts::of(alloc, planned)?,
            by_number: indices_of(alloc, planned)?,
        })
    }
}

impl OpenPass {
    /// A pass of these moves, no part of which is copied.
    pub(crate) fn new(planned: Vec<Planned>, prepared: Prepared) -> OpenPass
        requires made { AreMade planned.items }
        requires counted { AreCounted part_count (moves_of planned.items) (length (moves_of planned.items)) prepared.parts.counts }
        requires left { prepared.parts.left ≡ below (sum_by part_count (moves_of planned.items)) }
        requires indexed { AreIndexed planned.items prepared.by_number.entries }
        ensures { result ≡ pass_of (moves_of planned.items) }
    {
        OpenPass { planned, prepared }
    }

    /// How many moves there are.
    pub(crate) fn moves(&self) -> usize
        ensures { result ≡ length self.now.moves }
    {
        self.planned.len()
    }

    /// A move by its index: the number of its allocation.
    pub(crate) fn allocation(&self, index: usize) -> u64
        requires { index < length self.now.moves }
        ensures { result ≡ (get_or self.now.moves index no_move).id }
    {
        self.planned[index].allocation
    }

    /// How many parts are left.
    pub(crate) fn left(&self) -> u64
        ensures { result ≡ length self.now.left }
    {
        self.prepared.parts.left()
    }

    /// A part by its place among those that are left.
    pub(crate) fn nth(&self, place: u64) -> u64
        requires { place < length self.now.left }
        ensures { slice_get self.now.left place ≡ Some result }
    {
        self.prepared.parts.nth(place)
    }

    /// Copies a part that is left.
    pub(crate) fn copy<B: PoolBlock>(
        &mut self,
        pools: &PoolsOf<B>,
        memories: &mut Memories,
        part: u64,
    )
        requires left { Contains self.old.left part }
        requires planned { (pool : ℕ) × ArePlanned pools.now pool self.old.moves }
        requires backs { Backs pools.now memories.old }
        requires matched { AreMatched pools.now }
        ensures moves { self.new.moves ≡ self.old.moves }
        ensures left { self.new.left ≡ filter (λ k. not (k == part)) self.old.left }
        ensures copies { CopiesPart pools.now self.old.moves part memories.old memories.new }
    {
        let its = self.prepared.parts.find(&self.planned, part);
        copy_bytes(pools, memories, self.planned[its.index], its.number);
        self.prepared.parts.finish(part);
    }
}

ghost use Rattle.std.specs.Prelude.{get_or, sum_by};
ghost use Rattle.vk_model.specs.Basics.{below};
ghost use Rattle.vk_transfer.specs.Counted.{AreCounted};
ghost use Rattle.vma_defrag.specs.Bytes.{no_move};
ghost use Rattle.vma_defrag.specs.State.{part_count};
