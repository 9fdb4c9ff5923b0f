use crate::choosing::{Limits, cancel_all, reserve_moves};
use crate::ending::end_open;
use crate::open::{OpenPass, Prepared};
use std::alloc::{AllocError, Global};
use std::marker::Model;
use vk_memory::Memories;
use vk_model::Spot;
use vma_blocks::PoolBlock;
use vma_pools::PoolsOf;

/// An allocation that moves, as `VmaDefragmentationMove`: the bytes that it asked for, rounded as its
/// place is.
#[derive(Clone, Copy, Debug, PartialEq, Eq)]
pub struct Move {
    /// The number of the allocation.
    pub allocation: u64,
    /// Where it lies.
    pub from: Spot,
    /// Where it is to lie.
    pub to: Spot,
}

/// A defragmentation of a pool, as `VmaDefragmentationContext`. Pools and memory objects are handed in
/// to each call, which are to be those of the calls before it.
#[derive(Drop)]
pub struct Defrag {
    alloc: Global,
    /// The number of its pool.
    pool: u64,
    limits: Limits,
    current: Option<OpenPass>,
}

impl Model for Defrag {
    ghost use Rattle.vma_defrag.specs.State.{DefragState};

    ghost Value = { DefragState };

    ghost view = { λ d. record { pool = d.pool; max_bytes = d.limits.bytes; max_moves = d.limits.moves; current = d.current } };
}

impl Defrag {
    ghost use Rattle.std.specs.Prelude.{◌≡◌, ◌==◌, ◌<◌, [], ℕ, List, Contains, IsSome, None, OnErr, OnOk, Some, filter, get_or, length, not, slice_get};
    ghost use Rattle.vk_model.specs.declared.resource.PoolKind.TheVariants as algorithm;
    ghost use Rattle.vk_memory.specs.MemoryState.{MemoryState};
    ghost use Rattle.vma_pools.specs.State.{Backs, IfKept};
    ghost use Rattle.vma_defrag.specs.State.{left_in, moves_in, with_left};
    ghost use Rattle.vma_defrag.specs.Plans.{AreMatched, ArePlanned};
    ghost use Rattle.vma_defrag.specs.Passes.{AreAlikePools, HasBegun, IsEmptyWhereLowest};
    ghost use Rattle.vma_defrag.specs.Bytes.{AreCopied, CopiesPart, MovesBetween, no_move};
    ghost use Rattle.vma_defrag.specs.Ends.{AreOfPool, HasEnded, KeepsBytes};

    /// A defragmentation of a pool by its number, of which each pass moves so many bytes and
    /// allocations at most; 0 for any number. It takes no memory.
    pub fn begin(alloc: Global, pool: u64, max_bytes: u64, max_moves: u32) -> Defrag
        ensures { result ≡ record { pool = pool; max_bytes = max_bytes; max_moves = max_moves; current = None } }
    {
        Defrag {
            alloc,
            pool,
            limits: Limits {
                bytes: max_bytes,
                moves: max_moves,
            },
            current: None,
        }
    }

    /// Begins a pass: chooses its moves and reserves their targets. The only error is want of memory,
    /// after which nothing is reserved.
    pub fn pass<B: PoolBlock>(
        &mut self,
        pools: &mut PoolsOf<B>,
        memories: &mut Memories,
    ) -> Result<(), AllocError>
        requires closed { self.old.current ≡ None }
        requires general { IfKept pools.old self.old.pool (λ k. k.pool.info.kind ≡ algorithm.Tlsf) }
        requires planned { ArePlanned pools.old self.old.pool [] }
        requires backs { Backs pools.old memories.old }
        ensures begun { OnOk result (HasBegun self.old self.new pools.old pools.new) }
        ensures empty { OnOk result (IsEmptyWhereLowest self.old pools.old (moves_in self.new.current)) }
        ensures planned { OnOk result (ArePlanned pools.new self.new.pool (moves_in self.new.current)) }
        ensures err { OnErr result (self.new ≡ self.old) }
        ensures alike { OnErr result (AreAlikePools pools.old pools.new) }
        ensures memories { memories.new ≡ memories.old }
        ensures backs { Backs pools.new memories.new }
        ensures matched { AreMatched pools.old → AreMatched pools.new }
    {
        let mut planned = reserve_moves(self.alloc, pools, memories, self.pool, self.limits)?;
        match Prepared::of(self.alloc, &planned) {
            Ok(prepared) => {
                self.current = Some(OpenPass::new(planned, prepared));
                Ok(())
            }
            Err(refused) => {
                cancel_all(pools, memories, &mut planned);
                Err(refused)
            }
        }
    }

    /// How many moves the open pass has; none where no pass is open.
    pub fn moves(&self) -> usize
        ensures { result ≡ length (moves_in self.now.current) }
    {
        match &self.current {
            Some(open) => open.moves(),
            None => 0,
        }
    }

    /// A move of the open pass: they are numbered from the highest place down.
    pub fn nth_move<B: PoolBlock>(&self, pools: &PoolsOf<B>, index: usize) -> Move
        requires there { index < length (moves_in self.now.current) }
        requires planned { ArePlanned pools.now self.now.pool (moves_in self.now.current) }
        ensures its { result.allocation ≡ (get_or (moves_in self.now.current) index no_move).id }
        ensures between { MovesBetween pools.now result.allocation result.from result.to }
    {
        match &self.current {
            Some(open) => {
                let allocation = open.allocation(index);
                Move {
                    allocation,
                    from: pools.place(allocation),
                    to: pools.target(allocation),
                }
            }
            None => unreachable!(),
        }
    }

    /// How many parts of the open pass are left to be copied; none where no pass is open.
    pub fn parts_left(&self) -> u64
        ensures { result ≡ length (left_in self.now.current) }
    {
        match &self.current {
            Some(open) => open.left(),
            None => 0,
        }
    }

    /// A part of the open pass, by its place among those that are left.
    pub fn nth_part(&self, place: u64) -> u64
        requires { place < length (left_in self.now.current) }
        ensures { slice_get (left_in self.now.current) place ≡ Some result }
    {
        match &self.current {
            Some(open) => open.nth(place),
            None => unreachable!(),
        }
    }

    /// Copies a part of the open pass that is left.
    pub fn copy_part<B: PoolBlock>(
        &mut self,
        pools: &PoolsOf<B>,
        memories: &mut Memories,
        part: u64,
    )
        requires left { Contains (left_in self.old.current) part }
        requires planned { ArePlanned pools.now self.old.pool (moves_in self.old.current) }
        requires backs { Backs pools.now memories.old }
        requires matched { AreMatched pools.now }
        ensures left { self.new ≡ with_left (filter (λ k. not (k == part)) (left_in self.old.current)) self.old }
        ensures copies { CopiesPart pools.now (moves_in self.old.current) part memories.old memories.new }
        ensures agree { AreCopied pools.now memories.old (moves_in self.old.current) (left_in self.old.current) → AreCopied pools.now memories.new (moves_in self.new.current) (left_in self.new.current) }
        ensures backs { Backs pools.now memories.new }
    {
        pools.are_pools();
        match &mut self.current {
            Some(open) => open.copy(pools, memories, part),
            None => unreachable!(),
        }
    }

    /// Ends the open pass: copies what is left of the moves that are made, and makes them; that of an
    /// ignored allocation is cancelled, and the destroyed allocations are freed, whether they had a
    /// move or not. It takes no memory.
    pub fn end_pass<B: PoolBlock>(
        &mut self,
        pools: &mut PoolsOf<B>,
        memories: &mut Memories,
        ignored: &[u64],
        destroyed: &[u64],
    )
        requires open { IsSome self.old.current }
        requires planned { ArePlanned pools.old self.old.pool (moves_in self.old.current) }
        requires backs { Backs pools.old memories.old }
        requires matched { AreMatched pools.old }
        requires copied { AreCopied pools.old memories.old (moves_in self.old.current) (left_in self.old.current) }
        requires destroyed { AreOfPool pools.old self.old.pool destroyed.now }
        ensures closed { self.new ≡ record self.old { current = None } }
        ensures ended { (gone : List ℕ) × HasEnded (moves_in self.old.current) pools.old pools.new memories.old memories.new ignored.now destroyed.now gone }
        ensures bytes { KeepsBytes pools.old memories.old pools.new memories.new }
        ensures planned { ArePlanned pools.new self.new.pool [] }
        ensures backs { Backs pools.new memories.new }
        ensures matched { AreMatched pools.new }
    {
        let Some(open) = self.current.take() else {
            unreachable!()
        };
        end_open(open, pools, memories, ignored, destroyed);
    }

    /// Ends a defragmentation of which no pass is open, as `vmaEndDefragmentation`. It changes nothing
    /// of its pool.
    pub fn end(self)
        requires { self.current ≡ None }
    {
        let _pool = self.pool;
    }
}
