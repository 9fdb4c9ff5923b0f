ghost use Rattle.std.specs.Prelude.{◌≡◌, ◌<◌, [], ℕ, Contains, IfOk, IsSome, IsSomeAnd, IfSome, None, OnErr, OnOk, Some, length, slice_get};
ghost use Rattle.std.specs.BTreeMap.{get};
ghost use Rattle.std.specs.Ordering.{nat_cmp};
ghost use Rattle.vk_model.specs.declared.resource.PoolKind.TheVariants as algorithm;
ghost use Rattle.vk_model.specs.Memory.MoveTargets.{Moved};
ghost use Rattle.vk_memory.specs.MemoryState.{MemoryState};
ghost use Rattle.vma_defrag.specs.Plans.{ArePlanned};
ghost use Rattle.vma_defrag.specs.State.{moves_in};
ghost use Rattle.vk_backing.specs.Allotted.{allotted};
ghost use Rattle.vk_backing.specs.Backed.{allocation_of, pool_by, IsBacked, IsWhole};
ghost use Rattle.vk_backing.specs.PassAllots.{DefragAllots, EndAllots, PassAllots, StaysAllotted, UndefragAllots};
ghost use Rattle.vk_backing.specs.PassSteps.{AreDestroyed, Begins, Closes, Copies, MovesAt, Opens};
ghost use Rattle.vk_backing.specs.Passing.{AreMovers, ArePassing, CopiesAgree, defrag_in, open_defrag, parts_left};

use crate::backing::Backing;
use std::alloc::{AllocError, Global};
use std::collections::BTreeMap;
use std::marker::Model;
use vk_memory::Memories;
use vk_model::Spot;
use vma_defrag::Defrag;

/// A resource that a pass moves.
#[derive(Clone, Copy, Debug, PartialEq, Eq)]
pub struct MovingResource {
    /// Its id.
    pub id: u32,
    /// Where it lies, with the bytes of its allocation.
    pub from: Spot,
    /// Where it is to lie.
    pub to: Spot,
}

/// The defragmentations that have begun, and which of them has an open pass. What backs ids is handed
/// in to each call, which is to be that of the calls before it.
#[derive(Drop)]
pub struct Passes {
    alloc: Global,
    /// The defragmentations, by their ids.
    defrags: BTreeMap<u32, Defrag>,
    /// The id of the one whose pass is open.
    pub(crate) opened: Option<u32>,
    /// The ids of the resources that move in it, in the order of its moves.
    moving: Vec<u32>,
}

impl Model for Passes {
    ghost use Rattle.vk_backing.specs.Passing.{Passing};

    ghost Value = { Passing };

    ghost view = { λ p. record { defrags = p.defrags.entries; opened = p.opened; moving = p.moving.items } };
}

impl Passes {
    /// No defragmentations. It takes no memory.
    pub fn new(alloc: Global) -> Passes
        ensures { result ≡ record { defrags = []; opened = None; moving = [] } }
    {
        Passes {
            alloc,
            defrags: BTreeMap::new(alloc),
            opened: None,
            moving: Vec::new(alloc),
        }
    }

    /// Begins a defragmentation of the pool of an id, for an id, with limits of bytes and moves, 0 for
    /// none. The only error is want of memory.
    pub fn begin(
        &mut self,
        backing: &Backing,
        id: u32,
        pool: u32,
        max_bytes: u64,
        max_moves: u32,
    ) -> Result<(), AllocError>
        requires absent { defrag_in self.old id ≡ None }
        requires general { IsSomeAnd (pool_by backing.now pool) (λ k. k.pool.info.kind ≡ algorithm.Tlsf) }
        requires passing { ArePassing self.old backing.now }
        ensures begins { OnOk result (Begins self.old self.new backing.now id pool max_bytes max_moves) }
        ensures passing { OnOk result (ArePassing self.new backing.now) }
        ensures allots { OnOk result ((m : MemoryState) → IsBacked backing.now m → DefragAllots (allotted backing.now m) self.old self.new id pool max_bytes max_moves) }
    {
        let Some(number) = backing.numbers.get(&pool).copied() else {
            unreachable!()
        };
        self.defrags.insert(id, Defrag::begin(self.alloc, number, max_bytes, max_moves))?;
        Ok(())
    }

    /// Begins a pass of the defragmentation of an id. The only error is want of memory, after which
    /// nothing is promised of these defragmentations.
    pub fn open(
        &mut self,
        backing: &mut Backing,
        memories: &mut Memories,
        id: u32,
    ) -> Result<(), AllocError>
        requires there { IsSome (defrag_in self.old id) }
        requires closed { self.old.opened ≡ None }
        requires passing { ArePassing self.old backing.old }
        requires backed { IsBacked backing.old memories.old }
        requires whole { IsWhole backing.old }
        ensures opens { OnOk result (Opens self.old self.new backing.old backing.new id) }
        ensures agree { OnOk result (CopiesAgree self.new backing.new memories.new) }
        ensures passing { OnOk result (ArePassing self.new backing.new) }
        ensures backed { IsBacked backing.new memories.new }
        ensures whole { IsWhole backing.new }
        ensures memories { memories.new ≡ memories.old }
        ensures allots { OnOk result (PassAllots (allotted backing.old memories.old) self.old (allotted backing.new memories.new) self.new id) }
    {
        let Some(defrag) = self.defrags.get_mut(&id) else {
            unreachable!()
        };
        let passed = defrag.pass(&mut backing.pools, memories);
        backing.pools.are_pools();
        passed?;
        self.moving = movers(self.alloc, backing, defrag)?;
        self.opened = Some(id);
        Ok(())
    }

    /// How many resources the open pass moves; none where no pass is open.
    pub fn moves(&self) -> usize
        ensures { result ≡ length self.now.moving }
    {
        self.moving.len()
    }

    /// The id of a resource that the open pass moves, in the order of the moves.
    pub fn nth_id(&self, index: usize) -> u32
        requires there { index < length self.now.moving }
        ensures { slice_get self.now.moving index ≡ Some result }
    {
        self.moving[index]
    }

    /// A resource that the open pass moves, in the order of the moves.
    pub fn nth_move(&self, backing: &Backing, index: usize) -> MovingResource
        requires there { index < length self.now.moving }
        requires passing { ArePassing self.now backing.now }
        ensures { MovesAt self.now backing.now index result.id result.from result.to }
    {
        let defrag = self.opened_defrag();
        let its = defrag.nth_move(&backing.pools, index);
        MovingResource {
            id: self.moving[index],
            from: its.from,
            to: its.to,
        }
    }

    /// How many parts of the open pass are left to be copied; none where no pass is open.
    pub fn parts_left(&self) -> u64
        ensures { result ≡ length (parts_left self.now) }
    {
        let Some(id) = self.opened else { return 0 };
        match self.defrags.get(&id) {
            Some(defrag) => defrag.parts_left(),
            None => 0,
        }
    }

    /// A part of the open pass, by its place among those that are left.
    pub fn nth_part(&self, place: u64) -> u64
        requires { place < length (parts_left self.now) }
        ensures { slice_get (parts_left self.now) place ≡ Some result }
    {
        self.opened_defrag().nth_part(place)
    }

    /// Copies a part of the open pass that is left.
    pub fn copy_part(&mut self, backing: &Backing, memories: &mut Memories, part: u64)
        requires left { Contains (parts_left self.old) part }
        requires passing { ArePassing self.old backing.now }
        requires backed { IsBacked backing.now memories.old }
        ensures copies { Copies self.old self.new backing.now part memories.old memories.new }
        ensures agree { CopiesAgree self.old backing.now memories.old → CopiesAgree self.new backing.now memories.new }
        ensures passing { ArePassing self.new backing.now }
        ensures backed { IsBacked backing.now memories.new }
        ensures allots { StaysAllotted (allotted backing.now memories.old) self.old (allotted backing.now memories.new) self.new }
    {
        let Some(id) = self.opened else {
            unreachable!()
        };
        match self.defrags.get_mut(&id) {
            Some(defrag) => defrag.copy_part(&backing.pools, memories, part),
            None => unreachable!(),
        }
    }

    /// Ends the open pass, with the resources that stay where they are and those that are destroyed.
    /// The only error is want of memory, after which the pass is open as before.
    pub fn close(
        &mut self,
        backing: &mut Backing,
        memories: &mut Memories,
        ignored: &[u32],
        destroyed: &[u32],
    ) -> Result<(), AllocError>
        requires open { IsSome self.old.opened }
        requires passing { ArePassing self.old backing.old }
        requires backed { IsBacked backing.old memories.old }
        requires whole { IsWhole backing.old }
        requires agree { CopiesAgree self.old backing.old memories.old }
        requires destroyed { AreDestroyed self.old backing.old destroyed.now }
        ensures closes { OnOk result (IfSome self.old.opened (λ id. Closes self.old self.new backing.old backing.new memories.old memories.new id ignored.now destroyed.now)) }
        ensures passing { ArePassing self.new backing.new }
        ensures backed { IsBacked backing.new memories.new }
        ensures whole { IsWhole backing.new }
        ensures err { OnErr result (self.new ≡ self.old) }
        ensures unchanged { OnErr result ((backing.new ≡ backing.old) × (memories.new ≡ memories.old)) }
        ensures allots { OnOk result (IfSome self.old.opened (λ id. EndAllots (allotted backing.old memories.old) self.old (allotted backing.new memories.new) self.new id ignored.now destroyed.now)) }
    {
        let kept = backing.numbers_of(self.alloc, ignored)?;
        let lost = backing.numbers_of(self.alloc, destroyed)?;
        let Some(id) = self.opened else {
            unreachable!()
        };
        let Some(defrag) = self.defrags.get_mut(&id) else {
            unreachable!()
        };
        defrag.end_pass(&mut backing.pools, memories, &kept, &lost);
        backing.pools.are_pools();
        backing.forget(destroyed);
        self.opened = None;
        self.moving = Vec::new(self.alloc);
        Ok(())
    }

    /// Ends the defragmentation of an id, whose pass isn't open.
    pub fn end(&mut self, backing: &Backing, id: u32)
        requires there { IsSome (defrag_in self.old id) }
        requires closed { self.old.opened ≡ Some id → ⊥ }
        requires passing { ArePassing self.old backing.now }
        ensures gone { defrag_in self.new id ≡ None }
        ensures others { (i : ℕ) → (i ≡ id → ⊥) → defrag_in self.new i ≡ defrag_in self.old i }
        ensures opened { self.new.opened ≡ self.old.opened }
        ensures moving { self.new.moving ≡ self.old.moving }
        ensures passing { ArePassing self.new backing.now }
        ensures allots { (m : MemoryState) → IsBacked backing.now m → UndefragAllots (allotted backing.now m) self.old self.new id }
    {
        let _backing = backing;
        self.defrags.remove(&id);
    }

    /// The defragmentation whose pass is open.
    fn opened_defrag(&self) -> &Defrag
        requires { IsSome (open_defrag self.now) }
        ensures { open_defrag self.now ≡ Some result.now }
    {
        let Some(id) = self.opened else {
            unreachable!()
        };
        match self.defrags.get(&id) {
            Some(defrag) => defrag,
            None => unreachable!(),
        }
    }
}

/// The ids of the resources that have allocations in pools, by the numbers of these. The only error is
/// want of memory.
fn resources_by_number(alloc: Global, backing: &Backing) -> Result<BTreeMap<u64, u32>, AllocError>
    ensures named { IfOk result (λ ids. (a id : ℕ) → get nat_cmp ids a ≡ Some id → allocation_of backing.now id ≡ Some a) }
    ensures all { IfOk result (λ ids. (a id : ℕ) → allocation_of backing.now id ≡ Some a → IsSome (get nat_cmp ids a)) }
{
    let mut ids = BTreeMap::new(alloc);
    for (resource, allocation) in backing.allocations.iter() {
        ids.insert(*allocation, *resource)?;
    }
    Ok(ids)
}

/// The ids of the resources that a pass moves, in the order of its moves. The only error is want of
/// memory.
fn movers(alloc: Global, backing: &Backing, defrag: &Defrag) -> Result<Vec<u32>, AllocError>
    requires planned { ArePlanned backing.now.pools defrag.now.pool (moves_in defrag.now.current) }
    requires named { (m : Moved) → Contains (moves_in defrag.now.current) m → (id : ℕ) × (allocation_of backing.now id ≡ Some m.id) }
    ensures { IfOk result (λ ids. AreMovers backing.now ids.items (moves_in defrag.now.current)) }
{
    let ids = resources_by_number(alloc, backing)?;
    let mut moving = Vec::new(alloc);
    for index in 0..defrag.moves() {
        let its = defrag.nth_move(&backing.pools, index);
        let Some(resource) = ids.get(&its.allocation) else {
            unreachable!()
        };
        moving.push(*resource)?;
    }
    Ok(moving)
}
