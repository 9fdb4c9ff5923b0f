ghost use Rattle.std.specs.Prelude.{◌≡◌, ◌∷◌, [], ℕ, Contains, IfOk, IfSome, IsSome, IsSomeAnd, None, OnOk, Some, true};
ghost use Rattle.vk_model.specs.Trace.Point.{Past};
ghost use Rattle.vk_model.specs.Trace.Order.{host};
ghost use Rattle.vk_model.specs.declared.entry.Entry.TheVariants as entry;
ghost use Rattle.vk_model.specs.declared.resource.PoolKind.TheVariants as algorithm;
ghost use Rattle.vk_memory.specs.MemoryState.{MemoryState};
ghost use Rattle.vk_backing.specs.Backed.{IsBacked, pool_by};
ghost use Rattle.vk_backing.specs.PassAllots.{DefragAllots, EndAllots, PassAllots, StaysAllotted, UndefragAllots};
ghost use Rattle.vk_backing.specs.PassSteps.{AreDestroyed, Begins, Closes, Copies, Opens};
ghost use Rattle.vk_backing.specs.Passing.{ArePassing, CopiesAgree, defrag_in, parts_left};

use crate::resources::{Placed, Resources};
use std::alloc::{AllocError, Global};
use std::collections::BTreeMap;
use vk_backing::{Backing, Passes};
use vk_image_tiles::Shape;
use vk_model::Length;

impl Resources {
    ghost use Rattle.vk_resources.specs.Matches.{Stands};
    ghost use Rattle.vk_resources.specs.PassSteps.{AreClean, AreLive, Drops, EndsResources, KeepsCells, WritesBack};
    ghost use Rattle.vk_resources.specs.Allocating.{allotted};
    ghost use Rattle.vk_resources.specs.Held.{IsConsistent};
    ghost use Rattle.vk_resources.specs.Inner.PassEnds.{ForgetsEach, Settles};
    ghost use Rattle.vk_resources.specs.Inner.Steps.{KeepsPlaces, Reserves};
    ghost use Rattle.vk_resources.specs.Rest.{KeepsRest};

    /// Writes the bytes of a buffer back that the host has written and that haven't reached memory.
    fn write_back(&mut self, id: u32)
        ensures keeps { KeepsPlaces self.old self.new }
        ensures written { WritesBack (id ∷ []) self.old self.new }
        ensures rest { KeepsRest self.old self.new (λ c. true) }
    {
        let _memories = &self.memories;
        if self.buffer(id).is_some() {
            self.flush(id, 0, Length::Whole);
        }
    }

    /// The same of all resources that the open pass moves.
    fn write_all_back(&mut self, passes: &Passes)
        ensures resources { self.new.resources ≡ self.old.resources }
        ensures shapes { self.new.shapes ≡ self.old.shapes }
        ensures allotted { allotted self.new ≡ allotted self.old }
        ensures written { WritesBack passes.now.moving self.old self.new }
        ensures rest { KeepsRest self.old self.new (λ c. true) }
        ensures stands { (past : Past) → Stands past self.old → Stands past self.new }
    {
        for index in 0..passes.moves() {
            self.write_back(passes.nth_id(index));
        }
    }

    /// Begins a defragmentation of the pool of an id, for an id, with limits of bytes and moves, 0 for
    /// none. The only error is want of memory.
    pub fn begin_defrag(
        &self,
        passes: &mut Passes,
        id: u32,
        pool: u32,
        max_bytes: u64,
        max_moves: u32,
    ) -> Result<(), AllocError>
        requires absent { defrag_in passes.old id ≡ None }
        requires general { IsSomeAnd (pool_by self.now.backed pool) (λ k. k.pool.info.kind ≡ algorithm.Tlsf) }
        requires passing { ArePassing passes.old self.now.backed }
        ensures begins { OnOk result (Begins passes.old passes.new self.now.backed id pool max_bytes max_moves) }
        ensures passing { OnOk result (ArePassing passes.new self.now.backed) }
        ensures allots { OnOk result (DefragAllots (allotted self.now) passes.old passes.new id pool max_bytes max_moves) }
    {
        passes.begin(&self.backing, id, pool, max_bytes, max_moves)
    }

    /// Ends a defragmentation that has no open pass.
    pub fn end_defrag(&self, passes: &mut Passes, id: u32)
        requires there { IsSome (defrag_in passes.old id) }
        requires closed { passes.old.opened ≡ Some id → ⊥ }
        requires passing { ArePassing passes.old self.now.backed }
        ensures gone { defrag_in passes.new id ≡ None }
        ensures others { (i : ℕ) → (i ≡ id → ⊥) → defrag_in passes.new i ≡ defrag_in passes.old i }
        ensures opened { passes.new.opened ≡ passes.old.opened }
        ensures moving { passes.new.moving ≡ passes.old.moving }
        ensures passing { ArePassing passes.new self.now.backed }
        ensures allots { UndefragAllots (allotted self.now) passes.old passes.new id }
    {
        passes.end(&self.backing, id);
    }

    /// Reserves the places of the moves of a pass that begins.
    fn reserve_places(&mut self, passes: &mut Passes, defrag: u32) -> Result<(), AllocError>
        requires there { IsSome (defrag_in passes.old defrag) }
        requires closed { passes.old.opened ≡ None }
        requires passing { ArePassing passes.old self.old.backed }
        requires stands { (past : Past) × Stands past self.old }
        ensures opens { OnOk result (Opens passes.old passes.new self.old.backed self.new.backed defrag) }
        ensures passing { OnOk result (ArePassing passes.new self.new.backed) }
        ensures allots { OnOk result (PassAllots (allotted self.old) passes.old (allotted self.new) passes.new defrag) }
        ensures reserves { OnOk result (Reserves self.old self.new) }
    {
        passes.open(&mut self.backing, &mut self.memories, defrag)
    }

    /// Begins a pass of a defragmentation: the host's cache writes back what it holds of the resources
    /// that move. The only error is want of memory, after which nothing is promised of the
    /// defragmentations.
    pub fn begin_pass(&mut self, passes: &mut Passes, defrag: u32) -> Result<(), AllocError>
        requires there { IsSome (defrag_in passes.old defrag) }
        requires closed { passes.old.opened ≡ None }
        requires passing { ArePassing passes.old self.old.backed }
        requires stands { (past : Past) × Stands past self.old }
        ensures opens { OnOk result (Opens passes.old passes.new self.old.backed self.new.backed defrag) }
        ensures agree { OnOk result (CopiesAgree passes.new self.new.backed self.new.memory) }
        ensures passing { OnOk result (ArePassing passes.new self.new.backed) }
        ensures allots { OnOk result (PassAllots (allotted self.old) passes.old (allotted self.new) passes.new defrag) }
        ensures resources { OnOk result (self.new.resources ≡ self.old.resources) }
        ensures shapes { OnOk result (self.new.shapes ≡ self.old.shapes) }
        ensures written { OnOk result (WritesBack passes.new.moving self.old self.new) }
        ensures clean { OnOk result (AreClean passes.new.moving self.new) }
        // Of all memory only bytes of resources change, also where no resource lies.
        ensures rest { OnOk result (KeepsRest self.old self.new (λ c. true)) }
        ensures stands { OnOk result ((past : Past) → Stands past self.old → Stands past self.new) }
    {
        self.reserve_places(passes, defrag)?;
        self.write_all_back(passes);
        Ok(())
    }

    /// Copies a part of the open pass that is left: no byte of a resource changes.
    pub fn copy_part(&mut self, passes: &mut Passes, part: u64)
        requires left { Contains (parts_left passes.old) part }
        requires passing { ArePassing passes.old self.old.backed }
        requires stands { (past : Past) × Stands past self.old }
        ensures copies { Copies passes.old passes.new self.old.backed part self.old.memory self.new.memory }
        ensures agree { CopiesAgree passes.old self.old.backed self.old.memory → CopiesAgree passes.new self.new.backed self.new.memory }
        ensures passing { ArePassing passes.new self.new.backed }
        ensures allots { StaysAllotted (allotted self.old) passes.old (allotted self.new) passes.new }
        ensures keeps { KeepsCells self.old self.new }
        ensures stands { (past : Past) → Stands past self.old → Stands past self.new }
    {
        passes.copy_part(&self.backing, &mut self.memories, part)
    }

    /// Holds nothing any more of some resources that are in cached memory, and writes nothing back.
    fn forget_each(&mut self, ids: &[u32])
        ensures forgets { ForgetsEach ids.now self.old self.new }
        ensures consistent { IsConsistent self.old }
    {
        let _memories = &self.memories;
        for id in ids {
            self.forget(*id);
        }
    }

    /// Ends the open pass where the host's cache holds nothing of what moves or is destroyed.
    fn settle(
        &mut self,
        passes: &mut Passes,
        moving: &[u32],
        ignored: &[u32],
        destroyed: &[u32],
    ) -> Result<(), AllocError>
        requires moving { moving.now ≡ passes.old.moving }
        requires open { IsSome passes.old.opened }
        requires passing { ArePassing passes.old self.old.backed }
        requires agree { CopiesAgree passes.old self.old.backed self.old.memory }
        requires destroyed { AreDestroyed passes.old self.old.backed destroyed.now }
        requires unheld { HoldsNoneOf self.old moving.now destroyed.now }
        requires stands { (past : Past) × Stands past self.old }
        ensures settles { OnOk result (IfSome passes.old.opened (λ id. Settles passes.old passes.new self.old self.new moving.now ignored.now destroyed.now id)) }
        ensures passing { OnOk result (ArePassing passes.new self.new.backed) }
        ensures allots { OnOk result (IfSome passes.old.opened (λ id. EndAllots (allotted self.old) passes.old (allotted self.new) passes.new id ignored.now destroyed.now)) }
        ensures consistent { IsConsistent self.old }
    {
        passes.close(&mut self.backing, &mut self.memories, ignored, destroyed)?;
        unplace(&mut self.resources, destroyed);
        unshape(&mut self.shapes, destroyed);
        place_anew(&mut self.resources, &self.backing, moving);
        Ok(())
    }

    /// Ends the open pass: each resource that moved lies at its new place, the host's cache holds
    /// nothing of it, and the destroyed resources are gone. The only error is want of memory, after
    /// which the pass is open as before, but nothing is promised of the host's cache.
    pub fn end_pass(
        &mut self,
        passes: &mut Passes,
        ignored: &[u32],
        destroyed: &[u32],
    ) -> Result<(), AllocError>
        requires open { IsSome passes.old.opened }
        requires passing { ArePassing passes.old self.old.backed }
        requires agree { CopiesAgree passes.old self.old.backed self.old.memory }
        requires clean { AreClean passes.old.moving self.old }
        requires destroyed { AreDestroyed passes.old self.old.backed destroyed.now }
        requires stands { (past : Past) × Stands past self.old }
        ensures closes { OnOk result (IfSome passes.old.opened (λ id. Closes passes.old passes.new self.old.backed self.new.backed self.old.memory self.new.memory id ignored.now destroyed.now)) }
        ensures passing { OnOk result (ArePassing passes.new self.new.backed) }
        ensures allots { OnOk result (IfSome passes.old.opened (λ id. EndAllots (allotted self.old) passes.old (allotted self.new) passes.new id ignored.now destroyed.now)) }
        ensures cells { OnOk result (Drops passes.old.moving self.old self.new) }
        ensures resources { OnOk result (EndsResources self.old self.new passes.old.moving destroyed.now) }
        ensures stands { OnOk result ((e d : ℕ) (past : Past) → Stands past self.old → AreLive past destroyed.now → Stands (host e (entry.EndPass d ignored.now destroyed.now) ∷ past) self.new) }
    {
        let moving = moving_ids(self.alloc, passes)?;
        self.forget_each(&moving);
        self.forget_each(destroyed);
        self.settle(passes, &moving, ignored, destroyed)
    }
}

ghost use Rattle.vk_resources.specs.Inner.PassEnds.{HoldsNoneOf, LeavesOut, PlacesAnew};

/// The ids of the resources that the open pass moves. The only error is want of memory.
fn moving_ids(alloc: Global, passes: &Passes) -> Result<Vec<u32>, AllocError>
    ensures { IfOk result (λ ids. ids.items ≡ passes.now.moving) }
{
    let mut ids = Vec::new(alloc);
    for index in 0..passes.moves() {
        ids.push(passes.nth_id(index))?;
    }
    Ok(ids)
}

/// Some resources lie nowhere any more.
fn unplace(resources: &mut BTreeMap<u32, Placed>, ids: &[u32])
    ensures { LeavesOut resources.old.entries resources.new.entries ids.now }
{
    for id in ids {
        resources.remove(id);
    }
}

/// Some images are no more.
fn unshape(shapes: &mut BTreeMap<u32, Shape>, ids: &[u32])
    ensures { LeavesOut shapes.old.entries shapes.new.entries ids.now }
{
    for id in ids {
        shapes.remove(id);
    }
}

/// Some resources lie where they have their places in pools.
fn place_anew(resources: &mut BTreeMap<u32, Placed>, backing: &Backing, ids: &[u32])
    requires { (m : MemoryState) × IsBacked backing.now m }
    ensures { PlacesAnew backing.now ids.now resources.old.entries resources.new.entries }
{
    for id in ids {
        if let Some(spot) = backing.place(*id) {
            if let Some(placed) = resources.get_mut(id) {
                placed.object = spot.memory;
                placed.offset = spot.offset;
            }
        }
    }
}
