ghost use Rattle.std.specs.Prelude.{◌≡◌, false, IfOk, OnOk};
ghost use Rattle.vk_model.specs.declared.entry.Entry.TheVariants as entry;
ghost use Rattle.vk_resources.specs.declared.applied.Applied.TheVariants as applied;
ghost use Rattle.vk_resources.specs.Allocating.{NoRoomIsExact};
ghost use Rattle.vk_device.specs.Passes.{AllotsAll};
ghost use Rattle.vk_device.specs.Led.{KeepsPadding};
ghost use Rattle.vk_device.specs.Inner.Fits.{is_of_passes};
ghost use Rattle.vk_device.specs.Inner.Ready.{MayChange, HasDone};

use crate::device::Device;
use std::alloc::AllocError;
use vk_model::{Entry, Sequence};
use vk_resources::Applied;

impl<'a> Device<'a> {
    /// Begins a defragmentation.
    fn begin_defrag(
        &mut self,
        id: u32,
        pool: u32,
        max_bytes: u64,
        max_moves: u32,
    ) -> Result<(), AllocError>
        requires { MayChange self.old (entry.Defrag id pool max_bytes max_moves) }
        ensures done { OnOk result (HasDone applied.Done (entry.Defrag id pool max_bytes max_moves) self.old self.new) }
        ensures allots { OnOk result (AllotsAll applied.Done (entry.Defrag id pool max_bytes max_moves) self.old.resources self.old.passes self.new.resources self.new.passes) }
        ensures rest { OnOk result (KeepsPadding self.old self.new) }
        ensures same { self.new ≡ record self.old { resources = self.new.resources; passes = self.new.passes } }
    {
        self.resources
            .begin_defrag(&mut self.passes, id, pool, max_bytes, max_moves)?;
        Ok(())
    }

    /// Begins a pass of a defragmentation.
    fn begin_pass(&mut self, defrag: u32) -> Result<(), AllocError>
        requires { MayChange self.old (entry.Pass defrag) }
        ensures done { OnOk result (HasDone applied.Done (entry.Pass defrag) self.old self.new) }
        ensures allots { OnOk result (AllotsAll applied.Done (entry.Pass defrag) self.old.resources self.old.passes self.new.resources self.new.passes) }
        ensures rest { OnOk result (KeepsPadding self.old self.new) }
        ensures same { self.new ≡ record self.old { resources = self.new.resources; passes = self.new.passes } }
    {
        self.resources.begin_pass(&mut self.passes, defrag)?;
        Ok(())
    }

    /// Ends the open pass, which is of this defragmentation.
    fn end_pass(
        &mut self,
        defrag: u32,
        ignored: &Sequence<u32>,
        destroyed: &Sequence<u32>,
    ) -> Result<(), AllocError>
        requires { MayChange self.old (entry.EndPass defrag ignored.now destroyed.now) }
        ensures done { OnOk result (HasDone applied.Done (entry.EndPass defrag ignored.now destroyed.now) self.old self.new) }
        ensures allots { OnOk result (AllotsAll applied.Done (entry.EndPass defrag ignored.now destroyed.now) self.old.resources self.old.passes self.new.resources self.new.passes) }
        ensures rest { OnOk result (KeepsPadding self.old self.new) }
        ensures same { self.new ≡ record self.old { resources = self.new.resources; passes = self.new.passes } }
    {
        let _defrag = defrag;
        self.resources
            .end_pass(&mut self.passes, ignored.as_slice(), destroyed.as_slice())?;
        Ok(())
    }

    /// Ends a defragmentation.
    fn end_defrag(&mut self, defrag: u32)
        requires { MayChange self.old (entry.EndDefrag defrag) }
        ensures done { HasDone applied.Done (entry.EndDefrag defrag) self.old self.new }
        ensures allots { AllotsAll applied.Done (entry.EndDefrag defrag) self.old.resources self.old.passes self.new.resources self.new.passes }
        ensures rest { KeepsPadding self.old self.new }
        ensures same { self.new ≡ record self.old { resources = self.new.resources; passes = self.new.passes } }
    {
        self.resources.end_defrag(&mut self.passes, defrag);
    }

    /// Does what an entry does to resources that begins and ends no pass and no defragmentation.
    fn change_resources(&mut self, entry: &Entry) -> Result<Applied, AllocError>
        requires may { MayChange self.old entry.now }
        requires plain { is_of_passes entry.now ≡ false }
        ensures done { IfOk result (λ a. HasDone a entry.now self.old self.new) }
        ensures rooms { IfOk result (λ a. NoRoomIsExact a self.old.resources entry.now) }
        ensures allots { IfOk result (λ a. AllotsAll a entry.now self.old.resources self.old.passes self.new.resources self.new.passes) }
        ensures rest { OnOk result (KeepsPadding self.old self.new) }
        ensures same { self.new ≡ record self.old { resources = self.new.resources; passes = self.new.passes } }
    {
        self.resources.are_resources();
        let applied = self.resources.apply(entry)?;
        Ok(applied)
    }

    /// Does what an entry does to resources and to passes.
    pub(crate) fn change(&mut self, entry: &Entry) -> Result<Applied, AllocError>
        requires { MayChange self.old entry.now }
        ensures done { IfOk result (λ a. HasDone a entry.now self.old self.new) }
        ensures rooms { IfOk result (λ a. NoRoomIsExact a self.old.resources entry.now) }
        ensures allots { IfOk result (λ a. AllotsAll a entry.now self.old.resources self.old.passes self.new.resources self.new.passes) }
        ensures rest { OnOk result (KeepsPadding self.old self.new) }
        ensures same { self.new ≡ record self.old { resources = self.new.resources; passes = self.new.passes } }
    {
        match entry {
            Entry::Defrag {
                id,
                pool,
                max_bytes,
                max_moves,
            } => {
                self.begin_defrag(*id, *pool, *max_bytes, *max_moves)?;
                Ok(Applied::Done)
            }
            Entry::Pass { defrag } => {
                self.begin_pass(*defrag)?;
                Ok(Applied::Done)
            }
            Entry::EndPass {
                defrag,
                ignored,
                destroyed,
            } => {
                self.end_pass(*defrag, ignored, destroyed)?;
                Ok(Applied::Done)
            }
            Entry::EndDefrag { defrag } => {
                self.end_defrag(*defrag);
                Ok(Applied::Done)
            }
            _ => self.change_resources(entry),
        }
    }
}
