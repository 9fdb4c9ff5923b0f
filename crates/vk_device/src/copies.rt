ghost use Rattle.std.specs.Prelude.{◌≡◌, ◌⊎◌, ◌<◌, List, length, Some, IfErr, IfOk, IsTrue, OnErr, OnOk, slice_get};
ghost use Rattle.vk_model.specs.declared.entry.Entry.{Entry};
ghost use Rattle.vk_model.specs.Run.Runs.{Step, Stage};
ghost use Rattle.vk_model.specs.Run.Runs.{parts_left as stage_parts};
ghost use Rattle.vk_backing.specs.Passing.{parts_left};
ghost use Rattle.vk_backing.specs.PassAllots.{StaysAllotted};
ghost use Rattle.vk_resources.specs.Allocating.{allotted};
ghost use Rattle.vk_device.specs.PassEnds.{PassesEndFrom};
ghost use Rattle.vk_device.specs.Led.{Led, MayCopy, HasCopied, CopiesOnly};
ghost use Rattle.vk_device.specs.declared.applied.ApplyError.TheVariants.{Failed};

use crate::applied::ApplyError;
use crate::device::Device;
use std::alloc::AllocError;
use vk_laws::direct_runs_go_on;
use vk_model::passes_of_pools_end;

impl<'a> Device<'a> {
    /// Copies a part of the open pass that is left.
    pub(crate) fn copy_next(&mut self, part: u64)
        requires { MayCopy self.old part }
        ensures copied { HasCopied self.old self.new part }
        ensures changed { CopiesOnly self.old self.new part }
        ensures allotted { allotted self.new.resources ≡ allotted self.old.resources }
        ensures stays { StaysAllotted (allotted self.old.resources) self.old.passes (allotted self.new.resources) self.new.passes }
        ensures same { self.new ≡ record self.old { resources = self.new.resources; passes = self.new.passes } }
    {
        direct_runs_go_on();
        self.resources.copy_part(&mut self.passes, part);
    }

    /// How many parts of the open pass are left to be copied; none where no pass is open. Each resource
    /// that moves has parts of 4,096 bytes, and one of what is left. They are counted and not listed,
    /// since a pass may move many resources.
    pub fn copies_left(&self) -> u64
        ensures counted { result ≡ length (parts_left self.now.passes) }
        ensures named { (t : List Entry) (steps : List Step) (s : Stage) → Led t steps s self.now → result ≡ length (stage_parts s) }
    {
        self.passes.parts_left()
    }

    /// A part of the open pass that is left, by its place among those that are.
    pub fn nth_copy(&self, place: u64) -> u64
        requires { place < length (parts_left self.now.passes) }
        ensures { slice_get (parts_left self.now.passes) place ≡ Some result }
    {
        self.passes.nth_part(place)
    }

    /// The parts of the open pass that are left, rising. The only error is want of memory.
    pub fn copies(&self) -> Result<Vec<u64>, AllocError>
        ensures { IfOk result (λ parts. parts.items ≡ parts_left self.now.passes) }
    {
        let mut parts = Vec::new(self.alloc);
        for place in 0..self.copies_left() {
            parts.push(self.nth_copy(place))?;
        }
        Ok(parts)
    }

    /// Copies a part of the open pass that is left, and no other: no byte of a resource changes, and
    /// of memory only the bytes of the part at the place that is reserved for what moves. It takes no
    /// memory. After `NoMemory` in `apply` it only answers `Failed`.
    pub fn copy(&mut self, part: u64) -> Result<(), ApplyError>
        requires { IsTrue self.old.failed ⊎ MayCopy self.old part }
        ensures copied { OnOk result (HasCopied self.old self.new part) }
        ensures changed { OnOk result (CopiesOnly self.old self.new part) }
        ensures allotted { allotted self.new.resources ≡ allotted self.old.resources }
        ensures stays { StaysAllotted (allotted self.old.resources) self.old.passes (allotted self.new.resources) self.new.passes }
        ensures offers { self.new.offers ≡ self.old.offers }
        ensures error { IfErr result (λ f. (f ≡ Failed) × IsTrue self.old.failed) }
        ensures failed { self.new.failed ≡ self.old.failed }
        ensures err { OnErr result (self.new ≡ self.old) }
    {
        if self.failed {
            return Err(ApplyError::Failed);
        }
        self.copy_next(part);
        Ok(())
    }
    /// While no resource is made in a pool, its passes come to an end: of a pool in which nothing moves
    /// now, the sum of the ranks of its resources with the moves that are made never rises, and at most
    /// as many passes end with a move that was made as it has resources times places of 16 bytes,
    /// whichever entries are applied. It does nothing.
    pub fn passes_end(&self)
        ensures { PassesEndFrom self.now.resources }
    {
        passes_of_pools_end();
        self.resources.are_resources();
    }
}
