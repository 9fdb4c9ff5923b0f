ghost use Rattle.std.specs.Prelude.{◌≡◌, ◌⊎◌, ℕ, IfErr, IsTrue, OnErr, OnOk};
ghost use Rattle.vk_backing.specs.PassAllots.{StaysAllotted};
ghost use Rattle.vk_resources.specs.Allocating.{allotted};
ghost use Rattle.vk_device.specs.Led.{HasWritten};
ghost use Rattle.vk_device.specs.declared.applied.ApplyError.TheVariants.{Failed};
ghost use Rattle.vk_cached_device.specs.LedLate.{MayRunLate, HasRunLate, MayCopyLate, HasCopiedLate, HasTouchedLate, act_of};
ghost use Rattle.vk_cached_device.specs.Inner.{MaySettle, Settles, RunsPlain, CopiesPlain};

use crate::device::CachedDevice;
use vk_availability::{happen, make_late, write_back};
use vk_cache_laws::late_runs_go_on;
use vk_device::{ApplyError, Piece};
use vk_offers::offers_agree;

/// What the cache of a queue does by itself with bytes.
#[derive(Clone, Copy, PartialEq, Eq, Debug)]
pub enum Touch {
    /// It writes back those that it holds dirty.
    WriteBack,
    /// It drops copies.
    Drop,
    /// It loads those that it doesn't hold.
    Load,
}

impl<'a> CachedDevice<'a> {
    /// Memory catches up with what happens.
    pub(crate) fn settle(&mut self)
        requires { MaySettle self.old }
        ensures { Settles self.old self.new }
    {
        while let Some(event) = self.happenings.take_next() {
            happen(&mut self.lags, self.device.resources(), event);
        }
    }

    /// Runs a piece that may run next.
    pub(crate) fn run(&mut self, piece: Piece)
        requires { MayRunLate self.old piece }
        ensures ran { HasRunLate self.old self.new piece }
        ensures plain { RunsPlain self.old.device self.new.device piece }
        ensures failed { self.new.failed ≡ self.old.failed }
    {
        late_runs_go_on();
        offers_agree();
        let writer = self.writers[piece.command];
        let written = self.device.written(piece);
        make_late(&mut self.lags, self.device.resources(), written, writer);
        match self.device.step(piece) {
            Ok(()) => {}
            Err(_) => unreachable!(),
        }
        self.happenings.finish(piece);
        self.settle();
    }

    /// Runs a piece that may run next, and no other: its writes are the newest bytes then, and memory is
    /// behind by them until a dependency, wait or signal makes them available, or the queue's cache writes
    /// them back by itself. It takes no memory. After `NoMemory` in `apply` it only answers `Failed`.
    pub fn step(&mut self, piece: Piece) -> Result<(), ApplyError>
        requires { IsTrue self.old.failed ⊎ MayRunLate self.old piece }
        ensures ran { OnOk result (HasRunLate self.old self.new piece) }
        // Each byte that it wrote is the trace's, as its queue sees it.
        ensures written { OnOk result (HasWritten self.old.device self.new.device piece) }
        // Nothing of what is allocated changes.
        ensures stays { OnOk result (StaysAllotted (allotted self.old.device.resources) self.old.device.passes (allotted self.new.device.resources) self.new.device.passes) }
        ensures error { IfErr result (λ f. (f ≡ Failed) × IsTrue self.old.failed) }
        ensures failed { self.new.failed ≡ self.old.failed }
        ensures err { OnErr result (self.new ≡ self.old) }
    {
        if self.failed {
            return Err(ApplyError::Failed);
        }
        self.run(piece);
        Ok(())
    }

    /// Lets the cache of a queue do something by itself with all bytes of a resource. It takes no
    /// memory, and changes no other cache: where it writes back, memory catches up with what the queue
    /// wrote of the resource. Copies change nothing that anyone reads. After `NoMemory` in `apply` it
    /// only answers `Failed`.
    pub fn touch(&mut self, queue: u32, resource: u32, act: Touch) -> Result<(), ApplyError>
        ensures touched { OnOk result (HasTouchedLate self.old self.new (act_of act) queue resource) }
        ensures device { self.new.device ≡ self.old.device }
        ensures error { IfErr result (λ f. (f ≡ Failed) × IsTrue self.old.failed) }
        ensures failed { self.new.failed ≡ self.old.failed }
        ensures err { OnErr result (self.new ≡ self.old) }
    {
        if self.failed {
            return Err(ApplyError::Failed);
        }
        self.let_touch(queue, resource, act);
        Ok(())
    }

    /// The same where no entry has met `NoMemory`.
    pub(crate) fn let_touch(&mut self, queue: u32, resource: u32, act: Touch)
        ensures touched { HasTouchedLate self.old self.new (act_of act) queue resource }
        ensures same { self.new ≡ record self.old { lags = self.new.lags } }
    {
        late_runs_go_on();
        match act {
            Touch::WriteBack => {
                write_back(&mut self.lags, resource, queue);
            }
            Touch::Drop | Touch::Load => {}
        }
    }

    /// Copies a part of the open pass that is left.
    pub(crate) fn copy_next(&mut self, part: u64)
        requires { MayCopyLate self.old part }
        ensures copied { HasCopiedLate self.old self.new part }
        ensures plain { CopiesPlain self.old.device self.new.device part }
        ensures failed { self.new.failed ≡ self.old.failed }
    {
        late_runs_go_on();
        match self.device.copy(part) {
            Ok(()) => {}
            Err(_) => unreachable!(),
        }
    }

    /// Copies a part of the open pass that is left, and no other: memory is behind as before. It takes no
    /// memory. After `NoMemory` in `apply` it only answers `Failed`.
    pub fn copy(&mut self, part: u64) -> Result<(), ApplyError>
        requires { IsTrue self.old.failed ⊎ MayCopyLate self.old part }
        ensures copied { OnOk result (HasCopiedLate self.old self.new part) }
        // Nothing of what is allocated changes.
        ensures stays { OnOk result (StaysAllotted (allotted self.old.device.resources) self.old.device.passes (allotted self.new.device.resources) self.new.device.passes) }
        ensures error { IfErr result (λ f. (f ≡ Failed) × IsTrue self.old.failed) }
        ensures failed { self.new.failed ≡ self.old.failed }
        ensures err { OnErr result (self.new ≡ self.old) }
    {
        if self.failed {
            return Err(ApplyError::Failed);
        }
        self.copy_next(part);
        Ok(())
    }
}
