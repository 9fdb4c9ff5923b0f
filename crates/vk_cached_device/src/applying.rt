ghost use Rattle.std.specs.Prelude.{◌≡◌, ◌⊎◌, IfErr, IfOk, IsTrue, OnErr, true, false, if◌then◌else◌};
ghost use Rattle.vk_device.specs.declared.applied.ApplyError.TheVariants.{NoMemory, Failed};
ghost use Rattle.vk_resources.specs.Allocating.{NoRoomIsExact};
ghost use Rattle.vk_device.specs.Passes.{AllotsAll};
ghost use Rattle.vk_cached_device.specs.LedLate.{IsNextLate};
ghost use Rattle.vk_cached_device.specs.Applies.{AppliesLate, ReadsLate};

use crate::device::CachedDevice;
use vk_device::{Applied, ApplyError};
use vk_laws::{direct_runs_are_runs, picks_are_runs};
use vk_model::{Entry, Scheduler};

impl<'a> CachedDevice<'a> {
    /// Applies an entry, and leaves it to the caller to keep that it failed.
    fn apply_entry<S: Scheduler>(
        &mut self,
        entry: &'a Entry,
        sched: &mut S,
    ) -> Result<Applied, ApplyError>
        requires { IsNextLate self.old entry.now }
        ensures applied { IfOk result (λ a. AppliesLate S.answer S.next a (S.held sched.old) entry.now self.old self.new (S.held sched.new)) }
        ensures reads { IfOk result (λ a. ReadsLate a entry.now self.old) }
        ensures rooms { IfOk result (λ a. NoRoomIsExact a self.old.device.resources entry.now) }
        ensures allots { IfOk result (λ a. AllotsAll a entry.now self.old.device.resources self.old.device.passes self.new.device.resources self.new.device.passes) }
        ensures failed { self.new.failed ≡ self.old.failed }
        ensures error { IfErr result (λ f. f ≡ NoMemory) }
    {
        picks_are_runs();
        direct_runs_are_runs();
        self.run_picked(entry, sched)?;
        let applied = self.apply_next(entry, sched)?;
        Ok(applied)
    }

    /// Applies one entry, as `Device::apply` does: pieces run and parts are copied before it as the
    /// scheduler picks them, and after each piece the caches of the queues do what it picks. All memory
    /// for late bytes is taken here. Dependencies, waits and signals happen as soon as all pieces of
    /// commands before them have run; a pass writes back what it moves. The entries so far with this one
    /// are to break no rule. After `NoMemory` it only answers `Failed`.
    pub fn apply<S: Scheduler>(
        &mut self,
        entry: &'a Entry,
        sched: &mut S,
    ) -> Result<Applied, ApplyError>
        requires { IsTrue self.old.failed ⊎ IsNextLate self.old entry.now }
        ensures applied { IfOk result (λ a. AppliesLate S.answer S.next a (S.held sched.old) entry.now self.old self.new (S.held sched.new)) }
        ensures reads { IfOk result (λ a. ReadsLate a entry.now self.old) }
        // It finds no room where the definitions say so of what is allocated on the device, and changes of that
        // what they say.
        ensures rooms { IfOk result (λ a. NoRoomIsExact a self.old.device.resources entry.now) }
        ensures allots { IfOk result (λ a. AllotsAll a entry.now self.old.device.resources self.old.device.passes self.new.device.resources self.new.device.passes) }
        ensures works { IfOk result (λ a. (self.old.failed ≡ false) × (self.new.failed ≡ false)) }
        ensures error { IfErr result (λ f. f ≡ (if self.old.failed then Failed else NoMemory)) }
        ensures failed { OnErr result (self.new.failed ≡ true) }
        // A device that has failed stays as it is, and the scheduler isn't asked.
        ensures stays { IsTrue self.old.failed → (self.new ≡ self.old) × (S.held sched.new ≡ S.held sched.old) }
    {
        if self.failed {
            return Err(ApplyError::Failed);
        }
        let applied = self.apply_entry(entry, sched);
        if applied.is_err() {
            self.failed = true;
        }
        applied
    }
}
