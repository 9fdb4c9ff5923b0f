ghost use Rattle.std.specs.Prelude.{◌≡◌, ◌++◌, ◌%◌, OnOk, option_map};
ghost use Rattle.vk_cache_laws.specs.CachedPicks.{touch_of};
ghost use Rattle.vk_model.specs.Basics.{option_list};
ghost use Rattle.vk_model.specs.World.Ownership.{uses};
ghost use Rattle.vk_backing.specs.PassAllots.{StaysAllotted};
ghost use Rattle.vk_resources.specs.Allocating.{allotted};
ghost use Rattle.vk_cached_device.specs.Touching.{TouchesBy, TouchesEach, TouchesNamed};
ghost use Rattle.vk_cached_device.specs.LedLate.{IsNextLate, act_of};
ghost use Rattle.vk_cached_device.specs.Applies.{PicksLate};

use crate::device::CachedDevice;
use crate::steps::Touch;
use std::alloc::AllocError;
use vk_device::pick;
use vk_laws::{direct_runs_are_runs, picks_are_runs};
use vk_model::{Cmd, Entry, Scheduler};

impl<'a> CachedDevice<'a> {
    /// Runs pieces and copies parts of the open pass as the scheduler picks them, until it picks the
    /// entry that comes next; after each piece the caches of the queues do what it picks. The only error
    /// is want of memory, or of numbers where 2^64 - 1 pieces and parts are left.
    pub(crate) fn run_picked<S: Scheduler>(
        &mut self,
        entry: &'a Entry,
        sched: &mut S,
    ) -> Result<(), AllocError>
        requires { IsNextLate self.old entry.now }
        ensures picked { OnOk result (PicksLate S.answer S.next (S.held sched.old) entry.now self.old self.new (S.held sched.new)) }
        ensures allotted { OnOk result (allotted self.new.device.resources ≡ allotted self.old.device.resources) }
        ensures stays { OnOk result (StaysAllotted (allotted self.old.device.resources) self.old.device.passes (allotted self.new.device.resources) self.new.device.passes) }
        ensures failed { self.new.failed ≡ self.old.failed }
    {
        picks_are_runs();
        direct_runs_are_runs();
        let commands = self.device.waited(entry)?;
        loop {
            let pieces = self.device.offered_count();
            let parts = self.device.copies_left();
            if pieces >= u64::MAX - parts {
                return Err(AllocError);
            }
            let goes = self.device.may_go(commands);
            let picked = pick(pieces + parts, goes, sched);
            if picked < pieces {
                let piece = self.device.nth_offered(picked);
                let command = self.device.command(piece);
                self.run(piece);
                self.touch_named(command, sched);
            } else if picked - pieces < parts {
                let part = self.device.nth_copy(picked - pieces);
                self.copy_next(part);
            } else {
                return Ok(());
            }
        }
    }

    /// After a piece of a command the scheduler picks for each of the four queues what its cache does
    /// with the resources that the command uses.
    fn touch_named<S: Scheduler>(&mut self, command: &Cmd, sched: &mut S)
        ensures held { S.held sched.new ≡ S.next (S.next (S.next (S.next (S.held sched.old) 4) 4) 4) 4 }
        ensures touched { TouchesNamed S.answer S.next (S.held sched.old) command.now self.old self.new }
        ensures same { self.new ≡ record self.old { lags = self.new.lags } }
    {
        self.touch_by(0, command, sched);
        self.touch_by(1, command, sched);
        self.touch_by(2, command, sched);
        self.touch_by(3, command, sched);
    }

    /// The same for one queue.
    fn touch_by<S: Scheduler>(&mut self, queue: u32, command: &Cmd, sched: &mut S)
        ensures held { S.held sched.new ≡ S.next (S.held sched.old) 4 }
        ensures touched { TouchesBy (S.answer (S.held sched.old) 4 % 4) queue command.now self.old self.new }
        ensures same { self.new ≡ record self.old { lags = self.new.lags } }
    {
        let (first, second) = used(command);
        if let Some(act) = picked_touch(sched.pick(4) % 4) {
            self.touch_some(queue, first, act);
            self.touch_some(queue, second, act);
        }
    }

    /// The cache of a queue does something by itself with all bytes of a resource, where there is one.
    fn touch_some(&mut self, queue: u32, resource: Option<u32>, act: Touch)
        ensures touched { TouchesEach (act_of act) queue (option_list resource) self.old self.new }
        ensures same { self.new ≡ record self.old { lags = self.new.lags } }
    {
        if let Some(resource) = resource {
            self.let_touch(queue, resource, act);
        }
    }
}

/// What a cache does by an answer from 0 to 3.
fn picked_touch(answer: u64) -> Option<Touch>
    ensures { touch_of answer ≡ option_map act_of result }
{
    match answer {
        0 => None,
        1 => Some(Touch::WriteBack),
        2 => Some(Touch::Drop),
        _ => Some(Touch::Load),
    }
}

/// The resources that a clear or copy command uses, its source first.
fn used(command: &Cmd) -> (Option<u32>, Option<u32>)
    ensures { uses command.now ≡ option_list result.0 ++ option_list result.1 }
{
    match command {
        Cmd::Fill { buffer, .. } | Cmd::Update { buffer, .. } => (Some(*buffer), None),
        Cmd::Clear { image, .. } => (Some(*image), None),
        Cmd::Copy {
            source,
            destination,
            ..
        }
        | Cmd::CopyImage {
            source,
            destination,
            ..
        } => (Some(*source), Some(*destination)),
        Cmd::CopyIn { buffer, image, .. } => (Some(*buffer), Some(*image)),
        Cmd::CopyOut { image, buffer, .. } => (Some(*image), Some(*buffer)),
        _ => (None, None),
    }
}
