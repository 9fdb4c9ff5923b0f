ghost use Rattle.std.specs.Prelude.{◌≡◌, ◌+◌, List, false, nat_lt, length, IfErr, IfOk, OnOk};
ghost use Rattle.vk_model.specs.declared.entry.Entry.{Entry as AnyEntry};
ghost use Rattle.vk_model.specs.Run.Runs.{Step, Stage, offered, parts_left};
ghost use Rattle.vk_device.specs.Led.{Led};
ghost use Rattle.vk_resources.specs.Done.{HoldsNoneNew};
ghost use Rattle.vk_model.specs.Trace.PointViews.{point_of};
ghost use Rattle.vk_device.specs.declared.applied.ApplyError.TheVariants.{NoMemory};
ghost use Rattle.vk_resources.specs.Allocating.{NoRoomIsExact};
ghost use Rattle.vk_device.specs.Passes.{AllotsAll};
ghost use Rattle.vk_cached_device.specs.Applies.{ReadsLate};
ghost use Rattle.vk_cached_device.specs.Inner.{MayGoNext, MayAdvance, AddsWriter, Advances, Follows, CatchesUpMoving, CountsPieces, CommandIsReady, AppliesNext, PlainNext};

use crate::device::CachedDevice;
use crate::directly::Directly;
use std::alloc::AllocError;
use vk_cache_laws::late_runs_go_on;
use vk_device::{Applied, ApplyError};
use vk_lag::{Due, Writer};
use vk_laws::{commands_name_live, defined_runs_follow, direct_runs_are_runs};
use vk_model::{Entry, Point, Scheduler, growth_keeps, no_fault_is_sound, order_is_structured};
use vk_offers::{nothing_happens, points_are_on_queues, points_come_next, run_at};
use vk_queues::points_after;
use vk_resources::Work;

impl<'a> CachedDevice<'a> {
    /// In how many pieces the command of a point is run, if it is run in pieces.
    fn pieces(&self, point: &Point<'a>) -> Result<u64, AllocError>
        requires { CommandIsReady self.now.device (point_of point.now) }
        ensures { IfOk result (CountsPieces self.now.device (point_of point.now)) }
    {
        let Some(command) = run_at(point) else {
            return Ok(0);
        };
        let work = Work::new(self.alloc, command)?;
        let pieces = self.device.resources().pieces(&work);
        Ok(pieces)
    }

    /// The command of a point that comes next is one of those that were started, if it is run in pieces.
    /// The only error is want of memory, or of numbers.
    fn add_writer(&mut self, point: &Point<'a>) -> Result<(), AllocError>
        ensures adds { OnOk result (AddsWriter self.old.happenings (point_of point.now) self.old.writers.items self.new.writers.items) }
        ensures same { self.new ≡ record self.old { writers = self.new.writers } }
    {
        let Some(_) = run_at(point) else {
            return Ok(());
        };
        let Ok(node) = u32::try_from(self.happenings.node_count()) else {
            return Err(AllocError);
        };
        let queue = point.queue;
        self.writers.push(Writer { queue, node })?;
        Ok(())
    }

    /// The points that come with an entry have come, and nothing that happens then is taken yet.
    fn advance(&mut self, entry: &'a Entry) -> Result<(), AllocError>
        requires { MayAdvance self.old entry.now }
        ensures advances { OnOk result (Advances self.old self.new entry.now) }
        ensures failed { self.new.failed ≡ self.old.failed }
    {
        points_come_next();
        points_are_on_queues();
        nothing_happens();
        order_is_structured();
        no_fault_is_sound();
        direct_runs_are_runs();
        defined_runs_follow();
        commands_name_live();
        growth_keeps();
        let points = points_after(self.alloc, &mut self.waiting, self.count, entry)?;
        for point in points.as_slice() {
            let pieces = self.pieces(point)?;
            self.add_writer(point)?;
            self.happenings.add(point, pieces)?;
        }
        if self.happenings.node_count() > u32::MAX as usize {
            return Err(AllocError);
        }
        self.count += 1;
        Ok(())
    }

    /// There is room for the late bytes of what an entry has made, those of what it has ended are
    /// forgotten, and memory has caught up with what a pass moves.
    fn follow(&mut self, entry: &Entry) -> Result<(), AllocError>
        ensures follows { OnOk result (Follows entry.now self.old.device self.old.lags self.new.lags) }
        ensures same { self.new ≡ record self.old { lags = self.new.lags } }
    {
        match entry {
            Entry::Buffer { id, .. } | Entry::Image { id, .. } => match self.device.spot(*id) {
                Some(spot) => self.lags.add(*id, spot.size),
                None => Ok(()),
            },
            Entry::Destroy { resource } => {
                self.lags.remove(*resource);
                Ok(())
            }
            Entry::Pass { .. } => {
                self.catch_up_moving();
                Ok(())
            }
            Entry::EndPass { destroyed, .. } => {
                for id in destroyed.as_slice() {
                    self.lags.remove(*id);
                }
                Ok(())
            }
            _ => Ok(()),
        }
    }

    /// Memory catches up with all that the open pass moves.
    fn catch_up_moving(&mut self)
        ensures follows { CatchesUpMoving self.old.device.passes.moving self.old.lags self.new.lags }
        ensures same { self.new ≡ record self.old { lags = self.new.lags } }
    {
        for index in 0..self.device.passes().moves() {
            let id = self.device.passes().nth_id(index);
            self.lags.catch_up_whole(id, Due::All);
        }
    }

    /// Whether a piece may run next, or a part may be copied.
    fn has_steps(&self) -> bool
        ensures { (t : List AnyEntry) (steps : List Step) (s : Stage) → Led t steps s self.now.device → result ≡ nat_lt 0 (length (offered s.front.past s.done) + length (parts_left s)) }
    {
        if self.device.offered_count() > 0 {
            return true;
        }
        self.device.copies_left() > 0
    }

    /// Applies the next entry, which may be applied, at once, to the device with the newest bytes.
    fn apply_plain<S: Scheduler>(
        &mut self,
        entry: &'a Entry,
        sched: &mut S,
    ) -> Result<Applied, ApplyError>
        requires { MayGoNext self.old entry.now }
        ensures applied { IfOk result (λ a. PlainNext S.answer S.next a (S.held sched.old) entry.now self.old.device self.new.device (S.held sched.new)) }
        ensures bare { OnOk result (HoldsNoneNew self.old.device.resources self.new.device.resources) }
        ensures reads { IfOk result (λ a. ReadsLate a entry.now self.old) }
        ensures rooms { IfOk result (λ a. NoRoomIsExact a self.old.device.resources entry.now) }
        ensures allots { IfOk result (λ a. AllotsAll a entry.now self.old.device.resources self.old.device.passes self.new.device.resources self.new.device.passes) }
        ensures works { OnOk result (self.new.device.failed ≡ false) }
        ensures same { self.new ≡ record self.old { device = self.new.device } }
        ensures error { IfErr result (λ f. f ≡ NoMemory) }
    {
        let last = self.has_steps();
        let mut directly = Directly { last, rest: sched };
        let applied = self.device.apply(entry, &mut directly)?;
        Ok(applied)
    }

    /// Applies the next entry, which may be applied, at once.
    pub(crate) fn apply_next<S: Scheduler>(
        &mut self,
        entry: &'a Entry,
        sched: &mut S,
    ) -> Result<Applied, ApplyError>
        requires { MayGoNext self.old entry.now }
        ensures applied { IfOk result (λ a. AppliesNext S.answer S.next a (S.held sched.old) entry.now self.old self.new (S.held sched.new)) }
        ensures reads { IfOk result (λ a. ReadsLate a entry.now self.old) }
        ensures rooms { IfOk result (λ a. NoRoomIsExact a self.old.device.resources entry.now) }
        ensures allots { IfOk result (λ a. AllotsAll a entry.now self.old.device.resources self.old.device.passes self.new.device.resources self.new.device.passes) }
        ensures failed { self.new.failed ≡ self.old.failed }
        ensures error { IfErr result (λ f. f ≡ NoMemory) }
    {
        late_runs_go_on();
        no_fault_is_sound();
        direct_runs_are_runs();
        defined_runs_follow();
        match self.apply_plain(entry, sched)? {
            Applied::NoRoom => Ok(Applied::NoRoom),
            applied => {
                self.follow(entry)?;
                self.advance(entry)?;
                self.settle();
                Ok(applied)
            }
        }
    }
}
