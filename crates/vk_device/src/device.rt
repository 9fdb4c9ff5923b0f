ghost use Rattle.std.specs.Prelude.{◌≡◌, ℕ, ◌⊎◌, ◌++◌, ◌∷◌, ◌+◌, ◌≤◌, [], List, length, map, option_map, true, false, IfOk, IfSome, IfErr, IsTrue, OnErr, OnOk, if◌then◌else◌};
ghost use Rattle.vk_model.specs.Trace.Point.{Past};
ghost use Rattle.vk_model.specs.Run.Runs.{Step, Stage, Apply, applied, offered};
ghost use Rattle.vk_memory.specs.MemoryState.{IsLive, region_of};
ghost use Rattle.vk_heap.specs.Region.{piece};
ghost use Rattle.vk_resources.specs.Held.{placed, spot_of, IsSpotIn};
ghost use Rattle.vk_resources.specs.Allocating.{NoRoomIsExact};
ghost use Rattle.vk_resources.specs.Done.{HoldsNoneNew};
ghost use Rattle.vk_backing.specs.PassAllots.{StaysAllotted};
ghost use Rattle.vk_device.specs.Passes.{AllotsAll, parts_begun};
ghost use Rattle.vk_offers.specs.IsOffers.{name_of};
ghost use Rattle.vk_sync.specs.Ready.{ready};
ghost use Rattle.vk_model.specs.Trace.PointViews.{point_of};
ghost use Rattle.std.specs.Prelude.{◌<◌, Contains, Some, slice_get};

use crate::applied::ApplyError;
use crate::asking::{ask_caches, pick};
use std::alloc::{AllocError, Global};
use vk_backing::Passes;
use vk_laws::{
    commands_name_live, defined_runs_follow, direct_runs_are_fresh, direct_runs_are_runs,
    direct_runs_go_on, new_memory_holds_anything, offered_are_pieces, picks_are_runs,
    pieces_stay_off_passes,
};
use vk_model::{
    Config, Entry, Point, Scheduler, growth_keeps, no_fault_is_sound, order_is_structured,
    pieces_are_byte_writes,
};
use vk_offers::{Offers, Piece, points_come_next, run_at};
use vk_queues::{Waiting, points_after};
use vk_resources::{Applied, Resources, Spot, Work};

/// A device with its memory and its queues. A batch waits for its semaphores; the commands of one
/// that was started run in pieces, in any order that the rules allow: a scheduler picks it.
#[derive(Drop)]
pub struct Device<'a> {
    pub(crate) alloc: Global,
    /// Its buffers and their memory.
    pub(crate) resources: Resources,
    /// The defragmentations that have begun.
    pub(crate) passes: Passes,
    /// The batches that were submitted and not started.
    waiting: Waiting<'a>,
    /// The commands that were started, and which of their pieces have run.
    pub(crate) offers: Offers<'a>,
    /// Those commands, made ready to be run in pieces.
    pub(crate) works: Vec<Work<'a>>,
    /// How many entries were applied.
    pub(crate) count: usize,
    /// Whether an entry has met `NoMemory`.
    pub(crate) failed: bool,
}

impl<'a> Device<'a> {
    ghost use Rattle.vk_model.specs.Run.Runs.{start};
    ghost use Rattle.vk_device.specs.Led.{Led, IsBefore, IsNext, MayRun, HasRun, HasWritten, HasChanged, RunBecomes, KeepsMemory, KeepsPadding, Applies, ChangesBytes, Reads};
    ghost use Rattle.vk_backing.specs.PassAllots.{FulfilsAll};
    ghost use Rattle.vk_model.specs.Memory.Allocations.{nothing_allocated};
    ghost use Rattle.vk_device.specs.Coming.{PrepareReady};
    ghost use Rattle.vk_device.specs.Empty.{nothing_backed, none_begun};
    ghost use Rattle.vk_device.specs.Inner.Ready.{Prepares, Picks, HostDone, AdvanceReady, Touches, Rests, Between, PicksBecome};
    ghost use Rattle.vk_resources.specs.Allocating.{allotted};
    ghost use Rattle.vk_device.specs.declared.applied.ApplyError.TheVariants.{NoMemory, Failed};

    /// A device with heaps of these sizes, without resources. It takes no memory.
    pub fn new(alloc: Global, config: Config) -> Device<'a>
        ensures led { (t : List Entry) → Led t [] (start t) result }
        ensures empty { result.resources.memory ≡ record { sizes = config; objects = [] } }
        ensures bare { result.resources.backed ≡ nothing_backed }
        ensures passes { result.passes ≡ none_begun }
        // What is allocated from here on follows by `allots` of `apply`, and stays over all else.
        ensures allocated { FulfilsAll (allotted result.resources) result.passes (nothing_allocated config) }
        ensures works { result.failed ≡ false }
    {
        direct_runs_go_on();
        Device {
            alloc,
            resources: Resources::new(alloc, config),
            passes: Passes::new(alloc),
            waiting: Waiting::new(alloc),
            offers: Offers::new(alloc),
            works: Vec::new(alloc),
            count: 0,
            failed: false,
        }
    }

    /// Runs a piece that may run next.
    fn run(&mut self, piece: Piece)
        requires { MayRun self.old piece }
        ensures ran { HasRun self.old self.new piece }
        ensures written { HasWritten self.old self.new piece }
        ensures changed { HasChanged self.old self.new piece }
        ensures becomes { RunBecomes self.old self.new piece }
        ensures rest { KeepsMemory self.old self.new piece }
        ensures placed { self.new.resources.resources ≡ self.old.resources.resources }
        ensures shapes { self.new.resources.shapes ≡ self.old.resources.shapes }
        ensures allotted { allotted self.new.resources ≡ allotted self.old.resources }
        ensures passes { self.new.passes ≡ self.old.passes }
        ensures failed { self.new.failed ≡ self.old.failed }
    {
        direct_runs_go_on();
        direct_runs_are_runs();
        direct_runs_are_fresh();
        defined_runs_follow();
        offered_are_pieces();
        no_fault_is_sound();
        commands_name_live();
        pieces_are_byte_writes();
        pieces_stay_off_passes();
        self.resources.are_resources();
        self.resources
            .run_piece(&self.works[piece.command], piece.index);
        self.offers.finish(piece);
    }

    /// Makes the command of a point ready, if it is run in pieces, and answers how many they are.
    fn prepare(&mut self, point: &Point<'a>) -> Result<u64, AllocError>
        requires { PrepareReady self.old (point_of point.now) }
        ensures prepared { IfOk result (λ total. Prepares self.old self.new (point_of point.now) total) }
        ensures resources { self.new.resources ≡ self.old.resources }
        ensures passes { self.new.passes ≡ self.old.passes }
        ensures failed { self.new.failed ≡ self.old.failed }
    {
        let Some(command) = run_at(point) else {
            return Ok(0);
        };
        let work = Work::new(self.alloc, command)?;
        let pieces = self.resources.pieces(&work);
        self.works.push(work)?;
        Ok(pieces)
    }

    /// Runs pieces and copies parts of the open pass as the scheduler picks them, until it picks the
    /// entry that comes next. It is asked where it has a choice. The only error is want of memory, or
    /// of numbers where 2^64 - 1 pieces and parts are left.
    fn run_picked<S: Scheduler>(
        &mut self,
        entry: &'a Entry,
        sched: &mut S,
    ) -> Result<(), AllocError>
        requires { IsNext self.old entry.now }
        ensures picked { OnOk result ((t : List Entry) (steps : List Step) (s : Stage) (xs : List Entry) → IsBefore t steps s entry.now xs self.old
            → Picks S.answer S.next t steps s (S.held sched.old) entry.now self.new (S.held sched.new)) }
        ensures allotted { allotted self.new.resources ≡ allotted self.old.resources }
        ensures stays { StaysAllotted (allotted self.old.resources) self.old.passes (allotted self.new.resources) self.new.passes }
        ensures becomes { OnOk result ((t : List Entry) (steps : List Step) (s : Stage) (xs : List Entry) → IsBefore t steps s entry.now xs self.old
            → PicksBecome S.answer S.next s (S.held sched.old) entry.now self.old self.new) }
        ensures between { OnOk result (Between self.old self.new) }
        ensures failed { self.new.failed ≡ self.old.failed }
    {
        picks_are_runs();
        direct_runs_are_runs();
        let commands = self.waited(entry)?;
        loop {
            let pieces = self.offers.count();
            let parts = self.passes.parts_left();
            if pieces >= u64::MAX - parts {
                return Err(AllocError);
            }
            let goes = self.may_go(commands);
            let picked = pick(pieces + parts, goes, sched);
            if picked < pieces {
                let piece = self.offers.nth(picked);
                self.run(piece);
                ask_caches(sched);
            } else if picked - pieces < parts {
                let part = self.passes.nth_part(picked - pieces);
                self.copy_next(part);
            } else {
                return Ok(());
            }
        }
    }

    /// Just before an entry asks the scheduler for each atom of the buffer in cached memory that the
    /// host accesses by it, in rising order: 1, modulo 2, and the host's cache takes the atom up or gives
    /// it back. The only error is want of memory.
    fn touch<S: Scheduler>(&mut self, entry: &'a Entry, sched: &mut S) -> Result<(), AllocError>
        requires { IsNext self.old entry.now }
        ensures touched { OnOk result ((t : List Entry) (steps : List Step) (s : Stage) (xs : List Entry) → IsBefore t steps s entry.now xs self.old
            → Touches S.answer S.next s.front.past entry.now (S.held sched.old) self.old.resources self.new.resources (S.held sched.new)) }
        ensures same { self.new ≡ record self.old { resources = self.new.resources } }
        ensures allotted { allotted self.new.resources ≡ allotted self.old.resources }
        ensures rests { OnOk result (Rests self.old.resources self.new.resources) }
    {
        no_fault_is_sound();
        direct_runs_are_runs();
        defined_runs_follow();
        let atoms = self.resources.atoms(entry);
        for atom in 0..atoms {
            if sched.pick(2) % 2 == 1 {
                self.resources.turn_over(entry, atom)?;
            }
        }
        Ok(())
    }

    /// The points that come with an entry have come: its own, and those of the batches that are
    /// started then.
    fn advance(&mut self, entry: &'a Entry) -> Result<(), AllocError>
        requires { AdvanceReady self.old entry.now }
        ensures advanced { OnOk result ((t : List Entry) (steps : List Step) (s : Stage) (xs : List Entry) (atoms : List ℕ) → HostDone t steps s entry.now xs atoms self.old
            → Led t (steps ++ Apply atoms (parts_begun self.new.passes entry.now) ∷ []) (applied s (parts_begun self.new.passes entry.now) entry.now xs) self.new) }
        ensures resources { OnOk result (self.new.resources ≡ self.old.resources) }
        ensures passes { OnOk result (self.new.passes ≡ self.old.passes) }
        ensures failed { self.new.failed ≡ self.old.failed }
    {
        points_come_next();
        order_is_structured();
        no_fault_is_sound();
        direct_runs_are_runs();
        defined_runs_follow();
        commands_name_live();
        growth_keeps();
        let points = points_after(self.alloc, &mut self.waiting, self.count, entry)?;
        self.works.reserve(points.len())?;
        for point in points.as_slice() {
            let pieces = self.prepare(point)?;
            self.offers.add(point, pieces)?;
        }
        self.count += 1;
        Ok(())
    }

    /// Applies an entry, and leaves it to the caller to keep that it failed.
    fn apply_entry<S: Scheduler>(
        &mut self,
        entry: &'a Entry,
        sched: &mut S,
    ) -> Result<Applied, ApplyError>
        requires { IsNext self.old entry.now }
        ensures applied { IfOk result (λ a. (t : List Entry) (steps : List Step) (s : Stage) (xs : List Entry) → IsBefore t steps s entry.now xs self.old
            → Applies S.answer S.next a t steps s (S.held sched.old) entry.now xs self.new (S.held sched.new)) }
        ensures reads { IfOk result (λ a. (t : List Entry) (steps : List Step) (s : Stage) (xs : List Entry) → IsBefore t steps s entry.now xs self.old → Reads a s entry.now) }
        ensures rooms { IfOk result (λ a. NoRoomIsExact a self.old.resources entry.now) }
        ensures allots { IfOk result (λ a. AllotsAll a entry.now self.old.resources self.old.passes self.new.resources self.new.passes) }
        ensures bytes { IfOk result (λ a. (t : List Entry) (steps : List Step) (s : Stage) (xs : List Entry) → IsBefore t steps s entry.now xs self.old
            → ChangesBytes S.answer S.next a s (S.held sched.old) entry.now xs self.old self.new) }
        ensures rest { OnOk result (KeepsPadding self.old self.new) }
        ensures bare { OnOk result (HoldsNoneNew self.old.resources self.new.resources) }
        ensures failed { self.new.failed ≡ self.old.failed }
        ensures error { IfErr result (λ f. f ≡ NoMemory) }
    {
        direct_runs_go_on();
        direct_runs_are_fresh();
        new_memory_holds_anything();
        picks_are_runs();
        no_fault_is_sound();
        direct_runs_are_runs();
        defined_runs_follow();
        self.run_picked(entry, sched)?;
        self.touch(entry, sched)?;
        match self.change(entry)? {
            Applied::NoRoom => Ok(Applied::NoRoom),
            applied => {
                self.advance(entry)?;
                Ok(applied)
            }
        }
    }

    /// Applies one entry. First pieces run, as the scheduler picks them, until it picks the entry: it
    /// is asked where it has two options or more, which are the pieces that may run next, in reference
    /// order, then the parts of the open pass that are left to be copied, and then the entry, where it
    /// may be applied; and then for each atom of a buffer in memory
    /// of type 2 that the host accesses by it. What the entry allocates is placed, what it
    /// reads is answered, and the batches that can be started with it are. The entries so far with
    /// this one are to break no rule. `NoRoom` comes exactly where the memory object that the entry
    /// asks for cannot be made. After `NoMemory` it only answers `Failed`.
    pub fn apply<S: Scheduler>(
        &mut self,
        entry: &'a Entry,
        sched: &mut S,
    ) -> Result<Applied, ApplyError>
        requires { IsTrue self.old.failed ⊎ IsNext self.old entry.now }
        ensures applied { IfOk result (λ a. (t : List Entry) (steps : List Step) (s : Stage) (xs : List Entry) → IsBefore t steps s entry.now xs self.old
            → Applies S.answer S.next a t steps s (S.held sched.old) entry.now xs self.new (S.held sched.new)) }
        ensures reads { IfOk result (λ a. (t : List Entry) (steps : List Step) (s : Stage) (xs : List Entry) → IsBefore t steps s entry.now xs self.old → Reads a s entry.now) }
        ensures rooms { IfOk result (λ a. NoRoomIsExact a self.old.resources entry.now) }
        ensures allots { IfOk result (λ a. AllotsAll a entry.now self.old.resources self.old.passes self.new.resources self.new.passes) }
        // Bytes change by the steps that were picked and by the entry, and nothing runs early.
        ensures bytes { IfOk result (λ a. (t : List Entry) (steps : List Step) (s : Stage) (xs : List Entry) → IsBefore t steps s entry.now xs self.old
            → ChangesBytes S.answer S.next a s (S.held sched.old) entry.now xs self.old self.new) }
        // Of memory only bytes of resources change, and of places that are reserved in the open pass.
        ensures rest { OnOk result (KeepsPadding self.old self.new) }
        // The host's cache holds nothing of what gets a place.
        ensures bare { OnOk result (HoldsNoneNew self.old.resources self.new.resources) }
        ensures works { IfOk result (λ a. (self.old.failed ≡ false) × (self.new.failed ≡ false)) }
        ensures error { IfErr result (λ f. f ≡ (if self.old.failed then Failed else NoMemory)) }
        ensures failed { OnErr result (self.new.failed ≡ true) }
        // A device that has failed stays as it is, and the scheduler isn't asked.
        ensures stays { IsTrue self.old.failed → (self.new ≡ self.old) × (S.held sched.new ≡ S.held sched.old) }
    {
        no_fault_is_sound();
        direct_runs_are_runs();
        defined_runs_follow();
        if self.failed {
            return Err(ApplyError::Failed);
        }
        let applied = self.apply_entry(entry, sched);
        if applied.is_err() {
            self.failed = true;
        }
        applied
    }

    /// How many pieces may run next. It takes no memory.
    pub fn offered_count(&self) -> u64
        ensures named { (t : List Entry) (steps : List Step) (s : Stage) → Led t steps s self.now → result ≡ length (offered s.front.past s.done) }
        ensures ready { result ≡ length (ready self.now.offers.ready) }
    {
        self.offers.count()
    }

    /// A piece that may run next, by its place in reference order. It takes no memory.
    pub fn nth_offered(&self, place: u64) -> Piece
        requires { place < length (ready self.now.offers.ready) }
        ensures named { (t : List Entry) (steps : List Step) (s : Stage) → Led t steps s self.now → slice_get (offered s.front.past s.done) place ≡ Some (name_of s.front.past result) }
        // It is one of those that `step` takes.
        ensures ready { Contains (ready self.now.offers.ready) result }
    {
        self.offers.nth(place)
    }

    /// The pieces that may run next, in reference order, as a list. The only error is want of memory.
    pub fn offered(&self) -> Result<Vec<Piece>, AllocError>
        ensures named { IfOk result (λ pieces. (t : List Entry) (steps : List Step) (s : Stage) → Led t steps s self.now → map (name_of s.front.past) pieces.items ≡ offered s.front.past s.done) }
        // They are those that `step` takes.
        ensures ready { IfOk result (λ pieces. pieces.items ≡ ready self.now.offers.ready) }
    {
        self.offers.offered()
    }

    /// Runs a piece that may run next, and no other: each byte that it has written holds what the trace
    /// means there after the piece's command, where that is defined. It takes no memory. After `NoMemory` in `apply`
    /// it only answers `Failed`.
    pub fn step(&mut self, piece: Piece) -> Result<(), ApplyError>
        requires { IsTrue self.old.failed ⊎ MayRun self.old piece }
        ensures ran { OnOk result (HasRun self.old self.new piece) }
        ensures written { OnOk result (HasWritten self.old self.new piece) }
        ensures changed { OnOk result (HasChanged self.old self.new piece) }
        ensures becomes { OnOk result (RunBecomes self.old self.new piece) }
        // Resources lie where they lay.
        ensures placed { self.new.resources.resources ≡ self.old.resources.resources }
        ensures shapes { self.new.resources.shapes ≡ self.old.resources.shapes }
        // Of all memory only the bytes that it writes change, also where no resource lies.
        ensures rest { OnOk result (KeepsMemory self.old self.new piece) }
        ensures allotted { allotted self.new.resources ≡ allotted self.old.resources }
        ensures stays { StaysAllotted (allotted self.old.resources) self.old.passes (allotted self.new.resources) self.new.passes }
        ensures error { IfErr result (λ f. (f ≡ Failed) × IsTrue self.old.failed) }
        ensures failed { self.new.failed ≡ self.old.failed }
        ensures err { OnErr result (self.new ≡ self.old) }
    {
        if self.failed {
            return Err(ApplyError::Failed);
        }
        self.run(piece);
        Ok(())
    }

    /// Where a resource lies, by its id, inside a live memory object; none where there is no such
    /// resource.
    pub fn spot(&self, resource: u32) -> Option<Spot>
        ensures there { result ≡ option_map spot_of (placed self.now.resources resource) }
        ensures inside { IfSome result (IsSpotIn self.now.resources.memory) }
    {
        self.resources.spot(resource)
    }

    /// Copies the bytes of a memory object from byte `at` on into `out`.
    pub fn peek(&self, memory: u64, at: u64, out: &mut [u8])
        requires live { IsLive self.now.resources.memory memory }
        requires inside { at + length out.old ≤ length (region_of self.now.resources.memory memory) }
        ensures { out.new ≡ piece (region_of self.now.resources.memory memory) at (length out.old) }
    {
        self.resources.peek(memory, at, out);
    }
}
