ghost use Rattle.std.specs.Prelude.{◌≡◌, ◌==◌, ◌&&◌, ◌+◌, ◌-◌, ◌<◌, ◌^◌, map, max, take, List, IfOk, ◌∷◌, [], ◌++◌, ℕ, None, All, OnOk, OnErr, true, false, length, slice_index_or, IfSome, IfNone};
ghost use Rattle.std.specs.Option.{option_map};
ghost use Rattle.vk_model.specs.Memory.Suballocation.{Taken};
ghost use Rattle.vk_model.specs.Memory.Room.{is_none_left};
ghost use Rattle.vk_model.specs.Memory.LinearBlocks.{others};
ghost use Rattle.vk_model.specs.Memory.TakenRanges.{taken_of};
ghost use Rattle.vma_linear.specs.Inner.Slots.{ranges_of, comes_before, IsOrdered, AreSlots};
ghost use Rattle.vma_linear.specs.Inner.Gaps.{first_of, last_after};
ghost use Rattle.vma_linear.specs.Inner.Widest.{widest_up, widest_down};
ghost use Rattle.vma_linear.specs.declared.slots.Slot.{Slot};

use crate::slots::{Direction, Slot, place_of};
use crate::walks::{self, Widest};
use std::alloc::{AllocError, Global};
use std::marker::Model;
use vk_model::TakenRange;

/// How many slots a list may have beyond twice its ranges.
const SLACK: usize = 32;

/// Ranges in the order in which they were taken, whose starts all rise or all fall. One that is given
/// back keeps its slot until most slots are such.
#[derive(Drop)]
pub(crate) struct RangeList {
    direction: Direction,
    slots: Vec<Slot>,
    /// The first slot that is live, or 0.
    head: usize,
    /// How many slots are live.
    live: usize,
}

impl Model for RangeList {
    ghost use Rattle.vma_linear.specs.Inner.Slots.{Ranges, ranges_of, AreSlots};

    ghost Value = { Ranges };

    ghost view = { λ l. record { direction = l.direction; taken = ranges_of l.slots.items } };

    ghost invariant = { λ l. AreSlots l.direction l.slots.items l.head l.live };
}

impl RangeList {
    /// A list of no ranges. It takes no memory.
    pub(crate) fn new(alloc: Global, direction: Direction) -> RangeList
        ensures { result ≡ record { direction = direction; taken = [] } }
    {
        RangeList {
            direction,
            slots: Vec::new(alloc),
            head: 0,
            live: 0,
        }
    }

    pub(crate) fn is_empty(&self) -> bool
        ensures { result ≡ is_none_left self.now.taken }
    {
        self.live == 0
    }

    /// The range that was taken first.
    pub(crate) fn first(&self) -> Option<TakenRange>
        ensures { option_map taken_of result ≡ first_of self.now.taken }
    {
        if self.slots.is_empty() {
            return None;
        }
        Some(self.slots[self.head].range())
    }

    /// The range that was taken last.
    pub(crate) fn last(&self) -> Option<TakenRange>
        ensures { option_map taken_of result ≡ last_after None self.now.taken }
    {
        let count = self.slots.len();
        if count == 0 {
            return None;
        }
        Some(self.slots[count - 1].range())
    }

    /// Goes on with a walk up over the ranges.
    pub(crate) fn walk_up(&self, from: Widest) -> Widest
        requires { All (λ t. t.start + t.size < 2 ^ 64) self.now.taken }
        ensures { (ts : List Taken) (high : ℕ) → max result.width (widest_up result.edge ts high)
            ≡ max from.width (widest_up from.edge (self.now.taken ++ ts) high) }
    {
        walks::walk_up(&self.slots, from)
    }

    /// Goes on with a walk down over the ranges.
    pub(crate) fn walk_down(&self, from: Widest) -> Widest
        requires { All (λ t. t.start + t.size < 2 ^ 64) self.now.taken }
        ensures { (low : ℕ) → max result.width (result.edge - low)
            ≡ max from.width (widest_down low self.now.taken from.edge) }
    {
        walks::walk_down(&self.slots, from)
    }

    /// Adds the ranges to others. The only error is want of memory.
    pub(crate) fn copy_to(&self, ranges: &mut Vec<TakenRange>) -> Result<(), AllocError>
        ensures { IfOk result (λ _. map taken_of ranges.new.items
            ≡ map taken_of ranges.old.items ++ self.now.taken) }
    {
        walks::copy_live(&self.slots, ranges)
    }

    /// Adds a range that comes after the others. The only error is want of memory, after which the
    /// list is as it was.
    pub(crate) fn push(&mut self, range: TakenRange) -> Result<(), AllocError>
        requires { All (λ t. comes_before self.old.direction t.start range.start ≡ true) self.old.taken }
        ensures ok { OnOk result (self.new ≡ record self.old { taken = self.old.taken ++ taken_of range ∷ [] }) }
        ensures err { OnErr result (self.new ≡ self.old) }
    {
        self.slots.push(Slot {
            start: range.start,
            size: range.size,
            kind: range.kind,
            live: true,
        })?;
        self.live += 1;
        Ok(())
    }

    /// Gives back the range that starts here, if there is one.
    pub(crate) fn give_back(&mut self, start: u64)
        ensures { self.new ≡ record self.old { taken = others start self.old.taken } }
    {
        let Some(place) = find(&self.slots, self.direction, self.head, start) else {
            return;
        };
        self.slots[place].live = false;
        self.live -= 1;
        self.head = tidy(&mut self.slots, self.direction, self.head, self.live);
    }
}

/// The live slot that starts here. A stack gives back the last one, and a ring the first.
fn find(slots: &[Slot], direction: Direction, head: usize, start: u64) -> Option<usize>
    requires { IsOrdered direction slots.now }
    ensures within { IfSome result (λ place. place < length slots.now) }
    ensures found { IfSome result (λ place. (d : Slot) → ((slice_index_or slots.now place d).start ≡ start)
        × ((slice_index_or slots.now place d).live ≡ true)) }
    ensures none { IfNone result (others start (ranges_of slots.now) ≡ ranges_of slots.now) }
{
    let count = slots.len();
    if count > 0 && is_here(slots[count - 1], start) {
        return Some(count - 1);
    }
    if head < count && is_here(slots[head], start) {
        return Some(head);
    }
    let place = place_of(slots, direction, start);
    if place < count && is_here(slots[place], start) {
        Some(place)
    } else {
        None
    }
}

/// Whether a slot is live and starts here.
fn is_here(slot: Slot, start: u64) -> bool
    ensures { result ≡ (slot.live && slot.start == start) }
{
    slot.live && slot.start == start
}

/// Drops slots that were given back: those at the end, and all where they are most. Answers the
/// first that is live.
fn tidy(slots: &mut Vec<Slot>, direction: Direction, head: usize, live: usize) -> usize
    requires ordered { IsOrdered direction slots.old.items }
    requires front { (k : ℕ) (d : Slot) → k < head → k < length slots.old.items
        → (slice_index_or slots.old.items k d).live ≡ false }
    requires count { live ≡ length (ranges_of slots.old.items) }
    ensures same { ranges_of slots.new.items ≡ ranges_of slots.old.items }
    ensures slots { AreSlots direction slots.new.items result live }
{
    if live == 0 {
        slots.clear();
        return 0;
    }
    drop_end(slots);
    if (slots.len() / 2).saturating_sub(SLACK) > live {
        slots.retain(|slot| slot.live);
        return 0;
    }
    first_live(slots, head)
}

/// Drops the slots at the end that were given back.
fn drop_end(slots: &mut Vec<Slot>)
    ensures same { ranges_of slots.new.items ≡ ranges_of slots.old.items }
    ensures front { (size : ℕ) × (slots.new.items ≡ take size slots.old.items) }
    ensures last { (d : Slot) → 0 < length slots.new.items
        → (slice_index_or slots.new.items (length slots.new.items - 1) d).live ≡ true }
{
    while let Some(slot) = slots.last() {
        if slot.live {
            return;
        }
        slots.pop();
    }
}

/// The first slot that is live, where those before `head` aren't.
fn first_live(slots: &[Slot], head: usize) -> usize
    requires some { 0 < length (ranges_of slots.now) }
    requires front { (k : ℕ) (d : Slot) → k < head → k < length slots.now
        → (slice_index_or slots.now k d).live ≡ false }
    ensures within { result < length slots.now }
    ensures live { (d : Slot) → (slice_index_or slots.now result d).live ≡ true }
    ensures front { (k : ℕ) (d : Slot) → k < result → (slice_index_or slots.now k d).live ≡ false }
{
    let mut place = head;
    while !slots[place].live {
        place += 1;
    }
    place
}
