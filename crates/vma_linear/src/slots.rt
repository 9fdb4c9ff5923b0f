ghost use Rattle.std.specs.Prelude.{◌≡◌, ◌≤◌, ◌<◌, ℕ, length, slice_index_or};
ghost use Rattle.vma_linear.specs.Inner.Slots.{comes_before, IsOrdered, IsPlaceOf};

use vk_model::{Kind, TakenRange};

/// How far from the place that is likely a search looks next.
const FIRST_STEP: usize = 16;

/// Which way the starts of the ranges of a list go.
#[derive(Clone, Copy, PartialEq, Eq, Debug)]
pub(crate) enum Direction {
    /// They rise, as those of a lower stack.
    Up,
    /// They fall, as those of an upper stack.
    Down,
}

impl Direction {
    /// Whether what starts at `one` comes before what starts at `other`.
    pub(crate) fn is_before(self, one: u64, other: u64) -> bool
        ensures { result ≡ comes_before self one other }
    {
        match self {
            Direction::Up => one < other,
            Direction::Down => other < one,
        }
    }
}

/// An entry of a list of ranges.
#[derive(Clone, Copy)]
pub(crate) struct Slot {
    /// The range's first byte.
    pub(crate) start: u64,
    /// In bytes.
    pub(crate) size: u64,
    /// How the bytes of its resource lie.
    pub(crate) kind: Kind,
    /// Whether it is taken still: one that was given back stays in the list for a while.
    pub(crate) live: bool,
}

impl Slot {
    pub(crate) fn range(self) -> TakenRange
        ensures { result ≡ record { start = self.start; size = self.size; kind = self.kind } }
    {
        TakenRange {
            start: self.start,
            size: self.size,
            kind: self.kind,
        }
    }
}

/// How many slots come before what starts here. It is looked for first where it is if all ranges are
/// of one size, and then ever further away.
pub(crate) fn place_of(slots: &[Slot], direction: Direction, start: u64) -> usize
    requires { IsOrdered direction slots.now }
    ensures { IsPlaceOf direction slots.now start result }
{
    let mut low = 0;
    let mut high = slots.len();
    let mut next = guess(slots, start);
    let mut step = FIRST_STEP;
    while low < high {
        let middle = within(low, high, next);
        if direction.is_before(slots[middle].start, start) {
            low = middle + 1;
            next = low.saturating_add(step);
        } else {
            high = middle;
            next = high.saturating_sub(step);
        }
        if high - low < step.saturating_mul(4) {
            next = high;
        }
        step = step.saturating_mul(2);
    }
    low
}

/// Where to look between two places: at the next one, or else in the middle.
fn within(low: usize, high: usize, next: usize) -> usize
    requires { low < high }
    ensures low { low ≤ result }
    ensures high { result < high }
{
    if low <= next && next < high {
        next
    } else {
        low + (high - low) / 2
    }
}

/// The place of what starts here, where all ranges are of one size.
fn guess(slots: &[Slot], start: u64) -> usize {
    let count = slots.len();
    if count == 0 {
        return 0;
    }
    let first = slots[0].start;
    let last = slots[count - 1].start;
    let whole = first.abs_diff(last);
    let part = first.abs_diff(start);
    if part >= whole {
        return count - 1;
    }
    ((count as u64).wrapping_mul(part) / whole) as usize
}
