ghost use Rattle.std.specs.Prelude.{◌≡◌, ◌+◌, ◌-◌, ◌<◌, ◌^◌, ◌++◌, ℕ, All, List, IfOk, map, max};
ghost use Rattle.vk_model.specs.Memory.Suballocation.{Taken};
ghost use Rattle.vma_linear.specs.Inner.Slots.{ranges_of};
ghost use Rattle.vk_model.specs.Memory.TakenRanges.{taken_of};
ghost use Rattle.vma_linear.specs.Inner.Widest.{widest_up, widest_down};

use crate::slots::Slot;
use std::alloc::AllocError;
use vk_model::TakenRange;

/// How far a walk over ranges has come, in bytes.
#[derive(Clone, Copy)]
pub(crate) struct Widest {
    /// Where the next gap begins, or ends for a walk down.
    pub(crate) edge: u64,
    /// The widest gap so far.
    pub(crate) width: u64,
}

/// Goes over slots whose ranges rise.
pub(crate) fn walk_up(slots: &[Slot], from: Widest) -> Widest
    requires { All (λ t. t.start + t.size < 2 ^ 64) (ranges_of slots.now) }
    ensures { (ts : List Taken) (high : ℕ) → max result.width (widest_up result.edge ts high)
        ≡ max from.width (widest_up from.edge (ranges_of slots.now ++ ts) high) }
{
    let mut edge = from.edge;
    let mut width = from.width;
    for slot in slots {
        if slot.live {
            width = width.max(slot.start.saturating_sub(edge));
            edge = slot.start + slot.size;
        }
    }
    Widest { edge, width }
}

/// Goes over slots whose ranges fall.
pub(crate) fn walk_down(slots: &[Slot], from: Widest) -> Widest
    requires { All (λ t. t.start + t.size < 2 ^ 64) (ranges_of slots.now) }
    ensures { (low : ℕ) → max result.width (result.edge - low)
        ≡ max from.width (widest_down low (ranges_of slots.now) from.edge) }
{
    let mut edge = from.edge;
    let mut width = from.width;
    for slot in slots {
        if slot.live {
            width = width.max(edge.saturating_sub(slot.start + slot.size));
            edge = slot.start;
        }
    }
    Widest { edge, width }
}

/// Adds the ranges of the slots that are live.
pub(crate) fn copy_live(slots: &[Slot], ranges: &mut Vec<TakenRange>) -> Result<(), AllocError>
    ensures { IfOk result (λ _. map taken_of ranges.new.items
        ≡ map taken_of ranges.old.items ++ ranges_of slots.now) }
{
    for slot in slots {
        if slot.live {
            ranges.push(slot.range())?;
        }
    }
    Ok(())
}
