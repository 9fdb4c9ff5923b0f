//! Where a walk over the ranges of a block begins, by slots that are likely to be near.
ghost use Rattle.std.specs.Prelude.{◌≡◌, ◌<◌, ◌≤◌, ◌^◌, ℕ, None, IsTrue, IfSome};
ghost use Rattle.vk_model.specs.Memory.Suballocation.{IsRequest};
ghost use Rattle.vk_model.specs.Memory.Room.{fits};
ghost use Rattle.vma_tlsf.specs.Inner.Chain.{taken_in};
ghost use Rattle.vma_tlsf.specs.Inner.Fits.{HasBlockFrom, HasByte, IsLive, IsPlaceFor, IsSlotOf, NoneBelow};
ghost use Rattle.vma_tlsf.specs.Inner.Wants.{request_of_want};

use crate::places::{Place, Want, lowest_place, smaller};
use vk_nodes::Filled;

/// The bytes for which one slot that is likely to be near is remembered.
const NEAR: u64 = 512;

/// How far from these bytes the range of that slot may start.
const MOST_APART: u64 = 1024;

/// The slot of a range that was looked for.
#[derive(Clone, Copy)]
pub(crate) struct Found {
    pub(crate) slot: u32,
    /// Whether it is remembered for the range's start.
    is_remembered: bool,
}

/// Remembers a slot whose range is near a start.
pub(crate) fn set_near(near: &mut Vec<u32>, start: u64, slot: u32) {
    let place = (start / NEAR) as usize;
    if place >= near.len() {
        reach(near, place);
    }
    if let Some(remembered) = near.get_mut(place) {
        *remembered = slot;
    }
}

/// Remembers the slot of a range that is free now, unless it was remembered, or a range before it took
/// it in: that one may start far from here.
pub(crate) fn set_near_freed(near: &mut Vec<u32>, start: u64, found: Found, joined: u32) {
    if !found.is_remembered && joined == found.slot {
        set_near(near, start, found.slot);
    }
}

/// Lets there be a place for a slot that is remembered, unless memory is wanting.
#[cold]
#[inline(never)]
fn reach(near: &mut Vec<u32>, place: usize) {
    let _ = near.resize(place.saturating_add(1), 0);
}

/// The lowest place of the block that ends at or below the limit. It starts at `low` or above it, so
/// the walk begins there, and no range before it is looked at.
pub(crate) fn lowest_from(
    nodes: &Filled,
    near: &Vec<u32>,
    first: u32,
    want: Want,
    low: u64,
    limit: u64,
) -> Option<Place>
    requires block { HasBlockFrom nodes.now first limit }
    requires request { IsRequest want.size want.align }
    requires bound { want.size < 2 ^ 62 }
    requires low { NoneBelow nodes.now (request_of_want want) limit low }
    ensures some { IfSome result (λ place. IsPlaceFor nodes.now (request_of_want want) limit place.slot place.start) }
    ensures lowest { IfSome result (λ place. NoneBelow nodes.now (request_of_want want) limit place.start) }
    ensures none { result ≡ None → (start : ℕ) → IsTrue (fits (taken_in nodes.now) (request_of_want want) 0 limit start) → ⊥ }
{
    if low >= limit {
        return None;
    }
    let found = slot_near(nodes, near, first, low);
    lowest_place(nodes, found.slot, want, limit)
}

/// The slot of the range that has this byte.
pub(crate) fn slot_near(nodes: &Filled, near: &Vec<u32>, first: u32, byte: u64) -> Found
    requires there { HasByte nodes.now byte }
    requires first { IsLive nodes.now first }
    ensures { IsSlotOf nodes.now result.slot byte }
{
    match slot_here(nodes, near, byte) {
        Some(slot) => Found {
            slot,
            is_remembered: true,
        },
        None => Found {
            slot: slot_around(nodes, near, first, byte),
            is_remembered: false,
        },
    }
}

/// The slot that is remembered for a start, if its range starts there.
fn slot_here(nodes: &Filled, near: &Vec<u32>, start: u64) -> Option<u32>
    ensures { IfSome result (λ slot. IsSlotOf nodes.now slot start) }
{
    let slot = *near.get((start / NEAR) as usize)?;
    let node = nodes.find(slot)?;
    if node.size > 0 && node.start == start {
        Some(slot)
    } else {
        None
    }
}

/// The slot of the range that has this byte, by a walk from the nearest one that is remembered.
#[inline(never)]
fn slot_around(nodes: &Filled, near: &Vec<u32>, first: u32, byte: u64) -> u32
    requires there { HasByte nodes.now byte }
    requires first { IsLive nodes.now first }
    ensures { IsSlotOf nodes.now result byte }
{
    let most = smaller(byte / NEAR, near.len() as u64);
    for place in (0..=most).rev() {
        if let Some(slot) = remembered(nodes, near, place) {
            return slot_from(nodes, slot, byte);
        }
    }
    slot_from(nodes, first, byte)
}

/// The slot that is remembered here, if its range is still near.
fn remembered(nodes: &Filled, near: &Vec<u32>, place: u64) -> Option<u32>
    ensures { IfSome result (λ slot. IsLive nodes.now slot) }
{
    let slot = *near.get(place as usize)?;
    let node = nodes.find(slot)?;
    if node.size > 0 && node.start.abs_diff(place.saturating_mul(NEAR)) <= MOST_APART {
        Some(slot)
    } else {
        None
    }
}

/// The slot of the range that has this byte, by a walk from some range.
fn slot_from(nodes: &Filled, some: u32, byte: u64) -> u32
    requires there { HasByte nodes.now byte }
    requires some { IsLive nodes.now some }
    ensures { IsSlotOf nodes.now result byte }
{
    let mut slot = some;
    let mut node = nodes.get(slot);
    'back: while node.start > byte {
        let Some(before) = node.before else {
            unreachable!()
        };
        slot = before;
        node = nodes.get(slot);
    }
    'on: while node.start + node.size <= byte {
        let Some(after) = node.after else {
            unreachable!()
        };
        slot = after;
        node = nodes.get(slot);
    }
    slot
}
