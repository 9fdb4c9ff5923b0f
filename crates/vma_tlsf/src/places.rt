ghost use Rattle.std.specs.Prelude.{◌≡◌, ◌≤◌, ◌<◌, ◌^◌, ◌+◌, ◌*◌, ◌/◌, ℕ, Some, None, get_or, max, min, IsTrue, IfSome};
ghost use Rattle.vk_nodes.specs.declared.node.RangeState.TheVariants.{Free};
ghost use Rattle.vk_model.specs.Memory.Suballocation.{IsRequest, IsLargestFree};
ghost use Rattle.vk_model.specs.Memory.Room.{fits, is_none_left};
ghost use Rattle.vma_tlsf.specs.Inner.Chain.{range, seen, taken_in};
ghost use Rattle.vma_tlsf.specs.Inner.Changes.{HasChain};
ghost use Rattle.vma_tlsf.specs.Inner.Fits.{is_other, low_of, high_of, IsBlock, HasBlock, IsFreeNode, IsLowestIn, IsPlaceFor, NoneBelow, NoneBefore, free_size, IsNodeOf};
ghost use Rattle.vma_tlsf.specs.Inner.Wants.{request_of_want};
ghost use Rattle.vma_tlsf.specs.Inner.Wants.{state_of};

use crate::lists::{Lists, UNIT};
use vk_model::Kind;
use vk_nodes::{Filled, Node, RangeState};

/// The bytes of a page, on which no linear and optimal resources lie together, as
/// `bufferImageGranularity` (profile).
pub(crate) const PAGE: u64 = 1024;

/// What is asked of a block.
#[derive(Clone, Copy, Debug)]
pub(crate) struct Want {
    /// Its bytes.
    pub(crate) size: u64,
    /// What its start is a multiple of, in bytes.
    pub(crate) align: u64,
    /// How its bytes lie.
    pub(crate) kind: Kind,
}

/// A place in a free range.
#[derive(Clone, Copy, Debug)]
pub(crate) struct Place {
    /// The slot of the free range.
    pub(crate) slot: u32,
    /// Where the place starts, in bytes.
    pub(crate) start: u64,
}

/// The state of what is taken by a resource of this kind.
pub(crate) fn taken_state(kind: Kind) -> RangeState
    ensures { result ≡ state_of kind }
{
    match kind {
        Kind::Linear => RangeState::Linear,
        Kind::Optimal => RangeState::Optimal,
    }
}

/// Whether the range is taken by a resource of the other kind.
fn is_of_other_kind(state: RangeState, kind: Kind) -> bool
    ensures { result ≡ is_other state kind }
{
    match (state, kind) {
        (RangeState::Linear, Kind::Optimal) | (RangeState::Optimal, Kind::Linear) => true,
        _ => false,
    }
}

/// Where a resource of this kind may start in a free range: after the page of a neighbour of the
/// other kind.
#[inline(always)]
fn low_end(nodes: &Filled, node: Node, kind: Kind) -> u64
    requires chain { HasChain nodes.now }
    requires free { IsFreeNode nodes.now node }
    ensures { result ≡ low_of (seen nodes.now) (range node) kind }
{
    let Some(before) = node.before else {
        return node.start;
    };
    let previous = nodes.get(before);
    if is_of_other_kind(previous.state, kind) {
        (node.start + (PAGE - 1)) / PAGE * PAGE
    } else {
        node.start
    }
}

/// Where a resource of this kind must end in a free range: before the page of a neighbour of the
/// other kind.
#[inline(always)]
fn high_end(nodes: &Filled, node: Node, kind: Kind) -> u64
    requires chain { HasChain nodes.now }
    requires free { IsFreeNode nodes.now node }
    ensures { result ≡ high_of (seen nodes.now) (range node) kind }
{
    let end = node.start + node.size;
    let Some(after) = node.after else {
        return end;
    };
    let next = nodes.get(after);
    if is_of_other_kind(next.state, kind) {
        end / PAGE * PAGE
    } else {
        end
    }
}

/// The last multiple of an alignment up to here. Those that requests have are written out, since a
/// division by a number that is known is a shift.
fn aligned(most: u64, align: u64) -> u64
    requires { 0 < align }
    ensures { result ≡ most / align * align }
{
    match align {
        16 => most / 16 * 16,
        64 => most / 64 * 64,
        256 => most / 256 * 256,
        _ => most / align * align,
    }
}

/// The lowest place in a free range that ends at or below the limit.
#[inline(always)]
pub(crate) fn place_in(nodes: &Filled, node: Node, want: Want, limit: u64) -> Option<u64>
    requires block { HasBlock nodes.now limit }
    requires free { IsFreeNode nodes.now node }
    requires request { IsRequest want.size want.align }
    requires bound { want.size < 2 ^ 62 }
    ensures { IsLowestIn nodes.now node (request_of_want want) limit result }
{
    let low = low_end(nodes, node, want.kind);
    let high = high_end(nodes, node, want.kind).min(limit);
    let start = aligned(low + (want.align - 1), want.align);
    if start + want.size <= high {
        Some(start)
    } else {
        None
    }
}

/// The place in the range of a slot, if that is free.
#[inline(always)]
fn place_at(nodes: &Filled, slot: u32, want: Want, size: u64) -> Option<Place>
    requires block { HasBlock nodes.now size }
    requires request { IsRequest want.size want.align }
    requires bound { want.size < 2 ^ 62 }
    ensures { IfSome result (λ place. IsPlaceFor nodes.now (request_of_want want) size place.slot place.start) }
{
    let node = nodes.find(slot)?;
    if node.size == 0 || node.state != RangeState::Free {
        return None;
    }
    let start = place_in(nodes, node, want, size)?;
    Some(Place { slot, start })
}

/// The place in the first range of the smallest list that suffices for so many bytes.
pub(crate) fn head_place(
    nodes: &Filled,
    lists: &Lists,
    want: Want,
    bytes: u64,
    size: u64,
) -> Option<Place>
    requires block { HasBlock nodes.now size }
    requires request { IsRequest want.size want.align }
    requires bound { want.size < 2 ^ 62 }
    ensures { IfSome result (λ place. IsPlaceFor nodes.now (request_of_want want) size place.slot place.start) }
{
    let slot = lists.sufficing(bytes / UNIT)?;
    place_at(nodes, slot, want, size)
}

/// The place in the first range that has one, from the largest list down.
pub(crate) fn listed_place(nodes: &Filled, lists: &Lists, want: Want, size: u64) -> Option<Place>
    requires block { HasBlock nodes.now size }
    requires request { IsRequest want.size want.align }
    requires bound { want.size < 2 ^ 62 }
    ensures { IfSome result (λ place. IsPlaceFor nodes.now (request_of_want want) size place.slot place.start) }
{
    let mut list = lists.largest_below(lists.end())?;
    let mut next = lists.head(list);
    for _ in 0..nodes.slots() {
        let Some(slot) = next else { return None };
        if let Some(place) = place_at(nodes, slot, want, size) {
            return Some(place);
        }
        next = match nodes.find(slot) {
            Some(node) => node.next_free,
            None => None,
        };
        if next.is_none() {
            list = lists.largest_below(list)?;
            next = lists.head(list);
        }
    }
    None
}

/// The lowest place in a range that ends at or below the limit; a taken range has none.
fn lowest_in(nodes: &Filled, node: Node, want: Want, limit: u64) -> Option<u64>
    requires block { HasBlock nodes.now limit }
    requires there { IsNodeOf nodes.now node }
    requires request { IsRequest want.size want.align }
    requires bound { want.size < 2 ^ 62 }
    ensures lowest { IsLowestIn nodes.now node (request_of_want want) limit result }
    ensures free { IfSome result (λ _. node.state ≡ Free) }
{
    if let RangeState::Free = node.state {
        place_in(nodes, node, want, limit)
    } else {
        None
    }
}

/// The lowest place of the block that ends at or below the limit, by a walk from a range before which
/// there is none.
pub(crate) fn lowest_place(nodes: &Filled, from: u32, want: Want, limit: u64) -> Option<Place>
    requires block { HasBlock nodes.now limit }
    requires request { IsRequest want.size want.align }
    requires bound { want.size < 2 ^ 62 }
    requires from { NoneBefore nodes.now (request_of_want want) limit from }
    ensures some { IfSome result (λ place. IsPlaceFor nodes.now (request_of_want want) limit place.slot place.start) }
    ensures lowest { IfSome result (λ place. NoneBelow nodes.now (request_of_want want) limit place.start) }
    ensures none { result ≡ None → (start : ℕ) → IsTrue (fits (taken_in nodes.now) (request_of_want want) 0 limit start) → ⊥ }
{
    let mut slot = from;
    let mut node = nodes.get(slot);
    'walk: while node.start < limit {
        if let Some(start) = lowest_in(nodes, node, want, limit) {
            return Some(Place { slot, start });
        }
        let Some(after) = node.after else {
            return None;
        };
        slot = after;
        node = nodes.get(slot);
    }
    None
}

/// A place for a request, if it fits anywhere in the block. A search by size asks for `more` bytes.
pub(crate) fn find_place(
    nodes: &Filled,
    lists: &Lists,
    first: u32,
    want: Want,
    more: u64,
    size: u64,
) -> Option<Place>
    requires block { IsBlock size first nodes.now }
    requires request { IsRequest want.size want.align }
    requires bound { want.size < 2 ^ 62 }
    requires more { more ≤ 2048 }
    ensures some { IfSome result (λ place. IsPlaceFor nodes.now (request_of_want want) size place.slot place.start) }
    ensures none { result ≡ None → (start : ℕ) → IsTrue (fits (taken_in nodes.now) (request_of_want want) 0 size start) → ⊥ }
{
    let bytes = want.size + (want.align - UNIT) + more;
    if let Some(place) = head_place(nodes, lists, want, bytes, size) {
        return Some(place);
    }
    if let Some(place) = listed_place(nodes, lists, want, size) {
        return Some(place);
    }
    lowest_place(nodes, first, want, size)
}

/// The bytes of the longest free range.
pub(crate) fn longest_free(nodes: &Filled, first: u32, size: u64) -> u64
    requires { IsBlock size first nodes.now }
    ensures { IsLargestFree size (taken_in nodes.now) result }
{
    let mut longest = 0;
    let mut slot = first;
    let mut node = nodes.get(slot);
    'walk: loop {
        longest = larger(longest, free_bytes(node));
        let Some(after) = node.after else {
            return longest;
        };
        slot = after;
        node = nodes.get(slot);
    }
}

/// Whether nothing is taken: the first range is free, and as long as the block.
pub(crate) fn is_all_free(nodes: &Filled, first: u32, size: u64) -> bool
    requires { IsBlock size first nodes.now }
    ensures { result ≡ is_none_left (taken_in nodes.now) }
{
    let node = nodes.get(first);
    free_bytes(node) == size
}

/// The smaller of two numbers.
pub(crate) fn smaller(one: u64, other: u64) -> u64
    ensures { result ≡ min one other }
{
    if one < other { one } else { other }
}

/// The larger of two numbers.
fn larger(one: u64, other: u64) -> u64
    ensures { result ≡ max one other }
{
    if one < other { other } else { one }
}

/// The bytes of a free range; none of a taken one.
fn free_bytes(node: Node) -> u64
    ensures { result ≡ free_size (range node) }
{
    if let RangeState::Free = node.state {
        node.size
    } else {
        0
    }
}
