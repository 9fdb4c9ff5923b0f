ghost use Rattle.std.specs.Prelude.{◌≡◌, ◌+◌, ◌<◌, ◌≤◌, Some, None, IsSome, get_or};
ghost use Rattle.vk_nodes.specs.declared.node.RangeState.TheVariants.{Free};
ghost use Rattle.vma_tlsf.specs.Inner.Chain.{range, seen, AfterNotFree};
ghost use Rattle.vma_tlsf.specs.Inner.Steps.{AreAlike, IsHeld};
ghost use Rattle.vma_tlsf.specs.Inner.Changes.{HasChain, IsFresh, IsFrontCut, IsBackCut, TakesMore, IsReleased, IsPlaceIn, IsTakenIn, IsJoinedAfter, IsNextTaken, IsFreed};
ghost use Rattle.vma_tlsf.specs.Inner.Fits.{IsSlotAt, StartsBelow};
ghost use Rattle.vma_tlsf.specs.Inner.Wants.{taken_of_want};

use crate::lists::Lists;
use crate::places::{Place, Want, taken_state};
use crate::steps::{fresh, merge, paint, split, two_fresh};
use vk_nodes::{Filled, Node, RangeState};

/// Takes a place of a free range, and answers its slot, or `None` where memory is wanting.
pub(crate) fn put(nodes: &mut Filled, lists: &mut Lists, place: Place, want: Want) -> Option<u32>
    requires chain { HasChain nodes.old }
    requires place { IsPlaceIn nodes.old place.slot place.start want.size }
    requires some { 0 < want.size }
    ensures taken { IsSome result → TakesMore nodes.old nodes.new (taken_of_want place.start want) }
    ensures none { result ≡ None → AreAlike nodes.old nodes.new }
{
    let whole = nodes.get(place.slot);
    if whole.start == place.start {
        let Ok(fresh_slot) = fresh(nodes) else {
            return None;
        };
        return Some(carve_start(nodes, lists, place, want, fresh_slot));
    }
    let (one, two) = two_fresh(nodes)?;
    Some(carve(nodes, lists, place, want, one, two))
}

/// Takes the start of a free range, and puts what is left of the range into a list. Where nothing
/// is left it gives the fresh slot back.
fn carve_start(
    nodes: &mut Filled,
    lists: &mut Lists,
    place: Place,
    want: Want,
    fresh_slot: u32,
) -> u32
    requires chain { HasChain nodes.old }
    requires place { IsPlaceIn nodes.old place.slot place.start want.size }
    requires start { IsSlotAt nodes.old place.slot place.start }
    requires some { 0 < want.size }
    requires fresh { IsFresh nodes.old fresh_slot }
    ensures { TakesMore nodes.old nodes.new (taken_of_want place.start want) }
{
    lists.unlink(nodes, place.slot);
    let node = nodes.get(place.slot);
    take_start(nodes, place, node, taken_state(want.kind));
    let taken = nodes.get(place.slot);
    cut_back(nodes, place.slot, taken, fresh_slot, want.size);
    if want.size < taken.size {
        lists.push(nodes, fresh_slot);
    }
    place.slot
}

/// Takes a free range from its start on.
fn take_start(nodes: &mut Filled, place: Place, node: Node, state: RangeState)
    requires chain { HasChain nodes.old }
    requires here { get_or nodes.old place.slot None ≡ Some node }
    requires some { 0 < node.size }
    requires free { node.state ≡ Free }
    requires start { node.start ≡ place.start }
    requires taken { state ≡ Free → ⊥ }
    ensures { IsFrontCut nodes.old nodes.new node place.start place.slot place.slot state }
{
    paint(nodes, place.slot, node, state);
}

/// Takes a place of a free range that begins before it, and puts what is left of the range into
/// lists. Where nothing is left behind it gives the second fresh slot back.
fn carve(nodes: &mut Filled, lists: &mut Lists, place: Place, want: Want, one: u32, two: u32) -> u32
    requires chain { HasChain nodes.old }
    requires place { IsPlaceIn nodes.old place.slot place.start want.size }
    requires some { 0 < want.size }
    requires one { IsFresh nodes.old one }
    requires two { IsFresh nodes.old two }
    requires apart { one ≡ two → ⊥ }
    requires before { StartsBelow nodes.old place.slot place.start }
    ensures { TakesMore nodes.old nodes.new (taken_of_want place.start want) }
{
    lists.unlink(nodes, place.slot);
    let node = nodes.get(place.slot);
    cut_front(nodes, place, node, one, taken_state(want.kind));
    let taken = nodes.get(one);
    cut_back(nodes, one, taken, two, want.size);
    lists.push(nodes, place.slot);
    if want.size < taken.size {
        lists.push(nodes, two);
    }
    one
}

/// Takes a free range from the start of a place on; what is before it stays free.
fn cut_front(nodes: &mut Filled, place: Place, node: Node, fresh: u32, state: RangeState)
    requires chain { HasChain nodes.old }
    requires here { get_or nodes.old place.slot None ≡ Some node }
    requires free { node.state ≡ Free }
    requires from { node.start < place.start }
    requires to { place.start < node.start + node.size }
    requires fresh { IsFresh nodes.old fresh }
    requires taken { state ≡ Free → ⊥ }
    ensures { IsFrontCut nodes.old nodes.new node place.start fresh fresh state }
{
    let front = place.start - node.start;
    split(
        nodes,
        place.slot,
        node,
        fresh,
        front,
        RangeState::Free,
        state,
    );
}

/// Lets a taken range have the size that is asked; what is after it is free.
fn cut_back(nodes: &mut Filled, slot: u32, node: Node, fresh: u32, size: u64)
    requires chain { HasChain nodes.old }
    requires here { get_or nodes.old slot None ≡ Some node }
    requires taken { node.state ≡ Free → ⊥ }
    requires next { AfterNotFree (seen nodes.old) (range node) }
    requires some { 0 < size }
    requires within { size ≤ node.size }
    requires fresh { IsFresh nodes.old fresh }
    ensures { IsBackCut nodes.old nodes.new node slot fresh size }
{
    if node.size == size {
        nodes.give(fresh);
        return;
    }
    split(nodes, slot, node, fresh, size, node.state, RangeState::Free);
}

/// Lets a taken range be free, joined with the free ranges next to it, and puts it into its list.
pub(crate) fn release(nodes: &mut Filled, lists: &mut Lists, slot: u32) -> u32
    requires chain { HasChain nodes.old }
    requires there { IsTakenIn nodes.old slot }
    ensures { IsReleased nodes.old nodes.new slot }
{
    join_after(nodes, lists, slot);
    let joined = join_before(nodes, lists, slot);
    lists.push(nodes, joined);
    joined
}

/// Joins a taken range with a free one after it.
fn join_after(nodes: &mut Filled, lists: &mut Lists, slot: u32)
    requires chain { HasChain nodes.old }
    requires there { IsTakenIn nodes.old slot }
    ensures { IsJoinedAfter nodes.old nodes.new slot }
{
    let whole = nodes.get(slot);
    let Some(after) = whole.after else { return };
    let behind = nodes.get(after);
    if let RangeState::Free = behind.state {
        lists.unlink(nodes, after);
        let node = nodes.get(slot);
        let next = nodes.get(after);
        merge(nodes, slot, node, after, next, node.state);
    }
}

/// Lets a taken range be free, joined with a free one before it. No free one is after it.
fn join_before(nodes: &mut Filled, lists: &mut Lists, slot: u32) -> u32
    requires chain { HasChain nodes.old }
    requires there { IsTakenIn nodes.old slot }
    requires next { IsNextTaken nodes.old slot }
    ensures freed { IsFreed nodes.old nodes.new slot }
    ensures held { IsHeld nodes.new result }
{
    let whole = nodes.get(slot);
    if let Some(before) = whole.before {
        let front = nodes.get(before);
        if let RangeState::Free = front.state {
            lists.unlink(nodes, before);
            let node = nodes.get(slot);
            let previous = nodes.get(before);
            merge(nodes, before, previous, slot, node, RangeState::Free);
            return before;
        }
    }
    paint(nodes, slot, whole, RangeState::Free);
    slot
}
