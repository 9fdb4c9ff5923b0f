ghost use Rattle.std.specs.Prelude.{◌≡◌, ◌<◌, ◌+◌, ◌^◌, ℕ, Some, None, get_or, IfOk, IfSome};
ghost use Rattle.vma_tlsf.specs.Inner.Chain.{range, seen};
ghost use Rattle.vma_tlsf.specs.Inner.Changes.{IsFresh};
ghost use Rattle.vma_tlsf.specs.Inner.Steps.{AreAlike, IsHeld, IsAfterHeld, IsRelinked, IsSplit, IsMerged, IsPainted, KeepsHeld};

use std::alloc::AllocError;
use vk_nodes::{Change, Filled, Node, RangeState};

/// The most slots that are added at once.
pub(crate) const MOST_ADDED: usize = 64;

/// The most slots that there may be.
const MOST_SLOTS: usize = 0x4000_0000;

/// A slot of which nothing is held yet. The only error is want of memory.
#[inline(always)]
pub(crate) fn fresh(nodes: &mut Filled) -> Result<u32, AllocError>
    ensures alike { AreAlike nodes.old nodes.new }
    ensures fresh { IfOk result (λ slot. IsHeld nodes.new slot × (seen nodes.new slot ≡ None) × (get_or nodes.old slot None ≡ None)) }
{
    match nodes.take() {
        Some(slot) => Ok(slot),
        None => fresh_of_more(nodes),
    }
}

/// The same, where more slots are added first.
#[cold]
#[inline(never)]
fn fresh_of_more(nodes: &mut Filled) -> Result<u32, AllocError>
    ensures alike { AreAlike nodes.old nodes.new }
    ensures fresh { IfOk result (λ slot. IsHeld nodes.new slot × (seen nodes.new slot ≡ None) × (get_or nodes.old slot None ≡ None)) }
{
    if nodes.slots() > MOST_SLOTS {
        return Err(AllocError);
    }
    nodes.reserve(MOST_ADDED)?;
    match nodes.take() {
        Some(slot) => Ok(slot),
        None => Err(AllocError),
    }
}

/// Two fresh slots, or none where memory is wanting.
pub(crate) fn two_fresh(nodes: &mut Filled) -> Option<(u32, u32)>
    ensures alike { AreAlike nodes.old nodes.new }
    ensures fresh { IfSome result (λ two. IsFresh nodes.new two.0 × IsFresh nodes.new two.1 × (two.0 ≡ two.1 → ⊥)) }
{
    let Ok(one) = fresh(nodes) else {
        return None;
    };
    let Ok(two) = fresh(nodes) else {
        nodes.give(one);
        return None;
    };
    Some((one, two))
}

/// Lets a range be before another by place, where there is another.
fn set_before(nodes: &mut Filled, after: Option<u32>, before: u32)
    requires { IfSome after (λ next. IsHeld nodes.old next) }
    ensures { IsRelinked nodes.old nodes.new after before }
{
    if let Some(next) = after {
        nodes.change(next, Change::Before(before));
    }
}

/// Lets the range of a slot end after `front_size` bytes, and that of a fresh slot begin there.
pub(crate) fn split(
    nodes: &mut Filled,
    slot: u32,
    node: Node,
    fresh_slot: u32,
    front_size: u64,
    front: RangeState,
    back: RangeState,
)
    requires here { get_or nodes.old slot None ≡ Some node }
    requires there { IsHeld nodes.old fresh_slot }
    requires other { slot ≡ fresh_slot → ⊥ }
    requires after { IsAfterHeld nodes.old node slot fresh_slot }
    requires bounds { node.start + node.size < 2 ^ 64 }
    requires some { 0 < front_size }
    requires rest { front_size < node.size }
    ensures split { IsSplit (seen nodes.old) (seen nodes.new) slot fresh_slot (range node) front_size front back }
    ensures held { (i : ℕ) → IsHeld nodes.old i → IsHeld nodes.new i }
{
    set_before(nodes, node.after, fresh_slot);
    nodes.set(
        fresh_slot,
        Node {
            start: node.start + front_size,
            size: node.size - front_size,
            before: Some(slot),
            after: node.after,
            previous_free: None,
            next_free: None,
            state: back,
        },
    );
    nodes.change(
        slot,
        Change::End {
            size: front_size,
            after: Some(fresh_slot),
            state: front,
        },
    );
}

/// Lets the range of a slot reach to the end of the next one, whose slot is given back.
pub(crate) fn merge(
    nodes: &mut Filled,
    slot: u32,
    node: Node,
    gone: u32,
    last: Node,
    state: RangeState,
)
    requires here { get_or nodes.old slot None ≡ Some node }
    requires there { get_or nodes.old gone None ≡ Some last }
    requires other { slot ≡ gone → ⊥ }
    requires after { IsAfterHeld nodes.old last slot gone }
    requires some { 0 < node.size }
    requires bounds { node.size + last.size < 2 ^ 64 }
    ensures merged { IsMerged (seen nodes.old) (seen nodes.new) slot gone (range node) (range last) state }
    ensures held { KeepsHeld nodes.old nodes.new gone }
{
    set_before(nodes, last.after, slot);
    nodes.change(
        slot,
        Change::End {
            size: node.size + last.size,
            after: last.after,
            state,
        },
    );
    nodes.give(gone);
}

/// Says what the range of a slot is.
pub(crate) fn paint(nodes: &mut Filled, slot: u32, node: Node, state: RangeState)
    requires here { get_or nodes.old slot None ≡ Some node }
    requires some { 0 < node.size }
    ensures painted { IsPainted (seen nodes.old) (seen nodes.new) slot (range node) state }
    ensures held { (i : ℕ) → IsHeld nodes.old i → IsHeld nodes.new i }
{
    nodes.change(slot, Change::State(state));
}
