ghost use Rattle.std.specs.Prelude.{◌≡◌, map, IfOk};
ghost use Rattle.vma_tlsf.specs.Inner.Chain.{taken_in};
ghost use Rattle.vma_tlsf.specs.Inner.Listed.{IsTakenHere, IsTakenBy};
ghost use Rattle.vk_model.specs.Memory.TakenRanges.{taken_of};

use std::alloc::{AllocError, Global};
use vk_model::{Kind, TakenRange};
use vk_nodes::{Filled, Node, RangeState};

/// The ranges that are taken, by slot.
pub(crate) fn ranges_of(alloc: Global, nodes: &Filled) -> Result<Vec<TakenRange>, AllocError>
    ensures { IfOk result (λ ranges. map taken_of ranges.items ≡ taken_in nodes.now) }
{
    let mut ranges = Vec::new(alloc);
    for slot in 0..nodes.slots() {
        if let Some(range) = range_of_slot(nodes, slot as u32) {
            ranges.push(range)?;
        }
    }
    Ok(ranges)
}

/// What is taken by the range of a slot, if there is one and it is taken.
fn range_of_slot(nodes: &Filled, slot: u32) -> Option<TakenRange>
    ensures { IsTakenHere nodes.now slot result }
{
    let node = nodes.find(slot)?;
    if node.size == 0 {
        None
    } else {
        taken_range(node)
    }
}

/// What is taken by a range, if it is.
fn taken_range(node: Node) -> Option<TakenRange>
    ensures { IsTakenBy node result }
{
    let kind = match node.state {
        RangeState::Free => return None,
        RangeState::Linear => Kind::Linear,
        RangeState::Optimal => Kind::Optimal,
    };
    Some(TakenRange {
        start: node.start,
        size: node.size,
        kind,
    })
}
