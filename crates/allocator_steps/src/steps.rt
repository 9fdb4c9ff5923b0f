use crate::drawing::Drawing;
use crate::live_block::LiveBlock;
use crate::observers::Observer;
use crate::plan::Plan;
use std::alloc::AllocError;
use vk_model::SubFault;

/// Makes the steps of a plan on a block: requests, until as many ranges are live as may be or one
/// found no room, and then ranges are given back.
pub fn run<B: LiveBlock, O: Observer>(
    block: &mut B,
    plan: &Plan,
    observer: &mut O,
) -> anyhow::Result<()> {
    let mut drawing = Drawing::new(plan.seed);
    let mut returns = 0;
    let mut was_return = false;
    for step in 0..plan.steps {
        let is_return = returns > 0 && block.live() > 0;
        if is_return != was_return {
            observer.turned(step, is_return)?;
            was_return = is_return;
        }
        if is_return {
            returns -= 1;
            give_back(block, plan, &mut drawing, observer)?;
        } else {
            let has_room = take(block, plan, &mut drawing, observer)?;
            returns = if has_room && (block.live() as u64) < plan.live {
                0
            } else if plan.returns > 0 {
                plan.returns
            } else {
                drawing.returns(block.live())
            };
        }
        observer.made(step, block)?;
    }
    Ok(())
}

/// Asks for a range, and answers whether there was room.
fn take<B: LiveBlock, O: Observer>(
    block: &mut B,
    plan: &Plan,
    drawing: &mut Drawing,
    observer: &mut O,
) -> anyhow::Result<bool> {
    let request = drawing.request(plan);
    let start = match block.allocate(request) {
        Ok(start) => Some(start),
        Err(SubFault::NoRoom) => None,
        Err(SubFault::NoMemory) => return Err(AllocError.into()),
    };
    observer.allocated(request, start)?;
    Ok(start.is_some())
}

/// Gives a range back, where one is live.
fn give_back<B: LiveBlock, O: Observer>(
    block: &mut B,
    plan: &Plan,
    drawing: &mut Drawing,
    observer: &mut O,
) -> anyhow::Result<()> {
    let which = drawing.which(plan.order, block.live());
    if let Some(start) = block.give_back(which) {
        observer.given_back(start)?;
    }
    Ok(())
}
