use crate::cases::{Candidates, Case, Earlier, place_of};
use crate::edits::{Change, InBatch};
use crate::hazards::QUEUES;
use crate::lists::EditList;
use crate::orders::covering;
use crate::uses::Use;
use std::alloc::AllocError;
use vk_model::{Action, Point};

/// The waits of the point's batch cover all commands, or the first signal after each earlier command
/// on another queue that touched the resources; or both.
pub fn wider_waits(
    case: &Case<'_>,
    uses: &[Use],
    found: &mut Candidates,
) -> Result<(), AllocError> {
    for which in [Earlier::Accessed, Earlier::Latest] {
        let mut earlier = Vec::new(case.alloc);
        for queue in 0..QUEUES {
            if queue != case.refused.queue {
                if let Some((index, _)) = case.earlier_on(which, queue, uses)? {
                    earlier.push(index)?;
                }
            }
        }
        wider_after(case, earlier.as_slice(), found)?;
    }
    Ok(())
}

/// The waits of the point's batch cover all commands, or the first signal after each of some earlier points,
/// whose places are given; or both.
pub fn wider_after(
    case: &Case<'_>,
    earlier: &[usize],
    found: &mut Candidates,
) -> Result<(), AllocError> {
    if earlier.is_empty() {
        return Ok(());
    }
    let mut edits = case.edits();
    widen_waits(case, &mut edits)?;
    found.add(edits)?;
    let mut edits = case.edits();
    widen_signals(case, earlier, &mut edits)?;
    found.add(edits)?;
    let mut edits = case.edits();
    widen_waits(case, &mut edits)?;
    widen_signals(case, earlier, &mut edits)?;
    found.add(edits)
}

/// The waits of the point's batch cover all commands.
fn widen_waits(case: &Case<'_>, edits: &mut EditList) -> Result<(), AllocError> {
    let Some(batch) = case.batch_of(&case.refused) else {
        return Ok(());
    };
    for (place, wait) in batch.waits.as_slice().iter().enumerate() {
        let all = covering(wait.semaphore, wait.value);
        if wait.stages != all.stages {
            let at = InBatch {
                place,
                ..place_of(&case.refused)
            };
            edits.wait(Change::Replace, at, all)?;
        }
    }
    Ok(())
}

/// The first signal after each of some earlier points on the queue of it covers all commands.
fn widen_signals(
    case: &Case<'_>,
    earlier: &[usize],
    edits: &mut EditList,
) -> Result<(), AllocError> {
    for index in earlier {
        if let Some(point) = signal_point(case, *index) {
            widen_signal(&point, edits)?;
        }
    }
    Ok(())
}

fn signal_point<'a>(case: &Case<'a>, index: usize) -> Option<Point<'a>> {
    let queue = case.earlier.get(index)?.queue;
    let after = case.earlier.iter().skip(index);
    let mut signals = after.filter(|point| {
        point.queue == queue && matches!(point.action, Action::Signal(_))
    });
    signals.next().copied()
}

fn widen_signal(point: &Point<'_>, edits: &mut EditList) -> Result<(), AllocError> {
    if let Action::Signal(signal) = point.action {
        let all = covering(signal.semaphore, signal.value);
        if signal.stages != all.stages {
            edits.signal(Change::Replace, place_of(point), all)?;
        }
    }
    Ok(())
}
