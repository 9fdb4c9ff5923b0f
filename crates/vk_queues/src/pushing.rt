ghost use Rattle.std.specs.Prelude.{◌≡◌, OnOk};
ghost use Rattle.vk_model.specs.Trace.Point.{Past, Run, Signal, Wait};
ghost use Rattle.vk_model.specs.Trace.Order.{actions, started};
ghost use Rattle.vk_queues.specs.PointViews.{batch_of, past_after};

use crate::submitted::Submitted;
use std::alloc::AllocError;
use vk_model::{Action, Cmd, Point, SemaphoreSubmit};

/// Adds the points of a batch: its waits, its commands, its signals.
pub fn push_batch<'a>(points: &mut Vec<Point<'a>>, batch: &Submitted<'a>) -> Result<(), AllocError>
    ensures { OnOk result ((past : Past) → past_after past points.new.items ≡ started (batch_of batch.now) (past_after past points.old.items)) }
{
    push_waits(points, batch, batch.content.waits.as_slice())?;
    push_commands(points, batch, batch.content.commands.as_slice())?;
    push_signals(points, batch, batch.content.signals.as_slice())
}

fn point_at<'a>(batch: &Submitted<'a>, place: usize, action: Action<'a>) -> Point<'a>
    ensures { result ≡ record { entry = batch.now.entry; batch = batch.now.batch; place = place; queue = batch.now.queue; action = action.entry } }
{
    Point {
        entry: batch.entry,
        batch: batch.batch,
        place,
        queue: batch.queue,
        action,
    }
}

#[tactic(auto, using(crate::proofs::Laying::pushes))]
fn push_waits<'a>(
    points: &mut Vec<Point<'a>>,
    batch: &Submitted<'a>,
    waits: &'a [SemaphoreSubmit],
) -> Result<(), AllocError>
    ensures { OnOk result ((past : Past) → past_after past points.new.items ≡ actions Wait (batch_of batch.now) 0 waits.now (past_after past points.old.items)) }
{
    for (place, wait) in waits.iter().enumerate() {
        points.push(point_at(batch, place, Action::Wait(wait)))?;
    }
    Ok(())
}

#[tactic(auto, using(crate::proofs::Laying::pushes))]
fn push_commands<'a>(
    points: &mut Vec<Point<'a>>,
    batch: &Submitted<'a>,
    commands: &'a [Cmd],
) -> Result<(), AllocError>
    ensures { OnOk result ((past : Past) → past_after past points.new.items ≡ actions Run (batch_of batch.now) 0 commands.now (past_after past points.old.items)) }
{
    points.reserve(commands.len())?;
    for (place, command) in commands.iter().enumerate() {
        points.push(point_at(batch, place, Action::Run(command)))?;
    }
    Ok(())
}

#[tactic(auto, using(crate::proofs::Laying::pushes))]
fn push_signals<'a>(
    points: &mut Vec<Point<'a>>,
    batch: &Submitted<'a>,
    signals: &'a [SemaphoreSubmit],
) -> Result<(), AllocError>
    ensures { OnOk result ((past : Past) → past_after past points.new.items ≡ actions Signal (batch_of batch.now) 0 signals.now (past_after past points.old.items)) }
{
    for (place, signal) in signals.iter().enumerate() {
        points.push(point_at(batch, place, Action::Signal(signal)))?;
    }
    Ok(())
}
