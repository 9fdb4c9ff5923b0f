ghost use Rattle.std.specs.Prelude.{◌≡◌, ◌++◌, OnOk, string_bytes};
ghost use Rattle.std.specs.List.{flat_map};
ghost use Rattle.vk_row_text.specs.Steps.{step_lines};

use crate::batches::push_batch;
use crate::entries::push_entry;
use std::alloc::{AllocError, Global};
use vk_model::Entry;
use vk_queues::Submitted;

/// One step of a plan.
#[derive(Drop)]
pub enum Step<'a> {
    /// The entry of this number. A submit does nothing by itself: its batches are steps of their own.
    Entry(usize, &'a Entry),
    /// A batch, where it can be started: its waits, its commands, its signals.
    Batch(Submitted<'a>),
}

/// Adds the lines of steps: a row for each point, in their order.
pub fn push_steps(alloc: Global, out: &mut String, steps: &[Step<'_>]) -> Result<(), AllocError>
    ensures { OnOk result (string_bytes out.new ≡ string_bytes out.old ++ flat_map step_lines steps.now) }
{
    for step in steps {
        push_step(alloc, out, step)?;
    }
    Ok(())
}

/// Adds the lines of a step.
fn push_step(alloc: Global, out: &mut String, step: &Step<'_>) -> Result<(), AllocError>
    ensures { OnOk result (string_bytes out.new ≡ string_bytes out.old ++ step_lines step.now) }
{
    match step {
        Step::Entry(number, entry) => push_entry(alloc, out, *number, *entry),
        Step::Batch(batch) => push_batch(alloc, out, batch),
    }
}
