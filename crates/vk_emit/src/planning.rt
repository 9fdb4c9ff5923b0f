ghost use Rattle.std.specs.Prelude.{◌≡◌, ◌+◌, IfOk, OnOk};
ghost use Rattle.vk_model.specs.Trace.Point.{Past};
ghost use Rattle.vk_model.specs.Trace.Order.{Front, after_entry, order};
ghost use Rattle.vk_queues.specs.IsWaiting.{IsWaiting};
ghost use Rattle.vk_emit.specs.Steps.{past_of_steps, past_with};
ghost use Rattle.vk_emit.specs.Plans.{IsPlan, performed};

use std::alloc::{AllocError, Global};
use vk_model::{Config, Entry, First};
use vk_queues::Waiting;
use vk_row_text::Step;
use vk_run::{QueueCaches, outcome_of};
use vk_trace::Outcome;

/// What is performed of a trace, and what it has to give.
#[derive(Drop)]
pub struct Plan<'a> {
    /// The steps, in reference order: those of the whole trace, or of the entries before one that finds
    /// no room.
    pub steps: Vec<Step<'a>>,
    /// The bytes that each read has to give, with the number of its entry, and the entry that finds no
    /// room; or the first fault of a trace that breaks a rule, of which nothing is promised.
    pub outcome: Outcome,
}

/// What is performed of a trace, and what it has to give: the points of the trace in reference order,
/// and the bytes that it means, up to the first entry that finds no room in heaps of these sizes. The
/// only error is want of memory.
pub fn plan_of<'a>(
    alloc: Global,
    entries: &'a [Entry],
    config: Config,
) -> Result<Plan<'a>, AllocError>
    ensures { IfOk result (IsPlan config entries.now) }
{
    let outcome = outcome_of(alloc, entries, config, QueueCaches::Without, &mut First)?;
    let steps = steps_of(alloc, performed(entries, &outcome))?;
    Ok(Plan { steps, outcome })
}

/// The entries that are performed.
fn performed<'a>(entries: &'a [Entry], outcome: &Outcome) -> &'a [Entry]
    ensures { result.now ≡ performed entries.now outcome.now }
{
    match outcome {
        Outcome::Reads(_, Some(stop)) => {
            let count = entries.len().min(*stop);
            &entries[..count]
        }
        Outcome::Reads(_, None) | Outcome::Refused(_, _) => entries,
    }
}

/// The steps of entries, in reference order.
fn steps_of<'a>(alloc: Global, entries: &'a [Entry]) -> Result<Vec<Step<'a>>, AllocError>
    ensures { IfOk result (λ steps. past_of_steps steps.items ≡ order entries.now) }
{
    let mut steps = Vec::new(alloc);
    let mut waiting = Waiting::new(alloc);
    for (number, entry) in entries.iter().enumerate() {
        push_steps(&mut steps, &mut waiting, number, entry)?;
    }
    Ok(steps)
}

/// Adds the steps that come with an entry: its own, and the batches that are started then.
fn push_steps<'a>(
    steps: &mut Vec<Step<'a>>,
    waiting: &mut Waiting<'a>,
    number: usize,
    entry: &'a Entry,
) -> Result<(), AllocError>
    ensures { OnOk result ((before : Past) (f : Front) → IsWaiting waiting.old number f → past_with before steps.old.items ≡ f.past
        → (past_with before steps.new.items ≡ (after_entry number entry.now f).past) × IsWaiting waiting.new (number + 1) (after_entry number entry.now f)) }
{
    waiting.enter(number, entry)?;
    steps.push(Step::Entry(number, entry))?;
    while let Some(batch) = waiting.start()? {
        steps.push(Step::Batch(batch))?;
    }
    Ok(())
}
