ghost use Rattle.std.specs.Prelude.{◌≡◌, ℕ, IfOk, IsTrue, ◌↔◌, not, ◌&&◌, is_some};
ghost use Rattle.std.specs.List.{filter};
ghost use Rattle.vk_queues.specs.Inner.Tallied.{tally_at, has_reached};

use crate::tallies::Tallies;
use std::alloc::{AllocError, Global};
use vk_model::{Batch, SemaphoreSubmit};

/// A submitted batch.
#[derive(Drop)]
pub struct Submitted<'a> {
    /// The number of its entry.
    pub entry: usize,
    /// Its number in the submit.
    pub batch: usize,
    /// The number of its queue.
    pub queue: u32,
    /// What was submitted.
    pub content: &'a Batch,
    /// Those of its waits whose id was a semaphore when the submit came.
    pub waits: Vec<SemaphoreSubmit>,
}

/// The waits whose id is a semaphore that is live.
pub fn live_waits(
    alloc: Global,
    tallies: &Tallies,
    waits: &[SemaphoreSubmit],
) -> Result<Vec<SemaphoreSubmit>, AllocError>
    ensures { IfOk result (λ kept. kept.items ≡ filter (λ w. let t = tally_at tallies.now w.semaphore in not t.is_ended && is_some t.initial) waits.now) }
{
    waits
        .iter()
        .filter(|wait| tallies.is_semaphore(wait.semaphore))
        .copied()
        .collect(alloc)
}
