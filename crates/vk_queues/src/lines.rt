ghost use Rattle.std.specs.Prelude.{◌≡◌, ◌+◌, ◌++◌, ◌<◌, ◌≤◌, ◌∷◌, [], ℕ, MatchOption, OnOk, IfSome, IsTrue, ◌↔◌, false, true, length, map, take, List, Option, slice_get, Some};
ghost use Rattle.std.specs.List.{list_all};
ghost use Rattle.vk_model.specs.Trace.Point.{Past};
ghost use Rattle.vk_model.specs.Trace.Order.{is_met, batches_from};
ghost use Rattle.vk_queues.specs.Inner.Tallied.{IsTallied};
ghost use Rattle.vk_queues.specs.PointViews.{batch_of};
ghost use Rattle.vk_queues.specs.Inner.Lined.{AreMet, ready_submission, Precedes, batches_on, IsBest};
ghost use Rattle.vk_queues.specs.declared.lines.Submission.{Submission as AnySubmission};

use crate::submitted::{Submitted, live_waits};
use crate::tallies::Tallies;
use std::alloc::{AllocError, Global};
use std::collections::VecDeque;
use vk_model::{Batch, SemaphoreSubmit};

/// When a batch was submitted: its entry, and its number in the submit.
#[derive(Clone, Copy)]
pub struct Submission {
    /// The entry that submits it.
    pub entry: usize,
    /// The number of the batch in it.
    pub batch: usize,
}

impl Submission {
    fn precedes(self, other: Submission) -> bool
        ensures { IsTrue result ↔ Precedes self other }
    {
        self.entry < other.entry || self.entry == other.entry && self.batch < other.batch
    }
}

/// A line whose first batch can be started.
#[derive(Clone, Copy)]
pub struct Candidate {
    /// The index of the line.
    pub line: usize,
    /// When the batch was submitted.
    pub submission: Submission,
}

/// The best candidate, with one line more.
pub fn better(
    best: Option<Candidate>,
    line: usize,
    submission: Option<Submission>,
) -> Option<Candidate>
    ensures within { IfSome best (λ c. c.line < line) → IfSome result (λ c. c.line < line + 1) }
    ensures best { (submissions : List (Option AnySubmission)) → slice_get submissions line ≡ Some submission → IsBest submissions line best → IsBest submissions (line + 1) result }
{
    let Some(submission) = submission else {
        return best
    };
    match best {
        Some(known) if !submission.precedes(known.submission) => best,
        _ => Some(Candidate { line, submission }),
    }
}

/// The batches of a queue that wait, in the order of their submission.
#[derive(Drop)]
pub struct Line<'a> {
    /// The number of the queue.
    pub queue: u32,
    /// How many waits of the first batch are known to be met; 0 where no batch waits.
    pub met: usize,
    /// The batches.
    pub batches: VecDeque<Submitted<'a>>,
}

/// How many of the first waits are met, where so many are known to be.
fn count_met(tallies: &Tallies, waits: &[SemaphoreSubmit], known: usize) -> usize
    ensures kept { known ≤ result }
    ensures met { (past : Past) → IsTallied tallies.now past → list_all (is_met past) (take known waits.now) ≡ true
        → (list_all (is_met past) (take result waits.now) ≡ true) × (result < length waits.now → list_all (is_met past) waits.now ≡ false) }
{
    let mut met = known;
    while met < waits.len() && tallies.has_reached(&waits[met]) {
        met += 1;
    }
    met
}

impl<'a> Line<'a> {
    /// No batch waits.
    pub fn new(alloc: Global, queue: u32) -> Line<'a>
        ensures queue { result.queue ≡ queue }
        ensures batches { batches_on result ≡ [] }
        ensures met { result.met ≡ 0 }
    {
        Line {
            queue,
            met: 0,
            batches: VecDeque::new(alloc),
        }
    }

    /// When the first batch was submitted, where its waits are met. What is known of them is kept.
    pub fn ready_submission(&mut self, tallies: &Tallies) -> Option<Submission>
        ensures queue { self.new.queue ≡ self.old.queue }
        ensures batches { self.new.batches ≡ self.old.batches }
        ensures kept { self.old.met ≤ self.new.met }
        ensures submission { (past : Past) → IsTallied tallies.now past → AreMet past self.old
            → AreMet past self.new × (result ≡ ready_submission past (batches_on self.old)) }
    {
        let Some(first) = self.batches.front() else {
            return None;
        };
        let submission = Submission {
            entry: first.entry,
            batch: first.batch,
        };
        let met = count_met(tallies, first.waits.as_slice(), self.met);
        let is_ready = first.waits.len() <= met;
        self.met = met;
        if is_ready { Some(submission) } else { None }
    }

    /// Adds the batches of a submit.
    pub fn submit(
        &mut self,
        alloc: Global,
        tallies: &Tallies,
        number: usize,
        batches: &'a [Batch],
    ) -> Result<(), AllocError>
        ensures queue { self.new.queue ≡ self.old.queue }
        ensures met { self.new.met ≡ self.old.met }
        ensures batches { OnOk result ((past : Past) → IsTallied tallies.now past
            → batches_on self.new ≡ batches_on self.old ++ batches_from past number self.old.queue 0 batches.now) }
    {
        for (batch, content) in batches.iter().enumerate() {
            let waits = live_waits(alloc, tallies, content.waits.as_slice())?;
            self.batches.push_back(Submitted {
                entry: number,
                batch,
                queue: self.queue,
                content,
                waits,
            })?;
        }
        Ok(())
    }

    /// Takes the first batch out.
    pub fn take_first(&mut self) -> Option<Submitted<'a>>
        ensures queue { self.new.queue ≡ self.old.queue }
        ensures met { self.new.met ≡ 0 }
        ensures batches { MatchOption result (batches_on self.old ≡ []) (λ t. batches_on self.old ≡ batch_of t ∷ batches_on self.new) }
    {
        self.met = 0;
        self.batches.pop_front()
    }
}
