ghost use Rattle.std.specs.Prelude.{◌≡◌, ◌+◌, ◌++◌, ◌∷◌, ◌<◌, [], ℕ, IfOk, IfSome, OnOk, is_some, option_map};
ghost use Rattle.vk_model.specs.Basics.{holds};
ghost use Rattle.vk_model.specs.Trace.Objects.{made_by};
ghost use Rattle.vk_model.specs.Trace.Order.{Front, host, batches_of, batches_from, next_batch, start_batch};
ghost use Rattle.vk_queues.specs.PointViews.{batch_of};
ghost use Rattle.vk_queues.specs.Inner.Tallied.{tally_at};
ghost use Rattle.vk_queues.specs.IsWaiting.{IsWaiting, waiting_count};

use crate::choosing::{forget, line_of, next_line};
use crate::lines::Line;
use crate::submitted::Submitted;
use crate::tallies::Tallies;
use std::alloc::{AllocError, Global};
use vk_model::{Batch, Entry};

/// The batches that wait, and what decides when each is started.
///
/// Batches of a queue are started in the order of their submission. So the first one of each queue
/// alone is looked at, and of those whose waits are met the one that was submitted first is
/// started. Counters rise, so a wait that was met isn't looked at again, until an entry makes a
/// semaphore's id once more. The only error is want of memory, after which nothing is known of the
/// batches.
#[derive(Drop)]
pub struct Waiting<'a> {
    alloc: Global,
    tallies: Tallies,
    lines: Vec<Line<'a>>,
}

impl<'a> Waiting<'a> {
    /// Nothing has happened.
    pub fn new(alloc: Global) -> Waiting<'a>
        ensures { IsWaiting result 0 (record { past = []; waiting = [] }) }
    {
        Waiting {
            alloc,
            tallies: Tallies::new(alloc),
            lines: Vec::new(alloc),
        }
    }

    /// The host entry of this number has come, with the batches that it submits. Numbers rise: the
    /// count of `IsWaiting` is above those of the entries so far. It costs what the entry names.
    pub fn enter(&mut self, number: usize, entry: &'a Entry) -> Result<(), AllocError>
        ensures { OnOk result ((f : Front) → IsWaiting self.old number f
            → IsWaiting self.new (number + 1) (record { past = host number entry.now ∷ f.past; waiting = f.waiting ++ batches_of f.past number entry.now })) }
    {
        self.submit(number, entry)?;
        if self.is_made_again(entry) {
            forget(&mut self.lines);
        }
        self.tallies.enter(entry)?;
        Ok(())
    }

    fn is_made_again(&self, entry: &Entry) -> bool
        ensures { result ≡ holds (made_by entry.now) (λ id. is_some (tally_at self.now.tallies id).initial) }
    {
        match entry.made_id() {
            Some(id) => self.tallies.at(id).initial.is_some(),
            None => false,
        }
    }

    fn submit(&mut self, number: usize, entry: &'a Entry) -> Result<(), AllocError>
        ensures { OnOk result ((f : Front) → IsWaiting self.old number f
            → IsWaiting self.new (number + 1) (record { past = f.past; waiting = f.waiting ++ batches_of f.past number entry.now })) }
    {
        match entry {
            Entry::Submit { queue, batches } => {
                self.submit_to(number, *queue, batches.as_slice())
            }
            _ => Ok(()),
        }
    }

    fn submit_to(
        &mut self,
        number: usize,
        queue: u32,
        batches: &'a [Batch],
    ) -> Result<(), AllocError>
        ensures { OnOk result ((f : Front) → IsWaiting self.old number f
            → IsWaiting self.new (number + 1) (record { past = f.past; waiting = f.waiting ++ batches_from f.past number queue 0 batches.now })) }
    {
        let k = line_of(self.alloc, &mut self.lines, queue)?;
        let line = &mut self.lines[k];
        line.submit(self.alloc, &self.tallies, number, batches)?;
        Ok(())
    }

    /// Starts the batch that is next: it is taken out, and its signals are counted. It costs the
    /// number of queues with batches so far, and the waits and signals of the batch.
    pub fn start(&mut self) -> Result<Option<Submitted<'a>>, AllocError>
        ensures fewer { IfOk result (λ found. IfSome found (λ _. waiting_count self.new < waiting_count self.old)) }
        ensures next { IfOk result (λ found. (count : ℕ) (f : Front) → IsWaiting self.old count f
            → (option_map batch_of found ≡ next_batch f.past [] f.waiting) × IsWaiting self.new count (start_batch (next_batch f.past [] f.waiting) f)) }
    {
        let Some(next) = next_line(&mut self.lines, &self.tallies) else {
            return Ok(None);
        };
        let line = &mut self.lines[next.line];
        let Some(batch) = line.take_first() else {
            return Ok(None);
        };
        self.tallies.signal_all(batch.content.signals.as_slice())?;
        Ok(Some(batch))
    }
}
