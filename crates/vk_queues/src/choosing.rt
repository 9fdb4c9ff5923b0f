ghost use Rattle.std.specs.Prelude.{◌≡◌, ◌≢◌, ◌<◌, ℕ, List, Some, slice_get, MatchOption, IfOk, IfSome, OnOk, length, map};
ghost use Rattle.vk_model.specs.Trace.Point.{Past};
ghost use Rattle.vk_model.specs.Trace.Order.{SubmittedBatch};
ghost use Rattle.vk_queues.specs.declared.lines.Line.{Line as AnyLine};
ghost use Rattle.vk_queues.specs.Inner.Tallied.{IsTallied};
ghost use Rattle.vk_queues.specs.Inner.Lined.{AreAllMet, IsBest, IsLined, queued, submissions, HasLine};

use crate::lines::{Candidate, Line, better};
use crate::tallies::Tallies;
use std::alloc::{AllocError, Global};

/// Of the lines whose first batch can be started, the one whose batch was submitted first.
pub fn next_line(lines: &mut [Line<'_>], tallies: &Tallies) -> Option<Candidate>
    ensures lines { map queued lines.new ≡ map queued lines.old }
    ensures within { IfSome result (λ c. c.line < length lines.old) }
    ensures next { (past : Past) → IsTallied tallies.now past → AreAllMet past lines.old
        → AreAllMet past lines.new × IsBest (submissions past (map queued lines.old)) (length lines.old) result }
{
    let mut best = None;
    for k in 0..lines.len() {
        let line = &mut lines[k];
        let submission = line.ready_submission(tallies);
        best = better(best, k, submission);
    }
    best
}

/// Forgets which waits are known to be met.
pub fn forget(lines: &mut [Line<'_>])
    ensures lines { map queued lines.new ≡ map queued lines.old }
    ensures met { (past : Past) → AreAllMet past lines.new }
{
    for k in 0..lines.len() {
        let line = &mut lines[k];
        line.met = 0;
    }
}

/// The index of a queue's line, if it has one.
fn find_line(lines: &[Line<'_>], queue: u32) -> Option<usize>
    ensures { MatchOption result ((k : ℕ) (l : AnyLine) → slice_get lines.now k ≡ Some l → l.queue ≢ queue) (λ k. HasLine queue k lines.now) }
{
    for (k, line) in lines.iter().enumerate() {
        if line.queue == queue {
            return Some(k);
        }
    }
    None
}

/// The index of a queue's line, with a line for a queue that has none.
pub fn line_of(alloc: Global, lines: &mut Vec<Line<'_>>, queue: u32) -> Result<usize, AllocError>
    ensures within { IfOk result (λ k. k < length lines.new.items) }
    ensures here { IfOk result (λ k. HasLine queue k lines.new.items) }
    ensures lined { OnOk result ((waiting : List SubmittedBatch) → IsLined (map queued lines.old.items) waiting → IsLined (map queued lines.new.items) waiting) }
    ensures met { OnOk result ((past : Past) → AreAllMet past lines.old.items → AreAllMet past lines.new.items) }
{
    match find_line(lines.as_slice(), queue) {
        Some(k) => Ok(k),
        None => {
            let k = lines.len();
            lines.push(Line::new(alloc, queue))?;
            Ok(k)
        }
    }
}
