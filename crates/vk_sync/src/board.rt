ghost use Rattle.std.specs.Prelude.{◌≡◌, ◌<◌, ◌≤◌, ◌+◌, ◌-◌, ◌^◌, ◌++◌, ◌∷◌, ◌↔◌, ◌≢◌, [], ℕ};
ghost use Rattle.std.specs.Prelude.{length, slice_index, slice_index_or, slice_set, Contains};
ghost use Rattle.std.specs.Prelude.{IsTrue, OnOk, OnErr, IfSome, IfNone};
ghost use Rattle.std.specs.Prelude.{true, false};
ghost use Rattle.std.specs.List.{sum_by};
ghost use Rattle.vk_sync.specs.Ready.{MayCome, count_on, ready, after_piece};
ghost use Rattle.vk_sync.specs.Inner.Fronts.{IsWithin, IsDone, IsFree, HasCommand};

use crate::left::PieceSet;
use crate::line::Line;
use crate::ready::Piece;
use crate::tree::SumTree;
use std::alloc::AllocError;

/// A command whose pieces are run.
#[derive(Drop)]
pub struct Command {
    /// The queue that it is on, 0 to 3.
    pub queue: u32,
    /// For how many commands of each queue it waits, the first ones.
    pub before: [usize; 4],
    /// The pieces that haven't run, rising.
    pub left: PieceSet,
}

/// The commands, and how far each queue has come.
#[derive(Drop)]
pub(crate) struct Board {
    pub(crate) commands: Vec<Command>,
    /// Of each queue, the numbers of its commands.
    pub(crate) lines: [Line; 4],
    /// Of each queue, how many commands at its front have no pieces left.
    pub(crate) done: [usize; 4],
    /// Of each queue, how many commands at its front wait for nothing more.
    pub(crate) free: [usize; 4],
    /// Of each command, how many of its pieces are ready.
    pub(crate) counts: SumTree,
}

impl Board {
    ghost use Rattle.vk_sync.specs.Inner.Boards.{IsBoard, IsLooseBoard, AreDoneBut};

    /// Appends a command, and counts none of its pieces yet. The only error is want of memory,
    /// which leaves all as it was.
    pub(crate) fn push(&mut self, command: Command) -> Result<(), AllocError>
        requires board { IsBoard self.old }
        requires comes { MayCome self.old.commands.items command.queue command.before }
        requires small { sum_by (λ c. length c.left) self.old.commands.items
            + length command.left < 2 ^ 64 }
        ensures loose { OnOk result (IsLooseBoard self.new) }
        ensures others { OnOk result (AreDoneBut command.queue self.new) }
        ensures commands { OnOk result (self.new.commands.items
            ≡ self.old.commands.items ++ command ∷ []) }
        ensures err { OnErr result (IsBoard self.new
            × (self.new.commands.items ≡ self.old.commands.items)) }
    {
        let number = self.commands.len();
        self.commands.reserve(1)?;
        note(
            &mut self.lines,
            &mut self.counts,
            command.queue as usize,
            number,
        )?;
        self.commands.push(command)?;
        Ok(())
    }

    /// A ready piece has run.
    pub(crate) fn finish(&mut self, piece: Piece)
        requires board { IsBoard self.old }
        requires ready { Contains (ready self.old.commands.items) piece }
        ensures board { IsBoard self.new }
        ensures commands { self.new.commands.items ≡ after_piece piece self.old.commands.items }
    {
        let command = &mut self.commands[piece.command];
        let queue = command.queue as usize;
        command.left.remove(piece.index);
        let left = command.left.len();
        self.counts.subtract(piece.command, 1);
        self.counts.skip_zero();
        // A queue moves on only where a command is finished.
        if left > 0 {
            return;
        }
        self.settle(queue);
    }

    /// The number of the command at a place of a queue, if there is one.
    fn number_at(&self, queue: usize, place: usize) -> Option<usize>
        requires queue { queue < 4 }
        requires loose { IsLooseBoard self.now }
        ensures some { IfSome result (λ j. (c : Command)
            × HasCommand self.now.commands.items queue place j c) }
        ensures none { IfNone result (count_on queue self.now.commands.items ≤ place) }
    {
        let line = &self.lines[queue];
        if place < line.len() {
            Some(line.at(place))
        } else {
            None
        }
    }

    /// How many commands are on a queue.
    fn count_of(&self, queue: usize) -> usize
        requires queue { queue < 4 }
        requires loose { IsLooseBoard self.now }
        ensures { result ≡ count_on queue self.now.commands.items }
    {
        self.lines[queue].len()
    }

    /// Whether a command may come next.
    pub(crate) fn may_come(&self, queue: u32, before: &[usize; 4]) -> bool
        requires { IsLooseBoard self.now }
        ensures { IsTrue result ↔ MayCome self.now.commands.items queue before.now }
    {
        let counts = [
            self.count_of(0),
            self.count_of(1),
            self.count_of(2),
            self.count_of(3),
        ];
        if queue >= 4 || !is_within(before, &counts) {
            return false;
        }
        let count = self.count_of(queue as usize);
        if count == 0 {
            return true;
        }
        match self.number_at(queue as usize, count - 1) {
            Some(last) => is_within(&self.commands[last].before, before),
            None => true,
        }
    }

    /// Whether the next command of a queue has no pieces left.
    fn is_next_done(&self, queue: usize) -> bool
        requires queue { queue < 4 }
        requires loose { IsLooseBoard self.now }
        ensures yes { result ≡ true → (j : ℕ) × (c : Command)
            × HasCommand self.now.commands.items queue (slice_index self.now.done queue) j c
            × (c.left ≡ []) }
        ensures no { result ≡ false → IsDone self.now.commands.items self.now.done queue }
    {
        match self.number_at(queue, self.done[queue]) {
            Some(number) => self.commands[number].left.len() == 0,
            None => false,
        }
    }

    /// The number of the next command of a queue, if it waits for nothing more.
    fn next_free(&self, queue: usize) -> Option<usize>
        requires queue { queue < 4 }
        requires loose { IsLooseBoard self.now }
        ensures some { IfSome result (λ j. (c : Command)
            × HasCommand self.now.commands.items queue (slice_index self.now.free queue) j c
            × IsWithin c.before self.now.done) }
        ensures none { IfNone result
            (IsFree self.now.commands.items self.now.done self.now.free queue) }
    {
        let Some(number) = self.number_at(queue, self.free[queue]) else {
            return None;
        };
        if is_within(&self.commands[number].before, &self.done) {
            Some(number)
        } else {
            None
        }
    }

    /// Moves a queue past its commands that are finished.
    fn pass(&mut self, queue: usize)
        requires queue { queue < 4 }
        requires loose { IsLooseBoard self.old }
        requires others { AreDoneBut queue self.old }
        ensures loose { IsLooseBoard self.new }
        ensures commands { self.new.commands ≡ self.old.commands }
        ensures done { (q : ℕ) → q < 4 → IsDone self.new.commands.items self.new.done q }
    {
        while self.is_next_done(queue) {
            self.done[queue] += 1;
        }
    }

    /// Counts the pieces of a queue's commands that wait for nothing more.
    fn count_free(&mut self, queue: usize)
        requires queue { queue < 4 }
        requires loose { IsLooseBoard self.old }
        ensures loose { IsLooseBoard self.new }
        ensures commands { self.new.commands ≡ self.old.commands }
        ensures done { self.new.done ≡ self.old.done }
        ensures free { IsFree self.new.commands.items self.new.done self.new.free queue }
        ensures others { (q : ℕ) → q ≢ queue
            → slice_index self.new.free q ≡ slice_index self.old.free q }
    {
        while let Some(number) = self.next_free(queue) {
            let pieces = self.commands[number].left.len();
            self.counts.add(number, pieces);
            self.free[queue] += 1;
        }
    }

    /// Brings all queues up to date when commands of one of them have come or are finished.
    pub(crate) fn settle(&mut self, queue: usize)
        requires queue { queue < 4 }
        requires loose { IsLooseBoard self.old }
        requires others { AreDoneBut queue self.old }
        ensures board { IsBoard self.new }
        ensures commands { self.new.commands ≡ self.old.commands }
    {
        self.pass(queue);
        for each in 0..4 {
            self.count_free(each);
        }
    }
}

/// Notes the number of a command that comes next, on its queue and with no pieces counted. The
/// only error is want of memory, which leaves all as it was.
fn note(
    lines: &mut [Line; 4],
    counts: &mut SumTree,
    queue: usize,
    number: usize,
) -> Result<(), AllocError>
    requires { queue < length lines.old }
    ensures lines { OnOk result (lines.new
        ≡ slice_set lines.old queue (slice_index_or lines.old queue [] ++ number ∷ [])) }
    ensures counts { OnOk result (counts.new ≡ counts.old ++ 0 ∷ []) }
    ensures err { OnErr result ((lines.new ≡ lines.old) × (counts.new ≡ counts.old)) }
{
    let line = &mut lines[queue];
    line.push(number)?;
    if let Err(error) = counts.push_zero() {
        line.pop();
        return Err(error);
    }
    Ok(())
}

/// Whether no number is more than its like.
pub(crate) fn is_within(before: &[usize; 4], done: &[usize; 4]) -> bool
    ensures { IsTrue result ↔ IsWithin before.now done.now }
{
    before[0] <= done[0] && before[1] <= done[1] && before[2] <= done[2] && before[3] <= done[3]
}
