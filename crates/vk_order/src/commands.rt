ghost use Rattle.std.specs.Prelude.{◌≡◌, ◌∷◌, ◌<◌, ◌≤◌, ℕ, List, nat_lt, slice_index, IfOk, OnOk, Contains, Some, length};
ghost use Rattle.vk_model.specs.Sync.Node.{Node, Runs};
ghost use Rattle.vk_model.specs.Sync.Before.{before};
ghost use Rattle.vk_order.specs.declared.lines.Line.TheVariants.{Commands as OfCommands};
ghost use Rattle.vk_model.specs.Trace.PointViews.{point_of};
ghost use Rattle.vk_order.specs.Lines.{line_of, place};
ghost use Rattle.vk_order.specs.Inner.Fronts.{clock_in};
ghost use Rattle.vk_order.specs.Inner.Kept.{clock_at};
ghost use Rattle.vk_order.specs.Inner.Tallies.{lines_of};
ghost use Rattle.vk_order.specs.Frontiers.{IsFrontier};

use crate::act::Act;
use crate::acts::Row;
use crate::counts::counts_at;
use crate::frontier::Frontier;
use crate::lines::Line;
use crate::tallies::line_index;
use std::alloc::AllocError;
use vk_model::{Cmd, Point};

impl Frontier {
    /// Adds a clear or copy command that comes next, the only node of its point, and answers of each
    /// queue how many of its commands are before it: the first ones of the queue. The errors are
    /// those of `advance`.
    pub fn add_command(
        &mut self,
        point: &Point<'_>,
        command: &Cmd,
    ) -> Result<[usize; 4], AllocError>
        ensures added { OnOk result ((ns : List Node) (n : Node) → IsFrontier self.old ns → n ≡ record { number = length ns; point = point_of point.now; act = Runs command.now } → IsFrontier self.new (n ∷ ns)) }
        ensures first { IfOk result (λ counts. (ns : List Node) (n m : Node) (q : ℕ) → IsFrontier self.old ns → n ≡ record { number = length ns; point = point_of point.now; act = Runs command.now } → q < 4 → Contains ns m → line_of m ≡ Some (OfCommands q) → before (n ∷ ns) m n ≡ nat_lt (place ns (OfCommands q) m.number) (slice_index counts q)) }
        ensures there { IfOk result (λ counts. (ns : List Node) (q : ℕ) → IsFrontier self.old ns → q < 4 → slice_index counts q ≤ place ns (OfCommands q) (length ns)) }
    {
        let row = Row {
            point: *point,
            act: Act::Runs(command),
        };
        let at = self.find_row(&row)?;
        let counts = self.commands_at_hand();
        self.add_at(&row, at)?;
        Ok(counts)
    }

    /// How many commands of each queue come before what the front at hand is of.
    fn commands_at_hand(&self) -> [usize; 4]
        ensures { (q : ℕ) → q < 4 → slice_index result q ≡ clock_at (lines_of self.now.tallies.items) (clock_in self.now.front) (OfCommands q) }
    {
        [
            self.clock_at_hand(0),
            self.clock_at_hand(1),
            self.clock_at_hand(2),
            self.clock_at_hand(3),
        ]
    }

    /// The same of one queue.
    fn clock_at_hand(&self, queue: u32) -> usize
        ensures { result ≡ clock_at (lines_of self.now.tallies.items) (clock_in self.now.front) (OfCommands queue) }
    {
        match line_index(self.tallies.as_slice(), Line::Commands(queue)) {
            Some(at) => counts_at(self.front.counts.as_slice(), at).clock as usize,
            None => 0,
        }
    }
}
