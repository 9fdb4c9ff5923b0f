ghost use Rattle.std.specs.Prelude.{◌≡◌, ◌+◌, ◌∷◌, [], ℕ, OnOk};
ghost use Rattle.vk_model.specs.Trace.Point.{Past, Point as AnyPoint, Host};
ghost use Rattle.vk_model.specs.declared.entry.Entry.{Entry as AnyEntry};
ghost use Rattle.vk_model.specs.Trace.Structure.{IsOrdered};
ghost use Rattle.vk_model.specs.Sync.Node.{nodes, Hosts};
ghost use Rattle.vk_model.specs.Sync.Complete as complete;
ghost use Rattle.vk_model.specs.Trace.PointViews.{point_of};
ghost use Rattle.vk_order.specs.Frontiers.{IsFrontier, IsNewNode};
ghost use Rattle.vk_touches.specs.Touched.{next_node};
ghost use Rattle.vk_history.specs.Counted.{count_at};
ghost use Rattle.vk_history.specs.Uses.{AreUses, times_submitted};

use crate::counts::Counts;
use crate::last_uses::LastUses;
use crate::used::{count_batches, discount_command};
use std::alloc::{AllocError, Global};
use vk_model::{Action, Entry, Point};
use vk_order::{Frontier, NewNode};

/// How resources are used by commands that were submitted.
#[derive(Drop)]
pub struct Uses {
    /// How often the commands that wait name each.
    waiting: Counts,
    /// Where the last nodes that name each are.
    last: LastUses,
}

impl Uses {
    /// Before the first point.
    pub fn new(alloc: Global) -> Uses
        ensures { AreUses result [] }
    {
        Uses {
            waiting: Counts::new(alloc),
            last: LastUses::new(alloc),
        }
    }

    /// Whether a submitted command that names a resource isn't known complete at a host entry that
    /// comes next, which sees this.
    pub fn is_busy(&self, resource: u32, new_node: &NewNode<'_>) -> bool
        ensures { (past : Past) (p : AnyPoint) (x : AnyEntry) → IsOrdered past → p.action ≡ Host x → AreUses self.now past → IsNewNode (nodes past) (next_node past p (Hosts x)) new_node.now
            → result ≡ complete.is_busy past (nodes (p ∷ past)) (next_node past p (Hosts x)) resource }
    {
        self.waiting.has(resource) || self.last.is_unfinished(resource, new_node)
    }

    /// Takes the next point, by how many nodes there are on each line.
    pub fn note(&mut self, point: &Point<'_>, frontier: &Frontier) -> Result<(), AllocError>
        ensures { OnOk result ((past : Past) → IsOrdered (point_of point.now ∷ past) → IsFrontier frontier.now (nodes past) → AreUses self.old past → AreUses self.new (point_of point.now ∷ past)) }
    {
        match point.action {
            Action::Host(entry) => {
                self.note_entry(entry)?;
                Ok(())
            }
            Action::Run(command) => {
                discount_command(&mut self.waiting, command);
                self.last.note(point.queue, command, frontier)?;
                Ok(())
            }
            Action::Wait(_) => Ok(()),
            Action::Signal(_) => Ok(()),
        }
    }

    fn note_entry(&mut self, entry: &Entry) -> Result<(), AllocError>
        ensures waiting { OnOk result ((r : ℕ) → count_at self.new.waiting r ≡ count_at self.old.waiting r + times_submitted r entry.now) }
        ensures last { OnOk result (self.new.last ≡ self.old.last) }
    {
        match entry {
            Entry::Submit { batches, .. } => {
                count_batches(&mut self.waiting, batches.as_slice())?;
                Ok(())
            }
            _ => Ok(()),
        }
    }
}
