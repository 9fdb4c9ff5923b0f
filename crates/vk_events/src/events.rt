ghost use Rattle.std.specs.Prelude.{◌≡◌, ◌<◌, ◌∷◌, ◌++◌, [], List, Bool, OnOk, IfSome, IfNone, IsTrue, Contains, length, false};
ghost use Rattle.vk_model.specs.Sync.Node.{Node, nodes};
ghost use Rattle.vk_model.specs.Run.Runs.{Stage, Name};
ghost use Rattle.vk_model.specs.Run.CachedRuns.{happening};
ghost use Rattle.vk_order.specs.NodeViews.{act_of, node_of};
ghost use Rattle.vk_model.specs.Sync.Edge as edge;
ghost use Rattle.vk_events.specs.Happens.{AreFronts, IsEvent, is_finished, is_free_of, unseen, freed_by};
ghost use Rattle.vk_events.specs.IsEvents.{IsEvents, MayFollow, MayAdd, MayAdvance, AreKnown, untaken};

use crate::event::Event;
use crate::hanging::Hanging;
use std::alloc::{AllocError, Global};
use vk_order::{Act, Row};

/// The nodes so far, as far as they decide which dependencies, waits and signals happen: those that
/// haven't happened wait for commands of four queues, and those that have are taken once.
#[derive(Drop)]
pub struct Events {
    hanging: Hanging,
    /// Of each dependency, wait and signal, in reference order.
    events: Vec<Event>,
    /// How many nodes there are.
    nodes: usize,
    /// Of each queue, how many commands there are.
    started: [usize; 4],
}

impl Events {
    /// No nodes.
    pub fn new(alloc: Global) -> Events
        ensures { (finished : Node → Bool) → IsEvents result [] finished [] }
    {
        Events {
            hanging: Hanging::new(alloc),
            events: Vec::new(alloc),
            nodes: 0,
            started: [0; 4],
        }
    }

    /// The next node has come, after the first `counts` commands of each queue, where the first
    /// `fronts` of each are finished. If it is a dependency, a wait or a signal, room is taken for
    /// all that will be wanted for it. The only error is want of memory, or of numbers; what comes
    /// after it isn't said then.
    pub fn add(
        &mut self,
        row: &Row<'_>,
        counts: [usize; 4],
        fronts: [usize; 4],
    ) -> Result<(), AllocError>
        requires { MayAdd self.old row.now counts fronts }
        ensures left { OnOk result ((ns : List Node) (was now : Node → Bool) (left : List Node) → IsEvents self.old ns was left
            → MayFollow ns (node_of (length ns) row.now) was now counts fronts
            → IsEvents self.new (node_of (length ns) row.now ∷ ns) now
            (left ++ freed_by (node_of (length ns) row.now) ns now)) }
        ensures unseen { OnOk result ((ns : List Node) (was now seen : Node → Bool) → IsEvents self.old ns was (unseen ns was seen)
            → MayFollow ns (node_of (length ns) row.now) was now counts fronts
            → seen (node_of (length ns) row.now) ≡ false
            → IsEvents self.new (node_of (length ns) row.now ∷ ns) now
            (unseen (node_of (length ns) row.now ∷ ns) now seen)) }
    {
        let Some(nodes) = self.nodes.checked_add(1) else {
            return Err(AllocError);
        };
        let queue = row.point.queue as usize;
        let place = self.started[queue];
        self.hanging.advance(fronts);
        let Some(event) = Event::of(row, self.nodes, place) else {
            self.started[queue] = place + usize::from(is_command(row));
            self.nodes = nodes;
            return Ok(());
        };
        self.hanging.add(counts, fronts)?;
        self.events.push(event)?;
        self.nodes = nodes;
        Ok(())
    }

    /// More commands are finished: the first so many of each queue. It takes no memory.
    pub fn advance(&mut self, fronts: [usize; 4])
        requires { MayAdvance self.old fronts }
        ensures unseen { (ns : List Node) (was now : Node → Bool) → IsEvents self.old ns was []
            → ((m : Node) → Contains ns m → IsTrue (was m) → IsTrue (now m)) → AreFronts ns now fronts
            → IsEvents self.new ns now (unseen ns now (is_free_of ns was)) }
        ensures happening { (s : Stage) (x : Name) → IsEvents self.old (nodes s.front.past) (is_finished s.front.past s.done) []
            → AreFronts (nodes s.front.past) (is_finished s.front.past (x ∷ s.done)) fronts
            → IsEvents self.new (nodes s.front.past) (is_finished s.front.past (x ∷ s.done))
            (happening s (record s { done = x ∷ s.done })) }
    {
        self.hanging.advance(fronts);
    }

    /// How many nodes there are.
    pub fn node_count(&self) -> usize
        ensures { (ns : List Node) (finished : Node → Bool) (left : List Node) → IsEvents self.now ns finished left → result ≡ length ns }
    {
        self.nodes
    }

    /// Takes the first in reference order of those that have happened. It takes no memory.
    pub fn take_next(&mut self) -> Option<Event>
        requires { AreKnown self.old }
        ensures some { IfSome result (λ e. (ns : List Node) (finished : Node → Bool) (left : List Node)
            → IsEvents self.old ns finished left
            → (n : Node) × (rest : List Node) × (left ≡ n ∷ rest) × IsEvent e ns n
            × IsEvents self.new ns finished rest) }
        ensures fewer { IfSome result (λ _. untaken self.new < untaken self.old) }
        ensures none { IfNone result ((ns : List Node) (finished : Node → Bool) (left : List Node)
            → IsEvents self.old ns finished left → (left ≡ []) × IsEvents self.new ns finished []) }
    {
        let Some(number) = self.hanging.take_next() else {
            return None;
        };
        Some(self.events[number as usize])
    }
}

/// Whether a row is of a clear or copy command.
fn is_command(row: &Row<'_>) -> bool
    ensures { result ≡ edge.is_command (act_of row.now.act) }
{
    matches!(row.act, Act::Runs(_))
}
