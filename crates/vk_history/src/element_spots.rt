ghost use Rattle.std.specs.Prelude.{◌≡◌, ◌∷◌, ℕ, List, IfSome, length};
ghost use Rattle.vk_model.specs.Trace.Point.{Point as AnyPoint};
ghost use Rattle.vk_model.specs.Sync.Node.{Node};
ghost use Rattle.vk_model.specs.Sync.Before.{IsNumbered};
ghost use Rattle.vk_order.specs.Barriers.{element_node};
ghost use Rattle.vk_order.specs.Frontiers.{IsFrontier};
ghost use Rattle.vk_history.specs.Inner.Passing.{AreSpots, spot_after};

use crate::last_uses::ElementCounts;
use vk_model::Element;
use vk_order::{Act, Frontier, Line};
use vk_touches::Spot;

/// Where the next element of a barrier on a queue is, by its line.
#[derive(Clone, Copy)]
pub struct ElementSpots {
    /// The queue.
    pub queue: u32,
    /// How many elements its lines have.
    pub counts: ElementCounts,
    /// How many nodes there are.
    pub number: usize,
}

impl ElementSpots {
    /// Of the nodes so far.
    pub fn of(frontier: &Frontier, queue: u32) -> ElementSpots
        ensures { (ns : List Node) → IsFrontier frontier.now ns → AreSpots result queue ns }
    {
        ElementSpots {
            queue,
            counts: ElementCounts::of(frontier, queue),
            number: frontier.nodes(),
        }
    }

    /// The spot of an element, which is the next node. None where there are too many.
    pub fn take(&mut self, element: &Element) -> Option<Spot>
        ensures { IfSome result (λ spot. (ns : List Node) (p : AnyPoint) → IsNumbered ns → AreSpots self.old p.queue ns
            → (spot ≡ spot_after ns (element_node p (length ns) element.now)) × AreSpots self.new p.queue (element_node p (length ns) element.now ∷ ns)) }
    {
        let line = Line::of(self.queue, &Act::Barrier(element));
        let number = self.number;
        let place = self.counts.take(line)?;
        self.number = number.checked_add(1)?;
        Some(Spot {
            line,
            place,
            number,
        })
    }
}
