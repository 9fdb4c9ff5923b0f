ghost use Rattle.std.specs.Prelude.{◌≡◌, ◌≢◌, ◌<◌, get_or, ◌+◌, ◌++◌, ◌∷◌, [], ℕ, List, OnOk, IfSome, Bool, true, false, not, ◌&&◌, IsTrue, Contains, Some, None, length, slice_get, map, if◌then◌else◌, option_map};
ghost use Rattle.std.specs.List.{list_any};
ghost use Rattle.vk_ids.specs.Ids.{value_of};
ghost use Rattle.vk_model.specs.Trace.Point.{Past, Run};
ghost use Rattle.vk_model.specs.Basics.{option_list};
ghost use Rattle.vk_model.specs.World.Ownership.{uses, named_by};
ghost use Rattle.vk_model.specs.Sync.Node.{Node, with_acts, command_acts, Depends, Barrier};
ghost use Rattle.vk_model.specs.Sync.Before.{before, IsNumbered};
ghost use Rattle.vk_model.specs.Trace.PointViews.{point_of, action_of};
ghost use Rattle.vk_order.specs.Frontiers.{IsFrontier, IsNewNode};
ghost use Rattle.vk_model.specs.Trace.Point.{Point as AnyPoint};
ghost use Rattle.vk_order.specs.declared.lines.Line.TheVariants.{Elements as OfElements};
ghost use Rattle.vk_order.specs.Lines.{same_bit};
ghost use Rattle.vk_history.specs.declared.last_uses.LastUse.{LastUse as AnyUse};
ghost use Rattle.vk_history.specs.Uses.{uses_in, AreLast, IsKeptNow, AreKeptNow, elements_on, AreElementCounts, names_it};

use crate::elements::is_memory_alone;
use crate::used::{Used, named_by, used_by};
use std::alloc::{AllocError, Global};
use vk_ids::IdMap;
use vk_model::{Cmd, Element, Point};
use vk_order::{Act, Frontier, Line, NewNode};

/// Where the last node on a line that names a resource is.
#[derive(Clone, Copy)]
pub struct LastUse {
    /// The line.
    pub line: Line,
    /// How many nodes of the line come before it.
    pub place: usize,
}

/// How many elements the lines of a queue have, by what their destination stages have.
#[derive(Clone, Copy)]
pub struct ElementCounts {
    /// Neither transfers nor the host.
    pub neither: usize,
    /// The host alone.
    pub host: usize,
    /// Transfers alone.
    pub transfers: usize,
    /// Both.
    pub both: usize,
}

impl ElementCounts {
    /// Those of a queue.
    pub fn of(frontier: &Frontier, queue: u32) -> ElementCounts
        ensures { (ns : List Node) → IsFrontier frontier.now ns → AreElementCounts result queue ns }
    {
        ElementCounts {
            neither: frontier.count(Line::Elements(queue, false, false)),
            host: frontier.count(Line::Elements(queue, false, true)),
            transfers: frontier.count(Line::Elements(queue, true, false)),
            both: frontier.count(Line::Elements(queue, true, true)),
        }
    }

    /// One more on a line of elements; and how many there were. None where there are too many.
    pub fn take(&mut self, line: Line) -> Option<usize>
        ensures { (q : ℕ) (t h : Bool) → line ≡ OfElements q t h → IfSome result (λ count. (count ≡ elements_on self.old t h)
            × ((u i : Bool) → elements_on self.new u i ≡ elements_on self.old u i + (if same_bit u t && same_bit i h then 1 else 0))) }
    {
        match line {
            Line::Elements(_, false, false) => {
                let count = self.neither;
                self.neither = count.checked_add(1)?;
                Some(count)
            }
            Line::Elements(_, false, true) => {
                let count = self.host;
                self.host = count.checked_add(1)?;
                Some(count)
            }
            Line::Elements(_, true, false) => {
                let count = self.transfers;
                self.transfers = count.checked_add(1)?;
                Some(count)
            }
            Line::Elements(_, true, true) => {
                let count = self.both;
                self.both = count.checked_add(1)?;
                Some(count)
            }
            _ => None,
        }
    }
}

/// Where the last nodes that name each resource are, on each line that has some.
#[derive(Drop)]
pub struct LastUses {
    alloc: Global,
    uses: IdMap<Vec<LastUse>>,
}

impl LastUses {
    /// Before the first node.
    pub fn new(alloc: Global) -> LastUses
        ensures { (r : ℕ) → AreLast (uses_in result r) [] r }
    {
        LastUses {
            alloc,
            uses: IdMap::new(alloc),
        }
    }

    /// Whether a node that names a resource isn't before the one that comes next, which sees this.
    pub fn is_unfinished(&self, resource: u32, new_node: &NewNode<'_>) -> bool
        ensures { (ns : List Node) (n : Node) → IsNewNode ns n new_node.now → AreLast (uses_in self.now resource) ns resource
            → result ≡ list_any (λ m. names_it resource m && not (before (n ∷ ns) m n)) ns }
    {
        match self.uses.get(resource) {
            Some(kept) => is_some_left(kept.as_slice(), new_node),
            None => false,
        }
    }

    /// Takes the nodes of a command that comes next, by how many nodes there are on each line.
    pub fn note(&mut self, queue: u32, command: &Cmd, frontier: &Frontier) -> Result<(), AllocError>
        ensures { OnOk result ((ns : List Node) (p : AnyPoint) (r : ℕ) → IsFrontier frontier.now ns → p.queue ≡ queue → AreLast (uses_in self.old r) ns r
            → AreLast (uses_in self.new r) (with_acts p (command_acts command.now) ns) r) }
    {
        match command {
            Cmd::Barrier { elements } => {
                self.note_elements(queue, elements.as_slice(), frontier)?;
                Ok(())
            }
            Cmd::Set { .. } => Ok(()),
            Cmd::Await { .. } => Ok(()),
            _ => {
                let line = Line::Commands(queue);
                let place = frontier.count(line);
                let used = used_by(command);
                self.keep_both(used, LastUse { line, place })?;
                Ok(())
            }
        }
    }

    fn note_elements(
        &mut self,
        queue: u32,
        elements: &[Element],
        frontier: &Frontier,
    ) -> Result<(), AllocError>
        ensures { OnOk result ((ns : List Node) (p : AnyPoint) (r : ℕ) → IsFrontier frontier.now ns → p.queue ≡ queue → AreLast (uses_in self.old r) ns r
            → AreLast (uses_in self.new r) (with_acts p (map (Depends Barrier) elements.now) ns) r) }
    {
        if is_memory_alone(elements) {
            return Ok(());
        }
        let mut counts = ElementCounts::of(frontier, queue);
        for element in elements {
            self.note_element(queue, element, &mut counts)?;
        }
        Ok(())
    }

    fn note_element(
        &mut self,
        queue: u32,
        element: &Element,
        counts: &mut ElementCounts,
    ) -> Result<(), AllocError>
        ensures { OnOk result ((ns : List Node) (n : Node) (r : ℕ) → IsNumbered (n ∷ ns) → n.point.queue ≡ queue → n.act ≡ Depends Barrier element.now
            → AreElementCounts counts.old queue ns → AreLast (uses_in self.old r) ns r
            → AreElementCounts counts.new queue (n ∷ ns) × AreLast (uses_in self.new r) (n ∷ ns) r) }
    {
        let line = Line::of(queue, &Act::Barrier(element));
        let Some(place) = counts.take(line) else {
            return Err(AllocError);
        };
        self.keep_some(named_by(element), LastUse { line, place })?;
        Ok(())
    }

    fn keep_both(&mut self, used: Used, last: LastUse) -> Result<(), AllocError>
        ensures { OnOk result (AreKeptNow self.old self.new (option_list used.first ++ option_list used.second) last) }
    {
        self.keep_some(used.first, last)?;
        self.keep_some(used.second, last)?;
        Ok(())
    }

    #[inline(always)]
    fn keep_some(&mut self, id: Option<u32>, last: LastUse) -> Result<(), AllocError>
        ensures { OnOk result (AreKeptNow self.old self.new (option_list id) last) }
    {
        match id {
            Some(id) => self.keep(id, last),
            None => Ok(()),
        }
    }

    #[inline(always)]
    fn keep(&mut self, id: u32, last: LastUse) -> Result<(), AllocError>
        ensures { OnOk result (AreKeptNow self.old self.new (id ∷ []) last) }
    {
        match self.uses.get_mut(id) {
            Some(kept) => keep_in(kept, last),
            None => self.keep_first(id, last),
        }
    }

    /// Keeps the first use of a resource.
    #[inline(never)]
    fn keep_first(&mut self, id: u32, last: LastUse) -> Result<(), AllocError>
        requires { value_of self.old.uses id ≡ None }
        ensures { OnOk result (AreKeptNow self.old self.new (id ∷ []) last) }
    {
        let mut kept = Vec::new(self.alloc);
        kept.push(last)?;
        self.uses.put(id, kept)?;
        Ok(())
    }
}

/// Keeps a use in the place of that of its line.
#[inline(always)]
fn keep_in(kept: &mut Vec<LastUse>, last: LastUse) -> Result<(), AllocError>
    ensures { OnOk result (IsKeptNow kept.old.items kept.new.items last) }
{
    match on_line(kept.as_slice(), last.line) {
        Some(at) => {
            kept[at].place = last.place;
            Ok(())
        }
        None => {
            kept.push(last)?;
            Ok(())
        }
    }
}

/// Where the use of a line is among those that are kept.
#[inline(always)]
fn on_line(kept: &[LastUse], line: Line) -> Option<usize>
    ensures { IfSome result (λ i. (i < length kept.now) × ((d : AnyUse) → (get_or kept.now i d).line ≡ line)) }
{
    for (index, last) in kept.iter().enumerate() {
        if last.line.is(line) {
            return Some(index);
        }
    }
    None
}

fn is_some_left(kept: &[LastUse], new_node: &NewNode<'_>) -> bool
    ensures { (ns : List Node) (n : Node) (r : ℕ) → IsNewNode ns n new_node.now → AreLast kept.now ns r → result ≡ list_any (λ m. names_it r m && not (before (n ∷ ns) m n)) ns }
{
    for last in kept {
        if !new_node.follows(last.line, last.place) {
            return true;
        }
    }
    false
}
