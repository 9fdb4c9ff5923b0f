ghost use Rattle.std.specs.Prelude.{◌≡◌, ◌≢◌, ◌++◌, ◌∷◌, ◌&&◌, ◌↔◌, ℕ, Bool, false, List, [], OnOk, IfSome, Some, None, option_map, not, nat_lt, IsTrue, Contains, length, ◌≤◌};
ghost use Rattle.vk_model.specs.Basics.{has_some};
ghost use Rattle.vk_model.specs.World.Bytes as world;
ghost use Rattle.vk_model.specs.World.Ownership.{dependency_of, is_acquire, is_release};
ghost use Rattle.vk_model.specs.Sync.Node.{Node, Depends, Barrier};
ghost use Rattle.vk_model.specs.Sync.Edge.{edge, is_command};
ghost use Rattle.vk_model.specs.Sync.Before.{IsNumbered};
ghost use Rattle.vk_model.specs.Sync.Seen as seen;
ghost use Rattle.vk_order.specs.declared.lines.Line.{Line as AnyLine};
ghost use Rattle.vk_order.specs.declared.lines.Line.TheVariants.{Commands as OfCommands};
ghost use Rattle.vk_order.specs.NodeViews.{act_of};
ghost use Rattle.vk_order.specs.Bytes.{byte_of};
ghost use Rattle.vk_order.specs.Lines.{line_of, has_transfer, same_line, place};
ghost use Rattle.vk_order.specs.Wide.{access_of};
ghost use Rattle.vk_order.specs.Limited.{part_of};
ghost use Rattle.vk_order.specs.Inner.Parts.{IsPart, parts_at, AreInOrder, AreFrom, AreBelow, AreParts, IsNewPart};

use crate::access::Access;
use crate::act::Act;
use crate::acts::{TRANSFERS, destination_stages, source_stages};
use crate::bytes::{Byte, covers};
use crate::lines::Line;
use crate::writes::{destination_accesses, is_acquire, is_release, source_accesses};
use bitflags::Flags;
use std::alloc::{AllocError, Global};
use std::collections::BTreeMap;
use vk_model::{Accesses, Element, Stages};

/// A node, by its line and how many nodes of the line came earlier.
#[derive(Clone, Copy)]
pub struct Spot {
    /// The line.
    pub line: Line,
    /// How many nodes of the line came earlier.
    pub place: usize,
}

/// What is kept of an element of a barrier that is a dependency on a part of memory.
#[derive(Drop)]
pub struct Part {
    /// The element.
    pub(crate) element: Element,
    /// How many nodes came earlier.
    pub(crate) number: usize,
    /// The number of its queue.
    pub(crate) queue: u32,
    /// Its line.
    pub(crate) line: Line,
    /// How many nodes of the line came earlier.
    pub(crate) place: usize,
    /// How many commands of the queue came earlier.
    pub(crate) earlier: usize,
    /// What is known at it, in the order of the lines: of commands and host entries how many are
    /// available, of elements how many are before it.
    pub(crate) heard: Vec<u32>,
}

impl Part {
    /// The node, by its line and its place.
    pub(crate) fn spot(&self) -> Spot
        ensures { result ≡ record { line = self.now.line; place = self.now.place } }
    {
        Spot {
            line: self.line,
            place: self.place,
        }
    }

    /// Whether it makes the writes of a byte by a node available: one of the commands before it.
    pub(crate) fn marks(&self, write: Spot, byte: Byte) -> bool
        ensures { (ns : List Node) (ls : List AnyLine) (w m : Node) (cached : world.Byte → Bool) → IsNumbered ns → IsPart ns ls m self.now → Contains ns w → line_of w ≡ Some write.line → place ns write.line w.number ≡ write.place
            → result ≡ (is_command w.act && seen.makes_writes_available cached ns m (byte_of byte) m.act && edge ns w m) }
    {
        self.follows(write) && self.makes_available(byte)
    }

    /// Whether an edge leads to it from a node that is a command.
    fn follows(&self, write: Spot) -> bool
        ensures { result ≡ (same_line write.line (OfCommands self.now.queue) && nat_lt write.place self.now.earlier && has_transfer (dependency_of self.now.element).source_stages.0) }
    {
        write.line.is(Line::Commands(self.queue))
            && write.place < self.earlier
            && source_stages(&self.element).intersects(TRANSFERS)
    }

    /// Whether it makes the writes of a byte available that come before it.
    fn makes_available(&self, byte: Byte) -> bool
        ensures { result ≡ (not (is_acquire self.now.queue self.now.element) && has_some (dependency_of self.now.element).source_accesses.0 (seen.command_mask seen.Write) && seen.covers self.now.element (byte_of byte)) }
    {
        !is_acquire(self.queue, &self.element)
            && source_accesses(&self.element).intersects(Access::Write.of_commands())
            && covers(&self.element, byte)
    }

    /// Whether it makes available writes of a byte visible to an access by the host after it.
    pub(crate) fn shows_on_host(&self, access: Access, byte: Byte) -> bool
        ensures { result ≡ (seen.to_host (Depends Barrier self.now.element) && (not (is_release self.now.queue self.now.element) && has_some (dependency_of self.now.element).destination_accesses.0 (seen.host_mask (access_of access)) && seen.covers self.now.element (byte_of byte))) }
    {
        destination_stages(&self.element).intersects(Stages::HOST)
            && self.makes_visible(access.of_host(), byte)
    }

    /// Whether it makes available writes of a byte visible to accesses after it.
    pub(crate) fn makes_visible(&self, accesses: Accesses, byte: Byte) -> bool
        ensures { result ≡ (not (is_release self.now.queue self.now.element) && has_some (dependency_of self.now.element).destination_accesses.0 accesses.0 && seen.covers self.now.element (byte_of byte)) }
    {
        !is_release(self.queue, &self.element)
            && destination_accesses(&self.element).intersects(accesses)
            && covers(&self.element, byte)
    }
}

impl Act<'_> {
    /// Whether it is a dependency on a part of a resource.
    pub(crate) fn is_limited(&self) -> bool
        ensures { result ≡ false → part_of (act_of self.now) ≡ None }
    {
        match self {
            Act::Barrier(element) => !matches!(element, Element::Memory(_)),
            _ => false,
        }
    }

    /// The resource on a part of which it is a dependency, and the element that says so.
    pub(crate) fn limited(&self) -> Option<(u32, Element)>
        ensures resource { option_map (λ p. p.0) result ≡ part_of (act_of self.now) }
        ensures element { IfSome result (λ p. act_of self.now ≡ Depends Barrier p.1) }
    {
        match self {
            Act::Barrier(element) => match element {
                Element::Memory(_) => None,
                Element::Buffer(range) => Some((range.buffer, **element)),
                Element::Image(range) => Some((range.image, **element)),
            },
            _ => None,
        }
    }
}

/// Of parts in the order of their nodes those of nodes from a number on.
pub fn parts_from(parts: &[Part], number: usize) -> &[Part]
    ensures { AreInOrder parts.now → AreFrom number parts.now result.now }
{
    let first = first_from(parts, number);
    if first == 0 {
        return parts;
    }
    &parts[first..]
}

/// How many of them are of nodes below a number: the first ones.
fn first_from(parts: &[Part], number: usize) -> usize
    ensures within { result ≤ length parts.now }
    ensures below { AreInOrder parts.now → AreBelow number parts.now result }
{
    let mut first = 0;
    let mut end = parts.len();
    while first < end {
        let middle = first + (end - first) / 2;
        if parts[middle].number < number {
            first = middle + 1;
        } else {
            end = middle;
        }
    }
    first
}

/// The dependencies on parts of memory, by the ids of their resources, the oldest first.
#[derive(Drop)]
pub struct Parts {
    by_resource: BTreeMap<u32, Vec<Part>>,
}

impl Parts {
    /// None.
    pub fn new(alloc: Global) -> Parts
        ensures { (id : ℕ) → parts_at result id ≡ [] }
    {
        Parts {
            by_resource: BTreeMap::new(alloc),
        }
    }

    /// Those of a resource.
    pub fn of(&self, id: u32) -> &[Part]
        ensures { result.now ≡ parts_at self.now id }
    {
        match self.by_resource.get(&id) {
            Some(parts) => parts.as_slice(),
            None => &[],
        }
    }

    /// Keeps the part of a node that comes next, where it is one.
    pub fn keep(&mut self, alloc: Global, part: Option<(u32, Part)>) -> Result<(), AllocError>
        ensures { OnOk result ((ns : List Node) (ls : List AnyLine) (n : Node) → IsNumbered (n ∷ ns) → AreParts ns ls self.old → IsNewPart ns ls n part → AreParts (n ∷ ns) ls self.new) }
    {
        let Some((id, part)) = part else {
            return Ok(());
        };
        self.add(alloc, id, part)?;
        Ok(())
    }

    /// Keeps one more of a resource.
    fn add(&mut self, alloc: Global, id: u32, part: Part) -> Result<(), AllocError>
        ensures here { OnOk result (parts_at self.new id ≡ parts_at self.old id ++ part ∷ []) }
        ensures others { OnOk result ((i : ℕ) → i ≢ id → parts_at self.new i ≡ parts_at self.old i) }
    {
        let mut parts = match self.by_resource.remove(&id) {
            Some(parts) => parts,
            None => Vec::new(alloc),
        };
        parts.push(part)?;
        self.by_resource.insert(id, parts)?;
        Ok(())
    }
}
