ghost use Rattle.std.specs.Prelude.{◌≡◌, ◌<◌, ◌&&◌, [], ℕ, IfOk, IfSome, None, Some, true, false, length, nat_lt, IsTrue, Contains};
ghost use Rattle.vk_model.specs.World.Ownership as ownership;
ghost use Rattle.vk_order.specs.declared.acts.Row.{Row as AnyRow};
ghost use Rattle.vk_order.specs.declared.writes.First.{First as AnyFirst};
ghost use Rattle.vk_order.specs.NodeViews.{act_of, node_of, nodes_after};
ghost use Rattle.vk_order.specs.Bytes.{byte_of};
ghost use Rattle.vk_order.specs.Lines.{line_of, same_line};
ghost use Rattle.vk_order.specs.Edges.{unsignaled, makes_available, makes_visible};
ghost use Rattle.vk_order.specs.Inner.Availability.{makes_write_available, is_carried, is_marked, is_set_element, comes_after_sets, HasSets, AreFirsts};

use crate::access::Access;
use crate::act::Act;
use crate::acts::Row;
use crate::bytes::{Byte, covers};
use crate::lines::Line;
use bitflags::Flags;
use std::alloc::{AllocError, Global};
use vk_model::{Accesses, Element, Families};

/// The family of a queue.
fn family_of(queue: u32) -> u32
    ensures { result ≡ ownership.family_of queue }
{
    if queue < 2 { 0 } else { 1 }
}

/// The queue families of an element that names a resource.
fn families_of(element: &Element) -> Option<Families>
    ensures { result ≡ ownership.families_of element.now }
{
    match element {
        Element::Memory(_) => None,
        Element::Buffer(range) => Some(range.families),
        Element::Image(range) => Some(range.families),
    }
}

/// Whether an element on a queue is the second half of an ownership transfer.
pub fn is_acquire(queue: u32, element: &Element) -> bool
    ensures { result ≡ ownership.is_acquire queue element.now }
{
    let Some(families) = families_of(element) else {
        return false;
    };
    let own = family_of(queue);
    families.source != families.destination && families.source != own && families.destination == own
}

/// Whether it is the first half.
pub fn is_release(queue: u32, element: &Element) -> bool
    ensures { result ≡ ownership.is_release queue element.now }
{
    let Some(families) = families_of(element) else {
        return false;
    };
    families.source != families.destination && families.source == family_of(queue)
}

/// The accesses of an element's first scope.
pub fn source_accesses(element: &Element) -> Accesses
    ensures { result.0 ≡ (ownership.dependency_of element.now).source_accesses.0 }
{
    match element {
        Element::Memory(dependency) => dependency.source_accesses,
        Element::Buffer(buffer) => buffer.dependency.source_accesses,
        Element::Image(image) => image.dependency.source_accesses,
    }
}

/// The accesses of an element's second scope.
pub fn destination_accesses(element: &Element) -> Accesses
    ensures { result.0 ≡ (ownership.dependency_of element.now).destination_accesses.0 }
{
    match element {
        Element::Memory(dependency) => dependency.destination_accesses,
        Element::Buffer(buffer) => buffer.dependency.destination_accesses,
        Element::Image(image) => image.dependency.destination_accesses,
    }
}

impl Row<'_> {
    /// Whether it makes the writes of a byte by the commands before it available.
    pub fn makes_available(&self, byte: Byte) -> bool
        ensures { result ≡ makes_available (byte_of byte) (node_of 0 self.now) }
    {
        match self.act {
            Act::Signals(_) => true,
            Act::Barrier(element) => {
                !is_acquire(self.point.queue, element)
                    && source_accesses(element).intersects(Access::Write.of_commands())
                    && covers(element, byte)
            }
            Act::Set(_, _, dependency) => {
                dependency
                    .source_accesses
                    .intersects(Access::Write.of_commands())
            }
            _ => false,
        }
    }

    /// Whether it makes available writes of a byte visible to accesses after it.
    pub fn makes_visible(&self, accesses: Accesses, byte: Byte) -> bool
        ensures { result ≡ makes_visible accesses.0 (byte_of byte) (node_of 0 self.now) }
    {
        match self.act {
            Act::Barrier(element) => {
                !is_release(self.point.queue, element)
                    && destination_accesses(element).intersects(accesses)
                    && covers(element, byte)
            }
            Act::Await(_, _, dependency) => dependency.destination_accesses.intersects(accesses),
            _ => false,
        }
    }
}

impl Act<'_> {
    /// Whether elements of sets may lead to it by an edge: an element of an await, or a signal with
    /// ALL_COMMANDS.
    fn comes_after_sets(&self) -> bool
        ensures { result ≡ comes_after_sets (act_of self.now) }
    {
        match self {
            Act::Signals(_) => self.signals_all(),
            Act::Await(..) => true,
            _ => false,
        }
    }
}

/// A write of a byte.
#[derive(Clone, Copy)]
pub struct Write<'a> {
    /// The number of the node that writes.
    pub number: usize,
    /// The node.
    pub row: Row<'a>,
    /// A write by the host is made available by each submit with a greater number.
    pub from: usize,
    /// The byte.
    pub byte: Byte,
}

impl Write<'_> {
    /// Whether a node makes it available.
    pub fn is_made_available_by(&self, number: usize, row: &Row<'_>) -> bool
        ensures { result ≡ makes_write_available self.now (node_of number row.now) }
    {
        match self.row.act {
            Act::Runs(_) => {
                self.number < number && self.row.leads_to(row) && row.makes_available(self.byte)
            }
            Act::Hosts(_) => row.is_submit() && self.from < number,
            Act::Barrier(_) | Act::Set(..) | Act::Await(..) => self.number == number,
            Act::Waits(_) | Act::Signals(_) => false,
        }
    }

    /// Whether it is an element of a set, and makes it available.
    fn is_made_available_by_set(&self, number: usize, row: &Row<'_>) -> bool
        ensures { result ≡ (is_set_element (act_of row.now.act) && makes_write_available self.now (node_of number row.now)) }
    {
        matches!(row.act, Act::Set(..)) && self.is_made_available_by(number, row)
    }

    /// Whether such an element leads to another node by one edge.
    fn is_carried_by(&self, set: usize, from: &Row<'_>, number: usize, to: &Row<'_>) -> bool
        ensures { result ≡ (is_set_element (act_of from.now.act) && makes_write_available self.now (node_of set from.now) && (nat_lt set number && unsignaled (node_of set from.now) (node_of number to.now))) }
    {
        self.is_made_available_by_set(set, from) && (set < number && from.leads_to(to))
    }

    /// The numbers of these elements.
    pub fn sets(&self, alloc: Global, rows: &[Row<'_>]) -> Result<Vec<usize>, AllocError>
        ensures within { IfOk result (λ sets. (s : ℕ) → Contains sets.items s → s < length rows.now) }
        ensures sets { IfOk result (λ sets. HasSets rows.now (makes_write_available self.now) sets.items) }
    {
        let mut sets = Vec::new(alloc);
        for (number, row) in rows.iter().enumerate() {
            if self.is_made_available_by_set(number, row) {
                sets.push(number)?;
            }
        }
        Ok(sets)
    }

    /// Whether one of them leads to a node by one edge.
    fn is_carried(&self, rows: &[Row<'_>], sets: &[usize], number: usize, row: &Row<'_>) -> bool
        requires { (s : ℕ) → Contains sets.now s → s < length rows.now }
        ensures { HasSets rows.now (makes_write_available self.now) sets.now → result ≡ is_carried (nodes_after [] rows.now) (makes_write_available self.now) (node_of number row.now) }
    {
        if !row.act.comes_after_sets() {
            return false;
        }
        for set in sets {
            if self.is_carried_by(*set, &rows[*set], number, row) {
                return true;
            }
        }
        false
    }

    /// Whether a node makes it available, or such an element leads to it.
    pub fn is_marked_by(
        &self,
        rows: &[Row<'_>],
        sets: &[usize],
        number: usize,
        row: &Row<'_>,
    ) -> bool
        requires { (s : ℕ) → Contains sets.now s → s < length rows.now }
        ensures { HasSets rows.now (makes_write_available self.now) sets.now → result ≡ is_marked (nodes_after [] rows.now) (makes_write_available self.now) (node_of number row.now) }
    {
        self.is_made_available_by(number, row) || self.is_carried(rows, sets, number, row)
    }

    /// The first such node of each line.
    pub fn firsts(
        &self,
        alloc: Global,
        rows: &[Row<'_>],
        sets: &[usize],
    ) -> Result<Vec<First>, AllocError>
        requires { (s : ℕ) → Contains sets.now s → s < length rows.now }
        ensures within { IfOk result (λ firsts. (f : AnyFirst) → Contains firsts.items f → f.number < length rows.now) }
        ensures firsts { IfOk result (λ firsts. HasSets rows.now (makes_write_available self.now) sets.now → AreFirsts rows.now (is_marked (nodes_after [] rows.now) (makes_write_available self.now)) firsts.items) }
    {
        let mut firsts = Vec::new(alloc);
        for (number, row) in rows.iter().enumerate() {
            if let Some(own) = self.first_at(rows, firsts.as_slice(), sets, number, row) {
                firsts.push(own)?;
            }
        }
        Ok(firsts)
    }

    /// A node as the first of its line, if it is such a node and none is listed yet.
    fn first_at(
        &self,
        rows: &[Row<'_>],
        firsts: &[First],
        sets: &[usize],
        number: usize,
        row: &Row<'_>,
    ) -> Option<First>
        requires { (s : ℕ) → Contains sets.now s → s < length rows.now }
        ensures number { IfSome result (λ f. f.number ≡ number) }
        ensures some { IfSome result (λ f. HasSets rows.now (makes_write_available self.now) sets.now → (line_of (node_of number row.now) ≡ Some f.line) × IsTrue (is_marked (nodes_after [] rows.now) (makes_write_available self.now) (node_of number row.now))) }
        ensures none { result ≡ None → HasSets rows.now (makes_write_available self.now) sets.now → IsTrue (is_marked (nodes_after [] rows.now) (makes_write_available self.now) (node_of number row.now)) → is_set_element (act_of row.now.act) ≡ false
            → (f : AnyFirst) × Contains firsts.now f × (line_of (node_of number row.now) ≡ Some f.line) }
    {
        let line = Line::of(row.point.queue, &row.act);
        if line.is_of_sets() {
            return None;
        }
        if is_listed(firsts, line) {
            return None;
        }
        if !self.is_marked_by(rows, sets, number, row) {
            return None;
        }
        Some(First { line, number })
    }
}

/// The first node of a line of those that make a write available.
#[derive(Clone, Copy)]
pub struct First {
    /// The line.
    pub line: Line,
    /// The number of the node.
    pub number: usize,
}

/// Whether there is one of a line.
fn is_listed(firsts: &[First], line: Line) -> bool
    ensures { result ≡ true → (f : AnyFirst) × Contains firsts.now f × IsTrue (same_line f.line line) }
{
    for first in firsts {
        if first.line.is(line) {
            return true;
        }
    }
    false
}
