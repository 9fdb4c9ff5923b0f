ghost use Rattle.std.specs.Prelude.{◌≡◌, ◌<◌, ◌&&◌, IfOk, IfSome, IfNone, true, false, IsTrue, Contains, length, nat_lt};
ghost use Rattle.vk_model.specs.Sync.Node.{Node, nodes};
ghost use Rattle.vk_model.specs.Sync.Before.{before};
ghost use Rattle.vk_model.specs.Sync.Seen.{flushes};
ghost use Rattle.vk_model.specs.World.Bytes.{Byte as AnyByte};
ghost use Rattle.vk_order.specs.Bytes.{byte_of};
ghost use Rattle.vk_order.specs.NodeViews.{act_of, node_of};
ghost use Rattle.vk_order.specs.Lines.{class_of};
ghost use Rattle.vk_order.specs.Edges.{made_available_by};
ghost use Rattle.vk_hazards.specs.Hazards.{node_at};
ghost use Rattle.vk_hazards.specs.Links.{needs_flush, flushes_after, makes_available, is_available_at, IsFirst};
ghost use Rattle.vk_hazards.specs.Inner.Availability.{IsAvailableFrom, IsWrite, MakesAvailable, IsListed, AreFirsts};
ghost use Rattle.vk_hazards.specs.declared.availability.First.{First as AnyFirst};

use crate::hazards::Placed;
use crate::nodes::Nodes;
use std::alloc::AllocError;
use vk_order::{Act, Byte, Line, Row, prefixes};

/// A write of a byte.
#[derive(Clone, Copy)]
pub struct Write<'a> {
    /// The node that writes.
    pub by: Placed<'a>,
    /// A write by the host is made available by each submit with a greater number.
    pub from: usize,
    /// The byte.
    pub byte: Byte,
}

/// The first node of a line of those that make a write available, or one that has no line.
#[derive(Clone, Copy)]
pub struct First {
    /// The line.
    pub line: Line,
    /// The number of the node.
    pub number: usize,
}

impl Write<'_> {
    /// Whether a node makes it available.
    fn is_made_available_by(&self, number: usize, row: &Row<'_>) -> bool
        ensures { result ≡ made_available_by (node_at self.now.by) (act_of self.now.by.row.act) self.now.from (byte_of self.now.byte) (node_of number row.now) }
    {
        let by = self.by;
        match by.row.act {
            Act::Runs(_) => {
                by.number < number && by.row.leads_to(row) && row.makes_available(self.byte)
            }
            Act::Hosts(_) => row.is_submit() && self.from < number,
            Act::Barrier(_) | Act::Set(..) | Act::Await(..) => by.number == number,
            Act::Waits(_) | Act::Signals(_) => false,
        }
    }
}

impl<'a> Nodes<'a> {
    /// The first flush of the byte of a write that needs one, after the write.
    pub(crate) fn flush_after(
        &self,
        by: &Placed<'a>,
        byte: Byte,
        is_needed: bool,
    ) -> Option<Placed<'a>>
        requires there { Contains (nodes self.now) (node_at by.now) }
        requires needed { is_needed ≡ needs_flush self.now (node_at by.now) (byte_of byte) }
        ensures { IsFirst self.now (flushes_after self.now (node_at by.now) (byte_of byte)) result }
    {
        if !is_needed {
            return None;
        }
        for number in by.number..self.count() {
            if self.flushes(by.number, number, byte) {
                return Some(self.placed(number));
            }
        }
        None
    }

    /// Whether a node flushes a byte, and has a greater number than another one.
    fn flushes(&self, after: usize, number: usize, byte: Byte) -> bool
        requires { number < length (nodes self.now) }
        ensures { (n : Node) → Contains (nodes self.now) n → n.number ≡ number → result ≡ (nat_lt after n.number && flushes n.act (byte_of byte)) }
    {
        after < number && self.rows[number].act.flushes(byte)
    }

    /// After which node submits make a write by the host available: the write, or the flush that it
    /// needs. Without this flush none does.
    pub(crate) fn available_from(
        &self,
        by: &Placed<'a>,
        is_needed: bool,
        flush: &Option<Placed<'a>>,
    ) -> usize
        requires there { Contains (nodes self.now) (node_at by.now) }
        ensures { (byte : AnyByte) → is_needed ≡ needs_flush self.now (node_at by.now) byte → IsFirst self.now (flushes_after self.now (node_at by.now) byte) flush.now → IsAvailableFrom self.now (node_at by.now) byte result }
    {
        if !is_needed {
            return by.number;
        }
        match flush {
            Some(flush) => flush.number,
            None => self.count(),
        }
    }

    /// Whether a node makes a write available.
    pub(crate) fn is_made_available_at(&self, write: &Write<'a>, number: usize) -> bool
        requires write { IsWrite self.now write.now }
        requires number { number < length (nodes self.now) }
        ensures { (n : Node) → Contains (nodes self.now) n → n.number ≡ number → result ≡ makes_available self.now (node_at write.now.by) (byte_of write.now.byte) n }
    {
        write.is_made_available_by(number, &self.rows[number])
    }

    /// The first node that makes a write available.
    pub(crate) fn first_available(&self, write: &Write<'a>) -> Option<Placed<'a>>
        requires { IsWrite self.now write.now }
        ensures { IsFirst self.now (makes_available self.now (node_at write.now.by) (byte_of write.now.byte)) result }
    {
        for number in 0..self.count() {
            if self.is_made_available_at(write, number) {
                let first = self.placed(number);
                return Some(first);
            }
        }
        None
    }

    /// Of the nodes that make a write available the first of each line, and all elements of sets.
    pub(crate) fn firsts(&self, write: &Write<'a>) -> Result<Vec<First>, AllocError>
        requires { IsWrite self.now write.now }
        ensures { IfOk result (λ firsts. AreFirsts self.now (node_at write.now.by) (byte_of write.now.byte) firsts.items) }
    {
        let mut firsts = Vec::new(self.alloc);
        for number in 0..self.count() {
            if let Some(first) = self.new_first(write, firsts.as_slice(), number) {
                firsts.push(first)?;
            }
        }
        Ok(firsts)
    }

    /// A node, if it makes a write available and none of its line is listed.
    fn new_first(&self, write: &Write<'a>, firsts: &[First], number: usize) -> Option<First>
        requires write { IsWrite self.now write.now }
        requires number { number < length (nodes self.now) }
        ensures some { IfSome result (λ f. (n : Node) × (n.number ≡ number) × MakesAvailable self.now (node_at write.now.by) (byte_of write.now.byte) f n) }
        ensures none { IfNone result ((n : Node) → Contains (nodes self.now) n → n.number ≡ number → IsTrue (makes_available self.now (node_at write.now.by) (byte_of write.now.byte) n) → IsListed firsts.now (class_of n)) }
    {
        if !self.is_made_available_at(write, number) {
            return None;
        }
        let row = self.placed(number).row;
        let line = Line::of(row.point.queue, &row.act);
        if is_listed(firsts, line) {
            return None;
        }
        Some(First { line, number })
    }

    /// Whether a write is available at a node.
    pub(crate) fn is_available_at(&self, write: &Write<'a>, firsts: &[First], number: usize) -> bool
        requires write { IsWrite self.now write.now }
        requires number { number < length (nodes self.now) }
        requires firsts { AreFirsts self.now (node_at write.now.by) (byte_of write.now.byte) firsts.now }
        ensures { (n : Node) → Contains (nodes self.now) n → n.number ≡ number → result ≡ is_available_at self.now (node_at write.now.by) (byte_of write.now.byte) n }
    {
        prefixes();
        self.is_made_available_at(write, number) || self.is_after_some(firsts, number)
    }

    /// Whether a node is after one of these.
    fn is_after_some(&self, firsts: &[First], number: usize) -> bool
        requires number { number < length (nodes self.now) }
        requires within { (f : AnyFirst) → Contains firsts.now f → f.number < length (nodes self.now) }
        ensures yes { result ≡ true → (n : Node) → Contains (nodes self.now) n → n.number ≡ number → (f : AnyFirst) × Contains firsts.now f × ((m : Node) → Contains (nodes self.now) m → m.number ≡ f.number → before (nodes self.now) m n ≡ true) }
        ensures no { result ≡ false → (n : Node) → Contains (nodes self.now) n → n.number ≡ number → (f : AnyFirst) → Contains firsts.now f → (m : Node) → Contains (nodes self.now) m → m.number ≡ f.number → before (nodes self.now) m n ≡ false }
    {
        for first in firsts {
            if self.comes_before(first.number, number) {
                return true;
            }
        }
        false
    }
}

/// Whether there is a node of a line among some; elements of sets have none.
fn is_listed(firsts: &[First], line: Line) -> bool
    ensures { result ≡ true → IsListed firsts.now line }
{
    if line.is_of_sets() {
        return false;
    }
    for first in firsts {
        if first.line.is(line) {
            return true;
        }
    }
    false
}
