ghost use Rattle.std.specs.Prelude.{◌≡◌, ◌≤◌, ◌∷◌, ◌&&◌, ◌↔◌, ◌<◌, ℕ, List, Bool, true, false, IfOk, IfSome, IfNone, Some, length, slice_get, IsTrue, Contains};
ghost use Rattle.vk_model.specs.World.Bytes as world;
ghost use Rattle.vk_model.specs.Sync.Node.{Node};
ghost use Rattle.vk_model.specs.Sync.Edge.{edge, is_command};
ghost use Rattle.vk_model.specs.Sync.Before.{IsNumbered};
ghost use Rattle.vk_model.specs.Sync.Seen.{Access as AnyAccess, seen, makes_writes_available};
ghost use Rattle.vk_order.specs.declared.parts.Part.{Part as AnyPart};
ghost use Rattle.vk_model.specs.Trace.PointViews.{point_of};
ghost use Rattle.vk_order.specs.NodeViews.{act_of};
ghost use Rattle.vk_order.specs.Bytes.{byte_of};
ghost use Rattle.vk_order.specs.Lines.{line_of, place};
ghost use Rattle.vk_order.specs.Limited.{is_limited, Reaches, IsWrite};
ghost use Rattle.vk_order.specs.Inner.Alone.{AlwaysMarks, NeverMarks};
ghost use Rattle.vk_order.specs.Inner.Parts.{parts_at, AreInOrder, AreFrom, IsPart};
ghost use Rattle.vk_order.specs.Inner.Tallies.{lines_of};
ghost use Rattle.vk_order.specs.Frontiers.{IsFrontier, IsNewNode, IsFrom, MayBeKeptOf};
ghost use Rattle.vk_order.specs.SeenWrites.{SaysSeenAt};
ghost use Rattle.vk_order.specs.Units.{HaveNumbers, unit_byte, units_resource};

use crate::act::Act;
use crate::acts::Row;
use crate::bytes::Byte;
use crate::frontier::Frontier;
use crate::new_node::NewNode;
use crate::parts::{Part, Spot, parts_from};
use crate::units::{Units, element_until};
use crate::unseen::parts_until;
use std::alloc::AllocError;
use vk_model::Point;

impl Frontier {
    /// What is known at a node that comes next, with this act and as a new node, where it is a
    /// dependency on a part of memory.
    pub fn part(
        &self,
        point: &Point<'_>,
        act: &Act<'_>,
        new_node: &NewNode<'_>,
    ) -> Result<Option<Part>, AllocError>
        requires { IsFrom self.now new_node.now }
        ensures { IfOk result (λ part. (ns : List Node) (n : Node) → IsFrontier self.now ns → n ≡ record { number = length ns; point = point_of point.now; act = act_of act.now } → IsNewNode ns n new_node.now → MayBeKeptOf self.now ns n part) }
    {
        let row = Row {
            point: *point,
            act: *act,
        };
        let Some((_, part)) = self.new_part(&row, new_node.front())? else {
            return Ok(None);
        };
        Ok(Some(part))
    }

    /// Whether an access of a byte by the transition of a part that comes next sees the write of it
    /// by a node, before which at least `from` nodes came.
    pub fn is_seen_at(&self, part: &Part, write: Spot, from: usize, byte: Byte) -> bool
        ensures { SaysSeenAt self.now part.now write from (byte_of byte) result }
    {
        if self.reaches(part, write) {
            return true;
        }
        if part.marks(write, byte) {
            return true;
        }
        let parts = parts_from(self.parts_of(byte), from);
        self.is_marked_at(part, parts, write, byte)
    }

    /// The first unit, from `low` on and before `high`, of which an access by the transition of a
    /// part that comes next doesn't see the write by a node. It is asked as `is_seen_at` is, and
    /// once for the units in a row that the same parts are on.
    pub fn first_unseen_at(
        &self,
        part: &Part,
        write: Spot,
        from: usize,
        units: Units,
        low: u64,
        high: u64,
    ) -> Option<u64>
        requires { HaveNumbers units high }
        ensures within { IfSome result (λ k. (low ≤ k) × (k < high)) }
        ensures unseen { IfSome result (λ k. SaysSeenAt self.now part.now write from (unit_byte units k) false) }
        ensures seen { IfNone result ((k : ℕ) → low ≤ k → k < high → SaysSeenAt self.now part.now write from (unit_byte units k) true) }
    {
        if self.reaches(part, write) {
            return None;
        }
        let parts = parts_from(self.parts_on(units.resource()), from);
        let mut at = low;
        while at < high {
            match self.marked_until(part, parts, write, units, at, high) {
                Some(until) => at = until,
                None => {
                    if !self.is_seen_at(part, write, from, units.byte(at)) {
                        return Some(at);
                    }
                    let until = parts_until(parts, units, at, high);
                    at = element_until(&part.element, units, at, until);
                }
            }
        }
        None
    }

    /// Up to where, and at most to an end, one of some parts makes a write available from a unit on,
    /// and what it marks is known at another part that comes next.
    fn marked_until(
        &self,
        part: &Part,
        parts: &[Part],
        write: Spot,
        units: Units,
        at: u64,
        end: u64,
    ) -> Option<u64>
        requires order { at < end }
        requires numbers { HaveNumbers units end }
        ensures further { IfSome result (λ until. at < until) }
        ensures seen { IfSome result (λ until. (from : ℕ) → (AreInOrder (parts_at self.now.parts (units_resource units)) → AreFrom from (parts_at self.now.parts (units_resource units)) parts.now)
            → (k : ℕ) → at ≤ k → k < until → SaysSeenAt self.now part.now write from (unit_byte units k) true) }
    {
        let index = self.marked_by(part, parts, write, units.byte(at))?;
        Some(element_until(&parts[index].element, units, at, end))
    }

    /// Whether parts make a write available, and what one of them marks is known at another one
    /// that comes next.
    fn is_marked_at(&self, part: &Part, parts: &[Part], write: Spot, byte: Byte) -> bool
        ensures { (ns : List Node) (n w : Node) (cached : world.Byte → Bool) (from : ℕ) → IsNumbered (n ∷ ns) → IsFrontier self.now ns → IsPart (n ∷ ns) (lines_of self.now.tallies.items) n part.now → AreFrom from (parts_at self.now.parts (world.resource_at (byte_of byte))) parts.now
            → from ≤ w.number → Contains ns w → line_of w ≡ Some write.line → place ns write.line w.number ≡ write.place
            → IsTrue result ↔ ((m : Node) × Contains ns m × IsTrue (is_limited m.act) × IsTrue (is_command w.act && makes_writes_available cached ns m (byte_of byte) m.act && edge ns w m) × Reaches (n ∷ ns) m n) }
    {
        self.marked_by(part, parts, write, byte).is_some()
    }

    /// The index of the first of some parts that makes a write available, and of which what it marks
    /// is known at another part that comes next.
    fn marked_by(&self, part: &Part, parts: &[Part], write: Spot, byte: Byte) -> Option<usize>
        ensures within { IfSome result (λ i. i < length parts.now) }
        ensures marks { IfSome result (λ i. (x : AnyPart) → slice_get parts.now i ≡ Some x → AlwaysMarks self.now part.now write (byte_of byte) x) }
        ensures none { IfNone result ((x : AnyPart) → Contains parts.now x → NeverMarks self.now part.now write (byte_of byte) x) }
    {
        for index in 0..parts.len() {
            if self.is_mark_at(part, &parts[index], write, byte) {
                return Some(index);
            }
        }
        None
    }

    /// Whether one part makes a write available, and what it marks is known at another one.
    fn is_mark_at(&self, part: &Part, mark: &Part, write: Spot, byte: Byte) -> bool
        ensures marks { result ≡ true → AlwaysMarks self.now part.now write (byte_of byte) mark.now }
        ensures none { result ≡ false → NeverMarks self.now part.now write (byte_of byte) mark.now }
    {
        mark.marks(write, byte) && self.reaches(part, mark.spot())
    }
}
