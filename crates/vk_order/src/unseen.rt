ghost use Rattle.std.specs.Prelude.{◌≡◌, ◌<◌, ◌≤◌, ◌⊎◌, ◌&&◌, ℕ, Bool, List, Some, true, false, IfSome, IfNone, IsTrue, Contains, length, slice_get};
ghost use Rattle.vk_model.specs.World.Bytes as world;
ghost use Rattle.vk_model.specs.Sync.Node.{Node};
ghost use Rattle.vk_model.specs.Sync.Edge.{edge, is_command};
ghost use Rattle.vk_model.specs.Sync.Before.{IsNumbered};
ghost use Rattle.vk_model.specs.Sync.Seen.{covers, makes_writes_available};
ghost use Rattle.vk_order.specs.declared.parts.Part.{Part as AnyPart};
ghost use Rattle.vk_order.specs.Bytes.{byte_of};
ghost use Rattle.vk_order.specs.Limited.{Reaches};
ghost use Rattle.vk_order.specs.Lines.{line_of, place};
ghost use Rattle.vk_order.specs.SeenWrites.{SaysSeen};
ghost use Rattle.vk_order.specs.Units.{HaveNumbers, unit_byte, units_resource};
ghost use Rattle.vk_order.specs.Wide.{access_of};
ghost use Rattle.vk_order.specs.Inner.Alone.{AlwaysShows};
ghost use Rattle.vk_order.specs.Inner.Parts.{parts_at, AreInOrder, AreFrom, IsPart};
ghost use Rattle.vk_order.specs.Inner.Tallies.{lines_of};

use crate::access::Access;
use crate::bytes::Byte;
use crate::frontier::Frontier;
use crate::new_node::NewNode;
use crate::parts::{Part, Spot, parts_from};
use crate::units::{Units, element_until};

/// Up to where, and at most to an end, each of some parts is on the units as on one, or on none of
/// them.
pub(crate) fn parts_until(parts: &[Part], units: Units, at: u64, end: u64) -> u64
    requires order { at < end }
    requires numbers { HaveNumbers units end }
    ensures further { at < result }
    ensures within { result ≤ end }
    ensures alike { (x : AnyPart) → Contains parts.now x → (k : ℕ) → at ≤ k → k < result → covers x.element (unit_byte units k) ≡ covers x.element (unit_byte units at) }
{
    let mut until = end;
    for part in parts {
        if until - at == 1 {
            return until;
        }
        until = element_until(&part.element, units, at, until);
    }
    until
}

/// Units in a row that are seen alike.
#[derive(Clone, Copy)]
pub struct SeenUntil {
    /// The unit after the last one.
    pub end: u64,
    /// Whether they are seen.
    pub is_seen: bool,
}

impl Frontier {
    /// Whether an access of unit `low` by the node that comes next sees the write by a node, and
    /// up to where, and at most to `high`, this is so. It is asked as `is_seen` is.
    pub fn seen_until(
        &self,
        new_node: &NewNode<'_>,
        write: Spot,
        from: usize,
        units: Units,
        low: u64,
        high: u64,
        access: Access,
    ) -> SeenUntil
        requires order { low < high }
        requires numbers { HaveNumbers units high }
        ensures further { low < result.end }
        ensures within { result.end ≤ high }
        ensures seen { (k : ℕ) → low ≤ k → k < result.end → SaysSeen self.now new_node.now write from access (unit_byte units k) result.is_seen }
    {
        if new_node.shows(write, access) {
            return SeenUntil {
                end: high,
                is_seen: true,
            };
        }
        let byte = units.byte(low);
        let parts = parts_from(self.parts_on(units.resource()), from);
        SeenUntil {
            end: parts_until(parts, units, low, high),
            is_seen: self.is_seen(new_node, write, from, byte, access),
        }
    }

    /// The first unit, from `low` on and before `high`, of which an access
    /// by the node that comes next doesn't see the write by a node. It is asked as `is_seen` is,
    /// and once for the units in a row that one part shows, or that the same parts are on.
    pub fn first_unseen(
        &self,
        new_node: &NewNode<'_>,
        write: Spot,
        from: usize,
        units: Units,
        low: u64,
        high: u64,
        access: Access,
    ) -> Option<u64>
        requires { HaveNumbers units high }
        ensures within { IfSome result (λ k. (low ≤ k) × (k < high)) }
        ensures unseen { IfSome result (λ k. SaysSeen self.now new_node.now write from access (unit_byte units k) false) }
        ensures seen { IfNone result ((k : ℕ) → low ≤ k → k < high → SaysSeen self.now new_node.now write from access (unit_byte units k) true) }
    {
        if new_node.shows(write, access) {
            return None;
        }
        let parts = parts_from(self.parts_on(units.resource()), from);
        let mut at = low;
        let mut near = 0;
        while at < high {
            match self.visible_until(new_node, parts, near, write, units, at, high, access) {
                Some((index, until)) => {
                    near = index;
                    at = until;
                }
                None => {
                    let byte = units.byte(at);
                    if !self.is_seen(new_node, write, from, byte, access) {
                        return Some(at);
                    }
                    at = parts_until(parts, units, at, high);
                }
            }
        }
        None
    }

    /// Up to where, and at most to an end, a part shows the write by itself from a unit on; and the
    /// part's index, of those that do one that is near another.
    fn visible_until(
        &self,
        new_node: &NewNode<'_>,
        parts: &[Part],
        near: usize,
        write: Spot,
        units: Units,
        at: u64,
        end: u64,
        access: Access,
    ) -> Option<(usize, u64)>
        requires order { at < end }
        requires numbers { HaveNumbers units end }
        ensures further { IfSome result (λ r. at < r.1) }
        ensures seen { IfSome result (λ r. (from : ℕ) → (AreInOrder (parts_at self.now.parts (units_resource units)) → AreFrom from (parts_at self.now.parts (units_resource units)) parts.now)
            → (k : ℕ) → at ≤ k → k < r.1 → SaysSeen self.now new_node.now write from access (unit_byte units k) true) }
    {
        let byte = units.byte(at);
        let index = self.made_visible_by(new_node, parts, near, write, byte, access)?;
        let until = element_until(&parts[index].element, units, at, end);
        Some((index, until))
    }

    /// The index of a part that shows the write of a byte by itself, one that is near another.
    fn made_visible_by(
        &self,
        new_node: &NewNode<'_>,
        parts: &[Part],
        near: usize,
        write: Spot,
        byte: Byte,
        access: Access,
    ) -> Option<usize>
        ensures within { IfSome result (λ i. i < length parts.now) }
        ensures shows { IfSome result (λ i. (x : AnyPart) → slice_get parts.now i ≡ Some x → AlwaysShows self.now new_node.now write (access_of access) (byte_of byte) x) }
    {
        for step in 0..parts.len() {
            if let Some(index) = near.checked_sub(step)
                && self.shows_at(new_node, parts, index, write, byte, access)
            {
                return Some(index);
            }
            if let Some(index) = near.checked_add(step)
                && self.shows_at(new_node, parts, index, write, byte, access)
            {
                return Some(index);
            }
        }
        None
    }

    /// Whether there is a part of an index, and it shows the write of a byte by itself.
    fn shows_at(
        &self,
        new_node: &NewNode<'_>,
        parts: &[Part],
        index: usize,
        write: Spot,
        byte: Byte,
        access: Access,
    ) -> bool
        ensures within { result ≡ true → index < length parts.now }
        ensures shows { result ≡ true → (x : AnyPart) → slice_get parts.now index ≡ Some x → AlwaysShows self.now new_node.now write (access_of access) (byte_of byte) x }
    {
        index < parts.len() && self.shows_alone(new_node, &parts[index], write, byte, access)
    }

    /// Whether a part makes a byte visible to the access, and the write of it is known there or
    /// made available by it.
    fn shows_alone(
        &self,
        new_node: &NewNode<'_>,
        part: &Part,
        write: Spot,
        byte: Byte,
        access: Access,
    ) -> bool
        ensures { result ≡ true → AlwaysShows self.now new_node.now write (access_of access) (byte_of byte) part.now }
    {
        new_node.is_open(part, byte, access) && self.is_known_at(part, write, byte)
    }

    /// Whether the write of a byte is known at a part, or made available by it.
    fn is_known_at(&self, part: &Part, write: Spot, byte: Byte) -> bool
        ensures { result ≡ true → (ns : List Node) (w m : Node) (cached : world.Byte → Bool) → IsNumbered ns → IsPart ns (lines_of self.now.tallies.items) m part.now → Contains ns w → line_of w ≡ Some write.line → place ns write.line w.number ≡ write.place
            → Reaches ns w m ⊎ IsTrue (is_command w.act && makes_writes_available cached ns m (byte_of byte) m.act && edge ns w m) }
    {
        self.reaches(part, write) || part.marks(write, byte)
    }
}
