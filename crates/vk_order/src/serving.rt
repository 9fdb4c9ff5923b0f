ghost use Rattle.std.specs.Prelude.{◌≡◌, ◌||◌, ◌&&◌, ◌≤◌, ◌↔◌, ℕ, Bool, List, true, false, IsTrue, Contains, Some};
ghost use Rattle.vk_model.specs.World.Bytes as world;
ghost use Rattle.vk_model.specs.Sync.Node.{Node};
ghost use Rattle.vk_model.specs.Sync.Edge.{edge, is_command, is_host};
ghost use Rattle.vk_model.specs.Sync.Seen.{makes_writes_available};
ghost use Rattle.vk_order.specs.Lines.{line_of, place};
ghost use Rattle.vk_order.specs.Wide.{access_of};
ghost use Rattle.vk_order.specs.Limited.{is_limited, Reaches};
ghost use Rattle.vk_order.specs.Bytes.{byte_of};
ghost use Rattle.vk_order.specs.Inner.Parts.{parts_at, AreFrom, IsPart, opens, Serves};
ghost use Rattle.vk_order.specs.Inner.Tallies.{lines_of};
ghost use Rattle.vk_order.specs.Frontiers.{IsFrontier, IsNewNode};
ghost use Rattle.vk_order.specs.SeenWrites.{SaysSeen};

use crate::access::Access;
use crate::bytes::Byte;
use crate::frontier::Frontier;
use crate::new_node::NewNode;
use crate::parts::{Part, Spot, parts_from};

impl Frontier {
    /// Whether an access of a byte by the node that comes next, a command or a host entry that
    /// needs no invalidation, sees the write of it by a node, before which at least `from` nodes
    /// came: the search is among what came since. Dependencies may be on parts of memory.
    pub fn is_seen(
        &self,
        new_node: &NewNode<'_>,
        write: Spot,
        from: usize,
        byte: Byte,
        access: Access,
    ) -> bool
        ensures { SaysSeen self.now new_node.now write from access (byte_of byte) result }
    {
        let parts = parts_from(self.parts_of(byte), from);
        self.is_served(new_node, parts, write, byte, access)
            || self.is_marked(new_node, parts, write, byte, access)
    }

    /// Whether parts make a write available, and what one of them marks is known at a node that
    /// makes the byte visible to the access.
    fn is_marked(
        &self,
        new_node: &NewNode<'_>,
        parts: &[Part],
        write: Spot,
        byte: Byte,
        access: Access,
    ) -> bool
        ensures { (ns : List Node) (n w : Node) (cached : world.Byte → Bool) (from : ℕ) → IsFrontier self.now ns → IsNewNode ns n new_node.now → (is_command n.act || is_host n.act) ≡ true → AreFrom from (parts_at self.now.parts (world.resource_at (byte_of byte))) parts.now
            → from ≤ w.number → Contains ns w → line_of w ≡ Some write.line → place ns write.line w.number ≡ write.place
            → IsTrue result ↔ ((m : Node) × Contains ns m × IsTrue (is_limited m.act) × IsTrue (is_command w.act && makes_writes_available cached ns m (byte_of byte) m.act && edge ns w m) × Serves cached ns n (access_of access) (byte_of byte) m) }
    {
        for part in parts {
            if self.is_mark(new_node, parts, part, write, byte, access) {
                return true;
            }
        }
        false
    }

    /// Whether one part makes a write available, and what it marks is known at such a node.
    fn is_mark(
        &self,
        new_node: &NewNode<'_>,
        parts: &[Part],
        part: &Part,
        write: Spot,
        byte: Byte,
        access: Access,
    ) -> bool
        ensures { (ns : List Node) (n w m : Node) (cached : world.Byte → Bool) (from : ℕ) → IsFrontier self.now ns → IsNewNode ns n new_node.now → (is_command n.act || is_host n.act) ≡ true → AreFrom from (parts_at self.now.parts (world.resource_at (byte_of byte))) parts.now
            → from ≤ w.number → Contains ns w → line_of w ≡ Some write.line → place ns write.line w.number ≡ write.place → IsPart ns (lines_of self.now.tallies.items) m part.now
            → IsTrue result ↔ (IsTrue (is_command w.act && makes_writes_available cached ns m (byte_of byte) m.act && edge ns w m) × Serves cached ns n (access_of access) (byte_of byte) m) }
    {
        part.marks(write, byte) && self.is_served(new_node, parts, part.spot(), byte, access)
    }

    /// Whether what a node marks is known at a node that makes a byte visible to the access.
    fn is_served(
        &self,
        new_node: &NewNode<'_>,
        parts: &[Part],
        spot: Spot,
        byte: Byte,
        access: Access,
    ) -> bool
        ensures { (ns : List Node) (n m : Node) (cached : world.Byte → Bool) (from : ℕ) → IsFrontier self.now ns → IsNewNode ns n new_node.now → (is_command n.act || is_host n.act) ≡ true → AreFrom from (parts_at self.now.parts (world.resource_at (byte_of byte))) parts.now
            → from ≤ m.number → Contains ns m → line_of m ≡ Some spot.line → place ns spot.line m.number ≡ spot.place → IsTrue result ↔ Serves cached ns n (access_of access) (byte_of byte) m }
    {
        if new_node.shows(spot, access) {
            return true;
        }
        for part in parts {
            if self.gives(new_node, part, spot, byte, access) {
                return true;
            }
        }
        false
    }

    /// Whether one part makes the byte visible to the access, and what the node marks is known
    /// there.
    fn gives(
        &self,
        new_node: &NewNode<'_>,
        part: &Part,
        spot: Spot,
        byte: Byte,
        access: Access,
    ) -> bool
        ensures { (ns : List Node) (n m q : Node) (cached : world.Byte → Bool) → IsNewNode ns n new_node.now → (is_command n.act || is_host n.act) ≡ true → IsPart ns (lines_of self.now.tallies.items) q part.now
            → Contains ns m → line_of m ≡ Some spot.line → place ns spot.line m.number ≡ spot.place → IsTrue result ↔ (IsTrue (opens cached ns n n.act (access_of access) (byte_of byte) q) × Reaches ns m q) }
    {
        new_node.is_open(part, byte, access) && self.reaches(part, spot)
    }
}
