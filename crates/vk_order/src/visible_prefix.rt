ghost use Rattle.std.specs.Prelude.{◌≡◌, ℕ, true, false};
ghost use Rattle.vk_model.specs.World.Bytes as world;
ghost use Rattle.vk_order.specs.declared.parts.Spot.{Spot as AnySpot};
ghost use Rattle.vk_order.specs.SeenWrites.{SaysSeen};
ghost use Rattle.vk_order.specs.VisiblePrefix.{is_among};
ghost use Rattle.vk_order.specs.Lines.{same_line};

use crate::access::Access;
use crate::frontier::Frontier;
use crate::lines::Line;
use crate::new_node::NewNode;
use crate::parts::Spot;

/// The first nodes of a line, of which all writes are seen.
#[derive(Clone, Copy)]
pub struct VisiblePrefix {
    /// The line.
    pub(crate) line: Line,
    /// How many nodes of it.
    pub(crate) count: usize,
}

impl VisiblePrefix {
    /// Of no node: a search begins with it, before it is known on which line the writes are.
    #[inline(always)]
    pub fn none() -> VisiblePrefix
        ensures { (write : AnySpot) → is_among result write ≡ false }
    {
        VisiblePrefix {
            line: Line::Sets(0),
            count: 0,
        }
    }

    /// Whether the line is this one.
    #[inline(always)]
    pub fn is_of(self, line: Line) -> bool
        ensures { result ≡ same_line self.line line }
    {
        self.line.is(line)
    }

    /// Whether the node of a spot is one of them.
    #[inline(always)]
    pub fn has(self, write: Spot) -> bool
        ensures { result ≡ is_among self write }
    {
        self.line.is(write.line) && write.place < self.count
    }
}

impl Frontier {
    /// The first nodes of a line of which an access of any byte by the node that comes next sees
    /// the writes, and those that `is_seen` would look no further for.
    pub fn visible_prefix(
        &self,
        new_node: &NewNode<'_>,
        line: Line,
        access: Access,
    ) -> VisiblePrefix
        ensures { (write : AnySpot) (from : ℕ) (b : world.Byte) → is_among result write ≡ true → SaysSeen self.now new_node.now write from access b true }
    {
        VisiblePrefix {
            line,
            count: new_node.known(line, access),
        }
    }
}
