ghost use Rattle.std.specs.Prelude.{◌≡◌, ◌<◌, ◌&&◌, true, Contains, length};
ghost use Rattle.vk_model.specs.Sync.Node.{Node, nodes};
ghost use Rattle.vk_model.specs.Sync.Edge.{is_host};
ghost use Rattle.vk_model.specs.Sync.Seen.{to_host, host_mask};
ghost use Rattle.vk_model.specs.World.Ownership.{dependency_of};
ghost use Rattle.vk_order.specs.Bytes.{byte_of};
ghost use Rattle.vk_order.specs.Wide.{access_of};
ghost use Rattle.vk_order.specs.NodeViews.{act_of, node_of};
ghost use Rattle.vk_order.specs.Edges.{makes_visible};
ghost use Rattle.vk_hazards.specs.Hazards.{node_at};
ghost use Rattle.vk_hazards.specs.Links.{shows_host, shows_in_time, IsFirst};
ghost use Rattle.vk_hazards.specs.Inner.Availability.{IsPair, AreFirsts};

use crate::availability::{First, Write};
use crate::hazards::Placed;
use crate::nodes::Nodes;
use bitflags::Flags;
use vk_model::{Accesses, Element, Stages};
use vk_order::{Access, Act, Byte, Row};

/// The host's accesses that are such.
fn host_accesses(access: Access) -> Accesses
    ensures { result.0 ≡ host_mask (access_of access) }
{
    match access {
        Access::Read => Accesses(Accesses::HOST_READ.0 | Accesses::MEMORY_READ.0),
        Access::Write => Accesses(Accesses::HOST_WRITE.0 | Accesses::MEMORY_WRITE.0),
    }
}

/// The destination stages of an element.
fn destination_stages(element: &Element) -> Stages
    ensures { result.0 ≡ (dependency_of element.now).destination_stages.0 }
{
    match element {
        Element::Memory(dependency) => dependency.destination_stages,
        Element::Buffer(buffer) => buffer.dependency.destination_stages,
        Element::Image(image) => image.dependency.destination_stages,
    }
}

/// Whether an act is an element with HOST in its destination stages.
fn is_to_host(act: &Act<'_>) -> bool
    ensures { result ≡ to_host (act_of act.now) }
{
    match act {
        Act::Barrier(element) => destination_stages(element).intersects(Stages::HOST),
        Act::Set(_, _, dependency) | Act::Await(_, _, dependency) => {
            dependency.destination_stages.intersects(Stages::HOST)
        }
        _ => false,
    }
}

/// Whether a node is such an element, and makes available writes of a byte visible to accesses by
/// the host.
fn shows(row: &Row<'_>, access: Access, byte: Byte) -> bool
    ensures { result ≡ (to_host (act_of row.now.act) && makes_visible (host_mask (access_of access)) (byte_of byte) (node_of 0 row.now)) }
{
    is_to_host(&row.act) && row.makes_visible(host_accesses(access), byte)
}

/// A write of a byte, and a later access of it.
#[derive(Clone, Copy)]
pub struct Pair<'a> {
    /// The write.
    pub write: Write<'a>,
    /// The node of the access.
    pub later: Placed<'a>,
    /// How it accesses the byte.
    pub access: Access,
}

impl<'a> Nodes<'a> {
    /// Whether a node makes a write visible to the host.
    fn shows_host(&self, pair: &Pair<'a>, firsts: &[First], number: usize) -> bool
        requires pair { IsPair self.now pair.now }
        requires firsts { AreFirsts self.now (node_at pair.now.write.by) (byte_of pair.now.write.byte) firsts.now }
        requires on_host { is_host (node_at pair.now.later).act ≡ true }
        requires number { number < length (nodes self.now) }
        ensures { (n : Node) → Contains (nodes self.now) n → n.number ≡ number → result ≡ shows_host self.now (node_at pair.now.write.by) (node_at pair.now.later) (access_of pair.now.access) (byte_of pair.now.write.byte) n }
    {
        shows(&self.rows[number], pair.access, pair.write.byte)
            && self.is_available_at(&pair.write, firsts, number)
    }

    /// The first node that makes a write visible to the host, where the access is by the host.
    pub(crate) fn first_visible(&self, pair: &Pair<'a>, firsts: &[First]) -> Option<Placed<'a>>
        requires pair { IsPair self.now pair.now }
        requires firsts { AreFirsts self.now (node_at pair.now.write.by) (byte_of pair.now.write.byte) firsts.now }
        ensures { IsFirst self.now (shows_host self.now (node_at pair.now.write.by) (node_at pair.now.later) (access_of pair.now.access) (byte_of pair.now.write.byte)) result }
    {
        if !pair.later.row.act.is_host() {
            return None;
        }
        for number in 0..self.count() {
            if self.shows_host(pair, firsts, number) {
                return Some(self.placed(number));
            }
        }
        None
    }

    /// The first such node that is before the access.
    pub(crate) fn first_in_time(&self, pair: &Pair<'a>, firsts: &[First]) -> Option<Placed<'a>>
        requires pair { IsPair self.now pair.now }
        requires firsts { AreFirsts self.now (node_at pair.now.write.by) (byte_of pair.now.write.byte) firsts.now }
        ensures { IsFirst self.now (shows_in_time self.now (node_at pair.now.write.by) (node_at pair.now.later) (access_of pair.now.access) (byte_of pair.now.write.byte)) result }
    {
        if !pair.later.row.act.is_host() {
            return None;
        }
        for number in 0..self.count() {
            if self.shows_in_time(pair, firsts, number) {
                return Some(self.placed(number));
            }
        }
        None
    }

    /// Whether a node makes a write visible to the host before the access.
    fn shows_in_time(&self, pair: &Pair<'a>, firsts: &[First], number: usize) -> bool
        requires pair { IsPair self.now pair.now }
        requires firsts { AreFirsts self.now (node_at pair.now.write.by) (byte_of pair.now.write.byte) firsts.now }
        requires on_host { is_host (node_at pair.now.later).act ≡ true }
        requires number { number < length (nodes self.now) }
        ensures { (n : Node) → Contains (nodes self.now) n → n.number ≡ number → result ≡ shows_in_time self.now (node_at pair.now.write.by) (node_at pair.now.later) (access_of pair.now.access) (byte_of pair.now.write.byte) n }
    {
        self.shows_host(pair, firsts, number) && self.comes_before(number, pair.later.number)
    }
}
