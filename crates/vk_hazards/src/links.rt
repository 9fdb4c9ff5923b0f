ghost use Rattle.std.specs.Prelude.{◌≡◌, IfOk, true, false, Contains, is_some};
ghost use Rattle.vk_model.specs.Trace.Point as spec;
ghost use Rattle.vk_model.specs.Sync.Node.{Node, nodes};
ghost use Rattle.vk_model.specs.Sync.Edge.{is_host};
ghost use Rattle.vk_model.specs.Sync.Access.{is_seen};
ghost use Rattle.vk_model.specs.Sync.Seen.{Access as AnyAccess};
ghost use Rattle.vk_model.specs.World.Bytes.{Byte as AnyByte};
ghost use Rattle.vk_order.specs.Bytes.{byte_of};
ghost use Rattle.vk_order.specs.Wide.{access_of};
ghost use Rattle.vk_hazards.specs.Hazards.{is_missing, node_at};
ghost use Rattle.vk_hazards.specs.Links.{needs_flush, AreLinks, AreLinksOfWrite, IsMissingAfterWrite};
ghost use Rattle.vk_hazards.specs.Inner.Found.{AreFound};

use crate::availability::Write;
use crate::before::is_cached;
use crate::hazards::{Hazard, HazardFact, Placed};
use crate::nodes::Nodes;
use crate::visibility::Pair;
use std::alloc::AllocError;
use vk_order::{Access, Byte};

/// A link between an access of a byte and a later one that are in hazard.
#[derive(Clone, Copy, Debug, PartialEq, Eq)]
pub enum Missing {
    /// A flush after the host's write of memory that it reaches through a cache.
    Flush,
    /// A submit after the host's write, and after its flush.
    Submit,
    /// A node that makes a write by the device available.
    Available,
    /// That the earlier access, or a node that makes it available, is before the later access, which
    /// is by the device.
    Order,
    /// A node that makes the available write visible to the later access.
    Visible,
    /// That such a node is before the later access, which is by the host.
    Wait,
    /// An invalidation between such a node and the later access, a read by the host of memory that it
    /// reaches through a cache.
    Invalidation,
}

/// The links between an access of a byte and a later one that are in hazard: which one is missing,
/// and which nodes the others are by.
#[derive(Clone, Copy)]
pub struct Links<'a> {
    /// The first one that is missing.
    pub missing: Missing,
    /// The first flush of the byte after a write that needs one.
    pub flush: Option<Placed<'a>>,
    /// The first node that makes the write available.
    pub available: Option<Placed<'a>>,
    /// The first element that makes the available write visible to the host, where the later access
    /// is by the host.
    pub visible: Option<Placed<'a>>,
    /// The first of these elements that is before the later access.
    pub awaited: Option<Placed<'a>>,
}

/// The links that are there.
#[derive(Clone, Copy)]
struct Found<'a> {
    /// Whether the write needs a flush.
    needs_flush: bool,
    /// The first flush of the byte after a write that needs one.
    flush: Option<Placed<'a>>,
    /// The first node that makes the write available.
    available: Option<Placed<'a>>,
    /// The first node that makes it visible to the host.
    visible: Option<Placed<'a>>,
    /// The first of these that is before the access.
    awaited: Option<Placed<'a>>,
    /// Whether the write is available at the access, where that isn't by the host.
    is_there: bool,
}

impl<'a> Nodes<'a> {
    /// Which link is missing between two nodes that are in hazard, and which nodes the others are
    /// by. It walks a few times over the nodes. Of the nodes that make a write available it keeps the
    /// first of each line (`vk_order::Line`) and each element of a set: a further one is compared
    /// with these, and so is, where the host makes the later access, each element with HOST in its
    /// destination stages; where it is compared with an element of a set, it walks over the nodes
    /// between. The only error is want of memory.
    pub fn links(&self, fact: &HazardFact<'a>) -> Result<Links<'a>, AllocError>
        requires earlier { Contains (nodes self.now) (node_at fact.now.earlier) }
        requires later { Contains (nodes self.now) (node_at fact.now.later) }
        requires hazard { is_missing self.now fact.now.hazard (node_at fact.now.earlier) (node_at fact.now.later) (byte_of fact.now.byte) ≡ true }
        ensures { IfOk result (λ links. AreLinks self.now fact.now.hazard (node_at fact.now.earlier) (node_at fact.now.later) (byte_of fact.now.byte) links) }
    {
        match fact.hazard {
            Hazard::War => Ok(order_alone()),
            Hazard::Raw => self.links_of_write(fact, Access::Read),
            Hazard::Waw => self.links_of_write(fact, Access::Write),
        }
    }

    /// The same after a write.
    fn links_of_write(&self, fact: &HazardFact<'a>, access: Access) -> Result<Links<'a>, AllocError>
        requires earlier { Contains (nodes self.now) (node_at fact.now.earlier) }
        requires later { Contains (nodes self.now) (node_at fact.now.later) }
        requires hazard { is_seen self.now (node_at fact.now.earlier) (node_at fact.now.later) (access_of access) (byte_of fact.now.byte) ≡ false }
        ensures { IfOk result (λ links. AreLinksOfWrite self.now (node_at fact.now.earlier) (node_at fact.now.later) (access_of access) (byte_of fact.now.byte) links) }
    {
        let found = self.found(fact, access)?;
        Ok(Links {
            missing: first_missing(&fact.earlier, &fact.later, &found),
            flush: found.flush,
            available: found.available,
            visible: found.visible,
            awaited: found.awaited,
        })
    }

    /// The links that are there after a write.
    fn found(&self, fact: &HazardFact<'a>, access: Access) -> Result<Found<'a>, AllocError>
        requires earlier { Contains (nodes self.now) (node_at fact.now.earlier) }
        requires later { Contains (nodes self.now) (node_at fact.now.later) }
        ensures { IfOk result (λ found. AreFound self.now (node_at fact.now.earlier) (node_at fact.now.later) (access_of access) (byte_of fact.now.byte) found) }
    {
        let by = fact.earlier;
        let byte = fact.byte;
        let needs_flush = self.needs_flush(&by, byte);
        let flush = self.flush_after(&by, byte, needs_flush);
        let from = self.available_from(&by, needs_flush, &flush);
        let write = Write { by, from, byte };
        let firsts = self.firsts(&write)?;
        let pair = Pair {
            write,
            later: fact.later,
            access,
        };
        Ok(Found {
            needs_flush,
            flush,
            available: self.first_available(&write),
            visible: self.first_visible(&pair, firsts.as_slice()),
            awaited: self.first_in_time(&pair, firsts.as_slice()),
            is_there: self.is_available_at(&write, firsts.as_slice(), fact.later.number),
        })
    }

    /// Whether a write needs a flush.
    fn needs_flush(&self, by: &Placed<'a>, byte: Byte) -> bool
        ensures { result ≡ needs_flush self.now (node_at by.now) (byte_of byte) }
    {
        by.row.act.is_host() && is_cached(self.points.as_slice(), byte.resource())
    }
}

/// That the order is missing, and nothing else is asked.
fn order_alone<'a>() -> Links<'a>
    ensures { result ≡ record { missing = Missing.Order; flush = None; available = None; visible = None; awaited = None } }
{
    Links {
        missing: Missing::Order,
        flush: None,
        available: None,
        visible: None,
        awaited: None,
    }
}

/// The first link that is missing after a write, by those that are there.
fn first_missing(earlier: &Placed<'_>, later: &Placed<'_>, found: &Found<'_>) -> Missing
    ensures { (past : spec.Past) (k : AnyAccess) (b : AnyByte) → Contains (nodes past) (node_at later.now) → AreFound past (node_at earlier.now) (node_at later.now) k b found.now → is_seen past (node_at earlier.now) (node_at later.now) k b ≡ false
        → IsMissingAfterWrite past (node_at earlier.now) (node_at later.now) k b result }
{
    if found.needs_flush && found.flush.is_none() {
        return Missing::Flush;
    }
    if found.available.is_none() {
        return not_available(earlier);
    }
    if later.row.act.is_host() {
        unseen_by_host(found)
    } else if found.is_there {
        Missing::Visible
    } else {
        Missing::Order
    }
}

/// The link without which a write isn't available.
fn not_available(earlier: &Placed<'_>) -> Missing
    ensures by_host { is_host (node_at earlier.now).act ≡ true → result ≡ Missing.Submit }
    ensures by_device { is_host (node_at earlier.now).act ≡ false → result ≡ Missing.Available }
{
    if earlier.row.act.is_host() {
        Missing::Submit
    } else {
        Missing::Available
    }
}

/// The link without which the host doesn't see a write that is available.
fn unseen_by_host(found: &Found<'_>) -> Missing
    ensures shows_some { found.now.visible ≡ None → result ≡ Missing.Visible }
    ensures awaited { is_some found.now.visible ≡ true → found.now.awaited ≡ None → result ≡ Missing.Wait }
    ensures rest { is_some found.now.visible ≡ true → is_some found.now.awaited ≡ true → result ≡ Missing.Invalidation }
{
    if found.visible.is_none() {
        Missing::Visible
    } else if found.awaited.is_none() {
        Missing::Wait
    } else {
        Missing::Invalidation
    }
}
