ghost use Rattle.std.specs.Prelude.{◌≡◌, ◌≤◌, ◌<◌, [], ℕ, Bool, None, Some, length, slice_get};
ghost use Rattle.vk_model.specs.Sync.Node.{Node};
ghost use Rattle.vk_model.specs.Sync.Edge.{is_host};
ghost use Rattle.vk_model.specs.Sync.Before.{before};
ghost use Rattle.vk_model.specs.Sync.Seen as seen;
ghost use Rattle.vk_order.specs.declared.acts.Row.{Row as AnyRow};
ghost use Rattle.vk_order.specs.NodeViews.{act_of, node_of, nodes_after};
ghost use Rattle.vk_order.specs.Bytes.{byte_of};
ghost use Rattle.vk_order.specs.Wide.{access_of};
ghost use Rattle.vk_order.specs.Inner.Kept.{IsStamped};
ghost use Rattle.vk_order.specs.Inner.Availability.{serves, IsUntil, IsFirstFlush, IsLastInvalidation};

use crate::access::Access;
use crate::act::Act;
use crate::acts::{Row, destination_stages};
use crate::before::is_before;
use crate::bytes::{Byte, ByteAccess};
use crate::clocks::Stamp;
use crate::lines::Line;
use bitflags::Flags;
use vk_model::Stages;

/// An access by a node.
#[derive(Clone, Copy)]
pub struct Reader<'a> {
    /// The number of the node.
    pub number: usize,
    /// The node.
    pub row: Row<'a>,
    /// What an access by the host comes after: itself, or the last invalidation of the byte before
    /// it where one is needed.
    pub until: Option<usize>,
    /// The access.
    pub access: ByteAccess,
}

impl Reader<'_> {
    /// Whether a node makes writes of the byte visible to the access.
    pub fn is_served_by(
        &self,
        rows: &[Row<'_>],
        stamps: &[Stamp],
        lines: &[Line],
        by_host: bool,
        number: usize,
        row: &Row<'_>,
    ) -> bool
        requires lengths { length stamps.now ≡ length rows.now }
        requires number { number < length rows.now }
        ensures { (in_time : Node → Bool) → IsUntil rows.now self.now.until in_time → IsStamped rows.now stamps.now lines.now → slice_get rows.now number ≡ Some row.now
            → result ≡ serves in_time by_host self.now (node_of number row.now) }
    {
        let ByteAccess { byte, access, .. } = self.access;
        match self.row.act {
            Act::Runs(_) => {
                number < self.number
                    && row.leads_to(&self.row)
                    && (row.makes_visible(access.of_commands(), byte)
                        || row.act.is_wait()
                        || by_host && row.is_submit())
            }
            Act::Hosts(_) => {
                row.act.ends_on_host()
                    && row.makes_visible(access.of_host(), byte)
                    && self.is_in_time(rows, stamps, lines, number)
            }
            Act::Barrier(_) | Act::Set(..) | Act::Await(..) => number == self.number,
            Act::Waits(_) | Act::Signals(_) => false,
        }
    }

    /// Whether a node is before what the access by the host comes after.
    fn is_in_time(&self, rows: &[Row<'_>], stamps: &[Stamp], lines: &[Line], number: usize) -> bool
        requires lengths { length stamps.now ≡ length rows.now }
        requires number { number < length rows.now }
        ensures { (in_time : Node → Bool) (r : AnyRow) → IsUntil rows.now self.now.until in_time → IsStamped rows.now stamps.now lines.now → slice_get rows.now number ≡ Some r → result ≡ in_time (node_of number r) }
    {
        let Some(until) = self.until else {
            return false;
        };
        until < rows.len() && is_before(rows, stamps, lines, number, until)
    }
}

impl Act<'_> {
    fn is_wait(&self) -> bool
        ensures { result ≡ seen.is_wait (act_of self.now) }
    {
        matches!(self, Act::Waits(_))
    }

    /// Whether it is an element with the host in its second scope.
    fn ends_on_host(&self) -> bool
        ensures { result ≡ seen.to_host (act_of self.now) }
    {
        match self {
            Act::Barrier(element) => destination_stages(element).intersects(Stages::HOST),
            Act::Set(_, _, dependency) | Act::Await(_, _, dependency) => {
                dependency.destination_stages.intersects(Stages::HOST)
            }
            _ => false,
        }
    }
}

/// The number of the first flush of a byte after a node; where there is none, how many nodes there
/// are.
pub fn first_flush(rows: &[Row<'_>], number: usize, byte: Byte) -> usize
    ensures { IsFirstFlush rows.now number (byte_of byte) result }
{
    for (flush, row) in rows.iter().enumerate() {
        if number < flush && row.act.flushes(byte) {
            return flush;
        }
    }
    rows.len()
}

/// The number of the last invalidation of a byte before a node.
pub fn last_invalidation(rows: &[Row<'_>], number: usize, byte: Byte) -> Option<usize>
    requires { number ≤ length rows.now }
    ensures { IsLastInvalidation rows.now number (byte_of byte) result }
{
    let mut last = None;
    for earlier in 0..number {
        if rows[earlier].act.invalidates(byte) {
            last = Some(earlier);
        }
    }
    last
}
