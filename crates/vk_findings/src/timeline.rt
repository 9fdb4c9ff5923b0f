ghost use Rattle.std.specs.Prelude.{◌≡◌, ◌<◌, ℕ, true, false, IfOk, is_some, length};
ghost use Rattle.std.specs.List.{list_any};
ghost use Rattle.vk_model.specs.declared.entry.Entry.{Entry as AnyEntry};
ghost use Rattle.vk_model.specs.Trace.Point.{Past, Host, host_of};
ghost use Rattle.vk_model.specs.Trace.Point as spec;
ghost use Rattle.vk_model.specs.Sync.Node.{nodes};
ghost use Rattle.vk_model.specs.Trace.PointViews.{action_of, point_of};
ghost use Rattle.vk_order.specs.NodeViews.{node_of};
ghost use Rattle.vk_history.specs.PointViews.{past};
ghost use Rattle.vk_findings.specs.Inner.Uses.{AreBeforeTo, IsBeforeAt, IsIncomplete, IsProgress, IsTimeline, at_spot, uses_at};

use crate::named::{Spot, named_by};
use std::alloc::{AllocError, Global};
use vk_hazards::{all_rows, order_of};
use vk_history::History;
use vk_model::Point;
use vk_order::{Points, Row};

/// How far a command has come, for a resource.
#[derive(Clone, Copy)]
pub enum Progress {
    /// Its batch waits.
    Waiting,
    /// It was started, and isn't known complete.
    Started,
    /// It is known complete.
    Complete,
}

/// The nodes of what has happened, and their order with the node of the host entry that comes next.
#[derive(Drop)]
pub struct Timeline<'a> {
    rows: Vec<Row<'a>>,
    order: Points<'a>,
    /// The number of the last node.
    last: usize,
}

impl<'a> Timeline<'a> {
    /// Of a host entry that comes next. The only error is want of memory.
    pub fn of(
        alloc: Global,
        history: &History<'a>,
        point: &Point<'a>,
    ) -> Result<Timeline<'a>, AllocError>
        requires { is_some (host_of (action_of point.now.action)) ≡ true }
        ensures { IfOk result (λ t. IsTimeline t (past history.now) (point_of point.now)) }
    {
        history.is_judged();
        let points = history.happened();
        let rows = all_rows(alloc, points)?;
        let mut order = order_of(alloc, points)?;
        let last = order.len();
        order.add(*point)?;
        Ok(Timeline { rows, order, last })
    }

    /// How many nodes there are before the last one.
    pub fn len(&self) -> usize {
        self.rows.len()
    }

    /// The row of a node.
    pub fn row(&self, node: usize) -> Option<&Row<'a>> {
        self.rows.get(node)
    }

    /// Whether a node isn't known to come before the last one.
    pub fn is_late(&self, node: usize) -> bool {
        let count = self.order.len();
        node < count && self.last < count && !self.order.before(node, self.last)
    }

    /// How far the command at a place has come, for a resource, where the last node is of a host entry.
    pub fn progress(&self, spot: Spot, resource: u32) -> Progress
        ensures { (older : Past) (p : spec.Point) (x : AnyEntry) → p.action ≡ Host x → IsTimeline self.now older p → IsProgress older p spot resource result }
    {
        if self.has_late_use(spot, resource) {
            return Progress::Started;
        }
        if self.has_use(spot, resource) {
            return Progress::Complete;
        }
        Progress::Waiting
    }

    /// Whether some node is of the command at a place and names a resource, and isn't known to come
    /// before the last one.
    fn has_late_use(&self, spot: Spot, resource: u32) -> bool
        ensures late { result ≡ true → (older : Past) (p : spec.Point) (x : AnyEntry) → p.action ≡ Host x → IsTimeline self.now older p → IsIncomplete older p spot resource true }
        ensures before { result ≡ false → AreBeforeTo self.now spot resource (length self.now.rows.items) }
    {
        for node in 0..self.rows.len() {
            if self.is_late_use(node, spot, resource) {
                return true;
            }
        }
        false
    }

    /// Whether a node is such a one.
    fn is_late_use(&self, node: usize, spot: Spot, resource: u32) -> bool
        requires { node < length self.now.rows.items }
        ensures late { result ≡ true → (older : Past) (p : spec.Point) (x : AnyEntry) → p.action ≡ Host x → IsTimeline self.now older p → IsIncomplete older p spot resource true }
        ensures before { result ≡ false → IsBeforeAt self.now spot resource node }
    {
        let count = self.order.len();
        if node >= count || self.last >= count {
            return false;
        }
        is_use(&self.rows[node], spot, resource) && !self.order.before(node, self.last)
    }

    /// Whether some node is of the command at a place and names a resource.
    fn has_use(&self, spot: Spot, resource: u32) -> bool
        ensures { (older : Past) (p : spec.Point) → IsTimeline self.now older p → result ≡ list_any (uses_at spot resource) (nodes older) }
    {
        for row in self.rows.as_slice() {
            if is_use(row, spot, resource) {
                return true;
            }
        }
        false
    }
}

/// Whether a row is of the command at a place and names a resource.
fn is_use(row: &Row<'_>, spot: Spot, resource: u32) -> bool
    ensures { (k : ℕ) → result ≡ uses_at spot resource (node_of k row.now) }
{
    is_at(&row.point, spot) && named_by(&row.act).has(resource)
}

fn is_at(point: &Point<'_>, spot: Spot) -> bool
    ensures { result ≡ at_spot spot (point_of point.now) }
{
    point.entry == spot.entry && point.batch == spot.batch && point.place == spot.place
}
