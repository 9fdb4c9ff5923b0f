ghost use Rattle.std.specs.Prelude.{◌≡◌, ◌<◌, ℕ, IfOk, Some, Contains, slice_get, take, length};
ghost use Rattle.vk_model.specs.Sync.Node.{Node, nodes};
ghost use Rattle.vk_model.specs.Sync.Before.{before};
ghost use Rattle.vk_model.specs.declared.point.Point.{Point as AnyPoint};
ghost use Rattle.vk_model.specs.Trace.PointViews.{point_of};
ghost use Rattle.vk_order.specs.Places.{IsApart};
ghost use Rattle.vk_order.specs.Queries.{IsNew};
ghost use Rattle.vk_queues.specs.PointViews.{past_of};
ghost use Rattle.vk_hazards.specs.Hazards.{node_at};

use crate::before::{all_rows, order_of};
use crate::hazards::Placed;
use std::alloc::{AllocError, Global};
use std::marker::Model;
use vk_model::Point;
use vk_order::{Points, Row, elements_are_together};

/// The nodes of points, and their order. Contracts see the points, the newest first.
#[derive(Drop)]
pub struct Nodes<'a> {
    pub(crate) alloc: Global,
    pub(crate) points: Vec<Point<'a>>,
    pub(crate) rows: Vec<Row<'a>>,
    order: Points<'a>,
}

impl<'a> Model for Nodes<'a> {
    ghost use Rattle.vk_model.specs.Trace.Point as spec;
    ghost use Rattle.vk_queues.specs.PointViews.{past_of};
    ghost use Rattle.vk_hazards.specs.Inner.IsKept.{IsKept};

    ghost Value = { spec.Past };

    ghost view = { λ n. past_of n.points.items };

    ghost invariant = { λ n. IsKept (past_of n.points.items) n.rows.items n.order };
}

impl<'a> Nodes<'a> {
    /// Of points, the oldest first, each new after the ones before it, and no two commands at one
    /// place, as the first so many of reference order are. The only error is want of memory.
    pub fn of(alloc: Global, points: Vec<Point<'a>>) -> Result<Nodes<'a>, AllocError>
        requires new { (k : ℕ) (p : AnyPoint) → slice_get points.items k ≡ Some p → IsNew (point_of p) (nodes (past_of (take k points.items))) }
        requires apart { IsApart (past_of points.items) }
        ensures { IfOk result (λ nodes. nodes ≡ past_of points.entry.items) }
    {
        elements_are_together();
        let rows = all_rows(alloc, points.as_slice())?;
        let order = order_of(alloc, points.as_slice())?;
        Ok(Nodes {
            alloc,
            points,
            rows,
            order,
        })
    }

    /// A node, by its number.
    pub(crate) fn placed(&self, number: usize) -> Placed<'a>
        requires { number < length (nodes self.now) }
        ensures node { (n : Node) → Contains (nodes self.now) n → n.number ≡ number → node_at result ≡ n }
        ensures there { Contains (nodes self.now) (node_at result) }
        ensures number { result.number ≡ number }
    {
        Placed {
            number,
            row: self.rows[number],
        }
    }

    /// How many nodes there are.
    pub(crate) fn count(&self) -> usize
        ensures { result ≡ length (nodes self.now) }
    {
        self.rows.len()
    }

    /// Whether one node comes before another in every allowed order.
    pub(crate) fn comes_before(&self, first: usize, second: usize) -> bool
        requires first { first < length (nodes self.now) }
        requires second { second < length (nodes self.now) }
        ensures { (m n : Node) → Contains (nodes self.now) m → Contains (nodes self.now) n → m.number ≡ first → n.number ≡ second → result ≡ before (nodes self.now) m n }
    {
        self.order.before(first, second)
    }
}
