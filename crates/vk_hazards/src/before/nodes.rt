ghost use Rattle.std.specs.Prelude.{◌≡◌, [], ℕ, IfOk, Some, slice_get, take};
ghost use Rattle.vk_model.specs.Sync.Node.{nodes};
ghost use Rattle.vk_model.specs.declared.point.Point.{Point as AnyPoint};
ghost use Rattle.vk_model.specs.Trace.PointViews.{point_of};
ghost use Rattle.vk_order.specs.NodeViews.{nodes_after};
ghost use Rattle.vk_order.specs.Queries.{IsNew};
ghost use Rattle.vk_queues.specs.PointViews.{past_of};

use std::alloc::{AllocError, Global};
use vk_model::Point;
use vk_order::{Points, Row, rows_of};

/// The rows of all nodes of points. The only error is want of memory.
pub fn all_rows<'a>(alloc: Global, points: &[Point<'a>]) -> Result<Vec<Row<'a>>, AllocError>
    ensures { IfOk result (λ rows. nodes_after [] rows.items ≡ nodes (past_of points.now)) }
{
    let mut rows = Vec::new(alloc);
    for point in points {
        let mut fresh = rows_of(alloc, *point)?;
        rows.append(&mut fresh)?;
    }
    Ok(rows)
}

/// The order of the nodes of points. The only error is want of memory.
pub fn order_of<'a>(alloc: Global, points: &[Point<'a>]) -> Result<Points<'a>, AllocError>
    requires { (k : ℕ) (p : AnyPoint) → slice_get points.now k ≡ Some p → IsNew (point_of p) (nodes (past_of (take k points.now))) }
    ensures { IfOk result (λ order. order ≡ nodes (past_of points.now)) }
{
    let mut order = Points::new(alloc);
    for point in points {
        order.add(*point)?;
    }
    Ok(order)
}
