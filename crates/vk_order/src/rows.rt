ghost use Rattle.std.specs.Prelude.{◌≡◌, ℕ, IfOk, List, Some, map, slice_get};
ghost use Rattle.vk_model.specs.Sync.Node.{Node, acts, with_acts};
ghost use Rattle.vk_model.specs.Trace.PointViews.{action_of, point_of};
ghost use Rattle.vk_order.specs.NodeViews.{act_of, nodes_after};
ghost use Rattle.vk_order.specs.declared.acts.Row.{Row as AnyRow};

use crate::act::acts_of;
use crate::acts::Row;
use std::alloc::{AllocError, Global};
use vk_model::Point;

/// The rows of a point, in order.
#[tactic(auto, using(crate::proofs::RowLemmas::rows_pushed))]
pub fn rows_of<'a>(alloc: Global, point: Point<'a>) -> Result<Vec<Row<'a>>, AllocError>
    ensures points { IfOk result (λ rows. (i : ℕ) (r : AnyRow) → slice_get rows.items i ≡ Some r → r.point ≡ point.entry) }
    ensures acts { IfOk result (λ rows. map (λ r. act_of r.act) rows.items ≡ acts (action_of point.entry.action)) }
    ensures nodes { IfOk result (λ rows. (ns : List Node) → nodes_after ns rows.items ≡ with_acts (point_of point.entry) (acts (action_of point.entry.action)) ns) }
{
    let acts = acts_of(alloc, point.action)?;
    let mut rows = Vec::new(alloc);
    for act in &acts {
        rows.push(Row { point, act: *act })?;
    }
    Ok(rows)
}
