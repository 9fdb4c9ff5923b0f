ghost use Rattle.std.specs.Prelude.{◌≡◌, IfSome, is_some};
ghost use Rattle.vk_model.specs.Rules.Passes as rules;
ghost use Rattle.vk_model.specs.Trace.PointViews.{point_of};
ghost use Rattle.vk_history.specs.PointViews.{past};
ghost use Rattle.vk_findings.specs.Writes.{IsPassWrite};

use crate::passes::{MovingResource, with_pass};
use vk_history::History;
use vk_model::Point;

/// PASS_WRITE: the first resource that a point writes while a pass of its pool is open.
pub fn pass_write_of<'a>(history: &History<'a>, point: &Point<'a>) -> Option<MovingResource<'a>>
    ensures broken { is_some result ≡ rules.breaks_pass_write (past history.now) (point_of point.now) }
    ensures reported { IfSome result (IsPassWrite (past history.now) (point_of point.now)) }
{
    let resource = vk_rules::pass_write_of(history, point)?;
    with_pass(history, resource)
}
