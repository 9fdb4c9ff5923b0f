ghost use Rattle.std.specs.Prelude.{◌≡◌, ◌∷◌, [], IfSome, IfNone};
ghost use Rattle.vk_model.specs.Trace.PointViews.{point_of};
ghost use Rattle.vk_queues.specs.PointViews.{past_of};

use vk_model::Point;

/// The last of some points, and those before it.
#[derive(Clone, Copy)]
pub struct Split<'b, 'a> {
    /// The last one.
    pub point: Point<'a>,
    /// Those before it.
    pub older: &'b [Point<'a>],
}

/// They, where there are any.
pub fn split_of<'b, 'a>(points: &'b [Point<'a>]) -> Option<Split<'b, 'a>>
    ensures some { IfSome result (λ s. past_of points.now ≡ point_of s.point ∷ past_of s.older.now) }
    ensures none { IfNone result (past_of points.now ≡ []) }
{
    let (point, older) = points.split_last()?;
    Some(Split {
        point: *point,
        older,
    })
}
