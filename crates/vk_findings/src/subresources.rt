ghost use Rattle.std.specs.Prelude.{◌≡◌, ◌+◌, ◌<◌, ℕ, IfSome, IfNone};
ghost use Rattle.vk_model.specs.Trace.Point.{Past};
ghost use Rattle.vk_queues.specs.PointViews.{past_of};
ghost use Rattle.vk_findings.specs.Layouts.{IsCurrent, IsOtherIn};
ghost use Rattle.vk_findings.specs.Inner.LayoutSteps.{layout_in, ShowLayouts, IsOtherAt};

use crate::transitions::{Subresource, layout_set_by};
use vk_model::{Point, SubresourceRange};

/// The number of the layout UNDEFINED.
const UNDEFINED: u32 = 0;

/// The layout that a subresource of an image is in, and since when.
#[derive(Clone, Copy)]
pub struct CurrentLayout<'a> {
    /// The mip level.
    pub level: u64,
    /// The array layer.
    pub layer: u64,
    /// The number of the layout.
    pub layout: u32,
    /// The last point with a layout transition of the subresource; none where it is UNDEFINED since
    /// the image was made.
    pub since: Option<Point<'a>>,
}

/// The layout of a subresource, by points that show all transitions.
pub fn current_at<'a>(points: &[Point<'a>], at: Subresource) -> CurrentLayout<'a>
    ensures level { result.level ≡ at.level }
    ensures layer { result.layer ≡ at.layer }
    ensures layout { result.layout ≡ layout_in at.image at.level at.layer (past_of points.now) }
    ensures current { (past : Past) → ShowLayouts (past_of points.now) past → IsCurrent past at.image result }
{
    let mut layout = UNDEFINED;
    let mut since = None;
    for point in points {
        if let Some(next) = layout_set_by(point, at) {
            layout = next;
            since = Some(*point);
        }
    }
    CurrentLayout {
        level: at.level,
        layer: at.layer,
        layout,
        since,
    }
}

/// The first subresource of a range of an image that isn't in a layout, by points that show all
/// transitions.
pub fn first_other<'a>(
    points: &[Point<'a>],
    image: u32,
    range: &SubresourceRange,
    layout: u32,
) -> Option<CurrentLayout<'a>>
    ensures some { IfSome result (IsOtherIn range.now layout) }
    ensures current { IfSome result (λ f. (past : Past) → ShowLayouts (past_of points.now) past → IsCurrent past image f) }
    ensures none { IfNone result ((k m : ℕ) → k < range.now.levels → m < range.now.layers
        → layout_in image (range.now.first_level + k) (range.now.first_layer + m) (past_of points.now) ≡ layout) }
{
    for step in 0..range.levels {
        let level = u64::from(range.first_level) + u64::from(step);
        if let Some(found) = other_in_level(points, image, level, range, layout) {
            return Some(found);
        }
    }
    None
}

/// The first of the layers of a level that isn't in it.
fn other_in_level<'a>(
    points: &[Point<'a>],
    image: u32,
    level: u64,
    range: &SubresourceRange,
    layout: u32,
) -> Option<CurrentLayout<'a>>
    ensures some { IfSome result (IsOtherAt level range.now.first_layer range.now.layers layout) }
    ensures current { IfSome result (λ f. (past : Past) → ShowLayouts (past_of points.now) past → IsCurrent past image f) }
    ensures none { IfNone result ((m : ℕ) → m < range.now.layers
        → layout_in image level (range.now.first_layer + m) (past_of points.now) ≡ layout) }
{
    for step in 0..range.layers {
        let layer = u64::from(range.first_layer) + u64::from(step);
        let found = current_at(
            points,
            Subresource {
                image,
                level,
                layer,
            },
        );
        if found.layout != layout {
            return Some(found);
        }
    }
    None
}
