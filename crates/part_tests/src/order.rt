//! The order of points that are added one after another.

ghost use Rattle.std.specs.Prelude.{◌≡◌, ◌<◌, ◌+◌, ◌*◌, IsTrue, Contains, OnOk};
ghost use Rattle.vk_model.specs.declared.command.Cmd.{Cmd as AnyCmd};
ghost use Rattle.vk_model.specs.Sync.Node.{Node};
ghost use Rattle.vk_model.specs.Sync.Edge.{is_element};
ghost use Rattle.vk_model.specs.Trace.Point.{Run};
ghost use Rattle.vk_model.specs.Trace.PointViews.{action_of};

use std::alloc::{AllocError, Global};
use vk_model::Point;
use vk_order::Points;

mod drawn;
mod first_path;
mod frontiers;
mod seen;
mod waits;

use drawn::{Drawn, point_of};

/// Adds a point. Commands have numbers that rise, so no two are at one place.
#[tactic(auto, using(crate::proofs::DrawnPlaces::is_new))]
fn add_numbered<'a>(
    points: &mut Points<'a>,
    number: usize,
    point: Point<'a>,
) -> Result<(), AllocError>
    requires below { (m : Node) → Contains points.old m → IsTrue (is_element m.act) → m.point.place + 8 * m.point.batch < number }
    requires numbered { (c : AnyCmd) → action_of point.action ≡ Run c → point.place + 8 * point.batch ≡ number }
    ensures { OnOk result ((m : Node) → Contains points.new m → IsTrue (is_element m.act) → m.point.place + 8 * m.point.batch < number + 1) }
{
    points.add(point)
}

/// The points, in their order.
fn points_of<'a>(alloc: Global, drawn: &'a [Drawn]) -> Result<Points<'a>, AllocError> {
    let mut points = Points::new(alloc);
    for (number, one) in drawn.iter().enumerate() {
        add_numbered(&mut points, number, point_of(number, one))?;
    }
    Ok(points)
}
