ghost use Rattle.std.specs.Prelude.{◌≡◌, ◌∷◌, [], ℕ, IfOk, Some, slice_get, take, length};
ghost use Rattle.vk_model.specs.Trace.Point as spec;
ghost use Rattle.vk_model.specs.Sync.Node.{nodes};
ghost use Rattle.vk_model.specs.declared.point.Point.{Point as AnyPoint};
ghost use Rattle.vk_model.specs.Trace.PointViews.{point_of};
ghost use Rattle.vk_order.specs.Queries.{IsNew};
ghost use Rattle.vk_queues.specs.PointViews.{past_of};
ghost use Rattle.vk_hazards.specs.Creators.{AreCreators};

use crate::before::{Creators, all_rows};
use std::alloc::{AllocError, Global};
use std::marker::Model;
use vk_model::Point;
use vk_order::{Points, Row};

/// The points of a trace up to and with the last one of which facts are asked, as nodes, with what
/// they made. Contracts see the points, the newest first.
#[derive(Drop)]
pub struct Past<'a> {
    pub(crate) alloc: Global,
    pub(crate) points: Vec<Point<'a>>,
    pub(crate) rows: Vec<Row<'a>>,
    pub(crate) order: Points<'a>,
    pub(crate) creators: Creators<'a>,
    /// How many nodes come before those of the last point.
    pub(crate) before: usize,
}

impl<'a> Model for Past<'a> {
    ghost use Rattle.vk_model.specs.Trace.Point as spec;
    ghost use Rattle.vk_queues.specs.PointViews.{past_of};
    ghost use Rattle.vk_hazards.specs.Inner.IsRead.{IsRead};

    ghost Value = { spec.Past };

    ghost view = { λ p. past_of p.points.items };

    ghost invariant = { λ p. IsRead (past_of p.points.items) p.rows.items p.order p.creators p.before };
}

impl<'a> Past<'a> {
    /// Of points, the oldest first, each new after the ones before it, as those of reference order
    /// are. The only error is want of memory.
    pub fn of(alloc: Global, points: Vec<Point<'a>>) -> Result<Past<'a>, AllocError>
        requires { (k : ℕ) (p : AnyPoint) → slice_get points.items k ≡ Some p → IsNew (point_of p) (nodes (past_of (take k points.items))) }
        ensures { IfOk result (λ past. past ≡ past_of points.entry.items) }
    {
        let rows = all_rows(alloc, points.as_slice())?;
        let creators = creators_of(alloc, points.as_slice())?;
        let Ordered { order, before } = order_of(alloc, points.as_slice())?;
        Ok(Past {
            alloc,
            points,
            rows,
            order,
            creators,
            before,
        })
    }
}

/// What points made.
fn creators_of<'a>(alloc: Global, points: &[Point<'a>]) -> Result<Creators<'a>, AllocError>
    ensures { IfOk result (λ creators. AreCreators creators (past_of points.now)) }
{
    let mut creators = Creators::new(alloc);
    for point in points {
        creators.note(point)?;
    }
    Ok(creators)
}

/// The order of the nodes of points.
#[derive(Drop)]
struct Ordered<'a> {
    order: Points<'a>,
    before: usize,
}

/// The order of the nodes of points, and how many come before those of the last one.
fn order_of<'a>(alloc: Global, points: &[Point<'a>]) -> Result<Ordered<'a>, AllocError>
    requires { (k : ℕ) (p : AnyPoint) → slice_get points.now k ≡ Some p → IsNew (point_of p) (nodes (past_of (take k points.now))) }
    ensures order { IfOk result (λ o. o.order ≡ nodes (past_of points.now)) }
    ensures before { IfOk result (λ o. (past : spec.Past) (p : spec.Point) → past_of points.now ≡ p ∷ past → o.before ≡ length (nodes past)) }
{
    let mut order = Points::new(alloc);
    let mut before = 0;
    for point in points {
        before = order.len();
        order.add(*point)?;
    }
    Ok(Ordered { order, before })
}
