ghost use Rattle.std.specs.Prelude.{◌≡◌, IfOk, IfSome};
ghost use Rattle.std.specs.Option.{option_map};
ghost use Rattle.vk_model.specs.Trace.Point as spec;
ghost use Rattle.vk_model.specs.Trace.Structure.{IsOrdered};
ghost use Rattle.vk_model.specs.Rules.Table.{fault};
ghost use Rattle.vk_model.specs.Trace.PointViews.{point_of};
ghost use Rattle.vk_queues.specs.PointViews.{past_of};
ghost use Rattle.vk_validate.specs.Refusals.{refused_by, IsRefusal};

use crate::rules::first_rule;
use std::alloc::{AllocError, Global};
use vk_history::History;
use vk_model::{Action, At, Point, Rule};

/// What points are refused by: the first of them that breaks a rule, and what has happened before it.
#[derive(Drop)]
pub struct Refusal<'a> {
    /// How the point is reported.
    pub at: At,
    /// The point.
    pub point: Point<'a>,
    /// The first rule of the table that it breaks.
    pub rule: Rule,
    /// What has happened before it.
    pub history: History<'a>,
}

/// The first of some points, in reference order, that breaks a rule, with its first rule. It fails only
/// for want of memory.
pub fn refusal_of<'a>(
    alloc: Global,
    points: &'a [Point<'a>],
) -> Result<Option<Refusal<'a>>, AllocError>
    requires { IsOrdered (past_of points.now) }
    ensures exact { IfOk result (λ found. option_map refused_by found ≡ fault (past_of points.now)) }
    ensures there { IfOk result (λ found. IfSome found (IsRefusal (past_of points.now))) }
{
    let mut history = History::new(alloc, points);
    for point in points {
        history.is_judged();
        if let Some(rule) = first_rule(&history, point)? {
            return Ok(Some(Refusal {
                at: at_of(point),
                point: *point,
                rule,
                history,
            }));
        }
        history.advance(point)?;
    }
    history.is_judged();
    Ok(None)
}

/// How a point is reported.
fn at_of(point: &Point<'_>) -> At
    ensures { result ≡ spec.at_of (point_of point.now) }
{
    match point.action {
        Action::Host(_) => At::Entry(point.entry),
        Action::Wait(_) => At::Wait(point.entry, point.batch, point.place),
        Action::Run(_) => At::Command(point.entry, point.batch, point.place),
        Action::Signal(_) => At::Signal(point.entry, point.batch, point.place),
    }
}
