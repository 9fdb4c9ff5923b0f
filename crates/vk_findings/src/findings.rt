ghost use Rattle.std.specs.Prelude.{◌∷◌, IfOk};
ghost use Rattle.vk_model.specs.Trace.PointViews.{point_of};
ghost use Rattle.vk_model.specs.Trace.Structure.{IsOrdered};
ghost use Rattle.vk_history.specs.PointViews.{past};
ghost use Rattle.vk_findings.specs.Findings.{IsFound, AreOverlapping};

use crate::measures::{Measure, measure_of};
use crate::overlaps::overlap_of;
use crate::pairs::Overlap;
use crate::pass_facts::{PassFact, pass_fact_of};
use crate::states::{State, state_of};
use std::alloc::{AllocError, Global};
use vk_history::History;
use vk_model::{Point, Rule};

/// What a rule finds at a point that breaks it.
#[derive(Clone, Copy)]
pub enum Finding<'a> {
    /// The numbers, masks or kinds that it compares.
    Measure(Measure),
    /// In which state the point finds an object, and since when.
    State(State<'a>),
    /// A defragmentation or a pass that the point doesn't fit.
    Pass(PassFact<'a>),
    /// Two parts of the point that overlap.
    Overlap(Overlap),
}

/// What a rule finds at a point that comes next, where the point breaks it. The history is that of the
/// points before it, in reference order. The only error is want of memory.
pub fn finding_of<'a>(
    alloc: Global,
    history: &History<'a>,
    point: &Point<'a>,
    rule: Rule,
) -> Result<Option<Finding<'a>>, AllocError>
    requires ordered { IsOrdered (point_of point.now ∷ past history.now) }
    ensures { IfOk result (IsFound rule (past history.now) (point_of point.now)) }
{
    if let Some(measure) = measure_of(history, point, rule) {
        return Ok(Some(Finding::Measure(measure)));
    }
    if let Some(state) = state_of(alloc, history, point, rule)? {
        return Ok(Some(Finding::State(state)));
    }
    if let Some(fact) = pass_fact_of(alloc, history, point, rule)? {
        return Ok(Some(Finding::Pass(fact)));
    }
    match overlap_by(alloc, history, point, rule)? {
        Some(overlap) => Ok(Some(Finding::Overlap(overlap))),
        None => Ok(None),
    }
}

/// Two parts of a point that overlap, where the rule is OVERLAP.
fn overlap_by(
    alloc: Global,
    history: &History<'_>,
    point: &Point<'_>,
    rule: Rule,
) -> Result<Option<Overlap>, AllocError>
    ensures { IfOk result (AreOverlapping rule (past history.now) (point_of point.now)) }
{
    match rule {
        Rule::Overlap => overlap_of(alloc, history, point),
        _ => Ok(None),
    }
}
