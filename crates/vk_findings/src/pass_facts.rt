ghost use Rattle.std.specs.Prelude.{IfOk};
ghost use Rattle.vk_model.specs.declared.rule.Rule.TheVariants as rule;
ghost use Rattle.vk_model.specs.Trace.PointViews.{point_of};
ghost use Rattle.vk_history.specs.PointViews.{past};
ghost use Rattle.vk_findings.specs.PassFacts.{IsFound};

use crate::busy::{BusyResource, busy_of};
use crate::pass_states::{PassState, pass_state_of};
use crate::passes::MovingResource;
use crate::writes::pass_write_of;
use std::alloc::{AllocError, Global};
use vk_history::History;
use vk_model::{Point, Rule};

/// What is so of a point that doesn't fit the passes of defragmentations.
#[derive(Clone, Copy)]
pub enum PassFact<'a> {
    /// PASS_STATE: what the point doesn't fit.
    State(PassState<'a>),
    /// PASS_BUSY: a resource of the pool of a pass, and a command that uses it and isn't known complete.
    Busy(BusyResource),
    /// PASS_WRITE: a resource that the point writes while a pass of its pool is open.
    Write(MovingResource<'a>),
}

/// What is so of a point that comes next, where it breaks this rule; nothing of a rule that has no variant
/// of `PassFact`. The history is that of the points before it. The only error is want of memory.
pub fn pass_fact_of<'a>(
    alloc: Global,
    history: &History<'a>,
    point: &Point<'a>,
    rule: Rule,
) -> Result<Option<PassFact<'a>>, AllocError>
    ensures { IfOk result (IsFound rule (past history.now) (point_of point.now)) }
{
    match rule {
        Rule::PassState => Ok(of_pass_state(history, point)),
        Rule::PassWrite => Ok(of_pass_write(history, point)),
        Rule::PassBusy => of_pass_busy(alloc, history, point),
        _ => Ok(None),
    }
}

#[tactic(auto, unfolding(vk_model::specs::Rules::Table::breaks))]
fn of_pass_state<'a>(history: &History<'a>, point: &Point<'a>) -> Option<PassFact<'a>>
    ensures { IsFound rule.PassState (past history.now) (point_of point.now) result }
{
    let state = pass_state_of(history, point)?;
    Some(PassFact::State(state))
}

#[tactic(auto, unfolding(vk_model::specs::Rules::Table::breaks))]
fn of_pass_write<'a>(history: &History<'a>, point: &Point<'a>) -> Option<PassFact<'a>>
    ensures { IsFound rule.PassWrite (past history.now) (point_of point.now) result }
{
    let resource = pass_write_of(history, point)?;
    Some(PassFact::Write(resource))
}

#[tactic(auto, unfolding(vk_model::specs::Rules::Table::breaks))]
fn of_pass_busy<'a>(
    alloc: Global,
    history: &History<'a>,
    point: &Point<'a>,
) -> Result<Option<PassFact<'a>>, AllocError>
    ensures { IfOk result (IsFound rule.PassBusy (past history.now) (point_of point.now)) }
{
    match busy_of(alloc, history, point)? {
        Some(resource) => Ok(Some(PassFact::Busy(resource))),
        None => Ok(None),
    }
}
