ghost use Rattle.std.specs.Prelude.{◌≡◌, IfSome, MatchOption, is_some};
ghost use Rattle.vk_model.specs.Rules.Passes as rules;
ghost use Rattle.vk_model.specs.Trace.PointViews.{action_of, point_of};
ghost use Rattle.vk_history.specs.PointViews.{past};
ghost use Rattle.vk_rules.specs.Passes.{IsSoOfPasses};
ghost use Rattle.vk_findings.specs.PassStates.{IsPassState, IsStateOf};

use crate::defrags::{OpenDefrag, open_defrag};
use crate::passes::{MovingResource, OpenPass, any_pass, pass_of, with_pass};
use vk_history::History;
use vk_model::Point;
use vk_rules::PassMisfit;

/// PASS_STATE: what an entry doesn't fit.
#[derive(Clone, Copy)]
pub enum PassState<'a> {
    /// The pool has a defragmentation that hasn't ended.
    Defrag(OpenDefrag<'a>),
    /// A pass is open.
    Pass(OpenPass<'a>),
    /// No pass of the defragmentation is open.
    NoPass(NoPass<'a>),
    /// A pass of the resource's pool is open.
    Moving(MovingResource<'a>),
}

/// That no pass of a defragmentation is open.
#[derive(Clone, Copy)]
pub struct NoPass<'a> {
    /// The id of the defragmentation.
    pub defrag: u32,
    /// The pass that is open, which is of another one; none where no pass is.
    pub other: Option<OpenPass<'a>>,
}

/// PASS_STATE: what a point doesn't fit, where it breaks the rule.
pub fn pass_state_of<'a>(history: &History<'a>, point: &Point<'a>) -> Option<PassState<'a>>
    ensures broken { is_some result ≡ rules.breaks_pass_state (past history.now) (point_of point.now) }
    ensures reported { IfSome result (IsPassState (past history.now) (action_of point.now.action)) }
{
    let misfit = vk_rules::pass_state_of(history, point)?;
    state_of(history, misfit)
}

/// What there is that isn't fitted, with the point that began it.
fn state_of<'a>(history: &History<'a>, misfit: PassMisfit) -> Option<PassState<'a>>
    requires { IsSoOfPasses (past history.now) misfit }
    ensures { MatchOption result ⊥ (IsStateOf (past history.now) misfit) }
{
    match misfit {
        PassMisfit::Defrag { pool } => Some(PassState::Defrag(open_defrag(history, pool)?)),
        PassMisfit::AnyPass => Some(PassState::Pass(any_pass(history)?)),
        PassMisfit::Pass { defrag } => Some(PassState::Pass(pass_of(history, defrag)?)),
        PassMisfit::NoPass { defrag } => Some(PassState::NoPass(NoPass {
            defrag,
            other: any_pass(history),
        })),
        PassMisfit::Moving(resource) => Some(PassState::Moving(with_pass(history, resource)?)),
    }
}
