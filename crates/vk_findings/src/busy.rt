ghost use Rattle.std.specs.Prelude.{◌≡◌, IfOk, IfSome, is_some};
ghost use Rattle.vk_model.specs.Rules.Passes as rules;
ghost use Rattle.vk_model.specs.Trace.PointViews.{point_of};
ghost use Rattle.vk_history.specs.PointViews.{past};
ghost use Rattle.vk_findings.specs.Busy.{IsBusyResource};

use crate::timeline::Timeline;
use crate::users::user_of;
use std::alloc::{AllocError, Global};
use vk_history::History;
use vk_model::{At, Point};
use vk_rules::pass_busy_of;

/// PASS_BUSY: a resource of the pool of a pass, and a submitted command that uses it and isn't known
/// complete.
#[derive(Clone, Copy)]
pub struct BusyResource {
    /// The id of the resource.
    pub resource: u32,
    /// The id of its pool.
    pub pool: u32,
    /// The id of the defragmentation whose pass begins or ends.
    pub defrag: u32,
    /// The command.
    pub command: At,
    /// Whether it was started; else its batch waits.
    pub is_started: bool,
}

/// PASS_BUSY: a busy resource of the pool whose pass a point begins or ends, and a command that keeps it
/// busy, where the point breaks the rule. The only error is want of memory.
pub fn busy_of<'a>(
    alloc: Global,
    history: &History<'a>,
    point: &Point<'a>,
) -> Result<Option<BusyResource>, AllocError>
    ensures broken { IfOk result (λ found. is_some found ≡ rules.breaks_pass_busy (past history.now) (point_of point.now)) }
    ensures reported { IfOk result (λ found. IfSome found (IsBusyResource (past history.now) (point_of point.now))) }
{
    let Some(resident) = pass_busy_of(history, point)? else {
        return Ok(None);
    };
    let timeline = Timeline::of(alloc, history, point)?;
    match user_of(alloc, &timeline, history.happened(), resident.resource)? {
        Some(user) => Ok(Some(BusyResource {
            resource: resident.resource,
            pool: resident.pool,
            defrag: resident.defrag,
            command: At::Command(user.spot.entry, user.spot.batch, user.spot.place),
            is_started: user.is_started,
        })),
        None => Ok(None),
    }
}
