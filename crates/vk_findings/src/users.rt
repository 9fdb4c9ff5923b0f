ghost use Rattle.std.specs.Prelude.{◌≡◌, true, IfNone, IfOk, IfSome, Contains, length};
ghost use Rattle.vk_model.specs.Trace.Point.{Point as AnyPoint, Run};
ghost use Rattle.vk_model.specs.Sync.Complete.{names};
ghost use Rattle.vk_model.specs.Trace.PointViews.{point_of};
ghost use Rattle.vk_queues.specs.PointViews.{past_of};
ghost use Rattle.vk_findings.specs.Inner.Submits.{IsNaming, IsSubmit, IsSubmitted};
ghost use Rattle.vk_findings.specs.Inner.Users.{AreBatchesDone, AreCommandsDone, IsDone, IsNamingIn, IsPointDone, IsOpenUse};

use crate::busy_hints::likely;
use crate::named::Spot;
use crate::submitted::{is_submitted, names};
use crate::timeline::{Progress, Timeline};
use std::alloc::{AllocError, Global};
use vk_model::{Action, Batch, Cmd, Entry, Point};

/// A submitted command that uses a resource and isn't known complete.
#[derive(Clone, Copy)]
pub struct User {
    /// Where the command is.
    pub spot: Spot,
    /// Whether it was started; else its batch waits.
    pub is_started: bool,
}

/// A command that some points submit that uses a resource and isn't known complete. A hint says where to
/// look first; only where it's of no use, each command is looked at. The only error is want of memory.
pub fn user_of(
    alloc: Global,
    timeline: &Timeline<'_>,
    points: &[Point<'_>],
    resource: u32,
) -> Result<Option<User>, AllocError>
    ensures submitted { IfOk result (λ found. IfSome found (λ u. IsSubmitted (past_of points.now) u.spot resource)) }
    ensures incomplete { IfOk result (λ found. IfSome found (IsOpenUse timeline.now resource)) }
    ensures done { IfOk result (λ found. IfNone found ((w : AnyPoint) → Contains (past_of points.now) w → IsPointDone timeline.now resource w)) }
{
    match user_hinted(alloc, timeline, points, resource)? {
        Some(user) => Ok(Some(user)),
        None => Ok(user_among(timeline, points, resource)),
    }
}

fn user_hinted(
    alloc: Global,
    timeline: &Timeline<'_>,
    points: &[Point<'_>],
    resource: u32,
) -> Result<Option<User>, AllocError>
    ensures submitted { IfOk result (λ found. IfSome found (λ u. IsSubmitted (past_of points.now) u.spot resource)) }
    ensures incomplete { IfOk result (λ found. IfSome found (IsOpenUse timeline.now resource)) }
{
    match likely(alloc, timeline, points, resource)? {
        Some(spot) => Ok(user_there(timeline, points, spot, resource)),
        None => Ok(None),
    }
}

/// The command at a place, where it is submitted, uses a resource, and isn't known complete.
fn user_there(
    timeline: &Timeline<'_>,
    points: &[Point<'_>],
    spot: Spot,
    resource: u32,
) -> Option<User>
    ensures submitted { IfSome result (λ u. IsSubmitted (past_of points.now) u.spot resource) }
    ensures incomplete { IfSome result (IsOpenUse timeline.now resource) }
{
    if is_submitted(points, spot, resource) {
        open_use(timeline, spot, resource)
    } else {
        None
    }
}

/// The first command that some points submit that uses a resource and isn't known complete. It looks at
/// each node for each command that names the resource.
fn user_among(timeline: &Timeline<'_>, points: &[Point<'_>], resource: u32) -> Option<User>
    ensures submitted { IfSome result (λ u. IsSubmitted (past_of points.now) u.spot resource) }
    ensures incomplete { IfSome result (IsOpenUse timeline.now resource) }
    ensures done { IfNone result ((w : AnyPoint) → Contains (past_of points.now) w → IsPointDone timeline.now resource w) }
{
    for point in points {
        if let Some(user) = user_by(timeline, point, resource) {
            return Some(user);
        }
    }
    None
}

fn user_by(timeline: &Timeline<'_>, point: &Point<'_>, resource: u32) -> Option<User>
    ensures submitted { IfSome result (λ u. IsSubmit (point_of point.now) u.spot resource) }
    ensures incomplete { IfSome result (IsOpenUse timeline.now resource) }
    ensures done { IfNone result (IsPointDone timeline.now resource (point_of point.now)) }
{
    match point.action {
        Action::Host(Entry::Submit { batches, .. }) => {
            user_in_submit(timeline, point.entry, batches.as_slice(), resource)
        }
        _ => None,
    }
}

fn user_in_submit(
    timeline: &Timeline<'_>,
    entry: usize,
    batches: &[Batch],
    resource: u32,
) -> Option<User>
    ensures entry { IfSome result (λ u. u.spot.entry ≡ entry) }
    ensures naming { IfSome result (λ u. IsNaming batches.now u.spot resource) }
    ensures incomplete { IfSome result (IsOpenUse timeline.now resource) }
    ensures done { IfNone result (AreBatchesDone timeline.now resource entry batches.now (length batches.now)) }
{
    for number in 0..batches.len() {
        let commands = batches[number].commands.as_slice();
        if let Some(user) = user_in_batch(timeline, entry, number, commands, resource) {
            return Some(user);
        }
    }
    None
}

fn user_in_batch(
    timeline: &Timeline<'_>,
    entry: usize,
    number: usize,
    commands: &[Cmd],
    resource: u32,
) -> Option<User>
    ensures naming { IfSome result (IsNamingIn entry number commands.now resource) }
    ensures incomplete { IfSome result (IsOpenUse timeline.now resource) }
    ensures done { IfNone result (AreCommandsDone timeline.now resource entry number commands.now (length commands.now)) }
{
    for place in 0..commands.len() {
        let spot = Spot {
            entry,
            batch: number,
            place,
        };
        if let Some(user) = user_at(timeline, spot, &commands[place], resource) {
            return Some(user);
        }
    }
    None
}

/// A command that is at a place, where it names a resource and isn't known complete.
fn user_at(timeline: &Timeline<'_>, spot: Spot, command: &Cmd, resource: u32) -> Option<User>
    ensures spot { IfSome result (λ u. u.spot ≡ spot) }
    ensures naming { IfSome result (λ u. names resource (Run command.now) ≡ true) }
    ensures incomplete { IfSome result (IsOpenUse timeline.now resource) }
    ensures done { IfNone result (names resource (Run command.now) ≡ true → IsDone timeline.now resource spot) }
{
    if names(command, resource) {
        open_use(timeline, spot, resource)
    } else {
        None
    }
}

/// A command that is at a place, where it isn't known complete for a resource.
fn open_use(timeline: &Timeline<'_>, spot: Spot, resource: u32) -> Option<User>
    ensures spot { IfSome result (λ u. u.spot ≡ spot) }
    ensures incomplete { IfSome result (IsOpenUse timeline.now resource) }
    ensures done { IfNone result (IsDone timeline.now resource spot) }
{
    let is_started = match timeline.progress(spot, resource) {
        Progress::Waiting => false,
        Progress::Started => true,
        Progress::Complete => return None,
    };
    Some(User { spot, is_started })
}
