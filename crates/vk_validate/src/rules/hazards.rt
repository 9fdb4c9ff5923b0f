ghost use Rattle.std.specs.Prelude.{◌≡◌, ◌∷◌, ◌==◌, IfOk, None};
ghost use Rattle.vk_model.specs.declared.entry.Entry.{Entry as AnyEntry};
ghost use Rattle.vk_model.specs.Trace.Point.{Host};
ghost use Rattle.vk_model.specs.Trace.Structure.{IsOrdered};
ghost use Rattle.vk_model.specs.Rules.Hazards as rule;
ghost use Rattle.vk_model.specs.Sync.Complete.{some_busy};
ghost use Rattle.vk_model.specs.Trace.PointViews.{action_of, point_of};
ghost use Rattle.vk_history.specs.declared.changes.Change.TheVariants as change;
ghost use Rattle.vk_history.specs.PointViews.{past};
ghost use Rattle.vk_history.specs.Judged.{early_rules, first_among};
ghost use Rattle.vk_history.specs.Changes.{Fits};
ghost use Rattle.vk_touches.specs.Conflicts.{AreConflicts};

mod barriers;
mod clears;
mod copies;

use crate::rules::hazards::barriers::of_barrier;
use crate::rules::hazards::clears::of_clear;
use crate::rules::hazards::copies::{of_copy, of_copy_image, of_copy_in, of_copy_out};
use std::alloc::AllocError;
use vk_history::{Change, History, change_by};
use vk_model::{Action, Entry, Length, Point};
use vk_order::{Access, flushed_seen, host_seen, invalidated_seen, prefixes};
use vk_rules::is_live_resource;
use vk_touches::Conflicts;

/// What a point that breaks no rule before those on accesses finds wrong with the bytes that it
/// accesses: HAZARD_WAR, HAZARD_RAW, HAZARD_WAW and READ_UNDEFINED. The only error is want of memory.
pub fn conflicts(history: &History<'_>, point: &Point<'_>) -> Result<Conflicts, AllocError>
    requires ordered { IsOrdered (point_of point.now ∷ past history.now) }
    requires early { first_among early_rules (past history.now) (point_of point.now) ≡ None }
    ensures { IfOk result (λ found. AreConflicts found (past history.now) (point_of point.now)) }
{
    match change_by(point) {
        Change::Nothing => Ok(Conflicts::NONE),
        Change::Made(_, _) => Ok(Conflicts::NONE),
        Change::ImageMade(_, _) => Ok(Conflicts::NONE),
        Change::Passed(elements) => of_barrier(history, point, elements),
        Change::HostRead(buffer, offset, size) => of_host_read(
            history, point, buffer, offset, size,
        ),
        Change::HostWritten(buffer, offset, size) => {
            of_host_write(history, point, buffer, offset, size)
        }
        Change::Flushed(_, _, _) => Ok(Conflicts::NONE),
        Change::Invalidated(_, _, _) => Ok(Conflicts::NONE),
        Change::Written(buffer, offset, size) => of_write(history, point, buffer, offset, size),
        Change::Cleared(image, ranges) => of_clear(history, point, image, ranges),
        Change::Copied(source, destination, regions) => {
            of_copy(history, point, source, destination, regions)
        }
        Change::CopiedIn(buffer, image, regions) => {
            of_copy_in(history, point, buffer, image, regions)
        }
        Change::CopiedOut(image, buffer, regions) => {
            of_copy_out(history, point, image, buffer, regions)
        }
        Change::CopiedImage(source, destination, regions) => {
            of_copy_image(history, point, source, destination, regions)
        }
    }
}

/// What a host read of a range finds wrong.
fn of_host_read(
    history: &History<'_>,
    point: &Point<'_>,
    buffer: u32,
    offset: u64,
    size: u64,
) -> Result<Conflicts, AllocError>
    requires early { first_among early_rules (past history.now) (point_of point.now) ≡ None }
    requires reads { Fits (change.HostRead buffer offset size) (action_of point.now.action) }
    ensures { IfOk result (λ found. AreConflicts found (past history.now) (point_of point.now)) }
{
    host_seen();
    invalidated_seen();
    history.is_judged();
    match history.contents(buffer) {
        Some(contents) => {
            let new_node = history.new_node(point)?;
            let by = history.access(&new_node, buffer, Access::Read);
            Ok(Conflicts {
                raw: contents.has_missed_read(offset, size, &by),
                undefined: contents.has_undefined(offset, size),
                ..Conflicts::NONE
            })
        }
        None => Ok(Conflicts::NONE),
    }
}

/// What a host write of a range finds wrong.
fn of_host_write(
    history: &History<'_>,
    point: &Point<'_>,
    buffer: u32,
    offset: u64,
    size: u64,
) -> Result<Conflicts, AllocError>
    requires early { first_among early_rules (past history.now) (point_of point.now) ≡ None }
    requires writes { Fits (change.HostWritten buffer offset size) (action_of point.now.action) }
    ensures { IfOk result (λ found. AreConflicts found (past history.now) (point_of point.now)) }
{
    host_seen();
    prefixes();
    history.is_judged();
    match history.contents(buffer) {
        Some(contents) => {
            let new_node = history.new_node(point)?;
            let by = history.access(&new_node, buffer, Access::Write);
            Ok(Conflicts {
                war: contents.has_early_command(offset, size, &new_node),
                waw: contents.has_missed_write(offset, size, &by),
                ..Conflicts::NONE
            })
        }
        None => Ok(Conflicts::NONE),
    }
}

/// What a command finds wrong that gives a range values.
fn of_write(
    history: &History<'_>,
    point: &Point<'_>,
    buffer: u32,
    offset: u64,
    size: Length,
) -> Result<Conflicts, AllocError>
    requires early { first_among early_rules (past history.now) (point_of point.now) ≡ None }
    requires writes { Fits (change.Written buffer offset size) (action_of point.now.action) }
    ensures { IfOk result (λ found. AreConflicts found (past history.now) (point_of point.now)) }
{
    host_seen();
    flushed_seen();
    prefixes();
    history.is_judged();
    match history.contents(buffer) {
        Some(contents) => {
            let bytes = size.filled(contents.defined.len(), offset);
            let new_node = history.new_node(point)?;
            let by = history.access(&new_node, buffer, Access::Write);
            Ok(Conflicts {
                war: contents.has_early(offset, bytes, &new_node),
                waw: contents.has_missed(offset, bytes, &by),
                ..Conflicts::NONE
            })
        }
        None => Ok(Conflicts::NONE),
    }
}

/// IN_USE: a resource ends that a submitted command names which isn't known complete, or a memory
/// object or a pool that a live resource is in. The only error is want of memory.
pub fn breaks_in_use(history: &History<'_>, point: &Point<'_>) -> Result<bool, AllocError>
    ensures { IfOk result (λ used. used ≡ rule.breaks_in_use (past history.now) (point_of point.now)) }
{
    match point.action {
        Action::Host(Entry::Destroy { resource }) => {
            let is_busy = is_busy_at(history, point, *resource)?;
            Ok(is_busy)
        }
        Action::Host(Entry::Free { memory }) => Ok(history.is_memory_used(*memory)),
        Action::Host(Entry::DropPool { pool }) => Ok(history.is_pool_used(*pool)),
        _ => Ok(false),
    }
}

/// Whether a live resource is busy at a host entry.
fn is_busy_at(history: &History<'_>, point: &Point<'_>, resource: u32) -> Result<bool, AllocError>
    ensures { IfOk result (λ busy. (x : AnyEntry) → action_of point.now.action ≡ Host x → busy ≡ some_busy (past history.now) (point_of point.now) (λ s. resource == s)) }
{
    if !is_live_resource(history, resource) {
        return Ok(false);
    }
    let new_node = history.new_node(point)?;
    Ok(history.is_busy(resource, &new_node))
}
