ghost use Rattle.std.specs.Prelude.{◌≡◌, ◌≤◌, ◌+◌, ℕ, IfOk, None, length};
ghost use Rattle.vk_model.specs.declared.command.Cmd.TheVariants as cmd;
ghost use Rattle.vk_model.specs.Trace.Point.{Run};
ghost use Rattle.vk_model.specs.Trace.PointViews.{action_of, point_of};
ghost use Rattle.vk_history.specs.PointViews.{past};
ghost use Rattle.vk_history.specs.Judged.{early_rules, first_among};
ghost use Rattle.vk_touches.specs.Bytes.{HaveNumbers};
ghost use Rattle.vk_touches.specs.Conflicts.{AreConflicts, FoundIn, FoundAt, FoundAmong, Misses, IsEarly};
ghost use Rattle.vk_validate.specs.Inner.Copies.{IsCopyBy};

use std::alloc::AllocError;
use vk_history::{History, ResourceContents};
use vk_model::{BufferCopy, BufferImageCopy, ImageCopy, Point};
use vk_order::{Access, NewNode, flushed_seen, host_seen, prefixes};
use vk_touches::{Conflicts, ResourceAccess};

/// What a copy between buffers finds wrong.
pub fn of_copy(
    history: &History<'_>,
    point: &Point<'_>,
    source: u32,
    destination: u32,
    regions: &[BufferCopy],
) -> Result<Conflicts, AllocError>
    requires early { first_among early_rules (past history.now) (point_of point.now) ≡ None }
    requires copies { action_of point.now.action ≡ Run (cmd.Copy source destination regions.now) }
    ensures { IfOk result (λ found. AreConflicts found (past history.now) (point_of point.now)) }
{
    history.is_judged();
    of_numbers(history, point, source, destination, regions)
}

/// What a copy from a buffer to an image finds wrong.
pub fn of_copy_in(
    history: &History<'_>,
    point: &Point<'_>,
    buffer: u32,
    image: u32,
    regions: &[BufferImageCopy],
) -> Result<Conflicts, AllocError>
    requires early { first_among early_rules (past history.now) (point_of point.now) ≡ None }
    requires copies { (l : ℕ) × (action_of point.now.action ≡ Run (cmd.CopyIn buffer image l regions.now)) }
    ensures { IfOk result (λ found. AreConflicts found (past history.now) (point_of point.now)) }
{
    history.is_judged();
    let copies = history.copies_in(image, regions)?;
    of_numbers(history, point, buffer, image, copies.as_slice())
}

/// What a copy from an image to a buffer finds wrong.
pub fn of_copy_out(
    history: &History<'_>,
    point: &Point<'_>,
    image: u32,
    buffer: u32,
    regions: &[BufferImageCopy],
) -> Result<Conflicts, AllocError>
    requires early { first_among early_rules (past history.now) (point_of point.now) ≡ None }
    requires copies { (l : ℕ) × (action_of point.now.action ≡ Run (cmd.CopyOut image l buffer regions.now)) }
    ensures { IfOk result (λ found. AreConflicts found (past history.now) (point_of point.now)) }
{
    history.is_judged();
    let copies = history.copies_out(image, regions)?;
    of_numbers(history, point, image, buffer, copies.as_slice())
}

/// What a copy from an image to another, or within one, finds wrong.
pub fn of_copy_image(
    history: &History<'_>,
    point: &Point<'_>,
    source: u32,
    destination: u32,
    regions: &[ImageCopy],
) -> Result<Conflicts, AllocError>
    requires early { first_among early_rules (past history.now) (point_of point.now) ≡ None }
    requires copies { (l : ℕ) × (m : ℕ) × (action_of point.now.action ≡ Run (cmd.CopyImage source l destination m regions.now)) }
    ensures { IfOk result (λ found. AreConflicts found (past history.now) (point_of point.now)) }
{
    history.is_judged();
    let copies = history.copies_between(source, destination, regions)?;
    of_numbers(history, point, source, destination, copies.as_slice())
}

/// What a command finds wrong that copies bytes of one resource to bytes of another, or within one,
/// by their numbers.
fn of_numbers(
    history: &History<'_>,
    point: &Point<'_>,
    source: u32,
    destination: u32,
    copies: &[BufferCopy],
) -> Result<Conflicts, AllocError>
    requires { IsCopyBy (past history.now) (point_of point.now) source destination copies.now }
    ensures { IfOk result (λ found. AreConflicts found (past history.now) (point_of point.now)) }
{
    host_seen();
    flushed_seen();
    prefixes();
    history.is_judged();
    let Some(from) = history.contents(source) else {
        return Ok(Conflicts::NONE);
    };
    let Some(to) = history.contents(destination) else {
        return Ok(Conflicts::NONE);
    };
    let new_node = history.new_node(point)?;
    let reads = history.access(&new_node, source, Access::Read);
    let writes = history.access(&new_node, destination, Access::Write);
    Ok(Conflicts {
        war: has_early_destination(to, copies, &new_node),
        raw: has_missed_source(from, copies, &reads),
        waw: has_missed_destination(to, copies, &writes),
        undefined: false,
    })
}

/// Whether what some copy reads has a last write that isn't seen.
fn has_missed_source(
    contents: &ResourceContents,
    copies: &[BufferCopy],
    by: &ResourceAccess<'_>,
) -> bool
    requires { HaveNumbers by.now.bytes (length contents.now.touches) }
    ensures { FoundAmong (λ r g. g.source_offset + g.size ≤ length contents.now.touches → FoundAt (Misses contents.now.is_cached by.now) r contents.now.touches g.source_offset (g.source_offset + g.size)) result copies.now }
{
    for copy in copies {
        if contents.has_missed(copy.source_offset, copy.size, by) {
            return true;
        }
    }
    false
}

/// Whether what some copy writes has a last write that isn't seen.
fn has_missed_destination(
    contents: &ResourceContents,
    copies: &[BufferCopy],
    by: &ResourceAccess<'_>,
) -> bool
    requires { HaveNumbers by.now.bytes (length contents.now.touches) }
    ensures { FoundAmong (λ r g. g.destination_offset + g.size ≤ length contents.now.touches → FoundAt (Misses contents.now.is_cached by.now) r contents.now.touches g.destination_offset (g.destination_offset + g.size)) result copies.now }
{
    for copy in copies {
        if contents.has_missed(copy.destination_offset, copy.size, by) {
            return true;
        }
    }
    false
}

/// Whether what some copy writes has a last read that doesn't come before.
fn has_early_destination(
    contents: &ResourceContents,
    copies: &[BufferCopy],
    new_node: &NewNode<'_>,
) -> bool
    ensures { FoundAmong (λ r g. g.destination_offset + g.size ≤ length contents.now.touches → FoundIn (IsEarly new_node.now) r contents.now.touches g.destination_offset (g.destination_offset + g.size)) result copies.now }
{
    for copy in copies {
        if contents.has_early(copy.destination_offset, copy.size, new_node) {
            return true;
        }
    }
    false
}
