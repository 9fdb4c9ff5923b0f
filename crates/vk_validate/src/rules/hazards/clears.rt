ghost use Rattle.std.specs.Prelude.{◌≡◌, ◌≤◌, ℕ, List, IfOk, None, length};
ghost use Rattle.vk_model.specs.declared.command.Cmd.TheVariants as cmd;
ghost use Rattle.vk_model.specs.Trace.Point.{Run};
ghost use Rattle.vk_image_bytes.specs.Numbers.{byte_count};
ghost use Rattle.vk_model.specs.Trace.PointViews.{action_of, point_of};
ghost use Rattle.vk_history.specs.PointViews.{past};
ghost use Rattle.vk_history.specs.Judged.{early_rules, first_among};
ghost use Rattle.vk_touches.specs.Bytes.{HaveNumbers};
ghost use Rattle.vk_touches.specs.Conflicts.{AreConflicts, FoundIn, FoundAt, FoundAmong, FoundInRanges, Misses, IsEarly};
ghost use Rattle.vk_validate.specs.Inner.Subresources.{EndWithin, FoundInSubresources};

use std::alloc::AllocError;
use vk_history::{History, ResourceContents};
use vk_image_bytes::{ByteRanges, ImageBytes};
use vk_model::{Point, SubresourceRange};
use vk_order::{Access, NewNode, flushed_seen, host_seen, prefixes};
use vk_touches::{Conflicts, ResourceAccess};

/// What a clear of levels and layers finds wrong.
pub fn of_clear(
    history: &History<'_>,
    point: &Point<'_>,
    image: u32,
    ranges: &[SubresourceRange],
) -> Result<Conflicts, AllocError>
    requires early { first_among early_rules (past history.now) (point_of point.now) ≡ None }
    requires clears { (l : ℕ) × (color : List ℕ) × (action_of point.now.action ≡ Run (cmd.Clear image l color ranges.now)) }
    ensures { IfOk result (λ found. AreConflicts found (past history.now) (point_of point.now)) }
{
    host_seen();
    flushed_seen();
    prefixes();
    history.is_judged();
    let Some(contents) = history.contents(image) else {
        return Ok(Conflicts::NONE);
    };
    let Some(bytes) = &contents.image else {
        return Ok(Conflicts::NONE);
    };
    let new_node = history.new_node(point)?;
    let by = history.access(&new_node, image, Access::Write);
    Ok(Conflicts {
        war: has_early_range(contents, bytes, ranges, &new_node),
        waw: has_missed_range(contents, bytes, ranges, &by),
        ..Conflicts::NONE
    })
}

/// Whether a byte of some levels and layers has a last read that doesn't come before.
fn has_early_range(
    contents: &ResourceContents,
    bytes: &ImageBytes,
    ranges: &[SubresourceRange],
    new_node: &NewNode<'_>,
) -> bool
    requires { byte_count bytes.now ≤ length contents.now.touches }
    ensures { FoundAmong (FoundInSubresources (λ r low high. FoundIn (IsEarly new_node.now) r contents.now.touches low high) bytes.now) result ranges.now }
{
    for range in ranges {
        let numbers = bytes.ranges(range);
        if has_early_number(contents, &numbers, new_node) {
            return true;
        }
    }
    false
}

/// The same of ranges of numbers.
fn has_early_number(
    contents: &ResourceContents,
    ranges: &ByteRanges,
    new_node: &NewNode<'_>,
) -> bool
    requires { EndWithin ranges.now (length contents.now.touches) }
    ensures { FoundInRanges (λ r low high. FoundIn (IsEarly new_node.now) r contents.now.touches low high) result ranges.now }
{
    let _len: u64 = contents.touches.len();
    for index in 0..ranges.count {
        if contents.has_early(ranges.low(index), ranges.size, new_node) {
            return true;
        }
    }
    false
}

/// Whether a byte of some levels and layers has a last write that isn't seen.
fn has_missed_range(
    contents: &ResourceContents,
    bytes: &ImageBytes,
    ranges: &[SubresourceRange],
    by: &ResourceAccess<'_>,
) -> bool
    requires numbers { HaveNumbers by.now.bytes (length contents.now.touches) }
    requires within { byte_count bytes.now ≤ length contents.now.touches }
    ensures { FoundAmong (FoundInSubresources (λ r low high. FoundAt (Misses contents.now.is_cached by.now) r contents.now.touches low high) bytes.now) result ranges.now }
{
    for range in ranges {
        let numbers = bytes.ranges(range);
        if has_missed_number(contents, &numbers, by) {
            return true;
        }
    }
    false
}

/// The same of ranges of numbers.
fn has_missed_number(
    contents: &ResourceContents,
    ranges: &ByteRanges,
    by: &ResourceAccess<'_>,
) -> bool
    requires numbers { HaveNumbers by.now.bytes (length contents.now.touches) }
    requires within { EndWithin ranges.now (length contents.now.touches) }
    ensures { FoundInRanges (λ r low high. FoundAt (Misses contents.now.is_cached by.now) r contents.now.touches low high) result ranges.now }
{
    let _len: u64 = contents.touches.len();
    for index in 0..ranges.count {
        if contents.has_missed(ranges.low(index), ranges.size, by) {
            return true;
        }
    }
    false
}
