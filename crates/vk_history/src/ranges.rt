ghost use Rattle.std.specs.Prelude.{◌≡◌, ℕ, OnOk, false, length, slice_get};
ghost use Rattle.std.specs.Option.{option_map};
ghost use Rattle.vk_model.specs.Basics.{within};
ghost use Rattle.vk_model.specs.World.Effect.{in_atoms};
ghost use Rattle.vk_image_bytes.specs.Ranges.{has_number};
ghost use Rattle.vk_touches.specs.TouchedRanges.{touching, transitioning};
ghost use Rattle.vk_history.specs.Contents.{AreShort, assigns};

use std::alloc::AllocError;
use vk_image_bytes::ByteRanges;
use vk_model::Length;
use vk_ranges::RangeMap;
use vk_touches::{Part, Spot, Touch, TouchMap, touch, touch_transition};

/// Gives the bytes of a range a value.
pub fn assign(
    bytes: &mut RangeMap<bool>,
    offset: u64,
    size: u64,
    value: bool,
) -> Result<(), AllocError>
    ensures len { length bytes.new ≡ length bytes.old }
    ensures values { OnOk result ((k : ℕ) → slice_get bytes.new k ≡ option_map (assigns (within offset size) value k) (slice_get bytes.old k)) }
{
    let part = Part::of(offset, 0, size, bytes.len());
    bytes.assign(part.low, part.high, value)
}

/// Gives false to the bytes of the atoms that a flush or an invalidation of a range reaches.
pub fn clear(bytes: &mut RangeMap<bool>, offset: u64, size: Length) -> Result<(), AllocError>
    ensures len { length bytes.new ≡ length bytes.old }
    ensures values { OnOk result ((k : ℕ) → slice_get bytes.new k ≡ option_map (assigns (in_atoms offset size) false k) (slice_get bytes.old k)) }
{
    let part = Part::of_atoms(offset, size, bytes.len());
    bytes.assign(part.low, part.high, false)
}

/// Gives the bytes of ranges of an image a value.
pub fn assign_all(
    bytes: &mut RangeMap<bool>,
    ranges: &ByteRanges,
    value: bool,
) -> Result<(), AllocError>
    requires { AreShort ranges.now }
    ensures len { length bytes.new ≡ length bytes.old }
    ensures values { OnOk result ((k : ℕ) → slice_get bytes.new k ≡ option_map (assigns (has_number ranges.now) value k) (slice_get bytes.old k)) }
{
    for index in 0..ranges.count {
        assign(bytes, ranges.low(index), ranges.size, value)?;
    }
    Ok(())
}

/// Remembers that the node of a spot has touched the bytes of ranges of an image.
pub fn touch_all(
    touches: &mut TouchMap,
    ranges: &ByteRanges,
    way: Touch,
    spot: Spot,
) -> Result<(), AllocError>
    requires { AreShort ranges.now }
    ensures len { length touches.new ≡ length touches.old }
    ensures values { OnOk result ((k : ℕ) → slice_get touches.new k ≡ option_map (touching (has_number ranges.now) way spot k) (slice_get touches.old k)) }
{
    for index in 0..ranges.count {
        touch(touches, ranges.low(index), ranges.size, way, spot)?;
    }
    Ok(())
}

/// Remembers that the layout transition of a spot has read and written the bytes of ranges of an
/// image.
pub fn touch_by_transition(
    touches: &mut TouchMap,
    ranges: &ByteRanges,
    spot: Spot,
) -> Result<(), AllocError>
    requires { AreShort ranges.now }
    ensures len { length touches.new ≡ length touches.old }
    ensures values { OnOk result ((k : ℕ) → slice_get touches.new k ≡ option_map (transitioning (has_number ranges.now) spot k) (slice_get touches.old k)) }
{
    for index in 0..ranges.count {
        touch_range_by_transition(touches, ranges.low(index), ranges.size, spot)?;
    }
    Ok(())
}

/// The same of a range.
fn touch_range_by_transition(
    touches: &mut TouchMap,
    offset: u64,
    size: u64,
    spot: Spot,
) -> Result<(), AllocError>
    ensures len { length touches.new ≡ length touches.old }
    ensures values { OnOk result ((k : ℕ) → slice_get touches.new k ≡ option_map (transitioning (within offset size) spot k) (slice_get touches.old k)) }
{
    let part = Part::of(offset, 0, size, touches.len());
    touch_transition(touches, part.low, part.high, spot)
}
