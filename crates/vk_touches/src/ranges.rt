ghost use Rattle.std.specs.Prelude.{◌≡◌, ◌≤◌, ℕ, OnOk, length, slice_get};
ghost use Rattle.std.specs.Option.{option_map};
ghost use Rattle.vk_model.specs.Basics.{within};
ghost use Rattle.vk_model.specs.World.Effect.{in_atoms};
ghost use Rattle.vk_touches.specs.TouchedRanges.{touching, flushing, transitioning, is_between, reads_at, writes_at};

use crate::map::TouchMap;
use crate::parts::Part;
use crate::touches::{Spot, Touch};
use crate::writes::KeptWrite;
use std::alloc::AllocError;
use vk_model::{BufferCopy, Length};

/// Remembers that the node of a spot has touched the bytes of a range. The only error is want of
/// memory; so answered is also a write by a node that isn't a command of one of the first 256 queues.
pub fn touch(
    touches: &mut TouchMap,
    offset: u64,
    size: u64,
    way: Touch,
    spot: Spot,
) -> Result<(), AllocError>
    ensures len { length touches.new ≡ length touches.old }
    ensures values { OnOk result ((k : ℕ) → slice_get touches.new k ≡ option_map (touching (within offset size) way spot k) (slice_get touches.old k)) }
{
    let part = Part::of(offset, 0, size, touches.len());
    match way {
        Touch::Write => {
            let kept = KeptWrite::by(spot)?;
            touches.writes.assign(part.low, part.high, kept)
        }
        Touch::HostWrite => touches
            .others
            .update(part.low, part.high, |others| Ok(others.written(spot))),
        Touch::HostRead => touches.reads.update(
            part.low,
            part.high,
            |reads| Ok(reads.with_host(spot.place)),
        ),
        Touch::Read(queue) => touches.reads.update(
            part.low,
            part.high,
            |reads| Ok(reads.with_command(queue, spot.place)),
        ),
    }
}

/// Remembers that the node of a spot has touched what the regions of a copy read.
pub fn touch_sources(
    touches: &mut TouchMap,
    regions: &[BufferCopy],
    way: Touch,
    spot: Spot,
) -> Result<(), AllocError>
    ensures len { length touches.new ≡ length touches.old }
    ensures values { OnOk result ((k : ℕ) → slice_get touches.new k ≡ option_map (touching (reads_at regions.now) way spot k) (slice_get touches.old k)) }
{
    for region in regions {
        touch(touches, region.source_offset, region.size, way, spot)?;
    }
    Ok(())
}

/// Remembers that it has touched what they write.
pub fn touch_destinations(
    touches: &mut TouchMap,
    regions: &[BufferCopy],
    way: Touch,
    spot: Spot,
) -> Result<(), AllocError>
    ensures len { length touches.new ≡ length touches.old }
    ensures values { OnOk result ((k : ℕ) → slice_get touches.new k ≡ option_map (touching (writes_at regions.now) way spot k) (slice_get touches.old k)) }
{
    for region in regions {
        touch(touches, region.destination_offset, region.size, way, spot)?;
    }
    Ok(())
}

/// Remembers that the host entry of a spot has flushed the bytes of the atoms that a range reaches.
pub fn flush_touches(
    touches: &mut TouchMap,
    offset: u64,
    size: Length,
    spot: Spot,
) -> Result<(), AllocError>
    ensures len { length touches.new ≡ length touches.old }
    ensures values { OnOk result ((k : ℕ) → slice_get touches.new k ≡ option_map (flushing (in_atoms offset size) spot k) (slice_get touches.old k)) }
{
    let part = Part::of_atoms(offset, size, touches.len());
    touches
        .others
        .update(part.low, part.high, |others| Ok(others.flushed(spot)))
}

/// Remembers that the layout transition of a spot has read and written the bytes from `low` on and
/// below `high`.
pub fn touch_transition(
    touches: &mut TouchMap,
    low: u64,
    high: u64,
    spot: Spot,
) -> Result<(), AllocError>
    requires order { low ≤ high }
    requires within { high ≤ length touches.old }
    ensures len { length touches.new ≡ length touches.old }
    ensures values { OnOk result ((k : ℕ) → slice_get touches.new k ≡ option_map (transitioning (is_between low high) spot k) (slice_get touches.old k)) }
{
    touches
        .others
        .update(low, high, |others| Ok(others.transitioned(spot)))
}
