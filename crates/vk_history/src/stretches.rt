ghost use Rattle.std.specs.Prelude.{◌≡◌, ◌+◌, ◌≤◌, ◌∷◌, [], ℕ, OnOk, length, slice_get, unwrap_or};
ghost use Rattle.std.specs.Option.{option_map, option_or};
ghost use Rattle.vk_history.specs.Contents.{AreCopied, stretch_at, copied_at};

use std::alloc::AllocError;
use vk_model::BufferCopy;
use vk_ranges::RangeMap;
use vk_touches::Part;

/// Bytes in a row that a region of a copy takes from its source, and whether they are defined there.
#[derive(Clone, Copy)]
pub struct Stretch {
    /// Where the region begins in the destination.
    pub destination: u64,
    /// The first byte, counted from the region's start.
    pub start: u64,
    /// The byte after the last one, counted from the region's start.
    pub end: u64,
    /// Whether they are defined.
    pub is_defined: bool,
}

/// What the regions of a copy find in their source, in place of other stretches.
pub fn copies(
    defined: &RangeMap<bool>,
    regions: &[BufferCopy],
    stretches: &mut Vec<Stretch>,
) -> Result<(), AllocError>
    ensures { OnOk result (AreCopied stretches.new.items defined.now regions.now) }
{
    stretches.clear();
    for region in regions {
        push_copies(defined, region, stretches)?;
    }
    Ok(())
}

/// Adds what one region finds.
fn push_copies(
    defined: &RangeMap<bool>,
    region: &BufferCopy,
    stretches: &mut Vec<Stretch>,
) -> Result<(), AllocError>
    ensures { OnOk result (region.now.source_offset + region.now.size ≤ length defined.now
        → (k : ℕ) → stretch_at stretches.new.items k ≡ option_or (stretch_at stretches.old.items k) (copied_at defined.now (region.now ∷ []) k)) }
{
    let part = Part::of(region.source_offset, 0, region.size, defined.len());
    for run in defined.overlapping(part.low, part.high) {
        stretches.push(Stretch {
            destination: region.destination_offset,
            start: run.start - part.low,
            end: run.end - part.low,
            is_defined: *run.value,
        })?;
    }
    Ok(())
}

/// Gives the bytes of stretches what is said of them; of several that have a byte the first one
/// decides, so they are taken from the last on, until none is left.
pub fn define_all(
    defined: &mut RangeMap<bool>,
    stretches: &mut Vec<Stretch>,
) -> Result<(), AllocError>
    ensures len { length defined.new ≡ length defined.old }
    ensures values { OnOk result ((k : ℕ) → slice_get defined.new k ≡ option_map (unwrap_or (stretch_at stretches.old.items k)) (slice_get defined.old k)) }
{
    while let Some(stretch) = stretches.pop() {
        define_stretch(defined, &stretch)?;
    }
    Ok(())
}

fn define_stretch(defined: &mut RangeMap<bool>, stretch: &Stretch) -> Result<(), AllocError>
    ensures len { length defined.new ≡ length defined.old }
    ensures values { OnOk result ((k : ℕ) → slice_get defined.new k ≡ option_map (unwrap_or (stretch_at (stretch.now ∷ []) k)) (slice_get defined.old k)) }
{
    let part = Part::of(
        stretch.destination,
        stretch.start,
        stretch.end,
        defined.len(),
    );
    defined.assign(part.low, part.high, stretch.is_defined)
}
