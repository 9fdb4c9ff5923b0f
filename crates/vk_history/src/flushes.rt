ghost use Rattle.std.specs.Prelude.{◌≡◌, ◌≤◌, ◌&&◌, ℕ, OnOk, length, slice_get, false};
ghost use Rattle.std.specs.Option.{option_map};
ghost use Rattle.vk_model.specs.World.Effect.{in_atoms};
ghost use Rattle.vk_touches.specs.Bytes.{HaveNumbers};
ghost use Rattle.vk_touches.specs.Conflicts.{SeesWrite};
ghost use Rattle.vk_history.specs.Contents.{IsFlushed, IsInvalidated, AreLost, assigns, is_on};

use crate::ranges::{assign, clear};
use crate::resource_contents::ResourceContents;
use std::alloc::AllocError;
use vk_model::Length;
use vk_ranges::RangeMap;
use vk_touches::{Part, ResourceAccess, Spot, flush_touches, invalidate_touches};

impl ResourceContents {
    /// After a host entry has flushed a range: what it reaches is dirty no more.
    pub fn flush(&mut self, offset: u64, size: Length, spot: Spot) -> Result<(), AllocError>
        ensures { OnOk result (IsFlushed self.old self.new offset size spot) }
    {
        if self.is_cached {
            clear(&mut self.dirty, offset, size)?;
        }
        flush_touches(&mut self.touches, offset, size, spot)?;
        Ok(())
    }

    /// After a host entry has invalidated a range: dirty bytes that it reaches are lost.
    pub fn invalidate(
        &mut self,
        offset: u64,
        size: Length,
        by: &ResourceAccess<'_>,
    ) -> Result<(), AllocError>
        requires { HaveNumbers by.now.bytes (length self.old.touches) }
        ensures { OnOk result (IsInvalidated (SeesWrite by.now) self.old self.new offset size) }
    {
        if self.is_cached {
            lose(&mut self.defined, &self.dirty, offset, size)?;
            clear(&mut self.dirty, offset, size)?;
        }
        invalidate_touches(&mut self.touches, offset, size, by)?;
        Ok(())
    }
}

/// Of the bytes that an invalidation of a range reaches those that are dirty are undefined.
fn lose(
    defined: &mut RangeMap<bool>,
    dirty: &RangeMap<bool>,
    offset: u64,
    size: Length,
) -> Result<(), AllocError>
    ensures len { OnOk result (length defined.new ≡ length defined.old) }
    ensures values { OnOk result ((k : ℕ) → slice_get defined.new k ≡ option_map (assigns (λ j. in_atoms offset size j && is_on dirty.now j) false k) (slice_get defined.old k)) }
{
    let part = Part::of_atoms(offset, size, dirty.len());
    lose_between(defined, dirty, part.low, part.high)
}

/// The same of the bytes from one on and below another.
fn lose_between(
    defined: &mut RangeMap<bool>,
    dirty: &RangeMap<bool>,
    low: u64,
    high: u64,
) -> Result<(), AllocError>
    requires order { low ≤ high }
    requires within { high ≤ length dirty.now }
    ensures { OnOk result (AreLost defined.new defined.old dirty.now low high) }
{
    for run in dirty.overlapping(low, high) {
        if *run.value {
            assign(defined, run.start, run.end - run.start, false)?;
        }
    }
    Ok(())
}
