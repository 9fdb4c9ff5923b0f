ghost use Rattle.std.specs.Prelude.{◌≡◌, ℕ, OnOk, Some};
ghost use Rattle.vk_model.specs.declared.resource.ImageInfo.{ImageInfo as AnyImage};
ghost use Rattle.vk_image_bytes.specs.Ranges.{AreRanges};
ghost use Rattle.vk_history.specs.Contents.{AreShort, IsCleared, IsDefined, IsDiscarded};
ghost use Rattle.vk_history.specs.Inner.Passing.{IsMarked, IsTransitioned};

use crate::elements::is_transition;
use crate::ranges::{assign_all, touch_all, touch_by_transition};
use crate::resource_contents::ResourceContents;
use std::alloc::AllocError;
use vk_image_bytes::{ByteRanges, ImageBytes};
use vk_model::{ImageElement, Layout, SubresourceRange};
use vk_touches::{Spot, Touch};

impl ResourceContents {
    /// After a command has cleared levels and layers on a queue of a family.
    pub(crate) fn clear(
        &mut self,
        ranges: &[SubresourceRange],
        family: u32,
        spot: Spot,
    ) -> Result<(), AllocError>
        ensures { OnOk result (IsCleared ranges.now family spot self.old self.new) }
    {
        self.take_over(family)?;
        for range in ranges {
            self.define(range, spot)?;
        }
        Ok(())
    }

    /// After a command has given some levels and layers values.
    fn define(&mut self, range: &SubresourceRange, spot: Spot) -> Result<(), AllocError>
        ensures { OnOk result (IsDefined range.now spot self.old self.new) }
    {
        let ranges = self.ranges(range);
        assign_all(&mut self.defined, &ranges, true)?;
        touch_all(&mut self.touches, &ranges, Touch::Write, spot)?;
        Ok(())
    }

    /// After a layout transition, if the element is one: from UNDEFINED it loses what it covers.
    pub(crate) fn transition(&mut self, element: &ImageElement) -> Result<(), AllocError>
        ensures { OnOk result (IsTransitioned element.now self.old self.new) }
    {
        if is_transition(element) && element.old_layout == Layout::UNDEFINED {
            self.discard(&element.range)
        } else {
            Ok(())
        }
    }

    /// After some levels and layers were lost.
    fn discard(&mut self, range: &SubresourceRange) -> Result<(), AllocError>
        ensures { OnOk result (IsDiscarded range.now self.old self.new) }
    {
        let ranges = self.ranges(range);
        assign_all(&mut self.defined, &ranges, false)?;
        Ok(())
    }

    /// After the layout transition of a spot, if there is one, has read and written some levels and
    /// layers.
    pub(crate) fn mark(
        &mut self,
        moves: bool,
        range: &SubresourceRange,
        spot: Spot,
    ) -> Result<(), AllocError>
        ensures { OnOk result (IsMarked moves range.now spot self.old self.new) }
    {
        if !moves {
            return Ok(());
        }
        let ranges = self.ranges(range);
        touch_by_transition(&mut self.touches, &ranges, spot)?;
        Ok(())
    }

    /// The bytes of some levels and layers; of what is no image there are none.
    fn ranges(&self, range: &SubresourceRange) -> ByteRanges
        ensures short { AreShort result }
        ensures ranges { (m : AnyImage) → self.now.image ≡ Some m → AreRanges m range.now result }
    {
        match &self.image {
            Some(image) => ranges_of(image, range),
            None => ByteRanges {
                first: 0,
                size: 0,
                step: 0,
                count: 0,
            },
        }
    }
}

/// The same of an image.
fn ranges_of(image: &ImageBytes, range: &SubresourceRange) -> ByteRanges
    ensures short { AreShort result }
    ensures ranges { AreRanges image.now range.now result }
{
    let _len: u64 = image.len();
    image.ranges(range)
}
