ghost use Rattle.std.specs.Prelude.{◌≡◌, ℕ, OnOk, IfOk, Some, None, false};
ghost use Rattle.vk_model.specs.Basics.{within};
ghost use Rattle.vk_model.specs.Rules.Sizes.{bad_image};
ghost use Rattle.vk_image_bytes.specs.Numbers.{byte_count};
ghost use Rattle.vk_history.specs.Contents.{IsMade, IsTaken, IsRead, IsSet, IsWritten, IsLent, IsPasted, IsWrittenBy, IsLentWith};

use crate::families::family_of;
use crate::ranges::assign;
use crate::stretches::{Stretch, copies, define_all};
use std::alloc::{AllocError, Global};
use vk_image_bytes::ImageBytes;
use vk_model::{BufferCopy, BufferInfo, ImageInfo, Length, Sharing};
use vk_ranges::RangeMap;
use vk_touches::{Spot, Touch, TouchMap, touch, touch_destinations, touch_sources};

/// What is known of the bytes of a buffer or an image.
#[derive(Drop)]
pub struct ResourceContents {
    /// The bytes of an image by their numbers; of a buffer there is none.
    pub image: Option<ImageBytes>,
    /// Whether each byte is defined.
    pub defined: RangeMap<bool>,
    /// Whether the host has written each byte to its cache, and not flushed it.
    pub dirty: RangeMap<bool>,
    /// Who touched each byte last.
    pub touches: TouchMap,
    /// Whether the host reaches it through a cache.
    pub is_cached: bool,
    /// Whether one queue family at a time owns it.
    pub is_exclusive: bool,
    /// The queue family that owns it or has released it, if one does.
    pub owner: Option<u32>,
}

impl ResourceContents {
    /// Of a buffer that was made, in memory with a cache or without.
    pub(crate) fn of_buffer(
        alloc: Global,
        info: &BufferInfo,
        is_cached: bool,
    ) -> Result<ResourceContents, AllocError>
        ensures { IfOk result (λ contents. IsMade contents info.now.size info.now.sharing is_cached None) }
    {
        ResourceContents::new(alloc, info.size, info.sharing, is_cached, None)
    }

    /// Of an image that was made.
    pub(crate) fn of_image(
        alloc: Global,
        info: &ImageInfo,
        is_cached: bool,
    ) -> Result<ResourceContents, AllocError>
        requires { bad_image info.now ≡ false }
        ensures { IfOk result (λ contents. IsMade contents (byte_count info.now) info.now.sharing is_cached (Some info.now)) }
    {
        let image = ImageBytes::of(info);
        let size = image.len();
        ResourceContents::new(alloc, size, info.sharing, is_cached, Some(image))
    }

    /// Of a resource of so many bytes that was made.
    fn new(
        alloc: Global,
        size: u64,
        sharing: Sharing,
        is_cached: bool,
        image: Option<ImageBytes>,
    ) -> Result<ResourceContents, AllocError>
        ensures { IfOk result (λ contents. IsMade contents size sharing is_cached image) }
    {
        Ok(ResourceContents {
            image,
            defined: RangeMap::new(alloc, size, false)?,
            dirty: RangeMap::new(alloc, size, false)?,
            touches: TouchMap::new(alloc, size)?,
            is_cached,
            is_exclusive: matches!(sharing, Sharing::Exclusive),
            owner: None,
        })
    }

    /// After a host entry has read bytes.
    pub(crate) fn read(&mut self, offset: u64, size: u64, spot: Spot) -> Result<(), AllocError>
        ensures { OnOk result (IsRead self.old self.new offset size spot) }
    {
        touch(&mut self.touches, offset, size, Touch::HostRead, spot)
    }

    /// After a host entry has written bytes.
    pub(crate) fn set(&mut self, offset: u64, size: u64, spot: Spot) -> Result<(), AllocError>
        ensures { OnOk result (IsSet self.old self.new offset size spot) }
    {
        assign(&mut self.defined, offset, size, true)?;
        assign(&mut self.dirty, offset, size, self.is_cached)?;
        touch(&mut self.touches, offset, size, Touch::HostWrite, spot)?;
        Ok(())
    }

    /// After a command has given bytes values on a queue of a family.
    pub(crate) fn write(
        &mut self,
        offset: u64,
        size: u64,
        family: u32,
        spot: Spot,
    ) -> Result<(), AllocError>
        ensures { OnOk result (IsWritten self.old self.new (within offset size) family spot) }
    {
        self.take_over(family)?;
        assign(&mut self.defined, offset, size, true)?;
        touch(&mut self.touches, offset, size, Touch::Write, spot)?;
        Ok(())
    }

    /// After a command of a queue has read the regions of a copy.
    pub(crate) fn lend(
        &mut self,
        regions: &[BufferCopy],
        queue: u32,
        spot: Spot,
    ) -> Result<(), AllocError>
        ensures { OnOk result (IsLent self.old self.new regions.now queue spot) }
    {
        self.take_over(family_of(queue))?;
        touch_sources(&mut self.touches, regions, Touch::Read(queue), spot)?;
        Ok(())
    }

    /// After a command has written the regions of a copy on a queue of a family; that uses up the
    /// stretches.
    pub(crate) fn paste(
        &mut self,
        regions: &[BufferCopy],
        stretches: &mut Vec<Stretch>,
        family: u32,
        spot: Spot,
    ) -> Result<(), AllocError>
        ensures { OnOk result (IsPasted self.old self.new regions.now stretches.old.items family spot) }
    {
        self.take_over(family)?;
        define_all(&mut self.defined, stretches)?;
        touch_destinations(&mut self.touches, regions, Touch::Write, spot)?;
        Ok(())
    }

    /// A use by a queue family: of an exclusive resource that another one owns all is lost, and the
    /// family owns it from then on.
    pub(crate) fn take_over(&mut self, family: u32) -> Result<(), AllocError>
        ensures { OnOk result (IsTaken self.old self.new family) }
    {
        if !self.is_exclusive {
            return Ok(());
        }
        if self.owner.is_some_and(|owner| owner != family) {
            let len = self.defined.len();
            self.defined.assign(0, len, false)?;
        }
        self.owner = Some(family);
        Ok(())
    }
}

/// After a command of a queue has given a range of a buffer values.
pub(crate) fn write_all(
    contents: &mut ResourceContents,
    offset: u64,
    size: Length,
    queue: u32,
    spot: Spot,
) -> Result<(), AllocError>
    ensures { OnOk result (IsWrittenBy offset size queue spot contents.old contents.new) }
{
    let bytes = size.filled(contents.defined.len(), offset);
    contents.write(offset, bytes, family_of(queue), spot)
}

/// After a command of a queue has read the regions of a copy, with what is found there in place of
/// other stretches.
pub(crate) fn lend_all(
    contents: &mut ResourceContents,
    regions: &[BufferCopy],
    stretches: &mut Vec<Stretch>,
    queue: u32,
    spot: Spot,
) -> Result<(), AllocError>
    ensures { OnOk result (IsLentWith regions.now stretches.new.items queue spot contents.old contents.new) }
{
    contents.lend(regions, queue, spot)?;
    copies(&contents.defined, regions, stretches)
}
