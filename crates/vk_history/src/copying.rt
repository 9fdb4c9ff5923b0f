ghost use Rattle.std.specs.Prelude.{◌≡◌, ◌≢◌, ◌<◌, ◌^◌, ℕ, OnOk, IfOk, Some};
ghost use Rattle.std.specs.Option.{option_map};
ghost use Rattle.std.specs.List.{flat_map};
ghost use Rattle.vk_ids.specs.Ids.{value_of};
ghost use Rattle.vk_model.specs.declared.resource.ImageInfo.{ImageInfo as AnyImage};
ghost use Rattle.vk_model.specs.World.Bytes.{in_buffer};
ghost use Rattle.vk_model.specs.World.ByteWrites.{copy_in_writes, copy_out_writes, copy_image_writes};
ghost use Rattle.vk_model.specs.World.Ownership.{family_of};
ghost use Rattle.vk_image_bytes.specs.Copies.{AreCopies, AreInside, AreBetween};
ghost use Rattle.vk_image_bytes.specs.Numbers.{byte_of, byte_count};
ghost use Rattle.vk_history.specs.Contents.{AreCopiedNumbers, BecomesIn, IsLentWith, IsPasted, image_kept};

use crate::contents::Contents;
use crate::families::family_of;
use crate::resource_contents::lend_all;
use std::alloc::AllocError;
use std::vec::Vec;
use vk_image_bytes::ImageBytes;
use vk_model::{BufferCopy, BufferImageCopy, ImageCopy};
use vk_touches::Spot;

impl Contents {
    /// A command of a queue copies numbers from one resource to another, or within one.
    pub(crate) fn copy(
        &mut self,
        source: u32,
        destination: u32,
        regions: &[BufferCopy],
        queue: u32,
        spot: Spot,
    ) -> Result<(), AllocError>
        ensures { OnOk result (AreCopiedNumbers self.old self.new source destination regions.now queue spot) }
    {
        self.lend(source, regions, queue, spot)?;
        self.paste(destination, regions, queue, spot)?;
        Ok(())
    }

    /// A copy from a buffer to an image, by its numbers.
    pub(crate) fn copies_in(
        &self,
        image: u32,
        regions: &[BufferImageCopy],
    ) -> Result<Vec<BufferCopy>, AllocError>
        ensures { IfOk result (λ copies. (m : AnyImage) → image_kept self.now image ≡ Some m → (b size : ℕ) → size < 2 ^ 64 → AreInside m size regions.now
            → AreCopies (in_buffer b) (byte_of m image) size (byte_count m) (flat_map (copy_in_writes b image (Some m)) regions.now) copies.items) }
    {
        match self.image(image) {
            Some(bytes) => bytes.copies_in(self.alloc, regions),
            None => Ok(Vec::new(self.alloc)),
        }
    }

    /// A copy from an image to a buffer, by its numbers.
    pub(crate) fn copies_out(
        &self,
        image: u32,
        regions: &[BufferImageCopy],
    ) -> Result<Vec<BufferCopy>, AllocError>
        ensures { IfOk result (λ copies. (m : AnyImage) → image_kept self.now image ≡ Some m → (b size : ℕ) → size < 2 ^ 64 → AreInside m size regions.now
            → AreCopies (byte_of m image) (in_buffer b) (byte_count m) size (flat_map (copy_out_writes image b (Some m)) regions.now) copies.items) }
    {
        match self.image(image) {
            Some(bytes) => bytes.copies_out(self.alloc, regions),
            None => Ok(Vec::new(self.alloc)),
        }
    }

    /// A copy from an image to another, or within one, by their numbers.
    pub(crate) fn copies_between(
        &self,
        source: u32,
        destination: u32,
        regions: &[ImageCopy],
    ) -> Result<Vec<BufferCopy>, AllocError>
        ensures { IfOk result (λ copies. (m n : AnyImage) → image_kept self.now source ≡ Some m → image_kept self.now destination ≡ Some n → AreBetween m n regions.now
            → AreCopies (byte_of m source) (byte_of n destination) (byte_count m) (byte_count n) (flat_map (copy_image_writes source destination (Some n)) regions.now) copies.items) }
    {
        match (self.image(source), self.image(destination)) {
            (Some(read), Some(written)) => written.copies_from(read, self.alloc, regions),
            _ => Ok(Vec::new(self.alloc)),
        }
    }

    /// The bytes of an image by their numbers.
    pub(crate) fn image(&self, id: u32) -> Option<&ImageBytes>
        ensures { option_map (λ m. m.now) result ≡ image_kept self.now id }
    {
        match self.resources.get(id) {
            Some(contents) => contents.image.as_ref(),
            None => None,
        }
    }

    /// Reads the regions of a copy in its source, and keeps what is found there.
    fn lend(
        &mut self,
        source: u32,
        regions: &[BufferCopy],
        queue: u32,
        spot: Spot,
    ) -> Result<(), AllocError>
        ensures here { OnOk result (BecomesIn (IsLentWith regions.now self.new.stretches.items queue spot) (value_of self.old.resources source) (value_of self.new.resources source)) }
        ensures others { OnOk result ((other : ℕ) → other ≢ source → value_of self.new.resources other ≡ value_of self.old.resources other) }
    {
        let stretches = &mut self.stretches;
        match self.resources.get_mut(source) {
            Some(contents) => lend_all(contents, regions, stretches, queue, spot),
            None => {
                stretches.clear();
                Ok(())
            }
        }
    }

    /// Writes what was found in a copy's source, and is kept, to its destination.
    fn paste(
        &mut self,
        destination: u32,
        regions: &[BufferCopy],
        queue: u32,
        spot: Spot,
    ) -> Result<(), AllocError>
        ensures here { OnOk result (BecomesIn (λ old new. IsPasted old new regions.now self.old.stretches.items (family_of queue) spot) (value_of self.old.resources destination) (value_of self.new.resources destination)) }
        ensures others { OnOk result ((other : ℕ) → other ≢ destination → value_of self.new.resources other ≡ value_of self.old.resources other) }
    {
        let stretches = &mut self.stretches;
        match self.resources.get_mut(destination) {
            Some(contents) => contents.paste(regions, stretches, family_of(queue), spot),
            None => Ok(()),
        }
    }
}
