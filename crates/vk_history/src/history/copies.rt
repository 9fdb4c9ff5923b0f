ghost use Rattle.std.specs.Prelude.{◌≡◌, ◌<◌, ◌^◌, ℕ, IfOk, Some};
ghost use Rattle.std.specs.List.{flat_map};
ghost use Rattle.vk_model.specs.declared.resource.ImageInfo.{ImageInfo as AnyImage};
ghost use Rattle.vk_model.specs.Trace.Objects.{image};
ghost use Rattle.vk_model.specs.World.Bytes.{in_buffer};
ghost use Rattle.vk_model.specs.World.ByteWrites.{copy_in_writes, copy_out_writes, copy_image_writes};
ghost use Rattle.vk_image_bytes.specs.Copies.{AreCopies, AreInside, AreBetween};
ghost use Rattle.vk_image_bytes.specs.Numbers.{byte_of, byte_count};
ghost use Rattle.vk_history.specs.PointViews.{past};

use crate::history::History;
use std::alloc::AllocError;
use std::vec::Vec;
use vk_model::{BufferCopy, BufferImageCopy, ImageCopy};

impl<'a> History<'a> {
    /// A copy from a buffer to an image, by the numbers of the image's bytes.
    pub fn copies_in(
        &self,
        id: u32,
        regions: &[BufferImageCopy],
    ) -> Result<Vec<BufferCopy>, AllocError>
        ensures { IfOk result (λ copies. (m : AnyImage) → image (past self.now) id ≡ Some m → (b size : ℕ) → size < 2 ^ 64 → AreInside m size regions.now
            → AreCopies (in_buffer b) (byte_of m id) size (byte_count m) (flat_map (copy_in_writes b id (Some m)) regions.now) copies.items) }
    {
        self.tables.contents.copies_in(id, regions)
    }

    /// A copy from an image to a buffer, by them.
    pub fn copies_out(
        &self,
        id: u32,
        regions: &[BufferImageCopy],
    ) -> Result<Vec<BufferCopy>, AllocError>
        ensures { IfOk result (λ copies. (m : AnyImage) → image (past self.now) id ≡ Some m → (b size : ℕ) → size < 2 ^ 64 → AreInside m size regions.now
            → AreCopies (byte_of m id) (in_buffer b) (byte_count m) size (flat_map (copy_out_writes id b (Some m)) regions.now) copies.items) }
    {
        self.tables.contents.copies_out(id, regions)
    }

    /// A copy from an image to another, or within one, by the numbers of both.
    pub fn copies_between(
        &self,
        source: u32,
        destination: u32,
        regions: &[ImageCopy],
    ) -> Result<Vec<BufferCopy>, AllocError>
        ensures { IfOk result (λ copies. (m n : AnyImage) → image (past self.now) source ≡ Some m → image (past self.now) destination ≡ Some n → AreBetween m n regions.now
            → AreCopies (byte_of m source) (byte_of n destination) (byte_count m) (byte_count n) (flat_map (copy_image_writes source destination (Some n)) regions.now) copies.items) }
    {
        self.tables
            .contents
            .copies_between(source, destination, regions)
    }
}
