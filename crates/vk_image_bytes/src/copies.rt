ghost use Rattle.std.specs.Prelude.{◌≡◌, ◌<◌, ◌≤◌, ◌+◌, ◌^◌, ℕ, Some, IfOk, OnOk, IsTrue, ◌↔◌, false};
ghost use Rattle.std.specs.List.{flat_map};
ghost use Rattle.vk_model.specs.Trace.Image.{texel};
ghost use Rattle.vk_model.specs.Rules.Ranges.{bad_box};
ghost use Rattle.vk_model.specs.Rules.Sizes.{bad_image};
ghost use Rattle.vk_model.specs.World.Areas.{region_box, source_box, destination_box};
ghost use Rattle.vk_model.specs.World.Bytes.{in_buffer};
ghost use Rattle.vk_model.specs.World.ByteWrites.{copy_in_writes, copy_out_writes, copy_image_writes};
ghost use Rattle.vk_image_bytes.specs.Copies.{AreCopies, IsInside, AreInside, AreBetween};
ghost use Rattle.vk_image_bytes.specs.Inner.Rows as rows;
ghost use Rattle.vk_image_bytes.specs.Inner.Rows.{AreGathered};
ghost use Rattle.vk_image_bytes.specs.Numbers.{byte_of, byte_count};

use crate::image_bytes::ImageBytes;
use crate::joining::Copies;
use crate::rows::{Places, Rows};
use std::alloc::{AllocError, Global};
use vk_model::{BufferCopy, BufferImageCopy, ImageCopy};

impl ImageBytes {
    /// A copy from a buffer to the image, as copies from bytes of the buffer to numbers: one for
    /// each row, or for rows that lie together in both.
    pub fn copies_in(
        &self,
        alloc: Global,
        regions: &[BufferImageCopy],
    ) -> Result<Vec<BufferCopy>, AllocError>
        ensures { IfOk result (λ copies. (b i size : ℕ) → size < 2 ^ 64 → AreInside self.now size regions.now
            → AreCopies (in_buffer b) (byte_of self.now i) size (byte_count self.now) (flat_map (copy_in_writes b i (Some self.now)) regions.now) copies.items) }
    {
        let mut copies = Copies::new(alloc);
        for region in regions {
            self.add_in(region, &mut copies)?;
        }
        let list = copies.into_list()?;
        Ok(list)
    }

    /// A copy from the image to a buffer, as copies from numbers to bytes of the buffer: one for
    /// each row, or for rows that lie together in both.
    pub fn copies_out(
        &self,
        alloc: Global,
        regions: &[BufferImageCopy],
    ) -> Result<Vec<BufferCopy>, AllocError>
        ensures { IfOk result (λ copies. (b i size : ℕ) → size < 2 ^ 64 → AreInside self.now size regions.now
            → AreCopies (byte_of self.now i) (in_buffer b) (byte_count self.now) size (flat_map (copy_out_writes i b (Some self.now)) regions.now) copies.items) }
    {
        let mut copies = Copies::new(alloc);
        for region in regions {
            self.add_out(region, &mut copies)?;
        }
        let list = copies.into_list()?;
        Ok(list)
    }

    /// A copy from another image to this one, or within this one, as copies from numbers of the
    /// one to numbers of the other: one for each row, or for rows that lie together in both.
    pub fn copies_from(
        &self,
        source: &ImageBytes,
        alloc: Global,
        regions: &[ImageCopy],
    ) -> Result<Vec<BufferCopy>, AllocError>
        ensures { IfOk result (λ copies. (s d : ℕ) → AreBetween source.now self.now regions.now
            → AreCopies (byte_of source.now s) (byte_of self.now d) (byte_count source.now) (byte_count self.now) (flat_map (copy_image_writes s d (Some self.now)) regions.now) copies.items) }
    {
        let mut copies = Copies::new(alloc);
        for region in regions {
            self.add_from(source, region, &mut copies)?;
        }
        let list = copies.into_list()?;
        Ok(list)
    }

    /// Adds a region of a copy from a buffer.
    fn add_in(&self, region: &BufferImageCopy, copies: &mut Copies) -> Result<(), AllocError>
        ensures { OnOk result ((b i size : ℕ) → size < 2 ^ 64 → IsInside self.now size region.now
            → AreGathered copies.old copies.new (in_buffer b) (byte_of self.now i) size (byte_count self.now) (copy_in_writes b i (Some self.now) region.now)) }
    {
        if let Some(rows) = self.rows_in(region) {
            copies.add_rows(&rows)?;
        }
        Ok(())
    }

    /// Adds a region of a copy to a buffer.
    fn add_out(&self, region: &BufferImageCopy, copies: &mut Copies) -> Result<(), AllocError>
        ensures { OnOk result ((b i size : ℕ) → size < 2 ^ 64 → IsInside self.now size region.now
            → AreGathered copies.old copies.new (byte_of self.now i) (in_buffer b) (byte_count self.now) size (copy_out_writes i b (Some self.now) region.now)) }
    {
        if let Some(rows) = self.rows_in(region) {
            copies.add_rows(&rows.turned())?;
        }
        Ok(())
    }

    /// Adds a region of a copy from an image.
    fn add_from(
        &self,
        source: &ImageBytes,
        region: &ImageCopy,
        copies: &mut Copies,
    ) -> Result<(), AllocError>
        ensures { OnOk result ((s d : ℕ) → texel source.now.format ≡ texel self.now.format → bad_box source.now (source_box region.now) ≡ false → bad_box self.now (destination_box region.now) ≡ false
            → AreGathered copies.old copies.new (byte_of source.now s) (byte_of self.now d) (byte_count source.now) (byte_count self.now) (copy_image_writes s d (Some self.now) region.now)) }
    {
        if let Some(rows) = self.rows_from(source, region) {
            copies.add_rows(&rows)?;
        }
        Ok(())
    }

    /// The rows of a region of a copy from a buffer, unless it isn't in the image.
    fn rows_in(&self, region: &BufferImageCopy) -> Option<Rows>
        ensures shaped { bad_image self.now ≡ false }
        ensures rows { bad_box self.now (region_box region.now) ≡ false → result ≡ Some (rows.rows_in self.now region.now) }
    {
        if !self.has(region.level, region.first_layer) {
            return None;
        }
        let texel = self.texel_len();
        Some(Rows {
            source: buffer_places(region, texel),
            destination: self.places(region.level, region.first_layer, region.x, region.y),
            size: u64::from(region.width) * texel,
            height: region.height,
            layers: region.layers,
        })
    }

    /// The rows of a region of a copy from an image, unless it isn't in the images.
    fn rows_from(&self, source: &ImageBytes, region: &ImageCopy) -> Option<Rows>
        ensures source_shaped { bad_image source.now ≡ false }
        ensures shaped { bad_image self.now ≡ false }
        ensures rows { bad_box source.now (source_box region.now) ≡ false → bad_box self.now (destination_box region.now) ≡ false → result ≡ Some (rows.rows_between source.now self.now region.now) }
    {
        let (level, layer) = (region.destination_level, region.destination_first_layer);
        let is_read = source.has(region.source_level, region.source_first_layer);
        let is_written = self.has(level, layer);
        if !is_read || !is_written {
            return None;
        }
        let places = self.places(level, layer, region.destination_x, region.destination_y);
        Some(Rows {
            source: source.places(
                region.source_level,
                region.source_first_layer,
                region.source_x,
                region.source_y,
            ),
            destination: places,
            size: u64::from(region.width) * self.texel_len(),
            height: region.height,
            layers: region.layers,
        })
    }

    /// Whether the image has a level of a layer.
    fn has(&self, level: u32, layer: u32) -> bool
        ensures there { IsTrue result ↔ ((level < self.now.levels) × (layer < self.now.layers)) }
        ensures shaped { bad_image self.now ≡ false }
    {
        let (levels, layers) = (self.levels(), self.layers());
        level < levels && layer < layers
    }
}

/// Where the rows of a region lie in a buffer, for texels of so many bytes.
fn buffer_places(region: &BufferImageCopy, texel: u64) -> Places
    requires { texel ≤ 16 }
    ensures { result ≡ rows.buffer_places texel region.now }
{
    let row_texels = if region.row_length == 0 {
        region.width
    } else {
        region.row_length
    };
    let layer_rows = if region.image_height == 0 {
        region.height
    } else {
        region.image_height
    };
    let row = u64::from(row_texels) * texel;
    Places {
        first: region.buffer_offset,
        row,
        layer: u64::from(layer_rows).saturating_mul(row),
    }
}
