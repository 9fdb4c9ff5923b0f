ghost use Rattle.std.specs.Prelude.{◌≡◌, ◌+◌, ◌-◌, ◌*◌, ◌/◌, ◌%◌, ◌<◌, ◌≤◌, ℕ, length, slice_index};
ghost use Rattle.vk_image_transfer.specs.Held.{BufferOf, two_held, buffer_at, image_at, bytes_held};
ghost use Rattle.vk_image_transfer.specs.Pieces.{piece_in, copy_out_pieces};
ghost use Rattle.vk_image_transfer.specs.Rows.{AreWritten, BoxFits, LiesApart, RegionFits, image_row, buffer_row};
ghost use Rattle.vk_image_transfer.specs.Stretches.{WritesAt, is_among};
ghost use Rattle.vk_model.specs.declared.resource.ImageInfo.{ImageInfo};
ghost use Rattle.vk_model.specs.Trace.Image as shape;
ghost use Rattle.vk_model.specs.World.Areas.{region_box};
ghost use Rattle.vk_transfer.specs.Ran.{AreApart, HaveRun};

use crate::moving::{copy_texels, copy_texels_within};
use crate::rows::{RowPlace, buffer_line, region_line, row_count};
use crate::stretches::RowStretches;
use vk_heap::Region;
use vk_image_tiles::{Shape, level_width, texel_size};
use vk_model::{BufferImageCopy, texels_inside};

/// One region of a copy from an image to a buffer (Vulkan, "Copying Data Between Buffers and
/// Images").
#[derive(Clone, Copy, Debug, PartialEq, Eq)]
pub struct CopyOut {
    /// Where it lies in the image and in the buffer.
    pub region: BufferImageCopy,
}

impl CopyOut {
    /// How many pieces it is run in: one for each row.
    pub fn pieces(&self) -> u64
        ensures { (i b : ℕ) (m : ImageInfo) → result ≡ length (copy_out_pieces i b m self.now.region) }
    {
        let region = &self.region;
        row_count(region.width, region.height, region.layers)
    }

    /// The bytes that the piece of this number writes, where the buffer lies from `start` on.
    pub fn stretches(&self, number: u64, image: &Shape, start: u64) -> RowStretches
        requires region { BoxFits image.now (region_box self.now.region) }
        requires piece { number < self.now.region.layers * self.now.region.height }
        requires columns { 0 < self.now.region.width }
        requires end { RegionFits self.now.region (shape.texel image.now.format) (18446744073709551615 - start) }
        ensures { (i b n : ℕ) → RegionFits self.now.region (shape.texel image.now.format) n → WritesAt (is_among result) (piece_in (copy_out_pieces i b image.now self.now.region) number) b (BufferOf n) start }
    {
        let info = image.image();
        let texel = u64::from(texel_size(info.format));
        let place = RowPlace::new(number, self.region.layers, self.region.height);
        let line = buffer_line(&self.region, texel, start, place);
        let _width = level_width(&info, self.region.level);
        RowStretches::new(line, self.region.width, texel)
    }

    /// Runs the piece of this number between two regions of memory: the image lies in `source`
    /// from `source_start` on, the buffer in `destination` from `destination_start` on.
    pub fn run_piece(
        &self,
        number: u64,
        image: &Shape,
        source: &Region,
        source_start: u64,
        destination: &mut Region,
        destination_start: u64,
    )
        requires region { BoxFits image.now (region_box self.now.region) }
        requires piece { number < self.now.region.layers * self.now.region.height }
        requires columns { 0 < self.now.region.width }
        requires read { source_start + shape.image_size image.now image.now.tiling ≤ length source.now }
        requires room { RegionFits self.now.region (shape.texel image.now.format) (length destination.old - destination_start) }
        ensures ran { (i b n : ℕ) → ¬ (i ≡ b) → RegionFits self.now.region (shape.texel image.now.format) n → HaveRun (piece_in (copy_out_pieces i b image.now self.now.region) number)
            (bytes_held (two_held i (image_at source.now source_start image.now) b (buffer_at destination.old destination_start n)))
            (bytes_held (two_held i (image_at source.now source_start image.now) b (buffer_at destination.new destination_start n))) }
        ensures kept { AreWritten destination.old destination.new self.now.region.width (shape.texel image.now.format)
            (buffer_row self.now.region (shape.texel image.now.format) destination_start (number / self.now.region.height) (number % self.now.region.height))
            (λ x p. slice_index source.now (image_row image.now source_start self.now.region.level (self.now.region.first_layer + number / self.now.region.height) self.now.region.x (self.now.region.y + number % self.now.region.height) x + p)) }
    {
        let info = image.image();
        let texel = u64::from(texel_size(info.format));
        let place = RowPlace::new(number, self.region.layers, self.region.height);
        let _sizes = (source.size(), destination.size());
        let from = region_line(&self.region, place, image, source_start);
        let to = buffer_line(&self.region, texel, destination_start, place);
        let _width = level_width(&info, self.region.level);
        copy_texels(source, &from, destination, &to, self.region.width, texel);
    }

    /// Runs the piece of this number within one region of memory: the image lies there from
    /// `source_start` on, the buffer from `destination_start` on, and they share no byte.
    pub fn run_piece_within(
        &self,
        number: u64,
        image: &Shape,
        region: &mut Region,
        source_start: u64,
        destination_start: u64,
    )
        requires region { BoxFits image.now (region_box self.now.region) }
        requires piece { number < self.now.region.layers * self.now.region.height }
        requires columns { 0 < self.now.region.width }
        requires read { source_start + shape.image_size image.now image.now.tiling ≤ length region.old }
        requires room { RegionFits self.now.region (shape.texel image.now.format) (length region.old - destination_start) }
        requires apart { LiesApart self.now.region (shape.texel image.now.format) destination_start source_start (shape.image_size image.now image.now.tiling) }
        ensures ran { (i b n : ℕ) → ¬ (i ≡ b) → RegionFits self.now.region (shape.texel image.now.format) n → AreApart source_start (shape.image_size image.now image.now.tiling) destination_start n
            → HaveRun (piece_in (copy_out_pieces i b image.now self.now.region) number)
            (bytes_held (two_held i (image_at region.old source_start image.now) b (buffer_at region.old destination_start n)))
            (bytes_held (two_held i (image_at region.new source_start image.now) b (buffer_at region.new destination_start n))) }
        ensures kept { AreWritten region.old region.new self.now.region.width (shape.texel image.now.format)
            (buffer_row self.now.region (shape.texel image.now.format) destination_start (number / self.now.region.height) (number % self.now.region.height))
            (λ x p. slice_index region.old (image_row image.now source_start self.now.region.level (self.now.region.first_layer + number / self.now.region.height) self.now.region.x (self.now.region.y + number % self.now.region.height) x + p)) }
    {
        texels_inside();
        let info = image.image();
        let texel = u64::from(texel_size(info.format));
        let place = RowPlace::new(number, self.region.layers, self.region.height);
        let _size = region.size();
        let from = region_line(&self.region, place, image, source_start);
        let to = buffer_line(&self.region, texel, destination_start, place);
        let _width = level_width(&info, self.region.level);
        copy_texels_within(region, &from, &to, self.region.width, texel);
    }
}
